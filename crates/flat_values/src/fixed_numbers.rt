//! Numbers of a column of byte strings of one size, read and converted.
ghost use Rattle.std.specs.Prelude.{◌≡◌, ◌<◌, ◌%◌, IsTrue, None, Some, refl, IfOk, IfErr, OnOk, IsSome, length, take, drop, map, option_map};
ghost use Rattle.columns_core.specs.Causes.{ComesOf, IsWantOfMemory};
ghost use Rattle.columns_core.specs.Fixed.{fixed_pieces};
ghost use Rattle.page_decoding.specs.Outcome.{causes_in};
ghost use Rattle.flat_values.specs.Added.{Adds};
ghost use Rattle.flat_values.specs.Decoded.{IsMaskFor};
ghost use Rattle.flat_values.specs.FixedLeft.{IsAmongFixed, fixed_outcomes};
ghost use Rattle.flat_values.specs.Outcomes.{stored_outcome};
ghost use Rattle.parquet_encoding.specs.Places.{bytes_in};
ghost use Rattle.parquet_encoding.specs.PlainLeft.{fixed_left, fixed_values, value_size};
ghost use Rattle.parquet_page.specs.Stored.{Octets};

use crate::fixed::{open_plain, skip_values};
use crate::keys::{KeyPlace, take_named};
use crate::number_values::{entries_of, entry_count};
use crate::validity::mark_values;
use crate::{
    ConvertFixed, DecodedNumbers, FixedPlace, IntoArray, ValueDecoder, ValueEncoding, Values,
};
use columns_core::{DataType, Error, MutablePrimitiveArray, NativeType, Part};
use parquet_encoding::PlainFixed;
use parquet_page::DictPage;
use std::alloc::{AllocError, Global};
use std::marker::PhantomData;

/// The bytes of the longest number, all zero.
const ZEROS: [u8; 16] = [0; 16];

/// What byte strings of a size become, behind the numbers that are there.
fn extend_strings<T: NativeType, C: ConvertFixed<T>>(
    values: &mut Vec<T>,
    rule: C,
    bytes: &[u8],
    size: usize,
) -> Result<(), AllocError>
    requires size { size ≡ C.string_size rule }
    requires some { 0 < size }
    requires whole { length bytes.now % size ≡ 0 }
    ensures { OnOk result (Adds T.cell values.old.items values.new.items
        (map (λ value. stored_outcome (C.rule rule) (Octets value)) (fixed_pieces size bytes.now))) }
{
    values.extend(
        bytes
            .chunks_exact(size)
            .map(move |string| rule.convert(string)),
    )
}

/// Appends what the next byte strings give, at most so many.
fn take_plain<T: NativeType, C: ConvertFixed<T>>(
    place: PlainFixed,
    bytes: &[u8],
    rule: C,
    values: &mut Vec<T>,
    count: usize,
) -> Result<PlainFixed, Error>
    requires spelled { IsSome (fixed_left place bytes.now) }
    requires size { value_size place ≡ C.string_size rule }
    ensures added { OnOk result (Adds T.cell values.old.items values.new.items
        (map (λ value. stored_outcome (C.rule rule) (Octets value))
        (map (bytes_in bytes.now) (take count (fixed_values place bytes.now))))) }
    ensures rest { IfOk result (λ new.
        fixed_left new bytes.now ≡ Some (drop count (fixed_values place bytes.now))) }
    ensures size { IfOk result (λ new. value_size new ≡ value_size place) }
    ensures memory { IfErr result IsWantOfMemory }
{
    let mut place = place;
    let size = rule.size();
    extend_strings(values, rule, place.take(bytes, count), size)?;
    Ok(place)
}

/// Appends what the next values give, at most so many.
fn take_values<T: NativeType, C: ConvertFixed<T>>(
    place: FixedPlace,
    bytes: &[u8],
    entries: &[T],
    rule: C,
    values: &mut Vec<T>,
    count: usize,
) -> Result<FixedPlace, Error>
    requires { IsAmongFixed (C.string_size rule) bytes.now place }
    ensures added { OnOk result (Adds T.cell values.old.items values.new.items
        (take count (fixed_outcomes (C.rule rule) (Some (map T.cell entries.now)) bytes.now place))) }
    ensures rest { IfOk result (λ new.
        fixed_outcomes (C.rule rule) (Some (map T.cell entries.now)) bytes.now new
        ≡ drop count (fixed_outcomes (C.rule rule) (Some (map T.cell entries.now)) bytes.now place)) }
    ensures among { IfOk result (IsAmongFixed (C.string_size rule) bytes.now) }
    ensures cause { ComesOf result
        (causes_in (take count (fixed_outcomes (C.rule rule)
        (Some (map T.cell entries.now)) bytes.now place))) }
{
    match place {
        FixedPlace::Plain(place) => {
            let behind = take_plain(place, bytes, rule, values, count)?;
            Ok(FixedPlace::Plain(behind))
        }
        FixedPlace::Keys(place) => {
            let behind = take_named(place, bytes, entries, values, count)?;
            Ok(FixedPlace::Keys(behind))
        }
    }
}

/// Reads byte strings of one size as the numbers of an array, by a conversion.
#[derive(Clone, Copy)]
pub struct FixedNumbers<T, C> {
    rule: C,
    number: PhantomData<T>,
}

impl<T: NativeType, C: ConvertFixed<T>> FixedNumbers<T, C> {
    pub fn new(rule: C) -> Self
        ensures { result.rule ≡ rule }
    {
        FixedNumbers {
            rule,
            number: PhantomData,
        }
    }
}

impl<T: NativeType, C: ConvertFixed<T>> Values for FixedNumbers<T, C> {
    type Place = FixedPlace;

    type Dict = Vec<T>;

    type Decoded = DecodedNumbers<T>;

    ghost is_own = { λ _ decoded. IsMaskFor decoded.values.items decoded.validity };

    ghost is_own_dict = { λ _ _. Unit {0} };

    ghost is_over = { λ reader bytes place. IsAmongFixed (C.string_size reader.rule) bytes place };

    ghost left = { λ reader dict bytes place. fixed_outcomes (C.rule reader.rule) (option_map (λ entries. map T.cell entries.items) dict) bytes place };

    ghost most_bytes = { λ _. None };

    ghost own_fits = { λ _ _ _. refl };

    fn take(
        &self,
        bytes: &[u8],
        dict: Option<&Vec<T>>,
        place: &mut FixedPlace,
        decoded: &mut DecodedNumbers<T>,
        count: usize,
    ) -> Result<(), Error> {
        let entries = entries_of(dict);
        let held = decoded.values.len();
        let behind = take_values(
            *place,
            bytes,
            entries,
            self.rule,
            &mut decoded.values,
            count,
        )?;
        *place = behind;
        let taken = decoded.values.len() - held;
        mark_values(&mut decoded.validity, taken)
    }

    fn skip(&self, bytes: &[u8], place: &mut FixedPlace, count: usize) {
        *place = skip_values(*place, bytes, count);
    }

    /// Nulls stand on what zero bytes become.
    fn push_nulls(&self, decoded: &mut DecodedNumbers<T>, count: usize) -> Result<(), Error> {
        let zero = self.rule.convert(&ZEROS[..self.rule.size()]);
        decoded.push_nulls_on(count, zero)
    }

    fn with_capacity(&self, alloc: Global, capacity: usize) -> Result<DecodedNumbers<T>, Error> {
        DecodedNumbers::with_capacity(alloc, capacity)
    }
}

impl<T: NativeType, C: ConvertFixed<T>> ValueDecoder for FixedNumbers<T, C> {
    ghost use Rattle.parquet_meta.specs.declared.metadata.PhysicalType.TheVariants.{FixedLenByteArray};

    ghost physical = { λ reader. FixedLenByteArray (C.string_size reader.rule) };

    ghost rule = { λ reader. C.rule reader.rule };

    ghost dict_shown = { λ _ entries. map T.cell entries.items };

    fn open(
        &self,
        encoding: ValueEncoding,
        bytes: &[u8],
        count: usize,
        dict: Option<&Vec<T>>,
    ) -> Result<FixedPlace, Error> {
        match encoding {
            ValueEncoding::Plain => {
                let place = open_plain(bytes, self.rule.size(), count, Part::Values)?;
                Ok(FixedPlace::Plain(place))
            }
            ValueEncoding::Keys => {
                let place = KeyPlace::open(bytes, count, entry_count(dict))?;
                Ok(FixedPlace::Keys(place))
            }
            // Deltas go with no byte strings of one size.
            ValueEncoding::DeltaPacked | ValueEncoding::DeltaLengths => unreachable!(),
        }
    }

    fn read_dict(&self, alloc: Global, page: &DictPage<'_>) -> Result<Vec<T>, Error> {
        let size = self.rule.size();
        let place = open_plain(page.buffer, size, page.num_values, Part::Dictionary)?;
        let mut entries = Vec::with_capacity(alloc, page.num_values)?;
        let _end = take_plain(place, page.buffer, self.rule, &mut entries, page.num_values)?;
        Ok(entries)
    }
}

impl<T: NativeType, C: ConvertFixed<T>> IntoArray for FixedNumbers<T, C> {
    ghost use Rattle.columns_core.specs.Column.{cell_of};

    type Array = MutablePrimitiveArray<T>;

    ghost is_type = { λ _ data_type. IsTrue (T.stores data_type) };

    ghost array_type = { λ array. array.data_type };

    ghost array_cells = { λ array. map (cell_of T.cell) array.items };

    fn fits(&self, data_type: &DataType) -> bool {
        T::stores(data_type)
    }

    fn into_array(
        &self,
        decoded: DecodedNumbers<T>,
        data_type: DataType,
    ) -> Result<MutablePrimitiveArray<T>, Error> {
        decoded.into_mutable(data_type)
    }
}
