//! Numbers of a column, read and converted.
ghost use Rattle.std.specs.Prelude.{◌≡◌, IsTrue, List, [], Option, None, Some, refl, OnOk, length, take, drop, map, option_map};
ghost use Rattle.std.specs.Option.{option_copied, option_map_or};
ghost use Rattle.columns_core.specs.Causes.{ComesOf};
ghost use Rattle.columns_core.specs.declared.cell.Cell.{Cell};
ghost use Rattle.page_decoding.specs.Outcome.{causes_in};
ghost use Rattle.flat_values.specs.Added.{Adds};
ghost use Rattle.flat_values.specs.Conversion.{Conversion};
ghost use Rattle.flat_values.specs.Decoded.{IsMaskFor};
ghost use Rattle.flat_values.specs.NumbersLeft.{IsAmongNumbers, number_left};

use crate::keys::{KeyPlace, take_named};
use crate::numbers::{NumberPlace, open_deltas, open_plain, skip_plain, take_deltas, take_plain};
use crate::validity::mark_values;
use crate::{
    Convert, DecodedNumbers, IntoArray, ParquetNativeType, ValueDecoder, ValueEncoding, Values,
};
use columns_core::{DataType, Error, MutablePrimitiveArray, NativeType, Part};
use parquet_page::{DictPage, ValidityWord};
use std::alloc::Global;
use std::marker::PhantomData;

/// The number of a dictionary's entries.
pub(crate) fn entry_count<T>(dict: Option<&Vec<T>>) -> Option<usize>
    ensures { result ≡ option_map (λ entries. length entries.items) (option_copied dict.entry) }
{
    Some(dict?.len())
}

/// The entries of a dictionary, if there is one.
pub(crate) fn entries_of<'a, T>(dict: Option<&'a Vec<T>>) -> &'a [T]
    ensures { result.now ≡ option_map_or (λ entries. entries.items) (option_copied dict.entry) [] }
{
    match dict {
        None => &[],
        Some(entries) => entries.as_slice(),
    }
}

/// Appends what the next `count` values give, or all that are left.
fn take_values<P: ParquetNativeType, T: NativeType, C: Convert<P, T>>(
    place: &mut NumberPlace,
    bytes: &[u8],
    entries: &[T],
    rule: C,
    values: &mut Vec<T>,
    count: usize,
) -> Result<(), Error>
    requires { IsAmongNumbers P.physical bytes.now place.old }
    ensures added { OnOk result (Adds T.cell values.old.items values.new.items
        (take count (number_left (C.rule rule) P.physical P.delta
        (Some (map T.cell entries.now)) bytes.now place.old))) }
    ensures rest { OnOk result (number_left (C.rule rule) P.physical P.delta
        (Some (map T.cell entries.now)) bytes.now place.new
        ≡ drop count (number_left (C.rule rule) P.physical P.delta
        (Some (map T.cell entries.now)) bytes.now place.old)) }
    ensures among { OnOk result (IsAmongNumbers P.physical bytes.now place.new) }
    ensures cause { ComesOf result
        (causes_in (take count (number_left (C.rule rule) P.physical P.delta
        (Some (map T.cell entries.now)) bytes.now place.old))) }
{
    match place {
        NumberPlace::Plain(plain) => {
            *plain = take_plain::<P, T, C>(*plain, bytes, rule, values, count)?;
            Ok(())
        }
        NumberPlace::Keys(keys) => {
            *keys = take_named(*keys, bytes, entries, values, count)?;
            Ok(())
        }
        NumberPlace::Deltas(deltas) => {
            *deltas = take_deltas::<P, T, C>(*deltas, bytes, rule, values, count)?;
            Ok(())
        }
    }
}

/// Passes over the next `count` values, or over all that are left.
fn skip_values<P: ParquetNativeType>(place: NumberPlace, bytes: &[u8], count: usize) -> NumberPlace
    requires { IsAmongNumbers P.physical bytes.now place }
    ensures rest { (rule : Conversion) (entries : Option (List Cell))
        → number_left rule P.physical P.delta entries bytes.now result
        ≡ drop count (number_left rule P.physical P.delta entries bytes.now place) }
    ensures among { IsAmongNumbers P.physical bytes.now result }
{
    match place {
        NumberPlace::Plain(place) => NumberPlace::Plain(skip_plain::<P>(place, bytes, count)),
        NumberPlace::Keys(place) => {
            let mut behind = place;
            behind.skip(bytes, count);
            NumberPlace::Keys(behind)
        }
        NumberPlace::Deltas(place) => {
            let mut behind = place;
            behind.skip(bytes, count);
            NumberPlace::Deltas(behind)
        }
    }
}

/// Reads numbers of a stored type as those of an array, by a conversion.
#[derive(Clone, Copy)]
pub struct NumberValues<P, T, C> {
    rule: C,
    stored: PhantomData<P>,
    number: PhantomData<T>,
}

impl<P: ParquetNativeType, T: NativeType + Default, C: Convert<P, T>> NumberValues<P, T, C> {
    pub fn new(rule: C) -> Self
        ensures { result.rule ≡ rule }
    {
        NumberValues {
            rule,
            stored: PhantomData,
            number: PhantomData,
        }
    }
}

impl<P: ParquetNativeType, T: NativeType + Default, C: Convert<P, T>> Values
    for NumberValues<P, T, C> {
    type Place = NumberPlace;

    type Dict = Vec<T>;

    type Decoded = DecodedNumbers<T>;

    ghost is_own = { λ _ decoded. IsMaskFor decoded.values.items decoded.validity };

    ghost is_own_dict = { λ _ _. Unit {0} };

    ghost is_over = { λ _ bytes place. IsAmongNumbers P.physical bytes place };

    ghost left = { λ reader dict bytes place. number_left (C.rule reader.rule) P.physical P.delta (option_map (λ entries. map T.cell entries.items) dict) bytes place };

    ghost most_bytes = { λ _. None };

    ghost own_fits = { λ _ _ _. refl };

    fn take(
        &self,
        bytes: &[u8],
        dict: Option<&Vec<T>>,
        place: &mut NumberPlace,
        decoded: &mut DecodedNumbers<T>,
        count: usize,
    ) -> Result<(), Error> {
        let entries = entries_of(dict);
        let held = decoded.values.len();
        take_values::<P, T, C>(place, bytes, entries, self.rule, &mut decoded.values, count)?;
        let taken = decoded.values.len() - held;
        mark_values(&mut decoded.validity, taken)
    }

    fn take_word(
        &self,
        bytes: &[u8],
        dict: Option<&Vec<T>>,
        place: &mut NumberPlace,
        decoded: &mut DecodedNumbers<T>,
        word: ValidityWord,
    ) -> Result<(), Error> {
        let entries = entries_of(dict);
        let held = decoded.values.len();
        take_values::<P, T, C>(
            place,
            bytes,
            entries,
            self.rule,
            &mut decoded.values,
            word.present(),
        )?;
        decoded.spread(held, word)
    }

    fn skip(&self, bytes: &[u8], place: &mut NumberPlace, count: usize) {
        *place = skip_values::<P>(*place, bytes, count);
    }

    fn push_nulls(&self, decoded: &mut DecodedNumbers<T>, count: usize) -> Result<(), Error> {
        decoded.push_nulls(count)
    }

    fn with_capacity(&self, alloc: Global, capacity: usize) -> Result<DecodedNumbers<T>, Error> {
        DecodedNumbers::with_capacity(alloc, capacity)
    }
}

impl<P: ParquetNativeType, T: NativeType + Default, C: Convert<P, T>> ValueDecoder
    for NumberValues<P, T, C> {
    ghost physical = { λ _. P.physical };

    ghost rule = { λ reader. C.rule reader.rule };

    ghost dict_shown = { λ _ entries. map T.cell entries.items };

    fn open(
        &self,
        encoding: ValueEncoding,
        bytes: &[u8],
        count: usize,
        dict: Option<&Vec<T>>,
    ) -> Result<NumberPlace, Error> {
        match encoding {
            ValueEncoding::Plain => Ok(NumberPlace::Plain(open_plain::<P>(bytes, count)?)),
            ValueEncoding::Keys => {
                let entries = entry_count(dict);
                Ok(NumberPlace::Keys(KeyPlace::open(bytes, count, entries)?))
            }
            ValueEncoding::DeltaPacked => Ok(NumberPlace::Deltas(open_deltas::<P>(bytes, count)?)),
            ValueEncoding::DeltaLengths => unreachable!(),
        }
    }

    fn read_dict(&self, alloc: Global, page: &DictPage<'_>) -> Result<Vec<T>, Error> {
        if !P::is_plain(page.buffer, page.num_values) {
            return Err(Error::ExternalFormat(Part::Dictionary));
        }
        let pieces = P::plain_pieces(page.buffer);
        let mut entries = Vec::with_capacity(alloc, pieces.len())?;
        self.rule.extend_plain(&mut entries, pieces)?;
        Ok(entries)
    }
}

impl<P: ParquetNativeType, T: NativeType + Default, C: Convert<P, T>> IntoArray
    for NumberValues<P, T, C> {
    ghost use Rattle.columns_core.specs.Column.{cell_of};

    type Array = MutablePrimitiveArray<T>;

    ghost is_type = { λ _ data_type. IsTrue (T.stores data_type) };

    ghost array_type = { λ array. array.data_type };

    ghost array_cells = { λ array. map (cell_of T.cell) array.items };

    fn fits(&self, data_type: &DataType) -> bool {
        T::stores(data_type)
    }

    fn into_array(
        &self,
        decoded: DecodedNumbers<T>,
        data_type: DataType,
    ) -> Result<MutablePrimitiveArray<T>, Error> {
        decoded.into_mutable(data_type)
    }
}
