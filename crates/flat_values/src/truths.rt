//! Truth values of a page, and those that were decoded.
ghost use Rattle.std.specs.Prelude.{◌≡◌, ◌++◌, IsTrue, length, map, take, drop, None, Some, refl, IfOk, IfErr, OnOk, IsSome};
ghost use Rattle.columns_core.specs.Causes.{ExternalFormat, IsWantOfMemory, cause_of, is_invalid_argument};
ghost use Rattle.columns_core.specs.ElementType.{is_boolean};
ghost use Rattle.columns_core.specs.declared.cell.Cell.{Bool as TruthCell};
ghost use Rattle.flat_values.specs.Decoded.{IsMaskFor, marked, marked_cells};
ghost use Rattle.flat_values.specs.TruthsLeft.{IsOverTruths, truth_outcomes};
ghost use Rattle.parquet_encoding.specs.Plain.{plain_bits};
ghost use Rattle.parquet_encoding.specs.PlainLeft.{bits_left, truths};

use crate::validity::{freeze_mask, mark_nulls, mark_values};
use crate::{IntoArray, ValueDecoder, ValueEncoding, Values};
use columns_core::{Bitmap, BooleanArray, DataType, Error, MutableBitmap, Part};
use page_decoding::DecodedState;
use parquet_encoding::PlainBits;
use parquet_page::DictPage;
use std::alloc::Global;

/// Decoded truth values. The mask is empty until the first null, which stands on false.
#[derive(Drop)]
pub struct DecodedTruths {
    values: MutableBitmap,
    validity: MutableBitmap,
}

impl DecodedState for DecodedTruths {
    ghost shown = { λ decoded. marked_cells TruthCell decoded.values decoded.validity };

    fn len(&self) -> usize {
        self.values.len()
    }
}

impl DecodedTruths {
    /// The array of these values, where the type is one of truth values.
    pub fn into_array(self, data_type: DataType) -> Result<BooleanArray, Error>
        requires { IsMaskFor self.values self.validity }
        ensures array { IfOk result (λ array.
            array ≡ record { data_type = data_type; items = marked self.values self.validity }) }
        ensures ok { IfOk result (λ _. IsTrue (is_boolean data_type)) }
        ensures err { IfErr result (λ e. IsTrue (is_invalid_argument e)
            × (IsTrue (is_boolean data_type) → ⊥)) }
    {
        let DecodedTruths { values, validity } = self;
        BooleanArray::try_new(data_type, values.freeze(), freeze_mask(validity))
    }
}

/// Before the first of so many truth values.
fn open_truths(bytes: &[u8], count: usize, part: Part) -> Result<PlainBits, Error>
    ensures values { IfOk result (λ values. plain_bits bytes.now count ≡ Some (truths values bytes.now)) }
    ensures over { IfOk result (λ values. IsSome (bits_left values bytes.now)) }
    ensures counted { IfOk result (λ values. length (truths values bytes.now) ≡ count) }
    ensures refused { IfErr result
        (λ e. (cause_of e ≡ Some ExternalFormat) × (plain_bits bytes.now count ≡ None)) }
{
    match PlainBits::try_new(bytes, count) {
        Ok(values) => Ok(values),
        Err(_) => Err(Error::ExternalFormat(part)),
    }
}

/// Appends the next truth values, at most so many, and tells how many they are.
fn extend_truths(
    into: &mut MutableBitmap,
    bytes: &[u8],
    values: &mut PlainBits,
    count: usize,
) -> Result<usize, Error>
    requires { IsSome (bits_left values.old bytes.now) }
    ensures added { OnOk result (into.new ≡ into.old ++ take count (truths values.old bytes.now)) }
    ensures count { IfOk result (λ n. n ≡ length (take count (truths values.old bytes.now))) }
    ensures rest { bits_left values.new bytes.now ≡ Some (drop count (truths values.old bytes.now)) }
    ensures memory { IfErr result IsWantOfMemory }
{
    let run = values.take(bytes, count);
    into.extend_from_slice(&bytes[run.place..], run.bit, run.count)?;
    Ok(run.count)
}

/// Reads truth values as they are.
#[derive(Clone, Copy)]
pub struct TruthValues;

impl Values for TruthValues {
    type Place = PlainBits;

    type Dict = Bitmap;

    type Decoded = DecodedTruths;

    ghost is_own = { λ _ decoded. IsMaskFor decoded.values decoded.validity };

    ghost is_own_dict = { λ _ _. Unit {0} };

    ghost is_over = { λ _. IsOverTruths };

    ghost left = { λ _ _. truth_outcomes };

    ghost most_bytes = { λ _. None };

    ghost own_fits = { λ _ _ _. refl };

    fn take(
        &self,
        bytes: &[u8],
        _dict: Option<&Bitmap>,
        place: &mut PlainBits,
        decoded: &mut DecodedTruths,
        count: usize,
    ) -> Result<(), Error> {
        let taken = extend_truths(&mut decoded.values, bytes, place, count)?;
        mark_values(&mut decoded.validity, taken)
    }

    fn skip(&self, bytes: &[u8], place: &mut PlainBits, count: usize) {
        place.skip(bytes, count);
    }

    fn push_nulls(&self, decoded: &mut DecodedTruths, count: usize) -> Result<(), Error> {
        let held = decoded.values.len();
        decoded.values.extend_constant(count, false)?;
        mark_nulls(&mut decoded.validity, held, count)
    }

    fn with_capacity(&self, alloc: Global, capacity: usize) -> Result<DecodedTruths, Error> {
        Ok(DecodedTruths {
            values: MutableBitmap::with_capacity(alloc, capacity)?,
            validity: MutableBitmap::with_capacity(alloc, 0)?,
        })
    }
}

impl ValueDecoder for TruthValues {
    ghost use Rattle.flat_values.specs.Conversion.{Keep};
    ghost use Rattle.parquet_meta.specs.declared.metadata.PhysicalType.TheVariants.{Boolean};

    ghost physical = { λ _. Boolean };

    ghost rule = { λ _. Keep };

    ghost dict_shown = { λ _ dict. map TruthCell dict };

    /// Only the plain encoding goes with truth values.
    fn open(
        &self,
        _encoding: ValueEncoding,
        bytes: &[u8],
        count: usize,
        _dict: Option<&Bitmap>,
    ) -> Result<PlainBits, Error> {
        open_truths(bytes, count, Part::Values)
    }

    fn read_dict(&self, alloc: Global, page: &DictPage<'_>) -> Result<Bitmap, Error> {
        let mut values = open_truths(page.buffer, page.num_values, Part::Dictionary)?;
        let mut dict = MutableBitmap::with_capacity(alloc, page.num_values)?;
        let _all = extend_truths(&mut dict, page.buffer, &mut values, page.num_values)?;
        Ok(dict.freeze())
    }
}

impl IntoArray for TruthValues {
    ghost use Rattle.columns_core.specs.Column.{cell_of};

    type Array = BooleanArray;

    ghost is_type = { λ _ data_type. IsTrue (is_boolean data_type) };

    ghost array_type = { λ array. array.data_type };

    ghost array_cells = { λ array. map (cell_of TruthCell) array.items };

    fn fits(&self, data_type: &DataType) -> bool {
        matches!(data_type, DataType::Boolean)
    }

    fn into_array(
        &self,
        decoded: DecodedTruths,
        data_type: DataType,
    ) -> Result<BooleanArray, Error> {
        decoded.into_array(data_type)
    }
}
