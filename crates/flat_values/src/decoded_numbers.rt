//! Numbers that were decoded, and which of them are null.
ghost use Rattle.std.specs.Prelude.{◌≡◌, ◌+◌, ◌++◌, [], IsTrue, drop, length, map, replicate, take, IfOk, IfErr, OnOk};
ghost use Rattle.columns_core.specs.declared.cell.Cell.{Null};
ghost use Rattle.columns_core.specs.Causes.{IsWantOfMemory, is_invalid_argument};
ghost use Rattle.columns_core.specs.Column.{cell_of};
ghost use Rattle.parquet_page.specs.Levels.{present_count};
ghost use Rattle.parquet_page.specs.Plan.{along};
ghost use Rattle.parquet_page.specs.ValidityParts.{word_places, word_steps};
ghost use Rattle.flat_values.specs.Decoded.{IsMaskFor, marked, marked_cells};

use crate::spread::spread_numbers;
use crate::validity::{freeze_mask, mark_nulls, mark_rows};
use columns_core::{
    DataType, Error, MutableBitmap, MutablePrimitiveArray, NativeType, PrimitiveArray,
};
use page_decoding::DecodedState;
use parquet_page::ValidityWord;
use std::alloc::Global;

/// Decoded numbers. The mask is empty until the first null or word of rows.
#[derive(Drop)]
pub struct DecodedNumbers<T> {
    pub(crate) values: Vec<T>,
    pub(crate) validity: MutableBitmap,
}

impl<T: NativeType> DecodedState for DecodedNumbers<T> {
    ghost shown = { λ decoded. marked_cells T.cell decoded.values.items decoded.validity };

    fn len(&self) -> usize {
        self.values.len()
    }
}

impl<T: NativeType> DecodedNumbers<T> {
    /// No numbers, with memory for so many.
    pub(crate) fn with_capacity(alloc: Global, capacity: usize) -> Result<Self, Error>
        ensures values { IfOk result (λ decoded. decoded.values.items ≡ []) }
        ensures validity { IfOk result (λ decoded. decoded.validity ≡ []) }
        ensures memory { IfErr result IsWantOfMemory }
    {
        Ok(DecodedNumbers {
            values: Vec::with_capacity(alloc, capacity)?,
            validity: MutableBitmap::with_capacity(alloc, 0)?,
        })
    }

    /// Appends so many nulls, which stand on a number.
    pub(crate) fn push_nulls_on(&mut self, count: usize, number: T) -> Result<(), Error>
        requires own { IsMaskFor self.old.values.items self.old.validity }
        ensures cells { OnOk result (marked_cells T.cell self.new.values.items self.new.validity
            ≡ marked_cells T.cell self.old.values.items self.old.validity ++ replicate count Null) }
        ensures own { OnOk result (IsMaskFor self.new.values.items self.new.validity) }
        ensures memory { IfErr result IsWantOfMemory }
    {
        let held = self.values.len();
        let Some(all) = held.checked_add(count) else {
            return Err(Error::OutOfMemory);
        };
        self.values.resize(all, number)?;
        mark_nulls(&mut self.validity, held, count)
    }
}

impl<T: NativeType + Default> DecodedNumbers<T> {
    /// Appends so many nulls, which stand on 0.
    pub(crate) fn push_nulls(&mut self, count: usize) -> Result<(), Error>
        requires own { IsMaskFor self.old.values.items self.old.validity }
        ensures cells { OnOk result (marked_cells T.cell self.new.values.items self.new.validity
            ≡ marked_cells T.cell self.old.values.items self.old.validity ++ replicate count Null) }
        ensures own { OnOk result (IsMaskFor self.new.values.items self.new.validity) }
        ensures memory { IfErr result IsWantOfMemory }
    {
        self.push_nulls_on(count, T::default())
    }

    /// Spreads the numbers behind the first `held` over the rows of a word that have a value. The other rows are null, and
    /// stand on the default number.
    pub(crate) fn spread(&mut self, held: usize, word: ValidityWord) -> Result<(), Error>
        requires own { IsMaskFor (take held self.old.values.items) self.old.validity }
        requires many { length self.old.values.items ≡ held + present_count (word_places word) }
        ensures cells { OnOk result (marked_cells T.cell self.new.values.items self.new.validity
            ≡ marked_cells T.cell (take held self.old.values.items) self.old.validity
            ++ map (cell_of T.cell) (along (word_steps word) (drop held self.old.values.items))) }
        ensures own { OnOk result (IsMaskFor self.new.values.items self.new.validity) }
        ensures memory { IfErr result IsWantOfMemory }
    {
        spread_numbers(&mut self.values, held, word, T::default())?;
        mark_rows(&mut self.validity, held, word)
    }
}

impl<T: NativeType> DecodedNumbers<T> {
    /// The array of these numbers, where the type stores them.
    pub fn into_array(self, data_type: DataType) -> Result<PrimitiveArray<T>, Error>
        requires { IsMaskFor self.values.items self.validity }
        ensures array { IfOk result (λ array.
            array ≡ record { data_type = data_type; items = marked self.values.items self.validity }) }
        ensures ok { IfOk result (λ _. IsTrue (T.stores data_type)) }
        ensures err { IfErr result (λ e.
            IsTrue (is_invalid_argument e) × (IsTrue (T.stores data_type) → ⊥)) }
    {
        let DecodedNumbers { values, validity } = self;
        PrimitiveArray::try_new(data_type, values, freeze_mask(validity))
    }

    /// The array of these numbers, where the type stores them, still being made.
    pub fn into_mutable(self, data_type: DataType) -> Result<MutablePrimitiveArray<T>, Error>
        requires { IsMaskFor self.values.items self.validity }
        ensures array { IfOk result (λ array.
            array ≡ record { data_type = data_type; items = marked self.values.items self.validity }) }
        ensures ok { IfOk result (λ _. IsTrue (T.stores data_type)) }
        ensures err { IfErr result (λ e.
            IsTrue (is_invalid_argument e) × (IsTrue (T.stores data_type) → ⊥)) }
    {
        let DecodedNumbers { values, validity } = self;
        MutablePrimitiveArray::try_new(data_type, values, freeze_mask(validity))
    }
}
