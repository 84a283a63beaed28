//! Arrays of texts.
ghost use Rattle.std.specs.Prelude.{◌≡◌, ◌⊎◌, ◌<◌, IsTrue, length, slice_get, Some, IfOk, IfErr, OnOk, option_copied};
ghost use Rattle.columns_core.specs.Causes.{OutOfSpec, cause_of, IsWantOfMemory, is_invalid_argument};
ghost use Rattle.columns_core.specs.Stored.{is_sized_text};
ghost use Rattle.columns_core.specs.Joined.{joined_strings, FitTogether, AreTexts};

use crate::joined::{JoinedBytes, are_texts, fit_together};
use crate::{Bitmap, DataType, Error, Offset, Offsets, Part};
use std::alloc::Global;
use std::marker::Model;

/// Texts, and which of them are there.
#[derive(Drop)]
pub struct Utf8Array<O: Offset> {
    data_type: DataType,
    items: JoinedBytes<O>,
}

impl<O: Offset> Model for Utf8Array<O> {
    ghost use Rattle.std.specs.Prelude.{List, ℕ};
    ghost use Rattle.std.specs.Coded.{coded_list, coded_ℕ};
    ghost use Rattle.columns_core.specs.Column.{Column, column_code};
    ghost use Rattle.columns_core.specs.Joined.{AreTextItems};
    ghost use Rattle.columns_core.specs.contracts.data_type.DataType.{the_row as data_type_row};

    ghost Value = { Column (List ℕ) };

    ghost coded = { column_code data_type_row.coded (coded_list coded_ℕ) };

    ghost view = { λ array. record { data_type = array.data_type; items = array.items } };

    ghost invariant = { λ array. AreTextItems array.items };
}

impl<O: Offset> Utf8Array<O> {
    /// Of joined texts.
    ///
    /// `InvalidArgumentError` for another type, and for places and a mask that do not fit; `OutOfSpec` for a text that is not UTF-8.
    pub fn try_new(
        data_type: DataType,
        offsets: Offsets<O>,
        values: Vec<u8>,
        validity: Option<Bitmap>,
    ) -> Result<Self, Error>
        ensures array { IfOk result (λ array.
            array ≡
            record { data_type = data_type; items = joined_strings offsets values.items validity }) }
        ensures ok { IfOk result (λ _. IsTrue (is_sized_text O.is_large data_type)
            × FitTogether offsets values.items validity × AreTexts offsets values.items) }
        ensures err { IfErr result (λ e.
            (IsTrue (is_invalid_argument e)
            × (IsTrue (is_sized_text O.is_large data_type) →
            FitTogether offsets values.items validity → ⊥))
            ⊎ ((cause_of e ≡ Some OutOfSpec) × (AreTexts offsets values.items → ⊥))) }
    {
        match check::<O>(&data_type, &offsets, values.as_slice(), validity.as_ref()) {
            Err(e) => Err(e),
            Ok(()) => Ok(Utf8Array::of_texts(data_type, offsets, values, validity)),
        }
    }

    /// The array of these strings, each of which is UTF-8: nothing is tested.
    pub fn of_texts(
        data_type: DataType,
        offsets: Offsets<O>,
        values: Vec<u8>,
        validity: Option<Bitmap>,
    ) -> Self
        requires typed { IsTrue (is_sized_text O.is_large data_type) }
        requires fit { FitTogether offsets values.items validity }
        requires texts { AreTexts offsets values.items }
        ensures { result
            ≡ record { data_type = data_type; items = joined_strings offsets values.items validity } }
    {
        Utf8Array {
            data_type,
            items: JoinedBytes::new(offsets, values, validity),
        }
    }

    pub fn data_type(&self) -> &DataType
        ensures { result.now ≡ self.now.data_type }
    {
        &self.data_type
    }

    pub fn len(&self) -> usize
        ensures { result ≡ length self.now.items }
    {
        self.items.len()
    }

    /// The text at a place, if it is there.
    pub fn get(&self, i: usize) -> Option<&str>
        requires { i < length self.now.items }
        ensures { slice_get self.now.items i ≡ Some (option_copied result) }
    {
        match self.items.get(i) {
            None => None,
            Some(bytes) => Some(unsafe { str::from_utf8_unchecked(bytes) }),
        }
    }

    pub fn try_clone(&self, alloc: Global) -> Result<Self, Error>
        ensures ok { IfOk result (λ copy. copy ≡ self.now) }
        ensures err { IfErr result IsWantOfMemory }
    {
        Ok(Utf8Array {
            items: self.items.try_clone(alloc)?,
            data_type: self.data_type.try_clone(alloc)?,
        })
    }
}

fn stores<O: Offset>(data_type: &DataType) -> bool
    ensures { result ≡ is_sized_text O.is_large data_type.now }
{
    if O::is_large() {
        matches!(data_type, DataType::LargeUtf8)
    } else {
        matches!(data_type, DataType::Utf8)
    }
}

fn check<O: Offset>(
    data_type: &DataType,
    offsets: &Offsets<O>,
    values: &[u8],
    validity: Option<&Bitmap>,
) -> Result<(), Error>
    ensures ok { OnOk result (IsTrue (is_sized_text O.is_large data_type.now)
        × FitTogether offsets.now values.now (option_copied validity.entry)
        × AreTexts offsets.now values.now) }
    ensures err { IfErr result (λ e.
        (IsTrue (is_invalid_argument e)
        × (IsTrue (is_sized_text O.is_large data_type.now)
        → FitTogether offsets.now values.now (option_copied validity.entry) → ⊥))
        ⊎ ((cause_of e ≡ Some OutOfSpec) × (AreTexts offsets.now values.now → ⊥))) }
{
    if !stores::<O>(data_type) {
        return Err(Error::InvalidArgumentError(Part::Request));
    }
    if !fit_together(offsets, values, validity) {
        return Err(Error::InvalidArgumentError(Part::Request));
    }
    if !are_texts(offsets, values) {
        return Err(Error::OutOfSpec(Part::Values));
    }
    Ok(())
}
