//! Arrays of byte strings.
ghost use Rattle.std.specs.Prelude.{◌≡◌, ◌<◌, IsTrue, length, slice_get, Some, IfOk, IfErr, option_copied};
ghost use Rattle.columns_core.specs.Causes.{IsWantOfMemory, is_invalid_argument};
ghost use Rattle.columns_core.specs.Stored.{is_binary};
ghost use Rattle.columns_core.specs.Joined.{joined_strings, FitTogether};

use crate::joined::{JoinedBytes, fit_together};
use crate::{Bitmap, DataType, Error, Offset, Offsets, Part};
use std::alloc::Global;
use std::marker::Model;

/// Byte strings, and which of them are there.
#[derive(Drop)]
pub struct BinaryArray<O: Offset> {
    data_type: DataType,
    items: JoinedBytes<O>,
}

impl<O: Offset> Model for BinaryArray<O> {
    ghost use Rattle.std.specs.Prelude.{List, ℕ};
    ghost use Rattle.std.specs.Coded.{coded_list, coded_ℕ};
    ghost use Rattle.columns_core.specs.Column.{Column, column_code};
    ghost use Rattle.columns_core.specs.contracts.data_type.DataType.{the_row as data_type_row};

    ghost Value = { Column (List ℕ) };

    ghost coded = { column_code data_type_row.coded (coded_list coded_ℕ) };

    ghost view = { λ array. record { data_type = array.data_type; items = array.items } };
}

impl<O: Offset> BinaryArray<O> {
    /// Of joined byte strings.
    ///
    /// `InvalidArgumentError` for another type, and for places and a mask that do not fit.
    pub fn try_new(
        data_type: DataType,
        offsets: Offsets<O>,
        values: Vec<u8>,
        validity: Option<Bitmap>,
    ) -> Result<Self, Error>
        ensures array { IfOk result (λ array.
            array ≡
            record { data_type = data_type; items = joined_strings offsets values.items validity }) }
        ensures ok { IfOk result (λ _. IsTrue (is_binary O.is_large data_type)
            × FitTogether offsets values.items validity) }
        ensures err { IfErr result (λ e. IsTrue (is_invalid_argument e)
            × (IsTrue (is_binary O.is_large data_type) →
            FitTogether offsets values.items validity → ⊥)) }
    {
        if stores::<O>(&data_type) && fit_together(&offsets, values.as_slice(), validity.as_ref()) {
            Ok(BinaryArray {
                data_type,
                items: JoinedBytes::new(offsets, values, validity),
            })
        } else {
            Err(Error::InvalidArgumentError(Part::Request))
        }
    }

    pub fn data_type(&self) -> &DataType
        ensures { result.now ≡ self.now.data_type }
    {
        &self.data_type
    }

    pub fn len(&self) -> usize
        ensures { result ≡ length self.now.items }
    {
        self.items.len()
    }

    /// The bytes at a place, if they are there.
    pub fn get(&self, i: usize) -> Option<&[u8]>
        requires { i < length self.now.items }
        ensures { slice_get self.now.items i ≡ Some (option_copied result) }
    {
        self.items.get(i)
    }

    pub fn try_clone(&self, alloc: Global) -> Result<Self, Error>
        ensures ok { IfOk result (λ copy. copy ≡ self.now) }
        ensures err { IfErr result IsWantOfMemory }
    {
        Ok(BinaryArray {
            items: self.items.try_clone(alloc)?,
            data_type: self.data_type.try_clone(alloc)?,
        })
    }
}

fn stores<O: Offset>(data_type: &DataType) -> bool
    ensures { result ≡ is_binary O.is_large data_type.now }
{
    if O::is_large() {
        matches!(data_type, DataType::LargeBinary)
    } else {
        matches!(data_type, DataType::Binary)
    }
}
