//! Arrays of truth values.
ghost use Rattle.std.specs.Prelude.{◌≡◌, ◌<◌, IsTrue, length, slice_get, Some, IfOk, IfErr};
ghost use Rattle.columns_core.specs.Causes.{IsWantOfMemory, is_invalid_argument};
ghost use Rattle.columns_core.specs.Column.{masked, FitsMask};
ghost use Rattle.columns_core.specs.ElementType.{is_boolean};

use crate::mask::{copy_of_mask, is_there};
use crate::primitive::fits_mask;
use crate::{Bitmap, DataType, Error, Part};
use std::alloc::Global;
use std::marker::Model;

/// Truth values, and which of them are there.
#[derive(Drop)]
pub struct BooleanArray {
    data_type: DataType,
    values: Bitmap,
    validity: Option<Bitmap>,
}

impl Model for BooleanArray {
    ghost use Rattle.std.specs.Prelude.{Bool};
    ghost use Rattle.columns_core.specs.Column.{Column, masked, FitsMask};
    ghost use Rattle.std.specs.Coded.{coded_bool};
    ghost use Rattle.columns_core.specs.Column.{column_code};
    ghost use Rattle.columns_core.specs.contracts.data_type.DataType.{the_row as data_type_row};

    ghost Value = { Column Bool };

    ghost coded = { column_code data_type_row.coded coded_bool };

    ghost view = { λ array. record { data_type = array.data_type; items = masked array.values array.validity } };

    ghost invariant = { λ array. FitsMask array.values array.validity };
}

impl BooleanArray {
    /// `InvalidArgumentError` for another type, and for a mask of another length.
    pub fn try_new(
        data_type: DataType,
        values: Bitmap,
        validity: Option<Bitmap>,
    ) -> Result<Self, Error>
        ensures array { IfOk result (λ array.
            array ≡ record { data_type = data_type; items = masked values validity }) }
        ensures ok { IfOk result (λ _. IsTrue (is_boolean data_type) × FitsMask values validity) }
        ensures err { IfErr result (λ e. IsTrue (is_invalid_argument e)
            × (IsTrue (is_boolean data_type) → FitsMask values validity → ⊥)) }
    {
        if matches!(data_type, DataType::Boolean) && fits_mask(values.len(), validity.as_ref()) {
            Ok(BooleanArray {
                data_type,
                values,
                validity,
            })
        } else {
            Err(Error::InvalidArgumentError(Part::Request))
        }
    }

    pub fn data_type(&self) -> &DataType
        ensures { result.now ≡ self.now.data_type }
    {
        &self.data_type
    }

    pub fn len(&self) -> usize
        ensures { result ≡ length self.now.items }
    {
        self.values.len()
    }

    /// The value at a place, if it is there.
    pub fn get(&self, i: usize) -> Option<bool>
        requires { i < length self.now.items }
        ensures { slice_get self.now.items i ≡ Some result }
    {
        if is_there(self.validity.as_ref(), i) {
            Some(self.values.get_bit(i))
        } else {
            None
        }
    }

    pub fn try_clone(&self, alloc: Global) -> Result<Self, Error>
        ensures copy { IfOk result (λ copy. copy ≡ self.now) }
        ensures memory { IfErr result IsWantOfMemory }
    {
        Ok(BooleanArray {
            values: self.values.try_clone(alloc)?,
            validity: copy_of_mask(alloc, self.validity.as_ref())?,
            data_type: self.data_type.try_clone(alloc)?,
        })
    }
}
