//! Arrays of numbers.
ghost use Rattle.std.specs.Prelude.{◌≡◌, ◌<◌, ◌↔◌, IsTrue, Some, length, slice_get, IfOk, IfErr, option_copied};
ghost use Rattle.std.specs.Option.{ForSome};
ghost use Rattle.columns_core.specs.Causes.{IsWantOfMemory, is_invalid_argument};
ghost use Rattle.columns_core.specs.Column.{masked, FitsMask};

use crate::mask::copy_of_mask;
use crate::{Bitmap, DataType, Error, NativeType, Part};
use std::alloc::Global;
use std::marker::Model;

/// Values of one type, and which of them are there.
#[derive(Drop)]
pub struct PrimitiveArray<T> {
    pub(crate) data_type: DataType,
    pub(crate) values: Vec<T>,
    pub(crate) validity: Option<Bitmap>,
}

impl<T> Model for PrimitiveArray<T> {
    ghost use Rattle.columns_core.specs.Column.{Column, column_code};
    ghost use Rattle.columns_core.specs.contracts.data_type.DataType.{the_row as data_type_row};

    ghost Value = { Column T };

    ghost coded = { column_code data_type_row.coded T.code };

    ghost use Rattle.columns_core.specs.Column.{masked, FitsMask};

    ghost view = { λ array. record { data_type = array.data_type; items = masked array.values.items array.validity } };

    ghost invariant = { λ array. FitsMask array.values.items array.validity };
}

impl<T: NativeType> PrimitiveArray<T> {
    /// The array of these values, where the type stores them and the mask is as long as they are.
    pub fn try_new(
        data_type: DataType,
        values: Vec<T>,
        validity: Option<Bitmap>,
    ) -> Result<Self, Error>
        ensures array { IfOk result (λ array.
            array ≡ record { data_type = data_type; items = masked values.items validity }) }
        ensures ok { IfOk result (λ _. IsTrue (T.stores data_type) × FitsMask values.items validity) }
        ensures err { IfErr result (λ e. IsTrue (is_invalid_argument e)
            × (IsTrue (T.stores data_type) → FitsMask values.items validity → ⊥)) }
    {
        if T::stores(&data_type) && fits_mask(values.len(), validity.as_ref()) {
            Ok(PrimitiveArray {
                data_type,
                values,
                validity,
            })
        } else {
            Err(Error::InvalidArgumentError(Part::Request))
        }
    }
}

/// A mask has a place for each value, where there is one.
pub(crate) fn fits_mask(count: usize, validity: Option<&Bitmap>) -> bool
    ensures { IsTrue result ↔ ForSome (option_copied validity.entry) (λ mask. length mask ≡ count) }
{
    match validity {
        None => true,
        Some(mask) => mask.len() == count,
    }
}

impl<T> PrimitiveArray<T> {
    pub fn data_type(&self) -> &DataType
        ensures { result.now ≡ self.now.data_type }
    {
        &self.data_type
    }

    pub fn len(&self) -> usize
        ensures { result ≡ length self.now.items }
    {
        self.values.len()
    }
}

impl<T: Copy> PrimitiveArray<T> {
    pub fn try_clone(&self, alloc: Global) -> Result<Self, Error>
        ensures copy { IfOk result (λ copy. copy ≡ self.now) }
        ensures memory { IfErr result IsWantOfMemory }
    {
        Ok(PrimitiveArray {
            values: Vec::from_slice(alloc, self.values.as_slice())?,
            validity: copy_of_mask(alloc, self.validity.as_ref())?,
            data_type: self.data_type.try_clone(alloc)?,
        })
    }

    /// The value at a place, if it is there.
    pub fn get(&self, i: usize) -> Option<T>
        requires { i < length self.now.items }
        ensures { slice_get self.now.items i ≡ Some result }
    {
        match &self.validity {
            None => Some(self.values[i]),
            Some(mask) => {
                if mask.get_bit(i) {
                    Some(self.values[i])
                } else {
                    None
                }
            }
        }
    }
}

/// An array that is still being made.
#[derive(Drop)]
pub struct MutablePrimitiveArray<T> {
    array: PrimitiveArray<T>,
}

impl<T> Model for MutablePrimitiveArray<T> {
    ghost use Rattle.columns_core.specs.Column.{Column, column_code};
    ghost use Rattle.columns_core.specs.contracts.data_type.DataType.{the_row as data_type_row};

    ghost Value = { Column T };

    ghost coded = { column_code data_type_row.coded T.code };

    ghost view = { λ mutable. mutable.array };
}

impl<T: NativeType> MutablePrimitiveArray<T> {
    /// `InvalidArgumentError` for a type that is not stored so, and for a mask of another length.
    pub fn try_new(
        data_type: DataType,
        values: Vec<T>,
        validity: Option<Bitmap>,
    ) -> Result<Self, Error>
        ensures array { IfOk result (λ array.
            array ≡ record { data_type = data_type; items = masked values.items validity }) }
        ensures ok { IfOk result (λ _. IsTrue (T.stores data_type) × FitsMask values.items validity) }
        ensures err { IfErr result (λ e. IsTrue (is_invalid_argument e)
            × (IsTrue (T.stores data_type) → FitsMask values.items validity → ⊥)) }
    {
        let array = PrimitiveArray::try_new(data_type, values, validity)?;
        Ok(MutablePrimitiveArray { array })
    }
}

impl<T> MutablePrimitiveArray<T> {
    pub fn freeze(self) -> PrimitiveArray<T>
        ensures { result ≡ self }
    {
        let MutablePrimitiveArray { array } = self;
        array
    }
}
