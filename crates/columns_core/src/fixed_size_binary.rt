//! Arrays of bytes of one size.
ghost use Rattle.std.specs.Prelude.{◌≡◌, ◌+◌, ◌*◌, ◌≤◌, take, drop, ◌<◌, ◌↔◌, ◌/◌, ◌%◌, Some, length, slice_get, option_copied, IfOk, IfErr, IsTrue};
ghost use Rattle.std.specs.Option.{ForSome};
ghost use Rattle.columns_core.specs.Causes.{IsWantOfMemory, is_invalid_argument};
ghost use Rattle.columns_core.specs.Column.{masked};
ghost use Rattle.columns_core.specs.ElementType.{fixed_size};
ghost use Rattle.columns_core.specs.Fixed.{fixed_pieces, ArePieces};

use crate::mask::{copy_of_mask, is_there};
use crate::primitive::fits_mask;
use crate::{Bitmap, DataType, Error, Part};
use std::alloc::Global;
use std::marker::Model;

/// Values of so many bytes each, and which of them are there.
#[derive(Drop)]
pub struct FixedSizeBinaryArray {
    data_type: DataType,
    size: usize,
    values: Vec<u8>,
    validity: Option<Bitmap>,
}

impl Model for FixedSizeBinaryArray {
    ghost use Rattle.std.specs.Prelude.{◌≡◌, List, ℕ};
    ghost use Rattle.columns_core.specs.Column.{Column, masked};
    ghost use Rattle.columns_core.specs.Fixed.{fixed_pieces, ArePieces};
    ghost use Rattle.std.specs.Coded.{coded_list, coded_ℕ};
    ghost use Rattle.columns_core.specs.Column.{column_code};
    ghost use Rattle.columns_core.specs.contracts.data_type.DataType.{the_row as data_type_row};

    ghost Value = { Column (List ℕ) };

    ghost coded = { column_code data_type_row.coded (coded_list coded_ℕ) };

    ghost view = { λ array. record { data_type = array.data_type; items = masked (fixed_pieces array.size array.values.items) array.validity } };

    ghost invariant = { λ array. ArePieces array.size array.values.items array.validity };
}

impl FixedSizeBinaryArray {
    /// Of joined byte strings of the size that the type says.
    ///
    /// `InvalidArgumentError` for another type, for bytes that are no multiple of the size, and for a mask of another length.
    pub fn try_new(
        data_type: DataType,
        values: Vec<u8>,
        validity: Option<Bitmap>,
    ) -> Result<Self, Error>
        ensures array { IfOk result (λ array.
            array ≡ record {
              data_type = data_type;
              items = masked
                  (fixed_pieces (fixed_size data_type) values.items) validity;
            }) }
        ensures ok { IfOk result (λ _. ArePieces (fixed_size data_type) values.items validity) }
        ensures err { IfErr result (λ e. IsTrue (is_invalid_argument e)
            × (ArePieces (fixed_size data_type) values.items validity → ⊥)) }
    {
        let size = size_of_values(&data_type);
        if are_pieces(size, values.len(), validity.as_ref()) {
            Ok(FixedSizeBinaryArray {
                data_type,
                size,
                values,
                validity,
            })
        } else {
            Err(Error::InvalidArgumentError(Part::Request))
        }
    }

    pub fn data_type(&self) -> &DataType
        ensures { result.now ≡ self.now.data_type }
    {
        &self.data_type
    }

    pub fn len(&self) -> usize
        ensures { result ≡ length self.now.items }
    {
        self.values.len() / self.size
    }

    /// The bytes at a place, if they are there.
    pub fn get(&self, i: usize) -> Option<&[u8]>
        requires { i < length self.now.items }
        ensures { slice_get self.now.items i ≡ Some (option_copied result) }
    {
        if is_there(self.validity.as_ref(), i) {
            Some(piece(self.values.as_slice(), self.size, i))
        } else {
            None
        }
    }

    pub fn try_clone(&self, alloc: Global) -> Result<Self, Error>
        ensures copy { IfOk result (λ copy. copy ≡ self.now) }
        ensures memory { IfErr result IsWantOfMemory }
    {
        Ok(FixedSizeBinaryArray {
            size: self.size,
            values: Vec::from_slice(alloc, self.values.as_slice())?,
            validity: copy_of_mask(alloc, self.validity.as_ref())?,
            data_type: self.data_type.try_clone(alloc)?,
        })
    }
}

/// How many bytes each value of the type has; 0 for a type that is none of bytes of a fixed size.
fn size_of_values(data_type: &DataType) -> usize
    ensures { result ≡ fixed_size data_type.now }
{
    match data_type {
        DataType::FixedSizeBinary(size) => *size,
        _ => 0,
    }
}

fn are_pieces(size: usize, bytes: usize, validity: Option<&Bitmap>) -> bool
    ensures { IsTrue result ↔ (0 < size) × (bytes % size ≡ 0)
        × ForSome (option_copied validity.entry) (λ mask. length mask ≡ bytes / size) }
{
    size > 0 && bytes % size == 0 && fits_mask(bytes / size, validity)
}

fn piece(bytes: &[u8], size: usize, i: usize) -> &[u8]
    requires { i * size + size ≤ length bytes.now }
    ensures { result.now ≡ take size (drop (i * size) bytes.now) }
{
    &bytes[i * size..][..size]
}
