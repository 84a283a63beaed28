//! Bytes of one size that are appended one by one, and which of them are there.
ghost use Rattle.std.specs.Prelude.{◌≡◌, ◌<◌, ◌++◌, [], ◌∷◌, true, length, map, IfOk, IfErr, OnOk};
ghost use Rattle.columns_core.specs.Causes.{IsWantOfMemory};
ghost use Rattle.columns_core.specs.Column.{as_column, cell_of};
ghost use Rattle.columns_core.specs.ElementType.{fixed_size};
ghost use Rattle.columns_core.specs.declared.cell.Cell.{Bytes};
ghost use Rattle.columns_core.specs.declared.data_type.DataType.TheOpen.{DataType-F};
ghost use Rattle.flat_values.specs.CellTypes.{is_cell_at};
ghost use Rattle.flat_builders.specs.Kept.{IsRefusedCell};

use crate::marked::bits_of;
use columns_core::{Cell, DataType, Error, FixedSizeBinaryArray, Part};
use flat_values::FixedSizeBinary;
use std::alloc::Global;
use std::marker::Model;

/// Bytes of one size, and which of them are there. Contracts see the size, and the list of bytes and nulls.
#[derive(Drop)]
pub(crate) struct FixedBytes {
    values: FixedSizeBinary,
    marks: Vec<bool>,
}

impl Model for FixedBytes {
    ghost use Rattle.std.specs.Prelude.{◌≡◌, ℕ, List, Option, length};
    ghost use Rattle.columns_core.specs.Column.{where_set};

    ghost Value = { ℕ × List (Option (List ℕ)) };

    ghost view = { λ fixed. (fixed.values.size, where_set fixed.values.items fixed.marks.items) };

    ghost invariant = { λ fixed. length fixed.marks.items ≡ length fixed.values.items };
}

impl FixedBytes {
    /// No bytes, with memory for `capacity` values of them.
    pub(crate) fn with_capacity(alloc: Global, capacity: usize, size: usize) -> Result<Self, Error>
        requires { 0 < size }
        ensures empty { IfOk result (λ fixed. fixed ≡ (size, [])) }
        ensures memory { IfErr result IsWantOfMemory }
    {
        let mut values = FixedSizeBinary::with_capacity(alloc, 0, size)?;
        values.reserve(capacity)?;
        Ok(FixedBytes {
            values,
            marks: Vec::with_capacity(alloc, capacity)?,
        })
    }

    pub(crate) fn len(&self) -> usize
        ensures { result ≡ length self.now.1 }
    {
        self.marks.len()
    }

    /// Appends the bytes of a cell, or a null, or leaves the values as they were.
    pub(crate) fn push_cell(&mut self, cell: &Cell) -> Result<(), Error>
        ensures ok { let to_cell = cell_of Bytes in
            OnOk result (map to_cell self.new.1 ≡ map to_cell self.old.1 ++ cell.now ∷ []) }
        ensures size { self.new.0 ≡ self.old.0 }
        ensures typed { OnOk result (is_cell_at (DataType-F.FixedSizeBinary self.old.0) cell.now ≡ true) }
        ensures same { IfErr result (λ _. self.new ≡ self.old) }
        ensures err { let typed = is_cell_at (DataType-F.FixedSizeBinary self.old.0) cell.now in
            IfErr result (λ e. IsRefusedCell typed true e) }
    {
        match cell {
            Cell::Null => self.push_null(),
            Cell::Bytes(bytes) if bytes.as_slice().len() == self.values.size() => {
                self.push(bytes.as_slice())
            }
            _ => Err(Error::InvalidArgumentError(Part::Request)),
        }
    }

    fn push(&mut self, bytes: &[u8]) -> Result<(), Error>
        requires { length bytes.now ≡ self.old.0 }
        ensures ok { OnOk result (self.new ≡ (self.old.0, self.old.1 ++ Some bytes.now ∷ [])) }
        ensures err { IfErr result (λ e. IsWantOfMemory e × (self.new ≡ self.old)) }
    {
        self.marks.reserve(1)?;
        self.values.push(bytes)?;
        self.marks.push_reserved(true);
        Ok(())
    }

    fn push_null(&mut self) -> Result<(), Error>
        ensures ok { OnOk result (self.new ≡ (self.old.0, self.old.1 ++ None ∷ [])) }
        ensures err { IfErr result (λ e. IsWantOfMemory e × (self.new ≡ self.old)) }
    {
        self.marks.reserve(1)?;
        self.values.push_null()?;
        self.marks.push_reserved(false);
        Ok(())
    }

    /// The array of these values, of a type of bytes of their size.
    pub(crate) fn into_fixed(self, data_type: DataType) -> Result<FixedSizeBinaryArray, Error>
        requires { fixed_size data_type ≡ self.0 }
        ensures array { IfOk result (λ array. array ≡ as_column data_type self.1) }
        ensures memory { IfErr result IsWantOfMemory }
    {
        let FixedBytes { values, marks } = self;
        let mask = bits_of(&marks)?;
        FixedSizeBinaryArray::try_new(data_type, values.into_values(), Some(mask))
    }
}
