//! A builder of a column of a flat type.
ghost use Rattle.std.specs.Prelude.{◌≡◌, [], ◌∷◌, ◌++◌, true, length, IfOk, IfErr, OnOk};
ghost use Rattle.columns_core.specs.Array.{column_of};
ghost use Rattle.columns_core.specs.Causes.{IsWantOfMemory};
ghost use Rattle.flat_values.specs.CellTypes.{is_cell_of};
ghost use Rattle.flat_builders.specs.Flat.{Flat, flatness};
ghost use Rattle.flat_builders.specs.Kept.{IsRefusedCell, IsRefusedType, cells_fit};

use crate::building::Building;
use columns_core::{Array, Cell, DataType, Error};
use std::alloc::Global;
use std::marker::Model;

/// A column of a flat type that is still being built. A contract sees its data type and its cells, as it sees an array's.
#[derive(Drop)]
pub struct FlatMutable {
    data_type: DataType,
    building: Building,
}

impl Model for FlatMutable {
    ghost use Rattle.std.specs.Prelude.{◌≡◌, true};
    ghost use Rattle.columns_core.specs.Shown.{Shown, shown_code};
    ghost use Rattle.columns_core.specs.contracts.cell.Cell.{the_row as cell_row};
    ghost use Rattle.columns_core.specs.contracts.data_type.DataType.{the_row as data_type_row};

    ghost Value = { Shown };

    ghost coded = { shown_code data_type_row.coded cell_row.coded };

    ghost use Rattle.flat_builders.specs.Built.{built_cells, is_kept_as};

    ghost view = { λ builder. (builder.data_type, built_cells builder.building) };

    ghost invariant = { λ builder. is_kept_as builder.building builder.data_type ≡ true };
}

impl FlatMutable {
    /// A builder of no cells, with memory for `capacity` of them.
    pub fn try_with_capacity(
        alloc: Global,
        data_type: DataType,
        capacity: usize,
    ) -> Result<Self, Error>
        ensures empty { IfOk result (λ builder. builder ≡ (data_type, [])) }
        ensures ok { IfOk result (λ _. flatness data_type ≡ Flat) }
        ensures err { IfErr result (λ e. IsRefusedType (flatness data_type) e) }
    {
        let building = Building::with_capacity(alloc, &data_type, capacity)?;
        Ok(FlatMutable {
            data_type,
            building,
        })
    }

    pub fn data_type(&self) -> &DataType
        ensures { result.now ≡ self.now.0 }
    {
        &self.data_type
    }

    /// The number of cells.
    pub fn len(&self) -> usize
        ensures { result ≡ length self.now.1 }
    {
        self.building.len()
    }

    /// Appends a cell, or leaves the builder as it was.
    pub fn push_cell(&mut self, cell: &Cell) -> Result<(), Error>
        ensures ok { OnOk result (self.new ≡ (self.old.0, self.old.1 ++ cell.now ∷ [])) }
        ensures typed { OnOk result (is_cell_of self.old.0 cell.now ≡ true) }
        ensures fits { OnOk result (cells_fit self.old.0 (self.old.1 ++ cell.now ∷ []) ≡ true) }
        ensures same { IfErr result (λ _. self.new ≡ self.old) }
        ensures err { let fits = cells_fit self.old.0 (self.old.1 ++ cell.now ∷ []) in
            IfErr result (λ e. IsRefusedCell (is_cell_of self.old.0 cell.now) fits e) }
    {
        self.building.push_cell(cell)
    }

    /// The array of the cells.
    pub fn into_array(self) -> Result<Array, Error>
        ensures array { IfOk result (λ array. column_of array ≡ self) }
        ensures memory { IfErr result IsWantOfMemory }
    {
        let FlatMutable {
            data_type,
            building,
        } = self;
        building.into_array(data_type)
    }
}
