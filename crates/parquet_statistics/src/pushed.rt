//! Cells that are appended to a builder.
ghost use Rattle.std.specs.Prelude.{◌≡◌, IfErr, IsSomeAnd, OnOk};
ghost use Rattle.parquet_statistics.specs.Flats.{IsPushed, IsNotAppended, flat_of};

use crate::DynMutable;
use columns_core::{Cell, Error, Part};

impl DynMutable {
    /// Appends a cell to a flat builder, or leaves the builder as it was.
    ///
    /// `InvalidArgumentError` where the builder is not flat, or the cell is of another type; `Overflow` where the bytes of all cells
    /// pass the offsets of the type.
    pub fn push_cell(&mut self, cell: &Cell) -> Result<(), Error>
        ensures ok { OnOk result (IsSomeAnd (flat_of self.old) (λ old. IsPushed old cell.now self.new)) }
        ensures same { IfErr result (λ _. self.new ≡ self.old) }
        ensures err { IfErr result (IsNotAppended (flat_of self.old) cell.now) }
    {
        match self {
            DynMutable::Flat(builder) => builder.push_cell(cell),
            DynMutable::Dictionary(_)
            | DynMutable::List(_)
            | DynMutable::Map(_)
            | DynMutable::Struct(_) => Err(Error::InvalidArgumentError(Part::Request)),
        }
    }
}
