//! The arrays of a column, whatever decodes it.
ghost use Rattle.std.specs.Prelude.{◌≡◌};
ghost use Rattle.columns_core.specs.Array.{cells, data_type_of};
ghost use Rattle.flat_values.specs.ColumnLeft.{ColumnLeft, GivesColumn};

use columns_core::{Array, Error};
use parquet_base::Steps;
use std::sync::ledger::Ledger;

/// Gives the arrays of a column one after another.
pub trait ColumnArrays {
    /// What is left of the column.
    ghost left: { Self → ColumnLeft };

    /// The next array, and a step for each page that is lent for it. After an error or the end there is none.
    fn next_counted<L: Ledger>(&mut self, steps: &mut Steps<L>) -> Option<Result<Array, Error>>
        ensures { GivesColumn data_type_of cells (left self.old) result (left self.new) steps.old steps.new };

    /// How many pages were lent, at most `usize::MAX`.
    fn lent(&self) -> usize
        ensures { result ≡ (left self.now).lent };
}
