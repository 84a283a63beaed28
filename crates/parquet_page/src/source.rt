//! Where pages come from.
ghost use Rattle.std.specs.Prelude.{◌≡◌, ◌+◌, [], ℕ, sum_by, List};
ghost use Rattle.std.specs.Borrow.{sem};
ghost use Rattle.std.specs.Io.BufRead.{Rests};
ghost use Rattle.columns_core.specs.Causes.{Cause};
ghost use Rattle.parquet_page.specs.Content.{Content, content_rows};
ghost use Rattle.parquet_page.specs.Lending.{Lends, LendsShaped, Leaves, ticks};

use crate::page::Page;
use columns_core::Error;
use parquet_base::Steps;
use std::sync::ledger::Ledger;

/// Pages of a column that are lent one after another.
pub trait Pages: Drop {
    /// The pages that are still to come.
    ghost to_come: { Self → List Content };

    /// What an error behind the last of them tells of. Without a cause they end without an error.
    ghost causes: { Self → List Cause };

    /// The rows of the whole column, or those that are selected.
    ghost row_count: { Self → ℕ };

    /// The rows that are not to come any more: those of the pages that were lent, and after an error all others.
    ghost given_rows: { Self → ℕ };

    /// How many pages were lent.
    ghost lent_count: { Self → ℕ };

    /// Lends the next page. Its buffer is a part of the column's bytes.
    fn next<L: Ledger>(&mut self, steps: &mut Steps<L>) -> Result<Option<Page<'_>>, Error>
        ensures page { Lends (to_come self.old) (causes self.old) result }
        ensures shaped { LendsShaped result }
        ensures steps { steps.new ≡ ticks steps.old result }
        ensures* after { sem 𝓛 (Rests Self.row self.entry (λ new.
            Leaves result (to_come self.old) (to_come new) (causes self.old) (causes new)
            (row_count self.old) (row_count new) (given_rows self.old) (given_rows new) (lent_count self.old)
            (lent_count new))) };

    /// The rows that the pages together give, if all of them are lent.
    fn rows(&self) -> usize
        ensures rows { result ≡ row_count self.now }
        ensures sum { causes self.now ≡ []
            → row_count self.now ≡ given_rows self.now + sum_by content_rows (to_come self.now) };

    /// The number of pages that were lent, at most `usize::MAX`.
    fn lent(&self) -> usize
        ensures { result ≡ lent_count self.now };
}
