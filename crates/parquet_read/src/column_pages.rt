//! The pages of a column, whole or by locations.

use columns_core::Error;
use parquet_base::Steps;
use parquet_page::{IndexedPageReader, Page, PageReader, Pages};
use std::sync::ledger::Ledger;

/// The pages of a column: all of its chunk, or those that locations name.
#[derive(Drop)]
pub enum ColumnPages {
    Whole(PageReader),
    Located(IndexedPageReader),
}

impl Pages for ColumnPages {
    ghost use Rattle.parquet_read.specs.ColumnPages.{column_causes, column_count, column_given, column_pages, rows_to_lend};

    ghost to_come = { column_pages };

    ghost causes = { column_causes };

    ghost row_count = { rows_to_lend };

    ghost given_rows = { column_given };

    ghost lent_count = { column_count };

    fn next<L: Ledger>(&mut self, steps: &mut Steps<L>) -> Result<Option<Page<'_>>, Error> {
        match self {
            ColumnPages::Whole(pages) => pages.next(steps),
            ColumnPages::Located(pages) => pages.next(steps),
        }
    }

    fn rows(&self) -> usize {
        match self {
            ColumnPages::Whole(pages) => pages.rows(),
            ColumnPages::Located(pages) => pages.rows(),
        }
    }

    fn lent(&self) -> usize {
        match self {
            ColumnPages::Whole(pages) => pages.lent(),
            ColumnPages::Located(pages) => pages.lent(),
        }
    }
}
