//! The ends of pages as arrays.
ghost use Rattle.std.specs.Prelude.{◌≡◌, [], ◌∷◌, ◌++◌, true, IfOk, IfErr, OnOk};
ghost use Rattle.std.specs.List.{AllByRecursion};
ghost use Rattle.columns_core.specs.Array.{column_of};
ghost use Rattle.columns_core.specs.Causes.{IsWantOfMemory};
ghost use Rattle.flat_values.specs.CellTypes.{is_cell_of};
ghost use Rattle.flat_builders.specs.Flat.{Flat, flatness};
ghost use Rattle.flat_builders.specs.Kept.{cells_fit};
ghost use Rattle.column_ends.specs.Converted.{page_array_causes};
ghost use Rattle.column_ends.specs.Laws.{AreEndsOf};
ghost use Rattle.parquet_indexes.specs.PageStatistics.{AreOfPages, end_column, end_slot};
ghost use Rattle.parquet_indexes.specs.Sides.{end_on, ends_on};

use crate::ColumnPageStatistics;
use crate::counts::null_counts;
use columns_core::{Array, Cell, DataType, Error};
use flat_builders::FlatMutable;
use parquet_meta::PageIndex;
use std::alloc::Global;

/// Which end of a page.
#[derive(Clone, Copy)]
pub(crate) enum Side {
    Low,
    High,
}

/// Three arrays of what is told of pages: two of their ends, which are values of a type and whose bytes fit its arrays, and one of their counts.
pub(crate) fn statistics_of_pages(
    alloc: Global,
    data_type: &DataType,
    pages: &[PageIndex<Cell>],
) -> Result<ColumnPageStatistics, Error>
    requires flat { flatness data_type.now ≡ Flat }
    requires typed { AllByRecursion (AreEndsOf data_type.now) pages.now }
    requires fit { page_array_causes data_type.now pages.now ≡ [] }
    ensures arrays { IfOk result (AreOfPages data_type.now pages.now) }
    ensures memory { IfErr result IsWantOfMemory }
{
    let min = array_of_ends(alloc, data_type, pages, Side::Low)?;
    let max = array_of_ends(alloc, data_type, pages, Side::High)?;
    let null_count = null_counts(alloc, pages)?;
    Ok(ColumnPageStatistics {
        min,
        max,
        null_count,
    })
}

fn array_of_ends(
    alloc: Global,
    data_type: &DataType,
    pages: &[PageIndex<Cell>],
    side: Side,
) -> Result<Array, Error>
    requires flat { flatness data_type.now ≡ Flat }
    requires typed { AllByRecursion (AreEndsOf data_type.now) pages.now }
    requires fit { page_array_causes data_type.now pages.now ≡ [] }
    ensures array { IfOk result (λ array.
        column_of array ≡ end_column data_type.now (ends_on side pages.now)) }
    ensures memory { IfErr result IsWantOfMemory }
{
    let mut ends = FlatMutable::try_with_capacity(alloc, data_type.try_clone(alloc)?, pages.len())?;
    for page in pages {
        push_end(&mut ends, page, side)?;
    }
    ends.into_array()
}

/// Appends an end of a page, or null where it is not told.
fn push_end(ends: &mut FlatMutable, page: &PageIndex<Cell>, side: Side) -> Result<(), Error>
    requires typed { is_cell_of ends.old.0 (end_slot (end_on side page.now)) ≡ true }
    requires fits { cells_fit ends.old.0 (ends.old.1 ++ end_slot (end_on side page.now) ∷ []) ≡ true }
    ensures pushed { OnOk result
        (ends.new ≡ (ends.old.0, ends.old.1 ++ end_slot (end_on side page.now) ∷ [])) }
    ensures memory { IfErr result IsWantOfMemory }
{
    let end = match side {
        Side::Low => &page.min,
        Side::High => &page.max,
    };
    match end {
        None => ends.push_cell(&Cell::Null),
        Some(cell) => ends.push_cell(cell),
    }
}
