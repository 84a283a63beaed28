//! All arrays of a column's pages.
ghost use Rattle.std.specs.Prelude.{◌≡◌, IfSome, None, true};
ghost use Rattle.columns_core.specs.DictionaryType.{key_type};
ghost use Rattle.page_decoding.specs.Queue.{IsChunkSize};
ghost use Rattle.parquet_page.specs.Lending.{DataPagesAre, has_data_behind};
ghost use Rattle.flat_values.specs.Pairs.{conversion};
ghost use Rattle.flat_binary.specs.Begun.{column_left};
ghost use Rattle.flat_binary.specs.Collected.{Collects, IsNotCarried};
ghost use Rattle.flat_binary.specs.Left.{supply_of};

use crate::collect::collect_arrays;
use crate::page_iter::page_iter_to_arrays;
use columns_core::{Array, DataType, Error};
use flat_values::ColumnArrays;
use parquet_base::Steps;
use parquet_meta::PrimitiveType;
use parquet_page::Pages;
use std::alloc::Global;
use std::collections::VecDeque;
use std::sync::ledger::Ledger;

/// The rows of pages, at most so many, in arrays of a type and of so many rows each, but for the last one; and how many pages were lent, at
/// most `usize::MAX`. For a dictionary type only the first of the pages to come may be a dictionary page.
///
/// `NotYetImplemented` for a type that the stored one is not read as.
pub fn collect_column<I: Pages, L: Ledger>(
    alloc: Global,
    pages: I,
    type_: &PrimitiveType,
    data_type: DataType,
    chunk_size: Option<usize>,
    num_rows: usize,
    steps: &mut Steps<L>,
) -> Result<(VecDeque<Array>, usize), Error>
    requires typed { let physical = type_.now.physical_type in
        DataPagesAre (λ page. page.type.physical_type ≡ physical) (I.to_come pages) }
    requires ordered { IfSome (key_type data_type) (λ _. has_data_behind (I.to_come pages) ≡ true) }
    requires size { IsChunkSize chunk_size }
    requires fresh { I.lent_count pages ≡ 0 }
    ensures collects { IfSome (conversion type_.now data_type) (λ rule.
        let supply = supply_of I.to_come I.causes I.row_count I.lent_count pages in
        let left = column_left type_.now.physical_type data_type chunk_size num_rows supply rule in
        Collects (λ found. found.0.items) (λ found. found.1) left result steps.old steps.new) }
    ensures refused { conversion type_.now data_type ≡ None → IsNotCarried result steps.old steps.new }
{
    let mut arrays = page_iter_to_arrays(alloc, pages, type_, data_type, chunk_size, num_rows)?;
    collect_counted(alloc, &mut arrays, steps)
}

/// All arrays of a column of which no page was lent, and how many pages were.
fn collect_counted<A: ColumnArrays, L: Ledger>(
    alloc: Global,
    arrays: &mut A,
    steps: &mut Steps<L>,
) -> Result<(VecDeque<Array>, usize), Error>
    requires size { IsChunkSize (A.left arrays.old).size }
    requires fresh { (A.left arrays.old).lent ≡ 0 }
    ensures collects { let left = A.left arrays.old in
        Collects (λ found. found.0.items) (λ found. found.1) left result steps.old steps.new }
{
    let found = collect_arrays(alloc, arrays, steps)?;
    Ok((found, arrays.lent()))
}
