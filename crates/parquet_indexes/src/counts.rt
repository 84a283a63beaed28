//! The counts of nulls of pages.
ghost use Rattle.std.specs.Prelude.{◌≡◌, is_some, IfOk, IfErr};
ghost use Rattle.columns_core.specs.Causes.{IsWantOfMemory};
ghost use Rattle.parquet_meta.specs.TypedStatistics.{known_count};
ghost use Rattle.parquet_indexes.specs.PageStatistics.{count_column, told_count as told_count_by};

use columns_core::{Cell, DataType, Error, MutableBitmap, PrimitiveArray};
use parquet_meta::PageIndex;
use std::alloc::Global;

/// The counts of pages, null where one is not told.
pub(crate) fn null_counts(
    alloc: Global,
    pages: &[PageIndex<Cell>],
) -> Result<PrimitiveArray<u64>, Error>
    ensures counts { IfOk result (λ array. array ≡ count_column pages.now) }
    ensures memory { IfErr result IsWantOfMemory }
{
    let mut values = Vec::with_capacity(alloc, pages.len())?;
    let mut validity = MutableBitmap::with_capacity(alloc, pages.len())?;
    for page in pages {
        let count = told_count(page.null_count);
        values.push(count.unwrap_or(0))?;
        validity.push(count.is_some())?;
    }
    PrimitiveArray::try_new(DataType::UInt64, values, Some(validity.freeze()))
}

/// A count that is told and not negative.
fn told_count(count: Option<i64>) -> Option<u64>
    ensures { result ≡ told_count_by count }
{
    u64::try_from(count?).ok()
}

/// A count that is told is not negative.
pub(crate) fn is_count(count: Option<i64>) -> bool
    ensures { result ≡ is_some (known_count count) }
{
    match count {
        None => true,
        Some(count) => 0 <= count,
    }
}
