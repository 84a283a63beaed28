//! The typed ends of pages.

ghost use Rattle.std.specs.Prelude.{◌≡◌, ◌<◌, length, IfSome, true};
ghost use Rattle.parquet_meta.specs.ColumnIndex.{has_one_length};
ghost use Rattle.parquet_meta.specs.Fault.{MakesOr};
ghost use Rattle.parquet_meta.specs.PageIndexes.{count_at, page_end, page_index, page_indexes, typed_index};

use crate::column_index::ColumnIndex;
use crate::fault::Fault;
use crate::metadata::{Index, PageIndex, PhysicalType};
use crate::stored_end::{
    BooleanForm, BytesForm, EndForm, FixedForm, Int32Form, Int64Form, Int96Form,
};
use columns_core::Seq;
use std::alloc::Global;

/// An end of a page. A page of nulls alone has none, whatever is stored for it.
fn page_end<F: EndForm<T>, T: Drop>(
    alloc: Global,
    form: &F,
    is_null: bool,
    bytes: &[u8],
) -> Result<Option<T>, Fault>
    ensures { MakesOr true result (page_end (F.end form.now) is_null bytes.now) }
{
    if is_null {
        return Ok(None);
    }
    Ok(Some(form.read_end(alloc, bytes)?))
}

/// What is said of a page.
fn page_index<F: EndForm<T>, T: Drop>(
    alloc: Global,
    form: &F,
    is_null: bool,
    min: &[u8],
    max: &[u8],
    null_count: Option<i64>,
) -> Result<PageIndex<T>, Fault>
    ensures { MakesOr true result (page_index (F.end form.now) is_null min.now max.now null_count) }
{
    let min = page_end(alloc, form, is_null, min)?;
    let max = page_end(alloc, form, is_null, max)?;
    Ok(PageIndex {
        min,
        max,
        null_count,
    })
}

/// The count of nulls of a page, where it is told.
fn null_count(index: &ColumnIndex, page: usize) -> Option<i64>
    requires { IfSome index.now.null_counts (λ counts. page < length counts) }
    ensures { result ≡ count_at index.now.null_counts page }
{
    match &index.null_counts {
        Some(counts) => Some(counts.as_slice()[page]),
        None => None,
    }
}

/// What is said of each page.
fn page_indexes<F: EndForm<T>, T: Drop>(
    alloc: Global,
    form: &F,
    index: &ColumnIndex,
) -> Result<Seq<PageIndex<T>>, Fault>
    requires { has_one_length index.now ≡ true }
    ensures { MakesOr true result (page_indexes (F.end form.now) index.now) }
{
    let null_pages = index.null_pages.as_slice();
    let mut pages = Vec::with_capacity(alloc, null_pages.len())?;
    for (page, is_null) in null_pages.iter().enumerate() {
        let min = index.min_values.value(page);
        let max = index.max_values.value(page);
        let nulls = null_count(index, page);
        pages.push(page_index(alloc, form, *is_null, min, max, nulls)?)?;
    }
    Ok(Seq::new(pages))
}

/// The index of a column of this physical type. Floating point numbers have none.
#[tactic(auto, unfolding(crate::specs::PageIndexes::typed_index))]
pub(crate) fn typed_index(
    alloc: Global,
    physical_type: PhysicalType,
    index: &ColumnIndex,
) -> Result<Index, Fault>
    requires { has_one_length index.now ≡ true }
    ensures { MakesOr true result (typed_index physical_type index.now) }
{
    match physical_type {
        PhysicalType::Boolean => Ok(Index::Boolean(page_indexes(alloc, &BooleanForm, index)?)),
        PhysicalType::Int32 => Ok(Index::Int32(page_indexes(alloc, &Int32Form, index)?)),
        PhysicalType::Int64 => Ok(Index::Int64(page_indexes(alloc, &Int64Form, index)?)),
        PhysicalType::Int96 => Ok(Index::Int96(page_indexes(alloc, &Int96Form, index)?)),
        PhysicalType::Float | PhysicalType::Double => Err(Fault::Unspelled),
        PhysicalType::ByteArray => Ok(Index::ByteArray(page_indexes(alloc, &BytesForm, index)?)),
        PhysicalType::FixedLenByteArray(width) => {
            let form = FixedForm { width };
            Ok(Index::FixedLenByteArray(width, page_indexes(alloc, &form, index)?))
        }
    }
}
