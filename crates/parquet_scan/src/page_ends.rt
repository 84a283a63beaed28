//! Which pages of a column its column index keeps for a bound.
ghost use Rattle.std.specs.Prelude.{◌≡◌, ◌≤◌, ◌+◌, true, false, length, map, option_and_then, slice_get, zip, IfOk, IfSome, OnOk};
ghost use Rattle.std.specs.Option.{option_map_or};
ghost use Rattle.parquet_meta.specs.Code.{not_negative};
ghost use Rattle.parquet_meta.specs.Indexes.{FindsIndex, column_index_length};
ghost use Rattle.parquet_meta.specs.Keeps.{Keeps};
ghost use Rattle.parquet_meta.specs.Reads.{ReadsFile};
ghost use Rattle.parquet_scan.specs.Pages as spec;
ghost use Rattle.parquet_scan.specs.Request.{begins};
ghost use Rattle.parquet_scan.specs.Rows.{page_keeps as page_keeps_by};

use crate::Bound;
use crate::bound::ends_keep;
use column_ends::{FromEnds, index_each};
use columns_core::{Cell, DataType, Error, Name, Part};
use flat_values::carries_page;
use parquet_base::Interval;
use parquet_meta::{ColumnChunkMetaData, Index, PageIndex, Source, read_raw_indexes};
use std::alloc::Global;
use std::slice;

/// Asks of the pages with these rows whether they may hold a row that meets a bound.
#[derive(Drop)]
struct PageTest<'a> {
    rows: &'a [Interval],
    bound: &'a Bound,
}

impl FromEnds<bool> for PageTest<'_> {
    // An index of more pages than these is refused once all are judged.
    ghost made = { λ test told. option_map_or
        (λ rows. page_keeps_by test.bound.now (rows, spec.ends_of_page told.1))
        (slice_get test.rows.now told.0) false };

    #[inline(always)]
    fn make(&self, page: usize, ends: PageIndex<Cell>) -> bool {
        match self.rows.get(page) {
            Some(rows) => page_keeps(*rows, &ends, self.bound),
            None => false,
        }
    }
}

/// Whether each page of a column that the name of a bound begins may hold a row that meets it, where the pages have these rows and the
/// column index tells of as many pages.
pub(crate) fn read_kept_pages<S: Source>(
    alloc: Global,
    source: &mut S,
    column: &ColumnChunkMetaData,
    data_type: &DataType,
    rows: &[Interval],
    bound: &Bound,
) -> Result<Vec<bool>, Error>
    requires named { begins bound.now.field column.now.descriptor ≡ true }
    ensures reads { ReadsFile S.Source source.old source.new (λ bytes.
        spec.column_index_causes data_type.now (length rows.now) bytes column.now) result }
    ensures kept { IfOk result (λ keep. IfSome (S.told source.old) (λ bytes.
        map (page_keeps_by bound.now) (zip rows.now (spec.page_ends data_type.now bytes column.now))
        ≡ keep.items)) }
    ensures length { IfOk result (λ keep. length keep.items ≡ length rows.now) }
    ensures taken { S.taken source.new ≤ S.taken source.old + column_index_length column.now }
{
    let stored = &column.descriptor.primitive_type;
    if !carries_page(stored, data_type) {
        return Err(Error::NotYetImplemented(Part::Index));
    }
    let index = read_index(alloc, source, column, &bound.field)?;
    let test = PageTest { rows, bound };
    let keep = index_each(alloc, stored, &index, data_type, &test)?;
    if keep.len() != rows.len() {
        return Err(Error::ExternalFormat(Part::Index));
    }
    Ok(keep)
}

/// The column index of a column that this name begins.
fn read_index<S: Source>(
    alloc: Global,
    source: &mut S,
    column: &ColumnChunkMetaData,
    name: &Name,
) -> Result<Index, Error>
    requires named { begins name.now column.now.descriptor ≡ true }
    ensures keeps { Keeps S.Source source.old source.new }
    ensures quiet { OnOk result (S.faults source.new ≡ S.faults source.old) }
    ensures found { FindsIndex column.now (S.told source.old) (S.faults source.old)
        (S.faults source.new) result }
    ensures taken { S.taken source.new ≤ S.taken source.old + column_index_length column.now }
{
    let mut indexes = read_raw_indexes(alloc, source, slice::from_ref(column), name.as_str())?;
    let Some(index) = indexes.pop() else {
        return Err(Error::ExternalFormat(Part::Index));
    };
    Ok(index)
}

#[inline(always)]
fn page_keeps(page: Interval, ends: &PageIndex<Cell>, bound: &Bound) -> bool
    ensures { result ≡ page_keeps_by bound.now (page, spec.ends_of_page ends.now) }
{
    ends_keep(
        ends.min.as_ref(),
        ends.max.as_ref(),
        known_count(ends.null_count),
        page.length as u64,
        bound,
    )
}

/// No count of a page without a cause is negative.
fn known_count(count: Option<i64>) -> Option<u64>
    ensures { result ≡ option_and_then not_negative count }
{
    match count {
        Some(count) if count >= 0 => Some(count as u64),
        _ => None,
    }
}
