//! Which rows of a group its pages keep.
ghost use Rattle.std.specs.Prelude.{◌≡◌, ◌<◌, ◌≤◌, ◌+◌, true, All, length, sum_by, map, flat_map, IfOk, IfSome, OnOk};
ghost use Rattle.std.specs.List.{list_all};
ghost use Rattle.parquet_base.specs.Intervals.{maximal_runs, AreApart};
ghost use Rattle.parquet_page.specs.Locations.{has_shape};
ghost use Rattle.parquet_meta.specs.Indexes.{column_index_length};
ghost use Rattle.parquet_meta.specs.Reads.{ReadsFile};
ghost use Rattle.parquet_scan.specs.Causes.{index_causes_of_bound, index_causes_of_group};
ghost use Rattle.parquet_scan.specs.Costs.{index_bytes_of, location_bytes_of};
ghost use Rattle.parquet_scan.specs.Counting.{AreLocated};
ghost use Rattle.parquet_scan.specs.Pages.{column_index_causes, page_ends, rows_at};
ghost use Rattle.parquet_scan.specs.Request.{begins, is_legal_bound_of};
ghost use Rattle.parquet_scan.specs.Rows.{bound_keeps, field_locations, pages_keep, keeps_row};

use crate::Bound;
use crate::groups::bounded_column;
use crate::locations::{Located, read_all_locations};
use crate::page_ends::read_kept_pages;
use crate::request::place_of;
use columns_core::{DataType, Error, Field, Part, Seq};
use parquet_base::{Interval, page_runs, runs_of_all};
use parquet_meta::{ColumnChunkMetaData, PageLocation, RowGroupMetaData, Source};
use parquet_page::page_row_intervals;
use std::alloc::Global;

/// The runs of the rows of a group that lie in pages which no bound rules out and, if there are any, where the pages of each field's column
/// stand.
pub(crate) fn kept_by_pages<S: Source>(
    alloc: Global,
    source: &mut S,
    group: &RowGroupMetaData,
    fields: &[Field],
    bounds: &[Bound],
) -> Result<(Vec<Interval>, Located), Error>
    requires legal { list_all (is_legal_bound_of fields.now) bounds.now ≡ true }
    ensures reads { ReadsFile S.Source source.old source.new (λ bytes.
        index_causes_of_group fields.now bounds.now bytes group.now) result }
    ensures kept { IfOk result (λ found. IfSome (S.told source.old) (λ bytes. found.0.items
        ≡ maximal_runs (pages_keep true fields.now bounds.now bytes group.now) group.now.num_rows)) }
    ensures apart { IfOk result (λ found. AreApart 0 found.0.items group.now.num_rows) }
    ensures located { IfOk result (λ found.
        0 < length found.0.items → AreLocated (S.told source.old) fields.now group.now found.1) }
    ensures taken { OnOk result (S.taken source.new
        ≤ S.taken source.old + (sum_by (location_bytes_of group.now) fields.now
        + sum_by (index_bytes_of group.now) bounds.now)) }
{
    let locations = read_all_locations(alloc, source, group, fields)?;
    let lists = read_all_runs(alloc, source, group, fields, bounds, locations.as_slice())?;
    let runs = runs_of_all(alloc, &lists, group.num_rows)?;
    let located = held_for(alloc, &runs, locations);
    Ok((runs, located))
}

/// The locations, if there are runs. Of a group without one no page is read.
fn held_for(alloc: Global, runs: &[Interval], locations: Located) -> Located
    ensures { 0 < length runs.now → result ≡ locations }
{
    if runs.is_empty() {
        Seq::new(Vec::new(alloc))
    } else {
        locations
    }
}

/// Of each bound the runs of the rows that it keeps.
fn read_all_runs<S: Source>(
    alloc: Global,
    source: &mut S,
    group: &RowGroupMetaData,
    fields: &[Field],
    bounds: &[Bound],
    locations: &[Seq<PageLocation>],
) -> Result<Vec<Vec<Interval>>, Error>
    requires legal { list_all (is_legal_bound_of fields.now) bounds.now ≡ true }
    requires length { length locations.now ≡ length fields.now }
    requires shaped { list_all (λ list. has_shape list group.now.num_rows) locations.now ≡ true }
    requires told { IfSome (S.told source.old) (λ bytes.
        map (λ field. field_locations bytes group.now field.name) fields.now ≡ locations.now) }
    ensures reads { ReadsFile S.Source source.old source.new (λ bytes.
        flat_map (index_causes_of_bound fields.now bytes group.now) bounds.now) result }
    ensures runs { IfOk result (λ lists. IfSome (S.told source.old) (λ bytes.
        map (λ bound.
        maximal_runs (λ row. bound_keeps fields.now bytes group.now row bound) group.now.num_rows) bounds.now
        ≡ map (λ list. list.items) lists.items)) }
    ensures apart { IfOk result (λ lists.
        All (λ list. AreApart 0 list.items group.now.num_rows) lists.items) }
    ensures taken { OnOk result (S.taken source.new ≤ S.taken source.old
        + sum_by (index_bytes_of group.now) bounds.now) }
{
    let mut lists = Vec::new(alloc);
    for bound in bounds {
        let of_column = locations[place_of(bound, fields)].as_slice();
        lists.push(read_runs(alloc, source, group, fields, bound, of_column)?)?;
    }
    Ok(lists)
}

/// The runs of the rows that a bound keeps, where the pages of its column stand at these locations.
fn read_runs<S: Source>(
    alloc: Global,
    source: &mut S,
    group: &RowGroupMetaData,
    fields: &[Field],
    bound: &Bound,
    locations: &[PageLocation],
) -> Result<Vec<Interval>, Error>
    requires shaped { has_shape locations.now group.now.num_rows ≡ true }
    requires told { IfSome (S.told source.old) (λ bytes.
        field_locations bytes group.now bound.now.field ≡ locations.now) }
    ensures reads { ReadsFile S.Source source.old source.new (λ bytes.
        index_causes_of_bound fields.now bytes group.now bound.now) result }
    ensures runs { IfOk result (λ runs. IfSome (S.told source.old) (λ bytes.
        maximal_runs (λ row. bound_keeps fields.now bytes group.now row bound.now) group.now.num_rows
        ≡ runs.items)) }
    ensures apart { IfOk result (λ runs. AreApart 0 runs.items group.now.num_rows) }
    ensures taken { S.taken source.new ≤ S.taken source.old + index_bytes_of group.now bound.now }
{
    let Some((data_type, column)) = bounded_column(group, fields, bound) else {
        return Err(Error::ExternalFormat(Part::Group));
    };
    runs_of_pages(
        alloc,
        source,
        column,
        data_type,
        bound,
        locations,
        group.num_rows,
    )
}

/// The runs of the rows that a bound keeps in the pages of a column that its name begins, at these locations.
fn runs_of_pages<S: Source>(
    alloc: Global,
    source: &mut S,
    column: &ColumnChunkMetaData,
    data_type: &DataType,
    bound: &Bound,
    locations: &[PageLocation],
    num_rows: usize,
) -> Result<Vec<Interval>, Error>
    requires named { begins bound.now.field column.now.descriptor ≡ true }
    requires shaped { has_shape locations.now num_rows ≡ true }
    ensures reads { ReadsFile S.Source source.old source.new (λ bytes.
        column_index_causes data_type.now (length locations.now) bytes column.now) result }
    ensures runs { IfOk result (λ runs. IfSome (S.told source.old) (λ bytes.
        let rows = rows_at locations.now num_rows in
        runs.items ≡ maximal_runs (keeps_row rows (page_ends data_type.now bytes column.now) bound.now)
        num_rows)) }
    ensures apart { IfOk result (λ runs. AreApart 0 runs.items num_rows) }
    ensures taken { S.taken source.new ≤ S.taken source.old + column_index_length column.now }
{
    let rows = page_row_intervals(alloc, locations, num_rows)?;
    let keep = read_kept_pages(alloc, source, column, data_type, &rows, bound)?;
    Ok(page_runs(alloc, &rows, &keep, num_rows)?)
}
