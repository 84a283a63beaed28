//! Which pages of a group's columns hold rows that are wanted.
ghost use Rattle.std.specs.Prelude.{◌≡◌, ◌≤◌, ◌+◌, true, false, length, map, sum_by, IfOk, IfErr, IsErrAnd, OnOk};
ghost use Rattle.columns_core.specs.Causes.{is_invalid_argument};
ghost use Rattle.columns_core.specs.Refusals.{IsDamaged};
ghost use Rattle.parquet_base.specs.Intervals.{is_well_shaped as is_well_shaped_by};
ghost use Rattle.parquet_meta.specs.Keeps.{Keeps};
ghost use Rattle.parquet_meta.specs.Lists.{all_of};
ghost use Rattle.parquet_meta.specs.Source.{Finds};
ghost use Rattle.parquet_page.specs.Locations.{page_intervals, selected_pages};
ghost use Rattle.parquet_indexes.specs.PageMaps as spec;

use crate::fields::have_columns;
use crate::locations::read_locations;
use columns_core::{Error, Field, Part};
use parquet_base::{Interval, is_well_shaped};
use parquet_meta::{PageLocation, RowGroupMetaData, Source};
use parquet_page::{FilteredPage, page_row_intervals, select_pages};
use std::alloc::Global;

/// Whether each column of a group says where its column index begins.
pub fn has_indexes(row_group: &RowGroupMetaData) -> bool
    ensures { result ≡ spec.has_column_indexes row_group.now }
{
    row_group
        .columns
        .as_slice()
        .iter()
        .all(|column| column.column_index_offset.is_some())
}

/// Of each column of each field its pages, each with the rows of it that lie in the intervals, which may be none. Only the offset indexes of
/// these columns are read.
///
/// `InvalidArgumentError` where the intervals are not sorted, disjoint, filled and within the group, or a field has no column;
/// `ExternalFormat` where an offset index is damaged, its rows or places are, it begins behind the first interval, or there is none where rows are
/// wanted.
pub fn pages_of<S: Source>(
    alloc: Global,
    source: &mut S,
    row_group: &RowGroupMetaData,
    fields: &[Field],
    intervals: &[Interval],
) -> Result<Vec<Vec<Vec<FilteredPage>>>, Error>
    ensures keeps { Keeps S.Source source.old source.new }
    ensures quiet { OnOk result (S.faults source.new ≡ S.faults source.old) }
    ensures argument { spec.can_be_asked row_group.now fields.now intervals.now ≡ false
        → IsErrAnd result (λ e. is_invalid_argument e ≡ true) × (source.new ≡ source.old) }
    ensures each { IfOk result (λ maps. length maps.items ≡ length fields.now) }
    ensures found { spec.can_be_asked row_group.now fields.now intervals.now ≡ true
        → Finds (λ maps. spec.in_fields maps.items)
        (spec.field_maps row_group.now intervals.now fields.now)
        (S.told source.old) (S.faults source.old) (S.faults source.new) result }
    ensures taken { S.taken source.new ≤ S.taken source.old
        + sum_by (spec.offset_indexes_length row_group.now.columns) fields.now }
{
    if !can_be_asked(row_group, fields, intervals) {
        return Err(Error::InvalidArgumentError(Part::Request));
    }
    let locations = read_locations(alloc, source, row_group.columns.as_slice(), fields)?;
    select_of_fields(alloc, intervals, &locations, row_group.num_rows)
}

fn can_be_asked(row_group: &RowGroupMetaData, fields: &[Field], intervals: &[Interval]) -> bool
    ensures { result ≡ spec.can_be_asked row_group.now fields.now intervals.now }
{
    is_well_shaped(intervals, row_group.num_rows)
        && have_columns(row_group.columns.as_slice(), fields)
}

/// Of each column of each field its pages, each with the rows of it that lie in the intervals.
pub(crate) fn select_of_fields(
    alloc: Global,
    intervals: &[Interval],
    fields: &[Vec<Vec<PageLocation>>],
    num_rows: usize,
) -> Result<Vec<Vec<Vec<FilteredPage>>>, Error>
    requires shaped { is_well_shaped_by intervals.now num_rows ≡ true }
    ensures maps { IfOk result (λ maps.
        spec.pages_at_places intervals.now num_rows (spec.in_fields fields.now)
        ≡ Some (spec.in_fields maps.items)) }
    ensures refusal { IfErr result (IsDamaged (
        spec.pages_at_places intervals.now num_rows (spec.in_fields fields.now))) }
{
    let mut maps = Vec::new(alloc);
    for columns in fields {
        maps.push(select_of_columns(alloc, intervals, columns, num_rows)?)?;
    }
    Ok(maps)
}

fn select_of_columns(
    alloc: Global,
    intervals: &[Interval],
    columns: &[Vec<PageLocation>],
    num_rows: usize,
) -> Result<Vec<Vec<FilteredPage>>, Error>
    requires shaped { is_well_shaped_by intervals.now num_rows ≡ true }
    ensures maps { IfOk result (λ maps.
        all_of (λ locations. selected_pages intervals.now locations num_rows)
        (map (λ list. list.items) columns.now) ≡ Some (map (λ list. list.items) maps.items)) }
    ensures refusal { IfErr result (IsDamaged (
        all_of (λ locations. selected_pages intervals.now locations num_rows)
        (map (λ list. list.items) columns.now))) }
{
    let mut maps = Vec::new(alloc);
    for locations in columns {
        maps.push(select_pages(alloc, intervals, locations, num_rows)?)?;
    }
    Ok(maps)
}

/// The rows of the pages at these locations, of each column of each field.
pub(crate) fn rows_of_fields(
    alloc: Global,
    fields: &[Vec<Vec<PageLocation>>],
    num_rows: usize,
) -> Result<Vec<Vec<Vec<Interval>>>, Error>
    ensures rows { IfOk result (λ rows.
        spec.rows_at_places num_rows (spec.in_fields fields.now) ≡ Some (spec.in_fields rows.items)) }
    ensures refusal { IfErr result (IsDamaged (
        spec.rows_at_places num_rows (spec.in_fields fields.now))) }
{
    let mut rows = Vec::new(alloc);
    for columns in fields {
        rows.push(rows_of_columns(alloc, columns, num_rows)?)?;
    }
    Ok(rows)
}

fn rows_of_columns(
    alloc: Global,
    columns: &[Vec<PageLocation>],
    num_rows: usize,
) -> Result<Vec<Vec<Interval>>, Error>
    ensures rows { IfOk result (λ rows.
        all_of (λ locations. page_intervals locations num_rows) (map (λ list. list.items) columns.now)
        ≡ Some (map (λ list. list.items) rows.items)) }
    ensures refusal { IfErr result (IsDamaged (
        all_of (λ locations. page_intervals locations num_rows) (map (λ list. list.items) columns.now))) }
{
    let mut rows = Vec::new(alloc);
    for locations in columns {
        rows.push(page_row_intervals(alloc, locations, num_rows)?)?;
    }
    Ok(rows)
}
