//! Where the pages of a column stand.
ghost use Rattle.std.specs.Prelude.{◌≡◌, ◌≤◌, ◌+◌, true, length, sum_by, map, flat_map, IfOk, IfSome, OnOk, Some};
ghost use Rattle.std.specs.List.{list_all};
ghost use Rattle.columns_core.specs.Causes.{ComesOf, ExternalFormat, unless};
ghost use Rattle.parquet_meta.specs.Indexes.{offset_index_length};
ghost use Rattle.parquet_page.specs.Locations.{has_shape as has_shape_by};
ghost use Rattle.parquet_meta.specs.Reads.{ReadsFile};
ghost use Rattle.parquet_scan.specs.Causes.{offset_causes_of_field};
ghost use Rattle.parquet_scan.specs.Costs.{location_bytes_of};
ghost use Rattle.parquet_scan.specs.Pages.{locations as locations_by, locations_causes};
ghost use Rattle.parquet_scan.specs.Rows.{field_locations};

use crate::groups::column_named;
use columns_core::{Error, Field, Part, Seq};
use parquet_meta::{
    ColumnChunkMetaData, PageLocation, RowGroupMetaData, Source, read_pages_locations,
};
use parquet_page::has_shape;
use std::alloc::Global;
use std::slice;

/// Of each field the locations of its column's pages in a group. None where rows are not pruned by pages, or no row is kept.
pub(crate) type Located = Seq<Seq<PageLocation>>;

/// The locations of the pages of each field's column.
pub(crate) fn read_all_locations<S: Source>(
    alloc: Global,
    source: &mut S,
    group: &RowGroupMetaData,
    fields: &[Field],
) -> Result<Located, Error>
    ensures reads { ReadsFile S.Source source.old source.new (λ bytes.
        flat_map (offset_causes_of_field bytes group.now) fields.now) result }
    ensures locations { IfOk result (λ lists.
        IfSome (S.told source.old) (λ bytes.
        map (λ field. field_locations bytes group.now field.name) fields.now ≡ lists)) }
    ensures length { IfOk result (λ lists. length lists ≡ length fields.now) }
    ensures shaped { IfOk result (λ lists.
        list_all (λ list. has_shape_by list group.now.num_rows) lists ≡ true) }
    ensures taken { OnOk result (S.taken source.new ≤ S.taken source.old
        + sum_by (location_bytes_of group.now) fields.now) }
{
    let mut lists = Vec::with_capacity(alloc, fields.len())?;
    for field in fields {
        let list = read_field_locations(alloc, source, group, field)?;
        lists.push(Seq::new(list))?;
    }
    Ok(Seq::new(lists))
}

fn read_field_locations<S: Source>(
    alloc: Global,
    source: &mut S,
    group: &RowGroupMetaData,
    field: &Field,
) -> Result<Vec<PageLocation>, Error>
    ensures reads { ReadsFile S.Source source.old source.new (λ bytes.
        offset_causes_of_field bytes group.now field.now) result }
    ensures locations { IfOk result (λ list.
        IfSome (S.told source.old) (λ bytes. field_locations bytes group.now field.now.name ≡
        list.items)) }
    ensures shaped { IfOk result (λ list. has_shape_by list.items group.now.num_rows ≡ true) }
    ensures taken { S.taken source.new ≤ S.taken source.old + location_bytes_of group.now field.now }
{
    let Some(column) = column_named(group, &field.name) else {
        return Err(Error::ExternalFormat(Part::Group));
    };
    read_locations(alloc, source, group, column)
}

/// The locations of a column's pages. There is one, the first has row 0, and first rows never fall nor pass the number of rows.
fn read_locations<S: Source>(
    alloc: Global,
    source: &mut S,
    group: &RowGroupMetaData,
    column: &ColumnChunkMetaData,
) -> Result<Vec<PageLocation>, Error>
    ensures reads { ReadsFile S.Source source.old source.new (λ bytes.
        locations_causes bytes group.now column.now) result }
    ensures locations { IfOk result (λ list.
        IfSome (S.told source.old) (λ bytes. locations_by bytes column.now ≡ list.items)) }
    ensures shaped { IfOk result (λ list. has_shape_by list.items group.now.num_rows ≡ true) }
    ensures taken { S.taken source.new ≤ S.taken source.old + offset_index_length column.now }
{
    let mut lists = read_pages_locations(alloc, source, slice::from_ref(column))?;
    let Some(locations) = lists.pop() else {
        return Err(Error::ExternalFormat(Part::Location));
    };
    check_shape(&locations, group.num_rows)?;
    Ok(locations)
}

/// Refuses locations that have not their shape.
fn check_shape(locations: &[PageLocation], num_rows: usize) -> Result<(), Error>
    ensures ok { OnOk result (has_shape_by locations.now num_rows ≡ true) }
    ensures cause { ComesOf result (unless (has_shape_by locations.now num_rows) ExternalFormat) }
{
    if has_shape(locations, num_rows) {
        Ok(())
    } else {
        Err(Error::ExternalFormat(Part::Location))
    }
}
