//! Where the pages of fields stand.
ghost use Rattle.std.specs.Prelude.{◌≡◌, ◌≤◌, ◌+◌, length, map, sum_by, IfOk, OnOk};
ghost use Rattle.parquet_meta.specs.Indexes.{locations_of, offset_index_length};
ghost use Rattle.parquet_meta.specs.Keeps.{Keeps};
ghost use Rattle.parquet_meta.specs.Source.{Finds};
ghost use Rattle.parquet_indexes.specs.PageMaps as spec;

use columns_core::{Error, Field, Part};
use parquet_meta::{ColumnChunkMetaData, PageLocation, Source, begins_with, read_pages_locations};
use std::alloc::Global;
use std::slice;

/// The locations of the pages of each column of each field.
pub(crate) fn read_locations<S: Source>(
    alloc: Global,
    source: &mut S,
    columns: &[ColumnChunkMetaData],
    fields: &[Field],
) -> Result<Vec<Vec<Vec<PageLocation>>>, Error>
    ensures keeps { Keeps S.Source source.old source.new }
    ensures quiet { OnOk result (S.faults source.new ≡ S.faults source.old) }
    ensures each { IfOk result (λ lists. length lists.items ≡ length fields.now) }
    ensures found { Finds (λ lists. spec.in_fields lists.items)
        (spec.locations_of_fields columns.now fields.now)
        (S.told source.old) (S.faults source.old) (S.faults source.new) result }
    ensures taken { S.taken source.new ≤ S.taken source.old
        + sum_by (spec.offset_indexes_length columns.now) fields.now }
{
    let mut locations = Vec::new(alloc);
    for field in fields {
        locations.push(locations_of_field(alloc, source, columns, field)?)?;
    }
    Ok(locations)
}

fn locations_of_field<S: Source>(
    alloc: Global,
    source: &mut S,
    columns: &[ColumnChunkMetaData],
    field: &Field,
) -> Result<Vec<Vec<PageLocation>>, Error>
    ensures keeps { Keeps S.Source source.old source.new }
    ensures quiet { OnOk result (S.faults source.new ≡ S.faults source.old) }
    ensures found { Finds (λ lists. map (λ list. list.items) lists.items)
        (λ file. spec.locations_of_field columns.now file field.now)
        (S.told source.old) (S.faults source.old) (S.faults source.new) result }
    ensures taken { S.taken source.new ≤ S.taken source.old
        + spec.offset_indexes_length columns.now field.now }
{
    let mut lists = Vec::new(alloc);
    for column in columns {
        if !begins_with(column, field.name.as_str()) {
            continue;
        }
        lists.push(locations_of_column(alloc, source, column)?)?;
    }
    Ok(lists)
}

fn locations_of_column<S: Source>(
    alloc: Global,
    source: &mut S,
    column: &ColumnChunkMetaData,
) -> Result<Vec<PageLocation>, Error>
    ensures keeps { Keeps S.Source source.old source.new }
    ensures quiet { OnOk result (S.faults source.new ≡ S.faults source.old) }
    ensures found { Finds (λ list. list.items) (λ file. locations_of file column.now)
        (S.told source.old) (S.faults source.old) (S.faults source.new) result }
    ensures taken { S.taken source.new ≤ S.taken source.old + offset_index_length column.now }
{
    let mut lists = read_pages_locations(alloc, source, slice::from_ref(column))?;
    let Some(locations) = lists.pop() else {
        return Err(Error::ExternalFormat(Part::Location));
    };
    Ok(locations)
}
