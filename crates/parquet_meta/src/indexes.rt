//! Reads the indexes of columns.

ghost use Rattle.std.specs.Prelude.{◌≡◌, ◌+◌, ◌≤◌, length, map, sum_by, true, IfOk, OnOk};
ghost use Rattle.parquet_meta.specs.Fault.{MakesOr};
ghost use Rattle.parquet_meta.specs.Indexes.{FindsIndex, FindsIndexes, column_index_length, field_columns, index_in, place_length, locations_at, locations_of, offset_index_length};
ghost use Rattle.parquet_meta.specs.Lists.{all_of};
ghost use Rattle.parquet_meta.specs.Keeps.{Keeps};
ghost use Rattle.parquet_meta.specs.Source.{Finds};

use crate::column_index::decode_column_index;
use crate::exact::{read_as, read_exact_at};
use crate::fault::Fault;
use crate::fields::begins_with;
use crate::metadata::{ColumnChunkMetaData, Index, PageLocation, PhysicalType, Place};
use crate::offset_index::decode_locations;
use crate::page_index::typed_index;
use crate::source::Source;
use crate::typed_statistics::is_carried;
use columns_core::{Error, Part};
use std::alloc::Global;

/// The locations of each column's pages, none where it has no offset index.
pub fn read_pages_locations<S: Source>(
    alloc: Global,
    source: &mut S,
    columns: &[ColumnChunkMetaData],
) -> Result<Vec<Vec<PageLocation>>, Error>
    ensures keeps { Keeps S.Source source.old source.new }
    ensures quiet { OnOk result (S.faults source.new ≡ S.faults source.old) }
    ensures each { IfOk result (λ lists. length lists.items ≡ length columns.now) }
    ensures found { Finds (λ lists. map (λ list. list.items) lists.items)
        (λ file. all_of (locations_of file) columns.now)
        (S.told source.old) (S.faults source.old) (S.faults source.new) result }
    ensures taken { S.taken source.new ≤ S.taken source.old + sum_by offset_index_length columns.now }
{
    let mut lists = Vec::new(alloc);
    for column in columns {
        lists.push(read_locations(alloc, source, column.offset_index)?)?;
    }
    Ok(lists)
}

/// The locations in the offset index at a place, none without one.
fn read_locations<S: Source>(
    alloc: Global,
    source: &mut S,
    place: Option<Place>,
) -> Result<Vec<PageLocation>, Error>
    ensures keeps { Keeps S.Source source.old source.new }
    ensures quiet { OnOk result (S.faults source.new ≡ S.faults source.old) }
    ensures found { Finds (λ list. list.items) (λ file. locations_at file place)
        (S.told source.old) (S.faults source.old) (S.faults source.new) result }
    ensures taken { S.taken source.new ≤ S.taken source.old + place_length place }
{
    let Some(place) = place else {
        return Ok(Vec::new(alloc));
    };
    let bytes = read_exact_at(alloc, source, place)?;
    match decode_locations(alloc, bytes.as_slice()) {
        Ok(locations) => Ok(locations.into_vec()),
        Err(fault) => Err(fault.at(Part::Location)),
    }
}

/// The column indexes of the columns whose path begins with the name of a field, in order. The ends of pages have the
/// physical type of their column; floating point numbers are not carried.
pub fn read_raw_indexes<S: Source>(
    alloc: Global,
    source: &mut S,
    columns: &[ColumnChunkMetaData],
    field_name: &str,
) -> Result<Vec<Index>, Error>
    ensures keeps { Keeps S.Source source.old source.new }
    ensures quiet { OnOk result (S.faults source.new ≡ S.faults source.old) }
    ensures each { IfOk result (λ indexes. length indexes.items
        ≡ length (field_columns field_name.now columns.now)) }
    ensures found { FindsIndexes (λ indexes. indexes.items) (field_columns field_name.now columns.now)
        (S.told source.old) (S.faults source.old) (S.faults source.new) result }
    ensures taken { S.taken source.new ≤ S.taken source.old
        + sum_by column_index_length (field_columns field_name.now columns.now) }
{
    let mut indexes = Vec::new(alloc);
    for column in columns {
        if !begins_with(column, field_name) {
            continue;
        }
        indexes.push(read_raw_index(alloc, source, column)?)?;
    }
    Ok(indexes)
}

/// The column index of a column.
fn read_raw_index<S: Source>(
    alloc: Global,
    source: &mut S,
    column: &ColumnChunkMetaData,
) -> Result<Index, Error>
    ensures keeps { Keeps S.Source source.old source.new }
    ensures quiet { OnOk result (S.faults source.new ≡ S.faults source.old) }
    ensures found { FindsIndex column.now
        (S.told source.old) (S.faults source.old) (S.faults source.new) result }
    ensures taken { S.taken source.new ≤ S.taken source.old + column_index_length column.now }
{
    let physical_type = column.descriptor.primitive_type.physical_type;
    if !is_carried(physical_type) {
        return Err(Error::NotYetImplemented(Part::Index));
    }
    let Some(place) = column.column_index else {
        return Err(Error::ExternalFormat(Part::Index));
    };
    let bytes = read_as(alloc, source, place, Part::Index)?;
    match decode_index(alloc, physical_type, bytes.as_slice()) {
        Ok(index) => Ok(index),
        Err(fault) => Err(fault.at(Part::Index)),
    }
}

/// The index of a column of this physical type, in bytes.
fn decode_index(alloc: Global, physical_type: PhysicalType, bytes: &[u8]) -> Result<Index, Fault>
    ensures { MakesOr true result (index_in physical_type bytes.now) }
{
    let stored = decode_column_index(alloc, bytes)?;
    typed_index(alloc, physical_type, &stored)
}
