//! The lines of pages, of what their indexes tell.
ghost use Rattle.std.specs.Prelude.{◌≡◌, ◌≤◌, ◌+◌, zip, flat_map, length, option_and_then, IfErr, IfOk, IfSome, IsSome, OnOk, Some};
ghost use Rattle.parquet_meta.specs.Code.{not_negative};
ghost use Rattle.parquet_meta.specs.Indexes.{FindsIndex, column_index_length, locations_of as locations_by, offset_index_length};
ghost use Rattle.parquet_meta.specs.Keeps.{Keeps};
ghost use Rattle.parquet_meta.specs.Reads.{ReadsFile};
ghost use Rattle.parquet_meta.specs.Source.{Finds};
ghost use Rattle.pq_common.specs.Texts.{AddsText};
ghost use Rattle.inspect_program.specs.Calls.{IsOfInspection, Tells};
ghost use Rattle.inspect_program.specs.Groups.{told_as};
ghost use Rattle.inspect_program.specs.Guess.{chunk_type as chunk_type_by, first_name};
ghost use Rattle.inspect_program.specs.Pages as spec;
ghost use Rattle.inspect_program.specs.Pages.{ends_causes, page_cells, page_line, page_rows, rows_causes};
ghost use Rattle.inspect_program.specs.Sections.{indexes_section, pages_section};

use crate::groups::push_told;
use column_ends::index_ends;
use columns_core::{Cell, DataType, Error, Part};
use parquet_base::Interval;
use parquet_meta::{
    ColumnChunkMetaData, Index, PageIndex, PageLocation, PhysicalType, Source,
    read_pages_locations, read_raw_indexes,
};
use parquet_page::page_row_intervals;
use pq_common::Text;
use std::alloc::{AllocError, Global};
use std::slice;

/// Adds a line for each page of a chunk that tells its pages.
pub(crate) fn push_pages<S: Source>(
    alloc: Global,
    source: &mut S,
    text: &mut Text,
    number: usize,
    column: &ColumnChunkMetaData,
    rows: usize,
    data_type: &DataType,
) -> Result<(), Error>
    requires { chunk_type_by column.now.descriptor ≡ Some data_type.now }
    ensures { let section = pages_section rows (told_as number data_type.now column.now) in
        Tells S.Source source.old source.new section text.old text.new result }
{
    if !tells_pages(column) {
        return Ok(());
    }
    push_told_pages(alloc, source, text, number, column, rows, data_type)
}

/// Adds a line for each page of a chunk.
fn push_told_pages<S: Source>(
    alloc: Global,
    source: &mut S,
    text: &mut Text,
    number: usize,
    column: &ColumnChunkMetaData,
    rows: usize,
    data_type: &DataType,
) -> Result<(), Error>
    requires { chunk_type_by column.now.descriptor ≡ Some data_type.now }
    ensures { let section = indexes_section rows (told_as number data_type.now column.now) in
        Tells S.Source source.old source.new section text.old text.new result }
{
    let rows = rows_of_pages(alloc, source, column, rows)?;
    let ends = ends_of_pages(alloc, source, column, data_type)?;
    if ends.len() != rows.len() {
        return Err(Error::ExternalFormat(Part::Index));
    }
    push_lines(text, number, &rows, &ends)?;
    Ok(())
}

/// Whether lines of pages are written of a chunk: it has both indexes, stands in this file in the clear, and its ends are whole.
fn tells_pages(column: &ColumnChunkMetaData) -> bool
    ensures { result ≡ spec.tells_pages column.now }
{
    column.offset_index.is_some()
        && column.column_index.is_some()
        && !column.foreign
        && !column.encrypted
        && !is_fixed(column.descriptor.primitive_type.physical_type)
}

fn is_fixed(stored: PhysicalType) -> bool
    ensures { result ≡ spec.is_fixed stored }
{
    match stored {
        PhysicalType::FixedLenByteArray(_) => true,
        PhysicalType::Boolean
        | PhysicalType::Int32
        | PhysicalType::Int64
        | PhysicalType::Int96
        | PhysicalType::Float
        | PhysicalType::Double
        | PhysicalType::ByteArray => false,
    }
}

/// Which rows the pages of a chunk hold.
fn rows_of_pages<S: Source>(
    alloc: Global,
    source: &mut S,
    column: &ColumnChunkMetaData,
    rows: usize,
) -> Result<Vec<Interval>, Error>
    ensures reads { ReadsFile S.Source source.old source.new (λ bytes.
        rows_causes rows bytes column.now) result }
    ensures rows { IfOk result (λ found. IfSome (S.told source.old) (λ bytes.
        page_rows rows bytes column.now ≡ Some found.items)) }
    ensures carried { IfErr result IsOfInspection }
    ensures taken { S.taken source.new ≤ S.taken source.old + offset_index_length column.now }
{
    let locations = locations_of(alloc, source, column)?;
    page_row_intervals(alloc, &locations, rows)
}

/// Where the pages of a chunk stand.
fn locations_of<S: Source>(
    alloc: Global,
    source: &mut S,
    column: &ColumnChunkMetaData,
) -> Result<Vec<PageLocation>, Error>
    ensures keeps { Keeps S.Source source.old source.new }
    ensures quiet { OnOk result (S.faults source.new ≡ S.faults source.old) }
    ensures found { Finds (λ list. list.items) (λ bytes. locations_by bytes column.now)
        (S.told source.old) (S.faults source.old) (S.faults source.new) result }
    ensures taken { S.taken source.new ≤ S.taken source.old + offset_index_length column.now }
{
    let mut lists = read_pages_locations(alloc, source, slice::from_ref(column))?;
    match lists.pop() {
        Some(list) => Ok(list),
        None => Err(Error::ExternalFormat(Part::Location)),
    }
}

/// What the column index of a chunk tells of its pages.
fn ends_of_pages<S: Source>(
    alloc: Global,
    source: &mut S,
    column: &ColumnChunkMetaData,
    data_type: &DataType,
) -> Result<Vec<PageIndex<Cell>>, Error>
    requires { chunk_type_by column.now.descriptor ≡ Some data_type.now }
    ensures reads { ReadsFile S.Source source.old source.new (λ bytes.
        ends_causes data_type.now bytes column.now) result }
    ensures ends { IfOk result (λ found. IfSome (S.told source.old) (λ bytes.
        page_cells data_type.now bytes column.now ≡ Some found.items)) }
    ensures carried { IfErr result IsOfInspection }
    ensures taken { S.taken source.new ≤ S.taken source.old + column_index_length column.now }
{
    let index = index_of(alloc, source, column)?;
    index_ends(alloc, &column.descriptor.primitive_type, &index, data_type)
}

/// The column index of a chunk.
fn index_of<S: Source>(
    alloc: Global,
    source: &mut S,
    column: &ColumnChunkMetaData,
) -> Result<Index, Error>
    requires { IsSome (first_name column.now.descriptor.path_in_schema) }
    ensures keeps { Keeps S.Source source.old source.new }
    ensures quiet { OnOk result (S.faults source.new ≡ S.faults source.old) }
    ensures found { FindsIndex column.now
        (S.told source.old) (S.faults source.old) (S.faults source.new) result }
    ensures taken { S.taken source.new ≤ S.taken source.old + column_index_length column.now }
{
    let Some(name) = column.descriptor.path_in_schema.as_slice().first() else {
        return Err(Error::ExternalFormat(Part::Index));
    };
    let mut indexes = read_raw_indexes(alloc, source, slice::from_ref(column), name.as_str())?;
    match indexes.pop() {
        Some(index) => Ok(index),
        None => Err(Error::ExternalFormat(Part::Index)),
    }
}

/// Adds the lines of pages.
fn push_lines(
    text: &mut Text,
    number: usize,
    rows: &[Interval],
    ends: &[PageIndex<Cell>],
) -> Result<(), AllocError>
    requires { length rows.now ≡ length ends.now }
    ensures { AddsText (flat_map (page_line number) (zip rows.now ends.now)) text.old result text.new }
{
    for i in 0..rows.len() {
        push_page(text, number, rows[i], &ends[i])?;
    }
    Ok(())
}

fn push_page(
    text: &mut Text,
    number: usize,
    rows: Interval,
    page: &PageIndex<Cell>,
) -> Result<(), AllocError>
    ensures { AddsText (page_line number (rows, page.now)) text.old result text.new }
{
    text.push_labelled(b"page ", number)?;
    text.push_labelled(b" ", rows.start)?;
    text.push_labelled(b"+", rows.length)?;
    push_told(text, &page.min, &page.max, count_of(page.null_count))
}

/// A count that is told is not negative.
fn count_of(count: Option<i64>) -> Option<u64>
    ensures { result ≡ option_and_then not_negative count }
{
    u64::try_from(count?).ok()
}
