//! What is asked of a group: its fields, the located pages of their columns, and what the metadata refuse of it.
ghost use Rattle.std.specs.Prelude.{◌≡◌, ◌==◌, [], true, false, map, length, IsTrue, IfOk, IfErr, OnOk, option_map};
ghost use Rattle.std.specs.List.{list_all};
ghost use Rattle.columns_core.specs.Causes.{ComesOf, IsWantOfMemory, is_invalid_argument};
ghost use Rattle.parquet_meta.specs.Indexes.{field_columns};
ghost use Rattle.parquet_page.specs.Lent.{are_well_shaped as are_well_shaped_by};
ghost use Rattle.parquet_read.specs.Asked as spec;
ghost use Rattle.parquet_read.specs.Opening.{lone as lone_of, type_causes};

use crate::columns::is_here;
use crate::deserializer::{check_column, is_null, lone};
use crate::selected::{are_in_range, are_well_shaped, pages_within};
use columns_core::{DataType, Error, Field, Part, Seq};
use flat_binary::carries;
use parquet_meta::{ColumnChunkMetaData, RowGroupMetaData, get_field_columns};
use parquet_page::FilteredPage;
use std::alloc::{AllocError, Global};

/// A field, and the located pages of its column where they are told.
pub(crate) type AskedField = (Field, Option<Seq<FilteredPage>>);

/// Refuses a chunk size of 0, lists of pages that are not one for each field and its one column, and selected rows that are not well shaped.
pub(crate) fn check_reading(
    fields: usize,
    chunk_size: Option<usize>,
    pages: &Option<Vec<Vec<Vec<FilteredPage>>>>,
) -> Result<(), Error>
    ensures ok { let lists = spec.lists_of pages.now in
        OnOk result (spec.is_legal_reading chunk_size fields lists ≡ true) }
    ensures err { let lists = spec.lists_of pages.now in
        IfErr result (λ e. IsTrue (is_invalid_argument e)
        × (spec.is_legal_reading chunk_size fields lists ≡ false)) }
{
    if !is_legal_reading(fields, chunk_size, pages) {
        return Err(Error::InvalidArgumentError(Part::Request));
    }
    Ok(())
}

fn is_legal_reading(
    fields: usize,
    chunk_size: Option<usize>,
    pages: &Option<Vec<Vec<Vec<FilteredPage>>>>,
) -> bool
    ensures { let lists = spec.lists_of pages.now in
        result ≡ spec.is_legal_reading chunk_size fields lists }
{
    is_chunk_size(chunk_size) && has_one_list_each(fields, pages) && are_shaped(pages)
}

/// Whether a chunk size is absent or above 0.
pub(crate) fn is_chunk_size(chunk_size: Option<usize>) -> bool
    ensures { result ≡ spec.is_chunk_size chunk_size }
{
    match chunk_size {
        Some(size) => 0 < size,
        None => true,
    }
}

/// Whether there is one list of pages for each field, of one column.
fn has_one_list_each(fields: usize, pages: &Option<Vec<Vec<Vec<FilteredPage>>>>) -> bool
    ensures { let lists = spec.lists_of pages.now in
        result ≡ spec.have_one_list fields lists }
{
    match pages {
        Some(lists) => has_one_list(fields, lists),
        None => true,
    }
}

/// Whether there is one list for each field, of one column.
pub(crate) fn has_one_list(fields: usize, lists: &[Vec<Vec<FilteredPage>>]) -> bool
    ensures { let shown = map (λ own. map (λ one. one.items) own.items) lists.now in
        result ≡ spec.have_one_list fields (Some shown) }
{
    are_so_many(lists, fields) && are_single(lists)
}

fn are_so_many(lists: &[Vec<Vec<FilteredPage>>], count: usize) -> bool
    ensures { result ≡ (length lists.now == count) }
{
    lists.len() == count
}

fn are_single(lists: &[Vec<Vec<FilteredPage>>]) -> bool
    ensures { result ≡ list_all (λ own. length own.items == 1) lists.now }
{
    lists.iter().all(|own| own.as_slice().len() == 1)
}

/// Whether the selected rows of all pages are well shaped.
fn are_shaped(pages: &Option<Vec<Vec<Vec<FilteredPage>>>>) -> bool
    ensures { let lists = spec.lists_of pages.now in
        result ≡ spec.are_shaped_pages lists }
{
    match pages {
        Some(lists) => are_shaped_lists(lists),
        None => true,
    }
}

fn are_shaped_lists(lists: &[Vec<Vec<FilteredPage>>]) -> bool
    ensures { result
        ≡ list_all (λ own. list_all (λ one. are_well_shaped_by one.items) own.items) lists.now }
{
    lists.iter().all(|own| are_all_shaped(own))
}

fn are_all_shaped(columns: &[Vec<FilteredPage>]) -> bool
    ensures { result ≡ list_all (λ one. are_well_shaped_by one.items) columns.now }
{
    columns.iter().all(|pages| are_well_shaped(pages))
}

/// The fields, each with the located pages of its column, of which none is behind the limit.
pub(crate) fn ask(
    alloc: Global,
    limit: Option<usize>,
    fields: Vec<Field>,
    pages: Option<Vec<Vec<Vec<FilteredPage>>>>,
) -> Result<Vec<AskedField>, Error>
    ensures asked { let lists = spec.lists_of pages in
        IfOk result (λ asked. asked.items ≡ spec.asked_fields limit fields.items lists) }
    ensures memory { IfErr result IsWantOfMemory }
{
    match pages {
        Some(lists) => Ok(ask_located(alloc, limit, fields, lists)?),
        None => Ok(ask_whole(alloc, fields)?),
    }
}

fn ask_whole(alloc: Global, fields: Vec<Field>) -> Result<Vec<AskedField>, AllocError>
    ensures { IfOk result (λ asked. asked.items ≡ map (λ field. (field, None)) fields.items) }
{
    let mut asked = Vec::new(alloc);
    'fields: for field in fields {
        asked.push((field, None))?;
    }
    Ok(asked)
}

fn ask_located(
    alloc: Global,
    limit: Option<usize>,
    fields: Vec<Field>,
    lists: Vec<Vec<Vec<FilteredPage>>>,
) -> Result<Vec<AskedField>, AllocError>
    ensures { let lists = spec.lists_of (Some lists) in
        IfOk result (λ asked. asked.items ≡ spec.asked_fields limit fields.items lists) }
{
    let mut asked = Vec::new(alloc);
    let mut rest = lists.into_iter();
    'fields: for field in fields {
        let Some(own) = rest.next() else {
            return Ok(asked);
        };
        asked.push((field, pages_of(alloc, limit, own)))?;
    }
    Ok(asked)
}

/// The located pages of the only column, of which none is behind the limit.
fn pages_of(
    alloc: Global,
    limit: Option<usize>,
    columns: Vec<Vec<FilteredPage>>,
) -> Option<Seq<FilteredPage>>
    ensures { let own = map (λ one. one.items) columns.items in
        result ≡ option_map (spec.pages_within limit) (lone_of own) }
{
    let pages = lone(columns)?;
    Some(Seq::new(pages_within(alloc, limit, pages)))
}

/// Refuses what the metadata refuse of these fields.
pub(crate) fn check_fields(
    alloc: Global,
    group: &RowGroupMetaData,
    fields: &[AskedField],
) -> Result<(), Error>
    ensures ok { let reading = spec.group_reading group.now None None in
        OnOk result (spec.fields_causes reading fields.now ≡ []) }
    ensures cause { let reading = spec.group_reading group.now None None in
        ComesOf result (spec.fields_causes reading fields.now) }
{
    for field in fields {
        check_field(alloc, group, field)?;
    }
    Ok(())
}

fn check_field(alloc: Global, group: &RowGroupMetaData, asked: &AskedField) -> Result<(), Error>
    ensures ok { let reading = spec.group_reading group.now None None in
        OnOk result (spec.asked_causes reading asked.now ≡ []) }
    ensures cause { let reading = spec.group_reading group.now None None in
        ComesOf result (spec.asked_causes reading asked.now) }
{
    let Some(column) = lone_column(alloc, group, &asked.0)? else {
        return Err(Error::NotYetImplemented(Part::Schema));
    };
    check_form(column, &asked.0.data_type)?;
    if !group.has_each_value(column) {
        return Err(Error::ExternalFormat(Part::Group));
    }
    check_range(column, is_null(&asked.0.data_type), &asked.1)
}

/// The only column of a field, if it has one.
pub(crate) fn lone_column<'a>(
    alloc: Global,
    group: &'a RowGroupMetaData,
    field: &Field,
) -> Result<Option<&'a ColumnChunkMetaData>, Error>
    ensures column { IfOk result (λ found.
        option_map (λ column. column.now) found
        ≡ lone_of (field_columns field.now.name group.now.columns)) }
    ensures memory { IfErr result IsWantOfMemory }
{
    let found = get_field_columns(alloc, group.columns(), field.name.as_str())?;
    Ok(lone(found))
}

/// Refuses a column that stands in another file, is encrypted, is not flat, is compressed or is not read as a type.
fn check_form(column: &ColumnChunkMetaData, data_type: &DataType) -> Result<(), Error>
    ensures ok { OnOk result (spec.form_causes data_type.now column.now ≡ []) }
    ensures cause { ComesOf result (spec.form_causes data_type.now column.now) }
{
    if !is_here(column) {
        return Err(Error::NotYetImplemented(Part::Column));
    }
    check_column(column)?;
    check_type(column, data_type)
}

fn check_type(column: &ColumnChunkMetaData, data_type: &DataType) -> Result<(), Error>
    ensures ok { OnOk result (type_causes data_type.now column.now ≡ []) }
    ensures cause { ComesOf result (type_causes data_type.now column.now) }
{
    if carries(&column.descriptor.primitive_type, data_type) {
        return Ok(());
    }
    Err(Error::NotYetImplemented(Part::Schema))
}

/// Refuses pages with selected rows, and a part before the first page, that do not lie in the chunk. Of nulls no place is looked at.
fn check_range(
    column: &ColumnChunkMetaData,
    nulls: bool,
    pages: &Option<Seq<FilteredPage>>,
) -> Result<(), Error>
    ensures ok { OnOk result (spec.range_causes nulls column.now pages.now ≡ []) }
    ensures cause { ComesOf result (spec.range_causes nulls column.now pages.now) }
{
    let Some(pages) = pages else {
        return Ok(());
    };
    if nulls || are_in_range(column, pages.as_slice()) {
        return Ok(());
    }
    Err(Error::ExternalFormat(Part::Location))
}
