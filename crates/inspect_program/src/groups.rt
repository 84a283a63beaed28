//! The lines of row groups, and of what the statistics of their chunks tell.
ghost use Rattle.std.specs.Prelude.{◌≡◌, ◌∷◌, [], filter_map, if◌then◌else◌, unwrap_or, IfErr, None, OnOk, Some};
ghost use Rattle.std.specs.List.{enumerate_from};
ghost use Rattle.columns_core.specs.Causes.{ComesOf};
ghost use Rattle.column_ends.specs.Converted.{group_causes, group_cells};
ghost use Rattle.pq_common.specs.Rows.{line};
ghost use Rattle.pq_common.specs.Texts.{AddsText};
ghost use Rattle.inspect_program.specs.Calls.{IsOfInspection, Tells};
ghost use Rattle.inspect_program.specs.Groups.{rows_line, no_ends, statistics_line, told_as, told_chunk, told_chunks};
ghost use Rattle.inspect_program.specs.Guess.{chunk_type as chunk_type_by};
ghost use Rattle.inspect_program.specs.Pages.{end_text, told_text};
ghost use Rattle.inspect_program.specs.Sections.{chunks_section, groups_section};

use crate::guess::chunk_type;
use crate::pages::push_pages;
use column_ends::statistics_ends;
use columns_core::{Cell, DataType, Error};
use parquet_meta::{ColumnChunkMetaData, Ends, RowGroupMetaData, Source};
use pq_common::Text;
use std::alloc::{AllocError, Global};

/// Adds the lines of groups.
pub(crate) fn push_groups<S: Source>(
    alloc: Global,
    source: &mut S,
    text: &mut Text,
    groups: &[RowGroupMetaData],
    singles: &[bool],
) -> Result<(), Error>
    ensures { let section = groups_section singles.now (enumerate_from 0 groups.now) in
        Tells S.Source source.old source.new section text.old text.new result }
{
    for i in 0..groups.len() {
        push_group(alloc, source, text, i, &groups[i], singles)?;
    }
    Ok(())
}

/// Adds the line of a group, and then those of its chunks.
fn push_group<S: Source>(
    alloc: Global,
    source: &mut S,
    text: &mut Text,
    number: usize,
    group: &RowGroupMetaData,
    singles: &[bool],
) -> Result<(), Error>
    ensures { let section = groups_section singles.now ((number, group.now) ∷ []) in
        Tells S.Source source.old source.new section text.old text.new result }
{
    push_group_line(text, number, group.num_rows)?;
    push_chunks(alloc, source, text, group, singles)
}

fn push_group_line(text: &mut Text, number: usize, rows: usize) -> Result<(), AllocError>
    ensures { AddsText (rows_line number rows) text.old result text.new }
{
    text.push_labelled(b"group ", number)?;
    text.push_labelled(b" ", rows)?;
    text.push(b"\n")
}

/// Adds the lines of the chunks of a group whose columns have a guess.
fn push_chunks<S: Source>(
    alloc: Global,
    source: &mut S,
    text: &mut Text,
    group: &RowGroupMetaData,
    singles: &[bool],
) -> Result<(), Error>
    ensures { let chunks = told_chunks singles.now group.now.columns in
        let section = chunks_section group.now.num_rows chunks in
        Tells S.Source source.old source.new section text.old text.new result }
{
    let rows = group.num_rows;
    let columns = group.columns.as_slice();
    for i in 0..columns.len().min(singles.len()) {
        push_chunk(alloc, source, text, i, singles[i], &columns[i], rows)?;
    }
    Ok(())
}

/// Adds the lines of a chunk, if it has a guess.
fn push_chunk<S: Source>(
    alloc: Global,
    source: &mut S,
    text: &mut Text,
    number: usize,
    is_single: bool,
    column: &ColumnChunkMetaData,
    rows: usize,
) -> Result<(), Error>
    ensures { let chunks = filter_map told_chunk ((number, (is_single, column.now)) ∷ []) in
        let section = chunks_section rows chunks in
        Tells S.Source source.old source.new section text.old text.new result }
{
    match chunk_guess(is_single, column) {
        Some(data_type) => push_guessed(alloc, source, text, number, column, rows, &data_type),
        None => Ok(()),
    }
}

fn chunk_guess(is_single: bool, column: &ColumnChunkMetaData) -> Option<DataType>
    ensures { result ≡ (if is_single then chunk_type_by column.now.descriptor else None) }
{
    if is_single {
        chunk_type(&column.descriptor)
    } else {
        None
    }
}

/// Adds the lines of a chunk that is read as its guess.
fn push_guessed<S: Source>(
    alloc: Global,
    source: &mut S,
    text: &mut Text,
    number: usize,
    column: &ColumnChunkMetaData,
    rows: usize,
    data_type: &DataType,
) -> Result<(), Error>
    requires { chunk_type_by column.now.descriptor ≡ Some data_type.now }
    ensures { let chunk = told_as number data_type.now column.now in
        let section = chunks_section rows (chunk ∷ []) in
        Tells S.Source source.old source.new section text.old text.new result }
{
    push_statistics(alloc, text, number, column, data_type)?;
    push_pages(alloc, source, text, number, column, rows, data_type)
}

/// Adds the line of what the statistics of a chunk tell.
fn push_statistics(
    alloc: Global,
    text: &mut Text,
    number: usize,
    column: &ColumnChunkMetaData,
    data_type: &DataType,
) -> Result<(), Error>
    requires { chunk_type_by column.now.descriptor ≡ Some data_type.now }
    ensures told { let ends = unwrap_or (group_cells data_type.now column.now) no_ends in
        AddsText (statistics_line number ends) text.old result text.new }
    ensures ok { OnOk result (group_causes data_type.now column.now ≡ []) }
    ensures cause { ComesOf result (group_causes data_type.now column.now) }
    ensures carried { IfErr result IsOfInspection }
{
    let ends = statistics_ends(alloc, column, data_type)?;
    push_ends(text, number, &ends)?;
    Ok(())
}

fn push_ends(text: &mut Text, number: usize, ends: &Ends<Cell>) -> Result<(), AllocError>
    ensures { AddsText (statistics_line number ends.now) text.old result text.new }
{
    text.push_labelled(b"stats ", number)?;
    push_told(text, &ends.min_value, &ends.max_value, ends.null_count)
}

/// Adds two ends and a number of nulls, and ends the line.
pub(crate) fn push_told(
    text: &mut Text,
    low: &Option<Cell>,
    high: &Option<Cell>,
    nulls: Option<u64>,
) -> Result<(), AllocError>
    ensures { AddsText (line (told_text low.now high.now nulls)) text.old result text.new }
{
    push_end(text, low)?;
    push_end(text, high)?;
    match nulls {
        Some(count) => text.push_labelled(b" ", count as usize)?,
        None => text.push(b" ?")?,
    }
    text.push(b"\n")
}

/// Adds an end behind a blank.
fn push_end(text: &mut Text, end: &Option<Cell>) -> Result<(), AllocError>
    ensures { AddsText (end_text end.now) text.old result text.new }
{
    text.push(b" ")?;
    match end {
        Some(cell) => text.push_cell(cell),
        None => text.push(b"?"),
    }
}
