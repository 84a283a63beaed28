//! The pages of a chunk, and its indexes.

ghost use Rattle.compact_write.specs.Calls.{Writes};
ghost use Rattle.std.specs.Prelude.{◌≡◌, ◌<◌, ◌+◌, ◌^◌, [], ◌∷◌, length, IfOk};
ghost use Rattle.parquet_plain.specs.Description.{chunk_bytes, page_bytes};
ghost use Rattle.parquet_sample.specs.Parts.{sample_chunk, sample_page, page_facts, pages_facts, chunk_facts};
ghost use Rattle.parquet_write.specs.Parts.{AddsChunks};

use crate::column::{SampleColumn, page_rows};
use crate::ends::{null_count, stored_ends};
use crate::page_body::write_body;
use parquet_write::{
    ChunkFacts, PageFacts, Parts, Room, to_measure, write_column_index, write_offset_index,
    write_page,
};
use std::alloc::{AllocError, Global};
use std::cmp::min;

/// A page, and what is told of it.
fn write_rows(
    alloc: Global,
    out: &mut Vec<u8>,
    room: &mut Room,
    column: SampleColumn,
    first: u64,
    rows: u32,
    row: u32,
) -> Result<PageFacts, AllocError>
    requires few { rows < 2 ^ 31 }
    requires fits { first + rows < 2 ^ 63 }
    ensures written { Writes (page_bytes (sample_page column first rows)) out.old result out.new }
    ensures told { IfOk result (λ told. told ≡ page_facts column first rows (length out.old.items) row) }
{
    let start = out.len();
    room.body.clear();
    write_body(&mut room.body, &mut room.levels, column, first, rows)?;
    write_page(out, rows, &room.body)?;
    let size = to_measure(out.len() - start)?;
    let ends = stored_ends(alloc, column, first, rows)?;
    Ok(PageFacts {
        offset: start as u64,
        size,
        first_row: u64::from(row),
        nulls: null_count(column, first, rows),
        ends,
    })
}

/// The pages of a chunk, and what is told of them.
fn write_pages(
    alloc: Global,
    out: &mut Vec<u8>,
    room: &mut Room,
    column: SampleColumn,
    first: u64,
    rows: u32,
) -> Result<Vec<PageFacts>, AllocError>
    requires few { rows < 2 ^ 31 }
    requires fits { first + rows < 2 ^ 63 }
    ensures written { Writes (chunk_bytes (sample_chunk column first rows)) out.old result out.new }
    ensures told { IfOk result (λ told.
        told.items ≡ pages_facts column first rows (length out.old.items)) }
{
    let mut pages = Vec::new(alloc);
    let mut row = 0;
    while row < rows {
        let count = min(page_rows(column), rows - row);
        let page = write_rows(alloc, out, room, column, first + u64::from(row), count, row)?;
        pages.push(page)?;
        row += count;
    }
    Ok(pages)
}

/// A chunk with its indexes, and what is told of it.
pub(crate) fn write_chunk(
    alloc: Global,
    parts: &mut Parts,
    column: SampleColumn,
    first: u64,
    rows: u32,
) -> Result<ChunkFacts, AllocError>
    requires few { rows < 2 ^ 31 }
    requires fits { first + rows < 2 ^ 63 }
    ensures adds { IfOk result (λ _.
        AddsChunks parts.old parts.new (sample_chunk column first rows ∷ [])) }
    ensures told { IfOk result (λ told. told ≡ chunk_facts parts.old column first rows) }
{
    let start = parts.chunks.len();
    let index = parts.indexes.len();
    let locations = parts.locations.len();
    let pages = write_pages(
        alloc,
        &mut parts.chunks,
        &mut parts.room,
        column,
        first,
        rows,
    )?;
    write_column_index(&mut parts.indexes, &pages)?;
    write_offset_index(&mut parts.locations, &pages)?;
    let index_size = to_measure(parts.indexes.len() - index)?;
    let locations_size = to_measure(parts.locations.len() - locations)?;
    let ends = stored_ends(alloc, column, first, rows)?;
    Ok(ChunkFacts {
        start: start as u64,
        size: (parts.chunks.len() - start) as u64,
        rows: u64::from(rows),
        nulls: u64::from(null_count(column, first, rows)),
        ends,
        index: index as u64,
        index_size,
        locations: locations as u64,
        locations_size,
    })
}
