//! Chunks of items with their indexes.

ghost use Rattle.std.specs.Prelude.{◌≡◌, ◌<◌, [], ◌∷◌, ◌&&◌, length, map, IfOk};
ghost use Rattle.compact_write.specs.Calls.{Writes};
ghost use Rattle.parquet_plain.specs.Columns.{written_chunk};
ghost use Rattle.parquet_plain.specs.Short.{is_short, is_short_chunk};
ghost use Rattle.parquet_plain.specs.Structs.{column_index_bytes, offset_index_bytes};
ghost use Rattle.parquet_write.specs.Items.{unnamed_column};
ghost use Rattle.parquet_write.specs.Parts.{AddsChunks, OverflowsUnless, starts_of};
ghost use Rattle.parquet_write.specs.Told.{facts_of, index_told, location_told};

use crate::bounds::stored_ends;
use crate::column_index::write_column_index;
use crate::facts::{ChunkFacts, PageFacts};
use crate::items::Items;
use crate::measure::to_short;
use crate::offset_index::write_offset_index;
use crate::pages::{Paging, write_pages};
use crate::parts::Parts;
use columns_core::Error;
use std::alloc::Global;

/// How many bytes were added.
#[derive(Clone, Copy)]
struct IndexSizes {
    index: u32,
    locations: u32,
}

/// What is told of the pages of a chunk, and where they stand.
fn add_indexes(
    indexes: &mut Vec<u8>,
    locations: &mut Vec<u8>,
    pages: &[PageFacts],
) -> Result<IndexSizes, Error>
    ensures index { Writes (column_index_bytes (index_told pages.now)) indexes.old result indexes.new }
    ensures locations { let bytes = offset_index_bytes (map location_told pages.now) in
        Writes bytes locations.old result locations.new }
    ensures sizes { let index = length (column_index_bytes (index_told pages.now)) in
        let locations = length (offset_index_bytes (map location_told pages.now)) in
        IfOk result (λ sizes. (sizes.index ≡ index) × (sizes.locations ≡ locations)) }
    ensures short { let index = length (column_index_bytes (index_told pages.now)) in
        let locations = length (offset_index_bytes (map location_told pages.now)) in
        OverflowsUnless (is_short index && is_short locations) result }
{
    let index_start = indexes.len();
    write_column_index(indexes, pages)?;
    let index = to_short(indexes.len() - index_start)?;
    let locations_start = locations.len();
    write_offset_index(locations, pages)?;
    let locations = to_short(locations.len() - locations_start)?;
    Ok(IndexSizes { index, locations })
}

/// A chunk with its indexes behind what stands, and what is told of it.
///
/// # Errors
///
/// `Overflow` where a page has 2^31 rows or more, a page with its header 2^31 bytes or more, or an index of the chunk 2^31 bytes or more;
/// otherwise only want of memory. Behind an error the parts may end with a part of the chunk.
pub fn add_chunk<I: Items>(
    alloc: Global,
    parts: &mut Parts,
    items: &I,
    paging: Paging,
) -> Result<ChunkFacts, Error>
    requires { 0 < paging.page_rows }
    ensures adds { let to = unnamed_column (I.type_ items.now) (I.at_most items.now) paging in
        IfOk result (λ _. AddsChunks parts.old parts.new (written_chunk to (I.items items.now) ∷ [])) }
    ensures told { let to = unnamed_column (I.type_ items.now) (I.at_most items.now) paging in
        let chunk = written_chunk to (I.items items.now) in
        IfOk result (λ told. told ≡ facts_of (starts_of parts.old) chunk) }
    ensures short { let to = unnamed_column (I.type_ items.now) (I.at_most items.now) paging in
        let chunk = written_chunk to (I.items items.now) in
        OverflowsUnless (is_short_chunk (length parts.old.chunks.items) chunk) result }
{
    let start = parts.chunks.len();
    let index = parts.indexes.len();
    let locations = parts.locations.len();
    let rows = items.rows();
    let paged = write_pages(alloc, &mut parts.chunks, &mut parts.room, items, paging)?;
    let sizes = add_indexes(&mut parts.indexes, &mut parts.locations, &paged.pages)?;
    let ends = stored_ends(alloc, items, paged.bounds)?;
    Ok(ChunkFacts {
        start: start as u64,
        size: (parts.chunks.len() - start) as u64,
        rows: rows as u64,
        nulls: paged.nulls,
        ends,
        index: index as u64,
        index_size: sizes.index,
        locations: locations as u64,
        locations_size: sizes.locations,
    })
}
