//! Groups of chunks.

ghost use Rattle.std.specs.Prelude.{◌≡◌, ◌<◌, All, IsTrue, IfOk, length};
ghost use Rattle.std.specs.List.{AllZip};
ghost use Rattle.parquet_plain.specs.File.{chunks_of};
ghost use Rattle.parquet_plain.specs.Short.{are_short_chunks};
ghost use Rattle.parquet_write.specs.Parts.{AddsChunks, OverflowsUnless, group_facts, groups_facts, starts_of};
ghost use Rattle.put_program.specs.Put.{are_written};
ghost use Rattle.put_program.specs.Request.{FitsField};
ghost use Rattle.put_program.specs.Typed.{put_group, put_groups};

use crate::column::add_array;
use columns_core::{Chunk, Error, Field, Seq};
use parquet_write::{GroupFacts, Parts};
use std::alloc::Global;

/// A chunk for each field, and what is told of the group.
fn add_group(
    alloc: Global,
    parts: &mut Parts,
    fields: &[Field],
    chunk: &Chunk,
    page_rows: usize,
) -> Result<GroupFacts, Error>
    requires paged { 0 < page_rows }
    requires fits { AllZip FitsField fields.now chunk.now }
    requires written { IsTrue (are_written fields.now) }
    ensures adds { let group = put_group page_rows fields.now chunk.now in
        IfOk result (λ _. AddsChunks parts.old parts.new group.chunks) }
    ensures told { let group = put_group page_rows fields.now chunk.now in
        IfOk result (λ told. told ≡ group_facts (starts_of parts.old) group) }
    ensures short { let group = put_group page_rows fields.now chunk.now in
        OverflowsUnless (are_short_chunks (length parts.old.chunks.items) group.chunks) result }
{
    let arrays = chunk.arrays();
    let mut chunks = Vec::with_capacity(alloc, arrays.len())?;
    for i in 0..fields.len() {
        chunks.push(add_array(alloc, parts, &fields[i], &arrays[i], page_rows)?)?;
    }
    Ok(GroupFacts {
        rows: chunk.len() as u64,
        chunks: Seq::new(chunks),
    })
}

/// A group for each chunk, and what is told of them.
pub(crate) fn add_groups(
    alloc: Global,
    parts: &mut Parts,
    fields: &[Field],
    chunks: &[Chunk],
    page_rows: usize,
) -> Result<Vec<GroupFacts>, Error>
    requires paged { 0 < page_rows }
    requires fits { All (AllZip FitsField fields.now) chunks.now }
    requires written { IsTrue (are_written fields.now) }
    ensures adds { let groups = put_groups page_rows fields.now chunks.now in
        IfOk result (λ _. AddsChunks parts.old parts.new (chunks_of groups)) }
    ensures told { let groups = put_groups page_rows fields.now chunks.now in
        IfOk result (λ told. told.items ≡ groups_facts (starts_of parts.old) groups) }
    ensures short { let groups = put_groups page_rows fields.now chunks.now in
        OverflowsUnless (are_short_chunks (length parts.old.chunks.items) (chunks_of groups)) result }
{
    let mut groups = Vec::with_capacity(alloc, chunks.len())?;
    for i in 0..chunks.len() {
        groups.push(add_group(alloc, parts, fields, &chunks[i], page_rows)?)?;
    }
    Ok(groups)
}
