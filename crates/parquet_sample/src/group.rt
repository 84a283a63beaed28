//! Groups of chunks.

ghost use Rattle.std.specs.Prelude.{◌≡◌, ◌<◌, ◌+◌, ◌^◌, IfOk};
ghost use Rattle.parquet_plain.specs.File.{chunks_of};
ghost use Rattle.parquet_sample.specs.Parts.{sample_group, sample_groups, sample_facts};
ghost use Rattle.parquet_write.specs.Parts.{AddsChunks, group_facts, starts_of};

use crate::chunk::write_chunk;
use crate::column::SampleColumn;
use columns_core::Seq;
use parquet_write::{GroupFacts, Parts};
use std::alloc::{AllocError, Global};
use std::cmp::min;

const GROUP_ROWS: u32 = 20000;

/// A chunk for each column, and what is told of the group.
fn write_group(
    alloc: Global,
    parts: &mut Parts,
    first: u64,
    rows: u32,
) -> Result<GroupFacts, AllocError>
    requires few { rows < 2 ^ 31 }
    requires fits { first + rows < 2 ^ 63 }
    ensures adds { IfOk result (λ _. AddsChunks parts.old parts.new (sample_group first rows).chunks) }
    ensures told { IfOk result (λ told.
        told ≡ group_facts (starts_of parts.old) (sample_group first rows)) }
{
    let id = write_chunk(alloc, parts, SampleColumn::Id, first, rows)?;
    let qty = write_chunk(alloc, parts, SampleColumn::Qty, first, rows)?;
    let name = write_chunk(alloc, parts, SampleColumn::Name, first, rows)?;
    let mut chunks = Vec::new(alloc);
    chunks.push(id)?;
    chunks.push(qty)?;
    chunks.push(name)?;
    Ok(GroupFacts {
        rows: u64::from(rows),
        chunks: Seq::new(chunks),
    })
}

/// The groups of so many rows, and what is told of them.
pub(crate) fn write_groups(
    alloc: Global,
    parts: &mut Parts,
    first: u64,
    rows: u32,
) -> Result<Vec<GroupFacts>, AllocError>
    requires few { rows < 2 ^ 31 }
    requires fits { first + rows < 2 ^ 63 }
    ensures adds { IfOk result (λ _. AddsChunks parts.old parts.new (chunks_of (sample_groups first rows))) }
    ensures told { IfOk result (λ told. told.items ≡ sample_facts parts.old first rows) }
{
    let mut groups = Vec::new(alloc);
    let mut row = 0;
    while row < rows {
        let count = min(GROUP_ROWS, rows - row);
        let group = write_group(alloc, parts, first + u64::from(row), count)?;
        groups.push(group)?;
        row += count;
    }
    Ok(groups)
}
