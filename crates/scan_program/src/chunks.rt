//! The lines of chunks, on their way to a sink.
ghost use Rattle.std.specs.Prelude.{◌++◌, codes, decimal, flat_map, map};
ghost use Rattle.std.specs.List.{range_with_len};
ghost use Rattle.columns_core.specs.Chunk.{array_rows};
ghost use Rattle.parquet_scan.specs.Cells.{columns_of_chunk};
ghost use Rattle.pq_common.specs.Rows.{line, row_line};
ghost use Rattle.pq_common.specs.Taken.{TakesBytes};
ghost use Rattle.scan_program.specs.Report.{chunk_lines};

use columns_core::{Array, Chunk};
use parquet_meta::Failed;
use pq_common::{Block, Sink, push_number_lines, push_row_lines, push_text_lines};

/// Takes the lines of chunks.
pub(crate) fn push_chunks<K: Sink>(
    block: &mut Block,
    out: &mut K,
    chunks: &[Chunk],
) -> Result<(), Failed>
    ensures { let lines = flat_map chunk_lines (map columns_of_chunk chunks.now) in
        TakesBytes K.Sink out.old out.new (block.old ++ lines) block.new result }
{
    for chunk in chunks {
        push_chunk(block, out, chunk)?;
    }
    Ok(())
}

/// Takes the line of a chunk and those of its rows.
fn push_chunk<K: Sink>(block: &mut Block, out: &mut K, chunk: &Chunk) -> Result<(), Failed>
    ensures { let lines = chunk_lines (columns_of_chunk chunk.now) in
        TakesBytes K.Sink out.old out.new (block.old ++ lines) block.new result }
{
    push_chunk_line(block, out, chunk.len())?;
    push_lines(block, out, chunk)
}

/// Takes the line of a chunk of so many rows.
fn push_chunk_line<K: Sink>(block: &mut Block, out: &mut K, rows: usize) -> Result<(), Failed>
    ensures { let text = line (codes "chunk " ++ decimal rows) in
        TakesBytes K.Sink out.old out.new (block.old ++ text) block.new result }
{
    block.push_labelled(out, b"chunk ", rows)?;
    block.push(out, b"\n")
}

/// Takes the lines of the rows of a chunk: a lone column of numbers or of texts many rows at a time, and others
/// row by row.
fn push_lines<K: Sink>(block: &mut Block, out: &mut K, chunk: &Chunk) -> Result<(), Failed>
    ensures { let rows = range_with_len 0 (array_rows chunk.now) in
        let lines = flat_map (row_line (columns_of_chunk chunk.now)) rows in
        TakesBytes K.Sink out.old out.new (block.old ++ lines) block.new result }
{
    match chunk.arrays() {
        [Array::Int32(numbers)] => push_number_lines(block, out, numbers),
        [Array::Utf8(texts)] => push_text_lines(block, out, texts),
        [Array::LargeUtf8(texts)] => push_text_lines(block, out, texts),
        arrays => push_row_lines(block, out, arrays, chunk.len()),
    }
}
