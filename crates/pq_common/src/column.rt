//! A column of numbers as text. Its bytes are written from the last to the first, as digits come.
ghost use Rattle.std.specs.Prelude.{◌≡◌, ◌+◌, ◌-◌, ◌*◌, ◌<◌, ◌≤◌, ◌++◌, codes, drop, length};
ghost use Rattle.columns_core.specs.Array.{column_of};
ghost use Rattle.pq_common.specs.Rows.{cell_at, line_of, lines_of};
ghost use Rattle.pq_common.specs.Taken.{TakesBytes};

use crate::block::Block;
use crate::digits::write_i32;
use crate::sink::Sink;
use columns_core::{Array, PrimitiveArray};
use parquet_meta::Failed;

/// The most bytes of a number of 32 bits.
const MAX_INT32_BYTES: usize = 11;

/// The most bytes of a line.
const MAX_LINE_BYTES: usize = MAX_INT32_BYTES + 1;

/// How many bytes of lines are written before they go to the sink's block.
pub(crate) const LINES_BYTES: usize = 4096;

/// Takes the lines of all rows, many at a time.
pub fn push_number_lines<K: Sink>(
    block: &mut Block,
    out: &mut K,
    array: &PrimitiveArray<i32>,
) -> Result<(), Failed>
    ensures { let lines = lines_of (column_of (Array.Int32 array.now)) 0 (length array.now.items) in
        TakesBytes K.Sink out.old out.new (block.old ++ lines) block.new result }
{
    let mut lines = [0; LINES_BYTES];
    let mut row = 0;
    while row < array.len() {
        let count = (LINES_BYTES / MAX_LINE_BYTES).min(array.len() - row);
        let start = write_lines(&mut lines, array, row, row + count);
        block.push(out, &lines[start..])?;
        row += count;
    }
    Ok(())
}

/// Writes the lines of rows at the end of a block, and says where they begin.
fn write_lines(block: &mut [u8], array: &PrimitiveArray<i32>, from: usize, to: usize) -> usize
    requires room { 12 * (to - from) ≤ length block.old }
    requires within { (from ≤ to) × (to ≤ length array.now.items) }
    ensures start { result ≤ length block.old }
    ensures written { drop result block.new ≡
        lines_of (column_of (Array.Int32 array.now)) from (to - from) }
{
    let mut start = block.len();
    for row in (from..to).rev() {
        start = write_line(block, start, array, row);
    }
    start
}

/// Writes the line of a row before a place, and says where it begins.
fn write_line(block: &mut [u8], end: usize, array: &PrimitiveArray<i32>, row: usize) -> usize
    requires room { (12 ≤ end) × (end ≤ length block.old) }
    requires within { row < length array.now.items }
    ensures start { (result ≤ end) × (end ≤ result + 12) }
    ensures written { drop result block.new
        ≡ line_of (column_of (Array.Int32 array.now)) row ++ drop end block.old }
{
    block[end - 1] = b'\n';
    write_number_or_null(block, end - 1, array, row)
}

/// Writes the number or null of a row before a place, and says where it begins.
fn write_number_or_null(
    block: &mut [u8],
    end: usize,
    array: &PrimitiveArray<i32>,
    row: usize,
) -> usize
    requires room { (11 ≤ end) × (end ≤ length block.old) }
    requires within { row < length array.now.items }
    ensures start { (result ≤ end) × (end ≤ result + 11) }
    ensures written { drop result block.new
        ≡ cell_at row (column_of (Array.Int32 array.now)) ++ drop end block.old }
{
    match array.get(row) {
        None => write_null(block, end),
        Some(number) => write_i32(block, end, number),
    }
}

fn write_null(block: &mut [u8], end: usize) -> usize
    requires { (4 ≤ end) × (end ≤ length block.old) }
    ensures start { result + 4 ≡ end }
    ensures written { drop result block.new ≡ codes "null" ++ drop end block.old }
{
    let start = end - 4;
    block[start..end].copy_from_slice(b"null");
    start
}
