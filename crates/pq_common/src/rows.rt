//! Rows of columns of any types as lines of text. Lines are written in place, many together, where they fit, and else piece by
//! piece.
ghost use Rattle.std.specs.Prelude.{◌≡◌, ◌-◌, ◌≤◌, ◌++◌, ◌∷◌, [], drop, flat_map, length, map, IfSome};
ghost use Rattle.std.specs.List.{join_by, range_with_len};
ghost use Rattle.columns_core.specs.Array.{column_of};
ghost use Rattle.pq_common.specs.Rows.{cell_at, row_line};
ghost use Rattle.pq_common.specs.Taken.{TakesBytes};

use crate::block::Block;
use crate::cells::push_cell;
use crate::column::LINES_BYTES;
use crate::in_place::{write_cell, write_piece_before};
use crate::sink::Sink;
use columns_core::Array;
use parquet_meta::Failed;

/// How many rows are written together at most.
const MOST_ROWS: usize = 32;

/// Takes the lines of rows: of each the cells of all columns, with tabs between them. Fewer rows are written together behind some
/// that were written piece by piece.
pub fn push_row_lines<K: Sink>(
    block: &mut Block,
    out: &mut K,
    arrays: &[Array],
    rows: usize,
) -> Result<(), Failed>
    ensures { let lines = flat_map (row_line (map column_of arrays.now)) (range_with_len 0 rows) in
        TakesBytes K.Sink out.old out.new (block.old ++ lines) block.new result }
{
    let mut lines = [0; LINES_BYTES];
    let mut count = MOST_ROWS;
    let mut row = 0;
    while row < rows {
        let to = row + count.min(rows - row);
        count = if push_some(block, out, &mut lines, arrays, row, to)? {
            (2 * count).min(MOST_ROWS)
        } else {
            (count / 2).max(1)
        };
        row = to;
    }
    Ok(())
}

/// Takes the lines of some rows, which are written in `lines` together, or else piece by piece. Says whether they are together.
fn push_some<K: Sink>(
    block: &mut Block,
    out: &mut K,
    lines: &mut [u8],
    arrays: &[Array],
    from: usize,
    to: usize,
) -> Result<bool, Failed>
    requires { from ≤ to }
    ensures { let rows = range_with_len from (to - from) in
        let lines = flat_map (row_line (map column_of arrays.now)) rows in
        TakesBytes K.Sink out.old out.new (block.old ++ lines) block.new result }
{
    match write_rows(lines, arrays, from, to) {
        Some(start) => {
            block.push(out, &lines[start..])?;
            Ok(true)
        }
        None => {
            push_each(block, out, arrays, from, to)?;
            Ok(false)
        }
    }
}

/// Writes the lines of rows at the end of a block, and says where they begin, if they fit and each of their cells is written in place.
fn write_rows(lines: &mut [u8], arrays: &[Array], from: usize, to: usize) -> Option<usize>
    requires { from ≤ to }
    ensures start { IfSome result (λ start. start ≤ length lines.new) }
    ensures written { let rows = range_with_len from (to - from) in
        IfSome result (λ start. drop start lines.new
        ≡ flat_map (row_line (map column_of arrays.now)) rows) }
{
    let mut start = lines.len();
    for row in (from..to).rev() {
        start = write_row(lines, start, arrays, row)?;
    }
    Some(start)
}

/// Writes the line of a row before a place, and says where it begins, if each of its cells is written in place and it fits.
fn write_row(line: &mut [u8], end: usize, arrays: &[Array], row: usize) -> Option<usize>
    requires { end ≤ length line.old }
    ensures start { IfSome result (λ start. start ≤ end) }
    ensures written { let text = row_line (map column_of arrays.now) row in
        IfSome result (λ start. drop start line.new ≡ text ++ drop end line.old) }
{
    let behind = write_piece_before(line, end, b"\n")?;
    match arrays.split_first() {
        None => Some(behind),
        Some((first, others)) => {
            let start = write_others(line, behind, others, row)?;
            write_cell(line, start, first, row)
        }
    }
}

/// Writes cells of a row before a place, each behind a tab.
fn write_others(line: &mut [u8], end: usize, arrays: &[Array], row: usize) -> Option<usize>
    requires { end ≤ length line.old }
    ensures start { IfSome result (λ start. start ≤ end) }
    ensures written { let text = flat_map (λ array. 9 ∷ cell_at row (column_of array)) arrays.now in
        IfSome result (λ start. drop start line.new ≡ text ++ drop end line.old) }
{
    let mut start = end;
    let mut rest = arrays;
    while let Some((last, front)) = rest.split_last() {
        start = write_other(line, start, last, row)?;
        rest = front;
    }
    Some(start)
}

fn write_other(line: &mut [u8], end: usize, array: &Array, row: usize) -> Option<usize>
    requires { end ≤ length line.old }
    ensures start { IfSome result (λ start. start ≤ end) }
    ensures written { let text = 9 ∷ cell_at row (column_of array.now) in
        IfSome result (λ start. drop start line.new ≡ text ++ drop end line.old) }
{
    let start = write_cell(line, end, array, row)?;
    write_piece_before(line, start, b"\t")
}

/// Takes the lines of rows piece by piece.
fn push_each<K: Sink>(
    block: &mut Block,
    out: &mut K,
    arrays: &[Array],
    from: usize,
    to: usize,
) -> Result<(), Failed>
    requires { from ≤ to }
    ensures { let rows = range_with_len from (to - from) in
        let lines = flat_map (row_line (map column_of arrays.now)) rows in
        TakesBytes K.Sink out.old out.new (block.old ++ lines) block.new result }
{
    for row in from..to {
        push_row(block, out, arrays, row)?;
    }
    Ok(())
}

/// Takes the line of a row piece by piece.
fn push_row<K: Sink>(
    block: &mut Block,
    out: &mut K,
    arrays: &[Array],
    row: usize,
) -> Result<(), Failed>
    ensures { let text = row_line (map column_of arrays.now) row in
        TakesBytes K.Sink out.old out.new (block.old ++ text) block.new result }
{
    push_cells(block, out, arrays, row)?;
    block.push(out, b"\n")
}

/// Takes the cells of a row, with tabs between them.
fn push_cells<K: Sink>(
    block: &mut Block,
    out: &mut K,
    arrays: &[Array],
    row: usize,
) -> Result<(), Failed>
    ensures { let text = join_by (cell_at row) (9 ∷ []) (map column_of arrays.now) in
        TakesBytes K.Sink out.old out.new (block.old ++ text) block.new result }
{
    match arrays.split_first() {
        None => Ok(()),
        Some((first, others)) => {
            push_cell(block, out, first, row)?;
            push_others(block, out, others, row)
        }
    }
}

/// Takes cells of a row, each behind a tab.
fn push_others<K: Sink>(
    block: &mut Block,
    out: &mut K,
    arrays: &[Array],
    row: usize,
) -> Result<(), Failed>
    ensures { let text = flat_map (λ array. 9 ∷ cell_at row (column_of array)) arrays.now in
        TakesBytes K.Sink out.old out.new (block.old ++ text) block.new result }
{
    for array in arrays {
        push_other(block, out, array, row)?;
    }
    Ok(())
}

fn push_other<K: Sink>(
    block: &mut Block,
    out: &mut K,
    array: &Array,
    row: usize,
) -> Result<(), Failed>
    ensures { let text = 9 ∷ cell_at row (column_of array.now) in
        TakesBytes K.Sink out.old out.new (block.old ++ text) block.new result }
{
    block.push(out, b"\t")?;
    push_cell(block, out, array, row)
}
