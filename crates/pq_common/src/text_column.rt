//! A column of texts as lines. Texts whose bytes stand for themselves are written side by side, a block at a time.
ghost use Rattle.std.specs.Prelude.{◌≡◌, ◌+◌, ◌≤◌, ◌++◌, List, codes, if◌then◌else◌, length, map, option_copied, take, IfNone, IfSome};
ghost use Rattle.columns_core.specs.Column.{cell_of};
ghost use Rattle.columns_core.specs.declared.cell.Cell.{Cell, Text};
ghost use Rattle.columns_core.specs.declared.data_type.DataType.{DataType};
ghost use Rattle.pq_common.specs.CellText.{cell_text, quoted};
ghost use Rattle.pq_common.specs.Rows.{line, lines_of};
ghost use Rattle.pq_common.specs.Taken.{TakesBytes};

use crate::block::{Block, write_piece};
use crate::cells::{is_plain, push_quoted};
use crate::sink::Sink;
use columns_core::{Offset, Utf8Array};
use parquet_meta::Failed;

/// The bytes of a line beside those of its text: two quotes and the end.
const AROUND_TEXT: usize = 3;

const NULL_LINE: [u8; 5] = *b"null\n";

/// Takes the lines of all rows.
pub fn push_text_lines<K: Sink, O: Offset>(
    block: &mut Block,
    out: &mut K,
    array: &Utf8Array<O>,
) -> Result<(), Failed>
    ensures { let cells = map (cell_of Text) array.now.items in
        let column : DataType × List Cell = (array.now.data_type, cells) in
        let lines = lines_of column 0 (length array.now.items) in
        TakesBytes K.Sink out.old out.new (block.old ++ lines) block.new result }
{
    for row in 0..array.len() {
        push_text_line(block, out, array.get(row))?;
    }
    Ok(())
}

/// Takes the line of a text or null.
fn push_text_line<K: Sink>(block: &mut Block, out: &mut K, name: Option<&str>) -> Result<(), Failed>
    ensures { let cell = cell_of Text (option_copied name.entry) in
        TakesBytes K.Sink out.old out.new (block.old ++ line (cell_text cell)) block.new result }
{
    if block.hold_text_line(name) {
        return Ok(());
    }
    match name {
        None => block.push(out, &NULL_LINE),
        Some(name) => push_quoted_line(block, out, name.as_bytes()),
    }
}

/// Takes the line of a text, piece by piece.
fn push_quoted_line<K: Sink>(block: &mut Block, out: &mut K, bytes: &[u8]) -> Result<(), Failed>
    ensures { TakesBytes K.Sink out.old out.new (block.old ++ line (quoted bytes.now)) block.new result }
{
    push_quoted(block, out, bytes)?;
    block.push(out, b"\n")
}

impl Block {
    /// Holds the line of a text or null, if there is room and the bytes of the text stand for themselves.
    /// Says whether it does.
    fn hold_text_line(&mut self, name: Option<&str>) -> bool
        ensures { let cell = cell_of Text (option_copied name.entry) in
            self.new ≡ (if result then self.old ++ line (cell_text cell) else self.old) }
    {
        match write_text_line(&mut self.bytes, self.held, name) {
            None => false,
            Some(end) => {
                self.held = end;
                true
            }
        }
    }
}

/// Writes the line of a text or null behind the first bytes of a block, and says where it ends, if there is room and the bytes
/// of the text stand for themselves.
fn write_text_line(block: &mut [u8], held: usize, name: Option<&str>) -> Option<usize>
    requires { held ≤ length block.old }
    ensures some { let cell = cell_of Text (option_copied name.entry) in
        IfSome result (λ n. take n block.new ≡ take held block.old ++ line (cell_text cell)) }
    ensures within { IfSome result (λ n. n ≤ length block.new) }
    ensures none { IfNone result (block.new ≡ block.old) }
    ensures same { length block.new ≡ length block.old }
{
    let room = block.len() - held;
    match name {
        None if room >= NULL_LINE.len() => Some(write_piece(block, held, &NULL_LINE)),
        Some(name) if room >= name.len() + AROUND_TEXT && is_plain(name.as_bytes()) => {
            Some(write_quoted_line(block, held, name.as_bytes()))
        }
        _ => None,
    }
}

/// Writes a text in quotes and the end of a line behind the first bytes of a block, and says where it ends.
fn write_quoted_line(block: &mut [u8], held: usize, bytes: &[u8]) -> usize
    requires { held + length bytes.now + 3 ≤ length block.old }
    ensures end { result ≡ held + length bytes.now + 3 }
    ensures same { length block.new ≡ length block.old }
    ensures written { take result block.new ≡
        take held block.old ++ line (codes "\"" ++ bytes.now ++ codes "\"") }
{
    let start = write_piece(block, held, b"\"");
    let end = write_piece(block, start, bytes);
    write_piece(block, end, b"\"\n")
}
