//! Cells as text that are written in place: from the last byte to the first, as digits come.
ghost use Rattle.std.specs.Prelude.{◌≡◌, ◌<◌, ◌≤◌, ◌++◌, codes, drop, flat_map, length, option_copied, IfSome};
ghost use Rattle.std.specs.Fmt.{signed_decimal};
ghost use Rattle.columns_core.specs.Array.{column_of};
ghost use Rattle.columns_core.specs.Column.{cell_of};
ghost use Rattle.columns_core.specs.Lent.{cell_lent};
ghost use Rattle.columns_core.specs.declared.cell.Cell.{Text};
ghost use Rattle.pq_common.specs.CellText.{cell_text, hexadecimal, quoted};
ghost use Rattle.pq_common.specs.Rows.{cell_at};

use crate::cells::{digits_of, is_plain};
use crate::digits::write_i64;
use columns_core::{Array, Lent, PrimitiveArray};

/// The most bytes of a number of 64 bits.
const MAX_INT64_BYTES: usize = 20;

/// Writes the cell of a column in a row before a place, and says where it begins: nothing where the column has no such row. Answers
/// none where there is no room, and for the few cells that are written piece by piece.
pub(crate) fn write_cell(line: &mut [u8], end: usize, array: &Array, row: usize) -> Option<usize>
    requires { end ≤ length line.old }
    ensures start { IfSome result (λ start. start ≤ end) }
    ensures written { let text = cell_at row (column_of array.now) in
        IfSome result (λ start. drop start line.new ≡ text ++ drop end line.old) }
{
    match array {
        Array::Int32(numbers) if row < numbers.len() => write_short(line, end, numbers, row),
        Array::Int64(numbers) if row < numbers.len() => write_long(line, end, numbers, row),
        Array::Utf8(texts) if row < texts.len() => write_text(line, end, texts.get(row)),
        Array::LargeUtf8(texts) if row < texts.len() => write_text(line, end, texts.get(row)),
        _ => write_any(line, end, array, row),
    }
}

fn write_short(
    line: &mut [u8],
    end: usize,
    numbers: &PrimitiveArray<i32>,
    row: usize,
) -> Option<usize>
    requires place { end ≤ length line.old }
    requires within { row < length numbers.now.items }
    ensures start { IfSome result (λ start. start ≤ end) }
    ensures written { let text = cell_at row (column_of (Array.Int32 numbers.now)) in
        IfSome result (λ start. drop start line.new ≡ text ++ drop end line.old) }
{
    match numbers.get(row) {
        None => write_piece_before(line, end, b"null"),
        Some(number) => write_number(line, end, number as i64),
    }
}

fn write_long(
    line: &mut [u8],
    end: usize,
    numbers: &PrimitiveArray<i64>,
    row: usize,
) -> Option<usize>
    requires place { end ≤ length line.old }
    requires within { row < length numbers.now.items }
    ensures start { IfSome result (λ start. start ≤ end) }
    ensures written { let text = cell_at row (column_of (Array.Int64 numbers.now)) in
        IfSome result (λ start. drop start line.new ≡ text ++ drop end line.old) }
{
    match numbers.get(row) {
        None => write_piece_before(line, end, b"null"),
        Some(number) => write_number(line, end, number),
    }
}

fn write_text(line: &mut [u8], end: usize, text: Option<&str>) -> Option<usize>
    requires { end ≤ length line.old }
    ensures start { IfSome result (λ start. start ≤ end) }
    ensures written { let cell = cell_of Text (option_copied text.entry) in
        IfSome result (λ start. drop start line.new ≡ cell_text cell ++ drop end line.old) }
{
    match text {
        None => write_piece_before(line, end, b"null"),
        Some(text) => write_quoted(line, end, text.as_bytes()),
    }
}

fn write_any(line: &mut [u8], end: usize, array: &Array, row: usize) -> Option<usize>
    requires { end ≤ length line.old }
    ensures start { IfSome result (λ start. start ≤ end) }
    ensures written { let text = cell_at row (column_of array.now) in
        IfSome result (λ start. drop start line.new ≡ text ++ drop end line.old) }
{
    if row >= array.len() {
        return Some(end);
    }
    write_lent(line, end, array.lent(row))
}

fn write_lent(line: &mut [u8], end: usize, cell: Lent<'_>) -> Option<usize>
    requires { end ≤ length line.old }
    ensures start { IfSome result (λ start. start ≤ end) }
    ensures written { let text = cell_text (cell_lent cell.entry) in
        IfSome result (λ start. drop start line.new ≡ text ++ drop end line.old) }
{
    match cell {
        Lent::Null => write_piece_before(line, end, b"null"),
        Lent::Bool(true) => write_piece_before(line, end, b"true"),
        Lent::Bool(false) => write_piece_before(line, end, b"false"),
        Lent::Int(number) => write_number(line, end, i64::try_from(number).ok()?),
        Lent::Text(text) => write_quoted(line, end, text.as_bytes()),
        Lent::Bytes(bytes) => write_bytes(line, end, bytes),
        Lent::DaysMs(_, _) | Lent::Cells(_) => None,
    }
}

fn write_number(line: &mut [u8], end: usize, number: i64) -> Option<usize>
    requires { end ≤ length line.old }
    ensures start { IfSome result (λ start. start ≤ end) }
    ensures written { let text = signed_decimal number in
        IfSome result (λ start. drop start line.new ≡ text ++ drop end line.old) }
{
    if end < MAX_INT64_BYTES {
        return None;
    }
    Some(write_i64(line, end, number))
}

/// Writes a text in quotes, if there is room and its bytes stand for themselves.
fn write_quoted(line: &mut [u8], end: usize, bytes: &[u8]) -> Option<usize>
    requires { end ≤ length line.old }
    ensures start { IfSome result (λ start. start ≤ end) }
    ensures written { let text = quoted bytes.now in
        IfSome result (λ start. drop start line.new ≡ text ++ drop end line.old) }
{
    if bytes.len() > end || !is_plain(bytes) {
        return None;
    }
    let behind = write_piece_before(line, end, b"\"")?;
    let text = write_piece_before(line, behind, bytes)?;
    write_piece_before(line, text, b"\"")
}

/// Writes bytes in hexadecimal digits.
fn write_bytes(line: &mut [u8], end: usize, bytes: &[u8]) -> Option<usize>
    requires { end ≤ length line.old }
    ensures start { IfSome result (λ start. start ≤ end) }
    ensures written { let text = codes "0x" ++ flat_map hexadecimal bytes.now in
        IfSome result (λ start. drop start line.new ≡ text ++ drop end line.old) }
{
    let start = write_hexadecimal(line, end, bytes)?;
    write_piece_before(line, start, b"0x")
}

fn write_hexadecimal(line: &mut [u8], end: usize, bytes: &[u8]) -> Option<usize>
    requires { end ≤ length line.old }
    ensures start { IfSome result (λ start. start ≤ end) }
    ensures written { let text = flat_map hexadecimal bytes.now in
        IfSome result (λ start. drop start line.new ≡ text ++ drop end line.old) }
{
    let mut start = end;
    let mut rest = bytes;
    while let Some((byte, front)) = rest.split_last() {
        start = write_piece_before(line, start, &digits_of(*byte))?;
        rest = front;
    }
    Some(start)
}

/// Writes bytes before a place, and says where they begin, if there is room.
pub(crate) fn write_piece_before(line: &mut [u8], end: usize, piece: &[u8]) -> Option<usize>
    requires { end ≤ length line.old }
    ensures start { IfSome result (λ start. start ≤ end) }
    ensures written { IfSome result (λ start. drop start line.new ≡ piece.now ++ drop end line.old) }
{
    let start = end.checked_sub(piece.len())?;
    line[start..end].copy_from_slice(piece);
    Some(start)
}
