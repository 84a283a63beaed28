//! Cells as text.
ghost use Rattle.std.specs.Prelude.{◌≡◌, ◌+◌, ◌<◌, ◌≤◌, ◌++◌, [], true, codes, flat_map, length, take, IfNone, IfSome};
ghost use Rattle.columns_core.specs.Array.{column_of};
ghost use Rattle.columns_core.specs.Lent.{cell_lent};
ghost use Rattle.pq_common.specs.CellText as spec;
ghost use Rattle.pq_common.specs.CellText.{cell_text, days_text, hexadecimal, quoted, quoted_byte};
ghost use Rattle.pq_common.specs.Pieces.{piece_bytes};
ghost use Rattle.pq_common.specs.Rows.{cell_at};
ghost use Rattle.pq_common.specs.Taken.{TakesBytes};

use crate::block::Block;
use crate::sink::Sink;
use columns_core::{Array, Lent};
use parquet_meta::Failed;

const DIGITS: [u8; 16] = *b"0123456789abcdef";

/// How many bytes of a text are compared side by side: of a long stretch, of what is left of it, and of short texts.
const LONG_BLOCK: usize = 64;

const BLOCK: usize = 16;

const SHORT_BLOCK: usize = 8;

const SHORTEST_BLOCK: usize = 4;

/// A piece of a text as it is written: a stretch of bytes that stand for themselves, or one byte by its number.
#[derive(Drop)]
pub(crate) enum Piece<'a> {
    Plain(&'a [u8]),
    Escape([u8; 4]),
}

impl Piece<'_> {
    pub(crate) fn bytes(&self) -> &[u8]
        ensures { result.now ≡ piece_bytes self.now }
    {
        match self {
            Piece::Plain(bytes) => bytes,
            Piece::Escape(bytes) => bytes,
        }
    }
}

/// Takes the cell of a column in a row, and nothing where the column has no such row.
pub fn push_cell<K: Sink>(
    block: &mut Block,
    out: &mut K,
    array: &Array,
    row: usize,
) -> Result<(), Failed>
    ensures { let text = cell_at row (column_of array.now) in
        TakesBytes K.Sink out.old out.new (block.old ++ text) block.new result }
{
    if row >= array.len() {
        return Ok(());
    }
    push_lent(block, out, array.lent(row))
}

/// Takes a cell, which is read where it lies.
pub(crate) fn push_lent<K: Sink>(
    block: &mut Block,
    out: &mut K,
    cell: Lent<'_>,
) -> Result<(), Failed>
    ensures { let text = cell_text (cell_lent cell.entry) in
        TakesBytes K.Sink out.old out.new (block.old ++ text) block.new result }
{
    match cell {
        Lent::Null => block.push(out, b"null"),
        Lent::Bool(true) => block.push(out, b"true"),
        Lent::Bool(false) => block.push(out, b"false"),
        Lent::Int(number) => block.push_signed(out, number),
        Lent::DaysMs(days, milliseconds) => {
            push_days(block, out, days as i128, milliseconds as i128)
        }
        Lent::Text(text) => push_quoted(block, out, text.as_bytes()),
        Lent::Bytes(bytes) => push_bytes(block, out, bytes),
        // No cell of a flat column is a list.
        Lent::Cells(_) => Ok(()),
    }
}

fn push_days<K: Sink>(
    block: &mut Block,
    out: &mut K,
    days: i128,
    milliseconds: i128,
) -> Result<(), Failed>
    ensures { let text = days_text days milliseconds in
        TakesBytes K.Sink out.old out.new (block.old ++ text) block.new result }
{
    block.push_signed(out, days)?;
    block.push(out, b"/")?;
    block.push_signed(out, milliseconds)
}

/// Takes a text in quotes.
pub(crate) fn push_quoted<K: Sink>(
    block: &mut Block,
    out: &mut K,
    bytes: &[u8],
) -> Result<(), Failed>
    ensures { TakesBytes K.Sink out.old out.new (block.old ++ quoted bytes.now) block.new result }
{
    block.push(out, b"\"")?;
    push_pieces(block, out, bytes)?;
    block.push(out, b"\"")
}

/// Takes the bytes of a text, those that stand for themselves side by side.
fn push_pieces<K: Sink>(block: &mut Block, out: &mut K, bytes: &[u8]) -> Result<(), Failed>
    ensures { let text = flat_map quoted_byte bytes.now in
        TakesBytes K.Sink out.old out.new (block.old ++ text) block.new result }
{
    let mut rest = bytes;
    while let Some((piece, behind)) = next_piece(rest) {
        block.push(out, piece.bytes())?;
        rest = behind;
    }
    Ok(())
}

/// Takes bytes in hexadecimal digits.
fn push_bytes<K: Sink>(block: &mut Block, out: &mut K, bytes: &[u8]) -> Result<(), Failed>
    ensures { let text = codes "0x" ++ flat_map hexadecimal bytes.now in
        TakesBytes K.Sink out.old out.new (block.old ++ text) block.new result }
{
    block.push(out, b"0x")?;
    push_digits(block, out, bytes)
}

fn push_digits<K: Sink>(block: &mut Block, out: &mut K, bytes: &[u8]) -> Result<(), Failed>
    ensures { let text = flat_map hexadecimal bytes.now in
        TakesBytes K.Sink out.old out.new (block.old ++ text) block.new result }
{
    for byte in bytes {
        block.push(out, &digits_of(*byte))?;
    }
    Ok(())
}

/// The two hexadecimal digits of a byte.
pub(crate) fn digits_of(byte: u8) -> [u8; 2]
    ensures { result ≡ hexadecimal byte }
{
    let high = DIGITS[(byte / 16) as usize];
    let low = DIGITS[(byte % 16) as usize];
    [high, low]
}

/// The first piece of a text that is not empty, and the bytes behind it.
pub(crate) fn next_piece(bytes: &[u8]) -> Option<(Piece<'_>, &[u8])>
    ensures some { IfSome result (λ found. flat_map quoted_byte bytes.now
        ≡ piece_bytes found.0 ++ flat_map quoted_byte found.1.now) }
    ensures none { IfNone result (bytes.now ≡ []) }
    ensures shorter { IfSome result (λ found. length found.1.now < length bytes.now) }
{
    let first = *bytes.first()?;
    if is_escaped(first) {
        return Some((Piece::Escape(escape_of(first)), &bytes[1..]));
    }
    let (plain, behind) = bytes.split_at(plain_length(bytes, 1));
    Some((Piece::Plain(plain), behind))
}

/// The bytes that stand for a byte which is escaped.
fn escape_of(byte: u8) -> [u8; 4]
    ensures { result ≡ codes "\\x" ++ hexadecimal byte }
{
    let [high, low] = digits_of(byte);
    [b'\\', b'x', high, low]
}

/// Whether a text stands for itself.
pub(crate) fn is_plain(bytes: &[u8]) -> bool
    ensures { result ≡ true → flat_map quoted_byte bytes.now ≡ bytes.now }
{
    match bytes.len() {
        0..=3 => are_plain(bytes),
        4..=8 => are_ends_plain(bytes, SHORTEST_BLOCK),
        9..=16 => are_ends_plain(bytes, SHORT_BLOCK),
        _ => is_long_plain(bytes),
    }
}

/// Whether a text of a block or more stands for itself: whole blocks of it, and its last block, which may begin inside them.
fn is_long_plain(bytes: &[u8]) -> bool
    requires { 16 ≤ length bytes.now }
    ensures { result ≡ true → flat_map quoted_byte bytes.now ≡ bytes.now }
{
    let long = plain_blocks(bytes, 0, LONG_BLOCK);
    let most = plain_blocks(bytes, long, BLOCK);
    bytes.len() - most <= BLOCK && are_plain(&bytes[bytes.len() - BLOCK..])
}

/// Whether the first block of a text and its last one, which may begin inside the first, stand for themselves. So two blocks are
/// compared, of whatever length the text is.
fn are_ends_plain(bytes: &[u8], block: usize) -> bool
    requires { (block ≤ length bytes.now) × (length bytes.now ≤ block + block) }
    ensures { result ≡ true → flat_map quoted_byte bytes.now ≡ bytes.now }
{
    are_plain(&bytes[..block]) && are_plain(&bytes[bytes.len() - block..])
}

/// How many bytes from the first on stand for themselves, where so many do.
fn plain_length(bytes: &[u8], plain: usize) -> usize
    requires held { plain ≤ length bytes.now }
    requires first { flat_map quoted_byte (take plain bytes.now) ≡ take plain bytes.now }
    ensures within { (plain ≤ result) × (result ≤ length bytes.now) }
    ensures plain { flat_map quoted_byte (take result bytes.now) ≡ take result bytes.now }
{
    let long = plain_blocks(bytes, plain, LONG_BLOCK);
    let most = plain_blocks(bytes, long, BLOCK);
    let mut count = plain_blocks(bytes, most, SHORT_BLOCK);
    while count < bytes.len() && !is_escaped(bytes[count]) {
        count += 1;
    }
    count
}

/// How many bytes stand for themselves, where the first of them do, and behind them whole blocks.
fn plain_blocks(bytes: &[u8], plain: usize, block: usize) -> usize
    requires some { 0 < block }
    requires held { plain ≤ length bytes.now }
    requires first { flat_map quoted_byte (take plain bytes.now) ≡ take plain bytes.now }
    ensures within { (plain ≤ result) × (result ≤ length bytes.now) }
    ensures plain { flat_map quoted_byte (take result bytes.now) ≡ take result bytes.now }
{
    let mut count = plain;
    while bytes.len() - count >= block && are_plain(&bytes[count..count + block]) {
        count += block;
    }
    count
}

/// Whether all these bytes stand for themselves. Each is looked at, so that they are compared side by side.
fn are_plain(bytes: &[u8]) -> bool
    ensures { result ≡ true → flat_map quoted_byte bytes.now ≡ bytes.now }
{
    let mut plain = true;
    for byte in bytes {
        plain &= !is_escaped(*byte);
    }
    plain
}

/// Whether a byte of a text is written by its number.
fn is_escaped(byte: u8) -> bool
    ensures { result ≡ spec.is_escaped byte }
{
    (byte == b'\\') | (byte == b'"') | (byte < 32) | (byte == 127)
}
