//! Lines of numbers and nulls.

ghost use Rattle.std.specs.Prelude.{◌≡◌, ◌⊎◌, ◌++◌, map, position, IfErr, IfOk, None, Some, option_map};
ghost use Rattle.columns_core.specs.Causes.{IsWantOfMemory};
ghost use Rattle.columns_core.specs.Column.{cell_of};
ghost use Rattle.columns_core.specs.declared.cell.Cell.{Int};
ghost use Rattle.columns_core.specs.declared.data_type.DataType as type;
ghost use Rattle.columns_core.specs.declared.error.Error.TheVariants.{ExternalFormat};
ghost use Rattle.columns_core.specs.declared.error.Part.TheVariants.{Values};
ghost use Rattle.pq_common.specs.Spelled.{split_first};
ghost use Rattle.put_program.specs.Lines.{behind_minus, cells_of_text, first_cell, is_line_end, line_cell, line_number};

use columns_core::{DataType, Error, MutableBitmap, Part, PrimitiveArray};
use pq_common::signed_number;
use std::alloc::Global;

/// The most digits of a number.
const MOST_DIGITS: usize = 19;

/// What stands behind a minus, if there is one.
fn digits_of(line: &[u8]) -> &[u8]
    ensures { result.now ≡ behind_minus line.now }
{
    match line.split_first() {
        Some((b'-', digits)) => digits,
        _ => line,
    }
}

/// An optional minus and 1 to 19 digits, of a number of 64 bits.
fn number_of(line: &[u8]) -> Option<i64>
    ensures { result ≡ line_number line.now }
{
    if digits_of(line).len() > MOST_DIGITS {
        return None;
    }
    i64::try_from(signed_number(line)?).ok()
}

/// What a line stands for.
fn item_of(line: &[u8]) -> Option<Option<i64>>
    ensures { option_map (cell_of Int) result ≡ line_cell line.now }
{
    if line == b"null".as_slice() {
        return Some(None);
    }
    Some(Some(number_of(line)?))
}

fn first_end(text: &[u8]) -> Option<usize>
    ensures { result ≡ position is_line_end text.now }
{
    text.iter().position(|byte| *byte == b'\n')
}

/// The first line, and the text behind its end.
fn first_line(text: &[u8]) -> Option<(&[u8], &[u8])>
    ensures { option_map (λ found. (found.0.now, found.1.now)) result ≡ split_first is_line_end text.now }
{
    let end = first_end(text)?;
    Some((&text[..end], &text[end + 1..]))
}

/// What the first line stands for, and the text behind its end.
fn first_item(text: &[u8]) -> Option<(Option<i64>, &[u8])>
    ensures { option_map (λ found. (cell_of Int found.0, found.1.now)) result ≡ first_cell text.now }
{
    let (line, behind) = first_line(text)?;
    Some((item_of(line)?, behind))
}

/// The column that lines tell: each is ended, and is `null` or a number of 64 bits.
///
/// # Errors
///
/// `ExternalFormat` where a line is not spelled or the last one is not ended; otherwise only want of memory.
pub(crate) fn column_of_lines(alloc: Global, text: &[u8]) -> Result<PrimitiveArray<i64>, Error>
    ensures typed { IfOk result (λ column. column.data_type ≡ type.Int64) }
    ensures told { IfOk result (λ column. cells_of_text text.now ≡ Some (map (cell_of Int) column.items)) }
    ensures err { IfErr result (λ e. IsWantOfMemory e
        ⊎ ((e ≡ ExternalFormat Values) × (cells_of_text text.now ≡ None))) }
{
    let mut values = Vec::new(alloc);
    let mut there = MutableBitmap::with_capacity(alloc, 0)?;
    let mut rest = text;
    while !rest.is_empty() {
        let Some((item, behind)) = first_item(rest) else {
            return Err(Error::ExternalFormat(Part::Values));
        };
        values.push(item.unwrap_or(0))?;
        there.push(item.is_some())?;
        rest = behind;
    }
    PrimitiveArray::try_new(DataType::Int64, values, Some(there.freeze()))
}
