//! The parts of a file, and its end.

ghost use Rattle.std.specs.Prelude.{◌≡◌, length, All, IfOk};
ghost use Rattle.parquet_plain.specs.Short.{is_short_footer};
ghost use Rattle.parquet_write.specs.Parts.{OverflowsUnless, WritesShort, file_bytes, told_of};
ghost use Rattle.parquet_write.specs.Told.{HasColumns, end_of_file_bytes, file_told};

use crate::facts::{Bases, GroupFacts};
use crate::footer::{has_few_rows, write_footer, write_tail};
use crate::parts::{JoinedParts, Parts};
use columns_core::Error;
use parquet_meta::ColumnDescriptor;

/// The footer, its length, and the magic.
fn add_end(
    out: &mut Vec<u8>,
    columns: &[ColumnDescriptor],
    bases: Bases,
    groups: &[GroupFacts],
) -> Result<(), Error>
    requires even { All (HasColumns (length columns.now)) groups.now }
    ensures written { let told = file_told columns.now bases groups.now in
        let bytes = end_of_file_bytes columns.now bases groups.now in
        WritesShort bytes (is_short_footer told) out.old result out.new }
{
    if !has_few_rows(groups) {
        return Err(Error::Overflow);
    }
    if columns.len() > i32::MAX as usize {
        // The footer of so many columns is longer.
        return Err(Error::Overflow);
    }
    let start = out.len();
    write_footer(out, columns, bases, groups)?;
    let Ok(length) = u32::try_from(out.len() - start) else {
        return Err(Error::Overflow);
    };
    write_tail(out, length)?;
    Ok(())
}

/// The whole file: the parts one behind another, and the end of the file.
///
/// # Errors
///
/// `Overflow` where all rows are 2^63 or more, or the footer has 2^32 bytes or more; otherwise only want of memory.
pub fn end_file(
    parts: Parts,
    columns: &[ColumnDescriptor],
    groups: &[GroupFacts],
) -> Result<Vec<u8>, Error>
    requires even { All (HasColumns (length columns.now)) groups.now }
    ensures written { IfOk result (λ bytes. bytes.items ≡ file_bytes parts columns.now groups.now) }
    ensures short { OverflowsUnless (is_short_footer (told_of parts columns.now groups.now)) result }
{
    let JoinedParts { mut bytes, bases } = parts.join()?;
    add_end(&mut bytes, columns, bases, groups)?;
    Ok(bytes)
}
