//! The footer, and the end of the file.

ghost use Rattle.std.specs.Prelude.{◌≡◌, ◌<◌, ◌^◌, ◌++◌, ◌≤◌, length, nat_lt, sum_by, All, IfOk, OnErr, OnOk};
ghost use Rattle.std.specs.Int.{w32, to_le_bytes};
ghost use Rattle.compact_write.specs.Calls.{Writes};
ghost use Rattle.parquet_plain.specs.File.{magic};
ghost use Rattle.parquet_plain.specs.Structs.{footer_bytes};
ghost use Rattle.parquet_write.specs.Told.{HasColumns, IsTellableFile, end_of_file_bytes, file_told};

use crate::facts::{Bases, GroupFacts};
use crate::group::write_group;
use crate::measure::{sum, to_measure, write_measure};
use crate::schema::write_schema;
use compact_write::{write_count_field, write_end, write_list_start};
use parquet_meta::ColumnDescriptor;
use parquet_thrift::STRUCT;
use std::alloc::AllocError;

/// The bytes that a file begins and ends with.
pub const MAGIC: &[u8; 4] = b"PAR1";

/// The rows of all groups.
fn rows_of(groups: &[GroupFacts]) -> Result<u64, AllocError>
    ensures sum { IfOk result (λ rows. rows ≡ sum_by (λ group. group.rows) groups.now) }
    ensures err { OnErr result (2 ^ 64 ≤ sum_by (λ group. group.rows) groups.now) }
{
    let mut rows = 0;
    for group in groups {
        rows = sum(rows, group.rows)?;
    }
    Ok(rows)
}

/// Whether all rows are a number that the footer tells.
pub(crate) fn has_few_rows(groups: &[GroupFacts]) -> bool
    ensures { result ≡ nat_lt (sum_by (λ group. group.rows) groups.now) (2 ^ 63) }
{
    match rows_of(groups) {
        Err(_) => false,
        Ok(rows) => rows <= i64::MAX as u64,
    }
}

/// What the footer says. A number that no reader takes counts as want of memory: 2^31 bytes of an index, 2^31 columns or fixed bytes, a place or
/// count from 2^63 on.
pub fn write_footer(
    out: &mut Vec<u8>,
    columns: &[ColumnDescriptor],
    bases: Bases,
    groups: &[GroupFacts],
) -> Result<(), AllocError>
    requires even { All (HasColumns (length columns.now)) groups.now }
    ensures written { Writes (footer_bytes (file_told columns.now bases groups.now)) out.old result out.new }
    ensures few { OnOk result (IsTellableFile columns.now bases groups.now) }
{
    write_count_field(out, 0, 1, 1)?;
    write_list_start(out, 1, 2, STRUCT, columns.len() + 1)?;
    write_schema(out, columns)?;
    write_measure(out, 2, 3, rows_of(groups)?)?;
    write_list_start(out, 3, 4, STRUCT, groups.len())?;
    for group in groups {
        write_group(out, columns, bases, group)?;
    }
    write_end(out)?;
    Ok(())
}

/// The length of the footer, and the magic.
pub fn write_tail(out: &mut Vec<u8>, length: u32) -> Result<(), AllocError>
    ensures { Writes (to_le_bytes w32 length ++ magic) out.old result out.new }
{
    out.extend_from_slice(&length.to_le_bytes())?;
    out.extend_from_slice(MAGIC)?;
    Ok(())
}

/// The footer, its length, and the magic. A number that no reader takes counts as want of memory, as in `write_footer`, and so does a footer of
/// 2^31 bytes.
pub fn write_end_of_file(
    out: &mut Vec<u8>,
    columns: &[ColumnDescriptor],
    bases: Bases,
    groups: &[GroupFacts],
) -> Result<(), AllocError>
    requires even { All (HasColumns (length columns.now)) groups.now }
    ensures written { Writes (end_of_file_bytes columns.now bases groups.now) out.old result out.new }
    ensures few { OnOk result (IsTellableFile columns.now bases groups.now) }
    ensures length { OnOk result (length (footer_bytes (file_told columns.now bases groups.now)) < 2 ^ 31) }
{
    let start = out.len();
    write_footer(out, columns, bases, groups)?;
    let length = to_measure(out.len() - start)?;
    write_tail(out, length)
}
