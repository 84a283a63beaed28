//! A page with its header.

ghost use Rattle.std.specs.Prelude.{◌++◌, ◌<◌, ◌^◌, length, OnOk};
ghost use Rattle.compact_write.specs.Calls.{Writes};
ghost use Rattle.parquet_plain.specs.Structs.{page_header_bytes};

use crate::measure::to_measure;
use compact_write::{write_count_field, write_end, write_struct_start};
use std::alloc::AllocError;

/// A plain data page of so many rows with a body of so many bytes, whose levels are hybrid.
fn write_page_header(out: &mut Vec<u8>, rows: u32, size: u32) -> Result<(), AllocError>
    requires rows { rows < 2 ^ 31 }
    requires size { size < 2 ^ 31 }
    ensures written { Writes (page_header_bytes rows size) out.old result out.new }
{
    write_count_field(out, 0, 1, 0)?;
    write_count_field(out, 1, 2, size)?;
    write_count_field(out, 2, 3, size)?;
    write_struct_start(out, 3, 5)?;
    write_count_field(out, 0, 1, rows)?;
    write_count_field(out, 1, 2, 0)?;
    write_count_field(out, 2, 3, 3)?;
    write_count_field(out, 3, 4, 3)?;
    write_end(out)?;
    write_end(out)?;
    Ok(())
}

/// The body stands as it is behind a header with its length. A page has fewer than 2^31 rows and bytes, as its readers ask for; more cannot be told
/// and count as want of memory.
pub fn write_page(out: &mut Vec<u8>, rows: u32, body: &[u8]) -> Result<(), AllocError>
    ensures written { Writes (page_header_bytes rows (length body.now) ++ body.now) out.old result out.new }
    ensures few { OnOk result ((rows < 2 ^ 31) × (length body.now < 2 ^ 31)) }
{
    write_page_header(out, to_measure(rows as usize)?, to_measure(body.len())?)?;
    out.extend_from_slice(body)?;
    Ok(())
}
