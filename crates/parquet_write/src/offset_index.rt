//! Where the pages of a chunk stand.

ghost use Rattle.std.specs.Prelude.{map, All, OnOk};
ghost use Rattle.compact_write.specs.Calls.{Writes};
ghost use Rattle.parquet_plain.specs.Structs.{offset_index_bytes};
ghost use Rattle.parquet_write.specs.Told.{IsTellablePage, location_bytes, location_told};

use crate::facts::PageFacts;
use crate::measure::{write_measure, write_size};
use compact_write::{write_end, write_list_start};
use parquet_thrift::STRUCT;
use std::alloc::AllocError;

fn write_location(out: &mut Vec<u8>, page: &PageFacts) -> Result<(), AllocError>
    ensures written { Writes (location_bytes page.now) out.old result out.new }
    ensures few { OnOk result (IsTellablePage page.now) }
{
    write_measure(out, 0, 1, page.offset)?;
    write_size(out, 1, 2, page.size)?;
    write_measure(out, 2, 3, page.first_row)?;
    write_end(out)?;
    Ok(())
}

/// A number that no reader takes counts as want of memory: 2^31 bytes of a page with its header, a place or row from 2^63 on.
pub fn write_offset_index(out: &mut Vec<u8>, pages: &[PageFacts]) -> Result<(), AllocError>
    ensures written { Writes (offset_index_bytes (map location_told pages.now)) out.old result out.new }
    ensures few { OnOk result (All IsTellablePage pages.now) }
{
    write_list_start(out, 0, 1, STRUCT, pages.len())?;
    for page in pages {
        write_location(out, page)?;
    }
    write_end(out)?;
    Ok(())
}
