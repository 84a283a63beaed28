//! The bodies of the sample's pages.

ghost use Rattle.std.specs.Prelude.{◌<◌, ◌+◌, ◌^◌};
ghost use Rattle.compact_write.specs.Calls.{Writes};
ghost use Rattle.parquet_sample.specs.Writing.{body_from, qty_body};

use crate::body::{write_ids, write_names, write_qtys};
use crate::column::SampleColumn;
use crate::levels::write_levels;
use parquet_write::to_measure;
use std::alloc::AllocError;

/// The levels behind their length, and the quantities that are there.
fn write_qty_body(
    body: &mut Vec<u8>,
    levels: &mut Vec<u8>,
    first: u64,
    rows: u32,
) -> Result<(), AllocError>
    requires few { rows < 2 ^ 31 }
    requires fits { first + rows < 2 ^ 63 }
    ensures written { Writes (qty_body first rows) body.old result body.new }
{
    levels.clear();
    write_levels(levels, first, rows)?;
    body.extend_from_slice(&to_measure(levels.len())?.to_le_bytes())?;
    body.extend_from_slice(levels)?;
    write_qtys(body, first, rows)?;
    Ok(())
}

/// The body of a page of a column. The levels are room to work in.
pub(crate) fn write_body(
    body: &mut Vec<u8>,
    levels: &mut Vec<u8>,
    column: SampleColumn,
    first: u64,
    rows: u32,
) -> Result<(), AllocError>
    requires few { rows < 2 ^ 31 }
    requires fits { first + rows < 2 ^ 63 }
    ensures written { Writes (body_from column first rows) body.old result body.new }
{
    match column {
        SampleColumn::Id => write_ids(body, first, rows),
        SampleColumn::Qty => write_qty_body(body, levels, first, rows),
        SampleColumn::Name => write_names(body, first, rows),
    }
}
