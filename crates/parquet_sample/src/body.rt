//! The values of the sample's pages, a row at a time.

ghost use Rattle.std.specs.Prelude.{◌<◌, ◌+◌, ◌^◌};
ghost use Rattle.std.specs.List.{flat_map, range_with_len};
ghost use Rattle.compact_write.specs.Calls.{Writes};
ghost use Rattle.parquet_sample.specs.Rows.{id_bytes, qty_bytes, text_bytes};

use itoa::Buffer;
use std::alloc::AllocError;

/// Numbers of 64 bits, one after another.
pub(crate) fn write_ids(body: &mut Vec<u8>, first: u64, rows: u32) -> Result<(), AllocError>
    requires fits { first + rows < 2 ^ 63 }
    ensures written { Writes (flat_map id_bytes (range_with_len first rows)) body.old result body.new }
{
    for n in first..first + u64::from(rows) {
        body.extend_from_slice(&n.to_le_bytes())?;
    }
    Ok(())
}

/// A quantity, where there is one.
fn write_qty(body: &mut Vec<u8>, n: u64) -> Result<(), AllocError>
    ensures written { Writes (qty_bytes n) body.old result body.new }
{
    if n % 5 == 0 {
        return Ok(());
    }
    body.extend_from_slice(&((n % 1000) as u32).to_le_bytes())?;
    Ok(())
}

/// The quantities that are there.
pub(crate) fn write_qtys(body: &mut Vec<u8>, first: u64, rows: u32) -> Result<(), AllocError>
    requires fits { first + rows < 2 ^ 63 }
    ensures written { Writes (flat_map qty_bytes (range_with_len first rows)) body.old result body.new }
{
    for n in first..first + u64::from(rows) {
        write_qty(body, n)?;
    }
    Ok(())
}

/// A length, `r` and the digits.
fn write_name(body: &mut Vec<u8>, n: u64) -> Result<(), AllocError>
    ensures written { Writes (text_bytes n) body.old result body.new }
{
    let mut buffer = Buffer::new();
    let digits = buffer.format(n).as_bytes();
    body.extend_from_slice(&(digits.len() as u32 + 1).to_le_bytes())?;
    body.push(b'r')?;
    body.extend_from_slice(digits)?;
    Ok(())
}

/// Names, one after another.
pub(crate) fn write_names(body: &mut Vec<u8>, first: u64, rows: u32) -> Result<(), AllocError>
    requires fits { first + rows < 2 ^ 63 }
    ensures written { Writes (flat_map text_bytes (range_with_len first rows)) body.old result body.new }
{
    for n in first..first + u64::from(rows) {
        write_name(body, n)?;
    }
    Ok(())
}
