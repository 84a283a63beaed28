//! The levels of the quantities: which are there, eight rows a byte.

ghost use Rattle.std.specs.Prelude.{◌≡◌, ◌≤◌, ◌<◌, ◌+◌, ◌^◌, not};
ghost use Rattle.compact_write.specs.Calls.{Writes};
ghost use Rattle.parquet_plain.specs.Bodies.{bit, bits_bytes, level_bytes, number_of_bits};
ghost use Rattle.parquet_sample.specs.Rows.{are_present};
ghost use Rattle.parquet_sample.specs.Sample.{is_absent};

use compact_write::write_varint;
use std::alloc::AllocError;
use std::cmp::min;

/// 1 where there is a quantity.
fn level(n: u64) -> u32
    ensures { result ≡ bit (not (is_absent n)) }
{
    if n % 5 == 0 { 0 } else { 1 }
}

/// The levels of at most eight rows, the first in the lowest bit.
fn level_byte(first: u64, rows: u32) -> u8
    requires few { rows ≤ 8 }
    requires fits { first + rows < 2 ^ 63 }
    ensures { result ≡ number_of_bits (are_present first rows) }
{
    let mut byte = 0;
    let mut left = rows;
    while left > 0 {
        left -= 1;
        byte = 2 * byte + level(first + u64::from(left));
    }
    byte as u8
}

fn write_level_bits(levels: &mut Vec<u8>, first: u64, rows: u32) -> Result<(), AllocError>
    requires fits { first + rows < 2 ^ 63 }
    ensures written { Writes (bits_bytes (are_present first rows)) levels.old result levels.new }
{
    let mut row = 0;
    while row < rows {
        let count = min(8, rows - row);
        levels.push(level_byte(first + u64::from(row), count))?;
        row += count;
    }
    Ok(())
}

/// One packed run.
pub(crate) fn write_levels(levels: &mut Vec<u8>, first: u64, rows: u32) -> Result<(), AllocError>
    requires few { rows < 2 ^ 31 }
    requires fits { first + rows < 2 ^ 63 }
    ensures written { Writes (level_bytes (are_present first rows)) levels.old result levels.new }
{
    write_varint(levels, 2 * u64::from((rows + 7) / 8) + 1)?;
    write_level_bits(levels, first, rows)?;
    Ok(())
}
