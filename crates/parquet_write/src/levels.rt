//! Levels: which rows are there, eight a byte, in one packed run.

ghost use Rattle.std.specs.Prelude.{◌≡◌, ◌<◌, ◌≤◌, ◌+◌, ◌-◌, ◌^◌, Bool, is_some, length, map};
ghost use Rattle.std.specs.List.{slice_range};
ghost use Rattle.compact_write.specs.Calls.{Writes};
ghost use Rattle.parquet_plain.specs.Bodies.{bit, bits_bytes, level_bytes, number_of_bits};

use crate::items::Items;
use compact_write::write_varint;
use std::alloc::AllocError;
use std::cmp::min;

/// 1 where there is an item.
fn level(is_there: bool) -> u32
    ensures { result ≡ bit is_there }
{
    if is_there { 1 } else { 0 }
}

/// The levels of at most eight rows, the first in the lowest bit.
fn level_byte<I: Items>(items: &I, from: usize, to: usize) -> u8
    requires order { from ≤ to }
    requires few { to ≤ from + 8 }
    requires within { to ≤ length (I.items items.now) }
    ensures { result ≡ number_of_bits (map is_some (slice_range (I.items items.now) from to)) }
{
    let mut byte = 0;
    let mut row = to;
    while row > from {
        row -= 1;
        byte = 2 * byte + level(items.is_there(row));
    }
    byte as u8
}

fn write_level_bits<I: Items>(
    levels: &mut Vec<u8>,
    items: &I,
    from: usize,
    to: usize,
) -> Result<(), AllocError>
    requires order { from ≤ to }
    requires within { to ≤ length (I.items items.now) }
    ensures written { let rows = slice_range (I.items items.now) from to in
        Writes (bits_bytes (map is_some rows)) levels.old result levels.new }
{
    let mut row = from;
    while row < to {
        let end = row + min(8, to - row);
        levels.push(level_byte(items, row, end))?;
        row = end;
    }
    Ok(())
}

/// One packed run.
pub(crate) fn write_levels<I: Items>(
    levels: &mut Vec<u8>,
    items: &I,
    from: usize,
    to: usize,
) -> Result<(), AllocError>
    requires order { from ≤ to }
    requires within { to ≤ length (I.items items.now) }
    requires few { to - from < 2 ^ 31 }
    ensures written { let rows = slice_range (I.items items.now) from to in
        Writes (level_bytes (map is_some rows)) levels.old result levels.new }
{
    write_varint(levels, 2 * (((to - from) as u64 + 7) / 8) + 1)?;
    write_level_bits(levels, items, from, to)?;
    Ok(())
}
