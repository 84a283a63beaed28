//! Places and lengths: numbers below 2^63, as the format stores them. No vector is longer, so one above them counts
//! as want of memory.

ghost use Rattle.std.specs.Prelude.{◌≡◌, ◌<◌, ◌≤◌, ◌+◌, ◌^◌, IfOk, IfErr, OnErr, OnOk};
ghost use Rattle.columns_core.specs.declared.error.Error.TheVariants.{Overflow};
ghost use Rattle.compact_write.specs.Calls.{Writes};
ghost use Rattle.compact_write.specs.Written.{count_field_bytes, i32_kind, i64_kind, most_step};

use columns_core::Error;
use compact_write::{write_count_field, write_large_field};
use std::alloc::AllocError;

/// The first number that is not stored.
const TOO_LARGE: u64 = 1 << 63;

/// A field of 64 bits.
pub fn write_measure(out: &mut Vec<u8>, previous: u8, id: u8, number: u64) -> Result<(), AllocError>
    requires rises { previous < id }
    requires near { id ≤ previous + most_step }
    ensures written { Writes (count_field_bytes previous id i64_kind number) out.old result out.new }
    ensures few { OnOk result (number < 2 ^ 63) }
{
    if number >= TOO_LARGE {
        return Err(AllocError);
    }
    write_large_field(out, previous, id, number)
}

/// A field of 32 bits: a size that is told below 2^31, as its readers ask for. A greater one counts as want of memory.
pub fn write_size(out: &mut Vec<u8>, previous: u8, id: u8, size: u32) -> Result<(), AllocError>
    requires rises { previous < id }
    requires near { id ≤ previous + most_step }
    ensures written { Writes (count_field_bytes previous id i32_kind size) out.old result out.new }
    ensures few { OnOk result (size < 2 ^ 31) }
{
    let size = to_measure(size as usize)?;
    write_count_field(out, previous, id, size)
}

/// The sum of two. One of more than 64 bits counts as want of memory.
pub fn sum(first: u64, second: u64) -> Result<u64, AllocError>
    ensures ok { IfOk result (λ n. n ≡ first + second) }
    ensures err { OnErr result (2 ^ 64 ≤ first + second) }
{
    first.checked_add(second).ok_or(AllocError)
}

/// A length or count that a signed field of 32 bits can tell. One above it counts as want of memory.
pub fn to_measure(length: usize) -> Result<u32, AllocError>
    ensures same { IfOk result (λ n. n ≡ length) }
    ensures few { OnOk result (length < 2 ^ 31) }
    ensures err { OnErr result (2 ^ 31 ≤ length) }
{
    if length > i32::MAX as usize {
        return Err(AllocError);
    }
    Ok(length as u32)
}

/// The same, where a greater one is refused as too large.
pub(crate) fn to_short(length: usize) -> Result<u32, Error>
    ensures same { IfOk result (λ n. n ≡ length) }
    ensures few { OnOk result (length < 2 ^ 31) }
    ensures err { IfErr result (λ e. (e ≡ Overflow) × (2 ^ 31 ≤ length)) }
{
    if length > i32::MAX as usize {
        return Err(Error::Overflow);
    }
    Ok(length as u32)
}
