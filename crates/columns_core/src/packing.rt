//! Bits appended to bytes, by whole bytes wherever they stand at a byte's border.
ghost use Rattle.std.specs.Prelude.{◌≡◌, ◌<◌, ◌≤◌, ◌+◌, ◌-◌, ◌*◌, ◌/◌, ◌%◌, ◌^◌, length, take, slice_index, if◌then◌else◌, OnOk, OnErr};
ghost use Rattle.parquet_base.specs.Bytes.{little_endian};
ghost use Rattle.columns_core.specs.Bits.{IsPacked};

use crate::bits::{byte_at, from_bit, low_ones};
use std::alloc::AllocError;

/// Adds bits to a byte, above those that it has.
pub(crate) fn or_bits(bytes: &mut Vec<u8>, at: usize, shift: usize, bits: u8)
    requires at { at < length bytes.old.items }
    requires shift { shift < 8 }
    requires free { slice_index bytes.old.items at < 2 ^ shift }
    requires fits { bits * 2 ^ shift < 256 }
    ensures added { little_endian bytes.new.items
        ≡ little_endian bytes.old.items + 2 ^ (8 * at + shift) * bits }
    ensures len { length bytes.new.items ≡ length bytes.old.items }
{
    bytes[at] |= bits << shift;
}

/// Appends bits that are not at a byte's border, eight at a time.
fn push_shifted(
    out: &mut Vec<u8>,
    bytes: &[u8],
    place: usize,
    whole: usize,
) -> Result<(), AllocError>
    requires place { place < 8 }
    requires within { place + 8 * whole ≤ 8 * length bytes.now }
    ensures kept { take (length out.old.items) out.new.items ≡ out.old.items }
    ensures len { OnOk result (length out.new.items ≡ length out.old.items + whole) }
    ensures added { OnOk result (little_endian out.new.items
        ≡ little_endian out.old.items + 2 ^ (8 * length out.old.items)
        * (little_endian bytes.now / 2 ^ place % 2 ^ (8 * whole))) }
{
    for i in 0..whole {
        out.push(byte_at(&bytes[i..], place))?;
    }
    Ok(())
}

/// Appends bits, eight at a time.
fn push_bytes(out: &mut Vec<u8>, bytes: &[u8], place: usize, whole: usize) -> Result<(), AllocError>
    requires place { place < 8 }
    requires within { place + 8 * whole ≤ 8 * length bytes.now }
    ensures kept { take (length out.old.items) out.new.items ≡ out.old.items }
    ensures len { OnOk result (length out.new.items ≡ length out.old.items + whole) }
    ensures added { OnOk result (little_endian out.new.items
        ≡ little_endian out.old.items + 2 ^ (8 * length out.old.items)
        * (little_endian bytes.now / 2 ^ place % 2 ^ (8 * whole))) }
{
    if place == 0 {
        out.extend_from_slice(&bytes[..whole])?;
        return Ok(());
    }
    push_shifted(out, bytes, place, whole)
}

/// Appends bits, and fills the last byte up with zeros. After a refusal some of them may stand there.
fn push_bits(out: &mut Vec<u8>, bytes: &[u8], place: usize, count: usize) -> Result<(), AllocError>
    requires place { place < 8 }
    requires within { place + count ≤ 8 * length bytes.now }
    ensures kept { take (length out.old.items) out.new.items ≡ out.old.items }
    ensures len { OnOk result (length out.new.items ≡ length out.old.items + (count + 7) / 8) }
    ensures added { OnOk result (little_endian out.new.items
        ≡ little_endian out.old.items + 2 ^ (8 * length out.old.items)
        * (little_endian bytes.now / 2 ^ place % 2 ^ count)) }
{
    let whole = count / 8;
    push_bytes(out, bytes, place, whole)?;
    let rest = count % 8;
    if rest > 0 {
        out.push(byte_at(&bytes[whole..], place) & low_ones(rest))?;
    }
    Ok(())
}

/// Appends bits to those that fill some bytes. After a refusal they are as before.
pub(crate) fn extend_packed(
    out: &mut Vec<u8>,
    count: usize,
    bytes: &[u8],
    offset: usize,
    len: usize,
) -> Result<(), AllocError>
    requires packed { IsPacked out.old.items count }
    requires within { offset + len ≤ 8 * length bytes.now }
    ensures packed { OnOk result (IsPacked out.new.items (count + len)) }
    ensures added { OnOk result (little_endian out.new.items
        ≡ little_endian out.old.items + 2 ^ count * (little_endian bytes.now / 2 ^ offset % 2 ^ len)) }
    ensures err { OnErr result (out.new.items ≡ out.old.items) }
{
    let before = out.len();
    let used = count % 8;
    let (bytes, offset) = from_bit(bytes, offset);
    let head = ((8 - used) % 8).min(len);
    let (rest, place) = from_bit(bytes, offset + head);
    if let Err(e) = push_bits(out, rest, place, len - head) {
        out.truncate(before);
        return Err(e);
    }
    if head > 0 {
        or_bits(
            out,
            before - 1,
            used,
            byte_at(bytes, offset) & low_ones(head),
        );
    }
    Ok(())
}

/// Appends bits that are 1 to those that fill some bytes. After a refusal they are as before.
fn extend_ones(out: &mut Vec<u8>, count: usize, additional: usize) -> Result<(), AllocError>
    requires packed { IsPacked out.old.items count }
    requires counted { count + additional < 2 ^ 64 }
    ensures packed { OnOk result (IsPacked out.new.items (count + additional)) }
    ensures added { OnOk result (little_endian out.new.items
        ≡ little_endian out.old.items + 2 ^ count * (2 ^ additional - 1)) }
    ensures err { OnErr result (out.new.items ≡ out.old.items) }
{
    let before = out.len();
    let used = count % 8;
    let head = ((8 - used) % 8).min(additional);
    push_ones(out, additional - head)?;
    if head > 0 {
        or_bits(out, before - 1, used, low_ones(head));
    }
    Ok(())
}

/// Appends bits that are 1, and fills the last byte up with zeros.
fn push_ones(out: &mut Vec<u8>, count: usize) -> Result<(), AllocError>
    requires { length out.old.items + (count + 7) / 8 < 2 ^ 64 }
    ensures kept { OnOk result (take (length out.old.items) out.new.items ≡ out.old.items) }
    ensures err { OnErr result (out.new.items ≡ out.old.items) }
    ensures len { OnOk result (length out.new.items ≡ length out.old.items + (count + 7) / 8) }
    ensures added { OnOk result (little_endian out.new.items
        ≡ little_endian out.old.items + 2 ^ (8 * length out.old.items) * (2 ^ count - 1)) }
{
    out.resize(out.len() + count.div_ceil(8), 0xff)?;
    if count % 8 > 0 {
        let last = out.len() - 1;
        out[last] = low_ones(count % 8);
    }
    Ok(())
}

fn extend_zeros(out: &mut Vec<u8>, count: usize, additional: usize) -> Result<(), AllocError>
    requires packed { IsPacked out.old.items count }
    requires counted { count + additional < 2 ^ 64 }
    ensures packed { OnOk result (IsPacked out.new.items (count + additional)) }
    ensures same { OnOk result (little_endian out.new.items ≡ little_endian out.old.items) }
    ensures err { OnErr result (out.new.items ≡ out.old.items) }
{
    out.resize((count + additional).div_ceil(8), 0)?;
    Ok(())
}

/// Appends one bit many times to those that fill some bytes. After a refusal they are as before.
pub(crate) fn extend_with(
    out: &mut Vec<u8>,
    count: usize,
    additional: usize,
    value: bool,
) -> Result<(), AllocError>
    requires packed { IsPacked out.old.items count }
    requires counted { count + additional < 2 ^ 64 }
    ensures packed { OnOk result (IsPacked out.new.items (count + additional)) }
    ensures added { OnOk result (little_endian out.new.items
        ≡ little_endian out.old.items + 2 ^ count * (if value then 2 ^ additional - 1 else 0)) }
    ensures err { OnErr result (out.new.items ≡ out.old.items) }
{
    if value {
        extend_ones(out, count, additional)?;
        return Ok(());
    }
    extend_zeros(out, count, additional)?;
    Ok(())
}

/// Appends a bit to those that fill some bytes. After a refusal they are as before.
pub(crate) fn push_bit(out: &mut Vec<u8>, count: usize, value: bool) -> Result<(), AllocError>
    requires packed { IsPacked out.old.items count }
    ensures packed { OnOk result (IsPacked out.new.items (count + 1)) }
    ensures added { OnOk result (little_endian out.new.items
        ≡ little_endian out.old.items + 2 ^ count * (if value then 1 else 0)) }
    ensures err { OnErr result (out.new.items ≡ out.old.items) }
{
    let used = count % 8;
    let bit = one_or_zero(value);
    if used == 0 {
        out.push(bit)?;
        return Ok(());
    }
    let last = out.len() - 1;
    or_bits(out, last, used, bit);
    Ok(())
}

fn one_or_zero(value: bool) -> u8
    ensures { result ≡ (if value then 1 else 0) }
{
    value as u8
}
