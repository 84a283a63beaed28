//! Bits in bytes, read by whole bytes.
ghost use Rattle.std.specs.Prelude.{◌≡◌, ◌<◌, ◌≤◌, ◌+◌, ◌-◌, ◌*◌, ◌/◌, ◌%◌, ◌^◌, ◌==◌, length, slice_index, ℕ};
ghost use Rattle.parquet_base.specs.Bytes.{little_endian};

pub(crate) fn bit_at(bytes: &[u8], place: usize) -> bool
    requires { place < 8 * length bytes.now }
    ensures { result ≡ (little_endian bytes.now / 2 ^ place % 2 == 1) }
{
    bytes[place / 8] >> (place % 8) & 1 == 1
}

/// The eight bits from a place on; behind the last byte they are 0.
pub(crate) fn byte_at(bytes: &[u8], place: usize) -> u8
    requires { place < 8 * length bytes.now }
    ensures { result ≡ little_endian bytes.now / 2 ^ place % 256 }
{
    let at = place / 8;
    let low = bytes[at] as u16;
    let high = byte_or_zero(bytes, at + 1) as u16;
    ((high << 8 | low) >> (place % 8) & 0xff) as u8
}

fn byte_or_zero(bytes: &[u8], at: usize) -> u8
    ensures { result ≡ slice_index bytes.now at }
{
    match bytes.get(at) {
        None => 0,
        Some(byte) => *byte,
    }
}

/// The bytes from the one on that has the bit at a place, and the place of that bit in it.
pub(crate) fn from_bit(bytes: &[u8], place: usize) -> (&[u8], usize)
    requires { place ≤ 8 * length bytes.now }
    ensures same { (n : ℕ) → little_endian result.0.now / 2 ^ (result.1 + n)
        ≡ little_endian bytes.now / 2 ^ (place + n) }
    ensures place { result.1 ≡ place % 8 }
    ensures len { length result.0.now + place / 8 ≡ length bytes.now }
{
    (&bytes[place / 8..], place % 8)
}

/// A byte whose lowest bits are 1.
pub(crate) fn low_ones(count: usize) -> u8
    requires { count < 8 }
    ensures { result ≡ 2 ^ count - 1 }
{
    (1 << count) - 1
}
