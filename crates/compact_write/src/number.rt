//! Numbers and byte strings at the end of bytes.

ghost use Rattle.std.specs.Prelude.{◌≡◌};
ghost use Rattle.compact_write.specs.Calls.{Writes};
ghost use Rattle.compact_write.specs.Written.{binary_bytes, signed_bytes, varint_bytes, zigzag_of};

use std::alloc::AllocError;

/// Seven bits in each byte, the lowest first.
#[tactic(auto, using(crate::proofs::NumberLemmas::write_steps))]
pub fn write_varint(out: &mut Vec<u8>, number: u64) -> Result<(), AllocError>
    ensures written { Writes (varint_bytes number) out.old result out.new }
{
    let mut left = number;
    while left >= 128 {
        out.push((left % 128) as u8 + 128)?;
        left /= 128;
    }
    out.push(left as u8)?;
    Ok(())
}

/// 0, -1, 1, -2, 2 and on.
fn zigzag(number: i64) -> u64
    ensures { result ≡ zigzag_of number }
{
    if number >= 0 {
        number as u64 * 2
    } else {
        !number as u64 * 2 + 1
    }
}

#[tactic(auto, unfolding(crate::specs::Written::signed_bytes))]
pub fn write_signed(out: &mut Vec<u8>, number: i64) -> Result<(), AllocError>
    ensures written { Writes (signed_bytes number) out.old result out.new }
{
    write_varint(out, zigzag(number))
}

/// A length, and the bytes.
#[tactic(auto, unfolding(crate::specs::Written::binary_bytes))]
pub fn write_binary(out: &mut Vec<u8>, bytes: &[u8]) -> Result<(), AllocError>
    ensures written { Writes (binary_bytes bytes.now) out.old result out.new }
{
    write_varint(out, bytes.len() as u64)?;
    out.extend_from_slice(bytes)?;
    Ok(())
}
