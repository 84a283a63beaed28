//! Numbers in a variable number of bytes.
ghost use Rattle.std.specs.Prelude.{◌≡◌, ◌<◌, ◌+◌, length, IfOk};
ghost use Rattle.parquet_base.specs.Reading.{Gives, IsEnd};
ghost use Rattle.parquet_base.specs.Varint.{varint, zigzag};

/// The bytes spell no such value.
#[derive(Clone, Copy, Debug, PartialEq, Eq)]
pub struct Unspelled;

/// The most bytes of a varint that are followed by another.
const MOST_FOLLOWED: usize = 9;

/// An unsigned number in ULEB128 form, and the bytes after it.
#[tactic(auto, using(crate::proofs::VarintLemmas::short, crate::proofs::EndLemmas::IsEnd_cons))]
pub fn varint_at(bytes: &[u8]) -> Result<(u64, &[u8]), Unspelled>
    ensures spelled { Gives (λ x. (x.0, x.1.now)) result (varint bytes.now) }
    ensures ends { IfOk result (λ x. IsEnd bytes.now x.1.now) }
    ensures takes { IfOk result (λ x. length x.1.now < length bytes.now) }
{
    match bytes.split_first() {
        Some((byte, rest)) if *byte < 128 => Ok((u64::from(*byte), rest)),
        _ => long_varint_at(bytes),
    }
}

/// The same in a loop, for more than one byte. It is out of line, so that a number of one byte is read where it is wanted.
#[inline(never)]
fn long_varint_at(bytes: &[u8]) -> Result<(u64, &[u8]), Unspelled>
    ensures spelled { Gives (λ x. (x.0, x.1.now)) result (varint bytes.now) }
    ensures ends { IfOk result (λ x. IsEnd bytes.now x.1.now) }
    ensures takes { IfOk result (λ x. length x.1.now < length bytes.now) }
{
    let mut number = 0;
    let mut scale = 1;
    let mut rest = bytes;
    for _ in 0..MOST_FOLLOWED {
        let Some((byte, after)) = rest.split_first() else {
            return Err(Unspelled);
        };
        if *byte < 128 {
            return Ok((number + *byte as u64 * scale, after));
        }
        number += (*byte as u64 - 128) * scale;
        scale *= 128;
        rest = after;
    }
    match rest.split_first() {
        Some((byte, after)) if *byte < 2 => Ok((number + *byte as u64 * scale, after)),
        _ => Err(Unspelled),
    }
}

/// The signed number with this zigzag form.
pub fn from_zigzag(number: u64) -> i64
    ensures { result ≡ zigzag number }
{
    let half = (number / 2) as i64;
    if number % 2 == 0 { half } else { -1 - half }
}
