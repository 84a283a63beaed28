//! Numbers of the compact protocol.

ghost use Rattle.std.specs.Prelude.{◌≡◌, ◌<◌, ◌+◌, length, IfOk};
ghost use Rattle.parquet_base.specs.Reading.{Gives, IsEnd};
ghost use Rattle.parquet_base.specs.Varint.{varint};
ghost use Rattle.parquet_thrift.specs.Numbers.{signed, signed_byte, raw, bytes_of_length};
ghost use Rattle.parquet_thrift.specs.Values.{list_truth};

use parquet_base::{Unspelled, from_zigzag, varint_at};

/// The end of the bytes that is as long as this one. A slice that comes by way of memory is read again in one piece right after it
/// was written in two, for which processors wait; its length alone comes without waiting.
#[inline(always)]
pub(crate) fn end_of<'a>(bytes: &'a [u8], end: &[u8]) -> &'a [u8]
    requires { IsEnd bytes.now end.now }
    ensures { result.now ≡ end.now }
{
    &bytes[bytes.len() - end.len()..]
}

/// An unsigned number.
#[inline(always)]
pub(crate) fn unsigned_at(bytes: &[u8]) -> Result<(u64, &[u8]), Unspelled>
    ensures spelled { Gives (λ x. (x.0, x.1.now)) result (varint bytes.now) }
    ensures ends { IfOk result (λ x. IsEnd bytes.now x.1.now) }
    ensures takes { IfOk result (λ x. length x.1.now < length bytes.now) }
{
    let (number, rest) = varint_at(bytes)?;
    Ok((number, end_of(bytes, rest)))
}

/// A signed number of 64 bits.
#[tactic(auto, unfolding(crate::specs::Numbers::signed))]
pub(crate) fn i64_at(bytes: &[u8]) -> Result<(i64, &[u8]), Unspelled>
    ensures spelled { Gives (λ x. (x.0, x.1.now)) result (signed 64 bytes.now) }
    ensures ends { IfOk result (λ x. IsEnd bytes.now x.1.now) }
    ensures takes { IfOk result (λ x. length x.1.now < length bytes.now) }
{
    let (number, rest) = unsigned_at(bytes)?;
    Ok((from_zigzag(number), rest))
}

/// A signed number of 32 bits.
#[tactic(auto, unfolding(crate::specs::Numbers::signed))]
pub(crate) fn i32_at(bytes: &[u8]) -> Result<(i32, &[u8]), Unspelled>
    ensures spelled { Gives (λ x. (x.0, x.1.now)) result (signed 32 bytes.now) }
    ensures ends { IfOk result (λ x. IsEnd bytes.now x.1.now) }
    ensures takes { IfOk result (λ x. length x.1.now < length bytes.now) }
{
    let (number, rest) = unsigned_at(bytes)?;
    if number > u32::MAX as u64 {
        return Err(Unspelled);
    }
    Ok((from_zigzag(number) as i32, rest))
}

/// A signed number of 16 bits.
#[tactic(auto, unfolding(crate::specs::Numbers::signed))]
pub(crate) fn i16_at(bytes: &[u8]) -> Result<(i16, &[u8]), Unspelled>
    ensures spelled { Gives (λ x. (x.0, x.1.now)) result (signed 16 bytes.now) }
    ensures ends { IfOk result (λ x. IsEnd bytes.now x.1.now) }
    ensures takes { IfOk result (λ x. length x.1.now < length bytes.now) }
{
    let (number, rest) = unsigned_at(bytes)?;
    if number > u16::MAX as u64 {
        return Err(Unspelled);
    }
    Ok((from_zigzag(number) as i16, rest))
}

/// One raw byte.
#[tactic(auto, unfolding(crate::specs::Numbers::signed_byte))]
pub(crate) fn i8_at(bytes: &[u8]) -> Result<(i8, &[u8]), Unspelled>
    ensures spelled { Gives (λ x. (x.0, x.1.now)) result (signed_byte bytes.now) }
    ensures ends { IfOk result (λ x. IsEnd bytes.now x.1.now) }
    ensures takes { IfOk result (λ x. length x.1.now < length bytes.now) }
{
    match bytes {
        [] => Err(Unspelled),
        [byte, rest @ ..] => Ok((byte.cast_signed(), rest)),
    }
}

/// So many bytes as they stand.
#[tactic(auto, unfolding(crate::specs::Numbers::raw), using(parquet_base::proofs::EndLemmas::IsEnd_drop))]
pub(crate) fn raw_at(bytes: &[u8], count: u64) -> Result<(&[u8], &[u8]), Unspelled>
    ensures spelled { Gives (λ x. (x.0.now, x.1.now)) result (raw count bytes.now) }
    ensures ends { IfOk result (λ x. IsEnd bytes.now x.1.now) }
    ensures takes { IfOk result (λ x. length x.1.now + count ≡ length bytes.now) }
{
    if (bytes.len() as u64) < count {
        return Err(Unspelled);
    }
    Ok(bytes.split_at(count as usize))
}

/// A length and that many bytes, not copied.
#[tactic(auto, unfolding(crate::specs::Numbers::bytes_of_length), using(parquet_base::proofs::EndLemmas::IsEnd_through))]
pub(crate) fn binary_at(bytes: &[u8]) -> Result<(&[u8], &[u8]), Unspelled>
    ensures spelled { Gives (λ x. (x.0.now, x.1.now)) result (bytes_of_length bytes.now) }
    ensures ends { IfOk result (λ x. IsEnd bytes.now x.1.now) }
    ensures takes { IfOk result (λ x. length x.1.now < length bytes.now) }
{
    let (length, rest) = unsigned_at(bytes)?;
    raw_at(rest, length)
}

/// A truth value in a list or map.
#[tactic(auto, unfolding(crate::specs::Values::list_truth))]
pub(crate) fn bool_at(bytes: &[u8]) -> Result<(bool, &[u8]), Unspelled>
    ensures spelled { Gives (λ x. (x.0, x.1.now)) result (list_truth bytes.now) }
    ensures ends { IfOk result (λ x. IsEnd bytes.now x.1.now) }
    ensures takes { IfOk result (λ x. length x.1.now < length bytes.now) }
{
    match bytes {
        [byte, rest @ ..] if *byte <= 2 => Ok((*byte == 1, rest)),
        _ => Err(Unspelled),
    }
}
