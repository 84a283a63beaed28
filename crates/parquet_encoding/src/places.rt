//! Numbers at places.
ghost use Rattle.std.specs.Prelude.{◌≡◌, ◌≤◌, length, drop, None, IfOk, OnErr};
ghost use Rattle.parquet_base.specs.Varint.{varint};
ghost use Rattle.parquet_encoding.specs.Places.{VarintAt};

use parquet_base::{Unspelled, varint_at};

/// The number in a variable number of bytes that stands at a place, and the place after it.
pub(crate) fn number_at(bytes: &[u8], place: usize) -> Result<(u64, usize), Unspelled>
    requires { place ≤ length bytes.now }
    ensures ok { IfOk result (VarintAt bytes.now place) }
    ensures err { OnErr result (varint (drop place bytes.now) ≡ None) }
{
    let (number, rest) = varint_at(&bytes[place..])?;
    Ok((number, bytes.len() - rest.len()))
}
