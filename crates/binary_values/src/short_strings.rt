//! Short strings, joined in a block before they are appended.
ghost use Rattle.std.specs.Prelude.{◌≡◌, ◌+◌, ◌*◌, ◌-◌, ◌≤◌, ◌++◌, ℕ, [], IsTrue, drop, take, length, map, nat_abs, replicate, unwrap_or, Some, IsSome, IfSome};
ghost use Rattle.std.specs.List.{flat_map};
ghost use Rattle.std.specs.Str.{IsAscii};
ghost use Rattle.parquet_encoding.specs.Places.{bytes_in};

use crate::string_walk::StringWalk;
use std::simd::prelude::*;

/// A string of so many bytes at most is short. So many are copied of each, since that takes no call.
pub(crate) const SHORT_BYTES: usize = 16;

/// Few bytes, with zeros behind them.
#[cold]
#[inline(never)]
fn padded(bytes: &[u8]) -> [u8; SHORT_BYTES]
    requires { length bytes.now ≤ 16 }
    ensures { result ≡ bytes.now ++ replicate (16 - length bytes.now) 0 }
{
    let mut window = [0; SHORT_BYTES];
    window[..bytes.len()].copy_from_slice(bytes);
    window
}

/// The first bytes, as many as are copied of a short string, or all, with zeros behind them.
fn first_bytes(bytes: &[u8]) -> u8x16
    ensures front { (long : ℕ) → long ≤ 16 → long ≤ length bytes.now
        → take long result ≡ take long bytes.now }
    ensures counted { length result ≡ 16 }
{
    match bytes.first_chunk::<SHORT_BYTES>() {
        Some(window) => u8x16::from_array(*window),
        None => u8x16::from_array(padded(bytes)),
    }
}

/// Writes a string of the bytes behind the first bytes of a block, if it is short: what was written.
pub(crate) fn write_short(
    block: &mut [u8],
    end: usize,
    bytes: &[u8],
    start: usize,
    long: usize,
) -> Option<[u8; SHORT_BYTES]>
    requires room { end + 16 ≤ length block.old }
    requires within { start + long ≤ length bytes.now }
    ensures written { IfSome result (λ _.
        take (end + long) block.new ≡ take end block.old ++ bytes_in bytes.now (start, long)) }
    ensures copied { IfSome result (λ window. take long window ≡ bytes_in bytes.now (start, long)) }
    ensures short { IfSome result (λ _. long ≤ 16) }
    ensures same { length block.new ≡ length block.old }
{
    if long > SHORT_BYTES {
        return None;
    }
    let window = first_bytes(&bytes[start..]);
    window.copy_to_slice(&mut block[end..]);
    Some(window.to_array())
}

/// Bytes and others that were seen: where these are ASCII together, all of them are.
pub(crate) fn both(seen: u8x16, window: u8x16) -> u8x16
    ensures { IsAscii result → IsAscii seen × IsAscii window }
{
    seen | window
}

pub(crate) fn are_ascii(seen: u8x16) -> bool
    ensures { IsTrue result → IsAscii seen }
{
    seen.to_array().is_ascii()
}

/// Joins the next strings at the front of a block, as many as there is room for lengths, if all of them are short: the place behind
/// them, how many bytes they have, and whether these were seen to be ASCII.
pub(crate) fn join_short<W: StringWalk>(
    walk: W,
    bytes: &[u8],
    block: &mut [u8],
    lengths: &mut [i64],
) -> Option<(W, usize, bool)>
    requires spelled { IsSome (W.places walk bytes.now) }
    requires room { 16 * length lengths.old ≤ length block.old }
    ensures rest { let left = unwrap_or (W.places walk bytes.now) [] in
        IfSome result (λ found. W.places found.0 bytes.now ≡ Some (drop (length lengths.old) left)) }
    ensures lengths { let items = take (length lengths.old) (unwrap_or (W.places walk bytes.now) []) in
        IfSome result (λ _. map nat_abs lengths.new
        ≡ map (λ item. length (bytes_in bytes.now item)) items) }
    ensures joined { let items = take (length lengths.old) (unwrap_or (W.places walk bytes.now) []) in
        IfSome result (λ found. take found.1 block.new ≡ flat_map (bytes_in bytes.now) items) }
    ensures within { IfSome result (λ found. found.1 ≤ length block.new) }
    ensures ascii { IfSome result (λ found. IsTrue found.2 → IsAscii (take found.1 block.new)) }
    ensures same { length lengths.new ≡ length lengths.old }
{
    let mut walk = walk;
    let mut filled = 0;
    let mut seen = u8x16::splat(0);
    for i in 0..lengths.len() {
        let (start, long) = walk.next_string(bytes)?;
        let window = write_short(block, filled, bytes, start, long)?;
        lengths[i] = long as i64;
        seen = both(seen, u8x16::from_array(window));
        filled += long;
    }
    Some((walk, filled, are_ascii(seen)))
}
