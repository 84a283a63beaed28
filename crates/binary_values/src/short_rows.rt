//! Short strings of the rows of a word, joined in a block before they are appended.
ghost use Rattle.std.specs.Prelude.{◌≡◌, ◌+◌, ◌*◌, ◌<◌, ◌≤◌, ◌/◌, ◌%◌, ◌^◌, [], IsTrue, drop, take, length, map, pos, replicate, unwrap_or, Some, IsSome, IfSome};
ghost use Rattle.std.specs.List.{flat_map};
ghost use Rattle.std.specs.Str.{IsAscii};
ghost use Rattle.parquet_encoding.specs.Places.{bytes_in};
ghost use Rattle.parquet_page.specs.Levels.{present_count};
ghost use Rattle.parquet_page.specs.ValidityParts.{word_places};
ghost use Rattle.flat_values.specs.Decoded.{spread_over};

use crate::short_strings::{are_ascii, both, write_short};
use crate::string_walk::StringWalk;
use parquet_page::ValidityWord;
use std::simd::prelude::*;

/// The first row of some that have a value, by its bit, and the bits of the others.
fn first_row(bits: u32) -> (usize, u32)
    requires { 0 < bits }
    ensures few { result.0 < 32 }
    ensures null { bits % 2 ^ result.0 ≡ 0 }
    ensures present { bits / 2 ^ result.0 % 2 ≡ 1 }
    ensures others { result.1 + 2 ^ result.0 ≡ bits }
{
    (bits.trailing_zeros() as usize, bits & (bits - 1))
}

/// Joins the next strings, as many as rows of a word have one, at the front of a block, and writes the length of each row, if all of them are
/// short: the place behind them, how many bytes they have, and whether these were seen to be ASCII.
pub(crate) fn join_word<W: StringWalk>(
    walk: W,
    bytes: &[u8],
    word: ValidityWord,
    block: &mut [u8],
    lengths: &mut [i64],
) -> Option<(W, usize, bool)>
    requires spelled { IsSome (W.places walk bytes.now) }
    requires room { 16 * present_count (word_places word) ≤ length block.old }
    requires none { lengths.old ≡ replicate word.rows (pos 0) }
    ensures rest { let left = unwrap_or (W.places walk bytes.now) [] in
        let count = present_count (word_places word) in
        IfSome result (λ found. W.places found.0 bytes.now ≡ Some (drop count left)) }
    ensures lengths { let left = unwrap_or (W.places walk bytes.now) [] in
        let items = take (present_count (word_places word)) left in
        let each = map (λ item. pos (length (bytes_in bytes.now item))) items in
        IfSome result (λ _. lengths.new ≡ spread_over (pos 0) (word_places word) each) }
    ensures joined { let left = unwrap_or (W.places walk bytes.now) [] in
        let items = take (present_count (word_places word)) left in
        IfSome result (λ found. take found.1 block.new ≡ flat_map (bytes_in bytes.now) items) }
    ensures within { IfSome result (λ found. found.1 ≤ length block.new) }
    ensures ascii { IfSome result (λ found. IsTrue found.2 → IsAscii (take found.1 block.new)) }
{
    let mut walk = walk;
    let mut bits = word.bits;
    let mut filled = 0;
    let mut seen = u8x16::splat(0);
    for _ in 0..word.present() {
        let (row, others) = first_row(bits);
        let (start, long) = walk.next_string(bytes)?;
        let window = write_short(block, filled, bytes, start, long)?;
        lengths[row] = long as i64;
        seen = both(seen, u8x16::from_array(window));
        bits = others;
        filled += long;
    }
    Some((walk, filled, are_ascii(seen)))
}
