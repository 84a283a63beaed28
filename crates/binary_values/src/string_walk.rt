//! Byte strings of a page, one after another.
ghost use Rattle.std.specs.Prelude.{◌≡◌, ◌⊎◌, ◌↔◌, ◌≤◌, ◌<◌, ◌+◌, ◌*◌, ◌++◌, ℕ, IsTrue, IsUtf8, All, List, [], drop, take, length, map, sum_by, slice_get, unwrap_or, Option, Some, IsSome, IfOk, IfErr, IfSome, OnOk};
ghost use Rattle.columns_core.specs.Causes.{IsWantOfMemory, Overflow, cause_of};
ghost use Rattle.parquet_encoding.specs.Places.{bytes_in};
ghost use Rattle.page_decoding.specs.Outcome.{causes_in};
ghost use Rattle.flat_values.specs.Added.{Adds};
ghost use Rattle.binary_values.specs.ByteStrings.{AreJudged, IsCausedByBytes, byte_cell, stored_outcomes};

use crate::Strings;
use crate::short_strings::{SHORT_BYTES, join_short};
use columns_core::{Error, Offset, Part};
use parquet_encoding::{DeltaLength, PlainBytes};

/// How many strings are looked at together.
const CHUNK: usize = 64;

/// Fewer strings are taken one by one: to clear room for a chunk takes longer.
const FEW: usize = 8;

/// Room for as many short strings.
const CHUNK_BYTES: usize = CHUNK * SHORT_BYTES;

/// Walks byte strings that stand in the bytes which are handed to each call.
pub trait StringWalk: Copy {
    /// Where the strings that are left stand; none where the bytes are others.
    ghost places: { Self → List ℕ → Option (List (ℕ × ℕ)) };

    /// Where the next string stands: its start and its length.
    fn next_string(&mut self, bytes: &[u8]) -> Option<(usize, usize)>
        requires { IsSome (places self.old bytes.now) }
        ensures value { result ≡ slice_get (unwrap_or (places self.old bytes.now) []) 0 }
        ensures within { IfSome result (λ place. place.0 + place.1 ≤ length bytes.now) }
        ensures rest { places self.new bytes.now ≡
            Some (drop 1 (unwrap_or (places self.old bytes.now) [])) };
}

/// Takes byte strings out of the bytes that it walks over.
pub trait TakeStrings: StringWalk {
    /// Appends the next strings as they stand, at most so many: the place behind them.
    fn take_strings<O: Offset>(
        self,
        bytes: &[u8],
        strings: &mut Strings<O>,
        count: usize,
    ) -> Result<Self, Error>
        requires spelled { IsSome (Self.places self bytes.now) }
        requires fits { sum_by length strings.old ≤ O.greatest }
        ensures added { let left = unwrap_or (Self.places self bytes.now) [] in
            let items = map (bytes_in bytes.now) (take count left) in
            OnOk result (strings.new ≡ strings.old ++ items) }
        ensures rest { let left = unwrap_or (Self.places self bytes.now) [] in
            IfOk result (λ new. Self.places new bytes.now ≡ Some (drop count left)) }
        ensures fits { OnOk result (sum_by length strings.new ≤ O.greatest) }
        ensures err { let left = unwrap_or (Self.places self bytes.now) [] in
            let items = map (bytes_in bytes.now) (take count left) in
            let sum = sum_by length strings.old + sum_by length items in
            IfErr result (λ e. IsWantOfMemory e ⊎ ((e ≡ Error.Overflow) × (O.greatest < sum))) };
}

impl StringWalk for PlainBytes {
    ghost use Rattle.parquet_encoding.specs.PlainLeft.{strings_left};

    ghost places = { strings_left };

    fn next_string(&mut self, bytes: &[u8]) -> Option<(usize, usize)> {
        self.next(bytes)
    }
}

impl TakeStrings for PlainBytes {
    fn take_strings<O: Offset>(
        self,
        bytes: &[u8],
        strings: &mut Strings<O>,
        count: usize,
    ) -> Result<PlainBytes, Error> {
        if count < FEW {
            return take_each(self, bytes, strings, count);
        }
        let mut walk = self;
        let mut left = count;
        let mut block = [0; CHUNK_BYTES];
        let mut lengths = [0; CHUNK];
        while left > 0 {
            let many = left.min(CHUNK);
            let held = strings.len();
            walk = take_chunk(walk, bytes, strings, &mut block, &mut lengths[..many])?;
            if strings.len() - held < many {
                return Ok(walk);
            }
            left -= many;
        }
        Ok(walk)
    }
}

impl StringWalk for DeltaLength {
    ghost use Rattle.parquet_encoding.specs.JoinedLeft.{joined_left};

    ghost places = { joined_left };

    fn next_string(&mut self, bytes: &[u8]) -> Option<(usize, usize)> {
        self.next(bytes)
    }
}

impl TakeStrings for DeltaLength {
    fn take_strings<O: Offset>(
        self,
        bytes: &[u8],
        strings: &mut Strings<O>,
        count: usize,
    ) -> Result<DeltaLength, Error> {
        let mut walk = self;
        let mut left = count;
        let mut lengths = [0; CHUNK];
        while left > 0 {
            let room = &mut lengths[..left.min(CHUNK)];
            let (found, joined) = walk.take(bytes, room);
            if found == 0 {
                return Ok(walk);
            }
            strings.push_joined(joined, &room[..found], false)?;
            left -= found;
        }
        Ok(walk)
    }
}

/// Appends the next strings one by one, at most so many.
fn take_each<W: StringWalk, O: Offset>(
    walk: W,
    bytes: &[u8],
    strings: &mut Strings<O>,
    count: usize,
) -> Result<W, Error>
    requires spelled { IsSome (W.places walk bytes.now) }
    requires fits { sum_by length strings.old ≤ O.greatest }
    ensures added { let left = unwrap_or (W.places walk bytes.now) [] in
        let items = map (bytes_in bytes.now) (take count left) in
        OnOk result (strings.new ≡ strings.old ++ items) }
    ensures rest { let left = unwrap_or (W.places walk bytes.now) [] in
        IfOk result (λ new. W.places new bytes.now ≡ Some (drop count left)) }
    ensures fits { OnOk result (sum_by length strings.new ≤ O.greatest) }
    ensures err { let left = unwrap_or (W.places walk bytes.now) [] in
        let items = map (bytes_in bytes.now) (take count left) in
        let sum = sum_by length strings.old + sum_by length items in
        IfErr result (λ e. IsWantOfMemory e ⊎ ((e ≡ Error.Overflow) × (O.greatest < sum))) }
{
    let mut walk = walk;
    for _ in 0..count {
        let Some((start, length)) = walk.next_string(bytes) else {
            return Ok(walk);
        };
        strings.push(&bytes[start..start + length])?;
    }
    Ok(walk)
}

/// Appends the next strings, at most as many as there is room for lengths: together where all of them are short. It stands by itself, so that
/// its loops have the registers.
#[inline(never)]
fn take_chunk<W: StringWalk, O: Offset>(
    walk: W,
    bytes: &[u8],
    strings: &mut Strings<O>,
    block: &mut [u8],
    lengths: &mut [i64],
) -> Result<W, Error>
    requires spelled { IsSome (W.places walk bytes.now) }
    requires fits { sum_by length strings.old ≤ O.greatest }
    requires room { 16 * length lengths.old ≤ length block.old }
    ensures added { let left = unwrap_or (W.places walk bytes.now) [] in
        let items = map (bytes_in bytes.now) (take (length lengths.old) left) in
        OnOk result (strings.new ≡ strings.old ++ items) }
    ensures rest { let left = unwrap_or (W.places walk bytes.now) [] in
        IfOk result (λ new. W.places new bytes.now ≡ Some (drop (length lengths.old) left)) }
    ensures fits { OnOk result (sum_by length strings.new ≤ O.greatest) }
    ensures err { let left = unwrap_or (W.places walk bytes.now) [] in
        let items = map (bytes_in bytes.now) (take (length lengths.old) left) in
        let sum = sum_by length strings.old + sum_by length items in
        IfErr result (λ e. IsWantOfMemory e ⊎ ((e ≡ Error.Overflow) × (O.greatest < sum))) }
{
    match join_short(walk, bytes, block, lengths) {
        None => take_each(walk, bytes, strings, lengths.len()),
        Some((behind, end, are_ascii)) => {
            strings.push_joined(&block[..end], lengths, are_ascii)?;
            Ok(behind)
        }
    }
}

fn is_text(bytes: &[u8]) -> bool
    ensures { IsTrue result ↔ IsUtf8 bytes.now }
{
    match simdutf8::basic::from_utf8(bytes) {
        Err(_) => false,
        Ok(_) => true,
    }
}

/// Whether the next strings are texts, at most so many.
fn are_texts<W: StringWalk>(walk: W, bytes: &[u8], count: usize) -> bool
    requires { IsSome (W.places walk bytes.now) }
    ensures { let places = unwrap_or (W.places walk bytes.now) [] in
        IsTrue result ↔ All IsUtf8 (map (bytes_in bytes.now) (take count places)) }
{
    let mut walk = walk;
    for _ in 0..count {
        let Some((start, length)) = walk.next_string(bytes) else {
            return true;
        };
        if !is_text(&bytes[start..start + length]) {
            return false;
        }
    }
    true
}

/// Whether the next strings, at most so many, are texts where they have to be.
pub(crate) fn are_judged<W: StringWalk>(walk: W, bytes: &[u8], is_text: bool, count: usize) -> bool
    requires { IsSome (W.places walk bytes.now) }
    ensures { let places = unwrap_or (W.places walk bytes.now) [] in
        IsTrue result ↔ AreJudged is_text (map (bytes_in bytes.now) (take count places)) }
{
    !is_text || are_texts(walk, bytes, count)
}

/// Whether the strings behind the first `from` are texts where they have to be.
pub(crate) fn are_judged_from<O: Offset>(strings: &Strings<O>, is_text: bool, from: usize) -> bool
    requires { from ≤ length strings.now }
    ensures { IsTrue result ↔ AreJudged is_text (drop from strings.now) }
{
    !is_text || strings.are_texts_from(from)
}

/// Appends the next strings, at most so many, of which texts are judged.
pub(crate) fn take_stored<W: TakeStrings, O: Offset>(
    walk: W,
    bytes: &[u8],
    is_text: bool,
    strings: &mut Strings<O>,
    count: usize,
    part: Part,
) -> Result<W, Error>
    requires spelled { IsSome (W.places walk bytes.now) }
    requires fits { sum_by length strings.old ≤ O.greatest }
    requires judged { AreJudged is_text strings.old }
    ensures added { let rows = take count (stored_outcomes is_text bytes.now (W.places walk bytes.now)) in
        OnOk result (Adds (byte_cell is_text) strings.old strings.new rows) }
    ensures rest { let places = unwrap_or (W.places walk bytes.now) [] in
        IfOk result (λ new. W.places new bytes.now ≡ Some (drop count places)) }
    ensures fits { OnOk result (sum_by length strings.new ≤ O.greatest) }
    ensures judged { OnOk result (AreJudged is_text strings.new) }
    ensures cause { let rows = take count (stored_outcomes is_text bytes.now (W.places walk bytes.now)) in
        IfErr result (IsCausedByBytes O.greatest strings.old rows) }
    ensures whole { let rows = take count (stored_outcomes is_text bytes.now (W.places walk bytes.now)) in
        IfErr result (λ e. cause_of e ≡ Some Overflow → causes_in rows ≡ []) }
{
    let held = strings.len();
    match walk.take_strings(bytes, strings, count) {
        Ok(behind) => {
            if are_judged_from(strings, is_text, held) {
                Ok(behind)
            } else {
                Err(Error::OutOfSpec(part))
            }
        }
        Err(Error::Overflow) => {
            // A text that is none is told of first, since it has no bytes.
            if are_judged(walk, bytes, is_text, count) {
                Err(Error::Overflow)
            } else {
                Err(Error::OutOfSpec(part))
            }
        }
        Err(error) => Err(error),
    }
}
