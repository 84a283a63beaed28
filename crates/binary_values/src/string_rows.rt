//! Byte strings of a page, spread over the rows of a word that have one.
ghost use Rattle.std.specs.Prelude.{◌≡◌, ◌⊎◌, ◌≤◌, ◌<◌, ◌+◌, ◌++◌, [], drop, take, length, map, sum_by, unwrap_or, Some, IsSome, IfOk, IfErr, OnOk};
ghost use Rattle.columns_core.specs.Causes.{IsWantOfMemory};
ghost use Rattle.parquet_encoding.specs.Places.{bytes_in};
ghost use Rattle.parquet_page.specs.Levels.{present_count};
ghost use Rattle.parquet_page.specs.ValidityParts.{word_places};
ghost use Rattle.flat_values.specs.Decoded.{spread_over};
ghost use Rattle.binary_values.specs.ByteStrings.{AreJudged, IsCausedByBytes, stored_outcomes};

use crate::Strings;
use crate::short_rows::join_word;
use crate::short_strings::SHORT_BYTES;
use crate::string_walk::{StringWalk, are_judged, are_judged_from};
use columns_core::{Error, Offset, Part};
use parquet_page::ValidityWord;

/// The most rows of a word.
const WORD_ROWS: usize = 32;

/// Room for as many short strings, the last of which is copied with what is behind it.
const WORD_BYTES: usize = WORD_ROWS * SHORT_BYTES;

/// Appends the next strings as they stand for the rows of a word that have one, and empty ones for the others.
fn take_rows<W: StringWalk, O: Offset>(
    walk: W,
    bytes: &[u8],
    strings: &mut Strings<O>,
    word: ValidityWord,
) -> Result<W, Error>
    requires spelled { IsSome (W.places walk bytes.now) }
    requires enough { present_count (word_places word) ≤ length (unwrap_or (W.places walk bytes.now) []) }
    requires fits { sum_by length strings.old ≤ O.greatest }
    ensures added { let places = unwrap_or (W.places walk bytes.now) [] in
        let stored = map (bytes_in bytes.now) (take (present_count (word_places word)) places) in
        OnOk result (strings.new ≡ strings.old ++ spread_over [] (word_places word) stored) }
    ensures rest { let places = unwrap_or (W.places walk bytes.now) [] in
        let count = present_count (word_places word) in
        IfOk result (λ new. W.places new bytes.now ≡ Some (drop count places)) }
    ensures fits { OnOk result (sum_by length strings.new ≤ O.greatest) }
    ensures err { let places = unwrap_or (W.places walk bytes.now) [] in
        let stored = map (bytes_in bytes.now) (take (present_count (word_places word)) places) in
        let sum = sum_by length strings.old + sum_by length stored in
        IfErr result (λ e. IsWantOfMemory e ⊎ ((e ≡ Error.Overflow) × (O.greatest < sum))) }
{
    let mut block = [0; WORD_BYTES];
    let mut lengths = [0; WORD_ROWS];
    match join_word(walk, bytes, word, &mut block, &mut lengths[..word.rows]) {
        None => take_each_row(walk, bytes, strings, word),
        Some((behind, end, are_ascii)) => {
            strings.push_joined(&block[..end], &lengths[..word.rows], are_ascii)?;
            Ok(behind)
        }
    }
}

/// The same row by row.
fn take_each_row<W: StringWalk, O: Offset>(
    walk: W,
    bytes: &[u8],
    strings: &mut Strings<O>,
    word: ValidityWord,
) -> Result<W, Error>
    requires spelled { IsSome (W.places walk bytes.now) }
    requires enough { present_count (word_places word) ≤ length (unwrap_or (W.places walk bytes.now) []) }
    requires fits { sum_by length strings.old ≤ O.greatest }
    ensures added { let places = unwrap_or (W.places walk bytes.now) [] in
        let stored = map (bytes_in bytes.now) (take (present_count (word_places word)) places) in
        OnOk result (strings.new ≡ strings.old ++ spread_over [] (word_places word) stored) }
    ensures rest { let places = unwrap_or (W.places walk bytes.now) [] in
        let count = present_count (word_places word) in
        IfOk result (λ new. W.places new bytes.now ≡ Some (drop count places)) }
    ensures fits { OnOk result (sum_by length strings.new ≤ O.greatest) }
    ensures err { let places = unwrap_or (W.places walk bytes.now) [] in
        let stored = map (bytes_in bytes.now) (take (present_count (word_places word)) places) in
        let sum = sum_by length strings.old + sum_by length stored in
        IfErr result (λ e. IsWantOfMemory e ⊎ ((e ≡ Error.Overflow) × (O.greatest < sum))) }
{
    let mut walk = walk;
    for row in 0..word.rows {
        if word.bits >> row & 1 == 1 {
            let Some((start, length)) = walk.next_string(bytes) else {
                unreachable!()
            };
            strings.push(&bytes[start..start + length])?;
        } else {
            strings.push_end()?;
        }
    }
    Ok(walk)
}

/// The same, where texts are judged.
pub(crate) fn take_stored_rows<W: StringWalk, O: Offset>(
    walk: W,
    bytes: &[u8],
    is_text: bool,
    strings: &mut Strings<O>,
    word: ValidityWord,
) -> Result<W, Error>
    requires spelled { IsSome (W.places walk bytes.now) }
    requires enough { present_count (word_places word) ≤ length (unwrap_or (W.places walk bytes.now) []) }
    requires fits { sum_by length strings.old ≤ O.greatest }
    requires judged { AreJudged is_text strings.old }
    ensures added { let places = unwrap_or (W.places walk bytes.now) [] in
        let stored = map (bytes_in bytes.now) (take (present_count (word_places word)) places) in
        OnOk result (strings.new ≡ strings.old ++ spread_over [] (word_places word) stored) }
    ensures rest { let places = unwrap_or (W.places walk bytes.now) [] in
        let count = present_count (word_places word) in
        IfOk result (λ new. W.places new bytes.now ≡ Some (drop count places)) }
    ensures fits { OnOk result (sum_by length strings.new ≤ O.greatest) }
    ensures texts { let places = unwrap_or (W.places walk bytes.now) [] in
        let stored = map (bytes_in bytes.now) (take (present_count (word_places word)) places) in
        OnOk result (AreJudged is_text stored) }
    ensures judged { OnOk result (AreJudged is_text strings.new) }
    ensures cause { let values = stored_outcomes is_text bytes.now (W.places walk bytes.now) in
        let rows = take (present_count (word_places word)) values in
        IfErr result (IsCausedByBytes O.greatest strings.old rows) }
{
    let held = strings.len();
    match take_rows(walk, bytes, strings, word) {
        Ok(behind) => {
            if are_judged_from(strings, is_text, held) {
                Ok(behind)
            } else {
                Err(Error::OutOfSpec(Part::Values))
            }
        }
        Err(Error::Overflow) => {
            // A text that is none is told of first, since it has no bytes.
            if are_judged(walk, bytes, is_text, word.present()) {
                Err(Error::Overflow)
            } else {
                Err(Error::OutOfSpec(Part::Values))
            }
        }
        Err(error) => Err(error),
    }
}
