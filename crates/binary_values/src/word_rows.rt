//! Rows of a word that are appended to decoded texts and byte strings.
ghost use Rattle.std.specs.Prelude.{◌≡◌, ◌≤◌, ◌++◌, [], drop, length, map, unwrap_or, None, Some, IsSome, IfOk, IfErr, IfSome, OnOk};
ghost use Rattle.std.specs.Option.{option_copied};
ghost use Rattle.parquet_page.specs.Levels.{present_count};
ghost use Rattle.parquet_page.specs.ValidityParts.{word_places};
ghost use Rattle.page_decoding.specs.Bytes.{IsCausedByChunks};
ghost use Rattle.page_decoding.specs.Outcome.{Given};
ghost use Rattle.flat_values.specs.Decoded.{marked_cells};
ghost use Rattle.flat_values.specs.FlatLeft.{behind_word, word_outcomes};
ghost use Rattle.binary_values.specs.ByteLeft.{IsAmongBytes, byte_left};
ghost use Rattle.binary_values.specs.ByteStrings.{AreJudged, byte_cell, byte_entries, stored_outcomes};
ghost use Rattle.binary_values.specs.OwnBytes.{AreOwnBytes};

use crate::string_rows::take_stored_rows;
use crate::string_walk::StringWalk;
use crate::{BytePlace, ByteValues, DecodedBytes, Strings};
use columns_core::{Error, Offset};
use flat_values::{Values, mark_rows};
use parquet_page::ValidityWord;

/// Appends what the rows of a word give: the next strings, of which texts are judged together, and nulls.
pub(crate) fn take_marked<W: StringWalk, O: Offset>(
    walk: W,
    bytes: &[u8],
    is_text: bool,
    decoded: &mut DecodedBytes<O>,
    word: ValidityWord,
) -> Result<W, Error>
    requires spelled { IsSome (W.places walk bytes.now) }
    requires enough { present_count (word_places word) ≤ length (unwrap_or (W.places walk bytes.now) []) }
    requires own { let is_own = AreOwnBytes O.greatest is_text decoded.old.is_text in
        is_own decoded.old.strings decoded.old.validity }
    ensures cells { let values = stored_outcomes is_text bytes.now (W.places walk bytes.now) in
        let before = marked_cells (byte_cell decoded.old.is_text) decoded.old.strings decoded.old.validity in
        let after = marked_cells (byte_cell decoded.new.is_text) decoded.new.strings decoded.new.validity in
        OnOk result (map Given after ≡ map Given before ++ word_outcomes word values) }
    ensures rest { let places = unwrap_or (W.places walk bytes.now) [] in
        let count = present_count (word_places word) in
        IfOk result (λ new. W.places new bytes.now ≡ Some (drop count places)) }
    ensures own { let is_own = AreOwnBytes O.greatest is_text decoded.new.is_text in
        OnOk result (is_own decoded.new.strings decoded.new.validity) }
    ensures cause { let values = stored_outcomes is_text bytes.now (W.places walk bytes.now) in
        let before = marked_cells (byte_cell decoded.old.is_text) decoded.old.strings decoded.old.validity in
        IfErr result (IsCausedByChunks (Some O.greatest) None
        (map Given before ++ word_outcomes word values)) }
{
    let held = decoded.strings.len();
    let behind = take_stored_rows(walk, bytes, is_text, &mut decoded.strings, word)?;
    mark_rows(&mut decoded.validity, held, word)?;
    Ok(behind)
}

/// The same run by run, for entries that keys name.
pub(crate) fn take_runs<O: Offset>(
    values: &ByteValues<O>,
    bytes: &[u8],
    dict: Option<&Strings<O>>,
    place: &mut BytePlace,
    decoded: &mut DecodedBytes<O>,
    word: ValidityWord,
) -> Result<(), Error>
    requires over { IsAmongBytes bytes.now place.old }
    requires own_dict { IfSome (option_copied dict) (AreJudged values.now.is_text) }
    requires own { let is_own = AreOwnBytes O.greatest values.now.is_text decoded.old.is_text in
        is_own decoded.old.strings decoded.old.validity }
    requires enough { let entries = byte_entries values.now.is_text (option_copied dict) in
        present_count (word_places word) ≤
        length (byte_left values.now.is_text entries bytes.now place.old) }
    ensures cells { let entries = byte_entries values.now.is_text (option_copied dict.entry) in
        let found = byte_left values.now.is_text entries bytes.now place.old in
        let before = marked_cells (byte_cell decoded.old.is_text) decoded.old.strings decoded.old.validity in
        let after = marked_cells (byte_cell decoded.new.is_text) decoded.new.strings decoded.new.validity in
        OnOk result (map Given after ≡ map Given before ++ word_outcomes word found) }
    ensures left { let entries = byte_entries values.now.is_text (option_copied dict.entry) in
        let found = byte_left values.now.is_text entries bytes.now in
        OnOk result (found place.new ≡ behind_word word (found place.old)) }
    ensures over { OnOk result (IsAmongBytes bytes.now place.new) }
    ensures own { let is_own = AreOwnBytes O.greatest values.now.is_text decoded.new.is_text in
        OnOk result (is_own decoded.new.strings decoded.new.validity) }
    ensures cause { let entries = byte_entries values.now.is_text (option_copied dict.entry) in
        let found = byte_left values.now.is_text entries bytes.now place.old in
        let before = marked_cells (byte_cell decoded.old.is_text) decoded.old.strings decoded.old.validity in
        IfErr result (IsCausedByChunks (Some O.greatest) None
        (map Given before ++ word_outcomes word found)) }
{
    let mut rest = word;
    while let Some((present, rows)) = rest.next_run() {
        if present {
            values.take(bytes, dict, place, decoded, rows)?;
        } else {
            values.push_nulls(decoded, rows)?;
        }
    }
    Ok(())
}
