//! How values are appended to decoded values, one behind the other.
ghost use Rattle.std.specs.Prelude.{◌≡◌, ◌≤◌, ◌++◌, true, ℕ, List, [], drop, length, map, replicate, sum_by, take, Option, None, IfOk, IfErr, IfSome, OnOk};
ghost use Rattle.std.specs.Option.{option_copied};
ghost use Rattle.columns_core.specs.Causes.{IsWantOfMemory};
ghost use Rattle.columns_core.specs.declared.cell.Cell.{Null};
ghost use Rattle.parquet_page.specs.Levels.{present_count};
ghost use Rattle.parquet_page.specs.ValidityParts.{word_places};
ghost use Rattle.page_decoding.specs.Bytes.{IsCausedByChunks, cell_bytes, fits_most};
ghost use Rattle.page_decoding.specs.Outcome.{Given, Outcome};
ghost use Rattle.flat_values.specs.FlatLeft.{behind_word, word_outcomes};

use columns_core::Error;
use page_decoding::DecodedState;
use parquet_page::ValidityWord;
use std::alloc::Global;

/// Appends what the values of a page are, or become, to decoded values.
pub trait Values {
    /// A place among the values of a page.
    type Place: Drop;

    /// The entries of a dictionary.
    type Dict: Drop;

    /// What values became.
    type Decoded: DecodedState + Drop;

    /// The decoded values that are its own.
    ghost is_own: { Self → Self.Decoded → Type 0 };

    /// The dictionaries that are its own.
    ghost is_own_dict: { Self → Self.Dict → Type 0 };

    /// The place is one among the values in these bytes.
    ghost is_over: { Self → List ℕ → Self.Place → Type 0 };

    /// What the values give that are left.
    ghost left: { Self → Option Self.Dict → List ℕ → Self.Place → List Outcome };

    /// How many bytes the texts and byte strings of decoded values have together at most, if there is a most.
    ghost most_bytes: { Self → Option ℕ };

    /// Appends the next `count` values, or all that are left.
    fn take(
        &self,
        bytes: &[u8],
        dict: Option<&Self::Dict>,
        place: &mut Self::Place,
        decoded: &mut Self::Decoded,
        count: usize,
    ) -> Result<(), Error>
        requires over { is_over self.now bytes.now place.old }
        requires own_dict { IfSome (option_copied dict) (is_own_dict self.now) }
        requires own { is_own self.now decoded.old }
        ensures cells { let values = left self.now (option_copied dict.entry) bytes.now place.old in
            let shown = Self.Decoded.shown in
            OnOk result (map Given (shown decoded.new) ≡
            map Given (shown decoded.old) ++ take count values) }
        ensures left { let values = left self.now (option_copied dict.entry) bytes.now in
            OnOk result (values place.new ≡ drop count (values place.old)) }
        ensures over { OnOk result (is_over self.now bytes.now place.new) }
        ensures own { OnOk result (is_own self.now decoded.new) }
        ensures cause { let values = left self.now (option_copied dict.entry) bytes.now place.old in
            let rows = map Given (Self.Decoded.shown decoded.old) ++ take count values in
            IfErr result (IsCausedByChunks (most_bytes self.now) None rows) };

    /// Appends what the rows of a word give: their values, of which there are enough, and nulls. After a refusal some of the rows may be
    /// there.
    fn take_word(
        &self,
        bytes: &[u8],
        dict: Option<&Self::Dict>,
        place: &mut Self::Place,
        decoded: &mut Self::Decoded,
        word: ValidityWord,
    ) -> Result<(), Error>
        requires over { is_over self.now bytes.now place.old }
        requires own_dict { IfSome (option_copied dict) (is_own_dict self.now) }
        requires own { is_own self.now decoded.old }
        requires enough { let values = left self.now (option_copied dict) bytes.now place.old in
            present_count (word_places word) ≤ length values }
        ensures cells { let values = left self.now (option_copied dict.entry) bytes.now place.old in
            let shown = Self.Decoded.shown in
            OnOk result (map Given (shown decoded.new)
            ≡ map Given (shown decoded.old) ++ word_outcomes word values) }
        ensures left { let values = left self.now (option_copied dict.entry) bytes.now in
            OnOk result (values place.new ≡ behind_word word (values place.old)) }
        ensures over { OnOk result (is_over self.now bytes.now place.new) }
        ensures own { OnOk result (is_own self.now decoded.new) }
        ensures cause { let values = left self.now (option_copied dict.entry) bytes.now place.old in
            let rows = map Given (Self.Decoded.shown decoded.old) ++ word_outcomes word values in
            IfErr result (IsCausedByChunks (most_bytes self.now) None rows) }
    {
        let mut rest = word;
        while let Some((present, rows)) = rest.next_run() {
            if present {
                self.take(bytes, dict, place, decoded, rows)?;
            } else {
                self.push_nulls(decoded, rows)?;
            }
        }
        Ok(())
    }

    /// Passes over the next `count` values, or all that are left.
    fn skip(&self, bytes: &[u8], place: &mut Self::Place, count: usize)
        requires over { is_over self.now bytes.now place.old }
        ensures left { let values = λ (dict : Option Self.Dict)
            (place : Self.Place). left self.now dict bytes.now place in
            (dict : Option Self.Dict) → values dict place.new ≡ drop count (values dict place.old) }
        ensures over { is_over self.now bytes.now place.new };

    /// Appends so many nulls.
    fn push_nulls(&self, decoded: &mut Self::Decoded, count: usize) -> Result<(), Error>
        requires own { is_own self.now decoded.old }
        ensures cells { OnOk result (Self.Decoded.shown decoded.new
            ≡ Self.Decoded.shown decoded.old ++ replicate count Null) }
        ensures own { OnOk result (is_own self.now decoded.new) }
        ensures memory { IfErr result IsWantOfMemory };

    /// No values yet, with room for so many.
    fn with_capacity(&self, alloc: Global, capacity: usize) -> Result<Self::Decoded, Error>
        ensures empty { IfOk result (λ decoded. Self.Decoded.shown decoded ≡ []) }
        ensures own { IfOk result (is_own self.now) }
        ensures memory { IfErr result IsWantOfMemory };

    /// The bytes of decoded values of its own fit.
    ghost own_fits: { (values : Self) (decoded : Self.Decoded) → is_own values decoded →
        fits_most (most_bytes values) (sum_by cell_bytes (Self.Decoded.shown decoded)) ≡ true };
}
