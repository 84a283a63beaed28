//! Decoders of pages.
ghost use Rattle.std.specs.Prelude.{◌≡◌, ℕ, true, List, [], ◌++◌, length, take, drop, map, sum_by, Option, None, Result, Ok, IfOk, IfErr, OnOk, IfSome, option_map};
ghost use Rattle.std.specs.Option.{option_copied};
ghost use Rattle.columns_core.specs.Causes.{Cause, ComesOf, TellsOf};
ghost use Rattle.columns_core.specs.declared.cell.Cell.{Cell};
ghost use Rattle.parquet_page.specs.Content.{DataContent, DataOf, DictContent, data_content, dict_content, is_shaped};
ghost use Rattle.page_decoding.specs.Bytes.{IsCausedByChunks, cell_bytes, fits_most};
ghost use Rattle.page_decoding.specs.Outcome.{Given, Outcome, causes_in, refusal_of};

use columns_core::Error;
use parquet_page::{DataPage, DictPage};
use std::alloc::Global;

/// Values that were decoded.
pub trait DecodedState {
    /// The cells that they are.
    ghost shown: { Self → List Cell };

    fn len(&self) -> usize
        ensures { result ≡ length (shown self.now) };
}

/// Turns pages into decoded values.
pub trait Decoder {
    type State: Drop;

    type Dict: Drop;

    type DecodedState: DecodedState + Drop;

    /// The entries of a dictionary page, or what is wrong with it.
    ghost entries: { Self → DictContent → Result (List Cell) (List Cause) };

    /// What the selected places of a data page give, over the entries of a dictionary.
    ghost outcomes: { Self → Option (List Cell) → DataContent → List Outcome };

    /// The pages that may be handed to the decoder.
    ghost takes: { Self → DataContent → Type 0 };

    /// The entries that a dictionary holds.
    ghost dict_shown: { Self → Self.Dict → List Cell };

    /// The states of a page and a dictionary.
    ghost is_state: { Self → Option Self.Dict → DataContent → Self.State → Type 0 };

    /// What a state has still to give, over the dictionary and the page that it was built from.
    ghost left: { Self → Option Self.Dict → DataContent → Self.State → List Outcome };

    /// The decoded values that are the decoder's own.
    ghost is_own: { Self → Self.DecodedState → Type 0 };

    /// The dictionaries that are the decoder's own.
    ghost is_own_dict: { Self → Self.Dict → Type 0 };

    /// How many bytes the texts and byte strings of decoded values have together at most, if there is a most.
    ghost most_bytes: { Self → Option ℕ };

    /// Checks the whole page.
    fn build_state(
        &self,
        page: &DataPage<'_>,
        dict: Option<&Self::Dict>,
    ) -> Result<Self::State, Error>
        requires takes { takes self.now (data_content page.now) }
        requires own { IfSome (option_copied dict) (is_own_dict self.now) }
        requires shaped { is_shaped (DataOf (data_content page.now)) ≡ true }
        ensures state { IfOk result (is_state self.now (option_copied dict.entry) (data_content page.now)) }
        ensures rows { IfOk result (λ state.
            left self.now (option_copied dict.entry) (data_content page.now) state
            ≡ outcomes self.now (option_map (dict_shown self.now) (option_copied dict.entry))
            (data_content page.now)) }
        ensures cause { TellsOf result
            (causes_in (take 1 (outcomes self.now
            (option_map (dict_shown self.now) (option_copied dict.entry)) (data_content page.now)))) };

    /// How many rows a state has still to give.
    fn state_len(&self, state: &Self::State) -> usize
        ensures { (dict : Option Self.Dict) (page : DataContent) → is_state self.now dict page state.now
            → result ≡ length (left self.now dict page state.now) };

    /// No values yet, with room for so many.
    fn with_capacity(&self, alloc: Global, capacity: usize) -> Result<Self::DecodedState, Error>
        ensures empty { IfOk result (λ decoded. Self.DecodedState.shown decoded ≡ []) }
        ensures own { IfOk result (is_own self.now) }
        ensures cause { ComesOf result [] };

    /// Appends the next `additional` selected rows, or all that are left.
    fn extend_from_state(
        &self,
        page: &DataPage<'_>,
        dict: Option<&Self::Dict>,
        state: &mut Self::State,
        decoded: &mut Self::DecodedState,
        additional: usize,
    ) -> Result<(), Error>
        requires takes { takes self.now (data_content page.now) }
        requires own_dict { IfSome (option_copied dict) (is_own_dict self.now) }
        requires state { is_state self.now (option_copied dict) (data_content page.now) state.old }
        requires own { is_own self.now decoded.old }
        ensures rows { OnOk result (map Given (Self.DecodedState.shown decoded.new)
            ≡ map Given (Self.DecodedState.shown decoded.old)
            ++ take additional (left self.now (option_copied dict.entry) (data_content page.now) state.old)) }
        ensures state { OnOk result (is_state self.now (option_copied dict.entry)
            (data_content page.now) state.new) }
        ensures left { OnOk result (left self.now (option_copied dict.entry) (data_content page.now) state.new
            ≡ drop additional
            (left self.now (option_copied dict.entry) (data_content page.now) state.old)) }
        ensures own { OnOk result (is_own self.now decoded.new) }
        ensures cause { IfErr result (IsCausedByChunks (most_bytes self.now) None
            (map Given (Self.DecodedState.shown decoded.old)
            ++ take additional
            (left self.now (option_copied dict.entry) (data_content page.now) state.old))) };

    fn deserialize_dict(&self, alloc: Global, page: &DictPage<'_>) -> Result<Self::Dict, Error>
        ensures entries { IfOk result (λ dict.
            entries self.now (dict_content page.now) ≡ Ok (dict_shown self.now dict)) }
        ensures own { IfOk result (is_own_dict self.now) }
        ensures cause { ComesOf result (causes_in (refusal_of (entries self.now (dict_content page.now)))) };

    /// The bytes of decoded values of its own fit.
    ghost own_fits: { (decoder : Self) (decoded : Self.DecodedState) → is_own decoder decoded → fits_most (most_bytes decoder) (sum_by cell_bytes (Self.DecodedState.shown decoded)) ≡ true };
}
