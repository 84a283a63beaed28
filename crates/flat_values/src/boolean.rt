//! Columns that are read as truth values.
ghost use Rattle.std.specs.Prelude.{◌≡◌, IsTrue, true, [], None, IfOk, IfErr, take};
ghost use Rattle.columns_core.specs.Causes.{TellsOf, is_invalid_argument};
ghost use Rattle.columns_core.specs.ElementType.{is_boolean};
ghost use Rattle.page_decoding.specs.Column.{DataPagesAre};
ghost use Rattle.page_decoding.specs.Outcome.{causes_in};
ghost use Rattle.page_decoding.specs.Queue.{IsChunkSize};
ghost use Rattle.parquet_meta.specs.declared.metadata.PhysicalType.TheVariants.{Boolean};
ghost use Rattle.parquet_page.specs.Content.{DataOf, data_content, is_shaped};
ghost use Rattle.flat_values.specs.Conversion.{Keep};
ghost use Rattle.flat_values.specs.FlatState.{IsFlatState, state_outcomes};
ghost use Rattle.flat_values.specs.Outcomes.{selected_outcomes};
ghost use Rattle.flat_values.specs.TruthsLeft.{IsOverTruths, truth_outcomes};

use crate::{FlatDecoder, FlatIter, FlatState, TruthValues};
use columns_core::{DataType, Error};
use page_decoding::Decoder;
use parquet_encoding::PlainBits;
use parquet_page::{DataPage, Pages};
use std::alloc::Global;

/// Arrays of truth values.
pub type Iter<I> = FlatIter<I, TruthValues>;

/// A place in a page of truth values.
pub type State = FlatState<PlainBits>;

/// Decodes pages of truth values.
pub type BooleanDecoder = FlatDecoder<TruthValues>;

impl Default for FlatDecoder<TruthValues> {
    fn default() -> Self {
        FlatDecoder {
            values: TruthValues,
        }
    }
}

/// A place in a page of truth values.
pub type Values = State;

/// A place in a page of truth values that all have one.
pub type Required = State;

/// A place among the selected rows of a page of truth values that all have one.
pub type FilteredRequired = State;

impl FlatState<PlainBits> {
    /// Before the first selected row of a page of truth values.
    pub fn try_new(page: &DataPage<'_>) -> Result<Self, Error>
        requires takes { (data_content page.now).type.physical_type ≡ Boolean }
        requires shaped { is_shaped (DataOf (data_content page.now)) ≡ true }
        ensures state { IfOk result (IsFlatState IsOverTruths truth_outcomes (data_content page.now)) }
        ensures rows { let outcomes = selected_outcomes Keep None (data_content page.now) in
            IfOk result (λ state. state_outcomes truth_outcomes (data_content page.now) state ≡ outcomes) }
        ensures cause { let outcomes = selected_outcomes Keep None (data_content page.now) in
            TellsOf result (causes_in (take 1 outcomes)) }
    {
        BooleanDecoder::default().build_state(page, None)
    }
}

impl<I: Pages> FlatIter<I, TruthValues> {
    /// The rows of these pages, at most so many.
    pub fn new(
        alloc: Global,
        iter: I,
        data_type: DataType,
        chunk_size: Option<usize>,
        num_rows: usize,
    ) -> Result<Self, Error>
        requires takes { DataPagesAre (λ page. page.type.physical_type ≡ Boolean) (I.to_come iter) }
        ensures ok { IfOk result (λ _. IsChunkSize chunk_size × IsTrue (is_boolean data_type)) }
        ensures err { IfErr result (λ e. IsTrue (is_invalid_argument e)
            × (IsChunkSize chunk_size → IsTrue (is_boolean data_type) → ⊥)) }
        ensures iter { IfOk result (λ arrays.
            arrays ≡ record {
              data_type = data_type;
              chunks = record {
                pages = iter;
                decoder = record { values = record {} };
                size = chunk_size;
                waiting = [];
                remaining = num_rows;
                dictionary = None;
              };
            }) }
    {
        Self::of_values(alloc, iter, TruthValues, data_type, num_rows, chunk_size)
    }
}
