//! The decoder of pages of texts and of byte strings.
ghost use Rattle.std.specs.Prelude.{◌≡◌, Some, map};
ghost use Rattle.binary_values.specs.ByteDecoder.{are_texts};
ghost use Rattle.binary_values.specs.ByteLeft.{IsAmongBytes, byte_left};
ghost use Rattle.binary_values.specs.ByteStrings.{AreJudged, byte_cell, byte_entries, byte_rule};
ghost use Rattle.binary_values.specs.OwnBytes.{AreOwnBytes};

use crate::{BytePlace, ByteValues, DecodedBytes, Strings};
use columns_core::{Error, Offset};
use flat_values::{FlatDecoder, FlatState};
use page_decoding::Decoder;
use parquet_page::{DataPage, DictPage};
use std::alloc::Global;

/// Decodes pages of texts, or of byte strings as they are, whose places are told by an offset type.
#[derive(Drop)]
pub struct BinaryDecoder<O> {
    decoder: FlatDecoder<ByteValues<O>>,
}

impl<O: Offset> BinaryDecoder<O> {
    /// Decodes texts, which have to be UTF-8, where `text` is true, and byte strings as they are where it is false.
    pub fn new(text: bool) -> Self
        ensures { are_texts result ≡ text }
    {
        BinaryDecoder {
            decoder: FlatDecoder {
                values: ByteValues::new(text),
            },
        }
    }
}

impl<O: Offset> Decoder for BinaryDecoder<O> {
    ghost use Rattle.parquet_meta.specs.declared.metadata.PhysicalType.TheVariants.{ByteArray};
    ghost use Rattle.flat_values.specs.FlatState.{IsFlatState, state_outcomes};
    ghost use Rattle.flat_values.specs.Outcomes.{fitted_by, selected_outcomes};
    ghost use Rattle.binary_values.specs.ByteDecoder.{are_texts};

    type State = FlatState<BytePlace>;

    type Dict = Strings<O>;

    type DecodedState = DecodedBytes<O>;

    ghost entries = { λ d. fitted_by (Some O.greatest) (byte_rule (are_texts d)) ByteArray };

    ghost outcomes = { λ d entries page. selected_outcomes (byte_rule (are_texts d)) entries page };

    ghost takes = { λ _ page. page.type.physical_type ≡ ByteArray };

    ghost dict_shown = { λ d dict. map (byte_cell (are_texts d)) dict };

    ghost is_state = { λ d dict page state. IsFlatState IsAmongBytes (byte_left (are_texts d) (byte_entries (are_texts d) dict)) page state };

    ghost left = { λ d dict page state. state_outcomes (byte_left (are_texts d) (byte_entries (are_texts d) dict)) page state };

    ghost is_own = { λ d decoded. AreOwnBytes O.greatest (are_texts d) decoded.is_text decoded.strings decoded.validity };

    ghost is_own_dict = { λ d dict. AreJudged (are_texts d) dict };

    ghost most_bytes = { λ _. Some O.greatest };

    ghost own_fits = { λ _ _ own. own.fits };

    fn build_state(
        &self,
        page: &DataPage<'_>,
        dict: Option<&Strings<O>>,
    ) -> Result<FlatState<BytePlace>, Error> {
        self.decoder.build_state(page, dict)
    }

    fn state_len(&self, state: &FlatState<BytePlace>) -> usize {
        self.decoder.state_len(state)
    }

    fn with_capacity(&self, alloc: Global, capacity: usize) -> Result<DecodedBytes<O>, Error> {
        self.decoder.with_capacity(alloc, capacity)
    }

    fn extend_from_state(
        &self,
        page: &DataPage<'_>,
        dict: Option<&Strings<O>>,
        state: &mut FlatState<BytePlace>,
        decoded: &mut DecodedBytes<O>,
        additional: usize,
    ) -> Result<(), Error> {
        self.decoder
            .extend_from_state(page, dict, state, decoded, additional)
    }

    fn deserialize_dict(&self, alloc: Global, page: &DictPage<'_>) -> Result<Strings<O>, Error> {
        self.decoder.deserialize_dict(alloc, page)
    }
}
