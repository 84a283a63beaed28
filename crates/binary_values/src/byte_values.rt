//! Texts and byte strings of a page, and those that were decoded.
ghost use Rattle.std.specs.Prelude.{◌≡◌, Option, Some, length, map, option_map};
ghost use Rattle.std.specs.Option.{option_copied};
ghost use Rattle.binary_values.specs.ByteLeft.{IsAmongBytes, byte_left};
ghost use Rattle.binary_values.specs.ByteStrings.{AreJudged, byte_cell, byte_rule, byte_entries};
ghost use Rattle.binary_values.specs.OwnBytes.{AreOwnBytes};

use crate::byte_place::{open_lengths, open_plain, skip_values, take_values};
use crate::string_walk::take_stored;
use crate::word_rows::{take_marked, take_runs};
use crate::{BytePlace, Strings};
use columns_core::{Error, MutableBitmap, Offset, Part};
use flat_values::{KeyPlace, ValueDecoder, ValueEncoding, Values, mark_nulls, mark_values};
use page_decoding::DecodedState;
use parquet_page::{DictPage, ValidityWord};
use std::alloc::Global;
use std::marker::PhantomData;

/// Decoded texts or byte strings. The mask is empty until the first null, which stands on an empty string.
#[derive(Drop)]
pub struct DecodedBytes<O: Offset> {
    pub(crate) strings: Strings<O>,
    pub(crate) validity: MutableBitmap,
    pub(crate) is_text: bool,
}

impl<O: Offset> DecodedState for DecodedBytes<O> {
    ghost use Rattle.flat_values.specs.Decoded.{marked_cells};

    ghost shown = { λ decoded. marked_cells (byte_cell decoded.is_text) decoded.strings decoded.validity };

    fn len(&self) -> usize {
        self.strings.len()
    }
}

/// Texts, or byte strings as they are, whose places are told by an offset type.
#[derive(Clone, Copy)]
pub struct ByteValues<O> {
    pub(crate) is_text: bool,
    offset: PhantomData<O>,
}

impl<O: Offset> ByteValues<O> {
    pub fn new(is_text: bool) -> Self
        ensures { result.is_text ≡ is_text }
    {
        ByteValues {
            is_text,
            offset: PhantomData,
        }
    }
}

/// The number of a dictionary's entries.
fn entry_count<O: Offset>(dict: Option<&Strings<O>>) -> Option<usize>
    ensures { result ≡ option_map (λ entries. length entries) (option_copied dict.entry) }
{
    Some(dict?.len())
}

impl<O: Offset> Values for ByteValues<O> {
    type Place = BytePlace;

    type Dict = Strings<O>;

    type Decoded = DecodedBytes<O>;

    ghost is_own = { λ values decoded. AreOwnBytes O.greatest values.is_text decoded.is_text decoded.strings decoded.validity };

    ghost is_own_dict = { λ values dict. AreJudged values.is_text dict };

    ghost is_over = { λ _ bytes place. IsAmongBytes bytes place };

    ghost left = { λ values dict bytes place. byte_left values.is_text (byte_entries values.is_text dict) bytes place };

    ghost most_bytes = { λ _. Some O.greatest };

    ghost own_fits = { λ _ _ own. own.fits };

    fn take(
        &self,
        bytes: &[u8],
        dict: Option<&Strings<O>>,
        place: &mut BytePlace,
        decoded: &mut DecodedBytes<O>,
        count: usize,
    ) -> Result<(), Error> {
        let held = decoded.strings.len();
        let behind = take_values(
            *place,
            bytes,
            self.is_text,
            dict,
            &mut decoded.strings,
            count,
        )?;
        *place = behind;
        let taken = decoded.strings.len() - held;
        mark_values(&mut decoded.validity, taken)
    }

    fn take_word(
        &self,
        bytes: &[u8],
        dict: Option<&Strings<O>>,
        place: &mut BytePlace,
        decoded: &mut DecodedBytes<O>,
        word: ValidityWord,
    ) -> Result<(), Error> {
        match *place {
            BytePlace::Plain(walk) => {
                let behind = take_marked(walk, bytes, self.is_text, decoded, word)?;
                *place = BytePlace::Plain(behind);
                Ok(())
            }
            BytePlace::Lengths(walk) => {
                let behind = take_marked(walk, bytes, self.is_text, decoded, word)?;
                *place = BytePlace::Lengths(behind);
                Ok(())
            }
            BytePlace::Keys(_) => take_runs(self, bytes, dict, place, decoded, word),
        }
    }

    fn skip(&self, bytes: &[u8], place: &mut BytePlace, count: usize) {
        *place = skip_values(*place, bytes, count);
    }

    fn push_nulls(&self, decoded: &mut DecodedBytes<O>, count: usize) -> Result<(), Error> {
        let held = decoded.strings.len();
        decoded.strings.push_empty(count)?;
        mark_nulls(&mut decoded.validity, held, count)
    }

    fn with_capacity(&self, alloc: Global, capacity: usize) -> Result<DecodedBytes<O>, Error> {
        let mut strings = Strings::new(alloc)?;
        strings.reserve(capacity)?;
        Ok(DecodedBytes {
            strings,
            validity: MutableBitmap::with_capacity(alloc, 0)?,
            is_text: self.is_text,
        })
    }
}

impl<O: Offset> ValueDecoder for ByteValues<O> {
    ghost use Rattle.parquet_meta.specs.declared.metadata.PhysicalType.TheVariants.{ByteArray};

    ghost physical = { λ _. ByteArray };

    ghost rule = { λ values. byte_rule values.is_text };

    ghost dict_shown = { λ values dict. map (byte_cell values.is_text) dict };

    fn open(
        &self,
        encoding: ValueEncoding,
        bytes: &[u8],
        count: usize,
        dict: Option<&Strings<O>>,
    ) -> Result<BytePlace, Error> {
        match encoding {
            ValueEncoding::Plain => {
                let place = open_plain(bytes, count, Part::Values)?;
                Ok(BytePlace::Plain(place))
            }
            ValueEncoding::DeltaLengths => {
                let place = open_lengths(bytes, count)?;
                Ok(BytePlace::Lengths(place))
            }
            ValueEncoding::Keys => {
                let place = KeyPlace::open(bytes, count, entry_count(dict))?;
                Ok(BytePlace::Keys(place))
            }
            // Packed deltas go with no byte strings.
            ValueEncoding::DeltaPacked => unreachable!(),
        }
    }

    fn read_dict(&self, alloc: Global, page: &DictPage<'_>) -> Result<Strings<O>, Error> {
        let place = open_plain(page.buffer, page.num_values, Part::Dictionary)?;
        let mut dict = Strings::new(alloc)?;
        let _end = take_stored(
            place,
            page.buffer,
            self.is_text,
            &mut dict,
            page.num_values,
            Part::Dictionary,
        )?;
        Ok(dict)
    }
}
