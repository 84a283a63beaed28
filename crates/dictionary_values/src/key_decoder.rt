//! Decodes pages of keys.
ghost use Rattle.std.specs.Prelude.{◌≡◌, [], ◌∷◌, true, Some, None, refl, IfOk, OnOk};
ghost use Rattle.std.specs.Option.{option_map_or};
ghost use Rattle.columns_core.specs.Array.{cells, data_type_of};
ghost use Rattle.columns_core.specs.Causes.{ExternalFormat, TellsOf};
ghost use Rattle.parquet_page.specs.Content.{DataOf, data_content, is_shaped};
ghost use Rattle.parquet_page.specs.Opened.{key_causes, page_causes};
ghost use Rattle.parquet_page.specs.Spelling.{header_encoding, is_keys};
ghost use Rattle.parquet_page.specs.Values.{Keys, dictionary_keys, encoding_of};
ghost use Rattle.flat_values.specs.Decoded.{IsMaskFor};
ghost use Rattle.flat_values.specs.FlatLeft.{read_encoding};
ghost use Rattle.flat_values.specs.KeysLeft.{IsAmongKeys};
ghost use Rattle.flat_values.specs.OneEncoding.{IsKeyState};
ghost use Rattle.dictionary_values.specs.Keys.{selected_keys};
ghost use Rattle.dictionary_values.specs.KeysGiven.{keys_given};

use crate::key_values::KeyValues;
use crate::{DecodedKeys, ReadDict, StoredKey};
use columns_core::{Array, Error, Part};
use flat_values::{FlatState, KeyPlace, Values, extend_rows};
use page_decoding::{Decoder, FilteredOptionalPageValidity};
use parquet_meta::{PhysicalType, PrimitiveType};
use parquet_page::{DataPage, DataPageHeader, DictPage, split_buffer};
use std::alloc::Global;
use std::marker::PhantomData;

/// Whether the values of a page are keys.
pub(crate) fn has_keys(header: &DataPageHeader) -> bool
    ensures { result ≡ is_keys (encoding_of (header_encoding header.now)) }
{
    match header {
        DataPageHeader::V1 { encoding, .. } => matches!(*encoding, 2 | 8),
        DataPageHeader::V2 { encoding, .. } => matches!(*encoding, 2 | 8),
    }
}

/// The same column of another stored type.
pub(crate) fn type_as(column: &PrimitiveType, physical: PhysicalType) -> PrimitiveType
    ensures { result ≡ record column.now { physical_type = physical } }
{
    PrimitiveType {
        physical_type: physical,
        logical_type: column.logical_type,
        repetition: column.repetition,
    }
}

/// The same page of another column.
pub(crate) fn page_as<'a>(page: &'a DataPage<'_>, column: &'a PrimitiveType) -> DataPage<'a>
    ensures { data_content result ≡ record (data_content page.now) { type = column.now } }
{
    DataPage {
        header: page.header,
        buffer: page.buffer,
        type_: column,
        selected_rows: page.selected_rows,
    }
}

/// Tests `count` keys against the entries and the keys of their type.
fn judge_keys<K: StoredKey>(bytes: &[u8], count: usize, entries: usize) -> Result<(), Error>
    ensures ok { let causes = key_causes (Some K.key_count) (Some entries) in
        OnOk result (option_map_or causes (dictionary_keys bytes.now count) (ExternalFormat ∷ []) ≡ []) }
    ensures cause { let causes = key_causes (Some K.key_count) (Some entries) in
        TellsOf result (option_map_or causes (dictionary_keys bytes.now count) (ExternalFormat ∷ [])) }
{
    let _named = KeyPlace::open(bytes, count, Some(entries))?;
    let most = K::most_keys();
    if entries <= most {
        return Ok(());
    }
    match KeyPlace::open(bytes, count, Some(most)) {
        Ok(_) => Ok(()),
        Err(_) => Err(Error::Overflow),
    }
}

/// Tests all keys of a page, of selected rows or not. Where none is stored, the bytes are not looked at.
fn judge_page<K: StoredKey>(page: &DataPage<'_>, entries: usize) -> Result<(), Error>
    requires shaped { is_shaped (DataOf (data_content page.now)) ≡ true }
    requires read { read_encoding true (data_content page.now) ≡ Some Keys }
    requires spelled { page_causes None true None (data_content page.now) ≡ [] }
    ensures ok { let causes = page_causes (Some K.key_count) true (Some entries) (data_content page.now) in
        OnOk result (causes ≡ []) }
    ensures cause { TellsOf result
        (page_causes (Some K.key_count) true (Some entries) (data_content page.now)) }
{
    let walk = FilteredOptionalPageValidity::try_new(page)?;
    let (_, _, bytes) = split_buffer(page)?;
    let count = walk.stored_count(page);
    if count == 0 {
        return Ok(());
    }
    judge_keys::<K>(bytes, count, entries)
}

/// Before the first selected row of a page of keys, all of which are tested.
fn open_keys<K: StoredKey>(
    page: &DataPage<'_>,
    entries: usize,
) -> Result<FlatState<KeyPlace>, Error>
    requires shaped { is_shaped (DataOf (data_content page.now)) ≡ true }
    requires read { read_encoding true (data_content page.now) ≡ Some Keys }
    ensures state { IfOk result (IsKeyState (data_content page.now)) }
    ensures ok { let causes = page_causes (Some K.key_count) true (Some entries) (data_content page.now) in
        OnOk result (causes ≡ []) }
    ensures cause { TellsOf result
        (page_causes (Some K.key_count) true (Some entries) (data_content page.now)) }
{
    let state = FlatState::<KeyPlace>::try_new(page)?;
    judge_page::<K>(page, entries)?;
    Ok(state)
}

/// Decodes pages of keys of a type, over the entries that a reader of dictionary pages reads.
#[derive(Drop)]
pub struct KeyDecoder<K, R> {
    pub read_dict: R,
    pub(crate) key: PhantomData<K>,
}

impl<K: StoredKey, R: ReadDict> KeyDecoder<K, R> {
    pub fn new(read_dict: R) -> Self
        ensures { result.read_dict ≡ read_dict }
    {
        KeyDecoder {
            read_dict,
            key: PhantomData,
        }
    }
}

impl<K: StoredKey, R: ReadDict> Decoder for KeyDecoder<K, R> {
    ghost use Rattle.flat_values.specs.FlatState.{IsFlatState, state_outcomes};

    type State = FlatState<KeyPlace>;

    type Dict = Array;

    type DecodedState = DecodedKeys<K>;

    ghost entries = { λ decoder. R.entries decoder.read_dict };

    ghost outcomes = { λ _. selected_keys K.key_count };

    ghost takes = { λ _ _. Unit {0} };

    ghost dict_shown = { λ _ dict. cells dict };

    ghost is_state = { λ _ dict page state. IsFlatState IsAmongKeys (keys_given K.key_count dict) page state };

    ghost left = { λ _ dict page state. state_outcomes (keys_given K.key_count dict) page state };

    ghost is_own = { λ _ decoded. IsMaskFor decoded.keys.items decoded.validity };

    ghost is_own_dict = { λ decoder dict. data_type_of dict ≡ R.value_type decoder.read_dict };

    ghost most_bytes = { λ _. None };

    ghost own_fits = { λ _ _ _. refl };

    fn build_state(
        &self,
        page: &DataPage<'_>,
        dict: Option<&Array>,
    ) -> Result<FlatState<KeyPlace>, Error> {
        let Some(entries) = dict else {
            return Err(Error::NotYetImplemented(Part::Dictionary));
        };
        if !has_keys(&page.header) {
            return Err(Error::NotYetImplemented(Part::Header));
        }
        let column = type_as(page.type_, PhysicalType::ByteArray);
        open_keys::<K>(&page_as(page, &column), entries.len())
    }

    fn state_len(&self, state: &FlatState<KeyPlace>) -> usize {
        state.len()
    }

    fn with_capacity(&self, alloc: Global, capacity: usize) -> Result<DecodedKeys<K>, Error> {
        KeyValues::<K>::new().with_capacity(alloc, capacity)
    }

    fn extend_from_state(
        &self,
        page: &DataPage<'_>,
        dict: Option<&Array>,
        state: &mut FlatState<KeyPlace>,
        decoded: &mut DecodedKeys<K>,
        additional: usize,
    ) -> Result<(), Error> {
        let keys = KeyValues::<K>::new();
        extend_rows(&keys, page, dict, state, decoded, additional)
    }

    fn deserialize_dict(&self, alloc: Global, page: &DictPage<'_>) -> Result<Array, Error> {
        self.read_dict.read(alloc, page)
    }
}
