//! Pages of keys of any stored type: the decoder of keys, and places in such pages.
ghost use Rattle.std.specs.Prelude.{◌≡◌, [], true, IfOk, OnOk};
ghost use Rattle.columns_core.specs.Causes.{TellsOf};
ghost use Rattle.parquet_page.specs.Content.{DataContent, DataOf, data_content, is_shaped};
ghost use Rattle.parquet_page.specs.Plan.{kept_count};
ghost use Rattle.page_decoding.specs.FilteredLeft.{IsPageOf, filtered_steps};
ghost use Rattle.dictionary_values.specs.KeyStates.{IsStateOfKeys, uncompared_causes};

use crate::key_decoder::{has_keys, page_as, type_as};
use crate::{KeyDecoder, ReadDict, StoredKey};
use columns_core::{Array, Error, NullArray, Part};
use flat_values::{FlatState, KeyPlace};
use parquet_meta::PhysicalType;
use parquet_page::{DataPage, DictPage};
use std::alloc::Global;

/// Reads how many entries the header of a dictionary page tells. Its body is not looked at, and each entry is given as a null.
#[derive(Clone, Copy)]
pub struct EntryCount;

impl ReadDict for EntryCount {
    ghost use Rattle.columns_core.specs.declared.data_type.DataType.{Null};
    ghost use Rattle.dictionary_values.specs.KeyStates.{counted_entries};

    ghost value_type = { λ _. Null };

    ghost entries = { λ _. counted_entries };

    fn read(&self, _alloc: Global, page: &DictPage<'_>) -> Result<Array, Error> {
        Ok(Array::Null(NullArray::new(page.num_values)))
    }
}

/// Decodes pages of keys. It compares them with the number of entries that the header of the dictionary page tells: the body is not judged, since its
/// stored type is not known. `DictIter` judges it.
pub type PrimitiveDecoder<K> = KeyDecoder<K, EntryCount>;

impl<K: StoredKey> Default for KeyDecoder<K, EntryCount> {
    fn default() -> Self {
        KeyDecoder::new(EntryCount)
    }
}

/// A place in a page of keys. `build_state` of the decoder and `KeyState::try_new` make it for every stored type; its own `try_new`, that of
/// `primitive::ValuesDictionary`, refuses keys of truth values and floats with `NotYetImplemented`.
pub type State = FlatState<KeyPlace>;

/// A place among the selected rows of a page of keys, whatever its stored type is.
#[derive(Drop)]
pub struct KeyState {
    /// It was compared with no entries: a decoder that goes on with it tells each key that it does not take as `OutOfSpec`, one past its type and one
    /// without a dictionary too. Only `build_state` tells these causes apart.
    pub state: State,
}

/// A place among the selected rows of a page of keys, of a required column or an optional one; where none are selected, among all rows.
pub type Required = KeyState;

/// The same: a place heeds selected rows wherever a page has them.
pub type FilteredRequired = KeyState;

/// The same, of whatever repetition the column is.
pub type Optional = KeyState;

impl KeyState {
    /// Before the first selected row of a page of keys. No key is compared with the entries of a dictionary.
    pub fn try_new(page: &DataPage<'_>) -> Result<Self, Error>
        requires { is_shaped (DataOf (data_content page.now)) ≡ true }
        ensures state { IfOk result (λ keys. IsStateOfKeys (data_content page.now) keys.state) }
        ensures ok { OnOk result (uncompared_causes (data_content page.now) ≡ []) }
        ensures cause { TellsOf result (uncompared_causes (data_content page.now)) }
    {
        if !has_keys(&page.header) {
            return Err(Error::NotYetImplemented(Part::Header));
        }
        let column = type_as(page.type_, PhysicalType::ByteArray);
        let state = FlatState::<KeyPlace>::try_new(&page_as(page, &column))?;
        Ok(KeyState { state })
    }

    /// How many selected rows are left.
    pub fn len(&self) -> usize
        ensures { let walk = self.now.state.walk in
            (page : DataContent) → IsPageOf walk page → result ≡ kept_count (filtered_steps walk page) }
    {
        self.state.len()
    }
}
