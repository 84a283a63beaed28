//! Arrays of decoded keys.
ghost use Rattle.std.specs.Prelude.{◌≡◌, All, map, IfErr, IfOk};
ghost use Rattle.columns_core.specs.Array.{cells, data_type_of};
ghost use Rattle.columns_core.specs.Causes.{IsWantOfMemory};
ghost use Rattle.columns_core.specs.DictionaryType.{IsDictionaryOf};
ghost use Rattle.columns_core.specs.Keyed.{named_cells};
ghost use Rattle.page_decoding.specs.Outcome.{Given};
ghost use Rattle.flat_values.specs.Decoded.{IsMaskFor};
ghost use Rattle.dictionary_values.specs.Keys.{NamesEntry, key_cells, named_cell};

use crate::{DecodedKeys, StoredKey};
use columns_core::{Array, DataType, DictionaryArray, Error};
use flat_values::freeze_mask;
use std::alloc::Global;

/// The array of a chunk of keys, with a copy of all entries.
pub(crate) fn array_of<K: StoredKey>(
    alloc: Global,
    chunk: DecodedKeys<K>,
    entries: &Array,
    data_type: &DataType,
) -> Result<DictionaryArray, Error>
    requires typed { IsDictionaryOf K.key_type (data_type_of entries.now) data_type.now }
    requires own { IsMaskFor chunk.keys.items chunk.validity }
    requires named { let shown = key_cells K.number chunk.keys.items chunk.validity in
        All (NamesEntry (cells entries.now)) (map Given shown) }
    ensures typed { IfOk result (λ array. array.data_type ≡ data_type.now) }
    ensures entries { IfOk result (λ array. array.entries ≡ cells entries.now) }
    ensures cells { let shown = key_cells K.number chunk.keys.items chunk.validity in
        IfOk result (λ array. named_cells array ≡ map (named_cell (cells entries.now)) shown) }
    ensures memory { IfErr result IsWantOfMemory }
{
    let DecodedKeys { keys, validity } = chunk;
    let mask = freeze_mask(validity);
    DictionaryArray::of_keys(alloc, data_type, keys, mask, entries)
}
