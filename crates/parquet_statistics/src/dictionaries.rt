//! Dictionaries whose keys name all entries in turn.
ghost use Rattle.std.specs.Prelude.{◌≡◌, ◌⊎◌, ◌<◌, ◌≤◌, [], pos, map, option_map, Some, IfOk, IfErr, OnOk};
ghost use Rattle.std.specs.List.{range_with_len};
ghost use Rattle.columns_core.specs.Array.{cells, column_of};
ghost use Rattle.columns_core.specs.Causes.{IsWantOfMemory};
ghost use Rattle.columns_core.specs.DictionaryType.{key_type};
ghost use Rattle.parquet_statistics.specs.Made.{dictionary_made, keyed_in, keyed_in_turn, made_array, made_refusals, made_shown, most_keys};
ghost use Rattle.parquet_statistics.specs.Refusal.{IsRefusedBy};

use crate::counted_key::CountedKey;
use columns_core::{Array, DataType, DictionaryArray, Error, IntegerType, Part, PrimitiveArray};
use std::alloc::Global;

/// The dictionary of these entries, each named by the key of its place.
pub(crate) fn dictionary_of(
    alloc: Global,
    data_type: DataType,
    entries: Array,
) -> Result<Array, Error>
    ensures array { IfOk result (λ array.
        column_of array ≡ made_shown (dictionary_made data_type (made_array entries))) }
    ensures keys { IfOk result (λ array. keyed_in array ≡ Some (keyed_in_turn (cells entries))) }
    ensures ok { OnOk result (made_refusals (dictionary_made data_type (made_array entries)) ≡ []) }
    ensures err { let refusals = made_refusals (dictionary_made data_type (made_array entries)) in
        IfErr result (IsRefusedBy refusals) }
{
    match key_type_of(&data_type) {
        Some(IntegerType::Int8) => keyed_by::<i8>(alloc, data_type, entries),
        Some(IntegerType::Int16) => keyed_by::<i16>(alloc, data_type, entries),
        Some(IntegerType::Int32) => keyed_by::<i32>(alloc, data_type, entries),
        Some(IntegerType::Int64) => keyed_by::<i64>(alloc, data_type, entries),
        Some(IntegerType::UInt8) => keyed_by::<u8>(alloc, data_type, entries),
        Some(IntegerType::UInt16) => keyed_by::<u16>(alloc, data_type, entries),
        Some(IntegerType::UInt32) => keyed_by::<u32>(alloc, data_type, entries),
        Some(IntegerType::UInt64) => keyed_by::<u64>(alloc, data_type, entries),
        None => {
            drop(entries);
            drop(data_type);
            Err(Error::InvalidArgumentError(Part::Request))
        }
    }
}

fn key_type_of(data_type: &DataType) -> Option<IntegerType>
    ensures { result ≡ key_type data_type.now }
{
    match data_type {
        DataType::Dictionary(keys, _, _) => Some(*keys),
        _ => None,
    }
}

fn keyed_by<K: CountedKey>(
    alloc: Global,
    data_type: DataType,
    entries: Array,
) -> Result<Array, Error>
    requires { key_type data_type ≡ Some K.key_type }
    ensures array { IfOk result (λ array.
        column_of array ≡ made_shown (dictionary_made data_type (made_array entries))) }
    ensures keys { IfOk result (λ array. keyed_in array ≡ Some (keyed_in_turn (cells entries))) }
    ensures ok { OnOk result (made_refusals (dictionary_made data_type (made_array entries)) ≡ []) }
    ensures err { let refusals = made_refusals (dictionary_made data_type (made_array entries)) in
        IfErr result (IsRefusedBy refusals) }
{
    match first_keys::<K>(alloc, entries.len()) {
        Ok(keys) => {
            let array = DictionaryArray::try_new(alloc, data_type, keys, entries)?;
            Ok(Array::Dictionary(array))
        }
        Err(e) => {
            drop(entries);
            drop(data_type);
            Err(e)
        }
    }
}

/// The keys 0, 1, 2 and on. Their number has to be one of the type, too.
fn first_keys<K: CountedKey>(alloc: Global, count: usize) -> Result<PrimitiveArray<K>, Error>
    ensures keys { IfOk result (λ keys. map (option_map K.number) keys.items
        ≡ map (λ place. Some (pos place)) (range_with_len 0 count)) }
    ensures ok { OnOk result (count ≤ most_keys K.key_type) }
    ensures err { IfErr result (λ e. IsWantOfMemory e
        ⊎ (e ≡ Error.Overflow) × (most_keys K.key_type < count)) }
{
    if K::from_place(count).is_none() {
        return Err(Error::Overflow);
    }
    let keys = counted_keys(alloc, count)?;
    PrimitiveArray::try_new(K::data_type(), keys, None)
}

fn counted_keys<K: CountedKey>(alloc: Global, count: usize) -> Result<Vec<K>, Error>
    ensures keys { IfOk result (λ keys.
        map K.number keys.items ≡ map pos (range_with_len 0 count)) }
    ensures err { IfErr result (λ e. IsWantOfMemory e
        ⊎ (e ≡ Error.Overflow) × (most_keys K.key_type < count)) }
{
    let mut keys = Vec::with_capacity(alloc, count)?;
    for place in 0..count {
        match K::from_place(place) {
            Some(key) => keys.push(key)?,
            None => return Err(Error::Overflow),
        }
    }
    Ok(keys)
}
