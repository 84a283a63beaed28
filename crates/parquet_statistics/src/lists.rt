//! Lists of one item each, and maps of all pairs.
ghost use Rattle.std.specs.Prelude.{◌≡◌, ◌+◌, ◌⊎◌, ◌<◌, ◌≤◌, [], ◌∷◌, false, IfOk, IfErr, OnOk};
ghost use Rattle.std.specs.List.{range_with_len};
ghost use Rattle.columns_core.specs.Array.{column_of};
ghost use Rattle.columns_core.specs.Causes.{IsWantOfMemory};
ghost use Rattle.parquet_statistics.specs.BuiltTypes.{is_large_list};
ghost use Rattle.parquet_statistics.specs.Made.{list_made, made_array, made_refusals, made_shown, map_made, most_places};
ghost use Rattle.parquet_statistics.specs.Refusal.{IsRefusedBy};

use columns_core::{Array, DataType, Error, ListArray, MapArray, Offset, Offsets};
use std::alloc::Global;

/// Each item as a list of one, with places of the width that the type names.
pub(crate) fn lists_of_one(alloc: Global, data_type: DataType, items: Array) -> Result<Array, Error>
    ensures array { IfOk result (λ array.
        column_of array ≡ made_shown (list_made data_type (made_array items))) }
    ensures ok { OnOk result (made_refusals (list_made data_type (made_array items)) ≡ []) }
    ensures err { IfErr result (IsRefusedBy (made_refusals (list_made data_type (made_array items)))) }
{
    if is_large_list(&data_type) {
        listed_by::<i64>(alloc, data_type, items)
    } else {
        listed_by::<i32>(alloc, data_type, items)
    }
}

fn is_large_list(data_type: &DataType) -> bool
    ensures { result ≡ is_large_list data_type.now }
{
    matches!(data_type, DataType::LargeList(_))
}

fn listed_by<O: Offset>(alloc: Global, data_type: DataType, items: Array) -> Result<Array, Error>
    requires wide { is_large_list data_type ≡ O.is_large }
    requires most { O.greatest ≡ most_places O.is_large }
    ensures array { IfOk result (λ array.
        column_of array ≡ made_shown (list_made data_type (made_array items))) }
    ensures ok { OnOk result (made_refusals (list_made data_type (made_array items)) ≡ []) }
    ensures err { IfErr result (IsRefusedBy (made_refusals (list_made data_type (made_array items)))) }
{
    match places_of_each::<O>(alloc, items.len()) {
        Ok(places) => {
            let array = ListArray::try_new(alloc, data_type, places, items, None)?;
            Ok(Array::List(array))
        }
        Err(e) => {
            drop(items);
            drop(data_type);
            Err(e)
        }
    }
}

/// Where each of so many items ends, if each is alone.
fn places_of_each<O: Offset>(alloc: Global, count: usize) -> Result<Offsets<O>, Error>
    ensures places { IfOk result (λ places. places ≡ range_with_len 0 (count + 1)) }
    ensures fits { OnOk result (count ≤ O.greatest) }
    ensures err { IfErr result (λ e. IsWantOfMemory e ⊎ (e ≡ Error.Overflow) × (O.greatest < count)) }
{
    if O::zero().further(count).is_none() {
        return Err(Error::Overflow);
    }
    let mut places = Offsets::new(alloc)?;
    places.reserve(count)?;
    for _ in 0..count {
        places.try_push(1)?;
    }
    Ok(places)
}

/// All pairs as one map.
pub(crate) fn map_of_all(alloc: Global, data_type: DataType, pairs: Array) -> Result<Array, Error>
    ensures array { IfOk result (λ array.
        column_of array ≡ made_shown (map_made data_type (made_array pairs))) }
    ensures ok { OnOk result (made_refusals (map_made data_type (made_array pairs)) ≡ []) }
    ensures err { IfErr result (IsRefusedBy (made_refusals (map_made data_type (made_array pairs)))) }
{
    match places_of_all(alloc, pairs.len()) {
        Ok(places) => {
            let array = MapArray::try_new(data_type, places, pairs, None)?;
            Ok(Array::Map(array))
        }
        Err(e) => {
            drop(pairs);
            drop(data_type);
            Err(e)
        }
    }
}

/// Where the one map of so many pairs begins and ends.
fn places_of_all(alloc: Global, count: usize) -> Result<Offsets<i32>, Error>
    ensures places { IfOk result (λ places. places ≡ 0 ∷ count ∷ []) }
    ensures fits { OnOk result (count ≤ most_places false) }
    ensures err { IfErr result (λ e. IsWantOfMemory e
        ⊎ (e ≡ Error.Overflow) × (most_places false < count)) }
{
    let mut places = Offsets::new(alloc)?;
    places.try_push(count)?;
    Ok(places)
}
