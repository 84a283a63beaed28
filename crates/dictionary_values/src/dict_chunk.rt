//! The next chunk of a column of keys, over any pages.
ghost use Rattle.std.specs.Prelude.{◌≡◌, ◌<◌, ◌≤◌, ◌⊎◌, All, Some, None, length, map, option_map, IfSome};
ghost use Rattle.columns_core.specs.Array.{cells, data_type_of};
ghost use Rattle.columns_core.specs.Causes.{IsWantOfMemory};
ghost use Rattle.columns_core.specs.DictionaryType.{IsDictionaryOf};
ghost use Rattle.columns_core.specs.Keyed.{named_cells};
ghost use Rattle.page_decoding.specs.NextChunk.{BeginsFull, GivesChunk, IfChunk, IfFault, Moves, OnMore, OnNoError, OnNone};
ghost use Rattle.page_decoding.specs.Queue.{IsChunkSize, IsCut};
ghost use Rattle.page_decoding.specs.Standing.{FailsBy, IsNeeded, NoneComes, standing, still_wanted};
ghost use Rattle.flat_values.specs.Decoded.{IsMaskFor};
ghost use Rattle.dictionary_values.specs.DictLeft.{IsKeyed, LeavesWanted, named_entries};
ghost use Rattle.dictionary_values.specs.Keys.{named_standing, selected_entries};

use crate::key_array::array_of;
use crate::{DecodedKeys, KeyDecoder, ReadDict, StoredKey};
use columns_core::{Array, DataType, DictionaryArray, Error};
use page_decoding::{DecodedState, MaybeNext, next};
use parquet_base::Steps;
use parquet_page::Pages;
use std::alloc::Global;
use std::collections::VecDeque;
use std::marker::PhantomData;
use std::sync::ledger::Ledger;

/// The next chunk of the rows that are wanted, as an array with all entries of the dictionary. Reads one page at most, and none where no row is
/// wanted of it or a whole chunk waits. Of the pages to come only the first may be a dictionary page, and none where keys wait.
///
/// `OutOfSpec` for a key past the entries and `Overflow` for one past its type, anywhere in a page that is read, `NotYetImplemented` for a page
/// that is not one of keys or has no dictionary before it, and the errors of pages and of `read_dict`.
pub fn next_dict<K: StoredKey, I: Pages, R: ReadDict, L: Ledger>(
    alloc: Global,
    iter: &mut I,
    items: &mut VecDeque<DecodedKeys<K>>,
    dict: &mut Option<Array>,
    data_type: &DataType,
    remaining: &mut usize,
    chunk_size: Option<usize>,
    read_dict: &R,
    steps: &mut Steps<L>,
) -> MaybeNext<Result<DictionaryArray, Error>>
    requires size { IsChunkSize chunk_size }
    requires typed { IsDictionaryOf K.key_type (R.value_type read_dict.now) data_type.now }
    requires own_dict { IfSome dict.old (λ entries. data_type_of entries ≡ R.value_type read_dict.now) }
    requires cut { IsCut chunk_size (map ⟦<DecodedKeys<K> as DecodedState>⟧.shown items.old.items) }
    requires own { All (λ item. IsMaskFor item.keys.items item.validity) items.old.items }
    requires keyed { let shown = ⟦<DecodedKeys<K> as DecodedState>⟧.shown in
        IsKeyed (standing shown cells items.old.items remaining.old dict.old) (I.to_come iter.old) }
    ensures chunk { let shown = ⟦<DecodedKeys<K> as DecodedState>⟧.shown in
        let wanted = still_wanted (R.entries read_dict.now) (selected_entries K.key_count) in
        let before = named_standing (standing shown cells items.old.items remaining.old dict.old) in
        let after = named_standing (standing shown cells items.new.items remaining.new dict.new) in
        let old = wanted before (I.to_come iter.old) (I.causes iter.old) in
        let new = wanted after (I.to_come iter.new) (I.causes iter.new) in
        GivesChunk named_cells chunk_size old new result }
    ensures typed { IfChunk result (λ array. array.data_type ≡ data_type.now) }
    ensures entries { let named = named_entries (R.entries read_dict.now) in
        IfChunk result (λ array. array.entries ≡ named (option_map cells dict.old) (I.to_come iter.old)) }
    ensures dictionary { let named = named_entries (R.entries read_dict.now) in
        OnNoError result (named (option_map cells dict.new) (I.to_come iter.new)
        ≡ named (option_map cells dict.old) (I.to_come iter.old)) }
    ensures standing { let shown = ⟦<DecodedKeys<K> as DecodedState>⟧.shown in
        let before = standing shown cells items.old.items remaining.old dict.old in
        let leaves = LeavesWanted (R.entries read_dict.now) K.key_count (I.to_come iter.old) in
        OnNoError result (leaves (I.to_come iter.new) before remaining.new) }
    ensures keyed { let shown = ⟦<DecodedKeys<K> as DecodedState>⟧.shown in
        let after = standing shown cells items.new.items remaining.new dict.new in
        OnNoError result (IsKeyed after (I.to_come iter.new)) }
    ensures cut { let shown = ⟦<DecodedKeys<K> as DecodedState>⟧.shown in
        OnNoError result (IsCut chunk_size (map shown items.new.items)) }
    ensures own { OnNoError result (All (λ item. IsMaskFor item.keys.items item.validity) items.new.items) }
    ensures own_dict { let is_own = λ (entries : Array).
        data_type_of entries ≡ R.value_type read_dict.now in
        OnNoError result (IfSome dict.new is_own) }
    ensures fewer { remaining.new ≤ remaining.old }
    ensures waits { let shown = ⟦<DecodedKeys<K> as DecodedState>⟧.shown in
        OnMore result (BeginsFull chunk_size (map shown items.new.items) → ⊥) }
    ensures more { OnMore result (length (I.to_come iter.new) < length (I.to_come iter.old)) }
    ensures pages { let shown = ⟦<DecodedKeys<K> as DecodedState>⟧.shown in
        let needed = IsNeeded chunk_size (standing shown cells items.old.items remaining.old dict.old) in
        Moves needed (I.to_come iter.old) (I.to_come iter.new) (I.causes iter.old) (I.causes iter.new)
        steps.old steps.new (I.lent_count iter.old) (I.lent_count iter.new) }
    ensures row_count { I.row_count iter.new ≡ I.row_count iter.old }
    ensures cause { let shown = ⟦<DecodedKeys<K> as DecodedState>⟧.shown in
        let before = named_standing (standing shown cells items.old.items remaining.old dict.old) in
        let fails = FailsBy (R.entries read_dict.now) (selected_entries K.key_count) None chunk_size
        (I.to_come iter.old) (I.to_come iter.new) (I.causes iter.old) before in
        IfFault result (λ e. IsWantOfMemory e ⊎ fails e) }
    ensures end { OnNone result (NoneComes remaining.old (I.to_come iter.old) (I.causes iter.old)) }
{
    let decoder = KeyDecoder {
        read_dict,
        key: PhantomData::<K>,
    };
    match next(
        alloc, iter, items, dict, remaining, chunk_size, &decoder, steps,
    ) {
        MaybeNext::More => MaybeNext::More,
        MaybeNext::None => MaybeNext::None,
        MaybeNext::Some(Err(error)) => MaybeNext::Some(Err(error)),
        MaybeNext::Some(Ok(keys)) => match dict.as_ref() {
            Some(entries) => MaybeNext::Some(array_of(alloc, keys, entries, data_type)),
            None => unreachable!(),
        },
    }
}
