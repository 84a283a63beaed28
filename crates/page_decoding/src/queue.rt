//! Items of decoded values that wait in a queue, cut into chunks.
ghost use Rattle.std.specs.Prelude.{◌≡◌, ◌↔◌, ◌⊎◌, IsTrue, true, false, ◌+◌, ◌-◌, ◌<◌, ◌≤◌, All, [], ◌++◌, length, take, drop, map, Option, IfOk, IfErr, OnOk, IfSome};
ghost use Rattle.std.specs.Option.{option_copied, option_to_list};
ghost use Rattle.columns_core.specs.Causes.{ComesOf};
ghost use Rattle.parquet_page.specs.Content.{data_content};
ghost use Rattle.page_decoding.specs.Bytes.{IsCausedByChunks};
ghost use Rattle.page_decoding.specs.Outcome.{Given};
ghost use Rattle.page_decoding.specs.Queue.{AreFull, EndsOpen, FitsChunk, IsChunkSize, IsCut, IsFull, joined};

use crate::decoder::{DecodedState, Decoder};
use columns_core::Error;
use parquet_page::DataPage;
use std::alloc::Global;
use std::collections::VecDeque;

/// The next chunk, none, or more pages first.
#[derive(Drop)]
pub enum MaybeNext<T> {
    Some(T),
    None,
    More,
}

/// Whether so many rows fill an item.
pub(crate) fn is_full(chunk_size: Option<usize>, rows: usize) -> bool
    ensures { IsTrue result ↔ IsFull chunk_size rows }
{
    chunk_size == Some(rows)
}

/// How many of `wanted` rows an item takes that has so many.
fn room(chunk_size: Option<usize>, rows: usize, wanted: usize) -> usize
    requires fits { FitsChunk chunk_size rows }
    requires not_full { IsFull chunk_size rows → ⊥ }
    requires wanted { 0 < wanted }
    ensures some { 0 < result }
    ensures within { result ≤ wanted }
    ensures fits { FitsChunk chunk_size (rows + result) }
    ensures exact { result ≡ wanted ⊎ IsFull chunk_size (rows + result) }
{
    match chunk_size {
        Some(size) => wanted.min(size - rows),
        None => wanted,
    }
}

/// Whether the last item takes more rows.
fn has_room<S: DecodedState>(chunk_size: Option<usize>, items: &VecDeque<S>) -> bool
    requires cut { IsCut chunk_size (map S.shown items.now.items) }
    ensures full { result ≡ false → AreFull chunk_size (map S.shown items.now.items) }
    ensures last { result ≡ true → EndsOpen chunk_size (map S.shown items.now.items) }
{
    match items.back() {
        Some(item) => !is_full(chunk_size, item.len()),
        None => false,
    }
}

/// Takes the last item where it is not full.
fn take_open<S: DecodedState>(chunk_size: Option<usize>, items: &mut VecDeque<S>) -> Option<S>
    requires cut { IsCut chunk_size (map S.shown items.old.items) }
    ensures items { items.old.items ≡ items.new.items ++ option_to_list result }
    ensures full { AreFull chunk_size (map S.shown items.new.items) }
    ensures fits { IfSome result (λ item. FitsChunk chunk_size (length (S.shown item))) }
    ensures not_full { IfSome result (λ item. IsFull chunk_size (length (S.shown item)) → ⊥) }
{
    if has_room(chunk_size, items) {
        items.pop_back()
    } else {
        None
    }
}

/// The last item where it is not full, or a new one.
fn open_item<D: Decoder>(
    alloc: Global,
    wanted: usize,
    chunk_size: Option<usize>,
    items: &mut VecDeque<D::DecodedState>,
    decoder: &D,
) -> Result<D::DecodedState, Error>
    requires size { IsChunkSize chunk_size }
    requires wanted { 0 < wanted }
    requires cut { IsCut chunk_size (map D.DecodedState.shown items.old.items) }
    requires own { All (D.is_own decoder.now) items.old.items }
    ensures rows { IfOk result (λ item.
        joined (map D.DecodedState.shown items.old.items)
        ≡ joined (map D.DecodedState.shown items.new.items) ++ D.DecodedState.shown item) }
    ensures fits { IfOk result (λ item. FitsChunk chunk_size (length (D.DecodedState.shown item))) }
    ensures not_full { IfOk result (λ item. IsFull chunk_size (length (D.DecodedState.shown item)) → ⊥) }
    ensures full { OnOk result (AreFull chunk_size (map D.DecodedState.shown items.new.items)) }
    ensures own { IfOk result (D.is_own decoder.now) }
    ensures own_items { OnOk result (All (D.is_own decoder.now) items.new.items) }
    ensures cause { ComesOf result [] }
{
    match take_open(chunk_size, items) {
        Some(item) => Ok(item),
        None => decoder.with_capacity(alloc, room(chunk_size, 0, wanted)),
    }
}

/// Appends rows to the last item where it is not full, or to a new one, and says how many.
fn add_rows<D: Decoder>(
    alloc: Global,
    page: &DataPage<'_>,
    dict: Option<&D::Dict>,
    state: &mut D::State,
    wanted: usize,
    chunk_size: Option<usize>,
    items: &mut VecDeque<D::DecodedState>,
    decoder: &D,
) -> Result<usize, Error>
    requires size { IsChunkSize chunk_size }
    requires takes { D.takes decoder.now (data_content page.now) }
    requires own_dict { IfSome (option_copied dict) (D.is_own_dict decoder.now) }
    requires state { D.is_state decoder.now (option_copied dict) (data_content page.now) state.old }
    requires some { 0 < wanted }
    requires wanted { wanted ≤ length
        (D.left decoder.now (option_copied dict) (data_content page.now) state.old) }
    requires cut { IsCut chunk_size (map D.DecodedState.shown items.old.items) }
    requires own { All (D.is_own decoder.now) items.old.items }
    ensures some { IfOk result (λ taken. 0 < taken) }
    ensures within { IfOk result (λ taken. taken ≤ wanted) }
    ensures rows { IfOk result (λ taken.
        map Given (joined (map D.DecodedState.shown items.new.items))
        ≡ map Given (joined (map D.DecodedState.shown items.old.items))
        ++ take taken (D.left decoder.now (option_copied dict.entry) (data_content page.now) state.old)) }
    ensures state { OnOk result (D.is_state decoder.now (option_copied dict.entry)
        (data_content page.now) state.new) }
    ensures left { IfOk result (λ taken.
        D.left decoder.now (option_copied dict.entry) (data_content page.now) state.new
        ≡ drop taken (D.left decoder.now (option_copied dict.entry) (data_content page.now) state.old)) }
    ensures cut { OnOk result (IsCut chunk_size (map D.DecodedState.shown items.new.items)) }
    ensures own { OnOk result (All (D.is_own decoder.now) items.new.items) }
    ensures cause { IfErr result (IsCausedByChunks (D.most_bytes decoder.now) chunk_size
        (map Given (joined (map D.DecodedState.shown items.old.items))
        ++ take wanted (D.left decoder.now (option_copied dict.entry) (data_content page.now) state.old))) }
{
    let mut item = open_item(alloc, wanted, chunk_size, items, decoder)?;
    let taken = room(chunk_size, item.len(), wanted);
    decoder.extend_from_state(page, dict, state, &mut item, taken)?;
    items.push_back(item)?;
    Ok(taken)
}

/// Appends the page's rows to the queue, as many as are wanted. After an error some of them may wait there, and no more rows are wanted than before.
pub fn extend_from_new_page<D: Decoder>(
    alloc: Global,
    page: &DataPage<'_>,
    dict: Option<&D::Dict>,
    mut state: D::State,
    chunk_size: Option<usize>,
    items: &mut VecDeque<D::DecodedState>,
    remaining: &mut usize,
    decoder: &D,
) -> Result<(), Error>
    requires size { IsChunkSize chunk_size }
    requires takes { D.takes decoder.now (data_content page.now) }
    requires own_dict { IfSome (option_copied dict) (D.is_own_dict decoder.now) }
    requires state { D.is_state decoder.now (option_copied dict) (data_content page.now) state }
    requires cut { IsCut chunk_size (map D.DecodedState.shown items.old.items) }
    requires own { All (D.is_own decoder.now) items.old.items }
    ensures rows { OnOk result (map Given (joined (map D.DecodedState.shown items.new.items))
        ≡ map Given (joined (map D.DecodedState.shown items.old.items))
        ++ take remaining.old (D.left decoder.now (option_copied dict.entry) (data_content page.now) state)) }
    ensures remaining { OnOk result
        (remaining.new ≡ remaining.old - length
        (D.left decoder.now (option_copied dict.entry) (data_content page.now) state)) }
    ensures fewer { remaining.new ≤ remaining.old }
    ensures cut { OnOk result (IsCut chunk_size (map D.DecodedState.shown items.new.items)) }
    ensures own { OnOk result (All (D.is_own decoder.now) items.new.items) }
    ensures cause { IfErr result (IsCausedByChunks (D.most_bytes decoder.now) chunk_size
        (map Given (joined (map D.DecodedState.shown items.old.items))
        ++ take remaining.old (D.left decoder.now (option_copied dict.entry)
        (data_content page.now) state))) }
{
    let mut wanted = decoder.state_len(&state).min(*remaining);
    while wanted > 0 {
        let taken = add_rows(
            alloc, page, dict, &mut state, wanted, chunk_size, items, decoder,
        )?;
        *remaining -= taken;
        wanted -= taken;
    }
    Ok(())
}
