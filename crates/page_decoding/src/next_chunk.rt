//! The next chunk of a column, over any pages and any decoder.
ghost use Rattle.std.specs.Prelude.{◌≡◌, ◌⊎◌, ◌-◌, ◌<◌, ◌≤◌, true, false, All, List, [], ◌++◌, length, take, map, Option, IfErr, IfOk, OnOk, IfSome, option_map};
ghost use Rattle.std.specs.Option.{option_copied};
ghost use Rattle.parquet_page.specs.Content.{DataOf, data_content, is_shaped};
ghost use Rattle.parquet_page.specs.Lending.{HasEnded};
ghost use Rattle.page_decoding.specs.Bytes.{IsCausedByChunks};
ghost use Rattle.page_decoding.specs.Outcome.{Given, Outcome};
ghost use Rattle.page_decoding.specs.Column.{DataPagesAre};
ghost use Rattle.page_decoding.specs.Queue.{IsChunkSize, IsCut, joined};
ghost use Rattle.page_decoding.specs.Standing.{Advances, FailsBy, IsNeeded, NoneComes, standing, still_wanted};
ghost use Rattle.page_decoding.specs.NextChunk.{BeginsFull, GivesChunk, GivesFront, IfChunk, IfFault, Moves, OnMore, OnNoError, OnNone, front_of};

use crate::decoder::{DecodedState, Decoder};
use crate::queue::{MaybeNext, extend_from_new_page, is_full};
use columns_core::Error;
use parquet_base::Steps;
use parquet_page::{DataPage, Page, Pages};
use std::alloc::Global;
use std::collections::VecDeque;
use std::sync::ledger::Ledger;

/// Whether the first item is a whole chunk.
fn begins_full<S: DecodedState>(chunk_size: Option<usize>, items: &VecDeque<S>) -> bool
    ensures full { result ≡ true → BeginsFull chunk_size (map S.shown items.now.items) }
    ensures not_full { result ≡ false → BeginsFull chunk_size (map S.shown items.now.items) → ⊥ }
{
    match items.front() {
        Some(item) => is_full(chunk_size, item.len()),
        None => false,
    }
}

/// Takes the first item out.
fn give_front<S: DecodedState>(
    chunk_size: Option<usize>,
    items: &mut VecDeque<S>,
) -> MaybeNext<Result<S, Error>>
    requires { IsCut chunk_size (map S.shown items.old.items) }
    ensures chunk { (coming : List Outcome) → BeginsFull chunk_size (map S.shown items.old.items)
        ⊎ (coming ≡ []) → GivesFront S.shown chunk_size
        (map Given (joined (map S.shown items.old.items)) ++ coming)
        (map Given (joined (map S.shown items.new.items)) ++ coming) result }
    ensures some { BeginsFull chunk_size (map S.shown items.old.items) → OnNone result ⊥ }
    ensures items { items.old.items ≡ front_of result ++ items.new.items }
    ensures cut { IsCut chunk_size (map S.shown items.new.items) }
{
    match items.pop_front() {
        Some(item) => MaybeNext::Some(Ok(item)),
        None => MaybeNext::None,
    }
}

/// Appends a page's rows to the queue.
fn add_page<D: Decoder>(
    alloc: Global,
    page: &DataPage<'_>,
    dict: Option<&D::Dict>,
    chunk_size: Option<usize>,
    items: &mut VecDeque<D::DecodedState>,
    remaining: &mut usize,
    decoder: &D,
) -> Result<(), Error>
    requires size { IsChunkSize chunk_size }
    requires some { 0 < remaining.old }
    requires takes { D.takes decoder.now (data_content page.now) }
    requires shaped { is_shaped (DataOf (data_content page.now)) ≡ true }
    requires own_dict { IfSome (option_copied dict) (D.is_own_dict decoder.now) }
    requires cut { IsCut chunk_size (map D.DecodedState.shown items.old.items) }
    requires own { All (D.is_own decoder.now) items.old.items }
    ensures rows { OnOk result (map Given (joined (map D.DecodedState.shown items.new.items))
        ≡ map Given (joined (map D.DecodedState.shown items.old.items))
        ++ take remaining.old (D.outcomes decoder.now
        (option_map (D.dict_shown decoder.now) (option_copied dict.entry)) (data_content page.now))) }
    ensures remaining { OnOk result
        (remaining.new ≡ remaining.old - length
        (D.outcomes decoder.now (option_map (D.dict_shown decoder.now) (option_copied dict.entry))
        (data_content page.now))) }
    ensures fewer { remaining.new ≤ remaining.old }
    ensures cut { OnOk result (IsCut chunk_size (map D.DecodedState.shown items.new.items)) }
    ensures own { OnOk result (All (D.is_own decoder.now) items.new.items) }
    ensures cause { IfErr result (IsCausedByChunks (D.most_bytes decoder.now) chunk_size
        (map Given (joined (map D.DecodedState.shown items.old.items))
        ++ take remaining.old (D.outcomes decoder.now
        (option_map (D.dict_shown decoder.now) (option_copied dict.entry)) (data_content page.now)))) }
{
    let state = decoder.build_state(page, dict)?;
    extend_from_new_page(
        alloc, page, dict, state, chunk_size, items, remaining, decoder,
    )
}

/// Takes one more page into the queue. False behind the last page.
fn read_page<I: Pages, D: Decoder, L: Ledger>(
    alloc: Global,
    iter: &mut I,
    items: &mut VecDeque<D::DecodedState>,
    dict: &mut Option<D::Dict>,
    remaining: &mut usize,
    chunk_size: Option<usize>,
    decoder: &D,
    steps: &mut Steps<L>,
) -> Result<bool, Error>
    requires size { IsChunkSize chunk_size }
    requires needed { IsNeeded chunk_size
        (standing D.DecodedState.shown (D.dict_shown decoder.now) items.old.items remaining.old dict.old) }
    requires takes { DataPagesAre (D.takes decoder.now) (I.to_come iter.old) }
    requires own_dict { IfSome dict.old (D.is_own_dict decoder.now) }
    requires cut { IsCut chunk_size (map D.DecodedState.shown items.old.items) }
    requires own { All (D.is_own decoder.now) items.old.items }
    ensures rows { OnOk result (still_wanted (D.entries decoder.now) (D.outcomes decoder.now)
        (standing D.DecodedState.shown (D.dict_shown decoder.now) items.new.items remaining.new dict.new)
        (I.to_come iter.new) (I.causes iter.new)
        ≡ still_wanted (D.entries decoder.now) (D.outcomes decoder.now)
        (standing D.DecodedState.shown (D.dict_shown decoder.now) items.old.items remaining.old dict.old)
        (I.to_come iter.old) (I.causes iter.old)) }
    ensures standing { OnOk result
        (Advances (D.entries decoder.now) (D.outcomes decoder.now) (I.to_come iter.old) (I.to_come iter.new)
        (standing D.DecodedState.shown (D.dict_shown decoder.now) items.old.items remaining.old dict.old)
        (standing D.DecodedState.shown (D.dict_shown decoder.now) items.new.items remaining.new dict.new)) }
    ensures fewer { remaining.new ≤ remaining.old }
    ensures end { IfOk result (λ more.
        more ≡ false → HasEnded (I.to_come iter.old) (I.causes iter.old)) }
    ensures ended { IfOk result (λ more.
        more ≡ false → HasEnded (I.to_come iter.new) (I.causes iter.new)) }
    ensures more { IfOk result (λ more. more ≡ true
        → length (I.to_come iter.new) < length (I.to_come iter.old)) }
    ensures cut { OnOk result (IsCut chunk_size (map D.DecodedState.shown items.new.items)) }
    ensures own { OnOk result (All (D.is_own decoder.now) items.new.items) }
    ensures own_dict { OnOk result (IfSome dict.new (D.is_own_dict decoder.now)) }
    ensures takes { DataPagesAre (D.takes decoder.now) (I.to_come iter.new) }
    ensures pages { Moves (0 < remaining.old) (I.to_come iter.old) (I.to_come iter.new) (I.causes iter.old)
        (I.causes iter.new) steps.old steps.new (I.lent_count iter.old) (I.lent_count iter.new) }
    ensures row_count { I.row_count iter.new ≡ I.row_count iter.old }
    ensures cause { IfErr result (FailsBy (D.entries decoder.now) (D.outcomes decoder.now)
        (D.most_bytes decoder.now) chunk_size (I.to_come iter.old) (I.to_come iter.new) (I.causes iter.old)
        (standing D.DecodedState.shown (D.dict_shown decoder.now) items.old.items remaining.old dict.old)) }
{
    match iter.next(steps)? {
        None => Ok(false),
        Some(Page::Dict(page)) => {
            *dict = Some(decoder.deserialize_dict(alloc, &page)?);
            Ok(true)
        }
        Some(Page::Data(page)) => {
            add_page(
                alloc,
                &page,
                dict.as_ref(),
                chunk_size,
                items,
                remaining,
                decoder,
            )?;
            Ok(true)
        }
    }
}

/// The next chunk of the rows that are wanted. Reads one page at most, and none where no row is wanted of it or a whole chunk waits. After an error
/// no more rows are wanted than before.
pub fn next<I: Pages, D: Decoder, L: Ledger>(
    alloc: Global,
    iter: &mut I,
    items: &mut VecDeque<D::DecodedState>,
    dict: &mut Option<D::Dict>,
    remaining: &mut usize,
    chunk_size: Option<usize>,
    decoder: &D,
    steps: &mut Steps<L>,
) -> MaybeNext<Result<D::DecodedState, Error>>
    requires size { IsChunkSize chunk_size }
    requires takes { DataPagesAre (D.takes decoder.now) (I.to_come iter.old) }
    requires own_dict { IfSome dict.old (D.is_own_dict decoder.now) }
    requires cut { IsCut chunk_size (map D.DecodedState.shown items.old.items) }
    requires own { All (D.is_own decoder.now) items.old.items }
    ensures chunk { GivesChunk D.DecodedState.shown chunk_size
        (still_wanted (D.entries decoder.now) (D.outcomes decoder.now)
        (standing D.DecodedState.shown (D.dict_shown decoder.now) items.old.items remaining.old dict.old)
        (I.to_come iter.old) (I.causes iter.old))
        (still_wanted (D.entries decoder.now) (D.outcomes decoder.now)
        (standing D.DecodedState.shown (D.dict_shown decoder.now) items.new.items remaining.new dict.new)
        (I.to_come iter.new) (I.causes iter.new)) result }
    ensures standing { OnNoError result
        (Advances (D.entries decoder.now) (D.outcomes decoder.now) (I.to_come iter.old) (I.to_come iter.new)
        (standing D.DecodedState.shown (D.dict_shown decoder.now) items.old.items remaining.old dict.old)
        (standing D.DecodedState.shown (D.dict_shown decoder.now)
        (front_of result ++ items.new.items) remaining.new dict.new)) }
    ensures fewer { remaining.new ≤ remaining.old }
    ensures more { OnMore result (length (I.to_come iter.new) < length (I.to_come iter.old)) }
    ensures waits { OnMore result (BeginsFull chunk_size (map D.DecodedState.shown items.new.items) → ⊥) }
    ensures end { OnNone result (NoneComes remaining.old (I.to_come iter.old) (I.causes iter.old)) }
    ensures ended { OnNone result (NoneComes remaining.new (I.to_come iter.new) (I.causes iter.new)) }
    ensures cut { OnNoError result (IsCut chunk_size (map D.DecodedState.shown items.new.items)) }
    ensures own { OnNoError result (All (D.is_own decoder.now) items.new.items) }
    ensures own_chunk { IfChunk result (D.is_own decoder.now) }
    ensures own_dict { OnNoError result (IfSome dict.new (D.is_own_dict decoder.now)) }
    ensures takes { DataPagesAre (D.takes decoder.now) (I.to_come iter.new) }
    ensures pages { Moves (IsNeeded chunk_size
        (standing D.DecodedState.shown (D.dict_shown decoder.now) items.old.items remaining.old dict.old))
        (I.to_come iter.old) (I.to_come iter.new) (I.causes iter.old) (I.causes iter.new) steps.old steps.new
        (I.lent_count iter.old) (I.lent_count iter.new) }
    ensures row_count { I.row_count iter.new ≡ I.row_count iter.old }
    ensures cause { IfFault result
        (FailsBy (D.entries decoder.now) (D.outcomes decoder.now) (D.most_bytes decoder.now) chunk_size
        (I.to_come iter.old) (I.to_come iter.new) (I.causes iter.old)
        (standing D.DecodedState.shown (D.dict_shown decoder.now) items.old.items remaining.old dict.old)) }
{
    if *remaining == 0 {
        return give_front(chunk_size, items);
    }
    if begins_full(chunk_size, items) {
        return give_front(chunk_size, items);
    }
    match read_page(
        alloc, iter, items, dict, remaining, chunk_size, decoder, steps,
    ) {
        Err(error) => MaybeNext::Some(Err(error)),
        Ok(false) => give_front(chunk_size, items),
        Ok(true) => {
            if begins_full(chunk_size, items) {
                give_front(chunk_size, items)
            } else {
                MaybeNext::More
            }
        }
    }
}
