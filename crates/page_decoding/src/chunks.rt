//! The chunks of a column, one after another.
ghost use Rattle.std.specs.Prelude.{◌≡◌, IsTrue, if◌then◌else◌, is_ok, All, [], map, None, IfOk, IfErr, IfNone, IfSome, option_map};
ghost use Rattle.std.specs.Option.{option_copied};
ghost use Rattle.columns_core.specs.Causes.{is_invalid_argument};
ghost use Rattle.page_decoding.specs.Chunks.{GivesFirstChunk, IfFailed, IfGiven, ReadsChunks, ended, standing_of};
ghost use Rattle.page_decoding.specs.Column.{DataPagesAre};
ghost use Rattle.page_decoding.specs.Queue.{IsChunkSize, IsCut};
ghost use Rattle.page_decoding.specs.Standing.{Awaits, NoneComes, standing, still_wanted};

use crate::decoder::{DecodedState, Decoder};
use crate::next_chunk::next;
use crate::queue::MaybeNext;
use columns_core::{Error, Part};
use parquet_base::Steps;
use parquet_page::Pages;
use std::alloc::Global;
use std::collections::VecDeque;
use std::marker::Model;
use std::sync::ledger::Ledger;

/// After an error no row waits and none is wanted.
fn end_after_error<X, S: Drop, T: Drop>(
    chunk: &Result<X, Error>,
    items: &mut VecDeque<S>,
    dict: &mut Option<T>,
    remaining: &mut usize,
)
    ensures items { items.new.items ≡ (if is_ok chunk.now then items.old.items else []) }
    ensures dict { dict.new ≡ (if is_ok chunk.now then dict.old else None) }
    ensures remaining { remaining.new ≡ (if is_ok chunk.now then remaining.old else 0) }
{
    if chunk.is_err() {
        items.clear();
        *dict = None;
        *remaining = 0;
    }
}

/// The next chunk of the rows that are wanted, of as many pages as it takes. After an error no row is wanted.
fn read_chunk<I: Pages, D: Decoder, L: Ledger>(
    alloc: Global,
    iter: &mut I,
    items: &mut VecDeque<D::DecodedState>,
    dict: &mut Option<D::Dict>,
    remaining: &mut usize,
    chunk_size: Option<usize>,
    decoder: &D,
    steps: &mut Steps<L>,
) -> Option<Result<D::DecodedState, Error>>
    requires size { IsChunkSize chunk_size }
    requires takes { DataPagesAre (D.takes decoder.now) (I.to_come iter.old) }
    requires own_dict { IfSome dict.old (D.is_own_dict decoder.now) }
    requires cut { IsCut chunk_size (map D.DecodedState.shown items.old.items) }
    requires own { All (D.is_own decoder.now) items.old.items }
    ensures chunk { GivesFirstChunk D.DecodedState.shown (D.most_bytes decoder.now) chunk_size
        (still_wanted (D.entries decoder.now) (D.outcomes decoder.now)
        (standing D.DecodedState.shown (D.dict_shown decoder.now) items.old.items remaining.old dict.old)
        (I.to_come iter.old) (I.causes iter.old))
        (still_wanted (D.entries decoder.now) (D.outcomes decoder.now)
        (standing D.DecodedState.shown (D.dict_shown decoder.now) items.new.items remaining.new dict.new)
        (I.to_come iter.new) (I.causes iter.new)) result }
    ensures pages { ReadsChunks D.DecodedState.shown (D.entries decoder.now) (D.outcomes decoder.now)
        (D.most_bytes decoder.now) chunk_size result (I.to_come iter.old) (I.to_come iter.new)
        (I.causes iter.old) (standing D.DecodedState.shown
        (D.dict_shown decoder.now) items.old.items remaining.old dict.old)
        (standing D.DecodedState.shown (D.dict_shown decoder.now) items.new.items remaining.new dict.new)
        steps.old steps.new (I.lent_count iter.old) (I.lent_count iter.new) }
    ensures end { IfNone result (NoneComes remaining.new (I.to_come iter.new) (I.causes iter.new)) }
    ensures ended { still_wanted (D.entries decoder.now) (D.outcomes decoder.now)
        (standing D.DecodedState.shown (D.dict_shown decoder.now) items.old.items remaining.old dict.old)
        (I.to_come iter.old) (I.causes iter.old) ≡ []
        → NoneComes remaining.old (I.to_come iter.old) (I.causes iter.old) → result ≡ None }
    ensures awaited { IfFailed result (λ _. Awaits chunk_size (standing D.DecodedState.shown
        (D.dict_shown decoder.now) items.old.items remaining.old dict.old)
        (I.to_come iter.old) (I.causes iter.old)) }
    ensures own_chunk { IfGiven result (D.is_own decoder.now) }
    ensures row_count { I.row_count iter.new ≡ I.row_count iter.old }
    ensures takes { DataPagesAre (D.takes decoder.now) (I.to_come iter.new) }
    ensures own_dict { IfSome dict.new (D.is_own_dict decoder.now) }
    ensures cut { IsCut chunk_size (map D.DecodedState.shown items.new.items) }
    ensures own { All (D.is_own decoder.now) items.new.items }
{
    loop {
        match next(
            alloc, iter, items, dict, remaining, chunk_size, decoder, steps,
        ) {
            MaybeNext::More => {}
            MaybeNext::None => return None,
            MaybeNext::Some(chunk) => {
                end_after_error(&chunk, items, dict, remaining);
                return Some(chunk);
            }
        }
    }
}

/// Gives the rows of pages in chunks.
#[derive(Drop)]
pub struct Chunks<I: Pages, D: Decoder> {
    alloc: Global,
    pages: I,
    decoder: D,
    items: VecDeque<D::DecodedState>,
    dict: Option<D::Dict>,
    remaining: usize,
    chunk_size: Option<usize>,
}

impl<I: Pages, D: Decoder> Model for Chunks<I, D> {
    ghost use Rattle.std.specs.Prelude.{All, IfSome, map, option_map};
    ghost use Rattle.columns_core.specs.contracts.cell.Cell.{the_row as cell_row};
    ghost use Rattle.page_decoding.specs.Chunks.{ChunksLeft, chunks_code};
    ghost use Rattle.page_decoding.specs.Column.{DataPagesAre};
    ghost use Rattle.page_decoding.specs.Queue.{IsChunkSize, IsCut, joined};

    ghost Value = { ChunksLeft I D };

    ghost coded = { chunks_code I.code D.code cell_row.coded };

    ghost view = { λ chunks. record { pages = chunks.pages; decoder = chunks.decoder; size = chunks.chunk_size; waiting = joined (map D.DecodedState.shown chunks.items.items); remaining = chunks.remaining; dictionary = option_map (D.dict_shown chunks.decoder) chunks.dict } };

    ghost invariant = { λ chunks. record {
      size : IsChunkSize chunks.chunk_size;
      takes : DataPagesAre (D.takes chunks.decoder) (I.to_come chunks.pages);
      own_dict : IfSome chunks.dict (D.is_own_dict chunks.decoder);
      cut : IsCut chunks.chunk_size (map D.DecodedState.shown chunks.items.items);
      own : All (D.is_own chunks.decoder) chunks.items.items;
    } };
}

impl<I: Pages, D: Decoder + Drop> Chunks<I, D> {
    /// The rows of these pages, at most so many.
    pub fn new(
        alloc: Global,
        pages: I,
        decoder: D,
        num_rows: usize,
        chunk_size: Option<usize>,
    ) -> Result<Self, Error>
        requires takes { DataPagesAre (D.takes decoder) (I.to_come pages) }
        ensures ok { IfOk result (λ _. IsChunkSize chunk_size) }
        ensures err { IfErr result (λ e.
            IsTrue (is_invalid_argument e) × (IsChunkSize chunk_size → ⊥)) }
        ensures chunks { IfOk result (λ chunks.
            chunks ≡ record {
              pages = pages;
              decoder = decoder;
              size = chunk_size;
              waiting = [];
              remaining = num_rows;
              dictionary = None;
            }) }
    {
        if chunk_size == Some(0) {
            return Err(Error::InvalidArgumentError(Part::Request));
        }
        Ok(Chunks {
            alloc,
            pages,
            decoder,
            items: VecDeque::new(alloc),
            dict: None,
            remaining: num_rows,
            chunk_size,
        })
    }

    /// The next chunk, and a step for each page that is lent for it. After an error or the end there is none.
    pub fn next_counted<L: Ledger>(
        &mut self,
        steps: &mut Steps<L>,
    ) -> Option<Result<D::DecodedState, Error>>
        ensures chunk { GivesFirstChunk D.DecodedState.shown (D.most_bytes self.old.decoder) self.old.size
            (still_wanted (D.entries self.old.decoder) (D.outcomes self.old.decoder) (standing_of self.old)
            (I.to_come self.old.pages) (I.causes self.old.pages))
            (still_wanted (D.entries self.new.decoder) (D.outcomes self.new.decoder) (standing_of self.new)
            (I.to_come self.new.pages) (I.causes self.new.pages)) result }
        ensures pages { ReadsChunks D.DecodedState.shown (D.entries self.old.decoder)
            (D.outcomes self.old.decoder) (D.most_bytes self.old.decoder) self.old.size result
            (I.to_come self.old.pages)
            (I.to_come self.new.pages) (I.causes self.old.pages) (standing_of self.old)
            (standing_of self.new) steps.old steps.new (I.lent_count self.old.pages)
            (I.lent_count self.new.pages) }
        ensures end { IfNone result (NoneComes self.new.remaining (I.to_come self.new.pages)
            (I.causes self.new.pages)) }
        ensures ended { still_wanted (D.entries self.old.decoder) (D.outcomes self.old.decoder)
            (standing_of self.old) (I.to_come self.old.pages) (I.causes self.old.pages) ≡ []
            → NoneComes self.old.remaining (I.to_come self.old.pages) (I.causes self.old.pages)
            → result ≡ None }
        ensures awaited { IfFailed result (λ _. Awaits self.old.size (standing_of self.old)
            (I.to_come self.old.pages) (I.causes self.old.pages)) }
        ensures own { IfGiven result (D.is_own self.old.decoder) }
        ensures row_count { I.row_count self.new.pages ≡ I.row_count self.old.pages }
        ensures decoder { self.new.decoder ≡ self.old.decoder }
        ensures size { self.new.size ≡ self.old.size }
    {
        read_chunk(
            self.alloc,
            &mut self.pages,
            &mut self.items,
            &mut self.dict,
            &mut self.remaining,
            self.chunk_size,
            &self.decoder,
            steps,
        )
    }

    /// Gives no chunk any more.
    pub fn end(&mut self)
        ensures { self.new ≡ ended self.old }
    {
        self.items.clear();
        self.dict = None;
        self.remaining = 0;
    }

    /// The decoder of the pages.
    pub fn decoder(&self) -> &D
        ensures { result.now ≡ self.now.decoder }
    {
        &self.decoder
    }

    /// The entries of the dictionary page, where one was lent and no error came.
    pub fn dictionary(&self) -> Option<&D::Dict>
        ensures is { option_map (D.dict_shown self.now.decoder) (option_copied result) ≡
            self.now.dictionary }
        ensures own { IfSome (option_copied result) (D.is_own_dict self.now.decoder) }
    {
        self.dict.as_ref()
    }

    /// How many pages were lent, at most `usize::MAX`.
    pub fn lent(&self) -> usize
        ensures { result ≡ I.lent_count self.now.pages }
    {
        self.pages.lent()
    }
}
