//! The arrays of a flat column, one after another.
ghost use Rattle.std.specs.Prelude.{◌≡◌, ◌<◌, IsTrue, if◌then◌else◌, is_ok, [], None, IfOk, IfErr};
ghost use Rattle.columns_core.specs.Array.{cells};
ghost use Rattle.columns_core.specs.Causes.{IsWantOfMemory, is_invalid_argument};
ghost use Rattle.page_decoding.specs.Chunks.{ended};
ghost use Rattle.page_decoding.specs.Column.{DataPagesAre};
ghost use Rattle.page_decoding.specs.Queue.{IsChunkSize};
ghost use Rattle.flat_values.specs.Arrays.{flat_left};
ghost use Rattle.flat_values.specs.ColumnLeft.{GivesArray, GivesColumn};

use crate::{ColumnArrays, FlatDecoder, IntoArray, IntoColumn};
use columns_core::{Array, DataType, Error, Part};
use page_decoding::{Chunks, Decoder};
use parquet_base::Steps;
use parquet_page::Pages;
use std::alloc::Global;
use std::iter::Iterator;
use std::marker::{Brand, Model};
use std::sync::ledger::{Blank, Ledger};

/// The array of a chunk.
fn array_of<V: IntoArray>(
    alloc: Global,
    values: &V,
    data_type: &DataType,
    chunk: V::Decoded,
) -> Result<V::Array, Error>
    requires fits { V.is_type values.now data_type.now }
    requires own { V.is_own values.now chunk }
    ensures typed { IfOk result (λ array. V.array_type array ≡ data_type.now) }
    ensures cells { IfOk result (λ array. V.array_cells array ≡ V.Decoded.shown chunk) }
    ensures memory { IfErr result IsWantOfMemory }
{
    let own_type = data_type.try_clone(alloc)?;
    values.into_array(chunk, own_type)
}

/// After an error no row is wanted.
fn end_after_error<I: Pages, D: Decoder + Drop, A>(
    array: &Result<A, Error>,
    chunks: &mut Chunks<I, D>,
)
    ensures { chunks.new ≡ (if is_ok array.now then chunks.old else ended chunks.old) }
{
    if array.is_err() {
        chunks.end();
    }
}

/// The array of the next chunk. After an error or the end there is none.
fn read_array<I: Pages, V: IntoArray + Drop, L: Ledger>(
    alloc: Global,
    data_type: &DataType,
    chunks: &mut Chunks<I, FlatDecoder<V>>,
    steps: &mut Steps<L>,
) -> Option<Result<V::Array, Error>>
    requires fits { V.is_type chunks.old.decoder.values data_type.now }
    ensures given { let left = flat_left V.most_bytes V.rule V.physical I.to_come I.causes I.row_count
        I.lent_count data_type.now in
        GivesColumn V.array_type V.array_cells (left chunks.old) result
        (left chunks.new) steps.old steps.new }
    ensures decoder { chunks.new.decoder ≡ chunks.old.decoder }
{
    match chunks.next_counted(steps)? {
        Ok(chunk) => {
            let array = array_of(alloc, &chunks.decoder().values, data_type, chunk);
            end_after_error(&array, chunks);
            Some(array)
        }
        Err(error) => Some(Err(error)),
    }
}

/// Gives the rows of pages in arrays.
#[derive(Drop)]
pub struct FlatIter<I: Pages, V: IntoArray> {
    alloc: Global,
    data_type: DataType,
    chunks: Chunks<I, FlatDecoder<V>>,
}

impl<I: Pages, V: IntoArray> Model for FlatIter<I, V> {
    ghost use Rattle.columns_core.specs.contracts.cell.Cell.{the_row as cell_row};
    ghost use Rattle.columns_core.specs.contracts.data_type.DataType.{the_row as data_type_row};
    ghost use Rattle.flat_values.specs.Arrays.{ArraysLeft, arrays_code};

    ghost Value = { ArraysLeft I V };

    ghost coded = { arrays_code I.code V.code data_type_row.coded cell_row.coded };

    ghost view = { λ iter. record { data_type = iter.data_type; chunks = iter.chunks } };

    ghost invariant = { λ iter. V.is_type iter.chunks.decoder.values iter.data_type };
}

impl<I: Pages, V: IntoArray + Drop> FlatIter<I, V> {
    /// The rows of these pages, at most so many, in arrays of a type.
    pub fn of_values(
        alloc: Global,
        pages: I,
        values: V,
        data_type: DataType,
        num_rows: usize,
        chunk_size: Option<usize>,
    ) -> Result<Self, Error>
        requires takes { DataPagesAre (λ page. page.type.physical_type ≡ V.physical values)
            (I.to_come pages) }
        ensures ok { IfOk result (λ _. IsChunkSize chunk_size × V.is_type values data_type) }
        ensures err { IfErr result (λ e. IsTrue (is_invalid_argument e)
            × (IsChunkSize chunk_size → V.is_type values data_type → ⊥)) }
        ensures iter { IfOk result (λ iter.
            iter ≡ record {
              data_type = data_type;
              chunks = record {
                pages = pages;
                decoder = record { values = values };
                size = chunk_size;
                waiting = [];
                remaining = num_rows;
                dictionary = None;
              };
            }) }
    {
        if !values.fits(&data_type) {
            return Err(Error::InvalidArgumentError(Part::Request));
        }
        let chunks = Chunks::new(alloc, pages, FlatDecoder { values }, num_rows, chunk_size)?;
        Ok(FlatIter {
            alloc,
            data_type,
            chunks,
        })
    }

    /// The next array, and a step for each page that is lent for it. After an error or the end there is none.
    pub fn next_counted<L: Ledger>(
        &mut self,
        steps: &mut Steps<L>,
    ) -> Option<Result<V::Array, Error>>
        ensures given { let left = flat_left V.most_bytes V.rule V.physical I.to_come I.causes I.row_count
            I.lent_count self.old.data_type in
            GivesColumn V.array_type V.array_cells (left self.old.chunks) result
            (left self.new.chunks) steps.old steps.new }
        ensures decoder { self.new.chunks.decoder ≡ self.old.chunks.decoder }
        ensures data_type { self.new.data_type ≡ self.old.data_type }
    {
        read_array(self.alloc, &self.data_type, &mut self.chunks, steps)
    }

    /// How many pages were lent, at most `usize::MAX`.
    pub fn lent(&self) -> usize
        ensures { result ≡ I.lent_count self.now.chunks.pages }
    {
        self.chunks.lent()
    }
}

/// The next array, over steps of its own.
fn next_alone<I: Pages, V: IntoArray + Drop, L: Ledger>(
    arrays: &mut FlatIter<I, V>,
    blank: Blank,
) -> Option<Result<V::Array, Error>>
    requires name { blank.name ≡ L.name }
    requires parts { blank.parts ≡ L.parts }
    requires whole { 0 < blank.parts }
    ensures given { let left = flat_left V.most_bytes V.rule V.physical I.to_come I.causes I.row_count
        I.lent_count in
        GivesArray V.array_type V.array_cells
        (left arrays.old.data_type arrays.old.chunks) result (left arrays.new.data_type arrays.new.chunks) }
    ensures decoder { arrays.new.chunks.decoder ≡ arrays.old.chunks.decoder }
{
    let mut steps = Steps::<L>::new(blank);
    arrays.next_counted(&mut steps)
}

/// The arrays of a column, over steps of their own.
impl<I: Pages, V: IntoArray + Drop> Iterator for FlatIter<I, V> {
    ghost use Rattle.flat_values.specs.Arrays.{GivesFlat, flat_left};
    ghost use Rattle.flat_values.specs.ColumnLeft.{arrays_at_most};

    type Item = Result<V::Array, Error>;

    ghost next_gives = { GivesFlat V.most_bytes V.rule V.physical I.to_come I.causes I.row_count I.lent_count V.array_type V.array_cells };

    ghost remaining = { λ iter. arrays_at_most (flat_left V.most_bytes V.rule V.physical I.to_come I.causes I.row_count I.lent_count iter.data_type iter.chunks) };

    fn next(&mut self) -> Option<Result<V::Array, Error>> {
        next_alone::<I, V, Brand>(self, Blank::new(1))
    }
}

/// The arrays as those of a column of any type.
impl<I: Pages, V: IntoColumn + Drop> ColumnArrays for FlatIter<I, V> {
    ghost use Rattle.flat_values.specs.Arrays.{flat_left};

    ghost left = { λ iter. flat_left V.most_bytes V.rule V.physical I.to_come I.causes I.row_count I.lent_count iter.data_type iter.chunks };

    fn next_counted<L: Ledger>(&mut self, steps: &mut Steps<L>) -> Option<Result<Array, Error>> {
        match read_array(self.alloc, &self.data_type, &mut self.chunks, steps)? {
            Ok(array) => Some(Ok(V::into_column(array))),
            Err(error) => Some(Err(error)),
        }
    }

    fn lent(&self) -> usize {
        self.chunks.lent()
    }
}
