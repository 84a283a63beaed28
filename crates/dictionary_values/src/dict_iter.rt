//! The arrays of a column of keys, one after another.
ghost use Rattle.std.specs.Prelude.{◌≡◌, ◌<◌, IsTrue, Some, true, if◌then◌else◌, is_ok, [], None, IfErr, IfOk};
ghost use Rattle.columns_core.specs.Causes.{is_invalid_argument};
ghost use Rattle.columns_core.specs.DictionaryType.{IsDictionaryOf};
ghost use Rattle.columns_core.specs.Keyed.{named_cells};
ghost use Rattle.columns_core.specs.declared.dictionary.DictionaryArray.{DictionaryArray};
ghost use Rattle.parquet_page.specs.Lending.{has_data_behind};
ghost use Rattle.page_decoding.specs.Chunks.{IfGiven, ended, standing_of};
ghost use Rattle.page_decoding.specs.Queue.{IsChunkSize};
ghost use Rattle.flat_values.specs.ColumnLeft.{GivesArray, GivesColumn};
ghost use Rattle.dictionary_values.specs.DictLeft.{IsKeyed, array_type, keyed_left, keys_decoding};

use crate::key_array::array_of;
use crate::{KeyDecoder, ReadDict, StoredKey};
use columns_core::{Array, DataType, DictionaryArray, Error};
use flat_values::ColumnArrays;
use page_decoding::Chunks;
use parquet_base::Steps;
use parquet_page::Pages;
use std::alloc::Global;
use std::iter::Iterator;
use std::marker::{Brand, Model};
use std::sync::ledger::{Blank, Ledger};

/// After an error no row is wanted.
fn end_after_error<K: StoredKey, R: ReadDict + Drop, I: Pages>(
    array: &Result<DictionaryArray, Error>,
    chunks: &mut Chunks<I, KeyDecoder<K, R>>,
)
    ensures { chunks.new ≡ (if is_ok array.now then chunks.old else ended chunks.old) }
{
    if array.is_err() {
        chunks.end();
    }
}

/// The array of the next chunk of keys, with all entries of the dictionary. After an error or the end there is none.
fn read_array<K: StoredKey, R: ReadDict + Drop, I: Pages, L: Ledger>(
    alloc: Global,
    data_type: &DataType,
    chunks: &mut Chunks<I, KeyDecoder<K, R>>,
    steps: &mut Steps<L>,
) -> Option<Result<DictionaryArray, Error>>
    requires typed { IsDictionaryOf K.key_type (R.value_type chunks.old.decoder.read_dict) data_type.now }
    requires keyed { IsKeyed (standing_of chunks.old) (I.to_come chunks.old.pages) }
    ensures given { let decode = λ (d : KeyDecoder K R). keys_decoding (R.entries d.read_dict) K.key_count in
        let left = keyed_left decode I.to_come I.causes I.row_count I.lent_count data_type.now in
        GivesColumn array_type named_cells (left chunks.old) result (left chunks.new) steps.old steps.new }
    ensures entries { IfGiven result (λ array. chunks.new.dictionary ≡ Some array.entries) }
    ensures keyed { IsKeyed (standing_of chunks.new) (I.to_come chunks.new.pages) }
    ensures decoder { chunks.new.decoder ≡ chunks.old.decoder }
{
    match chunks.next_counted(steps)? {
        Ok(keys) => match chunks.dictionary() {
            Some(entries) => {
                let array = array_of(alloc, keys, entries, data_type);
                end_after_error(&array, chunks);
                Some(array)
            }
            None => unreachable!(),
        },
        Err(error) => Some(Err(error)),
    }
}

/// Gives the rows of pages of keys in arrays, each with all entries of the dictionary.
#[derive(Drop)]
pub struct DictIter<K: StoredKey, R: ReadDict, I: Pages> {
    alloc: Global,
    data_type: DataType,
    chunks: Chunks<I, KeyDecoder<K, R>>,
}

impl<K: StoredKey, R: ReadDict, I: Pages> Model for DictIter<K, R, I> {
    ghost use Rattle.columns_core.specs.contracts.cell.Cell.{the_row as cell_row};
    ghost use Rattle.columns_core.specs.contracts.data_type.DataType.{the_row as data_type_row};
    ghost use Rattle.columns_core.specs.DictionaryType.{IsDictionaryOf};
    ghost use Rattle.page_decoding.specs.Chunks.{standing_of};
    ghost use Rattle.dictionary_values.specs.DictLeft.{DictLeft, IsKeyed, dict_code, read_by};

    ghost Value = { DictLeft I R };

    ghost coded = { dict_code I.code R.code data_type_row.coded cell_row.coded };

    ghost view = { λ iter. record { data_type = iter.data_type; chunks = read_by iter.chunks } };

    ghost invariant = { λ iter. record {
      typed : IsDictionaryOf K.key_type (R.value_type iter.chunks.decoder.read_dict) iter.data_type;
      keyed : IsKeyed (standing_of iter.chunks) (I.to_come iter.chunks.pages);
    } };
}

impl<K: StoredKey, R: ReadDict + Drop, I: Pages> DictIter<K, R, I> {
    /// The rows of these pages, at most so many, as arrays of a dictionary type over the entries that are read.
    pub fn of_reader(
        alloc: Global,
        pages: I,
        read_dict: R,
        data_type: DataType,
        num_rows: usize,
        chunk_size: Option<usize>,
    ) -> Result<Self, Error>
        requires fits { IsDictionaryOf K.key_type (R.value_type read_dict) data_type }
        requires ordered { has_data_behind (I.to_come pages) ≡ true }
        ensures ok { IfOk result (λ _. IsChunkSize chunk_size) }
        ensures err { IfErr result (λ e.
            IsTrue (is_invalid_argument e) × (IsChunkSize chunk_size → ⊥)) }
        ensures iter { IfOk result (λ iter. iter ≡ record {
          data_type = data_type;
          chunks = record {
            pages = pages;
            decoder = read_dict;
            size = chunk_size;
            waiting = [];
            remaining = num_rows;
            dictionary = None;
          };
        }) }
    {
        let decoder = KeyDecoder::new(read_dict);
        let chunks = Chunks::new(alloc, pages, decoder, num_rows, chunk_size)?;
        Ok(DictIter {
            alloc,
            data_type,
            chunks,
        })
    }

    /// The next array, and a step for each page that is lent for it. After an error or the end there is none.
    pub fn next_counted<L: Ledger>(
        &mut self,
        steps: &mut Steps<L>,
    ) -> Option<Result<DictionaryArray, Error>>
        ensures given { let decoding = λ (reader : R). keys_decoding (R.entries reader) K.key_count in
            let left = keyed_left decoding I.to_come I.causes I.row_count I.lent_count in
            GivesColumn array_type named_cells
            (left self.old.data_type self.old.chunks) result
            (left self.new.data_type self.new.chunks) steps.old steps.new }
        ensures entries { IfGiven result (λ array. self.new.chunks.dictionary ≡ Some array.entries) }
        ensures read_dict { self.new.chunks.decoder ≡ self.old.chunks.decoder }
        ensures data_type { self.new.data_type ≡ self.old.data_type }
    {
        read_array(self.alloc, &self.data_type, &mut self.chunks, steps)
    }

    /// How many pages were lent, at most `usize::MAX`.
    pub fn lent(&self) -> usize
        ensures { result ≡ I.lent_count self.now.chunks.pages }
    {
        self.chunks.lent()
    }
}

/// The next array, over steps of its own.
fn next_alone<K: StoredKey, R: ReadDict + Drop, I: Pages, L: Ledger>(
    arrays: &mut DictIter<K, R, I>,
    blank: Blank,
) -> Option<Result<DictionaryArray, Error>>
    requires name { blank.name ≡ L.name }
    requires parts { blank.parts ≡ L.parts }
    requires whole { 0 < blank.parts }
    ensures given { let decoding = λ (reader : R). keys_decoding (R.entries reader) K.key_count in
        let left = keyed_left decoding I.to_come I.causes I.row_count I.lent_count in
        GivesArray array_type named_cells
        (left arrays.old.data_type arrays.old.chunks) result (left arrays.new.data_type arrays.new.chunks) }
    ensures entries { IfGiven result (λ array. arrays.new.chunks.dictionary ≡ Some array.entries) }
{
    let mut steps = Steps::<L>::new(blank);
    arrays.next_counted(&mut steps)
}

/// The arrays of a column, over steps of their own.
impl<K: StoredKey, R: ReadDict + Drop, I: Pages> Iterator for DictIter<K, R, I> {
    ghost use Rattle.flat_values.specs.ColumnLeft.{arrays_at_most};
    ghost use Rattle.dictionary_values.specs.DictLeft.{GivesDict, dict_left};

    type Item = Result<DictionaryArray, Error>;

    ghost next_gives = { GivesDict (λ reader. keys_decoding (R.entries reader) K.key_count) I.to_come I.causes I.row_count I.lent_count };

    ghost remaining = { λ iter. arrays_at_most (dict_left (λ reader. keys_decoding (R.entries reader) K.key_count) I.to_come I.causes I.row_count I.lent_count iter) };

    fn next(&mut self) -> Option<Result<DictionaryArray, Error>> {
        next_alone::<K, R, I, Brand>(self, Blank::new(1))
    }
}

/// The arrays as those of a column of any type.
impl<K: StoredKey, R: ReadDict + Drop, I: Pages> ColumnArrays for DictIter<K, R, I> {
    ghost use Rattle.dictionary_values.specs.DictLeft.{dict_left};

    ghost left = { dict_left (λ reader. keys_decoding (R.entries reader) K.key_count) I.to_come I.causes I.row_count I.lent_count };

    fn next_counted<L: Ledger>(&mut self, steps: &mut Steps<L>) -> Option<Result<Array, Error>> {
        match read_array(self.alloc, &self.data_type, &mut self.chunks, steps)? {
            Ok(array) => Some(Ok(Array::Dictionary(array))),
            Err(error) => Some(Err(error)),
        }
    }

    fn lent(&self) -> usize {
        self.chunks.lent()
    }
}
