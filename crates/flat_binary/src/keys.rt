//! Dictionary columns, by the type of their keys and the pair of the stored type and the type of the entries.
ghost use Rattle.std.specs.Prelude.{◌≡◌, IfSome, None, Some, true};
ghost use Rattle.std.specs.Option.{option_copied};
ghost use Rattle.columns_core.specs.DictionaryType.{entry_type, key_type};
ghost use Rattle.page_decoding.specs.Queue.{IsChunkSize};
ghost use Rattle.parquet_page.specs.Lending.{has_data_behind};
ghost use Rattle.flat_values.specs.Pairs.{entry_from_physical};
ghost use Rattle.dictionary_values.specs.DictLeft.{dict_left, keys_decoding};
ghost use Rattle.dictionary_values.specs.Keys.{keys_of};
ghost use Rattle.flat_binary.specs.Left.{converted_left, decoded_left, supply_of};
ghost use Rattle.flat_binary.specs.Decoding.{entry_conversion};
ghost use Rattle.flat_binary.specs.Begun.{BeginsColumn, IsRefusedPair};
ghost use Rattle.flat_binary.specs.EntryReaders.{Reader, entries_read, reader_type};
ghost use Rattle.flat_binary.specs.Layers.{array_left, keyed_column_left};

use crate::array_iter::ArrayIter;
use crate::entry_reader::EntryReader;
use crate::key_iter::KeysIter;
use crate::readers::entry_reader;
use columns_core::{DataType, Error, IntegerType, Part};
use dictionary_values::{DictIter, StoredKey};
use parquet_meta::{PhysicalType, PrimitiveLogicalType};
use parquet_page::Pages;
use std::alloc::Global;

/// The rows of pages, at most so many, in arrays of a dictionary type.
pub(crate) fn keys_iter<I: Pages>(
    alloc: Global,
    pages: I,
    physical: PhysicalType,
    logical: Option<&PrimitiveLogicalType>,
    data_type: DataType,
    chunk_size: Option<usize>,
    num_rows: usize,
) -> Result<ArrayIter<I>, Error>
    requires ordered { has_data_behind (I.to_come pages) ≡ true }
    requires size { IsChunkSize chunk_size }
    ensures begins { let table = entry_from_physical physical (option_copied logical.entry) in
        IfSome (entry_conversion table data_type) (λ rule.
        let supply = supply_of I.to_come I.causes I.row_count I.lent_count pages in
        let left = array_left I.to_come I.causes I.row_count I.lent_count in
        BeginsColumn left (converted_left physical data_type chunk_size num_rows supply rule) result) }
    ensures refused { let table = entry_from_physical physical (option_copied logical.entry) in
        entry_conversion table data_type ≡ None → IsRefusedPair result }
{
    let DataType::Dictionary(key, entry, _) = &data_type else {
        return Err(Error::NotYetImplemented(Part::Schema));
    };
    let key = *key;
    let reader = entry_reader(alloc, physical, logical, entry.get())?;
    let arrays = keys_of_type(alloc, pages, reader, key, data_type, chunk_size, num_rows)?;
    Ok(ArrayIter::Keys(arrays))
}

/// By a reader of the entries.
fn keys_of_type<I: Pages>(
    alloc: Global,
    pages: I,
    reader: EntryReader,
    key: IntegerType,
    data_type: DataType,
    chunk_size: Option<usize>,
    num_rows: usize,
) -> Result<KeysIter<I>, Error>
    requires keyed { key_type data_type ≡ Some key }
    requires fits { entry_type data_type ≡ Some (reader_type reader) }
    requires ordered { has_data_behind (I.to_come pages) ≡ true }
    requires size { IsChunkSize chunk_size }
    ensures { let supply = supply_of I.to_come I.causes I.row_count I.lent_count pages in
        let decoding = keys_decoding (entries_read reader) (keys_of key) in
        let left = keyed_column_left I.to_come I.causes I.row_count I.lent_count in
        BeginsColumn left (decoded_left decoding data_type chunk_size num_rows supply) result }
{
    match key {
        IntegerType::Int8 => {
            let arrays = keys_in::<i8, I>(alloc, pages, reader, data_type, chunk_size, num_rows)?;
            Ok(KeysIter::Int8(arrays))
        }
        IntegerType::Int16 => {
            let arrays = keys_in::<i16, I>(alloc, pages, reader, data_type, chunk_size, num_rows)?;
            Ok(KeysIter::Int16(arrays))
        }
        IntegerType::Int32 => {
            let arrays = keys_in::<i32, I>(alloc, pages, reader, data_type, chunk_size, num_rows)?;
            Ok(KeysIter::Int32(arrays))
        }
        IntegerType::Int64 => {
            let arrays = keys_in::<i64, I>(alloc, pages, reader, data_type, chunk_size, num_rows)?;
            Ok(KeysIter::Int64(arrays))
        }
        IntegerType::UInt8 => {
            let arrays = keys_in::<u8, I>(alloc, pages, reader, data_type, chunk_size, num_rows)?;
            Ok(KeysIter::UInt8(arrays))
        }
        IntegerType::UInt16 => {
            let arrays = keys_in::<u16, I>(alloc, pages, reader, data_type, chunk_size, num_rows)?;
            Ok(KeysIter::UInt16(arrays))
        }
        IntegerType::UInt32 => {
            let arrays = keys_in::<u32, I>(alloc, pages, reader, data_type, chunk_size, num_rows)?;
            Ok(KeysIter::UInt32(arrays))
        }
        IntegerType::UInt64 => {
            let arrays = keys_in::<u64, I>(alloc, pages, reader, data_type, chunk_size, num_rows)?;
            Ok(KeysIter::UInt64(arrays))
        }
    }
}

/// By keys of one type.
fn keys_in<K: StoredKey, I: Pages>(
    alloc: Global,
    pages: I,
    reader: EntryReader,
    data_type: DataType,
    chunk_size: Option<usize>,
    num_rows: usize,
) -> Result<DictIter<K, EntryReader, I>, Error>
    requires keyed { key_type data_type ≡ Some K.key_type }
    requires fits { entry_type data_type ≡ Some (reader_type reader) }
    requires ordered { has_data_behind (I.to_come pages) ≡ true }
    requires size { IsChunkSize chunk_size }
    ensures { let supply = supply_of I.to_come I.causes I.row_count I.lent_count pages in
        let decoding = λ (own : Reader). keys_decoding (entries_read own) K.key_count in
        let left = dict_left decoding I.to_come I.causes I.row_count I.lent_count in
        BeginsColumn left (decoded_left (decoding reader) data_type chunk_size num_rows supply) result }
{
    DictIter::of_reader(alloc, pages, reader, data_type, num_rows, chunk_size)
}
