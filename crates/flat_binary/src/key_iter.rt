//! Arrays of dictionary columns, by the type of their keys.
use crate::entry_reader::EntryReader;
use columns_core::{Array, Error};
use dictionary_values::{DictIter, ReadDict, StoredKey};
use flat_values::ColumnArrays;
use parquet_base::Steps;
use parquet_page::Pages;
use std::sync::ledger::Ledger;

/// Arrays of a dictionary column, whatever its entries are.
pub enum KeysIter<I: Pages> {
    Int8(DictIter<i8, EntryReader, I>),
    Int16(DictIter<i16, EntryReader, I>),
    Int32(DictIter<i32, EntryReader, I>),
    Int64(DictIter<i64, EntryReader, I>),
    UInt8(DictIter<u8, EntryReader, I>),
    UInt16(DictIter<u16, EntryReader, I>),
    UInt32(DictIter<u32, EntryReader, I>),
    UInt64(DictIter<u64, EntryReader, I>),
}

/// Drops an iterator of keys.
fn let_keys_go<K: StoredKey, R: ReadDict + Drop, I: Pages>(arrays: DictIter<K, R, I>) {
    drop(arrays);
}

impl<I: Pages> Drop for KeysIter<I> {
    fn drop(self) {
        match self {
            KeysIter::Int8(arrays) => let_keys_go(arrays),
            KeysIter::Int16(arrays) => let_keys_go(arrays),
            KeysIter::Int32(arrays) => let_keys_go(arrays),
            KeysIter::Int64(arrays) => let_keys_go(arrays),
            KeysIter::UInt8(arrays) => let_keys_go(arrays),
            KeysIter::UInt16(arrays) => let_keys_go(arrays),
            KeysIter::UInt32(arrays) => let_keys_go(arrays),
            KeysIter::UInt64(arrays) => let_keys_go(arrays),
        }
    }
}

impl<I: Pages> ColumnArrays for KeysIter<I> {
    ghost use Rattle.flat_binary.specs.Layers.{keyed_column_left};

    ghost left = { keyed_column_left I.to_come I.causes I.row_count I.lent_count };

    fn next_counted<L: Ledger>(&mut self, steps: &mut Steps<L>) -> Option<Result<Array, Error>> {
        match self {
            KeysIter::Int8(arrays) => ColumnArrays::next_counted(arrays, steps),
            KeysIter::Int16(arrays) => ColumnArrays::next_counted(arrays, steps),
            KeysIter::Int32(arrays) => ColumnArrays::next_counted(arrays, steps),
            KeysIter::Int64(arrays) => ColumnArrays::next_counted(arrays, steps),
            KeysIter::UInt8(arrays) => ColumnArrays::next_counted(arrays, steps),
            KeysIter::UInt16(arrays) => ColumnArrays::next_counted(arrays, steps),
            KeysIter::UInt32(arrays) => ColumnArrays::next_counted(arrays, steps),
            KeysIter::UInt64(arrays) => ColumnArrays::next_counted(arrays, steps),
        }
    }

    fn lent(&self) -> usize {
        match self {
            KeysIter::Int8(arrays) => arrays.lent(),
            KeysIter::Int16(arrays) => arrays.lent(),
            KeysIter::Int32(arrays) => arrays.lent(),
            KeysIter::Int64(arrays) => arrays.lent(),
            KeysIter::UInt8(arrays) => arrays.lent(),
            KeysIter::UInt16(arrays) => arrays.lent(),
            KeysIter::UInt32(arrays) => arrays.lent(),
            KeysIter::UInt64(arrays) => arrays.lent(),
        }
    }
}
