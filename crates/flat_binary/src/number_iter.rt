//! Arrays of columns of numbers, by what the numbers become.
use crate::begin::let_go;
use columns_core::{Array, Error};
use flat_values::{ColumnArrays, DaysToMillis, Keep, Narrow, Scale, Widen, primitive};
use parquet_base::Steps;
use parquet_page::Pages;
use std::sync::ledger::Ledger;

/// Arrays of a column of numbers of 32 bits.
pub enum Int32Iter<I: Pages> {
    Int32(primitive::Iter<i32, I, i32, Keep>),
    UInt8(primitive::Iter<u8, I, i32, Narrow>),
    UInt16(primitive::Iter<u16, I, i32, Narrow>),
    UInt32(primitive::Iter<u32, I, i32, Narrow>),
    Int8(primitive::Iter<i8, I, i32, Narrow>),
    Int16(primitive::Iter<i16, I, i32, Narrow>),
    Millis(primitive::Iter<i64, I, i32, DaysToMillis>),
    Decimal(primitive::Iter<i128, I, i32, Widen>),
}

impl<I: Pages> Drop for Int32Iter<I> {
    fn drop(self) {
        match self {
            Int32Iter::Int32(arrays) => let_go(arrays),
            Int32Iter::UInt8(arrays) => let_go(arrays),
            Int32Iter::UInt16(arrays) => let_go(arrays),
            Int32Iter::UInt32(arrays) => let_go(arrays),
            Int32Iter::Int8(arrays) => let_go(arrays),
            Int32Iter::Int16(arrays) => let_go(arrays),
            Int32Iter::Millis(arrays) => let_go(arrays),
            Int32Iter::Decimal(arrays) => let_go(arrays),
        }
    }
}

impl<I: Pages> ColumnArrays for Int32Iter<I> {
    ghost use Rattle.flat_binary.specs.Layers.{int32_left};

    ghost left = { int32_left I.to_come I.causes I.row_count I.lent_count };

    fn next_counted<L: Ledger>(&mut self, steps: &mut Steps<L>) -> Option<Result<Array, Error>> {
        match self {
            Int32Iter::Int32(arrays) => ColumnArrays::next_counted(arrays, steps),
            Int32Iter::UInt8(arrays) => ColumnArrays::next_counted(arrays, steps),
            Int32Iter::UInt16(arrays) => ColumnArrays::next_counted(arrays, steps),
            Int32Iter::UInt32(arrays) => ColumnArrays::next_counted(arrays, steps),
            Int32Iter::Int8(arrays) => ColumnArrays::next_counted(arrays, steps),
            Int32Iter::Int16(arrays) => ColumnArrays::next_counted(arrays, steps),
            Int32Iter::Millis(arrays) => ColumnArrays::next_counted(arrays, steps),
            Int32Iter::Decimal(arrays) => ColumnArrays::next_counted(arrays, steps),
        }
    }

    fn lent(&self) -> usize {
        match self {
            Int32Iter::Int32(arrays) => arrays.lent(),
            Int32Iter::UInt8(arrays) => arrays.lent(),
            Int32Iter::UInt16(arrays) => arrays.lent(),
            Int32Iter::UInt32(arrays) => arrays.lent(),
            Int32Iter::Int8(arrays) => arrays.lent(),
            Int32Iter::Int16(arrays) => arrays.lent(),
            Int32Iter::Millis(arrays) => arrays.lent(),
            Int32Iter::Decimal(arrays) => arrays.lent(),
        }
    }
}

/// Arrays of a column of numbers of 64 bits.
pub enum Int64Iter<I: Pages> {
    Int64(primitive::Iter<i64, I, i64, Keep>),
    Timestamp(primitive::Iter<i64, I, i64, Scale>),
    UInt32(primitive::Iter<u32, I, i64, Narrow>),
    UInt64(primitive::Iter<u64, I, i64, Narrow>),
    Decimal(primitive::Iter<i128, I, i64, Widen>),
}

impl<I: Pages> Drop for Int64Iter<I> {
    fn drop(self) {
        match self {
            Int64Iter::Int64(arrays) => let_go(arrays),
            Int64Iter::Timestamp(arrays) => let_go(arrays),
            Int64Iter::UInt32(arrays) => let_go(arrays),
            Int64Iter::UInt64(arrays) => let_go(arrays),
            Int64Iter::Decimal(arrays) => let_go(arrays),
        }
    }
}

impl<I: Pages> ColumnArrays for Int64Iter<I> {
    ghost use Rattle.flat_binary.specs.Layers.{int64_left};

    ghost left = { int64_left I.to_come I.causes I.row_count I.lent_count };

    fn next_counted<L: Ledger>(&mut self, steps: &mut Steps<L>) -> Option<Result<Array, Error>> {
        match self {
            Int64Iter::Int64(arrays) => ColumnArrays::next_counted(arrays, steps),
            Int64Iter::Timestamp(arrays) => ColumnArrays::next_counted(arrays, steps),
            Int64Iter::UInt32(arrays) => ColumnArrays::next_counted(arrays, steps),
            Int64Iter::UInt64(arrays) => ColumnArrays::next_counted(arrays, steps),
            Int64Iter::Decimal(arrays) => ColumnArrays::next_counted(arrays, steps),
        }
    }

    fn lent(&self) -> usize {
        match self {
            Int64Iter::Int64(arrays) => arrays.lent(),
            Int64Iter::Timestamp(arrays) => arrays.lent(),
            Int64Iter::UInt32(arrays) => arrays.lent(),
            Int64Iter::UInt64(arrays) => arrays.lent(),
            Int64Iter::Decimal(arrays) => arrays.lent(),
        }
    }
}
