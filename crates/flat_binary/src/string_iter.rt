//! Arrays of columns of byte strings, of one size or of their own, by what the strings become.
use binary_values::binary;
use columns_core::{Array, Error, days_ms};
use flat_values::{
    ColumnArrays, DaysAndMillis, Decimals, FixedNumbers, FlatIter, Months, fixed_size_binary,
};
use parquet_base::Steps;
use parquet_page::Pages;
use std::sync::ledger::Ledger;

/// Arrays of a column of byte strings of one size.
#[derive(Drop)]
pub enum FixedIter<I: Pages> {
    Strings(fixed_size_binary::Iter<I>),
    Decimals(FlatIter<I, FixedNumbers<i128, Decimals>>),
    Months(FlatIter<I, FixedNumbers<i32, Months>>),
    DaysAndMillis(FlatIter<I, FixedNumbers<days_ms, DaysAndMillis>>),
}

impl<I: Pages> ColumnArrays for FixedIter<I> {
    ghost use Rattle.flat_binary.specs.Layers.{fixed_left};

    ghost left = { fixed_left I.to_come I.causes I.row_count I.lent_count };

    fn next_counted<L: Ledger>(&mut self, steps: &mut Steps<L>) -> Option<Result<Array, Error>> {
        match self {
            FixedIter::Strings(arrays) => ColumnArrays::next_counted(arrays, steps),
            FixedIter::Decimals(arrays) => ColumnArrays::next_counted(arrays, steps),
            FixedIter::Months(arrays) => ColumnArrays::next_counted(arrays, steps),
            FixedIter::DaysAndMillis(arrays) => ColumnArrays::next_counted(arrays, steps),
        }
    }

    fn lent(&self) -> usize {
        match self {
            FixedIter::Strings(arrays) => arrays.lent(),
            FixedIter::Decimals(arrays) => arrays.lent(),
            FixedIter::Months(arrays) => arrays.lent(),
            FixedIter::DaysAndMillis(arrays) => arrays.lent(),
        }
    }
}

/// Arrays of a column of byte strings that tell their own lengths.
#[derive(Drop)]
pub enum BytesIter<I: Pages> {
    Bytes(binary::Iter<i32, I>),
    LargeBytes(binary::Iter<i64, I>),
}

impl<I: Pages> ColumnArrays for BytesIter<I> {
    ghost use Rattle.flat_binary.specs.Layers.{strings_left_by};

    ghost left = { strings_left_by I.to_come I.causes I.row_count I.lent_count };

    fn next_counted<L: Ledger>(&mut self, steps: &mut Steps<L>) -> Option<Result<Array, Error>> {
        match self {
            BytesIter::Bytes(arrays) => arrays.next_counted(steps),
            BytesIter::LargeBytes(arrays) => arrays.next_counted(steps),
        }
    }

    fn lent(&self) -> usize {
        match self {
            BytesIter::Bytes(arrays) => arrays.lent(),
            BytesIter::LargeBytes(arrays) => arrays.lent(),
        }
    }
}
