//! Arrays of a column of any type, one after another.
ghost use Rattle.std.specs.Prelude.{◌≡◌, ◌<◌};
ghost use Rattle.columns_core.specs.Array.{cells, data_type_of};
ghost use Rattle.flat_values.specs.ColumnLeft.{GivesArray};

use crate::begin::let_go;
use crate::key_iter::KeysIter;
use crate::number_iter::{Int32Iter, Int64Iter};
use crate::string_iter::{BytesIter, FixedIter};
use columns_core::{Array, Error};
use flat_values::{ColumnArrays, Int96Time, NullIter, boolean, primitive};
use parquet_base::Steps;
use parquet_page::Pages;
use std::iter::Iterator;
use std::marker::Brand;
use std::sync::ledger::{Blank, Ledger};

/// Arrays of a column: of values by the type that they are stored as, of nulls, and of keys.
pub enum ArrayIter<I: Pages> {
    Null(NullIter),
    Boolean(boolean::Iter<I>),
    Int32(Int32Iter<I>),
    Int64(Int64Iter<I>),
    Int96(primitive::Iter<i64, I, [u32; 3], Int96Time>),
    Fixed(FixedIter<I>),
    Bytes(BytesIter<I>),
    Keys(KeysIter<I>),
}

impl<I: Pages> Drop for ArrayIter<I> {
    fn drop(self) {
        match self {
            ArrayIter::Null(arrays) => drop(arrays),
            ArrayIter::Boolean(arrays) => let_go(arrays),
            ArrayIter::Int32(arrays) => drop(arrays),
            ArrayIter::Int64(arrays) => drop(arrays),
            ArrayIter::Int96(arrays) => let_go(arrays),
            ArrayIter::Fixed(arrays) => drop(arrays),
            ArrayIter::Bytes(arrays) => drop(arrays),
            ArrayIter::Keys(arrays) => drop(arrays),
        }
    }
}

impl<I: Pages> ColumnArrays for ArrayIter<I> {
    ghost use Rattle.flat_binary.specs.Layers.{array_left};

    ghost left = { array_left I.to_come I.causes I.row_count I.lent_count };

    fn next_counted<L: Ledger>(&mut self, steps: &mut Steps<L>) -> Option<Result<Array, Error>> {
        match self {
            ArrayIter::Null(arrays) => ColumnArrays::next_counted(arrays, steps),
            ArrayIter::Boolean(arrays) => ColumnArrays::next_counted(arrays, steps),
            ArrayIter::Int32(arrays) => arrays.next_counted(steps),
            ArrayIter::Int64(arrays) => arrays.next_counted(steps),
            ArrayIter::Int96(arrays) => ColumnArrays::next_counted(arrays, steps),
            ArrayIter::Fixed(arrays) => arrays.next_counted(steps),
            ArrayIter::Bytes(arrays) => arrays.next_counted(steps),
            ArrayIter::Keys(arrays) => arrays.next_counted(steps),
        }
    }

    fn lent(&self) -> usize {
        match self {
            ArrayIter::Null(arrays) => arrays.lent(),
            ArrayIter::Boolean(arrays) => arrays.lent(),
            ArrayIter::Int32(arrays) => arrays.lent(),
            ArrayIter::Int64(arrays) => arrays.lent(),
            ArrayIter::Int96(arrays) => arrays.lent(),
            ArrayIter::Fixed(arrays) => arrays.lent(),
            ArrayIter::Bytes(arrays) => arrays.lent(),
            ArrayIter::Keys(arrays) => arrays.lent(),
        }
    }
}

/// The next array, over steps of its own.
fn next_alone<A: ColumnArrays, L: Ledger>(
    arrays: &mut A,
    blank: Blank,
) -> Option<Result<Array, Error>>
    requires name { blank.name ≡ L.name }
    requires parts { blank.parts ≡ L.parts }
    requires whole { 0 < blank.parts }
    ensures given { GivesArray data_type_of cells (A.left arrays.old) result (A.left arrays.new) }
{
    let mut steps = Steps::<L>::new(blank);
    arrays.next_counted(&mut steps)
}

/// The same, over steps of their own.
impl<I: Pages> Iterator for ArrayIter<I> {
    ghost use Rattle.flat_binary.specs.Layers.{GivesNextArray, arrays_to_come};

    type Item = Result<Array, Error>;

    ghost next_gives = { GivesNextArray I.to_come I.causes I.row_count I.lent_count };

    ghost remaining = { arrays_to_come I.to_come I.causes I.row_count I.lent_count };

    fn next(&mut self) -> Option<Result<Array, Error>> {
        next_alone::<ArrayIter<I>, Brand>(self, Blank::new(1))
    }
}
