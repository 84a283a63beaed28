//! Arrays of columns, from the bytes of their chunks.
ghost use Rattle.std.specs.Prelude.{◌≡◌, ◌<◌, IfOk};
ghost use Rattle.page_decoding.specs.Column.{DataPagesAre};
ghost use Rattle.parquet_meta.specs.declared.metadata.PhysicalType.TheVariants.{Boolean, FixedLenByteArray, Int32};
ghost use Rattle.parquet_page.specs.Indexed.{indexed_pages};

use columns_core::{
    BooleanArray, DataType, Error, FixedSizeBinaryArray, IntervalUnit, MutablePrimitiveArray,
    NativeType, Part, days_ms,
};
use flat_values::{
    DaysAndMillis, DaysToMillis, Decimals, FixedNumbers, FixedValues, FlatIter, IntoArray, Keep,
    Months, NumberValues, TruthValues, Values, boolean, fixed_size_binary, null, primitive,
};
use pages_for_tests::Page::{Entries, First, Second};
use pages_for_tests::{Page, Stored, chunk_of, column, pages_of};
use parquet_base::Steps;
use parquet_meta::Repetition::{Optional, Required};
use parquet_meta::{PageLocation, PhysicalType, Repetition};
use parquet_page::{IndexedPageReader, Interval, Pages, select_pages};
use std::alloc::{AllocError, Global};
use std::iter::Iterator;
use std::marker::Brand;
use std::sync::ledger::{Blank, Ledger};
use std::test::*;

/// Definition levels of four places, of which the second is null, as a page of the second form has them.
pub(crate) const LEVELS: &[u8] = &[0x03, 0x0D];

/// The same behind their length, as a page of the first form has them.
pub(crate) const LONG_LEVELS: &[u8] = &[2, 0, 0, 0, 0x03, 0x0D];

/// Definition levels of four nulls, behind their length.
const NO_LEVELS: &[u8] = &[2, 0, 0, 0, 0x08, 0x00];

/// Where the pages of a chunk stand: the first byte, the length and the first row of each.
pub(crate) type Places<'a> = &'a [(i64, i32, i64)];

/// A chunk, and its rows.
type Read<'a, T> = (Stored<'a>, Result<&'a [T], Error>);

/// A chunk of four values, where its pages stand, the rows that are selected, and what these are.
type Selected<'a, T> = (Stored<'a>, Places<'a>, Interval, Result<&'a [T], Error>);

/// Fails where other rows were found than a row of a table has.
pub(crate) fn check<T: PartialEq + Copy>(
    row: usize,
    found: Result<Vec<T>, Error>,
    wanted: Result<&[T], Error>,
) -> Result<(), Fail> {
    let is_wanted = match (&found, wanted) {
        (Ok(found), Ok(wanted)) => found.as_slice() == wanted,
        (Err(found), Err(wanted)) => *found == wanted,
        _ => false,
    };
    if !is_wanted {
        return Err(Fail::new(format_args!("row {row} is read otherwise")));
    }
    Ok(())
}

fn locations_of(alloc: Global, places: Places<'_>) -> Result<Vec<PageLocation>, AllocError> {
    let mut locations = Vec::new(alloc);
    for (offset, compressed_page_size, first_row_index) in places {
        locations.push(PageLocation {
            offset: *offset,
            compressed_page_size: *compressed_page_size,
            first_row_index: *first_row_index,
        })?;
    }
    Ok(locations)
}

/// The pages of a chunk of four values that have some of these rows.
pub(crate) fn located_pages(
    alloc: Global,
    physical: PhysicalType,
    stored: Stored<'_>,
    places: Places<'_>,
    rows: Interval,
) -> Result<IndexedPageReader, Error>
    ensures { IfOk result (λ reader.
        DataPagesAre (λ page. page.type.physical_type ≡ physical) (indexed_pages reader)) }
{
    let (repetition, num_values, pages) = stored;
    let locations = locations_of(alloc, places)?;
    let selected = select_pages(alloc, &[rows], &locations, 4)?;
    let column = column(physical, repetition, num_values);
    IndexedPageReader::new(alloc, chunk_of(alloc, pages)?, &column, selected)
}

/// The first array of a column.
fn first_counted<I: Pages, V: IntoArray + Drop, L: Ledger>(
    alloc: Global,
    pages: I,
    values: V,
    data_type: DataType,
    blank: Blank,
) -> Result<Option<V::Array>, Error>
    requires takes { DataPagesAre (λ page. page.type.physical_type ≡ V.physical values) (I.to_come pages) }
    requires name { blank.name ≡ L.name }
    requires parts { blank.parts ≡ L.parts }
    requires whole { 0 < blank.parts }
{
    let mut steps = Steps::<L>::new(blank);
    let mut arrays = FlatIter::of_values(alloc, pages, values, data_type, 4, None)?;
    arrays.next_counted(&mut steps).transpose()
}

/// The first array of a column, over steps of its own.
fn first_array<I: Pages, V: IntoArray + Drop>(
    alloc: Global,
    pages: I,
    values: V,
    data_type: DataType,
) -> Result<Option<V::Array>, Error>
    requires takes { DataPagesAre (λ page. page.type.physical_type ≡ V.physical values) (I.to_come pages) }
{
    first_counted::<I, V, Brand>(alloc, pages, values, data_type, Blank::new(1))
}

/// The array of a column without rows, where the type holds the values.
fn empty_array<V: IntoArray + Drop>(
    alloc: Global,
    values: V,
    data_type: DataType,
) -> Result<Option<V::Array>, Error> {
    if !values.fits(&data_type) {
        return Ok(None);
    }
    let array = values.into_array(values.with_capacity(alloc, 0)?, data_type)?;
    Ok(Some(array))
}

fn truths(alloc: Global, array: &BooleanArray) -> Result<Vec<Option<bool>>, AllocError> {
    let mut truths = Vec::new(alloc);
    for i in 0..array.len() {
        truths.push(array.get(i))?;
    }
    Ok(truths)
}

fn numbers<T: NativeType>(
    alloc: Global,
    array: MutablePrimitiveArray<T>,
) -> Result<Vec<Option<T>>, AllocError> {
    let array = array.freeze();
    let mut numbers = Vec::new(alloc);
    for i in 0..array.len() {
        numbers.push(array.get(i))?;
    }
    Ok(numbers)
}

/// The byte strings of an array, joined, and a byte 0xFF for each null.
fn joined(alloc: Global, array: &FixedSizeBinaryArray) -> Result<Vec<u8>, AllocError> {
    let mut joined = Vec::new(alloc);
    for i in 0..array.len() {
        match array.get(i) {
            Some(bytes) => joined.extend_from_slice(bytes)?,
            None => joined.push(0xFF)?,
        }
    }
    Ok(joined)
}

/// The rows of a column of truth values, in arrays of three.
fn truths_read<I: Pages>(
    alloc: Global,
    pages: I,
    num_rows: usize,
) -> Result<Vec<Option<bool>>, Error>
    requires { DataPagesAre (λ page. page.type.physical_type ≡ Boolean) (I.to_come pages) }
{
    let mut all = Vec::new(alloc);
    for array in boolean::Iter::new(alloc, pages, DataType::Boolean, Some(3), num_rows)? {
        all.append(&mut truths(alloc, &array?)?)?;
    }
    Ok(all)
}

const YES: Option<bool> = Some(true);

const NO: Option<bool> = Some(false);

static TRUTHS: [Read<'static, Option<bool>>; 5] = [
    (
        (Optional, 4, &[First(4, 0, LONG_LEVELS, &[0b101])]),
        Ok(&[YES, None, NO, YES]),
    ),
    (
        (Optional, 4, &[Second(4, LEVELS, &[0b101])]),
        Ok(&[YES, None, NO, YES]),
    ),
    (
        (Required, 4, &[First(4, 0, &[], &[0b1101])]),
        Ok(&[YES, NO, YES, YES]),
    ),
    (
        (Required, 4, &[Second(4, &[], &[0b1101])]),
        Ok(&[YES, NO, YES, YES]),
    ),
    (
        (Required, 8, &[First(8, 0, &[], &[0x5B])]),
        Ok(&[YES, YES, NO, YES, YES, NO, YES, NO]),
    ),
];

fn check_truths(alloc: Global, reads: &[Read<'_, Option<bool>>]) -> Result<(), Fail> {
    for (row, (stored, wanted)) in reads.iter().enumerate() {
        let pages = pages_of(alloc, PhysicalType::Boolean, *stored)?;
        check(row, truths_read(alloc, pages, stored.1 as usize), *wanted)?;
    }
    Ok(())
}

static SELECTED_TRUTHS: [Selected<'static, Option<bool>>; 1] = [(
    (Optional, 4, &[First(4, 0, LONG_LEVELS, &[0b101])]),
    &[(0, 24, 0)],
    Interval {
        start: 1,
        length: 2,
    },
    Ok(&[None, NO]),
)];

fn check_selected_truths(alloc: Global, reads: &[Selected<'_, Option<bool>>]) -> Result<(), Fail> {
    for (row, (stored, places, rows, wanted)) in reads.iter().enumerate() {
        let pages = located_pages(alloc, PhysicalType::Boolean, *stored, *places, *rows)?;
        check(row, truths_read(alloc, pages, 4), *wanted)?;
    }
    Ok(())
}

#[test]
fn truth_values(rt: HostRuntime) -> Result<(), Fail> {
    check_truths(rt.alloc(), &TRUTHS)?;
    check_selected_truths(rt.alloc(), &SELECTED_TRUTHS)
}

#[test]
fn truth_values_of_another_type(rt: HostRuntime) -> Result<(), Fail> {
    let alloc = rt.alloc();
    let pages = pages_of(alloc, PhysicalType::Boolean, (Optional, 4, &[]))?;
    assert_eq!(rt;
        boolean::Iter::new(alloc, pages, DataType::Int32, None, 4).err(),
        Some(Error::InvalidArgumentError(Part::Request))
    );
    Ok(())
}

/// The rows of a column of byte strings of two bytes, joined.
fn strings_read<I: Pages>(alloc: Global, pages: I) -> Result<Vec<u8>, Error>
    requires { DataPagesAre (λ page. page.type.physical_type ≡ FixedLenByteArray 2) (I.to_come pages) }
{
    let data_type = DataType::FixedSizeBinary(2);
    let mut all = Vec::new(alloc);
    for array in fixed_size_binary::Iter::new(alloc, pages, data_type, 4, Some(3))? {
        all.append(&mut joined(alloc, &array?)?)?;
    }
    Ok(all)
}

const STRINGS: PhysicalType = PhysicalType::FixedLenByteArray(2);

/// A page of the keys 0 and 1, of one bit each.
const TWO_KEYS: Page<'static> = First(2, 8, &[], &[1, 3, 2]);

/// A page of the keys 1 and 1.
const EQUAL_KEYS: Page<'static> = First(2, 8, &[], &[1, 3, 3]);

/// A page of keys that are all null.
const NO_KEYS: Page<'static> = First(4, 8, NO_LEVELS, &[]);

static STRINGS_READ: [Read<'static, u8>; 5] = [
    (
        (Required, 4, &[First(4, 0, &[], &[0, 1, 0, 2, 1, 1, 1, 2])]),
        Ok(&[0, 1, 0, 2, 1, 1, 1, 2]),
    ),
    (
        (Optional, 4, &[Second(4, LEVELS, &[0, 1, 0, 2, 1, 1])]),
        Ok(&[0, 1, 0xFF, 0, 2, 1, 1]),
    ),
    (
        (
            Required,
            4,
            &[Entries(2, &[0, 1, 0, 2]), TWO_KEYS, EQUAL_KEYS],
        ),
        Ok(&[0, 1, 0, 2, 0, 2, 0, 2]),
    ),
    (
        (Optional, 4, &[Entries(2, &[5, 0, 9, 0]), NO_KEYS]),
        Ok(&[0xFF; 4]),
    ),
    // A byte is missing.
    (
        (Optional, 4, &[Entries(2, &[5, 0, 9]), NO_KEYS]),
        Err(Error::ExternalFormat(Part::Dictionary)),
    ),
];

fn check_strings(alloc: Global, reads: &[Read<'_, u8>]) -> Result<(), Fail> {
    for (row, (stored, wanted)) in reads.iter().enumerate() {
        let pages = pages_of(alloc, STRINGS, *stored)?;
        check(row, strings_read(alloc, pages), *wanted)?;
    }
    Ok(())
}

static SELECTED_STRINGS: [Selected<'static, u8>; 2] = [
    // A dictionary, though the pages are plain.
    (
        (
            Required,
            4,
            &[
                Entries(1, &[0, 9]),
                First(2, 0, &[], &[0, 1, 0, 2]),
                First(2, 0, &[], &[1, 1, 1, 2]),
            ],
        ),
        &[(15, 21, 0), (36, 21, 2)],
        Interval {
            start: 0,
            length: 2,
        },
        Ok(&[0, 1, 0, 2]),
    ),
    (
        (
            Required,
            4,
            &[Entries(2, &[0, 1, 0, 2]), TWO_KEYS, EQUAL_KEYS],
        ),
        &[(17, 20, 0), (37, 20, 2)],
        Interval {
            start: 0,
            length: 3,
        },
        Ok(&[0, 1, 0, 2, 0, 2]),
    ),
];

fn check_selected_strings(alloc: Global, reads: &[Selected<'_, u8>]) -> Result<(), Fail> {
    for (row, (stored, places, rows, wanted)) in reads.iter().enumerate() {
        let pages = located_pages(alloc, STRINGS, *stored, *places, *rows)?;
        check(row, strings_read(alloc, pages), *wanted)?;
    }
    Ok(())
}

#[test]
fn byte_strings(rt: HostRuntime) -> Result<(), Fail> {
    check_strings(rt.alloc(), &STRINGS_READ)?;
    check_selected_strings(rt.alloc(), &SELECTED_STRINGS)
}

/// The rows of a column of INT32, in arrays of three.
fn numbers_read<I: Pages>(alloc: Global, pages: I) -> Result<Vec<Option<i32>>, Error>
    requires { DataPagesAre (λ page. page.type.physical_type ≡ Int32) (I.to_come pages) }
{
    let mut all = Vec::new(alloc);
    let arrays: primitive::Iter<i32, I, i32, Keep> = primitive::Iter::new(
        alloc,
        pages,
        DataType::Int32,
        4,
        Some(3),
        Keep,
    )?;
    for array in arrays {
        all.append(&mut numbers(alloc, array?)?)?;
    }
    Ok(all)
}

/// The numbers 7, 8 and 9.
const NUMBERS: &[u8] = &[7, 0, 0, 0, 8, 0, 0, 0, 9, 0, 0, 0];

/// The numbers 5 and 9.
const ENTRIES: &[u8] = &[5, 0, 0, 0, 9, 0, 0, 0];

static NUMBERS_READ: [Read<'static, Option<i32>>; 10] = [
    (
        (Optional, 4, &[First(4, 0, LONG_LEVELS, NUMBERS)]),
        Ok(&[Some(7), None, Some(8), Some(9)]),
    ),
    // A value is missing.
    (
        (Optional, 4, &[First(4, 0, LONG_LEVELS, ENTRIES)]),
        Err(Error::ExternalFormat(Part::Values)),
    ),
    // The differences of the numbers from 1 to 5, of which four are read.
    (
        (
            Required,
            5,
            &[First(5, 5, &[], &[0x80, 1, 4, 5, 2, 2, 0, 0, 0, 0])],
        ),
        Ok(&[Some(1), Some(2), Some(3), Some(4)]),
    ),
    // A chunk that ends before its values have come.
    ((Required, 4, &[]), Err(Error::ExternalFormat(Part::Chunk))),
    // An encoding that is not read, and keys without a dictionary.
    (
        (Required, 4, &[First(4, 7, &[], &[])]),
        Err(Error::NotYetImplemented(Part::Header)),
    ),
    (
        (Required, 4, &[First(4, 8, &[], &[])]),
        Err(Error::NotYetImplemented(Part::Header)),
    ),
    // Levels that are longer than the page.
    (
        (Optional, 4, &[First(4, 0, &[9, 0, 0, 0], &[])]),
        Err(Error::ExternalFormat(Part::Levels)),
    ),
    // The keys 0 and 1, over one entry.
    (
        (Required, 4, &[Entries(1, &[5, 0, 0, 0]), TWO_KEYS]),
        Err(Error::OutOfSpec(Part::Dictionary)),
    ),
    (
        (Optional, 4, &[Entries(2, ENTRIES), NO_KEYS]),
        Ok(&[None; 4]),
    ),
    // A byte is missing.
    (
        (Optional, 4, &[Entries(2, &[5, 0, 0, 0, 9, 0, 0]), NO_KEYS]),
        Err(Error::ExternalFormat(Part::Dictionary)),
    ),
];

fn check_numbers(alloc: Global, reads: &[Read<'_, Option<i32>>]) -> Result<(), Fail> {
    for (row, (stored, wanted)) in reads.iter().enumerate() {
        let pages = pages_of(alloc, PhysicalType::Int32, *stored)?;
        check(row, numbers_read(alloc, pages), *wanted)?;
    }
    Ok(())
}

static SELECTED_NUMBERS: [Selected<'static, Option<i32>>; 3] = [
    (
        (Optional, 4, &[First(4, 0, LONG_LEVELS, NUMBERS)]),
        &[(0, 35, 0)],
        Interval {
            start: 1,
            length: 2,
        },
        Ok(&[None, Some(8)]),
    ),
    // A page that ends before its location does.
    (
        (
            Required,
            4,
            &[First(4, 0, &[], &[1, 0, 0, 0, 2, 0, 0, 0, 3, 0, 0, 0, 4, 0, 0, 0])],
        ),
        &[(0, 32, 0)],
        Interval {
            start: 0,
            length: 4,
        },
        Err(Error::ExternalFormat(Part::Location)),
    ),
    (
        (Required, 4, &[Entries(2, ENTRIES), TWO_KEYS, EQUAL_KEYS]),
        &[(21, 20, 0), (41, 20, 2)],
        Interval {
            start: 0,
            length: 2,
        },
        Ok(&[Some(5), Some(9)]),
    ),
];

fn check_selected_numbers(alloc: Global, reads: &[Selected<'_, Option<i32>>]) -> Result<(), Fail> {
    for (row, (stored, places, rows, wanted)) in reads.iter().enumerate() {
        let pages = located_pages(alloc, PhysicalType::Int32, *stored, *places, *rows)?;
        check(row, numbers_read(alloc, pages), *wanted)?;
    }
    Ok(())
}

#[test]
fn numbers_of_chunks(rt: HostRuntime) -> Result<(), Fail> {
    check_numbers(rt.alloc(), &NUMBERS_READ)?;
    check_selected_numbers(rt.alloc(), &SELECTED_NUMBERS)
}

/// The rows of the first array of a column of numbers.
fn numbers_by<T: NativeType, V: IntoArray<Array = MutablePrimitiveArray<T>> + Drop, I: Pages>(
    alloc: Global,
    pages: I,
    values: V,
    data_type: DataType,
) -> Result<Vec<Option<T>>, Error>
    requires takes { DataPagesAre (λ page. page.type.physical_type ≡ V.physical values) (I.to_come pages) }
{
    match first_array(alloc, pages, values, data_type)? {
        Some(array) => Ok(numbers(alloc, array)?),
        None => Ok(Vec::new(alloc)),
    }
}

const DECIMAL: DataType = DataType::Decimal(5, 2);

/// The decimals of a chunk of byte strings of two bytes.
fn decimals_of(alloc: Global, stored: Stored<'_>) -> Result<Vec<Option<i128>>, Error> {
    let decimals: FixedNumbers<i128, Decimals> = FixedNumbers::new(Decimals::new(2));
    numbers_by(alloc, pages_of(alloc, STRINGS, stored)?, decimals, DECIMAL)
}

static DECIMALS: [Read<'static, Option<i128>>; 2] = [
    (
        (
            Optional,
            4,
            &[First(4, 0, LONG_LEVELS, &[0xFF, 0x85, 0x00, 0x7B, 0x01, 0x00])],
        ),
        Ok(&[Some(-123), None, Some(123), Some(256)]),
    ),
    (
        (
            Required,
            4,
            &[Entries(2, &[0xFF, 0x85, 0x00, 0x7B]), TWO_KEYS, EQUAL_KEYS],
        ),
        Ok(&[Some(-123), Some(123), Some(123), Some(123)]),
    ),
];

fn check_decimals(alloc: Global, reads: &[Read<'_, Option<i128>>]) -> Result<(), Fail> {
    for (row, (stored, wanted)) in reads.iter().enumerate() {
        check(row, decimals_of(alloc, *stored), *wanted)?;
    }
    Ok(())
}

#[test]
fn decimals(rt: HostRuntime) -> Result<(), Fail> {
    check_decimals(rt.alloc(), &DECIMALS)
}

const INTERVALS: PhysicalType = PhysicalType::FixedLenByteArray(12);

/// Two intervals, and a null behind each of them.
static TWO_INTERVALS: [Page<'static>; 1] = [First(
    4,
    0,
    &[2, 0, 0, 0, 0x03, 0x05],
    &[
        0, 0, 0, 0, 3, 0, 0, 0, 0xE8, 3, 0, 0, 7, 0, 0, 0, 0xFF, 0xFF, 0xFF, 0xFF, 0, 0, 0, 0,
    ],
)];

#[test]
fn months(rt: HostRuntime) -> Result<(), Fail> {
    let alloc = rt.alloc();
    let months: FixedNumbers<i32, Months> = FixedNumbers::new(Months);
    let data_type = DataType::Interval(IntervalUnit::YearMonth);
    let pages = pages_of(alloc, INTERVALS, (Optional, 4, &TWO_INTERVALS))?;
    let found = numbers_by(alloc, pages, months, data_type);
    check(0, found, Ok(&[Some(0), None, Some(7), None]))
}

#[test]
fn days_and_milliseconds(rt: HostRuntime) -> Result<(), Fail> {
    let alloc = rt.alloc();
    let days: FixedNumbers<days_ms, DaysAndMillis> = FixedNumbers::new(DaysAndMillis);
    let data_type = DataType::Interval(IntervalUnit::DayTime);
    let pages = pages_of(alloc, INTERVALS, (Optional, 4, &TWO_INTERVALS))?;
    let found = numbers_by(alloc, pages, days, data_type);
    let wanted = [Some(days_ms(3, 1000)), None, Some(days_ms(-1, 0)), None];
    check(0, found, Ok(&wanted))
}

/// A page of the numbers 7, 8 and 9, the second of its four rows null.
static SOME_NUMBERS: [Page<'static>; 1] = [First(4, 0, LONG_LEVELS, NUMBERS)];

#[test]
fn days_as_milliseconds(rt: HostRuntime) -> Result<(), Fail> {
    let alloc = rt.alloc();
    let days: NumberValues<i32, i64, DaysToMillis> = NumberValues::new(DaysToMillis);
    let pages = pages_of(alloc, PhysicalType::Int32, (Optional, 4, &SOME_NUMBERS))?;
    let found = numbers_by(alloc, pages, days, DataType::Date64);
    let day = 86_400_000;
    let wanted = [Some(7 * day), None, Some(8 * day), Some(9 * day)];
    check(0, found, Ok(&wanted))
}

/// A page of four truth values.
static FOUR_TRUTHS: [Page<'static>; 1] = [First(4, 0, &[], &[0b1101])];

#[test]
fn arrays_of_truth_values(rt: HostRuntime) -> Result<(), Fail> {
    let alloc = rt.alloc();
    let pages = pages_of(alloc, PhysicalType::Boolean, (Required, 4, &FOUR_TRUTHS))?;
    let array = first_array(alloc, pages, TruthValues, DataType::Boolean)?.ok_or("none")?;
    assert_eq!(rt; array.len(), 4);
    let empty = empty_array(alloc, TruthValues, DataType::Boolean)?.ok_or("none")?;
    assert_eq!(rt; empty.len(), 0);
    Ok(())
}

/// A page of four byte strings of two bytes.
static FOUR_STRINGS: [Page<'static>; 1] = [First(4, 0, &[], &[0, 1, 0, 2, 1, 1, 1, 2])];

#[test]
fn arrays_of_byte_strings(rt: HostRuntime) -> Result<(), Fail> {
    let alloc = rt.alloc();
    let pairs = FixedValues::new(2);
    let pages = pages_of(alloc, STRINGS, (Required, 4, &FOUR_STRINGS))?;
    let array = first_array(alloc, pages, pairs, DataType::FixedSizeBinary(2))?.ok_or("none")?;
    assert_eq!(rt; array.len(), 4);
    let empty = empty_array(alloc, pairs, DataType::FixedSizeBinary(2))?.ok_or("none")?;
    assert_eq!(rt; empty.len(), 0);
    assert!(rt; empty_array(alloc, pairs, DataType::FixedSizeBinary(3))?.is_none());
    Ok(())
}

#[test]
fn arrays_of_no_numbers(rt: HostRuntime) -> Result<(), Fail> {
    let alloc = rt.alloc();
    let decimals: FixedNumbers<i128, Decimals> = FixedNumbers::new(Decimals::new(2));
    let empty = empty_array(alloc, decimals, DECIMAL)?.ok_or("none")?;
    assert!(rt; numbers(alloc, empty)?.is_empty());
    let days: NumberValues<i32, i64, DaysToMillis> = NumberValues::new(DaysToMillis);
    let empty = empty_array(alloc, days, DataType::Date64)?.ok_or("none")?;
    assert!(rt; numbers(alloc, empty)?.is_empty());
    Ok(())
}

/// Two pages of 100 rows each, of no bytes that are a page.
fn two_pages(alloc: Global) -> Result<IndexedPageReader, Error> {
    let rows = [Interval::new(0, 200)];
    let locations = locations_of(alloc, &[(0, 9, 0), (9, 9, 100)])?;
    let pages = select_pages(alloc, &rows, &locations, 200)?;
    let chunk = vec![in alloc; 0; 18]?;
    let column = column(PhysicalType::Int32, Repetition::Optional, 4);
    IndexedPageReader::new(alloc, chunk, &column, pages)
}

#[test]
fn nulls(rt: HostRuntime) -> Result<(), Fail> {
    let pages = two_pages(rt.alloc())?;
    let mut arrays = null::iter_to_arrays(&pages, Some(10), 101)?;
    let mut lengths = Vec::new(rt.alloc());
    for array in &mut arrays {
        lengths.push(array?.len())?;
    }
    assert_eq!(rt;
        lengths.as_slice(),
        [10, 10, 10, 10, 10, 10, 10, 10, 10, 10, 1].as_slice()
    );
    let whole = null::iter_to_arrays(&pages, None, usize::MAX)?.next();
    assert_eq!(rt; whole.ok_or("none")??.len(), 200);
    assert_eq!(rt;
        null::iter_to_arrays(&pages, Some(0), 101).err(),
        Some(Error::InvalidArgumentError(Part::Request))
    );
    Ok(())
}
