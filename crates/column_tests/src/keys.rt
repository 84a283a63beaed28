//! Columns of keys, read into arrays of dictionaries from the bytes of their chunks.
ghost use Rattle.std.specs.Prelude.{◌≡◌, true};
ghost use Rattle.parquet_page.specs.Lending.{has_data_behind};

use crate::arrays::{LONG_LEVELS, check};
use crate::texts::push_cells;
use binary_values::ByteValues;
use columns_core::{Boxed, DataType, DictionaryArray, Error, IntegerType, Part};
use dictionary_values::{StoredKey, binary, fixed_size_binary};
use flat_values::FixedValues;
use pages_for_tests::Page::{Bytes, Entries, First};
use pages_for_tests::{Page, Stored, pages_of};
use parquet_meta::PhysicalType;
use parquet_meta::Repetition::{Optional, Required};
use parquet_page::{PageReader, Pages};
use std::alloc::Global;
use std::iter::Iterator;
use std::test::*;

/// The entries of an array, and its keys as digits, a null as a dash.
fn push_array(alloc: Global, all: &mut Vec<u8>, array: &DictionaryArray) -> Result<(), Error> {
    push_cells(alloc, all, array.values())?;
    for i in 0..array.len() {
        match array.key(i) {
            Some(key) => all.push(b'0' + (key % 10) as u8)?,
            None => all.push(b'-')?,
        }
    }
    all.push(b';')?;
    Ok(())
}

/// The first four rows of pages of keys that name texts, in arrays of three.
fn texts_read<K: StoredKey, I: Pages>(
    alloc: Global,
    pages: I,
    key: IntegerType,
) -> Result<Vec<u8>, Error>
    requires { has_data_behind (I.to_come pages) ≡ true }
{
    let data_type = DataType::Dictionary(key, Boxed::new(alloc, DataType::Utf8)?, false);
    let values = ByteValues::<i32>::new(true);
    let mut all = Vec::new(alloc);
    let arrays = binary::DictIter::<K, i32, I>::of_values(
        alloc,
        pages,
        values,
        data_type,
        4,
        Some(3),
    )?;
    for array in arrays {
        let array = array?;
        push_array(alloc, &mut all, &array)?;
    }
    Ok(all)
}

/// The entries x and y.
const TWO: Page<'static> = Entries(2, b"\x01\0\0\0x\x01\0\0\0y");

/// The entries x, y and z.
const THREE: Page<'static> = Entries(3, b"\x01\0\0\0x\x01\0\0\0y\x01\0\0\0z");

/// The keys 0, 1 and 1, and a null behind the first of them.
const SOME_KEYS: Page<'static> = First(4, 8, LONG_LEVELS, &[1, 3, 6]);

static TEXTS: [(Stored<'static>, Result<&[u8], Error>); 4] = [
    // The keys 2 and 0, of two bits each: an array has all entries.
    (
        (Required, 2, &[THREE, First(2, 8, &[], &[2, 3, 2])]),
        Ok(b"\"x\"y\"z;20;"),
    ),
    // The keys 0 and 3.
    (
        (Required, 2, &[THREE, First(2, 8, &[], &[2, 3, 12])]),
        Err(Error::OutOfSpec(Part::Dictionary)),
    ),
    // No dictionary, and a page of texts behind one.
    (
        (Required, 2, &[First(2, 8, &[], &[2, 3, 0])]),
        Err(Error::NotYetImplemented(Part::Dictionary)),
    ),
    (
        (Required, 1, &[TWO, First(1, 0, &[], b"\x01\0\0\0x")]),
        Err(Error::NotYetImplemented(Part::Header)),
    ),
];

/// The rows of a chunk, by keys without a sign.
fn texts_of(alloc: Global, stored: Stored<'_>) -> Result<Vec<u8>, Error> {
    let pages = pages_of(alloc, PhysicalType::ByteArray, stored)?;
    texts_read::<u16, PageReader>(alloc, pages, IntegerType::UInt16)
}

fn check_texts(alloc: Global, reads: &[(Stored<'_>, Result<&[u8], Error>)]) -> Result<(), Fail> {
    for (row, (stored, wanted)) in reads.iter().enumerate() {
        check(row, texts_of(alloc, *stored), *wanted)?;
    }
    Ok(())
}

#[test]
fn texts_by_keys(rt: HostRuntime) -> Result<(), Fail> {
    check_texts(rt.alloc(), &TEXTS)
}

static KEYS_AND_NULLS: [Page<'static>; 2] = [TWO, SOME_KEYS];

#[test]
fn chunks_of_keys_and_nulls(rt: HostRuntime) -> Result<(), Fail> {
    let alloc = rt.alloc();
    let stored: Stored<'_> = (Optional, 4, &KEYS_AND_NULLS);
    let pages = pages_of(alloc, PhysicalType::ByteArray, stored)?;
    let read = texts_read::<i64, PageReader>(alloc, pages, IntegerType::Int64);
    check(0, read, Ok(b"\"x\"y;0-1;\"x\"y;1;"))
}

/// The error of the first array of pages of keys that name strings of one byte, by keys of 7 bits and a sign.
fn small_keys_refused<I: Pages>(alloc: Global, pages: I) -> Result<Option<Error>, Error>
    requires { has_data_behind (I.to_come pages) ≡ true }
{
    let value = Boxed::new(alloc, DataType::FixedSizeBinary(1))?;
    let data_type = DataType::Dictionary(IntegerType::Int8, value, false);
    let values = FixedValues::new(1);
    let mut arrays = fixed_size_binary::DictIter::<i8, I>::of_values(
        alloc, pages, values, data_type, 1, None,
    )?;
    match arrays.next() {
        Some(Err(error)) => Ok(Some(error)),
        _ => Ok(None),
    }
}

/// A dictionary of 129 entries of one byte, and a page of the key 128. The number twice as large as that of the entries takes two bytes.
static MANY: [Page<'static>; 3] = [
    Bytes(&[
        0x15, 0x04, 0x15, 0x82, 0x02, 0x15, 0x82, 0x02, 0x4C, 0x15, 0x82, 0x02, 0x15, 0x00, 0x00,
        0x00,
    ]),
    Bytes(&[7; 129]),
    First(1, 8, &[], &[8, 2, 128]),
];

#[test]
fn keys_past_their_type(rt: HostRuntime) -> Result<(), Fail> {
    let alloc = rt.alloc();
    let stored: Stored<'_> = (Required, 1, &MANY);
    let pages = pages_of(alloc, PhysicalType::FixedLenByteArray(1), stored)?;
    assert_eq!(rt; small_keys_refused(alloc, pages)?, Some(Error::Overflow));
    Ok(())
}
