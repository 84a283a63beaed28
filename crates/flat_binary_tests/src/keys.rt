//! Dictionary columns as iterators of arrays, from the bytes of their chunks.
ghost use Rattle.std.specs.Prelude.{◌≡◌, true};
ghost use Rattle.parquet_page.specs.Lending.{DataPagesAre, has_data_behind};

use crate::columns::push_cells;
use columns_core::{Array, Boxed, DataType, Error, IntegerType, Part};
use flat_binary::page_iter_to_arrays;
use pages_for_tests::Page::{Bytes, Entries, First};
use pages_for_tests::{Page, Stored, pages_of};
use parquet_meta::{PhysicalType, PrimitiveType, Repetition};
use parquet_page::Pages;
use std::alloc::Global;
use std::iter::Iterator;
use std::test::*;

/// The entries of an array, and its keys as digits, a null as a dash.
fn push_keys(alloc: Global, all: &mut Vec<u8>, array: &Array) -> Result<(), Error> {
    match array {
        Array::Dictionary(keys) => {
            push_cells(alloc, all, keys.values())?;
            for i in 0..keys.len() {
                match keys.key(i) {
                    Some(key) => all.push(b'0' + (key % 10) as u8)?,
                    None => all.push(b'-')?,
                }
            }
            all.push(b';')?;
        }
        _ => all.push(b'?')?,
    }
    Ok(())
}

/// The first rows of pages, at most seven, in arrays of so many rows.
fn keys_of<I: Pages>(
    alloc: Global,
    pages: I,
    physical_type: PhysicalType,
    data_type: DataType,
    chunk_size: Option<usize>,
) -> Result<Vec<u8>, Error>
    requires typed { DataPagesAre (λ page. page.type.physical_type ≡ physical_type) (I.to_come pages) }
    requires ordered { has_data_behind (I.to_come pages) ≡ true }
{
    let type_ = PrimitiveType {
        physical_type,
        logical_type: None,
        repetition: Repetition::Optional,
    };
    let mut all = Vec::new(alloc);
    for array in page_iter_to_arrays(alloc, pages, &type_, data_type, chunk_size, 7)? {
        push_keys(alloc, &mut all, &array?)?;
    }
    Ok(all)
}

/// The rows of a chunk, as keys of a type that name entries of a type.
fn keys_in(
    alloc: Global,
    physical: PhysicalType,
    stored: Stored<'_>,
    key: IntegerType,
    entry: DataType,
    chunk_size: Option<usize>,
) -> Result<Vec<u8>, Error> {
    let data_type = DataType::Dictionary(key, Boxed::new(alloc, entry)?, false);
    let pages = pages_of(alloc, physical, stored)?;
    keys_of(alloc, pages, physical, data_type, chunk_size)
}

/// The dictionary x, y, and two pages of four rows, the second of them null: the keys 0, 1, 1 and the keys 1, 0, 0.
static TWO_PAGES: [Page<'static>; 3] = [
    Entries(2, b"\x01\0\0\0x\x01\0\0\0y"),
    First(4, 8, &[2, 0, 0, 0, 0x03, 0x0D], &[1, 3, 6]),
    First(4, 8, &[2, 0, 0, 0, 0x03, 0x0D], &[1, 3, 1]),
];

/// The rows of these pages as keys of a type that name texts or byte strings, in arrays of three rows.
fn strings_by(alloc: Global, key: IntegerType, entry: DataType) -> Result<Vec<u8>, Error> {
    let stored: Stored<'_> = (Repetition::Optional, 8, &TWO_PAGES);
    keys_in(alloc, PhysicalType::ByteArray, stored, key, entry, Some(3))
}

#[test]
fn keys_that_name_texts(rt: HostRuntime) -> Result<(), Fail> {
    let alloc = rt.alloc();
    for key in [
        IntegerType::Int8,
        IntegerType::Int16,
        IntegerType::Int32,
        IntegerType::Int64,
        IntegerType::UInt8,
        IntegerType::UInt16,
        IntegerType::UInt32,
        IntegerType::UInt64,
    ] {
        let read = strings_by(alloc, key, DataType::Utf8)?;
        assert_eq!(rt; read.as_slice(), b"xy;0-1;xy;11-;xy;0;".as_slice());
    }
    let read = strings_by(alloc, IntegerType::UInt8, DataType::LargeBinary)?;
    assert_eq!(rt; read.as_slice(), b"xy;0-1;xy;11-;xy;0;".as_slice());
    Ok(())
}

/// The rows of a chunk of so many required values, as keys of 8 bits and a sign, in one array.
fn small_keys_in(
    alloc: Global,
    physical: PhysicalType,
    num_values: u64,
    pages: &[Page<'_>],
    entry: DataType,
) -> Result<Vec<u8>, Error> {
    let stored = (Repetition::Required, num_values, pages);
    keys_in(alloc, physical, stored, IntegerType::Int8, entry, None)
}

/// The numbers 7 and 258 as entries, and four rows with the keys 0, 1, 1 and 0.
static NUMBERS: [Page<'static>; 2] = [
    Entries(2, b"\x07\0\0\0\x02\x01\0\0"),
    First(4, 8, &[], &[1, 3, 6]),
];

#[test]
fn keys_that_name_numbers(rt: HostRuntime) -> Result<(), Fail> {
    let alloc = rt.alloc();
    let stored = PhysicalType::Int32;
    let read = small_keys_in(alloc, stored, 4, &NUMBERS, DataType::Int32)?;
    assert_eq!(rt; read.as_slice(), b"78;0110;".as_slice());
    let read = small_keys_in(alloc, stored, 4, &NUMBERS, DataType::UInt8)?;
    assert_eq!(rt; read.as_slice(), b"72;0110;".as_slice());
    Ok(())
}

/// The error of a chunk of one string of one byte, by keys of 8 bits and a sign.
fn refused(alloc: Global, pages: &[Page<'_>]) -> Option<Error> {
    let stored = PhysicalType::FixedLenByteArray(1);
    small_keys_in(alloc, stored, 1, pages, DataType::FixedSizeBinary(1)).err()
}

static REFUSED: [(&[Page<'static>], Option<Error>); 5] = [
    // One entry, and the keys 0 and 1.
    (&[Entries(1, b"x"), First(1, 8, &[], &[2, 3, 0])], None),
    (
        &[Entries(1, b"x"), First(1, 8, &[], &[2, 3, 1])],
        Some(Error::OutOfSpec(Part::Dictionary)),
    ),
    // No dictionary, and a page of strings behind one.
    (
        &[First(1, 8, &[], &[2, 3, 0])],
        Some(Error::NotYetImplemented(Part::Dictionary)),
    ),
    (
        &[Entries(1, b"x"), First(1, 0, &[], b"x")],
        Some(Error::NotYetImplemented(Part::Header)),
    ),
    // 129 entries, and the key 128. The number twice as large as that of the entries takes two bytes.
    (
        &[
            Bytes(&[
                0x15, 0x04, 0x15, 0x82, 0x02, 0x15, 0x82, 0x02, 0x4C, 0x15, 0x82, 0x02, 0x15, 0x00,
                0x00, 0x00,
            ]),
            Bytes(&[7; 129]),
            First(1, 8, &[], &[8, 2, 128]),
        ],
        Some(Error::Overflow),
    ),
];

fn check_refused(alloc: Global, rows: &[(&[Page<'_>], Option<Error>)]) -> Result<(), Fail> {
    for (row, (pages, error)) in rows.iter().enumerate() {
        if refused(alloc, *pages) != *error {
            return Err(Fail::new(format_args!("row {row} is answered otherwise")));
        }
    }
    Ok(())
}

#[test]
fn keys_that_name_nothing(rt: HostRuntime) -> Result<(), Fail> {
    check_refused(rt.alloc(), &REFUSED)
}

#[test]
fn dictionaries_that_are_not_begun(rt: HostRuntime) -> Result<(), Fail> {
    let alloc = rt.alloc();
    let stored = PhysicalType::Int64;
    let error = small_keys_in(alloc, stored, 4, &[], DataType::UInt32).err();
    assert_eq!(rt; error, Some(Error::NotYetImplemented(Part::Schema)));
    let stored: Stored<'_> = (Repetition::Required, 4, &[]);
    let (physical, key) = (PhysicalType::ByteArray, IntegerType::Int8);
    let error = keys_in(alloc, physical, stored, key, DataType::Utf8, Some(0)).err();
    assert_eq!(rt; error, Some(Error::InvalidArgumentError(Part::Request)));
    Ok(())
}
