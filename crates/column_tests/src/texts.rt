//! Texts and byte strings of columns, from the bytes of their chunks.
ghost use Rattle.std.specs.Prelude.{◌≡◌};
ghost use Rattle.page_decoding.specs.Column.{DataPagesAre};
ghost use Rattle.parquet_meta.specs.declared.metadata.PhysicalType.TheVariants.{ByteArray};

use crate::arrays::{LEVELS, check, located_pages};
use binary_values::binary;
use columns_core::{Array, Cell, DataType, Error, Part};
use pages_for_tests::Page::{Entries, First, Second};
use pages_for_tests::{Page, Stored, pages_of};
use parquet_meta::PhysicalType;
use parquet_meta::Repetition::{Optional, Required};
use parquet_page::{Interval, Pages};
use std::alloc::Global;
use std::iter::Iterator;
use std::test::*;

/// The cells of an array: a text behind a quotation mark, bytes behind an x, and a null as a dash.
pub(crate) fn push_cells(alloc: Global, all: &mut Vec<u8>, array: &Array) -> Result<(), Error> {
    for i in 0..array.len() {
        let cell = array.item(alloc, i)?;
        match &cell {
            Cell::Null => all.push(b'-')?,
            Cell::Text(text) => {
                all.push(b'"')?;
                all.extend_from_slice(text.as_str().as_bytes())?;
            }
            Cell::Bytes(bytes) => {
                all.push(b'x')?;
                all.extend_from_slice(bytes.as_slice())?;
            }
            _ => all.push(b'?')?,
        }
    }
    all.push(b';')?;
    Ok(())
}

/// The first four rows of a column, in arrays of three.
fn rows_of<I: Pages>(alloc: Global, pages: I, data_type: DataType) -> Result<Vec<u8>, Error>
    requires { DataPagesAre (λ page. page.type.physical_type ≡ ByteArray) (I.to_come pages) }
{
    let mut all = Vec::new(alloc);
    for array in binary::Iter::<i32, I>::new(alloc, pages, data_type, Some(3), 4)? {
        push_cells(alloc, &mut all, &array?)?;
    }
    Ok(all)
}

/// The same with offsets of 64 bits.
fn large_rows_of<I: Pages>(alloc: Global, pages: I, data_type: DataType) -> Result<Vec<u8>, Error>
    requires { DataPagesAre (λ page. page.type.physical_type ≡ ByteArray) (I.to_come pages) }
{
    let mut all = Vec::new(alloc);
    for array in binary::Iter::<i64, I>::new(alloc, pages, data_type, Some(3), 4)? {
        push_cells(alloc, &mut all, &array?)?;
    }
    Ok(all)
}

/// The lengths 5, 0 and 3, and the strings behind them.
const JOINED: &[u8] =
    b"\x80\x01\x04\x03\x0A\x09\x04\0\0\0\x80\0\0\0\0\0\0\0\0\0\0\0\0\0\0\0Helloabc";

/// The entries x, y and z.
const ENTRIES: Page<'static> = Entries(3, b"\x01\0\0\0x\x01\0\0\0y\x01\0\0\0z");

/// A chunk, and its rows as texts.
type Read<'a> = (Stored<'a>, Result<&'a [u8], Error>);

static TEXTS: [Read<'static>; 6] = [
    (
        (Required, 3, &[First(3, 6, &[], JOINED)]),
        Ok(b"\"Hello\"\"abc;"),
    ),
    // Two keys that are the same.
    (
        (Required, 2, &[ENTRIES, First(2, 8, &[], &[2, 4, 2])]),
        Ok(b"\"z\"z;"),
    ),
    (
        (Required, 2, &[ENTRIES, First(2, 8, &[], &[2, 4, 3])]),
        Err(Error::OutOfSpec(Part::Dictionary)),
    ),
    (
        (Required, 1, &[First(1, 0, &[], b"\x01\0\0\0\xFF")]),
        Err(Error::OutOfSpec(Part::Values)),
    ),
    // A character of two bytes, of which each of two texts has one.
    (
        (
            Required,
            2,
            &[First(2, 0, &[], b"\x01\0\0\0\xC3\x01\0\0\0\xA9")],
        ),
        Err(Error::OutOfSpec(Part::Values)),
    ),
    // An entry that no key names.
    (
        (
            Required,
            1,
            &[
                Entries(2, b"\x01\0\0\0x\x01\0\0\0\xFF"),
                First(1, 8, &[], &[1, 2, 0]),
            ],
        ),
        Err(Error::OutOfSpec(Part::Dictionary)),
    ),
];

/// The rows of a chunk.
fn rows_in(alloc: Global, stored: Stored<'_>, data_type: DataType) -> Result<Vec<u8>, Error> {
    let pages = pages_of(alloc, PhysicalType::ByteArray, stored)?;
    rows_of(alloc, pages, data_type)
}

fn check_texts(alloc: Global, reads: &[Read<'_>]) -> Result<(), Fail> {
    for (row, (stored, wanted)) in reads.iter().enumerate() {
        check(row, rows_in(alloc, *stored, DataType::Utf8), *wanted)?;
    }
    Ok(())
}

#[test]
fn texts_of_chunks(rt: HostRuntime) -> Result<(), Fail> {
    check_texts(rt.alloc(), &TEXTS)
}

/// A byte that is no text.
static NO_TEXT: [Page<'static>; 1] = [First(1, 0, &[], b"\x01\0\0\0\xFF")];

#[test]
fn bytes_that_are_no_text(rt: HostRuntime) -> Result<(), Fail> {
    let alloc = rt.alloc();
    let read = rows_in(alloc, (Required, 1, &NO_TEXT), DataType::Binary);
    check(0, read, Ok(b"x\xFF;"))?;
    let refused = rows_in(alloc, (Required, 1, &NO_TEXT), DataType::LargeBinary);
    check(1, refused, Err(Error::InvalidArgumentError(Part::Request)))
}

/// Three texts, and a null behind the first.
static SOME_TEXTS: [Page<'static>; 1] = [Second(
    4,
    LEVELS,
    b"\x01\0\0\0a\0\0\0\0\x02\0\0\0\xC3\xA9",
)];

#[test]
fn optional_texts(rt: HostRuntime) -> Result<(), Fail> {
    let alloc = rt.alloc();
    let pages = pages_of(alloc, PhysicalType::ByteArray, (Optional, 4, &SOME_TEXTS))?;
    let read = large_rows_of(alloc, pages, DataType::LargeUtf8);
    check(0, read, Ok(b"\"a-\";\"\xC3\xA9;"))?;
    let pages = pages_of(alloc, PhysicalType::ByteArray, (Optional, 4, &SOME_TEXTS))?;
    let no_size = binary::Iter::<i32, _>::new(alloc, pages, DataType::Binary, Some(0), 4).err();
    assert_eq!(rt; no_size, Some(Error::InvalidArgumentError(Part::Request)));
    Ok(())
}

/// Four strings, of which the first is no text.
static FOUR_TEXTS: [Page<'static>; 1] = [First(
    4,
    0,
    &[],
    b"\x01\0\0\0\xFF\x01\0\0\0b\x02\0\0\0cc\0\0\0\0",
)];

#[test]
fn selected_texts(rt: HostRuntime) -> Result<(), Fail> {
    let alloc = rt.alloc();
    // The first is not asked for.
    let pages = located_pages(
        alloc,
        PhysicalType::ByteArray,
        (Required, 4, &FOUR_TEXTS),
        &[(0, 37, 0)],
        Interval::new(1, 2),
    )?;
    check(0, rows_of(alloc, pages, DataType::Utf8), Ok(b"\"b\"cc;"))
}
