//! Columns of each stored type as iterators of arrays, from the bytes of their chunks.
ghost use Rattle.std.specs.Prelude.{◌≡◌, true};
ghost use Rattle.parquet_page.specs.Lending.{DataPagesAre, has_data_behind};

use columns_core::{Array, Cell, DataType, Error, Part, TimeUnit};
use flat_binary::binary::{Delta, FilteredDelta};
use flat_binary::page_iter_to_arrays;
use pages_for_tests::Page::First;
use pages_for_tests::{Page, pages_of};
use parquet_meta::{PhysicalType, PrimitiveType, Repetition};
use parquet_page::{DataPage, DataPageHeader, Pages};
use std::alloc::Global;
use std::iter::Iterator;
use std::test::*;

/// The last digit of a number.
fn digit(number: i128) -> u8 {
    b'0' + (number.unsigned_abs() % 10) as u8
}

/// The cells of an array: a truth value as a letter, a number as its last digit, bytes as they are, and a null as a dash.
pub(crate) fn push_cells(alloc: Global, all: &mut Vec<u8>, array: &Array) -> Result<(), Error> {
    for i in 0..array.len() {
        let cell = array.item(alloc, i)?;
        match &cell {
            Cell::Null => all.push(b'-')?,
            Cell::Bool(truth) => all.push(if *truth { b't' } else { b'f' })?,
            Cell::Int(number) => all.push(digit(*number))?,
            Cell::Text(text) => all.extend_from_slice(text.as_str().as_bytes())?,
            Cell::Bytes(bytes) => all.extend_from_slice(bytes.as_slice())?,
            Cell::DaysMs(_, _) | Cell::Cells(_) => all.push(b'?')?,
        }
    }
    all.push(b';')?;
    Ok(())
}

/// The first rows of pages, at most four, in arrays of so many rows.
fn rows_of<I: Pages>(
    alloc: Global,
    pages: I,
    physical_type: PhysicalType,
    repetition: Repetition,
    data_type: DataType,
    chunk_size: Option<usize>,
) -> Result<Vec<u8>, Error>
    requires typed { DataPagesAre (λ page. page.type.physical_type ≡ physical_type) (I.to_come pages) }
    requires ordered { has_data_behind (I.to_come pages) ≡ true }
{
    let type_ = PrimitiveType {
        physical_type,
        logical_type: None,
        repetition,
    };
    let mut all = Vec::new(alloc);
    for array in page_iter_to_arrays(alloc, pages, &type_, data_type, chunk_size, 4)? {
        push_cells(alloc, &mut all, &array?)?;
    }
    Ok(all)
}

/// The rows of a chunk of four required values.
fn rows_in(
    alloc: Global,
    physical: PhysicalType,
    pages: &[Page<'_>],
    data_type: DataType,
    chunk_size: Option<usize>,
) -> Result<Vec<u8>, Error> {
    let required = Repetition::Required;
    let pages = pages_of(alloc, physical, (required, 4, pages))?;
    rows_of(alloc, pages, physical, required, data_type, chunk_size)
}

/// Whether the rows of a plain page are these, in one array and in arrays of three rows.
fn reads(
    alloc: Global,
    physical: PhysicalType,
    values: &[u8],
    data_type: DataType,
    whole: &[u8],
    chunked: &[u8],
) -> Result<bool, Error> {
    let pages = [First(4, 0, &[], values)];
    let own_type = data_type.try_clone(alloc)?;
    let one = rows_in(alloc, physical, &pages, own_type, None)?;
    let more = rows_in(alloc, physical, &pages, data_type, Some(3))?;
    Ok(one.as_slice() == whole && more.as_slice() == chunked)
}

#[test]
fn columns_of_truth_values_and_numbers(rt: HostRuntime) -> Result<(), Fail> {
    let alloc = rt.alloc();
    let truths = PhysicalType::Boolean;
    assert!(rt;
        reads(
            alloc,
            truths,
            &[0b1101],
            DataType::Boolean,
            b"tftt;",
            b"tft;t;"
        )?
    );
    let numbers = [1, 0, 0, 0, 2, 0, 0, 0, 3, 1, 0, 0, 4, 0, 0, 0];
    let stored = PhysicalType::Int32;
    assert!(rt;
        reads(
            alloc,
            stored,
            &numbers,
            DataType::Int32,
            b"1294;",
            b"129;4;"
        )?
    );
    assert!(rt;
        reads(
            alloc,
            stored,
            &numbers,
            DataType::UInt8,
            b"1234;",
            b"123;4;"
        )?
    );
    let mut numbers = [0; 32];
    numbers[0] = 5;
    numbers[8] = 6;
    numbers[16] = 7;
    numbers[24] = 8;
    let stored = PhysicalType::Int64;
    let seconds = DataType::Timestamp(TimeUnit::Second, None);
    assert!(rt; reads(alloc, stored, &numbers, seconds, b"5678;", b"567;8;")?);
    Ok(())
}

#[test]
fn columns_of_byte_strings(rt: HostRuntime) -> Result<(), Fail> {
    let alloc = rt.alloc();
    let fixed = PhysicalType::FixedLenByteArray(2);
    let two = DataType::FixedSizeBinary(2);
    assert!(rt; reads(alloc, fixed, b"abcdefgh", two, b"abcdefgh;", b"abcdef;gh;")?);
    let strings = b"\x01\0\0\0a\0\0\0\0\x02\0\0\0bc\x01\0\0\0d";
    let own = PhysicalType::ByteArray;
    assert!(rt; reads(alloc, own, strings, DataType::Utf8, b"abcd;", b"abc;d;")?);
    assert!(rt;
        reads(
            alloc,
            own,
            strings,
            DataType::LargeBinary,
            b"abcd;",
            b"abc;d;"
        )?
    );
    Ok(())
}

#[test]
fn columns_of_nulls(rt: HostRuntime) -> Result<(), Fail> {
    let alloc = rt.alloc();
    // No page of theirs is looked at.
    let read = rows_in(alloc, PhysicalType::Double, &[], DataType::Null, Some(3))?;
    assert_eq!(rt; read.as_slice(), b"---;-;".as_slice());
    Ok(())
}

/// A page of four truth values.
static TRUTHS: [Page<'static>; 1] = [First(4, 0, &[], &[0b1101])];

#[test]
fn columns_that_are_not_begun(rt: HostRuntime) -> Result<(), Fail> {
    let alloc = rt.alloc();
    let truths = PhysicalType::Boolean;
    let refused = rows_in(alloc, truths, &TRUTHS, DataType::Int32, None).err();
    assert_eq!(rt; refused, Some(Error::NotYetImplemented(Part::Schema)));
    let refused = rows_in(alloc, truths, &TRUTHS, DataType::Boolean, Some(0)).err();
    assert_eq!(rt; refused, Some(Error::InvalidArgumentError(Part::Request)));
    let pages = pages_of(alloc, truths, (Repetition::Required, 4, &[]))?;
    let repeated = Repetition::Repeated;
    let refused = rows_of(alloc, pages, truths, repeated, DataType::Boolean, None).err();
    assert_eq!(rt; refused, Some(Error::NotYetImplemented(Part::Schema)));
    Ok(())
}

const STRINGS: PrimitiveType = PrimitiveType {
    physical_type: PhysicalType::ByteArray,
    logical_type: None,
    repetition: Repetition::Required,
};

/// The lengths 5, 0 and 3, packed with as many bits as a block has, and the strings behind them.
const JOINED: &[u8] =
    b"\x80\x01\x04\x03\x0A\x09\x04\0\0\0\x80\0\0\0\0\0\0\0\0\0\0\0\0\0\0\0Helloabc";

#[test]
fn places_of_joined_strings(rt: HostRuntime) -> Result<(), Fail> {
    let page = DataPage {
        header: DataPageHeader::V1 {
            num_values: 3,
            encoding: 6,
            definition_encoding: 3,
        },
        buffer: JOINED,
        type_: &STRINGS,
        selected_rows: None,
    };
    let mut strings = Delta::try_new(&page)?;
    assert_eq!(rt; strings.len(), 3);
    assert_eq!(rt; strings.next(&page), Some((26, 5)));
    assert_eq!(rt; strings.next(&page), Some((31, 0)));
    assert_eq!(rt; strings.next(&page), Some((31, 3)));
    assert_eq!(rt; strings.next(&page), None);
    assert_eq!(rt; FilteredDelta::try_new(&page)?.len(), 3);
    Ok(())
}
