//! Pages of chunks, their levels, and the rows that are selected of them.
ghost use Rattle.std.specs.Prelude.{◌≡◌, ◌<◌, IfOk, IsSome};
ghost use Rattle.parquet_page.specs.Content.{data_content};
ghost use Rattle.parquet_page.specs.ValidityLeft.{optional_left};

use columns_core::{Error, Part};
use parquet_base::Steps;
use parquet_meta::{
    ColumnChunkMetaData, ColumnDescriptor, ColumnPath, PageLocation, PhysicalType, PrimitiveType,
    Repetition,
};
use parquet_page::{
    DataPage, DataPageHeader, IndexedPageReader, Interval, OptionalPageValidity, PageReader, Pages,
    Run, SliceFiltered, ValidityPart, ValidityWord, count_selected, page_row_intervals,
    select_pages, split_buffer,
};
use std::alloc::{AllocError, Global};
use std::marker::Brand;
use std::sync::ledger::{Blank, Ledger};
use std::test::*;

/// A data page of two INT32 values: a header of 17 bytes, and the body.
const DATA: [u8; 25] = [
    0x15, 0x00, 0x15, 0x10, 0x15, 0x10, 0x2c, 0x15, 0x04, 0x15, 0x00, 0x15, 0x06, 0x15, 0x06, 0x00,
    0x00, 0x0a, 0x00, 0x00, 0x00, 0x0c, 0x00, 0x00, 0x00,
];

/// A dictionary page of the same values.
const DICTIONARY: [u8; 21] = [
    0x15, 0x04, 0x15, 0x10, 0x15, 0x10, 0x4c, 0x15, 0x04, 0x15, 0x00, 0x00, 0x00, 0x0a, 0x00, 0x00,
    0x00, 0x0c, 0x00, 0x00, 0x00,
];

fn run(start: usize, length: usize) -> Interval
    ensures { result ≡ record { start = start; length = length } }
{
    Interval { start, length }
}

fn page(offset: i64, first_row_index: i64) -> PageLocation {
    PageLocation {
        offset,
        compressed_page_size: 9,
        first_row_index,
    }
}

fn column(repetition: Repetition) -> ColumnChunkMetaData {
    ColumnChunkMetaData {
        descriptor: ColumnDescriptor {
            path_in_schema: ColumnPath::empty(),
            primitive_type: PrimitiveType {
                physical_type: PhysicalType::Int32,
                logical_type: None,
                repetition,
            },
            flat: true,
        },
        codec: 0,
        num_values: 4,
        total_compressed_size: 44,
        data_page_offset: 4,
        dictionary_page_offset: None,
        statistics_bytes: None,
        offset_index: None,
        column_index: None,
        column_index_offset: None,
        foreign: false,
        encrypted: false,
    }
}

#[test]
fn rows_of_pages(rt: HostRuntime) -> Result<(), Fail> {
    let alloc = rt.alloc();
    let rows = page_row_intervals(alloc, &[page(4, 0), page(13, 10), page(22, 25)], 30)?;
    assert_eq!(rt;
        rows.as_slice(),
        [run(0, 10), run(10, 15), run(25, 5)].as_slice()
    );
    assert!(rt; page_row_intervals(alloc, &[], 30)?.is_empty());
    for locations in [
        [page(4, 0), page(13, 31)],
        [page(4, 9), page(13, 8)],
        [page(4, -1), page(13, 8)],
    ] {
        assert_eq!(rt;
            page_row_intervals(alloc, &locations, 30).err(),
            Some(Error::ExternalFormat(Part::Location))
        );
    }
    Ok(())
}

#[test]
fn selected_rows_of_pages(rt: HostRuntime) -> Result<(), Fail> {
    let alloc = rt.alloc();
    let three = [page(4, 0), page(13, 10), page(22, 25)];
    let pages = select_pages(alloc, &[run(5, 10)], &three, 30)?;
    assert_eq!(rt; pages.len(), 3);
    assert_eq!(rt; count_selected(pages.as_slice()), Some(10));
    assert_eq!(rt; pages[0].selected_rows.as_slice(), [run(5, 5)].as_slice());
    assert_eq!(rt; pages[1].selected_rows.as_slice(), [run(0, 5)].as_slice());
    assert!(rt; pages[2].selected_rows.as_slice().is_empty());
    assert_eq!(rt;
        (pages[1].start, pages[1].length, pages[1].num_rows),
        (13, 9, 15)
    );
    let pages = select_pages(alloc, &[run(10, 15)], &[page(4, 0), page(13, 7)], 30)?;
    assert_eq!(rt; pages.len(), 2);
    assert!(rt; pages[0].selected_rows.as_slice().is_empty());
    assert_eq!(rt; pages[1].selected_rows.as_slice(), [run(3, 15)].as_slice());
    // Of eight rows in two intervals at most three at a time.
    let rows = [run(5, 5), run(12, 3)];
    let mut walk = SliceFiltered::new(&rows);
    assert_eq!(rt; walk.len(), 8);
    assert_eq!(rt; walk.next(&rows, 3), Some((5, 3)));
    assert_eq!(rt; walk.next(&rows, 3), Some((0, 2)));
    assert_eq!(rt; walk.next(&rows, 3), Some((2, 3)));
    assert_eq!(rt; walk.next(&rows, 3), None);
    assert_eq!(rt; walk.len(), 0);
    Ok(())
}

#[test]
fn refused_selections(rt: HostRuntime) {
    let alloc = rt.alloc();
    let pages = [page(4, 2), page(13, 10)];
    for intervals in [
        [run(5, 5), run(9, 2)],
        [run(9, 2), run(2, 2)],
        [run(2, 0), run(9, 2)],
        [run(2, 2), run(29, 2)],
        [run(2, 2), run(usize::MAX, 2)],
    ] {
        assert_eq!(rt;
            select_pages(alloc, &intervals, &pages, 30).err(),
            Some(Error::InvalidArgumentError(Part::Request))
        );
    }
    let damaged = Some(Error::ExternalFormat(Part::Location));
    assert_eq!(rt;
        select_pages(alloc, &[run(1, 9)], &pages, 30).err(),
        damaged
    );
    assert_eq!(rt; select_pages(alloc, &[run(1, 9)], &[], 30).err(), damaged);
    // A negative offset is refused also where no row is selected.
    assert_eq!(rt; select_pages(alloc, &[], &[page(-1, 0)], 30).err(), damaged);
}

#[test]
fn parts_of_a_body(rt: HostRuntime) -> Result<(), Fail> {
    let alloc = rt.alloc();
    let body = [2, 0, 0, 0, 3, 13, 7, 0, 0, 0];
    let optional = column(Repetition::Optional).descriptor.primitive_type;
    let v1 = DataPage {
        header: DataPageHeader::V1 {
            num_values: 4,
            encoding: 0,
            definition_encoding: 3,
        },
        buffer: &body,
        type_: &optional,
        selected_rows: None,
    };
    assert_eq!(rt;
        split_buffer(&v1)?,
        ([].as_slice(), [3, 13].as_slice(), [7, 0, 0, 0].as_slice())
    );
    let v2 = DataPage {
        header: DataPageHeader::V2 {
            num_values: 4,
            encoding: 0,
            definition_length: 7,
            repetition_length: 3,
        },
        buffer: &body,
        type_: &optional,
        selected_rows: None,
    };
    assert_eq!(rt; split_buffer(&v2)?.2, [].as_slice());
    let short = DataPage {
        buffer: &body[..9],
        ..v2
    };
    assert!(rt; split_buffer(&short).is_err());
    Ok(())
}

/// The walk over all rows of a page.
fn walk_over(page: &DataPage<'_>) -> Result<OptionalPageValidity, Error>
    ensures { IfOk result (λ walk. IsSome (optional_left walk (data_content page.now))) }
{
    OptionalPageValidity::try_new(page)
}

/// The bits of a word, how many rows it has, and how many of those have a value.
pub(crate) fn word_of(part: Option<ValidityPart>) -> Option<(u32, usize, usize)> {
    match part {
        Some(ValidityPart::Word(word)) => Some((word.bits, word.rows, word.present())),
        _ => None,
    }
}

pub(crate) fn run_of(part: Option<ValidityPart>) -> Option<Run> {
    match part {
        Some(ValidityPart::Run(run)) => Some(run),
        _ => None,
    }
}

#[test]
fn parts_of_a_page(rt: HostRuntime) -> Result<(), Fail> {
    let alloc = rt.alloc();
    let optional = column(Repetition::Optional).descriptor.primitive_type;
    // Forty levels in one packed run.
    let mixed = DataPage {
        header: DataPageHeader::V1 {
            num_values: 40,
            encoding: 0,
            definition_encoding: 3,
        },
        buffer: &[6, 0, 0, 0, 11, 0xb5, 0x0f, 0xf0, 0x5a, 0x3c],
        type_: &optional,
        selected_rows: None,
    };
    let mut walk = walk_over(&mixed)?;
    assert_eq!(rt;
        word_of(walk.next_part(&mixed, 40)),
        Some((0x5af0_0fb5, 32, 17))
    );
    assert_eq!(rt; word_of(walk.next_part(&mixed, 40)), Some((0x3c, 8, 4)));
    assert!(rt; walk.next_part(&mixed, 40).is_none());
    // Five levels that are repeated, and eight zeros in a packed run.
    let equal = DataPage {
        header: DataPageHeader::V1 {
            num_values: 13,
            encoding: 0,
            definition_encoding: 3,
        },
        buffer: &[4, 0, 0, 0, 10, 1, 3, 0],
        type_: &optional,
        selected_rows: None,
    };
    let mut walk = walk_over(&equal)?;
    assert_eq!(rt; run_of(walk.next_part(&equal, 40)), Some(Run::Present(5)));
    assert_eq!(rt; run_of(walk.next_part(&equal, 40)), Some(Run::Null(8)));
    assert!(rt; walk.next_part(&equal, 40).is_none());
    Ok(())
}

#[test]
fn runs_of_a_word(rt: HostRuntime) {
    let mut word = ValidityWord {
        bits: 0x3c,
        rows: 8,
    };
    assert_eq!(rt; word.next_run(), Some((false, 2)));
    assert_eq!(rt; word.next_run(), Some((true, 4)));
    assert_eq!(rt; word.next_run(), Some((false, 2)));
    assert_eq!(rt; word.next_run(), None);
}

#[test]
fn readers_before_their_first_page(rt: HostRuntime) -> Result<(), Fail> {
    let alloc = rt.alloc();
    let required = column(Repetition::Required);
    let reader = PageReader::new(alloc, Vec::new(alloc), &required)?;
    assert_eq!(rt; (reader.rows(), reader.lent()), (4, 0));
    let pages = select_pages(alloc, &[run(5, 10)], &[page(0, 0), page(9, 10)], 30)?;
    let chunk = vec![in alloc; 0; 18]?;
    let reader = IndexedPageReader::new(alloc, chunk, &required, pages)?;
    assert_eq!(rt; (reader.rows(), reader.lent()), (10, 0));
    let pages = select_pages(alloc, &[run(5, 10)], &[page(0, 0), page(9, 10)], 30)?;
    let short = vec![in alloc; 0; 17]?;
    assert_eq!(rt;
        IndexedPageReader::new(alloc, short, &required, pages).err(),
        Some(Error::ExternalFormat(Part::Location))
    );
    let pages = select_pages(alloc, &[run(5, 10)], &[page(0, 0), page(9, 10)], 30)?;
    assert_eq!(rt;
        IndexedPageReader::from_ranges(alloc, None, Vec::new(alloc), &required, pages).err(),
        Some(Error::InvalidArgumentError(Part::Request))
    );
    Ok(())
}

/// The bytes of pages one behind the other, with another byte at a place.
fn chunk_of(alloc: Global, pages: &[&[u8]], place: usize, byte: u8) -> Result<Vec<u8>, AllocError> {
    let mut chunk = Vec::new(alloc);
    for page in pages {
        chunk.extend_from_slice(page)?;
    }
    if let Some(there) = chunk.get_mut(place) {
        *there = byte;
    }
    Ok(chunk)
}

/// How many pages of a chunk of four values are lent, and the number of the error that ends them.
fn pages_lent<L: Ledger>(
    alloc: Global,
    chunk: Vec<u8>,
    blank: Blank,
) -> Result<(usize, Option<u8>), Error>
    requires name { blank.name ≡ L.name }
    requires parts { blank.parts ≡ L.parts }
    requires whole { 0 < blank.parts }
{
    let mut steps = Steps::<L>::new(blank);
    let mut reader = PageReader::new(alloc, chunk, &column(Repetition::Required))?;
    for _ in 0..4 {
        match reader.next(&mut steps) {
            Ok(Some(_)) => {}
            Ok(None) => return Ok((reader.lent(), None)),
            Err(error) => return Ok((reader.lent(), Some(error.number()))),
        }
    }
    Ok((reader.lent(), None))
}

/// What `pages_lent` gives, over steps of its own.
fn pages_counted(alloc: Global, chunk: Vec<u8>) -> Result<(usize, Option<u8>), Error> {
    pages_lent::<Brand>(alloc, chunk, Blank::new(1))
}

#[test]
fn chunks_with_a_wrong_byte(rt: HostRuntime) -> Result<(), Fail> {
    let alloc = rt.alloc();
    let two = [DATA.as_slice(), DATA.as_slice()];
    let three = [DICTIONARY.as_slice(), DATA.as_slice(), DATA.as_slice()];
    let late = [DATA.as_slice(), DICTIONARY.as_slice(), DATA.as_slice()];
    let damaged = Some(3);
    for (pages, place, byte, lent, error) in [
        // As they are.
        (two.as_slice(), 1, 0x00, 2, None),
        (three.as_slice(), 1, 0x04, 3, None),
        (late.as_slice(), 1, 0x00, 1, damaged),
        // The type of a page: index, dictionary, data of the second form.
        (two.as_slice(), 1, 0x02, 0, damaged),
        (two.as_slice(), 1, 0x04, 0, damaged),
        (two.as_slice(), 1, 0x06, 0, damaged),
        // The size: uncompressed, negative, past the end, up to the end, past the next page's first byte.
        (two.as_slice(), 3, 0x11, 2, None),
        (two.as_slice(), 5, 0x11, 0, damaged),
        (two.as_slice(), 5, 0x44, 0, damaged),
        (two.as_slice(), 5, 0x42, 1, damaged),
        (two.as_slice(), 5, 0x12, 1, damaged),
        // The count: -2, 0, 1, 3, 4, 5.
        (two.as_slice(), 8, 0x03, 0, damaged),
        (two.as_slice(), 8, 0x00, 2, damaged),
        (two.as_slice(), 8, 0x02, 2, damaged),
        (two.as_slice(), 8, 0x06, 1, damaged),
        (two.as_slice(), 8, 0x08, 1, None),
        (two.as_slice(), 8, 0x0a, 0, damaged),
        // Encodings of values and of levels are looked at by those who read them.
        (two.as_slice(), 10, 0x0e, 2, None),
        (two.as_slice(), 12, 0x08, 2, None),
        // A dictionary page: negative, without any value, and of an encoding that is not plain.
        (three.as_slice(), 8, 0x03, 0, damaged),
        (three.as_slice(), 8, 0x00, 3, None),
        (three.as_slice(), 10, 0x04, 3, None),
        (three.as_slice(), 10, 0x02, 0, Some(2)),
    ] {
        let chunk = chunk_of(alloc, pages, place, byte)?;
        assert_eq!(rt; pages_counted(alloc, chunk)?, (lent, error));
    }
    Ok(())
}
