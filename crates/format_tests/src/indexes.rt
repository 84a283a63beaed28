//! Page headers, and the indexes of pages.
use crate::written::Written;
use columns_core::{Error, Name};
use parquet_meta::{
    ColumnChunkMetaData, ColumnDescriptor, ColumnPath, DataPageHeader, Index, MemorySource,
    PageHeader, PageKind, PageLocation, PhysicalType, Place, PrimitiveType, Repetition,
    get_field_columns, get_field_pages, page_header_at, read_pages_locations, read_raw_indexes,
};
use parquet_thrift::{BINARY, FALSE, STRUCT, TRUE, Unspelled};
use std::alloc::{AllocError, Global};
use std::test::Fail;

/// Bytes of ends.
const ENDS: [u8; 12] = [2; 12];

fn location(offset: i64, compressed_page_size: i32, first_row_index: i64) -> PageLocation {
    PageLocation {
        offset,
        compressed_page_size,
        first_row_index,
    }
}

/// A column with a path of one name.
fn column(
    alloc: Global,
    name: &str,
    physical_type: PhysicalType,
    index: Option<Place>,
) -> Result<ColumnChunkMetaData, AllocError> {
    let name = Name::new(String::from_str(alloc, name)?);
    let mut path = Vec::new(alloc);
    path.push(name)?;
    let primitive_type = PrimitiveType {
        physical_type,
        logical_type: None,
        repetition: Repetition::Optional,
    };
    Ok(ColumnChunkMetaData {
        descriptor: ColumnDescriptor {
            path_in_schema: ColumnPath::new(alloc, path)?,
            primitive_type,
            flat: true,
        },
        codec: 0,
        num_values: 0,
        total_compressed_size: 0,
        data_page_offset: 0,
        dictionary_page_offset: None,
        statistics_bytes: None,
        offset_index: index,
        column_index: index,
        column_index_offset: None,
        foreign: false,
        encrypted: false,
    })
}

#[test]
fn reads_page_headers(rt: HostRuntime) -> Result<(), Fail> {
    let mut data = Written::new(rt.alloc());
    data.page_header();
    data.raw(&[10]);
    let data = data.into_bytes()?;
    let header = DataPageHeader::V1 {
        num_values: 5,
        encoding: 0,
        definition_encoding: 3,
    };
    let expected = PageHeader {
        kind: PageKind::Data(header),
        size: 20,
    };
    assert_eq!(rt;
        page_header_at(data.as_slice()),
        Ok((expected, [10].as_slice()))
    );
    assert_eq!(rt;
        page_header_at(&data.as_slice()[..data.len().saturating_sub(2)]),
        Err(Unspelled)
    );
    let mut dictionary = Written::new(rt.alloc());
    dictionary.int(1, 2);
    dictionary.int(2, 8);
    dictionary.begin(4);
    dictionary.int(1, 2);
    dictionary.int(1, 2);
    dictionary.end();
    dictionary.end();
    let dictionary = dictionary.into_bytes()?;
    let expected = PageHeader {
        kind: PageKind::Dictionary {
            num_values: 2,
            encoding: 2,
        },
        size: 8,
    };
    assert_eq!(rt;
        page_header_at(dictionary.as_slice()),
        Ok((expected, [].as_slice()))
    );
    Ok(())
}

/// An offset index of three locations.
fn locations(alloc: Global) -> Result<Vec<u8>, AllocError> {
    let mut index = Written::new(alloc);
    index.list(1, 3, STRUCT);
    for (offset, size, first_row) in [(4, 100, 0), (104, 100, 10), (204, 50, 25)] {
        index.long(1, offset);
        index.int(1, size);
        index.long(1, first_row);
        index.end();
    }
    index.end();
    index.into_bytes()
}

#[test]
fn reads_the_locations_of_pages(rt: HostRuntime) -> Result<(), Fail> {
    let alloc = rt.alloc();
    let index = locations(alloc)?;
    let place = Place {
        offset: 0,
        length: index.len() as u64,
    };
    let mut source = MemorySource::new(index);
    let mut columns = Vec::new(alloc);
    columns.push(column(alloc, "a", PhysicalType::Int32, Some(place))?)?;
    columns.push(column(alloc, "b", PhysicalType::Int32, None)?)?;
    let lists = read_pages_locations(alloc, &mut source, columns.as_slice())?;
    assert_eq!(rt; lists.len(), 2);
    let expected = [
        location(4, 100, 0),
        location(104, 100, 10),
        location(204, 50, 25),
    ];
    assert_eq!(rt; lists[0].as_slice(), expected.as_slice());
    assert_eq!(rt; lists[1].len(), 0);
    Ok(())
}

/// What a column of this type says of a file that is a column index of one page with this end.
fn read_end(alloc: Global, physical_type: PhysicalType, end: &[u8]) -> Result<Vec<Index>, Error> {
    let Ok(length) = u8::try_from(end.len()) else {
        return Err(Error::Overflow);
    };
    let mut index = Written::new(alloc);
    index.list(1, 1, TRUE);
    index.raw(&[FALSE]);
    for _ in 0..2 {
        index.list(1, 1, BINARY);
        index.raw(&[length]);
        index.raw(end);
    }
    index.end();
    let bytes = index.into_bytes()?;
    let place = Place {
        offset: 0,
        length: bytes.len() as u64,
    };
    let mut columns = Vec::new(alloc);
    columns.push(column(alloc, "a", physical_type, Some(place))?)?;
    columns.push(column(alloc, "b", physical_type, None)?)?;
    let mut source = MemorySource::new(bytes);
    read_raw_indexes(alloc, &mut source, columns.as_slice(), "a")
}

/// 0, or the number of the error.
fn outcome(alloc: Global, physical_type: PhysicalType, end: &[u8]) -> u8 {
    match read_end(alloc, physical_type, end) {
        Ok(_) => 0,
        Err(error) => error.number(),
    }
}

#[test]
fn reads_the_ends_of_pages(rt: HostRuntime) -> Result<(), Fail> {
    let alloc = rt.alloc();
    let table = [
        (PhysicalType::Boolean, &ENDS[..1], 0),
        (PhysicalType::Boolean, &ENDS[..2], 3),
        (PhysicalType::Int32, &ENDS[..4], 0),
        (PhysicalType::Int32, &ENDS[..3], 3),
        (PhysicalType::Int64, &ENDS[..8], 0),
        (PhysicalType::Int64, &ENDS[..9], 3),
        (PhysicalType::Int96, &ENDS[..12], 0),
        (PhysicalType::Int96, &ENDS[..0], 3),
        (PhysicalType::Float, &ENDS[..4], 2),
        (PhysicalType::Double, &ENDS[..8], 2),
        (PhysicalType::ByteArray, &ENDS[..0], 0),
        (PhysicalType::FixedLenByteArray(5), &ENDS[..5], 0),
        (PhysicalType::FixedLenByteArray(5), &ENDS[..6], 3),
    ];
    for (physical_type, end, expected) in table {
        assert_eq!(rt; outcome(alloc, physical_type, end), expected);
    }
    let indexes = read_end(alloc, PhysicalType::Int32, &[0xfe, 0xff, 0xff, 0xff])?;
    let [Index::Int32(pages)] = indexes.as_slice() else {
        return Err(Error::Overflow.into());
    };
    assert!(rt; matches!(pages.as_slice(), [page] if page.min == Some(-2)));
    Ok(())
}

#[test]
fn finds_the_columns_of_a_field(rt: HostRuntime) -> Result<(), Fail> {
    let alloc = rt.alloc();
    let mut columns = Vec::new(alloc);
    columns.push(column(alloc, "a", PhysicalType::Int32, None)?)?;
    columns.push(column(alloc, "ab", PhysicalType::Int64, None)?)?;
    columns.push(column(alloc, "a", PhysicalType::Double, None)?)?;
    let found = get_field_columns(alloc, columns.as_slice(), "a")?;
    assert_eq!(rt; found.len(), 2);
    let pages = get_field_pages(alloc, columns.as_slice(), &[10, 20, 30, 40], "a")?;
    assert_eq!(rt; pages.as_slice(), [&10, &30].as_slice());
    Ok(())
}

#[test]
fn items_stand_beside_columns(rt: HostRuntime) -> Result<(), Fail> {
    let alloc = rt.alloc();
    let mut columns = Vec::new(alloc);
    columns.push(column(alloc, "a", PhysicalType::Int32, None)?)?;
    columns.push(column(alloc, "b", PhysicalType::Int32, None)?)?;
    // The column `a` has an item, and `b` has none.
    let of_a = get_field_pages(alloc, columns.as_slice(), &[7], "a")?;
    assert_eq!(rt; of_a.as_slice(), [&7].as_slice());
    assert!(rt; get_field_pages(alloc, columns.as_slice(), &[7], "b")?.is_empty());
    Ok(())
}
