//! How the values of a type are stored, and what is told of the least and the greatest.
use crate::putting::{Put, put_as};
use columns_core::Error;
use parquet_meta::ParquetTimeUnit::{Microseconds, Milliseconds, Nanoseconds};
use parquet_meta::{
    FileMetaData, MemorySource, ParquetTimeUnit, PhysicalType, PrimitiveLogicalType, PrimitiveType,
    Repetition, ShortBytes, read_metadata,
};
use std::alloc::Global;
use std::test::Fail;

/// The least and the greatest value, as they are stored.
type Ends<'a> = Option<(&'a [u8], &'a [u8])>;

/// A type, cells of it, the type that they are stored as, the unit of the times and whether they have a zone, and the ends.
type Stored<'a> = (
    &'a str,
    &'a [&'a str],
    PhysicalType,
    Option<(ParquetTimeUnit, bool)>,
    Ends<'a>,
);

static STORED: [Stored<'static>; 16] = [
    // False comes before true, in whichever order they stand.
    (
        "Boolean",
        &["true", "null", "false"],
        PhysicalType::Boolean,
        None,
        Some((b"\0", b"\x01")),
    ),
    (
        "Boolean",
        &["false", "true"],
        PhysicalType::Boolean,
        None,
        Some((b"\0", b"\x01")),
    ),
    (
        "Boolean",
        &["true", "true"],
        PhysicalType::Boolean,
        None,
        Some((b"\x01", b"\x01")),
    ),
    // Numbers have the lowest byte first; without a sign they have the same bits.
    (
        "Int8",
        &["1", "-2"],
        PhysicalType::Int32,
        None,
        Some((b"\xfe\xff\xff\xff", b"\x01\0\0\0")),
    ),
    (
        "UInt8",
        &["255", "1"],
        PhysicalType::Int32,
        None,
        Some((b"\x01\0\0\0", b"\xff\0\0\0")),
    ),
    (
        "UInt32",
        &["4294967294", "1"],
        PhysicalType::Int32,
        None,
        Some((b"\x01\0\0\0", b"\xfe\xff\xff\xff")),
    ),
    (
        "UInt64",
        &["1", "18446744073709551614"],
        PhysicalType::Int64,
        None,
        Some((b"\x01\0\0\0\0\0\0\0", b"\xfe\xff\xff\xff\xff\xff\xff\xff")),
    ),
    ("Date64", &["null"], PhysicalType::Int64, None, None),
    // Seconds have no unit of the format, and so no zone.
    (
        "Timestamp(s) UTC",
        &["null"],
        PhysicalType::Int64,
        None,
        None,
    ),
    (
        "Timestamp(ms)",
        &["null"],
        PhysicalType::Int64,
        Some((Milliseconds, false)),
        None,
    ),
    (
        "Timestamp(us) +01:00",
        &["null"],
        PhysicalType::Int64,
        Some((Microseconds, true)),
        None,
    ),
    (
        "Timestamp(ns) UTC",
        &["1", "-1"],
        PhysicalType::Int64,
        Some((Nanoseconds, true)),
        Some((b"\xff\xff\xff\xff\xff\xff\xff\xff", b"\x01\0\0\0\0\0\0\0")),
    ),
    // A decimal has the highest byte first.
    (
        "Decimal(9,2)",
        &["258", "-2"],
        PhysicalType::FixedLenByteArray(16),
        None,
        Some((
            b"\xff\xff\xff\xff\xff\xff\xff\xff\xff\xff\xff\xff\xff\xff\xff\xfe",
            b"\0\0\0\0\0\0\0\0\0\0\0\0\0\0\x01\x02",
        )),
    ),
    (
        "FixedSizeBinary(3)",
        &["0x7fffff", "0x800000"],
        PhysicalType::FixedLenByteArray(3),
        None,
        Some((b"\x7f\xff\xff", b"\x80\0\0")),
    ),
    // Ends are whole, and have no length in front.
    (
        "Utf8",
        &[
            "a long text that is not shortened, b",
            "a long text that is not shortened",
            "null",
        ],
        PhysicalType::ByteArray,
        None,
        Some((
            b"a long text that is not shortened",
            b"a long text that is not shortened, b",
        )),
    ),
    (
        "LargeBinary",
        &["0x"],
        PhysicalType::ByteArray,
        None,
        Some((b"", b"")),
    ),
];

fn metadata_of(alloc: Global, file: Vec<u8>) -> Result<FileMetaData, Error> {
    read_metadata(alloc, &mut MemorySource::new(file))
}

fn is_end(told: &Option<ShortBytes>, wanted: Option<&[u8]>) -> bool {
    told.as_ref().map(|bytes| bytes.as_slice()) == wanted
}

/// Whether the only chunk of the file tells these ends.
fn tells_ends(metadata: &FileMetaData, ends: Ends<'_>) -> bool {
    let [group] = metadata.row_groups.as_slice() else {
        return false;
    };
    let [chunk] = group.columns.as_slice() else {
        return false;
    };
    match &chunk.statistics_bytes {
        Some(told) => {
            is_end(&told.min_value, ends.map(|ends| ends.0))
                && is_end(&told.max_value, ends.map(|ends| ends.1))
        }
        None => false,
    }
}

fn stored_type(metadata: &FileMetaData) -> Option<PrimitiveType> {
    Some(metadata.columns.as_slice().first()?.primitive_type)
}

fn check_stored(alloc: Global, row: Stored<'_>) -> Result<(), Fail> {
    let (type_text, cells, physical_type, times, ends) = row;
    let put = Put {
        columns: &[("a", type_text, true)],
        chunks: &[&[cells]],
        page_rows: 2,
    };
    let metadata = metadata_of(alloc, put_as(alloc, put.columns, put)??)?;
    let wanted = PrimitiveType {
        physical_type,
        logical_type: times.map(|(unit, is_adjusted_to_utc)| PrimitiveLogicalType::Timestamp {
            unit,
            is_adjusted_to_utc,
        }),
        repetition: Repetition::Optional,
    };
    if stored_type(&metadata) != Some(wanted) || !tells_ends(&metadata, ends) {
        return Err(Fail::new(format_args!("{type_text} is stored otherwise")));
    }
    Ok(())
}

#[test]
fn each_type_is_stored(rt: HostRuntime) -> Result<(), Fail> {
    for row in &STORED {
        check_stored(rt.alloc(), *row)?;
    }
    Ok(())
}
