//! Footers, and what they say.
use crate::written::{MAGIC, Written};
use columns_core::{Error, Part};
use parquet_meta::{
    ColumnChunkMetaData, Failed, FailingSource, FileSource, MemorySource, Place, RawStatistics,
    Source, read_exact_at, read_metadata, read_range,
};
use parquet_thrift::{BINARY, I32, STRUCT};
use std::alloc::{AllocError, Global};
use std::process::Abort;
use std::test::Fail;

/// The version, and the schema of one required INT32 column `a`.
fn write_schema(file: &mut Written) {
    file.int(1, 1);
    file.list(1, 2, STRUCT);
    file.text(4, b"schema");
    file.int(1, 1);
    file.end();
    file.int(1, 1);
    file.int(2, 0);
    file.text(1, b"a");
    file.end();
}

/// A chunk of 37 bytes with five values from 10 to 20 and no null.
fn write_chunk(file: &mut Written) {
    file.long(2, 4);
    file.begin(1);
    file.int(1, 1);
    file.list(1, 1, I32);
    file.raw(&[0]);
    file.list(1, 1, BINARY);
    file.raw(&[1, b'a']);
    file.int(1, 0);
    file.long(1, 5);
    file.long(1, 37);
    file.long(1, 37);
    file.long(2, 4);
    file.begin(3);
    file.long(3, 0);
    file.text(2, &[20, 0, 0, 0]);
    file.text(1, &[10, 0, 0, 0]);
    file.end();
    file.end();
    file.end();
}

/// The column `a` with the rows 10, 12, 15, 18 and 20, in one group and one plain page.
fn one_group(alloc: Global) -> Result<Vec<u8>, AllocError> {
    let mut file = Written::new(alloc);
    file.raw(MAGIC);
    file.page_header();
    for row in [10, 12, 15, 18, 20] {
        file.raw(&[row, 0, 0, 0]);
    }
    write_schema(&mut file);
    file.long(1, 5);
    file.list(1, 1, STRUCT);
    file.list(1, 1, STRUCT);
    write_chunk(&mut file);
    file.long(1, 37);
    file.long(1, 5);
    file.end();
    file.end();
    file.raw(&[75, 0, 0, 0]);
    file.raw(MAGIC);
    file.into_bytes()
}

/// The column without a group.
fn no_groups(alloc: Global) -> Result<Vec<u8>, AllocError> {
    let mut file = Written::new(alloc);
    file.raw(MAGIC);
    write_schema(&mut file);
    file.long(1, 0);
    file.list(1, 0, STRUCT);
    file.end();
    file.raw(&[28, 0, 0, 0]);
    file.raw(MAGIC);
    file.into_bytes()
}

/// Where the footer of `one_group` begins.
const FOOTER: usize = 41;

/// For each value of a byte, and each byte of the footer of `one_group` that is changed to it: `o` where the rules of the format
/// still give metadata, and `x` where the file is damaged.
const CHANGED: [(u8, &[u8; 75]); 4] = [
    (
        0x00,
        b"xoxxxxooooooxxoxxxoxxooxoxoxxxoxxxxxoxxxoxoxoxoxoxoxxoxxooooxxoooooooxoxooo",
    ),
    (
        0x7f,
        b"xoxxxxooooooxxxxxxxxxoxxxxxxxxoxxxxxoxxxoxoxxxoxxxxxxoxxooooxxooooxxxxoxxxx",
    ),
    (
        0xff,
        b"xxxxxxxxxxxxxxxxxxxxxxxxxxxxxxxxxxxooxxxoxxxxxxxxxxxxxxxooooxxooooxxxxxxxxx",
    ),
    (
        0x15,
        b"ooxxxxoooooooxxoxxxxxoxxxxxxxxoxoxxooxxxoooxxooxxxxxxoxxooooxxooooxxxooxxxx",
    ),
];

/// 0, or the number of the error.
fn outcome<S: Source>(alloc: Global, source: &mut S) -> u8 {
    match read_metadata(alloc, source) {
        Ok(_) => 0,
        Err(error) => error.number(),
    }
}

/// What comes of `one_group` with one byte changed.
fn outcome_with(alloc: Global, place: usize, value: u8) -> Result<u8, Fail> {
    let mut bytes = one_group(alloc)?;
    if place < bytes.len() {
        bytes[place] = value;
    }
    Ok(outcome(alloc, &mut MemorySource::new(bytes)))
}

/// What metadata tells of a chunk of numbers of 32 bits: whether its column is flat, how many values there are and where they stand; its counts; and the
/// count of nulls and the ends of its statistics.
type Told = (
    bool,
    u64,
    (u64, u64),
    (Option<u64>, Option<u64>),
    (Option<u64>, Option<i32>, Option<i32>),
);

fn told_of(alloc: Global, column: &ColumnChunkMetaData) -> Told {
    let counts = column.counts().unwrap_or((None, None));
    let ends = match column.statistics(alloc) {
        Ok(Some(RawStatistics::Int32(ends))) => (ends.null_count, ends.min_value, ends.max_value),
        _ => (None, None, None),
    };
    (
        column.descriptor().flat,
        column.num_values(),
        column.byte_range(),
        counts,
        ends,
    )
}

#[test]
fn reads_the_metadata_of_one_group(rt: HostRuntime) -> Result<(), Fail> {
    let file = one_group(rt.alloc())?;
    assert_eq!(rt; file.len(), 124);
    let mut source = MemorySource::new(file);
    let Ok(metadata) = read_metadata(rt.alloc(), &mut source) else {
        return Err(Fail::from("no metadata"));
    };
    assert_eq!(rt; metadata.num_rows, 5);
    assert_eq!(rt; metadata.columns.as_slice().len(), 1);
    for group in metadata.row_groups.as_slice() {
        assert_eq!(rt; group.num_rows(), 5);
        for column in group.columns() {
            let told = told_of(rt.alloc(), column);
            assert_eq!(rt;
                told,
                (
                    true,
                    5,
                    (4, 37),
                    (Some(0), None),
                    (Some(0), Some(10), Some(20))
                )
            );
        }
    }
    let mut empty = MemorySource::new(no_groups(rt.alloc())?);
    assert_eq!(rt; outcome(rt.alloc(), &mut empty), 0);
    Ok(())
}

#[test]
fn judges_damaged_footers(rt: HostRuntime) -> Result<(), Fail> {
    for (value, judged) in CHANGED {
        for (index, letter) in judged.iter().enumerate() {
            let wanted = if *letter == b'o' { 0 } else { 3 };
            assert_eq!(rt; outcome_with(rt.alloc(), FOOTER + index, value)?, wanted);
        }
    }
    // The length is above the file, less than the footer and one more; the last word is another; the first is not looked at.
    for (place, value, wanted) in [
        (119, 1, 3),
        (116, 74, 3),
        (116, 76, 3),
        (123, 50, 3),
        (0, 0, 0),
    ] {
        assert_eq!(rt; outcome_with(rt.alloc(), place, value)?, wanted);
    }
    Ok(())
}

#[test]
fn fails_where_the_source_does(rt: HostRuntime) -> Result<(), Fail> {
    // Five calls: the size, and for the last eight bytes and for the footer the size and the bytes.
    for (failing, first, second) in [(1, 6, 0), (3, 6, 0), (5, 6, 0), (6, 0, 6)] {
        let bytes = one_group(rt.alloc())?;
        let listed = Vec::from_slice(rt.alloc(), &[failing])?;
        let mut source = FailingSource::new(bytes, listed);
        assert_eq!(rt; outcome(rt.alloc(), &mut &mut source), first);
        assert_eq!(rt; outcome(rt.alloc(), &mut source), second);
    }
    let mut source = MemorySource::new(one_group(rt.alloc())?);
    let behind = Place {
        offset: 121,
        length: 4,
    };
    assert!(rt; read_exact_at(rt.alloc(), &mut source, behind).is_err());
    let error = read_range(rt.alloc(), &mut source, behind).err();
    assert_eq!(rt; error, Some(Error::ExternalFormat(Part::Group)));
    let path = String::from_str(rt.alloc(), "no such file")?;
    let mut file = FileSource::new(rt, path);
    assert_eq!(rt; file.size(), Err(Failed));
    Ok(())
}
