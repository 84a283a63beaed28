//! Groups of a file, one after another, under a limit.
use crate::asked::{check_chunks, numbers_of, opened, schema_of};
use columns_core::{Error, Part};
use files_for_tests::Levels::Absent;
use files_for_tests::Values::Numbers;
use files_for_tests::{CHUNK, Chunk, Page, file_of};
use parquet_meta::MemorySource;
use parquet_read::RowGroupReader;
use std::alloc::Global;
use std::iter::Iterator;
use std::test::*;

/// A group of five rows.
pub(crate) const FIVE_ROWS: &[Chunk<'static>] = &[Chunk {
    pages: &[Page(5, Absent, Numbers(&[4, 5, 6, 7, 8]))],
    ..CHUNK
}];

/// A group of three rows, and that of five.
pub(crate) const TWO_GROUPS: &[&[Chunk<'static>]] = &[
    &[Chunk {
        pages: &[Page(3, Absent, Numbers(&[1, 2, 3]))],
        ..CHUNK
    }],
    FIVE_ROWS,
];

/// The groups of a file, of which column `a` is read.
fn groups_of(
    alloc: Global,
    groups: &[&[Chunk<'_>]],
    name: &str,
    chunk_size: Option<usize>,
    limit: Option<usize>,
) -> Result<RowGroupReader<MemorySource>, Error> {
    let schema = schema_of(alloc, &[name])?;
    let bytes = file_of(alloc, groups)?;
    let (source, metadata) = opened(alloc, bytes.as_slice())?;
    let row_groups = metadata.row_groups.into_vec();
    RowGroupReader::new(alloc, source, schema, row_groups, chunk_size, limit, None)
}

/// The chunk size, the limit, and the chunks of all groups, each as the number of its rows and its numbers.
type Read<'a> = (Option<usize>, Option<usize>, &'a [&'a [i128]]);

static CHUNKS: [Read<'static>; 5] = [
    (None, None, &[&[3, 1, 2, 3], &[5, 4, 5, 6, 7, 8]]),
    (None, Some(5), &[&[3, 1, 2, 3], &[2, 4, 5]]),
    (Some(2), Some(5), &[&[2, 1, 2], &[1, 3], &[2, 4, 5]]),
    (Some(9), Some(2), &[&[2, 1, 2]]),
    (None, Some(0), &[]),
];

/// The numbers of all chunks of two groups.
fn numbers_in(
    alloc: Global,
    chunk_size: Option<usize>,
    limit: Option<usize>,
) -> Result<Vec<Vec<i128>>, Error> {
    let mut given = Vec::new(alloc);
    for group in groups_of(alloc, TWO_GROUPS, "a", chunk_size, limit)? {
        for chunk in group? {
            given.push(numbers_of(alloc, &chunk?)?)?;
        }
    }
    Ok(given)
}

fn check_reads(alloc: Global, reads: &[Read<'_>]) -> Result<(), Fail> {
    for (chunk_size, limit, chunks) in reads {
        let given = numbers_in(alloc, *chunk_size, *limit)?;
        check_chunks(given.as_slice(), *chunks)?;
    }
    Ok(())
}

#[test]
fn groups_under_a_limit(rt: HostRuntime) -> Result<(), Fail> {
    check_reads(rt.alloc(), &CHUNKS)
}

/// The error of the next group that comes.
fn next_refusal(reader: &mut RowGroupReader<MemorySource>) -> Option<Option<Error>> {
    reader.next().map(Result::err)
}

#[test]
fn groups_that_are_refused(rt: HostRuntime) -> Result<(), Fail> {
    let alloc = rt.alloc();
    let none = groups_of(alloc, TWO_GROUPS, "a", Some(0), None).err();
    assert_eq!(rt; none, Some(Error::InvalidArgumentError(Part::Request)));
    // A group whose reading failed is not tried again.
    let refused = Some(Some(Error::NotYetImplemented(Part::Schema)));
    let mut missing = groups_of(alloc, TWO_GROUPS, "z", None, Some(1))?;
    for refusal in [refused, refused, None] {
        assert_eq!(rt; next_refusal(&mut missing), refusal);
    }
    Ok(())
}
