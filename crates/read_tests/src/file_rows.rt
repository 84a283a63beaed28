//! The chunks of all groups of a file, under a chunk size and a limit.
ghost use Rattle.std.specs.Prelude.{◌≡◌, ◌<◌};

use crate::asked::{Located, answer_of, check_chunks, numbers_of, opened, pages_of, schema_of};
use crate::files::{FIVE_ROWS, TWO_GROUPS};
use columns_core::{Error, Part};
use files_for_tests::Levels::Absent;
use files_for_tests::Values::{Bytes, Numbers};
use files_for_tests::{CHUNK, Chunk, Page, file_of};
use parquet_base::Steps;
use parquet_meta::{FailingSource, MemorySource, Source};
use parquet_page::FilteredPage;
use parquet_read::FileReader;
use std::alloc::{AllocError, Global};
use std::iter::Iterator;
use std::marker::Brand;
use std::sync::ledger::{Blank, Ledger};
use std::test::*;

/// The same groups, where the page of the first one lacks a byte of its third number.
const SHORT_PAGE: &[&[Chunk<'static>]] = &[
    &[Chunk {
        pages: &[Page(3, Absent, Bytes(0, &[1, 0, 0, 0, 2, 0, 0, 0, 3, 0, 0]))],
        ..CHUNK
    }],
    FIVE_ROWS,
];

/// The same groups, where the first one stands in another file.
const ELSEWHERE: &[&[Chunk<'static>]] = &[
    &[Chunk {
        pages: &[Page(3, Absent, Numbers(&[1, 2, 3]))],
        path: "x",
        ..CHUNK
    }],
    FIVE_ROWS,
];

/// A file, the columns that are read, the chunk size, the limit, and of each group the located pages of its one column.
#[derive(Clone, Copy)]
struct Asked {
    groups: &'static [&'static [Chunk<'static>]],
    names: &'static [&'static str],
    chunk_size: Option<usize>,
    limit: Option<usize>,
    pages: Option<&'static [&'static [Located]]>,
}

/// All rows of both groups.
const ALL: Asked = Asked {
    groups: TWO_GROUPS,
    names: &["a"],
    chunk_size: None,
    limit: None,
    pages: None,
};

/// The lists of each group, of one field and one column.
fn lists_of(
    alloc: Global,
    groups: Option<&[&[Located]]>,
) -> Result<Option<Vec<Vec<Vec<Vec<FilteredPage>>>>>, AllocError> {
    let Some(groups) = groups else {
        return Ok(None);
    };
    let mut lists = Vec::new(alloc);
    for pages in groups {
        let column = vec![in alloc; pages_of(alloc, pages)?]?;
        lists.push(vec![in alloc; column]?)?;
    }
    Ok(Some(lists))
}

fn reader_of(alloc: Global, asked: Asked) -> Result<FileReader<MemorySource>, Error> {
    let schema = schema_of(alloc, asked.names)?;
    let pages = lists_of(alloc, asked.pages)?;
    let bytes = file_of(alloc, asked.groups)?;
    let (source, metadata) = opened(alloc, bytes.as_slice())?;
    let groups = metadata.row_groups.into_vec();
    FileReader::new(
        alloc,
        source,
        groups,
        schema,
        asked.chunk_size,
        asked.limit,
        pages,
    )
}

/// What is asked, and all chunks, each as the number of its rows and its numbers.
type Given = (Asked, &'static [&'static [i128]]);

static CHUNKS: [Given; 7] = [
    (ALL, &[&[3, 1, 2, 3], &[5, 4, 5, 6, 7, 8]]),
    (
        Asked {
            limit: Some(5),
            ..ALL
        },
        &[&[3, 1, 2, 3], &[2, 4, 5]],
    ),
    (
        Asked {
            chunk_size: Some(2),
            limit: Some(5),
            ..ALL
        },
        &[&[2, 1, 2], &[1, 3], &[2, 4, 5]],
    ),
    (
        Asked {
            limit: Some(0),
            ..ALL
        },
        &[],
    ),
    (Asked { names: &[], ..ALL }, &[]),
    // A page has a header of 45 bytes. Of the first group no row is selected: it is passed over, and gives no empty chunk.
    (
        Asked {
            pages: Some(&[&[(4, 57, 3, 0, 0)], &[(61, 65, 5, 1, 2)]]),
            ..ALL
        },
        &[&[2, 5, 6]],
    ),
    // Neither of the last one.
    (
        Asked {
            pages: Some(&[&[(4, 57, 3, 2, 1)], &[(61, 65, 5, 0, 0)]]),
            ..ALL
        },
        &[&[1, 3]],
    ),
];

/// The numbers of all chunks.
fn numbers_in(alloc: Global, asked: Asked) -> Result<Vec<Vec<i128>>, Error> {
    let mut given = Vec::new(alloc);
    for chunk in reader_of(alloc, asked)? {
        given.push(numbers_of(alloc, &chunk?)?)?;
    }
    Ok(given)
}

fn check_files(alloc: Global, files: &[Given]) -> Result<(), Fail> {
    for (asked, chunks) in files {
        check_chunks(numbers_in(alloc, *asked)?.as_slice(), *chunks)?;
    }
    Ok(())
}

#[test]
fn chunks_of_files(rt: HostRuntime) -> Result<(), Fail> {
    check_files(rt.alloc(), &CHUNKS)
}

/// What is refused before anything is read: a chunk size of 0, and a list of pages for one of two groups.
static REFUSED: [Asked; 2] = [
    Asked {
        chunk_size: Some(0),
        ..ALL
    },
    Asked {
        pages: Some(&[&[(4, 57, 3, 0, 3)]]),
        ..ALL
    },
];

/// The error of a file that is refused at once.
fn refusal_of(alloc: Global, asked: Asked) -> Option<Error> {
    reader_of(alloc, asked).err()
}

fn check_refusals(alloc: Global, refused: &[Asked]) -> Result<(), Fail> {
    for (row, asked) in refused.iter().enumerate() {
        if refusal_of(alloc, *asked) != Some(Error::InvalidArgumentError(Part::Request)) {
            return Err(Fail::new(format_args!("row {row} is not refused")));
        }
    }
    Ok(())
}

#[test]
fn files_that_are_refused(rt: HostRuntime) -> Result<(), Fail> {
    check_refusals(rt.alloc(), &REFUSED)
}

/// What is asked, the error of the first group, and the only chunk behind it.
type Failing = (Asked, Error, &'static [i128]);

static ERRORS: [Failing; 2] = [
    // A group that is damaged counts whole against the limit, though none of its rows came.
    (
        Asked {
            groups: SHORT_PAGE,
            limit: Some(5),
            ..ALL
        },
        Error::ExternalFormat(Part::Values),
        &[2, 4, 5],
    ),
    // A group whose reading failed counts nothing.
    (
        Asked {
            groups: ELSEWHERE,
            limit: Some(5),
            ..ALL
        },
        Error::NotYetImplemented(Part::Column),
        &[5, 4, 5, 6, 7, 8],
    ),
];

/// The error that comes first, and the numbers of the chunks behind it.
fn error_first(alloc: Global, asked: Asked) -> Result<(Option<Error>, Vec<Vec<i128>>), Error> {
    let mut reader = reader_of(alloc, asked)?;
    let error = reader.next().and_then(Result::err);
    let mut given = Vec::new(alloc);
    for chunk in reader {
        given.push(numbers_of(alloc, &chunk?)?)?;
    }
    Ok((error, given))
}

fn check_errors(alloc: Global, failing: &[Failing]) -> Result<(), Fail> {
    for (asked, error, numbers) in failing {
        let (found, given) = error_first(alloc, *asked)?;
        if found != Some(*error) {
            return Err(Fail::new(format_args!("{found:?} for {error:?}")));
        }
        check_chunks(given.as_slice(), &[*numbers])?;
    }
    Ok(())
}

#[test]
fn groups_behind_errors(rt: HostRuntime) -> Result<(), Fail> {
    check_errors(rt.alloc(), &ERRORS)
}

/// Both groups, from a source whose first call fails.
fn failing_reader(alloc: Global) -> Result<FileReader<FailingSource>, Error> {
    let schema = schema_of(alloc, &["a"])?;
    let failing = vec![in alloc; 1]?;
    let bytes = file_of(alloc, TWO_GROUPS)?;
    let (_, metadata) = opened(alloc, bytes.as_slice())?;
    let source = FailingSource::new(bytes, failing);
    let groups = metadata.row_groups.into_vec();
    FileReader::new(alloc, source, groups, schema, None, Some(5), None)
}

#[test]
fn a_source_that_fails_once(rt: HostRuntime) -> Result<(), Fail> {
    let mut reader = failing_reader(rt.alloc())?;
    for answer in [Some(Err(Error::Io)), Some(Ok(5)), None] {
        assert_eq!(rt; answer_of(reader.next()), answer);
    }
    Ok(())
}

/// How many rows the next chunk has, or none where none comes, over steps of its own.
fn next_rows<L: Ledger>(
    reader: &mut FileReader<MemorySource>,
    blank: Blank,
) -> Result<Option<usize>, Error>
    requires name { blank.name ≡ L.name }
    requires parts { blank.parts ≡ L.parts }
    requires whole { 0 < blank.parts }
{
    let mut steps = Steps::<L>::new(blank);
    match reader.next_counted(&mut steps) {
        Some(chunk) => Ok(Some(chunk?.len())),
        None => Ok(None),
    }
}

/// The same, over steps of its own.
fn rows_alone(reader: &mut FileReader<MemorySource>) -> Result<Option<usize>, Error> {
    next_rows::<Brand>(reader, Blank::new(1))
}

#[test]
fn pages_that_are_lent(rt: HostRuntime) -> Result<(), Fail> {
    let alloc = rt.alloc();
    let mut reader = reader_of(alloc, ALL)?;
    assert_eq!(rt; reader.schema().fields.as_slice().len(), 1);
    assert_eq!(rt; reader.lent(), 0);
    for (rows, pages) in [(Some(3), 1), (Some(5), 2), (None, 2)] {
        assert_eq!(rt; rows_alone(&mut reader)?, rows);
        assert_eq!(rt; reader.lent(), pages);
    }
    let file = file_of(alloc, TWO_GROUPS)?;
    let mut source = reader.into_source();
    assert_eq!(rt; source.size(), Ok(file.len() as u64));
    Ok(())
}
