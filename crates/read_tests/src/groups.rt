//! The rows of a group in chunks.
use crate::asked::{
    Answer, AskedField, Located, answer_of, arrays_of, check_chunks, numbers_of, opened,
};
use columns_core::{Error, Part};
use files_for_tests::{F1, F2, F3};
use flat_binary::ArrayIter;
use parquet_meta::{MemorySource, RowGroupMetaData};
use parquet_read::{ColumnPages, RowGroupDeserializer};
use std::alloc::Global;
use std::iter::Iterator;
use std::test::*;

/// A file of one group, the columns that are read, the chunk size and the located pages.
#[derive(Clone, Copy)]
struct Asked<'a> {
    file: &'a [u8],
    names: &'a [&'a str],
    chunk_size: Option<usize>,
    pages: Option<&'a [Located]>,
}

/// The first file whole.
const WHOLE: Asked<'static> = Asked {
    file: &F1,
    names: &["a"],
    chunk_size: None,
    pages: None,
};

const IN_PAIRS: Asked<'static> = Asked {
    chunk_size: Some(2),
    ..WHOLE
};

const TWICE: Asked<'static> = Asked {
    names: &["a", "a"],
    chunk_size: Some(3),
    ..WHOLE
};

/// Of pages of 29 bytes with 1, 2, 3; 10, 11, 12; 4, 5, 6, all rows of the last, and one of the first.
const SELECTED: Asked<'static> = Asked {
    file: &F2,
    names: &["a"],
    chunk_size: Some(3),
    pages: Some(&[(4, 29, 3, 1, 1), (33, 29, 3, 0, 0), (62, 29, 3, 0, 3)]),
};

/// Two columns whose pages end at different rows, and nulls in the second.
const BOTH: Asked<'static> = Asked {
    file: &F3,
    names: &["a", "b"],
    chunk_size: Some(5),
    pages: None,
};

/// How many rows are asked for, the limit, and the chunks that are given, each as the number of its rows and its numbers, column after column.
type Given<'a> = (Asked<'a>, usize, Option<usize>, &'a [&'a [i128]]);

static CHUNKS: [Given<'static>; 8] = [
    (WHOLE, 5, None, &[&[5, 10, 12, 15, 18, 20]]),
    (IN_PAIRS, 5, None, &[&[2, 10, 12], &[2, 15, 18], &[1, 20]]),
    // No array is cut: the last chunk goes past the limit.
    (IN_PAIRS, 5, Some(3), &[&[2, 10, 12], &[2, 15, 18]]),
    (
        IN_PAIRS,
        5,
        Some(9),
        &[&[2, 10, 12], &[2, 15, 18], &[1, 20]],
    ),
    (IN_PAIRS, 5, Some(0), &[]),
    (
        TWICE,
        5,
        None,
        &[&[3, 10, 12, 15, 10, 12, 15], &[2, 18, 20, 18, 20]],
    ),
    (SELECTED, 4, None, &[&[3, 2, 4, 5], &[1, 6]]),
    (
        BOTH,
        8,
        None,
        &[
            &[5, 0, 1, 2, 3, 4, -1, 10, 20, 25, -1],
            &[3, 5, 6, 7, 30, 40, 50],
        ],
    ),
];

/// Appends the columns of the only group of a file.
fn push_columns(
    alloc: Global,
    columns: &mut Vec<ArrayIter<ColumnPages>>,
    asked: Asked<'_>,
) -> Result<(), Error> {
    let (mut source, metadata) = opened(alloc, asked.file)?;
    for group in metadata.row_groups.as_slice() {
        push_group(alloc, columns, &mut source, group, asked)?;
    }
    Ok(())
}

fn push_group(
    alloc: Global,
    columns: &mut Vec<ArrayIter<ColumnPages>>,
    source: &mut MemorySource,
    group: &RowGroupMetaData,
    asked: Asked<'_>,
) -> Result<(), Error> {
    for name in asked.names {
        let field = AskedField {
            name,
            is_null: false,
            chunk_size: asked.chunk_size,
            pages: asked.pages,
        };
        columns.push(arrays_of(alloc, source, group, field)?)?;
    }
    Ok(())
}

/// The number of rows, and the numbers of all chunks.
fn numbers_in(
    alloc: Global,
    asked: Asked<'_>,
    rows: usize,
    limit: Option<usize>,
) -> Result<(usize, Vec<Vec<i128>>), Error> {
    let mut columns = Vec::new(alloc);
    push_columns(alloc, &mut columns, asked)?;
    let group = RowGroupDeserializer::new(alloc, columns, rows, limit)?;
    let own = group.num_rows();
    let mut given = Vec::new(alloc);
    for chunk in group {
        given.push(numbers_of(alloc, &chunk?)?)?;
    }
    Ok((own, given))
}

fn check_groups(alloc: Global, groups: &[Given<'_>]) -> Result<(), Fail> {
    for (asked, rows, limit, chunks) in groups {
        let (own, given) = numbers_in(alloc, *asked, *rows, *limit)?;
        if own != *rows {
            return Err(Fail::new(format_args!("{own} rows for {rows}")));
        }
        check_chunks(given.as_slice(), *chunks)?;
    }
    Ok(())
}

#[test]
fn chunks_of_groups(rt: HostRuntime) -> Result<(), Fail> {
    check_groups(rt.alloc(), &CHUNKS)
}

/// What is asked of each column, how many rows are wanted, and the first three answers.
type Ending<'a> = (&'a [Asked<'a>], usize, [Answer; 3]);

const UNEVEN: Answer = Some(Err(Error::ExternalFormat(Part::Chunk)));

static ENDINGS: [Ending<'static>; 2] = [
    // A column ends where its rows do, before the rows that are wanted are given.
    (&[WHOLE], 6, [Some(Ok(5)), UNEVEN, None]),
    // An array of two rows of one column stands beside one of three of another.
    (&[IN_PAIRS, TWICE], 5, [UNEVEN, None, None]),
];

/// The group of these columns side by side.
fn group_of(
    alloc: Global,
    asked: &[Asked<'_>],
    rows: usize,
) -> Result<RowGroupDeserializer, Error> {
    let mut columns = Vec::new(alloc);
    for own in asked {
        push_columns(alloc, &mut columns, *own)?;
    }
    RowGroupDeserializer::new(alloc, columns, rows, None)
}

fn check_endings(alloc: Global, endings: &[Ending<'_>]) -> Result<(), Fail> {
    for (asked, rows, answers) in endings {
        let mut group = group_of(alloc, *asked, *rows)?;
        for answer in answers {
            if answer_of(group.next()) != *answer {
                return Err(Fail::new(format_args!("no {answer:?}")));
            }
        }
    }
    Ok(())
}

#[test]
fn columns_that_do_not_fit(rt: HostRuntime) -> Result<(), Fail> {
    let alloc = rt.alloc();
    check_endings(alloc, &ENDINGS)?;
    let none = RowGroupDeserializer::new(alloc, Vec::new(alloc), 5, None).err();
    assert_eq!(rt; none, Some(Error::InvalidArgumentError(Part::Request)));
    Ok(())
}
