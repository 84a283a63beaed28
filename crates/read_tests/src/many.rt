//! Fields of a group that are opened together, of whose columns only the needed parts are read.
use crate::asked::{Located, field_of, opened, pages_of, push_arrays, type_of};
use columns_core::{Error, Field, Part};
use files_for_tests::{F1, F2, F3};
use flat_binary::ArrayIter;
use parquet_meta::{MemorySource, RowGroupMetaData};
use parquet_page::FilteredPage;
use parquet_read::{ColumnPages, read_columns_many};
use std::alloc::{AllocError, Global};
use std::iter::Iterator;
use std::test::*;

/// A file of one group, the columns that are read, whether as nulls, the chunk size, the limit and the located pages of each column.
#[derive(Clone, Copy)]
struct Asked<'a> {
    file: &'a [u8],
    names: &'a [&'a str],
    are_nulls: bool,
    chunk_size: Option<usize>,
    limit: Option<usize>,
    pages: Option<&'a [&'a [Located]]>,
}

/// The first file whole.
const WHOLE: Asked<'static> = Asked {
    file: &F1,
    names: &["a"],
    are_nulls: false,
    chunk_size: None,
    limit: None,
    pages: None,
};

/// Of pages of 29 bytes with 1, 2, 3; 10, 11, 12; 4, 5, 6, all rows of the last, and one of the first.
const SELECTED: Asked<'static> = Asked {
    file: &F2,
    pages: Some(&[&[(4, 29, 3, 1, 1), (33, 29, 3, 0, 0), (62, 29, 3, 0, 3)]]),
    ..WHOLE
};

/// The same, but the last page is said to lie past the chunk.
const PAST: Asked<'static> = Asked {
    pages: Some(&[&[(4, 29, 3, 1, 1), (33, 29, 3, 0, 0), (92, 29, 3, 0, 3)]]),
    ..SELECTED
};

/// The numbers of each column, one after another, with a -9 behind each array.
static READ: [(Asked<'static>, &'static [i128]); 8] = [
    (WHOLE, &[10, 12, 15, 18, 20, -9]),
    (
        Asked {
            chunk_size: Some(2),
            limit: Some(3),
            ..WHOLE
        },
        &[10, 12, -9, 15, -9],
    ),
    (
        Asked {
            limit: Some(0),
            ..WHOLE
        },
        &[],
    ),
    (
        Asked {
            file: &F3,
            names: &["a", "b"],
            limit: Some(4),
            ..WHOLE
        },
        &[0, 1, 2, 3, -9, -1, 10, 20, 25, -9],
    ),
    (SELECTED, &[2, 4, 5, 6, -9]),
    (
        Asked {
            limit: Some(2),
            ..SELECTED
        },
        &[2, 4, -9],
    ),
    // A page behind the limit is not looked at, and of nulls none is.
    (
        Asked {
            limit: Some(1),
            ..PAST
        },
        &[2, -9],
    ),
    (
        Asked {
            are_nulls: true,
            ..PAST
        },
        &[-1, -1, -1, -1, -9],
    ),
];

fn fields_of(alloc: Global, asked: Asked<'_>) -> Result<Vec<Field>, AllocError> {
    let mut fields = Vec::new(alloc);
    for name in asked.names {
        fields.push(field_of(alloc, name, type_of(asked.are_nulls))?)?;
    }
    Ok(fields)
}

/// A list for each field, of its one column.
fn lists_of(
    alloc: Global,
    asked: Asked<'_>,
) -> Result<Option<Vec<Vec<Vec<FilteredPage>>>>, AllocError> {
    let Some(pages) = asked.pages else {
        return Ok(None);
    };
    let mut lists = Vec::new(alloc);
    for own in pages {
        lists.push(vec![in alloc; pages_of(alloc, own)?]?)?;
    }
    Ok(Some(lists))
}

fn columns_of(
    alloc: Global,
    source: &mut MemorySource,
    group: &RowGroupMetaData,
    asked: Asked<'_>,
) -> Result<Vec<ArrayIter<ColumnPages>>, Error> {
    let fields = fields_of(alloc, asked)?;
    let lists = lists_of(alloc, asked)?;
    let (chunk_size, limit) = (asked.chunk_size, asked.limit);
    read_columns_many(alloc, source, group, fields, chunk_size, limit, lists)
}

fn numbers_of_groups(
    alloc: Global,
    source: &mut MemorySource,
    groups: &[RowGroupMetaData],
    asked: Asked<'_>,
) -> Result<Vec<i128>, Error> {
    let mut numbers = Vec::new(alloc);
    for group in groups {
        for arrays in columns_of(alloc, source, group, asked)? {
            push_arrays(alloc, &mut numbers, arrays)?;
        }
    }
    Ok(numbers)
}

fn numbers_in(alloc: Global, asked: Asked<'_>) -> Result<Vec<i128>, Error> {
    let (mut source, metadata) = opened(alloc, asked.file)?;
    numbers_of_groups(alloc, &mut source, metadata.row_groups.as_slice(), asked)
}

/// Fails at the first row that gives other numbers.
fn check_reads(alloc: Global, reads: &[(Asked<'_>, &[i128])]) -> Result<(), Fail> {
    for (row, (asked, numbers)) in reads.iter().enumerate() {
        let found = numbers_in(alloc, *asked)?;
        if found.as_slice() != *numbers {
            return Err(Fail::new(format_args!("row {row} gives {found:?}")));
        }
    }
    Ok(())
}

#[test]
fn columns_of_fields(rt: HostRuntime) -> Result<(), Fail> {
    check_reads(rt.alloc(), &READ)
}

/// What is asked, and the error.
static REFUSED: [(Asked<'static>, Error); 6] = [
    (
        Asked {
            chunk_size: Some(0),
            ..WHOLE
        },
        Error::InvalidArgumentError(Part::Request),
    ),
    // No list of pages for the field, and selected rows past a page's rows.
    (
        Asked {
            pages: Some(&[]),
            ..WHOLE
        },
        Error::InvalidArgumentError(Part::Request),
    ),
    (
        Asked {
            pages: Some(&[&[(4, 29, 3, 1, 3)]]),
            ..SELECTED
        },
        Error::InvalidArgumentError(Part::Request),
    ),
    // A column that there is not.
    (
        Asked {
            names: &["a", "z"],
            ..WHOLE
        },
        Error::NotYetImplemented(Part::Schema),
    ),
    (PAST, Error::ExternalFormat(Part::Location)),
    (
        Asked {
            limit: Some(2),
            ..PAST
        },
        Error::ExternalFormat(Part::Location),
    ),
];

/// Fails at the first row that is not refused so.
fn check_refusals(alloc: Global, refusals: &[(Asked<'_>, Error)]) -> Result<(), Fail> {
    for (row, (asked, error)) in refusals.iter().enumerate() {
        if numbers_in(alloc, *asked).err() != Some(*error) {
            return Err(Fail::new(format_args!("row {row} is not refused so")));
        }
    }
    Ok(())
}

#[test]
fn fields_that_are_refused(rt: HostRuntime) -> Result<(), Fail> {
    check_refusals(rt.alloc(), &REFUSED)
}
