//! The bytes of a field's columns, and their arrays.
use crate::asked::{AskedField, arrays_of, opened, push_arrays};
use columns_core::Error;
use files_for_tests::{F1, F2};
use parquet_meta::{MemorySource, RowGroupMetaData};
use parquet_read::read_columns;
use std::alloc::Global;
use std::iter::Iterator;
use std::test::*;

#[test]
fn bytes_of_columns(rt: HostRuntime) -> Result<(), Fail> {
    let alloc = rt.alloc();
    let (mut source, metadata) = opened(alloc, &F1)?;
    for group in metadata.row_groups.as_slice() {
        let found = read_columns(alloc, &mut source, group.columns(), "a")?;
        assert_eq!(rt; found.len(), 1);
        for (column, bytes) in found {
            assert_eq!(rt; column.num_values(), 5);
            assert_eq!(rt; bytes.as_slice(), &F1[4..41]);
        }
        assert!(rt; read_columns(alloc, &mut source, group.columns(), "b")?.is_empty());
    }
    Ok(())
}

/// The numbers of a field of these groups, each array with a -9 behind it.
fn numbers_of_groups(
    alloc: Global,
    source: &mut MemorySource,
    groups: &[RowGroupMetaData],
    asked: AskedField<'_>,
) -> Result<Vec<i128>, Error> {
    let mut numbers = Vec::new(alloc);
    for group in groups {
        let arrays = arrays_of(alloc, source, group, asked)?;
        push_arrays(alloc, &mut numbers, arrays)?;
    }
    Ok(numbers)
}

/// Those of a file.
fn numbers_in(alloc: Global, bytes: &[u8], asked: AskedField<'_>) -> Result<Vec<i128>, Error> {
    let (mut source, metadata) = opened(alloc, bytes)?;
    numbers_of_groups(alloc, &mut source, metadata.row_groups.as_slice(), asked)
}

/// The column as numbers.
const WHOLE: AskedField<'static> = AskedField {
    name: "a",
    is_null: false,
    chunk_size: None,
    pages: None,
};

const IN_PAIRS: AskedField<'static> = AskedField {
    chunk_size: Some(2),
    ..WHOLE
};

/// The column as nulls.
const NULLS: AskedField<'static> = AskedField {
    is_null: true,
    ..WHOLE
};

/// The pages of the second file, of 29 bytes each: all rows of the last are selected, and one of the first.
const SELECTED: AskedField<'static> = AskedField {
    pages: Some(&[(4, 29, 3, 1, 1), (33, 29, 3, 0, 0), (62, 29, 3, 0, 3)]),
    ..WHOLE
};

/// What is asked of the first file, whose column has the numbers 10, 12, 15, 18, 20 in one page, and the numbers that are given.
static OF_ONE_PAGE: [(AskedField<'static>, &'static [i128]); 4] = [
    (WHOLE, &[10, 12, 15, 18, 20, -9]),
    (IN_PAIRS, &[10, 12, -9, 15, 18, -9, 20, -9]),
    (
        AskedField {
            chunk_size: Some(9),
            ..WHOLE
        },
        &[10, 12, 15, 18, 20, -9],
    ),
    (
        AskedField {
            chunk_size: Some(3),
            ..NULLS
        },
        &[-1, -1, -1, -9, -1, -1, -9],
    ),
];

/// Of the second file, which has 1, 2, 3; 10, 11, 12; 4, 5, 6.
static OF_THREE_PAGES: [(AskedField<'static>, &'static [i128]); 5] = [
    (WHOLE, &[1, 2, 3, 10, 11, 12, 4, 5, 6, -9]),
    (
        AskedField {
            chunk_size: Some(4),
            ..WHOLE
        },
        &[1, 2, 3, 10, -9, 11, 12, 4, 5, -9, 6, -9],
    ),
    (SELECTED, &[2, 4, 5, 6, -9]),
    (
        AskedField {
            chunk_size: Some(3),
            ..SELECTED
        },
        &[2, 4, 5, -9, 6, -9],
    ),
    // Of nulls no page is looked at, wherever it is said to lie.
    (
        AskedField {
            pages: Some(&[(0, 29, 3, 1, 1), (9999, 29, 3, 0, 3)]),
            ..NULLS
        },
        &[-1, -1, -1, -1, -9],
    ),
];

/// Fails at the first row that gives other numbers.
fn check_reads(
    alloc: Global,
    file: &[u8],
    reads: &[(AskedField<'_>, &[i128])],
) -> Result<(), Fail> {
    for (row, (asked, numbers)) in reads.iter().enumerate() {
        let found = numbers_in(alloc, file, *asked)?;
        if found.as_slice() != *numbers {
            return Err(Fail::new(format_args!("row {row} gives {found:?}")));
        }
    }
    Ok(())
}

#[test]
fn arrays_of_columns(rt: HostRuntime) -> Result<(), Fail> {
    check_reads(rt.alloc(), &F1, &OF_ONE_PAGE)?;
    check_reads(rt.alloc(), &F2, &OF_THREE_PAGES)
}
