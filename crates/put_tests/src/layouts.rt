//! Groups, columns and pages of each length, and bounds on both sides.
use crate::putting::{Cells, Put};
use crate::scanning::{Ends, Run, check_put};
use std::test::Fail;

/// What is put, the bound on its first column, the rows that are left of each group, and how many pages are opened.
type Layout<'a> = (Put<'a>, Ends<'a>, &'a [&'a [Run]], usize);

const FIVE: Cells<'static> = &[&["10", "12", "15", "18", "20"]];

static LAYOUTS: [Layout<'static>; 10] = [
    // A required column in one page, and an optional one whose second page ends before the bound.
    (
        Put {
            columns: &[("a", "Int32", false)],
            chunks: &[FIVE],
            page_rows: 5,
        },
        ("12", "18"),
        &[&[(0, 5)]],
        1,
    ),
    (
        Put {
            columns: &[("t", "Utf8", true)],
            chunks: &[&[&["b", "null", "a"]]],
            page_rows: 2,
        },
        ("b", ""),
        &[&[(0, 2)]],
        1,
    ),
    // A row in each page, all rows but one, and room for more than there are.
    (
        Put {
            columns: &[("a", "Int32", false)],
            chunks: &[FIVE],
            page_rows: 1,
        },
        ("12", "18"),
        &[&[(1, 3)]],
        3,
    ),
    (
        Put {
            columns: &[("a", "Int32", true)],
            chunks: &[FIVE],
            page_rows: 4,
        },
        ("19", ""),
        &[&[(4, 1)]],
        1,
    ),
    (
        Put {
            columns: &[("a", "Int32", false)],
            chunks: &[FIVE],
            page_rows: 6,
        },
        ("", "10"),
        &[&[(0, 5)]],
        1,
    ),
    (
        Put {
            columns: &[("a", "Int32", false)],
            chunks: &[FIVE],
            page_rows: usize::MAX,
        },
        ("", ""),
        &[&[(0, 5)]],
        1,
    ),
    // No chunk, and one without rows, alone and between others.
    (
        Put {
            columns: &[("a", "Int64", true)],
            chunks: &[],
            page_rows: 2,
        },
        ("0", ""),
        &[],
        0,
    ),
    (
        Put {
            columns: &[("a", "Int64", true)],
            chunks: &[&[&[]]],
            page_rows: 2,
        },
        ("", ""),
        &[&[]],
        0,
    ),
    (
        Put {
            columns: &[("a", "Int64", true)],
            chunks: &[&[&["1", "null", "3"]], &[&[]], &[&["4"]]],
            page_rows: 2,
        },
        ("", ""),
        &[&[(0, 3)], &[], &[(0, 1)]],
        3,
    ),
    // Two columns in two groups, of which a bound leaves a page of each.
    (
        Put {
            columns: &[("a", "Int32", false), ("b", "Utf8", true)],
            chunks: &[
                &[&["1", "2", "3", "4"], &["null", "x", "", "null"]],
                &[&["5", "6", "0"], &["y", "z", "null"]],
            ],
            page_rows: 2,
        },
        ("3", ""),
        &[&[(2, 2)], &[(0, 2)]],
        4,
    ),
];

#[test]
fn each_layout_is_read_back(rt: HostRuntime) -> Result<(), Fail> {
    for (put, ends, kept, pages) in &LAYOUTS {
        assert_eq!(rt; check_put(rt.alloc(), *put, *ends, kept)?, *pages);
    }
    Ok(())
}
