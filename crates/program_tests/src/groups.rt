//! Files of several groups, and what is opened of them.
use crate::running::{File, check_files};
use files_for_tests::Levels::Absent;
use files_for_tests::Values::Numbers;
use files_for_tests::{CHUNK, Chunk, Page, Told};
use std::test::*;

/// Three groups with the ends 1 and 3, 10 and 14, 20 and 22, the second of two pages.
pub(crate) const THREE_GROUPS: &[&[Chunk<'static>]] = &[
    &[Chunk {
        pages: &[Page(3, Absent, Numbers(&[1, 2, 3]))],
        told: Told::Ends(1, 3),
        ..CHUNK
    }],
    &[Chunk {
        pages: &[
            Page(1, Absent, Numbers(&[10])),
            Page(2, Absent, Numbers(&[12, 14])),
        ],
        told: Told::Ends(10, 14),
        ..CHUNK
    }],
    &[Chunk {
        pages: &[Page(2, Absent, Numbers(&[20, 22]))],
        told: Told::Ends(20, 22),
        ..CHUNK
    }],
];

const OF_THREE_GROUPS: [(&str, &[u8]); 5] = [
    (
        "x a:Int32",
        b"\x00group 0 3 0+3\ngroup 1 3 0+3\ngroup 2 2 0+2\nchunk 3\n1\n2\n3\nchunk 3\n10\n12\n14\nchunk 2\n20\n22\n",
    ),
    (
        "x a:Int32 a>=4",
        b"\x00group 0 3 -\ngroup 1 3 0+3\ngroup 2 2 0+2\nchunk 3\n10\n12\n14\nchunk 2\n20\n22\n",
    ),
    (
        "x a:Int32 a>=3 a<=9",
        b"\x00group 0 3 0+3\ngroup 1 3 -\ngroup 2 2 -\nchunk 3\n1\n2\n3\n",
    ),
    (
        "x a:Int32 a<=10 --summary",
        b"\x00group 0 3 0+3\ngroup 1 3 0+3\ngroup 2 2 -\nrows 6\npages 3\n",
    ),
    (
        "x a:Int32 a>=15 a<=19",
        b"\x00group 0 3 -\ngroup 1 3 -\ngroup 2 2 -\n",
    ),
];

/// Three groups, of which the ends 20 and 22 of the second are past those of the others.
const GREAT_BETWEEN: &[&[Chunk<'static>]] = &[
    &[Chunk {
        pages: &[Page(2, Absent, Numbers(&[1, 2]))],
        told: Told::Ends(1, 2),
        ..CHUNK
    }],
    &[Chunk {
        pages: &[Page(2, Absent, Numbers(&[20, 22]))],
        told: Told::Ends(20, 22),
        ..CHUNK
    }],
    &[Chunk {
        pages: &[Page(2, Absent, Numbers(&[4, 3]))],
        told: Told::Ends(3, 4),
        ..CHUNK
    }],
];

const OF_GREAT_BETWEEN: [(&str, &[u8]); 2] = [
    (
        "x a:Int32 a<=4",
        b"\x00group 0 2 0+2\ngroup 1 2 -\ngroup 2 2 0+2\nchunk 2\n1\n2\nchunk 2\n4\n3\n",
    ),
    (
        "x a:Int32 a<=9 --limit 3",
        b"\x00group 0 2 0+2\ngroup 1 2 -\ngroup 2 2 0+2\nchunk 2\n1\n2\nchunk 1\n4\n",
    ),
];

/// Three groups, of which the chunk of the second stands in another file.
const FOREIGN_BETWEEN: &[&[Chunk<'static>]] = &[
    &[Chunk {
        pages: &[Page(2, Absent, Numbers(&[1, 2]))],
        told: Told::Ends(1, 2),
        ..CHUNK
    }],
    &[Chunk {
        pages: &[Page(2, Absent, Numbers(&[20, 22]))],
        told: Told::Ends(20, 22),
        path: "y",
        ..CHUNK
    }],
    &[Chunk {
        pages: &[Page(2, Absent, Numbers(&[4, 3]))],
        told: Told::Ends(3, 4),
        ..CHUNK
    }],
];

/// A chunk matters where its group is read.
const OF_FOREIGN_BETWEEN: [(&str, &[u8]); 5] = [
    ("x a:Int32", &[4]),
    ("x a:Int32 --limit 3", &[4]),
    (
        "x a:Int32 --limit 2",
        b"\x00group 0 2 0+2\ngroup 1 2 0+2\ngroup 2 2 0+2\nchunk 2\n1\n2\n",
    ),
    (
        "x a:Int32 a<=4",
        b"\x00group 0 2 0+2\ngroup 1 2 -\ngroup 2 2 0+2\nchunk 2\n1\n2\nchunk 2\n4\n3\n",
    ),
    ("x a:Int32 a>=5 a<=20", &[4]),
];

/// Two groups, the first of which has no statistics.
const TWO_GROUPS: &[&[Chunk<'static>]] = &[
    &[Chunk {
        pages: &[Page(2, Absent, Numbers(&[7, 5]))],
        told: Told::Nothing,
        ..CHUNK
    }],
    &[Chunk {
        pages: &[Page(1, Absent, Numbers(&[9]))],
        told: Told::Ends(9, 9),
        ..CHUNK
    }],
];

const OF_TWO_GROUPS: [(&str, &[u8]); 2] = [
    (
        "x a:Int32 a>=100",
        b"\x00group 0 2 0+2\ngroup 1 1 -\nchunk 2\n7\n5\n",
    ),
    (
        "x a:Int32 a<=100 --summary",
        b"\x00group 0 2 0+2\ngroup 1 1 0+1\nrows 3\npages 2\n",
    ),
];

/// A group of no rows and no pages between two of one row.
const NO_ROWS_BETWEEN: &[&[Chunk<'static>]] = &[
    &[Chunk {
        pages: &[Page(1, Absent, Numbers(&[1]))],
        told: Told::Nothing,
        ..CHUNK
    }],
    &[Chunk {
        pages: &[],
        told: Told::Nothing,
        ..CHUNK
    }],
    &[Chunk {
        pages: &[Page(1, Absent, Numbers(&[-1]))],
        told: Told::Ends(-1, -1),
        ..CHUNK
    }],
];

const OF_NO_ROWS: [(&str, &[u8]); 2] = [
    (
        "x a:Int32",
        b"\x00group 0 1 0+1\ngroup 1 0 -\ngroup 2 1 0+1\nchunk 1\n1\nchunk 1\n-1\n",
    ),
    (
        "x a:Int32 a>=0 --summary",
        b"\x00group 0 1 0+1\ngroup 1 0 -\ngroup 2 1 -\nrows 1\npages 1\n",
    ),
];

/// One group with pages of no values: one before, one between and one behind those that hold its rows.
pub(crate) const EMPTY_PAGES: &[&[Chunk<'static>]] = &[&[Chunk {
    pages: &[
        Page(0, Absent, Numbers(&[])),
        Page(1, Absent, Numbers(&[7])),
        Page(0, Absent, Numbers(&[])),
        Page(2, Absent, Numbers(&[8, 9])),
        Page(0, Absent, Numbers(&[])),
    ],
    told: Told::Nothing,
    ..CHUNK
}]];

/// The page behind the last row is not opened.
const OF_EMPTY_PAGES: [(&str, &[u8]); 2] = [
    ("x a:Int32 a>=0", b"\x00group 0 3 0+3\nchunk 3\n7\n8\n9\n"),
    (
        "x a:Int32 --summary",
        b"\x00group 0 3 0+3\nrows 3\npages 4\n",
    ),
];

static FILES: [File<'static>; 6] = [
    (THREE_GROUPS, &OF_THREE_GROUPS),
    (GREAT_BETWEEN, &OF_GREAT_BETWEEN),
    (FOREIGN_BETWEEN, &OF_FOREIGN_BETWEEN),
    (TWO_GROUPS, &OF_TWO_GROUPS),
    (NO_ROWS_BETWEEN, &OF_NO_ROWS),
    (EMPTY_PAGES, &OF_EMPTY_PAGES),
];

#[test]
fn groups_that_are_kept(rt: HostRuntime) -> Result<(), Fail> {
    check_files(rt.alloc(), &FILES)
}
