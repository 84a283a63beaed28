//! Chunks of a size, and the first rows of a file.
use crate::groups::{EMPTY_PAGES, THREE_GROUPS};
use crate::running::{Cut, File, Lie, check_answers, check_files, check_lies};
use files_for_tests::{F1, F2, F3};
use std::test::*;

/// Rows of the first file: 10, 12, 15, 18 and 20.
static OF_ONE_PAGE: [(&str, &[u8]); 6] = [
    (
        "x a:Int32 --chunk=2 --limit 3",
        b"\x00group 0 5 0+5\nchunk 2\n10\n12\nchunk 1\n15\n",
    ),
    (
        "x a:Int32 --chunk 2",
        b"\x00group 0 5 0+5\nchunk 2\n10\n12\nchunk 2\n15\n18\nchunk 1\n20\n",
    ),
    (
        "x a:Int32 --limit 1 a>=12",
        b"\x00group 0 5 0+5\nchunk 1\n10\n",
    ),
    (
        "x a:Null --chunk 2 --limit 3",
        b"\x00group 0 5 0+5\nchunk 2\nnull\nnull\nchunk 1\nnull\n",
    ),
    (
        "x a:Int32 --chunk 18446744073709551615 --limit 18446744073709551615 --summary",
        b"\x00group 0 5 0+5\nrows 5\npages 1\n",
    ),
    (
        "x a:Int32 --limit 0 --summary",
        b"\x00group 0 5 0+5\nrows 0\npages 0\n",
    ),
];

/// Groups of the rows 1, 2, 3 in one page, of 10 in one and 12, 14 in another, and of 20, 22.
const OF_THREE_GROUPS: [(&str, &[u8]); 8] = [
    (
        "x a:Int32 --limit 4 --chunk 2",
        b"\x00group 0 3 0+3\ngroup 1 3 0+3\ngroup 2 2 0+2\nchunk 2\n1\n2\nchunk 1\n3\nchunk 1\n10\n",
    ),
    (
        "x a:Int32 --limit 4 --summary",
        b"\x00group 0 3 0+3\ngroup 1 3 0+3\ngroup 2 2 0+2\nrows 4\npages 2\n",
    ),
    (
        "x a:Int32 --limit 5 --summary",
        b"\x00group 0 3 0+3\ngroup 1 3 0+3\ngroup 2 2 0+2\nrows 5\npages 3\n",
    ),
    (
        "x a:Int32 --limit 3 --summary",
        b"\x00group 0 3 0+3\ngroup 1 3 0+3\ngroup 2 2 0+2\nrows 3\npages 1\n",
    ),
    (
        "x a:Int32 --limit 0",
        b"\x00group 0 3 0+3\ngroup 1 3 0+3\ngroup 2 2 0+2\n",
    ),
    (
        "x a:Int32 a>=4 --limit 4 --chunk 3",
        b"\x00group 0 3 -\ngroup 1 3 0+3\ngroup 2 2 0+2\nchunk 3\n10\n12\n14\nchunk 1\n20\n",
    ),
    (
        "x a:Int32 --limit 100 --summary",
        b"\x00group 0 3 0+3\ngroup 1 3 0+3\ngroup 2 2 0+2\nrows 8\npages 4\n",
    ),
    (
        "x a:Int32 a<=3 --chunk 1",
        b"\x00group 0 3 0+3\ngroup 1 3 -\ngroup 2 2 -\nchunk 1\n1\nchunk 1\n2\nchunk 1\n3\n",
    ),
];

/// Pages of no values stand before, between and behind pages of 7 and of 8 and 9.
const OF_EMPTY_PAGES: [(&str, &[u8]); 2] = [
    (
        "x a:Int32 --limit 1 --summary",
        b"\x00group 0 3 0+3\nrows 1\npages 2\n",
    ),
    (
        "x a:Int32 --limit 2 --summary",
        b"\x00group 0 3 0+3\nrows 2\npages 4\n",
    ),
];

/// Located pages of 10, 11, 12 and of 4, 5, 6 behind one that is ruled out.
static OF_LOCATED_PAGES: [(&str, &[u8]); 4] = [
    (
        "x a:Int32 a>=10 --limit 2",
        b"\x00group 0 9 3+3\nchunk 2\n10\n11\n",
    ),
    (
        "x a:Int32 a>=4 --limit 3 --summary",
        b"\x00group 0 9 3+6\nrows 3\npages 1\n",
    ),
    (
        "x a:Int32 a>=4 --limit 4 --chunk 3",
        b"\x00group 0 9 3+6\nchunk 3\n10\n11\n12\nchunk 1\n4\n",
    ),
    ("x a:Int32 a>=13 --limit 4", b"\x00group 0 9 -\n"),
];

/// Two columns whose pages end at different rows.
static OF_TWO_COLUMNS: [(&str, &[u8]); 1] = [(
    "x a:Int32 b:Int32 a>=4 --limit 2 --chunk 1",
    b"\x00group 0 8 4+4\nchunk 1\n4\tnull\nchunk 1\n5\t30\n",
)];

static FILES: [File<'static>; 2] = [
    (THREE_GROUPS, &OF_THREE_GROUPS),
    (EMPTY_PAGES, &OF_EMPTY_PAGES),
];

#[test]
fn chunks_and_first_rows(rt: HostRuntime) -> Result<(), Fail> {
    let alloc = rt.alloc();
    check_answers(alloc, &F1, &OF_ONE_PAGE)?;
    check_answers(alloc, &F2, &OF_LOCATED_PAGES)?;
    check_answers(alloc, &F3, &OF_TWO_COLUMNS)?;
    check_files(alloc, &FILES)
}

/// The third page of the second file has its header at 62. Without it the file has six rows that can be read.
static BROKEN: [Lie<'static>; 5] = [
    (
        &[(62, 63, &[0xff])],
        "x a:Int32 --limit 6",
        b"\x00group 0 9 0+9\nchunk 6\n1\n2\n3\n10\n11\n12\n",
    ),
    (&[(62, 63, &[0xff])], "x a:Int32 --limit 7", &[5]),
    (&[(62, 63, &[0xff])], "x a:Int32", &[5]),
    (
        &[(62, 63, &[0xff])],
        "x a:Int32 a>=4 --limit 3",
        b"\x00group 0 9 3+6\nchunk 3\n10\n11\n12\n",
    ),
    (&[(62, 63, &[0xff])], "x a:Int32 a>=4 --limit 4", &[5]),
];

/// The number 2147483648, and the first file with a group of so many rows, of which its page holds five.
const MANY: &[u8] = &[0x80, 0x80, 0x80, 0x80, 0x10];

const MANY_ROWS: &[Cut<'static>] = &[(85, 86, MANY), (113, 114, MANY), (116, 117, &[83])];

static OF_MANY_ROWS: [Lie<'static>; 2] = [
    (
        MANY_ROWS,
        "x a:Int32 --limit 5 --chunk 3",
        b"\x00group 0 2147483648 0+2147483648\nchunk 3\n10\n12\n15\nchunk 2\n18\n20\n",
    ),
    (MANY_ROWS, "x a:Int32 --limit 6", &[5]),
];

#[test]
fn what_stands_behind_the_limit_is_not_looked_at(rt: HostRuntime) -> Result<(), Fail> {
    let alloc = rt.alloc();
    check_lies(alloc, &F2, &BROKEN)?;
    check_lies(alloc, &F1, &OF_MANY_ROWS)
}
