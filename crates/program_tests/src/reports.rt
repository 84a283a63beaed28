//! Reports on small files: rows of groups and of pages that are kept, and columns whose pages end at different rows.
use crate::running::check_answers;
use files_for_tests::{F0, F1, F2, F3, F3_V2};
use std::test::*;

/// One page of one group, whose ends are 10 and 20.
static OF_ONE_PAGE: [(&str, &[u8]); 2] = [
    (
        "x a:Int32 a>=12 a<=18",
        b"\x00group 0 5 0+5\nchunk 5\n10\n12\n15\n18\n20\n",
    ),
    ("x a:Int32 a>=21", b"\x00group 0 5 -\n"),
];

/// No group.
static OF_NO_GROUP: [(&str, &[u8]); 2] = [("x a:Int32", b"\x00"), ("x a:Utf8", &[4])];

/// Three pages, with the ends 1 and 3, 10 and 12, 4 and 6.
static OF_THREE_PAGES: [(&str, &[u8]); 6] = [
    (
        "x a:Int32 a>=10",
        b"\x00group 0 9 3+3\nchunk 3\n10\n11\n12\n",
    ),
    (
        "x a:Int32 a>=4",
        b"\x00group 0 9 3+6\nchunk 6\n10\n11\n12\n4\n5\n6\n",
    ),
    ("x a:Int32 a>=7 a<=9", b"\x00group 0 9 -\n"),
    (
        "x a:Int32 a>=1 --summary",
        b"\x00group 0 9 0+9\nrows 9\npages 3\n",
    ),
    (
        "x a:Int32 a>=4 --summary",
        b"\x00group 0 9 3+6\nrows 6\npages 2\n",
    ),
    (
        "x a:Int32 a>=13 --summary",
        b"\x00group 0 9 -\nrows 0\npages 0\n",
    ),
];

/// Pages of `a` that end at the rows 4 and 8, and pages of `b` that end at the rows 3 and 8. The value 25 is passed over
/// together with its row.
static OF_TWO_COLUMNS: [(&str, &[u8]); 4] = [
    (
        "x a:Int32 b:Int32 a>=4",
        b"\x00group 0 8 4+4\nchunk 4\n4\tnull\n5\t30\n6\t40\n7\t50\n",
    ),
    (
        "x a:Int32 b:Int32 a<=3 b>=25",
        b"\x00group 0 8 3+1\nchunk 1\n3\t25\n",
    ),
    ("x a:Int32 b:Int32 a>=4 b<=20", b"\x00group 0 8 -\n"),
    (
        "x b:Int32",
        b"\x00group 0 8 0+8\nchunk 8\nnull\n10\n20\n25\nnull\n30\n40\n50\n",
    ),
];

#[test]
fn rows_that_are_kept(rt: HostRuntime) -> Result<(), Fail> {
    let alloc = rt.alloc();
    check_answers(alloc, &F1, &OF_ONE_PAGE)?;
    check_answers(alloc, &F0, &OF_NO_GROUP)?;
    check_answers(alloc, &F2, &OF_THREE_PAGES)?;
    check_answers(alloc, &F3, &OF_TWO_COLUMNS)?;
    check_answers(alloc, &F3_V2, &OF_TWO_COLUMNS)
}
