//! Runs over lines: which file they make, and how they end without one.
use crate::scanning::{Run, check_scan, scan};
use parquet_meta::MemorySource;
use pq_common::{MemorySink, Status};
use put_program::run_put;
use std::alloc::{AllocError, Global};
use std::test::Fail;

/// The column that is made.
const COLUMN: (&str, &str, bool) = ("x", "Int64", true);

/// How many bytes a file has at most.
const MOST_BYTES: usize = 4000;

/// Lines, how many rows a page has, their cells, the least value that is asked for, and the rows that are left.
type Made<'a> = (&'a str, &'a str, &'a [&'a str], &'a str, &'a [Run]);

static MADE: [Made<'static>; 5] = [
    ("5\nnull\n-3\n", "2", &["5", "null", "-3"], "0", &[(0, 2)]),
    ("-0\n007\n-007\n", "1", &["0", "7", "-7"], "0", &[(0, 2)]),
    (
        "9223372036854775807\n-9223372036854775808\n0000000000000000001\n",
        "001",
        &["9223372036854775807", "-9223372036854775808", "1"],
        "0",
        &[(0, 1), (2, 1)],
    ),
    (
        "null\nnull\n",
        "18446744073709551615",
        &["null", "null"],
        "",
        &[(0, 2)],
    ),
    ("7\n", "2", &["7"], "8", &[]),
];

/// Lines, words, and how the run ends.
type Refused<'a> = (&'a str, &'a str, Status);

static REFUSED: [Refused<'static>; 27] = [
    // Lines of another form, the first, one in the middle, and the last, which is not ended.
    ("1x\n", "f x 2", Status::Damaged),
    ("x1\n", "f x 2", Status::Damaged),
    ("+5\n", "f x 2", Status::Damaged),
    ("--5\n", "f x 2", Status::Damaged),
    ("-\n", "f x 2", Status::Damaged),
    ("5.0\n", "f x 2", Status::Damaged),
    (" 5\n", "f x 2", Status::Damaged),
    ("5 \n", "f x 2", Status::Damaged),
    ("5\r\n", "f x 2", Status::Damaged),
    ("Null\n", "f x 2", Status::Damaged),
    ("\n", "f x 2", Status::Damaged),
    ("5\n\n6\n", "f x 2", Status::Damaged),
    ("5\n6", "f x 2", Status::Damaged),
    ("null", "f x 2", Status::Damaged),
    // Numbers that are too large, and one of too many digits.
    ("9223372036854775808\n", "f x 2", Status::Damaged),
    ("-9223372036854775809\n", "f x 2", Status::Damaged),
    ("00000000000000000001\n", "f x 2", Status::Damaged),
    // Words of other numbers, an empty name, and numbers of rows that are not spelled.
    ("5\n", "", Status::Words),
    ("5\n", "f x", Status::Words),
    ("5\n", "f x 2 3", Status::Words),
    ("5\n", "f  2", Status::Words),
    ("5\n", "f x ", Status::Words),
    ("5\n", "f x -2", Status::Words),
    ("5\n", "f x +2", Status::Words),
    ("5\n", "f x 18446744073709551616", Status::Words),
    // Pages without rows, whatever the lines are.
    ("5\n", "f x 0", Status::Argument),
    ("1x\n", "f x 00", Status::Argument),
];

fn words_of(alloc: Global, line: &str) -> Result<Vec<String>, AllocError> {
    let mut words = Vec::new(alloc);
    for word in line.split(' ') {
        words.push(String::from_str(alloc, word)?)?;
    }
    Ok(words)
}

/// How a run over lines ends, and what it has written.
fn run(alloc: Global, lines: &str, words: &str) -> Result<(Status, MemorySink), Fail> {
    let words = words_of(alloc, words)?;
    let mut source = MemorySource::new(Vec::from_slice(alloc, lines.as_bytes())?);
    let mut out = MemorySink::new(alloc, MOST_BYTES)?;
    let status = run_put(alloc, &words, &mut source, &mut out);
    Ok((status, out))
}

/// The file of lines in pages of so many rows.
fn file_of(alloc: Global, lines: &str, page_rows: &str) -> Result<Vec<u8>, Fail> {
    let words = format!(in alloc; "f x {page_rows}")?;
    let (status, out) = run(alloc, lines, &words)?;
    if status != Status::Done {
        return Err(Fail::new(format_args!("{lines:?} end with {status:?}")));
    }
    Ok(Vec::from_slice(alloc, out.bytes())?)
}

#[test]
fn lines_are_read_back(rt: HostRuntime) -> Result<(), Fail> {
    let alloc = rt.alloc();
    for (lines, page_rows, cells, low, kept) in &MADE {
        let file = file_of(alloc, lines, page_rows)?;
        let scan = scan(alloc, file, &[COLUMN], (low, ""))?;
        check_scan(alloc, &scan, &[&[cells]], &[kept])?;
    }
    // No line is no group.
    let scan = scan(alloc, file_of(alloc, "", "2")?, &[COLUMN], ("", ""))?;
    check_scan(alloc, &scan, &[], &[])
}

#[test]
fn what_spells_no_file(rt: HostRuntime) -> Result<(), Fail> {
    for (lines, words, ending) in &REFUSED {
        let (status, out) = run(rt.alloc(), lines, words)?;
        assert_eq!(rt; status, *ending, "{lines:?} by {words:?}");
        assert!(rt; out.bytes().is_empty());
    }
    Ok(())
}
