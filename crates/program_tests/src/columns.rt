//! Columns of each stored type, as each type that they are read as: whole, and by the places of their pages.
use crate::pairs_file::PAIRS;
use crate::running::{check, check_lines};
use std::alloc::{AllocError, Global};
use std::test::*;

/// A file of which all rows can be asked for, or the last ones by a bound on a column of numbers.
pub(crate) struct Rows {
    /// What stands before the cells of all rows.
    pub(crate) whole: &'static str,
    /// The words that ask for the last rows, what stands before their cells, and their numbers.
    pub(crate) bound: &'static str,
    pub(crate) located: &'static str,
    pub(crate) numbers: &'static [&'static str],
}

/// The report on all rows of one column.
fn whole_report(alloc: Global, rows: &Rows, cells: &str) -> Result<Vec<u8>, AllocError> {
    let mut text = Vec::from_slice(alloc, rows.whole.as_bytes())?;
    for cell in cells.split(' ') {
        text.extend_from_slice(cell.as_bytes())?;
        text.push(b'\n')?;
    }
    Ok(text)
}

/// The report on the last rows of a column, each before its number.
fn located_report(alloc: Global, rows: &Rows, cells: &str) -> Result<Vec<u8>, AllocError> {
    let mut text = Vec::from_slice(alloc, rows.located.as_bytes())?;
    let before = cells.split(' ').count().saturating_sub(rows.numbers.len());
    for (cell, number) in cells.split(' ').skip(before).zip(rows.numbers.iter()) {
        text.extend_from_slice(cell.as_bytes())?;
        text.push(b'\t')?;
        text.extend_from_slice(number.as_bytes())?;
        text.push(b'\n')?;
    }
    Ok(text)
}

/// Fails where a column that is asked for by a line has other cells, whole or by locations.
fn check_cells(
    alloc: Global,
    file: &[u8],
    rows: &Rows,
    line: &str,
    cells: &str,
) -> Result<(), Fail> {
    check(alloc, file, line, &whole_report(alloc, rows, cells)?)?;
    let pruned = format!(in alloc; "{line} {}", rows.bound)?;
    check(alloc, file, &pruned, &located_report(alloc, rows, cells)?)
}

/// The same of several lines, each with its cells.
pub(crate) fn check_columns(
    alloc: Global,
    file: &[u8],
    rows: &Rows,
    columns: &[(&str, &str)],
) -> Result<(), Fail> {
    for (line, cells) in columns {
        check_cells(alloc, file, rows, line, cells)?;
    }
    Ok(())
}

/// Eight rows, of which the last four stand in the second pages.
const EIGHT_ROWS: Rows = Rows {
    whole: "\x00group 0 8 0+8\nchunk 8\n",
    bound: "a:Int32 a>=4",
    located: "\x00group 0 8 4+4\nchunk 4\n",
    numbers: &["4", "5", "6", "7"],
};

/// Truth values, fixed bytes and byte strings.
static BYTES: [(&str, &str); 10] = [
    (
        "x truth:Boolean",
        "null true false true null false true true",
    ),
    (
        "x fixed:FixedSizeBinary(2)",
        "0x0001 null 0xff85 null null 0x8000 0x0102 0x7fff",
    ),
    (
        "x fixed:Decimal(4,0)",
        "1 null -123 null null -32768 258 32767",
    ),
    (
        "x fixed_coded:FixedSizeBinary(2)",
        "0x0102 0xffff 0x0102 0x0102 0x0102 0x0102 0xffff 0x0102",
    ),
    (
        "x fixed_coded:Decimal(4,0)",
        "258 -1 258 258 258 258 -1 258",
    ),
    ("x interval:Interval(YearMonth)", "0 1 14 2 0 -1 0 7"),
    (
        "x interval:Interval(DayTime)",
        "3/1000 0/0 -1/2 5/6 3/1000 0/0 0/0 8/9",
    ),
    ("x name:Null", "null null null null null null null null"),
    (
        "x name:Utf8",
        "\"x\" null \"yz\" \"\" \"q\" null \"r\" \"s\"",
    ),
    (
        "x name:LargeBinary",
        "0x78 null 0x797a 0x 0x71 null 0x72 0x73",
    ),
];

/// Numbers of 32 bits. In `coded` all places of the first page are null.
static NUMBERS: [(&str, &str); 15] = [
    ("x number:Int32", "null 10 20 25 null 30 40 -1"),
    ("x number:Int8", "null 10 20 25 null 30 40 -1"),
    ("x number:Int16", "null 10 20 25 null 30 40 -1"),
    ("x number:Date32", "null 10 20 25 null 30 40 -1"),
    ("x number:Time32(ms)", "null 10 20 25 null 30 40 -1"),
    ("x number:Decimal(9,2)", "null 10 20 25 null 30 40 -1"),
    ("x number:UInt8", "null 10 20 25 null 30 40 255"),
    ("x number:UInt16", "null 10 20 25 null 30 40 65535"),
    ("x number:UInt32", "null 10 20 25 null 30 40 4294967295"),
    (
        "x number:Date64",
        "null 864000000 1728000000 2160000000 null 2592000000 3456000000 -86400000",
    ),
    ("x coded:Int32", "null null null 10 null 300 -1 10"),
    ("x coded:UInt8", "null null null 10 null 44 255 10"),
    (
        "x coded:Date64",
        "null null null 864000000 null 25920000000 -86400000 864000000",
    ),
    ("x delta:Int32", "7 6 5 4 1000 -3 0 2147483647"),
    ("x delta:Int8", "7 6 5 4 -24 -3 0 -1"),
];

/// Numbers of 64 bits.
static LONGS: [(&str, &str); 9] = [
    ("x time:Int64", "null 1999 -1999 0 null 86400000 1 2"),
    ("x time:Date64", "null 1999 -1999 0 null 86400000 1 2"),
    ("x time:Time64(us)", "null 1999 -1999 0 null 86400000 1 2"),
    ("x time:Duration(s)", "null 1999 -1999 0 null 86400000 1 2"),
    (
        "x time:Decimal(18,0)",
        "null 1999 -1999 0 null 86400000 1 2",
    ),
    ("x time:UInt32", "null 1999 4294965297 0 null 86400000 1 2"),
    (
        "x time:UInt64",
        "null 1999 18446744073709549617 0 null 86400000 1 2",
    ),
    ("x long_coded:Int64", "5 -1 5 5 5 -1 -1 5"),
    ("x long_delta:Int64", "1 null 3 null 9000000000 2 null -4"),
];

/// Times: `time` has milliseconds, and `old` the day and its nanoseconds.
static TIMES: [(&str, &str); 4] = [
    ("x time:Timestamp(s)", "null 1 -1 0 null 86400 0 0"),
    (
        "x time:Timestamp(ns)",
        "null 1999000000 -1999000000 0 null 86400000000000 1000000 2000000",
    ),
    ("x old:Timestamp(s)", "86400 0 0 2 2 86400 86400 86400"),
    (
        "x old:Timestamp(ns)",
        "86400000000000 -1 1 2000000000 2000000000 86400000000000 86400000000000 86400000000000",
    ),
];

/// Types that a column is not read as.
static OTHERS: [&str; 8] = [
    "x name:Int32",
    "x name:Decimal(4,0)",
    "x name:FixedSizeBinary(1)",
    "x name:Dictionary(Int32,Int64)",
    "x delta:Int64",
    "x delta:Binary",
    "x fixed:FixedSizeBinary(3)",
    "x fixed:LargeBinary",
];

#[test]
fn columns_of_each_type(rt: HostRuntime) -> Result<(), Fail> {
    let alloc = rt.alloc();
    check_columns(alloc, &PAIRS, &EIGHT_ROWS, &BYTES)?;
    check_columns(alloc, &PAIRS, &EIGHT_ROWS, &NUMBERS)?;
    check_columns(alloc, &PAIRS, &EIGHT_ROWS, &LONGS)?;
    check_columns(alloc, &PAIRS, &EIGHT_ROWS, &TIMES)?;
    check_lines(alloc, &PAIRS, &OTHERS, &[4])
}
