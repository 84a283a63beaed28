//! How runs end: the texts of the statuses, and values and sizes that no answer has room for.
use crate::running::{File, check_files};
use files_for_tests::Levels::{Absent, First};
use files_for_tests::Values::{Bytes, Longs};
use files_for_tests::{CHUNK, Chunk, Column, NUMBERS, Page, Stored};
use pq_common::{Status, status_text};
use std::test::*;

/// The statuses, their numbers and their texts.
static STATUSES: [(Status, u8, &str); 10] = [
    (Status::Done, 0, "ok"),
    (
        Status::Words,
        2,
        "usage: pqscan FILE ITEM... [--chunk N] [--limit N] [--summary]",
    ),
    (Status::Argument, 3, "the request does not fit the file"),
    (Status::NotCarried, 4, "not carried"),
    (Status::Damaged, 5, "the file is damaged"),
    (Status::NotValid, 6, "a text or key is not valid"),
    (Status::Range, 7, "a value is out of range"),
    (Status::Reading, 8, "reading failed"),
    (Status::Writing, 9, "writing failed"),
    (Status::Memory, 10, "out of memory"),
];

#[test]
fn texts_of_statuses(rt: HostRuntime) -> Result<(), Fail> {
    for (status, number, text) in STATUSES.iter() {
        assert_eq!(rt; status.number(), *number);
        assert_eq!(rt; status_text(*status), *text);
    }
    Ok(())
}

/// A required column of times in milliseconds.
const TIMES: Column = Column {
    stored: Stored::Times,
    ..NUMBERS
};

/// The last times after and before 1970 whose nanoseconds fit 64 bits, those behind them, and the last time of all.
const LAST: &[&[Chunk<'static>]] = &[&[Chunk {
    column: TIMES,
    pages: &[Page(1, Absent, Longs(&[9223372036854]))],
    ..CHUNK
}]];

const PAST: &[&[Chunk<'static>]] = &[&[Chunk {
    column: TIMES,
    pages: &[Page(1, Absent, Longs(&[9223372036855]))],
    ..CHUNK
}]];

const FIRST: &[&[Chunk<'static>]] = &[&[Chunk {
    column: TIMES,
    pages: &[Page(1, Absent, Longs(&[-9223372036854]))],
    ..CHUNK
}]];

const BEFORE: &[&[Chunk<'static>]] = &[&[Chunk {
    column: TIMES,
    pages: &[Page(1, Absent, Longs(&[-9223372036855]))],
    ..CHUNK
}]];

const GREATEST: &[&[Chunk<'static>]] = &[&[Chunk {
    column: TIMES,
    pages: &[Page(1, Absent, Longs(&[9223372036854775807]))],
    ..CHUNK
}]];

const OF_LAST: &[(&str, &[u8])] = &[(
    "x a:Timestamp(ns)",
    b"\x00group 0 1 0+1\nchunk 1\n9223372036854000000\n",
)];

const OF_FIRST: &[(&str, &[u8])] = &[(
    "x a:Timestamp(ns)",
    b"\x00group 0 1 0+1\nchunk 1\n-9223372036854000000\n",
)];

const OUT_OF_RANGE: &[(&str, &[u8])] = &[("x a:Timestamp(ns)", &[7])];

const OF_GREATEST: &[(&str, &[u8])] = &[
    ("x a:Timestamp(us)", &[7]),
    (
        "x a:Timestamp(ms)",
        b"\x00group 0 1 0+1\nchunk 1\n9223372036854775807\n",
    ),
];

/// Strings of 2147483647 bytes each, of which as many are null in a page of a few bytes.
const LONG_STRINGS: &[&[Chunk<'static>]] = &[&[Chunk {
    column: Column {
        name: "a",
        stored: Stored::Fixed(2147483647),
        is_optional: true,
    },
    pages: &[Page(2147483647, First(b"\xfe\xff\xff\xff\x0f\0"), Bytes(0, b""))],
    ..CHUNK
}]];

/// No memory holds all of them.
const OF_LONG_STRINGS: &[(&str, &[u8])] = &[
    ("x a:FixedSizeBinary(2147483647)", &[10]),
    (
        "x a:Null --limit 1",
        b"\x00group 0 2147483647 0+2147483647\nchunk 1\nnull\n",
    ),
];

static FILES: [File<'static>; 6] = [
    (LAST, OF_LAST),
    (PAST, OUT_OF_RANGE),
    (FIRST, OF_FIRST),
    (BEFORE, OUT_OF_RANGE),
    (GREATEST, OF_GREATEST),
    (LONG_STRINGS, OF_LONG_STRINGS),
];

#[test]
fn what_no_answer_has_room_for(rt: HostRuntime) -> Result<(), Fail> {
    check_files(rt.alloc(), &FILES)
}
