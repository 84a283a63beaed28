//! Columns that are read as dictionaries: each type of keys, each type of entries, nulls, whole and by locations, and what is refused.
use crate::columns::{Rows, check_columns};
use crate::running::{File, check_answers, check_files, check_lines};
use crate::texts::{BY_KEYS, DELTA_LENGTH, PLAIN};
use files_for_tests::Levels::{Absent, Entries, First, Second};
use files_for_tests::Values::{Bytes, Keys, Longs, Numbers, Strings};
use files_for_tests::{CHUNK, Chunk, Column, Indexes, Page, STRINGS, Stored, Told, file_of};
use std::test::*;

/// The number of an encoding.
const DELTA_PACKED: usize = 5;

/// Numbers that may be null.
const SPARSE: Column = Column {
    name: "n",
    stored: Stored::Numbers,
    is_optional: true,
};

const TIMES: Column = Column {
    name: "t",
    stored: Stored::Times,
    is_optional: false,
};

const PAIRS: Column = Column {
    name: "f",
    stored: Stored::Fixed(2),
    is_optional: false,
};

/// The numbers 1, 2, 3 and 10, 11, 12 in two located pages, beside columns of keys: the numbers 5, null, 300 and null, -1, 5,
/// the times 1000, -1, 1000 and -1, -1, 1000, the strings `qq`, `p`, `qq` and `p`, `p`, `qq`, and pairs of bytes.
static SIX: &[&[Chunk<'static>]] = &[&[
    Chunk {
        pages: &[
            Page(3, Absent, Numbers(&[1, 2, 3])),
            Page(3, Absent, Numbers(&[10, 11, 12])),
        ],
        told: Told::Ends(1, 12),
        indexes: Indexes::Told(&[Told::Ends(1, 3), Told::Ends(10, 12)]),
        ..CHUNK
    },
    Chunk {
        column: SPARSE,
        pages: &[
            Page(3, Entries, Numbers(&[5, -1, 300])),
            Page(3, First(b"\x03\x05"), Keys(&[0, 2])),
            Page(3, Second(b"\x03\x06"), Keys(&[1, 0])),
        ],
        indexes: Indexes::Locations,
        ..CHUNK
    },
    Chunk {
        column: TIMES,
        pages: &[
            Page(2, Entries, Longs(&[1000, -1])),
            FIRST_KEYS,
            SECOND_KEYS,
        ],
        indexes: Indexes::Locations,
        ..CHUNK
    },
    Chunk {
        column: STRINGS,
        pages: &[
            Page(2, Entries, Strings(&[b"qq", b"p"])),
            FIRST_KEYS,
            SECOND_KEYS,
        ],
        indexes: Indexes::Locations,
        ..CHUNK
    },
    Chunk {
        column: PAIRS,
        pages: &[
            Page(2, Entries, Bytes(PLAIN, b"\x01\x02\xff\0")),
            FIRST_KEYS,
            SECOND_KEYS,
        ],
        indexes: Indexes::Locations,
        ..CHUNK
    },
]];

const FIRST_KEYS: Page<'static> = Page(3, Absent, Keys(&[0, 1, 0]));

const SECOND_KEYS: Page<'static> = Page(3, Second(b""), Keys(&[1, 1, 0]));

/// Its six rows, of which the last three stand in the second pages.
const SIX_ROWS: Rows = Rows {
    whole: "\x00group 0 6 0+6\nchunk 6\n",
    bound: "a:Int32 a>=10",
    located: "\x00group 0 6 3+3\nchunk 3\n",
    numbers: &["10", "11", "12"],
};

/// Types of entries, and the cells of the six rows.
static ENTRY_TYPES: [(&str, &str); 22] = [
    ("x n:Dictionary(Int32,UInt8)", "5 null 44 null 255 5"),
    ("x n:Dictionary(Int32,UInt16)", "5 null 300 null 65535 5"),
    (
        "x n:Dictionary(Int32,UInt32)",
        "5 null 300 null 4294967295 5",
    ),
    ("x n:Dictionary(Int32,Int8)", "5 null 44 null -1 5"),
    ("x n:Dictionary(Int32,Int16)", "5 null 300 null -1 5"),
    ("x n:Dictionary(Int32,Int32)", "5 null 300 null -1 5"),
    ("x n:Dictionary(Int32,Date32)", "5 null 300 null -1 5"),
    ("x n:Dictionary(Int32,Time32(ms))", "5 null 300 null -1 5"),
    (
        "x n:Dictionary(Int32,Interval(YearMonth))",
        "5 null 300 null -1 5",
    ),
    (
        "x t:Dictionary(Int32,UInt64)",
        "1000 18446744073709551615 1000 18446744073709551615 18446744073709551615 1000",
    ),
    ("x t:Dictionary(Int32,Int64)", "1000 -1 1000 -1 -1 1000"),
    ("x t:Dictionary(Int32,Date64)", "1000 -1 1000 -1 -1 1000"),
    (
        "x t:Dictionary(Int32,Time64(us))",
        "1000 -1 1000 -1 -1 1000",
    ),
    (
        "x t:Dictionary(Int32,Duration(ns))",
        "1000 -1 1000 -1 -1 1000",
    ),
    (
        "x t:Dictionary(Int32,Timestamp(ms))",
        "1000 -1 1000 -1 -1 1000",
    ),
    ("x t:Dictionary(Int32,Timestamp(s))", "1 0 1 0 0 1"),
    (
        "x t:Dictionary(Int32,Timestamp(us))",
        "1000000 -1000 1000000 -1000 -1000 1000000",
    ),
    (
        "x s:Dictionary(Int32,Utf8)",
        "\"qq\" \"p\" \"qq\" \"p\" \"p\" \"qq\"",
    ),
    (
        "x s:Dictionary(Int32,LargeUtf8)",
        "\"qq\" \"p\" \"qq\" \"p\" \"p\" \"qq\"",
    ),
    (
        "x s:Dictionary(Int32,Binary)",
        "0x7171 0x70 0x7171 0x70 0x70 0x7171",
    ),
    (
        "x s:Dictionary(Int32,LargeBinary)",
        "0x7171 0x70 0x7171 0x70 0x70 0x7171",
    ),
    (
        "x f:Dictionary(Int32,FixedSizeBinary(2))",
        "0x0102 0xff00 0x0102 0xff00 0xff00 0x0102",
    ),
];

/// Types of keys, and the cells.
static KEY_TYPES: [(&str, &str); 24] = [
    ("x n:Dictionary(Int8,Int32)", "5 null 300 null -1 5"),
    (
        "x s:Dictionary(Int8,Utf8)",
        "\"qq\" \"p\" \"qq\" \"p\" \"p\" \"qq\"",
    ),
    (
        "x f:Dictionary(Int8,FixedSizeBinary(2))",
        "0x0102 0xff00 0x0102 0xff00 0xff00 0x0102",
    ),
    ("x n:Dictionary(Int16,Int32)", "5 null 300 null -1 5"),
    (
        "x s:Dictionary(Int16,Utf8)",
        "\"qq\" \"p\" \"qq\" \"p\" \"p\" \"qq\"",
    ),
    (
        "x f:Dictionary(Int16,FixedSizeBinary(2))",
        "0x0102 0xff00 0x0102 0xff00 0xff00 0x0102",
    ),
    ("x n:Dictionary(Int32,Int32)", "5 null 300 null -1 5"),
    (
        "x s:Dictionary(Int32,Utf8)",
        "\"qq\" \"p\" \"qq\" \"p\" \"p\" \"qq\"",
    ),
    (
        "x f:Dictionary(Int32,FixedSizeBinary(2))",
        "0x0102 0xff00 0x0102 0xff00 0xff00 0x0102",
    ),
    ("x n:Dictionary(Int64,Int32)", "5 null 300 null -1 5"),
    (
        "x s:Dictionary(Int64,Utf8)",
        "\"qq\" \"p\" \"qq\" \"p\" \"p\" \"qq\"",
    ),
    (
        "x f:Dictionary(Int64,FixedSizeBinary(2))",
        "0x0102 0xff00 0x0102 0xff00 0xff00 0x0102",
    ),
    ("x n:Dictionary(UInt8,Int32)", "5 null 300 null -1 5"),
    (
        "x s:Dictionary(UInt8,Utf8)",
        "\"qq\" \"p\" \"qq\" \"p\" \"p\" \"qq\"",
    ),
    (
        "x f:Dictionary(UInt8,FixedSizeBinary(2))",
        "0x0102 0xff00 0x0102 0xff00 0xff00 0x0102",
    ),
    ("x n:Dictionary(UInt16,Int32)", "5 null 300 null -1 5"),
    (
        "x s:Dictionary(UInt16,Utf8)",
        "\"qq\" \"p\" \"qq\" \"p\" \"p\" \"qq\"",
    ),
    (
        "x f:Dictionary(UInt16,FixedSizeBinary(2))",
        "0x0102 0xff00 0x0102 0xff00 0xff00 0x0102",
    ),
    ("x n:Dictionary(UInt32,Int32)", "5 null 300 null -1 5"),
    (
        "x s:Dictionary(UInt32,Utf8)",
        "\"qq\" \"p\" \"qq\" \"p\" \"p\" \"qq\"",
    ),
    (
        "x f:Dictionary(UInt32,FixedSizeBinary(2))",
        "0x0102 0xff00 0x0102 0xff00 0xff00 0x0102",
    ),
    ("x n:Dictionary(UInt64,Int32)", "5 null 300 null -1 5"),
    (
        "x s:Dictionary(UInt64,Utf8)",
        "\"qq\" \"p\" \"qq\" \"p\" \"p\" \"qq\"",
    ),
    (
        "x f:Dictionary(UInt64,FixedSizeBinary(2))",
        "0x0102 0xff00 0x0102 0xff00 0xff00 0x0102",
    ),
];

/// Chunks, first rows and counts of pages. A column has a dictionary and two pages, of which the second holds the rows from 10 on.
static IN_PARTS: [(&str, &[u8]); 5] = [
    (
        "x s:Dictionary(UInt8,Utf8) n:Dictionary(Int64,Int16) --chunk 4 --limit 5",
        b"\x00group 0 6 0+6\nchunk 4\n\"qq\"\t5\n\"p\"\tnull\n\"qq\"\t300\n\"p\"\tnull\nchunk 1\n\"p\"\t-1\n",
    ),
    (
        "x t:Dictionary(Int16,Timestamp(s)) a:Int32 a>=10 --limit 2",
        b"\x00group 0 6 3+3\nchunk 2\n0\t10\n0\t11\n",
    ),
    (
        "x s:Dictionary(Int32,Binary) --summary",
        b"\x00group 0 6 0+6\nrows 6\npages 3\n",
    ),
    (
        "x s:Dictionary(Int32,Binary) --limit 3 --summary",
        b"\x00group 0 6 0+6\nrows 3\npages 2\n",
    ),
    (
        "x a:Int32 s:Dictionary(Int32,Binary) a>=10 --summary",
        b"\x00group 0 6 3+3\nrows 3\npages 3\n",
    ),
];

/// Types that entries of a column are not read as, though its values may be.
static OTHER_ENTRIES: [&str; 12] = [
    "x n:Dictionary(Int32,Boolean)",
    "x n:Dictionary(Int32,Int64)",
    "x n:Dictionary(Int32,Date64)",
    "x n:Dictionary(Int32,Decimal(9,2))",
    "x n:Dictionary(Int32,Null)",
    "x n:Dictionary(Int32,Interval(DayTime))",
    "x t:Dictionary(Int32,UInt32)",
    "x t:Dictionary(Int32,Decimal(9,2))",
    "x s:Dictionary(Int32,FixedSizeBinary(2))",
    "x f:Dictionary(Int32,FixedSizeBinary(3))",
    "x f:Dictionary(Int32,Decimal(9,2))",
    "x f:Dictionary(Int32,Utf8)",
];

#[test]
fn types_of_keys_and_entries(rt: HostRuntime) -> Result<(), Fail> {
    let alloc = rt.alloc();
    let file = file_of(alloc, SIX)?;
    check_columns(alloc, &file, &SIX_ROWS, &ENTRY_TYPES)?;
    check_columns(alloc, &file, &SIX_ROWS, &KEY_TYPES)?;
    check_answers(alloc, &file, &IN_PARTS)?;
    check_lines(alloc, &file, &OTHER_ENTRIES, &[4])
}

/// What runs answer on keys that name one of 300 strings of no bytes: 256; 0 and 256; 127; 128.
const OF_KEY_256: &[(&str, &[u8])] = &[
    ("x s:Dictionary(UInt8,Utf8)", &[7]),
    ("x s:Dictionary(Int8,Binary)", &[7]),
    (
        "x s:Dictionary(UInt8,Utf8) --limit 0",
        b"\x00group 0 1 0+1\n",
    ),
    (
        "x s:Dictionary(Int16,Utf8)",
        b"\x00group 0 1 0+1\nchunk 1\n\"\"\n",
    ),
    (
        "x s:Dictionary(UInt64,Binary)",
        b"\x00group 0 1 0+1\nchunk 1\n0x\n",
    ),
    ("x s:Utf8", b"\x00group 0 1 0+1\nchunk 1\n\"\"\n"),
];

/// All keys of a page that is read are judged, also where the row of the key 256 is not given.
const OF_KEYS_0_AND_256: &[(&str, &[u8])] = &[
    ("x s:Dictionary(UInt8,Utf8) --limit 1", &[7]),
    (
        "x s:Dictionary(Int16,Utf8) --limit 1",
        b"\x00group 0 2 0+2\nchunk 1\n\"\"\n",
    ),
    ("x s:Utf8 --limit 1", b"\x00group 0 2 0+2\nchunk 1\n\"\"\n"),
];

const OF_KEY_127: &[(&str, &[u8])] = &[
    (
        "x s:Dictionary(Int8,Utf8)",
        b"\x00group 0 1 0+1\nchunk 1\n\"\"\n",
    ),
    (
        "x s:Dictionary(UInt8,Utf8)",
        b"\x00group 0 1 0+1\nchunk 1\n\"\"\n",
    ),
];

const OF_KEY_128: &[(&str, &[u8])] = &[
    ("x s:Dictionary(Int8,Utf8)", &[7]),
    (
        "x s:Dictionary(UInt8,Utf8)",
        b"\x00group 0 1 0+1\nchunk 1\n\"\"\n",
    ),
];

const KEY_256: &[&[Chunk<'static>]] = &[&[Chunk {
    column: STRINGS,
    pages: &[
        MANY_STRINGS,
        Page(1, Absent, Bytes(BY_KEYS, b"\x09\x02\0\x01")),
    ],
    ..CHUNK
}]];

const KEYS_0_AND_256: &[&[Chunk<'static>]] = &[&[Chunk {
    column: STRINGS,
    pages: &[
        MANY_STRINGS,
        Page(2, Absent, Bytes(BY_KEYS, b"\x09\x02\0\0\x02\0\x01")),
    ],
    ..CHUNK
}]];

const KEY_127: &[&[Chunk<'static>]] = &[&[Chunk {
    column: STRINGS,
    pages: &[MANY_STRINGS, Page(1, Absent, Keys(&[127]))],
    ..CHUNK
}]];

const KEY_128: &[&[Chunk<'static>]] = &[&[Chunk {
    column: STRINGS,
    pages: &[MANY_STRINGS, Page(1, Absent, Keys(&[128]))],
    ..CHUNK
}]];

const MANY_STRINGS: Page<'static> = Page(300, Entries, Bytes(PLAIN, &[0; 1200]));

/// Pages that are not of keys behind a dictionary, and keys without one.
const PLAIN_STRING: &[&[Chunk<'static>]] = &[&[Chunk {
    column: STRINGS,
    pages: &[THREE_STRINGS, Page(1, Absent, Strings(&[b"a"]))],
    ..CHUNK
}]];

const JOINED_STRING: &[&[Chunk<'static>]] = &[&[Chunk {
    column: STRINGS,
    pages: &[
        THREE_STRINGS,
        Page(1, Absent, Bytes(DELTA_LENGTH, b"\x80\x01\x04\x01\x02a")),
    ],
    ..CHUNK
}]];

const NO_DICTIONARY: &[&[Chunk<'static>]] = &[&[Chunk {
    column: STRINGS,
    pages: &[Page(1, Absent, Keys(&[0]))],
    ..CHUNK
}]];

const PACKED_NUMBER: &[&[Chunk<'static>]] = &[&[Chunk {
    pages: &[
        Page(1, Entries, Numbers(&[5])),
        Page(1, Absent, Bytes(DELTA_PACKED, b"\x80\x01\x04\x01\x02")),
    ],
    ..CHUNK
}]];

const THREE_STRINGS: Page<'static> = Page(3, Entries, Strings(&[b"x", b"y", b"z"]));

const NOT_CARRIED: &[(&str, &[u8])] = &[("x s:Dictionary(Int32,Utf8)", &[4])];

/// The number 1 is packed by deltas.
const OF_PACKED_NUMBER: &[(&str, &[u8])] = &[
    ("x a:Int32", b"\x00group 0 1 0+1\nchunk 1\n1\n"),
    ("x a:Dictionary(Int32,Int32)", &[4]),
];

/// A column of the strings `x` and `y`.
const TWO_STRINGS: &[&[Chunk<'static>]] = &[&[Chunk {
    column: STRINGS,
    pages: &[
        Page(2, Entries, Strings(&[b"x", b"y"])),
        Page(2, Absent, Keys(&[0, 1])),
    ],
    told: Told::Bytes(Some(b"x"), Some(b"y"), Some(0)),
    ..CHUNK
}]];

/// Bounds on it are compared as the type of the entries.
const OF_BOUNDS: &[(&str, &[u8])] = &[
    (
        "x s:Dictionary(Int32,Utf8) s>=y",
        b"\x00group 0 2 0+2\nchunk 2\n\"x\"\n\"y\"\n",
    ),
    ("x s:Dictionary(Int32,Utf8) s>=z", b"\x00group 0 2 -\n"),
    ("x s:Dictionary(UInt8,Binary) s<=0x77", b"\x00group 0 2 -\n"),
    (
        "x s:Dictionary(UInt8,Binary) s<=0x78 --limit 1",
        b"\x00group 0 2 0+2\nchunk 1\n0x78\n",
    ),
];

static FILES: [File<'static>; 9] = [
    (KEY_256, OF_KEY_256),
    (KEYS_0_AND_256, OF_KEYS_0_AND_256),
    (KEY_127, OF_KEY_127),
    (KEY_128, OF_KEY_128),
    (PLAIN_STRING, NOT_CARRIED),
    (JOINED_STRING, NOT_CARRIED),
    (NO_DICTIONARY, NOT_CARRIED),
    (PACKED_NUMBER, OF_PACKED_NUMBER),
    (TWO_STRINGS, OF_BOUNDS),
];

#[test]
fn keys_of_one_column(rt: HostRuntime) -> Result<(), Fail> {
    check_files(rt.alloc(), &FILES)
}
