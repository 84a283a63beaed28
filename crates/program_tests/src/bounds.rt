//! Bounds on fields of each ordered type: groups and pages are left out by ends as the type has them.
use crate::running::{File, check_answers, check_files, check_lines};
use files_for_tests::Levels::Absent;
use files_for_tests::Values::{Bytes, Longs, Numbers, Strings, Words};
use files_for_tests::{
    CHUNK, Chunk, Column, Indexes, NUMBERS, Page, STRINGS, Stored, Told, file_of,
};
use std::test::*;

/// A required column of each stored type whose values are compared, beside `NUMBERS` and `STRINGS`.
const LONGS: Column = Column {
    name: "b",
    stored: Stored::Longs,
    is_optional: false,
};

const TIMES: Column = Column {
    name: "t",
    stored: Stored::Times,
    is_optional: false,
};

const WORDS: Column = Column {
    name: "w",
    stored: Stored::Words,
    is_optional: false,
};

const PAIRS: Column = Column {
    name: "f",
    stored: Stored::Fixed(2),
    is_optional: false,
};

/// Two groups of two pages of two numbers each, in each of these columns: the numbers 10, 11, 20, 21, and 30, 31, 40, 41. Times are so many
/// seconds, byte strings two digits, and pairs two bytes.
static ALL_COLUMNS: &[&[Chunk<'static>]] = &[
    &[
        Chunk {
            column: NUMBERS,
            pages: &[
                Page(2, Absent, Numbers(&[10, 11])),
                Page(2, Absent, Numbers(&[20, 21])),
            ],
            told: Told::Ends(10, 21),
            indexes: Indexes::Told(&[Told::Ends(10, 11), Told::Ends(20, 21)]),
            path: "",
        },
        Chunk {
            column: LONGS,
            pages: &[
                Page(2, Absent, Longs(&[10, 11])),
                Page(2, Absent, Longs(&[20, 21])),
            ],
            told: Told::Longs(10, 21),
            indexes: Indexes::Told(&[Told::Longs(10, 11), Told::Longs(20, 21)]),
            path: "",
        },
        Chunk {
            column: TIMES,
            pages: &[
                Page(2, Absent, Longs(&[10000, 11000])),
                Page(2, Absent, Longs(&[20000, 21000])),
            ],
            told: Told::Longs(10000, 21000),
            indexes: Indexes::Told(&[Told::Longs(10000, 11000), Told::Longs(20000, 21000)]),
            path: "",
        },
        Chunk {
            column: WORDS,
            pages: &[
                Page(2, Absent, Words(&[10000000000, 11000000000])),
                Page(2, Absent, Words(&[20000000000, 21000000000])),
            ],
            told: Told::Words(10000000000, 21000000000),
            indexes: Indexes::Told(&[
                Told::Words(10000000000, 11000000000),
                Told::Words(20000000000, 21000000000),
            ]),
            path: "",
        },
        Chunk {
            column: STRINGS,
            pages: &[
                Page(2, Absent, Strings(&[b"10", b"11"])),
                Page(2, Absent, Strings(&[b"20", b"21"])),
            ],
            told: Told::Bytes(Some(b"10"), Some(b"21"), Some(0)),
            indexes: Indexes::Told(&[
                Told::Bytes(Some(b"10"), Some(b"11"), Some(0)),
                Told::Bytes(Some(b"20"), Some(b"21"), Some(0)),
            ]),
            path: "",
        },
        Chunk {
            column: PAIRS,
            pages: &[
                Page(2, Absent, Bytes(0, b"\0\x0a\0\x0b")),
                Page(2, Absent, Bytes(0, b"\0\x14\0\x15")),
            ],
            told: Told::Bytes(Some(b"\0\x0a"), Some(b"\0\x15"), Some(0)),
            indexes: Indexes::Told(&[
                Told::Bytes(Some(b"\0\x0a"), Some(b"\0\x0b"), Some(0)),
                Told::Bytes(Some(b"\0\x14"), Some(b"\0\x15"), Some(0)),
            ]),
            path: "",
        },
    ],
    &[
        Chunk {
            column: NUMBERS,
            pages: &[
                Page(2, Absent, Numbers(&[30, 31])),
                Page(2, Absent, Numbers(&[40, 41])),
            ],
            told: Told::Ends(30, 41),
            indexes: Indexes::Told(&[Told::Ends(30, 31), Told::Ends(40, 41)]),
            path: "",
        },
        Chunk {
            column: LONGS,
            pages: &[
                Page(2, Absent, Longs(&[30, 31])),
                Page(2, Absent, Longs(&[40, 41])),
            ],
            told: Told::Longs(30, 41),
            indexes: Indexes::Told(&[Told::Longs(30, 31), Told::Longs(40, 41)]),
            path: "",
        },
        Chunk {
            column: TIMES,
            pages: &[
                Page(2, Absent, Longs(&[30000, 31000])),
                Page(2, Absent, Longs(&[40000, 41000])),
            ],
            told: Told::Longs(30000, 41000),
            indexes: Indexes::Told(&[Told::Longs(30000, 31000), Told::Longs(40000, 41000)]),
            path: "",
        },
        Chunk {
            column: WORDS,
            pages: &[
                Page(2, Absent, Words(&[30000000000, 31000000000])),
                Page(2, Absent, Words(&[40000000000, 41000000000])),
            ],
            told: Told::Words(30000000000, 41000000000),
            indexes: Indexes::Told(&[
                Told::Words(30000000000, 31000000000),
                Told::Words(40000000000, 41000000000),
            ]),
            path: "",
        },
        Chunk {
            column: STRINGS,
            pages: &[
                Page(2, Absent, Strings(&[b"30", b"31"])),
                Page(2, Absent, Strings(&[b"40", b"41"])),
            ],
            told: Told::Bytes(Some(b"30"), Some(b"41"), Some(0)),
            indexes: Indexes::Told(&[
                Told::Bytes(Some(b"30"), Some(b"31"), Some(0)),
                Told::Bytes(Some(b"40"), Some(b"41"), Some(0)),
            ]),
            path: "",
        },
        Chunk {
            column: PAIRS,
            pages: &[
                Page(2, Absent, Bytes(0, b"\0\x1e\0\x1f")),
                Page(2, Absent, Bytes(0, b"\0\x28\0\x29")),
            ],
            told: Told::Bytes(Some(b"\0\x1e"), Some(b"\0\x29"), Some(0)),
            indexes: Indexes::Told(&[
                Told::Bytes(Some(b"\0\x1e"), Some(b"\0\x1f"), Some(0)),
                Told::Bytes(Some(b"\0\x28"), Some(b"\0\x29"), Some(0)),
            ]),
            path: "",
        },
    ],
];

/// The report on the rows from 20 to 31, as numbers.
const KEPT: &[u8] = b"\x00group 0 4 2+2\ngroup 1 4 0+2\nchunk 2\n20\n21\nchunk 2\n30\n31\n";

/// Types as which the columns are these numbers.
static AS_NUMBERS: [&str; 20] = [
    "x a:Int8 a>=20 a<=31",
    "x a:Int16 a>=20 a<=31",
    "x a:Int32 a>=20 a<=31",
    "x a:UInt8 a>=20 a<=31",
    "x a:UInt16 a>=20 a<=31",
    "x a:UInt32 a>=20 a<=31",
    "x a:Date32 a>=20 a<=31",
    "x a:Time32(s) a>=20 a<=31",
    "x a:Decimal(9,2) a>=20 a<=31",
    "x b:Int64 b>=20 b<=31",
    "x b:UInt32 b>=20 b<=31",
    "x b:UInt64 b>=20 b<=31",
    "x b:Date64 b>=20 b<=31",
    "x b:Time64(us) b>=20 b<=31",
    "x b:Duration(ms) b>=20 b<=31",
    "x b:Timestamp(ns) b>=20 b<=31",
    "x b:Decimal(9,2) b>=20 b<=31",
    "x t:Timestamp(s) t>=20 t<=31",
    "x w:Timestamp(s) w>=20 w<=31",
    "x f:Decimal(9,2) f>=20 f<=31",
];

/// The same rows as other values, and groups that are left out whole.
static AS_OTHERS: [(&str, &[u8]); 10] = [
    (
        "x a:Date64 a>=1728000000 a<=2678400000",
        b"\x00group 0 4 2+2\ngroup 1 4 0+2\nchunk 2\n1728000000\n1814400000\nchunk 2\n2592000000\n2678400000\n",
    ),
    (
        "x t:Timestamp(us) t>=20000000 t<=31000000",
        b"\x00group 0 4 2+2\ngroup 1 4 0+2\nchunk 2\n20000000\n21000000\nchunk 2\n30000000\n31000000\n",
    ),
    (
        "x w:Timestamp(ms) w>=41000",
        b"\x00group 0 4 -\ngroup 1 4 2+2\nchunk 2\n40000\n41000\n",
    ),
    (
        "x s:Utf8 s>=20 s<=31",
        b"\x00group 0 4 2+2\ngroup 1 4 0+2\nchunk 2\n\"20\"\n\"21\"\nchunk 2\n\"30\"\n\"31\"\n",
    ),
    (
        "x s:LargeUtf8 s<=2",
        b"\x00group 0 4 0+2\ngroup 1 4 -\nchunk 2\n\"10\"\n\"11\"\n",
    ),
    (
        "x s:Binary s>=0x34",
        b"\x00group 0 4 -\ngroup 1 4 2+2\nchunk 2\n0x3430\n0x3431\n",
    ),
    (
        "x s:LargeBinary s>=0x3231 s<=0x3330",
        b"\x00group 0 4 2+2\ngroup 1 4 0+2\nchunk 2\n0x3230\n0x3231\nchunk 2\n0x3330\n0x3331\n",
    ),
    (
        "x f:FixedSizeBinary(2) f>=0x0028",
        b"\x00group 0 4 -\ngroup 1 4 2+2\nchunk 2\n0x0028\n0x0029\n",
    ),
    (
        "x a:Int8 s:Utf8 s>=3 a<=35",
        b"\x00group 0 4 -\ngroup 1 4 0+2\nchunk 2\n30\t\"30\"\n31\t\"31\"\n",
    ),
    ("x b:UInt64 b>=42", b"\x00group 0 4 -\ngroup 1 4 -\n"),
];

#[test]
fn each_ordered_type(rt: HostRuntime) -> Result<(), Fail> {
    let alloc = rt.alloc();
    let file = file_of(alloc, ALL_COLUMNS)?;
    check_lines(alloc, &file, &AS_NUMBERS, KEPT)?;
    check_answers(alloc, &file, &AS_OTHERS)
}

/// Two located pages of two numbers each.
const TWO_PAGES: &[&[Chunk<'static>]] = &[&[Chunk {
    pages: &[
        Page(2, Absent, Numbers(&[1, 2])),
        Page(2, Absent, Numbers(&[100, 101])),
    ],
    told: Told::Ends(1, 101),
    indexes: Indexes::Told(&[Told::Ends(1, 2), Told::Ends(100, 101)]),
    ..CHUNK
}]];

const OF_TWO_PAGES: &[(&str, &[u8])] = &[(
    "x a:Int8 a>=50",
    b"\x00group 0 4 2+2\nchunk 2\n100\n101\n",
)];

/// A group of the numbers -1, 0 and 1, whose ends are told.
const AROUND_0: &[&[Chunk<'static>]] = &[&[Chunk {
    pages: &[Page(3, Absent, Numbers(&[-1, 0, 1]))],
    told: Told::Ends(-1, 1),
    ..CHUNK
}]];

/// Ends are compared as what they become: as numbers without a sign -1 and 1 are 255 and 1, between which nothing lies.
const OF_NARROW: &[(&str, &[u8])] = &[
    ("x a:UInt8 a>=0", b"\x00group 0 3 -\n"),
    ("x a:UInt16 a<=65535", b"\x00group 0 3 -\n"),
    ("x a:Int8 a>=1", b"\x00group 0 3 0+3\nchunk 3\n-1\n0\n1\n"),
    ("x a:UInt8", b"\x00group 0 3 0+3\nchunk 3\n255\n0\n1\n"),
];

const ALL_LEFT: &[u8] = b"\x00group 0 2 0+2\nchunk 2\n5\n7\n";

const NONE_LEFT: &[u8] = b"\x00group 0 2 -\n";

/// Nothing is told of a group of the numbers 5 and 7.
const NOTHING: &[&[Chunk<'static>]] = &[&[Chunk {
    pages: &[FIVE_AND_SEVEN],
    told: Told::Nothing,
    ..CHUNK
}]];

const OF_NOTHING: &[(&str, &[u8])] = &[
    ("x a:Int16 a>=100", ALL_LEFT),
    ("x a:Int16 a<=-100", ALL_LEFT),
    ("x a:Int16 a>=2 a<=1", NONE_LEFT),
];

/// The least of them.
const LEAST: &[&[Chunk<'static>]] = &[&[Chunk {
    pages: &[FIVE_AND_SEVEN],
    told: Told::Bytes(Some(b"\x05\0\0\0"), None, None),
    ..CHUNK
}]];

const OF_LEAST: &[(&str, &[u8])] = &[
    ("x a:Int16 a>=100", ALL_LEFT),
    ("x a:Int16 a<=4", NONE_LEFT),
];

/// The greatest.
const GREATEST: &[&[Chunk<'static>]] = &[&[Chunk {
    pages: &[FIVE_AND_SEVEN],
    told: Told::Bytes(None, Some(b"\x07\0\0\0"), None),
    ..CHUNK
}]];

const OF_GREATEST: &[(&str, &[u8])] = &[
    ("x a:Decimal(9,0) a<=4", ALL_LEFT),
    ("x a:Decimal(9,0) a>=8", NONE_LEFT),
];

/// That both are null, which is not true.
const BOTH_NULL: &[&[Chunk<'static>]] = &[&[Chunk {
    pages: &[FIVE_AND_SEVEN],
    told: Told::Bytes(None, None, Some(2)),
    ..CHUNK
}]];

const OF_BOTH_NULL: &[(&str, &[u8])] = &[("x a:Date32 a>=5", NONE_LEFT)];

/// The least, and that one is null.
const ONE_NULL: &[&[Chunk<'static>]] = &[&[Chunk {
    pages: &[FIVE_AND_SEVEN],
    told: Told::Bytes(Some(b"\x05\0\0\0"), None, Some(1)),
    ..CHUNK
}]];

const OF_ONE_NULL: &[(&str, &[u8])] = &[("x a:Date32 a>=5", ALL_LEFT)];

/// A least value of three bytes.
const OTHER_WIDTH: &[&[Chunk<'static>]] = &[&[Chunk {
    pages: &[FIVE_AND_SEVEN],
    told: Told::Bytes(Some(b"\x05\0\0"), None, None),
    ..CHUNK
}]];

const OF_OTHER_WIDTH: &[(&str, &[u8])] = &[("x a:Int8 a>=5", &[5]), ("x a:Int8", ALL_LEFT)];

const FIVE_AND_SEVEN: Page<'static> = Page(2, Absent, Numbers(&[5, 7]));

/// The text `a`, between ends of which one is no text: those of the group, and those of its page.
const NO_TEXT: Told<'static> = Told::Bytes(Some(b"a"), Some(&[0xff]), Some(0));

const NO_TEXT_OF_GROUP: &[&[Chunk<'static>]] = &[&[Chunk {
    column: STRINGS,
    pages: &[Page(1, Absent, Strings(&[b"a"]))],
    told: NO_TEXT,
    ..CHUNK
}]];

const NO_TEXT_OF_PAGE: &[&[Chunk<'static>]] = &[&[Chunk {
    column: STRINGS,
    pages: &[Page(1, Absent, Strings(&[b"a"]))],
    indexes: Indexes::Told(&[NO_TEXT]),
    ..CHUNK
}]];

const OF_NO_TEXT_OF_GROUP: &[(&str, &[u8])] = &[
    ("x s:Utf8 s>=a", &[6]),
    ("x s:Utf8", A_ROW),
    ("x s:Binary s>=0x61", b"\x00group 0 1 0+1\nchunk 1\n0x61\n"),
];

const OF_NO_TEXT_OF_PAGE: &[(&str, &[u8])] = &[("x s:LargeUtf8 s<=b", &[6]), ("x s:Utf8", A_ROW)];

const A_ROW: &[u8] = b"\x00group 0 1 0+1\nchunk 1\n\"a\"\n";

/// The time of 1 millisecond, and an end of which the nanoseconds are no number of 64 bits.
const FAR_END: &[&[Chunk<'static>]] = &[&[Chunk {
    column: TIMES,
    pages: &[Page(1, Absent, Longs(&[1]))],
    told: Told::Longs(1, 72057594037927936),
    ..CHUNK
}]];

const OF_FAR_END: &[(&str, &[u8])] = &[
    ("x t:Timestamp(ns) t>=0", &[7]),
    (
        "x t:Timestamp(ns)",
        b"\x00group 0 1 0+1\nchunk 1\n1000000\n",
    ),
    ("x t:Timestamp(ms) t>=0", b"\x00group 0 1 0+1\nchunk 1\n1\n"),
];

static FILES: [File<'static>; 11] = [
    (TWO_PAGES, OF_TWO_PAGES),
    (AROUND_0, OF_NARROW),
    (NOTHING, OF_NOTHING),
    (LEAST, OF_LEAST),
    (GREATEST, OF_GREATEST),
    (BOTH_NULL, OF_BOTH_NULL),
    (ONE_NULL, OF_ONE_NULL),
    (OTHER_WIDTH, OF_OTHER_WIDTH),
    (NO_TEXT_OF_GROUP, OF_NO_TEXT_OF_GROUP),
    (NO_TEXT_OF_PAGE, OF_NO_TEXT_OF_PAGE),
    (FAR_END, OF_FAR_END),
];

#[test]
fn ends_and_counts(rt: HostRuntime) -> Result<(), Fail> {
    check_files(rt.alloc(), &FILES)
}
