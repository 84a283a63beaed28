//! Files that lie: parts that are replaced in sound files, and pages, dictionaries and places that no sound file has.
use crate::running::{File, Lie, check_files, check_lies};
use files_for_tests::Levels::{Absent, Entries};
use files_for_tests::Values::{Bytes, Keys, Numbers};
use files_for_tests::{CHUNK, Chunk, Column, F0, F1, F2, Indexes, NUMBERS, Page, Stored, Told};
use parquet_sample::sample_file;
use std::test::*;

/// What asks for the first file by both ends, and the second from its second page on.
const BOTH_ENDS: &str = "x a:Int32 a>=12 a<=18";

const FROM_10: &str = "x a:Int32 a>=10";

const ALL_ROWS: &[u8] = b"\x00group 0 5 0+5\nchunk 5\n10\n12\n15\n18\n20\n";

/// Bytes of the first file, a file of one page.
static LIES: [Lie<'static>; 25] = [
    // The magic, and the length of the footer.
    (&[(123, 124, &[0x32])], BOTH_ENDS, &[5]),
    (
        &[
            (116, 117, &[0xff]),
            (117, 118, &[0xff]),
            (118, 119, &[0xff]),
            (119, 120, &[0x7f]),
        ],
        BOTH_ENDS,
        &[5],
    ),
    // A schema of 72 elements, of which 70 bytes are left.
    (&[(44, 45, &[0xfc])], BOTH_ENDS, &[5]),
    // A group of 4 rows.
    (&[(113, 114, &[0x08])], BOTH_ENDS, &[5]),
    // A page of 6 values, of 4, with a body of 63 bytes, and of -20.
    (&[(12, 13, &[0x0c])], BOTH_ENDS, &[5]),
    (&[(12, 13, &[0x08])], BOTH_ENDS, &[5]),
    (&[(9, 10, &[0x7e])], BOTH_ENDS, &[5]),
    (&[(9, 10, &[0x27])], BOTH_ENDS, &[5]),
    // A chunk of 36 bytes, and one that begins at 63.
    (&[(89, 90, &[0x48])], BOTH_ENDS, &[5]),
    (&[(91, 92, &[0x7e])], BOTH_ENDS, &[5]),
    // An encoding that is none of ours, and keys without a dictionary.
    (&[(14, 15, &[0x12])], BOTH_ENDS, &[4]),
    (&[(14, 15, &[0x10])], BOTH_ENDS, &[4]),
    // An index page, and a dictionary page without its header.
    (&[(5, 6, &[0x02])], BOTH_ENDS, &[5]),
    (&[(5, 6, &[0x04])], BOTH_ENDS, &[5]),
    // A count of -1 nulls, which matters where the field is bounded.
    (&[(94, 95, &[0x01])], BOTH_ENDS, &[5]),
    (&[(94, 95, &[0x01])], "x a:Int32", ALL_ROWS),
    // A least value of 30 above the greatest of 20 is true of no rows.
    (&[(103, 104, &[0x1e])], BOTH_ENDS, b"\x00group 0 5 -\n"),
    // Chunks of 37, 121, 122 and 200 bytes at the place 4 of a file of 125.
    (
        &[(89, 90, &[0xca, 0x00]), (116, 117, &[76])],
        BOTH_ENDS,
        ALL_ROWS,
    ),
    (
        &[(89, 90, &[0xf2, 0x01]), (116, 117, &[76])],
        BOTH_ENDS,
        ALL_ROWS,
    ),
    (
        &[(89, 90, &[0xf4, 0x01]), (116, 117, &[76])],
        BOTH_ENDS,
        &[5],
    ),
    (
        &[(89, 90, &[0x90, 0x03]), (116, 117, &[76])],
        BOTH_ENDS,
        &[5],
    ),
    // 32 and 33 lists in each other, in a field of the footer that nobody reads: so many are passed over, and one more is too deep.
    (
        &[
            (115, 115, &[0x19; 32]),
            (115, 115, &[0x03]),
            (116, 117, &[108]),
        ],
        BOTH_ENDS,
        ALL_ROWS,
    ),
    (
        &[
            (115, 115, &[0x19; 33]),
            (115, 115, &[0x03]),
            (116, 117, &[109]),
        ],
        BOTH_ENDS,
        &[5],
    ),
    // A compressed chunk, and the file as it is.
    (&[(83, 84, &[0x02])], "x a:Int32", &[4]),
    (&[], BOTH_ENDS, ALL_ROWS),
];

/// Bytes of the second file, a file of three located pages of three rows each.
static LIES_OF_LOCATIONS: [Lie<'static>; 5] = [
    // The second page is said to begin at row 2, and so to have 4 rows: that matters where it is opened.
    (&[(152, 153, &[0x04])], FROM_10, &[5]),
    (
        &[(152, 153, &[0x04])],
        "x a:Int32 a>=13",
        b"\x00group 0 9 -\n",
    ),
    // First rows 0, 6, 3, then 1, 3, 6, and two locations for three pages.
    (&[(152, 153, &[0x0c]), (159, 160, &[0x06])], FROM_10, &[5]),
    (&[(145, 146, &[0x02])], FROM_10, &[5]),
    (&[(139, 140, &[0x2c])], FROM_10, &[5]),
];

/// Eleven bytes of a file.
static TOO_SHORT: [Lie<'static>; 1] = [(&[(11, 40, &[])], "x a:Int32", &[5])];

/// Numbers that may be null.
const SPARSE: Column = Column {
    is_optional: true,
    ..NUMBERS
};

/// Pages of two numbers that may be null: with a level of 2, and with a length of levels past the body.
const LEVEL_OF_2: &[&[Chunk<'static>]] = &[&[Chunk {
    column: SPARSE,
    pages: &[Page(2, Absent, Bytes(0, b"\x02\0\0\0\x04\x02"))],
    ..CHUNK
}]];

const LONG_LEVELS: &[&[Chunk<'static>]] = &[&[Chunk {
    column: SPARSE,
    pages: &[Page(2, Absent, Bytes(0, b"\xff\0\0\0\x03\x0d"))],
    ..CHUNK
}]];

const DAMAGED: &[(&str, &[u8])] = &[("x a:Int32", &[5])];

/// Keys of a dictionary of three entries: those of all of them, one past them, and one far past them.
const SOUND_KEYS: &[&[Chunk<'static>]] = &[&[Chunk {
    pages: &[THREE_NUMBERS, Page(3, Absent, Keys(&[2, 1, 0]))],
    ..CHUNK
}]];

const LATE_KEYS: &[&[Chunk<'static>]] = &[&[Chunk {
    pages: &[THREE_NUMBERS, Page(3, Absent, Keys(&[2, 1, 3]))],
    ..CHUNK
}]];

const FAR_KEYS: &[&[Chunk<'static>]] = &[&[Chunk {
    pages: &[THREE_NUMBERS, Page(3, Absent, Keys(&[255, 1, 0]))],
    ..CHUNK
}]];

const THREE_NUMBERS: Page<'static> = Page(3, Entries, Numbers(&[5, 7, 9]));

const OF_SOUND_KEYS: &[(&str, &[u8])] = &[("x a:Int32", b"\x00group 0 3 0+3\nchunk 3\n9\n7\n5\n")];

const NOT_VALID: &[(&str, &[u8])] = &[("x a:Int32", &[6])];

/// Two pages, between which a dictionary stands.
const LATE_DICTIONARY: &[&[Chunk<'static>]] = &[&[Chunk {
    pages: &[
        Page(2, Absent, Numbers(&[1, 2])),
        Page(2, Entries, Numbers(&[5, 9])),
        Page(2, Absent, Numbers(&[3, 4])),
    ],
    ..CHUNK
}]];

const OF_LATE_DICTIONARY: &[(&str, &[u8])] = &[
    ("x a:Int32", &[5]),
    ("x a:Int32 --limit 2", b"\x00group 0 4 0+4\nchunk 2\n1\n2\n"),
];

/// A dictionary of the numbers 5 and 9, and two located pages of two keys each.
const LOCATED_KEYS: &[&[Chunk<'static>]] = &[&[Chunk {
    pages: &[
        Page(2, Entries, Numbers(&[5, 9])),
        Page(2, Absent, Keys(&[0, 1])),
        Page(2, Absent, Keys(&[1, 1])),
    ],
    indexes: Indexes::Told(&[Told::Ends(5, 9), Told::Ends(9, 9)]),
    ..CHUNK
}]];

const OF_LOCATED_KEYS: &[(&str, &[u8])] = &[
    ("x a:Int32 a<=8", b"\x00group 0 4 0+2\nchunk 2\n5\n9\n"),
    (
        "x a:Int32 a<=8 --summary",
        b"\x00group 0 4 0+2\nrows 2\npages 2\n",
    ),
];

/// A dictionary of one pair of bytes, and two located pages of two pairs each; and the same with half an entry.
const LOCATED_PAIRS: &[&[Chunk<'static>]] = &[&[Chunk {
    pages: &[
        Page(1, Entries, Bytes(0, b"\x07\x08")),
        LOW_PAIRS,
        HIGH_PAIRS,
    ],
    ..PAIRS
}]];

const HALF_AN_ENTRY: &[&[Chunk<'static>]] = &[&[Chunk {
    pages: &[Page(1, Entries, Bytes(0, b"\x07")), LOW_PAIRS, HIGH_PAIRS],
    ..PAIRS
}]];

const LOW_PAIRS: Page<'static> = Page(2, Absent, Bytes(0, b"\x00\x01\x00\x02"));

const HIGH_PAIRS: Page<'static> = Page(2, Absent, Bytes(0, b"\x01\x01\x01\x02"));

const PAIRS: Chunk<'static> = Chunk {
    column: Column {
        name: "f",
        stored: Stored::Fixed(2),
        is_optional: false,
    },
    pages: &[],
    told: Told::Nothing,
    indexes: Indexes::Told(&[
        Told::Bytes(Some(b"\x00\x01"), Some(b"\x00\x02"), Some(0)),
        Told::Bytes(Some(b"\x01\x01"), Some(b"\x01\x02"), Some(0)),
    ]),
    path: "",
};

/// The dictionary is opened with the first page, though no key is read.
const OF_LOCATED_PAIRS: &[(&str, &[u8])] = &[
    (
        "x f:FixedSizeBinary(2) f<=0x00ff",
        b"\x00group 0 4 0+2\nchunk 2\n0x0001\n0x0002\n",
    ),
    (
        "x f:FixedSizeBinary(2) f<=0x00ff --summary",
        b"\x00group 0 4 0+2\nrows 2\npages 2\n",
    ),
];

const OF_HALF_AN_ENTRY: &[(&str, &[u8])] = &[("x f:FixedSizeBinary(2) f<=0x00ff", &[5])];

static FILES: [File<'static>; 9] = [
    (LEVEL_OF_2, DAMAGED),
    (LONG_LEVELS, DAMAGED),
    (SOUND_KEYS, OF_SOUND_KEYS),
    (LATE_KEYS, NOT_VALID),
    (FAR_KEYS, NOT_VALID),
    (LATE_DICTIONARY, OF_LATE_DICTIONARY),
    (LOCATED_KEYS, OF_LOCATED_KEYS),
    (LOCATED_PAIRS, OF_LOCATED_PAIRS),
    (HALF_AN_ENTRY, OF_HALF_AN_ENTRY),
];

/// Parts of a sample of 2,000 rows of which each bit is set. The second page of `id` stands at 8024, the body of the first page of `qty` at
/// 16064, and its second page at 18398.
static BROKEN: [Lie<'static>; 4] = [
    (&[(16064, 18398, &[0xff; 2334])], FROM_ROW_1000, SOME_ROWS),
    (&[(18398, 18399, &[0xff])], FROM_ROW_1000, &[5]),
    (
        &[(8024, 16044, &[0xff; 8020])],
        "x id:Int64 --limit 3",
        b"\x00group 0 2000 0+2000\nchunk 3\n0\n1\n2\n",
    ),
    (
        &[(8024, 16044, &[0xff; 8020])],
        "x id:Int64 --limit 1001",
        &[5],
    ),
];

const FROM_ROW_1000: &str = "x qty:Int32 id:Int64 id>=1500 --limit 3";

const SOME_ROWS: &[u8] = b"\x00group 0 2000 1000+1000\nchunk 3\nnull\t1000\n1\t1001\n2\t1002\n";

#[test]
fn files_that_lie(rt: HostRuntime) -> Result<(), Fail> {
    let alloc = rt.alloc();
    check_lies(alloc, &F0, &TOO_SHORT)?;
    check_lies(alloc, &F1, &LIES)?;
    check_lies(alloc, &F2, &LIES_OF_LOCATIONS)?;
    check_files(alloc, &FILES)
}

#[test]
fn pages_that_are_not_opened(rt: HostRuntime) -> Result<(), Fail> {
    let alloc = rt.alloc();
    check_lies(alloc, &sample_file(alloc, 2000, 0)?, &BROKEN)
}
