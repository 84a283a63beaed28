//! Texts and byte strings: plain, joined behind their lengths, and named by keys.
use crate::running::{File, check_files, check_lines};
use files_for_tests::Levels::{Absent, Entries, First, Second};
use files_for_tests::Values::{Bytes, Keys, Numbers, Strings};
use files_for_tests::{CHUNK, Chunk, Column, Indexes, Page, STRINGS, Told, Values, file_of};
use std::alloc::{AllocError, Global};
use std::test::*;

/// The numbers of encodings.
pub(crate) const PLAIN: usize = 0;

pub(crate) const DELTA_LENGTH: usize = 6;

pub(crate) const BY_KEYS: usize = 8;

/// What a run answers on a file of one group, all of whose rows are given in one chunk: the lines of its cells, or the number of its status.
type Answer = Result<&'static [u8], u8>;

/// The whole answer of a run, of at most 9 rows.
fn whole_answer(alloc: Global, rows: usize, answer: Answer) -> Result<Vec<u8>, AllocError> {
    match answer {
        Ok(lines) => report_on(alloc, rows, lines),
        Err(status) => Vec::from_slice(alloc, &[status]),
    }
}

fn report_on(alloc: Global, rows: usize, lines: &[u8]) -> Result<Vec<u8>, AllocError> {
    let digit = b'0' + (rows % 10) as u8;
    let mut report = Vec::from_slice(alloc, b"\x00group 0 ")?;
    report.extend_from_slice(&[digit, b' ', b'0', b'+', digit])?;
    report.extend_from_slice(b"\nchunk ")?;
    report.extend_from_slice(&[digit, b'\n'])?;
    report.extend_from_slice(lines)?;
    Ok(report)
}

/// The pages of a column of strings, how many rows they have, and the answers to runs that read them as texts and as byte strings.
type Read<'a> = (Column, &'a [Page<'a>], usize, Answer, Answer);

/// What asks for the column as texts and as byte strings, and as keys of each.
static AS_TEXTS: [&str; 2] = ["x s:Utf8", "x s:LargeUtf8"];

static AS_STRINGS: [&str; 2] = ["x s:Binary", "x s:LargeBinary"];

static AS_KEYS_OF_TEXTS: [&str; 2] = [
    "x s:Dictionary(Int32,Utf8)",
    "x s:Dictionary(UInt8,LargeUtf8)",
];

static AS_KEYS_OF_STRINGS: [&str; 2] = [
    "x s:Dictionary(Int8,Binary)",
    "x s:Dictionary(UInt64,LargeBinary)",
];

/// Fails where a column has another answer to lines that read it as texts or as byte strings.
fn check_read(alloc: Global, read: Read<'_>, texts: &[&str], strings: &[&str]) -> Result<(), Fail> {
    let (column, pages, rows, of_texts, of_strings) = read;
    let file = file_of(
        alloc,
        &[&[Chunk {
            column,
            pages,
            ..CHUNK
        }]],
    )?;
    check_lines(alloc, &file, texts, &whole_answer(alloc, rows, of_texts)?)?;
    check_lines(
        alloc,
        &file,
        strings,
        &whole_answer(alloc, rows, of_strings)?,
    )
}

/// Strings that may be null.
const SPARSE: Column = Column {
    is_optional: true,
    ..STRINGS
};

const DAMAGED: Answer = Err(5);

const NOT_VALID: Answer = Err(6);

const NOT_CARRIED: Answer = Err(4);

/// Pages that are plain or joined.
static READS: [Read<'static>; 35] = [
    // The lengths 5, 0 and 3.
    (
        STRINGS,
        &[Page(
            3,
            Absent,
            Bytes(
                DELTA_LENGTH,
                b"\x80\x01\x04\x03\x0a\x09\x04\0\0\0\x80\0\0\0\0\0\0\0\0\0\0\0\0\0\0\0Helloabc",
            ),
        )],
        3,
        Ok(b"\"Hello\"\n\"\"\n\"abc\"\n"),
        Ok(b"0x48656c6c6f\n0x\n0x616263\n"),
    ),
    (
        STRINGS,
        &[Page(
            3,
            Absent,
            Bytes(
                DELTA_LENGTH,
                b"\x80\x01\x04\x03\x0a\x09\x04\0\0\0\x80\0\0\0\0\0\0\0\0\0\0\0\0\0\0\0Helloab",
            ),
        )],
        3,
        DAMAGED,
        DAMAGED,
    ),
    // One length: of 1, before one byte more, before no text and where two rows are wanted; and of -1.
    (
        STRINGS,
        &[Page(1, Absent, Bytes(DELTA_LENGTH, b"\x80\x01\x04\x01\x02ab"))],
        1,
        Ok(b"\"a\"\n"),
        Ok(b"0x61\n"),
    ),
    (
        STRINGS,
        &[Page(1, Absent, Bytes(DELTA_LENGTH, b"\x80\x01\x04\x01\x02\xff"))],
        1,
        NOT_VALID,
        Ok(b"0xff\n"),
    ),
    (
        STRINGS,
        &[Page(2, Absent, Bytes(DELTA_LENGTH, b"\x80\x01\x04\x01\x02a"))],
        2,
        DAMAGED,
        DAMAGED,
    ),
    (
        STRINGS,
        &[Page(1, Absent, Bytes(DELTA_LENGTH, b"\x80\x01\x04\x01\x01"))],
        1,
        DAMAGED,
        DAMAGED,
    ),
    (
        STRINGS,
        &[Page(1, Absent, Bytes(PLAIN, b"\x01\0\0\0\xff"))],
        1,
        NOT_VALID,
        Ok(b"0xff\n"),
    ),
    // A character of two bytes, whole and cut in two, a surrogate and a form that is too long.
    (
        STRINGS,
        &[Page(1, Absent, Bytes(PLAIN, b"\x02\0\0\0\xc3\xa9"))],
        1,
        Ok(b"\"\xc3\xa9\"\n"),
        Ok(b"0xc3a9\n"),
    ),
    (
        STRINGS,
        &[Page(2, Absent, Bytes(PLAIN, b"\x01\0\0\0\xc3\x01\0\0\0\xa9"))],
        2,
        NOT_VALID,
        Ok(b"0xc3\n0xa9\n"),
    ),
    (
        STRINGS,
        &[Page(1, Absent, Bytes(PLAIN, b"\x03\0\0\0\xed\xa0\x80"))],
        1,
        NOT_VALID,
        Ok(b"0xeda080\n"),
    ),
    (
        STRINGS,
        &[Page(1, Absent, Bytes(PLAIN, b"\x02\0\0\0\xc0\x80"))],
        1,
        NOT_VALID,
        Ok(b"0xc080\n"),
    ),
    // Characters that stand for others, and a text that is no null.
    (
        STRINGS,
        &[Page(
            1,
            Absent,
            Bytes(PLAIN, b"\x0b\0\0\0\0\t\n\x1f \"\\~\x7f\xc2\x80"),
        )],
        1,
        Ok(b"\"\\x00\\x09\\x0a\\x1f \\x22\\x5c~\\x7f\xc2\x80\"\n"),
        Ok(b"0x00090a1f20225c7e7fc280\n"),
    ),
    (
        STRINGS,
        &[Page(2, Absent, Bytes(PLAIN, b"\x04\0\0\0null\0\0\0\0"))],
        2,
        Ok(b"\"null\"\n\"\"\n"),
        Ok(b"0x6e756c6c\n0x\n"),
    ),
    // Lengths that pass the page or are cut off, a byte too many, and a row too few.
    (
        STRINGS,
        &[Page(1, Absent, Bytes(PLAIN, b"\xff\xff\xff\xff"))],
        1,
        DAMAGED,
        DAMAGED,
    ),
    (
        STRINGS,
        &[Page(1, Absent, Bytes(PLAIN, b"\xff\xff\xff\x7f"))],
        1,
        DAMAGED,
        DAMAGED,
    ),
    (
        STRINGS,
        &[Page(1, Absent, Bytes(PLAIN, b"\x02\0\0\0a"))],
        1,
        DAMAGED,
        DAMAGED,
    ),
    (
        STRINGS,
        &[Page(1, Absent, Bytes(PLAIN, b"\x01\0\0"))],
        1,
        DAMAGED,
        DAMAGED,
    ),
    (
        STRINGS,
        &[Page(1, Absent, Bytes(PLAIN, b"\x01\0\0\0ab"))],
        1,
        DAMAGED,
        DAMAGED,
    ),
    (
        STRINGS,
        &[Page(2, Absent, Bytes(PLAIN, b"\x01\0\0\0a"))],
        2,
        DAMAGED,
        DAMAGED,
    ),
    // Keys without a dictionary, and encodings that are not read.
    (
        STRINGS,
        &[Page(1, Absent, Bytes(BY_KEYS, b"\x01\x02\0"))],
        1,
        NOT_CARRIED,
        NOT_CARRIED,
    ),
    (
        STRINGS,
        &[Page(1, Absent, Bytes(3, b"\x01\0\0\0a"))],
        1,
        NOT_CARRIED,
        NOT_CARRIED,
    ),
    (
        STRINGS,
        &[Page(1, Absent, Bytes(5, b"\x80\x01\x04\x01\x02"))],
        1,
        NOT_CARRIED,
        NOT_CARRIED,
    ),
    (
        STRINGS,
        &[Page(1, Absent, Bytes(7, b"\x01\0\0\0a"))],
        1,
        NOT_CARRIED,
        NOT_CARRIED,
    ),
    (
        STRINGS,
        &[Page(1, Absent, Bytes(9, b"\x01\0\0\0a"))],
        1,
        NOT_CARRIED,
        NOT_CARRIED,
    ),
    // A character that the end of a page cuts in two.
    (
        STRINGS,
        &[
            Page(1, Absent, Strings(&[b"\xc3"])),
            Page(1, Absent, Strings(&[b"\xa9"])),
        ],
        2,
        NOT_VALID,
        Ok(b"0xc3\n0xa9\n"),
    ),
    // The strings `a`, none, a tab and a character of two bytes between two nulls, in each encoding and in pages of both forms.
    (
        SPARSE,
        &[Page(6, First(SIX_LEVELS), FOUR_PLAIN)],
        6,
        SIX_TEXTS,
        SIX_STRINGS,
    ),
    (
        SPARSE,
        &[Page(6, Second(SIX_LEVELS), FOUR_PLAIN)],
        6,
        SIX_TEXTS,
        SIX_STRINGS,
    ),
    (
        SPARSE,
        &[Page(6, First(SIX_LEVELS), FOUR_JOINED)],
        6,
        SIX_TEXTS,
        SIX_STRINGS,
    ),
    (
        SPARSE,
        &[Page(6, Second(SIX_LEVELS), FOUR_JOINED)],
        6,
        SIX_TEXTS,
        SIX_STRINGS,
    ),
    (
        SPARSE,
        &[FOUR_ENTRIES, Page(6, First(SIX_LEVELS), FOUR_KEYS)],
        6,
        SIX_TEXTS,
        SIX_STRINGS,
    ),
    (
        SPARSE,
        &[FOUR_ENTRIES, Page(6, Second(SIX_LEVELS), FOUR_KEYS)],
        6,
        SIX_TEXTS,
        SIX_STRINGS,
    ),
    // A null cuts a character in two; and where all rows are null, no bytes are looked at.
    (
        SPARSE,
        &[Page(3, First(b"\x03\x05"), Strings(&[b"\xc3", b"\xa9"]))],
        3,
        NOT_VALID,
        Ok(b"0xc3\nnull\n0xa9\n"),
    ),
    (
        SPARSE,
        &[Page(3, Second(b"\x03\x05"), Strings(&[b"\xc3", b"\xa9"]))],
        3,
        NOT_VALID,
        Ok(b"0xc3\nnull\n0xa9\n"),
    ),
    (
        SPARSE,
        &[Page(2, First(b"\x04\0"), Bytes(PLAIN, b"\xff\xff"))],
        2,
        Ok(b"null\nnull\n"),
        Ok(b"null\nnull\n"),
    ),
    (
        SPARSE,
        &[Page(2, Second(b"\x04\0"), Bytes(PLAIN, b"\xff\xff"))],
        2,
        Ok(b"null\nnull\n"),
        Ok(b"null\nnull\n"),
    ),
];

const SIX_LEVELS: &[u8] = b"\x03\x2d";

const FOUR_ENTRIES: Page<'static> = Page(4, Entries, FOUR_PLAIN);

const FOUR_PLAIN: Values<'static> = Strings(&[b"a", b"", b"\t", b"\xc3\xa9"]);

const FOUR_JOINED: Values<'static> = Bytes(
    DELTA_LENGTH,
    b"\x80\x01\x04\x04\x02\x01\x02\0\0\0\x28\0\0\0\0\0\0\0a\t\xc3\xa9",
);

const FOUR_KEYS: Values<'static> = Keys(&[0, 1, 2, 3]);

const SIX_TEXTS: Answer = Ok(b"\"a\"\nnull\n\"\"\n\"\\x09\"\nnull\n\"\xc3\xa9\"\n");

const SIX_STRINGS: Answer = Ok(b"0x61\nnull\n0x\n0x09\nnull\n0xc3a9\n");

/// Dictionaries and keys.
static READS_BY_KEYS: [Read<'static>; 11] = [
    (
        STRINGS,
        &[
            Page(
                3,
                Entries,
                Bytes(PLAIN, b"\x01\0\0\0x\x01\0\0\0y\x01\0\0\0z"),
            ),
            Page(2, Absent, Bytes(BY_KEYS, b"\x02\x04\x02")),
        ],
        2,
        Ok(b"\"z\"\n\"z\"\n"),
        Ok(b"0x7a\n0x7a\n"),
    ),
    (
        STRINGS,
        &[
            Page(
                3,
                Entries,
                Bytes(PLAIN, b"\x01\0\0\0x\x01\0\0\0y\x01\0\0\0z"),
            ),
            Page(2, Absent, Bytes(BY_KEYS, b"\x02\x04\x03")),
        ],
        2,
        NOT_VALID,
        NOT_VALID,
    ),
    (
        STRINGS,
        &[
            Page(0, Entries, Bytes(PLAIN, b"")),
            Page(1, Absent, Bytes(BY_KEYS, b"\x02\x02\0")),
        ],
        1,
        NOT_VALID,
        NOT_VALID,
    ),
    // An entry that is no text and has no key, and a character that is cut in two.
    (
        STRINGS,
        &[
            Page(2, Entries, Bytes(PLAIN, b"\x01\0\0\0x\x01\0\0\0\xff")),
            Page(1, Absent, Bytes(BY_KEYS, b"\x02\x02\0")),
        ],
        1,
        NOT_VALID,
        Ok(b"0x78\n"),
    ),
    (
        STRINGS,
        &[
            Page(2, Entries, Bytes(PLAIN, b"\x01\0\0\0\xc3\x01\0\0\0\xa9")),
            Page(1, Absent, Bytes(BY_KEYS, b"\x02\x02\x01")),
        ],
        1,
        NOT_VALID,
        Ok(b"0xa9\n"),
    ),
    // A byte too many, an entry too few, and lengths that pass the page.
    (
        STRINGS,
        &[
            Page(1, Entries, Bytes(PLAIN, b"\x01\0\0\0xy")),
            Page(1, Absent, Bytes(BY_KEYS, b"\x02\x02\0")),
        ],
        1,
        DAMAGED,
        DAMAGED,
    ),
    (
        STRINGS,
        &[
            Page(2, Entries, Bytes(PLAIN, b"\x01\0\0\0x")),
            Page(1, Absent, Bytes(BY_KEYS, b"\x02\x02\0")),
        ],
        1,
        DAMAGED,
        DAMAGED,
    ),
    (
        STRINGS,
        &[
            Page(1, Entries, Bytes(PLAIN, b"\xff\xff\xff\xff")),
            Page(1, Absent, Bytes(BY_KEYS, b"\x02\x02\0")),
        ],
        1,
        DAMAGED,
        DAMAGED,
    ),
    (
        STRINGS,
        &[
            Page(1, Entries, Bytes(PLAIN, b"\x02\0\0\0x")),
            Page(1, Absent, Bytes(BY_KEYS, b"\x02\x02\0")),
        ],
        1,
        DAMAGED,
        DAMAGED,
    ),
    // The older number of the encoding, and one that no dictionary has.
    (
        STRINGS,
        &[
            Page(1, Entries, Bytes(2, b"\x01\0\0\0x")),
            Page(1, Absent, Bytes(BY_KEYS, b"\x02\x02\0")),
        ],
        1,
        Ok(b"\"x\"\n"),
        Ok(b"0x78\n"),
    ),
    (
        STRINGS,
        &[
            Page(1, Entries, Bytes(DELTA_LENGTH, b"\x80\x01\x04\x01\x02x")),
            Page(1, Absent, Bytes(BY_KEYS, b"\x02\x02\0")),
        ],
        1,
        NOT_CARRIED,
        NOT_CARRIED,
    ),
];

#[test]
fn strings(rt: HostRuntime) -> Result<(), Fail> {
    for read in READS.iter() {
        check_read(rt.alloc(), *read, &AS_TEXTS, &AS_STRINGS)?;
    }
    Ok(())
}

#[test]
fn strings_by_keys(rt: HostRuntime) -> Result<(), Fail> {
    for read in READS_BY_KEYS.iter() {
        check_read(rt.alloc(), *read, &AS_TEXTS, &AS_STRINGS)?;
        check_read(rt.alloc(), *read, &AS_KEYS_OF_TEXTS, &AS_KEYS_OF_STRINGS)?;
    }
    Ok(())
}

/// A text and a string that is none in one page, and a page that is damaged.
const TEXT_AND_NONE: &[&[Chunk<'static>]] = &[&[Chunk {
    column: STRINGS,
    pages: &[
        Page(2, Absent, Strings(&[b"a", b"\xff"])),
        Page(1, Absent, Bytes(PLAIN, b"\x02\0\0\0c")),
    ],
    ..CHUNK
}]];

const BEHIND_A_TEXT: &[(&str, &[u8])] = &[
    ("x s:Utf8 --limit 1", b"\x00group 0 3 0+3\nchunk 1\n\"a\"\n"),
    ("x s:Utf8 --limit 2", &[6]),
    (
        "x s:Binary --limit 2 --chunk 1",
        b"\x00group 0 3 0+3\nchunk 1\n0x61\nchunk 1\n0xff\n",
    ),
    ("x s:Binary --limit 3", &[5]),
    ("x s:Utf8 --limit 0", b"\x00group 0 3 0+3\n"),
    (
        "x s:Null",
        b"\x00group 0 3 0+3\nchunk 3\nnull\nnull\nnull\n",
    ),
];

/// A page is opened whole: a length that passes it, behind a text; and a key past the entries, behind one that is not.
const LONG_STRING: &[&[Chunk<'static>]] = &[&[Chunk {
    column: STRINGS,
    pages: &[Page(2, Absent, Bytes(PLAIN, b"\x01\0\0\0a\x02\0\0\0b"))],
    ..CHUNK
}]];

const BEFORE_A_LENGTH: &[(&str, &[u8])] = &[
    ("x s:Utf8 --limit 1", &[5]),
    ("x s:Binary --limit 1", &[5]),
];

const LATE_KEY: &[&[Chunk<'static>]] = &[&[Chunk {
    column: STRINGS,
    pages: &[
        Page(1, Entries, Strings(&[b"x"])),
        Page(2, Absent, Keys(&[0, 1])),
    ],
    ..CHUNK
}]];

const BEFORE_A_KEY: &[(&str, &[u8])] = &[
    ("x s:Utf8 --limit 1", &[6]),
    ("x s:Binary --limit 1", &[6]),
    ("x s:Utf8 --limit 0", b"\x00group 0 2 0+2\n"),
];

/// Groups of the numbers 1, 2 and 5, 6, beside a text, a string that is none, and two texts.
const TWO_GROUPS: &[&[Chunk<'static>]] = &[
    &[
        Chunk {
            pages: &[Page(2, Absent, Numbers(&[1, 2]))],
            told: Told::Ends(1, 2),
            ..CHUNK
        },
        Chunk {
            column: STRINGS,
            pages: &[Page(2, Absent, Strings(&[b"a", b"\xff"]))],
            ..CHUNK
        },
    ],
    &[
        Chunk {
            pages: &[Page(2, Absent, Numbers(&[5, 6]))],
            told: Told::Ends(5, 6),
            ..CHUNK
        },
        Chunk {
            column: STRINGS,
            pages: &[Page(2, Absent, Strings(&[b"c", b""]))],
            ..CHUNK
        },
    ],
];

const OF_TWO_GROUPS: &[(&str, &[u8])] = &[
    (
        "x s:Utf8 a:Int32 a>=5",
        b"\x00group 0 2 -\ngroup 1 2 0+2\nchunk 2\n\"c\"\t5\n\"\"\t6\n",
    ),
    ("x a:Int32 s:Utf8 a<=5", &[6]),
    (
        "x a:Int32 s:Binary a<=2",
        b"\x00group 0 2 0+2\ngroup 1 2 -\nchunk 2\n1\t0x61\n2\t0xff\n",
    ),
    (
        "x s:LargeUtf8 --limit 1",
        b"\x00group 0 2 0+2\ngroup 1 2 0+2\nchunk 1\n\"a\"\n",
    ),
    ("x s:Utf8 s>=a", &[6]),
];

/// The numbers 1, 2, 3 and 10, 11, 12 in two located pages.
const SIX_NUMBERS: Chunk<'static> = Chunk {
    pages: &[
        Page(3, Absent, Numbers(&[1, 2, 3])),
        Page(3, Absent, Numbers(&[10, 11, 12])),
    ],
    told: Told::Ends(1, 12),
    indexes: Indexes::Told(&[Told::Ends(1, 3), Told::Ends(10, 12)]),
    ..CHUNK
};

/// Strings in three located pages: two by keys, three joined, of which the first is no text, and one plain.
const LAST_IS_TEXT: &[&[Chunk<'static>]] = &[&[
    SIX_NUMBERS,
    Chunk {
        column: STRINGS,
        pages: &[
            TWO_ENTRIES,
            TWO_KEYS,
            THREE_JOINED,
            Page(1, Absent, Bytes(PLAIN, b"\x01\0\0\0u")),
        ],
        indexes: Indexes::Locations,
        ..CHUNK
    },
]];

/// The same where the last page is no text, and where it is damaged.
const LAST_IS_NONE: &[&[Chunk<'static>]] = &[&[
    SIX_NUMBERS,
    Chunk {
        column: STRINGS,
        pages: &[
            TWO_ENTRIES,
            TWO_KEYS,
            THREE_JOINED,
            Page(1, Absent, Bytes(PLAIN, b"\x01\0\0\0\xff")),
        ],
        indexes: Indexes::Locations,
        ..CHUNK
    },
]];

const LAST_IS_DAMAGED: &[&[Chunk<'static>]] = &[&[
    SIX_NUMBERS,
    Chunk {
        column: STRINGS,
        pages: &[
            TWO_ENTRIES,
            TWO_KEYS,
            THREE_JOINED,
            Page(1, Absent, Bytes(PLAIN, b"\x02\0\0\0u")),
        ],
        indexes: Indexes::Locations,
        ..CHUNK
    },
]];

const TWO_ENTRIES: Page<'static> = Page(2, Entries, Strings(&[b"p", b"q"]));

const TWO_KEYS: Page<'static> = Page(2, Absent, Keys(&[0, 1]));

const THREE_JOINED: Page<'static> = Page(
    3,
    Absent,
    Bytes(
        DELTA_LENGTH,
        b"\x80\x01\x04\x03\x02\0\x01\0\0\0\x02\0\0\0\xffstt",
    ),
);

const OF_LOCATED_PAGES: &[(&str, &[u8])] = &[
    (
        "x a:Int32 s:Utf8 a>=10",
        b"\x00group 0 6 3+3\nchunk 3\n10\t\"s\"\n11\t\"tt\"\n12\t\"u\"\n",
    ),
    (
        "x s:LargeUtf8 a:Int32 a>=10 --chunk 2",
        b"\x00group 0 6 3+3\nchunk 2\n\"s\"\t10\n\"tt\"\t11\nchunk 1\n\"u\"\t12\n",
    ),
    // The dictionary is opened too, though no key is read.
    (
        "x a:Int32 s:Utf8 a>=10 --summary",
        b"\x00group 0 6 3+3\nrows 3\npages 4\n",
    ),
    ("x a:Int32 s:Utf8 a<=3", &[6]),
    (
        "x a:Int32 s:Utf8 a<=3 --limit 2",
        b"\x00group 0 6 0+3\nchunk 2\n1\t\"p\"\n2\t\"q\"\n",
    ),
    (
        "x s:Binary --chunk 4 --limit 5",
        b"\x00group 0 6 0+6\nchunk 4\n0x70\n0x71\n0xff\n0x73\nchunk 1\n0x7474\n",
    ),
];

/// What runs answer whatever the last page holds, since it holds no row that is given.
const BEFORE_THE_LAST_PAGE: &[(&str, &[u8])] = &[
    (
        "x a:Int32 s:Utf8 a>=10 --limit 2",
        b"\x00group 0 6 3+3\nchunk 2\n10\t\"s\"\n11\t\"tt\"\n",
    ),
    (
        "x a:Int32 s:Utf8 a>=10 --limit 2 --summary",
        b"\x00group 0 6 3+3\nrows 2\npages 3\n",
    ),
    (
        "x a:Int32 s:Binary a<=3",
        b"\x00group 0 6 0+3\nchunk 3\n1\t0x70\n2\t0x71\n3\t0xff\n",
    ),
];

const OF_NO_TEXT: &[(&str, &[u8])] = &[("x a:Int32 s:Utf8 a>=10", &[6])];

const OF_DAMAGE: &[(&str, &[u8])] = &[("x a:Int32 s:Utf8 a>=10", &[5])];

static FILES: [File<'static>; 10] = [
    (TEXT_AND_NONE, BEHIND_A_TEXT),
    (LONG_STRING, BEFORE_A_LENGTH),
    (LATE_KEY, BEFORE_A_KEY),
    (TWO_GROUPS, OF_TWO_GROUPS),
    (LAST_IS_TEXT, OF_LOCATED_PAGES),
    (LAST_IS_TEXT, BEFORE_THE_LAST_PAGE),
    (LAST_IS_NONE, BEFORE_THE_LAST_PAGE),
    (LAST_IS_NONE, OF_NO_TEXT),
    (LAST_IS_DAMAGED, BEFORE_THE_LAST_PAGE),
    (LAST_IS_DAMAGED, OF_DAMAGE),
];

#[test]
fn strings_in_parts(rt: HostRuntime) -> Result<(), Fail> {
    check_files(rt.alloc(), &FILES)
}
