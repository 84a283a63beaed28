//! Which part of a file, or the request, an error of a scan names.
use crate::scanning::{As, Asked, scan};
use crate::values::Ends::{From, Open};
use crate::values::Value::{Number, Text};
use columns_core::{Error, Part};
use files_for_tests::Levels::{Absent, Entries};
use files_for_tests::Values::{Keys, Numbers, Strings};
use files_for_tests::{CHUNK, Chunk, F1, F2, F3, Indexes, Page, STRINGS, Told, file_of};
use std::alloc::{AllocError, Global};
use std::test::*;

/// Bytes of a file, each with its place, and what stands there instead.
type Changes<'a> = &'a [(usize, u8)];

/// What is changed in a file, what is asked of it, and the error.
type Refusal<'a> = (Changes<'a>, &'a [Asked<'a>], Error);

const NUMBERS: &[Asked<'static>] = &[("a", As::Numbers, Open)];

const FROM_10: &[Asked<'static>] = &[("a", As::Numbers, From(Number(10)))];

const NULLS: &[Asked<'static>] = &[("a", As::Nulls, Open)];

const SPARSE_NUMBERS: &[Asked<'static>] = &[("b", As::Numbers, Open)];

const TEXTS: &[Asked<'static>] = &[("s", As::Texts, Open)];

const TEXTS_FROM_A: &[Asked<'static>] = &[("s", As::Texts, From(Text("a")))];

/// Of the first file, which has one page of five numbers in a column `a`.
static OF_ONE_PAGE: [Refusal<'static>; 21] = [
    // The request has no field, one that names no column, one twice, and a bound of another type than its field.
    (&[], &[], Error::InvalidArgumentError(Part::Request)),
    (
        &[],
        SPARSE_NUMBERS,
        Error::InvalidArgumentError(Part::Request),
    ),
    (
        &[],
        &[("a", As::Numbers, Open), ("a", As::Nulls, Open)],
        Error::InvalidArgumentError(Part::Request),
    ),
    (
        &[],
        &[("a", As::Numbers, From(Text("a")))],
        Error::InvalidArgumentError(Part::Request),
    ),
    // The last word, the length of the footer, and a schema of more elements than there are bytes.
    (&[(123, 0x32)], NUMBERS, Error::ExternalFormat(Part::Footer)),
    (&[(116, 0xff)], NUMBERS, Error::ExternalFormat(Part::Footer)),
    (&[(44, 0xfc)], NUMBERS, Error::ExternalFormat(Part::Footer)),
    // Numbers are no texts, and a column that is repeated is not flat.
    (
        &[],
        &[("a", As::Texts, Open)],
        Error::NotYetImplemented(Part::Schema),
    ),
    (&[(59, 4)], NUMBERS, Error::NotYetImplemented(Part::Schema)),
    // A group of 4 rows, and a chunk of 63 bytes that begins at 63, which is read, and of which nothing is read.
    (&[(113, 8)], NUMBERS, Error::ExternalFormat(Part::Group)),
    (
        &[(89, 0x7e), (91, 0x7e)],
        NUMBERS,
        Error::ExternalFormat(Part::Group),
    ),
    (
        &[(89, 0x7e), (91, 0x7e)],
        NULLS,
        Error::ExternalFormat(Part::Group),
    ),
    // A codec, and a chunk that has the field of what is encrypted in place of its own.
    (&[(83, 2)], NUMBERS, Error::NotYetImplemented(Part::Column)),
    (
        &[(72, 0x6c)],
        NUMBERS,
        Error::NotYetImplemented(Part::Column),
    ),
    // A byte that begins no header, an index page, more values than the chunk has, and an encoding that there is not.
    (&[(4, 0xff)], NUMBERS, Error::ExternalFormat(Part::Header)),
    (&[(5, 2)], NUMBERS, Error::ExternalFormat(Part::Header)),
    (&[(12, 0x0c)], NUMBERS, Error::ExternalFormat(Part::Header)),
    (
        &[(14, 0x12)],
        NUMBERS,
        Error::NotYetImplemented(Part::Header),
    ),
    // A page of 4 values that has 20 bytes.
    (&[(12, 8)], NUMBERS, Error::ExternalFormat(Part::Values)),
    // A count of -1 nulls.
    (&[(94, 1)], FROM_10, Error::ExternalFormat(Part::Statistics)),
    // A group of 6 rows whose chunk ends behind a page of 5.
    (
        &[(85, 0x0c), (113, 0x0c)],
        NUMBERS,
        Error::ExternalFormat(Part::Chunk),
    ),
];

/// Of the second, which has three located pages of three numbers each.
static OF_THREE_PAGES: [Refusal<'static>; 15] = [
    // A chunk of 8151 bytes, which is read whole, and by the locations of its pages.
    (&[(212, 0x7f)], NUMBERS, Error::ExternalFormat(Part::Group)),
    (&[(212, 0x7f)], FROM_10, Error::ExternalFormat(Part::Group)),
    // The first page as a dictionary of 4 entries in 12 bytes, and of an encoding that no dictionary has.
    (
        &[(5, 4), (10, 0x4c), (12, 8)],
        NUMBERS,
        Error::ExternalFormat(Part::Dictionary),
    ),
    (
        &[(5, 4), (10, 0x4c), (14, 0x0c)],
        NUMBERS,
        Error::NotYetImplemented(Part::Dictionary),
    ),
    // The second page as a dictionary, and as the key 3 three times, behind a dictionary of three entries.
    (
        &[(34, 4), (39, 0x4c)],
        NUMBERS,
        Error::ExternalFormat(Part::Dictionary),
    ),
    (
        &[(5, 4), (10, 0x4c), (43, 0x10), (50, 8), (51, 6), (52, 3)],
        NUMBERS,
        Error::OutOfSpec(Part::Dictionary),
    ),
    // A byte that begins no column index, and a count of -1 nulls in one.
    (&[(91, 0xff)], FROM_10, Error::ExternalFormat(Part::Index)),
    (&[(134, 1)], FROM_10, Error::ExternalFormat(Part::Index)),
    // A byte that begins no offset index, first rows that fall, and a first row that is not 0.
    (
        &[(138, 0xff)],
        FROM_10,
        Error::ExternalFormat(Part::Location),
    ),
    (
        &[(152, 0x0c), (159, 6)],
        FROM_10,
        Error::ExternalFormat(Part::Location),
    ),
    (&[(145, 2)], FROM_10, Error::ExternalFormat(Part::Location)),
    // A located page without a header, and one of 3 values for 4 rows.
    (
        &[(33, 0xff)],
        FROM_10,
        Error::ExternalFormat(Part::Location),
    ),
    (&[(152, 4)], FROM_10, Error::ExternalFormat(Part::Location)),
    // A column index and an offset index of 8 KiB, past the end of the file.
    (&[(239, 0x7f)], FROM_10, Error::ExternalFormat(Part::Index)),
    (
        &[(234, 0x7f)],
        FROM_10,
        Error::ExternalFormat(Part::Location),
    ),
];

/// Of the third, whose column `b` has nulls: levels that pass their page, a level of 6, and levels of an encoding that is not read.
static OF_NULLS: [Refusal<'static>; 3] = [
    (
        &[(87, 0xff)],
        SPARSE_NUMBERS,
        Error::ExternalFormat(Part::Levels),
    ),
    (
        &[(91, 6)],
        SPARSE_NUMBERS,
        Error::ExternalFormat(Part::Levels),
    ),
    (
        &[(82, 8)],
        SPARSE_NUMBERS,
        Error::NotYetImplemented(Part::Levels),
    ),
];

/// The groups of a file, what is asked of it, and the error.
type OfGroups<'a> = (&'a [&'a [Chunk<'a>]], &'a [Asked<'a>], Error);

const ONE_NUMBER: Chunk<'static> = Chunk {
    pages: &[Page(1, Absent, Numbers(&[10]))],
    ..CHUNK
};

/// A chunk in another file.
const FOREIGN: Chunk<'static> = Chunk {
    path: "x",
    ..ONE_NUMBER
};

/// The text `a`, between ends of which one is no text.
const NO_TEXT: Told<'static> = Told::Bytes(Some(b"a"), Some(b"\xff"), Some(0));

const ONE_TEXT: Chunk<'static> = Chunk {
    column: STRINGS,
    pages: &[Page(1, Absent, Strings(&[b"a"]))],
    ..CHUNK
};

static GROUPS: [OfGroups<'static>; 7] = [
    // Two columns of one name.
    (
        &[&[ONE_NUMBER, ONE_NUMBER]],
        NUMBERS,
        Error::NotYetImplemented(Part::Schema),
    ),
    (
        &[&[FOREIGN]],
        NUMBERS,
        Error::NotYetImplemented(Part::Column),
    ),
    // A value, an entry, an end of a group and an end of a page that are no texts.
    (
        &[&[Chunk {
            pages: &[Page(1, Absent, Strings(&[b"\xff"]))],
            ..ONE_TEXT
        }]],
        TEXTS,
        Error::OutOfSpec(Part::Values),
    ),
    (
        &[&[Chunk {
            pages: &[
                Page(1, Entries, Strings(&[b"\xff"])),
                Page(1, Absent, Keys(&[0])),
            ],
            ..ONE_TEXT
        }]],
        TEXTS,
        Error::OutOfSpec(Part::Dictionary),
    ),
    (
        &[&[Chunk {
            told: NO_TEXT,
            ..ONE_TEXT
        }]],
        TEXTS_FROM_A,
        Error::OutOfSpec(Part::Statistics),
    ),
    (
        &[&[Chunk {
            indexes: Indexes::Told(&[NO_TEXT]),
            ..ONE_TEXT
        }]],
        TEXTS_FROM_A,
        Error::OutOfSpec(Part::Index),
    ),
    // A key past the entries, of texts.
    (
        &[&[Chunk {
            pages: &[
                Page(1, Entries, Strings(&[b"a"])),
                Page(1, Absent, Keys(&[1])),
            ],
            ..ONE_TEXT
        }]],
        TEXTS,
        Error::OutOfSpec(Part::Dictionary),
    ),
];

/// A file of which bytes are changed.
fn changed(alloc: Global, file: &[u8], changes: Changes<'_>) -> Result<Vec<u8>, AllocError> {
    let mut bytes = Vec::from_slice(alloc, file)?;
    for (place, byte) in changes {
        if let Some(found) = bytes.get_mut(*place) {
            *found = *byte;
        }
    }
    Ok(bytes)
}

/// Fails where a scan is answered, or refused by another error.
fn check(alloc: Global, bytes: Vec<u8>, request: &[Asked<'_>], error: Error) -> Result<(), Fail> {
    match scan(alloc, bytes, request) {
        Ok(_) => Err(Fail::new(format_args!("answered in place of {error:?}"))),
        Err(found) if found != error => {
            Err(Fail::new(format_args!("{found:?} in place of {error:?}")))
        }
        Err(_) => Ok(()),
    }
}

fn check_changes(alloc: Global, file: &[u8], refusals: &[Refusal<'_>]) -> Result<(), Fail> {
    for (changes, request, error) in refusals {
        check(alloc, changed(alloc, file, *changes)?, *request, *error)?;
    }
    Ok(())
}

fn check_groups(alloc: Global, refusals: &[OfGroups<'_>]) -> Result<(), Fail> {
    for (groups, request, error) in refusals {
        check(alloc, file_of(alloc, *groups)?, *request, *error)?;
    }
    Ok(())
}

#[test]
fn parts_that_errors_name(rt: HostRuntime) -> Result<(), Fail> {
    let alloc = rt.alloc();
    check_changes(alloc, &F1, &OF_ONE_PAGE)?;
    check_changes(alloc, &F2, &OF_THREE_PAGES)?;
    check_changes(alloc, &F3, &OF_NULLS)?;
    check_groups(alloc, &GROUPS)
}
