//! What is not put, and which error says so.
use crate::asked::Column;
use crate::putting::{Put, put_as};
use columns_core::{Error, Part};
use std::test::Fail;

/// The fields that are asked for, what is put, and the error.
type Refusal<'a> = (&'a [Column<'a>], Put<'a>, Error);

const MISFIT: Error = Error::InvalidArgumentError(Part::Request);

const NOT_WRITTEN: Error = Error::NotYetImplemented(Part::Schema);

const NUMBERS: Put<'static> = Put {
    columns: &[("a", "Int32", true)],
    chunks: &[&[&["10", "12"]], &[&["15", "null"]]],
    page_rows: 2,
};

const NOTHING: Put<'static> = Put {
    columns: &[],
    chunks: &[],
    page_rows: 2,
};

const IN_NO_PAGES: Put<'static> = Put {
    columns: &[("a", "Int32", false)],
    chunks: &[&[&["10", "12", "15", "18", "20"]]],
    page_rows: 0,
};

const TEXTS_BESIDE: Put<'static> = Put {
    columns: &[("s", "Utf8", true), ("a", "Int32", true)],
    chunks: &[&[&["x"], &["1"]]],
    page_rows: 2,
};

const MONTHS: Put<'static> = Put {
    columns: &[("m", "Interval(YearMonth)", true)],
    chunks: &[&[&["null"]]],
    page_rows: 2,
};

static REFUSALS: [Refusal<'static>; 19] = [
    // No field, two of one name, and pages without rows.
    (&[], NOTHING, MISFIT),
    (
        &[("a", "Int32", true), ("a", "Utf8", true)],
        NOTHING,
        MISFIT,
    ),
    (&[("a", "Int32", false)], IN_NO_PAGES, MISFIT),
    // Arrays of another type, of one that is stored alike, in another order, too many and too few.
    (&[("a", "Int64", true)], NUMBERS, MISFIT),
    (&[("a", "Date32", true)], NUMBERS, MISFIT),
    (
        &[("a", "Int32", true), ("s", "Utf8", true)],
        TEXTS_BESIDE,
        MISFIT,
    ),
    (&[("s", "Utf8", true)], TEXTS_BESIDE, MISFIT),
    (
        &[("a", "Int32", true), ("b", "Int32", true)],
        NUMBERS,
        MISFIT,
    ),
    (&[], NUMBERS, MISFIT),
    // A null where there may be none, in the last chunk.
    (&[("a", "Int32", false)], NUMBERS, MISFIT),
    // Types that are not written, alone and beside one that is.
    (&[("a", "Null", true)], NOTHING, NOT_WRITTEN),
    (&[("m", "Interval(YearMonth)", true)], MONTHS, NOT_WRITTEN),
    (&[("d", "Interval(DayTime)", true)], NOTHING, NOT_WRITTEN),
    (
        &[("k", "Dictionary(Int8,Utf8)", true)],
        NOTHING,
        NOT_WRITTEN,
    ),
    (&[("f", "FixedSizeBinary(0)", true)], NOTHING, NOT_WRITTEN),
    (
        &[("f", "FixedSizeBinary(2147483648)", true)],
        NOTHING,
        NOT_WRITTEN,
    ),
    (
        &[("a", "Int32", true), ("n", "Null", true)],
        NOTHING,
        NOT_WRITTEN,
    ),
    // What does not fit together is told before a type that is not written.
    (
        &[("n", "Null", true), ("n", "Int32", true)],
        NOTHING,
        MISFIT,
    ),
    (&[("m", "Interval(DayTime)", true)], MONTHS, MISFIT),
];

#[test]
fn what_is_not_put(rt: HostRuntime) -> Result<(), Fail> {
    for (row, (fields, put, error)) in REFUSALS.iter().enumerate() {
        let answer = put_as(rt.alloc(), fields, *put)?;
        assert_eq!(rt; answer.err(), Some(*error), "row {row}");
    }
    Ok(())
}
