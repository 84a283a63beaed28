//! Which items meet a bound, and which rows it keeps by what is known of them.
use crate::values::Ends::{Between, From, Open, To};
use crate::values::Value::{Bytes, Number, Text};
use crate::values::{Ends, Value, bound_of, item_of};
use parquet_scan::{keeps, meets};
use std::alloc::{AllocError, Global};
use std::test::*;

/// A bound, an item, and whether it meets the bound.
type Met<'a> = (Ends<'a>, Option<Value<'a>>, bool);

static MET: [Met<'static>; 29] = [
    // A null meets no bound.
    (Open, None, false),
    (Between(Number(10), Number(20)), None, false),
    // Numbers lie between the ends that are given, or are one of them.
    (Between(Number(10), Number(20)), Some(Number(9)), false),
    (Between(Number(10), Number(20)), Some(Number(10)), true),
    (Between(Number(10), Number(20)), Some(Number(20)), true),
    (Between(Number(10), Number(20)), Some(Number(21)), false),
    (Between(Number(7), Number(7)), Some(Number(7)), true),
    (Between(Number(20), Number(10)), Some(Number(15)), false),
    (From(Number(0)), Some(Number(-1)), false),
    (From(Number(0)), Some(Number(i128::MAX)), true),
    (To(Number(0)), Some(Number(1)), false),
    (To(Number(0)), Some(Number(i128::MIN)), true),
    (Open, Some(Number(0)), true),
    // Texts are ordered as their bytes are, and one that begins another lies before it.
    (Between(Text("b"), Text("bb")), Some(Text("ba")), true),
    (Between(Text("b"), Text("bb")), Some(Text("a")), false),
    (To(Text("b")), Some(Text("ba")), false),
    (From(Text("a")), Some(Text("B")), false),
    (From(Text("")), Some(Text("")), true),
    (From(Text("z")), Some(Text("\u{e9}")), true),
    (To(Text("\u{e9}")), Some(Text("\u{20ac}")), false),
    (Open, Some(Text("")), true),
    // The byte 80 is above 7F.
    (From(Bytes(b"\x7f")), Some(Bytes(b"\x80")), true),
    (To(Bytes(b"\x7f")), Some(Bytes(b"\x80")), false),
    (From(Bytes(b"\x80")), Some(Bytes(b"\x7f\xff")), false),
    (To(Bytes(b"\x80")), Some(Bytes(b"\x7f\xff")), true),
    (From(Bytes(b"\x01")), Some(Bytes(b"\x01\0")), true),
    (To(Bytes(b"\x01")), Some(Bytes(b"\x01\0")), false),
    (To(Bytes(b"")), Some(Bytes(b"\0")), false),
    (Open, Some(Bytes(b"")), true),
];

/// What is known of so many rows: their ends, and how many of them are null; then a bound, and whether one of the rows may meet it.
type Kept<'a> = (Ends<'a>, Option<u64>, u64, Ends<'a>, bool);

static KEPT: [Kept<'static>; 45] = [
    // Ends of both are known: only those that lie apart rule rows out.
    (
        Between(Number(10), Number(20)),
        Some(0),
        5,
        Between(Number(21), Number(30)),
        false,
    ),
    (
        Between(Number(10), Number(20)),
        Some(0),
        5,
        Between(Number(20), Number(30)),
        true,
    ),
    (
        Between(Number(10), Number(20)),
        Some(0),
        5,
        Between(Number(1), Number(10)),
        true,
    ),
    (
        Between(Number(10), Number(20)),
        Some(0),
        5,
        Between(Number(1), Number(9)),
        false,
    ),
    (
        Between(Number(10), Number(20)),
        Some(0),
        5,
        Between(Number(12), Number(13)),
        true,
    ),
    (
        Between(Number(10), Number(20)),
        Some(0),
        5,
        Between(Number(1), Number(30)),
        true,
    ),
    (
        Between(Number(10), Number(10)),
        Some(0),
        5,
        Between(Number(10), Number(10)),
        true,
    ),
    // An end that is absent is not 0.
    (Open, None, 5, From(Number(1)), true),
    (Open, None, 5, To(Number(-1)), true),
    (Open, None, 5, Open, true),
    (From(Number(10)), None, 5, From(Number(100)), true),
    (From(Number(10)), None, 5, To(Number(10)), true),
    (From(Number(10)), None, 5, To(Number(9)), false),
    (To(Number(-10)), None, 5, To(Number(-100)), true),
    (To(Number(-10)), None, 5, From(Number(-10)), true),
    (To(Number(-10)), None, 5, From(Number(-9)), false),
    (
        Between(Number(10), Number(20)),
        None,
        5,
        From(Number(20)),
        true,
    ),
    (
        Between(Number(10), Number(20)),
        None,
        5,
        From(Number(21)),
        false,
    ),
    (
        Between(Number(10), Number(20)),
        None,
        5,
        To(Number(10)),
        true,
    ),
    (
        Between(Number(10), Number(20)),
        None,
        5,
        To(Number(9)),
        false,
    ),
    // Known ends that are out of order are true of no value; nor is there one between those of such a bound.
    (Between(Number(20), Number(10)), Some(0), 5, Open, false),
    (
        Between(Number(20), Number(10)),
        None,
        5,
        From(Number(15)),
        false,
    ),
    (Open, None, 5, Between(Number(9), Number(3)), false),
    (
        Between(Number(1), Number(20)),
        Some(0),
        5,
        Between(Number(9), Number(3)),
        false,
    ),
    // Rows that are all null, and no rows.
    (Open, Some(5), 5, From(Number(0)), false),
    (Open, Some(5), 5, Open, false),
    (Open, Some(6), 5, Open, false),
    (Between(Number(10), Number(20)), Some(5), 5, Open, false),
    (Open, Some(4), 5, From(Number(0)), true),
    (Between(Number(10), Number(20)), Some(4), 5, Open, true),
    (Open, None, 0, Open, false),
    (Open, Some(0), 0, From(Number(0)), false),
    (Between(Number(10), Number(20)), Some(0), 0, Open, false),
    (Open, Some(0), 1, Open, true),
    (Open, Some(u64::MAX), u64::MAX, Open, false),
    (Open, Some(18446744073709551614), u64::MAX, Open, true),
    // Texts and bytes are ordered as they are in a bound.
    (
        Between(Text("a"), Text("b")),
        Some(0),
        5,
        From(Text("b")),
        true,
    ),
    (
        Between(Text("a"), Text("b")),
        Some(0),
        5,
        From(Text("ba")),
        false,
    ),
    (From(Text("a")), None, 5, To(Text("Z")), false),
    (To(Text("z")), None, 5, From(Text("\u{e9}")), false),
    (From(Text("z")), None, 5, To(Text("\u{e9}")), true),
    (From(Bytes(b"\x80")), None, 5, To(Bytes(b"\x7f")), false),
    (From(Bytes(b"\x7f")), None, 5, To(Bytes(b"\x80")), true),
    (To(Bytes(b"\x7f\xff")), None, 5, From(Bytes(b"\x80")), false),
    (From(Bytes(b"")), None, 5, To(Bytes(b"")), true),
];

fn is_met(alloc: Global, ends: Ends<'_>, item: Option<Value<'_>>) -> Result<bool, AllocError> {
    Ok(meets(&bound_of(alloc, "a", ends)?, &item_of(alloc, item)?))
}

fn is_kept(
    alloc: Global,
    known: Ends<'_>,
    nulls: Option<u64>,
    rows: u64,
    asked: Ends<'_>,
) -> Result<bool, AllocError> {
    // The ends that are known are values of the same kinds as those of a bound.
    let known = bound_of(alloc, "a", known)?;
    let bound = bound_of(alloc, "a", asked)?;
    Ok(keeps(known.low.as_ref(), known.high.as_ref(), nulls, rows, &bound))
}

/// Fails at the first row of the table that is answered otherwise.
fn check_met(alloc: Global, rows: &[Met<'_>]) -> Result<(), Fail> {
    for (row, (ends, item, answer)) in rows.iter().enumerate() {
        if is_met(alloc, *ends, *item)? != *answer {
            return Err(Fail::new(format_args!("row {row} is answered otherwise")));
        }
    }
    Ok(())
}

/// The same of the table of rows that are kept.
fn check_kept(alloc: Global, rows: &[Kept<'_>]) -> Result<(), Fail> {
    for (row, (known, nulls, count, asked, answer)) in rows.iter().enumerate() {
        if is_kept(alloc, *known, *nulls, *count, *asked)? != *answer {
            return Err(Fail::new(format_args!("row {row} is answered otherwise")));
        }
    }
    Ok(())
}

#[test]
fn items_that_meet_a_bound(rt: HostRuntime) -> Result<(), Fail> {
    check_met(rt.alloc(), &MET)
}

#[test]
fn rows_that_a_bound_keeps(rt: HostRuntime) -> Result<(), Fail> {
    check_kept(rt.alloc(), &KEPT)
}
