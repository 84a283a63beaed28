//! Each type that is written: what is read back of it, and which pages a bound leaves.
use crate::putting::Put;
use crate::scanning::{Run, check_put};
use std::alloc::Global;
use std::test::Fail;

/// A type, cells of it, the least value that is asked for, if one may be, and the rows that are left, where a page has two rows.
type Typed<'a> = (&'a str, &'a [&'a str], &'a str, &'a [Run]);

static TYPES: [Typed<'static>; 38] = [
    (
        "Boolean",
        &["false", "true", "true", "null", "false"],
        "",
        &[(0, 5)],
    ),
    (
        "Boolean",
        &["true", "false", "null", "null", "true"],
        "",
        &[(0, 5)],
    ),
    // Numbers at the borders of their type; a page of nulls alone has none that is asked for.
    ("Int8", &["1", "null", "-128", "127", "-1"], "2", &[(2, 2)]),
    (
        "Int16",
        &["-32768", "32767", "null", "null", "5"],
        "6",
        &[(0, 2)],
    ),
    (
        "Int32",
        &["-2147483648", "-1", "null", "2147483647", "-2"],
        "0",
        &[(2, 2)],
    ),
    (
        "Int64",
        &[
            "9223372036854775807",
            "-9223372036854775808",
            "-1",
            "null",
            "0",
        ],
        "0",
        &[(0, 2), (4, 1)],
    ),
    // Numbers without a sign in the upper half of theirs are the greatest.
    (
        "UInt8",
        &["0", "255", "null", "7", "128"],
        "128",
        &[(0, 2), (4, 1)],
    ),
    (
        "UInt16",
        &["65535", "0", "null", "7", "32768"],
        "32768",
        &[(0, 2), (4, 1)],
    ),
    (
        "UInt32",
        &["1", "4294967295", "null", "2147483647", "2147483648"],
        "2147483648",
        &[(0, 2), (4, 1)],
    ),
    (
        "UInt64",
        &[
            "18446744073709551615",
            "1",
            "9223372036854775807",
            "null",
            "9223372036854775808",
        ],
        "9223372036854775808",
        &[(0, 2), (4, 1)],
    ),
    (
        "Date32",
        &["-1", "null", "19723", "0", "2147483647"],
        "1",
        &[(2, 3)],
    ),
    (
        "Date64",
        &["86400000", "-86400000", "null", "null", "0"],
        "1",
        &[(0, 2)],
    ),
    (
        "Time32(s)",
        &["0", "null", "86399", "1", "2"],
        "3",
        &[(2, 2)],
    ),
    (
        "Time32(ms)",
        &["0", "null", "86399999", "1", "2"],
        "3",
        &[(2, 2)],
    ),
    (
        "Time64(us)",
        &["0", "null", "86399999999", "1", "2"],
        "3",
        &[(2, 2)],
    ),
    (
        "Time64(ns)",
        &["0", "null", "86399999999999", "1", "2"],
        "3",
        &[(2, 2)],
    ),
    (
        "Duration(s)",
        &["-1", "null", "-2", "1", "-3"],
        "0",
        &[(2, 2)],
    ),
    (
        "Duration(ms)",
        &["-1", "null", "-2", "1", "-3"],
        "0",
        &[(2, 2)],
    ),
    (
        "Duration(us)",
        &["-1", "null", "-2", "1", "-3"],
        "0",
        &[(2, 2)],
    ),
    (
        "Duration(ns)",
        &["-1", "null", "-2", "1", "-3"],
        "0",
        &[(2, 2)],
    ),
    (
        "Timestamp(s)",
        &["-1", "null", "-2", "1704067200", "-3"],
        "0",
        &[(2, 2)],
    ),
    (
        "Timestamp(ms)",
        &["-1", "null", "-2", "1704067200000", "-3"],
        "0",
        &[(2, 2)],
    ),
    (
        "Timestamp(us)",
        &["-1", "null", "-2", "1", "-3"],
        "0",
        &[(2, 2)],
    ),
    (
        "Timestamp(ns)",
        &["-1", "null", "-2", "1", "-3"],
        "0",
        &[(2, 2)],
    ),
    (
        "Timestamp(s) Europe/Rome",
        &["-1", "null", "-2", "1704067200", "-3"],
        "0",
        &[(2, 2)],
    ),
    (
        "Timestamp(ms) UTC",
        &["-1", "null", "-2", "1704067200000", "-3"],
        "0",
        &[(2, 2)],
    ),
    (
        "Timestamp(us) +01:00",
        &["-1", "null", "-2", "1", "-3"],
        "0",
        &[(2, 2)],
    ),
    (
        "Timestamp(ns) Asia/Tokyo",
        &[
            "9223372036854775807",
            "null",
            "-9223372036854775808",
            "-1",
            "0",
        ],
        "0",
        &[(0, 2), (4, 1)],
    ),
    // Decimals of both signs.
    (
        "Decimal(9,2)",
        &["-1", "1", "-2", "null", "0"],
        "0",
        &[(0, 2), (4, 1)],
    ),
    (
        "Decimal(38,0)",
        &[
            "-170141183460469231731687303715884105728",
            "-1",
            "null",
            "170141183460469231731687303715884105727",
            "255",
        ],
        "256",
        &[(2, 2)],
    ),
    // Bytes are ordered without a sign, and the beginning of others comes before them.
    (
        "FixedSizeBinary(3)",
        &["0x000000", "0xffffff", "null", "0x7fffff", "0x800000"],
        "0x800000",
        &[(0, 2), (4, 1)],
    ),
    (
        "Binary",
        &["0x", "0x00", "null", "0x80", "0x7fff"],
        "0x80",
        &[(2, 2)],
    ),
    (
        "LargeBinary",
        &["0xff", "0x01", "null", "null", "0x01ff"],
        "0x0200",
        &[(0, 2)],
    ),
    ("Utf8", &["a", "ab", "null", "abc", "b"], "abb", &[(2, 3)]),
    (
        "LargeUtf8",
        &["\u{e9}", "", "null", "e", "z"],
        "z",
        &[(0, 2), (4, 1)],
    ),
    // One page, and pages of nulls alone.
    ("Int32", &["7"], "8", &[]),
    ("Int32", &["null", "null", "null"], "", &[(0, 3)]),
    (
        "Utf8",
        &["null", "null", "null", "null", "m"],
        "a",
        &[(4, 1)],
    ),
];

fn check_type(alloc: Global, row: Typed<'_>) -> Result<(), Fail> {
    let (type_text, cells, low, kept) = row;
    let put = Put {
        columns: &[("a", type_text, true)],
        chunks: &[&[cells]],
        page_rows: 2,
    };
    check_put(alloc, put, (low, ""), &[kept])?;
    Ok(())
}

#[test]
fn each_type_is_read_back(rt: HostRuntime) -> Result<(), Fail> {
    for row in &TYPES {
        check_type(rt.alloc(), *row)?;
    }
    Ok(())
}
