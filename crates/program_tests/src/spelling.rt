//! Options, types, values and names as words spell them, each asked of the first file.
use crate::running::{File, answer_to, check_answers, check_files, check_lines, words_of};
use files_for_tests::Levels::Absent;
use files_for_tests::{CHUNK, Chunk, Column, F1, Page, Told, Values};
use std::alloc::Global;
use std::test::*;

/// The report on the rows of the first file as numbers, behind the status.
const NUMBERS: &[u8] = b"\x00group 0 5 0+5\nchunk 5\n10\n12\n15\n18\n20\n";

/// What may be asked of a column of numbers of 32 bits, and gives the numbers themselves.
static READ: [&str; 13] = [
    "x a:Int8",
    "x a:Int16",
    "x a:Int32",
    "x a:UInt8",
    "x a:UInt16",
    "x a:UInt32",
    "x a:Date32",
    "x a:Time32(s)",
    "x a:Time32(ms)",
    "x a:Time32(us)",
    "x a:Time32(ns)",
    "x a:Decimal(9,2)",
    "x a:Decimal(0,18446744073709551615)",
];

/// What gives other values.
static CONVERTED: [(&str, &[u8]); 2] = [
    (
        "x a:Null",
        b"\x00group 0 5 0+5\nchunk 5\nnull\nnull\nnull\nnull\nnull\n",
    ),
    (
        "x a:Date64",
        b"\x00group 0 5 0+5\nchunk 5\n864000000\n1036800000\n1296000000\n1555200000\n1728000000\n",
    ),
];

/// Types that such a column is not read as.
static OTHERS: [&str; 29] = [
    "x a:Boolean",
    "x a:Int64",
    "x a:UInt64",
    "x a:Time64(s)",
    "x a:Time64(ms)",
    "x a:Time64(us)",
    "x a:Time64(ns)",
    "x a:Duration(s)",
    "x a:Duration(ms)",
    "x a:Duration(us)",
    "x a:Duration(ns)",
    "x a:Timestamp(s)",
    "x a:Timestamp(ms)",
    "x a:Timestamp(us)",
    "x a:Timestamp(ns)",
    "x a:FixedSizeBinary(4)",
    "x a:FixedSizeBinary(0)",
    "x a:FixedSizeBinary(18446744073709551615)",
    "x a:Interval(YearMonth)",
    "x a:Interval(DayTime)",
    "x a:Utf8",
    "x a:LargeUtf8",
    "x a:Binary",
    "x a:LargeBinary",
    "x a:Dictionary(Int32,Utf8)",
    "x a:Dictionary(UInt8,Int32)",
    "x a:Dictionary(UInt64,Timestamp(us))",
    "x a:Dictionary(Int8,FixedSizeBinary(4))",
    "x a:Dictionary(Int16,Decimal(9,2))",
];

/// Texts that spell no type.
static NO_TYPES: [&str; 25] = [
    "x a:",
    "x a:int32",
    "x a:Float32",
    "x a:Decimal256(9,2)",
    "x a:Time32",
    "x a:Time32()",
    "x a:Time32(m)",
    "x a:Time64(S)",
    "x a:Timestamp(s,UTC)",
    "x a:Decimal(9)",
    "x a:Decimal(9,)",
    "x a:Decimal(,2)",
    "x a:Decimal(9,-2)",
    "x a:Decimal(18446744073709551616,0)",
    "x a:FixedSizeBinary",
    "x a:FixedSizeBinary()",
    "x a:FixedSizeBinary(+4)",
    "x a:FixedSizeBinary(4",
    "x a:Interval(MonthDayNano)",
    "x a:Dictionary(Utf8,Int32)",
    "x a:Dictionary(Int32)",
    "x a:Dictionary(Int32,Dictionary(Int32,Int32))",
    "x a:Dictionary(Int32,Float64)",
    "x a:List(Int32)",
    "x a:Int32()",
];

#[test]
fn types(rt: HostRuntime) -> Result<(), Fail> {
    let alloc = rt.alloc();
    check_lines(alloc, &F1, &READ, NUMBERS)?;
    check_answers(alloc, &F1, &CONVERTED)?;
    check_lines(alloc, &F1, &OTHERS, &[4])?;
    check_lines(alloc, &F1, &NO_TYPES, &[2])
}

/// Fields of each type of numbers: bounds at the least and the greatest number, and those one past them.
static RANGES: [(&str, &str, &str, &str, &str); 15] = [
    ("a:Int8", "a>=-128", "a<=127", "a>=-129", "a<=128"),
    ("a:Int16", "a>=-32768", "a<=32767", "a>=-32769", "a<=32768"),
    (
        "a:Int64",
        "a>=-9223372036854775808",
        "a<=9223372036854775807",
        "a>=-9223372036854775809",
        "a<=9223372036854775808",
    ),
    ("a:UInt8", "a>=0", "a<=255", "a>=-1", "a<=256"),
    ("a:UInt16", "a>=0", "a<=65535", "a>=-1", "a<=65536"),
    (
        "a:UInt32",
        "a>=0",
        "a<=4294967295",
        "a>=-1",
        "a<=4294967296",
    ),
    (
        "a:UInt64",
        "a>=-0",
        "a<=18446744073709551615",
        "a>=-1",
        "a<=18446744073709551616",
    ),
    (
        "a:Date32",
        "a>=-2147483648",
        "a<=2147483647",
        "a>=-2147483649",
        "a<=2147483648",
    ),
    (
        "a:Date64",
        "a>=-9223372036854775808",
        "a<=9223372036854775807",
        "a>=-9223372036854775809",
        "a<=9223372036854775808",
    ),
    (
        "a:Time32(s)",
        "a>=-2147483648",
        "a<=2147483647",
        "a>=-2147483649",
        "a<=2147483648",
    ),
    (
        "a:Time64(us)",
        "a>=-9223372036854775808",
        "a<=9223372036854775807",
        "a>=-9223372036854775809",
        "a<=9223372036854775808",
    ),
    (
        "a:Duration(ms)",
        "a>=-9223372036854775808",
        "a<=9223372036854775807",
        "a>=-9223372036854775809",
        "a<=9223372036854775808",
    ),
    (
        "a:Timestamp(ns)",
        "a>=-9223372036854775808",
        "a<=9223372036854775807",
        "a>=-9223372036854775809",
        "a<=9223372036854775808",
    ),
    (
        "a:Decimal(9,2)",
        "a>=-170141183460469231731687303715884105728",
        "a<=170141183460469231731687303715884105727",
        "a>=-170141183460469231731687303715884105729",
        "a<=170141183460469231731687303715884105728",
    ),
    (
        "a:Dictionary(Int8,UInt16)",
        "a>=0",
        "a<=65535",
        "a>=-1",
        "a<=65536",
    ),
];

/// Whether words spell a request that ask for a field between two ends.
fn are_ends(alloc: Global, field: &str, low: &str, high: &str) -> Result<bool, Fail> {
    let line = format!(in alloc; "x {field} {low} {high}")?;
    let found = answer_to(alloc, &words_of(alloc, &line)?, &F1)?;
    Ok(found.as_slice() != [2u8].as_slice())
}

#[test]
fn numbers_at_the_ends_of_their_types(rt: HostRuntime) -> Result<(), Fail> {
    let alloc = rt.alloc();
    for (field, least, greatest, below, above) in RANGES.iter() {
        assert!(rt; are_ends(alloc, field, least, greatest)?, "at {field}");
        assert!(rt; !are_ends(alloc, field, below, greatest)?, "at {field}");
        assert!(rt; !are_ends(alloc, field, least, above)?, "at {field}");
    }
    Ok(())
}

/// Ends of bounds, and how a run with them ends.
static VALUES: [(&str, &[u8]); 34] = [
    // At most 39 digits.
    (
        "x a:Decimal(9,2) a>=0000000000000000000000000000000000000001",
        &[2],
    ),
    (
        "x a:Decimal(9,2) a>=999999999999999999999999999999999999999",
        &[2],
    ),
    (
        "x a:Int32 a>=0000000000000000000000000000000000000012",
        &[2],
    ),
    ("x a:Int32 a>=-2147483649", &[2]),
    ("x a:Int32 a<=2147483648", &[2]),
    ("x a:Int32 a>=x", &[2]),
    ("x a:Int32 a>=", &[2]),
    ("x a:Int32 a>=-", &[2]),
    ("x a:Int32 a>=+1", &[2]),
    ("x a:Int32 a>=--1", &[2]),
    ("x a:Int32 a>=1.0", &[2]),
    ("x a:Int32 a>=0x1", &[2]),
    ("x a:Int32 a>=1>=2", &[2]),
    // Bytes.
    ("x a:Binary a>=0x", &[4]),
    ("x a:Binary a>=0x00fF", &[4]),
    ("x a:LargeBinary a<=0xABCDEFabcdef0123456789", &[4]),
    ("x a:FixedSizeBinary(2) a>=0x0102", &[4]),
    ("x a:FixedSizeBinary(2) a>=0x010203", &[3]),
    ("x a:Dictionary(Int8,Binary) a>=0x01", &[4]),
    ("x a:Binary a>=", &[2]),
    ("x a:Binary a>=0x0", &[2]),
    ("x a:Binary a>=0x0g", &[2]),
    ("x a:Binary a>=0X00", &[2]),
    ("x a:Binary a>=00", &[2]),
    // Texts.
    ("x a:Utf8 a>=", &[4]),
    ("x a:LargeUtf8 a<=x>=y", &[4]),
    ("x a:Utf8 a>=0x a<=", &[4]),
    ("x a:Dictionary(Int8,Utf8) a>=x", &[4]),
    // Types without values.
    ("x a:Null a>=0", &[2]),
    ("x a:Boolean a>=true", &[2]),
    ("x a:Boolean a>=0", &[2]),
    ("x a:Interval(YearMonth) a>=0", &[2]),
    ("x a:Interval(DayTime) a>=0", &[2]),
    ("x a:Dictionary(Int8,Boolean) a>=0", &[2]),
];

/// Options, fields and names of bounds, and how a run with them ends.
static COMMANDS: [(&str, &[u8]); 27] = [
    ("x", &[3]),
    ("x a:Int32 --chunk 0", &[3]),
    ("x a:Int32 --chunk 00", &[3]),
    ("x a:Int32 --chunk", &[2]),
    ("x a:Int32 --chunk --", &[2]),
    ("x a:Int32 --chunk=", &[2]),
    ("x a:Int32 --chunk=+5", &[2]),
    ("x a:Int32 --chunk 0x2", &[2]),
    ("x a:Int32 --chunk 18446744073709551616", &[2]),
    ("x a:Int32 --limit -1", &[2]),
    ("x a:Int32 --limit 000000000000000000003", &[2]),
    ("x a:Int32 --limit 5 --limit 6", &[2]),
    ("x a:Int32 --summary --summary", &[2]),
    ("x a:Int32 --summary=true", &[2]),
    ("x a:Int32 -x", &[2]),
    ("x a:Int32 -", &[2]),
    ("x --help", &[2]),
    ("x --summary", &[3]),
    ("x b:Int32", &[3]),
    ("x a:Int32 a:Int32", &[3]),
    ("x :Int32", &[2]),
    ("x a", &[2]),
    ("x a:Int32 a>=1 a>=2", &[2]),
    ("x a:Int32 b>=1", &[2]),
    ("x b>=1 a:Int32", &[2]),
    ("x a:Int32 >=1", &[2]),
    ("x a>=1", &[2]),
];

/// Words in other places and numbers of other spellings, which give the numbers themselves.
static PLACES: [&str; 6] = [
    "x -- a:Int32",
    "x a>=12 a:Int32 -- a<=18",
    "x a:Int32 a>=-2147483648 a<=2147483647",
    "x a:Int32 a>=000000000000000000000000000000000000012",
    "x a:Decimal(9,2) a>=000000000000000000000000000000000000001",
    "x a:Decimal(9,2) a>=-000000000000000000000000000000000000001",
];

#[test]
fn values_and_options(rt: HostRuntime) -> Result<(), Fail> {
    let alloc = rt.alloc();
    check_answers(alloc, &F1, &VALUES)?;
    check_answers(alloc, &F1, &COMMANDS)?;
    check_lines(alloc, &F1, &PLACES, NUMBERS)
}

#[test]
fn no_words(rt: HostRuntime) -> Result<(), Fail> {
    let found = answer_to(rt.alloc(), &Vec::new(rt.alloc()), &F1)?;
    assert_eq!(rt; found.as_slice(), [2u8].as_slice());
    Ok(())
}

/// A group of the numbers 1 and 3 in columns of these names.
const NAMED: &[&[Chunk<'static>]] = &[&[
    Chunk {
        column: Column {
            name: "x:y",
            ..files_for_tests::NUMBERS
        },
        ..ONE_AND_THREE
    },
    Chunk {
        column: Column {
            name: "x:Int32",
            ..files_for_tests::NUMBERS
        },
        ..ONE_AND_THREE
    },
    Chunk {
        column: Column {
            name: ":",
            ..files_for_tests::NUMBERS
        },
        ..ONE_AND_THREE
    },
    Chunk {
        column: Column {
            name: "=>",
            ..files_for_tests::NUMBERS
        },
        ..ONE_AND_THREE
    },
    Chunk {
        column: Column {
            name: "a>=b",
            ..files_for_tests::NUMBERS
        },
        ..ONE_AND_THREE
    },
    Chunk {
        column: Column {
            name: "\u{e4}",
            ..files_for_tests::NUMBERS
        },
        ..ONE_AND_THREE
    },
]];

const ONE_AND_THREE: Chunk<'static> = Chunk {
    pages: &[Page(2, Absent, Values::Numbers(&[1, 3]))],
    told: Told::Ends(1, 3),
    ..CHUNK
};

/// The report on both rows.
const BOTH: &[u8] = b"\x00group 0 2 0+2\nchunk 2\n1\n3\n";

const OF_NAMED: &[(&str, &[u8])] = &[
    ("x x:y:Int32 x:y>=2", BOTH),
    ("x x:Int32", &[3]),
    ("x x:Int32:Int32", BOTH),
    ("x ::Int32 :<=0", b"\x00group 0 2 -\n"),
    ("x =>:Int32", BOTH),
    ("x a>=b:Int32", &[2]),
    ("x \u{e4}:Int32 \u{e4}<=1", BOTH),
];

static FILES: [File<'static>; 1] = [(NAMED, OF_NAMED)];

#[test]
fn names_with_signs(rt: HostRuntime) -> Result<(), Fail> {
    check_files(rt.alloc(), &FILES)
}
