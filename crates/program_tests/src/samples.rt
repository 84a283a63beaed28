//! Runs over samples, which the first word names.
use crate::running::{check, check_answers, check_lines, run_on, words_of};
use files_for_tests::F1;
use parquet_meta::FailingSource;
use pq_common::{MemorySink, Status};
use std::test::*;

/// Words, and what a run answers. The number of a row is in the column `id`; `qty` has it where it is no multiple of 5;
/// `name` has it behind an r.
static SAMPLES: [(&str, &[u8]); 19] = [
    // Pages of `id` have 1000 rows.
    (
        "@sample:100000:7 id:Int64 qty:Int32 id>=54321 id<=54420 --summary",
        b"\x00group 0 20000 -\ngroup 1 20000 -\ngroup 2 20000 14000+1000\ngroup 3 20000 -\ngroup 4 20000 -\nrows 1000\npages 3\n",
    ),
    (
        "@sample:2000:0 qty:Int32 id:Int64 id>=1500 --limit 3",
        b"\x00group 0 2000 1000+1000\nchunk 3\nnull\t1000\n1\t1001\n2\t1002\n",
    ),
    (
        "@sample:2000:0 id:Int64 qty:Int32 id>=1500 qty<=50 --summary",
        b"\x00group 0 2000 1000+400\nrows 400\npages 2\n",
    ),
    (
        "@sample:6:0 id:Int64 qty:Int32",
        b"\x00group 0 6 0+6\nchunk 6\n0\tnull\n1\t1\n2\t2\n3\t3\n4\t4\n5\tnull\n",
    ),
    (
        "@sample:0000000006:0000000000 id:Int64",
        b"\x00group 0 6 0+6\nchunk 6\n0\n1\n2\n3\n4\n5\n",
    ),
    (
        "@sample:2:4294967295 id:Int64 qty:Int32",
        b"\x00group 0 2 0+2\nchunk 2\n4294967295\tnull\n4294967296\t296\n",
    ),
    (
        "@sample:2:998 qty:Int32",
        b"\x00group 0 2 0+2\nchunk 2\n998\n999\n",
    ),
    (
        "@sample:6:0 id:Int64 qty:Int32 --chunk 4",
        b"\x00group 0 6 0+6\nchunk 4\n0\tnull\n1\t1\n2\t2\n3\t3\nchunk 2\n4\t4\n5\tnull\n",
    ),
    (
        "@sample:6:0 id:Int64 qty:Int32 --chunk 4 --limit 5",
        b"\x00group 0 6 0+6\nchunk 4\n0\tnull\n1\t1\n2\t2\n3\t3\nchunk 1\n4\t4\n",
    ),
    (
        "@sample:6:0 id:Int64 qty:Int32 name:Utf8 --chunk 4",
        b"\x00group 0 6 0+6\nchunk 4\n0\tnull\t\"r0\"\n1\t1\t\"r1\"\n2\t2\t\"r2\"\n3\t3\t\"r3\"\nchunk 2\n4\t4\t\"r4\"\n5\tnull\t\"r5\"\n",
    ),
    (
        "@sample:6:0 id:Int64 qty:Int32 name:Utf8 --chunk 4 --limit 5",
        b"\x00group 0 6 0+6\nchunk 4\n0\tnull\t\"r0\"\n1\t1\t\"r1\"\n2\t2\t\"r2\"\n3\t3\t\"r3\"\nchunk 1\n4\t4\t\"r4\"\n",
    ),
    (
        "@sample:2:4294967295 name:LargeUtf8",
        b"\x00group 0 2 0+2\nchunk 2\n\"r4294967295\"\n\"r4294967296\"\n",
    ),
    // The second page of `qty` begins at row 700, that of `name` at row 450.
    (
        "@sample:2000:0 name:Binary qty:Int32 qty>=980 --limit 2",
        b"\x00group 0 2000 700+1300\nchunk 2\n0x72373030\tnull\n0x72373031\t701\n",
    ),
    // The third page of `qty` begins at row 1400, the second of `id` at row 1000.
    (
        "@sample:2000:0 qty:Int32 id:Int64 --limit 1000 --summary",
        b"\x00group 0 2000 0+2000\nrows 1000\npages 3\n",
    ),
    (
        "@sample:2000:0 qty:Int32 id:Int64 qty<=50 --chunk 3 --limit 4",
        b"\x00group 0 2000 0+1400\nchunk 3\nnull\t0\n1\t1\n2\t2\nchunk 1\n3\t3\n",
    ),
    ("@sample:0:5 id:Int64", b"\x00"),
    ("@sample:0:5 id:Int64 --summary", b"\x00rows 0\npages 0\n"),
    (
        "@sample:20001:7 id:Int64 --summary",
        b"\x00group 0 20000 0+20000\ngroup 1 1 0+1\nrows 20001\npages 21\n",
    ),
    // A page of `qty` has 700 rows. The least quantities are 1, 1 (of row 1001) and 401 (of row 1401).
    (
        "@sample:2000:0 qty:Int32 qty<=50 --summary",
        b"\x00group 0 2000 0+1400\nrows 1400\npages 2\n",
    ),
];

/// Samples of too many rows, and requests that do not fit.
static TOO_GREAT: [&str; 6] = [
    "@sample:2000001:0 id:Int64",
    "@sample:4294967295:4294967295 id:Int64",
    "@sample:2000001:0 none:Int64",
    "@sample:6:0 none:Int64",
    "@sample:6:0 --summary",
    "@sample:6:0 id:Int64 id:Int64",
];

/// Words that spell no request.
static NO_REQUESTS: [&str; 2] = ["@sample:2000001:0 id:Number", "@sample:2000001:0 --limit"];

/// Names that are no sample's, so that the source is read, which has no bytes.
static NO_SAMPLES: [&str; 12] = [
    "@sample:4294967296:0 id:Int64",
    "@sample:1:4294967296 id:Int64",
    "@sample:12345678901:0 id:Int64",
    "@sample:00000000006:0 id:Int64",
    "@sample:1: id:Int64",
    "@sample::1 id:Int64",
    "@sample:1 id:Int64",
    "@sample:1:2:3 id:Int64",
    "@sample:+1:0 id:Int64",
    "@sample:1:-0 id:Int64",
    "@Sample:1:0 id:Int64",
    "./@sample:1:0 id:Int64",
];

#[test]
fn samples_are_scanned(rt: HostRuntime) -> Result<(), Fail> {
    let alloc = rt.alloc();
    check_answers(alloc, &[], &SAMPLES)?;
    check_lines(alloc, &[], &TOO_GREAT, &[3])?;
    check_lines(alloc, &[], &NO_REQUESTS, &[2])?;
    check_lines(alloc, &[], &NO_SAMPLES, &[5])?;
    // A name without a seed is a path.
    check(
        alloc,
        &F1,
        "@sample:6 a:Int32",
        b"\x00group 0 5 0+5\nchunk 5\n10\n12\n15\n18\n20\n",
    )
}

/// The first call of the source would fail.
#[test]
fn the_source_is_not_called_for_a_sample(rt: HostRuntime) -> Result<(), Fail> {
    let alloc = rt.alloc();
    let mut out = MemorySink::new(alloc, 100)?;
    let mut source = FailingSource::new(Vec::new(alloc), vec![in alloc; 1u64]?);
    let words = words_of(alloc, "@sample:1:3 id:Int64")?;
    assert_eq!(rt; run_on(alloc, &words, &mut source, &mut out), Status::Done);
    Ok(())
}
