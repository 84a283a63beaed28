//! Sources and sinks that fail at each call in turn, or hand out and take one byte in each call.
ghost use Rattle.std.specs.Prelude.{Some};

use crate::running::{run_on, words_of};
use files_for_tests::{F1, F1_ROWS};
use parquet_meta::{Failed, FailingSource, FileSource, MemorySource, Source};
use parquet_sample::sample_file;
use pq_common::{FailingSink, MemorySink, Sink, Status};
use std::alloc::Global;
use std::test::*;

/// The rows of a sample, or none for the first file, what is asked of it, and what is written.
static REQUESTS: [(Option<u32>, &str, &[u8]); 3] = [
    (None, "x a:Int32 a>=12 a<=18", F1_ROWS),
    (
        Some(6),
        "x id:Int64 qty:Int32 name:Utf8 --chunk 4",
        b"group 0 6 0+6\nchunk 4\n0\tnull\t\"r0\"\n1\t1\t\"r1\"\n2\t2\t\"r2\"\n3\t3\t\"r3\"\nchunk 2\n4\t4\t\"r4\"\n5\tnull\t\"r5\"\n",
    ),
    (
        Some(2000),
        "x qty:Int32 id:Int64 id>=1500 --limit 3",
        b"group 0 2000 1000+1000\nchunk 3\nnull\t1000\n1\t1001\n2\t1002\n",
    ),
];

/// The first file, or a sample of so many rows.
fn file_of(alloc: Global, rows: Option<u32>) -> Result<Vec<u8>, Fail> {
    match rows {
        Some(rows) => Ok(sample_file(alloc, rows, 0)?),
        None => Ok(Vec::from_slice(alloc, &F1)?),
    }
}

/// How a run ends over bytes of which one call of the source fails, and what it writes.
fn with_failed_read(
    alloc: Global,
    bytes: &[u8],
    words: &[String],
    call: u64,
) -> Result<(Status, MemorySink), Fail> {
    let mut out = MemorySink::new(alloc, 200)?;
    let failing = vec![in alloc; call]?;
    let mut source = FailingSource::new(Vec::from_slice(alloc, bytes)?, failing);
    let status = run_on(alloc, words, &mut source, &mut out);
    Ok((status, out))
}

/// The first call of the source whose failure does not end a run, since there are fewer. Each earlier one ends it with nothing written.
fn calls_of_source(
    alloc: Global,
    bytes: &[u8],
    words: &[String],
    text: &[u8],
) -> Result<u64, Fail> {
    for call in 1..200u64 {
        let (status, out) = with_failed_read(alloc, bytes, words, call)?;
        let is_right = match status {
            Status::Reading => out.bytes().is_empty(),
            Status::Done => out.bytes() == text,
            _ => false,
        };
        if !is_right {
            return Err(Fail::new("a read fails in another way"));
        }
        if status == Status::Done {
            return Ok(call);
        }
    }
    Err(Fail::new("each run fails"))
}

#[test]
fn reads_that_fail(rt: HostRuntime) -> Result<(), Fail> {
    let alloc = rt.alloc();
    for (rows, line, text) in REQUESTS.iter() {
        let bytes = file_of(alloc, *rows)?;
        let calls = calls_of_source(alloc, &bytes, &words_of(alloc, *line)?, *text)?;
        // The size, the end and the footer are read at least, and a chunk of each column.
        assert!(rt; calls > 5, "at {line}");
    }
    Ok(())
}

/// Hands out one byte in each call.
#[derive(Drop)]
struct ByteSource {
    whole: MemorySource,
}

impl Source for ByteSource {
    ghost told = { λ source. Some source.whole.0 };

    ghost faults = { λ _. 0 };

    ghost taken = { λ source. source.whole.1 };

    ghost kept = { λ _. tt };

    fn size(&mut self) -> Result<u64, Failed> {
        self.whole.size()
    }

    fn read_at(&mut self, place: u64, out: &mut [u8]) -> Result<usize, Failed> {
        let count = out.len().min(1);
        self.whole.read_at(place, &mut out[..count])
    }
}

/// Takes one byte in each call that does not fail.
#[derive(Drop)]
struct ByteSink {
    whole: FailingSink,
}

impl Sink for ByteSink {
    ghost written = { λ sink. Some sink.whole.memory.bytes };

    ghost faults = { λ sink. sink.whole.memory.faults };

    fn write(&mut self, piece: &[u8]) -> Result<usize, Failed> {
        self.whole.write(&piece[..piece.len().min(1)])
    }
}

/// How a run ends whose source hands out and whose sink takes one byte in each call, and whose sink fails behind so many calls, and what is
/// written then.
fn with_failed_write(
    alloc: Global,
    bytes: &[u8],
    words: &[String],
    front: usize,
) -> Result<(Status, ByteSink), Fail> {
    let mut source = ByteSource {
        whole: MemorySource::new(Vec::from_slice(alloc, bytes)?),
    };
    let mut out = ByteSink {
        whole: FailingSink::new(
            alloc,
            200,
            vec![in alloc; (front as u64).saturating_add(1)]?,
        )?,
    };
    let status = run_on(alloc, words, &mut source, &mut out);
    Ok((status, out))
}

/// Fails where a run is not cut off by a failed write behind so many bytes, each of which is then written.
fn check_front(
    alloc: Global,
    bytes: &[u8],
    words: &[String],
    text: &[u8],
    front: usize,
) -> Result<(), Fail> {
    let (status, out) = with_failed_write(alloc, bytes, words, front)?;
    let found = out.whole.bytes();
    let wanted = if front < text.len() {
        Status::Writing
    } else {
        Status::Done
    };
    if status == wanted && found.len() == front && text.starts_with(found) {
        Ok(())
    } else {
        Err(Fail::new(format_args!("{status:?} behind {front}")))
    }
}

#[test]
fn a_sink_that_fails_at_one_call(rt: HostRuntime) -> Result<(), Fail> {
    let alloc = rt.alloc();
    let words = words_of(alloc, "x a:Int32 a>=12 a<=18")?;
    // The text is written in one call.
    for (call, status, text) in [
        (1, Status::Writing, b"".as_slice()),
        (2, Status::Done, F1_ROWS),
    ] {
        let mut source = MemorySource::new(Vec::from_slice(alloc, &F1)?);
        let mut out = FailingSink::new(alloc, 200, vec![in alloc; call]?)?;
        assert_eq!(rt; run_on(alloc, &words, &mut source, &mut out), status);
        assert_eq!(rt; out.bytes(), text);
    }
    Ok(())
}

#[test]
fn writes_that_fail(rt: HostRuntime) -> Result<(), Fail> {
    let alloc = rt.alloc();
    for (rows, line, text) in REQUESTS.iter() {
        let bytes = file_of(alloc, *rows)?;
        let words = words_of(alloc, *line)?;
        for front in 0..=text.len() {
            check_front(alloc, &bytes, &words, *text, front)?;
        }
    }
    Ok(())
}

#[test]
fn a_sink_that_is_full(rt: HostRuntime) -> Result<(), Fail> {
    let alloc = rt.alloc();
    let words = words_of(alloc, "@sample:1:3 id:Int64")?;
    let mut source = MemorySource::new(Vec::new(alloc));
    let mut out = MemorySink::new(alloc, 10)?;
    assert_eq!(rt;
        run_on(alloc, &words, &mut source, &mut out),
        Status::Writing
    );
    assert_eq!(rt; out.bytes(), b"group 0 1 ".as_slice());
    Ok(())
}

#[test]
fn a_file_that_is_not_there(rt: HostRuntime) -> Result<(), Fail> {
    let alloc = rt.alloc();
    let words = words_of(alloc, "no/such/file a:Int32")?;
    let mut source = FileSource::new(rt.clone()?, String::from_str(alloc, "no/such/file")?);
    let mut out = MemorySink::new(alloc, 100)?;
    assert_eq!(rt;
        run_on(alloc, &words, &mut source, &mut out),
        Status::Reading
    );
    Ok(())
}

/// Where the other pages of `id` and `qty` stand in a sample of 2,000 rows: those that hold no row from 1000 to 1002.
const OTHER_PAGES: [(u64, u64); 3] = [(4, 8024), (16044, 18398), (20752, 22773)];

/// Counts the calls that ask for bytes of those pages.
#[derive(Drop)]
struct WatchedSource {
    whole: MemorySource,
    met: usize,
}

impl Source for WatchedSource {
    ghost told = { λ source. Some source.whole.0 };

    ghost faults = { λ _. 0 };

    ghost taken = { λ source. source.whole.1 };

    ghost kept = { λ _. tt };

    fn size(&mut self) -> Result<u64, Failed> {
        self.whole.size()
    }

    fn read_at(&mut self, place: u64, out: &mut [u8]) -> Result<usize, Failed> {
        let end = place.saturating_add(out.len() as u64);
        if OTHER_PAGES
            .iter()
            .any(|(first, behind)| place < *behind && *first < end)
        {
            self.met = self.met.saturating_add(1);
        }
        self.whole.read_at(place, out)
    }
}

/// How many calls of a run ask for bytes of those pages.
fn calls_that_meet(alloc: Global, line: &str) -> Result<usize, Fail> {
    let words = words_of(alloc, line)?;
    let mut out = MemorySink::new(alloc, 200)?;
    let mut source = WatchedSource {
        whole: MemorySource::new(sample_file(alloc, 2000, 0)?),
        met: 0,
    };
    if run_on(alloc, &words, &mut source, &mut out) != Status::Done {
        return Err(Fail::new("the run ends otherwise"));
    }
    Ok(source.met)
}

#[test]
fn pages_that_are_not_read(rt: HostRuntime) -> Result<(), Fail> {
    let some = calls_that_meet(rt.alloc(), "x qty:Int32 id:Int64 id>=1500 --limit 3")?;
    let all = calls_that_meet(rt.alloc(), "x qty:Int32 id:Int64 --summary")?;
    assert!(rt; some == 0 && all > 0);
    Ok(())
}
