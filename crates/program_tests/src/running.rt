//! Runs of the program over bytes in memory, and checks of what they answer.
ghost use Rattle.std.specs.Prelude.{◌≡◌, ◌<◌};

use files_for_tests::{Chunk, file_of};
use parquet_base::Steps;
use parquet_meta::{MemorySource, Source};
use pq_common::{MemorySink, Sink, Status};
use scan_program::run;
use std::alloc::{AllocError, Global};
use std::marker::Brand;
use std::sync::ledger::{Blank, Ledger};
use std::test::Fail;

/// The words of a line, with one space between each two.
pub(crate) fn words_of(alloc: Global, line: &str) -> Result<Vec<String>, AllocError> {
    let mut words = Vec::new(alloc);
    for word in line.split(' ') {
        words.push(String::from_str(alloc, word)?)?;
    }
    Ok(words)
}

fn run_counted<S: Source, K: Sink, L: Ledger>(
    alloc: Global,
    words: &[String],
    source: &mut S,
    out: &mut K,
    blank: Blank,
) -> Status
    requires name { blank.name ≡ L.name }
    requires parts { blank.parts ≡ L.parts }
    requires whole { 0 < blank.parts }
{
    let mut steps = Steps::<L>::new(blank);
    run(alloc, words, source, out, &mut steps)
}

/// How a run ends.
pub(crate) fn run_on<S: Source, K: Sink>(
    alloc: Global,
    words: &[String],
    source: &mut S,
    out: &mut K,
) -> Status {
    run_counted::<S, K, Brand>(alloc, words, source, out, Blank::new(1))
}

/// The number of the status with which a run ends, and behind it what the run writes.
pub(crate) fn answer_to(alloc: Global, words: &[String], bytes: &[u8]) -> Result<Vec<u8>, Fail> {
    let mut source = MemorySource::new(Vec::from_slice(alloc, bytes)?);
    let mut out = MemorySink::new(alloc, 400)?;
    let status = run_on(alloc, words, &mut source, &mut out);
    let mut found = Vec::new(alloc);
    found.push(status.number())?;
    found.extend_from_slice(out.bytes())?;
    Ok(found)
}

/// Fails where a run over a file that is asked by the words of a line has another answer.
pub(crate) fn check(alloc: Global, bytes: &[u8], line: &str, answer: &[u8]) -> Result<(), Fail> {
    let found = answer_to(alloc, &words_of(alloc, line)?, bytes)?;
    if found.as_slice() == answer {
        Ok(())
    } else {
        Err(Fail::new(format_args!("{line} is answered {found:?}")))
    }
}

/// The same of several lines, each with its answer.
pub(crate) fn check_answers(
    alloc: Global,
    bytes: &[u8],
    runs: &[(&str, &[u8])],
) -> Result<(), Fail> {
    for (line, answer) in runs {
        check(alloc, bytes, line, answer)?;
    }
    Ok(())
}

/// The same of lines that have one answer.
pub(crate) fn check_lines(
    alloc: Global,
    bytes: &[u8],
    lines: &[&str],
    answer: &[u8],
) -> Result<(), Fail> {
    for line in lines {
        check(alloc, bytes, line, answer)?;
    }
    Ok(())
}

/// The groups of a file, and lines with their answers.
pub(crate) type File<'a> = (&'a [&'a [Chunk<'a>]], &'a [(&'a str, &'a [u8])]);

/// Fails where a run over one of several files has another answer.
pub(crate) fn check_files(alloc: Global, files: &[File<'_>]) -> Result<(), Fail> {
    for (groups, runs) in files {
        check_answers(alloc, &file_of(alloc, groups)?, runs)?;
    }
    Ok(())
}

/// Bytes of a file from a place to another, and what stands there instead.
pub(crate) type Cut<'a> = (usize, usize, &'a [u8]);

/// A file of which parts are replaced, each behind the one before.
fn spliced(alloc: Global, file: &[u8], cuts: &[Cut<'_>]) -> Result<Vec<u8>, AllocError> {
    let mut bytes = Vec::new(alloc);
    let mut place = 0usize;
    for (start, end, piece) in cuts {
        bytes.extend_from_slice(part(file, place, *start))?;
        bytes.extend_from_slice(piece)?;
        place = *end;
    }
    bytes.extend_from_slice(part(file, place, file.len()))?;
    Ok(bytes)
}

/// The bytes from a place to another, as far as there are any.
fn part(file: &[u8], start: usize, end: usize) -> &[u8] {
    let end = end.min(file.len());
    if start < end { &file[start..end] } else { &[] }
}

/// Parts of a file that are replaced, a line, and its answer.
pub(crate) type Lie<'a> = (&'a [Cut<'a>], &'a str, &'a [u8]);

/// Fails where a run over a file of which parts are replaced has another answer.
pub(crate) fn check_lies(alloc: Global, file: &[u8], lies: &[Lie<'_>]) -> Result<(), Fail> {
    for (cuts, line, answer) in lies {
        check(alloc, &spliced(alloc, file, cuts)?, line, answer)?;
    }
    Ok(())
}
