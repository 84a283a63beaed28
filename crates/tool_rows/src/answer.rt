//! What the run of a row writes and how it ends, over its file and over the bytes of that.
use crate::bytewise::{ByteOut, ByteSource};
use crate::row::Row;
use parquet_meta::{FileSource, MemorySource, Source};
use pq_common::{MemoryOut, ToolStatus};
use std::alloc::{AllocError, Global};
use std::rt::Files;

/// As many bytes as a run may write.
const ROOM: usize = 100_000;

/// What a run writes, and how it ends.
#[derive(Drop)]
pub(crate) struct Answer {
    pub(crate) text: Vec<u8>,
    pub(crate) status: ToolStatus,
}

impl Answer {
    fn new(alloc: Global, text: &[u8], status: ToolStatus) -> Result<Self, AllocError> {
        Ok(Answer {
            text: Vec::from_slice(alloc, text)?,
            status,
        })
    }
}

/// The answer over the file that the first word names; without words over one that is never there.
pub(crate) fn over_file<R: Files + AllocGlobal>(rt: &R, row: &Row) -> Result<Answer, AllocError> {
    let alloc = rt.alloc();
    let path = match row.words.first() {
        Some(word) => String::from_str(alloc, word)?,
        None => String::new(alloc),
    };
    over(alloc, row, &mut FileSource::new(rt, path))
}

/// The answer over bytes in memory.
pub(crate) fn over_memory(alloc: Global, row: &Row, bytes: &[u8]) -> Result<Answer, AllocError> {
    let bytes = Vec::from_slice(alloc, bytes)?;
    over(alloc, row, &mut MemorySource::new(bytes))
}

/// The answer over a source.
pub(crate) fn over<S: Source>(
    alloc: Global,
    row: &Row,
    source: &mut S,
) -> Result<Answer, AllocError> {
    let mut out = MemoryOut::new(alloc, ROOM).map_err(|_| AllocError)?;
    let status = row.tool.run(alloc, &row.words, source, &mut out);
    Answer::new(alloc, out.bytes(), status)
}

/// The answer over bytes in memory, where a call reads or writes at most one, and the writes of these numbers fail; the first is 1.
pub(crate) fn byte_by_byte(
    alloc: Global,
    row: &Row,
    bytes: &[u8],
    failing: Vec<u64>,
) -> Result<Answer, AllocError> {
    let mut source = ByteSource::new(Vec::from_slice(alloc, bytes)?);
    let mut out = ByteOut::new(alloc, ROOM, failing)?;
    let status = row.tool.run(alloc, &row.words, &mut source, &mut out);
    Answer::new(alloc, out.bytes(), status)
}
