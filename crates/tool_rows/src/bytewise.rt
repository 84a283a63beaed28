//! A source that hands out, and a sink that takes, at most one byte in each call.
ghost use Rattle.std.specs.Prelude.{Some};

use parquet_meta::{Failed, MemorySource, Source};
use pq_common::{FailingOut, Out};
use std::alloc::{AllocError, Global};

/// Bytes in memory, of which each call hands out one.
#[derive(Drop)]
pub(crate) struct ByteSource {
    whole: MemorySource,
}

impl ByteSource {
    pub(crate) fn new(bytes: Vec<u8>) -> Self {
        ByteSource {
            whole: MemorySource::new(bytes),
        }
    }
}

impl Source for ByteSource {
    ghost told = { λ source. Some source.whole.0 };

    ghost faults = { λ _. 0 };

    ghost taken = { λ source. source.whole.1 };

    ghost kept = { λ _. tt };

    fn size(&mut self) -> Result<u64, Failed> {
        self.whole.size()
    }

    fn read_at(&mut self, place: u64, out: &mut [u8]) -> Result<usize, Failed> {
        let count = out.len().min(1);
        self.whole.read_at(place, &mut out[..count])
    }
}

/// A sink in memory, of which each call takes one byte, but for those calls that are to fail.
#[derive(Drop)]
pub(crate) struct ByteOut {
    whole: FailingOut,
}

impl ByteOut {
    /// A sink with room for so many bytes. The calls with these numbers fail; the first call is 1.
    pub(crate) fn new(
        alloc: Global,
        capacity: usize,
        failing: Vec<u64>,
    ) -> Result<Self, AllocError> {
        match FailingOut::new(alloc, capacity, failing) {
            Ok(whole) => Ok(ByteOut { whole }),
            Err(_) => Err(AllocError),
        }
    }

    /// What it was given.
    pub(crate) fn bytes(&self) -> &[u8] {
        self.whole.bytes()
    }
}

impl Out for ByteOut {
    ghost written = { λ sink. Some sink.whole.memory.bytes };

    ghost faults = { λ sink. sink.whole.memory.faults };

    fn write(&mut self, piece: &[u8]) -> Result<usize, Failed> {
        self.whole.write(&piece[..piece.len().min(1)])
    }
}
