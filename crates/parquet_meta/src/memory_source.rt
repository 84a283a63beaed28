//! Bytes in memory as a source.

ghost use Rattle.std.specs.Prelude.{◌≡◌, ℕ, ◌<◌, ◌≤◌, List, Some, length, take, drop};

use crate::source::{Failed, Source};
use std::marker::Model;

/// Bytes in memory. No call fails.
#[derive(Drop)]
pub struct MemorySource {
    bytes: Vec<u8>,
    taken: u64,
}

impl Model for MemorySource {
    ghost Value = { List ℕ × ℕ };

    ghost view = { λ s. (s.bytes.items, s.taken) };
}

impl MemorySource {
    pub fn new(bytes: Vec<u8>) -> Self
        ensures { result ≡ (bytes.items, 0) }
    {
        MemorySource { bytes, taken: 0 }
    }
}

/// Copies what stands from the place on, and says how many bytes.
pub(crate) fn copy_from(bytes: &[u8], place: u64, out: &mut [u8]) -> usize
    ensures bound { result ≤ length out.new }
    ensures read { take result out.new ≡ take result (drop place bytes.now) }
    ensures some { place < length bytes.now → 0 < length out.old → 0 < result }
{
    let start = (bytes.len() as u64).min(place) as usize;
    let rest = &bytes[start..];
    let count = rest.len().min(out.len());
    out[..count].copy_from_slice(&rest[..count]);
    count
}

impl Source for MemorySource {
    ghost told = { λ s. Some s.0 };

    ghost faults = { λ _. 0 };

    ghost taken = { λ s. s.1 };

    ghost kept = { λ _. tt };

    fn size(&mut self) -> Result<u64, Failed> {
        let _taken = self.taken;
        Ok(self.bytes.len() as u64)
    }

    fn read_at(&mut self, place: u64, out: &mut [u8]) -> Result<usize, Failed> {
        let count = copy_from(self.bytes.as_slice(), place, out);
        self.taken = self.taken.saturating_add(count as u64);
        Ok(count)
    }
}
