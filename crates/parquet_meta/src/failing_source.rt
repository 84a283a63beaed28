//! A source that fails when it is told to.

ghost use Rattle.std.specs.Prelude.{◌≡◌, ◌==◌, ℕ, List, Some, IfOk, OnErr, length, take, drop, is_err, ◌<◌, ◌≤◌};
ghost use Rattle.std.specs.List.{list_any};
ghost use Rattle.parquet_meta.specs.Source.{AreCounts, counted, is_failing, next_call, raised};

use crate::memory_source::copy_from;
use crate::source::{Failed, Source};
use std::marker::Model;

/// Bytes in memory. Its calls are numbered from 1; those that are listed fail, and no other.
#[derive(Drop)]
pub struct FailingSource {
    bytes: Vec<u8>,
    failing: Vec<u64>,
    calls: u64,
    faults: u64,
    taken: u64,
}

impl Model for FailingSource {
    ghost use Rattle.parquet_meta.specs.Source.{AreCounts, Failing};

    ghost Value = { Failing };

    ghost view = { λ s. record { bytes = s.bytes.items; listed = s.failing.items; calls = s.calls; faults = s.faults; taken = s.taken } };

    ghost invariant = { λ s. AreCounts s.faults s.taken };
}

/// The call is one of those that fail.
fn is_listed(failing: &[u64], call: u64) -> bool
    ensures { result ≡ list_any (λ listed. listed == call) failing.now }
{
    failing.iter().any(|listed| *listed == call)
}

impl FailingSource {
    pub fn new(bytes: Vec<u8>, failing: Vec<u64>) -> Self
        ensures { result ≡ record {
          bytes = bytes.items;
          listed = failing.items;
          calls = 0;
          faults = 0;
          taken = 0;
        } }
    {
        FailingSource {
            bytes,
            failing,
            calls: 0,
            faults: 0,
            taken: 0,
        }
    }

    /// Counts the call, and fails where it is listed.
    fn call(&mut self) -> Result<(), Failed>
        ensures fails { is_err result ≡ is_failing self.old }
        ensures calls { self.new.calls ≡ next_call self.old }
        ensures bytes { self.new.bytes ≡ self.old.bytes }
        ensures listed { self.new.listed ≡ self.old.listed }
        ensures taken { self.new.taken ≡ self.old.taken }
        ensures counted { self.new.faults ≡ counted self.old.faults result }
        ensures later { self.old.faults ≤ self.new.faults }
        ensures bounded { AreCounts self.new.faults self.new.taken }
    {
        let number = self.calls.saturating_add(1);
        self.calls = number;
        if is_listed(self.failing.as_slice(), number) {
            self.faults = self.faults.saturating_add(1);
            return Err(Failed);
        }
        Ok(())
    }
}

impl Source for FailingSource {
    ghost told = { λ s. Some s.bytes };

    ghost faults = { λ s. s.faults };

    ghost taken = { λ s. s.taken };

    ghost Kept = { List ℕ };

    ghost kept = { λ s. s.listed };

    fn size(&mut self) -> Result<u64, Failed>
        ensures fails { is_err result ≡ is_failing self.old }
        ensures calls { self.new.calls ≡ next_call self.old }
        ensures same { self.new.bytes ≡ self.old.bytes }
        ensures kept { self.new.listed ≡ self.old.listed }
        ensures size { IfOk result (λ n. n ≡ length self.old.bytes) }
        ensures counted { self.new.faults ≡ counted self.old.faults result }
        ensures later { self.old.faults ≤ self.new.faults }
        ensures bounded { AreCounts self.new.faults self.new.taken }
        ensures taken { self.new.taken ≡ self.old.taken }
    {
        self.call()?;
        Ok(self.bytes.len() as u64)
    }

    fn read_at(&mut self, place: u64, out: &mut [u8]) -> Result<usize, Failed>
        ensures fails { is_err result ≡ is_failing self.old }
        ensures calls { self.new.calls ≡ next_call self.old }
        ensures same { self.new.bytes ≡ self.old.bytes }
        ensures kept { self.new.listed ≡ self.old.listed }
        ensures at_most { IfOk result (λ n. n ≤ length out.new) }
        ensures read { IfOk result (λ n. take n out.new ≡ take n (drop place self.old.bytes)) }
        ensures some { IfOk result (λ n. place < length self.old.bytes → 0 < length out.old → 0 < n) }
        ensures counted { self.new.faults ≡ counted self.old.faults result }
        ensures later { self.old.faults ≤ self.new.faults }
        ensures bounded { AreCounts self.new.faults self.new.taken }
        ensures taken { IfOk result (λ n. self.new.taken ≡ raised self.old.taken n) }
        ensures not_taken { OnErr result (self.new.taken ≡ self.old.taken) }
    {
        self.call()?;
        let count = copy_from(self.bytes.as_slice(), place, out);
        self.taken = self.taken.saturating_add(count as u64);
        Ok(count)
    }
}
