//! Where a tool's text goes.
ghost use Rattle.std.specs.Prelude.{◌≡◌, ◌+◌, ◌-◌, ◌^◌, ◌<◌, ◌≤◌, ℕ, List, Option, Some, None, length, take, IsTrue, IsFalse, IfOk, IfErr, OnOk, OnErr, MatchResult};
ghost use Rattle.parquet_base.specs.Failures.{CountsFailures};
ghost use Rattle.parquet_meta.specs.Source.{counted as counted_by};
ghost use Rattle.pq_common.specs.Memory.{after_call, empty_memory, is_full_for, refuses_next, with_fault, with_piece};
ghost use Rattle.pq_common.specs.Written.{IsAppended, IsFrontAppended};

use columns_core::Error;
use parquet_meta::Failed;
use std::alloc::Global;
use std::marker::Model;

/// Something that takes bytes one after another.
pub trait Sink {
    /// What it was given, where it tells.
    ghost written: { Self → Option (List ℕ) };

    /// How often a call has failed, up to the last number that is shown. It never falls, and a call that takes a piece leaves it as it was.
    ghost faults: { Self → ℕ };

    /// Takes a front of the piece, and says how long.
    fn write(&mut self, piece: &[u8]) -> Result<usize, Failed>
        ensures at_most { IfOk result (λ n. n ≤ length piece.now) }
        ensures some { IfOk result (λ n. 0 < length piece.now → 0 < n) }
        ensures taken { IfOk result (λ n.
            IsAppended (written self.old) (written self.new) (take n piece.now)) }
        ensures refused { OnErr result (written self.new ≡ written self.old) }
        ensures counted { CountsFailures (faults self.old) (faults self.new) result }
        ensures raised { faults self.new ≡ counted_by (faults self.old) result }
        ensures bounded { faults self.new < 2 ^ 64 }
        ensures quiet { OnOk result (faults self.new ≡ faults self.old) };
}

/// Writes all of a text, in as many pieces as the sink takes it.
pub fn write_all<K: Sink>(out: &mut K, text: &[u8]) -> Result<(), Failed>
    ensures ok { OnOk result (IsAppended (K.written out.old) (K.written out.new) text.now) }
    ensures err { OnErr result (IsFrontAppended (K.written out.old) (K.written out.new) text.now) }
    ensures counted { CountsFailures (K.faults out.old) (K.faults out.new) result }
    ensures quiet { OnOk result (K.faults out.new ≡ K.faults out.old) }
{
    let mut at = 0;
    while at < text.len() {
        at += out.write(&text[at..])?;
    }
    Ok(())
}

/// A sink in memory, which takes as much as it has room for.
#[derive(Drop)]
pub struct MemorySink {
    buffer: Vec<u8>,
    length: usize,
    faults: u64,
}

impl Model for MemorySink {
    ghost use Rattle.std.specs.Prelude.{◌<◌, ◌≤◌, ◌^◌, take, vec_len};
    ghost use Rattle.pq_common.specs.Memory.{Memory};

    ghost Value = { Memory };

    ghost view = { λ sink. record {
      bytes = take sink.length sink.buffer.items;
      capacity = vec_len sink.buffer;
      faults = sink.faults;
    } };

    ghost invariant = { λ sink. (sink.length ≤ vec_len sink.buffer) × (sink.faults < 2 ^ 64) };
}

impl MemorySink {
    ghost use Rattle.columns_core.specs.Causes.{IsWantOfMemory};

    /// An empty sink with the memory for so many bytes.
    pub fn new(alloc: Global, capacity: usize) -> Result<Self, Error>
        ensures empty { IfOk result (λ sink. sink ≡ empty_memory capacity) }
        ensures memory { IfErr result IsWantOfMemory }
    {
        match vec![in alloc; 0u8; capacity] {
            Ok(buffer) => Ok(MemorySink {
                buffer,
                length: 0,
                faults: 0,
            }),
            Err(_) => Err(Error::OutOfMemory),
        }
    }

    /// What it was given.
    pub fn bytes(&self) -> &[u8]
        ensures { result.now ≡ self.now.bytes }
    {
        &self.buffer[..self.length]
    }

    fn count_fault(&mut self)
        ensures counted { self.new ≡ with_fault self.old }
        ensures later { self.old.faults ≤ self.new.faults }
        ensures bounded { self.new.faults < 2 ^ 64 }
    {
        self.faults = self.faults.saturating_add(1);
    }
}

impl Sink for MemorySink {
    ghost written = { λ sink. Some sink.bytes };

    ghost faults = { λ sink. sink.faults };

    fn write(&mut self, piece: &[u8]) -> Result<usize, Failed>
        ensures at_most { IfOk result (λ n. n ≤ length piece.now) }
        ensures some { IfOk result (λ n. 0 < length piece.now → 0 < n) }
        ensures taken { IfOk result (λ n.
            IsAppended (Some self.old.bytes) (Some self.new.bytes) (take n piece.now)) }
        ensures refused { OnErr result (Some self.new.bytes ≡ Some self.old.bytes) }
        ensures counted { CountsFailures self.old.faults self.new.faults result }
        ensures raised { self.new.faults ≡ counted_by self.old.faults result }
        ensures bounded { self.new.faults < 2 ^ 64 }
        ensures quiet { OnOk result (self.new.faults ≡ self.old.faults) }

        // It takes as much as there is room for, and fails exactly where there is none for a piece that is not empty.
        ensures exact { MatchResult result
            (λ n. self.new ≡ with_piece self.old piece.now)
            (λ _. self.new ≡ with_fault self.old) }
        ensures ok { OnOk result (IsFalse (is_full_for self.old piece.now)) }
        ensures err { OnErr result (IsTrue (is_full_for self.old piece.now)) }
    {
        let room = self.buffer.len() - self.length;
        let count = piece.len().min(room);
        if count == 0 && !piece.is_empty() {
            self.count_fault();
            return Err(Failed);
        }
        self.buffer[self.length..self.length + count].copy_from_slice(&piece[..count]);
        self.length += count;
        Ok(count)
    }
}

/// A sink in memory some of whose calls fail.
#[derive(Drop)]
pub struct FailingSink {
    memory: MemorySink,
    calls: u64,
    failing: Vec<u64>,
}

impl Model for FailingSink {
    ghost use Rattle.pq_common.specs.Memory.{FailingCalls};

    ghost Value = { FailingCalls };

    ghost view = { λ sink. record {
      memory = sink.memory;
      calls = sink.calls;
      failing = sink.failing.items;
    } };
}

impl FailingSink {
    ghost use Rattle.columns_core.specs.Causes.{IsWantOfMemory};

    /// An empty sink with the memory for so many bytes. The calls with these numbers fail; the first call is 1.
    pub fn new(alloc: Global, capacity: usize, failing: Vec<u64>) -> Result<Self, Error>
        ensures empty { IfOk result (λ sink.
            sink ≡ record { memory = empty_memory capacity; calls = 0; failing = failing.items }) }
        ensures memory { IfErr result IsWantOfMemory }
    {
        let memory = MemorySink::new(alloc, capacity)?;
        Ok(FailingSink {
            memory,
            calls: 0,
            failing,
        })
    }

    /// What it was given.
    pub fn bytes(&self) -> &[u8]
        ensures { result.now ≡ self.now.memory.bytes }
    {
        self.memory.bytes()
    }
}

impl Sink for FailingSink {
    ghost written = { λ sink. Some sink.memory.bytes };

    ghost faults = { λ sink. sink.memory.faults };

    fn write(&mut self, piece: &[u8]) -> Result<usize, Failed>
        ensures at_most { IfOk result (λ n. n ≤ length piece.now) }
        ensures some { IfOk result (λ n. 0 < length piece.now → 0 < n) }
        ensures taken { IfOk result (λ n.
            IsAppended (Some self.old.memory.bytes) (Some self.new.memory.bytes) (take n piece.now)) }
        ensures refused { OnErr result (Some self.new.memory.bytes ≡ Some self.old.memory.bytes) }
        ensures counted { CountsFailures self.old.memory.faults self.new.memory.faults result }
        ensures raised { self.new.memory.faults ≡ counted_by self.old.memory.faults result }
        ensures bounded { self.new.memory.faults < 2 ^ 64 }
        ensures quiet { OnOk result (self.new.memory.faults ≡ self.old.memory.faults) }

        // A call fails exactly where its number is listed, or there is no room for a piece that is not empty. Else it takes as much as there is
        // room for.
        ensures exact { MatchResult result
            (λ n. self.new ≡ after_call self.old (with_piece self.old.memory piece.now))
            (λ _. self.new ≡ after_call self.old (with_fault self.old.memory)) }
        ensures ok { OnOk result (IsFalse (refuses_next self.old piece.now)) }
        ensures err { OnErr result (IsTrue (refuses_next self.old piece.now)) }
    {
        self.calls = self.calls.saturating_add(1);
        if self.failing.contains(&self.calls) {
            self.memory.count_fault();
            return Err(Failed);
        }
        self.memory.write(piece)
    }
}

/// Standard output.
#[derive(Drop)]
pub struct StdSink<R: Print + Drop> {
    rt: R,
    faults: u64,
}

impl<R: Print + Drop> StdSink<R> {
    /// Standard output, with no fault so far.
    pub fn new(rt: R) -> Self
        ensures { result.faults ≡ 0 }
    {
        StdSink { rt, faults: 0 }
    }
}

impl<R: Print + Drop> Sink for StdSink<R> {
    ghost written = { λ _. None };

    ghost faults = { λ sink. sink.faults };

    fn write(&mut self, piece: &[u8]) -> Result<usize, Failed>
        ensures at_most { IfOk result (λ n. n ≤ length piece.now) }
        ensures some { IfOk result (λ n. 0 < length piece.now → 0 < n) }
        ensures counted { CountsFailures self.old.faults self.new.faults result }
        ensures raised { self.new.faults ≡ counted_by self.old.faults result }
        ensures bounded { self.new.faults < 2 ^ 64 }
        ensures quiet { OnOk result (self.new.faults ≡ self.old.faults) }
    {
        let faults = self.faults;
        match self.rt.write_some(piece) {
            Ok(count) if count > 0 || piece.is_empty() => Ok(count),
            _ => {
                self.faults = faults.saturating_add(1);
                Err(Failed)
            }
        }
    }
}
