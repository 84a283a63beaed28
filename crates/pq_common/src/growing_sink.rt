//! A sink in memory that grows.
ghost use Rattle.std.specs.Prelude.{◌≡◌, ◌^◌, ◌<◌, ◌≤◌, [], Some, length, take, IfOk, OnErr, OnOk};
ghost use Rattle.parquet_base.specs.Failures.{CountsFailures};
ghost use Rattle.parquet_meta.specs.Source.{counted as counted_by};
ghost use Rattle.pq_common.specs.Written.{IsAppended};

use crate::sink::Sink;
use parquet_meta::Failed;
use std::alloc::Global;

/// A sink in memory that grows, and fails only where memory runs out.
#[derive(Drop)]
pub(crate) struct GrowingSink {
    pub(crate) bytes: Vec<u8>,
    faults: u64,
}

impl GrowingSink {
    /// A sink that was given nothing.
    pub(crate) fn new(alloc: Global) -> Self
        ensures { result.bytes.items ≡ [] }
    {
        GrowingSink {
            bytes: Vec::new(alloc),
            faults: 0,
        }
    }
}

impl Sink for GrowingSink {
    ghost written = { λ sink. Some sink.bytes.items };

    ghost faults = { λ sink. sink.faults };

    fn write(&mut self, piece: &[u8]) -> Result<usize, Failed>
        ensures at_most { IfOk result (λ n. n ≤ length piece.now) }
        ensures some { IfOk result (λ n. 0 < length piece.now → 0 < n) }
        ensures taken { IfOk result (λ n.
            IsAppended (Some self.old.bytes.items) (Some self.new.bytes.items) (take n piece.now)) }
        ensures refused { OnErr result (Some self.new.bytes.items ≡ Some self.old.bytes.items) }
        ensures counted { CountsFailures self.old.faults self.new.faults result }
        ensures raised { self.new.faults ≡ counted_by self.old.faults result }
        ensures bounded { self.new.faults < 2 ^ 64 }
        ensures quiet { OnOk result (self.new.faults ≡ self.old.faults) }
    {
        let faults = self.faults;
        match self.bytes.extend_from_slice(piece) {
            Ok(()) => Ok(piece.len()),
            Err(_) => {
                self.faults = faults.saturating_add(1);
                Err(Failed)
            }
        }
    }
}
