//! Runs of the program.
ghost use Rattle.std.specs.Prelude.{◌≡◌, ◌≢◌, ◌≤◌, ◌+◌, ◌↔◌, length, IfSome, IsTrue};
ghost use Rattle.parquet_meta.specs.Keeps.{Keeps};
ghost use Rattle.pq_common.specs.Endings.{has_answer, is_refusal};
ghost use Rattle.inspect_program.specs.Inspection.{most_inspected};
ghost use Rattle.inspect_program.specs.Program.{IsStatusOfInspection, ShowsSoundBytes, WritesInspection};

use crate::file::inspect;
use parquet_meta::Source;
use pq_common::{Out, ToolStatus, status_of, write_all};
use std::alloc::Global;

/// Writes what the source says of itself. The one word names the file, which the caller hands as the source.
pub fn run_inspect<S: Source, K: Out>(
    alloc: Global,
    words: &[String],
    source: &mut S,
    out: &mut K,
) -> ToolStatus
    ensures keeps { Keeps S.Source source.old source.new }

    // The words are refused exactly where there is not one of them, and then nothing is read.
    ensures words { (result ≡ ToolStatus.Words) ↔ (length words.now ≢ 1) }
    ensures untouched { length words.now ≢ 1 → source.new ≡ source.old }

    // A run without an answer ends as the source or its bytes refuse to be shown; memory may run out at any time.
    ensures writes { WritesInspection K.Sink (S.told source.old) out.old out.new result }
    ensures read { IsTrue (has_answer result) → S.faults source.new ≡ S.faults source.old }
    ensures refused { IsTrue (is_refusal result) → IsStatusOfInspection
        (S.told source.old) (S.faults source.old) (S.faults source.new) result }
    ensures complete { length words.now ≡ 1 →
        ShowsSoundBytes S.Source K.Sink source.old source.new out.old out.new result }
    ensures costs { IfSome (S.told source.old) (λ bytes.
        S.taken source.new ≤ S.taken source.old + most_inspected bytes) }
{
    if words.len() != 1 {
        return ToolStatus::Words;
    }
    match inspect(alloc, source) {
        Err(error) => status_of(&error),
        Ok(text) => match write_all(out, &text) {
            Ok(()) => ToolStatus::Done,
            Err(_) => ToolStatus::Writing,
        },
    }
}
