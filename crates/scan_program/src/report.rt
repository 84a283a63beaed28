//! The report on a scan, written from where its parts lie. Nothing here takes memory, so that only the sink can fail.
ghost use Rattle.std.specs.Prelude.{◌≡◌, ◌++◌, OnErr, OnOk};
ghost use Rattle.parquet_base.specs.Failures.{CountsFailures};
ghost use Rattle.pq_common.specs.Taken.{TakesBytes};
ghost use Rattle.pq_common.specs.Written.{IsAppended, IsFrontAppended};
ghost use Rattle.scan_program.specs.Program.{report_of};

use crate::chunks::push_chunks;
use crate::groups::{push_groups, push_summary};
use crate::scanned::Scanned;
use parquet_meta::Failed;
use pq_common::{Block, Sink};

/// Writes the report on a scan.
pub(crate) fn write_report<K: Sink>(out: &mut K, scanned: &Scanned) -> Result<(), Failed>
    ensures ok { let report = report_of scanned.now.summary scanned.now.scan in
        OnOk result (IsAppended (K.written out.old) (K.written out.new) report) }
    ensures err { let report = report_of scanned.now.summary scanned.now.scan in
        OnErr result (IsFrontAppended (K.written out.old) (K.written out.new) report) }
    ensures counted { CountsFailures (K.faults out.old) (K.faults out.new) result }
    ensures quiet { OnOk result (K.faults out.new ≡ K.faults out.old) }
{
    let mut block = Block::new();
    push_report(&mut block, out, scanned)?;
    block.flush(out)
}

/// Takes the lines of all groups, and then those of the chunks or, in their place, how many rows and pages there are.
fn push_report<K: Sink>(block: &mut Block, out: &mut K, scanned: &Scanned) -> Result<(), Failed>
    ensures { let report = report_of scanned.now.summary scanned.now.scan in
        TakesBytes K.Sink out.old out.new (block.old ++ report) block.new result }
{
    let scan = &scanned.scan;
    push_groups(block, out, scan.kept.as_slice())?;
    if scanned.summary {
        push_summary(block, out, scan.rows, scan.pages)
    } else {
        push_chunks(block, out, scan.chunks.as_slice())
    }
}
