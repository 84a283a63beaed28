//! Runs of the program.
ghost use Rattle.std.specs.Prelude.{◌≡◌, ◌≢◌, ◌⊎◌, ◌≤◌, IfErr, IfNone, IfOk, IfSome, IsTrue, None, OnOk};
ghost use Rattle.std.specs.Result.{IsErrAnd};
ghost use Rattle.parquet_base.specs.Failures.{MayFail};
ghost use Rattle.parquet_meta.specs.Keeps.{Keeps};
ghost use Rattle.parquet_scan.specs.Causes.{IsValid};
ghost use Rattle.parquet_scan.specs.Scan.{ScanCosts};
ghost use Rattle.pq_common.specs.Endings.{has_answer, is_refusal};
ghost use Rattle.pq_common.specs.Written.{IsAppended, IsFrontAppended};
ghost use Rattle.scan_program.specs.Program.{command_in, lent_between, report_of};
ghost use Rattle.scan_program.specs.Program.{IsLegal, IsStatusOfRefusal, OnCommand, Reports};
ghost use Rattle.scan_program.specs.Sampled.{faults_by, is_too_great, sample_in, told_by};

use crate::command::read_words;
use crate::report::write_report;
use crate::scanned::{Scanned, scan_file};
use parquet_base::Steps;
use parquet_meta::Source;
use pq_common::{Sink, Status, status_of};
use std::alloc::Global;
use std::sync::ledger::Ledger;

/// Scans what the first word names as the other words ask, and writes what it found.
///
/// The first word `@sample:ROWS:SEED`, with two numbers of 1 to 10 decimal digits and 32 bits, names a sample, and every
/// other the source. A sample has at most 2,000,000 rows; more do not fit any request.
pub fn run<S: Source, K: Sink, L: Ledger>(
    alloc: Global,
    words: &[String],
    source: &mut S,
    out: &mut K,
    steps: &mut Steps<L>,
) -> Status
    ensures keeps { Keeps S.Source source.old source.new }
    ensures untouched { IfSome (sample_in words.now) (λ _. source.new ≡ source.old) }
    ensures sink_failures { K.faults out.old ≤ K.faults out.new }
    ensures ticks { steps.old ≤ steps.new }

    // The words are refused exactly where they spell no command; only memory may run out before that.
    ensures words { result ≡ Status.Words → command_in words.now ≡ None }
    ensures no_words { IfNone (command_in words.now)
        ((result ≡ Status.Words) ⊎ (result ≡ Status.Memory)) }

    // At the end the report on a scan that answers the request stands in the sink, and behind a failed write a front of it, not all.
    ensures done { result ≡ Status.Done → IfSome (command_in words.now) (λ command.
        Reports command (told_by words.now (S.told source.old)) (lent_between steps.old steps.new)
        (IsAppended (K.written out.old) (K.written out.new))) }
    ensures front { result ≡ Status.Writing → IfSome (command_in words.now) (λ command.
        Reports command (told_by words.now (S.told source.old)) (lent_between steps.old steps.new)
        (IsFrontAppended (K.written out.old) (K.written out.new))) }

    // What it costs.
    ensures costs { let told = told_by words.now (S.told source.old) in
        IsTrue (has_answer result) → IfSome (command_in words.now) (λ command.
        ScanCosts command.request told steps.old steps.new (S.taken source.old) (S.taken source.new)) }

    // A run ends otherwise only where the scan refuses the request; memory may run out at any time.
    ensures refused { let told = told_by words.now (S.told source.old) in
        let before = faults_by words.now (S.faults source.old) in
        let now = faults_by words.now (S.faults source.new) in
        IsTrue (is_refusal result) → IfSome (command_in words.now) (λ command.
        IsStatusOfRefusal command.request told before now result) }
    ensures complete { let told = told_by words.now (S.told source.old) in
        let before = faults_by words.now (S.faults source.old) in
        let now = faults_by words.now (S.faults source.new) in
        OnCommand (command_in words.now) told (λ command bytes.
        IsLegal command bytes → IsValid command.request bytes
        → (MayFail before now → ⊥)
        → (MayFail (K.faults out.old) (K.faults out.new) → ⊥)
        → (result ≡ Status.Done) ⊎ (result ≡ Status.Memory)) }
    ensures too_great { IfSome (sample_in words.now) (λ sample. IsTrue (is_too_great sample)
        → IfSome (command_in words.now) (λ _.
        (result ≡ Status.Argument) ⊎ (result ≡ Status.Memory))) }

    // Nothing is written but where all is read without a failure, and writing fails only where the sink may fail.
    ensures read { IsTrue (has_answer result) → S.faults source.new ≡ S.faults source.old }
    ensures nothing { result ≢ Status.Done → result ≢ Status.Writing →
        K.written out.new ≡ K.written out.old }
    ensures writing { result ≡ Status.Writing → MayFail (K.faults out.old) (K.faults out.new) }
    ensures quiet { result ≢ Status.Writing → K.faults out.new ≡ K.faults out.old }
{
    match scan_for(alloc, words, source, steps) {
        Err(status) => status,
        Ok(scanned) => match write_report(out, &scanned) {
            Ok(()) => Status::Done,
            Err(_) => Status::Writing,
        },
    }
}

/// The scan that the words ask for, or how the run ends without it.
fn scan_for<S: Source, L: Ledger>(
    alloc: Global,
    words: &[String],
    source: &mut S,
    steps: &mut Steps<L>,
) -> Result<Scanned, Status>
    ensures keeps { Keeps S.Source source.old source.new }
    ensures quiet { OnOk result (S.faults source.new ≡ S.faults source.old) }
    ensures untouched { IfSome (sample_in words.now) (λ _. source.new ≡ source.old) }
    ensures ticks { steps.old ≤ steps.new }
    ensures ended { IfErr result (λ status. (status ≢ Status.Done) × (status ≢ Status.Writing)) }
    ensures words { IfErr result (λ status. status ≡ Status.Words → command_in words.now ≡ None) }
    ensures no_words { IfNone (command_in words.now)
        (IsErrAnd result (λ status. (status ≡ Status.Words) ⊎ (status ≡ Status.Memory))) }
    ensures scanned { IfOk result (λ scanned. IfSome (command_in words.now) (λ command.
        Reports command (told_by words.now (S.told source.old)) (lent_between steps.old steps.new)
        (λ found. found ≡ report_of scanned.summary scanned.scan))) }
    ensures costs { let told = told_by words.now (S.told source.old) in
        IfOk result (λ _. IfSome (command_in words.now) (λ command.
        ScanCosts command.request told steps.old steps.new (S.taken source.old) (S.taken source.new))) }
    ensures refused { let told = told_by words.now (S.told source.old) in
        let before = faults_by words.now (S.faults source.old) in
        let now = faults_by words.now (S.faults source.new) in
        IfErr result (λ status. IsTrue (is_refusal status) → IfSome (command_in words.now) (λ command.
        IsStatusOfRefusal command.request told before now status)) }
    ensures complete { let told = told_by words.now (S.told source.old) in
        let before = faults_by words.now (S.faults source.old) in
        let now = faults_by words.now (S.faults source.new) in
        IfErr result (λ status. OnCommand (command_in words.now) told (λ command bytes.
        IsLegal command bytes → IsValid command.request bytes
        → (MayFail before now → ⊥) → status ≡ Status.Memory)) }
    ensures too_great { IfSome (sample_in words.now) (λ sample. IsTrue (is_too_great sample)
        → IfSome (command_in words.now)
        (λ _. IsErrAnd result (λ status. (status ≡ Status.Argument) ⊎ (status ≡ Status.Memory)))) }
{
    match read_words(alloc, words) {
        Err(_) => Err(Status::Memory),
        Ok(None) => Err(Status::Words),
        Ok(Some(asked)) => match scan_file(alloc, words, &asked, source, steps) {
            Ok(scan) => Ok(Scanned {
                scan,
                summary: asked.summary,
            }),
            Err(error) => Err(status_of(&error)),
        },
    }
}
