//! Scans of the file that the words name.
ghost use Rattle.std.specs.Prelude.{◌≡◌, ◌≤◌, ℕ, IfErr, IfOk, IfSome, IsTrue, OnOk};
ghost use Rattle.std.specs.Result.{IsErrAnd};
ghost use Rattle.columns_core.specs.declared.error.Error.TheVariants.{InvalidArgumentError};
ghost use Rattle.columns_core.specs.declared.error.Part.TheVariants.{Request};
ghost use Rattle.parquet_meta.specs.Keeps.{Keeps};
ghost use Rattle.parquet_scan.specs.Scan.{Answers, RefusesScan, ScanCosts};
ghost use Rattle.scan_program.specs.Parsed.{command_of};
ghost use Rattle.scan_program.specs.Program.{lent_between};
ghost use Rattle.scan_program.specs.Sampled.{faults_by, is_too_great, sample_bytes, sample_in, told_by};

use crate::command::Asked;
use crate::sampled::sample_named;
use columns_core::Error;
use parquet_base::Steps;
use parquet_meta::{MemorySource, Source};
use parquet_sample::sample_file;
use parquet_scan::{Scan, scan_where};
use std::alloc::Global;
use std::sync::ledger::Ledger;

/// A scan, and whether numbers of rows and pages stand in place of its rows.
#[derive(Drop)]
pub(crate) struct Scanned {
    pub(crate) scan: Scan,
    pub(crate) summary: bool,
}

/// Scans the sample that the first word names or, where it names none, the source.
pub(crate) fn scan_file<S: Source, L: Ledger>(
    alloc: Global,
    words: &[String],
    asked: &Asked,
    source: &mut S,
    steps: &mut Steps<L>,
) -> Result<Scan, Error>
    ensures keeps { Keeps S.Source source.old source.new }
    ensures quiet { OnOk result (S.faults source.new ≡ S.faults source.old) }
    ensures untouched { IfSome (sample_in words.now) (λ _. source.new ≡ source.old) }
    ensures ticks { steps.old ≤ steps.new }
    ensures answers { let told = told_by words.now (S.told source.old) in
        IfOk result (Answers (command_of asked.now).request told) }
    ensures pages { IfOk result (λ scan. scan.pages ≡ lent_between steps.old steps.new) }
    ensures costs { let told = told_by words.now (S.told source.old) in
        IfOk result (λ _. ScanCosts (command_of asked.now).request told steps.old steps.new
        (S.taken source.old) (S.taken source.new)) }
    ensures refuses { let told = told_by words.now (S.told source.old) in
        let before = faults_by words.now (S.faults source.old) in
        let now = faults_by words.now (S.faults source.new) in
        IfErr result (RefusesScan (command_of asked.now).request told before now) }
    ensures too_great { IfSome (sample_in words.now) (λ sample.
        IsTrue (is_too_great sample) → IsErrAnd result (λ e. e ≡ InvalidArgumentError Request)) }
{
    match sample_named(words) {
        Some(sample) => scan_sample(alloc, sample, asked, steps),
        None => scan_source(alloc, asked, source, steps),
    }
}

/// Scans a sample, whose bytes are there as long as this takes. The run's own source is not asked: whatever its count of taken bytes is, it is the
/// same behind the call (`costs`).
fn scan_sample<L: Ledger>(
    alloc: Global,
    sample: (u32, u32),
    asked: &Asked,
    steps: &mut Steps<L>,
) -> Result<Scan, Error>
    ensures ticks { steps.old ≤ steps.new }
    ensures answers { IfOk result (Answers (command_of asked.now).request (sample_bytes sample)) }
    ensures pages { IfOk result (λ scan. scan.pages ≡ lent_between steps.old steps.new) }
    ensures costs { let costs = ScanCosts (command_of asked.now).request (sample_bytes sample) in
        (taken : ℕ) → IfOk result (λ _. costs steps.old steps.new taken taken) }
    ensures refuses { IfErr result (RefusesScan (command_of asked.now).request (sample_bytes sample) 0 0) }
    ensures too_great { IsTrue (is_too_great sample)
        → IsErrAnd result (λ e. e ≡ InvalidArgumentError Request) }
{
    let (rows, seed) = sample;
    let mut source = MemorySource::new(sample_file(alloc, rows, seed)?);
    scan_source(alloc, asked, &mut source, steps)
}

/// Scans a source.
fn scan_source<S: Source, L: Ledger>(
    alloc: Global,
    asked: &Asked,
    source: &mut S,
    steps: &mut Steps<L>,
) -> Result<Scan, Error>
    ensures keeps { Keeps S.Source source.old source.new }
    ensures quiet { OnOk result (S.faults source.new ≡ S.faults source.old) }
    ensures ticks { steps.old ≤ steps.new }
    ensures answers { IfOk result (Answers (command_of asked.now).request (S.told source.old)) }
    ensures pages { IfOk result (λ scan. scan.pages ≡ lent_between steps.old steps.new) }
    ensures costs { IfOk result (λ _. ScanCosts (command_of asked.now).request (S.told source.old)
        steps.old steps.new (S.taken source.old) (S.taken source.new)) }
    ensures refuses { let faults = S.faults in
        IfErr result
        (RefusesScan (command_of asked.now).request (S.told source.old)
        (faults source.old) (faults source.new)) }
{
    scan_where(
        alloc,
        source,
        &asked.schema,
        asked.bounds.as_slice(),
        asked.chunk_size,
        asked.limit,
        steps,
    )
}
