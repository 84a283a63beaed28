//! How a crate calls a scan: one function over `scan_where`, whose contract comes of the scan's own.
#![tactic(auto)]

ghost use Rattle.std.specs.Prelude.{◌≡◌, None, IfErr, IfOk, IfSome};
ghost use Rattle.parquet_meta.specs.Keeps.{Keeps};
ghost use Rattle.parquet_scan.specs.Causes.{IsValid};
ghost use Rattle.parquet_scan.specs.Rows.{given_row_count};
ghost use Rattle.parquet_scan.specs.Scan.{OnFile, RefusesScan, ScanCosts, request_of};

use columns_core::{Error, Schema};
use parquet_base::Steps;
use parquet_meta::Source;
use parquet_scan::{Bound, scan_where};
use std::alloc::Global;
use std::sync::ledger::Ledger;

/// How many rows of a file its statistics leave where they are asked for by bounds.
pub fn rows_left<S: Source, L: Ledger>(
    alloc: Global,
    source: &mut S,
    schema: &Schema,
    bounds: &[Bound],
    steps: &mut Steps<L>,
) -> Result<usize, Error>
    ensures counts { let request = request_of schema.now bounds.now None None in
        IfOk result (λ rows. OnFile (S.told source.old) (λ file. rows ≡ given_row_count request file)) }
    ensures valid { let request = request_of schema.now bounds.now None None in
        IfOk result (λ _. IfSome (S.told source.old) (IsValid request)) }
    ensures refuses { let request = request_of schema.now bounds.now None None in
        IfErr result (RefusesScan request (S.told source.old) (S.faults source.old) (S.faults source.new)) }
    ensures costs { let request = request_of schema.now bounds.now None None in
        IfOk result (λ _. ScanCosts request (S.told source.old) steps.old steps.new
        (S.taken source.old) (S.taken source.new)) }
    ensures keeps { Keeps S.Source source.old source.new }
{
    let scan = scan_where(alloc, source, schema, bounds, None, None, steps)?;
    Ok(scan.rows)
}
