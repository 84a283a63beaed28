//! Scans.
ghost use Rattle.std.specs.Prelude.{◌≡◌, ◌-◌, ◌^◌, ◌≤◌, [], Some, min, map, true, IfOk, IfErr, IfSome, OnOk, All};
ghost use Rattle.columns_core.specs.Causes.{ComesOf, and_then};
ghost use Rattle.columns_core.specs.Chunk.{AreEqualLengths};
ghost use Rattle.parquet_meta.specs.Keeps.{Keeps};
ghost use Rattle.parquet_meta.specs.Reads.{ReadsFile};
ghost use Rattle.parquet_scan.specs.Causes.{index_causes, metadata_causes, read_causes};
ghost use Rattle.parquet_scan.specs.Cells.{columns_of_chunk, given_chunks};
ghost use Rattle.parquet_scan.specs.Costs.{bytes_behind_footer, pages_lent};
ghost use Rattle.parquet_scan.specs.Request as spec;
ghost use Rattle.parquet_scan.specs.Rows.{file_with, given_row_count, group_counts};
ghost use Rattle.parquet_scan.specs.Scan.{Answers, IsApart, RefusesScan, RisesBy, RisesJustBy, ScanCosts, chunk_shapes, kept_groups as kept_groups_by, kept_of, request_of, rows_in, shape_of};

use crate::Bound;
use crate::chunks::RowsRead;
use crate::given::given_runs;
use crate::groups::{are_pruned, check_fields, counting_groups};
use crate::kept::kept_groups;
use crate::reading::read_groups;
use crate::request::{GroupRequest, Request, is_legal};
use columns_core::{Chunk, Error, Part, Schema, Seq};
use parquet_base::{Interval, Steps};
use parquet_meta::{FileMetaData, Source, read_metadata};
use std::alloc::Global;
use std::sync::ledger::Ledger;

/// The rows of a group that were not ruled out.
#[derive(Drop)]
pub struct GroupKept {
    pub rows: usize,
    pub intervals: Seq<Interval>,
}

/// What a scan gives.
#[derive(Drop)]
pub struct Scan {
    /// How many rows the chunks have together.
    pub rows: usize,
    /// One for each row group of the file.
    pub kept: Seq<GroupKept>,
    pub chunks: Seq<Chunk>,
    /// The steps that were spent, one where a page is lent; at most `usize::MAX`.
    pub pages: usize,
}

/// The rows of the schema's fields that no bound rules out by statistics, the first of them up to a `limit`, in chunks of at most `chunk_size`
/// rows. A chunk has rows of one row group, and without a chunk size all that the group gives.
///
/// `InvalidArgumentError` where the request is not legal on the file, `Io` where a read failed, and other errors by what
/// the file has.
pub fn scan_where<S: Source, L: Ledger>(
    alloc: Global,
    source: &mut S,
    schema: &Schema,
    bounds: &[Bound],
    chunk_size: Option<usize>,
    limit: Option<usize>,
    steps: &mut Steps<L>,
) -> Result<Scan, Error>
    ensures keeps { Keeps S.Source source.old source.new }
    ensures quiet { OnOk result (S.faults source.new ≡ S.faults source.old) }
    ensures answers { let request = request_of schema.now bounds.now chunk_size limit in
        IfOk result (Answers request (S.told source.old)) }
    ensures refuses { let request = request_of schema.now bounds.now chunk_size limit in
        IfErr result (RefusesScan request (S.told source.old) (S.faults source.old) (S.faults source.new)) }
    // What it costs: steps, one where a page is lent, and bytes.
    ensures ticks { steps.old ≤ steps.new }
    ensures pages { IfOk result (λ scan. scan.pages ≡ min (steps.new - steps.old) (2 ^ 64 - 1)) }
    ensures costs { let request = request_of schema.now bounds.now chunk_size limit in
        IfOk result (λ _. ScanCosts request (S.told source.old) steps.old steps.new
        (S.taken source.old) (S.taken source.new)) }
{
    let request = Request {
        fields: schema.fields.as_slice(),
        bounds,
        chunk_size,
        limit,
    };
    let metadata = read_metadata(alloc, source)?;
    if !is_legal(&metadata, &request) {
        return Err(Error::InvalidArgumentError(Part::Request));
    }
    let counts = check_metadata(alloc, &metadata, &request)?;
    scan_groups(alloc, source, &metadata, &counts, &request, steps)
}

/// Which groups count. All that the metadata has for a request, of whatever chunk size and limit, is judged before any group is read.
fn check_metadata(
    alloc: Global,
    metadata: &FileMetaData,
    request: &Request<'_>,
) -> Result<Vec<bool>, Error>
    ensures counts { IfOk result (λ counts.
        counts.items ≡ map (group_counts request.now) metadata.now.row_groups) }
    ensures ok { OnOk result (metadata_causes request.now metadata.now ≡ []) }
    ensures cause { ComesOf result (metadata_causes request.now metadata.now) }
{
    let (columns, groups) = (metadata.columns.as_slice(), metadata.row_groups.as_slice());
    let (fields, bounds) = (request.fields, request.bounds);
    check_fields(columns, fields)?;
    counting_groups(alloc, groups, fields, bounds)
}

/// What is kept of all groups and read of them.
fn scan_groups<S: Source, L: Ledger>(
    alloc: Global,
    source: &mut S,
    metadata: &FileMetaData,
    counts: &[bool],
    request: &Request<'_>,
    steps: &mut Steps<L>,
) -> Result<Scan, Error>
    requires counts { counts.now ≡ map (group_counts request.now) metadata.now.row_groups }
    requires legal { spec.is_legal request.now (Some metadata.now) ≡ true }
    ensures reads { ReadsFile S.Source source.old source.new (λ bytes.
        let file = file_with bytes metadata.now in
        and_then (index_causes request.now file) (read_causes request.now file)) result }
    ensures kept { IfOk result (λ scan. IfSome (S.told source.old) (λ bytes.
        map kept_of scan.kept ≡ kept_groups_by request.now (file_with bytes metadata.now))) }
    ensures chunks { IfOk result (λ scan. IfSome (S.told source.old) (λ bytes.
        given_chunks request.now (file_with bytes metadata.now)
        ≡ Some (map columns_of_chunk scan.chunks))) }
    ensures rows { IfOk result (λ scan. IfSome (S.told source.old) (λ bytes.
        scan.rows ≡ min (given_row_count request.now (file_with bytes metadata.now)) (2 ^ 64 - 1))) }
    ensures shapes { IfOk result (λ scan.
        map shape_of scan.chunks ≡ chunk_shapes request.now scan.kept) }
    ensures apart { IfOk result (λ scan. All IsApart scan.kept) }
    ensures even { IfOk result (λ scan. All AreEqualLengths scan.chunks) }
    ensures own_rows { IfOk result (λ scan. scan.rows ≡ rows_in scan.chunks) }
    ensures ticks { steps.old ≤ steps.new }
    ensures pages { IfOk result (λ scan. scan.pages ≡ min (steps.new - steps.old) (2 ^ 64 - 1)) }
    ensures lent { OnOk result (RisesJustBy (S.told source.old) steps.old steps.new (λ bytes.
        pages_lent request.now (file_with bytes metadata.now))) }
    ensures taken { OnOk result (
        RisesBy (S.told source.old) (S.taken source.old) (S.taken source.new) (λ bytes.
        bytes_behind_footer request.now (file_with bytes metadata.now))) }
{
    let groups = metadata.row_groups.as_slice();
    let by_pages = are_pruned(groups, counts, request.fields, request.bounds);
    let (kept, located) = kept_groups(alloc, source, groups, counts, by_pages, request)?;
    let given = given_runs(alloc, &kept, request.limit)?;
    let mut read = RowsRead {
        chunks: Vec::new(alloc),
        rows: 0,
        pages: 0,
    };
    let asked = GroupRequest {
        fields: request.fields,
        by_pages,
        chunk_size: request.chunk_size,
    };
    read_groups(
        alloc, source, groups, &given, &located, asked, &mut read, steps,
    )?;
    Ok(Scan {
        rows: read.rows,
        kept: Seq::new(kept),
        chunks: Seq::new(read.chunks),
        pages: read.pages,
    })
}
