//! Which rows of each group are kept.
ghost use Rattle.std.specs.Prelude.{◌≡◌, ◌≤◌, ◌+◌, ◌&&◌, length, map, true, All, IfOk, IfSome, OnOk};
ghost use Rattle.std.specs.List.{list_all};
ghost use Rattle.parquet_base.specs.Intervals.{AreApart, maximal_runs};
ghost use Rattle.parquet_scan.specs.Counting.{AreAllLocated, AreFirst, AreLocatedIf, index_causes_if, index_causes_of_groups, indexes_taken, indexes_taken_of_groups, kept_if, kept_of_groups};
ghost use Rattle.parquet_meta.specs.declared.metadata.RowGroupMetaData.{RowGroupMetaData as RowGroup};
ghost use Rattle.parquet_meta.specs.Reads.{ReadsFile};
ghost use Rattle.parquet_scan.specs.declared.scanning.GroupKept.{GroupKept as Kept};
ghost use Rattle.parquet_scan.specs.Request.{is_legal_bound_of};
ghost use Rattle.parquet_scan.specs.Rows.{pages_keep};
ghost use Rattle.parquet_scan.specs.Scan.{IsApart};

use crate::GroupKept;
use crate::locations::Located;
use crate::pruning::kept_by_pages;
use crate::request::Request;
use columns_core::{Error, Seq};
use parquet_base::{Interval, runs_of_all};
use parquet_meta::{RowGroupMetaData, Source};
use std::alloc::Global;

/// Of each group its rows and, if it counts, the runs of those that are kept. Where rows are pruned by pages, also where the pages of each
/// group with a run stand.
pub(crate) fn kept_groups<S: Source>(
    alloc: Global,
    source: &mut S,
    groups: &[RowGroupMetaData],
    counts: &[bool],
    by_pages: bool,
    request: &Request<'_>,
) -> Result<(Vec<GroupKept>, Vec<Located>), Error>
    requires lengths { length counts.now ≡ length groups.now }
    requires legal { list_all (is_legal_bound_of request.now.fields) request.now.bounds ≡ true }
    ensures reads { ReadsFile S.Source source.old source.new (λ bytes.
        index_causes_of_groups by_pages request.now.fields request.now.bounds bytes groups.now counts.now)
        result }
    ensures kept { IfOk result (λ found. IfSome (S.told source.old) (λ bytes. found.0.items
        ≡ kept_of_groups by_pages request.now.fields request.now.bounds bytes groups.now counts.now)) }
    ensures rows { IfOk result (λ found.
        map (λ group. group.rows) found.0.items ≡ map (λ (group : RowGroup). group.num_rows) groups.now) }
    ensures apart { IfOk result (λ found. All IsApart found.0.items) }
    ensures first { IfOk result (λ found.
        All (λ (group : Kept). AreFirst by_pages group.intervals) found.0.items) }
    ensures located { IfOk result (λ found.
        AreAllLocated by_pages (S.told source.old) request.now.fields groups.now
        (map (λ (group : Kept). group.intervals) found.0.items) found.1.items) }
    ensures each { IfOk result (λ found. length found.1.items ≡ length groups.now) }
    ensures taken { OnOk result (S.taken source.new ≤ S.taken source.old
        + indexes_taken_of_groups by_pages request.now.fields request.now.bounds groups.now counts.now) }
{
    let mut kept = Vec::with_capacity(alloc, groups.len())?;
    let mut located = Vec::with_capacity(alloc, groups.len())?;
    for i in 0..groups.len() {
        let (group, locations) = kept_group(
            alloc, source, &groups[i], counts[i], by_pages, request,
        )?;
        kept.push(group)?;
        located.push(locations)?;
    }
    Ok((kept, located))
}

/// What is kept of a group, and where its pages stand.
fn kept_group<S: Source>(
    alloc: Global,
    source: &mut S,
    group: &RowGroupMetaData,
    counts: bool,
    by_pages: bool,
    request: &Request<'_>,
) -> Result<(GroupKept, Located), Error>
    requires legal { list_all (is_legal_bound_of request.now.fields) request.now.bounds ≡ true }
    ensures reads { ReadsFile S.Source source.old source.new (λ bytes.
        index_causes_if by_pages request.now.fields request.now.bounds bytes (group.now, counts)) result }
    ensures kept { IfOk result (λ found. IfSome (S.told source.old) (λ bytes.
        found.0 ≡ kept_if by_pages request.now.fields request.now.bounds bytes (group.now, counts))) }
    ensures rows { IfOk result (λ found. (found.0).rows ≡ group.now.num_rows) }
    ensures apart { IfOk result (λ found. IsApart found.0) }
    ensures first { IfOk result (λ found. AreFirst by_pages (found.0).intervals) }
    ensures located { IfOk result (λ found.
        AreLocatedIf by_pages (S.told source.old) request.now.fields group.now (found.0).intervals found.1) }
    ensures taken { OnOk result (S.taken source.new ≤ S.taken source.old
        + indexes_taken by_pages request.now.fields request.now.bounds (group.now, counts)) }
{
    let (runs, locations) = kept_runs(alloc, source, group, counts, by_pages, request)?;
    let kept = GroupKept {
        rows: group.num_rows,
        intervals: Seq::new(runs),
    };
    Ok((kept, locations))
}

/// The runs of the kept rows of a group, and where its pages stand. Without pruning by pages the runs are all rows, if it counts, and no page is
/// located.
fn kept_runs<S: Source>(
    alloc: Global,
    source: &mut S,
    group: &RowGroupMetaData,
    counts: bool,
    by_pages: bool,
    request: &Request<'_>,
) -> Result<(Vec<Interval>, Located), Error>
    requires legal { list_all (is_legal_bound_of request.now.fields) request.now.bounds ≡ true }
    ensures reads { ReadsFile S.Source source.old source.new (λ bytes.
        index_causes_if by_pages request.now.fields request.now.bounds bytes (group.now, counts)) result }
    ensures kept { IfOk result (λ found. IfSome (S.told source.old) (λ bytes. found.0.items
        ≡ maximal_runs (λ row. counts && pages_keep by_pages request.now.fields request.now.bounds bytes
        group.now row) group.now.num_rows)) }
    ensures apart { IfOk result (λ found. AreApart 0 found.0.items group.now.num_rows) }
    ensures first { IfOk result (λ found. AreFirst by_pages found.0.items) }
    ensures located { IfOk result (λ found.
        AreLocatedIf by_pages (S.told source.old) request.now.fields group.now found.0.items found.1) }
    ensures taken { OnOk result (S.taken source.new ≤ S.taken source.old
        + indexes_taken by_pages request.now.fields request.now.bounds (group.now, counts)) }
{
    if !counts {
        return Ok((Vec::new(alloc), Seq::new(Vec::new(alloc))));
    }
    if by_pages {
        return kept_by_pages(alloc, source, group, request.fields, request.bounds);
    }
    let runs = runs_of_all(alloc, &[], group.num_rows)?;
    Ok((runs, Seq::new(Vec::new(alloc))))
}
