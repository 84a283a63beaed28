//! The rows that a scan gives of each group.
ghost use Rattle.std.specs.Prelude.{◌≡◌, ◌-◌, ℕ, List, ◌∷◌, length, map, take, zip, true, All, IfOk, IfErr};
ghost use Rattle.std.specs.List.{list_all};
ghost use Rattle.columns_core.specs.Causes.{IsWantOfMemory};
ghost use Rattle.parquet_base.specs.Intervals.{is_well_shaped, rows_of};
ghost use Rattle.parquet_scan.specs.Rows.{first_rows, given_of_kept};
ghost use Rattle.parquet_scan.specs.Scan.{IsApart};

use crate::GroupKept;
use columns_core::{Error, Seq};
use parquet_base::Interval;
use parquet_meta::{PageLocation, RowGroupMetaData};
use std::alloc::Global;

/// A row group, the rows of it that are given, and where its pages stand.
#[derive(Clone, Copy)]
pub(crate) struct GivenRows<'a> {
    pub(crate) group: &'a RowGroupMetaData,
    pub(crate) runs: &'a [Interval],
    pub(crate) locations: &'a [Seq<PageLocation>],
}

/// Of each group the runs of the rows that it gives: the first rows that are kept of all groups, up to a limit.
pub(crate) fn given_runs(
    alloc: Global,
    kept: &[GroupKept],
    limit: Option<usize>,
) -> Result<Vec<Seq<Interval>>, Error>
    requires apart { All IsApart kept.now }
    ensures rows { IfOk result (λ given. map rows_of given.items ≡ given_of_kept limit kept.now) }
    ensures shaped { IfOk result (λ given.
        list_all (λ group. is_well_shaped group.1 (group.0).rows) (zip kept.now given.items) ≡ true) }
    ensures count { IfOk result (λ given. length given.items ≡ length kept.now) }
    ensures memory { IfErr result IsWantOfMemory }
{
    let mut given = Vec::new(alloc);
    let mut left = limit;
    for group in kept {
        given.push(Seq::new(given_of_group(alloc, group, &mut left)?))?;
    }
    Ok(given)
}

/// The runs of the first rows that are kept of a group, up to what is left of a limit.
fn given_of_group(
    alloc: Global,
    group: &GroupKept,
    left: &mut Option<usize>,
) -> Result<Vec<Interval>, Error>
    requires apart { IsApart group.now }
    ensures rows { IfOk result (λ given. (more : List (List ℕ)) →
        first_rows left.old (rows_of group.now.intervals ∷ more)
        ≡ rows_of given.items ∷ first_rows left.new more) }
    ensures shaped { IfOk result (λ given. is_well_shaped given.items group.now.rows ≡ true) }
    ensures memory { IfErr result IsWantOfMemory }
{
    let runs = group.intervals.as_slice();
    let Some(limit) = *left else {
        return Ok(Vec::from_slice(alloc, runs)?);
    };
    let (given, more) = first_runs(alloc, runs, limit)?;
    *left = Some(more);
    Ok(given)
}

/// The runs of the first rows, up to a limit, and what is left of it.
fn first_runs(
    alloc: Global,
    runs: &[Interval],
    limit: usize,
) -> Result<(Vec<Interval>, usize), Error>
    ensures rows { IfOk result (λ found. rows_of found.0.items ≡ take limit (rows_of runs.now)) }
    ensures left { IfOk result (λ found. found.1 ≡ limit - length (rows_of runs.now)) }
    ensures shaped { (rows : ℕ) → is_well_shaped runs.now rows ≡ true →
        IfOk result (λ found. is_well_shaped found.0.items rows ≡ true) }
    ensures memory { IfErr result IsWantOfMemory }
{
    let mut first = Vec::new(alloc);
    let mut left = limit;
    for run in runs {
        let length = run.length.min(left);
        if length > 0 {
            first.push(Interval::new(run.start, length))?;
            left -= length;
        }
    }
    Ok((first, left))
}
