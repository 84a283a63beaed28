//! The lines of row groups, and of what a scan counts, on their way to a sink.
ghost use Rattle.std.specs.Prelude.{◌++◌, codes, flat_map, map};
ghost use Rattle.std.specs.List.{enumerate_from};
ghost use Rattle.parquet_scan.specs.Scan.{kept_of};
ghost use Rattle.pq_common.specs.Taken.{TakesBytes};
ghost use Rattle.scan_program.specs.Report.{group_line, interval_text, intervals_text, summary_lines};

use parquet_base::Interval;
use parquet_meta::Failed;
use parquet_scan::GroupKept;
use pq_common::{Block, Sink};

/// Takes the lines of the groups.
pub(crate) fn push_groups<K: Sink>(
    block: &mut Block,
    out: &mut K,
    kept: &[GroupKept],
) -> Result<(), Failed>
    ensures { let lines = flat_map group_line (enumerate_from 0 (map kept_of kept.now)) in
        TakesBytes K.Sink out.old out.new (block.old ++ lines) block.new result }
{
    for i in 0..kept.len() {
        push_group(block, out, i, &kept[i])?;
    }
    Ok(())
}

/// Takes the line of a group.
fn push_group<K: Sink>(
    block: &mut Block,
    out: &mut K,
    group: usize,
    kept: &GroupKept,
) -> Result<(), Failed>
    ensures { let text = group_line (group, kept_of kept.now) in
        TakesBytes K.Sink out.old out.new (block.old ++ text) block.new result }
{
    block.push_labelled(out, b"group ", group)?;
    block.push_labelled(out, b" ", kept.rows)?;
    push_runs(block, out, kept.intervals.as_slice())
}

/// Takes the runs of a group behind a blank, and the end of the line.
fn push_runs<K: Sink>(block: &mut Block, out: &mut K, runs: &[Interval]) -> Result<(), Failed>
    ensures { let text = codes " " ++ (intervals_text runs.now ++ codes "\n") in
        TakesBytes K.Sink out.old out.new (block.old ++ text) block.new result }
{
    block.push(out, b" ")?;
    push_intervals(block, out, runs)?;
    block.push(out, b"\n")
}

/// Takes the runs of a group, or a dash.
fn push_intervals<K: Sink>(block: &mut Block, out: &mut K, runs: &[Interval]) -> Result<(), Failed>
    ensures { let text = intervals_text runs.now in
        TakesBytes K.Sink out.old out.new (block.old ++ text) block.new result }
{
    match runs.split_first() {
        None => block.push(out, b"-"),
        Some((first, others)) => {
            push_interval(block, out, *first)?;
            push_others(block, out, others)
        }
    }
}

/// Takes runs, each behind a blank.
fn push_others<K: Sink>(block: &mut Block, out: &mut K, runs: &[Interval]) -> Result<(), Failed>
    ensures { let text = flat_map (λ run. codes " " ++ interval_text run) runs.now in
        TakesBytes K.Sink out.old out.new (block.old ++ text) block.new result }
{
    for run in runs {
        push_other(block, out, *run)?;
    }
    Ok(())
}

fn push_other<K: Sink>(block: &mut Block, out: &mut K, run: Interval) -> Result<(), Failed>
    ensures { let text = codes " " ++ interval_text run in
        TakesBytes K.Sink out.old out.new (block.old ++ text) block.new result }
{
    block.push(out, b" ")?;
    push_interval(block, out, run)
}

/// Takes a run of rows.
fn push_interval<K: Sink>(block: &mut Block, out: &mut K, run: Interval) -> Result<(), Failed>
    ensures { TakesBytes K.Sink out.old out.new (block.old ++ interval_text run) block.new result }
{
    block.push_unsigned(out, run.start)?;
    block.push_labelled(out, b"+", run.length)
}

/// Takes how many rows and pages there are.
pub(crate) fn push_summary<K: Sink>(
    block: &mut Block,
    out: &mut K,
    rows: usize,
    pages: usize,
) -> Result<(), Failed>
    ensures { let lines = summary_lines rows pages in
        TakesBytes K.Sink out.old out.new (block.old ++ lines) block.new result }
{
    block.push_labelled(out, b"rows ", rows)?;
    block.push_labelled(out, b"\npages ", pages)?;
    block.push(out, b"\n")
}
