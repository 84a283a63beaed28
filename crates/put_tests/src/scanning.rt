//! Scans of files in memory, and checks of what they give.
ghost use Rattle.std.specs.Prelude.{◌≡◌, ◌<◌};

use crate::asked::{Column, cell_of, name_of, schema_of, type_of};
use crate::putting::{Cells, Put, put_as};
use columns_core::{Array, Cell, Chunk, DataType, Error, Schema};
use parquet_base::Steps;
use parquet_meta::{MemorySource, Source};
use parquet_scan::{Bound, GroupKept, Interval, Scalar, Scan, scan_where};
use std::alloc::Global;
use std::marker::Brand;
use std::sync::ledger::{Blank, Ledger};
use std::test::Fail;

/// The least and the greatest value that are asked for, each empty where it is not asked for.
pub(crate) type Ends<'a> = (&'a str, &'a str);

/// The first row and the number of rows.
pub(crate) type Run = (usize, usize);

fn scan_counted<S: Source, L: Ledger>(
    alloc: Global,
    source: &mut S,
    schema: &Schema,
    bounds: &[Bound],
    blank: Blank,
) -> Result<Scan, Error>
    requires name { blank.name ≡ L.name }
    requires parts { blank.parts ≡ L.parts }
    requires whole { 0 < blank.parts }
{
    let mut steps = Steps::<L>::new(blank);
    scan_where(alloc, source, schema, bounds, None, None, &mut steps)
}

fn scalar_of(alloc: Global, of: &DataType, text: &str) -> Result<Option<Scalar>, Fail> {
    if text.is_empty() {
        return Ok(None);
    }
    match cell_of(alloc, of, text)? {
        Cell::Int(number) => Ok(Some(Scalar::Int(number))),
        Cell::Text(text) => Ok(Some(Scalar::Text(text))),
        Cell::Bytes(bytes) => Ok(Some(Scalar::Bytes(bytes))),
        _ => Err(Fail::new(format_args!("{text} is no end"))),
    }
}

/// The bound on the first column, where it has an end.
fn bounds_of(alloc: Global, columns: &[Column<'_>], ends: Ends<'_>) -> Result<Vec<Bound>, Fail> {
    let mut bounds = Vec::new(alloc);
    if let [(name, type_text, _), ..] = columns {
        let of = type_of(alloc, type_text)?;
        let low = scalar_of(alloc, &of, ends.0)?;
        let high = scalar_of(alloc, &of, ends.1)?;
        if low.is_some() || high.is_some() {
            bounds.push(Bound {
                field: name_of(alloc, name)?,
                low,
                high,
            })?;
        }
    }
    Ok(bounds)
}

/// What a scan of a file by columns and a bound on the first of them answers.
pub(crate) fn scan(
    alloc: Global,
    bytes: Vec<u8>,
    columns: &[Column<'_>],
    ends: Ends<'_>,
) -> Result<Scan, Fail> {
    let schema = schema_of(alloc, columns)?;
    let bounds = bounds_of(alloc, columns, ends)?;
    let mut source = MemorySource::new(bytes);
    let answer = scan_counted::<MemorySource, Brand>(
        alloc,
        &mut source,
        &schema,
        &bounds,
        Blank::new(1),
    );
    Ok(answer?)
}

fn are_kept(kept: &GroupKept, rows: usize, runs: &[Run]) -> bool {
    let is_run = |(interval, run): (&Interval, &Run)| (interval.start, interval.length) == *run;
    let intervals = kept.intervals.as_slice();
    kept.rows == rows && intervals.len() == runs.len() && intervals.iter().zip(runs).all(is_run)
}

/// Fails where the array has other cells than those of the runs.
fn check_cells(alloc: Global, array: &Array, cells: &[&str], runs: &[Run]) -> Result<(), Fail> {
    let mut place = 0;
    for (start, length) in runs {
        for text in cells.iter().skip(*start).take(*length) {
            let wanted = cell_of(alloc, array.data_type(), text)?;
            if place >= array.len() || array.item(alloc, place)? != wanted {
                return Err(Fail::new(format_args!("{text} is not at {place}")));
            }
            place += 1;
        }
    }
    if place != array.len() {
        return Err(Fail::new(format_args!("{place} cells are too few")));
    }
    Ok(())
}

fn check_chunk(alloc: Global, chunk: &Chunk, cells: Cells<'_>, runs: &[Run]) -> Result<(), Fail> {
    if chunk.arrays().len() != cells.len() {
        return Err(Fail::new("the chunk has other columns"));
    }
    for (array, cells) in chunk.arrays().iter().zip(cells) {
        check_cells(alloc, array, cells, runs)?;
    }
    Ok(())
}

/// Fails where the scan keeps other rows than the runs of each group, or gives other cells than were put there.
pub(crate) fn check_scan(
    alloc: Global,
    scan: &Scan,
    chunks: &[Cells<'_>],
    kept: &[&[Run]],
) -> Result<(), Fail> {
    let mut given = scan.chunks.as_slice().iter();
    if scan.kept.as_slice().len() != chunks.len() || kept.len() != chunks.len() {
        return Err(Fail::new("there are other groups"));
    }
    for (group, (cells, runs)) in scan.kept.as_slice().iter().zip(chunks.iter().zip(kept)) {
        let rows = cells.first().map_or(0, |column| column.len());
        if !are_kept(group, rows, runs) {
            let intervals = group.intervals.as_slice();
            return Err(Fail::new(format_args!("of {cells:?} {intervals:?} are kept")));
        }
        if !runs.is_empty() {
            match given.next() {
                Some(chunk) => check_chunk(alloc, chunk, cells, runs)?,
                None => return Err(Fail::new("a chunk is not there")),
            }
        }
    }
    Ok(())
}

/// Puts a file, and scans it: how many pages the scan opens. Fails as `check_scan` does.
pub(crate) fn check_put(
    alloc: Global,
    put: Put<'_>,
    ends: Ends<'_>,
    kept: &[&[Run]],
) -> Result<usize, Fail> {
    let file = put_as(alloc, put.columns, put)??;
    let scan = scan(alloc, file, put.columns, ends)?;
    check_scan(alloc, &scan, put.chunks, kept)?;
    Ok(scan.pages)
}
