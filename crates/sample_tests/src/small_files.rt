//! What small files tell: the statistics of a group, and the pages that a closure chooses.
use crate::page_maps::{are_selected, field, number_of_pages};
use crate::page_statistics::has_cells;
use columns_core::{Cell, DataType, Error};
use files_for_tests::{F1, F3};
use parquet_base::Interval;
use parquet_indexes::read_filtered_pages;
use parquet_meta::{MemorySource, read_metadata};
use parquet_page::FilteredPage;
use parquet_statistics::{Statistics, deserialize};
use std::alloc::Global;
use std::test::Fail;

/// What the first file's only group tells of a field of this name.
fn told_of(rt: &HostRuntime, name: &str) -> Result<Statistics, Error> {
    let mut source = MemorySource::new(Vec::from_slice(rt.alloc(), &F1)?);
    let metadata = read_metadata(rt.alloc(), &mut source)?;
    let field = field(rt, name, DataType::Int32)?;
    deserialize(rt.alloc(), &field, metadata.row_groups.as_slice())
}

#[test]
fn statistics_of_a_group(rt: HostRuntime) -> Result<(), Fail> {
    let Ok(told) = told_of(&rt, "a") else {
        return Err(Fail::from("no statistics"));
    };
    assert!(rt; has_cells(&rt, &told.null_count, &[Cell::Int(0)]));
    assert!(rt; has_cells(&rt, &told.distinct_count, &[Cell::Null]));
    assert!(rt; has_cells(&rt, &told.min_value, &[Cell::Int(10)]));
    assert!(rt; has_cells(&rt, &told.max_value, &[Cell::Int(20)]));
    assert!(rt;
        matches!(
            told_of(&rt, "b").err(),
            Some(Error::InvalidArgumentError(_))
        )
    );
    Ok(())
}

fn copy_of(alloc: Global, intervals: &[Interval]) -> Result<Vec<Interval>, Error> {
    Ok(Vec::from_slice(alloc, intervals)?)
}

/// The pages of the columns `a` and `b` of the third file that have rows of these intervals.
fn pages_with(
    rt: &HostRuntime,
    intervals: &[Interval],
) -> Result<Vec<Vec<Vec<FilteredPage>>>, Error> {
    let alloc = rt.alloc();
    let mut source = MemorySource::new(Vec::from_slice(alloc, &F3)?);
    let metadata = read_metadata(alloc, &mut source)?;
    let fields = [
        field(rt, "a", DataType::Int32)?,
        field(rt, "b", DataType::Int32)?,
    ];
    match metadata.row_groups.as_slice().first() {
        Some(group) => read_filtered_pages(alloc, &mut source, group, &fields, |_, _| {
            copy_of(alloc, intervals)
        }),
        None => Err(Error::OutOfMemory),
    }
}

#[test]
fn pages_that_end_at_different_rows(rt: HostRuntime) -> Result<(), Fail> {
    let Ok(maps) = pages_with(&rt, &[Interval::new(4, 4)]) else {
        return Err(Fail::from("no pages"));
    };
    let [a, b] = maps.as_slice() else {
        return Err(Fail::from("not two fields"));
    };
    assert!(rt; are_selected(a, 0, &[]));
    assert!(rt; are_selected(a, 1, &[Interval::new(0, 4)]));
    assert_eq!(rt; number_of_pages(a), 2);
    assert!(rt; are_selected(b, 0, &[]));
    assert!(rt; are_selected(b, 1, &[Interval::new(1, 4)]));
    assert_eq!(rt; number_of_pages(b), 2);
    Ok(())
}

#[test]
fn intervals_that_are_refused(rt: HostRuntime) {
    let none = pages_with(&rt, &[Interval::new(5, 0)]).err();
    assert!(rt; matches!(none, Some(Error::InvalidArgumentError(_))));
    let twice = pages_with(&rt, &[Interval::new(4, 2), Interval::new(5, 1)]).err();
    assert!(rt; matches!(twice, Some(Error::InvalidArgumentError(_))));
}
