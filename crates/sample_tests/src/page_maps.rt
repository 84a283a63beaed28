//! Which pages of a sample file hold given rows. Pages of `id` have 1000 rows, those of `qty` 700.
use columns_core::{DataType, Error, Field, Name, Part, Seq};
use files_for_tests::F1;
use parquet_base::Interval;
use parquet_indexes::{compute_page_row_intervals, has_indexes, pages_of};
use parquet_meta::{
    ColumnChunkMetaData, MemorySource, PageLocation, RowGroupMetaData, read_metadata,
};
use parquet_page::FilteredPage;
use parquet_sample::sample_file;
use std::alloc::Global;
use std::test::Fail;

pub(crate) fn field(rt: &HostRuntime, name: &str, data_type: DataType) -> Result<Field, Error> {
    Ok(Field {
        name: Name::new(String::from_str(rt.alloc(), name)?),
        data_type,
        is_nullable: true,
    })
}

/// The pages of fields of a sample of 2000 rows, with the rows of them that lie in the intervals.
fn pages_with(
    rt: &HostRuntime,
    names: &[&str],
    intervals: &[Interval],
) -> Result<Vec<Vec<Vec<FilteredPage>>>, Error> {
    let mut source = MemorySource::new(sample_file(rt.alloc(), 2000, 0)?);
    let metadata = read_metadata(rt.alloc(), &mut source)?;
    let mut fields = Vec::new(rt.alloc());
    for name in names {
        fields.push(field(rt, *name, DataType::Int64)?)?;
    }
    match metadata.row_groups.as_slice().first() {
        Some(group) => pages_of(rt.alloc(), &mut source, group, &fields, intervals),
        None => Err(Error::OutOfMemory),
    }
}

/// Whether these rows of a page of a field's one column are selected.
pub(crate) fn are_selected(pages: &[Vec<FilteredPage>], place: usize, rows: &[Interval]) -> bool {
    match pages {
        [column] => match column.get(place) {
            Some(page) => page.selected_rows.as_slice() == rows,
            None => false,
        },
        _ => false,
    }
}

pub(crate) fn number_of_pages(pages: &[Vec<FilteredPage>]) -> usize {
    match pages.first() {
        Some(column) => column.len(),
        None => 0,
    }
}

#[test]
fn rows_in_pages_of_two_columns(rt: HostRuntime) -> Result<(), Fail> {
    let Ok(maps) = pages_with(&rt, &["id", "qty"], &[Interval::new(1000, 400)]) else {
        return Err(Fail::from("no pages"));
    };
    let [id, qty] = maps.as_slice() else {
        return Err(Fail::from("not two fields"));
    };
    assert!(rt; are_selected(id, 0, &[]));
    assert!(rt; are_selected(id, 1, &[Interval::new(0, 400)]));
    assert_eq!(rt; number_of_pages(id), 2);
    assert!(rt; are_selected(qty, 0, &[]));
    assert!(rt; are_selected(qty, 1, &[Interval::new(300, 400)]));
    assert!(rt; are_selected(qty, 2, &[]));
    assert_eq!(rt; number_of_pages(qty), 3);
    Ok(())
}

#[test]
fn arguments_of_no_pages(rt: HostRuntime) -> Result<(), Fail> {
    let empty = pages_with(&rt, &["id"], &[Interval::new(5, 0)]);
    assert!(rt; matches!(empty, Err(Error::InvalidArgumentError(_))));
    let unknown = pages_with(&rt, &["id", "size"], &[Interval::new(5, 1)]);
    assert!(rt; matches!(unknown, Err(Error::InvalidArgumentError(_))));
    Ok(())
}

/// The last group of a file.
fn group_of(alloc: Global, file: Vec<u8>) -> Result<RowGroupMetaData, Error> {
    let mut source = MemorySource::new(file);
    let metadata = read_metadata(alloc, &mut source)?;
    let last = metadata.row_groups.into_vec().pop();
    last.ok_or(Error::InvalidArgumentError(Part::Request))
}

#[test]
fn groups_with_indexes(rt: HostRuntime) -> Result<(), Fail> {
    let group = group_of(rt.alloc(), sample_file(rt.alloc(), 6, 0)?)?;
    assert!(rt; has_indexes(&group));
    // A file without indexes, and a group of which one column has none.
    let plain = group_of(rt.alloc(), Vec::from_slice(rt.alloc(), &F1)?)?;
    assert!(rt; !has_indexes(&plain));
    let mut columns = group.columns.into_vec();
    let Some(last) = columns.pop() else {
        return Err(Fail::from("no column"));
    };
    columns.push(ColumnChunkMetaData {
        column_index_offset: None,
        ..last
    })?;
    let without = RowGroupMetaData {
        columns: Seq::new(columns),
        num_rows: 6,
    };
    assert!(rt; !has_indexes(&without));
    Ok(())
}

#[test]
fn rows_of_pages(rt: HostRuntime) -> Result<(), Fail> {
    let location = |first_row_index: i64| PageLocation {
        offset: 4,
        compressed_page_size: 10,
        first_row_index,
    };
    let pages = [location(0), location(10), location(25)];
    let Ok(rows) = compute_page_row_intervals(rt.alloc(), &pages, 30) else {
        return Err(Fail::from("no rows"));
    };
    let wanted = [
        Interval::new(0, 10),
        Interval::new(10, 15),
        Interval::new(25, 5),
    ];
    assert!(rt; rows.as_slice() == wanted.as_slice());
    let late = compute_page_row_intervals(rt.alloc(), &[location(31)], 30);
    assert!(rt; matches!(late, Err(Error::ExternalFormat(_))));
    Ok(())
}
