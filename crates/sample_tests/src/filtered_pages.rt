//! What the column indexes of a sample file of 2000 rows tell of its fields, and the pages that a closure chooses by it.
use crate::page_maps::{are_selected, field, number_of_pages};
use crate::page_statistics::{has_cells, has_counts};
use columns_core::{Boxed, Cell, DataType, Error, Field, IntegerType, Seq};
use parquet_base::Interval;
use parquet_indexes::{FieldPageStatistics, read_columns_indexes, read_filtered_pages};
use parquet_meta::{MemorySource, RowGroupMetaData, read_metadata};
use parquet_page::FilteredPage;
use parquet_sample::sample_file;
use std::alloc::Global;
use std::test::Fail;

fn sample(alloc: Global) -> Result<(MemorySource, RowGroupMetaData), Error> {
    let mut source = MemorySource::new(sample_file(alloc, 2000, 0)?);
    let metadata = read_metadata(alloc, &mut source)?;
    match metadata.row_groups.into_vec().pop() {
        Some(group) => Ok((source, group)),
        None => Err(Error::OutOfMemory),
    }
}

fn id_and_qty(rt: &HostRuntime) -> Result<Vec<Field>, Error> {
    let mut fields = Vec::new(rt.alloc());
    fields.push(field(rt, "id", DataType::Int64)?)?;
    fields.push(field(rt, "qty", DataType::Int32)?)?;
    Ok(fields)
}

/// What is told of one field of this name and type.
fn told_of(
    rt: &HostRuntime,
    name: &str,
    data_type: DataType,
) -> Result<Vec<FieldPageStatistics>, Error> {
    let (mut source, group) = sample(rt.alloc())?;
    let fields = [field(rt, name, data_type)?];
    read_columns_indexes(rt.alloc(), &mut source, group.columns.as_slice(), &fields)
}

fn pages_by<
    F: Fn(&[FieldPageStatistics], &[Vec<Vec<Interval>>]) -> Result<Vec<Interval>, Error> + Drop,
>(rt: &HostRuntime, fields: &[Field], predicate: F) -> Result<Vec<Vec<Vec<FilteredPage>>>, Error>
    requires { F.IsAlwaysCallable predicate }
{
    let (mut source, group) = sample(rt.alloc())?;
    read_filtered_pages(rt.alloc(), &mut source, &group, fields, predicate)
}

fn rows_from(alloc: Global, start: usize, length: usize) -> Result<Vec<Interval>, Error> {
    let mut rows = Vec::new(alloc);
    rows.push(Interval::new(start, length))?;
    Ok(rows)
}

fn tells(
    rt: &HostRuntime,
    told: &FieldPageStatistics,
    min: &[i128],
    max: &[i128],
    counts: &[Option<u64>],
) -> bool {
    let (Ok(min), Ok(max)) = (numbers(rt.alloc(), min), numbers(rt.alloc(), max)) else {
        return false;
    };
    match told {
        FieldPageStatistics::Single(told) => {
            has_cells(rt, &told.min, &min)
                && has_cells(rt, &told.max, &max)
                && has_counts(&told.null_count, counts)
        }
        FieldPageStatistics::Multiple(_) => false,
    }
}

fn numbers(alloc: Global, numbers: &[i128]) -> Result<Vec<Cell>, Error> {
    let mut cells = Vec::new(alloc);
    for number in numbers {
        cells.push(Cell::Int(*number))?;
    }
    Ok(cells)
}

fn tells_of_id(rt: &HostRuntime, told: &FieldPageStatistics) -> bool {
    tells(rt, told, &[0, 1000], &[999, 1999], &[Some(0), Some(0)])
}

fn tells_of_qty(rt: &HostRuntime, told: &FieldPageStatistics) -> bool {
    let counts = [Some(140), Some(140), Some(120)];
    tells(rt, told, &[1, 1, 401], &[699, 999, 999], &counts)
}

#[test]
fn statistics_of_two_fields(rt: HostRuntime) -> Result<(), Fail> {
    let (Ok((mut source, group)), Ok(fields)) = (sample(rt.alloc()), id_and_qty(&rt)) else {
        return Err(Fail::from("no sample"));
    };
    let columns = group.columns.as_slice();
    let Ok(told) = read_columns_indexes(rt.alloc(), &mut source, columns, &fields) else {
        return Err(Fail::from("no statistics"));
    };
    let [id, qty] = told.as_slice() else {
        return Err(Fail::from("not two fields"));
    };
    assert!(rt; tells_of_id(&rt, id));
    assert!(rt; tells_of_qty(&rt, qty));
    Ok(())
}

#[test]
fn statistics_by_the_shape_of_a_type(rt: HostRuntime) -> Result<(), Fail> {
    let alloc = rt.alloc();
    let item = field(&rt, "item", DataType::Int64)?;
    let list = DataType::List(Boxed::new(alloc, item)?);
    let Ok(told) = told_of(&rt, "id", list) else {
        return Err(Fail::from("no list"));
    };
    assert!(rt; matches!(told.as_slice(), [id] if tells_of_id(&rt, id)));
    let entries = DataType::Dictionary(
        IntegerType::Int8,
        Boxed::new(alloc, DataType::Int64)?,
        false,
    );
    let mut inner = Vec::new(alloc);
    inner.push(field(&rt, "entries", entries)?)?;
    let Ok(told) = told_of(&rt, "id", DataType::Struct(Seq::new(inner))) else {
        return Err(Fail::from("no struct"));
    };
    let [FieldPageStatistics::Multiple(inner)] = told.as_slice() else {
        return Err(Fail::from("not a struct"));
    };
    assert!(rt; matches!(inner.as_slice(), [id] if tells_of_id(&rt, id)));
    Ok(())
}

#[test]
fn fields_that_are_refused(rt: HostRuntime) -> Result<(), Fail> {
    let unknown = told_of(&rt, "size", DataType::Int64);
    assert!(rt; matches!(unknown, Err(Error::InvalidArgumentError(_))));
    let text = told_of(&rt, "id", DataType::Utf8);
    assert!(rt; matches!(text, Err(Error::NotYetImplemented(_))));
    let mut inner = Vec::new(rt.alloc());
    inner.push(field(&rt, "first", DataType::Int64)?)?;
    inner.push(field(&rt, "second", DataType::Int64)?)?;
    let two = told_of(&rt, "id", DataType::Struct(Seq::new(inner)));
    assert!(rt; matches!(two, Err(Error::NotYetImplemented(_))));
    Ok(())
}

#[test]
fn pages_that_a_closure_chooses(rt: HostRuntime) -> Result<(), Fail> {
    let alloc = rt.alloc();
    let Ok(fields) = id_and_qty(&rt) else {
        return Err(Fail::from("no fields"));
    };
    let Ok(maps) = pages_by(&rt, &fields, |_, _| rows_from(alloc, 1000, 400)) else {
        return Err(Fail::from("no pages"));
    };
    let [id, qty] = maps.as_slice() else {
        return Err(Fail::from("not two fields"));
    };
    assert!(rt; are_selected(id, 0, &[]));
    assert!(rt; are_selected(id, 1, &[Interval::new(0, 400)]));
    assert_eq!(rt; number_of_pages(id), 2);
    assert!(rt; are_selected(qty, 0, &[]));
    assert!(rt; are_selected(qty, 1, &[Interval::new(300, 400)]));
    assert!(rt; are_selected(qty, 2, &[]));
    assert_eq!(rt; number_of_pages(qty), 3);
    Ok(())
}

/// Whether these are the rows of the pages of `id` and of `qty`.
fn are_rows(rows: &[Vec<Vec<Interval>>]) -> bool {
    let [id, qty] = rows else {
        return false;
    };
    let of_id = [Interval::new(0, 1000), Interval::new(1000, 1000)];
    let of_qty = [
        Interval::new(0, 700),
        Interval::new(700, 700),
        Interval::new(1400, 600),
    ];
    matches!(id.as_slice(), [pages] if pages.as_slice() == of_id.as_slice())
        && matches!(qty.as_slice(), [pages] if pages.as_slice() == of_qty.as_slice())
}

#[test]
fn what_a_closure_is_asked_on(rt: HostRuntime) -> Result<(), Fail> {
    let alloc = rt.alloc();
    let Ok(fields) = id_and_qty(&rt) else {
        return Err(Fail::from("no fields"));
    };
    let asked = pages_by(&rt, &fields, |told, rows| match told {
        [
            FieldPageStatistics::Single(id),
            FieldPageStatistics::Single(_),
        ] if id.min.len() == 2 && are_rows(rows) => { rows_from(alloc, 0, 2000) }
        _ => Err(Error::OutOfMemory),
    });
    assert!(rt; asked.is_ok());
    Ok(())
}

#[test]
fn answers_that_are_refused(rt: HostRuntime) -> Result<(), Fail> {
    let alloc = rt.alloc();
    let Ok(fields) = id_and_qty(&rt) else {
        return Err(Fail::from("no fields"));
    };
    let empty = pages_by(&rt, &fields, |_, _| rows_from(alloc, 5, 0));
    assert!(rt; matches!(empty, Err(Error::InvalidArgumentError(_))));
    let beyond = pages_by(&rt, &fields, |_, _| rows_from(alloc, 1999, 2));
    assert!(rt; matches!(beyond, Err(Error::InvalidArgumentError(_))));
    let own = pages_by(&rt, &fields, |_, _| Err(Error::Overflow));
    assert!(rt; matches!(own, Err(Error::Overflow)));
    let unknown = [field(&rt, "size", DataType::Int64)?];
    let none = pages_by(&rt, &unknown, |_, _| rows_from(alloc, 0, 1));
    assert!(rt; matches!(none, Err(Error::InvalidArgumentError(_))));
    Ok(())
}
