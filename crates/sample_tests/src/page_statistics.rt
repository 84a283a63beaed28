//! Page statistics: what each call tells of two pages of its type, and what it refuses.
use columns_core::{Array, Cell, DataType, Error, PrimitiveArray, Seq, TimeUnit};
use parquet_indexes::{
    ColumnPageStatistics, FieldPageStatistics, binary, boolean, deserialize_i32, deserialize_i64,
    deserialize_i96, fixed_len_binary,
};
use parquet_meta::{
    PageIndex, ParquetTimeUnit, PhysicalType, PrimitiveLogicalType, PrimitiveType, Repetition,
};
use std::test::Fail;

/// The number of the day in INT96 on which 1970 begins.
const FIRST_OF_1970: u32 = 2440588;

fn page<T>(min: T, max: T, null_count: Option<i64>) -> PageIndex<T> {
    PageIndex {
        min: Some(min),
        max: Some(max),
        null_count,
    }
}

fn page_of_nulls<T>(null_count: i64) -> PageIndex<T> {
    PageIndex {
        min: None,
        max: None,
        null_count: Some(null_count),
    }
}

fn bytes(rt: &HostRuntime, text: &str) -> Result<Seq<u8>, Error> {
    Ok(Seq::new(Vec::from_slice(rt.alloc(), text.as_bytes())?))
}

pub(crate) fn has_cells(rt: &HostRuntime, array: &Array, cells: &[Cell]) -> bool {
    if array.len() != cells.len() {
        return false;
    }
    for i in 0..cells.len() {
        let Ok(cell) = array.item(rt.alloc(), i) else {
            return false;
        };
        if cell != cells[i] {
            return false;
        }
    }
    true
}

pub(crate) fn has_counts(array: &PrimitiveArray<u64>, counts: &[Option<u64>]) -> bool {
    if array.len() != counts.len() {
        return false;
    }
    for i in 0..counts.len() {
        if array.get(i) != counts[i] {
            return false;
        }
    }
    true
}

/// Whether the statistics have these ends and counts.
fn has(
    rt: &HostRuntime,
    told: Result<ColumnPageStatistics, Error>,
    min: &[Cell],
    max: &[Cell],
    counts: &[Option<u64>],
) -> bool {
    let Ok(told) = told else {
        return false;
    };
    has_cells(rt, &told.min, min)
        && has_cells(rt, &told.max, max)
        && has_counts(&told.null_count, counts)
}

#[test]
fn pages_of_int32(rt: HostRuntime) -> Result<(), Fail> {
    let pages = [page(1, 5, Some(0)), page_of_nulls(3)];
    let told = deserialize_i32(rt.alloc(), &pages, DataType::Int32);
    let (min, max) = ([Cell::Int(1), Cell::Null], [Cell::Int(5), Cell::Null]);
    assert!(rt; has(&rt, told, &min, &max, &[Some(0), Some(3)]));
    let text = deserialize_i32(rt.alloc(), &pages, DataType::Utf8);
    assert!(rt; matches!(text, Err(Error::NotYetImplemented(_))));
    let negative = deserialize_i32(rt.alloc(), &[page(1, 5, Some(-1))], DataType::Int32);
    assert!(rt; matches!(negative, Err(Error::ExternalFormat(_))));
    Ok(())
}

#[test]
fn low_bits_and_days(rt: HostRuntime) -> Result<(), Fail> {
    let low = deserialize_i32(rt.alloc(), &[page(1, 200, None)], DataType::Int8);
    assert!(rt; has(&rt, low, &[Cell::Int(1)], &[Cell::Int(-56)], &[None]));
    let days = deserialize_i32(rt.alloc(), &[page(1, 2, None)], DataType::Date64);
    let (min, max) = ([Cell::Int(86400000)], [Cell::Int(172800000)]);
    assert!(rt; has(&rt, days, &min, &max, &[None]));
    Ok(())
}

#[test]
fn pages_of_int64_and_int96(rt: HostRuntime) -> Result<(), Fail> {
    let stored = PrimitiveType {
        physical_type: PhysicalType::Int64,
        logical_type: Some(PrimitiveLogicalType::Timestamp {
            unit: ParquetTimeUnit::Milliseconds,
            is_adjusted_to_utc: false,
        }),
        repetition: Repetition::Optional,
    };
    let pages = [page(0, -1, Some(0)), page_of_nulls(2)];
    let low = deserialize_i64(rt.alloc(), &pages, &stored, DataType::UInt32);
    let (min, max) = (
        [Cell::Int(0), Cell::Null],
        [Cell::Int(4294967295), Cell::Null],
    );
    assert!(rt; has(&rt, low, &min, &max, &[Some(0), Some(2)]));
    let micros = DataType::Timestamp(TimeUnit::Microsecond, None);
    let time = deserialize_i64(rt.alloc(), &pages, &stored, micros);
    let (min, max) = ([Cell::Int(0), Cell::Null], [Cell::Int(-1000), Cell::Null]);
    assert!(rt; has(&rt, time, &min, &max, &[Some(0), Some(2)]));
    let (first, second) = ([0, 0, FIRST_OF_1970], [1000000000, 0, FIRST_OF_1970]);
    let pages = [page(first, second, Some(1)), page_of_nulls(2)];
    let millis = DataType::Timestamp(TimeUnit::Millisecond, None);
    let time = deserialize_i96(rt.alloc(), &pages, millis);
    let (min, max) = ([Cell::Int(0), Cell::Null], [Cell::Int(1000), Cell::Null]);
    assert!(rt; has(&rt, time, &min, &max, &[Some(1), Some(2)]));
    Ok(())
}

#[test]
fn pages_of_truth_values(rt: HostRuntime) -> Result<(), Fail> {
    let pages = [page(false, true, Some(1)), page(true, true, None)];
    let told = boolean::deserialize(rt.alloc(), &pages);
    let (min, max) = (
        [Cell::Bool(false), Cell::Bool(true)],
        [Cell::Bool(true), Cell::Bool(true)],
    );
    assert!(rt; has(&rt, told, &min, &max, &[Some(1), None]));
    Ok(())
}

#[test]
fn pages_of_bytes(rt: HostRuntime) -> Result<(), Fail> {
    let (Ok(low), Ok(high)) = (bytes(&rt, "ab"), bytes(&rt, "b\u{e9}")) else {
        return Err(Fail::from("no bytes"));
    };
    let (Ok(min), Ok(max)) = (bytes(&rt, "ab"), bytes(&rt, "b\u{e9}")) else {
        return Err(Fail::from("no bytes"));
    };
    let pages = [page(low, high, Some(4)), page_of_nulls(7)];
    let told = binary::deserialize(rt.alloc(), &pages, &DataType::LargeBinary);
    let (min, max) = (
        [Cell::Bytes(min), Cell::Null],
        [Cell::Bytes(max), Cell::Null],
    );
    assert!(rt; has(&rt, told, &min, &max, &[Some(4), Some(7)]));
    let Ok(text) = binary::deserialize(rt.alloc(), &pages, &DataType::Utf8) else {
        return Err(Fail::from("no texts"));
    };
    assert!(rt; matches!(text.min, Array::Utf8(_)));
    let cut = [PageIndex {
        min: Some(Seq::new(Vec::from_slice(rt.alloc(), &[0xc3])?)),
        max: None,
        null_count: None,
    }];
    let told = binary::deserialize(rt.alloc(), &cut, &DataType::Utf8);
    assert!(rt; matches!(told, Err(Error::OutOfSpec(_))));
    Ok(())
}

#[test]
fn pages_of_fixed_bytes(rt: HostRuntime) -> Result<(), Fail> {
    let (Ok(low), Ok(high)) = (bytes(&rt, "\u{1}\u{2}"), bytes(&rt, "\u{2}")) else {
        return Err(Fail::from("no bytes"));
    };
    let pages = [page(low, high, Some(0)), page_of_nulls(1)];
    let Ok(told) = fixed_len_binary::deserialize(rt.alloc(), &pages, DataType::Decimal(5, 2)) else {
        return Err(Fail::from("no decimals"));
    };
    assert!(rt; *told.min.data_type() == DataType::Decimal(5, 2));
    assert!(rt; *told.max.data_type() == DataType::Decimal(5, 2));
    let (min, max) = ([Cell::Int(258), Cell::Null], [Cell::Int(2), Cell::Null]);
    assert!(rt; has(&rt, Ok(told), &min, &max, &[Some(0), Some(1)]));
    let width = fixed_len_binary::deserialize(rt.alloc(), &pages, DataType::FixedSizeBinary(2));
    assert!(rt; matches!(width, Err(Error::ExternalFormat(_))));
    let Ok(same) = bytes(&rt, "ab") else {
        return Err(Fail::from("no bytes"));
    };
    let Ok(copy) = bytes(&rt, "ab") else {
        return Err(Fail::from("no bytes"));
    };
    let pages = [
        PageIndex {
            min: Some(same),
            max: None,
            null_count: None,
        },
        page_of_nulls(1),
    ];
    let told = fixed_len_binary::deserialize(rt.alloc(), &pages, DataType::FixedSizeBinary(2));
    let (min, max) = ([Cell::Bytes(copy), Cell::Null], [Cell::Null, Cell::Null]);
    assert!(rt; has(&rt, told, &min, &max, &[None, Some(1)]));
    Ok(())
}

#[test]
fn equal_statistics(rt: HostRuntime) -> Result<(), Fail> {
    let one = deserialize_i32(rt.alloc(), &[page(1, 5, None)], DataType::Int32);
    let same = deserialize_i32(rt.alloc(), &[page(1, 5, None)], DataType::Int32);
    let other = deserialize_i32(rt.alloc(), &[page(1, 6, None)], DataType::Int32);
    let (Ok(one), Ok(same), Ok(other)) = (one, same, other) else {
        return Err(Fail::from("no statistics"));
    };
    assert!(rt; one == same);
    assert!(rt; one != other);
    assert!(rt; FieldPageStatistics::from(one) == FieldPageStatistics::from(same));
    Ok(())
}
