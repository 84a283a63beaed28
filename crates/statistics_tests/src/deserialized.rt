//! The statistics of fields in row groups, cell by cell, and what is refused.
use crate::arrays::{item, keyed, list_of, named, write_cell};
use columns_core::{Array, Cell, DataType, Error, IntegerType, Name, Seq};
use parquet_meta::{
    ColumnChunkMetaData, ColumnDescriptor, ColumnPath, PhysicalType, PrimitiveType, Repetition,
    RowGroupMetaData, ShortBytes, StatisticsBytes,
};
use parquet_statistics::{Statistics, deserialize};
use std::alloc::Global;
use std::test::*;

fn bytes_of(alloc: Global, number: i32) -> Result<Option<ShortBytes>, Error> {
    Ok(Some(ShortBytes::from_slice(alloc, &number.to_le_bytes())?))
}

/// Statistics of a count of nulls and two numbers.
fn told(
    alloc: Global,
    nulls: Option<i64>,
    low: i32,
    high: i32,
) -> Result<Option<StatisticsBytes>, Error> {
    let max_value = bytes_of(alloc, high)?;
    let min_value = bytes_of(alloc, low)?;
    Ok(Some(StatisticsBytes {
        null_count: nulls,
        distinct_count: None,
        max_value,
        min_value,
    }))
}

/// A column of the field `a`.
fn column(
    alloc: Global,
    physical_type: PhysicalType,
    statistics_bytes: Option<StatisticsBytes>,
) -> Result<ColumnChunkMetaData, Error> {
    let name = Name::new(String::from_str(alloc, "a")?);
    let path_in_schema = ColumnPath::new(alloc, vec![in alloc; name]?)?;
    Ok(ColumnChunkMetaData {
        descriptor: ColumnDescriptor {
            path_in_schema,
            primitive_type: PrimitiveType {
                physical_type,
                logical_type: None,
                repetition: Repetition::Optional,
            },
            flat: true,
        },
        codec: 0,
        num_values: 4,
        total_compressed_size: 0,
        data_page_offset: 4,
        dictionary_page_offset: None,
        statistics_bytes,
        offset_index: None,
        column_index: None,
        column_index_offset: None,
        foreign: false,
        encrypted: false,
    })
}

fn numbers(
    alloc: Global,
    nulls: Option<i64>,
    low: i32,
    high: i32,
) -> Result<ColumnChunkMetaData, Error> {
    let statistics_bytes = told(alloc, nulls, low, high)?;
    column(alloc, PhysicalType::Int32, statistics_bytes)
}

fn group_of(columns: Vec<ColumnChunkMetaData>) -> RowGroupMetaData {
    RowGroupMetaData {
        columns: Seq::new(columns),
        num_rows: 4,
    }
}

/// Two groups of a column of numbers: nothing is told of the second.
fn two_groups(alloc: Global) -> Result<Vec<RowGroupMetaData>, Error> {
    let first = group_of(vec![in alloc; numbers(alloc, Some(1), 2, 5)?]?);
    let second = group_of(vec![in alloc; column(alloc, PhysicalType::Int32, None)?]?);
    Ok(vec![in alloc; first, second]?)
}

/// The cells of the four arrays, with a bar behind each.
fn text_of(alloc: Global, statistics: &Statistics) -> Result<String, Error> {
    let mut text = String::new(alloc);
    let arrays = [
        &statistics.null_count,
        &statistics.distinct_count,
        &statistics.min_value,
        &statistics.max_value,
    ];
    for array in arrays {
        for i in 0..array.len() {
            write_cell(&mut text, &array.item(alloc, i)?)?;
        }
        text.push('|')?;
    }
    Ok(text)
}

fn told_of(alloc: Global, data_type: DataType) -> Result<String, Error> {
    let groups = two_groups(alloc)?;
    let statistics = deserialize(alloc, &named(alloc, "a", data_type)?, &groups)?;
    text_of(alloc, &statistics)
}

#[test]
fn what_is_not_told_is_null(rt: HostRuntime) -> Result<(), Fail> {
    let text = told_of(rt.alloc(), DataType::Int32)?;
    assert_eq!(rt; text.as_str(), "1-|--|2-|5-|");
    Ok(())
}

/// The cell of an array that has one, and null of any other.
fn only_cell(alloc: Global, array: &Array) -> Result<Cell, Error> {
    if array.len() == 1 {
        array.item(alloc, 0)
    } else {
        Ok(Cell::Null)
    }
}

#[test]
fn the_ends_of_one_group(rt: HostRuntime) -> Result<(), Fail> {
    let alloc = rt.alloc();
    let group = group_of(vec![in alloc; numbers(alloc, Some(0), 10, 20)?]?);
    let field = named(alloc, "a", DataType::Int32)?;
    let statistics = deserialize(alloc, &field, &vec![in alloc; group]?)?;
    assert!(rt; only_cell(alloc, &statistics.min_value)? == Cell::Int(10));
    assert!(rt; only_cell(alloc, &statistics.max_value)? == Cell::Int(20));
    Ok(())
}

#[test]
fn a_field_without_a_column_is_refused(rt: HostRuntime) -> Result<(), Fail> {
    let alloc = rt.alloc();
    let groups = two_groups(alloc)?;
    let field = named(alloc, "b", DataType::Int32)?;
    let result = deserialize(alloc, &field, &groups);
    assert!(rt; matches!(result, Err(Error::InvalidArgumentError(_))));
    Ok(())
}

#[test]
fn a_list_has_a_slot_a_group(rt: HostRuntime) -> Result<(), Fail> {
    let alloc = rt.alloc();
    let text = told_of(alloc, list_of(alloc, DataType::Int32)?)?;
    assert_eq!(rt; text.as_str(), "[1][-]|[-][-]|[2][-]|[5][-]|");
    Ok(())
}

#[test]
fn a_map_has_one_slot_in_all(rt: HostRuntime) -> Result<(), Fail> {
    let alloc = rt.alloc();
    let text = told_of(alloc, DataType::Map(item(alloc, DataType::Int32)?, false))?;
    assert_eq!(rt; text.as_str(), "[1-]|[--]|[2-]|[5-]|");
    Ok(())
}

#[test]
fn a_dictionary_is_counted_by_numbers(rt: HostRuntime) -> Result<(), Fail> {
    let alloc = rt.alloc();
    let text = told_of(alloc, keyed(alloc, IntegerType::Int8, DataType::Int32)?)?;
    assert_eq!(rt; text.as_str(), "1-|--|2-|5-|");
    Ok(())
}

/// A struct of a number and of this.
fn beside(alloc: Global, second: DataType) -> Result<DataType, Error> {
    let first = item(alloc, DataType::Int32)?.into_inner();
    let second = item(alloc, second)?.into_inner();
    Ok(DataType::Struct(Seq::new(vec![in alloc; first, second]?)))
}

fn pairs_of_columns(alloc: Global, nulls: Option<i64>) -> Result<Vec<RowGroupMetaData>, Error> {
    let first = numbers(alloc, Some(0), 1, 2)?;
    let second = numbers(alloc, nulls, 3, 4)?;
    let third = numbers(alloc, Some(0), 5, 6)?;
    let fourth = numbers(alloc, Some(0), 7, 8)?;
    let low = group_of(vec![in alloc; first, second]?);
    let high = group_of(vec![in alloc; third, fourth]?);
    Ok(vec![in alloc; low, high]?)
}

fn told_beside(
    alloc: Global,
    second: DataType,
    nulls: Option<i64>,
) -> Result<Result<Statistics, Error>, Error> {
    let groups = pairs_of_columns(alloc, nulls)?;
    let field = named(alloc, "a", beside(alloc, second)?)?;
    Ok(deserialize(alloc, &field, &groups))
}

/// A column of texts.
fn texts(alloc: Global, low: &str, high: &str) -> Result<ColumnChunkMetaData, Error> {
    let max_value = Some(ShortBytes::from_slice(alloc, high.as_bytes())?);
    let min_value = Some(ShortBytes::from_slice(alloc, low.as_bytes())?);
    let statistics_bytes = Some(StatisticsBytes {
        null_count: Some(0),
        distinct_count: Some(2),
        max_value,
        min_value,
    });
    column(alloc, PhysicalType::ByteArray, statistics_bytes)
}

#[test]
fn a_struct_has_the_columns_of_its_fields(rt: HostRuntime) -> Result<(), Fail> {
    let alloc = rt.alloc();
    let first = item(alloc, DataType::Utf8)?.into_inner();
    let second = item(alloc, list_of(alloc, DataType::Int32)?)?.into_inner();
    let data_type = DataType::Struct(Seq::new(vec![in alloc; first, second]?));
    let text = texts(alloc, "k", "m")?;
    let list = numbers(alloc, Some(9), 3, 4)?;
    let group = group_of(vec![in alloc; text, list]?);
    let field = named(alloc, "a", data_type)?;
    let statistics = deserialize(alloc, &field, &vec![in alloc; group]?)?;
    let text = text_of(alloc, &statistics)?;
    assert_eq!(rt; text.as_str(), "[0[9]]|[2[-]]|[k[3]]|[m[4]]|");
    Ok(())
}

#[test]
fn a_map_beside_another_field_is_refused(rt: HostRuntime) -> Result<(), Fail> {
    let alloc = rt.alloc();
    let map = DataType::Map(item(alloc, DataType::Int32)?, false);
    let result = told_beside(alloc, map, Some(9))?;
    assert!(rt; matches!(result, Err(Error::InvalidArgumentError(_))));
    Ok(())
}

#[test]
fn a_negative_count_is_damage(rt: HostRuntime) -> Result<(), Fail> {
    let result = told_beside(rt.alloc(), DataType::Int32, Some(-1))?;
    assert!(rt; matches!(result, Err(Error::ExternalFormat(_))));
    Ok(())
}

#[test]
fn another_number_of_columns_is_not_carried(rt: HostRuntime) -> Result<(), Fail> {
    let alloc = rt.alloc();
    let groups = two_groups(alloc)?;
    let field = named(alloc, "a", beside(alloc, DataType::Int32)?)?;
    let result = deserialize(alloc, &field, &groups);
    assert!(rt; matches!(result, Err(Error::NotYetImplemented(_))));
    Ok(())
}

#[test]
fn bytes_without_a_size_are_not_carried_also_without_groups(rt: HostRuntime) -> Result<(), Fail> {
    let alloc = rt.alloc();
    let field = named(alloc, "a", DataType::FixedSizeBinary(0))?;
    let result = deserialize(alloc, &field, &Vec::new(alloc));
    assert!(rt; matches!(result, Err(Error::NotYetImplemented(_))));
    Ok(())
}
