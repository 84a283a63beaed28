//! The schema: its root, and an element for each column.

ghost use Rattle.std.specs.Prelude.{◌≡◌, ◌<◌, ◌^◌, OnOk};
ghost use Rattle.compact_write.specs.Calls.{Writes};
ghost use Rattle.compact_write.specs.Written.{element_bytes, elements_bytes, truth_kind};
ghost use Rattle.parquet_plain.specs.Structs.{code_number, element_value, repetition_number, root_value};
ghost use Rattle.parquet_plain.specs.Structs.{schema_values, single_name, unit_number};
ghost use Rattle.parquet_write.specs.Elements.{logical_bytes, timestamp_bytes, type_bytes};
ghost use Rattle.parquet_write.specs.Told.{AreTellableColumns, IsTellableColumn, IsTellableType};

use crate::measure::to_measure;
use columns_core::Name;
use compact_write::{
    write_binary, write_count_field, write_end, write_field_header, write_struct_start,
};
use parquet_meta::{
    ColumnDescriptor, ParquetTimeUnit, PhysicalType, PrimitiveLogicalType, PrimitiveType,
    Repetition,
};
use parquet_thrift::{BINARY, FALSE, TRUE};
use std::alloc::AllocError;

pub(crate) fn code_of(type_: PhysicalType) -> u32
    ensures code { result ≡ code_number type_ }
    ensures few { result < 8 }
{
    match type_ {
        PhysicalType::Boolean => 0,
        PhysicalType::Int32 => 1,
        PhysicalType::Int64 => 2,
        PhysicalType::Int96 => 3,
        PhysicalType::Float => 4,
        PhysicalType::Double => 5,
        PhysicalType::ByteArray => 6,
        PhysicalType::FixedLenByteArray(_) => 7,
    }
}

fn repetition_code(repetition: Repetition) -> u32
    ensures code { result ≡ repetition_number repetition }
    ensures few { result < 3 }
{
    match repetition {
        Repetition::Required => 0,
        Repetition::Optional => 1,
        Repetition::Repeated => 2,
    }
}

fn unit_id(unit: ParquetTimeUnit) -> u8
    ensures { result ≡ unit_number unit }
{
    match unit {
        ParquetTimeUnit::Milliseconds => 1,
        ParquetTimeUnit::Microseconds => 2,
        ParquetTimeUnit::Nanoseconds => 3,
    }
}

/// The kind of a field that holds a truth value.
fn kind_of(truth: bool) -> u8
    ensures { result ≡ truth_kind truth }
{
    if truth { TRUE } else { FALSE }
}

/// What is stored, the length of fixed bytes, and whether there may be nulls.
fn write_type(out: &mut Vec<u8>, type_: PrimitiveType) -> Result<(), AllocError>
    ensures written { Writes (type_bytes type_) out.old result out.new }
    ensures few { OnOk result (IsTellableType type_) }
{
    let repetition = repetition_code(type_.repetition);
    write_count_field(out, 0, 1, code_of(type_.physical_type))?;
    match type_.physical_type {
        PhysicalType::FixedLenByteArray(width) => {
            write_count_field(out, 1, 2, to_measure(width)?)?;
            write_count_field(out, 2, 3, repetition)
        }
        _ => write_count_field(out, 1, 3, repetition),
    }
}

/// A timestamp with its unit.
fn write_timestamp(
    out: &mut Vec<u8>,
    unit: ParquetTimeUnit,
    is_adjusted_to_utc: bool,
) -> Result<(), AllocError>
    ensures written { Writes (timestamp_bytes unit is_adjusted_to_utc) out.old result out.new }
{
    write_struct_start(out, 4, 10)?;
    write_struct_start(out, 0, 8)?;
    write_field_header(out, 0, 1, kind_of(is_adjusted_to_utc))?;
    write_struct_start(out, 1, 2)?;
    write_struct_start(out, 0, unit_id(unit))?;
    write_end(out)?;
    write_end(out)?;
    write_end(out)?;
    write_end(out)?;
    Ok(())
}

/// Timestamps, with their unit, where they are.
fn write_logical_type(
    out: &mut Vec<u8>,
    logical_type: Option<PrimitiveLogicalType>,
) -> Result<(), AllocError>
    ensures written { Writes (logical_bytes logical_type) out.old result out.new }
{
    match logical_type {
        None => Ok(()),
        Some(
            PrimitiveLogicalType::Timestamp {
                unit,
                is_adjusted_to_utc,
            },
        ) => write_timestamp(out, unit, is_adjusted_to_utc),
    }
}

/// The one name of a flat column.
fn name_of(path: &[Name]) -> &[u8]
    ensures { result.now ≡ single_name path.now }
{
    match path.first() {
        Some(name) => name.as_str().as_bytes(),
        None => &[],
    }
}

fn write_element(out: &mut Vec<u8>, column: &ColumnDescriptor) -> Result<(), AllocError>
    ensures written { Writes (element_bytes (element_value column.now)) out.old result out.new }
    ensures few { OnOk result (IsTellableColumn column.now) }
{
    write_type(out, column.primitive_type)?;
    write_field_header(out, 3, 4, BINARY)?;
    write_binary(out, name_of(column.path_in_schema.as_slice()))?;
    write_logical_type(out, column.primitive_type.logical_type)?;
    write_end(out)?;
    Ok(())
}

fn write_root(out: &mut Vec<u8>, columns: usize) -> Result<(), AllocError>
    ensures written { Writes (element_bytes (root_value columns)) out.old result out.new }
    ensures few { OnOk result (columns < 2 ^ 31) }
{
    write_field_header(out, 0, 4, BINARY)?;
    write_binary(out, b"schema")?;
    write_count_field(out, 4, 5, to_measure(columns)?)?;
    write_end(out)?;
    Ok(())
}

pub(crate) fn write_schema(
    out: &mut Vec<u8>,
    columns: &[ColumnDescriptor],
) -> Result<(), AllocError>
    ensures written { Writes (elements_bytes (schema_values columns.now)) out.old result out.new }
    ensures few { OnOk result (AreTellableColumns columns.now) }
{
    write_root(out, columns.len())?;
    for column in columns {
        write_element(out, column)?;
    }
    Ok(())
}
