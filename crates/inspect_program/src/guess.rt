//! The type that a column is read as where nobody says one.
ghost use Rattle.std.specs.Prelude.{◌≡◌, IfErr, IfOk};
ghost use Rattle.columns_core.specs.Causes.{IsWantOfMemory};
ghost use Rattle.inspect_program.specs.Guess as spec;
ghost use Rattle.inspect_program.specs.Guess.{guess};

use columns_core::{DataType, Error, Field, Name, TimeUnit};
use parquet_meta::{
    ColumnDescriptor, ParquetTimeUnit, PhysicalType, PrimitiveLogicalType, PrimitiveType,
    Repetition,
};
use std::alloc::{AllocError, Global};

/// A column as a field: its name, the type that its stored type suggests, and whether it may have nulls. None where nothing is suggested.
pub fn guess_field(alloc: Global, column: &ColumnDescriptor) -> Result<Option<Field>, Error>
    ensures field { IfOk result (λ field. field ≡ guess column.now) }
    ensures memory { IfErr result IsWantOfMemory }
{
    let Some(data_type) = guessed_type(column) else {
        return Ok(None);
    };
    let Some(name) = column.path_in_schema.as_slice().first() else {
        return Ok(None);
    };
    Ok(Some(Field {
        name: copy_of(alloc, name)?,
        data_type,
        is_nullable: column.primitive_type.repetition == Repetition::Optional,
    }))
}

fn copy_of(alloc: Global, name: &Name) -> Result<Name, AllocError>
    ensures { IfOk result (λ copy. copy ≡ name.now) }
{
    Ok(Name::new(String::from_str(alloc, name.as_str())?))
}

/// The type of a flat column.
pub(crate) fn guessed_type(column: &ColumnDescriptor) -> Option<DataType>
    ensures { result ≡ spec.guessed_type column.now }
{
    if column.flat {
        type_for(column.primitive_type)
    } else {
        None
    }
}

/// The type that a chunk of a column is read as. The path of a column in a file has a name, and its fixed bytes have a length.
pub(crate) fn chunk_type(column: &ColumnDescriptor) -> Option<DataType>
    ensures { result ≡ spec.chunk_type column.now }
{
    if is_of_file(column) {
        guessed_type(column)
    } else {
        None
    }
}

fn is_of_file(column: &ColumnDescriptor) -> bool
    ensures { result ≡ spec.is_of_file column.now }
{
    column.path_in_schema.as_slice().first().is_some()
        && has_length(column.primitive_type.physical_type)
}

fn has_length(stored: PhysicalType) -> bool
    ensures { result ≡ spec.has_length stored }
{
    match stored {
        PhysicalType::FixedLenByteArray(size) => size > 0,
        PhysicalType::Boolean
        | PhysicalType::Int32
        | PhysicalType::Int64
        | PhysicalType::Int96
        | PhysicalType::Float
        | PhysicalType::Double
        | PhysicalType::ByteArray => true,
    }
}

fn type_for(stored: PrimitiveType) -> Option<DataType>
    ensures { result ≡ spec.type_for stored.physical_type stored.logical_type }
{
    match stored.physical_type {
        PhysicalType::Boolean => Some(DataType::Boolean),
        PhysicalType::Int32 => Some(DataType::Int32),
        PhysicalType::Int64 => Some(long_type(stored.logical_type)),
        PhysicalType::Int96 => Some(DataType::Timestamp(TimeUnit::Nanosecond, None)),
        PhysicalType::ByteArray => Some(DataType::Binary),
        PhysicalType::FixedLenByteArray(size) => Some(DataType::FixedSizeBinary(size)),
        PhysicalType::Float | PhysicalType::Double => None,
    }
}

fn long_type(logical_type: Option<PrimitiveLogicalType>) -> DataType
    ensures { result ≡ spec.long_type logical_type }
{
    match logical_type {
        None => DataType::Int64,
        Some(PrimitiveLogicalType::Timestamp { unit, .. }) => {
            DataType::Timestamp(unit_of(unit), None)
        }
    }
}

fn unit_of(unit: ParquetTimeUnit) -> TimeUnit
    ensures { result ≡ spec.time_unit_of unit }
{
    match unit {
        ParquetTimeUnit::Milliseconds => TimeUnit::Millisecond,
        ParquetTimeUnit::Microseconds => TimeUnit::Microsecond,
        ParquetTimeUnit::Nanoseconds => TimeUnit::Nanosecond,
    }
}
