//! Fields as columns of the file.

ghost use Rattle.std.specs.Prelude.{◌≡◌, ◌⊎◌, ◌∷◌, [], true, IfErr, IfOk, IsFalse, OnOk, map, option_map};
ghost use Rattle.columns_core.specs.Causes.{IsWantOfMemory};
ghost use Rattle.columns_core.specs.declared.error.Error.TheVariants.{NotYetImplemented};
ghost use Rattle.columns_core.specs.declared.error.Part.TheVariants.{Schema};
ghost use Rattle.parquet_plain.specs.Description.{descriptor_of};
ghost use Rattle.put_program.specs.Put.{are_written, column_of_field};
ghost use Rattle.put_program.specs.Put as spec;
ghost use Rattle.put_program.specs.Stored.{is_written, timestamp_type as logical_type_of};
ghost use Rattle.put_program.specs.Stored as stored;

use columns_core::{DataType, Error, Field, Name, Part, TimeUnit};
use parquet_meta::{
    ColumnDescriptor, ColumnPath, ParquetTimeUnit, PhysicalType, PrimitiveLogicalType,
    PrimitiveType, Repetition,
};
use std::alloc::{AllocError, Global};

/// The bytes of a decimal.
const DECIMAL_SIZE: usize = 16;

fn timestamp_type(unit: TimeUnit, is_zoned: bool) -> Option<PrimitiveLogicalType>
    ensures { result ≡ logical_type_of unit is_zoned }
{
    let unit = match unit {
        TimeUnit::Second => return None,
        TimeUnit::Millisecond => ParquetTimeUnit::Milliseconds,
        TimeUnit::Microsecond => ParquetTimeUnit::Microseconds,
        TimeUnit::Nanosecond => ParquetTimeUnit::Nanoseconds,
    };
    Some(PrimitiveLogicalType::Timestamp {
        unit,
        is_adjusted_to_utc: is_zoned,
    })
}

/// Fixed bytes of a size that readers take.
fn fixed_type(size: usize) -> Option<PhysicalType>
    ensures { option_map stored.as_plain result ≡ stored.fixed_type size }
{
    if size > 0 && size <= i32::MAX as usize {
        Some(PhysicalType::FixedLenByteArray(size))
    } else {
        None
    }
}

/// What values of a type are stored as, if the type is written.
pub(crate) fn stored_type(
    data_type: &DataType,
) -> Option<(PhysicalType, Option<PrimitiveLogicalType>)>
    ensures { result ≡ stored.stored_type data_type.now }
{
    match data_type {
        DataType::Boolean => Some((PhysicalType::Boolean, None)),
        DataType::Int8
        | DataType::Int16
        | DataType::Int32
        | DataType::UInt8
        | DataType::UInt16
        | DataType::UInt32
        | DataType::Date32
        | DataType::Time32(_) => Some((PhysicalType::Int32, None)),
        DataType::Int64
        | DataType::UInt64
        | DataType::Date64
        | DataType::Time64(_)
        | DataType::Duration(_) => Some((PhysicalType::Int64, None)),
        DataType::Timestamp(unit, zone) => {
            Some((PhysicalType::Int64, timestamp_type(*unit, zone.is_some())))
        }
        DataType::Decimal(_, _) => Some((PhysicalType::FixedLenByteArray(DECIMAL_SIZE), None)),
        DataType::FixedSizeBinary(size) => Some((fixed_type(*size)?, None)),
        DataType::Utf8 | DataType::LargeUtf8 | DataType::Binary | DataType::LargeBinary => {
            Some((PhysicalType::ByteArray, None))
        }
        DataType::Null
        | DataType::Interval(_)
        | DataType::Dictionary(_, _, _)
        | DataType::List(_)
        | DataType::LargeList(_)
        | DataType::Struct(_)
        | DataType::Map(_, _) => None,
    }
}

pub(crate) fn repetition_of(field: &Field) -> Repetition
    ensures { result ≡ spec.repetition_of_field field.now }
{
    if field.is_nullable {
        Repetition::Optional
    } else {
        Repetition::Required
    }
}

/// A path of one name.
fn path_of(alloc: Global, field: &Field) -> Result<ColumnPath, AllocError>
    ensures { IfOk result (λ path. path ≡ field.now.name ∷ []) }
{
    let name = Name::new(String::from_str(alloc, field.name.as_str())?);
    let mut path = Vec::new(alloc);
    path.push(name)?;
    ColumnPath::new(alloc, path)
}

/// The column of a field.
fn descriptor_of(alloc: Global, field: &Field) -> Result<ColumnDescriptor, Error>
    ensures column { IfOk result (λ told. told ≡ descriptor_of (column_of_field field.now)) }
    ensures written { OnOk result (is_written field.now.data_type ≡ true) }
    ensures err { IfErr result (λ e. IsWantOfMemory e
        ⊎ ((e ≡ NotYetImplemented Schema) × IsFalse (is_written field.now.data_type))) }
{
    let Some((physical_type, logical_type)) = stored_type(&field.data_type) else {
        return Err(Error::NotYetImplemented(Part::Schema));
    };
    Ok(ColumnDescriptor {
        path_in_schema: path_of(alloc, field)?,
        primitive_type: PrimitiveType {
            physical_type,
            logical_type,
            repetition: repetition_of(field),
        },
        flat: true,
    })
}

/// The columns of the file.
///
/// # Errors
///
/// `NotYetImplemented` where a type is not written; otherwise only want of memory.
pub(crate) fn descriptors_of(
    alloc: Global,
    fields: &[Field],
) -> Result<Vec<ColumnDescriptor>, Error>
    ensures columns { IfOk result (λ columns.
        columns.items ≡ map descriptor_of (map column_of_field fields.now)) }
    ensures written { OnOk result (are_written fields.now ≡ true) }
    ensures err { IfErr result (λ e. IsWantOfMemory e
        ⊎ ((e ≡ NotYetImplemented Schema) × IsFalse (are_written fields.now))) }
{
    let mut columns = Vec::with_capacity(alloc, fields.len())?;
    for field in fields {
        columns.push(descriptor_of(alloc, field)?)?;
    }
    Ok(columns)
}
