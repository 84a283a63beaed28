//! Copies of types, fields, schemas and cells.

ghost use Rattle.std.specs.Prelude.{◌≡◌, IfOk, IfErr};
ghost use Rattle.columns_core.specs.Causes.{IsWantOfMemory};

use crate::{Boxed, Cell, DataType, Error, Field, Name, Schema, Seq};
use std::alloc::Global;

impl DataType {
    #[cycle(copy)]
    pub fn try_clone(&self, alloc: Global) -> Result<DataType, Error>
        ensures copy { IfOk result (λ copy. copy ≡ self.now) }
        ensures memory { IfErr result IsWantOfMemory }
    {
        Ok(match self {
            DataType::Null => DataType::Null,
            DataType::Boolean => DataType::Boolean,
            DataType::Int8 => DataType::Int8,
            DataType::Int16 => DataType::Int16,
            DataType::Int32 => DataType::Int32,
            DataType::Int64 => DataType::Int64,
            DataType::UInt8 => DataType::UInt8,
            DataType::UInt16 => DataType::UInt16,
            DataType::UInt32 => DataType::UInt32,
            DataType::UInt64 => DataType::UInt64,
            DataType::Date32 => DataType::Date32,
            DataType::Date64 => DataType::Date64,
            DataType::Time32(unit) => DataType::Time32(*unit),
            DataType::Time64(unit) => DataType::Time64(*unit),
            DataType::Duration(unit) => DataType::Duration(*unit),
            DataType::Timestamp(unit, zone) => {
                DataType::Timestamp(*unit, copy_of_name_if_any(alloc, zone)?)
            }
            DataType::Interval(unit) => DataType::Interval(*unit),
            DataType::Decimal(precision, scale) => DataType::Decimal(*precision, *scale),
            DataType::Utf8 => DataType::Utf8,
            DataType::LargeUtf8 => DataType::LargeUtf8,
            DataType::Binary => DataType::Binary,
            DataType::LargeBinary => DataType::LargeBinary,
            DataType::FixedSizeBinary(size) => DataType::FixedSizeBinary(*size),
            DataType::Dictionary(key, value, is_ordered) => DataType::Dictionary(
                *key,
                Boxed::new(alloc, value.get().try_clone(alloc)?)?,
                *is_ordered,
            ),
            DataType::List(field) => {
                DataType::List(Boxed::new(alloc, field.get().try_clone(alloc)?)?)
            }
            DataType::LargeList(field) => {
                DataType::LargeList(Boxed::new(alloc, field.get().try_clone(alloc)?)?)
            }
            DataType::Struct(fields) => DataType::Struct(copy_of_fields(alloc, fields.as_slice())?),
            DataType::Map(field, is_sorted) => DataType::Map(
                Boxed::new(alloc, field.get().try_clone(alloc)?)?,
                *is_sorted,
            ),
        })
    }
}

impl Field {
    #[cycle(copy)]
    pub fn try_clone(&self, alloc: Global) -> Result<Field, Error>
        ensures copy { IfOk result (λ copy. copy ≡ self.now) }
        ensures memory { IfErr result IsWantOfMemory }
    {
        Ok(Field {
            name: copy_of_name(alloc, &self.name)?,
            data_type: self.data_type.try_clone(alloc)?,
            is_nullable: self.is_nullable,
        })
    }
}

#[cycle(copy)]
fn copy_of_fields(alloc: Global, fields: &[Field]) -> Result<Seq<Field>, Error>
    ensures copy { IfOk result (λ copy. copy ≡ fields.now) }
    ensures memory { IfErr result IsWantOfMemory }
{
    let mut copies = Vec::with_capacity(alloc, fields.len())?;
    for field in fields {
        copies.push(field.try_clone(alloc)?)?;
    }
    Ok(Seq::new(copies))
}

impl Schema {
    pub fn try_clone(&self, alloc: Global) -> Result<Schema, Error>
        ensures copy { IfOk result (λ copy. copy ≡ self.now) }
        ensures memory { IfErr result IsWantOfMemory }
    {
        Ok(Schema {
            fields: copy_of_fields(alloc, self.fields.as_slice())?,
        })
    }
}

fn copy_of_name(alloc: Global, name: &Name) -> Result<Name, Error>
    ensures copy { IfOk result (λ copy. copy ≡ name.now) }
    ensures memory { IfErr result IsWantOfMemory }
{
    Ok(Name::new(String::from_str(alloc, name.as_str())?))
}

fn copy_of_name_if_any(alloc: Global, name: &Option<Name>) -> Result<Option<Name>, Error>
    ensures copy { IfOk result (λ copy. copy ≡ name.now) }
    ensures memory { IfErr result IsWantOfMemory }
{
    match name {
        None => Ok(None),
        Some(name) => Ok(Some(copy_of_name(alloc, name)?)),
    }
}

impl Cell {
    #[cycle(copy_of_cell)]
    pub fn try_clone(&self, alloc: Global) -> Result<Cell, Error>
        ensures copy { IfOk result (λ copy. copy ≡ self.now) }
        ensures memory { IfErr result IsWantOfMemory }
    {
        Ok(match self {
            Cell::Null => Cell::Null,
            Cell::Bool(value) => Cell::Bool(*value),
            Cell::Int(value) => Cell::Int(*value),
            Cell::DaysMs(days, milliseconds) => Cell::DaysMs(*days, *milliseconds),
            Cell::Text(text) => Cell::Text(copy_of_name(alloc, text)?),
            Cell::Bytes(bytes) => {
                Cell::Bytes(Seq::new(Vec::from_slice(alloc, bytes.as_slice())?))
            }
            Cell::Cells(cells) => Cell::Cells(copy_of_cells(alloc, cells.as_slice())?),
        })
    }
}

#[cycle(copy_of_cell)]
fn copy_of_cells(alloc: Global, cells: &[Cell]) -> Result<Seq<Cell>, Error>
    ensures copy { IfOk result (λ copy. copy ≡ cells.now) }
    ensures memory { IfErr result IsWantOfMemory }
{
    let mut copies = Vec::with_capacity(alloc, cells.len())?;
    for cell in cells {
        copies.push(cell.try_clone(alloc)?)?;
    }
    Ok(Seq::new(copies))
}
