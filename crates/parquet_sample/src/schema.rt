//! The columns as a schema tells them.

ghost use Rattle.std.specs.Prelude.{◌≡◌, IfOk};
ghost use Rattle.parquet_plain.specs.Description.{descriptor_of};
ghost use Rattle.parquet_sample.specs.Parts.{sample_descriptors};
ghost use Rattle.parquet_sample.specs.Writing.{written_of};

use crate::column::SampleColumn;
use columns_core::Name;
use parquet_meta::{ColumnDescriptor, ColumnPath, PhysicalType, PrimitiveType, Repetition};
use std::alloc::{AllocError, Global};

fn column_name(column: SampleColumn) -> &'static str
    ensures { result.now ≡ (written_of column).column.name }
{
    match column {
        SampleColumn::Id => "id",
        SampleColumn::Qty => "qty",
        SampleColumn::Name => "name",
    }
}

fn column_type(column: SampleColumn) -> PrimitiveType
    ensures { result ≡ (written_of column).column.type }
{
    let (physical_type, repetition) = match column {
        SampleColumn::Id => (PhysicalType::Int64, Repetition::Required),
        SampleColumn::Qty => (PhysicalType::Int32, Repetition::Optional),
        SampleColumn::Name => (PhysicalType::ByteArray, Repetition::Required),
    };
    PrimitiveType {
        physical_type,
        logical_type: None,
        repetition,
    }
}

fn descriptor(alloc: Global, column: SampleColumn) -> Result<ColumnDescriptor, AllocError>
    ensures { IfOk result (λ told. told ≡ descriptor_of (written_of column).column) }
{
    let mut name = String::new(alloc);
    name.push_str(column_name(column))?;
    let mut path = Vec::new(alloc);
    path.push(Name::new(name))?;
    Ok(ColumnDescriptor {
        path_in_schema: ColumnPath::new(alloc, path)?,
        primitive_type: column_type(column),
        flat: true,
    })
}

/// The three columns.
pub(crate) fn schema(alloc: Global) -> Result<Vec<ColumnDescriptor>, AllocError>
    ensures { IfOk result (λ columns. columns.items ≡ sample_descriptors) }
{
    let id = descriptor(alloc, SampleColumn::Id)?;
    let qty = descriptor(alloc, SampleColumn::Qty)?;
    let name = descriptor(alloc, SampleColumn::Name)?;
    let mut columns = Vec::new(alloc);
    columns.push(id)?;
    columns.push(qty)?;
    columns.push(name)?;
    Ok(columns)
}
