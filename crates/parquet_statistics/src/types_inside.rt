//! The columns inside a type.
ghost use Rattle.std.specs.Prelude.{◌≡◌, ◌++◌, map, flat_map, IfOk, IfErr, OnOk};
ghost use Rattle.columns_core.specs.Causes.{IsWantOfMemory};
ghost use Rattle.parquet_statistics.specs.LeafTypes as spec;

use columns_core::{DataType, Error, Field};
use std::alloc::Global;

/// The types that the columns of a field of this type are read as, in turn: of a struct those inside its fields, of a dictionary, a list or a map those
/// inside its entries, its items or its pairs, and of any other type it alone.
pub fn leaf_types<'a>(alloc: Global, data_type: &'a DataType) -> Result<Vec<&'a DataType>, Error>
    ensures types { IfOk result (λ types.
        map (λ data_type. data_type.now) types.items ≡ spec.leaf_types data_type.now) }
    ensures memory { IfErr result IsWantOfMemory }
{
    let mut types = Vec::new(alloc);
    push_types(&mut types, data_type)?;
    Ok(types)
}

#[cycle(push_types)]
fn push_types<'a>(types: &mut Vec<&'a DataType>, data_type: &'a DataType) -> Result<(), Error>
    ensures pushed { OnOk result (map (λ data_type. data_type.now) types.new.items
        ≡ map (λ data_type. data_type.now) types.old.items ++ spec.leaf_types data_type.now) }
    ensures memory { IfErr result IsWantOfMemory }
{
    match data_type {
        DataType::Dictionary(_, value, _) => push_types(types, value.get()),
        DataType::List(field) => push_types(types, &field.get().data_type),
        DataType::LargeList(field) => push_types(types, &field.get().data_type),
        DataType::Map(field, _) => push_types(types, &field.get().data_type),
        DataType::Struct(fields) => push_types_of_fields(types, fields.as_slice()),
        _ => Ok(types.push(data_type)?),
    }
}

#[cycle(push_types)]
fn push_types_of_fields<'a>(types: &mut Vec<&'a DataType>, fields: &'a [Field]) -> Result<(), Error>
    ensures pushed { OnOk result (map (λ data_type. data_type.now) types.new.items
        ≡ map (λ data_type. data_type.now) types.old.items
        ++ flat_map (λ field. spec.leaf_types field.data_type) fields.now) }
    ensures memory { IfErr result IsWantOfMemory }
{
    for field in fields {
        push_types(types, &field.data_type)?;
    }
    Ok(())
}
