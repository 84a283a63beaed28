//! Arrays in the shape of a type, made of the arrays of its columns.
ghost use Rattle.std.specs.Prelude.{◌≡◌, ◌∷◌, ◌≤◌, Some, drop, flat_map, length, map, IfOk, IfErr, OnOk};
ghost use Rattle.columns_core.specs.Array.{cells};
ghost use Rattle.columns_core.specs.Causes.{IsWantOfMemory};
ghost use Rattle.parquet_statistics.specs.LeafTypes.{leaf_types};
ghost use Rattle.parquet_statistics.specs.Made as made;
ghost use Rattle.parquet_statistics.specs.Parts.{shaped_each, AreOfTypes, AreShapesRefused, IsShapeRefused};
ghost use Rattle.parquet_statistics.specs.Refusal.{IsRefusedBy};
ghost use Rattle.parquet_statistics.specs.Shaped.{shaped};

use crate::as_box::side_by_side;
use crate::dictionaries::dictionary_of;
use crate::lists::{lists_of_one, map_of_all};
use columns_core::{Array, DataType, Error, Field, Part};
use std::alloc::Global;
use std::collections::VecDeque;

/// The array of a type over the first of these columns, which have the types of its columns and are taken away.
#[cycle(shape)]
pub(crate) fn shape(
    alloc: Global,
    data_type: &DataType,
    columns: &mut VecDeque<Array>,
) -> Result<Array, Error>
    ensures array { AreOfTypes (leaf_types data_type.now) columns.old.items → IfOk result (λ array.
        shaped data_type.now (map cells columns.old.items)
        ≡ Some (made.made_array array, map cells columns.new.items)) }
    ensures keys { IfOk result (made.HasKeysInTurn data_type.now) }
    ensures rest { OnOk result
        (columns.new.items ≡ drop (length (leaf_types data_type.now)) columns.old.items) }
    ensures err { AreOfTypes (leaf_types data_type.now) columns.old.items
        → IfErr result (IsShapeRefused (shaped data_type.now (map cells columns.old.items))) }
{
    match data_type {
        DataType::Dictionary(_, value, _) => {
            let entries = shape(alloc, value.get(), columns)?;
            dictionary_over(alloc, data_type, entries)
        }
        DataType::List(field) => {
            let items = shape(alloc, &field.get().data_type, columns)?;
            lists_over(alloc, data_type, items)
        }
        DataType::LargeList(field) => {
            let items = shape(alloc, &field.get().data_type, columns)?;
            lists_over(alloc, data_type, items)
        }
        DataType::Map(field, _) => {
            let pairs = shape(alloc, &field.get().data_type, columns)?;
            map_over(alloc, data_type, pairs)
        }
        DataType::Struct(fields) => {
            let inside = shape_fields(alloc, fields.as_slice(), columns)?;
            struct_over(alloc, data_type, inside)
        }
        _ => first_column(columns),
    }
}

#[cycle(shape)]
fn shape_fields(
    alloc: Global,
    fields: &[Field],
    columns: &mut VecDeque<Array>,
) -> Result<Vec<Array>, Error>
    ensures arrays { AreOfTypes (flat_map (λ field. leaf_types field.data_type) fields.now) columns.old.items
        → IfOk result (λ arrays.
        shaped_each (map (λ field. field.data_type) fields.now) (map cells columns.old.items)
        ≡ Some (map made.made_array arrays.items, map cells columns.new.items)) }
    ensures rest { let types = flat_map (λ field. leaf_types field.data_type) fields.now in
        OnOk result (columns.new.items ≡ drop (length types) columns.old.items) }
    ensures err { AreOfTypes (flat_map (λ field. leaf_types field.data_type) fields.now) columns.old.items
        → IfErr result (AreShapesRefused
        (shaped_each (map (λ field. field.data_type) fields.now) (map cells columns.old.items))) }
{
    let mut arrays = Vec::new(alloc);
    for field in fields {
        arrays.push(shape(alloc, &field.data_type, columns)?)?;
    }
    Ok(arrays)
}

fn first_column(columns: &mut VecDeque<Array>) -> Result<Array, Error>
    ensures first { IfOk result (λ array. columns.old.items ≡ array ∷ columns.new.items) }
    ensures memory { 1 ≤ length columns.old.items → IfErr result IsWantOfMemory }
{
    match columns.pop_front() {
        Some(column) => Ok(column),
        None => Err(Error::NotYetImplemented(Part::Schema)),
    }
}

fn dictionary_over(alloc: Global, data_type: &DataType, entries: Array) -> Result<Array, Error>
    ensures array { IfOk result (λ array.
        made.dictionary_made data_type.now (made.made_array entries) ≡ made.made_array array) }
    ensures keys { IfOk result (made.HasKeysInTurn data_type.now) }
    ensures err { let all = made.dictionary_made data_type.now (made.made_array entries) in
        IfErr result (IsRefusedBy (made.made_refusals all)) }
{
    match data_type.try_clone(alloc) {
        Ok(data_type) => dictionary_of(alloc, data_type, entries),
        Err(e) => {
            drop(entries);
            Err(e)
        }
    }
}

fn lists_over(alloc: Global, data_type: &DataType, items: Array) -> Result<Array, Error>
    ensures array { IfOk result (λ array.
        made.list_made data_type.now (made.made_array items) ≡ made.made_array array) }
    ensures err { let all = made.list_made data_type.now (made.made_array items) in
        IfErr result (IsRefusedBy (made.made_refusals all)) }
{
    match data_type.try_clone(alloc) {
        Ok(data_type) => lists_of_one(alloc, data_type, items),
        Err(e) => {
            drop(items);
            Err(e)
        }
    }
}

fn map_over(alloc: Global, data_type: &DataType, pairs: Array) -> Result<Array, Error>
    ensures array { IfOk result (λ array.
        made.map_made data_type.now (made.made_array pairs) ≡ made.made_array array) }
    ensures err { let all = made.map_made data_type.now (made.made_array pairs) in
        IfErr result (IsRefusedBy (made.made_refusals all)) }
{
    match data_type.try_clone(alloc) {
        Ok(data_type) => map_of_all(alloc, data_type, pairs),
        Err(e) => {
            drop(pairs);
            Err(e)
        }
    }
}

fn struct_over(alloc: Global, data_type: &DataType, columns: Vec<Array>) -> Result<Array, Error>
    ensures array { IfOk result (λ array.
        made.struct_made data_type.now (map made.made_array columns.items) ≡ made.made_array array) }
    ensures err { let all = made.struct_made data_type.now (map made.made_array columns.items) in
        IfErr result (IsRefusedBy (made.made_refusals all)) }
{
    match data_type.try_clone(alloc) {
        Ok(data_type) => side_by_side(data_type, columns),
        Err(e) => {
            drop(columns);
            Err(e)
        }
    }
}
