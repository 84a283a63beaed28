//! Empty builders.
ghost use Rattle.std.specs.Prelude.{◌≡◌, ◌⊎◌, [], is_some, true, IfOk, IfErr, OnOk};
ghost use Rattle.columns_core.specs.Causes.{IsWantOfMemory};
ghost use Rattle.columns_core.specs.DictionaryType.{entry_type};
ghost use Rattle.columns_core.specs.Nested.{map_type, field_types};
ghost use Rattle.flat_builders.specs.Flat.{Flat, flatness};
ghost use Rattle.flat_builders.specs.Kept.{IsRefusedType};
ghost use Rattle.parquet_statistics.specs.BuiltTypes.{are_empty_of, is_empty_of, item_type, refusals_of_fields, shape_refusals, type_refusals};
ghost use Rattle.parquet_statistics.specs.Refusal.{IsRefusedBy};

use crate::{
    DynMutable, DynMutableDictionary, DynMutableListArray, DynMutableMapArray,
    DynMutableStructArray,
};
use columns_core::{DataType, Error, Field, Part};
use flat_builders::FlatMutable;
use std::alloc::Global;

impl DynMutable {
    /// An empty builder, with memory for `capacity` cells in each flat builder.
    ///
    /// `InvalidArgumentError` where a struct in the type has no fields; `NotYetImplemented` where bytes of a fixed size in it have no size.
    pub fn try_with_capacity(
        alloc: Global,
        data_type: DataType,
        capacity: usize,
    ) -> Result<Self, Error>
        ensures empty { IfOk result (λ builder. is_empty_of data_type builder ≡ true) }
        ensures ok { OnOk result (type_refusals data_type ≡ []) }
        ensures err { IfErr result (IsRefusedBy (type_refusals data_type)) }
    {
        builder_of(alloc, &data_type, capacity)
    }
}

impl DynMutableDictionary {
    /// An empty builder, with memory for `capacity` cells in each flat builder.
    ///
    /// `InvalidArgumentError` where the type is no dictionary, or a struct in it has no fields; `NotYetImplemented` where bytes of a fixed
    /// size in it have no size.
    pub fn try_with_capacity(
        alloc: Global,
        data_type: DataType,
        capacity: usize,
    ) -> Result<Self, Error>
        ensures empty { IfOk result (λ builder.
            is_empty_of data_type (DynMutable.Dictionary builder) ≡ true) }
        ensures ok { OnOk result (shape_refusals (is_some (entry_type data_type)) data_type ≡ []) }
        ensures err { let refusals = shape_refusals (is_some (entry_type data_type)) data_type in
            IfErr result (IsRefusedBy refusals) }
    {
        match &data_type {
            DataType::Dictionary(_, value, _) => {
                let inner = builder_of(alloc, value.get(), capacity)?;
                dictionary_over(alloc, &data_type, inner)
            }
            _ => Err(Error::InvalidArgumentError(Part::Request)),
        }
    }
}

impl DynMutableListArray {
    /// An empty builder, with memory for `capacity` cells in each flat builder.
    ///
    /// `InvalidArgumentError` where the type is no list, or a struct in it has no fields; `NotYetImplemented` where bytes of a fixed size
    /// in it have no size.
    pub fn try_with_capacity(
        alloc: Global,
        data_type: DataType,
        capacity: usize,
    ) -> Result<Self, Error>
        ensures empty { IfOk result (λ builder. is_empty_of data_type (DynMutable.List builder) ≡ true) }
        ensures ok { OnOk result (shape_refusals (is_some (item_type data_type)) data_type ≡ []) }
        ensures err { IfErr result (IsRefusedBy (shape_refusals (is_some (item_type data_type)) data_type)) }
    {
        match &data_type {
            DataType::List(field) => {
                let inner = builder_of(alloc, &field.get().data_type, capacity)?;
                list_over(alloc, &data_type, inner)
            }
            DataType::LargeList(field) => {
                let inner = builder_of(alloc, &field.get().data_type, capacity)?;
                list_over(alloc, &data_type, inner)
            }
            _ => Err(Error::InvalidArgumentError(Part::Request)),
        }
    }
}

impl DynMutableMapArray {
    /// An empty builder, with memory for `capacity` cells in each flat builder.
    ///
    /// `InvalidArgumentError` where the type is no map, or a struct in it has no fields; `NotYetImplemented` where bytes of a fixed size
    /// in it have no size.
    pub fn try_with_capacity(
        alloc: Global,
        data_type: DataType,
        capacity: usize,
    ) -> Result<Self, Error>
        ensures empty { IfOk result (λ builder. is_empty_of data_type (DynMutable.Map builder) ≡ true) }
        ensures ok { OnOk result (shape_refusals (is_some (map_type data_type)) data_type ≡ []) }
        ensures err { IfErr result (IsRefusedBy (shape_refusals (is_some (map_type data_type)) data_type)) }
    {
        match &data_type {
            DataType::Map(field, _) => {
                let inner = builder_of(alloc, &field.get().data_type, capacity)?;
                map_over(alloc, &data_type, inner)
            }
            _ => Err(Error::InvalidArgumentError(Part::Request)),
        }
    }
}

impl DynMutableStructArray {
    /// An empty builder for each field, with memory for `capacity` cells in each flat builder.
    ///
    /// `InvalidArgumentError` where the type is no struct, or a struct in it has no fields; `NotYetImplemented` where bytes of a fixed
    /// size in it have no size.
    pub fn try_with_capacity(
        alloc: Global,
        data_type: DataType,
        capacity: usize,
    ) -> Result<Self, Error>
        ensures empty { IfOk result (λ builder. is_empty_of data_type (DynMutable.Struct builder) ≡ true) }
        ensures ok { OnOk result (shape_refusals (is_some (field_types data_type)) data_type ≡ []) }
        ensures err { let refusals = shape_refusals (is_some (field_types data_type)) data_type in
            IfErr result (IsRefusedBy refusals) }
    {
        match &data_type {
            DataType::Struct(fields) => {
                let inner = builders_of(alloc, fields.as_slice(), capacity)?;
                struct_over(alloc, &data_type, inner)
            }
            _ => Err(Error::InvalidArgumentError(Part::Request)),
        }
    }
}

/// An empty builder of a type.
#[cycle(builder_of)]
fn builder_of(alloc: Global, data_type: &DataType, capacity: usize) -> Result<DynMutable, Error>
    ensures empty { IfOk result (λ builder. is_empty_of data_type.now builder ≡ true) }
    ensures ok { OnOk result (type_refusals data_type.now ≡ []) }
    ensures err { IfErr result (IsRefusedBy (type_refusals data_type.now)) }
{
    match data_type {
        DataType::Dictionary(_, value, _) => {
            let inner = builder_of(alloc, value.get(), capacity)?;
            Ok(DynMutable::Dictionary(dictionary_over(alloc, data_type, inner)?))
        }
        DataType::List(field) => {
            let inner = builder_of(alloc, &field.get().data_type, capacity)?;
            Ok(DynMutable::List(list_over(alloc, data_type, inner)?))
        }
        DataType::LargeList(field) => {
            let inner = builder_of(alloc, &field.get().data_type, capacity)?;
            Ok(DynMutable::List(list_over(alloc, data_type, inner)?))
        }
        DataType::Map(field, _) => {
            let inner = builder_of(alloc, &field.get().data_type, capacity)?;
            Ok(DynMutable::Map(map_over(alloc, data_type, inner)?))
        }
        DataType::Struct(fields) => {
            let inner = builders_of(alloc, fields.as_slice(), capacity)?;
            Ok(DynMutable::Struct(struct_over(alloc, data_type, inner)?))
        }
        _ => Ok(DynMutable::Flat(flat_builder(alloc, data_type, capacity)?)),
    }
}

/// Empty builders of the types of fields, of which there has to be one.
#[cycle(builder_of)]
fn builders_of(alloc: Global, fields: &[Field], capacity: usize) -> Result<Vec<DynMutable>, Error>
    ensures empty { IfOk result (λ builders. are_empty_of fields.now builders.items ≡ true) }
    ensures ok { OnOk result (refusals_of_fields fields.now ≡ []) }
    ensures err { IfErr result (IsRefusedBy (refusals_of_fields fields.now)) }
{
    if fields.is_empty() {
        return Err(Error::InvalidArgumentError(Part::Request));
    }
    let mut builders = Vec::new(alloc);
    for field in fields {
        builders.push(builder_of(alloc, &field.data_type, capacity)?)?;
    }
    Ok(builders)
}

fn flat_builder(alloc: Global, data_type: &DataType, capacity: usize) -> Result<FlatMutable, Error>
    ensures empty { IfOk result (λ builder. builder ≡ (data_type.now, [])) }
    ensures ok { IfOk result (λ _. flatness data_type.now ≡ Flat) }
    ensures err { IfErr result (λ e. IsWantOfMemory e ⊎ IsRefusedType (flatness data_type.now) e) }
{
    let data_type = data_type.try_clone(alloc)?;
    FlatMutable::try_with_capacity(alloc, data_type, capacity)
}

fn dictionary_over(
    alloc: Global,
    data_type: &DataType,
    inner: DynMutable,
) -> Result<DynMutableDictionary, Error>
    ensures over { IfOk result (λ builder.
        (builder.data_type ≡ data_type.now) × (builder.inner.value ≡ inner)) }
    ensures memory { IfErr result IsWantOfMemory }
{
    let inner = Box::new(alloc, inner)?;
    let data_type = data_type.try_clone(alloc)?;
    Ok(DynMutableDictionary {
        data_type,
        alloc,
        inner,
    })
}

fn list_over(
    alloc: Global,
    data_type: &DataType,
    inner: DynMutable,
) -> Result<DynMutableListArray, Error>
    ensures over { IfOk result (λ builder.
        (builder.data_type ≡ data_type.now) × (builder.inner.value ≡ inner)) }
    ensures memory { IfErr result IsWantOfMemory }
{
    let inner = Box::new(alloc, inner)?;
    let data_type = data_type.try_clone(alloc)?;
    Ok(DynMutableListArray {
        data_type,
        alloc,
        inner,
    })
}

fn map_over(
    alloc: Global,
    data_type: &DataType,
    inner: DynMutable,
) -> Result<DynMutableMapArray, Error>
    ensures over { IfOk result (λ builder.
        (builder.data_type ≡ data_type.now) × (builder.inner.value ≡ inner)) }
    ensures memory { IfErr result IsWantOfMemory }
{
    let inner = Box::new(alloc, inner)?;
    let data_type = data_type.try_clone(alloc)?;
    Ok(DynMutableMapArray {
        data_type,
        alloc,
        inner,
    })
}

fn struct_over(
    alloc: Global,
    data_type: &DataType,
    inner: Vec<DynMutable>,
) -> Result<DynMutableStructArray, Error>
    ensures over { IfOk result (λ builder.
        (builder.data_type ≡ data_type.now) × (builder.inner ≡ inner)) }
    ensures memory { IfErr result IsWantOfMemory }
{
    let data_type = data_type.try_clone(alloc)?;
    Ok(DynMutableStructArray {
        data_type,
        alloc,
        inner,
    })
}
