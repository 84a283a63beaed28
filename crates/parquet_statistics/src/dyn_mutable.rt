//! Builders of columns, some of them inside others.
use columns_core::DataType;
use flat_builders::FlatMutable;
use std::alloc::Global;

/// A column of any type that is still being built.
#[cycle(dyn_mutable)]
#[derive(Drop)]
pub enum DynMutable {
    Flat(FlatMutable),
    Dictionary(DynMutableDictionary),
    List(DynMutableListArray),
    Map(DynMutableMapArray),
    Struct(DynMutableStructArray),
}

/// A builder of the entries of a dictionary, each of which a key will name.
#[cycle(dyn_mutable)]
#[derive(Drop)]
pub struct DynMutableDictionary {
    pub(crate) data_type: DataType,
    pub(crate) alloc: Global,
    pub inner: Box<DynMutable>,
}

/// A builder of items, each of which will be a list.
#[cycle(dyn_mutable)]
#[derive(Drop)]
pub struct DynMutableListArray {
    pub(crate) data_type: DataType,
    pub(crate) alloc: Global,
    pub inner: Box<DynMutable>,
}

/// A builder of pairs, all of which will be one map.
#[cycle(dyn_mutable)]
#[derive(Drop)]
pub struct DynMutableMapArray {
    pub(crate) data_type: DataType,
    pub(crate) alloc: Global,
    pub inner: Box<DynMutable>,
}

/// Builders of the fields of structs.
#[cycle(dyn_mutable)]
#[derive(Drop)]
pub struct DynMutableStructArray {
    pub(crate) data_type: DataType,
    pub(crate) alloc: Global,
    pub inner: Vec<DynMutable>,
}
