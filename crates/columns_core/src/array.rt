ghost use Rattle.std.specs.Prelude.{◌≡◌, ◌<◌, ◌≤◌, length, slice_get, map, Some, IfOk, IfErr};
ghost use Rattle.columns_core.specs.Array.{data_type_of, cells};
ghost use Rattle.columns_core.specs.Causes.{IsWantOfMemory};
ghost use Rattle.columns_core.specs.Column.{cell_of};
ghost use Rattle.columns_core.specs.Depth.{depth};
ghost use Rattle.columns_core.specs.Kinds.{IsNot};
ghost use Rattle.columns_core.specs.Lent.{cell_lent, IsThere, lent_depth};
ghost use Rattle.columns_core.specs.declared.array.Array.TheVariants.{Dictionary, List, Map, Struct};
ghost use Rattle.columns_core.specs.declared.cell.Cell.{Bool, Bytes, Text};

use crate::lent::{Lends, Lent};
use crate::{
    BinaryArray, BooleanArray, Cell, DataType, DictionaryArray, Error, FixedSizeBinaryArray,
    ListArray, MapArray, NullArray, Offset, PrimitiveArray, StructArray, Utf8Array, days_ms,
};
use std::alloc::Global;

/// A column's values of one type.
#[cycle(array)]
#[derive(Drop)]
pub enum Array {
    Null(NullArray),
    Boolean(BooleanArray),
    Int8(PrimitiveArray<i8>),
    Int16(PrimitiveArray<i16>),
    Int32(PrimitiveArray<i32>),
    Int64(PrimitiveArray<i64>),
    UInt8(PrimitiveArray<u8>),
    UInt16(PrimitiveArray<u16>),
    UInt32(PrimitiveArray<u32>),
    UInt64(PrimitiveArray<u64>),
    Int128(PrimitiveArray<i128>),
    DaysMs(PrimitiveArray<days_ms>),
    Utf8(Utf8Array<i32>),
    LargeUtf8(Utf8Array<i64>),
    Binary(BinaryArray<i32>),
    LargeBinary(BinaryArray<i64>),
    FixedSizeBinary(FixedSizeBinaryArray),
    Dictionary(DictionaryArray),
    List(ListArray),
    Struct(StructArray),
    Map(MapArray),
}

impl Array {
    pub fn len(&self) -> usize
        ensures { result ≡ length (cells self.now) }
    {
        match self {
            Array::Null(array) => array.len(),
            Array::Boolean(array) => array.len(),
            Array::Int8(array) => array.len(),
            Array::Int16(array) => array.len(),
            Array::Int32(array) => array.len(),
            Array::Int64(array) => array.len(),
            Array::UInt8(array) => array.len(),
            Array::UInt16(array) => array.len(),
            Array::UInt32(array) => array.len(),
            Array::UInt64(array) => array.len(),
            Array::Int128(array) => array.len(),
            Array::DaysMs(array) => array.len(),
            Array::Utf8(array) => array.len(),
            Array::LargeUtf8(array) => array.len(),
            Array::Binary(array) => array.len(),
            Array::LargeBinary(array) => array.len(),
            Array::FixedSizeBinary(array) => array.len(),
            Array::Dictionary(array) => array.len(),
            Array::List(array) => array.len(),
            Array::Struct(array) => array.len(),
            Array::Map(array) => array.len(),
        }
    }

    pub fn data_type(&self) -> &DataType
        ensures { result.now ≡ data_type_of self.now }
    {
        match self {
            Array::Null(array) => array.data_type(),
            Array::Boolean(array) => array.data_type(),
            Array::Int8(array) => array.data_type(),
            Array::Int16(array) => array.data_type(),
            Array::Int32(array) => array.data_type(),
            Array::Int64(array) => array.data_type(),
            Array::UInt8(array) => array.data_type(),
            Array::UInt16(array) => array.data_type(),
            Array::UInt32(array) => array.data_type(),
            Array::UInt64(array) => array.data_type(),
            Array::Int128(array) => array.data_type(),
            Array::DaysMs(array) => array.data_type(),
            Array::Utf8(array) => array.data_type(),
            Array::LargeUtf8(array) => array.data_type(),
            Array::Binary(array) => array.data_type(),
            Array::LargeBinary(array) => array.data_type(),
            Array::FixedSizeBinary(array) => array.data_type(),
            Array::Dictionary(array) => array.data_type(),
            Array::List(array) => array.data_type(),
            Array::Struct(array) => array.data_type(),
            Array::Map(array) => array.data_type(),
        }
    }

    /// The cell at a place.
    pub fn item(&self, alloc: Global, i: usize) -> Result<Cell, Error>
        requires { i < length (cells self.now) }
        ensures cell { IfOk result (λ cell. slice_get (cells self.now) i ≡ Some cell) }
        ensures memory { IfErr result IsWantOfMemory }
    {
        self.lent(i).to_cell(alloc)
    }

    /// The cell at a place, read where it lies.
    #[cycle(lent)]
    pub fn lent(&self, i: usize) -> Lent<'_>
        requires { i < length (cells self.now) }
        ensures cell { slice_get (cells self.now) i ≡ Some (cell_lent result) }
        ensures there { IsThere result }
        ensures shallow { lent_depth result ≤ depth (data_type_of self.now) }
    {
        match self {
            Array::Dictionary(array) => array.lent(i),
            _ => lent_without_keys(self, i),
        }
    }

    #[cycle(copy_of_array)]
    pub fn try_clone(&self, alloc: Global) -> Result<Array, Error>
        ensures copy { IfOk result (λ copy. copy ≡ self.now) }
        ensures memory { IfErr result IsWantOfMemory }
    {
        match self {
            Array::Dictionary(array) => Ok(Array::Dictionary(array.try_clone(alloc)?)),
            Array::List(array) => Ok(Array::List(array.try_clone(alloc)?)),
            Array::Struct(array) => Ok(Array::Struct(array.try_clone(alloc)?)),
            Array::Map(array) => Ok(Array::Map(array.try_clone(alloc)?)),
            _ => copy_of_leaf(alloc, self),
        }
    }
}

/// A copy of an array in which no other lies: outside the cycle, where it takes less to prove.
fn copy_of_leaf(alloc: Global, array: &Array) -> Result<Array, Error>
    requires no_dictionary { IsNot Dictionary array.now }
    requires no_list { IsNot List array.now }
    requires no_struct { IsNot Struct array.now }
    requires no_map { IsNot Map array.now }
    ensures copy { IfOk result (λ copy. copy ≡ array.now) }
    ensures memory { IfErr result IsWantOfMemory }
{
    Ok(match array {
        Array::Null(array) => Array::Null(NullArray::new(array.len())),
        Array::Boolean(array) => Array::Boolean(array.try_clone(alloc)?),
        Array::Int8(array) => Array::Int8(array.try_clone(alloc)?),
        Array::Int16(array) => Array::Int16(array.try_clone(alloc)?),
        Array::Int32(array) => Array::Int32(array.try_clone(alloc)?),
        Array::Int64(array) => Array::Int64(array.try_clone(alloc)?),
        Array::UInt8(array) => Array::UInt8(array.try_clone(alloc)?),
        Array::UInt16(array) => Array::UInt16(array.try_clone(alloc)?),
        Array::UInt32(array) => Array::UInt32(array.try_clone(alloc)?),
        Array::UInt64(array) => Array::UInt64(array.try_clone(alloc)?),
        Array::Int128(array) => Array::Int128(array.try_clone(alloc)?),
        Array::DaysMs(array) => Array::DaysMs(array.try_clone(alloc)?),
        Array::Utf8(array) => Array::Utf8(array.try_clone(alloc)?),
        Array::LargeUtf8(array) => Array::LargeUtf8(array.try_clone(alloc)?),
        Array::Binary(array) => Array::Binary(array.try_clone(alloc)?),
        Array::LargeBinary(array) => Array::LargeBinary(array.try_clone(alloc)?),
        Array::FixedSizeBinary(array) => Array::FixedSizeBinary(array.try_clone(alloc)?),
        Array::Dictionary(_) | Array::List(_) | Array::Struct(_) | Array::Map(_) => unreachable!(),
    })
}

/// The cell of an array that is no dictionary: outside the cycle, where it takes less to prove.
fn lent_without_keys(array: &Array, i: usize) -> Lent<'_>
    requires kind { IsNot Dictionary array.now }
    requires within { i < length (cells array.now) }
    ensures cell { slice_get (cells array.now) i ≡ Some (cell_lent result) }
    ensures there { IsThere result }
    ensures shallow { lent_depth result ≤ depth (data_type_of array.now) }
{
    match array {
        Array::Null(_) => Lent::Null,
        Array::Boolean(array) => lent_truth(array, i),
        Array::Int8(array) => lent_number(array, i),
        Array::Int16(array) => lent_number(array, i),
        Array::Int32(array) => lent_number(array, i),
        Array::Int64(array) => lent_number(array, i),
        Array::UInt8(array) => lent_number(array, i),
        Array::UInt16(array) => lent_number(array, i),
        Array::UInt32(array) => lent_number(array, i),
        Array::UInt64(array) => lent_number(array, i),
        Array::Int128(array) => lent_number(array, i),
        Array::DaysMs(array) => lent_number(array, i),
        Array::Utf8(array) => lent_text(array, i),
        Array::LargeUtf8(array) => lent_text(array, i),
        Array::Binary(array) => lent_string(array, i),
        Array::LargeBinary(array) => lent_string(array, i),
        Array::FixedSizeBinary(array) => lent_bytes(array, i),
        Array::List(array) => array.lent(i),
        Array::Struct(array) => array.lent(i),
        Array::Map(array) => array.lent(i),
        Array::Dictionary(_) => unreachable!(),
    }
}

pub(crate) fn lent_truth(array: &BooleanArray, i: usize) -> Lent<'_>
    requires { i < length array.now.items }
    ensures cell { slice_get (map (cell_of Bool) array.now.items) i ≡ Some (cell_lent result) }
    ensures there { IsThere result }
    ensures flat { lent_depth result ≡ 0 }
{
    match array.get(i) {
        None => Lent::Null,
        Some(value) => Lent::Bool(value),
    }
}

pub(crate) fn lent_number<T: Lends>(array: &PrimitiveArray<T>, i: usize) -> Lent<'_>
    requires { i < length array.now.items }
    ensures cell { slice_get (map (cell_of T.cell) array.now.items) i ≡ Some (cell_lent result) }
    ensures there { IsThere result }
    ensures flat { lent_depth result ≡ 0 }
{
    match array.get(i) {
        None => Lent::Null,
        Some(value) => value.lent(),
    }
}

pub(crate) fn lent_text<O: Offset>(array: &Utf8Array<O>, i: usize) -> Lent<'_>
    requires { i < length array.now.items }
    ensures cell { slice_get (map (cell_of Text) array.now.items) i ≡ Some (cell_lent result) }
    ensures there { IsThere result }
    ensures flat { lent_depth result ≡ 0 }
{
    match array.get(i) {
        None => Lent::Null,
        Some(text) => Lent::Text(text),
    }
}

pub(crate) fn lent_string<O: Offset>(array: &BinaryArray<O>, i: usize) -> Lent<'_>
    requires { i < length array.now.items }
    ensures cell { slice_get (map (cell_of Bytes) array.now.items) i ≡ Some (cell_lent result) }
    ensures there { IsThere result }
    ensures flat { lent_depth result ≡ 0 }
{
    match array.get(i) {
        None => Lent::Null,
        Some(bytes) => Lent::Bytes(bytes),
    }
}

pub(crate) fn lent_bytes(array: &FixedSizeBinaryArray, i: usize) -> Lent<'_>
    requires { i < length array.now.items }
    ensures cell { slice_get (map (cell_of Bytes) array.now.items) i ≡ Some (cell_lent result) }
    ensures there { IsThere result }
    ensures flat { lent_depth result ≡ 0 }
{
    match array.get(i) {
        None => Lent::Null,
        Some(bytes) => Lent::Bytes(bytes),
    }
}
