//! Arrays of any type that is written.

ghost use Rattle.std.specs.Prelude.{◌≡◌, ◌<◌, IsTrue};
ghost use Rattle.columns_core.specs.Array.{column_of};
ghost use Rattle.parquet_plain.specs.Columns.{written_chunk};
ghost use Rattle.put_program.specs.Put.{stored_items, written_field};
ghost use Rattle.put_program.specs.Request.{FitsField};
ghost use Rattle.put_program.specs.Request as spec;
ghost use Rattle.put_program.specs.Stored.{is_written};
ghost use Rattle.put_program.specs.Typed.{AddsColumn};

use crate::fields::stored_type;
use crate::numbers::Numbers;
use crate::strings::{FixedBytes, Strings, Texts};
use crate::truths::Truths;
use crate::typed::add_typed;
use columns_core::{Array, DataType, Error, Field, FixedSizeBinaryArray, NativeType};
use parquet_write::{ChunkFacts, Parts};
use std::alloc::Global;

/// Whether the type is one of fixed bytes, and each that is there has as many as it says.
fn are_sized(array: &FixedSizeBinaryArray) -> bool
    ensures { result ≡ spec.are_sized array.now }
{
    let DataType::FixedSizeBinary(size) = array.data_type() else {
        return false;
    };
    for row in 0..array.len() {
        if let Some(bytes) = array.get(row) {
            if bytes.len() != *size {
                return false;
            }
        }
    }
    true
}

/// Whether the array is of the kind that stores its type.
pub(crate) fn is_own(array: &Array) -> bool
    ensures { result ≡ spec.is_own array.now }
{
    match array {
        Array::Boolean(array) => matches!(array.data_type(), DataType::Boolean),
        Array::Int8(array) => i8::stores(array.data_type()),
        Array::Int16(array) => i16::stores(array.data_type()),
        Array::Int32(array) => i32::stores(array.data_type()),
        Array::Int64(array) => i64::stores(array.data_type()),
        Array::UInt8(array) => u8::stores(array.data_type()),
        Array::UInt16(array) => u16::stores(array.data_type()),
        Array::UInt32(array) => u32::stores(array.data_type()),
        Array::UInt64(array) => u64::stores(array.data_type()),
        Array::Int128(array) => i128::stores(array.data_type()),
        Array::Utf8(array) => matches!(array.data_type(), DataType::Utf8),
        Array::LargeUtf8(array) => matches!(array.data_type(), DataType::LargeUtf8),
        Array::Binary(array) => matches!(array.data_type(), DataType::Binary),
        Array::LargeBinary(array) => matches!(array.data_type(), DataType::LargeBinary),
        Array::FixedSizeBinary(array) => are_sized(array),
        Array::Null(_) => true,
        Array::DaysMs(array) => stored_type(array.data_type()).is_none(),
        Array::Dictionary(array) => stored_type(array.data_type()).is_none(),
        Array::List(array) => stored_type(array.data_type()).is_none(),
        Array::Struct(array) => stored_type(array.data_type()).is_none(),
        Array::Map(array) => stored_type(array.data_type()).is_none(),
    }
}

/// A chunk of an array, and what is told of it.
///
/// # Errors
///
/// `Overflow` where a page or an index is too large; otherwise only want of memory.
pub(crate) fn add_array(
    alloc: Global,
    parts: &mut Parts,
    field: &Field,
    array: &Array,
    page_rows: usize,
) -> Result<ChunkFacts, Error>
    requires paged { 0 < page_rows }
    requires fits { FitsField field.now array.now }
    requires written { IsTrue (is_written field.now.data_type) }
    ensures { let items = stored_items (column_of array.now) in
        let chunk = written_chunk (written_field page_rows field.now) items in
        AddsColumn chunk parts.old result parts.new }
{
    match array {
        Array::Boolean(array) => add_typed(alloc, parts, field, &Truths { array }, page_rows),
        Array::Int8(array) => add_typed(alloc, parts, field, &Numbers { array }, page_rows),
        Array::Int16(array) => add_typed(alloc, parts, field, &Numbers { array }, page_rows),
        Array::Int32(array) => add_typed(alloc, parts, field, &Numbers { array }, page_rows),
        Array::Int64(array) => add_typed(alloc, parts, field, &Numbers { array }, page_rows),
        Array::UInt8(array) => add_typed(alloc, parts, field, &Numbers { array }, page_rows),
        Array::UInt16(array) => add_typed(alloc, parts, field, &Numbers { array }, page_rows),
        Array::UInt32(array) => add_typed(alloc, parts, field, &Numbers { array }, page_rows),
        Array::UInt64(array) => add_typed(alloc, parts, field, &Numbers { array }, page_rows),
        Array::Int128(array) => add_typed(alloc, parts, field, &Numbers { array }, page_rows),
        Array::Utf8(array) => add_typed(alloc, parts, field, &Texts { array }, page_rows),
        Array::LargeUtf8(array) => add_typed(alloc, parts, field, &Texts { array }, page_rows),
        Array::Binary(array) => add_typed(alloc, parts, field, &Strings { array }, page_rows),
        Array::LargeBinary(array) => add_typed(alloc, parts, field, &Strings { array }, page_rows),
        Array::FixedSizeBinary(array) => add_typed(
            alloc,
            parts,
            field,
            &FixedBytes { array },
            page_rows,
        ),
        Array::Null(_)
        | Array::DaysMs(_)
        | Array::Dictionary(_)
        | Array::List(_)
        | Array::Struct(_)
        | Array::Map(_) => unreachable!(),
    }
}
