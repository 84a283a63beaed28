//! What may be asked of a file.
ghost use Rattle.std.specs.Prelude.{◌≡◌, ◌<◌, true, get_or, length, option_copied, Some};
ghost use Rattle.columns_core.specs.declared.data_type.Field.{Field as FieldValue};
ghost use Rattle.std.specs.List.{list_all, list_any};
ghost use Rattle.std.specs.Str.{bytes_eq};
ghost use Rattle.parquet_scan.specs.declared.bound.Scalar.TheVariants as scalar;
ghost use Rattle.parquet_scan.specs.Request as spec;
ghost use Rattle.columns_core.specs.Types as types;

use crate::{Bound, Scalar};
use column_ends::value_type;
use columns_core::{DataType, Field, Name};
use parquet_meta::{ColumnDescriptor, FileMetaData};
use std::marker::Model;

/// What is asked of a file. Contracts see the values that it borrows.
#[derive(Drop)]
pub(crate) struct Request<'a> {
    pub(crate) fields: &'a [Field],
    pub(crate) bounds: &'a [Bound],
    pub(crate) chunk_size: Option<usize>,
    pub(crate) limit: Option<usize>,
}

impl<'a> Model for Request<'a> {
    ghost use Rattle.std.specs.Coded.{codes};
    ghost use Rattle.columns_core.specs.contracts.data_type.DataType.{the_row as data_type_row};
    ghost use Rattle.parquet_scan.specs.Request as spec;

    ghost Value = { spec.Request };

    ghost coded = { Prim.hlevel (codes, data_type_row.coded) };

    ghost view = { λ request. record {
      fields = request.fields.now;
      bounds = request.bounds.now;
      chunk_size = request.chunk_size;
      limit = request.limit;
    } };
}

/// What is asked of each group: these columns, by the locations of their pages or from the first page on, in chunks of a size.
#[derive(Clone, Copy)]
pub(crate) struct GroupRequest<'a> {
    pub(crate) fields: &'a [Field],
    pub(crate) by_pages: bool,
    pub(crate) chunk_size: Option<usize>,
}

/// Whether the request may be asked of the file.
pub(crate) fn is_legal(metadata: &FileMetaData, request: &Request<'_>) -> bool
    ensures { result ≡ spec.is_legal request.now (Some metadata.now) }
{
    let (fields, bounds) = (request.fields, request.bounds);
    !fields.is_empty()
        && name_columns(fields, metadata.columns.as_slice())
        && have_distinct_names(fields)
        && request.chunk_size.is_none_or(|size| size > 0)
        && are_legal_bounds(bounds, fields)
        && are_on_distinct_fields(bounds)
}

/// Whether each field's name begins the path of a column.
fn name_columns(fields: &[Field], columns: &[ColumnDescriptor]) -> bool
    ensures { result ≡ list_all (λ field. list_any (spec.begins field.name) columns.now) fields.now }
{
    fields
        .iter()
        .all(|field| names_column(&field.name, columns))
}

fn names_column(name: &Name, columns: &[ColumnDescriptor]) -> bool
    ensures { result ≡ list_any (spec.begins name.now) columns.now }
{
    columns.iter().any(|column| begins(name, column))
}

/// Whether a name begins the path of a column.
pub(crate) fn begins(name: &Name, column: &ColumnDescriptor) -> bool
    ensures { result ≡ spec.begins name.now column.now }
{
    match column.path_in_schema.as_slice().first() {
        Some(first) => name == first,
        None => false,
    }
}

fn have_distinct_names(fields: &[Field]) -> bool
    ensures { result ≡ spec.are_distinct spec.name_of_field fields.now }
{
    let mut rest = fields;
    while let Some((first, others)) = rest.split_first() {
        if has_name(others, &first.name) {
            return false;
        }
        rest = others;
    }
    true
}

fn has_name(fields: &[Field], name: &Name) -> bool
    ensures { result ≡ list_any (λ field. bytes_eq name.now field.name) fields.now }
{
    fields.iter().any(|field| *name == field.name)
}

fn is_bounded(bounds: &[Bound], name: &Name) -> bool
    ensures { result ≡ list_any (λ bound. bytes_eq name.now bound.field) bounds.now }
{
    bounds.iter().any(|bound| *name == bound.field)
}

fn are_on_distinct_fields(bounds: &[Bound]) -> bool
    ensures { result ≡ spec.are_distinct spec.bounded_name bounds.now }
{
    let mut rest = bounds;
    while let Some((first, others)) = rest.split_first() {
        if is_bounded(others, &first.field) {
            return false;
        }
        rest = others;
    }
    true
}

fn are_legal_bounds(bounds: &[Bound], fields: &[Field]) -> bool
    ensures { result ≡ list_all (spec.is_legal_bound_of fields.now) bounds.now }
{
    bounds.iter().all(|bound| is_legal_bound(bound, fields))
}

/// Whether the field of a bound is requested and ordered, and the bound's values are of its type.
fn is_legal_bound(bound: &Bound, fields: &[Field]) -> bool
    ensures { result ≡ spec.is_legal_bound_of fields.now bound.now }
{
    match field_of(bound, fields) {
        Some(field) => are_values_of(bound, value_type(&field.data_type)),
        None => false,
    }
}

fn are_values_of(bound: &Bound, data_type: &DataType) -> bool
    ensures { result ≡ spec.are_values_of data_type.now bound.now }
{
    is_ordered(data_type)
        && bound
            .low
            .as_ref()
            .is_none_or(|low| is_value_of(data_type, low))
        && bound
            .high
            .as_ref()
            .is_none_or(|high| is_value_of(data_type, high))
}

/// The first field that a bound names.
pub(crate) fn field_of<'a>(bound: &Bound, fields: &'a [Field]) -> Option<&'a Field>
    ensures { option_copied result ≡ spec.bounded_field fields.now bound.now }
{
    fields.iter().find(|field| bound.field == field.name)
}

/// Which field a legal bound names.
pub(crate) fn place_of(bound: &Bound, fields: &[Field]) -> usize
    requires legal { spec.is_legal_bound_of fields.now bound.now ≡ true }
    ensures within { result < length fields.now }
    ensures named { (field : FieldValue) → (get_or fields.now result field).name ≡ bound.now.field }
{
    let mut place = 0;
    while bound.field != fields[place].name {
        place += 1;
    }
    place
}

fn is_value_of(data_type: &DataType, value: &Scalar) -> bool
    ensures { result ≡ spec.is_value_of data_type.now value.now }
{
    match value {
        Scalar::Int(number) => is_in_range(data_type, *number),
        Scalar::Text(_) => is_text(data_type),
        Scalar::Bytes(bytes) => takes_bytes(data_type, bytes.as_slice().len()),
    }
}

fn is_in_range(data_type: &DataType, number: i128) -> bool
    ensures { result ≡ spec.is_value_of data_type.now (scalar.Int number) }
{
    match number_range(data_type) {
        Some((least, greatest)) => least <= number && number <= greatest,
        None => false,
    }
}

/// The least and the greatest number of a type of numbers.
fn number_range(data_type: &DataType) -> Option<(i128, i128)>
    ensures { result ≡ types.number_range data_type.now }
{
    match data_type {
        DataType::Int8 => Some((i8::MIN as i128, i8::MAX as i128)),
        DataType::Int16 => Some((i16::MIN as i128, i16::MAX as i128)),
        DataType::Int32 | DataType::Date32 | DataType::Time32(_) => {
            Some((i32::MIN as i128, i32::MAX as i128))
        }
        DataType::Int64
        | DataType::Date64
        | DataType::Time64(_)
        | DataType::Duration(_)
        | DataType::Timestamp(_, _) => Some((i64::MIN as i128, i64::MAX as i128)),
        DataType::UInt8 => Some((0, u8::MAX as i128)),
        DataType::UInt16 => Some((0, u16::MAX as i128)),
        DataType::UInt32 => Some((0, u32::MAX as i128)),
        DataType::UInt64 => Some((0, u64::MAX as i128)),
        DataType::Decimal(_, _) => Some((i128::MIN, i128::MAX)),
        _ => None,
    }
}

fn is_text(data_type: &DataType) -> bool
    ensures { result ≡ types.is_text data_type.now }
{
    matches!(data_type, DataType::Utf8 | DataType::LargeUtf8)
}

/// Whether a type of bytes takes so many.
fn takes_bytes(data_type: &DataType, count: usize) -> bool
    ensures { result ≡ types.takes_bytes data_type.now count }
{
    match data_type {
        DataType::Binary | DataType::LargeBinary => true,
        DataType::FixedSizeBinary(size) => *size == count,
        _ => false,
    }
}

/// Whether values of the type are compared: numbers, texts and bytes.
fn is_ordered(data_type: &DataType) -> bool
    ensures { result ≡ types.is_ordered data_type.now }
{
    match data_type {
        DataType::Binary | DataType::LargeBinary | DataType::FixedSizeBinary(_) => true,
        _ => number_range(data_type).is_some() || is_text(data_type),
    }
}
