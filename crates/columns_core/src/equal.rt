//! Equality of types, fields, schemas and cells: it holds exactly where the values are the same.

ghost use Rattle.std.specs.Prelude.{◌≡◌, ◌↔◌, IsTrue};

use crate::{Cell, DataType, Field, IntegerType, IntervalUnit, Name, Schema, TimeUnit};

impl PartialEq for DataType {
    ghost use Rattle.columns_core.specs.Equal.{is_same};
    ghost use Rattle.columns_core.specs.Same.{same_laws};
    ghost use Rattle.columns_core.specs.contracts.data_type.DataType.{the_row};

    ghost eq = { is_same the_row.coded };

    ghost laws = { same_laws the_row.coded };

    fn eq(&self, other: &Self) -> bool {
        is_same_type(self, other)
    }
}

impl PartialEq for Field {
    ghost use Rattle.columns_core.specs.Equal.{is_same};
    ghost use Rattle.columns_core.specs.Same.{same_laws};
    ghost use Rattle.columns_core.specs.contracts.data_type.Field.{the_row};

    ghost eq = { is_same the_row.coded };

    ghost laws = { same_laws the_row.coded };

    fn eq(&self, other: &Self) -> bool {
        is_same_field(self, other)
    }
}

impl PartialEq for Schema {
    ghost use Rattle.columns_core.specs.Equal.{is_same};
    ghost use Rattle.columns_core.specs.Same.{same_laws};
    ghost use Rattle.columns_core.specs.contracts.data_type.Schema.{the_row};

    ghost eq = { is_same the_row.coded };

    ghost laws = { same_laws the_row.coded };

    fn eq(&self, other: &Self) -> bool {
        is_same_fields(self.fields.as_slice(), other.fields.as_slice())
    }
}

impl PartialEq for Cell {
    ghost use Rattle.columns_core.specs.Equal.{is_same};
    ghost use Rattle.columns_core.specs.Same.{same_laws};
    ghost use Rattle.columns_core.specs.contracts.cell.Cell.{the_row};

    ghost eq = { is_same the_row.coded };

    ghost laws = { same_laws the_row.coded };

    fn eq(&self, other: &Self) -> bool {
        is_same_cell(self, other)
    }
}

// A type that holds values is compared by a function of its own, in a match: a test inside `matches!` takes longer to prove.
#[cycle(same)]
pub(crate) fn is_same_type(a: &DataType, b: &DataType) -> bool
    ensures { IsTrue result ↔ (a.now ≡ b.now) }
{
    match a {
        DataType::Null => matches!(b, DataType::Null),
        DataType::Boolean => matches!(b, DataType::Boolean),
        DataType::Int8 => matches!(b, DataType::Int8),
        DataType::Int16 => matches!(b, DataType::Int16),
        DataType::Int32 => matches!(b, DataType::Int32),
        DataType::Int64 => matches!(b, DataType::Int64),
        DataType::UInt8 => matches!(b, DataType::UInt8),
        DataType::UInt16 => matches!(b, DataType::UInt16),
        DataType::UInt32 => matches!(b, DataType::UInt32),
        DataType::UInt64 => matches!(b, DataType::UInt64),
        DataType::Date32 => matches!(b, DataType::Date32),
        DataType::Date64 => matches!(b, DataType::Date64),
        DataType::Time32(unit) => is_time32(*unit, b),
        DataType::Time64(unit) => is_time64(*unit, b),
        DataType::Duration(unit) => is_duration(*unit, b),
        DataType::Timestamp(unit, zone) => is_timestamp(*unit, zone, b),
        DataType::Interval(unit) => is_interval(*unit, b),
        DataType::Decimal(precision, scale) => is_decimal(*precision, *scale, b),
        DataType::Utf8 => matches!(b, DataType::Utf8),
        DataType::LargeUtf8 => matches!(b, DataType::LargeUtf8),
        DataType::Binary => matches!(b, DataType::Binary),
        DataType::LargeBinary => matches!(b, DataType::LargeBinary),
        DataType::FixedSizeBinary(size) => is_fixed_size_binary(*size, b),
        DataType::Dictionary(key, value, is_ordered) => {
            is_dictionary(value.get(), *key, *is_ordered, b)
        }
        DataType::List(field) => is_list(field.get(), b),
        DataType::LargeList(field) => is_large_list(field.get(), b),
        DataType::Struct(fields) => is_struct(fields.as_slice(), b),
        DataType::Map(field, is_sorted) => is_map(field.get(), *is_sorted, b),
    }
}

fn is_time32(unit: TimeUnit, data_type: &DataType) -> bool
    ensures { IsTrue result ↔ (DataType.Time32 unit ≡ data_type.now) }
{
    match data_type {
        DataType::Time32(other) => unit == *other,
        _ => false,
    }
}

fn is_time64(unit: TimeUnit, data_type: &DataType) -> bool
    ensures { IsTrue result ↔ (DataType.Time64 unit ≡ data_type.now) }
{
    match data_type {
        DataType::Time64(other) => unit == *other,
        _ => false,
    }
}

fn is_duration(unit: TimeUnit, data_type: &DataType) -> bool
    ensures { IsTrue result ↔ (DataType.Duration unit ≡ data_type.now) }
{
    match data_type {
        DataType::Duration(other) => unit == *other,
        _ => false,
    }
}

fn is_interval(unit: IntervalUnit, data_type: &DataType) -> bool
    ensures { IsTrue result ↔ (DataType.Interval unit ≡ data_type.now) }
{
    match data_type {
        DataType::Interval(other) => unit == *other,
        _ => false,
    }
}

fn is_fixed_size_binary(size: usize, data_type: &DataType) -> bool
    ensures { IsTrue result ↔ (DataType.FixedSizeBinary size ≡ data_type.now) }
{
    match data_type {
        DataType::FixedSizeBinary(other) => size == *other,
        _ => false,
    }
}

fn is_timestamp(unit: TimeUnit, zone: &Option<Name>, data_type: &DataType) -> bool
    ensures { IsTrue result ↔ (DataType.Timestamp unit zone.now ≡ data_type.now) }
{
    match data_type {
        DataType::Timestamp(other, place) => unit == *other && zone == place,
        _ => false,
    }
}

fn is_decimal(precision: usize, scale: usize, data_type: &DataType) -> bool
    ensures { IsTrue result ↔ (DataType.Decimal precision scale ≡ data_type.now) }
{
    match data_type {
        DataType::Decimal(digits, places) => precision == *digits && scale == *places,
        _ => false,
    }
}

#[cycle(same)]
fn is_dictionary(value: &DataType, key: IntegerType, is_ordered: bool, data_type: &DataType) -> bool
    ensures { IsTrue result ↔ (DataType.Dictionary key value.now is_ordered ≡ data_type.now) }
{
    match data_type {
        DataType::Dictionary(other_key, other, other_is_ordered) => {
            key == *other_key && is_ordered == *other_is_ordered && is_same_type(value, other.get())
        }
        _ => false,
    }
}

#[cycle(same)]
fn is_list(field: &Field, data_type: &DataType) -> bool
    ensures { IsTrue result ↔ (DataType.List field.now ≡ data_type.now) }
{
    match data_type {
        DataType::List(other) => is_same_field(field, other.get()),
        _ => false,
    }
}

#[cycle(same)]
fn is_large_list(field: &Field, data_type: &DataType) -> bool
    ensures { IsTrue result ↔ (DataType.LargeList field.now ≡ data_type.now) }
{
    match data_type {
        DataType::LargeList(other) => is_same_field(field, other.get()),
        _ => false,
    }
}

#[cycle(same)]
fn is_struct(fields: &[Field], data_type: &DataType) -> bool
    ensures { IsTrue result ↔ (DataType.Struct fields.now ≡ data_type.now) }
{
    match data_type {
        DataType::Struct(others) => is_same_fields(fields, others.as_slice()),
        _ => false,
    }
}

#[cycle(same)]
fn is_map(field: &Field, is_sorted: bool, data_type: &DataType) -> bool
    ensures { IsTrue result ↔ (DataType.Map field.now is_sorted ≡ data_type.now) }
{
    match data_type {
        DataType::Map(other, other_is_sorted) => {
            is_sorted == *other_is_sorted && is_same_field(field, other.get())
        }
        _ => false,
    }
}

#[cycle(same)]
fn is_same_field(a: &Field, b: &Field) -> bool
    ensures { IsTrue result ↔ (a.now ≡ b.now) }
{
    a.is_nullable == b.is_nullable && a.name == b.name && is_same_type(&a.data_type, &b.data_type)
}

#[cycle(same)]
fn is_same_fields(a: &[Field], b: &[Field]) -> bool
    ensures { IsTrue result ↔ (a.now ≡ b.now) }
{
    if a.len() != b.len() {
        return false;
    }
    for (one, other) in a.iter().zip(b) {
        if !is_same_field(one, other) {
            return false;
        }
    }
    true
}

#[cycle(same_cell)]
fn is_same_cell(a: &Cell, b: &Cell) -> bool
    ensures { IsTrue result ↔ (a.now ≡ b.now) }
{
    match a {
        Cell::Null => matches!(b, Cell::Null),
        // Values are compared in a match of their own: a test inside `matches!` takes longer to prove.
        Cell::Bool(value) => match b {
            Cell::Bool(other) => value == other,
            _ => false,
        },
        Cell::Int(value) => match b {
            Cell::Int(other) => value == other,
            _ => false,
        },
        Cell::DaysMs(days, milliseconds) => match b {
            Cell::DaysMs(other, rest) => days == other && milliseconds == rest,
            _ => false,
        },
        Cell::Text(text) => match b {
            Cell::Text(other) => text == other,
            _ => false,
        },
        Cell::Bytes(bytes) => match b {
            Cell::Bytes(other) => bytes == other,
            _ => false,
        },
        Cell::Cells(cells) => match b {
            Cell::Cells(others) => is_same_cells(cells.as_slice(), others.as_slice()),
            _ => false,
        },
    }
}

#[cycle(same_cell)]
fn is_same_cells(a: &[Cell], b: &[Cell]) -> bool
    ensures { IsTrue result ↔ (a.now ≡ b.now) }
{
    if a.len() != b.len() {
        return false;
    }
    for (one, other) in a.iter().zip(b) {
        if !is_same_cell(one, other) {
            return false;
        }
    }
    true
}
