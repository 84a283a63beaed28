//! The cells of a builder, as the values of each native type are kept.
ghost use Rattle.std.specs.Prelude.{◌≡◌, ◌+◌, ◌++◌, [], ◌∷◌, true, false, length, map, IfOk, IfErr, OnOk};
ghost use Rattle.columns_core.specs.Array.{cells, column_of, data_type_of};
ghost use Rattle.columns_core.specs.Causes.{IsWantOfMemory};
ghost use Rattle.columns_core.specs.Column.{cell_of};
ghost use Rattle.columns_core.specs.declared.cell.Cell.{Null};
ghost use Rattle.columns_core.specs.declared.data_type.DataType.TheOpen.{DataType-F};
ghost use Rattle.flat_values.specs.CellTypes.{is_cell_at};
ghost use Rattle.flat_builders.specs.Built.{built_cells, is_kept_as, kept_layer};
ghost use Rattle.flat_builders.specs.Flat.{Flat, flatness};
ghost use Rattle.flat_builders.specs.Kept.{IsRefusedCell, IsRefusedType, cells_fit_at};
ghost use Rattle.flat_builders.specs.Strings.{stores_strings, string_cell};

use crate::byte_strings::ByteStrings;
use crate::fixed_bytes::FixedBytes;
use crate::marked::Marked;
use columns_core::{Array, Cell, DataType, Error, IntervalUnit, NullArray, Part, days_ms};
use std::alloc::Global;

/// Cells of one kind. Texts and byte strings are kept alike.
#[derive(Drop)]
pub(crate) enum Building {
    Nulls(usize),
    Truths(Marked<bool>),
    Int8(Marked<i8>),
    Int16(Marked<i16>),
    Int32(Marked<i32>),
    Int64(Marked<i64>),
    UInt8(Marked<u8>),
    UInt16(Marked<u16>),
    UInt32(Marked<u32>),
    UInt64(Marked<u64>),
    Int128(Marked<i128>),
    DaysMs(Marked<days_ms>),
    Fixed(FixedBytes),
    Strings(ByteStrings<i32>),
    LargeStrings(ByteStrings<i64>),
}

impl Building {
    /// No cells, with memory for `capacity` of them, kept as the values of the type are.
    pub(crate) fn with_capacity(
        alloc: Global,
        data_type: &DataType,
        capacity: usize,
    ) -> Result<Self, Error>
        ensures empty { IfOk result (λ building. built_cells building ≡ []) }
        ensures kept { IfOk result (λ building. is_kept_as building data_type.now ≡ true) }
        ensures ok { IfOk result (λ _. flatness data_type.now ≡ Flat) }
        ensures err { IfErr result (λ e. IsRefusedType (flatness data_type.now) e) }
    {
        Ok(match data_type {
            DataType::Null => Building::Nulls(0),
            DataType::Boolean => Building::Truths(Marked::with_capacity(alloc, capacity)?),
            DataType::Int8 => Building::Int8(Marked::with_capacity(alloc, capacity)?),
            DataType::Int16 => Building::Int16(Marked::with_capacity(alloc, capacity)?),
            DataType::Int32
            | DataType::Date32
            | DataType::Time32(_)
            | DataType::Interval(IntervalUnit::YearMonth) => {
                Building::Int32(Marked::with_capacity(alloc, capacity)?)
            }
            DataType::Int64
            | DataType::Date64
            | DataType::Time64(_)
            | DataType::Duration(_)
            | DataType::Timestamp(_, _) => {
                Building::Int64(Marked::with_capacity(alloc, capacity)?)
            }
            DataType::UInt8 => Building::UInt8(Marked::with_capacity(alloc, capacity)?),
            DataType::UInt16 => Building::UInt16(Marked::with_capacity(alloc, capacity)?),
            DataType::UInt32 => Building::UInt32(Marked::with_capacity(alloc, capacity)?),
            DataType::UInt64 => Building::UInt64(Marked::with_capacity(alloc, capacity)?),
            DataType::Decimal(_, _) => Building::Int128(Marked::with_capacity(alloc, capacity)?),
            DataType::Interval(IntervalUnit::DayTime) => {
                Building::DaysMs(Marked::with_capacity(alloc, capacity)?)
            }
            DataType::FixedSizeBinary(0) => {
                return Err(Error::NotYetImplemented(Part::Request));
            }
            DataType::FixedSizeBinary(size) => {
                Building::Fixed(FixedBytes::with_capacity(alloc, capacity, *size)?)
            }
            DataType::Utf8 => Building::Strings(ByteStrings::with_capacity(alloc, capacity, true)?),
            DataType::Binary => {
                Building::Strings(ByteStrings::with_capacity(alloc, capacity, false)?)
            }
            DataType::LargeUtf8 => {
                Building::LargeStrings(ByteStrings::with_capacity(alloc, capacity, true)?)
            }
            DataType::LargeBinary => {
                Building::LargeStrings(ByteStrings::with_capacity(alloc, capacity, false)?)
            }
            DataType::Dictionary(_, _, _)
            | DataType::List(_)
            | DataType::LargeList(_)
            | DataType::Struct(_)
            | DataType::Map(_, _) => return Err(Error::InvalidArgumentError(Part::Request)),
        })
    }

    pub(crate) fn len(&self) -> usize
        ensures { result ≡ length (built_cells self.now) }
    {
        match self {
            Building::Nulls(count) => *count,
            Building::Truths(items) => items.len(),
            Building::Int8(items) => items.len(),
            Building::Int16(items) => items.len(),
            Building::Int32(items) => items.len(),
            Building::Int64(items) => items.len(),
            Building::UInt8(items) => items.len(),
            Building::UInt16(items) => items.len(),
            Building::UInt32(items) => items.len(),
            Building::UInt64(items) => items.len(),
            Building::Int128(items) => items.len(),
            Building::DaysMs(items) => items.len(),
            Building::Fixed(items) => items.len(),
            Building::Strings(items) => items.len(),
            Building::LargeStrings(items) => items.len(),
        }
    }

    /// Appends a cell, or leaves the cells as they were.
    pub(crate) fn push_cell(&mut self, cell: &Cell) -> Result<(), Error>
        ensures ok { OnOk result (built_cells self.new ≡ built_cells self.old ++ cell.now ∷ []) }
        ensures kept { is_kept_as self.new ≡ is_kept_as self.old }
        ensures typed { OnOk result (is_cell_at (kept_layer self.old) cell.now ≡ true) }
        ensures fits { let cells = built_cells self.old ++ cell.now ∷ [] in
            OnOk result (cells_fit_at (kept_layer self.old) cells ≡ true) }
        ensures same { IfErr result (λ _. self.new ≡ self.old) }
        ensures err { let cells = built_cells self.old ++ cell.now ∷ [] in
            let typed = is_cell_at (kept_layer self.old) cell.now in
            IfErr result (λ e. IsRefusedCell typed (cells_fit_at (kept_layer self.old) cells) e) }
    {
        match self {
            Building::Nulls(count) => push_null(count, cell),
            Building::Truths(items) => items.push_cell(cell),
            Building::Int8(items) => items.push_cell(cell),
            Building::Int16(items) => items.push_cell(cell),
            Building::Int32(items) => items.push_cell(cell),
            Building::Int64(items) => items.push_cell(cell),
            Building::UInt8(items) => items.push_cell(cell),
            Building::UInt16(items) => items.push_cell(cell),
            Building::UInt32(items) => items.push_cell(cell),
            Building::UInt64(items) => items.push_cell(cell),
            Building::Int128(items) => items.push_cell(cell),
            Building::DaysMs(items) => items.push_cell(cell),
            Building::Fixed(items) => items.push_cell(cell),
            Building::Strings(items) => items.push_cell(cell),
            Building::LargeStrings(items) => items.push_cell(cell),
        }
    }

    /// The array of the cells, of a type whose values are kept so.
    pub(crate) fn into_array(self, data_type: DataType) -> Result<Array, Error>
        requires { is_kept_as self data_type ≡ true }
        ensures array { IfOk result (λ array. column_of array ≡ (data_type, built_cells self)) }
        ensures memory { IfErr result IsWantOfMemory }
    {
        Ok(match self {
            Building::Nulls(count) => Array::Null(NullArray::new(count)),
            Building::Truths(items) => Array::Boolean(items.into_boolean(data_type)?),
            Building::Int8(items) => Array::Int8(items.into_primitive(data_type)?),
            Building::Int16(items) => Array::Int16(items.into_primitive(data_type)?),
            Building::Int32(items) => Array::Int32(items.into_primitive(data_type)?),
            Building::Int64(items) => Array::Int64(items.into_primitive(data_type)?),
            Building::UInt8(items) => Array::UInt8(items.into_primitive(data_type)?),
            Building::UInt16(items) => Array::UInt16(items.into_primitive(data_type)?),
            Building::UInt32(items) => Array::UInt32(items.into_primitive(data_type)?),
            Building::UInt64(items) => Array::UInt64(items.into_primitive(data_type)?),
            Building::Int128(items) => Array::Int128(items.into_primitive(data_type)?),
            Building::DaysMs(items) => Array::DaysMs(items.into_primitive(data_type)?),
            Building::Fixed(items) => Array::FixedSizeBinary(items.into_fixed(data_type)?),
            Building::Strings(items) => strings_array(items, data_type)?,
            Building::LargeStrings(items) => large_strings_array(items, data_type)?,
        })
    }
}

/// One null more, where the cell is null.
fn push_null(count: &mut usize, cell: &Cell) -> Result<(), Error>
    ensures ok { OnOk result ((count.new ≡ count.old + 1) × (cell.now ≡ Null)) }
    ensures same { IfErr result (λ _. count.new ≡ count.old) }
    ensures err { IfErr result (λ e. IsRefusedCell (is_cell_at DataType-F.Null cell.now) true e) }
{
    match cell {
        Cell::Null => match count.checked_add(1) {
            None => Err(Error::OutOfMemory),
            Some(more) => {
                *count = more;
                Ok(())
            }
        },
        _ => Err(Error::InvalidArgumentError(Part::Request)),
    }
}

fn strings_array(items: ByteStrings<i32>, data_type: DataType) -> Result<Array, Error>
    requires { stores_strings items.0 false data_type ≡ true }
    ensures typed { IfOk result (λ array. data_type_of array ≡ data_type) }
    ensures cells { IfOk result (λ array. cells array ≡ map (cell_of (string_cell items.0)) items.1) }
    ensures memory { IfErr result IsWantOfMemory }
{
    if items.is_text() {
        Ok(Array::Utf8(items.into_texts(data_type)?))
    } else {
        Ok(Array::Binary(items.into_bytes(data_type)?))
    }
}

fn large_strings_array(items: ByteStrings<i64>, data_type: DataType) -> Result<Array, Error>
    requires { stores_strings items.0 true data_type ≡ true }
    ensures typed { IfOk result (λ array. data_type_of array ≡ data_type) }
    ensures cells { IfOk result (λ array. cells array ≡ map (cell_of (string_cell items.0)) items.1) }
    ensures memory { IfErr result IsWantOfMemory }
{
    if items.is_text() {
        Ok(Array::LargeUtf8(items.into_texts(data_type)?))
    } else {
        Ok(Array::LargeBinary(items.into_bytes(data_type)?))
    }
}
