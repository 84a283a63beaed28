//! Numbers as pages store them.

ghost use Rattle.std.specs.Prelude.{◌≡◌, Bool, IsTrue, List, map, option_map, pos};
ghost use Rattle.std.specs.Int.{w32, w64};
ghost use Rattle.std.specs.List.{flat_map};
ghost use Rattle.columns_core.specs.Column.{cell_of};
ghost use Rattle.columns_core.specs.declared.data_type.DataType.{DataType};
ghost use Rattle.compact_write.specs.Calls.{Writes};
ghost use Rattle.parquet_meta.specs.declared.metadata.PhysicalType.{PhysicalType};
ghost use Rattle.parquet_meta.specs.declared.metadata.PhysicalType.TheVariants as types;
ghost use Rattle.parquet_page.specs.Stored.{Number, Octets, Stored};
ghost use Rattle.parquet_plain.specs.Bodies.{values_bytes};
ghost use Rattle.parquet_plain.specs.Columns.{end_bytes};
ghost use Rattle.parquet_plain.specs.Orders.{IsOrder, numbers_at_most};
ghost use Rattle.put_program.specs.Kinds as kind;
ghost use Rattle.put_program.specs.Ordered as order;
ghost use Rattle.put_program.specs.Orders.{decimals_at_most, unsigned_at_most};
ghost use Rattle.put_program.specs.Stored.{decimal_bytes, same_bits};
ghost use Rattle.put_program.specs.Valued as values;
ghost use Rattle.put_program.specs.Typed.{IsStored, StoresValues};

use crate::typed::Typed;
use columns_core::{NativeType, PrimitiveArray};
use parquet_write::Items;
use std::alloc::AllocError;

/// A number that pages store.
pub(crate) trait StoredNumber: NativeType {
    /// What is stored of a number.
    ghost stored: { Self → Stored };

    /// The type that it is stored as.
    ghost type_: { PhysicalType };

    /// The order of what is stored.
    ghost at_most: { Stored → Stored → Bool };

    /// The bytes of a value, which are those of an end.
    fn write(self, bytes: &mut Vec<u8>) -> Result<(), AllocError>
        ensures { Writes (end_bytes type_ (stored self)) bytes.old result bytes.new };

    fn is_at_most(self, other: Self) -> bool
        ensures { result ≡ at_most (stored self) (stored other) };

    /// Values stand one behind another.
    ghost joined: { (values : List Stored) → values_bytes type_ values ≡ flat_map (end_bytes type_) values };

    /// The order is one of these numbers.
    ghost total: { IsOrder (IsStored stored) at_most };

    /// They are stored so for each type that has them.
    ghost stores_values: { (data_type : DataType) → IsTrue (Self.stores data_type)
        → StoresValues data_type type_ at_most Self.cell stored };
}

fn write_i32(bytes: &mut Vec<u8>, number: i32) -> Result<(), AllocError>
    ensures { Writes (end_bytes types.Int32 (Number number)) bytes.old result bytes.new }
{
    bytes.extend_from_slice(&number.to_le_bytes())?;
    Ok(())
}

fn write_i64(bytes: &mut Vec<u8>, number: i64) -> Result<(), AllocError>
    ensures { Writes (end_bytes types.Int64 (Number number)) bytes.old result bytes.new }
{
    bytes.extend_from_slice(&number.to_le_bytes())?;
    Ok(())
}

impl StoredNumber for i8 {
    ghost stored = { Number };

    ghost type_ = { types.Int32 };

    ghost at_most = { numbers_at_most };

    ghost joined = { values.joined_i32 };

    ghost total = { order.total_signed };

    ghost stores_values = { kind.of_i8 };

    fn write(self, bytes: &mut Vec<u8>) -> Result<(), AllocError> {
        write_i32(bytes, i32::from(self))
    }

    fn is_at_most(self, other: i8) -> bool {
        self <= other
    }
}

impl StoredNumber for i16 {
    ghost stored = { Number };

    ghost type_ = { types.Int32 };

    ghost at_most = { numbers_at_most };

    ghost joined = { values.joined_i32 };

    ghost total = { order.total_signed };

    ghost stores_values = { kind.of_i16 };

    fn write(self, bytes: &mut Vec<u8>) -> Result<(), AllocError> {
        write_i32(bytes, i32::from(self))
    }

    fn is_at_most(self, other: i16) -> bool {
        self <= other
    }
}

impl StoredNumber for i32 {
    ghost stored = { Number };

    ghost type_ = { types.Int32 };

    ghost at_most = { numbers_at_most };

    ghost joined = { values.joined_i32 };

    ghost total = { order.total_signed };

    ghost stores_values = { kind.of_i32 };

    fn write(self, bytes: &mut Vec<u8>) -> Result<(), AllocError> {
        write_i32(bytes, self)
    }

    fn is_at_most(self, other: i32) -> bool {
        self <= other
    }
}

impl StoredNumber for i64 {
    ghost stored = { Number };

    ghost type_ = { types.Int64 };

    ghost at_most = { numbers_at_most };

    ghost joined = { values.joined_i64 };

    ghost total = { order.total_signed };

    ghost stores_values = { kind.of_i64 };

    fn write(self, bytes: &mut Vec<u8>) -> Result<(), AllocError> {
        write_i64(bytes, self)
    }

    fn is_at_most(self, other: i64) -> bool {
        self <= other
    }
}

impl StoredNumber for u8 {
    ghost stored = { λ n. Number (pos n) };

    ghost type_ = { types.Int32 };

    ghost at_most = { numbers_at_most };

    ghost joined = { values.joined_i32 };

    ghost total = { order.total_unsigned };

    ghost stores_values = { kind.of_u8 };

    fn write(self, bytes: &mut Vec<u8>) -> Result<(), AllocError> {
        write_i32(bytes, i32::from(self))
    }

    fn is_at_most(self, other: u8) -> bool {
        self <= other
    }
}

impl StoredNumber for u16 {
    ghost stored = { λ n. Number (pos n) };

    ghost type_ = { types.Int32 };

    ghost at_most = { numbers_at_most };

    ghost joined = { values.joined_i32 };

    ghost total = { order.total_unsigned };

    ghost stores_values = { kind.of_u16 };

    fn write(self, bytes: &mut Vec<u8>) -> Result<(), AllocError> {
        write_i32(bytes, i32::from(self))
    }

    fn is_at_most(self, other: u16) -> bool {
        self <= other
    }
}

/// The same 32 bits.
impl StoredNumber for u32 {
    ghost stored = { λ n. Number (same_bits w32 (pos n)) };

    ghost type_ = { types.Int32 };

    ghost at_most = { unsigned_at_most w32 };

    ghost joined = { values.joined_i32 };

    ghost total = { order.total_bits w32 _ };

    ghost stores_values = { kind.of_u32 };

    fn write(self, bytes: &mut Vec<u8>) -> Result<(), AllocError> {
        bytes.extend_from_slice(&self.to_le_bytes())?;
        Ok(())
    }

    fn is_at_most(self, other: u32) -> bool {
        self <= other
    }
}

/// The same 64 bits.
impl StoredNumber for u64 {
    ghost stored = { λ n. Number (same_bits w64 (pos n)) };

    ghost type_ = { types.Int64 };

    ghost at_most = { unsigned_at_most w64 };

    ghost joined = { values.joined_i64 };

    ghost total = { order.total_bits w64 _ };

    ghost stores_values = { kind.of_u64 };

    fn write(self, bytes: &mut Vec<u8>) -> Result<(), AllocError> {
        bytes.extend_from_slice(&self.to_le_bytes())?;
        Ok(())
    }

    fn is_at_most(self, other: u64) -> bool {
        self <= other
    }
}

/// Decimals: 16 bytes, the highest first.
impl StoredNumber for i128 {
    ghost stored = { λ n. Octets (decimal_bytes n) };

    ghost type_ = { types.FixedLenByteArray 16 };

    ghost at_most = { decimals_at_most };

    ghost joined = { values.joined_fixed };

    ghost total = { order.total_decimals _ };

    ghost stores_values = { kind.of_i128 };

    fn write(self, bytes: &mut Vec<u8>) -> Result<(), AllocError> {
        bytes.extend_from_slice(&self.to_be_bytes())?;
        Ok(())
    }

    fn is_at_most(self, other: i128) -> bool {
        self <= other
    }
}

/// An array of numbers as items.
#[derive(Clone, Copy)]
pub(crate) struct Numbers<'a, T> {
    pub array: &'a PrimitiveArray<T>,
}

impl<'a, T: StoredNumber> Items for Numbers<'a, T> {
    ghost items = { λ own. map (option_map T.stored) own.array.now.items };

    ghost type_ = { λ own. T.type_ };

    ghost at_most = { λ own. T.at_most };

    ghost ordered = { λ own. order.of_stored T.stored T.at_most T.total own.array.now.items };

    fn rows(&self) -> usize {
        self.array.len()
    }

    fn is_there(&self, row: usize) -> bool {
        self.array.get(row).is_some()
    }

    fn write_values(&self, body: &mut Vec<u8>, from: usize, to: usize) -> Result<(), AllocError> {
        for row in from..to {
            if let Some(number) = self.array.get(row) {
                number.write(body)?;
            }
        }
        Ok(())
    }

    fn write_end(&self, bytes: &mut Vec<u8>, row: usize) -> Result<(), AllocError> {
        match self.array.get(row) {
            Some(number) => number.write(bytes),
            None => Ok(()),
        }
    }

    fn is_at_most(&self, first: usize, second: usize) -> bool {
        match (self.array.get(first), self.array.get(second)) {
            (Some(a), Some(b)) => a.is_at_most(b),
            _ => true,
        }
    }
}

impl<'a, T: StoredNumber> Typed for Numbers<'a, T> {
    ghost data_type = { λ own. own.array.now.data_type };

    ghost cells = { λ own. map (cell_of T.cell) own.array.now.items };

    ghost is_own = { λ own. T.stores own.array.now.data_type };

    ghost stored = { λ own is_own. values.of_values T.cell T.stored (T.stores_values own.array.now.data_type is_own) own.array.now.items };
}
