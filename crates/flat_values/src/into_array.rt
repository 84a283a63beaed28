//! Decoded values that become arrays.
ghost use Rattle.std.specs.Prelude.{◌≡◌, ◌↔◌, IsTrue, List, IfOk, IfErr};
ghost use Rattle.columns_core.specs.Array.{cells, data_type_of};
ghost use Rattle.columns_core.specs.declared.cell.Cell.{Cell};
ghost use Rattle.columns_core.specs.declared.data_type.DataType.{DataType};

use crate::{
    Convert, ConvertFixed, FixedNumbers, FixedValues, NumberValues, ParquetNativeType, TruthValues,
    ValueDecoder,
};
use columns_core::{
    Array, BooleanArray, DataType, Error, FixedSizeBinaryArray, MutablePrimitiveArray, days_ms,
};

/// Decodes values that become arrays.
pub trait IntoArray: ValueDecoder {
    type Array: Drop;

    /// Arrays of this type hold the values.
    ghost is_type: { Self → DataType → Type 0 };

    /// The type of an array.
    ghost array_type: { Self.Array → DataType };

    /// The cells of an array.
    ghost array_cells: { Self.Array → List Cell };

    fn fits(&self, data_type: &DataType) -> bool
        ensures { IsTrue result ↔ is_type self.now data_type.now };

    /// The array of decoded values, which takes no memory of its own.
    fn into_array(&self, decoded: Self::Decoded, data_type: DataType) -> Result<Self::Array, Error>
        requires own { Self.is_own self.now decoded }
        requires fits { is_type self.now data_type }
        ensures typed { IfOk result (λ array. array_type array ≡ data_type) }
        ensures cells { IfOk result (λ array. array_cells array ≡ Self.Decoded.shown decoded) }
        ensures granted { IfErr result (λ _. ⊥) };
}

/// Decodes values whose arrays are columns.
pub trait IntoColumn: IntoArray {
    fn into_column(array: Self::Array) -> Array
        ensures typed { data_type_of result ≡ Self.array_type array }
        ensures cells { cells result ≡ Self.array_cells array };
}

impl IntoColumn for TruthValues {
    fn into_column(array: BooleanArray) -> Array {
        Array::Boolean(array)
    }
}

impl IntoColumn for FixedValues {
    fn into_column(array: FixedSizeBinaryArray) -> Array {
        Array::FixedSizeBinary(array)
    }
}

impl<P: ParquetNativeType, C: Convert<P, i8>> IntoColumn for NumberValues<P, i8, C> {
    fn into_column(array: MutablePrimitiveArray<i8>) -> Array {
        Array::Int8(array.freeze())
    }
}

impl<P: ParquetNativeType, C: Convert<P, i16>> IntoColumn for NumberValues<P, i16, C> {
    fn into_column(array: MutablePrimitiveArray<i16>) -> Array {
        Array::Int16(array.freeze())
    }
}

impl<P: ParquetNativeType, C: Convert<P, i32>> IntoColumn for NumberValues<P, i32, C> {
    fn into_column(array: MutablePrimitiveArray<i32>) -> Array {
        Array::Int32(array.freeze())
    }
}

impl<P: ParquetNativeType, C: Convert<P, i64>> IntoColumn for NumberValues<P, i64, C> {
    fn into_column(array: MutablePrimitiveArray<i64>) -> Array {
        Array::Int64(array.freeze())
    }
}

impl<P: ParquetNativeType, C: Convert<P, i128>> IntoColumn for NumberValues<P, i128, C> {
    fn into_column(array: MutablePrimitiveArray<i128>) -> Array {
        Array::Int128(array.freeze())
    }
}

impl<P: ParquetNativeType, C: Convert<P, u8>> IntoColumn for NumberValues<P, u8, C> {
    fn into_column(array: MutablePrimitiveArray<u8>) -> Array {
        Array::UInt8(array.freeze())
    }
}

impl<P: ParquetNativeType, C: Convert<P, u16>> IntoColumn for NumberValues<P, u16, C> {
    fn into_column(array: MutablePrimitiveArray<u16>) -> Array {
        Array::UInt16(array.freeze())
    }
}

impl<P: ParquetNativeType, C: Convert<P, u32>> IntoColumn for NumberValues<P, u32, C> {
    fn into_column(array: MutablePrimitiveArray<u32>) -> Array {
        Array::UInt32(array.freeze())
    }
}

impl<P: ParquetNativeType, C: Convert<P, u64>> IntoColumn for NumberValues<P, u64, C> {
    fn into_column(array: MutablePrimitiveArray<u64>) -> Array {
        Array::UInt64(array.freeze())
    }
}

impl<C: ConvertFixed<i32>> IntoColumn for FixedNumbers<i32, C> {
    fn into_column(array: MutablePrimitiveArray<i32>) -> Array {
        Array::Int32(array.freeze())
    }
}

impl<C: ConvertFixed<i128>> IntoColumn for FixedNumbers<i128, C> {
    fn into_column(array: MutablePrimitiveArray<i128>) -> Array {
        Array::Int128(array.freeze())
    }
}

impl<C: ConvertFixed<days_ms>> IntoColumn for FixedNumbers<days_ms, C> {
    fn into_column(array: MutablePrimitiveArray<days_ms>) -> Array {
        Array::DaysMs(array.freeze())
    }
}
