//! The values that arrays of numbers store.
ghost use Rattle.std.specs.Prelude.{◌≡◌, Bool, pos};
ghost use Rattle.columns_core.specs.declared.data_type.DataType.{DataType};
ghost use Rattle.columns_core.specs.declared.cell.Cell.{Cell, Int};

use crate::{DataType, IntervalUnit, days_ms};

/// A type that an array may store.
pub trait NativeType: Copy {
    /// Whether this is the type's element type.
    ghost stores: { DataType → Bool };

    /// The cell that a value stands for.
    ghost cell: { Self → Cell };

    fn stores(data_type: &DataType) -> bool
        ensures { result ≡ stores data_type.now };
}

impl NativeType for i8 {
    ghost use Rattle.columns_core.specs.ElementType.{stores_i8};

    ghost stores = { stores_i8 };

    ghost cell = { Int };

    fn stores(data_type: &DataType) -> bool {
        matches!(data_type, DataType::Int8)
    }
}

impl NativeType for i16 {
    ghost use Rattle.columns_core.specs.ElementType.{stores_i16};

    ghost stores = { stores_i16 };

    ghost cell = { Int };

    fn stores(data_type: &DataType) -> bool {
        matches!(data_type, DataType::Int16)
    }
}

impl NativeType for i32 {
    ghost use Rattle.columns_core.specs.ElementType.{stores_i32};

    ghost stores = { stores_i32 };

    ghost cell = { Int };

    fn stores(data_type: &DataType) -> bool {
        matches!(
            data_type,
            DataType::Int32
                | DataType::Date32
                | DataType::Time32(_)
                | DataType::Interval(IntervalUnit::YearMonth)
        )
    }
}

impl NativeType for i64 {
    ghost use Rattle.columns_core.specs.ElementType.{stores_i64};

    ghost stores = { stores_i64 };

    ghost cell = { Int };

    fn stores(data_type: &DataType) -> bool {
        matches!(
            data_type,
            DataType::Int64
                | DataType::Date64
                | DataType::Time64(_)
                | DataType::Duration(_)
                | DataType::Timestamp(_, _)
        )
    }
}

impl NativeType for u8 {
    ghost use Rattle.columns_core.specs.ElementType.{stores_u8};

    ghost stores = { stores_u8 };

    ghost cell = { λ x. Int (pos x) };

    fn stores(data_type: &DataType) -> bool {
        matches!(data_type, DataType::UInt8)
    }
}

impl NativeType for u16 {
    ghost use Rattle.columns_core.specs.ElementType.{stores_u16};

    ghost stores = { stores_u16 };

    ghost cell = { λ x. Int (pos x) };

    fn stores(data_type: &DataType) -> bool {
        matches!(data_type, DataType::UInt16)
    }
}

impl NativeType for u32 {
    ghost use Rattle.columns_core.specs.ElementType.{stores_u32};

    ghost stores = { stores_u32 };

    ghost cell = { λ x. Int (pos x) };

    fn stores(data_type: &DataType) -> bool {
        matches!(data_type, DataType::UInt32)
    }
}

impl NativeType for u64 {
    ghost use Rattle.columns_core.specs.ElementType.{stores_u64};

    ghost stores = { stores_u64 };

    ghost cell = { λ x. Int (pos x) };

    fn stores(data_type: &DataType) -> bool {
        matches!(data_type, DataType::UInt64)
    }
}

impl NativeType for i128 {
    ghost use Rattle.columns_core.specs.ElementType.{stores_i128};

    ghost stores = { stores_i128 };

    ghost cell = { Int };

    fn stores(data_type: &DataType) -> bool {
        matches!(data_type, DataType::Decimal(_, _))
    }
}

impl NativeType for days_ms {
    ghost use Rattle.columns_core.specs.ElementType.{stores_days_ms, days_ms_cell};

    ghost stores = { stores_days_ms };

    ghost cell = { days_ms_cell };

    fn stores(data_type: &DataType) -> bool {
        matches!(data_type, DataType::Interval(IntervalUnit::DayTime))
    }
}
