//! The values of arrays that cells hold.
ghost use Rattle.std.specs.Prelude.{◌≡◌, ◌⊎◌, Bool, true, false, IfSome, IfNone};
ghost use Rattle.columns_core.specs.declared.cell.Cell.{Cell, Null};
ghost use Rattle.columns_core.specs.Types.{Layer};
ghost use Rattle.flat_values.specs.CellTypes.{is_cell_at};

use columns_core::{Cell, days_ms};

/// A value of an array that a cell may hold.
pub(crate) trait FromCell: Copy {
    /// The cell of a value.
    ghost to_cell: { Self → Cell };

    /// The outermost constructor of a type whose values are these.
    ghost kind: { Layer };

    /// The value that a cell holds, where it is one of the type.
    fn from_cell(cell: &Cell) -> Option<Self>
        ensures some { IfSome result (λ value.
            (cell.now ≡ to_cell value) × (is_cell_at kind cell.now ≡ true)) }
        ensures none { IfNone result ((cell.now ≡ Null) ⊎ (is_cell_at kind cell.now ≡ false)) };

    /// The value that stands where there is none.
    fn blank() -> Self;
}

impl FromCell for bool {
    ghost use Rattle.columns_core.specs.declared.cell.Cell.{Bool as Truth};
    ghost use Rattle.columns_core.specs.declared.data_type.DataType.TheOpen.{DataType-F};

    ghost to_cell = { Truth };

    ghost kind = { DataType-F.Boolean };

    fn from_cell(cell: &Cell) -> Option<bool> {
        match cell {
            Cell::Bool(value) => Some(*value),
            _ => None,
        }
    }

    fn blank() -> bool {
        false
    }
}

impl FromCell for i8 {
    ghost use Rattle.columns_core.specs.declared.cell.Cell.{Int};
    ghost use Rattle.columns_core.specs.declared.data_type.DataType.TheOpen.{DataType-F};

    ghost to_cell = { Int };

    ghost kind = { DataType-F.Int8 };

    fn from_cell(cell: &Cell) -> Option<i8> {
        match cell {
            Cell::Int(n) => i8::try_from(*n).ok(),
            _ => None,
        }
    }

    fn blank() -> i8 {
        0
    }
}

impl FromCell for i16 {
    ghost use Rattle.columns_core.specs.declared.cell.Cell.{Int};
    ghost use Rattle.columns_core.specs.declared.data_type.DataType.TheOpen.{DataType-F};

    ghost to_cell = { Int };

    ghost kind = { DataType-F.Int16 };

    fn from_cell(cell: &Cell) -> Option<i16> {
        match cell {
            Cell::Int(n) => i16::try_from(*n).ok(),
            _ => None,
        }
    }

    fn blank() -> i16 {
        0
    }
}

impl FromCell for i32 {
    ghost use Rattle.columns_core.specs.declared.cell.Cell.{Int};
    ghost use Rattle.columns_core.specs.declared.data_type.DataType.TheOpen.{DataType-F};

    ghost to_cell = { Int };

    ghost kind = { DataType-F.Int32 };

    fn from_cell(cell: &Cell) -> Option<i32> {
        match cell {
            Cell::Int(n) => i32::try_from(*n).ok(),
            _ => None,
        }
    }

    fn blank() -> i32 {
        0
    }
}

impl FromCell for i64 {
    ghost use Rattle.columns_core.specs.declared.cell.Cell.{Int};
    ghost use Rattle.columns_core.specs.declared.data_type.DataType.TheOpen.{DataType-F};

    ghost to_cell = { Int };

    ghost kind = { DataType-F.Int64 };

    fn from_cell(cell: &Cell) -> Option<i64> {
        match cell {
            Cell::Int(n) => i64::try_from(*n).ok(),
            _ => None,
        }
    }

    fn blank() -> i64 {
        0
    }
}

impl FromCell for u8 {
    ghost use Rattle.std.specs.Prelude.{pos};
    ghost use Rattle.columns_core.specs.declared.cell.Cell.{Int};
    ghost use Rattle.columns_core.specs.declared.data_type.DataType.TheOpen.{DataType-F};

    ghost to_cell = { λ x. Int (pos x) };

    ghost kind = { DataType-F.UInt8 };

    fn from_cell(cell: &Cell) -> Option<u8> {
        match cell {
            Cell::Int(n) => u8::try_from(*n).ok(),
            _ => None,
        }
    }

    fn blank() -> u8 {
        0
    }
}

impl FromCell for u16 {
    ghost use Rattle.std.specs.Prelude.{pos};
    ghost use Rattle.columns_core.specs.declared.cell.Cell.{Int};
    ghost use Rattle.columns_core.specs.declared.data_type.DataType.TheOpen.{DataType-F};

    ghost to_cell = { λ x. Int (pos x) };

    ghost kind = { DataType-F.UInt16 };

    fn from_cell(cell: &Cell) -> Option<u16> {
        match cell {
            Cell::Int(n) => u16::try_from(*n).ok(),
            _ => None,
        }
    }

    fn blank() -> u16 {
        0
    }
}

impl FromCell for u32 {
    ghost use Rattle.std.specs.Prelude.{pos};
    ghost use Rattle.columns_core.specs.declared.cell.Cell.{Int};
    ghost use Rattle.columns_core.specs.declared.data_type.DataType.TheOpen.{DataType-F};

    ghost to_cell = { λ x. Int (pos x) };

    ghost kind = { DataType-F.UInt32 };

    fn from_cell(cell: &Cell) -> Option<u32> {
        match cell {
            Cell::Int(n) => u32::try_from(*n).ok(),
            _ => None,
        }
    }

    fn blank() -> u32 {
        0
    }
}

impl FromCell for u64 {
    ghost use Rattle.std.specs.Prelude.{pos};
    ghost use Rattle.columns_core.specs.declared.cell.Cell.{Int};
    ghost use Rattle.columns_core.specs.declared.data_type.DataType.TheOpen.{DataType-F};

    ghost to_cell = { λ x. Int (pos x) };

    ghost kind = { DataType-F.UInt64 };

    fn from_cell(cell: &Cell) -> Option<u64> {
        match cell {
            Cell::Int(n) => u64::try_from(*n).ok(),
            _ => None,
        }
    }

    fn blank() -> u64 {
        0
    }
}

impl FromCell for i128 {
    ghost use Rattle.columns_core.specs.declared.cell.Cell.{Int};
    ghost use Rattle.columns_core.specs.declared.data_type.DataType.TheOpen.{DataType-F};

    ghost to_cell = { Int };

    ghost kind = { DataType-F.Decimal 0 0 };

    fn from_cell(cell: &Cell) -> Option<i128> {
        match cell {
            Cell::Int(n) => Some(*n),
            _ => None,
        }
    }

    fn blank() -> i128 {
        0
    }
}

impl FromCell for days_ms {
    ghost use Rattle.columns_core.specs.ElementType.{days_ms_cell};
    ghost use Rattle.columns_core.specs.declared.data_type.DataType.TheOpen.{DataType-F};
    ghost use Rattle.columns_core.specs.declared.data_type.IntervalUnit.TheVariants.{DayTime};

    ghost to_cell = { days_ms_cell };

    ghost kind = { DataType-F.Interval DayTime };

    fn from_cell(cell: &Cell) -> Option<days_ms> {
        match cell {
            Cell::DaysMs(days, milliseconds) => Some(days_ms(*days, *milliseconds)),
            _ => None,
        }
    }

    fn blank() -> days_ms {
        days_ms(0, 0)
    }
}
