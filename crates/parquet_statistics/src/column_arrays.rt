//! The arrays of the columns of a field, of a slot for each group.
ghost use Rattle.std.specs.Prelude.{◌≡◌, [], ◌∷◌, ◌++◌, true, map, IfOk, IfErr, OnOk};
ghost use Rattle.columns_core.specs.Array.{cells, column_of, data_type_of};
ghost use Rattle.columns_core.specs.Causes.{IsWantOfMemory};
ghost use Rattle.columns_core.specs.declared.data_type.DataType.{UInt64};
ghost use Rattle.flat_values.specs.CellTypes.{is_cell_of};
ghost use Rattle.flat_builders.specs.Kept.{cells_fit};
ghost use Rattle.parquet_statistics.specs.Parts.{AreReady, AreEachReady, count_on, slot_of_count, slot_of_end};

use columns_core::{Array, Cell, DataType, Error, MutableBitmap, PrimitiveArray};
use flat_builders::FlatMutable;
use parquet_meta::Ends;
use std::alloc::Global;
use std::collections::VecDeque;

/// Which end of a group.
#[derive(Clone, Copy)]
pub(crate) enum End {
    Low,
    High,
}

/// Which count of a group.
#[derive(Clone, Copy)]
pub(crate) enum Count {
    Nulls,
    Distinct,
}

/// The ends of each column in each group, as arrays of these types.
pub(crate) fn arrays_of_ends(
    alloc: Global,
    types: &[&DataType],
    told: &[Vec<Ends<Cell>>],
    end: End,
) -> Result<VecDeque<Array>, Error>
    requires ready { AreEachReady (map (λ t. t.now) types.now) (map (λ column. column.items) told.now) }
    ensures types { IfOk result (λ arrays. map data_type_of arrays.items ≡ map (λ t. t.now) types.now) }
    ensures cells { IfOk result (λ arrays. map cells arrays.items
        ≡ map (map (slot_of_end end)) (map (λ column. column.items) told.now)) }
    ensures memory { IfErr result IsWantOfMemory }
{
    let mut arrays = VecDeque::new(alloc);
    for i in 0..types.len() {
        arrays.push_back(array_of_ends(alloc, types[i], &told[i], end)?)?;
    }
    Ok(arrays)
}

/// The counts of each column in each group.
pub(crate) fn arrays_of_counts(
    alloc: Global,
    told: &[Vec<Ends<Cell>>],
    count: Count,
) -> Result<VecDeque<Array>, Error>
    ensures types { IfOk result (λ arrays. map data_type_of arrays.items ≡ map (λ _. UInt64) told.now) }
    ensures cells { IfOk result (λ arrays. map cells arrays.items
        ≡ map (map (slot_of_count count)) (map (λ column. column.items) told.now)) }
    ensures memory { IfErr result IsWantOfMemory }
{
    let mut arrays = VecDeque::new(alloc);
    for column in told {
        arrays.push_back(array_of_counts(alloc, column, count)?)?;
    }
    Ok(arrays)
}

fn array_of_ends(
    alloc: Global,
    data_type: &DataType,
    column: &[Ends<Cell>],
    end: End,
) -> Result<Array, Error>
    requires ready { AreReady data_type.now column.now }
    ensures array { IfOk result (λ array.
        column_of array ≡ (data_type.now, map (slot_of_end end) column.now)) }
    ensures memory { IfErr result IsWantOfMemory }
{
    let mut builder = FlatMutable::try_with_capacity(
        alloc,
        data_type.try_clone(alloc)?,
        column.len(),
    )?;
    for ends in column {
        push_end(&mut builder, ends, end)?;
    }
    builder.into_array()
}

/// Appends an end of a group, or null where it is not told.
fn push_end(builder: &mut FlatMutable, ends: &Ends<Cell>, end: End) -> Result<(), Error>
    requires typed { is_cell_of builder.old.0 (slot_of_end end ends.now) ≡ true }
    requires fits { cells_fit builder.old.0 (builder.old.1 ++ slot_of_end end ends.now ∷ []) ≡ true }
    ensures pushed { OnOk result
        (builder.new ≡ (builder.old.0, builder.old.1 ++ slot_of_end end ends.now ∷ [])) }
    ensures memory { IfErr result IsWantOfMemory }
{
    let end = match end {
        End::Low => &ends.min_value,
        End::High => &ends.max_value,
    };
    match end {
        None => builder.push_cell(&Cell::Null),
        Some(cell) => builder.push_cell(cell),
    }
}

fn array_of_counts(alloc: Global, column: &[Ends<Cell>], count: Count) -> Result<Array, Error>
    ensures array { IfOk result (λ array.
        column_of array ≡ (UInt64, map (slot_of_count count) column.now)) }
    ensures memory { IfErr result IsWantOfMemory }
{
    let mut values = Vec::with_capacity(alloc, column.len())?;
    let mut validity = MutableBitmap::with_capacity(alloc, column.len())?;
    for ends in column {
        let count = count_of(ends, count);
        values.push(count.unwrap_or(0))?;
        validity.push(count.is_some())?;
    }
    let array = PrimitiveArray::try_new(DataType::UInt64, values, Some(validity.freeze()))?;
    Ok(Array::UInt64(array))
}

fn count_of(ends: &Ends<Cell>, count: Count) -> Option<u64>
    ensures { result ≡ count_on count ends.now }
{
    match count {
        Count::Nulls => ends.null_count,
        Count::Distinct => ends.distinct_count,
    }
}
