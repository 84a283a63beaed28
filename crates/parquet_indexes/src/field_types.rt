//! What is told of the columns of a field, put together in the shape of its type.
ghost use Rattle.std.specs.Prelude.{◌≡◌, ◌+◌, ◌≤◌, Some, length, map, flat_map, IfOk, IfErr, OnOk};
ghost use Rattle.columns_core.specs.Causes.{IsWantOfMemory};
ghost use Rattle.parquet_statistics.specs.LeafTypes.{leaf_types};
ghost use Rattle.parquet_indexes.specs.FieldTypes as spec;

use crate::{ColumnPageStatistics, FieldPageStatistics};
use columns_core::{DataType, Error, Field, Part, Seq};
use std::alloc::Global;
use std::collections::VecDeque;

/// The statistics of a field of this type, from those of the first of these columns, which are taken away. Without enough of them it is refused.
#[cycle(arrange)]
pub(crate) fn arrange(
    alloc: Global,
    data_type: &DataType,
    columns: &mut VecDeque<ColumnPageStatistics>,
) -> Result<FieldPageStatistics, Error>
    ensures arranged { IfOk result (λ statistics.
        spec.arranged data_type.now columns.old.items ≡ Some (statistics, columns.new.items)) }
    ensures rest { OnOk result (length columns.new.items + length (leaf_types data_type.now)
        ≡ length columns.old.items) }
    ensures memory { length (leaf_types data_type.now) ≤ length columns.old.items
        → IfErr result IsWantOfMemory }
{
    match data_type {
        DataType::Dictionary(_, value, _) => arrange(alloc, value.get(), columns),
        DataType::List(field) => arrange(alloc, &field.get().data_type, columns),
        DataType::LargeList(field) => arrange(alloc, &field.get().data_type, columns),
        DataType::Map(field, _) => arrange(alloc, &field.get().data_type, columns),
        DataType::Struct(fields) => Ok(FieldPageStatistics::Multiple(arrange_fields(
            alloc,
            fields.as_slice(),
            columns,
        )?)),
        _ => first_column(columns),
    }
}

#[cycle(arrange)]
fn arrange_fields(
    alloc: Global,
    fields: &[Field],
    columns: &mut VecDeque<ColumnPageStatistics>,
) -> Result<Seq<FieldPageStatistics>, Error>
    ensures arranged { IfOk result (λ statistics.
        spec.arranged_in_turn (map (λ field. spec.arranged field.data_type) fields.now) columns.old.items
        ≡ Some (statistics, columns.new.items)) }
    ensures rest { OnOk result (length columns.new.items
        + length (flat_map (λ field. leaf_types field.data_type) fields.now)
        ≡ length columns.old.items) }
    ensures memory { length (flat_map (λ field. leaf_types field.data_type) fields.now)
        ≤ length columns.old.items → IfErr result IsWantOfMemory }
{
    let mut statistics = Vec::new(alloc);
    for field in fields {
        statistics.push(arrange(alloc, &field.data_type, columns)?)?;
    }
    Ok(Seq::new(statistics))
}

/// The statistics of one column.
fn first_column(columns: &mut VecDeque<ColumnPageStatistics>) -> Result<FieldPageStatistics, Error>
    ensures arranged { IfOk result (λ statistics.
        spec.one_column columns.old.items ≡ Some (statistics, columns.new.items)) }
    ensures rest { OnOk result (length columns.new.items + 1 ≡ length columns.old.items) }
    ensures memory { 1 ≤ length columns.old.items → IfErr result IsWantOfMemory }
{
    match columns.pop_front() {
        Some(column) => Ok(FieldPageStatistics::Single(column)),
        None => Err(Error::NotYetImplemented(Part::Schema)),
    }
}
