//! What the statistics of a column tell of a group, as values of a type.
ghost use Rattle.std.specs.Prelude.{◌≡◌, [], Some, true, IfOk, OnOk};
ghost use Rattle.columns_core.specs.Causes.{ComesOf};
ghost use Rattle.parquet_meta.specs.Indexes.{type_of};
ghost use Rattle.flat_values.specs.Conversion.{Nulls};
ghost use Rattle.column_ends.specs.Converted as spec;
ghost use Rattle.column_ends.specs.ByRule.{group_by, group_causes_by};
ghost use Rattle.column_ends.specs.Rules.{IsValueRuleOf, value_conversion, fits_size};
ghost use Rattle.column_ends.specs.Told.{stored_by, stored_ends};

use crate::end::{StoredEnd, end_value};
use crate::{EndRule, ValueRule, statistics_rule};
use columns_core::{Cell, DataType, Error, Part};
use parquet_meta::{ColumnChunkMetaData, Ends, RawStatistics};
use std::alloc::Global;

/// The ends and counts that the statistics of a column tell of a group, as values of a type.
pub fn statistics_ends(
    alloc: Global,
    column: &ColumnChunkMetaData,
    data_type: &DataType,
) -> Result<Ends<Cell>, Error>
    ensures ends { IfOk result (λ ends. spec.group_cells data_type.now column.now ≡ Some ends) }
    ensures ok { OnOk result (spec.group_causes data_type.now column.now ≡ []) }
    ensures cause { ComesOf result (spec.group_causes data_type.now column.now) }
{
    match statistics_rule(&column.descriptor.primitive_type, data_type) {
        None => Err(Error::NotYetImplemented(Part::Statistics)),
        Some(EndRule::Nulls) => counts_of_column(column),
        Some(EndRule::Values(rule)) => values_of_column(alloc, rule, column),
    }
}

fn counts_of_column(column: &ColumnChunkMetaData) -> Result<Ends<Cell>, Error>
    ensures ends { IfOk result (λ ends. spec.told_cells Nulls column.now ≡ Some ends) }
    ensures ok { OnOk result (spec.told_causes Nulls column.now ≡ []) }
    ensures cause { ComesOf result (spec.told_causes Nulls column.now) }
{
    let (null_count, distinct_count) = column.counts()?;
    Ok(Ends {
        null_count,
        distinct_count,
        min_value: None,
        max_value: None,
    })
}

fn values_of_column(
    alloc: Global,
    rule: ValueRule,
    column: &ColumnChunkMetaData,
) -> Result<Ends<Cell>, Error>
    requires { IsValueRuleOf (type_of column.now) rule }
    ensures ends { IfOk result (λ ends. spec.told_cells (value_conversion rule) column.now ≡ Some ends) }
    ensures ok { OnOk result (spec.told_causes (value_conversion rule) column.now ≡ []) }
    ensures cause { ComesOf result (spec.told_causes (value_conversion rule) column.now) }
{
    match column.statistics(alloc)? {
        None => Ok(Ends {
            null_count: None,
            distinct_count: None,
            min_value: None,
            max_value: None,
        }),
        Some(statistics) => statistics_values(alloc, rule, &statistics),
    }
}

fn statistics_values(
    alloc: Global,
    rule: ValueRule,
    statistics: &RawStatistics,
) -> Result<Ends<Cell>, Error>
    requires { fits_size rule ≡ true }
    ensures ends { IfOk result (λ ends. group_by rule (stored_ends statistics.now) ≡ ends) }
    ensures ok { OnOk result (group_causes_by rule (stored_ends statistics.now) ≡ []) }
    ensures cause { ComesOf result (group_causes_by rule (stored_ends statistics.now)) }
{
    match statistics {
        RawStatistics::Boolean(ends) => values_of_ends(alloc, rule, ends),
        RawStatistics::Int32(ends) => values_of_ends(alloc, rule, ends),
        RawStatistics::Int64(ends) => values_of_ends(alloc, rule, ends),
        RawStatistics::Int96(ends) => values_of_ends(alloc, rule, ends),
        RawStatistics::ByteArray(ends) => values_of_ends(alloc, rule, ends),
        RawStatistics::FixedLenByteArray(_, ends) => values_of_ends(alloc, rule, ends),
    }
}

fn values_of_ends<T: StoredEnd>(
    alloc: Global,
    rule: ValueRule,
    ends: &Ends<T>,
) -> Result<Ends<Cell>, Error>
    requires { fits_size rule ≡ true }
    ensures ends { IfOk result (λ cells. group_by rule (stored_by T.stored ends.now) ≡ cells) }
    ensures ok { OnOk result (group_causes_by rule (stored_by T.stored ends.now) ≡ []) }
    ensures cause { ComesOf result (group_causes_by rule (stored_by T.stored ends.now)) }
{
    let min_value = end_value(alloc, rule, &ends.min_value, Part::Statistics)?;
    let max_value = end_value(alloc, rule, &ends.max_value, Part::Statistics)?;
    Ok(Ends {
        null_count: ends.null_count,
        distinct_count: ends.distinct_count,
        min_value,
        max_value,
    })
}
