//! The four arrays of the statistics of a field, of what is told of its columns.
ghost use Rattle.std.specs.Prelude.{◌≡◌, map, IfOk};
ghost use Rattle.columns_core.specs.Causes.{ComesOf};
ghost use Rattle.columns_core.specs.declared.data_type.DataType.{UInt64};
ghost use Rattle.parquet_statistics.specs.CountType.{count_type};
ghost use Rattle.parquet_statistics.specs.Deserialized.{AreArraysOf, IsMade, array_of_slots, causes_of_arrays, count_array_causes, end_array_causes, length_causes};
ghost use Rattle.parquet_statistics.specs.LeafTypes.{leaf_types};
ghost use Rattle.parquet_statistics.specs.Parts as part;

use crate::Statistics;
use crate::column_arrays::{Count, End, arrays_of_counts, arrays_of_ends};
use crate::counts::create_dt;
use crate::shapes::shape;
use columns_core::{Array, Cell, DataType, Error};
use parquet_meta::Ends;
use std::alloc::Global;

/// How many nulls and how many distinct values there are.
#[derive(Drop)]
struct CountArrays {
    nulls: Array,
    distinct: Array,
}

/// The least and the greatest values.
#[derive(Drop)]
struct EndArrays {
    low: Array,
    high: Array,
}

/// The arrays of what columns of these types tell.
pub(crate) fn arrays_of_field(
    alloc: Global,
    data_type: &DataType,
    types: &[&DataType],
    told: &[Vec<Ends<Cell>>],
) -> Result<Statistics, Error>
    requires types { map (λ t. t.now) types.now ≡ leaf_types data_type.now }
    requires ready { part.AreEachReady
        (map (λ t. t.now) types.now) (map (λ column. column.items) told.now) }
    requires ends { part.HasSlots data_type.now (map (λ column. column.items) told.now) }
    requires counts { part.HasSlots (count_type data_type.now) (map (λ column. column.items) told.now) }
    requires counted { leaf_types (count_type data_type.now) ≡ map (λ _. UInt64) told.now }
    ensures arrays { IfOk result
        (AreArraysOf data_type.now (map (λ column. column.items) told.now)) }
    ensures cause { ComesOf result
        (causes_of_arrays data_type.now (map (λ column. column.items) told.now)) }
{
    let counts = counts_of_field(alloc, data_type, told)?;
    match ends_of_field(alloc, data_type, types, told) {
        Ok(ends) => Ok(all_four(counts, ends)),
        Err(e) => {
            drop(counts);
            Err(e)
        }
    }
}

fn all_four(counts: CountArrays, ends: EndArrays) -> Statistics
    ensures nulls { result.null_count ≡ counts.nulls }
    ensures distinct { result.distinct_count ≡ counts.distinct }
    ensures low { result.min_value ≡ ends.low }
    ensures high { result.max_value ≡ ends.high }
{
    Statistics {
        null_count: counts.nulls,
        distinct_count: counts.distinct,
        min_value: ends.low,
        max_value: ends.high,
    }
}

/// How many nulls and how many distinct values there are.
fn counts_of_field(
    alloc: Global,
    data_type: &DataType,
    told: &[Vec<Ends<Cell>>],
) -> Result<CountArrays, Error>
    requires slots { part.HasSlots (count_type data_type.now) (map (λ column. column.items) told.now) }
    requires types { leaf_types (count_type data_type.now) ≡ map (λ _. UInt64) told.now }
    ensures arrays { IfOk result
        (part.AreCountArrays (count_type data_type.now) (map (λ column. column.items) told.now)) }
    ensures cause { ComesOf result
        (count_array_causes (count_type data_type.now) (map (λ column. column.items) told.now)) }
{
    let counts = create_dt(alloc, data_type)?;
    counts_of_type(alloc, &counts, told)
}

fn counts_of_type(
    alloc: Global,
    data_type: &DataType,
    told: &[Vec<Ends<Cell>>],
) -> Result<CountArrays, Error>
    requires slots { part.HasSlots data_type.now (map (λ column. column.items) told.now) }
    requires types { leaf_types data_type.now ≡ map (λ _. UInt64) told.now }
    ensures arrays { IfOk result
        (part.AreCountArrays data_type.now (map (λ column. column.items) told.now)) }
    ensures cause { ComesOf result
        (count_array_causes data_type.now (map (λ column. column.items) told.now)) }
{
    let nulls = counts_in_shape(alloc, data_type, told, Count::Nulls)?;
    match counts_in_shape(alloc, data_type, told, Count::Distinct) {
        Ok(distinct) => Ok(CountArrays { nulls, distinct }),
        Err(e) => {
            drop(nulls);
            Err(e)
        }
    }
}

/// The least and the greatest values.
fn ends_of_field(
    alloc: Global,
    data_type: &DataType,
    types: &[&DataType],
    told: &[Vec<Ends<Cell>>],
) -> Result<EndArrays, Error>
    requires slots { part.HasSlots data_type.now (map (λ column. column.items) told.now) }
    requires types { map (λ t. t.now) types.now ≡ leaf_types data_type.now }
    requires ready { part.AreEachReady
        (map (λ t. t.now) types.now) (map (λ column. column.items) told.now) }
    ensures arrays { IfOk result (part.AreEndArrays data_type.now (map (λ column. column.items) told.now)) }
    ensures cause { ComesOf result
        (end_array_causes data_type.now (map (λ column. column.items) told.now)) }
{
    let low = ends_in_shape(alloc, data_type, types, told, End::Low)?;
    match ends_in_shape(alloc, data_type, types, told, End::High) {
        Ok(high) => Ok(EndArrays { low, high }),
        Err(e) => {
            drop(low);
            Err(e)
        }
    }
}

fn counts_in_shape(
    alloc: Global,
    data_type: &DataType,
    told: &[Vec<Ends<Cell>>],
    count: Count,
) -> Result<Array, Error>
    requires slots { part.HasSlots data_type.now (map (λ column. column.items) told.now) }
    requires types { leaf_types data_type.now ≡ map (λ _. UInt64) told.now }
    ensures array { IfOk result (IsMade (array_of_slots data_type.now (part.slot_of_count count)
        (map (λ column. column.items) told.now))) }
    ensures cause { ComesOf result (length_causes (array_of_slots data_type.now (part.slot_of_count count)
        (map (λ column. column.items) told.now))) }
{
    let mut arrays = arrays_of_counts(alloc, told, count)?;
    shape(alloc, data_type, &mut arrays)
}

fn ends_in_shape(
    alloc: Global,
    data_type: &DataType,
    types: &[&DataType],
    told: &[Vec<Ends<Cell>>],
    end: End,
) -> Result<Array, Error>
    requires slots { part.HasSlots data_type.now (map (λ column. column.items) told.now) }
    requires types { map (λ t. t.now) types.now ≡ leaf_types data_type.now }
    requires ready { part.AreEachReady
        (map (λ t. t.now) types.now) (map (λ column. column.items) told.now) }
    ensures array { IfOk result (IsMade (array_of_slots data_type.now (part.slot_of_end end)
        (map (λ column. column.items) told.now))) }
    ensures cause { ComesOf result (length_causes (array_of_slots data_type.now (part.slot_of_end end)
        (map (λ column. column.items) told.now))) }
{
    let mut arrays = arrays_of_ends(alloc, types, told, end)?;
    shape(alloc, data_type, &mut arrays)
}
