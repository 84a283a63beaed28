//! The statistics of a field in row groups.
ghost use Rattle.std.specs.Prelude.{◌≡◌, [], true, false, flat_map, map, IfOk, IsErrAnd, OnOk};
ghost use Rattle.columns_core.specs.Causes.{ComesOf, is_invalid_argument};
ghost use Rattle.parquet_statistics.specs.Deserialized.{AreStatistics, deserialize_causes, field_type_causes, fits_groups};
ghost use Rattle.parquet_statistics.specs.Deserialized.{group_causes_of_field, told_of_field};
ghost use Rattle.parquet_statistics.specs.LeafTypes.{leaf_types};

use crate::Statistics;
use crate::carried_types::are_carried;
use crate::field_arrays::arrays_of_field;
use crate::slots::fit_groups;
use crate::told::{check_bytes, columns_of_groups, told_of_columns};
use crate::types_inside::leaf_types;
use columns_core::{Cell, DataType, Error, Field, Part};
use parquet_meta::{Ends, RowGroupMetaData};
use std::alloc::Global;

/// The statistics of a field: a slot for each row group, of a map one slot in all. Where the field is a dictionary, the ends have an entry for each slot,
/// and the keys 0, 1, 2 and on.
///
/// `InvalidArgumentError`, before all else and without memory, where a group has no column of the field's name, a struct in the type has no fields, or the
/// fields of one come to different numbers of slots, as beside a map they may; `NotYetImplemented` where the field has not as many columns as its type,
/// the type of one is not carried, a dictionary in the type has several columns, or bytes of a fixed size have no size; `ExternalFormat` where a count
/// is negative or a value has not the width of its type; `OutOfSpec` where a text is not UTF-8; `Overflow` where a value does not fit its type, and,
/// where all else is well, where the bytes of values pass the greatest place of theirs, or there are more slots than a dictionary has keys or a map or
/// list has places.
pub fn deserialize(
    alloc: Global,
    field: &Field,
    row_groups: &[RowGroupMetaData],
) -> Result<Statistics, Error>
    ensures arrays { IfOk result (AreStatistics field.now row_groups.now) }
    ensures ok { OnOk result (deserialize_causes field.now row_groups.now ≡ []) }
    ensures argument { fits_groups field.now row_groups.now ≡ false
        → IsErrAnd result (λ e. is_invalid_argument e ≡ true) }
    ensures fails { fits_groups field.now row_groups.now ≡ true
        → ComesOf result (deserialize_causes field.now row_groups.now) }
{
    if fit_groups(field, row_groups) {
        statistics_of_groups(alloc, field, row_groups)
    } else {
        Err(Error::InvalidArgumentError(Part::Request))
    }
}

fn statistics_of_groups(
    alloc: Global,
    field: &Field,
    row_groups: &[RowGroupMetaData],
) -> Result<Statistics, Error>
    requires fits { fits_groups field.now row_groups.now ≡ true }
    ensures arrays { IfOk result (AreStatistics field.now row_groups.now) }
    ensures ok { OnOk result (deserialize_causes field.now row_groups.now ≡ []) }
    ensures cause { ComesOf result (deserialize_causes field.now row_groups.now) }
{
    let types = carried_types(alloc, &field.data_type)?;
    let told = told_of_field(alloc, field, &types, row_groups)?;
    check_bytes(&types, &told)?;
    arrays_of_field(alloc, &field.data_type, &types, &told)
}

/// The types of the columns of a field.
fn carried_types<'a>(alloc: Global, data_type: &'a DataType) -> Result<Vec<&'a DataType>, Error>
    ensures types { IfOk result (λ types. map (λ t. t.now) types.items ≡ leaf_types data_type.now) }
    ensures ok { OnOk result (field_type_causes data_type.now ≡ []) }
    ensures cause { ComesOf result (field_type_causes data_type.now) }
{
    let types = leaf_types(alloc, data_type)?;
    if are_carried(data_type, &types) {
        Ok(types)
    } else {
        Err(Error::NotYetImplemented(Part::Schema))
    }
}

/// What each column of a field tells in each group, in the type beside it.
fn told_of_field(
    alloc: Global,
    field: &Field,
    types: &[&DataType],
    row_groups: &[RowGroupMetaData],
) -> Result<Vec<Vec<Ends<Cell>>>, Error>
    requires types { map (λ t. t.now) types.now ≡ leaf_types field.now.data_type }
    ensures told { IfOk result (λ told.
        map (λ column. column.items) told.items ≡ told_of_field field.now row_groups.now) }
    ensures ok { OnOk result (flat_map (group_causes_of_field field.now) row_groups.now ≡ []) }
    ensures cause { ComesOf result (flat_map (group_causes_of_field field.now) row_groups.now) }
{
    let columns = columns_of_groups(alloc, field, types.len(), row_groups)?;
    told_of_columns(alloc, types, &columns)
}
