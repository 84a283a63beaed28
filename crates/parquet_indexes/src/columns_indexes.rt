//! What the column indexes of a file tell of the pages of fields.
ghost use Rattle.std.specs.Prelude.{◌≡◌, ◌≤◌, ◌+◌, [], true, false, length, map, flat_map, sum_by, zip, IfOk, IfErr, IfSome, IsErrAnd, OnOk};
ghost use Rattle.std.specs.List.{AllZip, list_all};
ghost use Rattle.columns_core.specs.Causes.{is_invalid_argument};
ghost use Rattle.parquet_meta.specs.Indexes.{begins_with, column_index_length};
ghost use Rattle.parquet_meta.specs.Keeps.{Keeps};
ghost use Rattle.parquet_meta.specs.Source.{IsReadFailure};
ghost use Rattle.parquet_indexes.specs.FieldStatistics as spec;
ghost use Rattle.parquet_statistics.specs.LeafTypes.{has_column};

use crate::field_types::arrange;
use crate::fields::have_columns;
use crate::told::told_statistics;
use crate::{ColumnPageStatistics, FieldPageStatistics};
use columns_core::{DataType, Error, Field, Name, Part};
use parquet_meta::{ColumnChunkMetaData, Source, get_field_columns, read_raw_indexes};
use parquet_statistics::leaf_types;
use std::alloc::Global;
use std::collections::VecDeque;
use std::slice;

/// The statistics of the pages of each field, in the shape of its type: a struct has those of its fields, a dictionary, a list and a map those of
/// what is inside, all else those of one column. Only the column indexes of the fields' columns are read.
///
/// `InvalidArgumentError` where a field has no column; `NotYetImplemented` where it has not as many columns as its type, or the type of one is not
/// carried; `ExternalFormat` where an index is missing or damaged, a count is negative or an end has not the width of its type; `OutOfSpec`
/// where a text is not UTF-8; `Overflow` where an end has no value in the type, or the bytes of ends are more than an array has at most.
pub fn read_columns_indexes<S: Source>(
    alloc: Global,
    source: &mut S,
    chunks: &[ColumnChunkMetaData],
    fields: &[Field],
) -> Result<Vec<FieldPageStatistics>, Error>
    ensures keeps { Keeps S.Source source.old source.new }
    ensures quiet { OnOk result (S.faults source.new ≡ S.faults source.old) }
    ensures argument { list_all (has_column chunks.now) fields.now ≡ false
        → IsErrAnd result (λ e. is_invalid_argument e ≡ true) × (source.new ≡ source.old) }
    ensures each { IfOk result (λ statistics. length statistics.items ≡ length fields.now) }
    ensures told { IfOk result (λ statistics. IfSome (S.told source.old) (λ file.
        spec.AreOfFields file chunks.now fields.now statistics.items)) }
    ensures ok { OnOk result (IfSome (S.told source.old) (λ file.
        spec.causes_of_fields chunks.now fields.now file ≡ [])) }
    ensures fails { list_all (has_column chunks.now) fields.now ≡ true
        → IfErr result (IsReadFailure (S.told source.old) (S.faults source.old) (S.faults source.new)
        (spec.causes_of_fields chunks.now fields.now)) }
    ensures carried { spec.TellsCarried (list_all (spec.is_carried_field chunks.now) fields.now) result }
    ensures taken { S.taken source.new ≤ S.taken source.old
        + sum_by (spec.column_indexes_length chunks.now) fields.now }
{
    if !have_columns(chunks, fields) {
        return Err(Error::InvalidArgumentError(Part::Request));
    }
    read_fields(alloc, source, chunks, fields)
}

fn read_fields<S: Source>(
    alloc: Global,
    source: &mut S,
    chunks: &[ColumnChunkMetaData],
    fields: &[Field],
) -> Result<Vec<FieldPageStatistics>, Error>
    ensures keeps { Keeps S.Source source.old source.new }
    ensures quiet { OnOk result (S.faults source.new ≡ S.faults source.old) }
    ensures each { IfOk result (λ statistics. length statistics.items ≡ length fields.now) }
    ensures told { IfOk result (λ statistics. IfSome (S.told source.old) (λ file.
        spec.AreOfFields file chunks.now fields.now statistics.items)) }
    ensures ok { OnOk result (IfSome (S.told source.old) (λ file.
        spec.causes_of_fields chunks.now fields.now file ≡ [])) }
    ensures fails { IfErr result (
        IsReadFailure (S.told source.old) (S.faults source.old) (S.faults source.new)
        (spec.causes_of_fields chunks.now fields.now)) }
    ensures carried { spec.TellsCarried (list_all (spec.is_carried_field chunks.now) fields.now) result }
    ensures taken { S.taken source.new ≤ S.taken source.old
        + sum_by (spec.column_indexes_length chunks.now) fields.now }
{
    let mut statistics = Vec::new(alloc);
    for field in fields {
        statistics.push(read_field(alloc, source, chunks, field)?)?;
    }
    Ok(statistics)
}

fn read_field<S: Source>(
    alloc: Global,
    source: &mut S,
    chunks: &[ColumnChunkMetaData],
    field: &Field,
) -> Result<FieldPageStatistics, Error>
    ensures keeps { Keeps S.Source source.old source.new }
    ensures quiet { OnOk result (S.faults source.new ≡ S.faults source.old) }
    ensures told { IfOk result (λ statistics. IfSome (S.told source.old) (λ file.
        spec.IsOfField file chunks.now field.now statistics)) }
    ensures ok { OnOk result (IfSome (S.told source.old) (λ file.
        spec.causes_of_field file chunks.now field.now ≡ [])) }
    ensures fails { IfErr result (
        IsReadFailure (S.told source.old) (S.faults source.old) (S.faults source.new) (λ file.
        spec.causes_of_field file chunks.now field.now)) }
    ensures carried { spec.TellsCarried (spec.is_carried_field chunks.now field.now) result }
    ensures taken { S.taken source.new ≤ S.taken source.old
        + spec.column_indexes_length chunks.now field.now }
{
    let types = leaf_types(alloc, &field.data_type)?;
    let columns = get_field_columns(alloc, chunks, field.name.as_str())?;
    if types.len() != columns.len() {
        return Err(Error::NotYetImplemented(Part::Schema));
    }
    let mut told = read_columns(alloc, source, &field.name, &columns, &types)?;
    arrange(alloc, &field.data_type, &mut told)
}

/// What is told of columns that this name begins, each in a type.
fn read_columns<S: Source>(
    alloc: Global,
    source: &mut S,
    name: &Name,
    columns: &[&ColumnChunkMetaData],
    types: &[&DataType],
) -> Result<VecDeque<ColumnPageStatistics>, Error>
    requires even { length types.now ≡ length columns.now }
    requires named { list_all (λ column. begins_with name.now column.now) columns.now ≡ true }
    ensures keeps { Keeps S.Source source.old source.new }
    ensures quiet { OnOk result (S.faults source.new ≡ S.faults source.old) }
    ensures told { let typed = zip (map (λ t. t.now) types.now) (map (λ column. column.now) columns.now) in
        IfOk result (λ told. IfSome (S.told source.old) (λ file.
        AllZip (spec.IsOfColumn file) typed told.items)) }
    ensures length { IfOk result (λ told. length told.items ≡ length types.now) }
    ensures ok { let typed = zip (map (λ t. t.now) types.now) (map (λ column. column.now) columns.now) in
        OnOk result (IfSome (S.told source.old) (λ file.
        flat_map (spec.causes_of_typed file) typed ≡ [])) }
    ensures fails { let typed = zip (map (λ t. t.now) types.now) (map (λ column. column.now) columns.now) in
        IfErr result (IsReadFailure (S.told source.old) (S.faults source.old) (S.faults source.new) (λ file.
        flat_map (spec.causes_of_typed file) typed)) }
    ensures carried { let typed = zip (map (λ t. t.now) types.now)
        (map (λ column. column.now) columns.now) in
        spec.TellsCarried (list_all spec.is_carried_column typed) result }
    ensures taken { let typed = zip (map (λ t. t.now) types.now) (map (λ column. column.now) columns.now) in
        S.taken source.new ≤ S.taken source.old + sum_by (λ t. column_index_length t.1) typed }
{
    let mut told = VecDeque::new(alloc);
    for i in 0..columns.len() {
        told.push_back(read_column(alloc, source, name, columns[i], types[i])?)?;
    }
    Ok(told)
}

/// What is told of a column that this name begins, in a type that is no dictionary's.
fn read_column<S: Source>(
    alloc: Global,
    source: &mut S,
    name: &Name,
    column: &ColumnChunkMetaData,
    data_type: &DataType,
) -> Result<ColumnPageStatistics, Error>
    requires named { begins_with name.now column.now ≡ true }
    ensures keeps { Keeps S.Source source.old source.new }
    ensures quiet { OnOk result (S.faults source.new ≡ S.faults source.old) }
    ensures told { IfOk result (λ statistics. IfSome (S.told source.old) (λ file.
        spec.IsOfColumn file (data_type.now, column.now) statistics)) }
    ensures ok { OnOk result (IfSome (S.told source.old) (λ file.
        spec.causes_of_typed file (data_type.now, column.now) ≡ [])) }
    ensures fails { IfErr result (
        IsReadFailure (S.told source.old) (S.faults source.old) (S.faults source.new) (λ file.
        spec.causes_of_typed file (data_type.now, column.now))) }
    ensures carried { spec.TellsCarried (spec.is_carried_column (data_type.now, column.now)) result }
    ensures taken { S.taken source.new ≤ S.taken source.old + column_index_length column.now }
{
    let mut indexes = read_raw_indexes(alloc, source, slice::from_ref(column), name.as_str())?;
    let Some(index) = indexes.pop() else {
        return Err(Error::ExternalFormat(Part::Index));
    };
    told_statistics(alloc, &column.descriptor.primitive_type, &index, data_type)
}
