//! Which row groups count.
ghost use Rattle.std.specs.Prelude.{◌≡◌, ◌&&◌, [], ◌∷◌, OnOk, IfOk, length, map, zip, flat_map, option_copied, option_map};
ghost use Rattle.std.specs.List.{list_all};
ghost use Rattle.columns_core.specs.Causes.{ComesOf};
ghost use Rattle.parquet_scan.specs.Causes.{bounded_causes, bounded_causes_of_group, bounded_cells, causes_of_bound, descriptor_causes, field_causes};
ghost use Rattle.parquet_scan.specs.Counting.{causes_of_bytes, counts_by, with_ends, are_pruned as are_pruned_by, has_indexes_if_counting as has_indexes_if_counting_by};
ghost use Rattle.parquet_scan.specs.Rows as spec;

use crate::Bound;
use crate::bound::ends_keep;
use crate::pairs::check_pair;
use crate::request::{begins, field_of};
use column_ends::{EndBytes, statistics_ends, value_type};
use columns_core::{DataType, Error, Field, Name, Part};
use parquet_meta::{ColumnChunkMetaData, ColumnDescriptor, RowGroupMetaData};
use std::alloc::Global;

/// Refuses a field whose name begins several columns, and one whose column is not flat or not read as its type.
pub(crate) fn check_field(columns: &[ColumnDescriptor], field: &Field) -> Result<(), Error>
    ensures ok { OnOk result (field_causes columns.now field.now ≡ []) }
    ensures cause { ComesOf result (field_causes columns.now field.now) }
{
    let mut found: Option<&ColumnDescriptor> = None;
    for column in columns {
        if begins(&field.name, column) {
            if found.is_some() {
                return Err(Error::NotYetImplemented(Part::Schema));
            }
            found = Some(column);
        }
    }
    match found {
        Some(column) => check_descriptor(column, &field.data_type),
        None => Ok(()),
    }
}

fn check_descriptor(column: &ColumnDescriptor, data_type: &DataType) -> Result<(), Error>
    ensures ok { OnOk result (descriptor_causes data_type.now (column.now ∷ []) ≡ []) }
    ensures cause { ComesOf result (descriptor_causes data_type.now (column.now ∷ [])) }
{
    if !column.flat {
        return Err(Error::NotYetImplemented(Part::Schema));
    }
    check_pair(&column.primitive_type, data_type)
}

/// The column of this name in a group, where exactly one has it.
pub(crate) fn column_named<'a>(
    group: &'a RowGroupMetaData,
    name: &Name,
) -> Option<&'a ColumnChunkMetaData>
    ensures { option_copied result ≡ spec.column_named group.now name.now }
{
    let mut found: Option<&ColumnChunkMetaData> = None;
    for column in group.columns.as_slice() {
        if begins(name, &column.descriptor) {
            if found.is_some() {
                return None;
            }
            found = Some(column);
        }
    }
    found
}

/// Which groups the statistics of bounded columns do not rule out. Each bound is asked for in every group.
pub(crate) fn counting_groups(
    alloc: Global,
    groups: &[RowGroupMetaData],
    fields: &[Field],
    bounds: &[Bound],
) -> Result<Vec<bool>, Error>
    ensures counts { IfOk result (λ counts.
        counts.items ≡ map (λ group. list_all (spec.group_keeps fields.now group) bounds.now) groups.now) }
    ensures ok { OnOk result (bounded_causes fields.now bounds.now groups.now ≡ []) }
    ensures cause { ComesOf result (bounded_causes fields.now bounds.now groups.now) }
{
    let mut counts = vec![in alloc; true; groups.len()]?;
    for bound in bounds {
        rule_out(alloc, groups, fields, bound, &mut counts)?;
    }
    Ok(counts)
}

/// Rules out groups by a bound. The ends of all groups fit arrays of their own.
fn rule_out(
    alloc: Global,
    groups: &[RowGroupMetaData],
    fields: &[Field],
    bound: &Bound,
    counts: &mut [bool],
) -> Result<(), Error>
    requires { length counts.old ≡ length groups.now }
    ensures counts { OnOk result (counts.new
        ≡ map (counts_by fields.now bound.now) (zip groups.now counts.old)) }
    ensures length { length counts.new ≡ length groups.now }
    ensures ok { OnOk result (causes_of_bound fields.now groups.now bound.now ≡ []) }
    ensures cause { ComesOf result (causes_of_bound fields.now groups.now bound.now) }
{
    let mut bytes = EndBytes::new();
    for i in 0..groups.len() {
        let keeps = group_keeps(alloc, &groups[i], fields, bound, &mut bytes)?;
        counts[i] = both(counts[i], keeps);
    }
    check_bytes(&bytes, fields, bound)
}

fn both(first: bool, second: bool) -> bool
    ensures { result ≡ (first && second) }
{
    first && second
}

/// Whether a group may hold a row that meets the bound. The bytes of its ends are counted.
fn group_keeps(
    alloc: Global,
    group: &RowGroupMetaData,
    fields: &[Field],
    bound: &Bound,
    bytes: &mut EndBytes,
) -> Result<bool, Error>
    ensures keeps { IfOk result (λ keeps. keeps ≡ spec.group_keeps fields.now group.now bound.now) }
    ensures ok { OnOk result (bounded_causes_of_group fields.now bound.now group.now ≡ []) }
    ensures cause { ComesOf result (bounded_causes_of_group fields.now bound.now group.now) }
    ensures bytes { OnOk result (bytes.new
        ≡ with_ends bytes.old (bounded_cells fields.now bound.now group.now)) }
{
    match bounded_column(group, fields, bound) {
        None => Ok(false),
        Some((data_type, column)) => {
            let ends = statistics_ends(alloc, column, data_type)?;
            let (low, high) = (ends.min_value.as_ref(), ends.max_value.as_ref());
            bytes.add(low, high);
            let rows = group.num_rows as u64;
            Ok(ends_keep(low, high, ends.null_count, rows, bound))
        }
    }
}

/// The type of a bound's values, which is that of its field, and the field's column in a group.
pub(crate) fn bounded_column<'a>(
    group: &'a RowGroupMetaData,
    fields: &'a [Field],
    bound: &Bound,
) -> Option<(&'a DataType, &'a ColumnChunkMetaData)>
    ensures { option_map (λ typed. (typed.0.now, typed.1.now)) result
        ≡ spec.bounded_column fields.now group.now bound.now }
{
    let field = field_of(bound, fields)?;
    let column = column_named(group, &bound.field)?;
    Some((value_type(&field.data_type), column))
}

/// Refuses ends that do not fit arrays of the bound's type.
fn check_bytes(bytes: &EndBytes, fields: &[Field], bound: &Bound) -> Result<(), Error>
    ensures ok { OnOk result (causes_of_bytes bytes.now fields.now bound.now ≡ []) }
    ensures cause { ComesOf result (causes_of_bytes bytes.now fields.now bound.now) }
{
    match field_of(bound, fields) {
        Some(field) if !bytes.fit(value_type(&field.data_type)) => Err(Error::Overflow),
        _ => Ok(()),
    }
}

/// Refuses fields whose names begin several columns, or one that is not flat or not read as its type.
pub(crate) fn check_fields(columns: &[ColumnDescriptor], fields: &[Field]) -> Result<(), Error>
    ensures ok { OnOk result (flat_map (field_causes columns.now) fields.now ≡ []) }
    ensures cause { ComesOf result (flat_map (field_causes columns.now) fields.now) }
{
    for field in fields {
        check_field(columns, field)?;
    }
    Ok(())
}

/// Whether rows are pruned by pages: there is a bound, and each group that counts has the indexes.
pub(crate) fn are_pruned(
    groups: &[RowGroupMetaData],
    counts: &[bool],
    fields: &[Field],
    bounds: &[Bound],
) -> bool
    requires { length counts.now ≡ length groups.now }
    ensures { result ≡ are_pruned_by bounds.now fields.now groups.now counts.now }
{
    !bounds.is_empty() && have_indexes(groups, counts, fields, bounds)
}

/// Whether each group that counts has the indexes that pruning by pages needs.
fn have_indexes(
    groups: &[RowGroupMetaData],
    counts: &[bool],
    fields: &[Field],
    bounds: &[Bound],
) -> bool
    requires { length counts.now ≡ length groups.now }
    ensures { result
        ≡ list_all (has_indexes_if_counting_by bounds.now fields.now) (zip groups.now counts.now) }
{
    for i in 0..groups.len() {
        if !has_indexes_if_counting(&groups[i], counts[i], fields, bounds) {
            return false;
        }
    }
    true
}

fn has_indexes_if_counting(
    group: &RowGroupMetaData,
    counts: bool,
    fields: &[Field],
    bounds: &[Bound],
) -> bool
    ensures { result ≡ has_indexes_if_counting_by bounds.now fields.now (group.now, counts) }
{
    !counts || has_indexes(group, fields, bounds)
}

fn has_indexes(group: &RowGroupMetaData, fields: &[Field], bounds: &[Bound]) -> bool
    ensures { result ≡ spec.has_indexes_for bounds.now fields.now group.now }
{
    have_column_indexes(group, bounds) && have_offset_indexes(group, fields)
}

fn have_column_indexes(group: &RowGroupMetaData, bounds: &[Bound]) -> bool
    ensures { result ≡ list_all (λ bound. spec.has_column_index group.now bound.field) bounds.now }
{
    bounds
        .iter()
        .all(|bound| has_column_index(group, &bound.field))
}

fn have_offset_indexes(group: &RowGroupMetaData, fields: &[Field]) -> bool
    ensures { result ≡ list_all (λ field. spec.has_offset_index group.now field.name) fields.now }
{
    fields
        .iter()
        .all(|field| has_offset_index(group, &field.name))
}

fn has_column_index(group: &RowGroupMetaData, name: &Name) -> bool
    ensures { result ≡ spec.has_column_index group.now name.now }
{
    match column_named(group, name) {
        Some(column) => column.column_index.is_some(),
        None => false,
    }
}

fn has_offset_index(group: &RowGroupMetaData, name: &Name) -> bool
    ensures { result ≡ spec.has_offset_index group.now name.now }
{
    match column_named(group, name) {
        Some(column) => column.offset_index.is_some(),
        None => false,
    }
}
