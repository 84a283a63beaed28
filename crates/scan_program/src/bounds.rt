//! The bounds that the ends on a command line give to its fields.
ghost use Rattle.std.specs.Prelude.{◌≡◌, ◌++◌, ◌∷◌, [], None, List, IfOk, map, option_copied, option_map, if◌then◌else◌};
ghost use Rattle.std.specs.List.{list_all};
ghost use Rattle.columns_core.specs.declared.data_type.Field.{Field as FieldValue};
ghost use Rattle.parquet_scan.specs.Bound.{value_of};
ghost use Rattle.scan_program.specs.Parsed.{as_written, bounds_behind};
ghost use Rattle.scan_program.specs.Words as spec;

use crate::items::End;
use columns_core::{Cell, DataType, Field, Name};
use parquet_scan::{Bound, Scalar};
use pq_common::value;
use std::alloc::{AllocError, Global};

/// The bounds of the fields; `None` where an end names no field, comes twice or is no value.
pub(crate) fn bounds_of(
    alloc: Global,
    ends: &[End<'_>],
    fields: &[Field],
) -> Result<Option<Vec<Bound>>, AllocError>
    ensures { IfOk result (λ bounds. option_map (λ bounds. bounds.items) bounds
        ≡ spec.bounds_of (map as_written ends.now) fields.now) }
{
    if !name_fields(ends, fields) {
        return Ok(None);
    }
    let mut bounds = Vec::new(alloc);
    for (i, field) in fields.iter().enumerate() {
        if !push_bound(alloc, &mut bounds, ends, &fields[..i], field)? {
            return Ok(None);
        }
    }
    Ok(Some(bounds))
}

/// Whether each end names a field.
fn name_fields(ends: &[End<'_>], fields: &[Field]) -> bool
    ensures { result ≡ list_all (λ end. spec.has_name fields.now end.name.now) ends.now }
{
    ends.iter().all(|end| has_name(fields, end.name))
}

/// Adds the bound of a field whose name no field before has, if the ends give it one; `false` where an end is given
/// twice or is no value.
fn push_bound(
    alloc: Global,
    bounds: &mut Vec<Bound>,
    ends: &[End<'_>],
    before: &[Field],
    field: &Field,
) -> Result<bool, AllocError>
    ensures { IfOk result (λ good. (fields : List FieldValue) →
        bounds_behind (map as_written ends.now) bounds.old.items before.now (field.now ∷ fields)
        ≡ (if good then bounds_behind (map as_written ends.now) bounds.new.items (before.now ++ field.now
        ∷ []) fields else None)) }
{
    if has_name(before, field.name.as_str()) {
        return Ok(true);
    }
    match both_ends(alloc, ends, field)? {
        None => Ok(false),
        Some((None, None)) => Ok(true),
        Some((low, high)) => {
            let field = copy_of(alloc, &field.name)?;
            bounds.push(Bound { field, low, high })?;
            Ok(true)
        }
    }
}

/// Whether one of the fields has this name.
fn has_name(fields: &[Field], name: &str) -> bool
    ensures { result ≡ spec.has_name fields.now name.now }
{
    fields
        .iter()
        .any(|field| name.as_bytes() == field.name.as_str().as_bytes())
}

fn copy_of(alloc: Global, name: &Name) -> Result<Name, AllocError>
    ensures { IfOk result (λ copy. copy ≡ name.now) }
{
    Ok(Name::new(String::from_str(alloc, name.as_str())?))
}

/// Both ends that are given to a field; `None` where one is given twice or is no value.
fn both_ends(
    alloc: Global,
    ends: &[End<'_>],
    field: &Field,
) -> Result<Option<(Option<Scalar>, Option<Scalar>)>, AllocError>
    ensures { IfOk result (λ found. found ≡ spec.both_ends (map as_written ends.now) field.now) }
{
    let Some(low) = end_of(alloc, ends, field, true)? else {
        return Ok(None);
    };
    let Some(high) = end_of(alloc, ends, field, false)? else {
        return Ok(None);
    };
    Ok(Some((low, high)))
}

/// The end of one kind that is given to a field, if there is one; `None` where there are two, or it is no value.
fn end_of(
    alloc: Global,
    ends: &[End<'_>],
    field: &Field,
    is_low: bool,
) -> Result<Option<Option<Scalar>>, AllocError>
    ensures { IfOk result (λ found. found ≡ spec.end_of field.now.data_type (spec.values_for
        field.now.name is_low (map as_written ends.now))) }
{
    match value_given(ends, field.name.as_str(), is_low) {
        None => Ok(None),
        Some(text) => end_value(alloc, &field.data_type, text),
    }
}

/// The text that is given as this end to this name, if there is one; `None` where there are two.
fn value_given<'a>(ends: &[End<'a>], name: &str, is_low: bool) -> Option<Option<&'a str>>
    ensures { option_map option_copied result ≡ spec.at_most_one (spec.values_for name.now is_low (map
        as_written ends.now)) }
{
    let mut found = None;
    for end in ends {
        if let Some(value) = value_for(end, name, is_low) {
            if found.is_some() {
                return None;
            }
            found = Some(value);
        }
    }
    Some(found)
}

/// The text of an end, if it is this end of this name.
fn value_for<'a>(end: &End<'a>, name: &str, is_low: bool) -> Option<&'a str>
    ensures { option_copied result ≡ spec.value_for name.now is_low (as_written end.now) }
{
    if name.as_bytes() == end.name.as_bytes() && end.is_low == is_low {
        Some(end.value)
    } else {
        None
    }
}

/// The value of a type that a text spells, where there is a text.
fn end_value(
    alloc: Global,
    data_type: &DataType,
    text: Option<&str>,
) -> Result<Option<Option<Scalar>>, AllocError>
    ensures { IfOk result (λ found. found ≡ spec.end_value data_type.now (option_copied text.entry)) }
{
    let Some(text) = text else {
        return Ok(Some(None));
    };
    match value(alloc, data_type, text)? {
        None => Ok(None),
        Some(cell) => match scalar_of(cell) {
            None => Ok(None),
            Some(scalar) => Ok(Some(Some(scalar))),
        },
    }
}

/// The value of a cell that bounds may speak of.
fn scalar_of(cell: Cell) -> Option<Scalar>
    ensures { result ≡ value_of cell }
{
    match cell {
        Cell::Int(number) => Some(Scalar::Int(number)),
        Cell::Text(text) => Some(Scalar::Text(text)),
        Cell::Bytes(bytes) => Some(Scalar::Bytes(bytes)),
        _ => None,
    }
}
