//! Columns and cells, as tables spell them.
use columns_core::{Cell, DataType, Field, Name, Schema, Seq};
use pq_common::{data_type, value};
use std::alloc::{AllocError, Global};
use std::test::Fail;

/// A column: its name, its type and perhaps a blank and a zone, and whether it may have nulls.
pub(crate) type Column<'a> = (&'a str, &'a str, bool);

pub(crate) fn name_of(alloc: Global, text: &str) -> Result<Name, AllocError> {
    Ok(Name::new(String::from_str(alloc, text)?))
}

fn with_zone(alloc: Global, found: DataType, zone: &str) -> Result<DataType, AllocError> {
    match found {
        DataType::Timestamp(unit, _) => {
            Ok(DataType::Timestamp(unit, Some(name_of(alloc, zone)?)))
        }
        other => Ok(other),
    }
}

/// A type that words spell, a timestamp perhaps with a zone.
pub(crate) fn type_of(alloc: Global, text: &str) -> Result<DataType, Fail> {
    let (spelled, zone) = text.split_once(' ').unwrap_or((text, ""));
    match data_type(alloc, spelled)? {
        None => Err(Fail::new(format_args!("{text} is no type"))),
        Some(found) if zone.is_empty() => Ok(found),
        Some(found) => Ok(with_zone(alloc, found, zone)?),
    }
}

pub(crate) fn schema_of(alloc: Global, columns: &[Column<'_>]) -> Result<Schema, Fail> {
    let mut fields = Vec::new(alloc);
    for (name, type_text, is_nullable) in columns {
        fields.push(Field {
            name: name_of(alloc, name)?,
            data_type: type_of(alloc, type_text)?,
            is_nullable: *is_nullable,
        })?;
    }
    Ok(Schema {
        fields: Seq::new(fields),
    })
}

fn known_cell(text: &str) -> Option<Cell> {
    match text {
        "null" => Some(Cell::Null),
        "true" => Some(Cell::Bool(true)),
        "false" => Some(Cell::Bool(false)),
        _ => None,
    }
}

/// The cell of a type: a null, a truth value, or what words spell.
pub(crate) fn cell_of(alloc: Global, of: &DataType, text: &str) -> Result<Cell, Fail> {
    if let Some(cell) = known_cell(text) {
        return Ok(cell);
    }
    match value(alloc, of, text)? {
        Some(cell) => Ok(cell),
        None => Err(Fail::new(format_args!("{text} is no cell"))),
    }
}
