//! The lines of columns.
ghost use Rattle.std.specs.Prelude.{◌≡◌, ◌++◌, codes, flat_map, if◌then◌else◌, IfOk, None};
ghost use Rattle.std.specs.List.{join_by};
ghost use Rattle.pq_common.specs.Texts.{AddsText};
ghost use Rattle.inspect_program.specs.Columns.{column_end, columns_text};
ghost use Rattle.inspect_program.specs.Guess.{are_single, guessed_type as guessed_by};

use crate::guess::guessed_type;
use columns_core::Name;
use parquet_meta::ColumnDescriptor;
use pq_common::Text;
use std::alloc::{AllocError, Global};

/// Adds a line for each column, of which these begin as no other does.
pub(crate) fn push_columns(
    alloc: Global,
    text: &mut Text,
    columns: &[ColumnDescriptor],
    singles: &[bool],
) -> Result<(), AllocError>
    requires { singles.now ≡ are_single columns.now }
    ensures { AddsText (columns_text columns.now) text.old result text.new }
{
    let mut path = Vec::new(alloc);
    for i in 0..columns.len() {
        text.push_labelled(b"column ", i)?;
        path.clear();
        join_names(&mut path, columns[i].path_in_schema.as_slice())?;
        push_column(text, &path, &columns[i], singles[i])?;
    }
    Ok(())
}

/// Adds names to a path, with a dot between each two.
fn join_names(path: &mut Vec<u8>, names: &[Name]) -> Result<(), AllocError>
    ensures { let joined = join_by (λ name. name) (codes ".") names.now in
        IfOk result (λ _. path.new.items ≡ path.old.items ++ joined) }
{
    match names.split_first() {
        None => Ok(()),
        Some((first, others)) => {
            path.extend_from_slice(first.as_str().as_bytes())?;
            join_others(path, others)
        }
    }
}

/// Adds names to a path, each behind a dot.
fn join_others(path: &mut Vec<u8>, names: &[Name]) -> Result<(), AllocError>
    ensures { let joined = flat_map (λ name. codes "." ++ name) names.now in
        IfOk result (λ _. path.new.items ≡ path.old.items ++ joined) }
{
    for name in names {
        path.push(b'.')?;
        path.extend_from_slice(name.as_str().as_bytes())?;
    }
    Ok(())
}

/// Adds the path of a column, and its guess or a dash.
fn push_column(
    text: &mut Text,
    path: &[u8],
    column: &ColumnDescriptor,
    is_single: bool,
) -> Result<(), AllocError>
    ensures { let guess = if is_single then guessed_by column.now else None in
        AddsText (column_end path.now guess) text.old result text.new }
{
    text.push(b" ")?;
    text.push_quoted(path)?;
    text.push(b" ")?;
    match guessed_type(column) {
        Some(data_type) if is_single => text.push_type(&data_type)?,
        _ => text.push(b"-")?,
    }
    text.push(b"\n")
}
