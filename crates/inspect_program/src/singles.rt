//! Columns whose path begins as that of no other column does.
ghost use Rattle.std.specs.Prelude.{◌≡◌, List, option_copied, IfOk};
ghost use Rattle.parquet_meta.specs.declared.metadata.ColumnDescriptor.{ColumnDescriptor as Descriptor};
ghost use Rattle.inspect_program.specs.Guess.{are_single as are_single_by, first_name as first_name_by};
ghost use Rattle.inspect_program.specs.Guess.{is_single as is_single_by};
ghost use Rattle.inspect_program.specs.Singles.{IsCountOf};

use parquet_meta::ColumnDescriptor;
use std::alloc::{AllocError, Global};
use std::collections::BTreeMap;

/// Of each column whether no other column's path begins with the name that its own begins with.
pub(crate) fn are_single(
    alloc: Global,
    columns: &[ColumnDescriptor],
) -> Result<Vec<bool>, AllocError>
    ensures { IfOk result (λ singles. singles.items ≡ are_single_by columns.now) }
{
    let counts = counts_of(alloc, columns)?;
    let mut singles = Vec::with_capacity(alloc, columns.len())?;
    for column in columns {
        singles.push(is_single(&counts, column))?;
    }
    Ok(singles)
}

/// How many columns have a path that begins with each name.
fn counts_of<'a>(
    alloc: Global,
    columns: &'a [ColumnDescriptor],
) -> Result<BTreeMap<&'a str, usize>, AllocError>
    ensures { IfOk result (λ counts. IsCountOf columns.now counts) }
{
    let mut counts = BTreeMap::new(alloc);
    for column in columns {
        if let Some(name) = first_name(column) {
            let count = counts.get(name).copied().unwrap_or(0);
            counts.insert(name, count + 1)?;
        }
    }
    Ok(counts)
}

fn is_single(counts: &BTreeMap<&str, usize>, column: &ColumnDescriptor) -> bool
    ensures { (columns : List Descriptor) → IsCountOf columns counts.now →
        result ≡ is_single_by columns column.now }
{
    match first_name(column) {
        Some(name) => counts.get(name).copied() == Some(1),
        None => false,
    }
}

/// The name that the path of a column begins with.
fn first_name(column: &ColumnDescriptor) -> Option<&str>
    ensures { option_copied result ≡ first_name_by column.now.path_in_schema }
{
    match column.path_in_schema.as_slice().first() {
        Some(name) => Some(name.as_str()),
        None => None,
    }
}
