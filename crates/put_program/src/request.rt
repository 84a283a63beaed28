//! What is asked to be put.

ghost use Rattle.std.specs.Prelude.{◌≡◌, ◌<◌, ◌↔◌, ◌∷◌, All, IsTrue, length};
ghost use Rattle.std.specs.List.{AllZip, list_any};
ghost use Rattle.columns_core.specs.Array.{cells};
ghost use Rattle.put_program.specs.Request.{FitsField, FitsTogether, is_null_cell};
ghost use Rattle.put_program.specs.Request as spec;

use crate::column::is_own;
use columns_core::{Array, Chunk, Field, Lent};

fn has_null(array: &Array) -> bool
    ensures { result ≡ list_any is_null_cell (cells array.now) }
{
    for row in 0..array.len() {
        if matches!(array.lent(row), Lent::Null) {
            return true;
        }
    }
    false
}

/// Whether the array is of the field's type, with nulls only where it may have them.
fn fits_field(field: &Field, array: &Array) -> bool
    ensures { IsTrue result ↔ FitsField field.now array.now }
{
    array.data_type() == &field.data_type
        && is_own(array)
        && (field.is_nullable || !has_null(array))
}

/// Whether there is an array for each field, and each fits.
fn fits_fields(fields: &[Field], arrays: &[Array]) -> bool
    ensures { IsTrue result ↔ AllZip FitsField fields.now arrays.now }
{
    if arrays.len() != fields.len() {
        return false;
    }
    for i in 0..fields.len() {
        if !fits_field(&fields[i], &arrays[i]) {
            return false;
        }
    }
    true
}

fn is_taken(fields: &[Field], name: &str) -> bool
    ensures { result ≡ spec.is_taken name.now fields.now }
{
    fields.iter().any(|field| field.name.as_str() == name)
}

/// Whether no two of the names are equal.
fn have_distinct_names(fields: &[Field]) -> bool
    ensures { result ≡ spec.have_distinct_names fields.now }
{
    let mut rest = fields;
    while let [field, others @ ..] = rest {
        if is_taken(others, field.name.as_str()) {
            return false;
        }
        rest = others;
    }
    true
}

fn fit_fields(fields: &[Field], chunks: &[Chunk]) -> bool
    ensures { IsTrue result ↔ All (AllZip FitsField fields.now) chunks.now }
{
    chunks
        .iter()
        .all(|chunk| fits_fields(fields, chunk.arrays()))
}

/// Whether all that is asked fits together.
pub(crate) fn fits_together(fields: &[Field], chunks: &[Chunk], page_rows: usize) -> bool
    ensures { IsTrue result ↔ FitsTogether fields.now chunks.now page_rows }
{
    !fields.is_empty() && page_rows > 0 && have_distinct_names(fields) && fit_fields(fields, chunks)
}
