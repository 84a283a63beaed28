//! Which types of fields have statistics.
ghost use Rattle.std.specs.Prelude.{◌≡◌, ◌&&◌, min, sum_by};
ghost use Rattle.std.specs.List.{list_all};
ghost use Rattle.flat_builders.specs.Flat.{flatness};
ghost use Rattle.parquet_statistics.specs.BuiltTypes.{is_flat_shape};
ghost use Rattle.parquet_statistics.specs.LeafTypes as spec;

use columns_core::{DataType, Field};

/// Whether a type has statistics, of which the columns have these types: each dictionary has one column, and there is a builder of each column's values.
pub(crate) fn are_carried(data_type: &DataType, types: &[&DataType]) -> bool
    ensures { result ≡ (spec.has_single_dictionaries data_type.now
        && list_all (λ t. is_flat_shape (flatness t.now)) types.now) }
{
    has_single_dictionaries(data_type) && are_flat(types)
}

fn are_flat(types: &[&DataType]) -> bool
    ensures { result ≡ list_all (λ t. is_flat_shape (flatness t.now)) types.now }
{
    types.iter().all(|data_type| is_flat(data_type))
}

fn is_flat(data_type: &DataType) -> bool
    ensures { result ≡ is_flat_shape (flatness data_type.now) }
{
    match data_type {
        DataType::FixedSizeBinary(size) => *size != 0,
        DataType::Dictionary(_, _, _)
        | DataType::List(_)
        | DataType::LargeList(_)
        | DataType::Struct(_)
        | DataType::Map(_, _) => false,
        _ => true,
    }
}

/// Whether each dictionary in a type has one column.
#[cycle(has_single_dictionaries)]
fn has_single_dictionaries(data_type: &DataType) -> bool
    ensures { result ≡ spec.has_single_dictionaries data_type.now }
{
    match data_type {
        DataType::Dictionary(_, value, _) => has_single_dictionaries(value.get())
            && few_columns(value.get()) == 1,
        DataType::List(field) => has_single_dictionaries(&field.get().data_type),
        DataType::LargeList(field) => has_single_dictionaries(&field.get().data_type),
        DataType::Map(field, _) => has_single_dictionaries(&field.get().data_type),
        DataType::Struct(fields) => have_single_dictionaries(fields.as_slice()),
        _ => true,
    }
}

#[cycle(has_single_dictionaries)]
fn have_single_dictionaries(fields: &[Field]) -> bool
    ensures { result ≡ list_all (λ field. spec.has_single_dictionaries field.data_type) fields.now }
{
    for field in fields {
        if !has_single_dictionaries(&field.data_type) {
            return false;
        }
    }
    true
}

/// How many columns a type has, counted up to two.
#[cycle(few_columns)]
fn few_columns(data_type: &DataType) -> usize
    ensures { result ≡ min 2 (spec.columned data_type.now).leaf_count }
{
    match data_type {
        DataType::Dictionary(_, value, _) => few_columns(value.get()),
        DataType::List(field) => few_columns(&field.get().data_type),
        DataType::LargeList(field) => few_columns(&field.get().data_type),
        DataType::Map(field, _) => few_columns(&field.get().data_type),
        DataType::Struct(fields) => few_columns_of_fields(fields.as_slice()),
        _ => 1,
    }
}

#[cycle(few_columns)]
fn few_columns_of_fields(fields: &[Field]) -> usize
    ensures { result ≡ min 2 (sum_by (λ field. (spec.columned field.data_type).leaf_count) fields.now) }
{
    let mut count = 0;
    for field in fields {
        count = (count + few_columns(&field.data_type)).min(2);
    }
    count
}
