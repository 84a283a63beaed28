//! How many slots the arrays of statistics have over some groups.
ghost use Rattle.std.specs.Prelude.{◌≡◌, map};
ghost use Rattle.std.specs.List.{list_all};
ghost use Rattle.parquet_statistics.specs.Deserialized as spec;
ghost use Rattle.parquet_statistics.specs.LeafTypes.{has_column};
ghost use Rattle.parquet_statistics.specs.Parts.{type_of_arrays};

use crate::has_column;
use columns_core::{DataType, Field};
use parquet_meta::RowGroupMetaData;

/// The arrays of ends have the type of the field, those of counts the type of its counts.
#[derive(Clone, Copy)]
pub(crate) enum Arrays {
    Ends,
    Counts,
}

/// Whether each group has a column of a field, and each array comes to a number of slots.
pub(crate) fn fit_groups(field: &Field, row_groups: &[RowGroupMetaData]) -> bool
    ensures { result ≡ spec.fits_groups field.now row_groups.now }
{
    have_column(field, row_groups) && has_slots(&field.data_type, row_groups.len())
}

fn have_column(field: &Field, row_groups: &[RowGroupMetaData]) -> bool
    ensures { result ≡ list_all (λ group. has_column group.columns field.now) row_groups.now }
{
    row_groups
        .iter()
        .all(|group| has_column(group.columns.as_slice(), field))
}

fn has_slots(data_type: &DataType, groups: usize) -> bool
    ensures { result ≡ spec.has_slots groups data_type.now }
{
    slot_count(data_type, groups, Arrays::Ends).is_some()
        && slot_count(data_type, groups, Arrays::Counts).is_some()
}

/// The number of slots of such an array over so many groups.
#[cycle(slot_count)]
fn slot_count(data_type: &DataType, groups: usize, arrays: Arrays) -> Option<usize>
    ensures { result ≡ spec.slot_count groups (type_of_arrays arrays data_type.now) }
{
    match data_type {
        DataType::Dictionary(_, value, _) => match arrays {
            Arrays::Ends => slot_count(value.get(), groups, arrays),
            Arrays::Counts => Some(groups),
        },
        DataType::List(field) => slot_count(&field.get().data_type, groups, arrays),
        DataType::LargeList(field) => slot_count(&field.get().data_type, groups, arrays),
        DataType::Map(field, _) => {
            slot_count(&field.get().data_type, groups, arrays)?;
            Some(1)
        }
        DataType::Struct(fields) => agreed_count(fields.as_slice(), groups, arrays),
        _ => Some(groups),
    }
}

/// The number to which each of the fields comes, of which there is one.
#[cycle(slot_count)]
fn agreed_count(fields: &[Field], groups: usize, arrays: Arrays) -> Option<usize>
    ensures { result ≡ spec.agreed
        (map (λ field. spec.slot_count groups (type_of_arrays arrays field.data_type)) fields.now) }
{
    let (first, others) = fields.split_first()?;
    let count = slot_count(&first.data_type, groups, arrays)?;
    for field in others {
        if slot_count(&field.data_type, groups, arrays) != Some(count) {
            return None;
        }
    }
    Some(count)
}
