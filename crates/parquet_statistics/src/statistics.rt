//! The statistics of a field as arrays.
use columns_core::Array;

/// What row groups tell of a field, in turn: how many nulls and how many distinct values it has, and a low and a high end of its values. What is not told is
/// null. The ends have its type; the counts keep its lists, structs and maps, with numbers of 64 bits in place of all else.
#[derive(Drop, PartialEq)]
pub struct Statistics {
    pub null_count: Array,
    pub distinct_count: Array,
    pub min_value: Array,
    pub max_value: Array,
}
