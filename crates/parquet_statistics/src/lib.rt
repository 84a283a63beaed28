//! Statistics of fields as arrays, the units of their times and the types of their counts, and builders inside builders.
#![tactic(auto)]

mod as_box;
mod carried_types;
mod column_arrays;
mod counted_key;
mod counts;
mod dictionaries;
mod dyn_mutable;
mod empty_builders;
mod field_arrays;
mod field_columns;
mod field_statistics;
mod lengths;
mod lists;
mod pushed;
mod shapes;
mod slots;
mod statistics;
mod time_units;
mod told;
mod types_inside;

pub use counts::create_dt;
pub use dyn_mutable::{
    DynMutable, DynMutableDictionary, DynMutableListArray, DynMutableMapArray,
    DynMutableStructArray,
};
pub use field_columns::has_column;
pub use field_statistics::deserialize;
pub use flat_builders::FlatMutable;
pub use statistics::Statistics;
pub use time_units::timestamp;
pub use types_inside::leaf_types;
