//! Builders of columns of any flat type, cell by cell.
#![tactic(auto)]

mod building;
mod byte_strings;
mod fixed_bytes;
mod flat_mutable;
mod from_cell;
mod marked;

pub use flat_mutable::FlatMutable;
