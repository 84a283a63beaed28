//! What the indexes of a file tell of pages: which rows they hold, which of them hold rows that are wanted, and which values they have.
#![tactic(auto)]

pub mod binary;
pub mod boolean;
mod columns_indexes;
mod copied;
mod counts;
mod field_types;
mod fields;
mod filtered_pages;
pub mod fixed_len_binary;
mod locations;
mod numbers;
mod page_arrays;
mod page_maps;
mod page_statistics;
mod row_intervals;
mod told;

pub use columns_indexes::read_columns_indexes;
pub use filtered_pages::read_filtered_pages;
pub use numbers::{deserialize_i32, deserialize_i64, deserialize_i96};
pub use page_maps::{has_indexes, pages_of};
pub use page_statistics::{ColumnPageStatistics, FieldPageStatistics};
pub use row_intervals::compute_page_row_intervals;
