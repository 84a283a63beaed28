//! The sample file, and its cells.
#![tactic(auto)]

mod body;
mod cell;
mod chunk;
mod column;
mod ends;
mod file;
mod group;
mod levels;
mod number_ends;
mod page_body;
mod schema;

pub use cell::sample_cell;
pub use file::sample_file;
