//! Puts chunks of arrays into a plain Parquet file.
#![tactic(auto)]

mod column;
mod fields;
mod file;
mod group;
mod lines;
mod numbers;
mod program;
mod request;
mod strings;
mod truths;
mod typed;

pub use file::put_file;
pub use program::run_put;
