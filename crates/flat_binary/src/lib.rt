//! Columns as arrays, one at a time or all at once, by the pair of a stored type and the type that is asked for.
#![tactic(auto)]

mod array_iter;
mod begin;
pub mod binary;
mod collect;
mod column;
mod delta;
mod entry_reader;
mod entry_rule;
pub mod fixed_size_binary;
mod key_iter;
mod keys;
pub mod laws;
mod number_iter;
mod numbers;
mod page_iter;
pub mod primitive;
mod readers;
mod string_iter;
mod strings;

pub use array_iter::ArrayIter;
pub use collect::collect_arrays;
pub use column::collect_column;
pub use dictionary_values::dictionary;
pub use entry_reader::EntryReader;
pub use entry_rule::{EntryRule, Int32Entry, Int64Entry};
pub use flat_values::{ColumnArrays, boolean, carries, null};
pub use key_iter::KeysIter;
pub use number_iter::{Int32Iter, Int64Iter};
pub use page_iter::page_iter_to_arrays;
pub use string_iter::{BytesIter, FixedIter};
