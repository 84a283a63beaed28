//! Columns of byte strings of one size that are read as dictionaries.
use crate::Entries;
use flat_values::FixedValues;

/// Arrays of keys of byte strings of one size.
pub type DictIter<K, I> = crate::DictIter<K, Entries<FixedValues>, I>;
