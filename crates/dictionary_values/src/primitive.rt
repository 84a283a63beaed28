//! Columns of numbers that are read as dictionaries.
use crate::Entries;
use flat_values::NumberValues;

/// Arrays of keys of numbers.
pub type DictIter<K, T, I, P, C> = crate::DictIter<K, Entries<NumberValues<P, T, C>>, I>;
