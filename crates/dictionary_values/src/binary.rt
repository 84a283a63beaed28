//! Columns of texts and of byte strings that are read as dictionaries.
use crate::Entries;
use binary_values::ByteValues;

/// Arrays of keys of texts or of byte strings, whose places are told by an offset type.
pub type DictIter<K, O, I> = crate::DictIter<K, Entries<ByteValues<O>>, I>;
