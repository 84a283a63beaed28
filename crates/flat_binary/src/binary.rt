//! Columns of byte strings: iterators, the decoder of their pages, and places in them.
pub use crate::delta::{Delta, FilteredDelta};
use binary_values::BytePlace;
pub use binary_values::binary::{BinaryDecoder, FilteredRequired, Iter, Required};
pub use dictionary_values::binary::DictIter;
use flat_values::{FlatState, KeyPlace};

/// A place in a page of byte strings, whatever their encoding is.
pub type State = FlatState<BytePlace>;

/// A place in a page of keys.
pub type ValuesDictionary = FlatState<KeyPlace>;

/// A place in a page of keys without nulls.
pub type RequiredDictionary = ValuesDictionary;

/// A place among the selected rows of a page of keys without nulls.
pub type FilteredRequiredDictionary = ValuesDictionary;
