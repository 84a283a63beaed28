//! Columns of byte strings of one size: iterators, the decoder of their pages, and the strings.
pub use dictionary_values::fixed_size_binary::DictIter;
pub use flat_values::fixed_size_binary::{BinaryDecoder, FixedSizeBinary, Iter};
