//! Columns of numbers: iterators, the decoder of their pages, and places in them.
pub use dictionary_values::primitive::DictIter;
pub use flat_values::primitive::{
    FilteredRequiredValues, IntDecoder, IntegerIter, Iter, PrimitiveDecoder, State, Values,
    ValuesDictionary,
};
