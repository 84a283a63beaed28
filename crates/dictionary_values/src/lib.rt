//! Columns of keys, read into arrays of dictionaries.
#![tactic(auto)]

pub mod binary;
mod dict_chunk;
mod dict_iter;
pub mod dictionary;
mod entries;
pub mod fixed_size_binary;
mod key_array;
mod key_decoder;
mod key_values;
pub mod primitive;
mod read_dict;
mod stored_key;

pub use dict_chunk::next_dict;
pub use dict_iter::DictIter;
pub use entries::{Entries, IntoEntries};
pub use key_decoder::KeyDecoder;
pub use key_values::DecodedKeys;
pub use read_dict::ReadDict;
pub use stored_key::StoredKey;
