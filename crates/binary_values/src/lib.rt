//! Texts and byte strings of columns, read into arrays.
#![tactic(auto)]

pub mod binary;
mod binary_decoder;
mod byte_place;
mod byte_values;
mod into_array;
mod named;
mod short_rows;
mod short_strings;
mod string_rows;
mod string_walk;
mod strings;
mod word_rows;

pub use byte_place::BytePlace;
pub use byte_values::{ByteValues, DecodedBytes};
pub use into_array::{ByteColumn, is_text_type};
pub use string_walk::{StringWalk, TakeStrings};
pub use strings::Strings;
