//! Reads the Thrift compact protocol.
#![tactic(auto)]

mod compact;
mod header;
pub mod laws;
mod number;
mod skip;

pub use compact::Compact;
pub use header::{FieldHeader, ListHeader};
pub use parquet_base::Unspelled;

/// The kind of a field that is true.
pub const TRUE: u8 = 1;

/// The kind of a field that is false. In a list either kind stands for truth values.
pub const FALSE: u8 = 2;

/// The kind of a number in one byte.
pub const BYTE: u8 = 3;

/// The kind of a number of 16 bits.
pub const I16: u8 = 4;

/// The kind of a number of 32 bits.
pub const I32: u8 = 5;

/// The kind of a number of 64 bits.
pub const I64: u8 = 6;

/// The kind of a floating point number in 8 bytes.
pub const DOUBLE: u8 = 7;

/// The kind of bytes and texts.
pub const BINARY: u8 = 8;

/// The kind of a list.
pub const LIST: u8 = 9;

/// The kind of a set, which has the form of a list.
pub const SET: u8 = 10;

/// The kind of a map.
pub const MAP: u8 = 11;

/// The kind of a struct.
pub const STRUCT: u8 = 12;
