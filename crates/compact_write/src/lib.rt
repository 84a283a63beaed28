//! Writes the Thrift compact protocol.
#![tactic(auto)]

mod field;
pub mod laws;
mod number;

pub use field::{
    write_count_field, write_end, write_field_header, write_i32_field, write_i64_field,
    write_large_field, write_list_start, write_struct_start,
};
pub use number::{write_binary, write_signed, write_varint};
