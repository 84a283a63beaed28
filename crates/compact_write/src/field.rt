//! Fields at the end of bytes.

ghost use Rattle.std.specs.Prelude.{◌<◌, ◌≤◌, ◌+◌, ◌^◌, [], ◌∷◌};
ghost use Rattle.compact_write.specs.Calls.{Writes};
ghost use Rattle.compact_write.specs.Written.{field_header_bytes, i32_kind, i64_kind, most_step, struct_kind};
ghost use Rattle.compact_write.specs.Written.{count_field_bytes, list_start_bytes, number_field_bytes};

use crate::number::{write_signed, write_varint};
use parquet_thrift::{I32, I64, LIST, STRUCT};
use std::alloc::AllocError;

/// The step from the id before, and the kind.
#[tactic(auto, unfolding(crate::specs::Written::field_header_bytes))]
pub fn write_field_header(
    out: &mut Vec<u8>,
    previous: u8,
    id: u8,
    kind: u8,
) -> Result<(), AllocError>
    requires rises { previous < id }
    requires near { id ≤ previous + most_step }
    requires kind { kind ≤ struct_kind }
    ensures written { Writes (field_header_bytes previous id kind) out.old result out.new }
{
    out.push(16 * (id - previous) + kind)?;
    Ok(())
}

pub fn write_i32_field(
    out: &mut Vec<u8>,
    previous: u8,
    id: u8,
    number: i32,
) -> Result<(), AllocError>
    requires rises { previous < id }
    requires near { id ≤ previous + most_step }
    ensures written { Writes (number_field_bytes previous id i32_kind number) out.old result out.new }
{
    write_field_header(out, previous, id, I32)?;
    write_signed(out, i64::from(number))
}

/// A number of 32 bits that is not negative.
pub fn write_count_field(
    out: &mut Vec<u8>,
    previous: u8,
    id: u8,
    number: u32,
) -> Result<(), AllocError>
    requires rises { previous < id }
    requires near { id ≤ previous + most_step }
    requires fits { number < 2 ^ 31 }
    ensures written { Writes (count_field_bytes previous id i32_kind number) out.old result out.new }
{
    write_field_header(out, previous, id, I32)?;
    write_signed(out, i64::from(number))
}

/// A number of 64 bits that is not negative.
#[tactic(auto, unfolding(crate::specs::Written::signed_bytes))]
pub fn write_large_field(
    out: &mut Vec<u8>,
    previous: u8,
    id: u8,
    number: u64,
) -> Result<(), AllocError>
    requires rises { previous < id }
    requires near { id ≤ previous + most_step }
    requires fits { number < 2 ^ 63 }
    ensures written { Writes (count_field_bytes previous id i64_kind number) out.old result out.new }
{
    write_field_header(out, previous, id, I64)?;
    write_varint(out, 2 * number)
}

pub fn write_i64_field(
    out: &mut Vec<u8>,
    previous: u8,
    id: u8,
    number: i64,
) -> Result<(), AllocError>
    requires rises { previous < id }
    requires near { id ≤ previous + most_step }
    ensures written { Writes (number_field_bytes previous id i64_kind number) out.old result out.new }
{
    write_field_header(out, previous, id, I64)?;
    write_signed(out, number)
}

/// What comes behind it are the fields of the struct and its end.
pub fn write_struct_start(out: &mut Vec<u8>, previous: u8, id: u8) -> Result<(), AllocError>
    requires rises { previous < id }
    requires near { id ≤ previous + most_step }
    ensures written { Writes (field_header_bytes previous id struct_kind) out.old result out.new }
{
    write_field_header(out, previous, id, STRUCT)
}

/// What comes behind it are so many elements of a kind.
#[tactic(auto, unfolding(crate::specs::Written::list_header_bytes))]
pub fn write_list_start(
    out: &mut Vec<u8>,
    previous: u8,
    id: u8,
    kind: u8,
    count: usize,
) -> Result<(), AllocError>
    requires rises { previous < id }
    requires near { id ≤ previous + most_step }
    requires kind { kind ≤ struct_kind }
    ensures written { Writes (list_start_bytes previous id kind count) out.old result out.new }
{
    write_field_header(out, previous, id, LIST)?;
    if count < 15 {
        out.push(16 * count as u8 + kind)?;
    } else {
        out.push(240 + kind)?;
        write_varint(out, count as u64)?;
    }
    Ok(())
}

/// The end of a struct.
pub fn write_end(out: &mut Vec<u8>) -> Result<(), AllocError>
    ensures written { Writes (0 ∷ []) out.old result out.new }
{
    out.push(0)?;
    Ok(())
}
