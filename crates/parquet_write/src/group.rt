//! What the footer says of groups and their chunks.

ghost use Rattle.std.specs.Prelude.{◌≡◌, ◌<◌, ◌^◌, length, sum_by, All, IfOk, OnOk};
ghost use Rattle.compact_write.specs.Calls.{Writes};
ghost use Rattle.compact_write.specs.Fields.{values_of};
ghost use Rattle.compact_write.specs.Written.{elements_bytes, value_count};
ghost use Rattle.parquet_plain.specs.Structs.{encodings_of};
ghost use Rattle.parquet_thrift.specs.Values.{binary};
ghost use Rattle.parquet_write.specs.Told.{HasTellableValues, IsTellableChunk, IsTellableGroup};
ghost use Rattle.parquet_write.specs.Told.{chunk_told_bytes, chunks_told_bytes, group_told_bytes, meta_data_bytes, statistics_bytes};

use crate::facts::{Bases, ChunkFacts, GroupFacts};
use crate::measure::{sum, write_measure, write_size};
use crate::schema::code_of;
use columns_core::Name;
use compact_write::{
    write_binary, write_count_field, write_end, write_field_header, write_list_start, write_signed,
    write_struct_start,
};
use parquet_meta::{ColumnDescriptor, Repetition};
use parquet_plain::Ends;
use parquet_thrift::{BINARY, I32, STRUCT};
use std::alloc::AllocError;

/// 0 of the values; a column that may have nulls has levels by 3.
fn write_encodings(out: &mut Vec<u8>, repetition: Repetition) -> Result<(), AllocError>
    ensures written { Writes (elements_bytes (encodings_of repetition)) out.old result out.new }
{
    match repetition {
        Repetition::Required => {
            write_signed(out, 0)?;
            Ok(())
        }
        _ => {
            write_signed(out, 0)?;
            write_signed(out, 3)?;
            Ok(())
        }
    }
}

fn encoding_count(repetition: Repetition) -> usize
    ensures { result ≡ value_count (encodings_of repetition) }
{
    match repetition {
        Repetition::Required => 1,
        _ => 2,
    }
}

fn write_path(out: &mut Vec<u8>, path: &[Name]) -> Result<(), AllocError>
    ensures written { Writes (elements_bytes (values_of binary path.now)) out.old result out.new }
{
    for name in path {
        write_binary(out, name.as_str().as_bytes())?;
    }
    Ok(())
}

/// The count of nulls, and the ends where an item is present.
fn write_statistics(out: &mut Vec<u8>, nulls: u64, ends: &Option<Ends>) -> Result<(), AllocError>
    ensures written { Writes (statistics_bytes nulls ends.now) out.old result out.new }
    ensures few { OnOk result (nulls < 2 ^ 63) }
{
    write_measure(out, 0, 3, nulls)?;
    match ends {
        None => {
            write_end(out)?;
            Ok(())
        }
        Some(ends) => {
            write_field_header(out, 3, 5, BINARY)?;
            write_binary(out, ends.greatest.as_slice())?;
            write_field_header(out, 5, 6, BINARY)?;
            write_binary(out, ends.least.as_slice())?;
            write_end(out)?;
            Ok(())
        }
    }
}

fn write_meta_data(
    out: &mut Vec<u8>,
    column: &ColumnDescriptor,
    bases: Bases,
    chunk: &ChunkFacts,
) -> Result<(), AllocError>
    ensures written { Writes (meta_data_bytes column.now bases chunk.now) out.old result out.new }
    ensures few { OnOk result (HasTellableValues chunk.now) }
{
    let type_ = column.primitive_type;
    let path = column.path_in_schema.as_slice();
    write_count_field(out, 0, 1, code_of(type_.physical_type))?;
    write_list_start(out, 1, 2, I32, encoding_count(type_.repetition))?;
    write_encodings(out, type_.repetition)?;
    write_list_start(out, 2, 3, BINARY, path.len())?;
    write_path(out, path)?;
    write_count_field(out, 3, 4, 0)?;
    write_measure(out, 4, 5, chunk.rows)?;
    write_measure(out, 5, 6, chunk.size)?;
    write_measure(out, 6, 7, chunk.size)?;
    write_measure(out, 7, 9, chunk.start)?;
    write_struct_start(out, 9, 12)?;
    write_statistics(out, chunk.nulls, &chunk.ends)?;
    write_end(out)?;
    Ok(())
}

fn write_chunk(
    out: &mut Vec<u8>,
    column: &ColumnDescriptor,
    bases: Bases,
    chunk: &ChunkFacts,
) -> Result<(), AllocError>
    ensures written { Writes (chunk_told_bytes column.now bases chunk.now) out.old result out.new }
    ensures few { OnOk result (IsTellableChunk bases chunk.now) }
{
    write_measure(out, 0, 2, chunk.start)?;
    write_struct_start(out, 2, 3)?;
    write_meta_data(out, column, bases, chunk)?;
    write_measure(out, 3, 4, sum(bases.locations, chunk.locations)?)?;
    write_size(out, 4, 5, chunk.locations_size)?;
    write_measure(out, 5, 6, sum(bases.indexes, chunk.index)?)?;
    write_size(out, 6, 7, chunk.index_size)?;
    write_end(out)?;
    Ok(())
}

/// The chunks of a group, one for each column.
fn write_chunks(
    out: &mut Vec<u8>,
    columns: &[ColumnDescriptor],
    bases: Bases,
    chunks: &[ChunkFacts],
) -> Result<(), AllocError>
    requires even { length chunks.now ≡ length columns.now }
    ensures written { Writes (chunks_told_bytes columns.now bases chunks.now) out.old result out.new }
    ensures few { OnOk result (All (IsTellableChunk bases) chunks.now) }
{
    for i in 0..chunks.len() {
        write_chunk(out, &columns[i], bases, &chunks[i])?;
    }
    Ok(())
}

/// The bytes of all chunks.
fn size_of(chunks: &[ChunkFacts]) -> Result<u64, AllocError>
    ensures { IfOk result (λ size. size ≡ sum_by (λ chunk. chunk.size) chunks.now) }
{
    let mut size = 0;
    for chunk in chunks {
        size = sum(size, chunk.size)?;
    }
    Ok(size)
}

pub(crate) fn write_group(
    out: &mut Vec<u8>,
    columns: &[ColumnDescriptor],
    bases: Bases,
    group: &GroupFacts,
) -> Result<(), AllocError>
    requires even { length group.now.chunks ≡ length columns.now }
    ensures written { Writes (group_told_bytes columns.now bases group.now) out.old result out.new }
    ensures few { OnOk result (IsTellableGroup bases group.now) }
{
    let chunks = group.chunks.as_slice();
    write_list_start(out, 0, 1, STRUCT, chunks.len())?;
    write_chunks(out, columns, bases, chunks)?;
    write_measure(out, 1, 2, size_of(chunks)?)?;
    write_measure(out, 2, 3, group.rows)?;
    write_end(out)?;
    Ok(())
}
