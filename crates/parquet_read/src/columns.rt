//! The bytes of a field's columns.
ghost use Rattle.std.specs.Prelude.{◌≡◌, ◌⊎◌, ◌≤◌, ◌+◌, Some, true, false, map, IfOk, OnOk};
ghost use Rattle.std.specs.List.{list_all};
ghost use Rattle.std.specs.Result.{IsErrAnd};
ghost use Rattle.columns_core.specs.Causes.{IsWantOfMemory, NotYetImplemented, cause_of};
ghost use Rattle.parquet_meta.specs.Indexes.{field_columns};
ghost use Rattle.parquet_meta.specs.Keeps.{Keeps};
ghost use Rattle.parquet_meta.specs.Lists.{all_of};
ghost use Rattle.parquet_meta.specs.Source.{Finds};
ghost use Rattle.parquet_read.specs.Columns as spec;

use columns_core::{Error, Part};
use parquet_meta::{ColumnChunkMetaData, Place, Source, get_field_columns, read_range};
use std::alloc::Global;

/// The columns of a field, each with the bytes of its chunk, in their order.
///
/// `NotYetImplemented` where one of them stands in another file or is encrypted, before anything is read;
/// `ExternalFormat` where one does not lie in the file; `Io` where a read failed.
pub fn read_columns<'a, S: Source>(
    alloc: Global,
    source: &mut S,
    columns: &'a [ColumnChunkMetaData],
    field_name: &str,
) -> Result<Vec<(&'a ColumnChunkMetaData, Vec<u8>)>, Error>
    ensures keeps { Keeps S.Source source.old source.new }
    ensures quiet { OnOk result (S.faults source.new ≡ S.faults source.old) }
    ensures elsewhere { spec.are_here (field_columns field_name.now columns.now) ≡ false
        → (source.new ≡ source.old)
        × IsErrAnd result (λ e. IsWantOfMemory e ⊎ (cause_of e ≡ Some NotYetImplemented)) }
    ensures found { spec.are_here (field_columns field_name.now columns.now) ≡ true
        → Finds (λ chunks. map (λ chunk. (chunk.0.now, chunk.1.items)) chunks.items)
        (spec.chunks_of_field field_name.now columns.now)
        (S.told source.old) (S.faults source.old) (S.faults source.new) result }
    ensures each { IfOk result (λ chunks.
        map (λ chunk. chunk.0.now) chunks.items ≡ field_columns field_name.now columns.now) }
    ensures taken { S.taken source.new ≤ S.taken source.old
        + spec.chunks_length (field_columns field_name.now columns.now) }
{
    let found = get_field_columns(alloc, columns, field_name)?;
    if !are_here(&found) {
        return Err(Error::NotYetImplemented(Part::Column));
    }
    read_each(alloc, source, &found)
}

fn are_here(columns: &[&ColumnChunkMetaData]) -> bool
    ensures { result ≡ list_all (λ column. spec.is_here column.now) columns.now }
{
    columns.iter().all(|column| is_here(column))
}

/// Whether a chunk stands in this file, not encrypted.
pub(crate) fn is_here(column: &ColumnChunkMetaData) -> bool
    ensures { result ≡ spec.is_here column.now }
{
    !column.foreign && !column.encrypted
}

fn read_each<'a, S: Source>(
    alloc: Global,
    source: &mut S,
    columns: &[&'a ColumnChunkMetaData],
) -> Result<Vec<(&'a ColumnChunkMetaData, Vec<u8>)>, Error>
    ensures keeps { Keeps S.Source source.old source.new }
    ensures quiet { OnOk result (S.faults source.new ≡ S.faults source.old) }
    ensures found { let all = map (λ column. column.now) columns.now in
        Finds (λ chunks. map (λ chunk. (chunk.0.now, chunk.1.items)) chunks.items)
        (λ file. all_of (spec.chunk_of_column file) all)
        (S.told source.old) (S.faults source.old) (S.faults source.new) result }
    ensures each { IfOk result (λ chunks.
        map (λ chunk. chunk.0.now) chunks.items ≡ map (λ column. column.now) columns.now) }
    ensures taken { S.taken source.new ≤ S.taken source.old
        + spec.chunks_length (map (λ column. column.now) columns.now) }
{
    let mut chunks = Vec::with_capacity(alloc, columns.len())?;
    for column in columns {
        chunks.push(read_chunk(alloc, source, *column)?)?;
    }
    Ok(chunks)
}

/// A column, with the bytes of its chunk.
fn read_chunk<'a, S: Source>(
    alloc: Global,
    source: &mut S,
    column: &'a ColumnChunkMetaData,
) -> Result<(&'a ColumnChunkMetaData, Vec<u8>), Error>
    ensures keeps { Keeps S.Source source.old source.new }
    ensures quiet { OnOk result (S.faults source.new ≡ S.faults source.old) }
    ensures found { Finds (λ chunk. (chunk.0.now, chunk.1.items)) (λ file.
        spec.chunk_of_column file column.now)
        (S.told source.old) (S.faults source.old) (S.faults source.new) result }
    ensures column { IfOk result (λ chunk. chunk.0.now ≡ column.now) }
    ensures taken { S.taken source.new ≤ S.taken source.old + spec.range_length column.now }
{
    let (offset, length) = column.byte_range();
    let bytes = read_range(alloc, source, Place { offset, length })?;
    Ok((column, bytes))
}
