//! The chunk of a column in a row group.
ghost use Rattle.std.specs.Prelude.{◌≡◌, ◌+◌, ◌≤◌, [], Some, IfOk, IfErr, OnOk, IfSome, option_map};
ghost use Rattle.columns_core.specs.Causes.{ComesOf};
ghost use Rattle.parquet_meta.specs.Chunks.{chunk_causes, chunk_range};
ghost use Rattle.parquet_meta.specs.Places.{bytes_at};
ghost use Rattle.parquet_meta.specs.Keeps.{Keeps};
ghost use Rattle.parquet_meta.specs.Source.{IsReadFailure};
ghost use Rattle.parquet_scan.specs.Causes.{chunk_read_causes};
ghost use Rattle.parquet_scan.specs.Cells.{chunk_of};

use columns_core::{Error, Part};
use parquet_meta::{ColumnChunkMetaData, Place, RowGroupMetaData, Source, read_range};
use std::alloc::Global;

/// The bytes of a column's chunk in a group.
pub(crate) fn read_chunk<S: Source>(
    alloc: Global,
    source: &mut S,
    group: &RowGroupMetaData,
    column: &ColumnChunkMetaData,
) -> Result<Vec<u8>, Error>
    ensures keeps { Keeps S.Source source.old source.new }
    ensures quiet { OnOk result (S.faults source.new ≡ S.faults source.old) }
    ensures readable { OnOk result (chunk_causes column.now ≡ []) }
    ensures counted { OnOk result (column.now.num_values ≡ group.now.num_rows) }
    ensures chunk { IfOk result (λ found. IfSome (S.told source.old) (λ bytes.
        option_map (bytes_at bytes) (chunk_of bytes group.now column.now) ≡ Some found.items)) }
    ensures fails { IfErr result (
        IsReadFailure (S.told source.old) (S.faults source.old) (S.faults source.new)
        (λ bytes. chunk_read_causes bytes group.now column.now)) }
    ensures taken { S.taken source.new ≤ S.taken source.old + (chunk_range column.now).length }
{
    check_chunk(column)?;
    if !group.has_each_value(column) {
        return Err(Error::ExternalFormat(Part::Group));
    }
    let (offset, length) = column.byte_range();
    read_range(alloc, source, Place { offset, length })
}

/// Where a column's chunk stands in a group, of which nothing is read.
pub(crate) fn place_of_chunk<S: Source>(
    source: &mut S,
    group: &RowGroupMetaData,
    column: &ColumnChunkMetaData,
) -> Result<Place, Error>
    ensures keeps { Keeps S.Source source.old source.new }
    ensures quiet { OnOk result (S.faults source.new ≡ S.faults source.old) }
    ensures readable { OnOk result (chunk_causes column.now ≡ []) }
    ensures place { IfOk result (λ place.
        IfSome (S.told source.old) (λ bytes. chunk_of bytes group.now column.now ≡ Some place)) }
    ensures fails { IfErr result (
        IsReadFailure (S.told source.old) (S.faults source.old) (S.faults source.new)
        (λ bytes. chunk_read_causes bytes group.now column.now)) }
    ensures taken { S.taken source.new ≡ S.taken source.old }
{
    check_chunk(column)?;
    if !group.has_each_value(column) {
        return Err(Error::ExternalFormat(Part::Group));
    }
    let (offset, length) = column.byte_range();
    let size = source.size().map_err(|_| Error::Io)?;
    if size < offset || size - offset < length {
        return Err(Error::ExternalFormat(Part::Group));
    }
    Ok(Place { offset, length })
}

/// Refuses a chunk that stands in another file, is encrypted or is compressed.
fn check_chunk(column: &ColumnChunkMetaData) -> Result<(), Error>
    ensures ok { OnOk result (chunk_causes column.now ≡ []) }
    ensures cause { ComesOf result (chunk_causes column.now) }
{
    if column.foreign || column.encrypted || column.codec != 0 {
        return Err(Error::NotYetImplemented(Part::Column));
    }
    Ok(())
}
