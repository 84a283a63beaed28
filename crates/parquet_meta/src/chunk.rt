//! What row groups and their chunks say of themselves.

use crate::metadata::{ColumnChunkMetaData, ColumnDescriptor, RawStatistics, RowGroupMetaData};
use crate::typed_statistics::{is_carried, known_counts, typed_statistics};
use columns_core::{Error, Part};
use std::alloc::Global;

/// The most values for each byte of a chunk.
const MOST_VALUES: u64 = 2_147_483_647;

impl ColumnChunkMetaData {
    ghost use Rattle.std.specs.Prelude.{◌≡◌};
    ghost use Rattle.parquet_meta.specs.Chunks.{chunk_start};
    ghost use Rattle.parquet_meta.specs.TypedStatistics.{GivesCounts, GivesStatistics};

    /// The column's place in the schema, and its type.
    pub fn descriptor(&self) -> &ColumnDescriptor
        ensures { result.now ≡ self.now.descriptor }
    {
        &self.descriptor
    }

    /// Nulls are counted too.
    pub fn num_values(&self) -> u64
        ensures { result ≡ self.now.num_values }
    {
        self.num_values
    }

    /// Where the chunk starts in the file, and how many bytes it has.
    pub fn byte_range(&self) -> (u64, u64)
        ensures { result ≡ (chunk_start self.now, self.now.total_compressed_size) }
    {
        let start = match self.dictionary_page_offset {
            Some(offset) if 0 < offset && offset < self.data_page_offset => offset,
            _ => self.data_page_offset,
        };
        (start, self.total_compressed_size)
    }

    /// The counts of nulls and of distinct values that the statistics tell, each None where it is not told. They
    /// speak of no end, so a column of any type has them. Takes no memory; `ExternalFormat` where a count is negative.
    pub fn counts(&self) -> Result<(Option<u64>, Option<u64>), Error>
        ensures { GivesCounts self.now.statistics_bytes result }
    {
        let Some(stored) = &self.statistics_bytes else {
            return Ok((None, None));
        };
        match known_counts(stored) {
            Ok(counts) => Ok(counts),
            Err(fault) => Err(fault.at(Part::Statistics)),
        }
    }

    /// The statistics in the type of the column, or None where there are none.
    pub fn statistics(&self, alloc: Global) -> Result<Option<RawStatistics>, Error>
        ensures { GivesStatistics self.now.descriptor.primitive_type.physical_type self.now.statistics_bytes
            result }
    {
        let physical_type = self.descriptor.primitive_type.physical_type;
        if !is_carried(physical_type) {
            return Err(Error::NotYetImplemented(Part::Statistics));
        }
        let Some(stored) = &self.statistics_bytes else {
            return Ok(None);
        };
        match typed_statistics(alloc, physical_type, stored) {
            Ok(typed) => Ok(Some(typed)),
            Err(fault) => Err(fault.at(Part::Statistics)),
        }
    }
}

impl RowGroupMetaData {
    ghost use Rattle.std.specs.Prelude.{◌≡◌};
    ghost use Rattle.parquet_meta.specs.Chunks as spec;

    /// The chunks, one for each leaf of the schema.
    pub fn columns(&self) -> &[ColumnChunkMetaData]
        ensures { result.now ≡ self.now.columns }
    {
        self.columns.as_slice()
    }

    pub fn num_rows(&self) -> usize
        ensures { result ≡ self.now.num_rows }
    {
        self.num_rows
    }

    /// Whether a chunk has a value for each row, and no more values than its bytes can stand for.
    pub fn has_each_value(&self, column: &ColumnChunkMetaData) -> bool
        ensures { result ≡ spec.has_each_value self.now.num_rows column.now }
    {
        column.num_values == self.num_rows as u64
            && column.num_values as u128
                <= MOST_VALUES as u128 * column.total_compressed_size as u128
    }
}
