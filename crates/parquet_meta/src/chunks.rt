//! The chunks of a row group, in the memory of the columns that they will be.

ghost use Rattle.std.specs.Prelude.{◌≡◌, ◌++◌, ◌∷◌, [], IfErr, IfOk, OnOk, length};
ghost use Rattle.parquet_meta.specs.Unplaced.{chunk_in, chunks_in};
ghost use Rattle.parquet_meta.specs.declared.fault.Fault.TheVariants as faults;

use crate::ColumnPath;
use crate::code::TypeCode;
use crate::fault::Fault;
use crate::footer::{ChunkMetaData, ChunkNumbers, ColumnChunk};
use crate::metadata::{
    ColumnChunkMetaData, ColumnDescriptor, PhysicalType, PrimitiveType, Repetition,
};
use std::alloc::Global;
use std::marker::Model;

/// What an encrypted chunk tells that says nothing of itself.
pub(crate) const NO_NUMBERS: ChunkNumbers = ChunkNumbers {
    codec: 0,
    num_values: 0,
    total_compressed_size: 0,
    data_page_offset: 0,
    dictionary_page_offset: None,
    statistics: None,
};

/// Chunks that are not yet beside their leaves. They stand where their columns will, so that no chunk is moved once it is
/// read. Contracts see what each chunk says.
#[derive(Drop)]
pub(crate) struct Chunks {
    /// The columns that they will be, each with the descriptor of no leaf.
    columns: Vec<ColumnChunkMetaData>,
    /// The type that each tells, if it says anything of itself.
    types: Vec<Option<TypeCode>>,
}

impl Model for Chunks {
    ghost use Rattle.std.specs.Prelude.{◌≡◌, List, length};
    ghost use Rattle.parquet_meta.specs.Unplaced.{Unplaced, chunks_in};

    ghost Value = { List Unplaced };

    ghost view = { λ chunks. chunks_in chunks.columns.items chunks.types.items };

    ghost invariant = { λ chunks. length chunks.types.items ≡ length chunks.columns.items };
}

/// The descriptor of no leaf.
fn no_leaf() -> ColumnDescriptor {
    ColumnDescriptor {
        path_in_schema: ColumnPath::empty(),
        primitive_type: PrimitiveType {
            physical_type: PhysicalType::Boolean,
            logical_type: None,
            repetition: Repetition::Required,
        },
        flat: false,
    }
}

/// The column that a chunk will be, and the type that it tells.
fn without_leaf(chunk: ColumnChunk) -> (ColumnChunkMetaData, Option<TypeCode>)
    ensures { chunk_in result.0 result.1 ≡ chunk }
{
    let ColumnChunk {
        meta_data,
        offset_index,
        column_index,
        column_index_offset,
        foreign,
        encrypted,
    } = chunk;
    let (told, numbers) = match meta_data {
        Some(ChunkMetaData { type_code, numbers }) => (Some(type_code), numbers),
        None => (None, NO_NUMBERS),
    };
    let column = ColumnChunkMetaData {
        descriptor: no_leaf(),
        codec: numbers.codec,
        num_values: numbers.num_values,
        total_compressed_size: numbers.total_compressed_size,
        data_page_offset: numbers.data_page_offset,
        dictionary_page_offset: numbers.dictionary_page_offset,
        statistics_bytes: numbers.statistics,
        offset_index,
        column_index,
        column_index_offset,
        foreign,
        encrypted,
    };
    (column, told)
}

impl Chunks {
    pub(crate) fn with_capacity(alloc: Global, capacity: usize) -> Result<Self, Fault>
        ensures empty { IfOk result (λ chunks. chunks ≡ []) }
        ensures memory { IfErr result (λ e. e ≡ faults.OutOfMemory) }
    {
        let columns = Vec::with_capacity(alloc, capacity)?;
        let types = Vec::with_capacity(alloc, capacity)?;
        Ok(Chunks { columns, types })
    }

    pub(crate) fn push(&mut self, chunk: ColumnChunk) -> Result<(), Fault>
        ensures pushed { OnOk result (self.new ≡ self.old ++ chunk ∷ []) }
        ensures memory { IfErr result (λ e. e ≡ faults.OutOfMemory) }
    {
        self.columns.reserve(1)?;
        self.types.reserve(1)?;
        let (column, told) = without_leaf(chunk);
        self.columns.push_reserved(column);
        self.types.push_reserved(told);
        Ok(())
    }

    /// The columns that the chunks will be, and the types that they tell.
    pub(crate) fn into_parts(self) -> (Vec<ColumnChunkMetaData>, Vec<Option<TypeCode>>)
        ensures same { chunks_in result.0.items result.1.items ≡ self }
        ensures length { length result.1.items ≡ length result.0.items }
    {
        let Chunks { columns, types } = self;
        (columns, types)
    }
}
