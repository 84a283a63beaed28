//! Puts the chunks of each row group beside the leaves of the schema.

ghost use Rattle.std.specs.Prelude.{◌≡◌, ◌^◌, nat_lt, IfErr, None, OnOk, Some, true};
ghost use Rattle.parquet_meta.specs.Fault.{IsFaultOf, MakesOr};
ghost use Rattle.parquet_meta.specs.File.{column_data_of, column_with, columns_of, group_of, has_code, meta_data_of, no_numbers, rows_in_groups};
ghost use Rattle.parquet_meta.specs.Lists.{all_of};
ghost use Rattle.parquet_meta.specs.Unplaced.{chunk_in};

use crate::chunks::{Chunks, NO_NUMBERS};
use crate::code::TypeCode;
use crate::fault::Fault;
use crate::footer::{ChunkNumbers, Footer, RowGroup};
use crate::metadata::{
    ColumnChunkMetaData, ColumnDescriptor, FileMetaData, PhysicalType, RowGroupMetaData,
};
use crate::tree::copy_of_leaf;
use columns_core::Seq;
use std::alloc::Global;

/// The rows of all groups together are at most so many.
const MOST_ROWS: u64 = i64::MAX as u64;

fn has_code(physical_type: PhysicalType, code: TypeCode) -> bool
    ensures { result ≡ has_code physical_type code }
{
    match physical_type {
        PhysicalType::Boolean => code == TypeCode::Boolean,
        PhysicalType::Int32 => code == TypeCode::Int32,
        PhysicalType::Int64 => code == TypeCode::Int64,
        PhysicalType::Int96 => code == TypeCode::Int96,
        PhysicalType::Float => code == TypeCode::Float,
        PhysicalType::Double => code == TypeCode::Double,
        PhysicalType::ByteArray => code == TypeCode::ByteArray,
        PhysicalType::FixedLenByteArray(_) => code == TypeCode::FixedLenByteArray,
    }
}

/// The column without numbers.
fn forget_numbers(column: &mut ColumnChunkMetaData)
    ensures { column.new ≡ column_with column.old.descriptor (chunk_in column.old None) no_numbers }
{
    let ChunkNumbers {
        codec,
        num_values,
        total_compressed_size,
        data_page_offset,
        dictionary_page_offset,
        statistics,
    } = NO_NUMBERS;
    column.codec = codec;
    column.num_values = num_values;
    column.total_compressed_size = total_compressed_size;
    column.data_page_offset = data_page_offset;
    column.dictionary_page_offset = dictionary_page_offset;
    column.statistics_bytes = statistics;
}

/// Puts a column beside its leaf, whose type it tells, if it says anything of itself.
fn put_beside(
    leaf: &ColumnDescriptor,
    told: Option<TypeCode>,
    column: &mut ColumnChunkMetaData,
) -> Result<(), Fault>
    ensures placed { OnOk result (column_data_of leaf.now (chunk_in column.old told) ≡ Some column.new) }
    ensures refused { IfErr result (λ e.
        IsFaultOf true e (column_data_of leaf.now (chunk_in column.old told))) }
{
    match told {
        Some(code) => {
            if !has_code(leaf.primitive_type.physical_type, code) {
                return Err(Fault::Unspelled);
            }
        }
        None => forget_numbers(column),
    }
    column.descriptor = copy_of_leaf(leaf)?;
    Ok(())
}

/// As many chunks as leaves, in their order. They stay where they are.
fn columns_of(
    leaves: &[ColumnDescriptor],
    chunks: Chunks,
) -> Result<Seq<ColumnChunkMetaData>, Fault>
    ensures { MakesOr true result (columns_of leaves.now chunks) }
{
    let (mut columns, types) = chunks.into_parts();
    if columns.len() != leaves.len() {
        return Err(Fault::Unspelled);
    }
    'leaves: for index in 0..leaves.len() {
        put_beside(&leaves[index], types[index], &mut columns[index])?;
    }
    Ok(Seq::new(columns))
}

fn group_of(leaves: &[ColumnDescriptor], group: RowGroup) -> Result<RowGroupMetaData, Fault>
    ensures { MakesOr true result (group_of leaves.now group) }
{
    let RowGroup { columns, num_rows } = group;
    Ok(RowGroupMetaData {
        columns: columns_of(leaves, columns)?,
        num_rows: num_rows as usize,
    })
}

fn groups_of(
    alloc: Global,
    leaves: &[ColumnDescriptor],
    groups: Vec<RowGroup>,
) -> Result<Seq<RowGroupMetaData>, Fault>
    ensures { MakesOr true result (all_of (group_of leaves.now) groups.items) }
{
    let mut found = Vec::with_capacity(alloc, groups.len())?;
    'groups: for group in groups {
        found.push(group_of(leaves, group)?)?;
    }
    Ok(Seq::new(found))
}

/// The rows of all groups can be counted.
fn are_few(groups: &[RowGroup]) -> bool
    ensures { result ≡ nat_lt (rows_in_groups groups.now) (2 ^ 63) }
{
    let mut rows = 0;
    'groups: for group in groups {
        if MOST_ROWS - rows < group.num_rows {
            return false;
        }
        rows += group.num_rows;
    }
    true
}

/// The metadata of a file with this footer.
#[tactic(auto, unfolding(crate::specs::File::meta_data_of))]
pub(crate) fn meta_data_of(alloc: Global, footer: Footer) -> Result<FileMetaData, Fault>
    ensures { MakesOr true result (meta_data_of footer) }
{
    let Footer {
        columns,
        num_rows,
        row_groups,
    } = footer;
    if !are_few(row_groups.as_slice()) {
        return Err(Fault::Unspelled);
    }
    let row_groups = groups_of(alloc, columns.as_slice(), row_groups.into_vec())?;
    Ok(FileMetaData {
        num_rows,
        columns,
        row_groups,
    })
}
