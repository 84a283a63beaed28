//! What is told of the items of pages and chunks.

ghost use Rattle.std.specs.Prelude.{◌≡◌, ◌<◌, ◌+◌, ◌^◌, IfOk};
ghost use Rattle.compact_write.specs.Calls.{Writes};
ghost use Rattle.parquet_plain.specs.Columns.{nulls_of};
ghost use Rattle.parquet_sample.specs.Ends.{end_octets, row_ends};
ghost use Rattle.parquet_sample.specs.Writing.{items_from};
ghost use Rattle.parquet_sample.specs.declared.column.SampleColumn.TheVariants.{Qty};

use crate::column::SampleColumn;
use crate::number_ends::number_ends;
use columns_core::Seq;
use itoa::Buffer;
use parquet_plain::Ends;
use parquet_write::to_measure;
use std::alloc::{AllocError, Global};

/// An item as an end, by its number.
fn write_end_of(bytes: &mut Vec<u8>, column: SampleColumn, number: u64) -> Result<(), AllocError>
    ensures written { Writes (end_octets column number) bytes.old result bytes.new }
{
    match column {
        SampleColumn::Id => {
            bytes.extend_from_slice(&number.to_le_bytes())?;
            Ok(())
        }
        SampleColumn::Qty => {
            bytes.extend_from_slice(&to_measure(number as usize)?.to_le_bytes())?;
            Ok(())
        }
        SampleColumn::Name => {
            let mut buffer = Buffer::new();
            bytes.push(b'r')?;
            bytes.extend_from_slice(buffer.format(number).as_bytes())?;
            Ok(())
        }
    }
}

fn end_of(alloc: Global, column: SampleColumn, number: u64) -> Result<Seq<u8>, AllocError>
    ensures { IfOk result (λ bytes. bytes ≡ end_octets column number) }
{
    let mut bytes = Vec::new(alloc);
    write_end_of(&mut bytes, column, number)?;
    Ok(Seq::new(bytes))
}

/// The ends of the items of so many rows.
pub(crate) fn stored_ends(
    alloc: Global,
    column: SampleColumn,
    first: u64,
    rows: u32,
) -> Result<Option<Ends>, AllocError>
    requires fits { first + rows < 2 ^ 63 }
    ensures { IfOk result (λ ends. ends ≡ row_ends column first rows) }
{
    match number_ends(column, first, rows) {
        None => Ok(None),
        Some(ends) => {
            let least = end_of(alloc, column, ends.least)?;
            let greatest = end_of(alloc, column, ends.greatest)?;
            Ok(Some(Ends { least, greatest }))
        }
    }
}

/// The rows without a quantity.
fn absent_rows(first: u64, rows: u32) -> u32
    requires fits { first + rows < 2 ^ 63 }
    ensures { result ≡ nulls_of (items_from Qty first rows) }
{
    let mut nulls = 0;
    for n in first..first + u64::from(rows) {
        if n % 5 == 0 {
            nulls += 1;
        }
    }
    nulls
}

pub(crate) fn null_count(column: SampleColumn, first: u64, rows: u32) -> u32
    requires fits { first + rows < 2 ^ 63 }
    ensures { result ≡ nulls_of (items_from column first rows) }
{
    match column {
        SampleColumn::Id => 0,
        SampleColumn::Qty => absent_rows(first, rows),
        SampleColumn::Name => 0,
    }
}
