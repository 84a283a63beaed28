//! Ends of pages that are stored as bytes of a fixed number.
ghost use Rattle.std.specs.Prelude.{◌≡◌, [], map, flat_map, option_map, IfOk, OnOk};
ghost use Rattle.columns_core.specs.Causes.{ComesOf};
ghost use Rattle.parquet_page.specs.Stored.{Octets};
ghost use Rattle.flat_values.specs.Conversion.{BigEndian};
ghost use Rattle.column_ends.specs.Converted.{cell_page, end_cell};
ghost use Rattle.column_ends.specs.Told.{stored_page};
ghost use Rattle.parquet_indexes.specs.Told.{AreOfFixed, decimal_causes, decimal_page_causes, fixed_causes};

use crate::ColumnPageStatistics;
use crate::copied::copy_of_byte_pages;
use crate::counts::is_count;
use crate::page_arrays::statistics_of_pages;
use crate::told::{required_type as required, told_statistics};
use columns_core::{Cell, DataType, Error, Part, Seq};
use flat_values::convert_i128;
use parquet_meta::{Index, PageIndex, PhysicalType};
use std::alloc::Global;

/// The bytes of the longest decimal.
const MOST_DECIMAL_BYTES: usize = 16;

/// The statistics of pages of a FIXED_LEN_BYTE_ARRAY column, in a type: bytes as they are, or decimals with their sign.
///
/// `NotYetImplemented` where the type is another, or that of bytes of size 0; `ExternalFormat` where a count is negative, an end has another number
/// of bytes than the type, or a decimal none or more than 16.
pub fn deserialize(
    alloc: Global,
    indexes: &[PageIndex<Seq<u8>>],
    data_type: DataType,
) -> Result<ColumnPageStatistics, Error>
    ensures told { IfOk result (AreOfFixed data_type indexes.now) }
    ensures ok { OnOk result (fixed_causes data_type indexes.now ≡ []) }
    ensures cause { ComesOf result (fixed_causes data_type indexes.now) }
{
    match data_type {
        DataType::FixedSizeBinary(size) => fixed_statistics(alloc, indexes, size),
        DataType::Decimal(precision, scale) => {
            decimal_statistics(alloc, indexes, precision, scale)
        }
        _ => Err(Error::NotYetImplemented(Part::Index)),
    }
}

fn fixed_statistics(
    alloc: Global,
    indexes: &[PageIndex<Seq<u8>>],
    size: usize,
) -> Result<ColumnPageStatistics, Error>
    ensures told { IfOk result (AreOfFixed (DataType.FixedSizeBinary size) indexes.now) }
    ensures ok { OnOk result (fixed_causes (DataType.FixedSizeBinary size) indexes.now ≡ []) }
    ensures cause { ComesOf result (fixed_causes (DataType.FixedSizeBinary size) indexes.now) }
{
    let index = Index::FixedLenByteArray(size, copy_of_byte_pages(alloc, indexes)?);
    let stored = required(PhysicalType::FixedLenByteArray(size), None);
    told_statistics(alloc, &stored, &index, &DataType::FixedSizeBinary(size))
}

fn decimal_statistics(
    alloc: Global,
    indexes: &[PageIndex<Seq<u8>>],
    precision: usize,
    scale: usize,
) -> Result<ColumnPageStatistics, Error>
    ensures told { IfOk result (AreOfFixed (DataType.Decimal precision scale) indexes.now) }
    ensures ok { OnOk result (fixed_causes (DataType.Decimal precision scale) indexes.now ≡ []) }
    ensures cause { ComesOf result (fixed_causes (DataType.Decimal precision scale) indexes.now) }
{
    let pages = decimal_pages(alloc, indexes)?;
    statistics_of_pages(alloc, &DataType::Decimal(precision, scale), &pages)
}

fn decimal_pages(alloc: Global, pages: &[PageIndex<Seq<u8>>]) -> Result<Vec<PageIndex<Cell>>, Error>
    ensures pages { IfOk result (λ cells.
        map (cell_page BigEndian) (map (stored_page Octets) pages.now) ≡ cells.items) }
    ensures ok { OnOk result (flat_map decimal_page_causes pages.now ≡ []) }
    ensures cause { ComesOf result (flat_map decimal_page_causes pages.now) }
{
    let mut cells = Vec::with_capacity(alloc, pages.len())?;
    for page in pages {
        cells.push(decimal_page(page)?)?;
    }
    Ok(cells)
}

fn decimal_page(page: &PageIndex<Seq<u8>>) -> Result<PageIndex<Cell>, Error>
    ensures page { IfOk result (λ cells. cell_page BigEndian (stored_page Octets page.now) ≡ cells) }
    ensures ok { OnOk result (decimal_page_causes page.now ≡ []) }
    ensures cause { ComesOf result (decimal_page_causes page.now) }
{
    if !is_count(page.null_count) {
        return Err(Error::ExternalFormat(Part::Index));
    }
    let min = decimal(&page.min)?;
    let max = decimal(&page.max)?;
    Ok(PageIndex {
        min,
        max,
        null_count: page.null_count,
    })
}

/// An end as a decimal, where it is told.
fn decimal(end: &Option<Seq<u8>>) -> Result<Option<Cell>, Error>
    ensures cell { IfOk result (λ cell. end_cell BigEndian (option_map Octets end.now) ≡ cell) }
    ensures ok { OnOk result (decimal_causes end.now ≡ []) }
    ensures cause { ComesOf result (decimal_causes end.now) }
{
    let Some(bytes) = end else {
        return Ok(None);
    };
    let bytes = bytes.as_slice();
    if bytes.is_empty() || MOST_DECIMAL_BYTES < bytes.len() {
        return Err(Error::ExternalFormat(Part::Index));
    }
    Ok(Some(Cell::Int(convert_i128(bytes, bytes.len()))))
}
