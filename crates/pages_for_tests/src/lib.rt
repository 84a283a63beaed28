//! Chunks of pages, and columns that they are chunks of, for tests to be run over.
#![tactic(auto)]

ghost use Rattle.std.specs.Prelude.{◌≡◌, ◌++◌, ◌+◌, length, true, IfErr, IfOk, OnOk};
ghost use Rattle.columns_core.specs.Causes.{IsWantOfMemory};
ghost use Rattle.pages_for_tests.specs.Pages as spec;
ghost use Rattle.parquet_page.specs.Lending.{DataPagesAre, has_data_behind};
ghost use Rattle.parquet_page.specs.Lent.{chunk_lent};
ghost use Rattle.parquet_page.specs.Reader.{reader_lent, reader_pages};

mod page;

use columns_core::Error;
pub use page::Page;
use parquet_meta::{
    ColumnChunkMetaData, ColumnDescriptor, ColumnPath, PhysicalType, PrimitiveType, Repetition,
};
use parquet_page::PageReader;
use std::alloc::{AllocError, Global};

/// A chunk: whether its values are optional, how many there are, and its pages.
pub type Stored<'a> = (Repetition, u64, &'a [Page<'a>]);

/// The pages of a chunk, as a reader lends them.
pub fn pages_of(
    alloc: Global,
    physical: PhysicalType,
    stored: Stored<'_>,
) -> Result<PageReader, Error>
    ensures lends { let type = spec.type_of_column physical stored.entry.0 in
        IfOk result (λ reader. reader_lent reader
        ≡ chunk_lent type stored.entry.1 (spec.bytes_of_pages stored.entry.2.now)) }
    ensures memory { IfErr result IsWantOfMemory }
    ensures typed { IfOk result (λ reader.
        DataPagesAre (λ page. page.type.physical_type ≡ physical) (reader_pages reader)) }
    ensures ordered { IfOk result (λ reader. has_data_behind (reader_pages reader) ≡ true) }
{
    let (repetition, num_values, pages) = stored;
    let column = column(physical, repetition, num_values);
    PageReader::new(alloc, chunk_of(alloc, pages)?, &column)
}

/// These pages, one behind the other.
pub fn chunk_of(alloc: Global, pages: &[Page<'_>]) -> Result<Vec<u8>, AllocError>
    ensures { IfOk result (λ chunk. chunk.items ≡ spec.bytes_of_pages pages.now) }
{
    let mut chunk = Vec::new(alloc);
    for page in pages {
        push_page(&mut chunk, *page)?;
    }
    Ok(chunk)
}

fn push_page(chunk: &mut Vec<u8>, page: Page<'_>) -> Result<(), AllocError>
    ensures { OnOk result (chunk.new.items ≡ chunk.old.items ++ spec.bytes_of_page page.entry) }
{
    match page {
        Page::First(count, encoding, levels, values) => {
            push_head(chunk, 0x00, size_of(levels, values), 0x2C)?;
            chunk.extend_from_slice(&[0x15, twice(count), 0x15, twice(encoding)])?;
            chunk.extend_from_slice(&[0x15, 0x06, 0x15, 0x06, 0x00, 0x00])?;
            push_body(chunk, levels, values)
        }
        Page::Second(count, levels, values) => {
            push_head(chunk, 0x06, size_of(levels, values), 0x5C)?;
            chunk.extend_from_slice(&[0x15, twice(count), 0x15, 0x00, 0x15, twice(count)])?;
            chunk.extend_from_slice(&[0x15, 0x00, 0x15, size_of(levels, &[])])?;
            chunk.extend_from_slice(&[0x15, 0x00, 0x00, 0x00])?;
            push_body(chunk, levels, values)
        }
        Page::Entries(count, entries) => {
            push_head(chunk, 0x04, size_of(entries, &[]), 0x4C)?;
            chunk.extend_from_slice(&[0x15, twice(count), 0x15, 0x00, 0x00, 0x00])?;
            chunk.extend_from_slice(entries)
        }
        Page::Bytes(bytes) => chunk.extend_from_slice(bytes),
    }
}

/// The kind of a page, its size twice, and the head of the field of its kind.
fn push_head(chunk: &mut Vec<u8>, kind: u8, size: u8, field: u8) -> Result<(), AllocError>
    ensures { OnOk result (chunk.new.items ≡ chunk.old.items ++ spec.front kind size field) }
{
    chunk.extend_from_slice(&[0x15, kind, 0x15, size, 0x15, size, field])
}

fn push_body(chunk: &mut Vec<u8>, levels: &[u8], values: &[u8]) -> Result<(), AllocError>
    ensures { OnOk result (chunk.new.items ≡ chunk.old.items ++ (levels.now ++ values.now)) }
{
    chunk.extend_from_slice(levels)?;
    chunk.extend_from_slice(values)
}

/// A small number as it is stored.
fn twice(number: u8) -> u8
    ensures { result ≡ spec.stored number }
{
    number.wrapping_mul(2)
}

/// How many bytes these are, as it is stored.
fn size_of(levels: &[u8], values: &[u8]) -> u8
    ensures { result ≡ spec.size (length levels.now + length values.now) }
{
    let size = levels.len().saturating_add(values.len());
    twice((size % 64) as u8)
}

/// A column of so many values.
pub fn column(
    physical_type: PhysicalType,
    repetition: Repetition,
    num_values: u64,
) -> ColumnChunkMetaData
    ensures { result ≡ spec.column_of_values physical_type repetition num_values }
{
    ColumnChunkMetaData {
        descriptor: ColumnDescriptor {
            path_in_schema: ColumnPath::empty(),
            primitive_type: PrimitiveType {
                physical_type,
                logical_type: None,
                repetition,
            },
            flat: true,
        },
        codec: 0,
        num_values,
        total_compressed_size: 18,
        data_page_offset: 0,
        dictionary_page_offset: None,
        statistics_bytes: None,
        offset_index: None,
        column_index: None,
        column_index_offset: None,
        foreign: false,
        encrypted: false,
    }
}
