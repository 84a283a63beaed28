//! Files that are put, as tables ask for them.
use crate::asked::{Column, cell_of, schema_of, type_of};
use columns_core::{Array, Chunk, Error};
use flat_builders::FlatMutable;
use put_program::put_file;
use std::alloc::Global;
use std::test::Fail;

/// The cells of each column of a chunk.
pub(crate) type Cells<'a> = &'a [&'a [&'a str]];

/// What is put: columns, the cells of each chunk, and how many rows a page has.
#[derive(Clone, Copy)]
pub(crate) struct Put<'a> {
    pub(crate) columns: &'a [Column<'a>],
    pub(crate) chunks: &'a [Cells<'a>],
    pub(crate) page_rows: usize,
}

fn array_of(alloc: Global, type_text: &str, cells: &[&str]) -> Result<Array, Fail> {
    let data_type = type_of(alloc, type_text)?;
    let mut column = FlatMutable::try_with_capacity(alloc, data_type, 0)?;
    for text in cells {
        let cell = cell_of(alloc, column.data_type(), text)?;
        column.push_cell(&cell)?;
    }
    Ok(column.into_array()?)
}

fn chunk_of(alloc: Global, columns: &[Column<'_>], cells: Cells<'_>) -> Result<Chunk, Fail> {
    let mut arrays = Vec::new(alloc);
    for ((_, type_text, _), cells) in columns.iter().zip(cells) {
        arrays.push(array_of(alloc, type_text, cells)?)?;
    }
    Ok(Chunk::try_new(arrays)?)
}

/// What `put_file` answers to chunks of these columns where it is asked for fields.
pub(crate) fn put_as(
    alloc: Global,
    fields: &[Column<'_>],
    put: Put<'_>,
) -> Result<Result<Vec<u8>, Error>, Fail> {
    let schema = schema_of(alloc, fields)?;
    let mut chunks = Vec::new(alloc);
    for cells in put.chunks {
        chunks.push(chunk_of(alloc, put.columns, cells)?)?;
    }
    Ok(put_file(alloc, &schema, &chunks, put.page_rows))
}
