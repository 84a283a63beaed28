//! What is asked of a file, and what chunks are given.
use columns_core::{Array, Cell, Chunk, DataType, Error, Field, Name, Schema, Seq};
use flat_binary::ArrayIter;
use parquet_base::Interval;
use parquet_meta::{FileMetaData, MemorySource, RowGroupMetaData, read_metadata};
use parquet_page::FilteredPage;
use parquet_read::{ColumnPages, read_columns, to_deserializer};
use std::alloc::{AllocError, Global};
use std::test::Fail;

/// A file in memory, and what it says of itself.
pub(crate) fn opened(alloc: Global, bytes: &[u8]) -> Result<(MemorySource, FileMetaData), Error> {
    let mut source = MemorySource::new(Vec::from_slice(alloc, bytes)?);
    let metadata = read_metadata(alloc, &mut source)?;
    Ok((source, metadata))
}

pub(crate) fn field_of(
    alloc: Global,
    name: &str,
    data_type: DataType,
) -> Result<Field, AllocError> {
    Ok(Field {
        name: Name::new(String::from_str(alloc, name)?),
        data_type,
        is_nullable: true,
    })
}

/// Columns of numbers of 32 bits.
pub(crate) fn schema_of(alloc: Global, names: &[&str]) -> Result<Schema, AllocError> {
    let mut fields = Vec::new(alloc);
    for name in names {
        fields.push(field_of(alloc, name, DataType::Int32)?)?;
    }
    Ok(Schema {
        fields: Seq::new(fields),
    })
}

/// A page: the place and length of its header and body, its rows, and the first of those that are selected with their number.
pub(crate) type Located = (u64, usize, usize, usize, usize);

pub(crate) fn pages_of(alloc: Global, pages: &[Located]) -> Result<Vec<FilteredPage>, AllocError> {
    let mut all = Vec::new(alloc);
    for (start, length, num_rows, first, selected) in pages {
        let mut rows = Vec::new(alloc);
        if *selected > 0 {
            rows.push(Interval::new(*first, *selected))?;
        }
        all.push(FilteredPage {
            start: *start,
            length: *length,
            selected_rows: Seq::new(rows),
            num_rows: *num_rows,
        })?;
    }
    Ok(all)
}

/// A field that is asked of a group: its name, its type, the chunk size, and the pages of its one column if they are told.
#[derive(Clone, Copy)]
pub(crate) struct AskedField<'a> {
    pub(crate) name: &'a str,
    pub(crate) is_null: bool,
    pub(crate) chunk_size: Option<usize>,
    pub(crate) pages: Option<&'a [Located]>,
}

/// Numbers of 32 bits, or nulls.
pub(crate) fn type_of(is_null: bool) -> DataType {
    if is_null {
        DataType::Null
    } else {
        DataType::Int32
    }
}

fn list_of(
    alloc: Global,
    pages: Option<&[Located]>,
) -> Result<Option<Vec<Vec<FilteredPage>>>, AllocError> {
    match pages {
        Some(pages) => Ok(Some(vec![in alloc; pages_of(alloc, pages)?]?)),
        None => Ok(None),
    }
}

/// The arrays of a field.
pub(crate) fn arrays_of(
    alloc: Global,
    source: &mut MemorySource,
    group: &RowGroupMetaData,
    asked: AskedField<'_>,
) -> Result<ArrayIter<ColumnPages>, Error> {
    let chunks = read_columns(alloc, source, group.columns(), asked.name)?;
    let field = field_of(alloc, asked.name, type_of(asked.is_null))?;
    let lists = list_of(alloc, asked.pages)?;
    let rows = group.num_rows();
    to_deserializer(alloc, chunks, field, rows, asked.chunk_size, lists)
}

/// The numbers of all arrays, each with a -9 behind it.
pub(crate) fn push_arrays(
    alloc: Global,
    numbers: &mut Vec<i128>,
    arrays: ArrayIter<ColumnPages>,
) -> Result<(), Error> {
    for array in arrays {
        push_numbers(alloc, numbers, &array?)?;
        numbers.push(-9)?;
    }
    Ok(())
}

/// The numbers of an array, where all its cells are numbers; a null is -1.
pub(crate) fn push_numbers(
    alloc: Global,
    numbers: &mut Vec<i128>,
    array: &Array,
) -> Result<(), Error> {
    for row in 0..array.len() {
        numbers.push(match array.item(alloc, row)? {
            Cell::Int(number) => number,
            _ => -1,
        })?;
    }
    Ok(())
}

/// Fails where the numbers of the chunks are others.
pub(crate) fn check_chunks(given: &[Vec<i128>], wanted: &[&[i128]]) -> Result<(), Fail> {
    let is_same = |(numbers, chunk): (&Vec<i128>, &&[i128])| numbers.as_slice() == *chunk;
    if given.len() != wanted.len() || !given.iter().zip(wanted).all(is_same) {
        return Err(Fail::new(format_args!("{given:?} for {wanted:?}")));
    }
    Ok(())
}

/// The numbers of a chunk, column after column, behind the number of its rows.
pub(crate) fn numbers_of(alloc: Global, chunk: &Chunk) -> Result<Vec<i128>, Error> {
    let mut numbers = Vec::new(alloc);
    numbers.push(chunk.len() as i128)?;
    for array in chunk.arrays() {
        push_numbers(alloc, &mut numbers, array)?;
    }
    Ok(numbers)
}

/// An answer, with the number of rows of its chunk.
pub(crate) type Answer = Option<Result<usize, Error>>;

pub(crate) fn answer_of(given: Option<Result<Chunk, Error>>) -> Answer {
    match given {
        Some(Ok(chunk)) => Some(Ok(chunk.len())),
        Some(Err(error)) => Some(Err(error)),
        None => None,
    }
}
