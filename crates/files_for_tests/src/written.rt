//! Files of flat columns: pages, chunks, indexes and the footer, field by field in the compact protocol.
use crate::compact::Written;
use crate::parts::{Chunk, Column, Indexes, Levels, Page, Stored, Told, Values};
use parquet_thrift::{BINARY, FALSE, I32, I64, STRUCT, TRUE};
use std::alloc::{AllocError, Global};

/// The word that a file begins and ends with.
const MAGIC: &[u8] = b"PAR1";

/// The file of these groups, each of which has a chunk of each column. It has at most 14 groups and 14 columns, and its footer less than
/// 65536 bytes.
pub fn file_of(alloc: Global, groups: &[&[Chunk<'_>]]) -> Result<Vec<u8>, AllocError> {
    let mut file = Written::new(alloc);
    let mut footer = Written::new(alloc);
    file.raw(MAGIC);
    for group in groups {
        write_group(alloc, &mut file, &mut footer, group);
    }
    end_file(alloc, file, groups, &footer)
}

/// Writes the footer, of whose groups this is said, and the end.
fn end_file(
    alloc: Global,
    file: Written,
    groups: &[&[Chunk<'_>]],
    of_groups: &Written,
) -> Result<Vec<u8>, AllocError> {
    let mut file = file;
    let mut footer = Written::new(alloc);
    footer.ints(&[(1, 1)]);
    write_schema(&mut footer, groups.first().copied().unwrap_or(&[]));
    footer.longs(&[(1, 0)]);
    footer.list(1, groups.len(), STRUCT);
    footer.append(of_groups);
    footer.end(1);
    let size = footer.len();
    file.append(&footer);
    file.raw(&[(size % 256) as u8, (size / 256 % 256) as u8, 0, 0]);
    file.raw(MAGIC);
    file.into_bytes()
}

/// Writes the pages and indexes of a group, and what the footer says of it.
fn write_group(alloc: Global, file: &mut Written, footer: &mut Written, chunks: &[Chunk<'_>]) {
    footer.list(1, chunks.len(), STRUCT);
    let mut rows = 0;
    for chunk in chunks {
        rows = write_chunk(alloc, file, footer, chunk);
    }
    footer.longs(&[(1, 0), (1, rows)]);
    footer.end(1)
}

/// The places of the first byte of a chunk, of its first data page and behind its pages, and how many data pages and rows it has.
#[derive(Clone, Copy)]
struct Extent {
    start: usize,
    data: usize,
    end: usize,
    pages: usize,
    rows: usize,
}

/// Writes a chunk and what the footer says of it. Gives its rows.
fn write_chunk(
    alloc: Global,
    file: &mut Written,
    footer: &mut Written,
    chunk: &Chunk<'_>,
) -> usize {
    let mut locations = Written::new(alloc);
    let extent = write_pages(file, &mut locations, chunk.pages);
    let mut step = 2;
    if !chunk.path.is_empty() {
        footer.binary(1, chunk.path.as_bytes());
        step = 1;
    }
    footer.longs(&[(step, extent.data)]);
    footer.begin(1);
    write_meta_data(footer, chunk, extent);
    write_indexes(file, footer, chunk.indexes, extent, &locations);
    footer.end(1);
    extent.rows
}

/// Writes the pages of a chunk, and their locations.
fn write_pages(file: &mut Written, locations: &mut Written, pages: &[Page<'_>]) -> Extent {
    let start = file.len();
    let mut extent = Extent {
        start,
        data: start,
        end: start,
        pages: 0,
        rows: 0,
    };
    for page in pages {
        extent = write_page(file, locations, *page, extent);
    }
    extent
}

/// Writes a page behind those of a chunk, and its location.
fn write_page(
    file: &mut Written,
    locations: &mut Written,
    page: Page<'_>,
    before: Extent,
) -> Extent {
    let place = file.len();
    write_header(file, page);
    write_levels(file, page.1);
    write_values(file, page.2);
    let mut extent = before;
    extent.end = file.len();
    if let Levels::Entries = page.1 {
        if before.pages == 0 {
            extent.data = extent.end;
        }
        return extent;
    }
    locations.longs(&[(1, place)]);
    locations.ints(&[(1, extent.end.saturating_sub(place))]);
    locations.longs(&[(1, before.rows)]);
    locations.end(1);
    extent.pages = before.pages.saturating_add(1);
    extent.rows = before.rows.saturating_add(page.rows());
    extent
}

/// The header of a page: its kind, its size, and what the kind has.
fn write_header(out: &mut Written, page: Page<'_>) {
    let Page(rows, levels, values) = page;
    let (size, encoding) = (page.size(), values.encoding());
    match levels {
        Levels::Absent | Levels::First(_) => {
            out.ints(&[(1, 0), (1, size), (1, size)]);
            out.begin(2);
            out.ints(&[(1, rows), (1, encoding), (1, 3), (1, 3)]);
        }
        Levels::Second(bytes) => {
            out.ints(&[(1, 3), (1, size), (1, size)]);
            out.begin(5);
            out.ints(&[(1, rows), (1, 0), (1, rows)]);
            out.ints(&[(1, encoding), (1, bytes.len()), (1, 0)]);
        }
        Levels::Entries => {
            out.ints(&[(1, 2), (1, size), (1, size)]);
            out.begin(4);
            out.ints(&[(1, rows), (1, encoding)]);
        }
    }
    out.end(2)
}

fn write_levels(out: &mut Written, levels: Levels<'_>) {
    match levels {
        Levels::Absent | Levels::Entries => {}
        Levels::First(bytes) => {
            out.raw(&[(bytes.len() % 256) as u8, 0, 0, 0]);
            out.raw(bytes)
        }
        Levels::Second(bytes) => out.raw(bytes),
    }
}

fn write_values(out: &mut Written, values: Values<'_>) {
    match values {
        Values::Numbers(numbers) => write_numbers(out, numbers),
        Values::Longs(longs) => write_longs(out, longs),
        Values::Words(words) => write_words(out, words),
        Values::Strings(strings) => write_strings(out, strings),
        Values::Keys(keys) => write_keys(out, keys),
        Values::Bytes(_, bytes) => out.raw(bytes),
    }
}

fn write_numbers(out: &mut Written, numbers: &[i64]) {
    for number in numbers {
        out.raw(&number.to_le_bytes()[..4]);
    }
}

fn write_longs(out: &mut Written, longs: &[i64]) {
    for long in longs {
        out.raw(&long.to_le_bytes());
    }
}

fn write_words(out: &mut Written, words: &[i64]) {
    for nanoseconds in words {
        write_word(out, *nanoseconds);
    }
}

/// Nanoseconds, and the number of the first day of 1970.
fn write_word(out: &mut Written, nanoseconds: i64) {
    out.raw(&nanoseconds.to_le_bytes());
    out.raw(&[0x8c, 0x3d, 0x25, 0])
}

fn write_strings(out: &mut Written, strings: &[&[u8]]) {
    for string in strings {
        out.raw(&[(string.len() % 256) as u8, 0, 0, 0]);
        out.raw(string);
    }
}

fn write_keys(out: &mut Written, keys: &[u8]) {
    out.raw(&[8]);
    for key in keys {
        out.raw(&[2, *key]);
    }
}

/// Writes the indexes of a chunk, whose locations are these, and where they stand.
fn write_indexes(
    file: &mut Written,
    footer: &mut Written,
    indexes: Indexes<'_>,
    extent: Extent,
    locations: &Written,
) {
    if let Indexes::Absent = indexes {
        return;
    }
    let place = file.len();
    file.list(1, extent.pages, STRUCT);
    file.append(locations);
    file.end(1);
    tell_index(footer, place, file.len());
    let Indexes::Told(pages) = indexes else {
        return;
    };
    let place = file.len();
    write_column_index(file, pages);
    tell_index(footer, place, file.len())
}

/// The place and the length of an index.
fn tell_index(footer: &mut Written, place: usize, end: usize) {
    footer.longs(&[(1, place)]);
    footer.ints(&[(1, end.saturating_sub(place))])
}

/// A column index of pages of which this is told.
fn write_column_index(out: &mut Written, pages: &[Told<'_>]) {
    out.list(1, pages.len(), TRUE);
    for page in pages {
        out.raw(&[if page.has_least() { FALSE } else { TRUE }]);
    }
    out.list(1, pages.len(), BINARY);
    for page in pages {
        write_least(out, *page);
    }
    out.list(1, pages.len(), BINARY);
    for page in pages {
        write_greatest(out, *page);
    }
    write_null_counts(out, pages);
    out.end(1)
}

fn write_least(out: &mut Written, told: Told<'_>) {
    match told {
        Told::Nothing => out.counted(&[]),
        Told::Ends(least, _) => out.counted(&least.to_le_bytes()[..4]),
        Told::Longs(least, _) => out.counted(&least.to_le_bytes()),
        Told::Words(least, _) => write_counted_word(out, least),
        Told::Bytes(least, ..) => out.counted(least.unwrap_or(&[])),
    }
}

fn write_greatest(out: &mut Written, told: Told<'_>) {
    match told {
        Told::Nothing => out.counted(&[]),
        Told::Ends(_, greatest) => out.counted(&greatest.to_le_bytes()[..4]),
        Told::Longs(_, greatest) => out.counted(&greatest.to_le_bytes()),
        Told::Words(_, greatest) => write_counted_word(out, greatest),
        Told::Bytes(_, greatest, _) => out.counted(greatest.unwrap_or(&[])),
    }
}

fn write_counted_word(out: &mut Written, nanoseconds: i64) {
    out.raw(&[12]);
    write_word(out, nanoseconds)
}

/// How many rows of each page are null, where that is told of all of them.
fn write_null_counts(out: &mut Written, pages: &[Told<'_>]) {
    for page in pages {
        if page.nulls().is_none() {
            return;
        }
    }
    out.list(2, pages.len(), I64);
    for page in pages {
        out.number(page.nulls().unwrap_or(0));
    }
}

/// The schema, of the columns of these chunks.
fn write_schema(out: &mut Written, chunks: &[Chunk<'_>]) {
    out.list(1, chunks.len().saturating_add(1), STRUCT);
    out.binary(4, b"schema");
    out.ints(&[(1, chunks.len())]);
    out.end(1);
    for chunk in chunks {
        write_element(out, chunk.column);
    }
}

/// A column of the schema. Times have the logical type of milliseconds.
fn write_element(out: &mut Written, column: Column) {
    let repetition = if column.is_optional { 1 } else { 0 };
    out.ints(&[(1, column.stored.number())]);
    if let Stored::Fixed(size) = column.stored {
        out.ints(&[(1, size), (1, repetition)]);
    } else {
        out.ints(&[(2, repetition)]);
    }
    out.binary(1, column.name.as_bytes());
    if let Stored::Times = column.stored {
        write_milliseconds(out);
    }
    out.end(1)
}

/// The logical type of times in milliseconds, behind the name of a column.
fn write_milliseconds(out: &mut Written) {
    out.begin(6);
    out.begin(8);
    out.field(1, TRUE);
    out.begin(1);
    out.begin(1);
    out.end(4)
}

/// The metadata of a chunk.
fn write_meta_data(out: &mut Written, chunk: &Chunk<'_>, extent: Extent) {
    let size = extent.end.saturating_sub(extent.start);
    out.ints(&[(1, chunk.column.stored.number())]);
    out.list(1, 1, I32);
    out.number(0);
    out.list(1, 1, BINARY);
    out.counted(chunk.column.name.as_bytes());
    out.ints(&[(1, 0)]);
    out.longs(&[(1, extent.rows), (1, size), (1, size), (2, extent.data)]);
    let mut step = 3;
    if extent.start < extent.data {
        out.longs(&[(2, extent.start)]);
        step = 1;
    }
    write_statistics(out, step, chunk.told);
    out.end(1)
}

/// What is told of a chunk, if anything is, in a field by the step of its id.
fn write_statistics(out: &mut Written, step: u8, told: Told<'_>) {
    if let Told::Nothing = told {
        return;
    }
    out.begin(step);
    let mut id = 0u8;
    if let Some(count) = told.nulls() {
        out.longs(&[(3, count)]);
        id = 3;
    }
    if told.has_greatest() {
        out.field(5u8.saturating_sub(id), BINARY);
        write_greatest(out, told);
        id = 5;
    }
    if told.has_least() {
        out.field(6u8.saturating_sub(id), BINARY);
        write_least(out, told);
    }
    out.end(1)
}
