//! Items in pages of a size.

ghost use Rattle.std.specs.Prelude.{◌≡◌, ◌<◌, ◌≤◌, ◌-◌, ◌^◌, None, length, IfOk};
ghost use Rattle.std.specs.List.{list_all, slice_range};
ghost use Rattle.compact_write.specs.Calls.{Writes};
ghost use Rattle.parquet_plain.specs.Bodies.{body_bytes, levels_of};
ghost use Rattle.parquet_plain.specs.Columns.{nulls_of, written_chunk, written_page};
ghost use Rattle.parquet_plain.specs.Description.{chunk_bytes, page_bytes};
ghost use Rattle.parquet_plain.specs.Short.{is_short_page};
ghost use Rattle.parquet_write.specs.Items.{FindsBounds, unnamed_column};
ghost use Rattle.parquet_write.specs.Parts.{WritesShort, page_told, pages_told};

use crate::bounds::{RowBounds, bounds_of, joined, stored_ends};
use crate::facts::PageFacts;
use crate::items::{Items, null_count};
use crate::levels::write_levels;
use crate::measure::{to_measure, to_short};
use crate::page::write_page;
use crate::parts::Room;
use columns_core::Error;
use parquet_meta::Repetition;
use std::alloc::{AllocError, Global};
use std::cmp::min;

/// How items are paged: only an optional column has levels, and each page but the last has so many rows.
#[derive(Clone, Copy)]
pub struct Paging {
    pub repetition: Repetition,
    pub page_rows: usize,
}

/// What is told of pages, and of all their items.
#[derive(Drop)]
pub(crate) struct Paged {
    pub nulls: u64,
    pub bounds: Option<RowBounds>,
    pub pages: Vec<PageFacts>,
}

/// The levels behind their length, where the column has them.
fn write_levels_of<I: Items>(
    room: &mut Room,
    items: &I,
    repetition: Repetition,
    from: usize,
    to: usize,
) -> Result<(), AllocError>
    requires order { from ≤ to }
    requires within { to ≤ length (I.items items.now) }
    requires few { to - from < 2 ^ 31 }
    ensures { let rows = slice_range (I.items items.now) from to in
        Writes (levels_of repetition rows) room.old.body result room.new.body }
{
    match repetition {
        Repetition::Optional => {
            room.levels.clear();
            write_levels(&mut room.levels, items, from, to)?;
            let length = to_measure(room.levels.len())?;
            room.body.extend_from_slice(&length.to_le_bytes())?;
            room.body.extend_from_slice(&room.levels)?;
            Ok(())
        }
        Repetition::Required | Repetition::Repeated => Ok(()),
    }
}

/// The body of a page of the rows from one up to another.
fn write_body<I: Items>(
    room: &mut Room,
    items: &I,
    repetition: Repetition,
    from: usize,
    to: usize,
) -> Result<(), AllocError>
    requires order { from ≤ to }
    requires within { to ≤ length (I.items items.now) }
    requires few { to - from < 2 ^ 31 }
    ensures { let rows = slice_range (I.items items.now) from to in
        IfOk result (λ _. room.new.body.items ≡ body_bytes (I.type_ items.now) repetition rows) }
{
    room.body.clear();
    write_levels_of(room, items, repetition, from, to)?;
    items.write_values(&mut room.body, from, to)
}

/// A page of the rows from one up to another: how many bytes it has with its header.
fn write_rows<I: Items>(
    out: &mut Vec<u8>,
    room: &mut Room,
    items: &I,
    paging: Paging,
    from: usize,
    to: usize,
) -> Result<u32, Error>
    requires order { from ≤ to }
    requires within { to ≤ length (I.items items.now) }
    ensures written { let column = unnamed_column (I.type_ items.now) (I.at_most items.now) paging in
        let page = written_page column (slice_range (I.items items.now) from to) in
        WritesShort (page_bytes page) (is_short_page page) out.old result out.new }
    ensures size { let column = unnamed_column (I.type_ items.now) (I.at_most items.now) paging in
        let page = written_page column (slice_range (I.items items.now) from to) in
        IfOk result (λ size. size ≡ length (page_bytes page)) }
{
    let rows = to_short(to - from)?;
    write_body(room, items, paging.repetition, from, to)?;
    to_short(room.body.len())?;
    let start = out.len();
    write_page(out, rows, &room.body)?;
    to_short(out.len() - start)
}

/// A page, what is told of it, and the bounds of its items.
fn add_page<I: Items>(
    alloc: Global,
    out: &mut Vec<u8>,
    room: &mut Room,
    items: &I,
    paging: Paging,
    from: usize,
    to: usize,
) -> Result<(Option<RowBounds>, PageFacts), Error>
    requires order { from ≤ to }
    requires within { to ≤ length (I.items items.now) }
    ensures written { let column = unnamed_column (I.type_ items.now) (I.at_most items.now) paging in
        let page = written_page column (slice_range (I.items items.now) from to) in
        WritesShort (page_bytes page) (is_short_page page) out.old result out.new }
    ensures told { let column = unnamed_column (I.type_ items.now) (I.at_most items.now) paging in
        let page = written_page column (slice_range (I.items items.now) from to) in
        IfOk result (λ told. told.1 ≡ page_told (length out.old.items) from page) }
    ensures bounds { let rows = slice_range (I.items items.now) from to in
        IfOk result (λ told. FindsBounds (I.at_most items.now) (I.items items.now) rows told.0) }
{
    let start = out.len();
    let size = write_rows(out, room, items, paging, from, to)?;
    let bounds = bounds_of(items, from, to);
    let nulls = null_count(items, from, to) as u32;
    let ends = stored_ends(alloc, items, bounds)?;
    let page = PageFacts {
        offset: start as u64,
        size,
        first_row: from as u64,
        nulls,
        ends,
    };
    Ok((bounds, page))
}

/// All items in pages, and what is told of them.
pub(crate) fn write_pages<I: Items>(
    alloc: Global,
    out: &mut Vec<u8>,
    room: &mut Room,
    items: &I,
    paging: Paging,
) -> Result<Paged, Error>
    requires { 0 < paging.page_rows }
    ensures written { let column = unnamed_column (I.type_ items.now) (I.at_most items.now) paging in
        let chunk = written_chunk column (I.items items.now) in
        WritesShort (chunk_bytes chunk) (list_all is_short_page chunk.pages) out.old result out.new }
    ensures told { let column = unnamed_column (I.type_ items.now) (I.at_most items.now) paging in
        let pages = (written_chunk column (I.items items.now)).pages in
        IfOk result (λ paged. paged.pages.items ≡ pages_told (length out.old.items) 0 pages) }
    ensures found { let rows = I.items items.now in
        IfOk result (λ paged. FindsBounds (I.at_most items.now) rows rows paged.bounds) }
    ensures nulls { IfOk result (λ paged. paged.nulls ≡ nulls_of (I.items items.now)) }
{
    let rows = items.rows();
    let mut nulls = 0;
    let mut bounds = None;
    let mut pages = Vec::new(alloc);
    let mut row = 0;
    while row < rows {
        let to = row + min(paging.page_rows, rows - row);
        let (own, page) = add_page(alloc, out, room, items, paging, row, to)?;
        nulls += u64::from(page.nulls);
        bounds = joined(items, bounds, own);
        pages.push(page)?;
        row = to;
    }
    Ok(Paged {
        nulls,
        bounds,
        pages,
    })
}
