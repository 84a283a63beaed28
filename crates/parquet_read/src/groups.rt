//! The rows of a row group of a file.
ghost use Rattle.std.specs.Prelude.{◌≡◌, ◌+◌, ◌≤◌, ◌<◌, true, false, length, map, OnOk};
ghost use Rattle.std.specs.List.{list_all};
ghost use Rattle.parquet_meta.specs.Keeps.{Keeps};
ghost use Rattle.parquet_page.specs.Lent.{are_well_shaped};
ghost use Rattle.parquet_read.specs.Asked as spec;
ghost use Rattle.parquet_read.specs.Groups.{OpensGroup, rows_of_columns as rows_of_columns_by, rows_of_group as rows_of_group_by, rows_of_lists as rows_of_lists_by};
ghost use Rattle.parquet_read.specs.RowGroup.{group_left};

use crate::RowGroupDeserializer;
use crate::many::read_columns_many;
use columns_core::{Error, Field};
use parquet_meta::{RowGroupMetaData, Source};
use parquet_page::{FilteredPage, count_selected};
use std::alloc::Global;

/// The first selected rows of a group under a limit, of all these fields.
pub(crate) fn open_group<S: Source>(
    alloc: Global,
    source: &mut S,
    group: &RowGroupMetaData,
    fields: Vec<Field>,
    chunk_size: Option<usize>,
    limit: Option<usize>,
    pages: Option<Vec<Vec<Vec<FilteredPage>>>>,
) -> Result<RowGroupDeserializer, Error>
    requires { 0 < length fields.items }
    ensures keeps { Keeps S.Source source.old source.new }
    ensures quiet { OnOk result (S.faults source.new ≡ S.faults source.old) }
    ensures opens { let reading = spec.group_reading group.now chunk_size limit in
        OpensGroup group_left (S.told source.old) (S.faults source.old) (S.faults source.new)
        reading fields.items (spec.lists_of pages) result }
    ensures unread { let reading = spec.group_reading group.now chunk_size limit in
        spec.is_readable reading fields.items (spec.lists_of pages) ≡ false → source.new ≡ source.old }
    ensures taken { let reading = spec.group_reading group.now chunk_size limit in
        S.taken source.new ≤ S.taken source.old
        + spec.fields_length reading (spec.asked_fields limit fields.items (spec.lists_of pages)) }
{
    let rows = rows_of_group(group, &pages);
    let columns = read_columns_many(alloc, source, group, fields, chunk_size, limit, pages)?;
    RowGroupDeserializer::new(alloc, columns, rows, limit)
}

/// The selected rows of a group: those of its first field's pages, or without locations all.
fn rows_of_group(group: &RowGroupMetaData, pages: &Option<Vec<Vec<Vec<FilteredPage>>>>) -> usize
    ensures { spec.are_shaped_pages (spec.lists_of pages.now) ≡ true
        → result ≡ rows_of_group_by group.now (spec.lists_of pages.now) }
{
    match pages {
        Some(lists) => rows_of_lists(lists),
        None => group.num_rows,
    }
}

fn rows_of_lists(lists: &[Vec<Vec<FilteredPage>>]) -> usize
    ensures { let shown = map (λ own. map (λ one. one.items) own.items) lists.now in
        list_all (list_all are_well_shaped) shown ≡ true → result ≡ rows_of_lists_by shown }
{
    match lists.first() {
        Some(own) => rows_of_columns(own),
        None => 0,
    }
}

fn rows_of_columns(columns: &[Vec<FilteredPage>]) -> usize
    ensures { let own = map (λ one. one.items) columns.now in
        list_all are_well_shaped own ≡ true → result ≡ rows_of_columns_by own }
{
    match columns.first() {
        Some(pages) => count_selected(pages).unwrap_or(0),
        None => 0,
    }
}
