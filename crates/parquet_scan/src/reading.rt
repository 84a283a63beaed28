//! The chunks of groups.
ghost use Rattle.std.specs.Prelude.{◌≡◌, ◌+◌, ◌-◌, ◌<◌, ◌^◌, ◌≤◌, ◌++◌, [], Some, flat_map, get_or, min, map, length, true, IfOk, IfSome, OnOk, All};
ghost use Rattle.columns_core.specs.Array.{cells, column_of, data_type_of};
ghost use Rattle.columns_core.specs.Chunk.{AreEqualLengths};
ghost use Rattle.page_decoding.specs.Queue.{IsChunkSize};
ghost use Rattle.parquet_base.specs.Intervals.{is_well_shaped, row_count, rows_of};
ghost use Rattle.parquet_base.specs.Pieces.{cut};
ghost use Rattle.parquet_meta.specs.Reads.{ReadsFile};
ghost use Rattle.parquet_scan.specs.Causes.{causes_of_column, causes_of_group};
ghost use Rattle.parquet_scan.specs.Cells.{given_chunk, given_column};
ghost use Rattle.parquet_scan.specs.Costs.{lent_of_column, lent_of_group, taken_of_column, taken_of_group};
ghost use Rattle.parquet_scan.specs.Counting.{AreAllLocated, AreFirst, AreLocated, AreLocatedIf, AreLocations, lie_in_groups, causes_if_read, causes_of_groups, chunks_if_read, chunks_of_groups, lies_in_group, lent_if_read, lent_of_groups, rows_of_groups, shown, taken_if_read, taken_of_groups};
ghost use Rattle.parquet_scan.specs.Scan.{RisesBy, RisesJustBy, rows_in, shape_of, shapes_of_rows};

use crate::chunks::{RowsRead, add_chunks};
use crate::given::GivenRows;
use crate::group_column::read_column;
use crate::groups::column_named;
use crate::locations::Located;
use crate::pairs::TypedColumn;
use crate::request::GroupRequest;
use columns_core::{Array, Error, Field, Part, Seq};
use parquet_base::{Interval, Steps};
use parquet_meta::{PageLocation, RowGroupMetaData, Source};
use std::alloc::Global;
use std::collections::VecDeque;
use std::sync::ledger::Ledger;

/// Reads the groups that give rows.
pub(crate) fn read_groups<S: Source, L: Ledger>(
    alloc: Global,
    source: &mut S,
    groups: &[RowGroupMetaData],
    given: &[Seq<Interval>],
    located: &[Located],
    asked: GroupRequest<'_>,
    read: &mut RowsRead,
    steps: &mut Steps<L>,
) -> Result<(), Error>
    requires lengths { length given.now ≡ length groups.now }
    requires each { length located.now ≡ length groups.now }
    requires located { AreAllLocated asked.by_pages (S.told source.old) asked.fields.now groups.now given.now
        located.now }
    requires shaped { lie_in_groups groups.now given.now ≡ true }
    requires first { All (AreFirst asked.by_pages) given.now }
    requires size { IsChunkSize asked.chunk_size }
    requires some { 0 < length asked.fields.now }
    ensures reads { ReadsFile S.Source source.old source.new (λ bytes.
        causes_of_groups asked.entry.by_pages asked.entry.chunk_size asked.entry.fields.now bytes
        groups.now given.now) result }
    ensures chunks { OnOk result (IfSome (S.told source.old) (λ bytes. shown read.new.chunks.items
        ≡ shown read.old.chunks.items ++ chunks_of_groups asked.entry.by_pages asked.entry.chunk_size
        asked.entry.fields.now bytes groups.now given.now)) }
    ensures shapes { OnOk result (map shape_of read.new.chunks.items ≡ map shape_of read.old.chunks.items
        ++ flat_map (λ runs. shapes_of_rows asked.entry.fields.now asked.entry.chunk_size (rows_of runs))
        given.now) }
    ensures rows { OnOk result (read.new.rows ≡
        min (read.old.rows + rows_of_groups given.now) (2 ^ 64 - 1)) }
    ensures own_rows { read.old.rows ≡ rows_in read.old.chunks.items →
        OnOk result (read.new.rows ≡ rows_in read.new.chunks.items) }
    ensures even { OnOk result (All AreEqualLengths read.old.chunks.items
        → All AreEqualLengths read.new.chunks.items) }
    ensures ticks { steps.old ≤ steps.new }
    ensures pages { OnOk result (read.new.pages
        ≡ min (read.old.pages + (steps.new - steps.old)) (2 ^ 64 - 1)) }
    ensures lent { OnOk result (RisesJustBy (S.told source.old) steps.old steps.new (λ bytes.
        lent_of_groups asked.entry.by_pages asked.entry.fields.now bytes groups.now given.now)) }
    ensures taken { OnOk result (
        RisesBy (S.told source.old) (S.taken source.old) (S.taken source.new) (λ bytes.
        taken_of_groups asked.entry.by_pages asked.entry.fields.now bytes groups.now given.now)) }
{
    let _rows = read.rows;
    for i in 0..groups.len() {
        let runs = given[i].as_slice();
        let rows = GivenRows {
            group: &groups[i],
            runs,
            locations: located[i].as_slice(),
        };
        read_if_given(alloc, source, rows, asked, read, steps)?;
    }
    Ok(())
}

/// Reads a group, if it gives rows.
fn read_if_given<S: Source, L: Ledger>(
    alloc: Global,
    source: &mut S,
    rows: GivenRows<'_>,
    asked: GroupRequest<'_>,
    read: &mut RowsRead,
    steps: &mut Steps<L>,
) -> Result<(), Error>
    requires shaped { lies_in_group (rows.group.now, rows.runs.now) ≡ true }
    requires located { AreLocatedIf asked.by_pages (S.told source.old) asked.fields.now rows.group.now
        rows.runs.now rows.locations.now }
    requires first { AreFirst asked.by_pages rows.runs.now }
    requires size { IsChunkSize asked.chunk_size }
    requires some { 0 < length asked.fields.now }
    ensures reads { ReadsFile S.Source source.old source.new (λ bytes.
        causes_if_read asked.entry.by_pages asked.entry.chunk_size asked.entry.fields.now bytes
        (rows.entry.group.now, rows.entry.runs.now)) result }
    ensures chunks { OnOk result (IfSome (S.told source.old) (λ bytes. shown read.new.chunks.items
        ≡ shown read.old.chunks.items ++ chunks_if_read asked.entry.by_pages asked.entry.chunk_size
        asked.entry.fields.now bytes (rows.entry.group.now, rows.entry.runs.now))) }
    ensures shapes { OnOk result (map shape_of read.new.chunks.items ≡ map shape_of read.old.chunks.items
        ++ shapes_of_rows asked.entry.fields.now asked.entry.chunk_size (rows_of rows.entry.runs.now)) }
    ensures rows { OnOk result (read.new.rows
        ≡ min (read.old.rows + row_count rows.entry.runs.now) (2 ^ 64 - 1)) }
    ensures own_rows { read.old.rows ≡ rows_in read.old.chunks.items →
        OnOk result (read.new.rows ≡ rows_in read.new.chunks.items) }
    ensures even { OnOk result (All AreEqualLengths read.old.chunks.items
        → All AreEqualLengths read.new.chunks.items) }
    ensures ticks { steps.old ≤ steps.new }
    ensures pages { OnOk result (read.new.pages
        ≡ min (read.old.pages + (steps.new - steps.old)) (2 ^ 64 - 1)) }
    ensures lent { OnOk result (RisesJustBy (S.told source.old) steps.old steps.new (λ bytes.
        lent_if_read asked.entry.by_pages asked.entry.fields.now bytes
        (rows.entry.group.now, rows.entry.runs.now))) }
    ensures taken { OnOk result (
        RisesBy (S.told source.old) (S.taken source.old) (S.taken source.new) (λ bytes.
        taken_if_read asked.entry.by_pages asked.entry.fields.now bytes
        (rows.entry.group.now, rows.entry.runs.now))) }
{
    if !rows.runs.is_empty() {
        return read_group(alloc, source, rows, asked, read, steps);
    }
    let (_rows, _pages) = (read.rows, read.pages);
    Ok(())
}

/// Reads the columns of a group into chunks.
fn read_group<S: Source, L: Ledger>(
    alloc: Global,
    source: &mut S,
    rows: GivenRows<'_>,
    asked: GroupRequest<'_>,
    read: &mut RowsRead,
    steps: &mut Steps<L>,
) -> Result<(), Error>
    requires shaped { is_well_shaped rows.runs.now rows.group.now.num_rows ≡ true }
    requires some_rows { 0 < length rows.runs.now }
    requires located { asked.by_pages ≡ true
        → AreLocated (S.told source.old) asked.fields.now rows.group.now rows.locations.now }
    requires first { AreFirst asked.by_pages rows.runs.now }
    requires size { IsChunkSize asked.chunk_size }
    requires some { 0 < length asked.fields.now }
    ensures reads { ReadsFile S.Source source.old source.new (λ bytes.
        causes_of_group asked.entry.by_pages asked.entry.chunk_size asked.entry.fields.now bytes
        (rows.entry.group.now, rows_of rows.entry.runs.now)) result }
    ensures chunks { OnOk result (IfSome (S.told source.old) (λ bytes. shown read.new.chunks.items
        ≡ shown read.old.chunks.items ++ map (given_chunk asked.entry.by_pages asked.entry.fields.now bytes
        rows.entry.group.now) (cut asked.entry.chunk_size (rows_of rows.entry.runs.now)))) }
    ensures shapes { OnOk result (map shape_of read.new.chunks.items ≡ map shape_of read.old.chunks.items
        ++ shapes_of_rows asked.entry.fields.now asked.entry.chunk_size (rows_of rows.entry.runs.now)) }
    ensures rows { OnOk result (read.new.rows
        ≡ min (read.old.rows + row_count rows.entry.runs.now) (2 ^ 64 - 1)) }
    ensures own_rows { read.old.rows ≡ rows_in read.old.chunks.items →
        OnOk result (read.new.rows ≡ rows_in read.new.chunks.items) }
    ensures even { OnOk result (All AreEqualLengths read.old.chunks.items
        → All AreEqualLengths read.new.chunks.items) }
    ensures ticks { steps.old ≤ steps.new }
    ensures pages { OnOk result (read.new.pages
        ≡ min (read.old.pages + (steps.new - steps.old)) (2 ^ 64 - 1)) }
    ensures lent { OnOk result (RisesJustBy (S.told source.old) steps.old steps.new (λ bytes.
        lent_of_group asked.entry.by_pages asked.entry.fields.now bytes
        (rows.entry.group.now, rows_of rows.entry.runs.now))) }
    ensures taken { OnOk result (
        RisesBy (S.told source.old) (S.taken source.old) (S.taken source.new) (λ bytes.
        taken_of_group asked.entry.by_pages asked.entry.fields.now bytes
        (rows.entry.group.now, rows_of rows.entry.runs.now))) }
{
    let (mut columns, pages) = read_columns(alloc, source, rows, asked, steps)?;
    read.pages = read.pages.saturating_add(pages);
    add_chunks(alloc, read, &mut columns)
}

/// The arrays of all columns of a group, and how many pages were lent.
fn read_columns<S: Source, L: Ledger>(
    alloc: Global,
    source: &mut S,
    rows: GivenRows<'_>,
    asked: GroupRequest<'_>,
    steps: &mut Steps<L>,
) -> Result<(Vec<VecDeque<Array>>, usize), Error>
    requires shaped { is_well_shaped rows.runs.now rows.group.now.num_rows ≡ true }
    requires some_rows { 0 < length rows.runs.now }
    requires located { asked.by_pages ≡ true
        → AreLocated (S.told source.old) asked.fields.now rows.group.now rows.locations.now }
    requires first { AreFirst asked.by_pages rows.runs.now }
    requires size { IsChunkSize asked.chunk_size }
    ensures reads { ReadsFile S.Source source.old source.new (λ bytes.
        causes_of_group asked.entry.by_pages asked.entry.chunk_size asked.entry.fields.now bytes
        (rows.entry.group.now, rows_of rows.entry.runs.now)) result }
    ensures count { IfOk result (λ found. length found.0.items ≡ length asked.entry.fields.now) }
    ensures counts { IfOk result (λ found.
        let lengths = map length (cut asked.entry.chunk_size (rows_of rows.entry.runs.now)) in
        All (λ column. map (λ array. length (cells array)) column.items ≡ lengths) found.0.items) }
    ensures types { IfOk result (λ found.
        let pieces = cut asked.entry.chunk_size (rows_of rows.entry.runs.now) in
        map (λ field. map (λ _. field.data_type) pieces) asked.entry.fields.now
        ≡ map (λ column. map data_type_of column.items) found.0.items) }
    ensures columns { IfOk result (λ found. IfSome (S.told source.old) (λ bytes.
        let pieces = cut asked.entry.chunk_size (rows_of rows.entry.runs.now) in
        let column = given_column asked.entry.by_pages bytes rows.entry.group.now in
        map (λ field. map (λ piece. column piece field) pieces) asked.entry.fields.now
        ≡ map (λ column. map (λ array. Some (column_of array)) column.items) found.0.items)) }
    ensures ticks { steps.old ≤ steps.new }
    ensures pages { IfOk result (λ found. found.1 ≡ min (steps.new - steps.old) (2 ^ 64 - 1)) }
    ensures lent { OnOk result (RisesJustBy (S.told source.old) steps.old steps.new (λ bytes.
        lent_of_group asked.entry.by_pages asked.entry.fields.now bytes
        (rows.entry.group.now, rows_of rows.entry.runs.now))) }
    ensures taken { OnOk result (
        RisesBy (S.told source.old) (S.taken source.old) (S.taken source.new) (λ bytes.
        taken_of_group asked.entry.by_pages asked.entry.fields.now bytes
        (rows.entry.group.now, rows_of rows.entry.runs.now))) }
{
    let mut columns = Vec::new(alloc);
    let mut pages: usize = 0;
    for i in 0..asked.fields.len() {
        let field = &asked.fields[i];
        let of_field = locations_of_field(rows, i);
        let (arrays, lent) = read_field(alloc, source, rows, asked, field, of_field, steps)?;
        pages = pages.saturating_add(lent);
        columns.push(arrays)?;
    }
    Ok((columns, pages))
}

/// The locations of the pages of a field's column, as far as they are there.
fn locations_of_field<'a>(rows: GivenRows<'a>, field: usize) -> &'a [PageLocation]
    ensures { result.now ≡ get_or rows.entry.locations.now field [] }
{
    match rows.locations.get(field) {
        Some(list) => list.as_slice(),
        None => &[],
    }
}

/// The arrays of a field in a group, and how many pages were lent.
fn read_field<S: Source, L: Ledger>(
    alloc: Global,
    source: &mut S,
    rows: GivenRows<'_>,
    asked: GroupRequest<'_>,
    field: &Field,
    locations: &[PageLocation],
    steps: &mut Steps<L>,
) -> Result<(VecDeque<Array>, usize), Error>
    requires shaped { is_well_shaped rows.runs.now rows.group.now.num_rows ≡ true }
    requires some_rows { 0 < length rows.runs.now }
    requires located { asked.by_pages ≡ true
        → AreLocations (S.told source.old) rows.group.now field.now locations.now }
    requires first { AreFirst asked.by_pages rows.runs.now }
    requires size { IsChunkSize asked.chunk_size }
    ensures reads { ReadsFile S.Source source.old source.new (λ bytes.
        causes_of_column asked.entry.by_pages asked.entry.chunk_size bytes rows.entry.group.now
        (rows_of rows.entry.runs.now) field.now) result }
    ensures counts { IfOk result (λ found.
        map (λ array. length (cells array)) found.0.items ≡
        map length (cut asked.entry.chunk_size (rows_of rows.entry.runs.now))) }
    ensures types { IfOk result (λ found. map (λ _. field.now.data_type)
        (cut asked.entry.chunk_size (rows_of rows.entry.runs.now)) ≡ map data_type_of found.0.items) }
    ensures columns { IfOk result (λ found. IfSome (S.told source.old) (λ bytes.
        map (λ piece. given_column asked.entry.by_pages bytes rows.entry.group.now piece field.now)
        (cut asked.entry.chunk_size (rows_of rows.entry.runs.now))
        ≡ map (λ array. Some (column_of array)) found.0.items)) }
    ensures ticks { steps.old ≤ steps.new }
    ensures pages { IfOk result (λ found. found.1 ≡ min (steps.new - steps.old) (2 ^ 64 - 1)) }
    ensures lent { OnOk result (RisesJustBy (S.told source.old) steps.old steps.new (λ bytes.
        lent_of_column asked.entry.by_pages bytes rows.entry.group.now (rows_of rows.entry.runs.now)
        field.now)) }
    ensures taken { OnOk result (
        RisesBy (S.told source.old) (S.taken source.old) (S.taken source.new) (λ bytes.
        taken_of_column asked.entry.by_pages bytes rows.entry.group.now (rows_of rows.entry.runs.now)
        field.now)) }
{
    let Some(column) = column_named(rows.group, &field.name) else {
        return Err(Error::ExternalFormat(Part::Group));
    };
    let typed = TypedColumn {
        column,
        data_type: &field.data_type,
        locations,
    };
    read_column(alloc, source, rows, asked, typed, steps)
}
