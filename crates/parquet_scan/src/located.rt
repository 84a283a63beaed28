//! Columns that are read by the locations of their pages.
ghost use Rattle.std.specs.Prelude.{◌≡◌, ◌+◌, ◌-◌, ◌^◌, ◌≤◌, [], Some, true, filter, min, map, flat_map, length, sum_by, take, false, if◌then◌else◌, All, IfOk, IfErr, IfSome, IsTrue, OnOk};
ghost use Rattle.columns_core.specs.Array.{cells, data_type_of};
ghost use Rattle.parquet_base.specs.Intervals.{is_well_shaped, rows_of};
ghost use Rattle.parquet_base.specs.Pieces.{cut};
ghost use Rattle.parquet_meta.specs.Places.{lies_in as lies_in_by};
ghost use Rattle.parquet_page.specs.Lent.{are_well_shaped, has_parts, is_wanted as is_wanted_by, located_parts};
ghost use Rattle.page_decoding.specs.Bytes.{IsCausedByChunks, cell_bytes, fits_most};
ghost use Rattle.page_decoding.specs.Outcome.{Given};
ghost use Rattle.page_decoding.specs.Queue.{IsChunkSize};
ghost use Rattle.flat_values.specs.Conversion.{Value};
ghost use Rattle.flat_values.specs.MostBytes.{most_bytes};
ghost use Rattle.parquet_meta.specs.Reads.{ReadsFile};
ghost use Rattle.parquet_scan.specs.Causes.{causes_of_chunk, pair_causes};
ghost use Rattle.parquet_scan.specs.Cells.{is_null_type, located_item};
ghost use Rattle.parquet_scan.specs.Costs.{lent_of_chunk, taken_of_chunk};
ghost use Rattle.parquet_scan.specs.Counting.{AreLocationsOf};
ghost use Rattle.parquet_scan.specs.Decoded.{column_rows, pages_for};
ghost use Rattle.parquet_scan.specs.Located.{entry_causes, entry_part, entry_place, part_causes, part_in, place_before as place_before_by};
ghost use Rattle.parquet_scan.specs.Scan.{RisesBy, RisesJustBy};

use crate::column::place_of_chunk;
use crate::decode::decode_column;
use crate::given::GivenRows;
use crate::pairs::TypedColumn;
use columns_core::{Array, Error, Part};
use parquet_base::Steps;
use parquet_meta::{Place, Source, read_exact_at};
use parquet_page::{FilteredPage, IndexedPageReader, first_start, is_wanted, select_pages};
use std::alloc::Global;
use std::collections::VecDeque;
use std::sync::ledger::Ledger;

/// The parts of a chunk that were read: what stands before its first page, and the pages that are wanted.
#[derive(Drop)]
struct PageParts {
    before: Vec<u8>,
    bodies: Vec<Vec<u8>>,
    pages: Vec<FilteredPage>,
}

/// The arrays of a column in these rows of a group, and how many pages were lent.
pub(crate) fn read_located<S: Source, L: Ledger>(
    alloc: Global,
    source: &mut S,
    rows: GivenRows<'_>,
    chunk_size: Option<usize>,
    typed: TypedColumn<'_>,
    steps: &mut Steps<L>,
) -> Result<(VecDeque<Array>, usize), Error>
    requires shaped { is_well_shaped rows.runs.now rows.group.now.num_rows ≡ true }
    requires size { IsChunkSize chunk_size }
    requires located { AreLocationsOf (S.told source.old) rows.group.now typed.column.now
        typed.locations.now }
    requires pair { pair_causes typed.column.now.descriptor.primitive_type typed.data_type.now ≡ [] }
    requires not_null { is_null_type typed.data_type.now ≡ false }
    ensures reads { ReadsFile S.Source source.old source.new (λ bytes.
        causes_of_chunk true chunk_size bytes rows.entry.group.now (rows_of rows.entry.runs.now)
        typed.entry.data_type.now typed.entry.column.now) result }
    ensures typed { IfOk result (λ found.
        All (λ array. data_type_of array ≡ typed.entry.data_type.now) found.0.items) }
    ensures counts { IfOk result (λ found.
        map (λ array. length (cells array)) found.0.items
        ≡ map length (cut chunk_size (rows_of rows.entry.runs.now))) }
    ensures cells { IfOk result (λ found. IfSome (S.told source.old) (λ bytes.
        map (λ array. map (λ cell. Some (Value cell)) (cells array)) found.0.items
        ≡ map (map (located_item bytes rows.entry.group.now typed.entry.data_type.now
        typed.entry.column.now)) (cut chunk_size (rows_of rows.entry.runs.now)))) }
    ensures ticks { steps.old ≤ steps.new }
    ensures pages { IfOk result (λ found. found.1 ≡ min (steps.new - steps.old) (2 ^ 64 - 1)) }
    ensures lent { OnOk result (RisesJustBy (S.told source.old) steps.old steps.new (λ bytes.
        lent_of_chunk true bytes rows.entry.group.now (rows_of rows.entry.runs.now) typed.entry.column.now)) }
    ensures taken { OnOk result (
        RisesBy (S.told source.old) (S.taken source.old) (S.taken source.new) (λ bytes.
        taken_of_chunk true bytes rows.entry.group.now (rows_of rows.entry.runs.now)
        typed.entry.column.now)) }
{
    let (group, column) = (rows.group, typed.column);
    let count = count_of_rows(rows);
    let chunk = place_of_chunk(source, group, column)?;
    let pages = select_pages(alloc, rows.runs, typed.locations, group.num_rows)?;
    let bodies = read_bodies(alloc, source, chunk, &pages)?;
    let before = read_before(alloc, source, chunk, &pages, !bodies.is_empty())?;
    let parts = PageParts {
        before,
        bodies,
        pages,
    };
    decode_located(alloc, typed, count, chunk_size, parts, steps)
}

/// How many rows of a group are given.
pub(crate) fn count_of_rows(rows: GivenRows<'_>) -> usize
    requires { is_well_shaped rows.runs.now rows.group.now.num_rows ≡ true }
    ensures { result ≡ length (rows_of rows.entry.runs.now) }
{
    let group = rows.group;
    let _all = group.num_rows;
    rows.runs.iter().map(|run| run.length).sum()
}

/// The parts of the pages that have selected rows, one by one.
fn read_bodies<S: Source>(
    alloc: Global,
    source: &mut S,
    chunk: Place,
    pages: &[FilteredPage],
) -> Result<Vec<Vec<u8>>, Error>
    ensures reads { ReadsFile S.Source source.old source.new (λ bytes.
        flat_map (entry_causes bytes chunk) (filter is_wanted_by pages.now)) result }
    ensures bodies { IfOk result (λ bodies.
        IfSome (S.told source.old) (λ bytes.
        map (entry_part bytes chunk) (filter is_wanted_by pages.now)
        ≡ map (λ body. Some body.items) bodies.items)) }
    ensures length { IfOk result (λ bodies. length bodies.items ≡ length (filter is_wanted_by pages.now)) }
    ensures taken { OnOk result (S.taken source.new ≤ S.taken source.old
        + sum_by (λ page. page.length) (filter is_wanted_by pages.now)) }
{
    let mut bodies = Vec::new(alloc);
    for page in pages {
        if is_wanted(page) {
            bodies.push(read_part(alloc, source, chunk, part_of_page(page))?)?;
        }
    }
    Ok(bodies)
}

fn part_of_page(page: &FilteredPage) -> Place
    ensures { result ≡ entry_place page.now }
{
    Place {
        offset: page.start,
        length: page.length as u64,
    }
}

/// Where some page is wanted, the part of the chunk before the first page, wanted or not.
fn read_before<S: Source>(
    alloc: Global,
    source: &mut S,
    chunk: Place,
    pages: &[FilteredPage],
    wanted: bool,
) -> Result<Vec<u8>, Error>
    ensures reads { ReadsFile S.Source source.old source.new (λ bytes.
        (if wanted then part_causes bytes chunk (place_before_by chunk pages.now) else [])) result }
    ensures part { IfOk result (λ part.
        IsTrue wanted → IfSome (S.told source.old) (λ bytes.
        part_in bytes chunk (place_before_by chunk pages.now) ≡ Some part.items)) }
    ensures taken { S.taken source.new ≤ S.taken source.old
        + (if wanted then (place_before_by chunk pages.now).length else 0) }
{
    if wanted {
        return read_part(alloc, source, chunk, place_before(chunk, pages));
    }
    Ok(Vec::new(alloc))
}

fn place_before(chunk: Place, pages: &[FilteredPage]) -> Place
    ensures { result ≡ place_before_by chunk pages.now }
{
    Place {
        offset: chunk.offset,
        length: first_start(pages).saturating_sub(chunk.offset),
    }
}

/// The bytes of a part that lies in a chunk.
fn read_part<S: Source>(
    alloc: Global,
    source: &mut S,
    chunk: Place,
    part: Place,
) -> Result<Vec<u8>, Error>
    ensures reads { ReadsFile S.Source source.old source.new (λ bytes. part_causes bytes chunk part) result }
    ensures part { IfOk result (λ found.
        IfSome (S.told source.old) (λ bytes. part_in bytes chunk part ≡ Some found.items)) }
    ensures taken { S.taken source.new ≤ S.taken source.old + part.length }
{
    if !lies_in(chunk, part) {
        return Err(Error::ExternalFormat(Part::Location));
    }
    read_exact_at(alloc, source, part)
}

fn lies_in(outer: Place, part: Place) -> bool
    ensures { result ≡ lies_in_by outer part }
{
    outer.offset <= part.offset
        && part.offset as u128 + part.length as u128 <= outer.offset as u128 + outer.length as u128
}

/// The arrays of the selected rows of pages in their parts, so many rows, and how many pages were lent.
fn decode_located<L: Ledger>(
    alloc: Global,
    typed: TypedColumn<'_>,
    num_rows: usize,
    chunk_size: Option<usize>,
    parts: PageParts,
    steps: &mut Steps<L>,
) -> Result<(VecDeque<Array>, usize), Error>
    requires shaped { are_well_shaped parts.pages.items ≡ true }
    requires parts { has_parts parts.pages.items (map (λ body. body.items) parts.bodies.items) ≡ true }
    requires size { IsChunkSize chunk_size }
    requires pair { pair_causes typed.column.now.descriptor.primitive_type typed.data_type.now ≡ [] }
    requires not_null { is_null_type typed.data_type.now ≡ false }
    ensures typed { IfOk result (λ found.
        All (λ array. data_type_of array ≡ typed.entry.data_type.now) found.0.items) }
    ensures chunks { IfOk result (λ found.
        let stored = typed.entry.column.now.descriptor.primitive_type in
        let lent = located_parts stored (Some parts.before.items) parts.pages.items
        (map (λ body. body.items) parts.bodies.items) in
        let wanted = take num_rows (column_rows stored typed.entry.data_type.now lent.pages lent.causes) in
        map (λ array. map Given (cells array)) found.0.items ≡ cut chunk_size wanted) }
    ensures fits { IfOk result (λ found. let most = most_bytes typed.entry.data_type.now in
        All (λ array. fits_most most (sum_by cell_bytes (cells array)) ≡ true) found.0.items) }
    ensures cause { let stored = typed.entry.column.now.descriptor.primitive_type in
        let lent = located_parts stored (Some parts.before.items) parts.pages.items
        (map (λ body. body.items) parts.bodies.items) in
        let wanted = take num_rows (column_rows stored typed.entry.data_type.now lent.pages lent.causes) in
        IfErr result (IsCausedByChunks (most_bytes typed.entry.data_type.now) chunk_size wanted) }
    ensures ticks { steps.old ≤ steps.new }
    ensures pages { IfOk result (λ found. found.1 ≡ min (steps.new - steps.old) (2 ^ 64 - 1)) }
    ensures lent { OnOk result (let stored = typed.entry.column.now.descriptor.primitive_type in
        let lent = located_parts stored (Some parts.before.items) parts.pages.items
        (map (λ body. body.items) parts.bodies.items) in
        steps.new ≡ steps.old + length (pages_for stored typed.entry.data_type.now num_rows lent.pages)) }
{
    let column = typed.column;
    let PageParts {
        before,
        bodies,
        pages,
    } = parts;
    let reader = IndexedPageReader::from_ranges(alloc, Some(before), bodies, column, pages)?;
    let stored = &column.descriptor.primitive_type;
    decode_column(
        alloc,
        reader,
        stored,
        typed.data_type,
        num_rows,
        chunk_size,
        steps,
    )
}
