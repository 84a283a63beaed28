//! The arrays of a column's pages.
ghost use Rattle.std.specs.Prelude.{◌≡◌, ◌+◌, ◌-◌, ◌^◌, ◌≤◌, [], All, IfErr, IfOk, OnOk, true, false, min, map, length, sum_by, take};
ghost use Rattle.columns_core.specs.Array.{cells, data_type_of};
ghost use Rattle.parquet_page.specs.Lending.{has_data_behind};
ghost use Rattle.page_decoding.specs.Bytes.{IsCausedByChunks, cell_bytes, fits_most};
ghost use Rattle.page_decoding.specs.Column.{DataPagesAre};
ghost use Rattle.page_decoding.specs.Outcome.{Given};
ghost use Rattle.page_decoding.specs.Queue.{IsChunkSize};
ghost use Rattle.flat_values.specs.MostBytes.{most_bytes};
ghost use Rattle.parquet_base.specs.Pieces.{cut};
ghost use Rattle.parquet_scan.specs.Causes.{pair_causes};
ghost use Rattle.parquet_scan.specs.Cells.{is_null_type};
ghost use Rattle.parquet_scan.specs.Decoded.{column_rows, pages_for};

use columns_core::{Array, DataType, Error};
use flat_binary::collect_column;
use parquet_base::Steps;
use parquet_meta::PrimitiveType;
use parquet_page::Pages;
use std::alloc::Global;
use std::collections::VecDeque;
use std::sync::ledger::Ledger;

/// The first rows of pages, in arrays of a type and a size, and how many pages were lent, at most `usize::MAX`.
pub(crate) fn decode_column<I: Pages, L: Ledger>(
    alloc: Global,
    pages: I,
    stored: &PrimitiveType,
    data_type: &DataType,
    num_rows: usize,
    chunk_size: Option<usize>,
    steps: &mut Steps<L>,
) -> Result<(VecDeque<Array>, usize), Error>
    requires pair { pair_causes stored.now data_type.now ≡ [] }
    requires not_null { is_null_type data_type.now ≡ false }
    requires typed { DataPagesAre (λ page. page.type ≡ stored.now) (I.to_come pages) }
    requires ordered { has_data_behind (I.to_come pages) ≡ true }
    requires size { IsChunkSize chunk_size }
    requires fresh { I.lent_count pages ≡ 0 }
    ensures typed { IfOk result (λ found.
        All (λ array. data_type_of array ≡ data_type.now) found.0.items) }
    ensures chunks { IfOk result (λ found.
        let rows = column_rows stored.now data_type.now (I.to_come pages) (I.causes pages) in
        map (λ array. map Given (cells array)) found.0.items ≡ cut chunk_size (take num_rows rows)) }
    ensures fits { IfOk result (λ found.
        All (λ array. fits_most (most_bytes data_type.now) (sum_by cell_bytes (cells array)) ≡ true)
        found.0.items) }
    ensures cause { let rows = column_rows stored.now data_type.now (I.to_come pages) (I.causes pages) in
        IfErr result (IsCausedByChunks (most_bytes data_type.now) chunk_size (take num_rows rows)) }
    ensures later { steps.old ≤ steps.new }
    ensures count { IfOk result (λ found. found.1 ≡ min (steps.new - steps.old) (2 ^ 64 - 1)) }
    ensures lent { OnOk result (
        steps.new ≡ steps.old + length (pages_for stored.now data_type.now num_rows (I.to_come pages))) }
{
    let own_type = data_type.try_clone(alloc)?;
    collect_column(alloc, pages, stored, own_type, chunk_size, num_rows, steps)
}
