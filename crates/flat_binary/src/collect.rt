//! All arrays of a column.
ghost use Rattle.std.specs.Prelude.{◌≡◌, ◌+◌, ◌-◌, ◌≤◌, All, IfErr, IfOk, OnOk, length, map, sum_by, true};
ghost use Rattle.columns_core.specs.Array.{cells, data_type_of};
ghost use Rattle.parquet_base.specs.Pieces.{cut};
ghost use Rattle.page_decoding.specs.Bytes.{IsCausedByChunks, cell_bytes, fits_most};
ghost use Rattle.page_decoding.specs.Chunks.{lent_more};
ghost use Rattle.page_decoding.specs.Outcome.{Given};
ghost use Rattle.page_decoding.specs.Queue.{IsChunkSize};
ghost use Rattle.flat_values.specs.ColumnLeft.{wanted};
ghost use Rattle.flat_binary.specs.PagesWanted.{pages_wanted};

use columns_core::{Array, Error};
use flat_values::ColumnArrays;
use parquet_base::Steps;
use std::alloc::Global;
use std::collections::VecDeque;
use std::sync::ledger::Ledger;

/// All arrays of a column, in turn. Pages are lent while rows are wanted.
pub fn collect_arrays<A: ColumnArrays, L: Ledger>(
    alloc: Global,
    arrays: &mut A,
    steps: &mut Steps<L>,
) -> Result<VecDeque<Array>, Error>
    requires size { IsChunkSize (A.left arrays.old).size }
    ensures typed { IfOk result (λ found.
        All (λ array. data_type_of array ≡ (A.left arrays.old).data_type) found.items) }
    ensures chunks { IfOk result (λ found. let left = A.left arrays.old in
        map (λ array. map Given (cells array)) found.items ≡ cut left.size (wanted left)) }
    ensures fits { IfOk result (λ found. let most = (A.left arrays.old).decoding.most_bytes in
        All (λ array. fits_most most (sum_by cell_bytes (cells array)) ≡ true) found.items) }
    ensures cause { let left = A.left arrays.old in
        IfErr result (IsCausedByChunks left.decoding.most_bytes left.size (wanted left)) }
    ensures later { steps.old ≤ steps.new }
    ensures lent { let left = A.left arrays.old in
        let pages = pages_wanted left.decoding.entries left.decoding.outcomes in
        OnOk result (steps.new ≡ steps.old
        + length (pages left.standing.dictionary left.standing.remaining left.pages)) }
    ensures count { OnOk result ((A.left arrays.new).lent
        ≡ lent_more (A.left arrays.old).lent (steps.new - steps.old)) }
{
    let mut found = VecDeque::new(alloc);
    while let Some(array) = arrays.next_counted(steps) {
        found.push_back(array?)?;
    }
    Ok(found)
}
