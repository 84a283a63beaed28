//! Facts about the definitions that the contracts cite.
ghost use Rattle.parquet_scan.specs.Exact.{KeepsExactly, TrueEndsKeep};
ghost use Rattle.parquet_scan.specs.Laws.{GivenCellsAreCells, GivenChunksAreTheFiles, LocatedCellsAreCells, LosesNoRowOfValidFiles, RunsAreTheSame};
ghost use Rattle.parquet_scan.specs.LookedAt.{HaveSameScan};
ghost use Rattle.parquet_scan.specs.Scan.{request_of};

use crate::Bound;
use columns_core::Schema;

/// Statistics rule rows out exactly where no rows of which they are true hold an item that meets the bound.
pub fn keeps_is_exact()
    ensures { KeepsExactly }
{}

/// Statistics that are true never rule out a row that meets the bound.
pub fn true_statistics_keep()
    ensures { TrueEndsKeep }
{}

/// Where counts and locations are true, a cell in the page that a location names is the cell in the chunk's order.
pub fn located_cells_are_cells()
    ensures { LocatedCellsAreCells }
{}

/// So, where these are true, the cells that a scan gives are those in the chunks' own order, pruned by pages or not.
pub fn given_cells_are_cells()
    ensures { GivenCellsAreCells }
{}

/// So, where these are true, the chunks that a scan gives are those of the file, whatever locations it was read by.
pub fn given_chunks_are_the_files()
    ensures { GivenChunksAreTheFiles }
{}

/// Which rows are kept is the same for every chunk size and every limit.
pub fn runs_are_the_same()
    ensures { RunsAreTheSame }
{}

/// Where the statistics of a group of a valid file are true, a legal request rules out none of its rows that meets all
/// its bounds.
pub fn no_row_is_lost()
    ensures { LosesNoRowOfValidFiles }
{}

/// Two files of one length that agree on the parts which a request looks at in the first give the same scan. So no byte outside of them changes which answers may come.
pub fn same_parts(
    _first: &[u8],
    _second: &[u8],
    _schema: &Schema,
    _bounds: &[Bound],
    _chunk_size: Option<usize>,
    _limit: Option<usize>,
)
    ensures { HaveSameScan (request_of _schema.now _bounds.now _chunk_size _limit) _first.now _second.now }
{}
