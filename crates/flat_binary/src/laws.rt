//! Laws of columns that are read in arrays.
ghost use Rattle.flat_binary.specs.Cuts.{HasSameCells};

/// The arrays of a column, joined, are the same list of cells for any two chunk sizes by which it is read.
pub fn chunk_sizes_change_no_cell()
    ensures { HasSameCells }
{}
