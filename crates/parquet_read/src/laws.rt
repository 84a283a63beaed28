//! Laws of the rows of a group.
ghost use Rattle.parquet_read.specs.AllChunks.{HaveFirstRows, HaveRows};

/// All chunks of a group have as many rows as are wanted or more, and these are the first rows of each column, in their order.
pub fn chunks_have_the_rows_of_the_columns()
    ensures rows { HaveRows }
    ensures first { HaveFirstRows }
{}
