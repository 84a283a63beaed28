//! Runs of a page's rows.
ghost use Rattle.std.specs.Prelude.{◌≡◌};

/// Rows that have a value, rows that are null, or stored values that are passed over.
#[derive(Clone, Copy, Debug, PartialEq, Eq)]
pub enum Run {
    Present(usize),
    Null(usize),
    Passed(usize),
}

impl Run {
    ghost use Rattle.parquet_page.specs.Runs.{run_rows};

    /// How many rows it gives.
    pub fn rows(self) -> usize
        ensures { result ≡ run_rows self }
    {
        match self {
            Run::Present(rows) | Run::Null(rows) => rows,
            Run::Passed(_) => 0,
        }
    }
}
