//! The columns of the sample.

ghost use Rattle.std.specs.Prelude.{◌≡◌};
ghost use Rattle.parquet_sample.specs.Writing.{written_of};

/// `id`, `qty` and `name`.
#[derive(Clone, Copy)]
pub(crate) enum SampleColumn {
    Id,
    Qty,
    Name,
}

/// How many rows a page has.
pub(crate) fn page_rows(column: SampleColumn) -> u32
    ensures { result ≡ (written_of column).page_rows }
{
    match column {
        SampleColumn::Id => 1000,
        SampleColumn::Qty => 700,
        SampleColumn::Name => 450,
    }
}
