//! The least and the greatest value of each page and its count of nulls, as arrays.
use columns_core::{Array, PrimitiveArray, Seq};

/// Of the pages of a column, in turn, the least and the greatest value and the number of nulls. What is not told of a page is null.
#[derive(Drop, PartialEq)]
pub struct ColumnPageStatistics {
    pub min: Array,
    pub max: Array,
    pub null_count: PrimitiveArray<u64>,
}

/// The statistics of the pages of a field: of its one column, or of each field inside it.
#[derive(Drop, PartialEq)]
pub enum FieldPageStatistics {
    Single(ColumnPageStatistics),
    Multiple(Seq<FieldPageStatistics>),
}

impl From<ColumnPageStatistics> for FieldPageStatistics {
    ghost use Rattle.std.specs.Prelude.{◌≡◌};
    ghost use Rattle.parquet_indexes.specs.declared.page_statistics.FieldPageStatistics.{Single};

    ghost from_gives = { λ column field. field ≡ Single column };

    fn from(column: ColumnPageStatistics) -> FieldPageStatistics {
        FieldPageStatistics::Single(column)
    }
}
