//! Items of a column as pages store them.

ghost use Rattle.std.specs.Prelude.{◌≡◌, ◌<◌, ◌≤◌, Bool, Contains, List, Option, is_some, length, IfSome, IsSome};
ghost use Rattle.std.specs.List.{slice_range};
ghost use Rattle.compact_write.specs.Calls.{Writes};
ghost use Rattle.parquet_meta.specs.declared.metadata.PhysicalType.{PhysicalType};
ghost use Rattle.parquet_page.specs.Stored.{Stored};
ghost use Rattle.parquet_plain.specs.Bodies.{present, values_bytes};
ghost use Rattle.parquet_plain.specs.Columns.{end_bytes, nulls_of};
ghost use Rattle.parquet_plain.specs.Orders.{IsOrder};
ghost use Rattle.parquet_write.specs.Items.{row_of};

use std::alloc::AllocError;

/// Items one behind another, some of which are there. A row is a place among them.
pub trait Items {
    /// What pages store of each row, if it is there.
    ghost items: { Self → List (Option Stored) };

    /// The type that they store it as.
    ghost type_: { Self → PhysicalType };

    /// The order by which the least and the greatest are found.
    ghost at_most: { Self → Stored → Stored → Bool };

    /// How many rows there are.
    fn rows(&self) -> usize
        ensures { result ≡ length (items self.now) };

    /// Whether there is an item in a row.
    fn is_there(&self, row: usize) -> bool
        requires { row < length (items self.now) }
        ensures { result ≡ is_some (row_of (items self.now) row) };

    /// The values of the rows from one up to another that are there, as a page stores them.
    fn write_values(&self, body: &mut Vec<u8>, from: usize, to: usize) -> Result<(), AllocError>
        requires order { from ≤ to }
        requires within { to ≤ length (items self.now) }
        ensures { let rows = slice_range (items self.now) from to in
            Writes (values_bytes (type_ self.now) (present rows)) body.old result body.new };

    /// A row that is there, as an end.
    fn write_end(&self, bytes: &mut Vec<u8>, row: usize) -> Result<(), AllocError>
        requires { IsSome (row_of (items self.now) row) }
        ensures { IfSome (row_of (items self.now) row) (λ item.
            Writes (end_bytes (type_ self.now) item) bytes.old result bytes.new) };

    /// Whether a row comes no later than another; both are there.
    fn is_at_most(&self, first: usize, second: usize) -> bool
        requires first { IsSome (row_of (items self.now) first) }
        requires second { IsSome (row_of (items self.now) second) }
        ensures { IfSome (row_of (items self.now) first) (λ a.
            IfSome (row_of (items self.now) second) (λ b. result ≡ at_most self.now a b)) };

    /// The order is one of all the items that are there.
    ghost ordered: { (values : Self) → IsOrder (Contains (present (items values))) (at_most values) };
}

/// How many rows from one up to another are null.
pub(crate) fn null_count<I: Items>(items: &I, from: usize, to: usize) -> usize
    requires order { from ≤ to }
    requires within { to ≤ length (I.items items.now) }
    ensures { result ≡ nulls_of (slice_range (I.items items.now) from to) }
{
    let mut nulls = 0;
    for row in from..to {
        if !items.is_there(row) {
            nulls += 1;
        }
    }
    nulls
}
