//! The least and the greatest of items, by their rows.

ghost use Rattle.std.specs.Prelude.{◌≡◌, ◌≤◌, length, IfOk, IfSome, IsSome};
ghost use Rattle.std.specs.List.{slice_range};
ghost use Rattle.parquet_plain.specs.Bounds.{joined_bounds, stored_bounds};
ghost use Rattle.parquet_plain.specs.Columns.{end_bytes, first_of, last_of};
ghost use Rattle.parquet_write.specs.Items.{AreBothThere, FindsBounds, bounds_by_rows, row_of};

use crate::items::Items;
use columns_core::Seq;
use parquet_plain::Ends;
use std::alloc::{AllocError, Global};

/// The row of the least item and that of the greatest one.
#[derive(Clone, Copy)]
pub(crate) struct RowBounds {
    pub least: usize,
    pub greatest: usize,
}

/// The one of two rows that comes first; both are there.
fn earlier<I: Items>(items: &I, first: usize, second: usize) -> usize
    requires first { IsSome (row_of (I.items items.now) first) }
    requires second { IsSome (row_of (I.items items.now) second) }
    ensures { let row = row_of (I.items items.now) in
        IfSome (row first) (λ a. IfSome (row second) (λ b.
        row result ≡ Some (first_of (I.at_most items.now) a b))) }
{
    if items.is_at_most(first, second) {
        first
    } else {
        second
    }
}

/// The one that comes last.
fn later<I: Items>(items: &I, first: usize, second: usize) -> usize
    requires first { IsSome (row_of (I.items items.now) first) }
    requires second { IsSome (row_of (I.items items.now) second) }
    ensures { let row = row_of (I.items items.now) in
        IfSome (row first) (λ a. IfSome (row second) (λ b.
        row result ≡ Some (last_of (I.at_most items.now) a b))) }
{
    if items.is_at_most(first, second) {
        second
    } else {
        first
    }
}

/// The bounds of two lists of rows, one behind the other.
pub(crate) fn joined<I: Items>(
    items: &I,
    first: Option<RowBounds>,
    second: Option<RowBounds>,
) -> Option<RowBounds>
    requires first { AreBothThere (I.items items.now) first }
    requires second { AreBothThere (I.items items.now) second }
    ensures there { AreBothThere (I.items items.now) result }
    ensures joined { let bounds = bounds_by_rows (I.items items.now) in
        bounds result ≡ joined_bounds (I.at_most items.now) (bounds first) (bounds second) }
{
    match (first, second) {
        (None, found) => found,
        (found, None) => found,
        (Some(a), Some(b)) => Some(RowBounds {
            least: earlier(items, a.least, b.least),
            greatest: later(items, a.greatest, b.greatest),
        }),
    }
}

/// The bounds of the rows from one up to another that are there.
pub(crate) fn bounds_of<I: Items>(items: &I, from: usize, to: usize) -> Option<RowBounds>
    requires order { from ≤ to }
    requires within { to ≤ length (I.items items.now) }
    ensures { let rows = slice_range (I.items items.now) from to in
        FindsBounds (I.at_most items.now) (I.items items.now) rows result }
{
    let mut found = None;
    for row in from..to {
        if items.is_there(row) {
            let own = RowBounds {
                least: row,
                greatest: row,
            };
            found = joined(items, found, Some(own));
        }
    }
    found
}

fn end_of<I: Items>(alloc: Global, items: &I, row: usize) -> Result<Seq<u8>, AllocError>
    requires { IsSome (row_of (I.items items.now) row) }
    ensures { IfSome (row_of (I.items items.now) row) (λ item.
        IfOk result (λ bytes. bytes ≡ end_bytes (I.type_ items.now) item)) }
{
    let mut bytes = Vec::new(alloc);
    items.write_end(&mut bytes, row)?;
    Ok(Seq::new(bytes))
}

/// The ends as they are stored.
pub(crate) fn stored_ends<I: Items>(
    alloc: Global,
    items: &I,
    bounds: Option<RowBounds>,
) -> Result<Option<Ends>, AllocError>
    requires { AreBothThere (I.items items.now) bounds }
    ensures { let found = bounds_by_rows (I.items items.now) bounds in
        IfOk result (λ ends. ends ≡ stored_bounds (I.type_ items.now) found) }
{
    match bounds {
        None => Ok(None),
        Some(bounds) => {
            let least = end_of(alloc, items, bounds.least)?;
            let greatest = end_of(alloc, items, bounds.greatest)?;
            Ok(Some(Ends { least, greatest }))
        }
    }
}
