//! The least and the greatest of the sample's numbers.

ghost use Rattle.std.specs.Prelude.{◌≡◌, ◌<◌, ◌≤◌, ◌+◌, ◌*◌, ◌^◌, [], ◌∷◌, pos, None};
ghost use Rattle.parquet_plain.specs.Bodies.{present};
ghost use Rattle.parquet_sample.specs.Ends.{bounds_at, numbers_after, names_after, row_bounds};
ghost use Rattle.parquet_sample.specs.Sample.{name_text, qty_item, texts_at_most};
ghost use Rattle.parquet_sample.specs.Writing.{items_from};
ghost use Rattle.parquet_sample.specs.declared.column.SampleColumn.TheVariants.{Id, Qty, Name};
ghost use Rattle.parquet_page.specs.Stored.{Number, Octets};

use crate::column::SampleColumn;
use itoa::Buffer;

/// The least and the greatest of numbers.
#[derive(Clone, Copy)]
pub(crate) struct NumberEnds {
    pub least: u64,
    pub greatest: u64,
}

/// One number more.
fn with_number(ends: Option<NumberEnds>, number: u64) -> Option<NumberEnds>
    ensures { bounds_at Id result ≡ numbers_after (bounds_at Id ends) (Number (pos number) ∷ []) }
{
    match ends {
        None => Some(NumberEnds {
            least: number,
            greatest: number,
        }),
        Some(ends) => Some(NumberEnds {
            least: ends.least.min(number),
            greatest: ends.greatest.max(number),
        }),
    }
}

/// The quantity of one row more, where there is one.
fn with_qty(ends: Option<NumberEnds>, n: u64) -> Option<NumberEnds>
    ensures { bounds_at Qty result ≡ numbers_after (bounds_at Qty ends) (present (qty_item n ∷ [])) }
{
    if n % 5 == 0 {
        return ends;
    }
    with_number(ends, n % 1000)
}

fn id_ends(first: u64, rows: u32) -> Option<NumberEnds>
    requires fits { first + rows < 2 ^ 63 }
    ensures { bounds_at Id result ≡ numbers_after None (present (items_from Id first rows)) }
{
    let mut ends = None;
    for n in first..first + u64::from(rows) {
        ends = with_number(ends, n);
    }
    ends
}

fn qty_ends(first: u64, rows: u32) -> Option<NumberEnds>
    requires fits { first + rows < 2 ^ 63 }
    ensures { bounds_at Qty result ≡ numbers_after None (present (items_from Qty first rows)) }
{
    let mut ends = None;
    for n in first..first + u64::from(rows) {
        ends = with_qty(ends, n);
    }
    ends
}

/// Whether the name of a number comes no later than that of another.
fn is_at_most(first: u64, second: u64) -> bool
    ensures { result ≡ texts_at_most (Octets (name_text first)) (Octets (name_text second)) }
{
    let mut buffer = Buffer::new();
    let mut other = Buffer::new();
    buffer
        .format(first)
        .as_bytes()
        .cmp(other.format(second).as_bytes())
        .is_le()
}

/// One name more, by its number.
fn with_name(ends: Option<NumberEnds>, n: u64) -> Option<NumberEnds>
    ensures { bounds_at Name result ≡ names_after (bounds_at Name ends) (Octets (name_text n) ∷ []) }
{
    match ends {
        None => Some(NumberEnds {
            least: n,
            greatest: n,
        }),
        Some(ends) => Some(NumberEnds {
            least: if is_at_most(ends.least, n) {
                ends.least
            } else {
                n
            },
            greatest: if is_at_most(ends.greatest, n) {
                n
            } else {
                ends.greatest
            },
        }),
    }
}

/// How many digits a number has behind its first.
fn more_digits(n: u64) -> u32
    ensures least { 0 < result → 10 ^ result ≤ n }
    ensures most { n < 10 * 10 ^ result }
    ensures few { result < 20 }
{
    n.max(1).ilog10()
}

/// Names of numbers with equally many digits come in the order of the numbers.
fn name_ends(first: u64, rows: u32) -> Option<NumberEnds>
    requires fits { first + rows < 2 ^ 63 }
    ensures { bounds_at Name result ≡ names_after None (present (items_from Name first rows)) }
{
    if rows > 0 {
        let last = first + u64::from(rows) - 1;
        if more_digits(first) == more_digits(last) {
            return Some(NumberEnds {
                least: first,
                greatest: last,
            });
        }
    }
    compared_name_ends(first, rows)
}

/// The same, by comparing each name.
fn compared_name_ends(first: u64, rows: u32) -> Option<NumberEnds>
    requires fits { first + rows < 2 ^ 63 }
    ensures { bounds_at Name result ≡ names_after None (present (items_from Name first rows)) }
{
    let mut ends = None;
    for n in first..first + u64::from(rows) {
        ends = with_name(ends, n);
    }
    ends
}

/// The numbers of the least and the greatest item of so many rows.
pub(crate) fn number_ends(column: SampleColumn, first: u64, rows: u32) -> Option<NumberEnds>
    requires fits { first + rows < 2 ^ 63 }
    ensures { bounds_at column result ≡ row_bounds column first rows }
{
    match column {
        SampleColumn::Id => id_ends(first, rows),
        SampleColumn::Qty => qty_ends(first, rows),
        SampleColumn::Name => name_ends(first, rows),
    }
}
