//! How many bytes ends have together, and how many fit an array.
ghost use Rattle.std.specs.Prelude.{◌≡◌, option_copied};
ghost use Rattle.columns_core.specs.Types.{value_type as value_type_by};
ghost use Rattle.page_decoding.specs.Bytes.{fits_most};
ghost use Rattle.flat_values.specs.MostBytes.{most_bytes as most_bytes_by};
ghost use Rattle.column_ends.specs.Counted.{with_one_more, fit as fit_by};
ghost use Rattle.column_ends.specs.Converted.{bytes_of_one_end};

use columns_core::{Cell, DataType};
use std::marker::Model;

/// How many bytes the texts or byte strings of an array of this type have together at most.
pub fn most_bytes(data_type: &DataType) -> Option<u64>
    ensures { result ≡ most_bytes_by data_type.now }
{
    match data_type {
        DataType::Utf8 | DataType::Binary => Some(0x7fff_ffff),
        DataType::LargeUtf8 | DataType::LargeBinary => Some(0x7fff_ffff_ffff_ffff),
        _ => None,
    }
}

/// The bytes of low ends and those of high ends, each counted up to the greatest number.
#[derive(Drop)]
pub struct EndBytes {
    low: u64,
    high: u64,
}

impl Model for EndBytes {
    ghost use Rattle.std.specs.Prelude.{ℕ};
    ghost use Rattle.std.specs.Coded.{coded×, coded_ℕ};

    ghost Value = { ℕ × ℕ };

    ghost coded = { coded× coded_ℕ coded_ℕ };

    ghost view = { λ bytes. (bytes.low, bytes.high) };
}

impl EndBytes {
    pub fn new() -> Self
        ensures { result ≡ (0, 0) }
    {
        EndBytes { low: 0, high: 0 }
    }

    /// Counts the ends of one more group or page.
    pub fn add(&mut self, low: Option<&Cell>, high: Option<&Cell>)
        ensures { self.new ≡ with_one_more self.old (option_copied low.entry) (option_copied high.entry) }
    {
        self.low = self.low.saturating_add(bytes_of_end(low));
        self.high = self.high.saturating_add(bytes_of_end(high));
    }

    /// Whether the low ends fit one array of a type, and the high ones another. Those of a dictionary type are values of its entries' type.
    pub fn fit(&self, data_type: &DataType) -> bool
        ensures { result ≡ fit_by data_type.now self.now }
    {
        let most = most_bytes(value_type(data_type));
        fits(most, self.low) && fits(most, self.high)
    }
}

/// Of a dictionary type the type of its entries, and of any other the type itself.
pub fn value_type(data_type: &DataType) -> &DataType
    ensures { result.now ≡ value_type_by data_type.now }
{
    match data_type {
        DataType::Dictionary(_, values, _) => values.get(),
        _ => data_type,
    }
}

fn fits(most: Option<u64>, count: u64) -> bool
    ensures { result ≡ fits_most most count }
{
    match most {
        None => true,
        Some(most) => count <= most,
    }
}

/// The bytes of an end that is a text or a byte string.
fn bytes_of_end(end: Option<&Cell>) -> u64
    ensures { result ≡ bytes_of_one_end (option_copied end.entry) }
{
    match end {
        Some(Cell::Text(text)) => text.as_str().len() as u64,
        Some(Cell::Bytes(bytes)) => bytes.as_slice().len() as u64,
        _ => 0,
    }
}
