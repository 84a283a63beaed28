//! Fixed bytes as intervals and decimals.
ghost use Rattle.std.specs.Prelude.{◌≡◌, ◌≤◌, ◌<◌, ◌+◌, ◌^◌, negsuc, length, drop};
ghost use Rattle.columns_core.specs.declared.cell.Cell.{Int};
ghost use Rattle.columns_core.specs.ElementType.{days_ms_cell};
ghost use Rattle.flat_values.specs.Conversion.{Value, Months as ByMonths, DaysAndMilliseconds, BigEndian, convert as by_rule, int32_in, with_sign};
ghost use Rattle.parquet_page.specs.Stored.{Octets};

use crate::stored::word_at;
use columns_core::{NativeType, days_ms};

/// The bytes of an interval.
const INTERVAL_SIZE: usize = 12;

/// A conversion of byte strings of one size to the numbers of an array.
pub trait ConvertFixed<T: NativeType>: Copy {
    ghost use Rattle.std.specs.Prelude.{ℕ};
    ghost use Rattle.flat_values.specs.Conversion.{Conversion};

    /// How many bytes each string has.
    ghost string_size: { Self → ℕ };

    /// The rule that it follows.
    ghost rule: { Self → Conversion };

    /// How many bytes each string has.
    fn size(&self) -> usize
        ensures size { result ≡ string_size self.now }
        ensures some { 0 < result }
        ensures fits { result ≤ 16 };

    fn convert(&self, bytes: &[u8]) -> T
        requires { length bytes.now ≡ string_size self.now }
        ensures { by_rule (rule self.now) (Octets bytes.now) ≡ Value (T.cell result) };
}

/// Numbers with a sign, the first byte highest.
#[derive(Clone, Copy)]
pub struct Decimals {
    size: usize,
    ghost some: { 0 < size },
    ghost fits: { size ≤ 16 },
}

impl Decimals {
    /// Decimals of so many bytes.
    pub fn new(size: usize) -> Self
        requires some { 0 < size }
        requires fits { size ≤ 16 }
        ensures { result.size ≡ size }
    {
        Decimals { size }
    }
}

impl ConvertFixed<i128> for Decimals {
    ghost string_size = { λ decimals. decimals.size };

    ghost rule = { λ _. BigEndian };

    fn size(&self) -> usize {
        self.size
    }

    fn convert(&self, bytes: &[u8]) -> i128 {
        convert_i128(bytes, self.size)
    }
}

/// The months of intervals.
#[derive(Clone, Copy)]
pub struct Months;

impl ConvertFixed<i32> for Months {
    ghost string_size = { λ _. 12 };

    ghost rule = { λ _. ByMonths };

    fn size(&self) -> usize {
        INTERVAL_SIZE
    }

    fn convert(&self, bytes: &[u8]) -> i32 {
        convert_year_month(bytes)
    }
}

/// The days and the milliseconds of intervals.
#[derive(Clone, Copy)]
pub struct DaysAndMillis;

impl ConvertFixed<days_ms> for DaysAndMillis {
    ghost string_size = { λ _. 12 };

    ghost rule = { λ _. DaysAndMilliseconds };

    fn size(&self) -> usize {
        INTERVAL_SIZE
    }

    fn convert(&self, bytes: &[u8]) -> days_ms {
        convert_days_ms(bytes)
    }
}

/// An interval's months: the first four of its twelve bytes.
pub fn convert_year_month(value: &[u8]) -> i32
    requires { length value.now ≡ 12 }
    ensures { by_rule ByMonths (Octets value.now) ≡ Value (Int result) }
{
    int32_at(value, 0)
}

/// An interval's days and milliseconds: the other eight of its twelve bytes.
pub fn convert_days_ms(value: &[u8]) -> days_ms
    requires { length value.now ≡ 12 }
    ensures { by_rule DaysAndMilliseconds (Octets value.now) ≡ Value (days_ms_cell result) }
{
    days_ms(int32_at(value, 4), int32_at(value, 8))
}

fn int32_at(bytes: &[u8], place: usize) -> i32
    requires { place + 4 ≤ length bytes.now }
    ensures { result ≡ int32_in (drop place bytes.now) }
{
    word_at(bytes, place).cast_signed()
}

/// Bytes as a number with a sign, the first byte highest.
pub fn convert_i128(value: &[u8], n: usize) -> i128
    requires length { length value.now ≡ n }
    requires some { 0 < n }
    requires fits { n ≤ 16 }
    ensures { by_rule BigEndian (Octets value.now) ≡ Value (Int result) }
{
    let mut pattern: u128 = 0;
    for byte in value {
        pattern = pattern * 256 + *byte as u128;
    }
    signed(pattern, 8 * n)
}

/// A pattern of so many bits as a number with a sign.
fn signed(pattern: u128, bits: usize) -> i128
    requires some { 0 < bits }
    requires fits { bits ≤ 128 }
    requires pattern { pattern < 2 ^ bits }
    ensures { result ≡ with_sign bits pattern }
{
    let half = power(bits - 1);
    if pattern < half {
        pattern as i128
    } else {
        below_zero(half - 1 - (pattern - half))
    }
}

fn power(exponent: usize) -> u128
    requires { exponent < 128 }
    ensures { result ≡ 2 ^ exponent }
{
    1 << exponent
}

/// -1 for 0, -2 for 1, and so on.
fn below_zero(n: u128) -> i128
    requires { n < 2 ^ 127 }
    ensures { result ≡ negsuc n }
{
    -1 - n as i128
}
