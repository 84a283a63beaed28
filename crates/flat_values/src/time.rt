//! Times: their units, and the day and nanoseconds of older files.
ghost use Rattle.std.specs.Prelude.{◌≡◌, true, false, ◌/◌, pos, int_div, nat_abs, option_copied, IfOk, IfErr};
ghost use Rattle.columns_core.specs.Types.{signed_range, is_in};
ghost use Rattle.flat_values.specs.Units.{nanoseconds_of, per_second, unit_factor, stored_per_second};
ghost use Rattle.flat_values.specs.Units.{factor_between as factor_of};
ghost use Rattle.flat_values.specs.Numbers.{nanoseconds_in, IsFactor};

use crate::Convert;
use columns_core::{Error, TimeUnit};
use parquet_meta::{ParquetTimeUnit, PrimitiveLogicalType};

const JULIAN_DAY_OF_1970: i128 = 2_440_588;

const NANOSECONDS_PER_DAY: i128 = 86_400_000_000_000;

/// The nanoseconds since 1970 of three words: the nanoseconds of the day in two, and the Julian day.
pub fn int96_to_i64_ns(value: [u32; 3]) -> Result<i64, Error>
    ensures nanoseconds { IfOk result (λ n. n ≡ nanoseconds_in value) }
    ensures in_range { IfOk result (λ _. is_in (signed_range 64) (nanoseconds_in value) ≡ true) }
    ensures refused { IfErr result
        (λ e. (e ≡ Error.Overflow) × (is_in (signed_range 64) (nanoseconds_in value) ≡ false)) }
{
    let [low, high, day] = value;
    narrow(nanoseconds_since_1970(low, high, day))
}

fn nanoseconds_since_1970(low: u32, high: u32, day: u32) -> i128
    ensures { result ≡ nanoseconds_of low high day }
{
    let of_day = (low as u64 + high as u64 * 4_294_967_296).cast_signed();
    (day as i128 - JULIAN_DAY_OF_1970) * NANOSECONDS_PER_DAY + of_day as i128
}

/// A number of 64 bits, if it is one.
fn narrow(n: i128) -> Result<i64, Error>
    ensures value { IfOk result (λ y. y ≡ n) }
    ensures in_range { IfOk result (λ _. is_in (signed_range 64) n ≡ true) }
    ensures refused { IfErr result (λ e. (e ≡ Error.Overflow) × (is_in (signed_range 64) n ≡ false)) }
{
    match i64::try_from(n) {
        Ok(narrow) => Ok(narrow),
        Err(_) => Err(Error::Overflow),
    }
}

/// Nanoseconds in a unit, rounded toward zero.
fn in_unit(nanoseconds: i64, unit: TimeUnit) -> i64
    ensures { result ≡ int_div nanoseconds (pos (1000000000 / per_second unit)) }
{
    match unit {
        TimeUnit::Second => nanoseconds / 1_000_000_000,
        TimeUnit::Millisecond => nanoseconds / 1_000_000,
        TimeUnit::Microsecond => nanoseconds / 1_000,
        TimeUnit::Nanosecond => nanoseconds,
    }
}

/// Nanoseconds of a day and the day as a time of a unit.
#[derive(Clone, Copy, Debug, PartialEq, Eq)]
pub struct Int96Time {
    pub unit: TimeUnit,
}

impl Convert<[u32; 3], i64> for Int96Time {
    ghost use Rattle.flat_values.specs.Conversion.{SinceEpoch};

    ghost rule = { λ time. SinceEpoch (1000000000 / per_second time.unit) };

    fn convert(&self, x: [u32; 3]) -> Result<i64, Error> {
        let nanoseconds = int96_to_i64_ns(x)?;
        Ok(in_unit(nanoseconds, self.unit))
    }
}

/// Nanoseconds of a day and the day as the low 64 bits of the nanoseconds since 1970.
#[derive(Clone, Copy, Debug, PartialEq, Eq)]
pub struct Int96Bits;

impl Convert<[u32; 3], u64> for Int96Bits {
    ghost use Rattle.flat_values.specs.Conversion.{LowNanoseconds};

    ghost rule = { λ _. LowNanoseconds };

    fn convert(&self, x: [u32; 3]) -> Result<u64, Error> {
        let nanoseconds = int96_to_i64_ns(x)?;
        Ok(nanoseconds.cast_unsigned())
    }
}

/// The factor from the unit of a column to that which is asked for, and whether it multiplies.
pub fn unifiy_timestmap_unit(
    logical_type: Option<&PrimitiveLogicalType>,
    time_unit: TimeUnit,
) -> (i64, bool)
    ensures value { (nat_abs result.0, result.1) ≡
        unit_factor (option_copied logical_type.entry) time_unit }
    ensures factor { IsFactor result.0 }
{
    match logical_type {
        None => (1, true),
        Some(PrimitiveLogicalType::Timestamp { unit, .. }) => factor_between(*unit, time_unit),
    }
}

fn factor_between(stored: ParquetTimeUnit, wanted: TimeUnit) -> (i64, bool)
    ensures value { (nat_abs result.0, result.1) ≡
        factor_of (stored_per_second stored) (per_second wanted) }
    ensures factor { IsFactor result.0 }
{
    match (stored, wanted) {
        (ParquetTimeUnit::Milliseconds, TimeUnit::Second) => (1_000, false),
        (ParquetTimeUnit::Milliseconds, TimeUnit::Millisecond) => (1, true),
        (ParquetTimeUnit::Milliseconds, TimeUnit::Microsecond) => (1_000, true),
        (ParquetTimeUnit::Milliseconds, TimeUnit::Nanosecond) => (1_000_000, true),
        (ParquetTimeUnit::Microseconds, TimeUnit::Second) => (1_000_000, false),
        (ParquetTimeUnit::Microseconds, TimeUnit::Millisecond) => (1_000, false),
        (ParquetTimeUnit::Microseconds, TimeUnit::Microsecond) => (1, true),
        (ParquetTimeUnit::Microseconds, TimeUnit::Nanosecond) => (1_000, true),
        (ParquetTimeUnit::Nanoseconds, TimeUnit::Second) => (1_000_000_000, false),
        (ParquetTimeUnit::Nanoseconds, TimeUnit::Millisecond) => (1_000_000, false),
        (ParquetTimeUnit::Nanoseconds, TimeUnit::Microsecond) => (1_000, false),
        (ParquetTimeUnit::Nanoseconds, TimeUnit::Nanosecond) => (1, true),
    }
}
