//! Numbers that change by deltas, in 64 bits.
ghost use Rattle.std.specs.Prelude.{◌≡◌, length, replicate, pos, ◌+ℤ◌};
ghost use Rattle.std.specs.Int.{w64, int_wrap};
ghost use Rattle.parquet_encoding.specs.DeltaBinary.{deltas_of};
ghost use Rattle.parquet_encoding.specs.Sums.{number_behind, numbers_before};

/// The number behind a delta that is so much above the least.
pub(crate) fn added(value: i64, least: i64, number: u64) -> i64
    ensures { result ≡ int_wrap w64 (value +ℤ (least +ℤ pos number)) }
{
    value.wrapping_add(least).wrapping_add(number.cast_signed())
}

/// The number behind deltas.
pub(crate) fn added_all(value: i64, least: i64, numbers: &[u64]) -> i64
    ensures { result ≡ number_behind value (deltas_of least numbers.now) }
{
    let mut value = value;
    for number in numbers {
        value = added(value, least, *number);
    }
    value
}

/// Writes the numbers before each of some deltas, and gives the number behind them.
pub(crate) fn sums_all(value: i64, least: i64, numbers: &[u64], out: &mut [i64]) -> i64
    requires { length out.old ≡ length numbers.now }
    ensures sums { out.new ≡ numbers_before value (deltas_of least numbers.now) }
    ensures behind { result ≡ number_behind value (deltas_of least numbers.now) }
{
    let mut value = value;
    for (i, number) in numbers.iter().enumerate() {
        out[i] = value;
        value = added(value, least, *number);
    }
    value
}

/// Writes the numbers before each of some deltas that are all the least, and gives the number behind them.
pub(crate) fn sums_of_steps(value: i64, least: i64, out: &mut [i64]) -> i64
    ensures sums { out.new ≡ numbers_before value (deltas_of least (replicate (length out.old) 0)) }
    ensures behind { result ≡ number_behind value (deltas_of least (replicate (length out.old) 0)) }
{
    let mut value = value;
    for i in 0..out.len() {
        out[i] = value;
        value = added(value, least, 0);
    }
    value
}
