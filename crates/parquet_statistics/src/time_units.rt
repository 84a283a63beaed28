//! Times of a column in the unit that is asked for.
ghost use Rattle.std.specs.Prelude.{◌≡◌, true, false, option_copied, IfOk, IfErr};
ghost use Rattle.columns_core.specs.Types.{signed_range, is_in};
ghost use Rattle.parquet_statistics.specs.Times.{time_in};

use columns_core::{Error, TimeUnit};
use flat_values::{Convert, Scale, unifiy_timestmap_unit};
use parquet_meta::PrimitiveLogicalType;

/// A time of a column of this logical type, in the unit that is asked for.
pub fn timestamp(
    logical_type: Option<&PrimitiveLogicalType>,
    time_unit: TimeUnit,
    x: i64,
) -> Result<i64, Error>
    ensures value { IfOk result (λ time. time ≡ time_in (option_copied logical_type.entry) time_unit x) }
    ensures ok { let time = time_in (option_copied logical_type.entry) time_unit x in
        IfOk result (λ _. is_in (signed_range 64) time ≡ true) }
    ensures err { let time = time_in (option_copied logical_type.entry) time_unit x in
        IfErr result (λ e. (e ≡ Error.Overflow) × (is_in (signed_range 64) time ≡ false)) }
{
    let (factor, multiply) = unifiy_timestmap_unit(logical_type, time_unit);
    Scale::new(factor, multiply).convert(x)
}
