//! One stored value by the rule of its type.
ghost use Rattle.std.specs.Prelude.{◌≡◌, length, true, IfOk, IfErr};
ghost use Rattle.columns_core.specs.Causes.{ComesOf, IsWantOfMemory};
ghost use Rattle.flat_values.specs.Conversion.{Value, convert, text};
ghost use Rattle.flat_values.specs.Numbers.{words_of};
ghost use Rattle.flat_values.specs.Units.{unit_factor};
ghost use Rattle.parquet_page.specs.Stored.{Number, Octets};
ghost use Rattle.column_ends.specs.Converted.{item_causes};
ghost use Rattle.column_ends.specs.Rules.{int32_conversion, int64_conversion, int96_conversion, bytes_conversion, fixed_conversion, takes_size};

use crate::{BytesRule, FixedRule, Int32Rule, Int64Rule, Int96Rule};
use columns_core::{Cell, Error, Name, Part, Seq, TimeUnit, days_ms};
use flat_values::{
    Convert, DaysToMillis, Int96Bits, Int96Time, Narrow, Scale, convert_days_ms, convert_i128,
    convert_year_month, unifiy_timestmap_unit,
};
use parquet_meta::PrimitiveLogicalType;
use std::alloc::Global;

pub(crate) fn int32_value(rule: Int32Rule, n: i32) -> Result<Cell, Error>
    ensures value { IfOk result (λ cell. convert (int32_conversion rule) (Number n) ≡ Value cell) }
    ensures cause { ComesOf result (item_causes (convert (int32_conversion rule) (Number n))) }
{
    Ok(Cell::Int(match rule {
        Int32Rule::Keep => n as i128,
        Int32Rule::LowByte => Convert::<i32, u8>::convert(&Narrow, n)? as i128,
        Int32Rule::LowHalf => Convert::<i32, u16>::convert(&Narrow, n)? as i128,
        Int32Rule::LowWord => Convert::<i32, u32>::convert(&Narrow, n)? as i128,
        Int32Rule::LowByteSigned => Convert::<i32, i8>::convert(&Narrow, n)? as i128,
        Int32Rule::LowHalfSigned => Convert::<i32, i16>::convert(&Narrow, n)? as i128,
        Int32Rule::DaysToMillis => Convert::<i32, i64>::convert(&DaysToMillis, n)? as i128,
    }))
}

pub(crate) fn int64_value(rule: Int64Rule, n: i64) -> Result<Cell, Error>
    ensures value { IfOk result (λ cell. convert (int64_conversion rule) (Number n) ≡ Value cell) }
    ensures cause { ComesOf result (item_causes (convert (int64_conversion rule) (Number n))) }
{
    Ok(Cell::Int(match rule {
        Int64Rule::Keep => n as i128,
        Int64Rule::LowWord => Convert::<i64, u32>::convert(&Narrow, n)? as i128,
        Int64Rule::Bits => Convert::<i64, u64>::convert(&Narrow, n)? as i128,
        Int64Rule::Rescale(logical, unit) => {
            Convert::<i64, i64>::convert(&scale_between(logical, unit), n)? as i128
        }
    }))
}

/// From the unit of a column to that which is asked for.
fn scale_between(logical: Option<PrimitiveLogicalType>, unit: TimeUnit) -> Scale
    ensures { result ≡ unit_factor logical unit }
{
    let (factor, multiply) = unifiy_timestmap_unit(logical.as_ref(), unit);
    Scale::new(factor, multiply)
}

pub(crate) fn int96_value(rule: Int96Rule, words: [u32; 3]) -> Result<Cell, Error>
    ensures value { IfOk result (λ cell. convert (int96_conversion rule) (words_of words) ≡ Value cell) }
    ensures cause { ComesOf result (item_causes (convert (int96_conversion rule) (words_of words))) }
{
    Ok(Cell::Int(match rule {
        Int96Rule::InUnit(unit) => {
            Convert::<[u32; 3], i64>::convert(&Int96Time { unit }, words)? as i128
        }
        Int96Rule::Bits => Convert::<[u32; 3], u64>::convert(&Int96Bits, words)? as i128,
    }))
}

pub(crate) fn bytes_value(
    alloc: Global,
    rule: BytesRule,
    bytes: &[u8],
    part: Part,
) -> Result<Cell, Error>
    ensures value { IfOk result (λ cell. convert (bytes_conversion rule) (Octets bytes.now) ≡ Value cell) }
    ensures cause { ComesOf result (item_causes (convert (bytes_conversion rule) (Octets bytes.now))) }
{
    match rule {
        BytesRule::Keep => copy_of_bytes(alloc, bytes),
        BytesRule::Text => copy_of_text(alloc, bytes, part),
    }
}

fn copy_of_bytes(alloc: Global, bytes: &[u8]) -> Result<Cell, Error>
    ensures copy { IfOk result (λ cell. cell ≡ Cell.Bytes bytes.now) }
    ensures memory { IfErr result IsWantOfMemory }
{
    Ok(Cell::Bytes(Seq::new(Vec::from_slice(alloc, bytes)?)))
}

#[tactic(auto, using(crate::proofs::TextLemmas::text_rules))]
fn copy_of_text(alloc: Global, bytes: &[u8], part: Part) -> Result<Cell, Error>
    ensures value { IfOk result (λ cell. text bytes.now ≡ Value cell) }
    ensures cause { ComesOf result (item_causes (text bytes.now)) }
{
    match simdutf8::basic::from_utf8(bytes) {
        Ok(text) => Ok(Cell::Text(Name::new(String::from_str(alloc, text)?))),
        Err(_) => Err(Error::OutOfSpec(part)),
    }
}

pub(crate) fn fixed_value(alloc: Global, rule: FixedRule, bytes: &[u8]) -> Result<Cell, Error>
    requires { takes_size rule (length bytes.now) ≡ true }
    ensures value { IfOk result (λ cell. convert (fixed_conversion rule) (Octets bytes.now) ≡ Value cell) }
    ensures memory { IfErr result IsWantOfMemory }
{
    match rule {
        FixedRule::Keep => copy_of_bytes(alloc, bytes),
        FixedRule::Decimal => Ok(Cell::Int(convert_i128(bytes, bytes.len()))),
        FixedRule::Months => Ok(Cell::Int(convert_year_month(bytes) as i128)),
        FixedRule::DaysAndMillis => {
            let days_ms(days, milliseconds) = convert_days_ms(bytes);
            Ok(Cell::DaysMs(days, milliseconds))
        }
    }
}
