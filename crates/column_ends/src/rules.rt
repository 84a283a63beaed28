//! How the ends of a column become values of the type that is asked for.
ghost use Rattle.std.specs.Prelude.{◌≡◌, IfSome, true, option_map};
ghost use Rattle.columns_core.specs.declared.data_type.DataType.{out-DataType};
ghost use Rattle.flat_values.specs.Pairs.{from_boolean, from_int32, from_int64, from_int96, from_fixed, from_byte_array};
ghost use Rattle.flat_values.specs.Pairs.{page_from_int96, page_from_fixed};
ghost use Rattle.column_ends.specs.Converted as spec;
ghost use Rattle.column_ends.specs.Rules.{conversion_of, value_conversion, int32_conversion, int64_conversion, int96_conversion};
ghost use Rattle.column_ends.specs.Rules.{bytes_conversion, fixed_conversion, own_rule, own_page_rule, IsRuleOf, IsValueRuleOf, takes_size};

use columns_core::{DataType, IntervalUnit, TimeUnit};
use parquet_meta::{PhysicalType, PrimitiveLogicalType, PrimitiveType};

/// The bytes of an interval.
const INTERVAL_SIZE: usize = 12;

/// The bytes of the longest decimal.
const MOST_DECIMAL_BYTES: usize = 16;

/// How a number of 32 bits becomes a value.
#[derive(Clone, Copy)]
pub enum Int32Rule {
    Keep,
    LowByte,
    LowHalf,
    LowWord,
    LowByteSigned,
    LowHalfSigned,
    DaysToMillis,
}

/// How a number of 64 bits becomes a value.
#[derive(Clone, Copy)]
pub enum Int64Rule {
    Keep,
    LowWord,
    Bits,
    /// From the unit of the column to that which is asked for.
    Rescale(Option<PrimitiveLogicalType>, TimeUnit),
}

/// How the nanoseconds of a day and the day become a value.
#[derive(Clone, Copy)]
pub enum Int96Rule {
    InUnit(TimeUnit),
    Bits,
}

/// How a byte string becomes a value.
#[derive(Clone, Copy)]
pub enum BytesRule {
    Keep,
    Text,
}

/// How bytes of a fixed number become a value.
#[derive(Clone, Copy)]
pub enum FixedRule {
    Keep,
    Decimal,
    Months,
    DaysAndMillis,
}

/// How a stored value becomes a value that is not null.
#[derive(Clone, Copy)]
pub enum ValueRule {
    Truth,
    Int32(Int32Rule),
    Int64(Int64Rule),
    Int96(Int96Rule),
    Bytes(BytesRule),
    /// Of so many bytes.
    Fixed(usize, FixedRule),
}

/// How an end becomes a value of the type that is asked for.
#[derive(Clone, Copy)]
pub enum EndRule {
    Nulls,
    Values(ValueRule),
}

/// How the ends that statistics tell of a column of this type become values of that type, whatever the column's repetition is.
#[tactic(auto, using(flat_values::proofs::PairLemmas::leaf_out))]
pub fn statistics_rule(stored: &PrimitiveType, data_type: &DataType) -> Option<EndRule>
    ensures rule { option_map conversion_of result ≡ spec.statistics_rule stored.now data_type.now }
    ensures stored { IfSome result (IsRuleOf stored.now.physical_type) }
{
    match data_type {
        DataType::Null => Some(EndRule::Nulls),
        DataType::Dictionary(_, values, _) => statistics_rule(stored, values.get()),
        _ => Some(EndRule::Values(value_rule(stored, data_type)?)),
    }
}

/// How the ends that a page index tells of a column of this type become values of that type, whatever the column's repetition is.
pub fn index_rule(stored: &PrimitiveType, data_type: &DataType) -> Option<EndRule>
    ensures rule { option_map conversion_of result ≡ spec.index_rule stored.now data_type.now }
    ensures stored { IfSome result (IsRuleOf stored.now.physical_type) }
{
    Some(EndRule::Values(page_rule(stored, data_type)?))
}

/// The same, where a page index never tells of nulls.
#[tactic(auto, using(flat_values::proofs::PairLemmas::page_out))]
pub(crate) fn page_rule(stored: &PrimitiveType, data_type: &DataType) -> Option<ValueRule>
    ensures rule { option_map value_conversion result ≡ spec.index_rule stored.now data_type.now }
    ensures stored { IfSome result (IsValueRuleOf stored.now.physical_type) }
{
    match data_type {
        DataType::Dictionary(_, values, _) => page_rule(stored, values.get()),
        _ => page_value_rule(stored, data_type),
    }
}

fn value_rule(stored: &PrimitiveType, data_type: &DataType) -> Option<ValueRule>
    ensures rule { option_map value_conversion result ≡ own_rule stored.now data_type.now }
    ensures stored { IfSome result (IsValueRuleOf stored.now.physical_type) }
{
    match stored.physical_type {
        PhysicalType::Boolean => boolean_rule(data_type),
        PhysicalType::Int32 => Some(ValueRule::Int32(int32_rule(data_type)?)),
        PhysicalType::Int64 => {
            Some(ValueRule::Int64(int64_rule(stored.logical_type, data_type)?))
        }
        PhysicalType::Int96 => Some(ValueRule::Int96(int96_rule(data_type)?)),
        PhysicalType::Float | PhysicalType::Double => None,
        PhysicalType::ByteArray => Some(ValueRule::Bytes(bytes_rule(data_type)?)),
        PhysicalType::FixedLenByteArray(size) => {
            Some(ValueRule::Fixed(size, fixed_rule(size, data_type)?))
        }
    }
}

fn page_value_rule(stored: &PrimitiveType, data_type: &DataType) -> Option<ValueRule>
    ensures rule { option_map value_conversion result ≡ own_page_rule stored.now data_type.now }
    ensures stored { IfSome result (IsValueRuleOf stored.now.physical_type) }
{
    match stored.physical_type {
        PhysicalType::Boolean => boolean_rule(data_type),
        PhysicalType::Int32 => Some(ValueRule::Int32(int32_rule(data_type)?)),
        PhysicalType::Int64 => {
            Some(ValueRule::Int64(int64_rule(stored.logical_type, data_type)?))
        }
        PhysicalType::Int96 => Some(ValueRule::Int96(page_int96_rule(data_type)?)),
        PhysicalType::Float | PhysicalType::Double => None,
        PhysicalType::ByteArray => Some(ValueRule::Bytes(bytes_rule(data_type)?)),
        PhysicalType::FixedLenByteArray(size) => {
            Some(ValueRule::Fixed(size, page_fixed_rule(size, data_type)?))
        }
    }
}

fn boolean_rule(data_type: &DataType) -> Option<ValueRule>
    ensures rule { option_map value_conversion result ≡ from_boolean (out-DataType data_type.now) }
    ensures stored { IfSome result (IsValueRuleOf PhysicalType.Boolean) }
{
    match data_type {
        DataType::Boolean => Some(ValueRule::Truth),
        _ => None,
    }
}

fn int32_rule(data_type: &DataType) -> Option<Int32Rule>
    ensures { option_map int32_conversion result ≡ from_int32 (out-DataType data_type.now) }
{
    match data_type {
        DataType::UInt8 => Some(Int32Rule::LowByte),
        DataType::UInt16 => Some(Int32Rule::LowHalf),
        DataType::UInt32 => Some(Int32Rule::LowWord),
        DataType::Int8 => Some(Int32Rule::LowByteSigned),
        DataType::Int16 => Some(Int32Rule::LowHalfSigned),
        DataType::Int32 | DataType::Date32 | DataType::Time32(_) | DataType::Decimal(_, _) => Some(
            Int32Rule::Keep,
        ),
        DataType::Date64 => Some(Int32Rule::DaysToMillis),
        _ => None,
    }
}

fn int64_rule(logical: Option<PrimitiveLogicalType>, data_type: &DataType) -> Option<Int64Rule>
    ensures { option_map int64_conversion result ≡ from_int64 logical (out-DataType data_type.now) }
{
    match data_type {
        DataType::UInt32 => Some(Int64Rule::LowWord),
        DataType::UInt64 => Some(Int64Rule::Bits),
        DataType::Int64
        | DataType::Date64
        | DataType::Time64(_)
        | DataType::Duration(_)
        | DataType::Decimal(_, _) => Some(Int64Rule::Keep),
        DataType::Timestamp(unit, _) => Some(Int64Rule::Rescale(logical, *unit)),
        _ => None,
    }
}

fn int96_rule(data_type: &DataType) -> Option<Int96Rule>
    ensures { option_map int96_conversion result ≡ from_int96 (out-DataType data_type.now) }
{
    match data_type {
        DataType::Timestamp(unit, _) => Some(Int96Rule::InUnit(*unit)),
        _ => None,
    }
}

fn page_int96_rule(data_type: &DataType) -> Option<Int96Rule>
    ensures { option_map int96_conversion result ≡ page_from_int96 (out-DataType data_type.now) }
{
    match data_type {
        DataType::UInt64 => Some(Int96Rule::Bits),
        DataType::Int64 | DataType::Date64 | DataType::Time64(_) | DataType::Duration(_) => {
            Some(Int96Rule::InUnit(TimeUnit::Nanosecond))
        }
        DataType::Timestamp(unit, _) => Some(Int96Rule::InUnit(*unit)),
        _ => None,
    }
}

fn bytes_rule(data_type: &DataType) -> Option<BytesRule>
    ensures { option_map bytes_conversion result ≡ from_byte_array (out-DataType data_type.now) }
{
    match data_type {
        DataType::Utf8 | DataType::LargeUtf8 => Some(BytesRule::Text),
        DataType::Binary | DataType::LargeBinary => Some(BytesRule::Keep),
        _ => None,
    }
}

fn fixed_rule(size: usize, data_type: &DataType) -> Option<FixedRule>
    ensures rule { option_map fixed_conversion result ≡ from_fixed size (out-DataType data_type.now) }
    ensures size { IfSome result (λ rule. takes_size rule size ≡ true) }
{
    match data_type {
        DataType::FixedSizeBinary(wanted) if 0 < size && size == *wanted => Some(FixedRule::Keep),
        DataType::Decimal(_, _) if 0 < size && size <= MOST_DECIMAL_BYTES => {
            Some(FixedRule::Decimal)
        }
        DataType::Interval(IntervalUnit::YearMonth) if size == INTERVAL_SIZE => {
            Some(FixedRule::Months)
        }
        DataType::Interval(IntervalUnit::DayTime) if size == INTERVAL_SIZE => {
            Some(FixedRule::DaysAndMillis)
        }
        _ => None,
    }
}

fn page_fixed_rule(size: usize, data_type: &DataType) -> Option<FixedRule>
    ensures rule { option_map fixed_conversion result ≡ page_from_fixed size (out-DataType data_type.now) }
    ensures size { IfSome result (λ rule. takes_size rule size ≡ true) }
{
    match data_type {
        DataType::Interval(_) => None,
        _ => fixed_rule(size, data_type),
    }
}
