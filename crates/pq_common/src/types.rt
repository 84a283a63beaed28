//! The types that texts spell.
ghost use Rattle.std.specs.Prelude.{◌≡◌, codes, is_some, option_map, IfOk, IsTrue, OnErr};
ghost use Rattle.std.specs.Option.{option_copied};
ghost use Rattle.pq_common.specs.Spelled as spec;

use crate::numbers::count;
use columns_core::{Boxed, DataType, IntegerType, IntervalUnit, TimeUnit};
use std::alloc::{AllocError, Global};

/// The type that a text spells.
pub fn data_type(alloc: Global, text: &str) -> Result<Option<DataType>, AllocError>
    ensures found { IfOk result (λ found. found ≡ spec.spelled_type text.now) }
    ensures memory { OnErr result (IsTrue (is_some (spec.dictionary_type text.now))) }
{
    match value_type(text) {
        None => dictionary_type(alloc, text),
        found => Ok(found),
    }
}

/// The dictionary type that a text spells.
fn dictionary_type(alloc: Global, text: &str) -> Result<Option<DataType>, AllocError>
    ensures found { IfOk result (λ found. found ≡ spec.dictionary_type text.now) }
    ensures memory { OnErr result (IsTrue (is_some (spec.dictionary_type text.now))) }
{
    match name_and_argument(text) {
        Some(("Dictionary", argument)) => dictionary_of(alloc, argument),
        _ => Ok(None),
    }
}

fn dictionary_of(alloc: Global, argument: &str) -> Result<Option<DataType>, AllocError>
    ensures found { IfOk result (λ found. found ≡ spec.spelled_dictionary argument.now) }
    ensures memory { OnErr result (IsTrue (is_some (spec.spelled_dictionary argument.now))) }
{
    match keys_and_values(argument) {
        None => Ok(None),
        Some((keys, values)) => {
            let values = Boxed::new(alloc, values)?;
            Ok(Some(DataType::Dictionary(keys, values, false)))
        }
    }
}

/// The types of a dictionary's keys and of its entries.
fn keys_and_values(argument: &str) -> Option<(IntegerType, DataType)>
    ensures { result ≡ spec.keys_and_values argument.now }
{
    let (keys, values) = two_arguments(argument)?;
    Some((integer_type(keys)?, value_type(values)?))
}

/// The type that a text spells, if it is no dictionary type.
fn value_type(text: &str) -> Option<DataType>
    ensures { result ≡ spec.spelled_value_type text.now }
{
    match plain_type(text) {
        None => type_with_argument(text),
        found => found,
    }
}

/// The type that a name and an argument in parentheses spell.
fn type_with_argument(text: &str) -> Option<DataType>
    ensures { result ≡ spec.type_with_argument text.now }
{
    let (name, argument) = name_and_argument(text)?;
    match name {
        "Time32" => Some(DataType::Time32(time_unit(argument)?)),
        "Time64" => Some(DataType::Time64(time_unit(argument)?)),
        "Duration" => Some(DataType::Duration(time_unit(argument)?)),
        "Timestamp" => Some(DataType::Timestamp(time_unit(argument)?, None)),
        "Decimal" => decimal_type(argument),
        "FixedSizeBinary" => Some(DataType::FixedSizeBinary(size(argument)?)),
        _ => None,
    }
}

/// The decimal type with this precision and scale.
fn decimal_type(argument: &str) -> Option<DataType>
    ensures { result ≡ spec.decimal_type argument.now }
{
    let (precision, scale) = two_arguments(argument)?;
    Some(DataType::Decimal(size(precision)?, size(scale)?))
}

fn size(text: &str) -> Option<usize>
    ensures { result ≡ spec.number text.now }
{
    Some(count(text.as_bytes())? as usize)
}

/// The type that is spelled by a name alone.
fn plain_type(text: &str) -> Option<DataType>
    ensures { result ≡ spec.plain_type text.now }
{
    Some(match text {
        "Null" => DataType::Null,
        "Boolean" => DataType::Boolean,
        "Int8" => DataType::Int8,
        "Int16" => DataType::Int16,
        "Int32" => DataType::Int32,
        "Int64" => DataType::Int64,
        "UInt8" => DataType::UInt8,
        "UInt16" => DataType::UInt16,
        "UInt32" => DataType::UInt32,
        "UInt64" => DataType::UInt64,
        "Date32" => DataType::Date32,
        "Date64" => DataType::Date64,
        "Utf8" => DataType::Utf8,
        "LargeUtf8" => DataType::LargeUtf8,
        "Binary" => DataType::Binary,
        "LargeBinary" => DataType::LargeBinary,
        "Interval(YearMonth)" => DataType::Interval(IntervalUnit::YearMonth),
        "Interval(DayTime)" => DataType::Interval(IntervalUnit::DayTime),
        _ => return None,
    })
}

fn integer_type(text: &str) -> Option<IntegerType>
    ensures { result ≡ spec.integer_type text.now }
{
    match text {
        "Int8" => Some(IntegerType::Int8),
        "Int16" => Some(IntegerType::Int16),
        "Int32" => Some(IntegerType::Int32),
        "Int64" => Some(IntegerType::Int64),
        "UInt8" => Some(IntegerType::UInt8),
        "UInt16" => Some(IntegerType::UInt16),
        "UInt32" => Some(IntegerType::UInt32),
        "UInt64" => Some(IntegerType::UInt64),
        _ => None,
    }
}

fn time_unit(text: &str) -> Option<TimeUnit>
    ensures { result ≡ spec.spelled_unit text.now }
{
    match text {
        "s" => Some(TimeUnit::Second),
        "ms" => Some(TimeUnit::Millisecond),
        "us" => Some(TimeUnit::Microsecond),
        "ns" => Some(TimeUnit::Nanosecond),
        _ => None,
    }
}

/// The name before the first parenthesis, and what stands behind it up to the last one.
fn name_and_argument(text: &str) -> Option<(&str, &str)>
    ensures { option_map (λ parts. (parts.0.now, parts.1.now)) result ≡ spec.name_and_argument text.now }
{
    without_parenthesis(text)?.split_once('(')
}

fn without_parenthesis(text: &str) -> Option<&str>
    ensures { option_copied result ≡ spec.without_end (codes ")") text.now }
{
    text.strip_suffix(')')
}

/// The texts before and behind the first comma.
fn two_arguments(text: &str) -> Option<(&str, &str)>
    ensures { option_map (λ parts. (parts.0.now, parts.1.now)) result ≡ spec.two_arguments text.now }
{
    text.split_once(',')
}
