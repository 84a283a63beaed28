//! Types as text.
ghost use Rattle.std.specs.Prelude.{◌≡◌, ◌++◌, codes, decimal, IfErr, IfOk};
ghost use Rattle.columns_core.specs.Causes.{IsWantOfMemory};
ghost use Rattle.columns_core.specs.declared.data_type.DataType.{out-DataType};
ghost use Rattle.pq_common.specs.Texts.{AddsText};
ghost use Rattle.pq_common.specs.TypeText as spec;
ghost use Rattle.pq_common.specs.TypeText.{argument_text, both_texts, in_parentheses, interval_unit_text, key_text, bare_name, unit_text, value_type_text};

use crate::text::Text;
use columns_core::{DataType, Error, IntegerType, IntervalUnit, TimeUnit};
use std::alloc::{AllocError, Global};

/// The text that spells a type, with no time zone. A type that holds fields has none.
pub fn type_text(alloc: Global, data_type: &DataType) -> Result<Vec<u8>, Error>
    ensures text { IfOk result (λ text. text.items ≡ spec.type_text data_type.now) }
    ensures memory { IfErr result IsWantOfMemory }
{
    let mut text = Text::new(alloc);
    text.push_type(data_type)?;
    Ok(text.into_bytes()?)
}

impl Text {
    /// Adds the text that spells a type.
    pub fn push_type(&mut self, data_type: &DataType) -> Result<(), AllocError>
        ensures { AddsText (spec.type_text data_type.now) self.old result self.new }
    {
        match data_type {
            DataType::Dictionary(keys, values, _) => self.push_dictionary(*keys, values.get()),
            _ => self.push_value_type(data_type),
        }
    }

    fn push_dictionary(&mut self, keys: IntegerType, values: &DataType) -> Result<(), AllocError>
        ensures { let argument = both_texts (key_text keys) (value_type_text (out-DataType values.now)) in
            AddsText (codes "Dictionary" ++ in_parentheses argument) self.old result self.new }
    {
        self.push(b"Dictionary(")?;
        self.push_keys_and_values(keys, values)?;
        self.push(b")")
    }

    /// Adds the type of the keys of a dictionary and that of its entries, with a comma between them.
    fn push_keys_and_values(
        &mut self,
        keys: IntegerType,
        values: &DataType,
    ) -> Result<(), AllocError>
        ensures { let text = both_texts (key_text keys) (value_type_text (out-DataType values.now)) in
            AddsText text self.old result self.new }
    {
        self.push(key_name(keys).as_bytes())?;
        self.push(b",")?;
        self.push_value_type(values)
    }

    /// Adds the text of a type that is no dictionary.
    fn push_value_type(&mut self, data_type: &DataType) -> Result<(), AllocError>
        ensures { AddsText (value_type_text (out-DataType data_type.now)) self.old result self.new }
    {
        self.push(type_name(data_type).as_bytes())?;
        self.push_argument(data_type)
    }

    /// Adds what stands behind the name of a type that is no dictionary.
    fn push_argument(&mut self, data_type: &DataType) -> Result<(), AllocError>
        ensures { AddsText (argument_text (out-DataType data_type.now)) self.old result self.new }
    {
        match data_type {
            DataType::Time32(unit)
            | DataType::Time64(unit)
            | DataType::Duration(unit)
            | DataType::Timestamp(unit, _) => self.push_in_parentheses(unit_name(*unit)),
            DataType::Interval(unit) => self.push_in_parentheses(interval_unit_name(*unit)),
            DataType::Decimal(precision, scale) => self.push_digits_of(*precision, *scale),
            DataType::FixedSizeBinary(size) => self.push_size(*size),
            _ => Ok(()),
        }
    }

    fn push_in_parentheses(&mut self, argument: &str) -> Result<(), AllocError>
        ensures { AddsText (in_parentheses argument.now) self.old result self.new }
    {
        self.push(b"(")?;
        self.push(argument.as_bytes())?;
        self.push(b")")
    }

    fn push_digits_of(&mut self, precision: usize, scale: usize) -> Result<(), AllocError>
        ensures { let argument = both_texts (decimal precision) (decimal scale) in
            AddsText (in_parentheses argument) self.old result self.new }
    {
        self.push_labelled(b"(", precision)?;
        self.push_labelled(b",", scale)?;
        self.push(b")")
    }

    fn push_size(&mut self, size: usize) -> Result<(), AllocError>
        ensures { AddsText (in_parentheses (decimal size)) self.old result self.new }
    {
        self.push_labelled(b"(", size)?;
        self.push(b")")
    }
}

fn unit_name(unit: TimeUnit) -> &'static str
    ensures { result.now ≡ unit_text unit }
{
    match unit {
        TimeUnit::Second => "s",
        TimeUnit::Millisecond => "ms",
        TimeUnit::Microsecond => "us",
        TimeUnit::Nanosecond => "ns",
    }
}

fn interval_unit_name(unit: IntervalUnit) -> &'static str
    ensures { result.now ≡ interval_unit_text unit }
{
    match unit {
        IntervalUnit::YearMonth => "YearMonth",
        IntervalUnit::DayTime => "DayTime",
    }
}

fn key_name(keys: IntegerType) -> &'static str
    ensures { result.now ≡ key_text keys }
{
    match keys {
        IntegerType::Int8 => "Int8",
        IntegerType::Int16 => "Int16",
        IntegerType::Int32 => "Int32",
        IntegerType::Int64 => "Int64",
        IntegerType::UInt8 => "UInt8",
        IntegerType::UInt16 => "UInt16",
        IntegerType::UInt32 => "UInt32",
        IntegerType::UInt64 => "UInt64",
    }
}

/// The name of a type, with no argument.
fn type_name(data_type: &DataType) -> &'static str
    ensures { result.now ≡ bare_name (out-DataType data_type.now) }
{
    match data_type {
        DataType::Null => "Null",
        DataType::Boolean => "Boolean",
        DataType::Int8 => "Int8",
        DataType::Int16 => "Int16",
        DataType::Int32 => "Int32",
        DataType::Int64 => "Int64",
        DataType::UInt8 => "UInt8",
        DataType::UInt16 => "UInt16",
        DataType::UInt32 => "UInt32",
        DataType::UInt64 => "UInt64",
        DataType::Date32 => "Date32",
        DataType::Date64 => "Date64",
        DataType::Time32(_) => "Time32",
        DataType::Time64(_) => "Time64",
        DataType::Duration(_) => "Duration",
        DataType::Timestamp(_, _) => "Timestamp",
        DataType::Interval(_) => "Interval",
        DataType::Decimal(_, _) => "Decimal",
        DataType::Utf8 => "Utf8",
        DataType::LargeUtf8 => "LargeUtf8",
        DataType::Binary => "Binary",
        DataType::LargeBinary => "LargeBinary",
        DataType::FixedSizeBinary(_) => "FixedSizeBinary",
        DataType::Dictionary(_, _, _) => "Dictionary",
        DataType::List(_) | DataType::LargeList(_) | DataType::Struct(_) | DataType::Map(_, _) =>
            "",
    }
}
