//! The types of columns.
use crate::{Boxed, Name, Seq};

/// What times and durations count.
#[derive(Clone, Copy, Debug, PartialEq, Eq)]
pub enum TimeUnit {
    Second,
    Millisecond,
    Microsecond,
    Nanosecond,
}

/// What intervals count.
#[derive(Clone, Copy, Debug, PartialEq, Eq)]
pub enum IntervalUnit {
    /// Months, in 32 bits.
    YearMonth,
    /// Days and milliseconds ([`days_ms`]).
    DayTime,
}

/// The types of the keys of a dictionary.
#[derive(Clone, Copy, Debug, PartialEq, Eq)]
pub enum IntegerType {
    Int8,
    Int16,
    Int32,
    Int64,
    UInt8,
    UInt16,
    UInt32,
    UInt64,
}

/// An interval of days and milliseconds.
#[allow(non_camel_case_types)]
#[derive(Clone, Copy, Debug, PartialEq, Eq)]
pub struct days_ms(pub i32, pub i32);

/// What the items of a column are.
#[cycle(data_type)]
#[derive(Drop)]
pub enum DataType {
    Null,
    Boolean,
    Int8,
    Int16,
    Int32,
    Int64,
    UInt8,
    UInt16,
    UInt32,
    UInt64,
    /// Days since 1970-01-01, in 32 bits.
    Date32,
    /// Milliseconds since 1970-01-01, in 64 bits.
    Date64,
    /// Since midnight, in 32 bits: seconds or milliseconds.
    Time32(TimeUnit),
    /// Since midnight, in 64 bits: microseconds or nanoseconds.
    Time64(TimeUnit),
    /// In 64 bits.
    Duration(TimeUnit),
    /// Since 1970-01-01, in 64 bits, and the time zone that it is shown in, if one is named.
    Timestamp(TimeUnit, Option<Name>),
    Interval(IntervalUnit),
    /// Numbers of 128 bits, of so many digits in all and so many behind the point.
    Decimal(usize, usize),
    /// Texts in UTF-8, by places of 32 bits.
    Utf8,
    /// The same, by places of 64 bits.
    LargeUtf8,
    /// Byte strings, by places of 32 bits.
    Binary,
    /// The same, by places of 64 bits.
    LargeBinary,
    /// Byte strings of so many bytes each.
    FixedSizeBinary(usize),
    /// Keys of a type, the type of the entries that they name, and whether these stand in order.
    Dictionary(IntegerType, Boxed<DataType>, bool),
    /// Lists, by places of 32 bits.
    List(Boxed<Field>),
    /// Lists, by places of 64 bits.
    LargeList(Boxed<Field>),
    Struct(Seq<Field>),
    /// Maps, by their entries, and whether the keys of each stand in order.
    Map(Boxed<Field>, bool),
}

/// A column that is asked for: its name, the type that it is read as, and whether it may have nulls.
#[cycle(data_type)]
#[derive(Drop)]
pub struct Field {
    pub name: Name,
    pub data_type: DataType,
    pub is_nullable: bool,
}

/// The columns of a file, in turn.
#[derive(Drop)]
pub struct Schema {
    pub fields: Seq<Field>,
}
