//! What a file says of itself: its columns, its row groups, their chunks, statistics and indexes.

use crate::{ColumnPath, ShortBytes};
use columns_core::Seq;

/// How the values of a column are stored (`Type` of the format).
#[derive(Clone, Copy, Debug, PartialEq, Eq)]
pub enum PhysicalType {
    Boolean,
    Int32,
    Int64,
    /// Three words of 32 bits.
    Int96,
    Float,
    Double,
    ByteArray,
    /// Byte strings of one length, which is above 0.
    FixedLenByteArray(usize),
}

/// What a column of times counts (`TimeUnit` of the format).
#[derive(Clone, Copy, Debug, PartialEq, Eq)]
pub enum ParquetTimeUnit {
    Milliseconds,
    Microseconds,
    Nanoseconds,
}

/// What stored values stand for, as far as reading hangs on it (`LogicalType` of the format).
#[derive(Clone, Copy, Debug, PartialEq, Eq)]
pub enum PrimitiveLogicalType {
    /// Since 1970-01-01.
    Timestamp {
        unit: ParquetTimeUnit,
        is_adjusted_to_utc: bool,
    },
}

/// How many values a row has (`FieldRepetitionType` of the format).
#[derive(Clone, Copy, Debug, PartialEq, Eq)]
pub enum Repetition {
    /// One.
    Required,
    /// One or none: null.
    Optional,
    /// Any number.
    Repeated,
}

/// The type of a column, as its file says it.
#[derive(Clone, Copy, Debug, PartialEq, Eq)]
pub struct PrimitiveType {
    pub physical_type: PhysicalType,
    pub logical_type: Option<PrimitiveLogicalType>,
    pub repetition: Repetition,
}

/// A leaf of the schema: the names below the root, and what is stored.
#[derive(Drop)]
pub struct ColumnDescriptor {
    pub path_in_schema: ColumnPath,
    pub primitive_type: PrimitiveType,
    /// The path is one name, and the column is not repeated.
    pub flat: bool,
}

/// A part of a file, in bytes.
#[derive(Clone, Copy, Debug, PartialEq, Eq)]
pub struct Place {
    pub offset: u64,
    pub length: u64,
}

/// The statistics of a chunk as they are stored.
#[derive(Drop)]
pub struct StatisticsBytes {
    pub null_count: Option<i64>,
    pub distinct_count: Option<i64>,
    pub max_value: Option<ShortBytes>,
    pub min_value: Option<ShortBytes>,
}

/// The values of a column in a row group.
#[derive(Drop)]
pub struct ColumnChunkMetaData {
    pub descriptor: ColumnDescriptor,
    /// 0 where the pages are not compressed.
    pub codec: i32,
    pub num_values: u64,
    /// The bytes of all pages with their headers.
    pub total_compressed_size: u64,
    pub data_page_offset: u64,
    pub dictionary_page_offset: Option<u64>,
    pub statistics_bytes: Option<StatisticsBytes>,
    pub offset_index: Option<Place>,
    pub column_index: Option<Place>,
    /// Where the column index begins, also where its length is not told.
    pub column_index_offset: Option<u64>,
    /// The chunk stands in another file.
    pub foreign: bool,
    pub encrypted: bool,
}

/// A row group: rows that stand together in the file.
#[derive(Drop)]
pub struct RowGroupMetaData {
    /// One chunk for each leaf of the schema, in their order.
    pub columns: Seq<ColumnChunkMetaData>,
    pub num_rows: usize,
}

/// What the footer of a file says.
#[derive(Drop)]
pub struct FileMetaData {
    /// The file's own count, which nothing is compared with.
    pub num_rows: u64,
    pub columns: Seq<ColumnDescriptor>,
    pub row_groups: Seq<RowGroupMetaData>,
}

/// Typed statistics. What is None is not known.
#[derive(Drop)]
pub struct Ends<T> {
    pub null_count: Option<u64>,
    pub distinct_count: Option<u64>,
    pub min_value: Option<T>,
    pub max_value: Option<T>,
}

/// The statistics of a chunk, by the type that its column is stored as.
#[derive(Drop)]
pub enum RawStatistics {
    Boolean(Ends<bool>),
    Int32(Ends<i32>),
    Int64(Ends<i64>),
    /// Three words, the lowest first.
    Int96(Ends<[u32; 3]>),
    ByteArray(Ends<Seq<u8>>),
    /// The length of each byte string, and the ends.
    FixedLenByteArray(usize, Ends<Seq<u8>>),
}

/// What a column index says of a page. A page of nulls alone has no ends.
#[derive(Drop)]
pub struct PageIndex<T> {
    pub min: Option<T>,
    pub max: Option<T>,
    pub null_count: Option<i64>,
}

/// The column index of a chunk, by the type that its column is stored as: one item for each page.
#[derive(Drop)]
pub enum Index {
    Boolean(Seq<PageIndex<bool>>),
    Int32(Seq<PageIndex<i32>>),
    Int64(Seq<PageIndex<i64>>),
    /// Three words, the lowest first.
    Int96(Seq<PageIndex<[u32; 3]>>),
    ByteArray(Seq<PageIndex<Seq<u8>>>),
    /// The length of each byte string, and the pages.
    FixedLenByteArray(usize, Seq<PageIndex<Seq<u8>>>),
}

/// Where a page stands with its header, and its first row in the row group.
#[derive(Clone, Copy, Debug, PartialEq, Eq)]
pub struct PageLocation {
    pub offset: i64,
    pub compressed_page_size: i32,
    pub first_row_index: i64,
}
