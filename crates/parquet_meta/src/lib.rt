//! The metadata of a Parquet file: where its bytes come from, the footer, statistics and indexes.
#![tactic(auto)]

mod chunk;
mod chunks;
mod code;
mod column_index;
mod column_path;
mod decode;
mod exact;
mod failing_source;
mod fault;
mod fields;
mod file_source;
mod footer;
mod front;
mod groups;
mod indexes;
pub mod laws;
mod memory_source;
mod metadata;
mod offset_index;
mod page_header;
mod page_index;
mod read;
mod schema;
mod short_bytes;
mod source;
mod statistics;
mod stored_end;
mod structure;
mod tree;
mod typed_statistics;

pub use column_path::ColumnPath;
pub use exact::{read_exact_at, read_range};
pub use failing_source::FailingSource;
pub use fields::{begins_with, get_field_columns, get_field_pages};
pub use file_source::FileSource;
pub use indexes::{read_pages_locations, read_raw_indexes};
pub use memory_source::MemorySource;
pub use metadata::{
    ColumnChunkMetaData, ColumnDescriptor, Ends, FileMetaData, Index, PageIndex, PageLocation,
    ParquetTimeUnit, PhysicalType, Place, PrimitiveLogicalType, PrimitiveType, RawStatistics,
    Repetition, RowGroupMetaData, StatisticsBytes,
};
pub use page_header::{
    DataPageHeader, PageHeader, PageKind, page_header_at,
    page_headers_are_read_from_their_own_bytes,
};
pub use read::read_metadata;
pub use short_bytes::ShortBytes;
pub use source::{Failed, Source};
