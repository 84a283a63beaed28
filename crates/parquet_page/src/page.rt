//! Pages as they are lent.
use columns_core::Seq;
use parquet_base::Interval;
use parquet_meta::{DataPageHeader, PrimitiveType};

/// A data page: its levels and values are in `buffer`. Without `selected_rows` all its rows are wanted.
#[derive(Drop)]
pub struct DataPage<'a> {
    pub header: DataPageHeader,
    pub buffer: &'a [u8],
    pub type_: &'a PrimitiveType,
    pub selected_rows: Option<&'a [Interval]>,
}

/// A dictionary page, whose entries are plain.
#[derive(Drop)]
pub struct DictPage<'a> {
    pub buffer: &'a [u8],
    pub num_values: usize,
}

/// A page as it is lent to a decoder.
#[derive(Drop)]
pub enum Page<'a> {
    Data(DataPage<'a>),
    Dict(DictPage<'a>),
}

/// Where the header and body of a page stand, how many rows it has, and which of them are selected, counted from its first.
#[derive(Drop)]
pub struct FilteredPage {
    pub start: u64,
    pub length: usize,
    pub selected_rows: Seq<Interval>,
    pub num_rows: usize,
}
