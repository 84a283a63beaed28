//! What is told of pages, chunks and groups that stand in the file.

use columns_core::Seq;
use parquet_plain::Ends;

/// A page: where it stands, how long it is with its header, its first row, and what its index says of it.
#[derive(Drop)]
pub struct PageFacts {
    pub offset: u64,
    pub size: u32,
    pub first_row: u64,
    pub nulls: u32,
    pub ends: Option<Ends>,
}

/// A chunk. Its indexes stand in bytes of their own behind all chunks: their places count from there.
#[derive(Drop)]
pub struct ChunkFacts {
    pub start: u64,
    pub size: u64,
    pub rows: u64,
    pub nulls: u64,
    pub ends: Option<Ends>,
    pub index: u64,
    pub index_size: u32,
    pub locations: u64,
    pub locations_size: u32,
}

#[derive(Drop)]
pub struct GroupFacts {
    pub rows: u64,
    pub chunks: Seq<ChunkFacts>,
}

/// Where the column indexes and the offset indexes begin.
#[derive(Clone, Copy)]
pub struct Bases {
    pub indexes: u64,
    pub locations: u64,
}
