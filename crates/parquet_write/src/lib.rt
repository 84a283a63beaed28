//! Writes plain files: pages, indexes and the footer, each exactly as its definition says.
#![tactic(auto)]

mod bounds;
mod chunk;
mod column_index;
mod facts;
mod file;
mod footer;
mod group;
mod items;
mod levels;
mod measure;
mod offset_index;
mod page;
mod pages;
mod parts;
mod schema;

pub use chunk::add_chunk;
pub use column_index::write_column_index;
pub use facts::{Bases, ChunkFacts, GroupFacts, PageFacts};
pub use file::end_file;
pub use footer::{write_end_of_file, write_footer, write_tail};
pub use items::Items;
pub use measure::to_measure;
pub use offset_index::write_offset_index;
pub use page::write_page;
pub use pages::Paging;
pub use parts::{JoinedParts, Parts, Room};
