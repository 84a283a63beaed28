//! The pages of a column chunk one after another, the values that they stand for, and the rows that are selected of them.
#![tactic(auto)]

mod body;
mod cursor;
mod entries;
mod found;
mod indexed;
pub mod laws;
mod level_runs;
mod located;
mod page;
mod parts;
mod reader;
mod run;
mod selection;
mod slice_filtered;
mod source;
mod validity;
mod validity_part;

pub use body::split_buffer;
pub use entries::{count_selected, first_start, is_wanted};
pub use indexed::IndexedPageReader;
pub use page::{DataPage, DictPage, FilteredPage, Page};
pub use parquet_base::Interval;
pub use parquet_meta::DataPageHeader;
pub use reader::PageReader;
pub use run::Run;
pub use selection::{has_shape, page_row_intervals, select_pages};
pub use slice_filtered::SliceFiltered;
pub use source::Pages;
pub use validity::OptionalPageValidity;
pub use validity_part::{ValidityPart, ValidityWord};
