//! Scans of a file's rows that leave out groups and pages in which no row can meet all bounds.
#![tactic(auto)]

mod bound;
mod chunks;
mod column;
mod decode;
mod given;
mod group_column;
mod groups;
mod kept;
pub mod laws;
mod located;
mod locations;
mod page_ends;
mod pairs;
mod pruning;
mod reading;
mod request;
mod scanning;

pub use bound::{Bound, Scalar, keeps, meets};
pub use parquet_base::Interval;
pub use scanning::{GroupKept, Scan, scan_where};
