//! What the crates of the workspace share: numbers read from bytes, runs of rows, a count of steps, and
//! the words for what a call reads, gives or refuses.
#![tactic(auto)]

mod interval;
pub mod laws;
mod steps;
mod varint;

pub use interval::{Interval, common_runs, is_well_shaped, overlaps, page_runs, runs_of_all};
pub use steps::Steps;
pub use varint::{Unspelled, from_zigzag, varint_at};
