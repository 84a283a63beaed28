//! Files that tests are run over: some byte by byte, others written of the groups, chunks and pages that they are to hold.
#![tactic(auto)]

mod compact;
mod files;
mod parts;
mod written;

pub use files::{F0, F1, F1_ROWS, F2, F3, F3_V2};
pub use parts::{
    CHUNK, Chunk, Column, Indexes, Levels, NUMBERS, Page, STRINGS, Stored, Told, Values,
};
pub use written::file_of;
