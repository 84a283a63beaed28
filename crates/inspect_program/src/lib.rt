//! What a file says of itself, as text: its columns, its row groups, and the ends and numbers of nulls of chunks and pages.
#![tactic(auto)]

mod columns;
mod file;
mod groups;
mod guess;
pub mod laws;
mod pages;
mod program;
mod singles;

pub use file::inspect;
pub use guess::guess_field;
pub use program::run_inspect;
