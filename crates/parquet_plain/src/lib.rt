//! How a plain file is laid out, and that the readers' own definitions find in it what it was written from.
#![tactic(auto)]

mod ends;
pub mod laws;

pub use ends::Ends;
