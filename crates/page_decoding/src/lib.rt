//! The rows of a column, taken page by page by any decoder and cut into chunks.
#![tactic(auto)]

mod chunks;
mod decoder;
mod filtered_validity;
pub mod laws;
mod next_chunk;
mod pushable;
mod queue;

pub use chunks::Chunks;
pub use decoder::{DecodedState, Decoder};
pub use filtered_validity::FilteredOptionalPageValidity;
pub use next_chunk::next;
pub use pushable::Pushable;
pub use queue::{MaybeNext, extend_from_new_page};
