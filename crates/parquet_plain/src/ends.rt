//! The ends of items.

use columns_core::Seq;

/// The least and the greatest present item, as they are stored.
#[derive(Drop)]
pub struct Ends {
    pub least: Seq<u8>,
    pub greatest: Seq<u8>,
}
