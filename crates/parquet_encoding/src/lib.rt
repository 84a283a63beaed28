//! Decoders of the values of Parquet pages. They hold places in the bytes, and take no memory.
#![tactic(auto)]

mod bits;
mod delta_binary;
mod delta_length;
mod delta_run;
mod delta_walk;
mod hybrid;
pub mod laws;
mod packed_run;
mod places;
mod plain_bits;
mod plain_bytes;
mod plain_fixed;
mod run;
mod sums;

pub use delta_binary::DeltaBinary;
pub use delta_length::DeltaLength;
pub use hybrid::HybridRle;
pub use packed_run::PackedRun;
pub use parquet_base::Unspelled;
pub use plain_bits::PlainBits;
pub use plain_bytes::PlainBytes;
pub use plain_fixed::PlainFixed;
pub use run::HybridRun;
