//! That every sample file is whole, true and readable.
#![tactic(auto)]

pub mod laws;
