//! The ends of statistics and of column indexes as values of the type that is asked for.
#![tactic(auto)]

mod bytes;
mod end;
mod groups;
pub mod laws;
mod pages;
mod rules;
mod value;

pub use bytes::{EndBytes, most_bytes, value_type};
pub use groups::statistics_ends;
pub use pages::{FromEnds, index_each, index_ends};
pub use rules::{
    BytesRule, EndRule, FixedRule, Int32Rule, Int64Rule, Int96Rule, ValueRule, index_rule,
    statistics_rule,
};
