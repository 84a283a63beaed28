//! Tests of statistics of fields, and of builders inside builders: that they are made where memory is left, how long they are, the arrays that they make, and what they
//! refuse.
#![tactic(auto)]

#[cfg(test)]
mod arrays;
#[cfg(test)]
mod builders;
#[cfg(test)]
mod deserialized;
#[cfg(test)]
mod types;
