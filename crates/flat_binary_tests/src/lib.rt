//! Tests of the arrays of columns over all pairs: worked values, and that each call succeeds where memory is left.
#![tactic(auto)]

#[cfg(test)]
mod columns;
#[cfg(test)]
mod keys;
#[cfg(test)]
mod places;
