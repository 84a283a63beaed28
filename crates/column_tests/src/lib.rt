//! Tests of the crates that read pages, selected rows, flat columns and byte strings: worked values, and that each call succeeds where memory is left.
#![tactic(auto)]

#[cfg(test)]
mod arrays;
#[cfg(test)]
mod keys;
#[cfg(test)]
mod pages;
#[cfg(test)]
mod selected;
#[cfg(test)]
mod texts;
#[cfg(test)]
mod values;
#[cfg(test)]
mod words;
