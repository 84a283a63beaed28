//! Tests of the crates that read numbers, Thrift, encodings and metadata, and of the columns that are handed out:
//! worked values, printed text, and that each call succeeds where memory is left.
#![tactic(auto)]

#[cfg(test)]
mod columns;
#[cfg(test)]
mod encodings;
#[cfg(test)]
mod indexes;
#[cfg(test)]
mod metadata;
#[cfg(test)]
mod numbers;
#[cfg(test)]
mod thrift;
#[cfg(test)]
mod written;
