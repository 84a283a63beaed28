//! Tests of the columns of files and of row groups: the values that are given, in which chunks, and that each call succeeds where memory is left.
#![tactic(auto)]

#[cfg(test)]
mod asked;
#[cfg(test)]
mod columns;
#[cfg(test)]
mod file_rows;
#[cfg(test)]
mod files;
#[cfg(test)]
mod groups;
#[cfg(test)]
mod many;
