//! Tests of the sample file: its bytes by their digests, what its footer says, its cells, the most rows that it has, and which of its pages hold
//! given rows, also such as a closure chooses. And of what page indexes and statistics tell as arrays.
#![tactic(auto)]

#[cfg(test)]
mod filtered_pages;
#[cfg(test)]
mod page_maps;
#[cfg(test)]
mod page_statistics;
#[cfg(test)]
mod samples;
#[cfg(test)]
mod small_files;
