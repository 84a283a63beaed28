//! Tests of scans: which part of a file an error names, what bounds keep of known ends, and how many pages are looked at.
#![tactic(auto)]

#[cfg(test)]
mod bounds;
#[cfg(test)]
mod pages;
#[cfg(test)]
mod refusals;
#[cfg(test)]
mod scanning;
#[cfg(test)]
mod values;
