//! Tests of files that are put: what a scan of them gives, and what is not put.
#![tactic(auto)]

#[cfg(test)]
mod asked;
#[cfg(test)]
mod layouts;
#[cfg(test)]
mod lines;
#[cfg(test)]
mod putting;
#[cfg(test)]
mod refusals;
#[cfg(test)]
mod scanning;
#[cfg(test)]
mod stored;
#[cfg(test)]
mod types;
