//! `run`, which does all that the program `pqscan` does: it reads the words of a command line, scans and writes the report.
#![tactic(auto)]

mod bounds;
mod chunks;
mod command;
mod groups;
mod items;
mod parse;
mod program;
mod report;
mod sampled;
mod scanned;

pub use program::run;
