//! Tests of the program: runs over files in memory, and what they write.
#![tactic(auto)]

#[cfg(test)]
mod bounds;
#[cfg(test)]
mod columns;
#[cfg(test)]
mod endings;
#[cfg(test)]
mod failing;
#[cfg(test)]
mod groups;
#[cfg(test)]
mod keyed;
#[cfg(test)]
mod lies;
#[cfg(test)]
mod limits;
#[cfg(test)]
mod pairs_file;
#[cfg(test)]
mod reports;
#[cfg(test)]
mod running;
#[cfg(test)]
mod samples;
#[cfg(test)]
mod spelling;
#[cfg(test)]
mod texts;
