//! `tool_rows`: runs tools as the rows of its input ask, and prints what each run writes and how it ends.
#![tactic(auto)]

mod answer;
mod bytewise;
mod failing;
mod row;
mod tool;

use answer::{Answer, byte_by_byte, over_file, over_memory};
use failing::{Failing, statuses};
use row::{Mode, Row};
use std::io::{BufRead, BufReader};
use std::rt::Files;
use std::{fs, io};

/// Answers the rows of standard input. Empty lines are none, nor are those that begin with `#`.
fn main(rt: HostRuntime) -> io::Result<()> {
    let alloc = rt.alloc();
    for line in BufReader::new(alloc, rt.reader())?.lines(alloc) {
        let line = line?;
        if !line.is_empty() && !line.starts_with('#') {
            print_line(&rt, &line)?;
        }
    }
    Ok(())
}

/// Prints a line and the answer to it.
fn print_line<R: Files + Print + AllocGlobal>(rt: &R, line: &str) -> io::Result<()> {
    println!(rt; "> {line}")?;
    match Row::read(rt.alloc(), line)? {
        Some(row) => print_answer(rt, &row),
        None => println!(rt; "not a row"),
    }
}

/// Prints what the tool writes, and the number of the status that it ends with.
fn print_answer<R: Files + Print + AllocGlobal>(rt: &R, row: &Row) -> io::Result<()> {
    let answer = answer_to(rt, row)?;
    rt.write_all(&answer.text)?;
    println!(rt; "status {}", answer.status.number())
}

/// Runs the tool in the mode of the row.
fn answer_to<R: Files + Print + AllocGlobal>(rt: &R, row: &Row) -> io::Result<Answer> {
    let alloc = rt.alloc();
    match row.mode {
        Mode::File => Ok(over_file(rt, row)?),
        Mode::Memory => Ok(over_memory(alloc, row, &bytes_of(rt, row)?)?),
        Mode::Bytewise => Ok(byte_by_byte(alloc, row, &bytes_of(rt, row)?, Vec::new(alloc))?),
        Mode::EachRead => print_statuses(rt, row, Failing::Reads),
        Mode::EachWrite => print_statuses(rt, row, Failing::Writes),
    }
}

/// Prints the statuses of runs in each of which another call fails, and gives the answer of the whole one, in which none does.
fn print_statuses<R: Files + Print + AllocGlobal>(
    rt: &R,
    row: &Row,
    failing: Failing,
) -> io::Result<Answer> {
    let alloc = rt.alloc();
    let bytes = bytes_of(rt, row)?;
    let whole = over_memory(alloc, row, &bytes)?;
    println!(rt; "{}", statuses(alloc, row, &bytes, failing, &whole)?)?;
    Ok(whole)
}

/// The bytes of the file that the first word names. There are none without words, nor where it names a sample in place of a file.
fn bytes_of<R: Files + AllocGlobal>(rt: &R, row: &Row) -> io::Result<Vec<u8>> {
    match row.words.first() {
        Some(path) if !path.starts_with("@sample:") => fs::read(rt, path.as_str()),
        _ => Ok(Vec::new(rt.alloc())),
    }
}
