//! `parquet_put`: puts lines of numbers into a Parquet file.
#![tactic(auto)]

use pq_common::{Edge, Status, end};
use put_program::run_put;
use std::process::ExitCode;

const USAGE: &str = "usage: parquet_put FILE NAME PAGE_ROWS";

/// Puts the lines of the file that the first word names, and says on standard error why it could not.
fn main(rt: HostRuntime) -> ExitCode {
    let status = put_lines(&rt);
    end(&rt, "parquet_put", USAGE, status)
}

fn put_lines(rt: &HostRuntime) -> Status {
    match Edge::open(rt) {
        Ok(mut edge) => {
            let edge = &mut edge;
            run_put(rt.alloc(), &edge.words, &mut edge.source, &mut edge.out)
        }
        Err(status) => status,
    }
}
