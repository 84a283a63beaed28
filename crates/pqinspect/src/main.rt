//! `pqinspect`: prints what a Parquet file says of itself.
#![tactic(auto)]

use inspect_program::run_inspect;
use pq_common::{Edge, Status, end};
use std::process::ExitCode;

const USAGE: &str = "usage: pqinspect FILE";

/// Inspects the file that the word names, and says on standard error why it could not.
fn main(rt: HostRuntime) -> ExitCode {
    let status = inspect_file(&rt);
    end(&rt, "pqinspect", USAGE, status)
}

fn inspect_file(rt: &HostRuntime) -> Status {
    match Edge::open(rt) {
        Ok(mut edge) => {
            let edge = &mut edge;
            run_inspect(rt.alloc(), &edge.words, &mut edge.source, &mut edge.out)
        }
        Err(status) => status,
    }
}
