//! `pqscan`: prints rows of a Parquet file, without those that its statistics rule out.
#![tactic(auto)]

ghost use Rattle.std.specs.Prelude.{◌≡◌, ◌<◌};

use parquet_base::Steps;
use pq_common::{Edge, Status, end};
use scan_program::run;
use std::marker::Brand;
use std::process::ExitCode;
use std::sync::ledger::{Blank, Ledger};

const USAGE: &str = "usage: pqscan FILE ITEM... [--chunk N] [--limit N] [--summary]";

/// Scans the file that the first word names, and says on standard error why it could not.
fn main(rt: HostRuntime) -> ExitCode {
    let status = scan::<Brand>(&rt, Blank::new(1));
    end(&rt, "pqscan", USAGE, status)
}

fn scan<L: Ledger>(rt: &HostRuntime, blank: Blank) -> Status
    requires name { blank.name ≡ L.name }
    requires parts { blank.parts ≡ L.parts }
    requires whole { 0 < blank.parts }
{
    match Edge::open(rt) {
        Ok(mut edge) => {
            let edge = &mut edge;
            let mut steps = Steps::<L>::new(blank);
            run(
                rt.alloc(),
                &edge.words,
                &mut edge.source,
                &mut edge.out,
                &mut steps,
            )
        }
        Err(status) => status,
    }
}
