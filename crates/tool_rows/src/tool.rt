//! The tools that rows run.
ghost use Rattle.std.specs.Prelude.{◌≡◌, ◌<◌};

use inspect_program::run_inspect;
use parquet_base::Steps;
use parquet_meta::Source;
use pq_common::{Out, ToolStatus};
use std::alloc::Global;
use std::marker::Brand;
use std::sync::ledger::{Blank, Ledger};

/// A tool.
#[derive(Clone, Copy)]
pub(crate) enum Tool {
    Inspect,
    Scan,
}

impl Tool {
    /// The tool of a name.
    pub(crate) fn named(name: &str) -> Option<Tool> {
        match name {
            "pqinspect" => Some(Tool::Inspect),
            "pqscan" => Some(Tool::Scan),
            _ => None,
        }
    }

    /// Runs the tool by its words.
    pub(crate) fn run<S: Source, K: Out>(
        self,
        alloc: Global,
        words: &[String],
        source: &mut S,
        out: &mut K,
    ) -> ToolStatus {
        match self {
            Tool::Inspect => run_inspect(alloc, words, source, out),
            Tool::Scan => scan::<S, K, Brand>(alloc, words, source, out, Blank::new(1)),
        }
    }
}

fn scan<S: Source, K: Out, L: Ledger>(
    alloc: Global,
    words: &[String],
    source: &mut S,
    out: &mut K,
    blank: Blank,
) -> ToolStatus
    requires name { blank.name ≡ L.name }
    requires parts { blank.parts ≡ L.parts }
    requires whole { 0 < blank.parts }
{
    let mut steps = Steps::<L>::new(blank);
    scan_program::run(alloc, words, source, out, &mut steps)
}
