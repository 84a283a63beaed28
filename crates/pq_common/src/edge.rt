//! The edge of a tool: the words of its process, the file that the first of them names, standard output, and how the process ends.
ghost use Rattle.std.specs.Prelude.{◌≡◌, IfErr, IfOk, map, string_bytes};
ghost use Rattle.std.specs.Process.{exit_status};
ghost use Rattle.pq_common.specs.Edge.{EndsAtTheEdge, ending_without_words, first_word};
ghost use Rattle.pq_common.specs.Endings.{status_number};

use crate::sink::StdSink;
use crate::status::{Status, tool_text};
use parquet_meta::FileSource;
use std::alloc::Global;
use std::env;
use std::env::Env;
use std::fs::Files;
use std::io::ErrorKind;
use std::process::ExitCode;

/// What a tool runs on.
#[derive(Drop)]
pub struct Edge<R: Files + Print + Drop> {
    /// The words behind the name of the program.
    pub words: Vec<String>,
    /// The file that the first word names; without words one of the empty path, which is never there.
    pub source: FileSource<R>,
    /// Standard output.
    pub out: StdSink<R>,
}

impl<'a, R: Env + Files + Print + AllocGlobal> Edge<&'a R> {
    /// The edge of this process, or how it ends without one.
    pub fn open(rt: &'a R) -> Result<Self, Status>
        ensures fresh { IfOk result (λ edge. (edge.source ≡ (0, 0)) × (edge.out.faults ≡ 0)) }
        ensures ended { IfErr result EndsAtTheEdge }
    {
        let words = words_of(rt)?;
        let path = path_of(rt.alloc(), &words)?;
        Ok(Edge {
            words,
            source: FileSource::new(rt, path),
            out: StdSink::new(rt),
        })
    }
}

/// The words behind the name of the program.
fn words_of<R: Env + AllocGlobal>(rt: &R) -> Result<Vec<String>, Status>
    ensures { IfErr result EndsAtTheEdge }
{
    match env::args(rt) {
        Ok(args) => args.skip(1).collect(rt.alloc()).map_err(|_| Status::Memory),
        Err(error) => Err(status_without_words(error.kind())),
    }
}

/// A word that is not UTF-8 is a faulty command line, which is told apart from want of memory. The system hands out no words in no other way.
fn status_without_words(kind: ErrorKind) -> Status
    ensures { result ≡ ending_without_words kind }
{
    match kind {
        ErrorKind::InvalidData => Status::Words,
        _ => Status::Memory,
    }
}

/// The first word, or the empty path.
fn path_of(alloc: Global, words: &[String]) -> Result<String, Status>
    ensures path { IfOk result (λ path. string_bytes path ≡ first_word (map string_bytes words.now)) }
    ensures ended { IfErr result EndsAtTheEdge }
{
    match words.first() {
        Some(word) => String::from_str(alloc, word).map_err(|_| Status::Memory),
        None => Ok(String::new(alloc)),
    }
}

/// Says on standard error how a run of a tool ended, unless all is done, and gives the exit status of its process.
pub fn end<R: Eprint>(rt: &R, tool: &str, usage: &'static str, status: Status) -> ExitCode
    ensures { exit_status result ≡ status_number status }
{
    if status != Status::Done {
        let _ = eprintln!(rt; "{tool}: {}", tool_text(status, usage));
    }
    ExitCode::from(status.number())
}
