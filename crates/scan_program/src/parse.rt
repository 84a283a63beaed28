//! The words behind the first, taken apart by `clap`.
ghost use Rattle.std.specs.Prelude.{◌≡◌, ◌≢◌, ◌<◌, IfErr, IfOk, None, length, map, string_bytes};
ghost use Rattle.clap.specs.Values.{kind_of};
ghost use Rattle.scan_program.specs.Parsed.{IsSaid};
ghost use Rattle.scan_program.specs.Words.{spelled_command};

use clap::error::ErrorKind;
use clap::{Arg, ArgAction, ArgMatches, Command, Error};
use std::alloc::Global;

/// What stands in the words behind the first, which `clap` takes for the program's name and which names the file.
pub(crate) fn parse<'a>(alloc: Global, words: &'a [String]) -> Result<ArgMatches<'a>, Error>
    requires { 0 < length words.now }
    ensures said { IfOk result (IsSaid (map string_bytes words.entry.now)) }
    ensures refused { IfErr result (λ e. kind_of e ≢ ErrorKind.OutOfMemory →
        spelled_command (map string_bytes words.entry.now) ≡ None) }
{
    Command::new(alloc, "pqscan")
        .disable_help_flag(true)
        .arg(Arg::new(alloc, "ITEM").action(ArgAction::Append))?
        .arg(
            Arg::new(alloc, "chunk")
                .long("chunk")
                .action(ArgAction::Set),
        )?
        .arg(
            Arg::new(alloc, "limit")
                .long("limit")
                .action(ArgAction::Set),
        )?
        .arg(
            Arg::new(alloc, "summary")
                .long("summary")
                .action(ArgAction::SetTrue),
        )?
        .try_get_matches_from(words)
}
