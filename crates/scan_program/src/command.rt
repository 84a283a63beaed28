//! The words of a command line.
ghost use Rattle.std.specs.Prelude.{◌≡◌, ℕ, List, [], codes, map, option_copied, option_map, string_bytes, unwrap_or, IfOk};
ghost use Rattle.clap.specs.Matches.{found_of, matched_of, raw_values};
ghost use Rattle.scan_program.specs.Parsed.{command_of, number_in as number_in_by, written_command, IsSaid};
ghost use Rattle.scan_program.specs.Words.{spelled_command};

use crate::bounds::bounds_of;
use crate::items::items_of;
use crate::parse::parse;
use clap::ArgMatches;
use clap::error::ErrorKind;
use columns_core::{Schema, Seq};
use parquet_scan::Bound;
use pq_common::count;
use std::alloc::{AllocError, Global};

/// What a command line asks for.
#[derive(Drop)]
pub(crate) struct Asked {
    pub(crate) schema: Schema,
    pub(crate) bounds: Seq<Bound>,
    pub(crate) chunk_size: Option<usize>,
    pub(crate) limit: Option<usize>,
    /// Whether numbers of rows and pages stand in place of the rows.
    pub(crate) summary: bool,
}

/// What the words ask for, of which the first names the file; `None` where they spell no command.
pub(crate) fn read_words(alloc: Global, words: &[String]) -> Result<Option<Asked>, AllocError>
    ensures { IfOk result (λ asked. option_map command_of asked
        ≡ spelled_command (map string_bytes words.now)) }
{
    if words.is_empty() {
        return Ok(None);
    }
    match parse(alloc, words) {
        Ok(found) => asked_in(alloc, &found),
        Err(error) if error.kind() == ErrorKind::OutOfMemory => Err(AllocError),
        Err(_) => Ok(None),
    }
}

/// What is asked for where this was found in the words.
fn asked_in(alloc: Global, found: &ArgMatches<'_>) -> Result<Option<Asked>, AllocError>
    ensures { IfOk result (λ asked. (words : List (List ℕ)) → IsSaid words found.now → option_map
        command_of asked ≡ spelled_command words) }
{
    written(
        alloc,
        items_in(found),
        found.get_str("chunk"),
        found.get_str("limit"),
        found.get_flag("summary"),
    )
}

/// The items that were found.
fn items_in<'a, 'b>(found: &'b ArgMatches<'a>) -> &'b [&'a str]
    ensures { map (λ item. item.now) result.now
        ≡ unwrap_or (option_map raw_values (matched_of (found_of found.now) (codes "ITEM"))) [] }
{
    found.get_strs("ITEM").unwrap_or_default()
}

/// What items and options ask for.
fn written(
    alloc: Global,
    items: &[&str],
    chunk_size: Option<&str>,
    limit: Option<&str>,
    summary: bool,
) -> Result<Option<Asked>, AllocError>
    ensures { IfOk result (λ asked. option_map command_of asked
        ≡ written_command (map (λ item. item.now) items.now) (option_copied chunk_size.entry)
        (option_copied limit.entry) summary) }
{
    let Some(items) = items_of(alloc, items)? else {
        return Ok(None);
    };
    let Some(chunk_size) = number_in(chunk_size) else {
        return Ok(None);
    };
    let Some(limit) = number_in(limit) else {
        return Ok(None);
    };
    let Some(bounds) = bounds_of(alloc, items.ends.as_slice(), items.fields.as_slice())? else {
        return Ok(None);
    };
    Ok(Some(Asked {
        schema: Schema {
            fields: Seq::new(items.fields),
        },
        bounds: Seq::new(bounds),
        chunk_size,
        limit,
        summary,
    }))
}

/// The number that a text spells, where there is a text.
fn number_in(text: Option<&str>) -> Option<Option<usize>>
    ensures { result ≡ number_in_by (option_copied text.entry) }
{
    match text {
        None => Some(None),
        Some(text) => Some(Some(count(text.as_bytes())? as usize)),
    }
}
