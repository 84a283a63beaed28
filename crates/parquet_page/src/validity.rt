//! Which rows of a page have a value.
ghost use Rattle.std.specs.Prelude.{◌≡◌, ◌<◌, [], length, take, drop, unwrap_or, IfOk, IsSome, if◌then◌else◌};
ghost use Rattle.columns_core.specs.Causes.{TellsOf};
ghost use Rattle.parquet_page.specs.Content.{DataContent, data_content};
ghost use Rattle.parquet_page.specs.Levels.{present_count};
ghost use Rattle.parquet_page.specs.Runs.{GivesRun};
ghost use Rattle.parquet_page.specs.Spelling.{has_readable_levels as has_readable_levels_by};
ghost use Rattle.parquet_page.specs.ValidityLeft.{levels_causes, page_left, page_places};
ghost use Rattle.parquet_page.specs.ValidityParts.{GivesPart};
ghost use Rattle.parquet_page.specs.declared.run.Run.TheVariants.{Present, Null};

use crate::body::split_buffer;
use crate::found::value_count;
use crate::level_runs::LevelRuns;
use crate::page::DataPage;
use crate::run::Run;
use crate::validity_part::ValidityPart;
use columns_core::{Error, Part};
use parquet_meta::{DataPageHeader, Repetition};

/// The number of the one encoding of levels that is read.
const HYBRID: i32 = 3;

/// Whether the levels of a page are read. Only those of the first form have an encoding of their own.
fn has_readable_levels(page: &DataPage<'_>) -> bool
    ensures { result ≡ has_readable_levels_by page.now.type_.now.repetition page.now.header }
{
    match (page.type_.repetition, page.header) {
        (
            Repetition::Optional,
            DataPageHeader::V1 {
                definition_encoding,
                ..
            },
        ) => definition_encoding == HYBRID,
        _ => true,
    }
}

/// The walk over the levels of a page.
pub(crate) fn level_runs(page: &DataPage<'_>) -> Result<LevelRuns, Error>
    ensures places { IfOk result (λ runs.
        page_left runs (data_content page.now) ≡ page_places (data_content page.now)) }
    ensures ok { IfOk result (λ _. levels_causes (data_content page.now) ≡ []) }
    ensures refusal { TellsOf result (levels_causes (data_content page.now)) }
{
    if !has_readable_levels(page) {
        return Err(Error::NotYetImplemented(Part::Levels));
    }
    let (_, levels, _) = split_buffer(page)?;
    LevelRuns::try_new(levels, page.type_.repetition, value_count(&page.header))
}

/// Walks all rows of a page, in runs of rows that have a value and rows that are null, or by the bits of words. It holds places, and the page is handed to
/// each call.
#[derive(Clone, Copy)]
pub struct OptionalPageValidity {
    runs: LevelRuns,
}

impl OptionalPageValidity {
    ghost use Rattle.parquet_page.specs.ValidityLeft.{IsLongest, IsLongestPart, optional_left, optional_steps};

    /// Before the first row.
    pub fn try_new(page: &DataPage<'_>) -> Result<Self, Error>
        ensures places { IfOk result (λ walk.
            optional_left walk (data_content page.now) ≡ page_places (data_content page.now)) }
        ensures ok { IfOk result (λ _. levels_causes (data_content page.now) ≡ []) }
        ensures refusal { TellsOf result (levels_causes (data_content page.now)) }
    {
        Ok(OptionalPageValidity {
            runs: level_runs(page)?,
        })
    }

    /// The next run of rows of one kind, with `limit` rows at most. The page is that of `try_new`.
    pub fn next(&mut self, page: &DataPage<'_>, limit: usize) -> Option<Run>
        requires page { IsSome (optional_left self.old (data_content page.now)) }
        requires limit { 0 < limit }
        ensures run { GivesRun limit (optional_steps self.old (data_content page.now))
            (optional_steps self.new (data_content page.now)) result }
        ensures longest { IsLongest limit result (optional_steps self.new (data_content page.now)) }
        ensures page { IsSome (optional_left self.new (data_content page.now)) }
    {
        let Ok((_, levels, _)) = split_buffer(page) else {
            return None;
        };
        let (present, rows) = self.runs.next(levels, limit)?;
        Some(kept_run(present, rows))
    }

    /// The next rows in one part, at most `limit`: a run as long as it can be, or the bits of at most 32 packed levels that are not all the same. The
    /// page is that of `try_new`.
    pub fn next_part(&mut self, page: &DataPage<'_>, limit: usize) -> Option<ValidityPart>
        requires page { IsSome (optional_left self.old (data_content page.now)) }
        requires limit { 0 < limit }
        ensures part { GivesPart limit (optional_steps self.old (data_content page.now))
            (optional_steps self.new (data_content page.now)) result }
        ensures longest { IsLongestPart limit result (optional_steps self.new (data_content page.now)) }
        ensures page { IsSome (optional_left self.new (data_content page.now)) }
    {
        let Ok((_, levels, _)) = split_buffer(page) else {
            return None;
        };
        if let Some(word) = self.runs.next_word(levels, limit) {
            return Some(ValidityPart::Word(word));
        }
        let (present, rows) = self.runs.next(levels, limit)?;
        Some(ValidityPart::Run(kept_run(present, rows)))
    }

    /// Passes over the next rows, at most so many, and tells how many of them have a value. The page is that of `try_new`.
    pub fn pass(&mut self, page: &DataPage<'_>, rows: usize) -> usize
        requires { IsSome (optional_left self.old (data_content page.now)) }
        ensures present { result ≡ present_count
            (take rows (unwrap_or (optional_left self.old (data_content page.now)) [])) }
        ensures left { unwrap_or (optional_left self.new (data_content page.now)) []
            ≡ drop rows (unwrap_or (optional_left self.old (data_content page.now)) []) }
        ensures page { IsSome (optional_left self.new (data_content page.now)) }
    {
        let Ok((_, levels, _)) = split_buffer(page) else {
            unreachable!()
        };
        self.runs.pass(levels, rows)
    }

    /// How many rows are left.
    pub fn len(&self) -> usize
        ensures { (page : DataContent) → IsSome (optional_left self.now page)
            → result ≡ length (optional_steps self.now page) }
    {
        self.runs.len()
    }
}

/// A run of rows that are given.
pub(crate) fn kept_run(present: bool, rows: usize) -> Run
    ensures { result ≡ (if present then Present rows else Null rows) }
{
    if present {
        Run::Present(rows)
    } else {
        Run::Null(rows)
    }
}
