//! Which selected rows of a page have a value.
ghost use Rattle.std.specs.Prelude.{◌≡◌, ◌+◌, ◌<◌, ◌≤◌, ◌^◌, true, [], length, take, drop, IfOk, IfSome, IfNone, IsSome, option_map, unwrap_or};
ghost use Rattle.columns_core.specs.Causes.{TellsOf};
ghost use Rattle.parquet_base.specs.Intervals.{rows_of};
ghost use Rattle.parquet_page.specs.Content.{DataContent, DataOf, data_content, fit_in, is_shaped};
ghost use Rattle.parquet_page.specs.Levels.{present_count};
ghost use Rattle.parquet_page.specs.Plan.{kept_count, plan};
ghost use Rattle.parquet_page.specs.Runs.{GivesRun, run_rows};
ghost use Rattle.parquet_page.specs.SliceLeft.{IsWalkOver, first_left, rows_left};
ghost use Rattle.parquet_page.specs.ValidityLeft.{levels_causes, optional_left, page_places};
ghost use Rattle.parquet_page.specs.ValidityParts.{GivesPart, part_rows};
ghost use Rattle.page_decoding.specs.FilteredLeft.{AreGiven, IsPartOf, IsRunOf, IsWholePart, PassesOver, intervals_of, optional_places};

use columns_core::Error;
use parquet_page::{DataPage, Interval, OptionalPageValidity, Run, SliceFiltered, ValidityPart};

/// Walks the selected rows of a page, in runs of rows that have a value, rows that are null, and stored values that are passed over, or
/// by the bits of words. It holds places, and the page is handed to each call.
#[derive(Clone, Copy)]
pub struct FilteredOptionalPageValidity {
    /// All rows, from one on.
    places: OptionalPageValidity,
    /// The row at which these stand.
    row: usize,
    /// The selected rows, from one on.
    rows: SliceFiltered,
    /// The row at which these stand.
    place: usize,
}

impl FilteredOptionalPageValidity {
    ghost use Rattle.page_decoding.specs.FilteredLeft.{IsLongestOf, IsLongestPartOf, IsPageOf, filtered_steps, selected_rows, stored_values};

    /// Before the first row.
    pub fn try_new(page: &DataPage<'_>) -> Result<Self, Error>
        requires { is_shaped (DataOf (data_content page.now)) ≡ true }
        ensures page { IfOk result (λ walk. IsPageOf walk (data_content page.now)) }
        ensures steps { IfOk result (λ walk.
            filtered_steps walk (data_content page.now)
            ≡ plan (data_content page.now).selected (unwrap_or (page_places (data_content page.now)) [])) }
        ensures ok { IfOk result (λ _. levels_causes (data_content page.now) ≡ []) }
        ensures refusal { TellsOf result (levels_causes (data_content page.now)) }
    {
        let places = OptionalPageValidity::try_new(page)?;
        let rows = before_all(page.selected_rows, places.len());
        Ok(FilteredOptionalPageValidity {
            places,
            row: 0,
            rows,
            place: 0,
        })
    }

    /// The next run, with `limit` selected rows at most. The page is that of `try_new`.
    pub fn next(&mut self, page: &DataPage<'_>, limit: usize) -> Option<Run>
        requires page { IsPageOf self.old (data_content page.now) }
        requires limit { 0 < limit }
        ensures run { GivesRun limit (filtered_steps self.old (data_content page.now))
            (filtered_steps self.new (data_content page.now)) result }
        ensures longest { IsLongestOf limit self.old (data_content page.now) result
            (filtered_steps self.new (data_content page.now)) }
        ensures page { IsPageOf self.new (data_content page.now) }
    {
        match page.selected_rows {
            Some(rows) => self.next_of(page, rows, limit),
            None => {
                let count = self.row + self.places.len();
                let whole = [Interval::new(0, count)];
                self.next_of(page, &whole[..count.min(1)], limit)
            }
        }
    }

    /// The next part, with `limit` selected rows at most: a run as long as it can be, or the bits of at most 32 packed levels, not all the same, of selected
    /// rows that stand side by side. The page is that of `try_new`.
    pub fn next_part(&mut self, page: &DataPage<'_>, limit: usize) -> Option<ValidityPart>
        requires page { IsPageOf self.old (data_content page.now) }
        requires limit { 0 < limit }
        ensures part { GivesPart limit (filtered_steps self.old (data_content page.now))
            (filtered_steps self.new (data_content page.now)) result }
        ensures longest { IsLongestPartOf limit (data_content page.now) self.old self.new result }
        ensures page { IsPageOf self.new (data_content page.now) }
    {
        match page.selected_rows {
            Some(rows) => self.next_part_of(page, rows, limit),
            None => {
                let count = self.row + self.places.len();
                let whole = [Interval::new(0, count)];
                self.next_part_of(page, &whole[..count.min(1)], limit)
            }
        }
    }

    /// How many selected rows are left.
    pub fn len(&self) -> usize
        ensures { (page : DataContent) → IsPageOf self.now page
            → result ≡ kept_count (filtered_steps self.now page) }
    {
        self.rows.len()
    }

    /// How many stored values the rows have that are not passed yet, whether they are selected or not.
    pub fn stored_count(&self, page: &DataPage<'_>) -> usize
        requires page { IsPageOf self.now (data_content page.now) }
        ensures { result ≡ stored_values (filtered_steps self.now (data_content page.now)) }
    {
        let mut places = self.places;
        let rows = places.len();
        places.pass(page, rows)
    }

    /// The next run over these intervals.
    fn next_of(&mut self, page: &DataPage<'_>, rows: &[Interval], limit: usize) -> Option<Run>
        requires page { IsPageOf self.old (data_content page.now) }
        requires rows { rows.now ≡ selected_rows (data_content page.now) }
        requires limit { 0 < limit }
        ensures run { GivesRun limit (filtered_steps self.old (data_content page.now))
            (filtered_steps self.new (data_content page.now)) result }
        ensures longest { IsLongestOf limit self.old (data_content page.now) result
            (filtered_steps self.new (data_content page.now)) }
        ensures page { IsPageOf self.new (data_content page.now) }
    {
        let left = self.places.len();
        let mut ahead = self.rows;
        let Some((passed, taken)) = ahead.next(rows, limit) else {
            return self.pass(page, left);
        };
        let gap = self.place + passed - self.row;
        match self.pass(page, gap) {
            Some(run) => Some(run),
            None => self.take(page, rows, taken),
        }
    }

    /// The next part over these intervals.
    fn next_part_of(
        &mut self,
        page: &DataPage<'_>,
        rows: &[Interval],
        limit: usize,
    ) -> Option<ValidityPart>
        requires page { IsPageOf self.old (data_content page.now) }
        requires rows { rows.now ≡ selected_rows (data_content page.now) }
        requires limit { 0 < limit }
        ensures part { GivesPart limit (filtered_steps self.old (data_content page.now))
            (filtered_steps self.new (data_content page.now)) result }
        ensures longest { IsLongestPartOf limit (data_content page.now) self.old self.new result }
        ensures page { IsPageOf self.new (data_content page.now) }
    {
        let mut ahead = self.rows;
        match ahead.next(rows, limit) {
            Some((passed, taken)) if self.place + passed == self.row => {
                self.take_part(page, rows, taken)
            }
            _ => Some(ValidityPart::Run(self.next_of(page, rows, limit)?)),
        }
    }

    /// Passes over rows that are not selected.
    fn pass(&mut self, page: &DataPage<'_>, rows: usize) -> Option<Run>
        requires page { IsSome (optional_left self.old.places (data_content page.now)) }
        requires fits { self.old.row + rows < 2 ^ 64 }
        ensures run { PassesOver (present_count
            (take rows (optional_places self.old.places (data_content page.now)))) result }
        ensures left { optional_places self.new.places (data_content page.now)
            ≡ drop rows (optional_places self.old.places (data_content page.now)) }
        ensures page { IsSome (optional_left self.new.places (data_content page.now)) }
        ensures row { self.new.row ≡ self.old.row + rows }
        ensures rows { self.new.rows ≡ self.old.rows }
        ensures place { self.new.place ≡ self.old.place }
    {
        if rows == 0 {
            return None;
        }
        let values = self.places.pass(page, rows);
        self.row += rows;
        if values > 0 {
            Some(Run::Passed(values))
        } else {
            None
        }
    }

    /// Takes the next selected rows that are of one kind, at most `limit`.
    fn take(&mut self, page: &DataPage<'_>, rows: &[Interval], limit: usize) -> Option<Run>
        requires page { IsSome (optional_left self.old.places (data_content page.now)) }
        requires walk { IsWalkOver self.old.rows rows.now }
        requires some { 0 < limit }
        requires most { limit ≤ first_left self.old.rows rows.now }
        requires fits { self.old.row
            + length (optional_places self.old.places (data_content page.now)) < 2 ^ 64 }
        ensures ended { IfNone result (optional_places self.old.places (data_content page.now) ≡ []) }
        ensures run { IfSome result (IsRunOf limit (optional_places self.old.places (data_content page.now))
            (optional_places self.new.places (data_content page.now))) }
        ensures given { IfSome result (λ run.
            AreGiven (run_rows run) (rows_left self.old.rows rows.now)
            (rows_left self.new.rows rows.now) self.new.rows.place) }
        ensures row { IfSome result (λ run. self.new.row ≡ self.old.row + run_rows run) }
        ensures place { IfSome result (λ run. self.new.place ≡ self.new.row) }
        ensures page { IsSome (optional_left self.new.places (data_content page.now)) }
        ensures walk { IsWalkOver self.new.rows rows.now }
    {
        let run = self.places.next(page, limit)?;
        let count = run.rows();
        let _ = self.rows.next(rows, count);
        self.row += count;
        self.place = self.row;
        Some(run)
    }

    /// Takes a part of the next selected rows, at most `limit`.
    fn take_part(
        &mut self,
        page: &DataPage<'_>,
        rows: &[Interval],
        limit: usize,
    ) -> Option<ValidityPart>
        requires page { IsSome (optional_left self.old.places (data_content page.now)) }
        requires walk { IsWalkOver self.old.rows rows.now }
        requires some { 0 < limit }
        requires most { limit ≤ first_left self.old.rows rows.now }
        requires fits { self.old.row
            + length (optional_places self.old.places (data_content page.now)) < 2 ^ 64 }
        ensures ended { IfNone result (optional_places self.old.places (data_content page.now) ≡ []) }
        ensures part { IfSome result (IsPartOf limit (optional_places self.old.places (data_content page.now))
            (optional_places self.new.places (data_content page.now))) }
        ensures whole { IfSome result (IsWholePart limit
            (data_content page.now) self.old.places self.new.places) }
        ensures given { IfSome result (λ part.
            AreGiven (part_rows part) (rows_left self.old.rows rows.now)
            (rows_left self.new.rows rows.now) self.new.rows.place) }
        ensures row { IfSome result (λ part. self.new.row ≡ self.old.row + part_rows part) }
        ensures place { IfSome result (λ part. self.new.place ≡ self.new.row) }
        ensures page { IsSome (optional_left self.new.places (data_content page.now)) }
        ensures walk { IsWalkOver self.new.rows rows.now }
    {
        let part = self.places.next_part(page, limit)?;
        let given = part.rows();
        let _ = self.rows.next(rows, given);
        self.row += given;
        self.place = self.row;
        Some(part)
    }
}

/// A walk over the selected rows of a page of so many rows.
fn before_all(selected: Option<&[Interval]>, count: usize) -> SliceFiltered
    requires { fit_in count (option_map (λ rows. rows.now) selected) ≡ true }
    ensures rows { rows_left result (intervals_of count (option_map (λ rows. rows.now) selected.entry))
        ≡ rows_of (intervals_of count (option_map (λ rows. rows.now) selected.entry)) }
    ensures place { result.place ≡ 0 }
    ensures walk { IsWalkOver result (intervals_of count (option_map (λ rows. rows.now) selected.entry)) }
{
    match selected {
        Some(rows) => SliceFiltered::new(rows),
        None => {
            let whole = [Interval::new(0, count)];
            SliceFiltered::new(&whole[..count.min(1)])
        }
    }
}
