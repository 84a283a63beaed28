//! Facts about the definitions that the contracts cite.
ghost use Rattle.std.specs.Prelude.{◌≡◌, ℕ, ◌≤◌, pos, Bool, true, IsSome, List, [], ◌∷◌, ◌++◌, length, take, drop, map, replicate, Option, Some, None, option_map};
ghost use Rattle.std.specs.List.{flat_map};
ghost use Rattle.parquet_base.specs.Intervals.{AreAdjacent, is_well_shaped, rows_in_page, rows_of};
ghost use Rattle.parquet_base.specs.declared.interval.Interval.{Interval};
ghost use Rattle.parquet_thrift.specs.Front.{ReadsFront};
ghost use Rattle.parquet_meta.specs.declared.metadata.PageLocation.{PageLocation};
ghost use Rattle.parquet_page.specs.Alone.{ArePagesReadAlone, IsDictionaryReadAlone};
ghost use Rattle.parquet_page.specs.Chunk.{Defined, DictionaryPage, chunk_dictionary, data_page_at, dictionary_at};
ghost use Rattle.parquet_page.specs.Content.{DataContent};
ghost use Rattle.parquet_page.specs.Levels.{placed};
ghost use Rattle.parquet_page.specs.Locations.{begin_in_time, page_intervals};
ghost use Rattle.parquet_page.specs.Opened.{page_causes};
ghost use Rattle.parquet_page.specs.Plan.{Step, along, plan};
ghost use Rattle.parquet_page.specs.Runs.{expand};
ghost use Rattle.parquet_page.specs.Selected.{selected_of};
ghost use Rattle.parquet_page.specs.Spelling.{placed_keys, spelled};
ghost use Rattle.parquet_page.specs.Stored.{Stored};

use crate::run::Run;

/// A page is read from its own bytes, whatever stands after them.
pub fn pages_are_read_from_their_own_bytes()
    ensures data { (left : ℕ) → ReadsFront 1 (data_page_at left) }
    ensures dictionary { ReadsFront 1 dictionary_at }
{}

/// Each page that a walk over a chunk finds is found by its place and size alone, and the dictionary page by any part that it begins.
pub fn pages_are_found_by_their_places()
    ensures data { (chunk : List ℕ) → ArePagesReadAlone chunk }
    ensures dictionary { (chunk : List ℕ) (page : DictionaryPage) →
        chunk_dictionary chunk ≡ Defined page
        → IsDictionaryReadAlone chunk page }
{}

/// A page with which nothing is wrong is spelled: over the entries of the dictionary, where the column has one, or as keys, where it is read so.
pub fn pages_without_causes_are_spelled()
    ensures values { (page : DataContent) (has_dictionary : Bool) (entries : Option (List Stored))
        → (has_dictionary ≡ true → IsSome entries)
        → page_causes None has_dictionary (option_map length entries) page ≡ []
        → IsSome (spelled page entries) }
    ensures keys { (most : ℕ) (page : DataContent) (has_dictionary : Bool) (entries : Option ℕ)
        → page_causes (Some most) has_dictionary entries page ≡ [] → IsSome (placed_keys page) }
{}

/// Pages whose first row is a number lie one behind the other, up to the number of rows.
pub fn pages_lie_one_behind_the_other()
    ensures { (page : PageLocation) (locations : List PageLocation) (rows first : ℕ) (pages : List Interval)
        → page_intervals (page ∷ locations) rows ≡ Some pages → page.first_row_index ≡ pos first
        → AreAdjacent first pages rows }
{}

/// Whatever the borders of the pages, well-shaped intervals select each of their rows once and in order, where the first page begins in time.
pub fn pages_select_each_row_once()
    ensures { (locations : List PageLocation) (pages intervals : List Interval) (rows : ℕ)
        → page_intervals locations rows ≡ Some pages → begin_in_time pages intervals ≡ true
        → is_well_shaped intervals rows ≡ true
        → flat_map (λ page. rows_in_page page intervals) pages ≡ rows_of intervals }
{}

/// The stored values of a page along its plan are the selected ones of the list that it spells.
pub fn plans_give_selected_places()
    ensures { (selected : Option (List Interval)) (places : List Bool) (values : List Stored)
        (list : List (Option Stored)) → placed places values ≡ Some list
        → along (plan selected places) values ≡ selected_of selected list }
{}

/// A run of rows that have a value takes the next stored values side by side, one of nulls takes none, and one that is passed over leaves them out.
pub fn runs_take_ranges()
    ensures present { (n : ℕ) (rest : List Step) (values : List Stored) → n ≤ length values
        → along (expand (Run.Present n) ++ rest) values
        ≡ map Some (take n values) ++ along rest (drop n values) }
    ensures null { (n : ℕ) (rest : List Step) (values : List Stored)
        → along (expand (Run.Null n) ++ rest) values ≡ replicate n None ++ along rest values }
    ensures passed { (n : ℕ) (rest : List Step) (values : List Stored) → n ≤ length values
        → along (expand (Run.Passed n) ++ rest) values ≡ along rest (drop n values) }
{}
