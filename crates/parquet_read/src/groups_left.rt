//! What is left for a reader of row groups.
ghost use Rattle.std.specs.Prelude.{◌≡◌, ◌-◌, ◌==◌, length, map, option_map};
ghost use Rattle.std.specs.List.{list_all};
ghost use Rattle.parquet_read.specs.Asked.{have_one_list, held_lists, lists_of};
ghost use Rattle.parquet_read.specs.GroupReader.{all_lists, limit_behind as limit_behind_by, lists_left};
ghost use Rattle.parquet_read.specs.Groups.{front_lists, have_all_lists, lists_behind};

use crate::RowGroupDeserializer;
use crate::asked::has_one_list;
use columns_core::Error;
use parquet_page::FilteredPage;
use std::alloc::Global;
use std::vec::IntoIter;

/// The lists of the next group, where they are told.
pub(crate) fn next_lists(
    lists: &mut Option<IntoIter<Vec<Vec<Vec<FilteredPage>>>, Global>>,
) -> Option<Vec<Vec<Vec<FilteredPage>>>>
    ensures front { lists_of result ≡ front_lists (lists_left lists.old) }
    ensures others { lists_left lists.new ≡ lists_behind (lists_left lists.old) }
{
    match lists {
        Some(lists) => lists.next(),
        None => None,
    }
}

/// The rows that are wanted behind those of a group. One whose reading failed counts nothing.
pub(crate) fn limit_behind(
    wanted: Option<usize>,
    found: &Result<RowGroupDeserializer, Error>,
) -> Option<usize>
    ensures { result ≡ limit_behind_by wanted found.now }
{
    match found {
        Ok(group) => less(wanted, group.num_rows()),
        Err(_) => wanted,
    }
}

fn less(wanted: Option<usize>, rows: usize) -> Option<usize>
    ensures { result ≡ option_map (λ limit. limit - rows) wanted }
{
    match wanted {
        Some(limit) => Some(limit.saturating_sub(rows)),
        None => None,
    }
}

/// Whether there is one list of pages for each group, field and one column.
pub(crate) fn has_all_lists(
    groups: usize,
    fields: usize,
    pages: &Option<Vec<Vec<Vec<Vec<FilteredPage>>>>>,
) -> bool
    ensures { result ≡ have_all_lists groups fields (all_lists pages.now) }
{
    match pages {
        Some(all) => has_lists(groups, fields, all),
        None => true,
    }
}

fn has_lists(groups: usize, fields: usize, all: &[Vec<Vec<Vec<FilteredPage>>>]) -> bool
    ensures { result ≡ have_all_lists groups fields (Some (map held_lists all.now)) }
{
    are_so_many(all, groups) && has_lists_each(fields, all)
}

fn are_so_many(all: &[Vec<Vec<Vec<FilteredPage>>>], count: usize) -> bool
    ensures { result ≡ (length all.now == count) }
{
    all.len() == count
}

fn has_lists_each(fields: usize, all: &[Vec<Vec<Vec<FilteredPage>>>]) -> bool
    ensures { result ≡ list_all (λ own. have_one_list fields (Some (held_lists own))) all.now }
{
    all.iter().all(|own| has_one_list(fields, own))
}

/// The lists of all groups, one after another.
pub(crate) fn iter_of(
    pages: Option<Vec<Vec<Vec<Vec<FilteredPage>>>>>,
) -> Option<IntoIter<Vec<Vec<Vec<FilteredPage>>>, Global>>
    ensures { lists_left result ≡ all_lists pages }
{
    match pages {
        Some(all) => Some(all.into_iter()),
        None => None,
    }
}
