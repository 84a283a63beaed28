//! What a column index tells of each page, as values of a type.
ghost use Rattle.std.specs.Prelude.{◌≡◌, [], Some, true, is_some, map, option_map, IfOk, OnOk};
ghost use Rattle.columns_core.specs.Causes.{ComesOf};
ghost use Rattle.parquet_meta.specs.TypedStatistics.{known_count};
ghost use Rattle.column_ends.specs.Converted.{causes_of_index, each_made, index_cells};
ghost use Rattle.column_ends.specs.ByRule.{page_by, page_causes_by, each_by, all_causes_by};
ghost use Rattle.column_ends.specs.Rules.{fits_size};
ghost use Rattle.column_ends.specs.Told.{stored_page, stored_pages};

use crate::end::{StoredEnd, end_value};
use crate::rules::page_rule;
use crate::{EndBytes, ValueRule};
use columns_core::{Cell, DataType, Error, Part};
use parquet_meta::{Index, PageIndex, PrimitiveType};
use std::alloc::Global;

/// Makes something of a page's ends, for `index_each`.
pub trait FromEnds<T> {
    ghost use Rattle.std.specs.Prelude.{ℕ};
    ghost use Rattle.columns_core.specs.declared.cell.Cell.{Cell};
    ghost use Rattle.parquet_meta.specs.declared.metadata.PageIndex.{PageIndex};

    /// What is made of the number of a page, counted from 0, and its ends.
    ghost made: { Self → ℕ × PageIndex Cell → T };

    fn make(&self, page: usize, ends: PageIndex<Cell>) -> T
        ensures { result ≡ made self.now (page, ends) };
}

/// The ends themselves.
struct Themselves;

impl FromEnds<PageIndex<Cell>> for Themselves {
    ghost made = { λ _ told. told.1 };

    fn make(&self, _page: usize, ends: PageIndex<Cell>) -> PageIndex<Cell> {
        ends
    }
}

/// What a column index tells of each page, as values of a type. The ends of all pages fit arrays of their own.
#[tactic(auto, using(crate::proofs::IndexLemmas::each_itself))]
pub fn index_ends(
    alloc: Global,
    stored: &PrimitiveType,
    index: &Index,
    data_type: &DataType,
) -> Result<Vec<PageIndex<Cell>>, Error>
    ensures ends { IfOk result (λ ends. index_cells stored.now data_type.now index.now ≡ Some ends.items) }
    ensures ok { OnOk result (causes_of_index stored.now data_type.now index.now ≡ []) }
    ensures cause { ComesOf result (causes_of_index stored.now data_type.now index.now) }
{
    index_each(alloc, stored, index, data_type, &Themselves)
}

/// What is made of the ends that a column index tells of each page, as values of a type. Besides what is made, the converted ends of one page are
/// held at a time. Those of all pages have to fit arrays of their own, as in `index_ends`.
#[tactic(auto, using(crate::proofs::IndexLemmas::index_causes))]
pub fn index_each<T: Drop, M: FromEnds<T>>(
    alloc: Global,
    stored: &PrimitiveType,
    index: &Index,
    data_type: &DataType,
    of: &M,
) -> Result<Vec<T>, Error>
    ensures made { IfOk result (λ made.
        option_map (each_made (M.made of.now)) (index_cells stored.now data_type.now index.now)
        ≡ Some made.items) }
    ensures ok { OnOk result (causes_of_index stored.now data_type.now index.now ≡ []) }
    ensures cause { ComesOf result (causes_of_index stored.now data_type.now index.now) }
{
    let Some(rule) = page_rule(stored, data_type) else {
        return Err(Error::NotYetImplemented(Part::Index));
    };
    made_by_rule(alloc, rule, index, data_type, of)
}

fn made_by_rule<T: Drop, M: FromEnds<T>>(
    alloc: Global,
    rule: ValueRule,
    index: &Index,
    data_type: &DataType,
    of: &M,
) -> Result<Vec<T>, Error>
    requires { fits_size rule ≡ true }
    ensures made { IfOk result (λ made.
        each_made (M.made of.now) (each_by rule (stored_pages index.now)) ≡ made.items) }
    ensures ok { OnOk result (all_causes_by rule data_type.now (stored_pages index.now) ≡ []) }
    ensures cause { ComesOf result (all_causes_by rule data_type.now (stored_pages index.now)) }
{
    match index {
        Index::Boolean(pages) => made_of_pages(alloc, rule, pages.as_slice(), data_type, of),
        Index::Int32(pages) => made_of_pages(alloc, rule, pages.as_slice(), data_type, of),
        Index::Int64(pages) => made_of_pages(alloc, rule, pages.as_slice(), data_type, of),
        Index::Int96(pages) => made_of_pages(alloc, rule, pages.as_slice(), data_type, of),
        Index::ByteArray(pages) => made_of_pages(alloc, rule, pages.as_slice(), data_type, of),
        Index::FixedLenByteArray(_, pages) => made_of_pages(
            alloc,
            rule,
            pages.as_slice(),
            data_type,
            of,
        ),
    }
}

/// What is made of each page. The low ends of all pages have to fit one array of the type, and the high ones another.
fn made_of_pages<E: StoredEnd, T: Drop, M: FromEnds<T>>(
    alloc: Global,
    rule: ValueRule,
    pages: &[PageIndex<E>],
    data_type: &DataType,
    of: &M,
) -> Result<Vec<T>, Error>
    requires { fits_size rule ≡ true }
    ensures made { IfOk result (λ made.
        each_made (M.made of.now) (each_by rule (map (stored_page E.stored) pages.now)) ≡ made.items) }
    ensures ok { OnOk result
        (all_causes_by rule data_type.now (map (stored_page E.stored) pages.now) ≡ []) }
    ensures cause { ComesOf result
        (all_causes_by rule data_type.now (map (stored_page E.stored) pages.now)) }
{
    let mut made = Vec::with_capacity(alloc, pages.len())?;
    let mut bytes = EndBytes::new();
    for i in 0..pages.len() {
        let ends = values_of_page(alloc, rule, &pages[i])?;
        bytes.add(ends.min.as_ref(), ends.max.as_ref());
        made.push(of.make(i, ends))?;
    }
    if bytes.fit(data_type) {
        Ok(made)
    } else {
        Err(Error::Overflow)
    }
}

fn values_of_page<T: StoredEnd>(
    alloc: Global,
    rule: ValueRule,
    page: &PageIndex<T>,
) -> Result<PageIndex<Cell>, Error>
    requires { fits_size rule ≡ true }
    ensures page { IfOk result (λ cells. page_by rule (stored_page T.stored page.now) ≡ cells) }
    ensures ok { OnOk result (page_causes_by rule (stored_page T.stored page.now) ≡ []) }
    ensures cause { ComesOf result (page_causes_by rule (stored_page T.stored page.now)) }
{
    if !is_count(page.null_count) {
        return Err(Error::ExternalFormat(Part::Index));
    }
    let min = end_value(alloc, rule, &page.min, Part::Index)?;
    let max = end_value(alloc, rule, &page.max, Part::Index)?;
    Ok(PageIndex {
        min,
        max,
        null_count: page.null_count,
    })
}

/// A count that is told is not negative.
fn is_count(count: Option<i64>) -> bool
    ensures { result ≡ is_some (known_count count) }
{
    match count {
        None => true,
        Some(count) => 0 <= count,
    }
}
