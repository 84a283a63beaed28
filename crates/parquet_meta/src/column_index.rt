//! A column index as it is stored.

ghost use Rattle.std.specs.Prelude.{◌≡◌, true, IfOk};
ghost use Rattle.parquet_thrift.specs.Values.{in_list, in_struct};
ghost use Rattle.parquet_meta.specs.ColumnIndex.{column_index_in, has_one_length};
ghost use Rattle.parquet_meta.specs.Fault.{MakesOr, ReadsOr};
ghost use Rattle.parquet_meta.specs.Meaning.{by_rule, byte_string, elements_by_rule, list_of, truth_element};

use crate::decode::{MOST_RESERVED, Make, decode_bytes, decode_list_field, pass_over};
use crate::fault::Fault;
use crate::front::decode_front;
use crate::structure::Structure;
use columns_core::{JoinedStrings, Seq};
use parquet_thrift::{Compact, FALSE, FieldHeader, LIST, TRUE};
use std::alloc::Global;

/// Lists with an entry for each page.
#[derive(Drop)]
pub(crate) struct ColumnIndex {
    pub null_pages: Seq<bool>,
    pub min_values: JoinedStrings<i64>,
    pub max_values: JoinedStrings<i64>,
    pub null_counts: Option<Seq<i64>>,
}

#[derive(Drop)]
pub(crate) struct ColumnIndexFields {
    pub null_pages: Option<Seq<bool>>,
    pub min_values: Option<JoinedStrings<i64>>,
    pub max_values: Option<JoinedStrings<i64>>,
    pub null_counts: Option<Seq<i64>>,
}

/// The lists have one length.
fn has_one_length(index: &ColumnIndex) -> bool
    ensures { result ≡ has_one_length index.now }
{
    let pages = index.null_pages.as_slice().len();
    index.min_values.len() == pages
        && index.max_values.len() == pages
        && match &index.null_counts {
            Some(counts) => counts.as_slice().len() == pages,
            None => true,
        }
}

impl Structure<Global> for ColumnIndexFields {
    ghost use Rattle.parquet_meta.specs.ColumnIndex.{column_index_field};

    ghost field = { column_index_field };

    #[tactic(auto, unfolding(crate::specs::ColumnIndex::column_index_field), using(crate::proofs::Rules::by_rule_setting))]
    fn read_field(
        &mut self,
        alloc: Global,
        header: FieldHeader,
        compact: &mut Compact<'_>,
    ) -> Result<(), Fault> {
        match header.id {
            1 => self.null_pages = Some(decode_truths(alloc, header.kind, compact)?),
            2 => self.min_values = Some(decode_strings(alloc, header.kind, compact)?),
            3 => self.max_values = Some(decode_strings(alloc, header.kind, compact)?),
            5 => self.null_counts = Some(decode_list_field(alloc, header.kind, compact)?),
            _ => pass_over(alloc, header.kind, compact)?,
        }
        Ok(())
    }
}

impl Make<ColumnIndex, Global> for ColumnIndexFields {
    ghost use Rattle.parquet_meta.specs.ColumnIndex.{column_index_of};

    ghost make = { column_index_of };

    #[tactic(auto, unfolding(crate::specs::ColumnIndex::column_index_of))]
    fn make(self, _alloc: Global) -> Result<ColumnIndex, Fault> {
        let ColumnIndexFields {
            null_pages,
            min_values,
            max_values,
            null_counts,
        } = self;
        let null_pages = null_pages.ok_or(Fault::Unspelled)?;
        let min_values = min_values.ok_or(Fault::Unspelled)?;
        let max_values = max_values.ok_or(Fault::Unspelled)?;
        let index = ColumnIndex {
            null_pages,
            min_values,
            max_values,
            null_counts,
        };
        if !has_one_length(&index) {
            return Err(Fault::Unspelled);
        }
        Ok(index)
    }
}

/// A list of truth values, each of which is a byte.
#[tactic(auto, using(crate::proofs::Rules::list_rules))]
fn decode_truths(alloc: Global, kind: u8, compact: &mut Compact<'_>) -> Result<Seq<bool>, Fault>
    ensures { ReadsOr true (λ s. s)
        (by_rule in_struct (list_of truth_element) kind) compact.old result compact.new }
{
    if kind != LIST {
        return Err(Fault::Unspelled);
    }
    let header = compact.read_list()?;
    decode_truth_elements(alloc, header.count, header.kind, compact)
}

/// So many truth values of a list.
fn decode_truth_elements(
    alloc: Global,
    count: usize,
    kind: u8,
    compact: &mut Compact<'_>,
) -> Result<Seq<bool>, Fault>
    ensures { ReadsOr true (λ s. s)
        (elements_by_rule truth_element kind count) compact.old result compact.new }
{
    let mut truths = Vec::new(alloc);
    'elements: for _ in 0..count {
        truths.push(decode_truth(kind, compact)?)?;
    }
    Ok(Seq::new(truths))
}

/// A truth value of a list.
#[tactic(auto, using(crate::proofs::TruthLemmas::truth_element_rules))]
fn decode_truth(kind: u8, compact: &mut Compact<'_>) -> Result<bool, Fault>
    ensures { ReadsOr true (λ b. b) (by_rule in_list truth_element kind) compact.old result compact.new }
{
    if kind != TRUE && kind != FALSE {
        return Err(Fault::Unspelled);
    }
    Ok(compact.read_bool()?)
}

/// A list of byte strings.
#[tactic(auto, using(crate::proofs::Rules::list_rules))]
fn decode_strings(
    alloc: Global,
    kind: u8,
    compact: &mut Compact<'_>,
) -> Result<JoinedStrings<i64>, Fault>
    ensures { ReadsOr true (λ s. s)
        (by_rule in_struct (list_of byte_string) kind) compact.old result compact.new }
{
    if kind != LIST {
        return Err(Fault::Unspelled);
    }
    let header = compact.read_list()?;
    decode_string_elements(alloc, header.count, header.kind, compact)
}

/// So many byte strings of a list.
fn decode_string_elements(
    alloc: Global,
    count: usize,
    kind: u8,
    compact: &mut Compact<'_>,
) -> Result<JoinedStrings<i64>, Fault>
    ensures { ReadsOr true (λ s. s)
        (elements_by_rule byte_string kind count) compact.old result compact.new }
{
    let Ok(mut strings) = JoinedStrings::with_capacity(alloc, count.min(MOST_RESERVED)) else {
        return Err(Fault::OutOfMemory);
    };
    'elements: for _ in 0..count {
        let string = decode_bytes(kind, compact)?;
        // (there are fewer bytes than places of 64 bits, so memory alone can be wanting)
        let Ok(()) = strings.push(string) else {
            return Err(Fault::OutOfMemory);
        };
    }
    Ok(strings)
}

/// The column index that the bytes begin with.
#[tactic(auto, unfolding(crate::specs::ColumnIndex::column_index_in, crate::specs::ColumnIndex::column_index), using(crate::proofs::ColumnIndexLemmas::even_index))]
pub(crate) fn decode_column_index(alloc: Global, bytes: &[u8]) -> Result<ColumnIndex, Fault>
    ensures stored { MakesOr true result (column_index_in bytes.now) }
    ensures even { IfOk result (λ index. has_one_length index ≡ true) }
{
    let start = ColumnIndexFields {
        null_pages: None,
        min_values: None,
        max_values: None,
        null_counts: None,
    };
    decode_front(alloc, start, bytes)
}
