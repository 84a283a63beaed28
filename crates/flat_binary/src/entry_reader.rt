//! Readers of the entries of dictionary columns, by what the stored values become.
ghost use Rattle.std.specs.Prelude.{◌≡◌};
ghost use Rattle.parquet_page.specs.Content.{dict_content};
ghost use Rattle.flat_values.specs.Outcomes.{fitted_by};
ghost use Rattle.flat_binary.specs.EntryReaders.{GivesEntries, HoldsEntry, entries_by};
ghost use Rattle.flat_binary.specs.declared.entry_rule.EntryRule.TheVariants.{Fixed, Int32, Int64};

use crate::entry_rule::{EntryRule, Int32Entry, Int64Entry};
use binary_values::ByteValues;
use columns_core::{Array, DataType, Error};
use dictionary_values::{Entries, IntoEntries, ReadDict};
use flat_values::{FixedValues, IntoColumn, Keep, Narrow, NumberValues, Scale};
use parquet_page::DictPage;
use std::alloc::Global;
use std::marker::Model;

/// Reads the entries of a dictionary column as arrays of a type, by what the stored values become.
#[derive(Drop)]
pub struct EntryReader {
    rule: EntryRule,
    data_type: DataType,
}

impl Model for EntryReader {
    ghost use Rattle.columns_core.specs.contracts.data_type.DataType.{the_row as data_type_row};
    ghost use Rattle.dictionary_values.specs.EntryTypes.{entries_code};
    ghost use Rattle.flat_binary.specs.contracts.entry_rule.EntryRule.{the_row as rule_row};
    ghost use Rattle.flat_binary.specs.EntryReaders.{HoldsEntry, Reader};

    ghost Value = { Reader };

    ghost coded = { entries_code rule_row.coded data_type_row.coded };

    ghost view = { λ reader. record { values = reader.rule; data_type = reader.data_type } };

    ghost invariant = { λ reader. HoldsEntry reader.rule reader.data_type };
}

impl EntryReader {
    /// Of entries of a type, which hold what the stored values become.
    pub(crate) fn new(rule: EntryRule, data_type: DataType) -> Self
        requires holds { HoldsEntry rule data_type }
        ensures { result ≡ record { values = rule; data_type = data_type } }
    {
        EntryReader { rule, data_type }
    }
}

/// The entries of a page by a decoder of the stored values.
fn entries_of<V: IntoEntries + IntoColumn + Drop>(
    alloc: Global,
    page: &DictPage<'_>,
    values: V,
    data_type: &DataType,
) -> Result<Array, Error>
    requires fits { V.is_type values data_type.now }
    ensures gives { let found = fitted_by (V.most_bytes values) (V.rule values) (V.physical values) in
        GivesEntries data_type.now (found (dict_content page.now)) result }
{
    let entries = Entries::new(values, data_type.try_clone(alloc)?);
    entries.read(alloc, page)
}

/// From numbers of 32 bits.
fn int32_entries(
    alloc: Global,
    page: &DictPage<'_>,
    rule: Int32Entry,
    data_type: &DataType,
) -> Result<Array, Error>
    requires holds { HoldsEntry (Int32 rule) data_type.now }
    ensures gives { let found = entries_by (Int32 rule) (dict_content page.now) in
        GivesEntries data_type.now found result }
{
    match rule {
        Int32Entry::Int32 => {
            let values = NumberValues::<i32, i32, Keep>::new(Keep);
            entries_of(alloc, page, values, data_type)
        }
        Int32Entry::UInt8 => {
            let values = NumberValues::<i32, u8, Narrow>::new(Narrow);
            entries_of(alloc, page, values, data_type)
        }
        Int32Entry::UInt16 => {
            let values = NumberValues::<i32, u16, Narrow>::new(Narrow);
            entries_of(alloc, page, values, data_type)
        }
        Int32Entry::UInt32 => {
            let values = NumberValues::<i32, u32, Narrow>::new(Narrow);
            entries_of(alloc, page, values, data_type)
        }
        Int32Entry::Int8 => {
            let values = NumberValues::<i32, i8, Narrow>::new(Narrow);
            entries_of(alloc, page, values, data_type)
        }
        Int32Entry::Int16 => {
            let values = NumberValues::<i32, i16, Narrow>::new(Narrow);
            entries_of(alloc, page, values, data_type)
        }
    }
}

/// From numbers of 64 bits.
fn int64_entries(
    alloc: Global,
    page: &DictPage<'_>,
    rule: Int64Entry,
    data_type: &DataType,
) -> Result<Array, Error>
    requires holds { HoldsEntry (Int64 rule) data_type.now }
    ensures gives { let found = entries_by (Int64 rule) (dict_content page.now) in
        GivesEntries data_type.now found result }
{
    match rule {
        Int64Entry::Int64 => {
            let values = NumberValues::<i64, i64, Keep>::new(Keep);
            entries_of(alloc, page, values, data_type)
        }
        Int64Entry::Timestamp(scale) => {
            let values = NumberValues::<i64, i64, Scale>::new(scale);
            entries_of(alloc, page, values, data_type)
        }
        Int64Entry::UInt64 => {
            let values = NumberValues::<i64, u64, Narrow>::new(Narrow);
            entries_of(alloc, page, values, data_type)
        }
    }
}

/// From byte strings of one size.
fn fixed_entries(
    alloc: Global,
    page: &DictPage<'_>,
    size: usize,
    data_type: &DataType,
) -> Result<Array, Error>
    requires holds { HoldsEntry (Fixed size) data_type.now }
    ensures gives { let found = entries_by (Fixed size) (dict_content page.now) in
        GivesEntries data_type.now found result }
{
    let values = FixedValues::new(size);
    entries_of(alloc, page, values, data_type)
}

impl ReadDict for EntryReader {
    ghost use Rattle.flat_binary.specs.EntryReaders.{entries_read, reader_type};

    ghost value_type = { reader_type };

    ghost entries = { entries_read };

    fn read(&self, alloc: Global, page: &DictPage<'_>) -> Result<Array, Error> {
        let data_type = &self.data_type;
        match self.rule {
            EntryRule::Int32(rule) => int32_entries(alloc, page, rule, data_type),
            EntryRule::Int64(rule) => int64_entries(alloc, page, rule, data_type),
            EntryRule::Fixed(size) => fixed_entries(alloc, page, size, data_type),
            EntryRule::Bytes { is_text } => {
                let values = ByteValues::<i32>::new(is_text);
                entries_of(alloc, page, values, data_type)
            }
            EntryRule::LargeBytes { is_text } => {
                let values = ByteValues::<i64>::new(is_text);
                entries_of(alloc, page, values, data_type)
            }
        }
    }
}
