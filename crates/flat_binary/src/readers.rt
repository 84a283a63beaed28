//! Readers of entries, by the pair of the stored type and the type of the entries.
ghost use Rattle.std.specs.Prelude.{◌≡◌, IfSome, None};
ghost use Rattle.std.specs.Option.{option_copied};
ghost use Rattle.columns_core.specs.declared.data_type.DataType.{out-DataType};
ghost use Rattle.parquet_meta.specs.declared.metadata.PhysicalType.TheVariants.{ByteArray, FixedLenByteArray, Int32, Int64};
ghost use Rattle.flat_values.specs.Pairs.{entry_from_fixed, entry_from_int32, entry_from_int64, entry_from_physical, from_byte_array};
ghost use Rattle.flat_binary.specs.Begun.{IsRefusedPair};
ghost use Rattle.flat_binary.specs.EntryReaders.{FindsRule, ReadsEntries};

use crate::entry_reader::EntryReader;
use crate::entry_rule::{EntryRule, Int32Entry, Int64Entry};
use crate::numbers::rescaled;
use columns_core::{DataType, Error, IntervalUnit, Part};
use parquet_meta::{PhysicalType, PrimitiveLogicalType};
use std::alloc::Global;

/// A reader of entries of a type, which the stored values become.
pub(crate) fn entry_reader(
    alloc: Global,
    physical: PhysicalType,
    logical: Option<&PrimitiveLogicalType>,
    entry: &DataType,
) -> Result<EntryReader, Error>
    ensures reads { let unit = option_copied logical.entry in
        IfSome (entry_from_physical physical unit (out-DataType entry.now)) (λ rule.
        ReadsEntries physical entry.now rule result) }
    ensures refused { let unit = option_copied logical.entry in
        entry_from_physical physical unit (out-DataType entry.now) ≡ None → IsRefusedPair result }
{
    let rule = entry_rule(physical, logical, entry)?;
    Ok(EntryReader::new(rule, entry.try_clone(alloc)?))
}

/// What the stored values become as entries of a type.
fn entry_rule(
    physical: PhysicalType,
    logical: Option<&PrimitiveLogicalType>,
    entry: &DataType,
) -> Result<EntryRule, Error>
    ensures found { let unit = option_copied logical.entry in
        IfSome (entry_from_physical physical unit (out-DataType entry.now)) (λ rule.
        FindsRule physical entry.now rule result) }
    ensures refused { let unit = option_copied logical.entry in
        entry_from_physical physical unit (out-DataType entry.now) ≡ None → IsRefusedPair result }
{
    match physical {
        PhysicalType::Int32 => int32_rule(entry),
        PhysicalType::Int64 => int64_rule(logical, entry),
        PhysicalType::FixedLenByteArray(length) => fixed_rule(length, entry),
        PhysicalType::ByteArray => byte_array_rule(entry),
        PhysicalType::Boolean | PhysicalType::Int96 | PhysicalType::Float | PhysicalType::Double =>
            Err(Error::NotYetImplemented(Part::Schema)),
    }
}

fn int32_rule(entry: &DataType) -> Result<EntryRule, Error>
    ensures found { IfSome (entry_from_int32 (out-DataType entry.now)) (λ rule.
        FindsRule Int32 entry.now rule result) }
    ensures refused { entry_from_int32 (out-DataType entry.now) ≡ None → IsRefusedPair result }
{
    match entry {
        DataType::Int32
        | DataType::Date32
        | DataType::Time32(_)
        | DataType::Interval(IntervalUnit::YearMonth) => Ok(EntryRule::Int32(Int32Entry::Int32)),
        DataType::UInt8 => Ok(EntryRule::Int32(Int32Entry::UInt8)),
        DataType::UInt16 => Ok(EntryRule::Int32(Int32Entry::UInt16)),
        DataType::UInt32 => Ok(EntryRule::Int32(Int32Entry::UInt32)),
        DataType::Int8 => Ok(EntryRule::Int32(Int32Entry::Int8)),
        DataType::Int16 => Ok(EntryRule::Int32(Int32Entry::Int16)),
        _ => Err(Error::NotYetImplemented(Part::Schema)),
    }
}

fn int64_rule(logical: Option<&PrimitiveLogicalType>, entry: &DataType) -> Result<EntryRule, Error>
    ensures found { let unit = option_copied logical.entry in
        IfSome (entry_from_int64 unit (out-DataType entry.now)) (λ rule.
        FindsRule Int64 entry.now rule result) }
    ensures refused { let unit = option_copied logical.entry in
        entry_from_int64 unit (out-DataType entry.now) ≡ None → IsRefusedPair result }
{
    match entry {
        DataType::Int64 | DataType::Date64 | DataType::Time64(_) | DataType::Duration(_) => {
            Ok(EntryRule::Int64(Int64Entry::Int64))
        }
        DataType::Timestamp(unit, _) => {
            let scale = rescaled(logical, *unit);
            Ok(EntryRule::Int64(Int64Entry::Timestamp(scale)))
        }
        DataType::UInt64 => Ok(EntryRule::Int64(Int64Entry::UInt64)),
        _ => Err(Error::NotYetImplemented(Part::Schema)),
    }
}

/// From strings of `length` bytes.
fn fixed_rule(length: usize, entry: &DataType) -> Result<EntryRule, Error>
    ensures found { IfSome (entry_from_fixed length (out-DataType entry.now)) (λ rule.
        FindsRule (FixedLenByteArray length) entry.now rule result) }
    ensures refused { entry_from_fixed length (out-DataType entry.now) ≡ None → IsRefusedPair result }
{
    match entry {
        DataType::FixedSizeBinary(wanted) if 0 < length && length == *wanted => {
            Ok(EntryRule::Fixed(length))
        }
        _ => Err(Error::NotYetImplemented(Part::Schema)),
    }
}

/// From strings that tell their own lengths.
fn byte_array_rule(entry: &DataType) -> Result<EntryRule, Error>
    ensures found { IfSome (from_byte_array (out-DataType entry.now)) (λ rule.
        FindsRule ByteArray entry.now rule result) }
    ensures refused { from_byte_array (out-DataType entry.now) ≡ None → IsRefusedPair result }
{
    match entry {
        DataType::Utf8 => Ok(EntryRule::Bytes { is_text: true }),
        DataType::LargeUtf8 => Ok(EntryRule::LargeBytes { is_text: true }),
        DataType::Binary => Ok(EntryRule::Bytes { is_text: false }),
        DataType::LargeBinary => Ok(EntryRule::LargeBytes { is_text: false }),
        _ => Err(Error::NotYetImplemented(Part::Schema)),
    }
}
