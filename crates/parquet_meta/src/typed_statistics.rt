//! The statistics of a chunk in the type of its column.

ghost use Rattle.std.specs.Prelude.{◌≡◌, true, false};
ghost use Rattle.parquet_meta.specs.Fault.{MakesOr};
ghost use Rattle.parquet_meta.specs.TypedStatistics.{counts_in, ends_by, is_carried, known_count, known_end, typed_statistics};

use crate::ShortBytes;
use crate::fault::Fault;
use crate::metadata::{Ends, PhysicalType, RawStatistics, StatisticsBytes};
use crate::stored_end::{
    BooleanForm, BytesForm, EndForm, FixedForm, Int32Form, Int64Form, Int96Form,
};
use std::alloc::Global;

pub(crate) fn is_carried(physical_type: PhysicalType) -> bool
    ensures { result ≡ is_carried physical_type }
{
    !matches!(physical_type, PhysicalType::Float | PhysicalType::Double)
}

/// A count that is not negative, where it is told.
fn known_count(count: Option<i64>) -> Result<Option<u64>, Fault>
    ensures { MakesOr false result (known_count count) }
{
    match count {
        None => Ok(None),
        Some(count) if count < 0 => Err(Fault::Unspelled),
        Some(count) => Ok(Some(count as u64)),
    }
}

/// The counts of nulls and of distinct values, where they are told.
pub(crate) fn known_counts(stored: &StatisticsBytes) -> Result<(Option<u64>, Option<u64>), Fault>
    ensures { MakesOr false result (counts_in stored.now) }
{
    let null_count = known_count(stored.null_count)?;
    let distinct_count = known_count(stored.distinct_count)?;
    Ok((null_count, distinct_count))
}

/// An end in the width of its type, where it is told.
fn known_end<T, F: EndForm<T>>(
    alloc: Global,
    form: &F,
    bytes: &Option<ShortBytes>,
) -> Result<Option<T>, Fault>
    ensures { MakesOr true result (known_end (F.end form.now) bytes.now) }
{
    match bytes {
        None => Ok(None),
        Some(bytes) => Ok(Some(form.read_end(alloc, bytes.as_slice())?)),
    }
}

#[tactic(auto, unfolding(crate::specs::TypedStatistics::ends_by))]
fn ends_by<T: Drop, F: EndForm<T>>(
    alloc: Global,
    form: &F,
    stored: &StatisticsBytes,
) -> Result<Ends<T>, Fault>
    ensures { MakesOr true result (ends_by (F.end form.now) stored.now) }
{
    let null_count = known_count(stored.null_count)?;
    let distinct_count = known_count(stored.distinct_count)?;
    let min_value = known_end(alloc, form, &stored.min_value)?;
    let max_value = known_end(alloc, form, &stored.max_value)?;
    Ok(Ends {
        null_count,
        distinct_count,
        min_value,
        max_value,
    })
}

pub(crate) fn typed_statistics(
    alloc: Global,
    physical_type: PhysicalType,
    stored: &StatisticsBytes,
) -> Result<RawStatistics, Fault>
    ensures { MakesOr true result (typed_statistics physical_type stored.now) }
{
    match physical_type {
        PhysicalType::Boolean => Ok(RawStatistics::Boolean(ends_by(alloc, &BooleanForm, stored)?)),
        PhysicalType::Int32 => Ok(RawStatistics::Int32(ends_by(alloc, &Int32Form, stored)?)),
        PhysicalType::Int64 => Ok(RawStatistics::Int64(ends_by(alloc, &Int64Form, stored)?)),
        PhysicalType::Int96 => Ok(RawStatistics::Int96(ends_by(alloc, &Int96Form, stored)?)),
        PhysicalType::Float | PhysicalType::Double => Err(Fault::Unspelled),
        PhysicalType::ByteArray => Ok(RawStatistics::ByteArray(ends_by(
            alloc, &BytesForm, stored,
        )?)),
        PhysicalType::FixedLenByteArray(width) => {
            let ends = ends_by(alloc, &FixedForm { width }, stored)?;
            Ok(RawStatistics::FixedLenByteArray(width, ends))
        }
    }
}
