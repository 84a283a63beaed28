//! Values that are converted, taken and named by keys.
use columns_core::{DataType, Error, Part, TimeUnit, days_ms};
use flat_values::{
    Convert, DaysToMillis, FixedSizeBinary, FixedValues, Int96Bits, Int96Time, IntoArray, Narrow,
    NumberValues, Scale, TruthValues, ValueDecoder, ValueEncoding, Values, convert_days_ms,
    convert_i128, convert_year_month, unifiy_timestmap_unit,
};
use page_decoding::Pushable;
use parquet_meta::{ParquetTimeUnit, PrimitiveLogicalType};
use parquet_page::DictPage;
use std::test::*;

#[test]
fn numbers_and_times(rt: HostRuntime) {
    let narrow: Result<u8, Error> = Narrow.convert(-1i32);
    assert_eq!(rt; narrow, Ok(255));
    let wide: Result<u32, Error> = Narrow.convert(-1i64);
    assert_eq!(rt; wide, Ok(4_294_967_295));
    assert_eq!(rt; DaysToMillis.convert(1), Ok(86_400_000));
    let milliseconds = PrimitiveLogicalType::Timestamp {
        unit: ParquetTimeUnit::Milliseconds,
        is_adjusted_to_utc: true,
    };
    let (factor, multiply) = unifiy_timestmap_unit(Some(&milliseconds), TimeUnit::Second);
    assert_eq!(rt; (factor, multiply), (1000, false));
    let seconds = Int96Time {
        unit: TimeUnit::Second,
    };
    assert_eq!(rt; seconds.convert([0, 0, 2_440_589]), Ok(86_400));
    // One nanosecond before 1970.
    assert_eq!(rt; seconds.convert([2_437_873_663, 20_116, 2_440_587]), Ok(0));
    assert_eq!(rt;
        Int96Bits.convert([2_437_873_663, 20_116, 2_440_587]),
        Ok(u64::MAX)
    );
    assert_eq!(rt; Int96Bits.convert([0, 0, u32::MAX]), Err(Error::Overflow));
}

#[test]
fn plain_bytes(rt: HostRuntime) -> Result<(), Fail> {
    let mut times: Vec<i64> = Vec::new(rt.alloc());
    let days = [[1, 0, 0, 0], [0xFF, 0xFF, 0xFF, 0xFF]];
    Convert::<i32, i64>::extend_plain(&DaysToMillis, &mut times, &days)?;
    let thousands = Scale::new(1000, true);
    Convert::<i64, i64>::extend_plain(&thousands, &mut times, &[[2, 0, 0, 0, 0, 0, 0, 0]])?;
    assert_eq!(rt;
        times.as_slice(),
        [86_400_000, -86_400_000, 2000].as_slice()
    );
    let greatest = [[0xFF, 0xFF, 0xFF, 0xFF, 0xFF, 0xFF, 0xFF, 0x7F]];
    let refused = Convert::<i64, i64>::extend_plain(&thousands, &mut times, &greatest);
    assert_eq!(rt; refused, Err(Error::Overflow));
    Ok(())
}

#[test]
fn times_in_units(rt: HostRuntime) -> Result<(), Fail> {
    // 1, 2000 and -2999.
    let bytes = [
        1, 0, 0, 0, 0, 0, 0, 0, 0xD0, 7, 0, 0, 0, 0, 0, 0, 0x49, 0xF4, 0xFF, 0xFF, 0xFF, 0xFF,
        0xFF, 0xFF,
    ];
    let same: NumberValues<i64, i64, Scale> = NumberValues::new(Scale::new(1, true));
    let mut place = same.open(ValueEncoding::Plain, &bytes, 3, None)?;
    let mut times = same.with_capacity(rt.alloc(), 3)?;
    same.take(&bytes, None, &mut place, &mut times, 3)?;
    let array = times.into_array(DataType::Timestamp(TimeUnit::Second, None))?;
    assert_eq!(rt; array.len(), 3);
    assert_eq!(rt; (array.get(0), array.get(1)), (Some(1), Some(2000)));
    assert_eq!(rt; array.get(2), Some(-2999));
    // The same bytes as the entries of a dictionary, in a coarser unit.
    let coarser: NumberValues<i64, i64, Scale> = NumberValues::new(Scale::new(1000, false));
    let page = DictPage {
        buffer: &bytes,
        num_values: 3,
    };
    let entries = coarser.read_dict(rt.alloc(), &page)?;
    assert_eq!(rt; entries.as_slice(), [0, 2, -2].as_slice());
    Ok(())
}

#[test]
fn fixed_bytes(rt: HostRuntime) -> Result<(), Fail> {
    assert_eq!(rt; convert_i128(&[0xFF, 0x85], 2), -123);
    let interval = [0, 0, 0, 0, 3, 0, 0, 0, 0xE8, 3, 0, 0];
    assert_eq!(rt; convert_days_ms(&interval), days_ms(3, 1000));
    assert_eq!(rt; convert_year_month(&interval), 0);
    let mut items = FixedSizeBinary::with_capacity(rt.alloc(), 4, 2)?;
    items.push(&[1, 2])?;
    items.extend_constant(2)?;
    assert_eq!(rt; items.values(), [1, 2, 0, 0, 0, 0].as_slice());
    assert_eq!(rt; items.len(), 3);
    items.extend_from_plain(&[3, 4])?;
    assert_eq!(rt; items.values(), [1, 2, 0, 0, 0, 0, 3, 4].as_slice());
    Ok(())
}

#[test]
fn numbers_that_are_appended(rt: HostRuntime) -> Result<(), Fail> {
    let mut numbers: Vec<i32> = Vec::new(rt.alloc());
    Pushable::reserve(&mut numbers, 4)?;
    Pushable::push(&mut numbers, 7)?;
    numbers.push_null()?;
    numbers.extend_constant(2, 5)?;
    assert_eq!(rt; numbers.as_slice(), [7, 0, 5, 5].as_slice());
    Ok(())
}

#[test]
fn truth_values(rt: HostRuntime) -> Result<(), Fail> {
    let bytes = [0b1101];
    let mut values = TruthValues.open(ValueEncoding::Plain, &bytes, 4, None)?;
    let mut decoded = TruthValues.with_capacity(rt.alloc(), 4)?;
    TruthValues.take(&bytes, None, &mut values, &mut decoded, 1)?;
    TruthValues.push_nulls(&mut decoded, 1)?;
    TruthValues.skip(&bytes, &mut values, 1);
    TruthValues.take(&bytes, None, &mut values, &mut decoded, 9)?;
    let array = decoded.into_array(DataType::Boolean)?;
    assert_eq!(rt; array.len(), 4);
    assert_eq!(rt; (array.get(0), array.get(1)), (Some(true), None));
    assert_eq!(rt; (array.get(2), array.get(3)), (Some(true), Some(true)));
    assert_eq!(rt;
        TruthValues
            .open(ValueEncoding::Plain, &bytes, 9, None)
            .err(),
        Some(Error::ExternalFormat(Part::Values))
    );
    Ok(())
}

#[test]
fn values_of_one_size(rt: HostRuntime) -> Result<(), Fail> {
    let bytes = [1, 2, 3, 4, 5, 6];
    let pairs = FixedValues::new(2);
    let page = DictPage {
        buffer: &bytes,
        num_values: 3,
    };
    let dict = pairs.read_dict(rt.alloc(), &page)?;
    let mut decoded = pairs.with_capacity(rt.alloc(), 5)?;
    let mut plain = pairs.open(ValueEncoding::Plain, &bytes, 3, None)?;
    pairs.take(&bytes, None, &mut plain, &mut decoded, 1)?;
    pairs.push_nulls(&mut decoded, 1)?;
    pairs.skip(&bytes, &mut plain, 1);
    pairs.take(&bytes, None, &mut plain, &mut decoded, 1)?;
    // Two keys of two bits, 1 both.
    let keys = [2, 4, 1];
    let mut named = pairs.open(ValueEncoding::Keys, &keys, 2, Some(&dict))?;
    pairs.take(&keys, Some(&dict), &mut named, &mut decoded, 2)?;
    let array = decoded.into_array(DataType::FixedSizeBinary(2))?;
    assert_eq!(rt; array.len(), 5);
    let (first, null) = ([1, 2], None);
    assert_eq!(rt;
        (array.get(0), array.get(1)),
        (Some(first.as_slice()), null)
    );
    let (last, second) = ([5, 6], [3, 4]);
    assert_eq!(rt;
        (array.get(2), array.get(3)),
        (Some(last.as_slice()), Some(second.as_slice()))
    );
    // A key past the entries.
    let past = [2, 4, 3];
    assert_eq!(rt;
        pairs.open(ValueEncoding::Keys, &past, 2, Some(&dict)).err(),
        Some(Error::OutOfSpec(Part::Dictionary))
    );
    Ok(())
}

#[test]
fn numbers_of_a_page(rt: HostRuntime) -> Result<(), Fail> {
    let reader: NumberValues<i32, i64, DaysToMillis> = NumberValues::new(DaysToMillis);
    let bytes = [1, 0, 0, 0, 2, 0, 0, 0, 3, 0, 0, 0];
    let mut place = reader.open(ValueEncoding::Plain, &bytes, 3, None)?;
    let mut numbers = reader.with_capacity(rt.alloc(), 3)?;
    reader.take(&bytes, None, &mut place, &mut numbers, 1)?;
    reader.push_nulls(&mut numbers, 1)?;
    reader.skip(&bytes, &mut place, 1);
    reader.take(&bytes, None, &mut place, &mut numbers, 5)?;
    let array = numbers.into_array(DataType::Date64)?;
    assert_eq!(rt; array.len(), 3);
    assert_eq!(rt; array.get(0), Some(86_400_000));
    assert_eq!(rt; array.get(1), None);
    assert_eq!(rt; array.get(2), Some(259_200_000));
    Ok(())
}

#[test]
fn numbers_by_keys(rt: HostRuntime) -> Result<(), Fail> {
    let reader: NumberValues<i64, u64, Narrow> = NumberValues::new(Narrow);
    let entries = [7, 0, 0, 0, 0, 0, 0, 0, 8, 0, 0, 0, 0, 0, 0, 0];
    let page = DictPage {
        buffer: &entries,
        num_values: 2,
    };
    let dict = reader.read_dict(rt.alloc(), &page)?;
    // Keys of one bit: 0, 1 and 1.
    let bytes = [1, 3, 6];
    let mut place = reader.open(ValueEncoding::Keys, &bytes, 3, Some(&dict))?;
    let mut numbers = reader.with_capacity(rt.alloc(), 3)?;
    reader.take(&bytes, Some(&dict), &mut place, &mut numbers, 2)?;
    let array = numbers.into_array(DataType::UInt64)?;
    assert_eq!(rt; array.len(), 2);
    assert_eq!(rt; array.get(0), Some(7));
    assert_eq!(rt; array.get(1), Some(8));
    let one = DictPage {
        buffer: &entries[..8],
        num_values: 1,
    };
    let dict = reader.read_dict(rt.alloc(), &one)?;
    let refused = reader.open(ValueEncoding::Keys, &bytes, 3, Some(&dict));
    assert!(rt; matches!(refused, Err(Error::OutOfSpec(_))));
    Ok(())
}

#[test]
fn times_of_older_files_by_keys(rt: HostRuntime) -> Result<(), Fail> {
    let seconds = Int96Time {
        unit: TimeUnit::Second,
    };
    let reader: NumberValues<[u32; 3], i64, Int96Time> = NumberValues::new(seconds);
    // The first and the second of January 1970.
    let entries = [
        0, 0, 0, 0, 0, 0, 0, 0, 0x8C, 0x3D, 0x25, 0, 0, 0, 0, 0, 0, 0, 0, 0, 0x8D, 0x3D, 0x25, 0,
    ];
    let page = DictPage {
        buffer: &entries,
        num_values: 2,
    };
    let dict = reader.read_dict(rt.alloc(), &page)?;
    // Keys of one bit: 1, 0 and 1.
    let bytes = [1, 3, 5];
    let mut place = reader.open(ValueEncoding::Keys, &bytes, 3, Some(&dict))?;
    let mut times = reader.with_capacity(rt.alloc(), 3)?;
    reader.take(&bytes, Some(&dict), &mut place, &mut times, 3)?;
    let array = times.into_array(DataType::Timestamp(TimeUnit::Second, None))?;
    assert_eq!(rt; array.len(), 3);
    assert_eq!(rt; (array.get(0), array.get(1)), (Some(86_400), Some(0)));
    assert_eq!(rt; array.get(2), Some(86_400));
    Ok(())
}
