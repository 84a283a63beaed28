//! Times in the unit that is asked for, the types of counts, and the shapes that builders refuse.
use crate::arrays::{is_misfit, list_of, named};
use columns_core::{DataType, Error, Seq, TimeUnit};
use parquet_meta::{ParquetTimeUnit, PrimitiveLogicalType};
use parquet_statistics::{
    DynMutableDictionary, DynMutableListArray, DynMutableMapArray, DynMutableStructArray,
    create_dt, timestamp,
};
use std::alloc::Global;
use std::test::*;

/// Times that are stored in nanoseconds.
static NANOSECONDS: PrimitiveLogicalType = PrimitiveLogicalType::Timestamp {
    unit: ParquetTimeUnit::Nanoseconds,
    is_adjusted_to_utc: true,
};

/// Times that are stored in milliseconds.
static MILLISECONDS: PrimitiveLogicalType = PrimitiveLogicalType::Timestamp {
    unit: ParquetTimeUnit::Milliseconds,
    is_adjusted_to_utc: true,
};

#[test]
fn times_in_other_units(rt: HostRuntime) {
    assert_eq!(rt;
        timestamp(Some(&NANOSECONDS), TimeUnit::Second, 2_000_000_000),
        Ok(2)
    );
    assert_eq!(rt;
        timestamp(Some(&MILLISECONDS), TimeUnit::Nanosecond, i64::MAX),
        Err(Error::Overflow)
    );
    assert_eq!(rt; timestamp(None, TimeUnit::Second, 7), Ok(7));
}

/// A struct of a field `a` of a type, and of a field `b` of lists of another.
fn a_and_b(alloc: Global, first: DataType, item: DataType) -> Result<DataType, Error> {
    let a = named(alloc, "a", first)?;
    let b = named(alloc, "b", list_of(alloc, item)?)?;
    Ok(DataType::Struct(Seq::new(vec![in alloc; a, b]?)))
}

#[test]
fn counts_are_numbers_of_64_bits(rt: HostRuntime) -> Result<(), Fail> {
    let alloc = rt.alloc();
    let counts = create_dt(alloc, &a_and_b(alloc, DataType::Utf8, DataType::Int32)?)?;
    assert!(rt; counts == a_and_b(alloc, DataType::UInt64, DataType::UInt64)?);
    Ok(())
}

#[test]
fn types_of_another_shape_are_refused(rt: HostRuntime) {
    let alloc = rt.alloc();
    let flat = DataType::Int8;
    assert!(rt; is_misfit(DynMutableDictionary::try_with_capacity(alloc, flat, 0).err()));
    let flat = DataType::Int8;
    assert!(rt; is_misfit(DynMutableListArray::try_with_capacity(alloc, flat, 0).err()));
    let flat = DataType::Int8;
    assert!(rt; is_misfit(DynMutableMapArray::try_with_capacity(alloc, flat, 0).err()));
    let flat = DataType::Int8;
    assert!(rt; is_misfit(DynMutableStructArray::try_with_capacity(alloc, flat, 0).err()));
}

#[test]
fn structs_of_no_fields_are_refused(rt: HostRuntime) {
    let none = DataType::Struct(Seq::new(Vec::new(rt.alloc())));
    assert!(rt; is_misfit(DynMutableStructArray::try_with_capacity(rt.alloc(), none, 0).err()));
}
