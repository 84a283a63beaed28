//! Bitmaps, offsets, arrays, chunks and the text of errors.
use columns_core::{
    Array, BinaryArray, Bitmap, BitmapIter, BooleanArray, Boxed, Cell, Chunk, DataType,
    DictionaryArray, DictionaryKey, Error, Field, FixedSizeBinaryArray, IntegerType, ListArray,
    MapArray, MutableBitmap, Name, NativeType, NullArray, Offset, Offsets, Part, PrimitiveArray,
    Seq, StructArray, Utf8Array,
};
use std::process::Abort;
use std::test::*;

#[test]
fn bits_come_from_both_ends(rt: HostRuntime) -> Result<(), Fail> {
    let first: Vec<bool> = BitmapIter::new(&[0x5B], 0, 6).collect(rt.alloc())?;
    assert_eq!(rt;
        first.as_slice(),
        [true, true, false, true, true, false].as_slice()
    );
    let middle: Vec<bool> = BitmapIter::new(&[0x5B], 2, 4).collect(rt.alloc())?;
    assert_eq!(rt; middle.as_slice(), [false, true, true, false].as_slice());
    let many: Vec<bool> = BitmapIter::new(&[0x5B; 63], 0, 504).collect(rt.alloc())?;
    assert_eq!(rt; many.len(), 504);
    let back: Vec<bool> = BitmapIter::new(&[0x5B, 0x5B], 2, 13)
        .rev()
        .collect(rt.alloc())?;
    assert_eq!(rt;
        back.as_slice(),
        [
            true, false, true, true, false, true, true, false, true, false, true, true, false
        ]
        .as_slice()
    );
    Ok(())
}

#[test]
fn bitmaps_grow_by_bits_bytes_and_runs(rt: HostRuntime) -> Result<(), Fail> {
    let mut bits = MutableBitmap::with_capacity(rt.alloc(), 0)?;
    bits.push(true)?;
    bits.extend_from_slice(&[0x5B, 0x5B, 0x5B], 2, 20)?;
    bits.extend_constant(11, true)?;
    bits.extend_from_slice(&[0x5B, 0x5B], 0, 16)?;
    bits.extend_constant(3, false)?;
    assert_eq!(rt; bits.len(), 51);
    let bits = bits.freeze().try_clone(rt.alloc())?;
    assert_eq!(rt; bits.len(), 51);
    assert_eq!(rt; bits.unset_bits(), 17);
    assert!(rt; bits.get_bit(16) && !bits.get_bit(20) && bits.get_bit(32) && !bits.get_bit(34));
    Ok(())
}

#[test]
fn offsets_end_at_their_greatest(rt: HostRuntime) -> Result<(), Fail> {
    let mut small = Offsets::<i32>::new(rt.alloc())?;
    small.try_push(2147483646)?;
    assert!(rt; matches!(small.try_push(2), Err(Error::Overflow)));
    small.try_push(1)?;
    assert_eq!(rt; small.len_proxy(), 2);
    assert_eq!(rt; small.last(), 2147483647);
    let mut large = Offsets::<i64>::new(rt.alloc())?;
    large.try_push(9223372036854775807)?;
    assert!(rt; matches!(large.try_push(1), Err(Error::Overflow)));
    assert!(rt; matches!(large.try_push(18446744073709551615), Err(Error::Overflow)));
    assert_eq!(rt; large.try_clone(rt.alloc())?.last(), 9223372036854775807);
    Ok(())
}

fn offsets<O: Offset>(rt: &HostRuntime, lengths: &[usize]) -> Result<Offsets<O>, Error> {
    let mut offsets = Offsets::new(rt.alloc())?;
    for length in lengths {
        offsets.try_push(*length)?;
    }
    Ok(offsets)
}

/// `a`, a character of two bytes, `b`, and a byte that begins no character.
const JOINED: [u8; 5] = [0x61, 0xC3, 0xA4, 0x62, 0xFF];

fn texts(rt: &HostRuntime, lengths: &[usize]) -> Result<Utf8Array<i64>, Error> {
    let places = offsets(rt, lengths)?;
    let values = Vec::from_slice(rt.alloc(), &JOINED)?;
    Utf8Array::try_new(DataType::LargeUtf8, places, values, None)
}

#[test]
fn texts_are_tested_item_by_item(rt: HostRuntime) {
    for (lengths, fits) in [([1, 2, 1], true), ([2, 1, 1], false), ([3, 1, 1], false)] {
        match texts(&rt, &lengths) {
            Err(e) => assert!(rt; !fits && matches!(e, Error::OutOfSpec(_))),
            Ok(texts) => assert!(rt; fits && texts.len() == 3),
        }
    }
}

fn byte_strings(rt: &HostRuntime, is_large: bool) -> Result<BinaryArray<i32>, Error> {
    let places = offsets(rt, &[2, 1, 1])?;
    let values = Vec::from_slice(rt.alloc(), &JOINED)?;
    let data_type = if is_large {
        DataType::LargeBinary
    } else {
        DataType::Binary
    };
    BinaryArray::try_new(data_type, places, values, None)
}

#[test]
fn byte_strings_refuse_other_types(rt: HostRuntime) -> Result<(), Fail> {
    assert_eq!(rt; byte_strings(&rt, false)?.len(), 3);
    assert!(rt; is_refused(byte_strings(&rt, true)));
    Ok(())
}

#[test]
fn errors_tell_their_number_and_text(rt: HostRuntime) -> Result<(), Fail> {
    for (error, number, text) in [
        (
            Error::InvalidArgumentError(Part::Request),
            1,
            "the request does not fit the file",
        ),
        (Error::NotYetImplemented(Part::Column), 2, "not carried"),
        (
            Error::ExternalFormat(Part::Footer),
            3,
            "the file is damaged",
        ),
        (
            Error::OutOfSpec(Part::Dictionary),
            4,
            "a text or key is not valid",
        ),
        (Error::Overflow, 5, "a value is out of range"),
        (Error::Io, 6, "reading failed"),
        (Error::OutOfMemory, 7, "out of memory"),
    ] {
        assert_eq!(rt; error.number(), number);
        assert_eq!(rt; error.to_string(rt.alloc())?.as_str(), text);
    }
    Ok(())
}

fn mask(rt: &HostRuntime, bits: &[bool]) -> Result<Bitmap, Error> {
    let mut mask = MutableBitmap::with_capacity(rt.alloc(), bits.len())?;
    for bit in bits {
        mask.push(*bit)?;
    }
    Ok(mask.freeze())
}

fn numbers<T: NativeType>(
    rt: &HostRuntime,
    data_type: DataType,
    values: &[T],
    bits: &[bool],
) -> Result<PrimitiveArray<T>, Error> {
    let validity = mask(rt, bits)?;
    PrimitiveArray::try_new(
        data_type,
        Vec::from_slice(rt.alloc(), values)?,
        Some(validity),
    )
}

fn is_refused<T: Drop>(answer: Result<T, Error>) -> bool {
    matches!(answer, Err(Error::InvalidArgumentError(_)))
}

fn has_cell(rt: &HostRuntime, array: &Array, i: usize, cell: &Cell) -> Result<bool, Error> {
    Ok(i < array.len() && array.item(rt.alloc(), i)? == *cell)
}

/// An array of numbers of 32 bits, of which those that have no bit are null.
fn days(rt: &HostRuntime, data_type: DataType, bits: &[bool]) -> Result<Array, Error> {
    let values = numbers(rt, data_type, &[19000i32, 0][..bits.len().min(2)], bits)?;
    Ok(Array::Int32(values))
}

#[test]
fn numbers_refuse_other_types_and_lengths(rt: HostRuntime) -> Result<(), Fail> {
    let there = [true, false];
    assert!(rt; is_refused(numbers(&rt, DataType::Int64, &[1i32, 2], &there)));
    assert!(rt; is_refused(numbers(&rt, DataType::Date32, &[1i32], &there)));
    let days = days(&rt, DataType::Date32, &there)?;
    assert!(rt; has_cell(&rt, &days, 0, &Cell::Int(19000))?);
    assert!(rt; has_cell(&rt, &days, 1, &Cell::Null)?);
    Ok(())
}

#[test]
fn arrays_of_other_types_differ(rt: HostRuntime) -> Result<(), Fail> {
    let dates = days(&rt, DataType::Date32, &[true])?;
    assert!(rt; dates.try_clone(rt.alloc())? == dates);
    assert!(rt; dates != days(&rt, DataType::Int32, &[true])?);
    Ok(())
}

#[test]
fn truths_refuse_other_types(rt: HostRuntime) -> Result<(), Fail> {
    let values = mask(&rt, &[true, true])?;
    assert!(rt; is_refused(BooleanArray::try_new(DataType::UInt8, values, None)));
    let values = mask(&rt, &[true, false])?;
    let truths = BooleanArray::try_new(DataType::Boolean, values, None)?;
    assert!(rt; has_cell(&rt, &Array::Boolean(truths), 1, &Cell::Bool(false))?);
    Ok(())
}

#[test]
fn bytes_of_one_size_refuse_other_sizes(rt: HostRuntime) -> Result<(), Fail> {
    let six = [1u8, 2, 3, 4, 5, 6];
    for (size, bytes, fits) in [
        (3, &six[..], true),
        (0, &six[..0], false),
        (4, &six[..], false),
        (2, &six[..], false),
    ] {
        let validity = mask(&rt, &[true, false])?;
        let bytes = Vec::from_slice(rt.alloc(), bytes)?;
        let data_type = DataType::FixedSizeBinary(size);
        let array = FixedSizeBinaryArray::try_new(data_type, bytes, Some(validity));
        assert_eq!(rt; is_refused(array), !fits);
    }
    Ok(())
}

#[test]
fn nulls_are_null(rt: HostRuntime) -> Result<(), Fail> {
    let nulls = Array::Null(NullArray::new(2));
    assert!(rt; has_cell(&rt, &nulls, 1, &Cell::Null)?);
    assert!(rt; nulls.try_clone(rt.alloc())? == nulls);
    Ok(())
}

fn dictionary<K: DictionaryKey>(
    rt: &HostRuntime,
    key_type: IntegerType,
    keys: PrimitiveArray<K>,
) -> Result<DictionaryArray, Error> {
    let entries = numbers(rt, DataType::Int16, &[7i16, -8], &[true, true])?;
    let value_type = Boxed::new(rt.alloc(), DataType::Int16)?;
    let data_type = DataType::Dictionary(key_type, value_type, false);
    DictionaryArray::try_new(rt.alloc(), data_type, keys, Array::Int16(entries))
}

/// The error of a dictionary with the keys 0 and this one.
fn error_of_key(rt: &HostRuntime, key: i8) -> Result<Option<Error>, Error> {
    let keys = numbers(rt, DataType::Int8, &[0i8, key], &[true, true])?;
    Ok(dictionary(rt, IntegerType::Int8, keys).err())
}

#[test]
fn dictionaries_take_keys_that_name_entries(rt: HostRuntime) -> Result<(), Fail> {
    for (key, fits) in [(1, true), (2, false), (-1, false), (-128, false)] {
        let error = error_of_key(&rt, key)?;
        assert_eq!(rt; matches!(error, Some(Error::OutOfSpec(_))), !fits);
    }
    Ok(())
}

/// A dictionary with a key of 1, and the greatest one, which is null.
fn great_keys(rt: &HostRuntime, key_type: IntegerType) -> Result<DictionaryArray, Error> {
    let keys = numbers(rt, DataType::UInt64, &[1u64, u64::MAX], &[true, false])?;
    dictionary(rt, key_type, keys)
}

#[test]
fn keys_that_are_null_name_no_entry(rt: HostRuntime) -> Result<(), Fail> {
    assert!(rt; is_refused(great_keys(&rt, IntegerType::UInt32)));
    let array = Array::Dictionary(great_keys(&rt, IntegerType::UInt64)?);
    assert!(rt; has_cell(&rt, &array, 0, &Cell::Int(-8))?);
    assert!(rt; has_cell(&rt, &array, 1, &Cell::Null)?);
    assert!(rt; array.try_clone(rt.alloc())? == array);
    Ok(())
}

/// The keys of the first two rows of a dictionary.
fn first_keys(array: &Array) -> [Option<u64>; 2] {
    match array {
        Array::Dictionary(keys) if keys.len() > 1 => [keys.key(0), keys.key(1)],
        _ => [None; 2],
    }
}

/// A cell of the entries of a dictionary.
fn entry_of(rt: &HostRuntime, array: &Array, i: usize) -> Result<Option<Cell>, Error> {
    match array {
        Array::Dictionary(keys) if i < keys.values().len() => {
            Ok(Some(keys.values().item(rt.alloc(), i)?))
        }
        _ => Ok(None),
    }
}

#[test]
fn dictionaries_show_keys_and_entries(rt: HostRuntime) -> Result<(), Fail> {
    let keys = numbers(&rt, DataType::Int8, &[1i8, 0], &[true, false])?;
    let array = Array::Dictionary(dictionary(&rt, IntegerType::Int8, keys)?);
    assert_eq!(rt; array.len(), 2);
    assert_eq!(rt; first_keys(&array), [Some(1), None]);
    assert!(rt; entry_of(&rt, &array, 0)? == Some(Cell::Int(7)));
    Ok(())
}

fn field(rt: &HostRuntime, name: &str, data_type: DataType) -> Result<Field, Error> {
    Ok(Field {
        name: Name::new(String::from_str(rt.alloc(), name)?),
        data_type,
        is_nullable: true,
    })
}

fn cells(rt: &HostRuntime, inside: &[i128]) -> Result<Cell, Error> {
    let mut cells = Vec::with_capacity(rt.alloc(), inside.len())?;
    for number in inside {
        cells.push(Cell::Int(*number))?;
    }
    Ok(Cell::Cells(Seq::new(cells)))
}

/// The type of a list of items of a type.
fn list_type(rt: &HostRuntime, item: DataType) -> Result<DataType, Error> {
    Ok(DataType::List(Boxed::new(rt.alloc(), field(rt, "item", item)?)?))
}

fn list(rt: &HostRuntime, data_type: DataType) -> Result<ListArray, Error> {
    let items = numbers(rt, DataType::Int16, &[1i16, 2, 3, 4], &[true; 4])?;
    let places: Offsets<i32> = offsets(rt, &[2, 1, 1])?;
    let validity = mask(rt, &[true, false, true])?;
    ListArray::try_new(
        rt.alloc(),
        data_type,
        places,
        Array::Int16(items),
        Some(validity),
    )
}

#[test]
fn lists_are_cut_from_their_items(rt: HostRuntime) -> Result<(), Fail> {
    let array = Array::List(list(&rt, list_type(&rt, DataType::Int16)?)?);
    assert!(rt; has_cell(&rt, &array, 0, &cells(&rt, &[1, 2])?)?);
    assert!(rt; has_cell(&rt, &array, 1, &Cell::Null)?);
    assert!(rt; has_cell(&rt, &array, 2, &cells(&rt, &[4])?)?);
    assert!(rt; array.try_clone(rt.alloc())? == array);
    Ok(())
}

#[test]
fn lists_refuse_other_types(rt: HostRuntime) -> Result<(), Fail> {
    assert!(rt; is_refused(list(&rt, list_type(&rt, DataType::Int32)?)));
    let item = Boxed::new(rt.alloc(), field(&rt, "item", DataType::Int16)?)?;
    assert!(rt; is_refused(list(&rt, DataType::LargeList(item))));
    Ok(())
}

/// The type of a number beside a null.
fn pair_type(rt: &HostRuntime) -> Result<DataType, Error> {
    let mut fields = Vec::new(rt.alloc());
    fields.push(field(rt, "number", DataType::Int64)?)?;
    fields.push(field(rt, "nothing", DataType::Null)?)?;
    Ok(DataType::Struct(Seq::new(fields)))
}

/// Two numbers, and so many nulls.
fn columns_of(rt: &HostRuntime, nulls: usize) -> Result<Vec<Array>, Error> {
    let mut columns = Vec::new(rt.alloc());
    let values = numbers(rt, DataType::Int64, &[5i64, 6], &[true, true])?;
    columns.push(Array::Int64(values))?;
    columns.push(Array::Null(NullArray::new(nulls)))?;
    Ok(columns)
}

/// A column of two numbers beside so many nulls, of which the first row is null.
fn structs(rt: &HostRuntime, nulls: usize) -> Result<StructArray, Error> {
    let validity = mask(rt, &[false, true])?;
    StructArray::try_new(pair_type(rt)?, columns_of(rt, nulls)?, Some(validity))
}

/// Two cells.
fn two_cells(rt: &HostRuntime, first: Cell, second: Cell) -> Result<Cell, Error> {
    let mut cells = Vec::new(rt.alloc());
    cells.push(first)?;
    cells.push(second)?;
    Ok(Cell::Cells(Seq::new(cells)))
}

#[test]
fn structs_are_columns_side_by_side(rt: HostRuntime) -> Result<(), Fail> {
    let array = Array::Struct(structs(&rt, 2)?);
    assert!(rt; has_cell(&rt, &array, 0, &Cell::Null)?);
    assert!(rt; has_cell(&rt, &array, 1, &two_cells(&rt, Cell::Int(6), Cell::Null)?)?);
    assert!(rt; array.try_clone(rt.alloc())? == array);
    Ok(())
}

#[test]
fn structs_refuse_columns_of_other_lengths(rt: HostRuntime) {
    assert!(rt; is_refused(structs(&rt, 3)));
    let none = DataType::Struct(Seq::new(Vec::new(rt.alloc())));
    assert!(rt; is_refused(StructArray::try_new(none, Vec::new(rt.alloc()), None)));
}

/// A map of entries of the type of a pair, from so many entries each.
fn map(rt: &HostRuntime, lengths: &[usize], entries: Array) -> Result<MapArray, Error> {
    let entry = Boxed::new(rt.alloc(), field(rt, "pair", pair_type(rt)?)?)?;
    let places = offsets(rt, lengths)?;
    MapArray::try_new(DataType::Map(entry, false), places, entries, None)
}

#[test]
fn maps_are_lists_of_pairs(rt: HostRuntime) -> Result<(), Fail> {
    let array = Array::Map(map(&rt, &[2, 0], Array::Struct(structs(&rt, 2)?))?);
    let pair = two_cells(&rt, Cell::Int(6), Cell::Null)?;
    assert!(rt; has_cell(&rt, &array, 0, &two_cells(&rt, Cell::Null, pair)?)?);
    assert!(rt; has_cell(&rt, &array, 1, &cells(&rt, &[])?)?);
    assert!(rt; array.try_clone(rt.alloc())? == array);
    assert!(rt; is_refused(map(&rt, &[2], Array::Null(NullArray::new(2)))));
    Ok(())
}

#[test]
fn chunks_are_arrays_of_one_length(rt: HostRuntime) -> Result<(), Fail> {
    for (lengths, rows) in [([3, 3], Some(3)), ([3, 2], None), ([0, 0], Some(0))] {
        let mut arrays = Vec::new(rt.alloc());
        for length in lengths {
            arrays.push(Array::Null(NullArray::new(length)))?;
        }
        match Chunk::try_new(arrays) {
            Err(e) => {
                assert!(rt; rows.is_none() && e == Error::InvalidArgumentError(Part::Chunk));
            }
            Ok(chunk) => assert!(rt; rows == Some(chunk.len()) && chunk.arrays().len() == 2),
        }
    }
    assert!(rt; is_refused(Chunk::try_new(Vec::new(rt.alloc()))));
    Ok(())
}
