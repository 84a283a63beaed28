//! The arrays that builders make, cell by cell, and what is refused.
use columns_core::{Array, Boxed, Cell, DataType, Error, Field, IntegerType, Name, Seq};
use parquet_statistics::{
    DynMutable, DynMutableDictionary, DynMutableListArray, DynMutableMapArray,
    DynMutableStructArray,
};
use std::alloc::Global;
use std::test::*;

/// A field that may have nulls.
pub(crate) fn named(alloc: Global, name: &str, data_type: DataType) -> Result<Field, Error> {
    Ok(Field {
        name: Name::new(String::from_str(alloc, name)?),
        data_type,
        is_nullable: true,
    })
}

pub(crate) fn item(alloc: Global, data_type: DataType) -> Result<Boxed<Field>, Error> {
    Ok(Boxed::new(alloc, named(alloc, "item", data_type)?)?)
}

pub(crate) fn list_of(alloc: Global, data_type: DataType) -> Result<DataType, Error> {
    Ok(DataType::List(item(alloc, data_type)?))
}

pub(crate) fn keyed(
    alloc: Global,
    keys: IntegerType,
    data_type: DataType,
) -> Result<DataType, Error> {
    let value = Boxed::new(alloc, data_type)?;
    Ok(DataType::Dictionary(keys, value, false))
}

/// A struct of two fields.
fn pair_of(alloc: Global, first: DataType, second: DataType) -> Result<DataType, Error> {
    let first = item(alloc, first)?.into_inner();
    let second = item(alloc, second)?.into_inner();
    Ok(DataType::Struct(Seq::new(vec![in alloc; first, second]?)))
}

/// Cells as a text: digits, texts, `-` for null, and brackets around cells of cells.
#[cycle(write_cell)]
pub(crate) fn write_cell(text: &mut String, cell: &Cell) -> Result<(), Error> {
    match cell {
        Cell::Null => text.push('-')?,
        Cell::Int(number) => text.push(digit(*number))?,
        Cell::Cells(cells) => {
            text.push('[')?;
            for cell in cells.as_slice() {
                write_cell(text, cell)?;
            }
            text.push(']')?;
        }
        Cell::Text(cell) => text.push_str(cell.as_str())?,
        Cell::Bool(_) | Cell::DaysMs(_, _) | Cell::Bytes(_) => text.push('?')?,
    }
    Ok(())
}

fn digit(number: i128) -> char {
    match number {
        0..=9 => (b'0' + number as u8) as char,
        _ => '?',
    }
}

/// The cells of the array that a builder makes.
fn text_of(alloc: Global, builder: DynMutable) -> Result<String, Error> {
    let array = builder.as_box()?;
    let mut text = String::new(alloc);
    for i in 0..array.len() {
        write_cell(&mut text, &array.item(alloc, i)?)?;
    }
    Ok(text)
}

/// Appends a number and a null to the builder inside.
fn push_two(builder: &mut DynMutable, number: i128) -> Result<(), Error> {
    let inner = match builder {
        DynMutable::Dictionary(entries) => &mut entries.inner,
        DynMutable::List(items) => &mut items.inner,
        _ => return Ok(()),
    };
    inner.push_cell(&Cell::Int(number))?;
    inner.push_cell(&Cell::Null)
}

#[test]
fn a_struct_of_a_list_and_a_dictionary(rt: HostRuntime) -> Result<(), Fail> {
    let alloc = rt.alloc();
    let list = list_of(alloc, DataType::Int32)?;
    let dictionary = keyed(alloc, IntegerType::UInt8, DataType::Int64)?;
    let data_type = pair_of(alloc, list, dictionary)?;
    let mut fields = DynMutableStructArray::try_with_capacity(alloc, data_type, 2)?;
    for inner in fields.inner.iter_mut() {
        push_two(inner, 7)?;
    }
    assert_eq!(rt;
        text_of(alloc, DynMutable::Struct(fields))?.as_str(),
        "[[7]7][[-]-]"
    );
    Ok(())
}

#[test]
fn a_map_has_one_slot(rt: HostRuntime) -> Result<(), Fail> {
    let alloc = rt.alloc();
    let data_type = DataType::Map(item(alloc, DataType::Int16)?, true);
    let mut map = DynMutableMapArray::try_with_capacity(alloc, data_type, 3)?;
    for number in &[4, 5, 6] {
        map.inner.push_cell(&Cell::Int(*number))?;
    }
    assert_eq!(rt; text_of(alloc, DynMutable::Map(map))?.as_str(), "[456]");
    Ok(())
}

#[test]
fn a_new_map_has_an_empty_slot(rt: HostRuntime) -> Result<(), Fail> {
    let alloc = rt.alloc();
    let pairs = pair_of(alloc, DataType::Int32, DataType::Int32)?;
    let data_type = DataType::Map(item(alloc, pairs)?, false);
    let map = DynMutableMapArray::try_with_capacity(alloc, data_type, 0)?;
    assert_eq!(rt; map.len(), 1);
    assert_eq!(rt; text_of(alloc, DynMutable::Map(map))?.as_str(), "[]");
    Ok(())
}

#[test]
fn a_list_of_large_lists(rt: HostRuntime) -> Result<(), Fail> {
    let alloc = rt.alloc();
    let large = DataType::LargeList(item(alloc, DataType::Int8)?);
    let data_type = list_of(alloc, large)?;
    let mut lists = DynMutableListArray::try_with_capacity(alloc, data_type, 2)?;
    push_two(&mut lists.inner, 3)?;
    assert_eq!(rt;
        text_of(alloc, DynMutable::List(lists))?.as_str(),
        "[[3]][[-]]"
    );
    Ok(())
}

pub(crate) fn is_misfit(error: Option<Error>) -> bool {
    matches!(error, Some(Error::InvalidArgumentError(_)))
}

#[test]
fn columns_of_other_lengths_are_refused(rt: HostRuntime) -> Result<(), Fail> {
    let alloc = rt.alloc();
    let data_type = pair_of(alloc, DataType::Int8, DataType::Int8)?;
    let mut fields = DynMutableStructArray::try_with_capacity(alloc, data_type, 1)?;
    if let Some(first) = fields.inner.first_mut() {
        first.push_cell(&Cell::Int(1))?;
    }
    assert!(rt; is_misfit(fields.as_box().err()));
    Ok(())
}

/// Lists of numbers of 32 bits, over a builder of numbers of 8 bits.
fn with_another_type_inside(alloc: Global) -> Result<DynMutableListArray, Error> {
    let data_type = list_of(alloc, DataType::Int32)?;
    let mut lists = DynMutableListArray::try_with_capacity(alloc, data_type, 0)?;
    let inner = DynMutable::try_with_capacity(alloc, DataType::Int8, 0)?;
    *lists.inner = inner;
    Ok(lists)
}

#[test]
fn a_builder_of_another_type_inside_is_refused(rt: HostRuntime) -> Result<(), Fail> {
    assert!(rt; is_misfit(with_another_type_inside(rt.alloc())?.as_box().err()));
    Ok(())
}

/// A dictionary of the numbers below this one, with keys of eight bits.
fn counted(alloc: Global, count: i128) -> Result<Result<Array, Error>, Error> {
    let data_type = keyed(alloc, IntegerType::Int8, DataType::Int16)?;
    let mut entries = DynMutableDictionary::try_with_capacity(alloc, data_type, 128)?;
    for number in 0..count {
        entries.inner.push_cell(&Cell::Int(number))?;
    }
    Ok(entries.as_box())
}

#[test]
fn keys_of_eight_bits_name_127_entries(rt: HostRuntime) -> Result<(), Fail> {
    let alloc = rt.alloc();
    let array = counted(alloc, 127)??;
    assert!(rt; array.len() == 127 && array.item(alloc, 126)? == Cell::Int(126));
    Ok(())
}

#[test]
fn keys_of_eight_bits_name_no_128_entries(rt: HostRuntime) -> Result<(), Fail> {
    assert!(rt; matches!(counted(rt.alloc(), 128)?.err(), Some(Error::Overflow)));
    Ok(())
}
