//! Builders inside builders: their lengths, and what they refuse.
use columns_core::{Boxed, Cell, DataType, Error, Field, IntegerType, Name, Seq};
use parquet_statistics::{
    DynMutable, DynMutableDictionary, DynMutableListArray, DynMutableStructArray,
};
use std::alloc::Global;
use std::test::*;

fn field(alloc: Global, data_type: DataType) -> Result<Field, Error> {
    Ok(Field {
        name: Name::new(String::from_str(alloc, "item")?),
        data_type,
        is_nullable: true,
    })
}

fn list_of(alloc: Global, data_type: DataType) -> Result<DataType, Error> {
    let field = field(alloc, data_type)?;
    Ok(DataType::List(Boxed::new(alloc, field)?))
}

fn dictionary_of(alloc: Global, data_type: DataType) -> Result<DataType, Error> {
    let value = Boxed::new(alloc, data_type)?;
    Ok(DataType::Dictionary(IntegerType::Int32, value, false))
}

/// A struct of one field.
fn struct_of(alloc: Global, data_type: DataType) -> Result<DataType, Error> {
    let field = field(alloc, data_type)?;
    Ok(DataType::Struct(Seq::new(vec![in alloc; field]?)))
}

#[test]
fn lengths_of_dictionaries_and_lists(rt: HostRuntime) -> Result<(), Fail> {
    let alloc = rt.alloc();
    let keyed = dictionary_of(alloc, DataType::Int64)?;
    let mut entries = DynMutableDictionary::try_with_capacity(alloc, keyed, 2)?;
    assert_eq!(rt; entries.len(), 0);
    entries.inner.push_cell(&Cell::Int(5))?;
    entries.inner.push_cell(&Cell::Null)?;
    assert_eq!(rt; entries.len(), 2);
    let numbers = list_of(alloc, DataType::Int32)?;
    let mut items = DynMutableListArray::try_with_capacity(alloc, numbers, 1)?;
    assert_eq!(rt; items.len(), 0);
    items.inner.push_cell(&Cell::Int(7))?;
    assert_eq!(rt; items.len(), 1);
    Ok(())
}

#[test]
fn lengths_of_structs(rt: HostRuntime) -> Result<(), Fail> {
    let alloc = rt.alloc();
    let one_field = struct_of(alloc, DataType::Int8)?;
    let mut fields = DynMutableStructArray::try_with_capacity(alloc, one_field, 1)?;
    assert_eq!(rt; fields.len(), 0);
    for inner in fields.inner.iter_mut() {
        inner.push_cell(&Cell::Int(-128))?;
    }
    assert_eq!(rt; fields.len(), 1);
    Ok(())
}

/// Why there is no builder of a type.
fn refusal(alloc: Global, data_type: DataType) -> Option<Error> {
    DynMutable::try_with_capacity(alloc, data_type, 0).err()
}

#[test]
fn types_that_are_refused(rt: HostRuntime) -> Result<(), Fail> {
    let alloc = rt.alloc();
    let none = refusal(alloc, DataType::Struct(Seq::new(Vec::new(alloc))));
    let sizeless = refusal(alloc, list_of(alloc, DataType::FixedSizeBinary(0))?);
    assert!(rt; matches!(none, Some(Error::InvalidArgumentError(_))));
    assert!(rt; matches!(sizeless, Some(Error::NotYetImplemented(_))));
    Ok(())
}

#[test]
fn cells_of_a_flat_builder(rt: HostRuntime) -> Result<(), Fail> {
    let mut flat = DynMutable::try_with_capacity(rt.alloc(), DataType::Int8, 1)?;
    let least = pushed(&mut flat, &Cell::Int(-128));
    let past = pushed(&mut flat, &Cell::Int(128));
    drop(flat);
    assert!(rt; matches!(least, (Ok(()), 1)));
    assert!(rt; matches!(past, (Err(Error::InvalidArgumentError(_)), 1)));
    Ok(())
}

/// Whether a cell was appended, and how many there are then.
fn pushed(builder: &mut DynMutable, cell: &Cell) -> (Result<(), Error>, usize) {
    let appended = builder.push_cell(cell);
    (appended, builder.len())
}

#[test]
fn a_list_takes_no_cell(rt: HostRuntime) -> Result<(), Fail> {
    let numbers = list_of(rt.alloc(), DataType::Int8)?;
    let mut list = DynMutable::try_with_capacity(rt.alloc(), numbers, 1)?;
    assert!(rt;
        matches!(
            list.push_cell(&Cell::Int(1)),
            Err(Error::InvalidArgumentError(_))
        )
    );
    Ok(())
}
