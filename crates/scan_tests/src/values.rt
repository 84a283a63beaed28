//! Values and their ends, as tables have them.
use columns_core::{Cell, Name, Seq};
use parquet_scan::{Bound, Scalar};
use std::alloc::{AllocError, Global};

/// A value that is compared.
#[derive(Clone, Copy)]
pub(crate) enum Value<'a> {
    Number(i128),
    Text(&'a str),
    Bytes(&'a [u8]),
}

/// Which ends are known or asked for, and what they are.
#[derive(Clone, Copy)]
pub(crate) enum Ends<'a> {
    Open,
    From(Value<'a>),
    To(Value<'a>),
    Between(Value<'a>, Value<'a>),
}

impl<'a> Ends<'a> {
    pub(crate) fn are_open(self) -> bool {
        matches!(self, Ends::Open)
    }

    fn low(self) -> Option<Value<'a>> {
        match self {
            Ends::Open | Ends::To(_) => None,
            Ends::From(low) | Ends::Between(low, _) => Some(low),
        }
    }

    fn high(self) -> Option<Value<'a>> {
        match self {
            Ends::Open | Ends::From(_) => None,
            Ends::To(high) | Ends::Between(_, high) => Some(high),
        }
    }
}

pub(crate) fn name_of(alloc: Global, text: &str) -> Result<Name, AllocError> {
    Ok(Name::new(String::from_str(alloc, text)?))
}

fn bytes_of(alloc: Global, bytes: &[u8]) -> Result<Seq<u8>, AllocError> {
    Ok(Seq::new(Vec::from_slice(alloc, bytes)?))
}

fn scalar_of(alloc: Global, value: Option<Value<'_>>) -> Result<Option<Scalar>, AllocError> {
    let scalar = match value {
        None => return Ok(None),
        Some(Value::Number(number)) => Scalar::Int(number),
        Some(Value::Text(text)) => Scalar::Text(name_of(alloc, text)?),
        Some(Value::Bytes(bytes)) => Scalar::Bytes(bytes_of(alloc, bytes)?),
    };
    Ok(Some(scalar))
}

/// The item with a value, or a null.
pub(crate) fn item_of(alloc: Global, value: Option<Value<'_>>) -> Result<Cell, AllocError> {
    match value {
        None => Ok(Cell::Null),
        Some(Value::Number(number)) => Ok(Cell::Int(number)),
        Some(Value::Text(text)) => Ok(Cell::Text(name_of(alloc, text)?)),
        Some(Value::Bytes(bytes)) => Ok(Cell::Bytes(bytes_of(alloc, bytes)?)),
    }
}

/// A bound on the field of this name.
pub(crate) fn bound_of(alloc: Global, name: &str, ends: Ends<'_>) -> Result<Bound, AllocError> {
    Ok(Bound {
        field: name_of(alloc, name)?,
        low: scalar_of(alloc, ends.low())?,
        high: scalar_of(alloc, ends.high())?,
    })
}
