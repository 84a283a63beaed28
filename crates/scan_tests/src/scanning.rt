//! Scans of files in memory, as tables ask for them.
ghost use Rattle.std.specs.Prelude.{◌≡◌, ◌<◌};

use crate::values::{Ends, bound_of, name_of};
use columns_core::{DataType, Error, Field, Schema, Seq};
use parquet_base::Steps;
use parquet_meta::{MemorySource, Source};
use parquet_scan::{Bound, Scan, scan_where};
use std::alloc::{AllocError, Global};
use std::marker::Brand;
use std::sync::ledger::{Blank, Ledger};

/// The type that a field is read as.
#[derive(Clone, Copy)]
pub(crate) enum As {
    Nulls,
    Numbers,
    Texts,
}

impl As {
    fn data_type(self) -> DataType {
        match self {
            As::Nulls => DataType::Null,
            As::Numbers => DataType::Int32,
            As::Texts => DataType::Utf8,
        }
    }
}

/// A field of a request, and the bound on it where it has an end.
pub(crate) type Asked<'a> = (&'a str, As, Ends<'a>);

fn schema_of(alloc: Global, request: &[Asked<'_>]) -> Result<Schema, AllocError> {
    let mut fields = Vec::new(alloc);
    for (name, read_as, _) in request {
        fields.push(Field {
            name: name_of(alloc, name)?,
            data_type: read_as.data_type(),
            is_nullable: true,
        })?;
    }
    Ok(Schema {
        fields: Seq::new(fields),
    })
}

fn bounds_of(alloc: Global, request: &[Asked<'_>]) -> Result<Vec<Bound>, AllocError> {
    let mut bounds = Vec::new(alloc);
    for (name, _, ends) in request {
        if !ends.are_open() {
            bounds.push(bound_of(alloc, name, *ends)?)?;
        }
    }
    Ok(bounds)
}

fn scan_counted<S: Source, L: Ledger>(
    alloc: Global,
    source: &mut S,
    schema: &Schema,
    bounds: &[Bound],
    blank: Blank,
) -> Result<Scan, Error>
    requires name { blank.name ≡ L.name }
    requires parts { blank.parts ≡ L.parts }
    requires whole { 0 < blank.parts }
{
    let mut steps = Steps::<L>::new(blank);
    scan_where(alloc, source, schema, bounds, None, None, &mut steps)
}

/// What a scan of a file, in chunks of whole groups and without a limit, answers.
pub(crate) fn scan(alloc: Global, bytes: Vec<u8>, request: &[Asked<'_>]) -> Result<Scan, Error> {
    let schema = schema_of(alloc, request)?;
    let bounds = bounds_of(alloc, request)?;
    let mut source = MemorySource::new(bytes);
    scan_counted::<MemorySource, Brand>(alloc, &mut source, &schema, &bounds, Blank::new(1))
}
