//! Reads what a file's footer says.

ghost use Rattle.std.specs.Prelude.{◌≡◌, ◌+◌, ◌≤◌, length, true, OnOk};
ghost use Rattle.parquet_meta.specs.Fault.{MakesOr};
ghost use Rattle.parquet_meta.specs.File.{footer, footer_length, meta_data_in, most_taken};
ghost use Rattle.parquet_meta.specs.Keeps.{Keeps};
ghost use Rattle.parquet_meta.specs.Source.{Finds};

use crate::exact::read_exact_at;
use crate::fault::Fault;
use crate::footer::decode_footer;
use crate::groups::meta_data_of;
use crate::metadata::{FileMetaData, Place};
use crate::source::Source;
use columns_core::{Error, Part};
use std::alloc::Global;

/// The least size of a file.
const LEAST_SIZE: u64 = 12;

/// How many bytes at the file's end tell the footer's length.
const END_SIZE: u64 = 8;

/// The metadata in the struct that the bytes begin with. The bytes are given back before the leaves are copied beside the chunks.
#[tactic(auto, unfolding(crate::specs::File::meta_data_in))]
fn meta_data_in(alloc: Global, bytes: Vec<u8>) -> Result<FileMetaData, Fault>
    ensures { MakesOr true result (meta_data_in bytes.items) }
{
    let stored = decode_footer(alloc, bytes.as_slice())?;
    drop(bytes);
    meta_data_of(alloc, stored)
}

/// The footer's length, where the file's end is that of a Parquet file.
#[tactic(auto, unfolding(crate::specs::File::footer_length))]
fn footer_length(end: &[u8]) -> Option<u32>
    requires { length end.now ≡ 8 }
    ensures { result ≡ footer_length end.now }
{
    match end {
        [a, b, c, d, b'P', b'A', b'R', b'1'] => Some(u32::from_le_bytes([*a, *b, *c, *d])),
        _ => None,
    }
}

/// What a file's footer says. Only the last 8 bytes and the footer before them are read.
#[tactic(auto, unfolding(crate::specs::File::footer, crate::specs::File::footer_at))]
pub fn read_metadata<S: Source>(alloc: Global, source: &mut S) -> Result<FileMetaData, Error>
    ensures keeps { Keeps S.Source source.old source.new }
    ensures quiet { OnOk result (S.faults source.new ≡ S.faults source.old) }
    ensures footer { Finds (λ metadata. metadata) footer
        (S.told source.old) (S.faults source.old) (S.faults source.new) result }
    ensures taken { S.taken source.new ≤ S.taken source.old + most_taken (S.told source.old) }
{
    let Ok(size) = source.size() else {
        return Err(Error::Io);
    };
    if size < LEAST_SIZE {
        return Err(Error::ExternalFormat(Part::Footer));
    }
    let before_end = size - END_SIZE;
    let end = read_exact_at(
        alloc,
        source,
        Place {
            offset: before_end,
            length: END_SIZE,
        },
    )?;
    let Some(length) = footer_length(end.as_slice()) else {
        return Err(Error::ExternalFormat(Part::Footer));
    };
    let length = u64::from(length);
    if before_end < length {
        return Err(Error::ExternalFormat(Part::Footer));
    }
    let place = Place {
        offset: before_end - length,
        length,
    };
    let bytes = read_exact_at(alloc, source, place)?;
    match meta_data_in(alloc, bytes) {
        Ok(metadata) => Ok(metadata),
        Err(fault) => Err(fault.at(Part::Footer)),
    }
}
