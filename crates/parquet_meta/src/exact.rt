//! Reads whole parts of a file.

ghost use Rattle.std.specs.Prelude.{◌≡◌, ◌+◌, ◌^◌, ◌<◌, ◌≤◌, length, take, drop, IfOk, IfErr, IfSome, OnErr, vec_len, OnOk};
ghost use Rattle.parquet_meta.specs.Places.{part_at};
ghost use Rattle.parquet_meta.specs.Keeps.{Keeps};
ghost use Rattle.parquet_meta.specs.Source.{Finds, IsFailure};

use crate::metadata::Place;
use crate::source::Source;
use columns_core::{Error, Part};
use std::alloc::Global;

/// The bytes of a part, all of them.
pub fn read_exact_at<S: Source>(
    alloc: Global,
    source: &mut S,
    place: Place,
) -> Result<Vec<u8>, Error>
    ensures keeps { Keeps S.Source source.old source.new }
    ensures quiet { OnOk result (S.faults source.new ≡ S.faults source.old) }
    ensures length { IfOk result (λ bytes. vec_len bytes ≡ place.length) }
    ensures part { Finds (λ bytes. bytes.items) (λ file. part_at file place)
        (S.told source.old) (S.faults source.old) (S.faults source.new) result }
    ensures taken { S.taken source.new ≤ S.taken source.old + place.length }
{
    let size = source.size().map_err(|_| Error::Io)?;
    if size < place.offset || size - place.offset < place.length {
        return Err(Error::ExternalFormat(Part::Location));
    }
    let mut bytes = vec![in alloc; 0u8; place.length as usize]?;
    fill_from(source, place.offset, bytes.as_mut_slice())?;
    Ok(bytes)
}

/// The bytes of the range that the metadata tells of a column's chunk, all of them. What does not lie in the file is told of as
/// the row group's.
pub fn read_range<S: Source>(alloc: Global, source: &mut S, range: Place) -> Result<Vec<u8>, Error>
    ensures keeps { Keeps S.Source source.old source.new }
    ensures quiet { OnOk result (S.faults source.new ≡ S.faults source.old) }
    ensures length { IfOk result (λ bytes. vec_len bytes ≡ range.length) }
    ensures part { Finds (λ bytes. bytes.items) (λ file. part_at file range)
        (S.told source.old) (S.faults source.old) (S.faults source.new) result }
    ensures taken { S.taken source.new ≤ S.taken source.old + range.length }
{
    read_as(alloc, source, range, Part::Group)
}

/// The bytes of a place, all of them. What does not lie in the file is told of as this part's.
pub(crate) fn read_as<S: Source>(
    alloc: Global,
    source: &mut S,
    place: Place,
    part: Part,
) -> Result<Vec<u8>, Error>
    ensures keeps { Keeps S.Source source.old source.new }
    ensures quiet { OnOk result (S.faults source.new ≡ S.faults source.old) }
    ensures length { IfOk result (λ bytes. vec_len bytes ≡ place.length) }
    ensures part { Finds (λ bytes. bytes.items) (λ file. part_at file place)
        (S.told source.old) (S.faults source.old) (S.faults source.new) result }
    ensures taken { S.taken source.new ≤ S.taken source.old + place.length }
{
    match read_exact_at(alloc, source, place) {
        Err(Error::ExternalFormat(_)) => Err(Error::ExternalFormat(part)),
        found => found,
    }
}

/// Fills the buffer with the bytes from the place on.
fn fill_from<S: Source>(source: &mut S, place: u64, out: &mut [u8]) -> Result<(), Error>
    requires fits { place + length out.old < 2 ^ 64 }
    requires within { IfSome (S.told source.old) (λ file. place + length out.old ≤ length file) }
    ensures keeps { Keeps S.Source source.old source.new }
    ensures quiet { OnOk result (S.faults source.new ≡ S.faults source.old) }
    ensures filled { IfOk result (λ _. IfSome (S.told source.old) (λ file.
        out.new ≡ take (length out.old) (drop place file))) }
    ensures failed { IfErr result (λ e.
        IsFailure e (S.told source.old) (S.faults source.old) (S.faults source.new)) }
    ensures taken { S.taken source.new ≤ S.taken source.old + length out.old }
{
    let mut filled = 0;
    'fill: while filled < out.len() {
        let count = read_behind(source, place, filled, out)?;
        filled += count;
    }
    Ok(())
}

/// Reads at least one byte behind those that are there.
fn read_behind<S: Source>(
    source: &mut S,
    place: u64,
    filled: usize,
    out: &mut [u8],
) -> Result<usize, Error>
    requires room { filled < length out.old }
    requires fits { place + length out.old < 2 ^ 64 }
    requires within { IfSome (S.told source.old) (λ file. place + length out.old ≤ length file) }
    ensures keeps { Keeps S.Source source.old source.new }
    ensures quiet { OnOk result (S.faults source.new ≡ S.faults source.old) }
    ensures count { IfOk result (λ n. (0 < n) × (filled + n ≤ length out.old)) }
    ensures before { take filled out.new ≡ take filled out.old }
    ensures behind { IfOk result (λ n. IfSome (S.told source.old) (λ file.
        take n (drop filled out.new) ≡ take n (drop (place + filled) file))) }
    ensures failed { IfErr result (λ e.
        IsFailure e (S.told source.old) (S.faults source.old) (S.faults source.new)) }
    ensures taken { IfOk result (λ n. S.taken source.new ≤ S.taken source.old + n) }
    ensures not_taken { OnErr result (S.taken source.new ≤ S.taken source.old) }
{
    let Ok(count) = source.read_at(place + filled as u64, &mut out[filled..]) else {
        return Err(Error::Io);
    };
    if count == 0 {
        return Err(Error::ExternalFormat(Part::Location));
    }
    Ok(count)
}
