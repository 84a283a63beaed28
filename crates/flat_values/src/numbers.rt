//! Numbers in the pages of a column.
ghost use Rattle.std.specs.Prelude.{◌≡◌, ◌+◌, ◌-◌, [], Some, IsSome, IfOk, OnOk, is_some, min, take, drop, map};
ghost use Rattle.columns_core.specs.Causes.{ComesOf, ExternalFormat, TellsOf, unless};
ghost use Rattle.parquet_encoding.specs.DeltaLeft.{delta_left, numbers};
ghost use Rattle.parquet_page.specs.Values.{delta_values, plain_values};
ghost use Rattle.page_decoding.specs.Outcome.{causes_in};
ghost use Rattle.flat_values.specs.Added.{Adds};
ghost use Rattle.flat_values.specs.NumbersLeft.{plain_left};
ghost use Rattle.flat_values.specs.Outcomes.{stored_outcome};

use crate::keys::KeyPlace;
use crate::{Convert, ParquetNativeType};
use columns_core::{Error, NativeType, Part};
use parquet_encoding::DeltaBinary;

/// How many numbers of packed deltas are converted together.
const CHUNK: usize = 128;

/// A place among plain values.
#[derive(Clone, Copy)]
pub struct PlainPlace {
    /// How many values there are.
    count: usize,
    /// How many of them were passed.
    next: usize,
}

/// A place among the stored numbers of a page. The bytes are handed to each call.
#[derive(Clone, Copy)]
pub enum NumberPlace {
    Plain(PlainPlace),
    Keys(KeyPlace),
    Deltas(DeltaBinary),
}

impl PlainPlace {
    /// The place behind the next `count` of so many values, or behind all.
    fn behind(self, values: usize, count: usize) -> PlainPlace
        ensures count { result.count ≡ self.count }
        ensures next { result.next ≡ min self.next values + min count (values - min self.next values) }
    {
        let start = self.next.min(values);
        PlainPlace {
            count: self.count,
            next: start + count.min(values - start),
        }
    }
}

/// Before the first of `count` plain values.
pub(crate) fn open_plain<P: ParquetNativeType>(
    bytes: &[u8],
    count: usize,
) -> Result<PlainPlace, Error>
    ensures values { IfOk result (λ place.
        plain_values P.physical bytes.now count ≡ Some (plain_left P.physical bytes.now place)) }
    ensures among { IfOk result (λ place. IsSome (plain_values P.physical bytes.now place.count)) }
    ensures ok { OnOk result (unless (is_some (plain_values P.physical bytes.now count)) ExternalFormat
        ≡ []) }
    ensures cause { TellsOf result
        (unless (is_some (plain_values P.physical bytes.now count)) ExternalFormat) }
{
    if P::is_plain(bytes, count) {
        Ok(PlainPlace { count, next: 0 })
    } else {
        Err(Error::ExternalFormat(Part::Values))
    }
}

/// Appends the next `count` plain values, converted, or all that are left.
pub(crate) fn take_plain<P: ParquetNativeType, T: NativeType, C: Convert<P, T>>(
    place: PlainPlace,
    bytes: &[u8],
    rule: C,
    values: &mut Vec<T>,
    count: usize,
) -> Result<PlainPlace, Error>
    requires { IsSome (plain_values P.physical bytes.now place.count) }
    ensures added { OnOk result (Adds T.cell values.old.items values.new.items
        (take count (map (stored_outcome (C.rule rule)) (plain_left P.physical bytes.now place)))) }
    ensures rest { IfOk result (λ new.
        plain_left P.physical bytes.now new ≡ drop count (plain_left P.physical bytes.now place)) }
    ensures among { IfOk result (λ new. new.count ≡ place.count) }
    ensures cause { ComesOf result
        (causes_in (take count (map (stored_outcome (C.rule rule))
        (plain_left P.physical bytes.now place)))) }
{
    let pieces = P::plain_pieces(bytes);
    let start = place.next.min(pieces.len());
    let behind = place.behind(pieces.len(), count);
    rule.extend_plain(values, &pieces[start..behind.next])?;
    Ok(behind)
}

/// Passes over `count` plain values, or over all that are left.
pub(crate) fn skip_plain<P: ParquetNativeType>(
    place: PlainPlace,
    bytes: &[u8],
    count: usize,
) -> PlainPlace
    requires { IsSome (plain_values P.physical bytes.now place.count) }
    ensures rest { plain_left P.physical bytes.now result
        ≡ drop count (plain_left P.physical bytes.now place) }
    ensures among { result.count ≡ place.count }
{
    place.behind(P::plain_pieces(bytes).len(), count)
}

/// Before the first of `count` values by packed deltas.
pub(crate) fn open_deltas<P: ParquetNativeType>(
    bytes: &[u8],
    count: usize,
) -> Result<DeltaBinary, Error>
    ensures values { IfOk result (λ place.
        delta_values P.physical bytes.now count ≡ Some (map P.delta (numbers place bytes.now))) }
    ensures among { IfOk result (λ place. IsSome (delta_left place bytes.now)) }
    ensures ok { OnOk result (unless (is_some (delta_values P.physical bytes.now count)) ExternalFormat
        ≡ []) }
    ensures cause { TellsOf result
        (unless (is_some (delta_values P.physical bytes.now count)) ExternalFormat) }
{
    match P::open_deltas(bytes, count) {
        Ok(place) => Ok(place),
        Err(_) => Err(Error::ExternalFormat(Part::Values)),
    }
}

/// Appends the next `count` values by packed deltas, converted, or all that are left.
pub(crate) fn take_deltas<P: ParquetNativeType, T: NativeType, C: Convert<P, T>>(
    place: DeltaBinary,
    bytes: &[u8],
    rule: C,
    values: &mut Vec<T>,
    count: usize,
) -> Result<DeltaBinary, Error>
    requires { IsSome (delta_left place bytes.now) }
    ensures added { OnOk result (Adds T.cell values.old.items values.new.items
        (take count (map (λ number. stored_outcome (C.rule rule) (P.delta number))
        (numbers place bytes.now)))) }
    ensures rest { IfOk result (λ new. numbers new bytes.now ≡ drop count (numbers place bytes.now)) }
    ensures among { IfOk result (λ new. IsSome (delta_left new bytes.now)) }
    ensures cause { ComesOf result
        (causes_in (take count (map (λ number. stored_outcome (C.rule rule) (P.delta number))
        (numbers place bytes.now)))) }
{
    let mut place = place;
    let mut left = count;
    let mut chunk = [0i64; CHUNK];
    while left > 0 {
        let room = &mut chunk[..left.min(CHUNK)];
        let found = place.fill(bytes, room);
        if found == 0 {
            return Ok(place);
        }
        rule.extend_deltas(values, &room[..found])?;
        left -= found;
    }
    Ok(place)
}
