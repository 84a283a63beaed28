//! Places among the byte strings of a page.
ghost use Rattle.std.specs.Prelude.{◌≡◌, ◌≤◌, Bool, List, Option, None, Some, take, drop, length, map, sum_by, IsSome, IfOk, IfErr, IfSome, OnOk};
ghost use Rattle.std.specs.Option.{option_copied};
ghost use Rattle.columns_core.specs.Causes.{ExternalFormat, cause_of};
ghost use Rattle.columns_core.specs.declared.cell.Cell.{Cell};
ghost use Rattle.parquet_encoding.specs.DeltaLength.{delta_length};
ghost use Rattle.parquet_encoding.specs.JoinedLeft.{joined_left, joined_values};
ghost use Rattle.parquet_encoding.specs.Places.{bytes_in};
ghost use Rattle.parquet_encoding.specs.Plain.{plain_bytes};
ghost use Rattle.parquet_encoding.specs.PlainLeft.{strings as plain_places, strings_left};
ghost use Rattle.flat_values.specs.Added.{Adds};
ghost use Rattle.binary_values.specs.ByteLeft.{IsAmongBytes, byte_left};
ghost use Rattle.binary_values.specs.ByteStrings.{AreJudged, IsCausedByBytes, byte_cell, byte_entries};

use crate::Strings;
use crate::named::take_named;
use crate::string_walk::take_stored;
use columns_core::{Error, Offset, Part};
use flat_values::KeyPlace;
use parquet_encoding::{DeltaLength, PlainBytes};

/// A place among the byte strings of a page.
#[derive(Clone, Copy)]
pub enum BytePlace {
    Plain(PlainBytes),
    Lengths(DeltaLength),
    Keys(KeyPlace),
}

/// Before the first of so many byte strings, each behind its length.
pub(crate) fn open_plain(bytes: &[u8], count: usize, part: Part) -> Result<PlainBytes, Error>
    ensures values { IfOk result (λ place.
        plain_bytes bytes.now count ≡ Some (map (bytes_in bytes.now) (plain_places place bytes.now))) }
    ensures spelled { IfOk result (λ place. IsSome (strings_left place bytes.now)) }
    ensures counted { IfOk result (λ place. length (plain_places place bytes.now) ≡ count) }
    ensures refused { IfErr result
        (λ e. (cause_of e ≡ Some ExternalFormat) × (plain_bytes bytes.now count ≡ None)) }
{
    match PlainBytes::try_new(bytes, count) {
        Ok(place) => Ok(place),
        Err(_) => Err(Error::ExternalFormat(part)),
    }
}

/// Before the first of so many byte strings, joined behind their lengths.
pub(crate) fn open_lengths(bytes: &[u8], count: usize) -> Result<DeltaLength, Error>
    ensures values { IfOk result (λ place.
        delta_length bytes.now count ≡ Some (map (bytes_in bytes.now) (joined_values place bytes.now))) }
    ensures spelled { IfOk result (λ place. IsSome (joined_left place bytes.now)) }
    ensures refused { IfErr result
        (λ e. (cause_of e ≡ Some ExternalFormat) × (delta_length bytes.now count ≡ None)) }
{
    match DeltaLength::try_new(bytes, count) {
        Ok(place) => Ok(place),
        Err(_) => Err(Error::ExternalFormat(Part::Values)),
    }
}

/// Appends what the next byte strings give, at most so many.
pub(crate) fn take_values<O: Offset>(
    place: BytePlace,
    bytes: &[u8],
    is_text: bool,
    dict: Option<&Strings<O>>,
    strings: &mut Strings<O>,
    count: usize,
) -> Result<BytePlace, Error>
    requires among { IsAmongBytes bytes.now place }
    requires own_dict { IfSome (option_copied dict) (AreJudged is_text) }
    requires fits { sum_by length strings.old ≤ O.greatest }
    requires judged { AreJudged is_text strings.old }
    ensures added { let values = byte_left is_text
        (byte_entries is_text (option_copied dict.entry)) bytes.now place in
        OnOk result (Adds (byte_cell is_text) strings.old strings.new (take count values)) }
    ensures rest { let values = byte_left is_text
        (byte_entries is_text (option_copied dict.entry)) bytes.now in
        IfOk result (λ new. values new ≡ drop count (values place)) }
    ensures among { IfOk result (IsAmongBytes bytes.now) }
    ensures fits { OnOk result (sum_by length strings.new ≤ O.greatest) }
    ensures judged { OnOk result (AreJudged is_text strings.new) }
    ensures cause { let values = byte_left is_text
        (byte_entries is_text (option_copied dict.entry)) bytes.now place in
        IfErr result (IsCausedByBytes O.greatest strings.old (take count values)) }
{
    match place {
        BytePlace::Plain(walk) => Ok(BytePlace::Plain(take_stored(
            walk,
            bytes,
            is_text,
            strings,
            count,
            Part::Values,
        )?)),
        BytePlace::Lengths(walk) => Ok(BytePlace::Lengths(take_stored(
            walk,
            bytes,
            is_text,
            strings,
            count,
            Part::Values,
        )?)),
        BytePlace::Keys(keys) => Ok(BytePlace::Keys(take_named(
            keys, bytes, dict, strings, count,
        )?)),
    }
}

/// Passes over the next byte strings, at most so many.
pub(crate) fn skip_values(place: BytePlace, bytes: &[u8], count: usize) -> BytePlace
    requires { IsAmongBytes bytes.now place }
    ensures rest { (is_text : Bool) (entries : Option (List Cell)) →
        byte_left is_text entries bytes.now result ≡
        drop count (byte_left is_text entries bytes.now place) }
    ensures among { IsAmongBytes bytes.now result }
{
    match place {
        BytePlace::Plain(mut walk) => {
            walk.skip(bytes, count);
            BytePlace::Plain(walk)
        }
        BytePlace::Lengths(mut walk) => {
            walk.skip(bytes, count);
            BytePlace::Lengths(walk)
        }
        BytePlace::Keys(mut keys) => {
            keys.skip(bytes, count);
            BytePlace::Keys(keys)
        }
    }
}
