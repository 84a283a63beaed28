//! Passes over a value that nobody reads.

ghost use Rattle.std.specs.Prelude.{◌≡◌, ℕ, suc, length, IfOk, slice_get, false};
ghost use Rattle.parquet_base.specs.Reading.{Gives, IsEnd, after};
ghost use Rattle.parquet_thrift.specs.Values.{value_within, in_struct, most_depth};
ghost use Rattle.parquet_thrift.specs.Skipping.{context_of, after_part, BeginsValue, GivesNext, PaysBegun, PaysNext};

use crate::header::{FieldHeader, field_header_at, list_header_at, map_header_at};
use crate::number::{binary_at, bool_at, end_of, i8_at, i16_at, i32_at, i64_at, raw_at};
use crate::{BINARY, BYTE, DOUBLE, FALSE, I16, I32, I64, LIST, MAP, SET, STRUCT, TRUE};
use parquet_base::Unspelled;

/// What is still to be passed over of a list, map or struct.
#[derive(Clone, Copy)]
pub(crate) enum Part {
    /// Fields, the first of them after the id `previous`.
    Fields { previous: i16 },
    Elements { kind: u8, left: usize },
    Entries { key: u8, value: u8, left: usize },
    /// The value of an entry, and then entries.
    EntryValue { key: u8, value: u8, left: usize },
}

/// The value that is next in a part, and what is left of the part after it.
#[derive(Clone, Copy)]
pub(crate) struct Next {
    pub in_list: bool,
    pub kind: u8,
    pub then: Part,
}

/// Passes over a value that holds no other, or the header of one that may.
#[inline(always)]
#[tactic(auto, unfolding(crate::specs::Values::value_within))]
fn begin(bytes: &[u8], in_list: bool, kind: u8) -> Result<(Option<Part>, &[u8]), Unspelled>
    ensures begins { (limit : ℕ) → BeginsValue
        (λ x. (x.0, x.1.now)) result (after (value_within (suc limit) (context_of in_list) kind bytes.now))
        limit }
    ensures ends { IfOk result (λ x. IsEnd bytes.now x.1.now) }
    ensures pays { IfOk result (λ x. PaysBegun in_list x.0 bytes.now x.1.now) }
{
    if kind == TRUE || kind == FALSE {
        if !in_list {
            return Ok((None, bytes));
        }
        return Ok((None, bool_at(bytes)?.1));
    }
    match kind {
        BYTE => Ok((None, i8_at(bytes)?.1)),
        I16 => Ok((None, i16_at(bytes)?.1)),
        I32 => Ok((None, i32_at(bytes)?.1)),
        I64 => Ok((None, i64_at(bytes)?.1)),
        DOUBLE => Ok((None, raw_at(bytes, 8)?.1)),
        BINARY => Ok((None, binary_at(bytes)?.1)),
        LIST | SET => {
            let (header, rest) = list_header_at(bytes)?;
            Ok((
                Some(Part::Elements {
                    kind: header.kind,
                    left: header.count,
                }),
                rest,
            ))
        }
        MAP => {
            let (header, rest) = map_header_at(bytes)?;
            Ok((
                Some(Part::Entries {
                    key: header.key,
                    value: header.value,
                    left: header.count,
                }),
                rest,
            ))
        }
        STRUCT => Ok((Some(Part::Fields { previous: 0 }), bytes)),
        _ => Err(Unspelled),
    }
}

/// A field's value, and the fields after it.
fn field_value(header: FieldHeader) -> Next
    ensures in_list { result.in_list ≡ false }
    ensures kind { result.kind ≡ header.kind }
    ensures then { result.then ≡ Part.Fields header.id }
{
    Next {
        in_list: false,
        kind: header.kind,
        then: Part::Fields {
            previous: header.id,
        },
    }
}

/// The next field's value, or None at the end of the struct.
#[tactic(auto, using(crate::proofs::SkipLemmas::next_field))]
fn next_field(bytes: &[u8], previous: i16) -> Result<(Option<Next>, &[u8]), Unspelled>
    ensures next { (limit : ℕ) → GivesNext
        (λ x. (x.0, x.1.now)) result (Part.Fields previous) bytes.now limit }
    ensures ends { IfOk result (λ x. IsEnd bytes.now x.1.now) }
    ensures pays { IfOk result (λ x. PaysNext (Part.Fields previous) x.0 bytes.now x.1.now) }
{
    let (header, rest) = field_header_at(bytes, previous)?;
    let Some(header) = header else {
        return Ok((None, rest));
    };
    Ok((Some(field_value(header)), rest))
}

/// The value that is next in a part, or None at the part's end.
#[tactic(auto, unfolding(crate::specs::Values::elements, crate::specs::Values::entries, crate::specs::Skipping::after_value))]
fn next_of(bytes: &[u8], part: Part) -> Result<(Option<Next>, &[u8]), Unspelled>
    ensures next { (limit : ℕ) → GivesNext (λ x. (x.0, x.1.now)) result part bytes.now limit }
    ensures ends { IfOk result (λ x. IsEnd bytes.now x.1.now) }
    ensures pays { IfOk result (λ x. PaysNext part x.0 bytes.now x.1.now) }
{
    match part {
        Part::Fields { previous } => next_field(bytes, previous),
        Part::Elements { left: 0, .. } | Part::Entries { left: 0, .. } => Ok((None, bytes)),
        Part::Elements { kind, left } => {
            let then = Part::Elements {
                kind,
                left: left - 1,
            };
            Ok((
                Some(Next {
                    in_list: true,
                    kind,
                    then,
                }),
                bytes,
            ))
        }
        Part::Entries { key, value, left } => {
            let then = Part::EntryValue {
                key,
                value,
                left: left - 1,
            };
            Ok((
                Some(Next {
                    in_list: true,
                    kind: key,
                    then,
                }),
                bytes,
            ))
        }
        Part::EntryValue { key, value, left } => {
            let then = Part::Entries { key, value, left };
            Ok((
                Some(Next {
                    in_list: true,
                    kind: value,
                    then,
                }),
                bytes,
            ))
        }
    }
}

/// The greatest depth of a value that is passed over; the value itself has depth 1.
const DEEPEST: usize = 32;

/// Room for the parts that are open at once, with the first of them.
fn room_for(part: Part) -> [Part; DEEPEST]
    ensures length { length result ≡ most_depth }
    ensures first { slice_get result 0 ≡ Some part }
{
    [part; DEEPEST]
}

/// Passes over a field's value of this kind. Those that are met most come first, so that they need no `Part`.
#[tactic(auto, unfolding(crate::specs::Values::value_within))]
pub(crate) fn skip_at(bytes: &[u8], kind: u8) -> Result<&[u8], Unspelled>
    ensures spelled { Gives (λ x. x.now) result (after (value_within most_depth in_struct kind bytes.now)) }
    ensures ends { IfOk result (λ x. IsEnd bytes.now x.now) }
{
    match kind {
        I64 => Ok(i64_at(bytes)?.1),
        LIST => {
            let (header, rest) = list_header_at(bytes)?;
            Ok(end_of(bytes, skip_elements(rest, header.kind, header.count)?))
        }
        _ => skip_other(bytes, kind),
    }
}

/// The same for any kind.
#[inline(never)]
fn skip_other(bytes: &[u8], kind: u8) -> Result<&[u8], Unspelled>
    ensures spelled { Gives (λ x. x.now) result (after (value_within most_depth in_struct kind bytes.now)) }
    ensures ends { IfOk result (λ x. IsEnd bytes.now x.now) }
{
    let (begun, rest) = begin(bytes, false, kind)?;
    match begun {
        None => Ok(rest),
        Some(part) => skip_part(rest, part),
    }
}

/// Passes over the elements of a list. As long as they hold no other values, they need no room for parts.
#[inline(never)]
fn skip_elements(bytes: &[u8], kind: u8, count: usize) -> Result<&[u8], Unspelled>
    ensures spelled { Gives (λ x. x.now) result (after_part 31 (Part.Elements kind count) bytes.now) }
    ensures ends { IfOk result (λ x. IsEnd bytes.now x.now) }
{
    let mut rest = bytes;
    'elements: for passed in 0..count {
        let (begun, after) = begin(rest, true, kind)?;
        let None = begun else {
            let left = count - passed;
            return skip_part(rest, Part::Elements { kind, left });
        };
        rest = after;
    }
    Ok(rest)
}

/// Passes over the outermost part of a value. It is out of line, so that a value that holds no other needs no room for parts.
#[inline(never)]
fn skip_part(bytes: &[u8], part: Part) -> Result<&[u8], Unspelled>
    ensures spelled { Gives (λ x. x.now) result (after_part 31 part bytes.now) }
    ensures ends { IfOk result (λ x. IsEnd bytes.now x.now) }
{
    let mut rest = bytes;
    let mut parts = room_for(part);
    let mut depth = 1;
    'walk: while depth > 0 {
        let (next, after) = next_of(rest, parts[depth - 1])?;
        let Some(next) = next else {
            rest = after;
            depth -= 1;
            continue;
        };
        if depth == DEEPEST {
            return Err(Unspelled);
        }
        parts[depth - 1] = next.then;
        let (begun, after) = begin(after, next.in_list, next.kind)?;
        rest = after;
        if let Some(part) = begun {
            parts[depth] = part;
            depth += 1;
        }
    }
    Ok(rest)
}
