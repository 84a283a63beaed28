//! Headers of fields, lists and maps.

ghost use Rattle.std.specs.Prelude.{◌≡◌, ◌<◌, length, IfOk, option_map};
ghost use Rattle.parquet_base.specs.Reading.{Gives, IsEnd};
ghost use Rattle.parquet_thrift.specs.Values.{field_header, list_header, map_header, is_kind};

use crate::number::{i16_at, unsigned_at};
use crate::{STRUCT, TRUE};
use parquet_base::Unspelled;

/// A field's id and the kind of its value.
#[derive(Clone, Copy, Debug, PartialEq, Eq)]
pub struct FieldHeader {
    pub id: i16,
    pub kind: u8,
}

/// How many elements a list or set has, and their kind.
#[derive(Clone, Copy, Debug, PartialEq, Eq)]
pub struct ListHeader {
    pub count: usize,
    pub kind: u8,
}

/// How many entries a map has, and the kinds of their keys and values.
#[derive(Clone, Copy)]
pub(crate) struct MapHeader {
    pub count: usize,
    pub key: u8,
    pub value: u8,
}

pub(crate) fn is_a_kind(kind: u8) -> bool
    ensures { result ≡ is_kind kind }
{
    TRUE <= kind && kind <= STRUCT
}

/// The next field's header after the id `previous`, or None at the end of the struct.
#[inline(always)]
#[tactic(auto, unfolding(crate::specs::Values::field_header))]
pub(crate) fn field_header_at(
    bytes: &[u8],
    previous: i16,
) -> Result<(Option<FieldHeader>, &[u8]), Unspelled>
    ensures spelled { Gives (λ x. (option_map (λ h. (h.id, h.kind)) x.0, x.1.now)) result
        (field_header previous bytes.now) }
    ensures ends { IfOk result (λ x. IsEnd bytes.now x.1.now) }
    ensures takes { IfOk result (λ x. length x.1.now < length bytes.now) }
{
    let Some((byte, rest)) = bytes.split_first() else {
        return Err(Unspelled);
    };
    if *byte == 0 {
        return Ok((None, rest));
    }
    let kind = *byte % 16;
    if !is_a_kind(kind) {
        return Err(Unspelled);
    }
    let step = *byte / 16;
    if step == 0 {
        let (id, rest) = i16_at(rest)?;
        return Ok((Some(FieldHeader { id, kind }), rest));
    }
    match previous.checked_add(i16::from(step)) {
        Some(id) => Ok((Some(FieldHeader { id, kind }), rest)),
        None => Err(Unspelled),
    }
}

/// The header of a list or set.
#[tactic(auto, unfolding(crate::specs::Values::list_header))]
pub(crate) fn list_header_at(bytes: &[u8]) -> Result<(ListHeader, &[u8]), Unspelled>
    ensures spelled { Gives (λ x. ((x.0.count, x.0.kind), x.1.now)) result (list_header bytes.now) }
    ensures ends { IfOk result (λ x. IsEnd bytes.now x.1.now) }
    ensures takes { IfOk result (λ x. length x.1.now < length bytes.now) }
{
    let Some((byte, rest)) = bytes.split_first() else {
        return Err(Unspelled);
    };
    let kind = *byte % 16;
    let (count, rest) = match *byte / 16 {
        15 => unsigned_at(rest)?,
        count => (u64::from(count), rest),
    };
    if count > 0 && !is_a_kind(kind) {
        return Err(Unspelled);
    }
    Ok((
        ListHeader {
            count: count as usize,
            kind,
        },
        rest,
    ))
}

/// The header of a map.
#[tactic(auto, unfolding(crate::specs::Values::map_header), using(parquet_base::proofs::EndLemmas::IsEnd_behind))]
pub(crate) fn map_header_at(bytes: &[u8]) -> Result<(MapHeader, &[u8]), Unspelled>
    ensures spelled { Gives (λ x. ((x.0.count, x.0.key, x.0.value), x.1.now)) result (map_header bytes.now) }
    ensures ends { IfOk result (λ x. IsEnd bytes.now x.1.now) }
    ensures takes { IfOk result (λ x. length x.1.now < length bytes.now) }
{
    let (count, rest) = unsigned_at(bytes)?;
    if count == 0 {
        return Ok((
            MapHeader {
                count: 0,
                key: 0,
                value: 0,
            },
            rest,
        ));
    }
    let Some((byte, rest)) = rest.split_first() else {
        return Err(Unspelled);
    };
    let (key, value) = (*byte / 16, *byte % 16);
    if !is_a_kind(key) || !is_a_kind(value) {
        return Err(Unspelled);
    }
    Ok((
        MapHeader {
            count: count as usize,
            key,
            value,
        },
        rest,
    ))
}
