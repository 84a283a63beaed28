//! The items of a command line: fields, and ends of bounds.
ghost use Rattle.std.specs.Prelude.{◌≡◌, ◌+◌, ◌<◌, ◌≤◌, ◌∷◌, ℕ, None, List, length, map, take, drop, option_map, if◌then◌else◌, slice_index, IfOk, IfSome};
ghost use Rattle.scan_program.specs.Parsed.{as_item, as_written, items_behind, split_at, split_items};
ghost use Rattle.scan_program.specs.Words as spec;

use columns_core::{Field, Name};
use pq_common::data_type;
use std::alloc::{AllocError, Global};

/// One end of a bound, as it is written.
#[derive(Clone, Copy)]
pub(crate) struct End<'a> {
    pub(crate) name: &'a str,
    pub(crate) is_low: bool,
    pub(crate) value: &'a str,
}

/// What a text asks for.
#[derive(Drop)]
pub(crate) enum Item<'a> {
    Column(Field),
    End(End<'a>),
}

/// The items of a command line, of each kind in its order.
#[derive(Drop)]
pub(crate) struct Items<'a> {
    pub(crate) fields: Vec<Field>,
    pub(crate) ends: Vec<End<'a>>,
}

/// The items that texts spell; `None` where one of them spells none.
pub(crate) fn items_of<'a>(
    alloc: Global,
    texts: &[&'a str],
) -> Result<Option<Items<'a>>, AllocError>
    ensures { IfOk result (λ items. option_map (λ items. (
      items.fields.items,
      map as_written
          items.ends.items,
    )) items
        ≡ split_items (map (λ text. text.now) texts.now)) }
{
    let mut items = Items {
        fields: Vec::new(alloc),
        ends: Vec::new(alloc),
    };
    for text in texts {
        if !push_item(alloc, &mut items, *text)? {
            return Ok(None);
        }
    }
    Ok(Some(items))
}

/// Adds the item of a text; `false` where it spells none.
fn push_item<'a>(alloc: Global, items: &mut Items<'a>, text: &'a str) -> Result<bool, AllocError>
    ensures { IfOk result (λ good. (texts : List (List ℕ)) →
        items_behind items.old.fields.items (map as_written items.old.ends.items) (text.entry.now ∷ texts)
        ≡ (if good then items_behind items.new.fields.items (map as_written items.new.ends.items) texts
        else None)) }
{
    match item_of(alloc, text)? {
        None => return Ok(false),
        Some(Item::Column(field)) => items.fields.push(field)?,
        Some(Item::End(end)) => items.ends.push(end)?,
    }
    Ok(true)
}

/// The item that a text spells.
fn item_of<'a>(alloc: Global, text: &'a str) -> Result<Option<Item<'a>>, AllocError>
    ensures { IfOk result (λ item. option_map as_item item ≡ spec.item_of text.entry.now) }
{
    match split_bound(text) {
        Some(end) => Ok(Some(Item::End(end))),
        None => match field_of(alloc, text)? {
            Some(field) => Ok(Some(Item::Column(field))),
            None => Ok(None),
        },
    }
}

/// The field that a text asks for: a name that is not empty, and a type.
fn field_of(alloc: Global, text: &str) -> Result<Option<Field>, AllocError>
    ensures { IfOk result (λ field. field ≡ spec.field_of_text text.now) }
{
    match split_field(text) {
        Some((name, data_type)) if !name.is_empty() => named_field(alloc, name, data_type),
        _ => Ok(None),
    }
}

/// A nullable field of this name and the type that a text spells.
fn named_field(alloc: Global, name: &str, type_text: &str) -> Result<Option<Field>, AllocError>
    ensures { IfOk result (λ field. field ≡ spec.typed_field name.now type_text.now) }
{
    let Some(data_type) = data_type(alloc, type_text)? else {
        return Ok(None);
    };
    Ok(Some(Field {
        name: Name::new(String::from_str(alloc, name)?),
        data_type,
        is_nullable: true,
    }))
}

/// The texts before and after the last colon.
fn split_field(text: &str) -> Option<(&str, &str)>
    ensures { option_map (λ parts. (parts.0.now, parts.1.now)) result ≡ spec.split_field text.now }
{
    let at = last_colon(text.as_bytes())?;
    Some((&text[..at], &text[at + 1..]))
}

/// The place of the last colon.
fn last_colon(text: &[u8]) -> Option<usize>
    ensures parts { option_map (λ at. (take at text.now, drop (at + 1) text.now)) result
        ≡ spec.split_field text.now }
    ensures colon { IfSome result (λ at. (at < length text.now) × (slice_index text.now at ≡ 58)) }
{
    let mut rest = text.len();
    while rest > 0 {
        rest -= 1;
        if text[rest] == b':' {
            return Some(rest);
        }
    }
    None
}

/// The parts of a text that holds `>=` or `<=`, split at the first of either.
fn split_bound(text: &str) -> Option<End<'_>>
    ensures { option_map as_written result ≡ spec.split_bound text.now }
{
    let (at, is_low) = first_sign(text.as_bytes())?;
    Some(End {
        name: &text[..at],
        is_low,
        value: &text[at + 2..],
    })
}

/// The place of the first `>=` or `<=`, and whether it is the former.
fn first_sign(text: &[u8]) -> Option<(usize, bool)>
    ensures parts { option_map (λ found. split_at found.0 found.1 text.now) result
        ≡ spec.split_bound text.now }
    ensures sign { IfSome result (λ found. (found.0 + 1 < length text.now)
        × (slice_index text.now found.0 < 128) × (slice_index text.now (found.0 + 1) < 128)) }
{
    for at in 0..text.len() {
        if let Some(is_low) = end_sign(&text[at..]) {
            return Some((at, is_low));
        }
    }
    None
}

/// Whether a text begins with `>=`, before a low end, or with `<=`, before a high one.
fn end_sign(text: &[u8]) -> Option<bool>
    ensures sign { result ≡ spec.end_sign text.now }
    ensures two { IfSome result (λ _. (2 ≤ length text.now) × (slice_index text.now 0 < 128)
        × (slice_index text.now 1 < 128)) }
{
    if text.starts_with(b">=") {
        Some(true)
    } else if text.starts_with(b"<=") {
        Some(false)
    } else {
        None
    }
}
