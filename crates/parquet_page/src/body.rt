//! The parts of a page's body.
ghost use Rattle.std.specs.Prelude.{◌≡◌, IfOk, IfErr, Some, None, option_map};
ghost use Rattle.columns_core.specs.Causes.{ExternalFormat, cause_of};
ghost use Rattle.parquet_encoding.specs.Plain.{first_string};
ghost use Rattle.parquet_page.specs.Levels.{body_of, body_parts, parts_of_lengths, prefixed_parts};

use crate::page::DataPage;
use columns_core::{Error, Part};
use parquet_meta::{DataPageHeader, Repetition};

/// The number of bytes in which the length of levels stands.
const LENGTH_BYTES: usize = 4;

/// Repetition levels, definition levels and values. Levels that a page does not have are empty.
pub fn split_buffer<'a>(page: &DataPage<'a>) -> Result<(&'a [u8], &'a [u8], &'a [u8]), Error>
    ensures parts { IfOk result (λ parts.
        body_parts page.now.type_.now.repetition page.now.header page.now.buffer.now
        ≡ Some (body_of parts.0.now parts.1.now parts.2.now)) }
    ensures refusal { IfErr result
        (λ error. (cause_of error ≡ Some ExternalFormat)
        × (body_parts page.now.type_.now.repetition page.now.header page.now.buffer.now ≡ None)) }
{
    let parts = match page.header {
        DataPageHeader::V1 { .. } => split_prefixed(page.type_.repetition, page.buffer),
        DataPageHeader::V2 {
            definition_length,
            repetition_length,
            ..
        } => split_at_lengths(page.buffer, repetition_length, definition_length),
    };
    parts.ok_or(Error::ExternalFormat(Part::Levels))
}

/// Levels behind their lengths.
fn split_prefixed(repetition: Repetition, body: &[u8]) -> Option<(&[u8], &[u8], &[u8])>
    ensures { option_map (λ parts. body_of parts.0.now parts.1.now parts.2.now) result
        ≡ prefixed_parts repetition body.now }
{
    let (empty, _) = body.split_at(0);
    match repetition {
        Repetition::Required => Some((empty, empty, body)),
        Repetition::Optional => {
            let (definition, values) = levels_at(body)?;
            Some((empty, definition, values))
        }
        Repetition::Repeated => {
            let (repetition, rest) = levels_at(body)?;
            let (definition, values) = levels_at(rest)?;
            Some((repetition, definition, values))
        }
    }
}

/// The levels at the front, behind their length, and the bytes after them.
fn levels_at(bytes: &[u8]) -> Option<(&[u8], &[u8])>
    ensures { option_map (λ found. (found.0.now, found.1.now)) result ≡ first_string bytes.now }
{
    let (length, rest) = bytes.split_first_chunk::<LENGTH_BYTES>()?;
    let length = u32::from_le_bytes(*length) as usize;
    if length > rest.len() {
        return None;
    }
    Some(rest.split_at(length))
}

/// Levels of these lengths.
fn split_at_lengths(
    body: &[u8],
    repetition: usize,
    definition: usize,
) -> Option<(&[u8], &[u8], &[u8])>
    ensures { option_map (λ parts. body_of parts.0.now parts.1.now parts.2.now) result
        ≡ parts_of_lengths repetition definition body.now }
{
    if repetition > body.len() {
        return None;
    }
    let (repetition_levels, rest) = body.split_at(repetition);
    if definition > rest.len() {
        return None;
    }
    let (definition_levels, values) = rest.split_at(definition);
    Some((repetition_levels, definition_levels, values))
}
