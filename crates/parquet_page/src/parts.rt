//! Parts of a chunk that hold one page each.
ghost use Rattle.std.specs.Prelude.{◌≡◌, ◌<◌, length, MatchOption, None, true};
ghost use Rattle.parquet_page.specs.Lent.{Lent, wanted_page};
ghost use Rattle.parquet_page.specs.Parts.{Fills, FindsDictionary, entry_at, hold, wanted_part, part_before as part_before_by};

use crate::found::{FoundPage, find_page, has_readable_entries, value_count};
use crate::page::FilteredPage;
use columns_core::{Error, Part};
use parquet_meta::PageKind;

/// The bytes of located pages.
#[derive(Drop)]
pub(crate) enum Parts {
    /// A whole chunk. The part before the first page ends at `first`.
    Chunk {
        bytes: Vec<u8>,
        first: usize,
    },
    /// The part before the first page, and a body for each wanted page.
    Bodies {
        before: Vec<u8>,
        bodies: Vec<Vec<u8>>,
    },
}

impl Parts {
    /// The part before the first page.
    pub(crate) fn part_before(&self, entries: &[FilteredPage]) -> &[u8]
        requires parts { hold self.now entries.now ≡ true }
        requires some { 0 < length entries.now }
        ensures { result.now ≡ part_before_by self.now }
    {
        match self {
            Parts::Chunk { bytes, first } => &bytes[..*first],
            Parts::Bodies { before, .. } => before.as_slice(),
        }
    }

    /// The part of a wanted page.
    pub(crate) fn part_of(&self, entries: &[FilteredPage], k: usize) -> &[u8]
        requires parts { hold self.now entries.now ≡ true }
        requires within { k < length entries.now }
        ensures { result.now ≡ wanted_part self.now k (entry_at entries.now k) }
    {
        match self {
            Parts::Chunk { bytes, .. } => {
                let entry = &entries[k];
                &bytes[entry.start as usize..entry.start as usize + entry.length]
            }
            Parts::Bodies { bodies, .. } => bodies[k].as_slice(),
        }
    }
}

/// The page of an entry, where it fills its part.
pub(crate) fn find_wanted(part: &[u8], entry: &FilteredPage) -> Option<FoundPage>
    ensures { MatchOption result (wanted_page entry.now part.now ≡ None) (Fills entry.now part.now) }
{
    if part.len() != entry.length {
        return None;
    }
    let found = find_page(part, 0)?;
    match found.kind {
        PageKind::Data(header) => {
            if found.end != part.len() {
                return None;
            }
            if value_count(&header) != entry.num_rows {
                return None;
            }
            Some(found)
        }
        PageKind::Dictionary { .. } => None,
    }
}

/// The dictionary page that begins a part, where the part is not empty.
pub(crate) fn find_dictionary(part: &[u8]) -> Result<Option<FoundPage>, Error>
    ensures { (others : Lent) → FindsDictionary part.now others result }
{
    if part.is_empty() {
        return Ok(None);
    }
    let Some(found) = find_page(part, 0) else {
        return Err(Error::ExternalFormat(Part::Dictionary));
    };
    if let PageKind::Data(_) = found.kind {
        return Err(Error::ExternalFormat(Part::Dictionary));
    }
    if !has_readable_entries(&found.kind) {
        return Err(Error::NotYetImplemented(Part::Dictionary));
    }
    Ok(Some(found))
}
