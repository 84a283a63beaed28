//! A place in a chunk.
ghost use Rattle.std.specs.Prelude.{◌≡◌, ◌<◌, ◌≤◌, slice_range, vec_len, IfOk, IfSome, IsTrue, None};
ghost use Rattle.parquet_page.specs.Found.{IsInside, found_content};
ghost use Rattle.parquet_page.specs.Taking.{OpensPage, Walks};
ghost use Rattle.parquet_meta.specs.declared.metadata.PrimitiveType.{PrimitiveType};

use crate::found::{FoundPage, find_page, has_readable_entries, value_count};
use columns_core::{Error, Part};
use parquet_meta::PageKind;

/// Walks the pages of a chunk until they hold so many values.
#[derive(Drop)]
pub(crate) struct Cursor {
    chunk: Vec<u8>,
    /// Where the next page begins.
    place: usize,
    /// How many values the pages hold in all.
    count: usize,
    /// How many of them are still to come.
    left: usize,
    /// Whether a dictionary page may stand here.
    is_first: bool,
    ghost within: { place ≤ vec_len chunk },
    ghost fewer: { left ≤ count },
}

impl Cursor {
    ghost use Rattle.parquet_page.specs.Cursor.{cursor_given, cursor_lent};

    /// Before the first page.
    pub(crate) fn new(chunk: Vec<u8>, count: usize) -> Self
        ensures chunk { result.chunk ≡ chunk }
        ensures place { result.place ≡ 0 }
        ensures count { result.count ≡ count }
        ensures left { result.left ≡ count }
        ensures first { IsTrue result.is_first }
    {
        Cursor {
            chunk,
            place: 0,
            count,
            left: count,
            is_first: true,
        }
    }

    /// The next page. Behind the last one and after an error there is none.
    pub(crate) fn next(&mut self) -> Result<Option<FoundPage>, Error>
        ensures walks { (type : PrimitiveType)
            → Walks (found_content type None self.old.chunk.items) result (cursor_lent type self.old)
            (cursor_lent type self.new) (cursor_given self.old) (cursor_given self.new) }
        ensures chunk { self.new.chunk.items ≡ self.old.chunk.items }
        ensures count { self.new.count ≡ self.old.count }
        ensures inside { IfOk result (λ found. IfSome found (IsInside self.old.chunk.items)) }
    {
        if self.left == 0 {
            return Ok(None);
        }
        match self.open() {
            Ok(found) => Ok(Some(found)),
            Err(error) => {
                self.left = 0;
                Err(error)
            }
        }
    }

    /// The next page, where values are still to come.
    fn open(&mut self) -> Result<FoundPage, Error>
        requires { 0 < self.old.left }
        ensures opens { (type : PrimitiveType)
            → OpensPage (found_content type None self.old.chunk.items) result (cursor_lent type self.old)
            (cursor_lent type self.new) (cursor_given self.old) (cursor_given self.new) }
        ensures chunk { self.new.chunk.items ≡ self.old.chunk.items }
        ensures count { self.new.count ≡ self.old.count }
        ensures inside { IfOk result (IsInside self.old.chunk.items) }
    {
        let Some(found) = find_page(self.chunk.as_slice(), self.place) else {
            let part = if self.place == self.chunk.len() {
                Part::Chunk
            } else {
                Part::Header
            };
            return Err(Error::ExternalFormat(part));
        };
        let left = match found.kind {
            PageKind::Dictionary { .. } => {
                if !self.is_first {
                    return Err(Error::ExternalFormat(Part::Dictionary));
                }
                if !has_readable_entries(&found.kind) {
                    return Err(Error::NotYetImplemented(Part::Dictionary));
                }
                self.left
            }
            PageKind::Data(header) => {
                let count = value_count(&header);
                if count > self.left {
                    return Err(Error::ExternalFormat(Part::Header));
                }
                self.left - count
            }
        };
        self.left = left;
        self.place = found.end;
        self.is_first = false;
        Ok(found)
    }

    /// How many values the pages hold in all.
    pub(crate) fn count(&self) -> usize
        ensures { result ≡ self.now.count }
    {
        self.count
    }

    /// The bytes between two places.
    pub(crate) fn bytes(&self, start: usize, end: usize) -> &[u8]
        requires order { start ≤ end }
        requires within { end ≤ vec_len self.now.chunk }
        ensures { result.now ≡ slice_range self.now.chunk.items start end }
    {
        &self.chunk[start..end]
    }
}
