//! Located pages one after another.
ghost use Rattle.std.specs.Prelude.{◌≡◌, ◌<◌, ◌≤◌, length, slice_range, true, IfOk, IfSome, IsTrue};
ghost use Rattle.parquet_meta.specs.declared.metadata.PrimitiveType.{PrimitiveType};
ghost use Rattle.parquet_page.specs.Lent.{selected_count};
ghost use Rattle.parquet_page.specs.Parts.{are_shaped, entry_at, hold};

use crate::found::FoundPage;
use crate::page::FilteredPage;
use crate::parts::{Parts, find_dictionary, find_wanted};
use columns_core::{Error, Part};
use parquet_base::Interval;
use parquet_meta::PageKind;

/// A page: a data page of the entry with this number, or the dictionary page before all of them.
#[derive(Clone, Copy)]
pub(crate) struct LocatedPage {
    pub(crate) found: FoundPage,
    pub(crate) entry: usize,
}

/// The wanted pages and their parts.
#[derive(Drop)]
pub(crate) struct Located {
    parts: Parts,
    entries: Vec<FilteredPage>,
    /// The number of the next page.
    next: usize,
    /// Whether the dictionary stands before it.
    is_first: bool,
    /// The selected rows of all pages.
    count: usize,
    ghost held: { hold parts entries.items ≡ true },
    ghost shaped: { are_shaped entries.items ≡ true },
    ghost sum: { count ≡ selected_count entries.items },
    ghost within: { next ≤ length entries.items },
}

impl Located {
    ghost use Rattle.parquet_page.specs.LocatedLeft.{FindsData, FindsFirst, IsLocated, located_page_bytes, located_content, located_given, located_left};
    ghost use Rattle.parquet_page.specs.Taking.{OpensPage, Walks};

    /// Before the first page.
    pub(crate) fn new(parts: Parts, entries: Vec<FilteredPage>, count: usize) -> Self
        requires held { hold parts entries.items ≡ true }
        requires shaped { are_shaped entries.items ≡ true }
        requires sum { count ≡ selected_count entries.items }
        ensures parts { result.parts ≡ parts }
        ensures entries { result.entries ≡ entries }
        ensures next { result.next ≡ 0 }
        ensures first { IsTrue result.is_first }
        ensures count { result.count ≡ count }
    {
        Located {
            parts,
            entries,
            next: 0,
            is_first: true,
            count,
        }
    }

    /// The next page. Behind the last one and after an error there is none.
    pub(crate) fn next(&mut self) -> Result<Option<LocatedPage>, Error>
        ensures walks { (type : PrimitiveType)
            → Walks (located_content type self.old.parts self.old.entries.items) result
            (located_left type self.old) (located_left type self.new) (located_given self.old)
            (located_given self.new) }
        ensures parts { self.new.parts ≡ self.old.parts }
        ensures entries { self.new.entries.items ≡ self.old.entries.items }
        ensures count { self.new.count ≡ self.old.count }
        ensures there { IfOk result (λ found.
            IfSome found (IsLocated self.old.parts self.old.entries.items)) }
    {
        if self.next == self.entries.len() {
            return Ok(None);
        }
        match self.open() {
            Ok(found) => Ok(Some(found)),
            Err(error) => {
                self.next = self.entries.len();
                Err(error)
            }
        }
    }

    /// The next page, where one is still wanted.
    fn open(&mut self) -> Result<LocatedPage, Error>
        requires { self.old.next < length self.old.entries.items }
        ensures opens { (type : PrimitiveType)
            → OpensPage (located_content type self.old.parts self.old.entries.items) result
            (located_left type self.old) (located_left type self.new) (located_given self.old)
            (located_given self.new) }
        ensures parts { self.new.parts ≡ self.old.parts }
        ensures entries { self.new.entries.items ≡ self.old.entries.items }
        ensures count { self.new.count ≡ self.old.count }
        ensures there { IfOk result (IsLocated self.old.parts self.old.entries.items) }
    {
        let entry = self.next;
        if let Some(found) = self.find_first()? {
            self.is_first = false;
            return Ok(LocatedPage { found, entry });
        }
        let Some(found) = self.find_data(entry) else {
            return Err(Error::ExternalFormat(Part::Location));
        };
        self.is_first = false;
        self.next = entry + 1;
        Ok(LocatedPage { found, entry })
    }

    /// The dictionary page, if it is still to come.
    fn find_first(&self) -> Result<Option<FoundPage>, Error>
        requires { self.now.next < length self.now.entries.items }
        ensures { (type : PrimitiveType) → FindsFirst type self.now result }
    {
        if self.is_first {
            find_dictionary(self.parts.part_before(self.entries.as_slice()))
        } else {
            Ok(None)
        }
    }

    /// The page of an entry.
    fn find_data(&self, entry: usize) -> Option<FoundPage>
        requires { entry < length self.now.entries.items }
        ensures { FindsData self.now entry result }
    {
        let entries = self.entries.as_slice();
        find_wanted(self.parts.part_of(entries, entry), &entries[entry])
    }

    /// The body of a page.
    pub(crate) fn body(&self, page: &LocatedPage) -> &[u8]
        requires { IsLocated self.now.parts self.now.entries.items page.now }
        ensures { result.now ≡ slice_range
            (located_page_bytes self.now.parts self.now.entries.items page.now)
            page.now.found.body page.now.found.end }
    {
        let part = match page.found.kind {
            PageKind::Data(_) => self.parts.part_of(self.entries.as_slice(), page.entry),
            PageKind::Dictionary { .. } => self.parts.part_before(self.entries.as_slice()),
        };
        &part[page.found.body..page.found.end]
    }

    /// The selected rows of an entry.
    pub(crate) fn selected_rows(&self, entry: usize) -> &[Interval]
        requires { entry < length self.now.entries.items }
        ensures { result.now ≡ (entry_at self.now.entries.items entry).selected_rows }
    {
        self.entries[entry].selected_rows.as_slice()
    }

    /// The selected rows of all pages.
    pub(crate) fn count(&self) -> usize
        ensures { result ≡ self.now.count }
    {
        self.count
    }
}
