//! The pages of a chunk that locations name.
ghost use Rattle.std.specs.Prelude.{◌≡◌, ◌&&◌, length, map, option_map, true, IfOk, IfErr, Some};
ghost use Rattle.parquet_base.specs.Reading.{given};
ghost use Rattle.parquet_page.specs.Lent.{are_well_shaped, has_parts, lie_within as lie_within_by, located_chunk, located_parts, selected_count};
ghost use Rattle.columns_core.specs.Causes.{IsWantOfMemory};
ghost use Rattle.columns_core.specs.Refusals.{Refuses};

use crate::entries::{count_selected, count_wanted, first_start, lie_within, wanted};
use crate::located::{Located, LocatedPage};
use crate::page::{DataPage, DictPage, FilteredPage, Page};
use crate::parts::Parts;
use crate::source::Pages;
use columns_core::{Error, Part};
use parquet_base::Steps;
use parquet_meta::{ColumnChunkMetaData, PageKind, PrimitiveType};
use std::alloc::Global;
use std::sync::ledger::Ledger;

/// Lends the dictionary page, where some page has selected rows, and then each page that has some, with them.
#[derive(Drop)]
pub struct IndexedPageReader {
    type_: PrimitiveType,
    located: Located,
    lent: usize,
}

impl IndexedPageReader {
    ghost use Rattle.parquet_page.specs.Content.{content};
    ghost use Rattle.parquet_page.specs.Indexed.{indexed_count, indexed_given, indexed_lent, indexed_pages, indexed_rows};
    ghost use Rattle.parquet_page.specs.Lending.{AreOfType, has_data_behind};
    ghost use Rattle.parquet_page.specs.LocatedLeft.{IsLocated, located_content};

    /// Over the bytes of a column's chunk. Starts of pages count from the chunk's start. Takes no memory.
    pub fn new(
        alloc: Global,
        buffer: Vec<u8>,
        column: &ColumnChunkMetaData,
        pages: Vec<FilteredPage>,
    ) -> Result<Self, Error>
        ensures shaped { IfOk result (λ _. are_well_shaped pages.items ≡ true) }
        ensures lies { IfOk result (λ _. lie_within_by (length buffer.items) pages.items ≡ true) }
        ensures lends { IfOk result (λ reader.
            indexed_lent reader ≡ located_chunk column.now.descriptor.primitive_type buffer.items
            pages.items) }
        ensures typed { IfOk result (λ r. AreOfType column.now.descriptor.primitive_type (indexed_pages r)) }
        ensures ordered { IfOk result (λ r. has_data_behind (indexed_pages r) ≡ true) }
        ensures rows { IfOk result (λ reader. indexed_rows reader ≡ selected_count pages.items) }
        ensures given { IfOk result (λ reader. indexed_given reader ≡ 0) }
        ensures lent { IfOk result (λ reader. indexed_count reader ≡ 0) }
        ensures refusal { IfErr result
            (Refuses (are_well_shaped pages.items)
            (given (lie_within_by (length buffer.items) pages.items) pages.items)) }
        ensures no_memory { IfErr result (λ e. IsWantOfMemory e → ⊥) }
    {
        let Some(count) = count_selected(&pages) else {
            return Err(Error::InvalidArgumentError(Part::Request));
        };
        if !lie_within(buffer.len(), &pages) {
            return Err(Error::ExternalFormat(Part::Location));
        }
        let parts = Parts::Chunk {
            bytes: buffer,
            first: first_start(&pages) as usize,
        };
        Ok(IndexedPageReader {
            type_: column.descriptor.primitive_type,
            located: Located::new(parts, wanted(pages), count),
            lent: 0,
        })
    }

    /// Over the part before the first page, and the header and body of each page with selected rows. Takes no memory.
    pub fn from_ranges(
        alloc: Global,
        dictionary: Option<Vec<u8>>,
        bodies: Vec<Vec<u8>>,
        column: &ColumnChunkMetaData,
        pages: Vec<FilteredPage>,
    ) -> Result<Self, Error>
        ensures shaped { IfOk result (λ _. are_well_shaped pages.items ≡ true) }
        ensures all { IfOk result (λ _.
            has_parts pages.items (map (λ body. body.items) bodies.items) ≡ true) }
        ensures lends { IfOk result (λ reader.
            indexed_lent reader ≡ located_parts column.now.descriptor.primitive_type
            (option_map (λ part. part.items) dictionary) pages.items
            (map (λ body. body.items) bodies.items)) }
        ensures typed { IfOk result (λ r. AreOfType column.now.descriptor.primitive_type (indexed_pages r)) }
        ensures ordered { IfOk result (λ r. has_data_behind (indexed_pages r) ≡ true) }
        ensures rows { IfOk result (λ reader. indexed_rows reader ≡ selected_count pages.items) }
        ensures given { IfOk result (λ reader. indexed_given reader ≡ 0) }
        ensures lent { IfOk result (λ reader. indexed_count reader ≡ 0) }
        ensures refusal { IfErr result
            (Refuses (are_well_shaped pages.items
            && has_parts pages.items (map (λ body. body.items) bodies.items)) (Some pages.items)) }
        ensures no_memory { IfErr result (λ e. IsWantOfMemory e → ⊥) }
    {
        let Some(count) = count_selected(&pages) else {
            return Err(Error::InvalidArgumentError(Part::Request));
        };
        if bodies.len() != count_wanted(&pages) {
            return Err(Error::InvalidArgumentError(Part::Request));
        }
        let parts = Parts::Bodies {
            before: dictionary.unwrap_or(Vec::new(alloc)),
            bodies,
        };
        Ok(IndexedPageReader {
            type_: column.descriptor.primitive_type,
            located: Located::new(parts, wanted(pages), count),
            lent: 0,
        })
    }

    /// The page that was found.
    fn page_in(&self, page: LocatedPage) -> Page<'_>
        requires { IsLocated self.now.located.parts self.now.located.entries.items page }
        ensures { content result ≡ located_content self.now.type_ self.now.located.parts
            self.now.located.entries.items page }
    {
        let buffer = self.located.body(&page);
        match page.found.kind {
            PageKind::Data(header) => Page::Data(DataPage {
                header,
                buffer,
                type_: &self.type_,
                selected_rows: Some(self.located.selected_rows(page.entry)),
            }),
            PageKind::Dictionary { num_values, .. } => Page::Dict(DictPage { buffer, num_values }),
        }
    }
}

impl Pages for IndexedPageReader {
    ghost use Rattle.std.specs.Prelude.{◌≡◌, None};
    ghost use Rattle.parquet_page.specs.Indexed.{indexed_causes, indexed_count, indexed_given, indexed_pages, indexed_rows};

    ghost to_come = { indexed_pages };

    ghost causes = { indexed_causes };

    ghost row_count = { indexed_rows };

    ghost given_rows = { indexed_given };

    ghost lent_count = { indexed_count };

    fn next<L: Ledger>(&mut self, steps: &mut Steps<L>) -> Result<Option<Page<'_>>, Error> {
        let Some(page) = self.located.next()? else {
            return Ok(None);
        };
        self.lent = self.lent.saturating_add(1);
        steps.tick();
        Ok(Some(self.page_in(page)))
    }

    fn rows(&self) -> usize {
        self.located.count()
    }

    fn lent(&self) -> usize {
        self.lent
    }
}
