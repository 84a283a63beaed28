//! The pages of a whole chunk.
ghost use Rattle.std.specs.Prelude.{◌≡◌, IsOk, IfOk, None, true};

use crate::cursor::Cursor;
use crate::found::FoundPage;
use crate::page::{DataPage, DictPage, Page};
use crate::source::Pages;
use columns_core::Error;
use parquet_base::Steps;
use parquet_meta::{ColumnChunkMetaData, PageKind, PrimitiveType};
use std::alloc::Global;
use std::sync::ledger::Ledger;

/// Lends the pages of a chunk, a dictionary page first, until the data pages hold all values. What stands behind them is not looked at.
#[derive(Drop)]
pub struct PageReader {
    type_: PrimitiveType,
    cursor: Cursor,
    lent: usize,
}

impl PageReader {
    ghost use Rattle.parquet_page.specs.Content.{content};
    ghost use Rattle.parquet_page.specs.Found.{IsInside, found_content};
    ghost use Rattle.parquet_page.specs.Lending.{AreOfType, has_data_behind};
    ghost use Rattle.parquet_page.specs.Lent.{chunk_lent};
    ghost use Rattle.parquet_page.specs.Reader.{reader_count, reader_given, reader_lent, reader_pages, reader_rows};

    /// Over the bytes of a column's chunk. Takes no memory.
    pub fn new(alloc: Global, buffer: Vec<u8>, column: &ColumnChunkMetaData) -> Result<Self, Error>
        ensures ok { IsOk result }
        ensures lends { IfOk result (λ reader.
            reader_lent reader ≡ chunk_lent column.now.descriptor.primitive_type column.now.num_values
            buffer.items) }
        ensures typed { IfOk result (λ r. AreOfType column.now.descriptor.primitive_type (reader_pages r)) }
        ensures ordered { IfOk result (λ r. has_data_behind (reader_pages r) ≡ true) }
        ensures rows { IfOk result (λ reader. reader_rows reader ≡ column.now.num_values) }
        ensures given { IfOk result (λ reader. reader_given reader ≡ 0) }
        ensures lent { IfOk result (λ reader. reader_count reader ≡ 0) }
    {
        Ok(PageReader {
            type_: column.descriptor.primitive_type,
            cursor: Cursor::new(buffer, column.num_values as usize),
            lent: 0,
        })
    }

    /// The page that stands at a place.
    fn page_in(&self, found: FoundPage) -> Page<'_>
        requires { IsInside self.now.cursor.chunk.items found }
        ensures { content result ≡ found_content self.now.type_ None self.now.cursor.chunk.items found }
    {
        let buffer = self.cursor.bytes(found.body, found.end);
        match found.kind {
            PageKind::Data(header) => Page::Data(DataPage {
                header,
                buffer,
                type_: &self.type_,
                selected_rows: None,
            }),
            PageKind::Dictionary { num_values, .. } => Page::Dict(DictPage { buffer, num_values }),
        }
    }
}

impl Pages for PageReader {
    ghost use Rattle.std.specs.Prelude.{◌≡◌, None};
    ghost use Rattle.parquet_page.specs.Reader.{reader_causes, reader_count, reader_given, reader_pages, reader_rows};

    ghost to_come = { reader_pages };

    ghost causes = { reader_causes };

    ghost row_count = { reader_rows };

    ghost given_rows = { reader_given };

    ghost lent_count = { reader_count };

    fn next<L: Ledger>(&mut self, steps: &mut Steps<L>) -> Result<Option<Page<'_>>, Error> {
        let Some(found) = self.cursor.next()? else {
            return Ok(None);
        };
        self.lent = self.lent.saturating_add(1);
        steps.tick();
        Ok(Some(self.page_in(found)))
    }

    fn rows(&self) -> usize {
        self.cursor.count()
    }

    fn lent(&self) -> usize {
        self.lent
    }
}
