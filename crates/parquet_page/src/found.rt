//! Pages as places in bytes.
ghost use Rattle.std.specs.Prelude.{◌≡◌, ◌≤◌, length, drop, MatchOption, None};
ghost use Rattle.parquet_page.specs.Chunk.{page_at};
ghost use Rattle.parquet_page.specs.Content.{header_values};
ghost use Rattle.parquet_page.specs.Cursor.{is_plain_dictionary};
ghost use Rattle.parquet_page.specs.Found.{FoundAt};

use parquet_meta::{DataPageHeader, PageKind, page_header_at};

/// The numbers of the encodings that a dictionary page's plain entries may have.
const PLAIN: i32 = 0;

const PLAIN_DICTIONARY: i32 = 2;

/// A page in bytes: where its body begins, and where it ends.
#[derive(Clone, Copy)]
pub(crate) struct FoundPage {
    pub(crate) kind: PageKind,
    pub(crate) body: usize,
    pub(crate) end: usize,
}

/// The page whose header stands at a place.
pub(crate) fn find_page(bytes: &[u8], place: usize) -> Option<FoundPage>
    requires { place ≤ length bytes.now }
    ensures { MatchOption result (page_at (drop place bytes.now) ≡ None) (FoundAt bytes.now place) }
{
    let Ok((header, rest)) = page_header_at(&bytes[place..]) else {
        return None;
    };
    if rest.len() < header.size {
        return None;
    }
    let body = bytes.len() - rest.len();
    Some(FoundPage {
        kind: header.kind,
        body,
        end: body + header.size,
    })
}

/// The number of values that a header states.
pub(crate) fn value_count(header: &DataPageHeader) -> usize
    ensures { result ≡ header_values header.now }
{
    match header {
        DataPageHeader::V1 { num_values, .. } => *num_values,
        DataPageHeader::V2 { num_values, .. } => *num_values,
    }
}

/// Whether a page is a dictionary page whose entries can be read.
pub(crate) fn has_readable_entries(kind: &PageKind) -> bool
    ensures { result ≡ is_plain_dictionary kind.now }
{
    match kind {
        PageKind::Dictionary { encoding, .. } => {
            *encoding == PLAIN || *encoding == PLAIN_DICTIONARY
        }
        PageKind::Data(_) => false,
    }
}
