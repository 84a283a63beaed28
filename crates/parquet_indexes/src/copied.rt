//! Copies of pages.
ghost use Rattle.std.specs.Prelude.{◌≡◌, IfOk, IfErr};
ghost use Rattle.columns_core.specs.Causes.{IsWantOfMemory};

use columns_core::{Error, Seq};
use parquet_meta::PageIndex;
use std::alloc::Global;

/// A copy of pages with ends of one size.
pub(crate) fn copy_of_pages<T: Copy>(
    alloc: Global,
    pages: &[PageIndex<T>],
) -> Result<Seq<PageIndex<T>>, Error>
    ensures copy { IfOk result (λ copy. copy ≡ pages.now) }
    ensures memory { IfErr result IsWantOfMemory }
{
    let mut copy = Vec::with_capacity(alloc, pages.len())?;
    for page in pages {
        copy.push(PageIndex {
            min: page.min,
            max: page.max,
            null_count: page.null_count,
        })?;
    }
    Ok(Seq::new(copy))
}

/// A copy of pages whose ends are bytes.
pub(crate) fn copy_of_byte_pages(
    alloc: Global,
    pages: &[PageIndex<Seq<u8>>],
) -> Result<Seq<PageIndex<Seq<u8>>>, Error>
    ensures copy { IfOk result (λ copy. copy ≡ pages.now) }
    ensures memory { IfErr result IsWantOfMemory }
{
    let mut copy = Vec::with_capacity(alloc, pages.len())?;
    for page in pages {
        copy.push(copy_of_byte_page(alloc, page)?)?;
    }
    Ok(Seq::new(copy))
}

fn copy_of_byte_page(alloc: Global, page: &PageIndex<Seq<u8>>) -> Result<PageIndex<Seq<u8>>, Error>
    ensures copy { IfOk result (λ copy. copy ≡ page.now) }
    ensures memory { IfErr result IsWantOfMemory }
{
    let min = copy_of_end(alloc, &page.min)?;
    let max = copy_of_end(alloc, &page.max)?;
    Ok(PageIndex {
        min,
        max,
        null_count: page.null_count,
    })
}

fn copy_of_end(alloc: Global, end: &Option<Seq<u8>>) -> Result<Option<Seq<u8>>, Error>
    ensures copy { IfOk result (λ copy. copy ≡ end.now) }
    ensures memory { IfErr result IsWantOfMemory }
{
    match end {
        None => Ok(None),
        Some(bytes) => Ok(Some(Seq::new(Vec::from_slice(alloc, bytes.as_slice())?))),
    }
}
