//! What is told of the items of each page of a chunk.

ghost use Rattle.std.specs.Prelude.{◌≡◌, pos};
ghost use Rattle.compact_write.specs.Calls.{Writes};
ghost use Rattle.compact_write.specs.Written.{signed_bytes, truth_byte};
ghost use Rattle.parquet_plain.specs.Structs.{column_index_bytes};
ghost use Rattle.parquet_thrift.specs.Values.{number};
ghost use Rattle.parquet_write.specs.Told.{greatest_bytes, greatest_told, index_told, is_null_page, least_bytes, least_told, null_counts_bytes, null_pages_bytes};

use crate::facts::PageFacts;
use compact_write::{write_binary, write_count_field, write_end, write_list_start, write_signed};
use parquet_thrift::{BINARY, FALSE, I64, TRUE};
use std::alloc::AllocError;

/// A truth value in a list is a byte.
fn null_byte(page: &PageFacts) -> u8
    ensures { result ≡ truth_byte (is_null_page page.now) }
{
    if page.ends.is_none() { TRUE } else { FALSE }
}

/// Whether each page has nulls alone.
fn write_null_pages(out: &mut Vec<u8>, pages: &[PageFacts]) -> Result<(), AllocError>
    ensures written { Writes (null_pages_bytes pages.now) out.old result out.new }
{
    for page in pages {
        out.push(null_byte(page))?;
    }
    Ok(())
}

fn least(page: &PageFacts) -> &[u8]
    ensures { result.now ≡ least_told page.now }
{
    match &page.ends {
        Some(ends) => ends.least.as_slice(),
        None => &[],
    }
}

fn greatest(page: &PageFacts) -> &[u8]
    ensures { result.now ≡ greatest_told page.now }
{
    match &page.ends {
        Some(ends) => ends.greatest.as_slice(),
        None => &[],
    }
}

fn write_least(out: &mut Vec<u8>, pages: &[PageFacts]) -> Result<(), AllocError>
    ensures written { Writes (least_bytes pages.now) out.old result out.new }
{
    for page in pages {
        write_binary(out, least(page))?;
    }
    Ok(())
}

fn write_greatest(out: &mut Vec<u8>, pages: &[PageFacts]) -> Result<(), AllocError>
    ensures written { Writes (greatest_bytes pages.now) out.old result out.new }
{
    for page in pages {
        write_binary(out, greatest(page))?;
    }
    Ok(())
}

fn write_count(out: &mut Vec<u8>, number: u32) -> Result<(), AllocError>
    ensures written { Writes (signed_bytes (pos number)) out.old result out.new }
{
    write_signed(out, i64::from(number))
}

fn write_null_counts(out: &mut Vec<u8>, pages: &[PageFacts]) -> Result<(), AllocError>
    ensures written { Writes (null_counts_bytes pages.now) out.old result out.new }
{
    for page in pages {
        write_count(out, page.nulls)?;
    }
    Ok(())
}

/// The order of the ends is not told.
pub fn write_column_index(out: &mut Vec<u8>, pages: &[PageFacts]) -> Result<(), AllocError>
    ensures written { Writes (column_index_bytes (index_told pages.now)) out.old result out.new }
{
    write_list_start(out, 0, 1, TRUE, pages.len())?;
    write_null_pages(out, pages)?;
    write_list_start(out, 1, 2, BINARY, pages.len())?;
    write_least(out, pages)?;
    write_list_start(out, 2, 3, BINARY, pages.len())?;
    write_greatest(out, pages)?;
    write_count_field(out, 3, 4, 0)?;
    write_list_start(out, 4, 5, I64, pages.len())?;
    write_null_counts(out, pages)?;
    write_end(out)?;
    Ok(())
}
