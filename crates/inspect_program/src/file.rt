//! What a file says of itself.
ghost use Rattle.std.specs.Prelude.{◌≡◌, ◌≤◌, ◌+◌, Some, IfErr, IfOk, IfSome};
ghost use Rattle.parquet_meta.specs.Reads.{ReadsFile};
ghost use Rattle.inspect_program.specs.Calls.{IsOfInspection};
ghost use Rattle.inspect_program.specs.Inspection.{inspection, inspection_causes, most_inspected};
ghost use Rattle.inspect_program.specs.Inspection.{told_groups_causes, told_indexes_length, told_metadata};

use crate::columns::push_columns;
use crate::groups::push_groups;
use crate::singles::are_single;
use columns_core::Error;
use parquet_meta::{FileMetaData, Source, read_metadata};
use pq_common::Text;
use std::alloc::Global;

/// A line for each column, and then those of each row group: how many rows it has, and of each column with a guess the least and the greatest
/// value and the number of nulls, in all and page by page, as statistics and indexes tell them. The file's pages are not looked at.
pub fn inspect<S: Source>(alloc: Global, source: &mut S) -> Result<Vec<u8>, Error>
    ensures reads { ReadsFile S.Source source.old source.new inspection_causes result }
    ensures text { IfOk result (λ text. IfSome (S.told source.old) (λ bytes.
        inspection bytes ≡ Some text.items)) }
    // No other error comes, whatever the source tells.
    ensures carried { IfErr result IsOfInspection }
    ensures taken { IfSome (S.told source.old) (λ bytes.
        S.taken source.new ≤ S.taken source.old + most_inspected bytes) }
{
    let metadata = read_metadata(alloc, source)?;
    let text = text_of(alloc, source, &metadata)?;
    Ok(text.into_bytes()?)
}

/// The text of the metadata of a file.
fn text_of<S: Source>(alloc: Global, source: &mut S, metadata: &FileMetaData) -> Result<Text, Error>
    ensures reads { ReadsFile S.Source source.old source.new (λ bytes.
        told_groups_causes bytes metadata.now) result }
    ensures text { IfOk result (λ text. IfSome (S.told source.old) (λ bytes.
        text ≡ told_metadata bytes metadata.now)) }
    ensures carried { IfErr result IsOfInspection }
    ensures taken { S.taken source.new ≤ S.taken source.old + told_indexes_length metadata.now }
{
    let columns = metadata.columns.as_slice();
    let singles = are_single(alloc, columns)?;
    let mut text = Text::new(alloc);
    push_columns(alloc, &mut text, columns, &singles)?;
    push_groups(
        alloc,
        source,
        &mut text,
        metadata.row_groups.as_slice(),
        &singles,
    )?;
    Ok(text)
}
