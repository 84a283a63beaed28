//! The arrays of fields in a group, of whose columns no more than the needed parts are read.
ghost use Rattle.std.specs.Prelude.{◌≡◌, ◌+◌, ◌≤◌, true, false, map, length, sum_by, IfOk, OnOk};
ghost use Rattle.std.specs.Result.{IsErrAnd};
ghost use Rattle.parquet_meta.specs.Keeps.{Keeps};
ghost use Rattle.parquet_meta.specs.Source.{Finds};
ghost use Rattle.parquet_read.specs.Asked as spec;
ghost use Rattle.parquet_read.specs.Opening.{IsRefusal, rows_wanted};
ghost use Rattle.parquet_read.specs.RowGroup.{iter_left};

use crate::ColumnPages;
use crate::asked::{ask, check_fields, check_reading};
use crate::open_field::open_fields;
use columns_core::{Error, Field};
use flat_binary::ArrayIter;
use parquet_meta::{RowGroupMetaData, Source};
use parquet_page::FilteredPage;
use std::alloc::Global;

/// The arrays of each field in a group: of the first `limit` selected rows of its column, or of all of them. Without lists of pages every row of the group is selected,
/// and a chunk is read whole; with them the part of a chunk before its first page is read, and the pages that hold one of these rows. Of a field that is read as nulls
/// nothing is read.
///
/// Before anything is read: `InvalidArgumentError` for a chunk size of 0, for lists of pages that are not one for each field and its one column, and for selected rows that
/// are not well shaped; `NotYetImplemented` where a field has not one column, or it is not flat, stands in another file, is compressed, encrypted or not read as the
/// field's type; `ExternalFormat` where it has not a value for each row of the group, or has more values than its bytes can stand for, or a part that is to be read
/// does not lie in its chunk. Then `ExternalFormat` where a chunk does not lie in the file, and `Io` where a call of the source failed.
pub fn read_columns_many<S: Source>(
    alloc: Global,
    source: &mut S,
    row_group: &RowGroupMetaData,
    fields: Vec<Field>,
    chunk_size: Option<usize>,
    limit: Option<usize>,
    pages: Option<Vec<Vec<Vec<FilteredPage>>>>,
) -> Result<Vec<ArrayIter<ColumnPages>>, Error>
    ensures keeps { Keeps S.Source source.old source.new }
    ensures quiet { OnOk result (S.faults source.new ≡ S.faults source.old) }
    ensures refused { let reading = spec.group_reading row_group.now chunk_size limit in
        let lists = spec.lists_of pages in
        spec.is_readable reading fields.items lists ≡ false → (source.new ≡ source.old)
        × IsErrAnd result (IsRefusal
        (spec.is_legal_reading chunk_size (length fields.items) lists ≡ true)
        (spec.fields_causes reading (spec.asked_fields limit fields.items lists))) }
    ensures found { let reading = spec.group_reading row_group.now chunk_size limit in
        let lists = spec.lists_of pages in
        spec.is_readable reading fields.items lists ≡ true
        → Finds (λ arrays. map iter_left arrays.items)
        (spec.fields_left reading (spec.asked_fields limit fields.items lists))
        (S.told source.old) (S.faults source.old) (S.faults source.new) result }
    ensures each { IfOk result (λ arrays. length arrays.items ≡ length fields.items) }
    ensures typed { IfOk result (λ arrays. map (λ own. (iter_left own).data_type) arrays.items
        ≡ map (λ field. field.data_type) fields.items) }
    ensures sized { let reading = spec.group_reading row_group.now chunk_size limit in
        let asked = spec.asked_fields limit fields.items (spec.lists_of pages) in
        IfOk result (λ arrays.
        map (λ own. (iter_left own).size) arrays.items ≡ map (spec.size_asked reading) asked) }
    ensures counted { let reading = spec.group_reading row_group.now chunk_size limit in
        let asked = spec.asked_fields limit fields.items (spec.lists_of pages) in
        IfOk result (λ arrays.
        map (λ own. rows_wanted (iter_left own)) arrays.items ≡ map (spec.rows_asked reading) asked) }
    ensures fresh { IfOk result (λ arrays. sum_by (λ own. (iter_left own).lent) arrays.items ≡ 0) }
    ensures taken { let reading = spec.group_reading row_group.now chunk_size limit in
        let lists = spec.lists_of pages in
        S.taken source.new ≤ S.taken source.old
        + spec.fields_length reading (spec.asked_fields limit fields.items lists) }
{
    check_reading(fields.len(), chunk_size, &pages)?;
    let asked = ask(alloc, limit, fields, pages)?;
    check_fields(alloc, row_group, &asked)?;
    open_fields(alloc, source, row_group, chunk_size, limit, asked)
}
