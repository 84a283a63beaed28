//! Row groups of a file, one after another, under a limit.
use crate::RowGroupDeserializer;
use crate::asked::is_chunk_size;
use crate::groups::open_group;
use crate::groups_left::{has_all_lists, iter_of, limit_behind, next_lists};
use columns_core::{Error, Part, Schema};
use parquet_meta::{RowGroupMetaData, Source};
use parquet_page::FilteredPage;
use std::alloc::Global;
use std::iter::Iterator;
use std::vec::IntoIter;

/// The groups of a file, each as the rows that are wanted of it, in chunks.
#[derive(Drop)]
pub struct RowGroupReader<S: Drop> {
    alloc: Global,
    source: S,
    schema: Schema,
    groups: IntoIter<RowGroupMetaData, Global>,
    lists: Option<IntoIter<Vec<Vec<Vec<FilteredPage>>>, Global>>,
    chunk_size: Option<usize>,
    wanted: Option<usize>,
}

impl<S: Source + Drop> RowGroupReader<S> {
    ghost use Rattle.std.specs.Prelude.{◌≡◌, true, false, length, IfErr, IfOk, IsTrue, OnOk};
    ghost use Rattle.columns_core.specs.Causes.{is_invalid_argument};
    ghost use Rattle.parquet_read.specs.GroupReader.{NextGroup, all_lists, groups_left};
    ghost use Rattle.parquet_read.specs.Groups.{is_legal_file};

    /// Over the first `limit` selected rows of these groups, or all of them. `InvalidArgumentError` exactly where the chunk size is 0, or there is not one list of
    /// pages for each group, field and one column.
    pub fn new(
        alloc: Global,
        source: S,
        schema: Schema,
        row_groups: Vec<RowGroupMetaData>,
        chunk_size: Option<usize>,
        limit: Option<usize>,
        page_indexes: Option<Vec<Vec<Vec<Vec<FilteredPage>>>>>,
    ) -> Result<Self, Error>
        ensures ok { let fields = length schema.fields in
            OnOk result
            (is_legal_file chunk_size (length row_groups.items) fields (all_lists page_indexes) ≡ true) }
        ensures groups { IfOk result (λ reader. groups_left reader
            ≡ record {
              fields = schema.fields;
              size = chunk_size;
              wanted = limit;
              groups = row_groups.items;
              lists = all_lists
                  page_indexes;
            }) }
        ensures source { IfOk result (λ reader. reader.source ≡ source) }
        ensures err { let fields = length schema.fields in
            IfErr result (λ e. IsTrue (is_invalid_argument e)
            × (is_legal_file chunk_size (length row_groups.items) fields
            (all_lists page_indexes) ≡ false)) }
    {
        let fields = schema.fields.as_slice().len();
        let groups = row_groups.as_slice().len();
        if !is_chunk_size(chunk_size) || !has_all_lists(groups, fields, &page_indexes) {
            return Err(Error::InvalidArgumentError(Part::Request));
        }
        Ok(RowGroupReader {
            alloc,
            source,
            schema,
            groups: row_groups.into_iter(),
            lists: iter_of(page_indexes),
            chunk_size,
            wanted: limit,
        })
    }

    /// The source, as it was left.
    pub fn into_source(self) -> S
        ensures { result ≡ self.source }
    {
        self.source
    }

    /// The fields that are read.
    pub(crate) fn schema(&self) -> &Schema
        ensures { result.now ≡ self.now.schema }
    {
        &self.schema
    }

    /// The next group, while a row is wanted and there is a field. One whose reading failed counts nothing, and is not tried again.
    pub(crate) fn next_group(&mut self) -> Option<Result<RowGroupDeserializer, Error>>
        ensures { NextGroup S.Source self.old result self.new }
    {
        if self.wanted == Some(0) || self.schema.fields.as_slice().is_empty() {
            return None;
        }
        let group = self.groups.next()?;
        let lists = next_lists(&mut self.lists);
        let fields = match self.schema.try_clone(self.alloc) {
            Ok(schema) => schema.fields.into_vec(),
            Err(error) => return Some(Err(error)),
        };
        let (size, limit) = (self.chunk_size, self.wanted);
        let found = open_group(
            self.alloc,
            &mut self.source,
            &group,
            fields,
            size,
            limit,
            lists,
        );
        self.wanted = limit_behind(limit, &found);
        Some(found)
    }
}

/// The same.
impl<S: Source + Drop> Iterator for RowGroupReader<S> {
    ghost use Rattle.parquet_read.specs.GroupReader.{NextGroup, groups_to_come};

    type Item = Result<RowGroupDeserializer, Error>;

    ghost next_gives = { NextGroup S.Source };

    ghost remaining = { groups_to_come };

    fn next(&mut self) -> Option<Result<RowGroupDeserializer, Error>> {
        self.next_group()
    }
}
