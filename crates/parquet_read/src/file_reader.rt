//! The rows of a file, group after group, in chunks.
use crate::{RowGroupDeserializer, RowGroupReader};
use columns_core::{Chunk, Error, Schema};
use parquet_base::Steps;
use parquet_meta::{RowGroupMetaData, Source};
use parquet_page::FilteredPage;
use std::alloc::Global;
use std::iter::Iterator;
use std::marker::Brand;
use std::sync::ledger::{Blank, Ledger};

/// The chunks of all groups of a file. A chunk has rows of one group.
#[derive(Drop)]
pub struct FileReader<S: Drop> {
    groups: RowGroupReader<S>,
    group: Option<RowGroupDeserializer>,
    /// The pages that were lent of the groups before, at most `usize::MAX`.
    lent: usize,
}

impl<S: Source + Drop> FileReader<S> {
    ghost use Rattle.std.specs.Prelude.{◌≡◌, ◌<◌, true, false, length, IfErr, IfOk, IsTrue, None, OnOk};
    ghost use Rattle.columns_core.specs.Causes.{is_invalid_argument};
    ghost use Rattle.parquet_read.specs.FileReader.{AnswersHere, GivesFileAlone, GivesFileRows, OpensNext, file_lent, is_group_over, pages_at_hand as pages_at_hand_by};
    ghost use Rattle.parquet_read.specs.GroupReader.{all_lists, groups_left};
    ghost use Rattle.parquet_read.specs.Groups.{is_legal_file};

    /// Over the first `limit` selected rows of these groups, or all of them, in chunks of at most `chunk_size` rows. `InvalidArgumentError` exactly where the chunk
    /// size is 0, or there is not one list of pages for each group, field and one column.
    pub fn new(
        alloc: Global,
        source: S,
        row_groups: Vec<RowGroupMetaData>,
        schema: Schema,
        chunk_size: Option<usize>,
        limit: Option<usize>,
        page_indexes: Option<Vec<Vec<Vec<Vec<FilteredPage>>>>>,
    ) -> Result<Self, Error>
        ensures ok { let fields = length schema.fields in
            OnOk result
            (is_legal_file chunk_size (length row_groups.items) fields (all_lists page_indexes) ≡ true) }
        ensures groups { IfOk result (λ reader. groups_left reader.groups
            ≡ record {
              fields = schema.fields;
              size = chunk_size;
              wanted = limit;
              groups = row_groups.items;
              lists = all_lists
                  page_indexes;
            }) }
        ensures source { IfOk result (λ reader. reader.groups.source ≡ source) }
        ensures begins { IfOk result (λ reader. (reader.group ≡ None) × (file_lent reader ≡ 0)) }
        ensures err { let fields = length schema.fields in
            IfErr result (λ e. IsTrue (is_invalid_argument e)
            × (is_legal_file chunk_size (length row_groups.items) fields
            (all_lists page_indexes) ≡ false)) }
    {
        let groups = RowGroupReader::new(
            alloc,
            source,
            schema,
            row_groups,
            chunk_size,
            limit,
            page_indexes,
        )?;
        Ok(FileReader {
            groups,
            group: None,
            lent: 0,
        })
    }

    /// The fields that are read.
    pub fn schema(&self) -> &Schema
        ensures { result.now ≡ self.now.groups.schema }
    {
        self.groups.schema()
    }

    /// How many pages were lent of all groups, at most `usize::MAX`.
    pub fn lent(&self) -> usize
        ensures { result ≡ file_lent self.now }
    {
        self.lent.saturating_add(self.pages_at_hand())
    }

    /// Those of the group at hand.
    fn pages_at_hand(&self) -> usize
        ensures { result ≡ pages_at_hand_by self.now.group }
    {
        match &self.group {
            Some(group) => group.lent(),
            None => 0,
        }
    }

    /// The source, as it was left.
    pub fn into_source(self) -> S
        ensures { result ≡ self.groups.source }
    {
        self.groups.into_source()
    }

    /// The next chunk, and a step for each page that is lent for it. After an error the next group comes. A group of which no row is wanted is passed over.
    pub fn next_counted<L: Ledger>(&mut self, steps: &mut Steps<L>) -> Option<Result<Chunk, Error>>
        ensures { GivesFileRows S.Source self.old result self.new steps.old steps.new }
    {
        while self.is_over() {
            if let Err(error) = self.open_next()? {
                return Some(Err(error));
            }
        }
        self.next_rows(steps)
    }

    /// Whether no row of the group at hand is wanted.
    fn is_over(&self) -> bool
        ensures { result ≡ is_group_over self.now }
    {
        match &self.group {
            Some(group) => group.is_over(),
            None => true,
        }
    }

    /// Puts the next group in the place of the one that is over.
    fn open_next(&mut self) -> Option<Result<(), Error>>
        requires { is_group_over self.old ≡ true }
        ensures { OpensNext S.Source self.old result self.new }
    {
        self.lent = self.lent();
        self.group = None;
        match self.groups.next_group()? {
            Ok(group) => {
                self.group = Some(group);
                Some(Ok(()))
            }
            Err(error) => Some(Err(error)),
        }
    }

    /// The next chunk of the group at hand.
    fn next_rows<L: Ledger>(&mut self, steps: &mut Steps<L>) -> Option<Result<Chunk, Error>>
        requires { is_group_over self.old ≡ false }
        ensures { AnswersHere S.Source self.old result self.new steps.old steps.new }
    {
        match &mut self.group {
            Some(group) => group.next_counted(steps),
            None => None,
        }
    }

    /// The next chunk, over steps of its own.
    fn next_alone<L: Ledger>(&mut self, blank: Blank) -> Option<Result<Chunk, Error>>
        requires name { blank.name ≡ L.name }
        requires parts { blank.parts ≡ L.parts }
        requires whole { 0 < blank.parts }
        ensures given { GivesFileAlone S.Source self.old result self.new }
    {
        let mut steps = Steps::<L>::new(blank);
        self.next_counted(&mut steps)
    }
}

/// The same, over steps of their own.
impl<S: Source + Drop> Iterator for FileReader<S> {
    ghost use Rattle.parquet_read.specs.FileReader.{GivesFileAlone, answers_to_come};

    type Item = Result<Chunk, Error>;

    ghost next_gives = { GivesFileAlone S.Source };

    ghost remaining = { answers_to_come };

    fn next(&mut self) -> Option<Result<Chunk, Error>> {
        self.next_alone::<Brand>(Blank::new(1))
    }
}
