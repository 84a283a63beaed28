//! The structs of the footer, before the groups are put beside the leaves of the schema.

ghost use Rattle.std.specs.Prelude.{◌≡◌, true};
ghost use Rattle.parquet_thrift.specs.Values.{in_struct};
ghost use Rattle.parquet_meta.specs.Fault.{MakesOr, ReadsOr};
ghost use Rattle.parquet_meta.specs.Footer.{column_chunk, file_meta_data, is_foreign, place_of, schema};
ghost use Rattle.parquet_meta.specs.Front.{value_in};
ghost use Rattle.parquet_meta.specs.Meaning.{by_rule, elements_by_rule};

use crate::ShortBytes;
use crate::chunks::Chunks;
use crate::code::TypeCode;
use crate::decode::{
    Decode, MOST_RESERVED, Make, decode_field, decode_list_field, decode_made_struct, pass_over,
};
use crate::fault::Fault;
use crate::front::decode_front;
use crate::metadata::{ColumnDescriptor, Place, StatisticsBytes};
use crate::schema::{NoFields, SchemaElement};
use crate::structure::Structure;
use crate::tree::read_leaves;
use columns_core::Seq;
use parquet_thrift::{Compact, FieldHeader, LIST};
use std::alloc::Global;

/// What a column chunk says of itself.
#[derive(Drop)]
pub(crate) struct ChunkMetaData {
    pub type_code: TypeCode,
    pub numbers: ChunkNumbers,
}

#[derive(Drop)]
pub(crate) struct ChunkNumbers {
    pub codec: i32,
    pub num_values: u64,
    pub total_compressed_size: u64,
    pub data_page_offset: u64,
    pub dictionary_page_offset: Option<u64>,
    pub statistics: Option<StatisticsBytes>,
}

/// The fields of a chunk's own words that were read so far.
#[derive(Drop)]
pub(crate) struct ChunkMetaDataFields {
    pub type_code: Option<TypeCode>,
    pub codec: Option<i32>,
    pub num_values: Option<u64>,
    pub total_compressed_size: Option<u64>,
    pub data_page_offset: Option<u64>,
    pub dictionary_page_offset: Option<u64>,
    pub statistics: Option<StatisticsBytes>,
}

/// A column chunk before it is put beside its leaf. An encrypted one may say nothing of itself.
#[derive(Drop)]
pub(crate) struct ColumnChunk {
    pub meta_data: Option<ChunkMetaData>,
    pub offset_index: Option<Place>,
    pub column_index: Option<Place>,
    pub column_index_offset: Option<u64>,
    pub foreign: bool,
    pub encrypted: bool,
}

#[derive(Drop)]
pub(crate) struct ColumnChunkFields {
    pub file_path: Option<ShortBytes>,
    pub meta_data: Option<ChunkMetaData>,
    pub offset_index_offset: Option<u64>,
    pub offset_index_length: Option<u32>,
    pub column_index_offset: Option<u64>,
    pub column_index_length: Option<u32>,
    pub crypto_metadata: Option<NoFields>,
}

#[derive(Drop)]
pub(crate) struct RowGroup {
    pub columns: Chunks,
    pub num_rows: u64,
}

#[derive(Drop)]
pub(crate) struct RowGroupFields {
    pub columns: Option<Chunks>,
    pub num_rows: Option<u64>,
}

#[derive(Drop)]
pub(crate) struct Footer {
    pub columns: Seq<ColumnDescriptor>,
    pub num_rows: u64,
    pub row_groups: Seq<RowGroup>,
}

#[derive(Drop)]
pub(crate) struct FooterFields {
    pub columns: Option<Seq<ColumnDescriptor>>,
    pub num_rows: Option<u64>,
    pub row_groups: Option<Seq<RowGroup>>,
}

impl Structure<Global> for ChunkMetaDataFields {
    ghost use Rattle.parquet_meta.specs.Footer.{chunk_meta_data_field};

    ghost field = { chunk_meta_data_field };

    #[tactic(auto, unfolding(crate::specs::Footer::chunk_meta_data_field), using(crate::proofs::Rules::by_rule_setting))]
    fn read_field(
        &mut self,
        alloc: Global,
        header: FieldHeader,
        compact: &mut Compact<'_>,
    ) -> Result<(), Fault> {
        match header.id {
            1 => self.type_code = Some(decode_field(alloc, header.kind, compact)?),
            4 => self.codec = Some(decode_field(alloc, header.kind, compact)?),
            5 => self.num_values = Some(decode_field(alloc, header.kind, compact)?),
            7 => self.total_compressed_size = Some(decode_field(alloc, header.kind, compact)?),
            9 => self.data_page_offset = Some(decode_field(alloc, header.kind, compact)?),
            11 => self.dictionary_page_offset = Some(decode_field(alloc, header.kind, compact)?),
            12 => self.statistics = Some(decode_field(alloc, header.kind, compact)?),
            _ => pass_over(alloc, header.kind, compact)?,
        }
        Ok(())
    }
}

impl Make<ChunkMetaData, Global> for ChunkMetaDataFields {
    ghost use Rattle.parquet_meta.specs.Footer.{chunk_meta_data_of};

    ghost make = { chunk_meta_data_of };

    #[tactic(auto, unfolding(crate::specs::Footer::chunk_meta_data_of))]
    fn make(self, _alloc: Global) -> Result<ChunkMetaData, Fault> {
        let ChunkMetaDataFields {
            type_code,
            codec,
            num_values,
            total_compressed_size,
            data_page_offset,
            dictionary_page_offset,
            statistics,
        } = self;
        let type_code = type_code.ok_or(Fault::Unspelled)?;
        let codec = codec.ok_or(Fault::Unspelled)?;
        let num_values = num_values.ok_or(Fault::Unspelled)?;
        let total_compressed_size = total_compressed_size.ok_or(Fault::Unspelled)?;
        let data_page_offset = data_page_offset.ok_or(Fault::Unspelled)?;
        let numbers = ChunkNumbers {
            codec,
            num_values,
            total_compressed_size,
            data_page_offset,
            dictionary_page_offset,
            statistics,
        };
        Ok(ChunkMetaData { type_code, numbers })
    }
}

impl Decode<Global> for ChunkMetaData {
    ghost use Rattle.parquet_meta.specs.Footer.{chunk_meta_data};

    ghost rule = { chunk_meta_data };

    #[tactic(auto, unfolding(crate::specs::Footer::chunk_meta_data))]
    fn decode(alloc: Global, kind: u8, compact: &mut Compact<'_>) -> Result<ChunkMetaData, Fault> {
        let start = ChunkMetaDataFields {
            type_code: None,
            codec: None,
            num_values: None,
            total_compressed_size: None,
            data_page_offset: None,
            dictionary_page_offset: None,
            statistics: None,
        };
        decode_made_struct(alloc, start, kind, compact)
    }
}

impl Structure<Global> for ColumnChunkFields {
    ghost use Rattle.parquet_meta.specs.Footer.{column_chunk_field};

    ghost field = { column_chunk_field };

    #[tactic(auto, unfolding(crate::specs::Footer::column_chunk_field), using(crate::proofs::Rules::by_rule_setting))]
    fn read_field(
        &mut self,
        alloc: Global,
        header: FieldHeader,
        compact: &mut Compact<'_>,
    ) -> Result<(), Fault> {
        match header.id {
            1 => self.file_path = Some(decode_field(alloc, header.kind, compact)?),
            3 => self.meta_data = Some(decode_field(alloc, header.kind, compact)?),
            4 => self.offset_index_offset = Some(decode_field(alloc, header.kind, compact)?),
            5 => self.offset_index_length = Some(decode_field(alloc, header.kind, compact)?),
            6 => self.column_index_offset = Some(decode_field(alloc, header.kind, compact)?),
            7 => self.column_index_length = Some(decode_field(alloc, header.kind, compact)?),
            8 => self.crypto_metadata = Some(decode_field(alloc, header.kind, compact)?),
            _ => pass_over(alloc, header.kind, compact)?,
        }
        Ok(())
    }
}

/// The part of the file that an index fills, where both its place and its length are told.
fn place_of(offset: Option<u64>, length: Option<u32>) -> Option<Place>
    ensures { result ≡ place_of offset length }
{
    match (offset, length) {
        (Some(offset), Some(length)) => Some(Place {
            offset,
            length: u64::from(length),
        }),
        _ => None,
    }
}

/// The chunk stands in another file.
fn is_foreign(file_path: &Option<ShortBytes>) -> bool
    ensures { result ≡ is_foreign file_path.now }
{
    match file_path {
        Some(path) => !path.as_slice().is_empty(),
        None => false,
    }
}

impl Make<ColumnChunk, Global> for ColumnChunkFields {
    ghost use Rattle.parquet_meta.specs.Footer.{column_chunk_of};

    ghost make = { column_chunk_of };

    #[tactic(auto, unfolding(crate::specs::Footer::column_chunk_of))]
    fn make(self, _alloc: Global) -> Result<ColumnChunk, Fault> {
        if self.meta_data.is_none() && self.crypto_metadata.is_none() {
            return Err(Fault::Unspelled);
        }
        Ok(ColumnChunk {
            offset_index: place_of(self.offset_index_offset, self.offset_index_length),
            column_index: place_of(self.column_index_offset, self.column_index_length),
            column_index_offset: self.column_index_offset,
            foreign: is_foreign(&self.file_path),
            encrypted: self.crypto_metadata.is_some(),
            meta_data: self.meta_data,
        })
    }
}

impl Decode<Global> for ColumnChunk {
    ghost rule = { column_chunk };

    #[tactic(auto, unfolding(crate::specs::Footer::column_chunk))]
    fn decode(alloc: Global, kind: u8, compact: &mut Compact<'_>) -> Result<ColumnChunk, Fault> {
        let start = ColumnChunkFields {
            file_path: None,
            meta_data: None,
            offset_index_offset: None,
            offset_index_length: None,
            column_index_offset: None,
            column_index_length: None,
            crypto_metadata: None,
        };
        decode_made_struct(alloc, start, kind, compact)
    }
}

impl Decode<Global> for Chunks {
    ghost use Rattle.parquet_meta.specs.Meaning.{list_of};

    ghost rule = { list_of column_chunk };

    #[tactic(auto, using(crate::proofs::Rules::list_rules))]
    fn decode(alloc: Global, kind: u8, compact: &mut Compact<'_>) -> Result<Chunks, Fault> {
        if kind != LIST {
            return Err(Fault::Unspelled);
        }
        let header = compact.read_list()?;
        decode_chunks(alloc, header.count, header.kind, compact)
    }
}

/// So many chunks.
fn decode_chunks(
    alloc: Global,
    count: usize,
    kind: u8,
    compact: &mut Compact<'_>,
) -> Result<Chunks, Fault>
    ensures { ReadsOr true (λ chunks. chunks) (elements_by_rule column_chunk kind count)
        compact.old result compact.new }
{
    let mut chunks = Chunks::with_capacity(alloc, count.min(MOST_RESERVED))?;
    'chunks: for _ in 0..count {
        let chunk = ColumnChunk::decode(alloc, kind, compact)?;
        chunks.push(chunk)?;
    }
    Ok(chunks)
}

impl Structure<Global> for RowGroupFields {
    ghost use Rattle.parquet_meta.specs.Footer.{row_group_field};

    ghost field = { row_group_field };

    #[tactic(auto, unfolding(crate::specs::Footer::row_group_field), using(crate::proofs::Rules::by_rule_setting))]
    fn read_field(
        &mut self,
        alloc: Global,
        header: FieldHeader,
        compact: &mut Compact<'_>,
    ) -> Result<(), Fault> {
        match header.id {
            1 => self.columns = Some(decode_field(alloc, header.kind, compact)?),
            3 => self.num_rows = Some(decode_field(alloc, header.kind, compact)?),
            _ => pass_over(alloc, header.kind, compact)?,
        }
        Ok(())
    }
}

impl Make<RowGroup, Global> for RowGroupFields {
    ghost use Rattle.parquet_meta.specs.Footer.{row_group_of};

    ghost make = { row_group_of };

    #[tactic(auto, unfolding(crate::specs::Footer::row_group_of))]
    fn make(self, _alloc: Global) -> Result<RowGroup, Fault> {
        let RowGroupFields { columns, num_rows } = self;
        let columns = columns.ok_or(Fault::Unspelled)?;
        let num_rows = num_rows.ok_or(Fault::Unspelled)?;
        Ok(RowGroup { columns, num_rows })
    }
}

impl Decode<Global> for RowGroup {
    ghost use Rattle.parquet_meta.specs.Footer.{row_group};

    ghost rule = { row_group };

    #[tactic(auto, unfolding(crate::specs::Footer::row_group))]
    fn decode(alloc: Global, kind: u8, compact: &mut Compact<'_>) -> Result<RowGroup, Fault> {
        decode_made_struct(
            alloc,
            RowGroupFields {
                columns: None,
                num_rows: None,
            },
            kind,
            compact,
        )
    }
}

/// The leaves of a schema.
fn decode_schema(
    alloc: Global,
    kind: u8,
    compact: &mut Compact<'_>,
) -> Result<Seq<ColumnDescriptor>, Fault>
    ensures { ReadsOr true (λ leaves. leaves)
        (by_rule in_struct schema kind) compact.old result compact.new }
{
    let elements = decode_list_field::<SchemaElement>(alloc, kind, compact)?;
    read_leaves(alloc, elements.as_slice())
}

impl Structure<Global> for FooterFields {
    ghost use Rattle.parquet_meta.specs.Footer.{footer_field};

    ghost field = { footer_field };

    #[tactic(auto, unfolding(crate::specs::Footer::footer_field), using(crate::proofs::Rules::by_rule_setting))]
    fn read_field(
        &mut self,
        alloc: Global,
        header: FieldHeader,
        compact: &mut Compact<'_>,
    ) -> Result<(), Fault> {
        match header.id {
            2 => self.columns = Some(decode_schema(alloc, header.kind, compact)?),
            3 => self.num_rows = Some(decode_field(alloc, header.kind, compact)?),
            4 => self.row_groups = Some(decode_list_field(alloc, header.kind, compact)?),
            _ => pass_over(alloc, header.kind, compact)?,
        }
        Ok(())
    }
}

impl Make<Footer, Global> for FooterFields {
    ghost use Rattle.parquet_meta.specs.Footer.{footer_of};

    ghost make = { footer_of };

    #[tactic(auto, unfolding(crate::specs::Footer::footer_of))]
    fn make(self, _alloc: Global) -> Result<Footer, Fault> {
        let FooterFields {
            columns,
            num_rows,
            row_groups,
        } = self;
        let columns = columns.ok_or(Fault::Unspelled)?;
        let num_rows = num_rows.ok_or(Fault::Unspelled)?;
        let row_groups = row_groups.ok_or(Fault::Unspelled)?;
        Ok(Footer {
            columns,
            num_rows,
            row_groups,
        })
    }
}

/// The footer that the bytes begin with.
#[tactic(auto, unfolding(crate::specs::Footer::file_meta_data))]
pub(crate) fn decode_footer(alloc: Global, bytes: &[u8]) -> Result<Footer, Fault>
    ensures { MakesOr true result (value_in file_meta_data bytes.now) }
{
    let start = FooterFields {
        columns: None,
        num_rows: None,
        row_groups: None,
    };
    decode_front(alloc, start, bytes)
}
