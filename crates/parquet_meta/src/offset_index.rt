//! Where the pages of a chunk stand.

ghost use Rattle.parquet_meta.specs.Fault.{MakesOr};
ghost use Rattle.parquet_meta.specs.OffsetIndex.{locations_in};
ghost use Rattle.std.specs.Prelude.{true};

use crate::decode::{Decode, Make, decode_field, decode_list_field, decode_made_struct, pass_over};
use crate::fault::{Fault, Memory};
use crate::front::decode_front;
use crate::metadata::PageLocation;
use crate::structure::Structure;
use columns_core::Seq;
use parquet_thrift::{Compact, FieldHeader};
use std::alloc::Global;

#[derive(Clone, Copy)]
pub(crate) struct LocationFields {
    pub offset: Option<i64>,
    pub compressed_page_size: Option<i32>,
    pub first_row_index: Option<i64>,
}

#[derive(Drop)]
pub(crate) struct OffsetIndexFields {
    pub page_locations: Option<Seq<PageLocation>>,
}

impl<M: Memory> Structure<M> for LocationFields {
    ghost use Rattle.parquet_meta.specs.OffsetIndex.{location_field};

    ghost field = { location_field };

    #[tactic(auto, unfolding(crate::specs::OffsetIndex::location_field), using(crate::proofs::Rules::by_rule_setting))]
    fn read_field(
        &mut self,
        memory: M,
        header: FieldHeader,
        compact: &mut Compact<'_>,
    ) -> Result<(), Fault> {
        match header.id {
            1 => self.offset = Some(decode_field(memory, header.kind, compact)?),
            2 => self.compressed_page_size = Some(decode_field(memory, header.kind, compact)?),
            3 => self.first_row_index = Some(decode_field(memory, header.kind, compact)?),
            _ => pass_over(memory, header.kind, compact)?,
        }
        Ok(())
    }
}

impl<M: Memory> Make<PageLocation, M> for LocationFields {
    ghost use Rattle.parquet_meta.specs.OffsetIndex.{location_of};

    ghost make = { location_of };

    #[tactic(auto, unfolding(crate::specs::OffsetIndex::location_of))]
    fn make(self, _memory: M) -> Result<PageLocation, Fault> {
        let offset = self.offset.ok_or(Fault::Unspelled)?;
        let compressed_page_size = self.compressed_page_size.ok_or(Fault::Unspelled)?;
        let first_row_index = self.first_row_index.ok_or(Fault::Unspelled)?;
        Ok(PageLocation {
            offset,
            compressed_page_size,
            first_row_index,
        })
    }
}

impl<M: Memory> Decode<M> for PageLocation {
    ghost use Rattle.parquet_meta.specs.OffsetIndex.{location};

    ghost rule = { location };

    #[tactic(auto, unfolding(crate::specs::OffsetIndex::location))]
    fn decode(memory: M, kind: u8, compact: &mut Compact<'_>) -> Result<PageLocation, Fault> {
        let start = LocationFields {
            offset: None,
            compressed_page_size: None,
            first_row_index: None,
        };
        decode_made_struct(memory, start, kind, compact)
    }
}

impl Structure<Global> for OffsetIndexFields {
    ghost use Rattle.parquet_meta.specs.OffsetIndex.{offset_index_field};

    ghost field = { offset_index_field };

    #[tactic(auto, unfolding(crate::specs::OffsetIndex::offset_index_field), using(crate::proofs::Rules::by_rule_setting))]
    fn read_field(
        &mut self,
        alloc: Global,
        header: FieldHeader,
        compact: &mut Compact<'_>,
    ) -> Result<(), Fault> {
        match header.id {
            1 => self.page_locations = Some(decode_list_field(alloc, header.kind, compact)?),
            _ => pass_over(alloc, header.kind, compact)?,
        }
        Ok(())
    }
}

impl Make<Seq<PageLocation>, Global> for OffsetIndexFields {
    ghost use Rattle.parquet_meta.specs.OffsetIndex.{offset_index_of};

    ghost make = { offset_index_of };

    #[tactic(auto, unfolding(crate::specs::OffsetIndex::offset_index_of))]
    fn make(self, _alloc: Global) -> Result<Seq<PageLocation>, Fault> {
        let OffsetIndexFields { page_locations } = self;
        page_locations.ok_or(Fault::Unspelled)
    }
}

/// The locations that the bytes begin with.
#[tactic(auto, unfolding(crate::specs::OffsetIndex::locations_in, crate::specs::OffsetIndex::offset_index))]
pub(crate) fn decode_locations(alloc: Global, bytes: &[u8]) -> Result<Seq<PageLocation>, Fault>
    ensures { MakesOr true result (locations_in bytes.now) }
{
    let start = OffsetIndexFields {
        page_locations: None,
    };
    decode_front(alloc, start, bytes)
}
