//! The statistics of a column chunk, as they are stored.

use crate::decode::{Decode, decode_field, decode_struct, pass_over};
use crate::fault::Fault;
use crate::metadata::StatisticsBytes;
use crate::structure::Structure;
use parquet_thrift::{Compact, FieldHeader};
use std::alloc::Global;

impl Structure<Global> for StatisticsBytes {
    ghost use Rattle.parquet_meta.specs.Statistics.{statistics_field};

    ghost field = { statistics_field };

    #[tactic(auto, unfolding(crate::specs::Statistics::statistics_field), using(crate::proofs::Rules::by_rule_setting))]
    fn read_field(
        &mut self,
        alloc: Global,
        header: FieldHeader,
        compact: &mut Compact<'_>,
    ) -> Result<(), Fault> {
        match header.id {
            3 => self.null_count = Some(decode_field(alloc, header.kind, compact)?),
            4 => self.distinct_count = Some(decode_field(alloc, header.kind, compact)?),
            5 => self.max_value = Some(decode_field(alloc, header.kind, compact)?),
            6 => self.min_value = Some(decode_field(alloc, header.kind, compact)?),
            _ => pass_over(alloc, header.kind, compact)?,
        }
        Ok(())
    }
}

impl Decode<Global> for StatisticsBytes {
    ghost use Rattle.parquet_meta.specs.Statistics.{statistics};

    ghost rule = { statistics };

    #[tactic(auto, unfolding(crate::specs::Statistics::statistics))]
    fn decode(
        alloc: Global,
        kind: u8,
        compact: &mut Compact<'_>,
    ) -> Result<StatisticsBytes, Fault> {
        let start = StatisticsBytes {
            null_count: None,
            distinct_count: None,
            max_value: None,
            min_value: None,
        };
        decode_struct(alloc, start, kind, compact)
    }
}
