//! The elements of a schema.

use crate::code::TypeCode;
use crate::decode::{
    Decode, Make, decode_bool, decode_field, decode_made, decode_made_struct, decode_struct,
    pass_over,
};
use crate::fault::Fault;
use crate::metadata::{ParquetTimeUnit, PrimitiveLogicalType, Repetition};
use crate::structure::Structure;
use columns_core::Name;
use parquet_thrift::{Compact, FieldHeader};
use std::alloc::Global;

/// An element of the schema's list, before the list is read as a tree.
#[derive(Drop)]
pub(crate) struct SchemaElement {
    pub physical_type: Option<TypeCode>,
    pub type_length: Option<u32>,
    pub repetition: Option<Repetition>,
    pub name: Name,
    pub children: Option<u32>,
    pub logical_type: Option<PrimitiveLogicalType>,
}

/// The fields of an element that were read so far.
#[derive(Drop)]
pub(crate) struct ElementFields {
    pub physical_type: Option<TypeCode>,
    pub type_length: Option<u32>,
    pub repetition: Option<Repetition>,
    pub name: Option<Name>,
    pub children: Option<u32>,
    pub logical_type: Option<LogicalTypeFields>,
}

/// The fields of a logical type that were read so far; others than the timestamp are passed over.
#[derive(Clone, Copy)]
pub(crate) struct LogicalTypeFields {
    pub timestamp: Option<PrimitiveLogicalType>,
}

#[derive(Clone, Copy)]
pub(crate) struct TimestampFields {
    pub is_adjusted_to_utc: Option<bool>,
    pub unit: Option<ParquetTimeUnit>,
}

/// Which units a union of time units named so far.
#[derive(Clone, Copy)]
pub(crate) struct TimeUnitFields {
    pub milliseconds: bool,
    pub microseconds: bool,
    pub nanoseconds: bool,
}

/// A struct of which no field is known.
#[derive(Clone, Copy)]
pub(crate) struct NoFields {}

impl Structure<Global> for NoFields {
    ghost use Rattle.parquet_meta.specs.Schema.{no_field};

    ghost field = { no_field };

    #[tactic(auto, unfolding(crate::specs::Schema::no_field), using(crate::proofs::Rules::by_rule_setting))]
    fn read_field(
        &mut self,
        alloc: Global,
        header: FieldHeader,
        compact: &mut Compact<'_>,
    ) -> Result<(), Fault> {
        pass_over(alloc, header.kind, compact)
    }
}

impl Structure<Global> for TimeUnitFields {
    ghost use Rattle.parquet_meta.specs.Schema.{time_unit_field};

    ghost field = { time_unit_field };

    #[tactic(auto, unfolding(crate::specs::Schema::time_unit_field), using(crate::proofs::Rules::by_rule_setting))]
    fn read_field(
        &mut self,
        alloc: Global,
        header: FieldHeader,
        compact: &mut Compact<'_>,
    ) -> Result<(), Fault> {
        match header.id {
            1 => {
                decode_field::<NoFields, Global>(alloc, header.kind, compact)?;
                self.milliseconds = true;
            }
            2 => {
                decode_field::<NoFields, Global>(alloc, header.kind, compact)?;
                self.microseconds = true;
            }
            3 => {
                decode_field::<NoFields, Global>(alloc, header.kind, compact)?;
                self.nanoseconds = true;
            }
            _ => pass_over(alloc, header.kind, compact)?,
        }
        Ok(())
    }
}

impl Structure<Global> for TimestampFields {
    ghost use Rattle.parquet_meta.specs.Schema.{timestamp_field};

    ghost field = { timestamp_field };

    #[tactic(auto, unfolding(crate::specs::Schema::timestamp_field), using(crate::proofs::Rules::by_rule_setting))]
    fn read_field(
        &mut self,
        alloc: Global,
        header: FieldHeader,
        compact: &mut Compact<'_>,
    ) -> Result<(), Fault> {
        match header.id {
            1 => self.is_adjusted_to_utc = Some(decode_bool(alloc, header.kind, compact)?),
            2 => self.unit = Some(decode_field(alloc, header.kind, compact)?),
            _ => pass_over(alloc, header.kind, compact)?,
        }
        Ok(())
    }
}

impl Structure<Global> for LogicalTypeFields {
    ghost use Rattle.parquet_meta.specs.Schema.{logical_type_field};

    ghost field = { logical_type_field };

    #[tactic(auto, unfolding(crate::specs::Schema::logical_type_field), using(crate::proofs::Rules::by_rule_setting))]
    fn read_field(
        &mut self,
        alloc: Global,
        header: FieldHeader,
        compact: &mut Compact<'_>,
    ) -> Result<(), Fault> {
        match header.id {
            8 => self.timestamp = Some(decode_field(alloc, header.kind, compact)?),
            _ => pass_over(alloc, header.kind, compact)?,
        }
        Ok(())
    }
}

impl Structure<Global> for ElementFields {
    ghost use Rattle.parquet_meta.specs.Schema.{element_field};

    ghost field = { element_field };

    #[tactic(auto, unfolding(crate::specs::Schema::element_field), using(crate::proofs::Rules::by_rule_setting))]
    fn read_field(
        &mut self,
        alloc: Global,
        header: FieldHeader,
        compact: &mut Compact<'_>,
    ) -> Result<(), Fault> {
        match header.id {
            1 => self.physical_type = Some(decode_field(alloc, header.kind, compact)?),
            2 => self.type_length = Some(decode_field(alloc, header.kind, compact)?),
            3 => self.repetition = Some(decode_field(alloc, header.kind, compact)?),
            4 => self.name = Some(decode_field(alloc, header.kind, compact)?),
            5 => self.children = Some(decode_field(alloc, header.kind, compact)?),
            10 => self.logical_type = Some(decode_field(alloc, header.kind, compact)?),
            _ => pass_over(alloc, header.kind, compact)?,
        }
        Ok(())
    }
}

impl Decode<Global> for NoFields {
    ghost use Rattle.parquet_meta.specs.Schema.{empty_struct};

    ghost rule = { empty_struct };

    #[tactic(auto, unfolding(crate::specs::Schema::empty_struct))]
    fn decode(alloc: Global, kind: u8, compact: &mut Compact<'_>) -> Result<NoFields, Fault> {
        decode_struct(alloc, NoFields {}, kind, compact)
    }
}

impl Make<ParquetTimeUnit, Global> for TimeUnitFields {
    ghost use Rattle.parquet_meta.specs.Schema.{one_unit};

    ghost make = { one_unit };

    fn make(self, _alloc: Global) -> Result<ParquetTimeUnit, Fault> {
        match (self.milliseconds, self.microseconds, self.nanoseconds) {
            (true, false, false) => Ok(ParquetTimeUnit::Milliseconds),
            (false, true, false) => Ok(ParquetTimeUnit::Microseconds),
            (false, false, true) => Ok(ParquetTimeUnit::Nanoseconds),
            _ => Err(Fault::Unspelled),
        }
    }
}

impl Decode<Global> for ParquetTimeUnit {
    ghost use Rattle.parquet_meta.specs.Schema.{time_unit};

    ghost rule = { time_unit };

    #[tactic(auto, unfolding(crate::specs::Schema::time_unit))]
    fn decode(
        alloc: Global,
        kind: u8,
        compact: &mut Compact<'_>,
    ) -> Result<ParquetTimeUnit, Fault> {
        let start = TimeUnitFields {
            milliseconds: false,
            microseconds: false,
            nanoseconds: false,
        };
        decode_made_struct(alloc, start, kind, compact)
    }
}

impl Make<PrimitiveLogicalType, Global> for TimestampFields {
    ghost use Rattle.parquet_meta.specs.Schema.{timestamp_of};

    ghost make = { timestamp_of };

    fn make(self, _alloc: Global) -> Result<PrimitiveLogicalType, Fault> {
        match (self.unit, self.is_adjusted_to_utc) {
            (Some(unit), Some(is_adjusted_to_utc)) => Ok(PrimitiveLogicalType::Timestamp {
                unit,
                is_adjusted_to_utc,
            }),
            _ => Err(Fault::Unspelled),
        }
    }
}

impl Decode<Global> for PrimitiveLogicalType {
    ghost use Rattle.parquet_meta.specs.Schema.{timestamp};

    ghost rule = { timestamp };

    #[tactic(auto, unfolding(crate::specs::Schema::timestamp))]
    fn decode(
        alloc: Global,
        kind: u8,
        compact: &mut Compact<'_>,
    ) -> Result<PrimitiveLogicalType, Fault> {
        decode_made_struct(
            alloc,
            TimestampFields {
                is_adjusted_to_utc: None,
                unit: None,
            },
            kind,
            compact,
        )
    }
}

impl Decode<Global> for LogicalTypeFields {
    ghost use Rattle.parquet_meta.specs.Schema.{logical_type};

    ghost rule = { logical_type };

    #[tactic(auto, unfolding(crate::specs::Schema::logical_type))]
    fn decode(
        alloc: Global,
        kind: u8,
        compact: &mut Compact<'_>,
    ) -> Result<LogicalTypeFields, Fault> {
        decode_struct(alloc, LogicalTypeFields { timestamp: None }, kind, compact)
    }
}

impl Make<Repetition, Global> for i32 {
    ghost use Rattle.parquet_meta.specs.Schema.{repetition_of};

    ghost make = { repetition_of };

    fn make(self, _alloc: Global) -> Result<Repetition, Fault> {
        match self {
            0 => Ok(Repetition::Required),
            1 => Ok(Repetition::Optional),
            2 => Ok(Repetition::Repeated),
            _ => Err(Fault::Unspelled),
        }
    }
}

impl Decode<Global> for Repetition {
    ghost use Rattle.parquet_meta.specs.Schema.{repetition};

    ghost rule = { repetition };

    #[tactic(auto, unfolding(crate::specs::Schema::repetition))]
    fn decode(alloc: Global, kind: u8, compact: &mut Compact<'_>) -> Result<Repetition, Fault> {
        decode_made::<i32, Repetition, Global>(alloc, kind, compact)
    }
}

impl Make<SchemaElement, Global> for ElementFields {
    ghost use Rattle.parquet_meta.specs.Schema.{element_of};

    ghost make = { element_of };

    fn make(self, _alloc: Global) -> Result<SchemaElement, Fault> {
        let ElementFields {
            physical_type,
            type_length,
            repetition,
            name,
            children,
            logical_type,
        } = self;
        let Some(name) = name else {
            return Err(Fault::Unspelled);
        };
        let logical_type = logical_type.and_then(|fields| fields.timestamp);
        Ok(SchemaElement {
            physical_type,
            type_length,
            repetition,
            name,
            children,
            logical_type,
        })
    }
}

impl Decode<Global> for SchemaElement {
    ghost use Rattle.parquet_meta.specs.Schema.{element};

    ghost rule = { element };

    #[tactic(auto, unfolding(crate::specs::Schema::element))]
    fn decode(alloc: Global, kind: u8, compact: &mut Compact<'_>) -> Result<SchemaElement, Fault> {
        let start = ElementFields {
            physical_type: None,
            type_length: None,
            repetition: None,
            name: None,
            children: None,
            logical_type: None,
        };
        decode_made_struct(alloc, start, kind, compact)
    }
}
