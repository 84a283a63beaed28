//! Numbers of the footer that obey further rules.

use crate::decode::{Decode, Make, decode_made};
use crate::fault::{Fault, Memory};
use parquet_thrift::Compact;

/// The code of a physical type, without the length of fixed bytes.
#[derive(Clone, Copy, Debug, PartialEq, Eq)]
pub(crate) enum TypeCode {
    Boolean,
    Int32,
    Int64,
    Int96,
    Float,
    Double,
    ByteArray,
    FixedLenByteArray,
}

impl<M: Memory> Make<u64, M> for i64 {
    ghost use Rattle.parquet_meta.specs.Code.{not_negative};

    ghost make = { not_negative };

    fn make(self, _memory: M) -> Result<u64, Fault> {
        if self < 0 {
            Err(Fault::Unspelled)
        } else {
            Ok(self as u64)
        }
    }
}

impl<M: Memory> Decode<M> for u64 {
    ghost use Rattle.parquet_meta.specs.Code.{count};

    ghost rule = { count };

    #[tactic(auto, unfolding(crate::specs::Code::count))]
    fn decode(memory: M, kind: u8, compact: &mut Compact<'_>) -> Result<u64, Fault> {
        decode_made::<i64, u64, M>(memory, kind, compact)
    }
}

impl<M: Memory> Make<u32, M> for i32 {
    ghost use Rattle.parquet_meta.specs.Code.{not_negative};

    ghost make = { not_negative };

    fn make(self, _memory: M) -> Result<u32, Fault> {
        if self < 0 {
            Err(Fault::Unspelled)
        } else {
            Ok(self as u32)
        }
    }
}

impl<M: Memory> Decode<M> for u32 {
    ghost use Rattle.parquet_meta.specs.Code.{small_count};

    ghost rule = { small_count };

    #[tactic(auto, unfolding(crate::specs::Code::small_count))]
    fn decode(memory: M, kind: u8, compact: &mut Compact<'_>) -> Result<u32, Fault> {
        decode_made::<i32, u32, M>(memory, kind, compact)
    }
}

impl<M: Memory> Make<TypeCode, M> for i32 {
    ghost use Rattle.parquet_meta.specs.Code.{type_code_of};

    ghost make = { type_code_of };

    fn make(self, _memory: M) -> Result<TypeCode, Fault> {
        match self {
            0 => Ok(TypeCode::Boolean),
            1 => Ok(TypeCode::Int32),
            2 => Ok(TypeCode::Int64),
            3 => Ok(TypeCode::Int96),
            4 => Ok(TypeCode::Float),
            5 => Ok(TypeCode::Double),
            6 => Ok(TypeCode::ByteArray),
            7 => Ok(TypeCode::FixedLenByteArray),
            _ => Err(Fault::Unspelled),
        }
    }
}

impl<M: Memory> Decode<M> for TypeCode {
    ghost use Rattle.parquet_meta.specs.Code.{type_code};

    ghost rule = { type_code };

    #[tactic(auto, unfolding(crate::specs::Code::type_code))]
    fn decode(memory: M, kind: u8, compact: &mut Compact<'_>) -> Result<TypeCode, Fault> {
        decode_made::<i32, TypeCode, M>(memory, kind, compact)
    }
}
