//! Reads the struct that bytes begin with.

ghost use Rattle.parquet_meta.specs.Fault.{MakesOr};
ghost use Rattle.parquet_meta.specs.Front.{value_in};
ghost use Rattle.parquet_meta.specs.Meaning.{made, struct_of};

use crate::decode::{Make, decode_made_struct};
use crate::fault::{Fault, Memory};
use crate::structure::Structure;
use parquet_thrift::{Compact, STRUCT};

/// A struct that is made from its fields. Bytes after it are passed over.
pub(crate) fn decode_front<S: Structure<M> + Make<T, M> + Drop, T, M: Memory>(
    memory: M,
    start: S,
    bytes: &[u8],
) -> Result<T, Fault>
    ensures { MakesOr M.may_want result (value_in (made (struct_of S.field start) S.make) bytes.now) }
{
    let mut compact = Compact::new(bytes);
    decode_made_struct(memory, start, STRUCT, &mut compact)
}
