//! Reads a struct field by field.

ghost use Rattle.std.specs.Prelude.{pos};
ghost use Rattle.parquet_thrift.specs.Values.{in_struct};
ghost use Rattle.parquet_meta.specs.Fault.{ReadsOr};
ghost use Rattle.parquet_meta.specs.Meaning.{Field, by_rule, fields_by};

use crate::fault::{Fault, Memory};
use parquet_thrift::{Compact, FieldHeader};

/// A struct that is filled field by field.
pub(crate) trait Structure<M: Memory> {
    /// What a field makes of the struct, by its id, kind and value.
    ghost field: { Field Self };

    /// Reads the value of the field with this header.
    fn read_field(
        &mut self,
        memory: M,
        header: FieldHeader,
        compact: &mut Compact<'_>,
    ) -> Result<(), Fault>
        ensures { ReadsOr M.may_want (λ _. self.new)
            (by_rule in_struct (field self.old header.id) header.kind) compact.old result compact.new };
}

/// Reads a struct's fields up to its end.
pub(crate) fn read_fields<S: Structure<M>, M: Memory>(
    memory: M,
    into: &mut S,
    compact: &mut Compact<'_>,
) -> Result<(), Fault>
    ensures { ReadsOr M.may_want (λ _. into.new)
        (fields_by S.field into.old (pos 0)) compact.old result compact.new }
{
    let mut previous = 0;
    'fields: while let Some(header) = compact.next_field(previous)? {
        into.read_field(memory, header, compact)?;
        previous = header.id;
    }
    Ok(())
}
