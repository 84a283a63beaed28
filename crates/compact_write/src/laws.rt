//! What is written is what is read: facts about the definitions that the contracts cite.
ghost use Rattle.std.specs.Prelude.{ℕ, pos};
ghost use Rattle.parquet_thrift.specs.Values.{fields_of, in_list, in_struct, value};
ghost use Rattle.compact_write.specs.ReadBack.{ReadsBack};
ghost use Rattle.compact_write.specs.Written.{CanWrite, CanWriteElement, CanWriteFields};
ghost use Rattle.compact_write.specs.Written.{element_bytes, fields_bytes, value_bytes};

/// A value that can be written is read again from its bytes, whatever stands behind them.
pub fn values_are_read_back()
    ensures in_structs { (kind : ℕ) → ReadsBack (CanWrite kind) value_bytes (value in_struct kind) }
    ensures in_lists { (kind : ℕ) → ReadsBack (CanWriteElement kind) element_bytes (value in_list kind) }
    ensures structs { ReadsBack (CanWriteFields 0) (fields_bytes 0) (fields_of (value in_struct) (pos 0)) }
{}
