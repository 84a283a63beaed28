//! Facts about the definitions that the contracts cite.
ghost use Rattle.std.specs.Prelude.{◌≡◌, ◌<◌, ℕ, ℤ, List, None, length};
ghost use Rattle.parquet_base.specs.Varint.{varint};
ghost use Rattle.parquet_thrift.specs.Front.{ReadsFront, SpellsOnce};
ghost use Rattle.parquet_thrift.specs.Numbers.{bytes_of_length, signed, signed_byte};
ghost use Rattle.parquet_thrift.specs.Values.{Context, elements, field_header, fields_of, in_list, in_struct, list_header, list_truth, map_header, value};

/// Each is read from bytes of its own at the front, so many at least, whatever stands after them.
pub fn values_are_read_from_their_own_bytes()
    ensures varints { ReadsFront 1 varint }
    ensures numbers { (bits : ℕ) → ReadsFront 1 (signed bits) }
    ensures bytes { ReadsFront 1 signed_byte }
    ensures binaries { ReadsFront 1 bytes_of_length }
    ensures truths { ReadsFront 1 list_truth }
    ensures field_headers { (previous : ℤ) → ReadsFront 1 (field_header previous) }
    ensures list_headers { ReadsFront 1 list_header }
    ensures map_headers { ReadsFront 1 map_header }
    ensures in_structs { (kind : ℕ) → ReadsFront 0 (value in_struct kind) }
    ensures in_lists { (kind : ℕ) → ReadsFront 1 (value in_list kind) }
    ensures lists { (kind count : ℕ) → ReadsFront count (elements (value in_list kind) count) }
    ensures structs { (previous : ℤ) → ReadsFront 1 (fields_of (value in_struct) previous) }
{}

/// No bytes spell two values, and no spelling begins another.
pub fn bytes_spell_one_value()
    ensures values { (context : Context) (kind : ℕ) → SpellsOnce (value context kind) }
    ensures lists { (kind count : ℕ) → SpellsOnce (elements (value in_list kind) count) }
    ensures structs { (previous : ℤ) → SpellsOnce (fields_of (value in_struct) previous) }
{}

/// The test of a list's count refuses no list that is spelled.
pub fn longer_lists_are_not_spelled()
    ensures { (kind count : ℕ) (bytes : List ℕ) → length bytes < count
        → elements (value in_list kind) count bytes ≡ None }
{}
