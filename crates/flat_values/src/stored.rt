//! Numbers as columns store them.
ghost use Rattle.std.specs.Prelude.{◌≡◌, ◌≤◌, ◌+◌, ℕ, ℤ, List, length, take, drop, map, is_ok, is_some, Some, false, refl, IfOk, IsSome};
ghost use Rattle.parquet_base.specs.Bytes.{little_endian};
ghost use Rattle.parquet_encoding.specs.DeltaLeft.{delta_left, numbers};
ghost use Rattle.parquet_encoding.specs.Plain.{plain_fixed};
ghost use Rattle.parquet_page.specs.Stored.{Stored};
ghost use Rattle.parquet_page.specs.Values.{DeltaLengths, delta_values, goes_with, plain_values};

use crate::narrow::low_word;
use parquet_base::Unspelled;
use parquet_encoding::{DeltaBinary, PlainFixed};

/// A number that a column stores.
pub trait ParquetNativeType: Copy {
    ghost use Rattle.parquet_meta.specs.declared.metadata.PhysicalType.{PhysicalType};

    /// The bytes of a plain value.
    type Bytes: Copy;

    /// The type of the columns that store it.
    ghost physical: { PhysicalType };

    /// The stored value that it stands for.
    ghost stored: { Self → Stored };

    /// The stored value that the bytes of a plain value spell.
    ghost plain: { Self.Bytes → Stored };

    /// The stored value that a number of packed deltas spells.
    ghost delta: { ℤ → Stored };

    fn from_plain(bytes: Self::Bytes) -> Self
        ensures { stored result ≡ plain bytes };

    fn from_delta(number: i64) -> Self
        ensures { stored result ≡ delta number };

    /// Whether some bytes are so many plain values.
    fn is_plain(bytes: &[u8], count: usize) -> bool
        ensures { result ≡ is_some (plain_values physical bytes.now count) };

    /// Where some bytes are plain values, the bytes of each of them.
    fn plain_pieces(bytes: &[u8]) -> &[Self::Bytes]
        ensures { (count : ℕ) (values : List Stored) →
            plain_values physical bytes.now count ≡ Some values → map plain result.now ≡ values };

    /// Before the first of so many values by packed deltas.
    fn open_deltas(bytes: &[u8], count: usize) -> Result<DeltaBinary, Unspelled>
        ensures exact { is_ok result ≡ is_some (delta_values physical bytes.now count) }
        ensures spelled { IfOk result (λ deltas. IsSome (delta_left deltas bytes.now)) }
        ensures values { IfOk result (λ deltas.
            delta_values physical bytes.now count ≡ Some (map delta (numbers deltas bytes.now))) };

    /// No number is stored behind lengths.
    ghost without_lengths: { goes_with DeltaLengths physical ≡ false };
}

impl ParquetNativeType for i32 {
    ghost use Rattle.parquet_meta.specs.declared.metadata.PhysicalType.TheVariants.{Int32};
    ghost use Rattle.std.specs.Int.{int_wrap, w32};
    ghost use Rattle.parquet_page.specs.Stored.{Number};
    ghost use Rattle.parquet_page.specs.Values.{int32_of};

    type Bytes = [u8; 4];

    ghost physical = { Int32 };

    ghost stored = { Number };

    ghost plain = { int32_of };

    ghost delta = { λ number. Number (int_wrap w32 number) };

    ghost without_lengths = { refl };

    fn from_plain(bytes: [u8; 4]) -> i32 {
        i32::from_le_bytes(bytes)
    }

    fn from_delta(number: i64) -> i32 {
        low_word(number).cast_signed()
    }

    fn is_plain(bytes: &[u8], count: usize) -> bool {
        are_values(bytes, 4, count)
    }

    fn plain_pieces(bytes: &[u8]) -> &[[u8; 4]] {
        bytes.as_chunks().0
    }

    fn open_deltas(bytes: &[u8], count: usize) -> Result<DeltaBinary, Unspelled> {
        DeltaBinary::try_new(bytes, count)
    }
}

impl ParquetNativeType for i64 {
    ghost use Rattle.parquet_meta.specs.declared.metadata.PhysicalType.TheVariants.{Int64};
    ghost use Rattle.parquet_page.specs.Stored.{Number};
    ghost use Rattle.parquet_page.specs.Values.{int64_of};

    type Bytes = [u8; 8];

    ghost physical = { Int64 };

    ghost stored = { Number };

    ghost plain = { int64_of };

    ghost delta = { Number };

    ghost without_lengths = { refl };

    fn from_plain(bytes: [u8; 8]) -> i64 {
        i64::from_le_bytes(bytes)
    }

    fn from_delta(number: i64) -> i64 {
        number
    }

    fn is_plain(bytes: &[u8], count: usize) -> bool {
        are_values(bytes, 8, count)
    }

    fn plain_pieces(bytes: &[u8]) -> &[[u8; 8]] {
        bytes.as_chunks().0
    }

    fn open_deltas(bytes: &[u8], count: usize) -> Result<DeltaBinary, Unspelled> {
        DeltaBinary::try_new(bytes, count)
    }
}

impl ParquetNativeType for [u32; 3] {
    ghost use Rattle.parquet_meta.specs.declared.metadata.PhysicalType.TheVariants.{Int96};
    ghost use Rattle.parquet_page.specs.Values.{int96_of};
    ghost use Rattle.flat_values.specs.Numbers.{words_of};
    ghost use Rattle.parquet_page.specs.Stored.{Words};

    type Bytes = [u8; 12];

    ghost physical = { Int96 };

    ghost stored = { words_of };

    ghost plain = { int96_of };

    ghost delta = { λ _. Words 0 0 0 };

    ghost without_lengths = { refl };

    fn from_plain(bytes: [u8; 12]) -> [u32; 3] {
        [word_at(&bytes, 0), word_at(&bytes, 4), word_at(&bytes, 8)]
    }

    fn from_delta(_number: i64) -> [u32; 3] {
        [0; 3]
    }

    fn is_plain(bytes: &[u8], count: usize) -> bool {
        are_values(bytes, 12, count)
    }

    fn plain_pieces(bytes: &[u8]) -> &[[u8; 12]] {
        bytes.as_chunks().0
    }

    fn open_deltas(_bytes: &[u8], _count: usize) -> Result<DeltaBinary, Unspelled> {
        Err(Unspelled)
    }
}

/// Whether some bytes are so many values of one size.
fn are_values(bytes: &[u8], size: usize, count: usize) -> bool
    ensures { result ≡ is_some (plain_fixed size bytes.now count) }
{
    PlainFixed::try_new(bytes, size, count).is_ok()
}

/// Four bytes at a place as a number without a sign.
pub(crate) fn word_at(bytes: &[u8], place: usize) -> u32
    requires { place + 4 ≤ length bytes.now }
    ensures { result ≡ little_endian (take 4 (drop place bytes.now)) }
{
    u32::from_le_bytes([
        bytes[place],
        bytes[place + 1],
        bytes[place + 2],
        bytes[place + 3],
    ])
}
