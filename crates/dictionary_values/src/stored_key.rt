//! The types of keys, as pages store keys.
ghost use Rattle.std.specs.Prelude.{◌≡◌, ◌-◌, ◌≤◌, ◌^◌, ℕ, min, pos, IfNone, IfSome};
ghost use Rattle.dictionary_values.specs.Keys.{keys_of};

use columns_core::DictionaryKey;

/// A type of keys that is read from pages, where a key is a number of 32 bits.
pub trait StoredKey: DictionaryKey + Default {
    /// How many keys the type has from 0 on.
    ghost key_count: { ℕ };

    /// That number, at most `usize::MAX`.
    fn most_keys() -> usize
        ensures most { result ≡ min key_count (2 ^ 64 - 1) }
        ensures counted { key_count ≡ keys_of Self.key_type };

    /// The key of this number, if the type has it.
    fn from_number(number: u32) -> Option<Self>
        ensures key { IfSome result (λ key. Self.number key ≡ pos number) }
        ensures past { IfNone result (key_count ≤ number) };
}

impl StoredKey for i8 {
    ghost use Rattle.std.specs.Prelude.{◌^◌};

    ghost key_count = { 2 ^ 7 };

    fn most_keys() -> usize {
        128
    }

    fn from_number(number: u32) -> Option<i8> {
        i8::try_from(number).ok()
    }
}

impl StoredKey for i16 {
    ghost use Rattle.std.specs.Prelude.{◌^◌};

    ghost key_count = { 2 ^ 15 };

    fn most_keys() -> usize {
        32768
    }

    fn from_number(number: u32) -> Option<i16> {
        i16::try_from(number).ok()
    }
}

impl StoredKey for i32 {
    ghost use Rattle.std.specs.Prelude.{◌^◌};

    ghost key_count = { 2 ^ 31 };

    fn most_keys() -> usize {
        2147483648
    }

    fn from_number(number: u32) -> Option<i32> {
        i32::try_from(number).ok()
    }
}

impl StoredKey for i64 {
    ghost use Rattle.std.specs.Prelude.{◌^◌};

    ghost key_count = { 2 ^ 63 };

    fn most_keys() -> usize {
        9223372036854775808
    }

    fn from_number(number: u32) -> Option<i64> {
        Some(number as i64)
    }
}

impl StoredKey for u8 {
    ghost use Rattle.std.specs.Prelude.{◌^◌};

    ghost key_count = { 2 ^ 8 };

    fn most_keys() -> usize {
        256
    }

    fn from_number(number: u32) -> Option<u8> {
        u8::try_from(number).ok()
    }
}

impl StoredKey for u16 {
    ghost use Rattle.std.specs.Prelude.{◌^◌};

    ghost key_count = { 2 ^ 16 };

    fn most_keys() -> usize {
        65536
    }

    fn from_number(number: u32) -> Option<u16> {
        u16::try_from(number).ok()
    }
}

impl StoredKey for u32 {
    ghost use Rattle.std.specs.Prelude.{◌^◌};

    ghost key_count = { 2 ^ 32 };

    fn most_keys() -> usize {
        4294967296
    }

    fn from_number(number: u32) -> Option<u32> {
        Some(number)
    }
}

impl StoredKey for u64 {
    ghost use Rattle.std.specs.Prelude.{◌^◌};

    ghost key_count = { 2 ^ 64 };

    fn most_keys() -> usize {
        usize::MAX
    }

    fn from_number(number: u32) -> Option<u64> {
        Some(number as u64)
    }
}
