//! The types of keys, as keys are counted.
ghost use Rattle.std.specs.Prelude.{◌≡◌, ◌<◌, ◌≤◌, pos, IfNone, IfSome};
ghost use Rattle.parquet_statistics.specs.Made.{most_keys};

use columns_core::DictionaryKey;

/// A type of keys that are counted from 0 on.
pub(crate) trait CountedKey: DictionaryKey {
    /// The key of this number, if the type has it.
    fn from_place(place: usize) -> Option<Self>
        ensures key { IfSome result (λ key. Self.number key ≡ pos place) }
        ensures within { IfSome result (λ key. place ≤ most_keys Self.key_type) }
        ensures past { IfNone result (most_keys Self.key_type < place) };
}

impl CountedKey for i8 {
    fn from_place(place: usize) -> Option<i8> {
        i8::try_from(place).ok()
    }
}

impl CountedKey for i16 {
    fn from_place(place: usize) -> Option<i16> {
        i16::try_from(place).ok()
    }
}

impl CountedKey for i32 {
    fn from_place(place: usize) -> Option<i32> {
        i32::try_from(place).ok()
    }
}

impl CountedKey for i64 {
    fn from_place(place: usize) -> Option<i64> {
        i64::try_from(place).ok()
    }
}

impl CountedKey for u8 {
    fn from_place(place: usize) -> Option<u8> {
        u8::try_from(place).ok()
    }
}

impl CountedKey for u16 {
    fn from_place(place: usize) -> Option<u16> {
        u16::try_from(place).ok()
    }
}

impl CountedKey for u32 {
    fn from_place(place: usize) -> Option<u32> {
        u32::try_from(place).ok()
    }
}

impl CountedKey for u64 {
    fn from_place(place: usize) -> Option<u64> {
        Some(place as u64)
    }
}
