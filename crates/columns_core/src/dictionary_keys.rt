//! Keys of one of the eight types, as a dictionary array holds them.
ghost use Rattle.std.specs.Prelude.{◌≡◌, ◌<◌, Some, length, slice_get, IfOk, IfErr};
ghost use Rattle.columns_core.specs.Causes.{IsWantOfMemory};
ghost use Rattle.columns_core.specs.Entries.{key_places};
ghost use Rattle.columns_core.specs.DictionaryKeys.{named_places};

use crate::{DictionaryKey, Error, PrimitiveArray};
use std::alloc::Global;

/// Keys of one of the eight types, as they were given.
#[derive(Drop)]
pub enum DictionaryKeys {
    Int8(PrimitiveArray<i8>),
    Int16(PrimitiveArray<i16>),
    Int32(PrimitiveArray<i32>),
    Int64(PrimitiveArray<i64>),
    UInt8(PrimitiveArray<u8>),
    UInt16(PrimitiveArray<u16>),
    UInt32(PrimitiveArray<u32>),
    UInt64(PrimitiveArray<u64>),
}

impl DictionaryKeys {
    pub fn len(&self) -> usize
        ensures { result ≡ length (named_places self.now) }
    {
        match self {
            DictionaryKeys::Int8(keys) => keys.len(),
            DictionaryKeys::Int16(keys) => keys.len(),
            DictionaryKeys::Int32(keys) => keys.len(),
            DictionaryKeys::Int64(keys) => keys.len(),
            DictionaryKeys::UInt8(keys) => keys.len(),
            DictionaryKeys::UInt16(keys) => keys.len(),
            DictionaryKeys::UInt32(keys) => keys.len(),
            DictionaryKeys::UInt64(keys) => keys.len(),
        }
    }

    /// The key at a place as a number of 64 bits, if it is there; one below 0 is the greatest of them.
    pub fn place(&self, i: usize) -> Option<u64>
        requires { i < length (named_places self.now) }
        ensures { slice_get (named_places self.now) i ≡ Some result }
    {
        match self {
            DictionaryKeys::Int8(keys) => place_at(keys, i),
            DictionaryKeys::Int16(keys) => place_at(keys, i),
            DictionaryKeys::Int32(keys) => place_at(keys, i),
            DictionaryKeys::Int64(keys) => place_at(keys, i),
            DictionaryKeys::UInt8(keys) => place_at(keys, i),
            DictionaryKeys::UInt16(keys) => place_at(keys, i),
            DictionaryKeys::UInt32(keys) => place_at(keys, i),
            DictionaryKeys::UInt64(keys) => place_at(keys, i),
        }
    }

    pub fn try_clone(&self, alloc: Global) -> Result<Self, Error>
        ensures copy { IfOk result (λ copy. copy ≡ self.now) }
        ensures memory { IfErr result IsWantOfMemory }
    {
        Ok(match self {
            DictionaryKeys::Int8(keys) => DictionaryKeys::Int8(keys.try_clone(alloc)?),
            DictionaryKeys::Int16(keys) => DictionaryKeys::Int16(keys.try_clone(alloc)?),
            DictionaryKeys::Int32(keys) => DictionaryKeys::Int32(keys.try_clone(alloc)?),
            DictionaryKeys::Int64(keys) => DictionaryKeys::Int64(keys.try_clone(alloc)?),
            DictionaryKeys::UInt8(keys) => DictionaryKeys::UInt8(keys.try_clone(alloc)?),
            DictionaryKeys::UInt16(keys) => DictionaryKeys::UInt16(keys.try_clone(alloc)?),
            DictionaryKeys::UInt32(keys) => DictionaryKeys::UInt32(keys.try_clone(alloc)?),
            DictionaryKeys::UInt64(keys) => DictionaryKeys::UInt64(keys.try_clone(alloc)?),
        })
    }
}

fn place_at<K: DictionaryKey>(keys: &PrimitiveArray<K>, i: usize) -> Option<u64>
    requires { i < length keys.now.items }
    ensures { slice_get (key_places K.number keys.now.items) i ≡ Some result }
{
    match keys.get(i) {
        None => None,
        Some(key) => Some(key.place()),
    }
}
