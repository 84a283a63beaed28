//! The keys of dictionaries.
ghost use Rattle.std.specs.Prelude.{◌≡◌, ℤ, pos, IsTrue};
ghost use Rattle.columns_core.specs.declared.data_type.IntegerType.{IntegerType};
ghost use Rattle.columns_core.specs.declared.data_type.IntegerType.TheVariants as key;
ghost use Rattle.columns_core.specs.declared.dictionary_keys.DictionaryKeys.{DictionaryKeys};
ghost use Rattle.columns_core.specs.declared.dictionary_keys.DictionaryKeys.TheVariants as kept;
ghost use Rattle.columns_core.specs.Column.{Column};
ghost use Rattle.columns_core.specs.Entries.{key_places, place_of_key};
ghost use Rattle.columns_core.specs.DictionaryKeys.{named_places};

use crate::{DataType, DictionaryKeys, IntegerType, NativeType, PrimitiveArray};

/// An integer that names an entry of a dictionary by its place.
pub trait DictionaryKey: NativeType {
    ghost key_type: { IntegerType };

    ghost number: { Self → ℤ };

    ghost kept: { Column Self → DictionaryKeys };

    fn key_type() -> IntegerType
        ensures { result ≡ key_type };

    /// The key as a number of 64 bits; one below 0 is the greatest of them.
    fn place(self) -> u64
        ensures { result ≡ place_of_key (number self) };

    /// A type whose arrays hold such keys.
    fn data_type() -> DataType
        ensures { IsTrue (Self.stores result) };

    /// These keys as those of a dictionary array, without a copy.
    fn keep(keys: PrimitiveArray<Self>) -> DictionaryKeys
        ensures kept { result ≡ kept keys }
        ensures places { named_places result ≡ key_places number keys.items };
}

impl DictionaryKey for i8 {
    ghost key_type = { key.Int8 };

    ghost number = { λ x. x };

    ghost kept = { kept.Int8 };

    fn key_type() -> IntegerType {
        IntegerType::Int8
    }

    fn place(self) -> u64 {
        u64::try_from(self).unwrap_or(u64::MAX)
    }

    fn data_type() -> DataType {
        DataType::Int8
    }

    fn keep(keys: PrimitiveArray<i8>) -> DictionaryKeys
        ensures kept { result ≡ kept.Int8 keys }
        ensures places { named_places result ≡ key_places (λ x. x) keys.items }
    {
        DictionaryKeys::Int8(keys)
    }
}

impl DictionaryKey for i16 {
    ghost key_type = { key.Int16 };

    ghost number = { λ x. x };

    ghost kept = { kept.Int16 };

    fn key_type() -> IntegerType {
        IntegerType::Int16
    }

    fn place(self) -> u64 {
        u64::try_from(self).unwrap_or(u64::MAX)
    }

    fn data_type() -> DataType {
        DataType::Int16
    }

    fn keep(keys: PrimitiveArray<i16>) -> DictionaryKeys
        ensures kept { result ≡ kept.Int16 keys }
        ensures places { named_places result ≡ key_places (λ x. x) keys.items }
    {
        DictionaryKeys::Int16(keys)
    }
}

impl DictionaryKey for i32 {
    ghost key_type = { key.Int32 };

    ghost number = { λ x. x };

    ghost kept = { kept.Int32 };

    fn key_type() -> IntegerType {
        IntegerType::Int32
    }

    fn place(self) -> u64 {
        u64::try_from(self).unwrap_or(u64::MAX)
    }

    fn data_type() -> DataType {
        DataType::Int32
    }

    fn keep(keys: PrimitiveArray<i32>) -> DictionaryKeys
        ensures kept { result ≡ kept.Int32 keys }
        ensures places { named_places result ≡ key_places (λ x. x) keys.items }
    {
        DictionaryKeys::Int32(keys)
    }
}

impl DictionaryKey for i64 {
    ghost key_type = { key.Int64 };

    ghost number = { λ x. x };

    ghost kept = { kept.Int64 };

    fn key_type() -> IntegerType {
        IntegerType::Int64
    }

    fn place(self) -> u64 {
        u64::try_from(self).unwrap_or(u64::MAX)
    }

    fn data_type() -> DataType {
        DataType::Int64
    }

    fn keep(keys: PrimitiveArray<i64>) -> DictionaryKeys
        ensures kept { result ≡ kept.Int64 keys }
        ensures places { named_places result ≡ key_places (λ x. x) keys.items }
    {
        DictionaryKeys::Int64(keys)
    }
}

impl DictionaryKey for u8 {
    ghost key_type = { key.UInt8 };

    ghost number = { pos };

    ghost kept = { kept.UInt8 };

    fn key_type() -> IntegerType {
        IntegerType::UInt8
    }

    fn place(self) -> u64 {
        self as u64
    }

    fn data_type() -> DataType {
        DataType::UInt8
    }

    fn keep(keys: PrimitiveArray<u8>) -> DictionaryKeys
        ensures kept { result ≡ kept.UInt8 keys }
        ensures places { named_places result ≡ key_places pos keys.items }
    {
        DictionaryKeys::UInt8(keys)
    }
}

impl DictionaryKey for u16 {
    ghost key_type = { key.UInt16 };

    ghost number = { pos };

    ghost kept = { kept.UInt16 };

    fn key_type() -> IntegerType {
        IntegerType::UInt16
    }

    fn place(self) -> u64 {
        self as u64
    }

    fn data_type() -> DataType {
        DataType::UInt16
    }

    fn keep(keys: PrimitiveArray<u16>) -> DictionaryKeys
        ensures kept { result ≡ kept.UInt16 keys }
        ensures places { named_places result ≡ key_places pos keys.items }
    {
        DictionaryKeys::UInt16(keys)
    }
}

impl DictionaryKey for u32 {
    ghost key_type = { key.UInt32 };

    ghost number = { pos };

    ghost kept = { kept.UInt32 };

    fn key_type() -> IntegerType {
        IntegerType::UInt32
    }

    fn place(self) -> u64 {
        self as u64
    }

    fn data_type() -> DataType {
        DataType::UInt32
    }

    fn keep(keys: PrimitiveArray<u32>) -> DictionaryKeys
        ensures kept { result ≡ kept.UInt32 keys }
        ensures places { named_places result ≡ key_places pos keys.items }
    {
        DictionaryKeys::UInt32(keys)
    }
}

impl DictionaryKey for u64 {
    ghost key_type = { key.UInt64 };

    ghost number = { pos };

    ghost kept = { kept.UInt64 };

    fn key_type() -> IntegerType {
        IntegerType::UInt64
    }

    fn place(self) -> u64 {
        self as u64
    }

    fn data_type() -> DataType {
        DataType::UInt64
    }

    fn keep(keys: PrimitiveArray<u64>) -> DictionaryKeys
        ensures kept { result ≡ kept.UInt64 keys }
        ensures places { named_places result ≡ key_places pos keys.items }
    {
        DictionaryKeys::UInt64(keys)
    }
}
