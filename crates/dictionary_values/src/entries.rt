//! Readers of dictionary pages, by decoders of values.
ghost use Rattle.std.specs.Prelude.{◌≡◌, ◌⊎◌, true, IsTrue, [], None, Some, IfErr, IfNone, IfOk, IfSome};
ghost use Rattle.columns_core.specs.Causes.{IsWantOfMemory, is_invalid_argument};
ghost use Rattle.columns_core.specs.DictionaryType.{IsDictionaryOf, entry_type};
ghost use Rattle.columns_core.specs.declared.data_type.DataType.{DataType};
ghost use Rattle.parquet_page.specs.Lending.{has_data_behind};
ghost use Rattle.page_decoding.specs.Queue.{IsChunkSize};
ghost use Rattle.dictionary_values.specs.EntryTypes.{HoldsEntries};

use crate::{DictIter, ReadDict, StoredKey};
use binary_values::{ByteColumn, ByteValues, Strings, is_text_type};
use columns_core::{
    Array, BinaryArray, DataType, Error, FixedSizeBinaryArray, IntegerType, MutablePrimitiveArray,
    NativeType, Offset, Part, Utf8Array,
};
use flat_values::{
    Convert, FixedSizeBinary, FixedValues, IntoArray, IntoColumn, NumberValues, ParquetNativeType,
};
use parquet_page::{DictPage, Pages};
use std::alloc::Global;
use std::marker::Model;

/// Decodes values whose dictionaries become arrays.
pub trait IntoEntries: IntoArray {
    /// The array of the entries of a dictionary, which takes no memory of its own.
    fn into_entries(&self, dict: Self::Dict, data_type: DataType) -> Result<Self::Array, Error>
        requires own { Self.is_own_dict self.now dict }
        requires fits { Self.is_type self.now data_type }
        ensures typed { IfOk result (λ array. Self.array_type array ≡ data_type) }
        ensures cells { IfOk result (λ array. Self.array_cells array ≡ Self.dict_shown self.now dict) }
        ensures granted { IfErr result (λ _. ⊥) };
}

impl<P: ParquetNativeType, T: NativeType + Default, C: Convert<P, T>> IntoEntries
    for NumberValues<P, T, C> {
    fn into_entries(
        &self,
        dict: Vec<T>,
        data_type: DataType,
    ) -> Result<MutablePrimitiveArray<T>, Error> {
        MutablePrimitiveArray::try_new(data_type, dict, None)
    }
}

impl IntoEntries for FixedValues {
    fn into_entries(
        &self,
        dict: FixedSizeBinary,
        data_type: DataType,
    ) -> Result<FixedSizeBinaryArray, Error> {
        FixedSizeBinaryArray::try_new(data_type, dict.into_values(), None)
    }
}

impl<O: Offset> IntoEntries for ByteValues<O> {
    fn into_entries(&self, dict: Strings<O>, data_type: DataType) -> Result<ByteColumn<O>, Error> {
        let (offsets, values) = dict.into_parts();
        if is_text_type::<O>(&data_type) {
            let array = Utf8Array::of_texts(data_type, offsets, values, None);
            Ok(ByteColumn::Texts(array))
        } else {
            let array = BinaryArray::try_new(data_type, offsets, values, None)?;
            Ok(ByteColumn::Strings(array))
        }
    }
}

/// Reads dictionary pages as arrays of a type, by a decoder of their values.
#[derive(Drop)]
pub struct Entries<V: IntoArray> {
    values: V,
    data_type: DataType,
}

impl<V: IntoArray> Model for Entries<V> {
    ghost use Rattle.columns_core.specs.contracts.data_type.DataType.{the_row as data_type_row};
    ghost use Rattle.dictionary_values.specs.EntryTypes.{EntriesBy, entries_code};

    ghost Value = { EntriesBy V };

    ghost coded = { entries_code V.code data_type_row.coded };

    ghost view = { λ entries. record { values = entries.values; data_type = entries.data_type } };

    ghost invariant = { λ entries. V.is_type entries.values entries.data_type };
}

impl<V: IntoArray + Drop> Entries<V> {
    pub fn new(values: V, data_type: DataType) -> Self
        requires { V.is_type values data_type }
        ensures { result ≡ record { values = values; data_type = data_type } }
    {
        Entries { values, data_type }
    }
}

impl<V: IntoEntries + IntoColumn> ReadDict for Entries<V> {
    ghost use Rattle.flat_values.specs.Outcomes.{fitted_by};

    ghost value_type = { λ reader. reader.data_type };

    ghost entries = { λ reader. fitted_by (V.most_bytes reader.values) (V.rule reader.values) (V.physical reader.values) };

    fn read(&self, alloc: Global, page: &DictPage<'_>) -> Result<Array, Error> {
        let dict = self.values.read_dict(alloc, page)?;
        let data_type = self.data_type.try_clone(alloc)?;
        Ok(V::into_column(self.values.into_entries(dict, data_type)?))
    }
}

/// The type of the entries of a dictionary type of these keys.
fn entries_type(data_type: &DataType, key: IntegerType) -> Option<&DataType>
    ensures some { IfSome result (λ value. IsDictionaryOf key value.now data_type.now) }
    ensures none { IfNone result ((value : DataType) → IsDictionaryOf key value data_type.now → ⊥) }
{
    match data_type {
        DataType::Dictionary(key_type, value, _) if *key_type == key => Some(value.get()),
        _ => None,
    }
}

impl<K: StoredKey, V: IntoEntries + IntoColumn + Drop, I: Pages> DictIter<K, Entries<V>, I> {
    /// The rows of these pages, at most so many, as arrays of a dictionary type whose entries these values become.
    pub fn of_values(
        alloc: Global,
        pages: I,
        values: V,
        data_type: DataType,
        num_rows: usize,
        chunk_size: Option<usize>,
    ) -> Result<Self, Error>
        requires ordered { has_data_behind (I.to_come pages) ≡ true }
        ensures ok { let fits = HoldsEntries (V.is_type values) K.key_type data_type in
            IfOk result (λ _. IsChunkSize chunk_size × fits) }
        ensures err { let fits = HoldsEntries (V.is_type values) K.key_type data_type in
            IfErr result (λ e. IsWantOfMemory e
            ⊎ (IsTrue (is_invalid_argument e) × (IsChunkSize chunk_size → fits → ⊥))) }
        ensures values { IfOk result (λ iter. iter.chunks.decoder.values ≡ values) }
        ensures entries { IfOk result (λ iter. entry_type data_type ≡ Some iter.chunks.decoder.data_type) }
        ensures iter { IfOk result (λ iter. iter ≡ record {
          data_type = data_type;
          chunks = record {
            pages = pages;
            decoder = iter.chunks.decoder;
            size = chunk_size;
            waiting = [];
            remaining = num_rows;
            dictionary = None;
          };
        }) }
    {
        let Some(value_type) = entries_type(&data_type, K::key_type()) else {
            return Err(Error::InvalidArgumentError(Part::Request));
        };
        if !values.fits(value_type) {
            return Err(Error::InvalidArgumentError(Part::Request));
        }
        let read_dict = Entries::new(values, value_type.try_clone(alloc)?);
        DictIter::of_reader(alloc, pages, read_dict, data_type, num_rows, chunk_size)
    }
}
