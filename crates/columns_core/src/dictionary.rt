//! Arrays of keys into entries.
ghost use Rattle.std.specs.Prelude.{◌≡◌, ◌<◌, ◌≤◌, ◌↔◌, ◌⊎◌, IsTrue, IfOk, IfErr, Some, length, slice_get, All, pos};
ghost use Rattle.std.specs.Option.{ForSome};
ghost use Rattle.columns_core.specs.Causes.{IsWantOfMemory, IsMisfit, cause_of, OutOfSpec};
ghost use Rattle.columns_core.specs.Array.{cells, data_type_of};
ghost use Rattle.columns_core.specs.Column.{masked, FitsMask};
ghost use Rattle.columns_core.specs.Depth.{depth};
ghost use Rattle.columns_core.specs.Keyed.{named_cells, keyed_cells, keyed_column};
ghost use Rattle.columns_core.specs.DictionaryType.{IsDictionaryOf, entry_type};
ghost use Rattle.columns_core.specs.Entries.{NameEntries};
ghost use Rattle.columns_core.specs.DictionaryKeys.{named_places};
ghost use Rattle.columns_core.specs.Lent.{cell_lent, IsThere, lent_depth};

use crate::equal::is_same_type;
use crate::lent::Lent;
use crate::{
    Array, Bitmap, Boxed, DataType, DictionaryKey, DictionaryKeys, Error, IntegerType, Part,
    PrimitiveArray,
};
use std::alloc::Global;
use std::marker::Model;

/// Keys into entries.
#[cycle(array)]
#[derive(Drop)]
pub struct DictionaryArray {
    data_type: DataType,
    keys: DictionaryKeys,
    entries: Boxed<Array>,
}

impl Model for DictionaryArray {
    ghost use Rattle.columns_core.specs.Keyed.{KeyedColumn, keyed_code};
    ghost use Rattle.columns_core.specs.contracts.cell.Cell.{the_row as cell_row};
    ghost use Rattle.columns_core.specs.contracts.data_type.DataType.{the_row as data_type_row};

    ghost Value = { KeyedColumn };

    ghost coded = { keyed_code data_type_row.coded cell_row.coded };

    ghost use Rattle.std.specs.Prelude.{◌≡◌, ◌*◌, Some, pos};
    ghost use Rattle.columns_core.specs.Array.{cells, data_type_of};
    ghost use Rattle.columns_core.specs.Entries.{NameEntries};
    ghost use Rattle.columns_core.specs.DictionaryKeys.{named_places};
    ghost use Rattle.columns_core.specs.Depth.{depth};
    ghost use Rattle.columns_core.specs.DictionaryType.{entry_type};

    ghost view = { λ array. record { data_type = array.data_type; keys = named_places array.keys; entries = cells array.entries } };

    ghost invariant = { λ array. (entry_type array.data_type ≡ Some (data_type_of array.entries)) × NameEntries pos (cells array.entries) (named_places array.keys) };

    ghost size = { λ dictionary. 2 * depth dictionary.data_type };

    ghost use Rattle.columns_core.specs.LessDeep.{entries_are_less_deep};

    ghost size_decreases = { λ array h. entries_are_less_deep array.data_type array.entries h.0 };
}

impl DictionaryArray {
    pub fn data_type(&self) -> &DataType
        ensures { result.now ≡ self.now.data_type }
    {
        &self.data_type
    }

    pub fn len(&self) -> usize
        ensures { result ≡ length self.now.keys }
    {
        self.keys.len()
    }

    /// The entries, whether a key names them or not.
    pub fn values(&self) -> &Array
        ensures entries { cells result.now ≡ self.now.entries }
        ensures data_type { entry_type self.now.data_type ≡ Some (data_type_of result.now) }
    {
        self.entries.get()
    }

    /// The key at a place, if it is there: the place of an entry, whatever the type of the keys.
    pub fn key(&self, i: usize) -> Option<u64>
        requires { i < length self.now.keys }
        ensures key { slice_get self.now.keys i ≡ Some result }
        ensures within { ForSome result (λ key. key < length self.now.entries) }
    {
        self.keys.place(i)
    }

    /// The entry of the key at a place, read where it lies.
    #[cycle(lent)]
    pub(crate) fn lent(&self, i: usize) -> Lent<'_>
        requires { i < length self.now.keys }
        ensures cell { slice_get (named_cells self.now) i ≡ Some (cell_lent result) }
        ensures there { IsThere result }
        ensures shallow { lent_depth result ≤ depth self.now.data_type }
    {
        match self.key(i) {
            None => Lent::Null,
            Some(key) => self.values().lent(key as usize),
        }
    }

    #[cycle(copy_of_array)]
    pub fn try_clone(&self, alloc: Global) -> Result<Self, Error>
        ensures copy { IfOk result (λ copy. copy ≡ self.now) }
        ensures memory { IfErr result IsWantOfMemory }
    {
        let entries = self.entries.get().try_clone(alloc)?;
        DictionaryArray::with_entries(alloc, &self.data_type, &self.keys, entries)
    }
}

impl DictionaryArray {
    /// The array of these keys and entries.
    pub fn try_new<K: DictionaryKey>(
        alloc: Global,
        data_type: DataType,
        keys: PrimitiveArray<K>,
        values: Array,
    ) -> Result<Self, Error>
        ensures array { IfOk result (λ array. array
            ≡ keyed_column K.number data_type keys.items (cells values)) }
        ensures cells { IfOk result (λ array. named_cells array
            ≡ keyed_cells K.number (cells values) keys.items) }
        ensures ok { IfOk result (λ _. IsDictionaryOf K.key_type (data_type_of values) data_type
            × NameEntries K.number (cells values) keys.items) }
        ensures err { IfErr result (λ e. IsWantOfMemory e
            ⊎ IsMisfit (IsDictionaryOf K.key_type (data_type_of values) data_type) e
            ⊎ (cause_of e ≡ Some OutOfSpec) × (NameEntries K.number (cells values) keys.items → ⊥)) }
    {
        if !is_dictionary_of(&data_type, K::key_type(), values.data_type()) {
            return Err(Error::InvalidArgumentError(Part::Request));
        }
        let keys = K::keep(keys);
        if !are_below(&keys, values.len()) {
            return Err(Error::OutOfSpec(Part::Dictionary));
        }
        DictionaryArray::of_places(alloc, data_type, keys, values)
    }

    /// The array of these keys, each of which names an entry, and a copy of the entries: nothing is tested.
    pub fn of_keys<K: DictionaryKey>(
        alloc: Global,
        data_type: &DataType,
        keys: Vec<K>,
        validity: Option<Bitmap>,
        entries: &Array,
    ) -> Result<Self, Error>
        requires typed { IsDictionaryOf K.key_type (data_type_of entries.now) data_type.now }
        requires fits { FitsMask keys.items validity }
        requires named { NameEntries K.number (cells entries.now) (masked keys.items validity) }
        ensures array { IfOk result (λ array. array
            ≡ keyed_column K.number data_type.now (masked keys.items validity) (cells entries.now)) }
        ensures cells { IfOk result (λ array. named_cells array
            ≡ keyed_cells K.number (cells entries.now) (masked keys.items validity)) }
        ensures memory { IfErr result IsWantOfMemory }
    {
        let own_type = data_type.try_clone(alloc)?;
        let own_entries = entries.try_clone(alloc)?;
        let keys = PrimitiveArray {
            data_type: K::data_type(),
            values: keys,
            validity,
        };
        DictionaryArray::of_places(alloc, own_type, K::keep(keys), own_entries)
    }

    /// The array of these entries and copies of all else: outside the cycle of copies, where it takes less to prove.
    fn with_entries(
        alloc: Global,
        data_type: &DataType,
        keys: &DictionaryKeys,
        entries: Array,
    ) -> Result<Self, Error>
        requires typed { entry_type data_type.now ≡ Some (data_type_of entries) }
        requires named { NameEntries pos (cells entries) (named_places keys.now) }
        ensures array { IfOk result (λ array. array
            ≡ record { data_type = data_type.now; keys = named_places keys.now; entries = cells entries }) }
        ensures memory { IfErr result IsWantOfMemory }
    {
        let keys = keys.try_clone(alloc)?;
        let data_type = data_type.try_clone(alloc)?;
        DictionaryArray::of_places(alloc, data_type, keys, entries)
    }

    /// The array of keys that name entries.
    fn of_places(
        alloc: Global,
        data_type: DataType,
        keys: DictionaryKeys,
        entries: Array,
    ) -> Result<Self, Error>
        requires typed { entry_type data_type ≡ Some (data_type_of entries) }
        requires named { NameEntries pos (cells entries) (named_places keys) }
        ensures array { IfOk result (λ array. array
            ≡ record { data_type = data_type; keys = named_places keys; entries = cells entries }) }
        ensures memory { IfErr result IsWantOfMemory }
    {
        let entries = Boxed::new(alloc, entries)?;
        Ok(DictionaryArray {
            data_type,
            keys,
            entries,
        })
    }
}

/// Whether a type is a dictionary of these keys and entries.
fn is_dictionary_of(data_type: &DataType, key: IntegerType, entry: &DataType) -> bool
    ensures { IsTrue result ↔ IsDictionaryOf key entry.now data_type.now }
{
    match data_type {
        DataType::Dictionary(key_type, entry_type, _) => {
            *key_type == key && is_same_type(entry_type.get(), entry)
        }
        _ => false,
    }
}

/// Whether each key that is there is below this number of entries.
fn are_below(keys: &DictionaryKeys, count: usize) -> bool
    ensures { IsTrue result ↔ All (λ key. ForSome key (λ k. k < count)) (named_places keys.now) }
{
    for i in 0..keys.len() {
        if !is_below(keys.place(i), count) {
            return false;
        }
    }
    true
}

fn is_below(key: Option<u64>, count: usize) -> bool
    ensures { IsTrue result ↔ ForSome key (λ k. k < count) }
{
    match key {
        None => true,
        Some(key) => key < count as u64,
    }
}
