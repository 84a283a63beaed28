//! The arrays that builders make.
ghost use Rattle.std.specs.Prelude.{◌≡◌, [], true, flat_map, map, Some, IfOk, IfErr, OnOk};
ghost use Rattle.columns_core.specs.Array.{column_of};
ghost use Rattle.parquet_statistics.specs.Made.{is_keyed, keyed_in, keyed_in_turn, made_array, made_by, made_cells, made_refusals, made_shown, struct_made};
ghost use Rattle.parquet_statistics.specs.Refusal.{IsRefusedBy};

use crate::dictionaries::dictionary_of;
use crate::lists::{lists_of_one, map_of_all};
use crate::{
    DynMutable, DynMutableDictionary, DynMutableListArray, DynMutableMapArray,
    DynMutableStructArray,
};
use columns_core::{Array, DataType, Error, StructArray};
use std::alloc::Global;

impl DynMutable {
    /// The array of the cells. A flat builder refuses nothing, and each of the others as it says.
    #[cycle(as_box)]
    pub fn as_box(self) -> Result<Array, Error>
        ensures array { IfOk result (λ array. column_of array ≡ made_shown (made_by self)) }
        ensures keys { is_keyed self ≡ true → IfOk result (λ array.
            keyed_in array ≡ Some (keyed_in_turn (made_cells (made_by self)))) }
        ensures ok { OnOk result (made_refusals (made_by self) ≡ []) }
        ensures err { IfErr result (IsRefusedBy (made_refusals (made_by self))) }
    {
        match self {
            DynMutable::Flat(builder) => builder.into_array(),
            DynMutable::Dictionary(entries) => entries.as_box(),
            DynMutable::List(items) => items.as_box(),
            DynMutable::Map(pairs) => pairs.as_box(),
            DynMutable::Struct(fields) => fields.as_box(),
        }
    }
}

impl DynMutableDictionary {
    /// The dictionary of all entries, with the keys 0, 1, 2 and on.
    ///
    /// What the entries refuse is told of first. Then `Overflow` where their number passes the greatest key of the type, and
    /// `InvalidArgumentError` where they are of another type than it names.
    #[cycle(as_box)]
    pub fn as_box(self) -> Result<Array, Error>
        ensures array { IfOk result (λ array.
            column_of array ≡ made_shown (made_by (DynMutable.Dictionary self))) }
        ensures keys { IfOk result (λ array.
            keyed_in array ≡ Some (keyed_in_turn (made_cells (made_by (DynMutable.Dictionary self))))) }
        ensures ok { OnOk result (made_refusals (made_by (DynMutable.Dictionary self)) ≡ []) }
        ensures err { IfErr result (IsRefusedBy (made_refusals (made_by (DynMutable.Dictionary self)))) }
    {
        let DynMutableDictionary {
            data_type,
            alloc,
            inner,
        } = self;
        let entries = Box::into_inner(inner).as_box()?;
        dictionary_of(alloc, data_type, entries)
    }
}

impl DynMutableListArray {
    /// Each item as a list of one.
    ///
    /// What the items refuse is told of first. Then `Overflow` where their number passes the greatest place of the type, and
    /// `InvalidArgumentError` where they are of another type than it names.
    #[cycle(as_box)]
    pub fn as_box(self) -> Result<Array, Error>
        ensures array { IfOk result (λ array.
            column_of array ≡ made_shown (made_by (DynMutable.List self))) }
        ensures ok { OnOk result (made_refusals (made_by (DynMutable.List self)) ≡ []) }
        ensures err { IfErr result (IsRefusedBy (made_refusals (made_by (DynMutable.List self)))) }
    {
        let DynMutableListArray {
            data_type,
            alloc,
            inner,
        } = self;
        let items = Box::into_inner(inner).as_box()?;
        lists_of_one(alloc, data_type, items)
    }
}

impl DynMutableMapArray {
    /// All pairs as one map.
    ///
    /// What the pairs refuse is told of first. Then `Overflow` where their number passes the greatest place of 32 bits, and
    /// `InvalidArgumentError` where they are of another type than the type names.
    #[cycle(as_box)]
    pub fn as_box(self) -> Result<Array, Error>
        ensures array { IfOk result (λ array.
            column_of array ≡ made_shown (made_by (DynMutable.Map self))) }
        ensures ok { OnOk result (made_refusals (made_by (DynMutable.Map self)) ≡ []) }
        ensures err { IfErr result (IsRefusedBy (made_refusals (made_by (DynMutable.Map self)))) }
    {
        let DynMutableMapArray {
            data_type,
            alloc,
            inner,
        } = self;
        let pairs = Box::into_inner(inner).as_box()?;
        map_of_all(alloc, data_type, pairs)
    }
}

impl DynMutableStructArray {
    /// The columns side by side.
    ///
    /// What the first column that refuses tells of comes first. Then `InvalidArgumentError` where there is no column, their lengths
    /// differ, or their types are not those of the fields.
    #[cycle(as_box)]
    pub fn as_box(self) -> Result<Array, Error>
        ensures array { IfOk result (λ array.
            column_of array ≡ made_shown (made_by (DynMutable.Struct self))) }
        ensures ok { OnOk result (made_refusals (made_by (DynMutable.Struct self)) ≡ []) }
        ensures err { IfErr result (IsRefusedBy (made_refusals (made_by (DynMutable.Struct self)))) }
    {
        let DynMutableStructArray {
            data_type,
            alloc,
            inner,
        } = self;
        let columns = arrays_of(alloc, inner)?;
        side_by_side(data_type, columns)
    }
}

/// The arrays that builders make, in turn.
#[cycle(as_box)]
fn arrays_of(alloc: Global, builders: Vec<DynMutable>) -> Result<Vec<Array>, Error>
    ensures arrays { IfOk result (λ arrays. map made_by builders.items ≡ map made_array arrays.items) }
    ensures err { IfErr result (IsRefusedBy (flat_map made_refusals (map made_by builders.items))) }
{
    let mut arrays = Vec::new(alloc);
    for builder in builders {
        arrays.push(builder.as_box()?)?;
    }
    Ok(arrays)
}

pub(crate) fn side_by_side(data_type: DataType, columns: Vec<Array>) -> Result<Array, Error>
    ensures array { IfOk result (λ array.
        column_of array ≡ made_shown (struct_made data_type (map made_array columns.items))) }
    ensures ok { OnOk result (made_refusals (struct_made data_type (map made_array columns.items)) ≡ []) }
    ensures err { let made = struct_made data_type (map made_array columns.items) in
        IfErr result (IsRefusedBy (made_refusals made)) }
{
    Ok(Array::Struct(StructArray::try_new(data_type, columns, None)?))
}
