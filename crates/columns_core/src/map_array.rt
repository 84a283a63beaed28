//! Arrays of maps.
ghost use Rattle.std.specs.Prelude.{◌≡◌, ◌<◌, ◌≤◌, ◌↔◌, ◌⊎◌, IsTrue, IfOk, IfErr, Some, length, slice_get, map};
ghost use Rattle.columns_core.specs.Causes.{IsWantOfMemory, IsMisfit};
ghost use Rattle.columns_core.specs.Column.{as_column, cell_of};
ghost use Rattle.columns_core.specs.Depth.{depth};
ghost use Rattle.columns_core.specs.Lent.{cell_lent, IsThere, lent_depth};
ghost use Rattle.columns_core.specs.Lists.{lists, AreLists};
ghost use Rattle.columns_core.specs.Nested.{map_type};
ghost use Rattle.columns_core.specs.declared.cell.Cell.{Cells};

use crate::equal::is_same_type;
use crate::lent::Lent;
use crate::list::fit_lists;
use crate::places::Places;
use crate::{Array, Bitmap, DataType, Error, ListArray, Offsets, Part};
use std::alloc::Global;
use std::marker::Model;

/// Lists of pairs, each of them a map. Contracts see the cells of each map.
#[cycle(array)]
#[derive(Drop)]
pub struct MapArray {
    lists: ListArray,
}

impl Model for MapArray {
    ghost use Rattle.std.specs.Prelude.{List};
    ghost use Rattle.std.specs.Coded.{coded_list};
    ghost use Rattle.columns_core.specs.Column.{Column, column_code};
    ghost use Rattle.columns_core.specs.declared.cell.Cell.{Cell as CellValue};
    ghost use Rattle.columns_core.specs.contracts.cell.Cell.{the_row as cell_row};
    ghost use Rattle.columns_core.specs.contracts.data_type.DataType.{the_row as data_type_row};

    ghost Value = { Column (List CellValue) };

    ghost coded = { column_code data_type_row.coded (coded_list cell_row.coded) };

    ghost use Rattle.std.specs.Prelude.{◌+◌, ◌*◌};
    ghost use Rattle.columns_core.specs.Depth.{depth};
    ghost use Rattle.std.proofs.Common.{arith};

    ghost view = { λ array. array.lists };

    ghost size = { λ column. 2 * depth column.data_type + 1 };

    ghost size_decreases = { λ array h. Prim.omega arith };
}

impl MapArray {
    /// The array of the maps between these places. Memory is taken where the offsets have theirs from.
    pub fn try_new(
        data_type: DataType,
        offsets: Offsets<i32>,
        field: Array,
        validity: Option<Bitmap>,
    ) -> Result<Self, Error>
        ensures array { IfOk result (λ array. array ≡ as_column data_type (lists offsets field validity)) }
        ensures ok { IfOk result (λ _. AreLists (map_type data_type) offsets field validity) }
        ensures err { IfErr result (λ e. IsWantOfMemory e
            ⊎ IsMisfit (AreLists (map_type data_type) offsets field validity) e) }
    {
        if !is_map_of(&data_type, field.data_type()) {
            return Err(Error::InvalidArgumentError(Part::Request));
        }
        if !fit_lists(&offsets, &field, validity.as_ref()) {
            return Err(Error::InvalidArgumentError(Part::Request));
        }
        let alloc = offsets.allocator();
        let places = Places::new(alloc, &offsets)?;
        let lists = ListArray::new(alloc, data_type, places, field, validity)?;
        Ok(MapArray { lists })
    }

    pub fn data_type(&self) -> &DataType
        ensures { result.now ≡ self.now.data_type }
    {
        self.lists.data_type()
    }

    pub fn len(&self) -> usize
        ensures { result ≡ length self.now.items }
    {
        self.lists.len()
    }

    /// The map at a place, read where it lies.
    pub(crate) fn lent(&self, i: usize) -> Lent<'_>
        requires { i < length self.now.items }
        ensures cell { slice_get (map (cell_of Cells) self.now.items) i ≡ Some (cell_lent result) }
        ensures there { IsThere result }
        ensures shallow { lent_depth result ≤ depth self.now.data_type }
    {
        self.lists.lent(i)
    }

    #[cycle(copy_of_array)]
    pub fn try_clone(&self, alloc: Global) -> Result<Self, Error>
        ensures copy { IfOk result (λ copy. copy ≡ self.now) }
        ensures memory { IfErr result IsWantOfMemory }
    {
        Ok(MapArray {
            lists: self.lists.try_clone(alloc)?,
        })
    }
}

fn is_map_of(data_type: &DataType, pair: &DataType) -> bool
    ensures { IsTrue result ↔ (map_type data_type.now ≡ Some pair.now) }
{
    match data_type {
        DataType::Map(field, _) => is_same_type(&field.get().data_type, pair),
        _ => false,
    }
}
