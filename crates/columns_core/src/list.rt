//! Arrays of lists.
ghost use Rattle.std.specs.Prelude.{◌≡◌, ◌<◌, ◌≤◌, ◌↔◌, ◌⊎◌, IsTrue, IfOk, IfErr, Some, length, slice_get, map, option_copied};
ghost use Rattle.columns_core.specs.Causes.{IsWantOfMemory, IsMisfit};
ghost use Rattle.columns_core.specs.Array.{cells};
ghost use Rattle.columns_core.specs.Column.{as_column, cell_of};
ghost use Rattle.columns_core.specs.Depth.{depth};
ghost use Rattle.columns_core.specs.Joined.{FitTogether};
ghost use Rattle.columns_core.specs.Lent.{cell_lent, IsThere, lent_depth};
ghost use Rattle.columns_core.specs.Lists.{lists, AreLists};
ghost use Rattle.columns_core.specs.Nested.{list_type, joined_type};
ghost use Rattle.columns_core.specs.declared.cell.Cell.{Cells};

use crate::equal::is_same_type;
use crate::lent::{Lent, Nest};
use crate::mask::{copy_of_mask, is_there};
use crate::places::Places;
use crate::primitive::fits_mask;
use crate::{Array, Bitmap, Boxed, DataType, Error, Offset, Offsets, Part};
use std::alloc::Global;
use std::marker::Model;

/// Items of an array cut into lists, and which of these are there. Contracts see the cells of each list.
#[cycle(array)]
#[derive(Drop)]
pub struct ListArray {
    data_type: DataType,
    places: Places,
    items: Boxed<Array>,
    validity: Option<Bitmap>,
}

impl Model for ListArray {
    ghost use Rattle.std.specs.Prelude.{List};
    ghost use Rattle.std.specs.Coded.{coded_list};
    ghost use Rattle.columns_core.specs.Column.{Column, column_code};
    ghost use Rattle.columns_core.specs.declared.cell.Cell.{Cell as CellValue};
    ghost use Rattle.columns_core.specs.contracts.cell.Cell.{the_row as cell_row};
    ghost use Rattle.columns_core.specs.contracts.data_type.DataType.{the_row as data_type_row};

    ghost Value = { Column (List CellValue) };

    ghost coded = { column_code data_type_row.coded (coded_list cell_row.coded) };

    ghost use Rattle.std.specs.Prelude.{◌*◌};
    ghost use Rattle.columns_core.specs.Depth.{depth};
    ghost use Rattle.columns_core.specs.Lists.{lists, AreLists};
    ghost use Rattle.columns_core.specs.Lists.{lists, AreLists};
    ghost use Rattle.columns_core.specs.Nested.{joined_type};

    ghost view = { λ array. record { data_type = array.data_type; items = lists array.places array.items array.validity } };

    ghost invariant = { λ array. AreLists (joined_type array.data_type) array.places array.items array.validity };

    ghost size = { λ column. 2 * depth column.data_type };

    ghost use Rattle.columns_core.specs.LessDeep.{items_are_less_deep};

    ghost size_decreases = { λ array h. items_are_less_deep array.data_type array.items h.0 };
}

impl ListArray {
    /// The array of the lists between these places. They become numbers of 64 bits, whatever their width.
    pub fn try_new<O: Offset>(
        alloc: Global,
        data_type: DataType,
        offsets: Offsets<O>,
        values: Array,
        validity: Option<Bitmap>,
    ) -> Result<Self, Error>
        ensures array { IfOk result (λ array.
            array ≡ as_column data_type (lists offsets values validity)) }
        ensures ok { IfOk result (λ _. AreLists (list_type O.is_large data_type) offsets values validity) }
        ensures err { IfErr result (λ e. IsWantOfMemory e
            ⊎ IsMisfit (AreLists (list_type O.is_large data_type) offsets values validity) e) }
    {
        if !is_list_of::<O>(&data_type, values.data_type()) {
            return Err(Error::InvalidArgumentError(Part::Request));
        }
        if !fit_lists(&offsets, &values, validity.as_ref()) {
            return Err(Error::InvalidArgumentError(Part::Request));
        }
        let places = Places::new(alloc, &offsets)?;
        ListArray::new(alloc, data_type, places, values, validity)
    }

    pub(crate) fn new(
        alloc: Global,
        data_type: DataType,
        places: Places,
        items: Array,
        validity: Option<Bitmap>,
    ) -> Result<Self, Error>
        requires { AreLists (joined_type data_type) places items validity }
        ensures array { IfOk result (λ array. array ≡ as_column data_type (lists places items validity)) }
        ensures memory { IfErr result IsWantOfMemory }
    {
        let items = Boxed::new(alloc, items)?;
        Ok(ListArray {
            data_type,
            places,
            items,
            validity,
        })
    }

    pub fn data_type(&self) -> &DataType
        ensures { result.now ≡ self.now.data_type }
    {
        &self.data_type
    }

    pub fn len(&self) -> usize
        ensures { result ≡ length self.now.items }
    {
        self.places.len()
    }

    /// The list at a place, read where it lies.
    pub(crate) fn lent(&self, i: usize) -> Lent<'_>
        requires { i < length self.now.items }
        ensures cell { slice_get (map (cell_of Cells) self.now.items) i ≡ Some (cell_lent result) }
        ensures there { IsThere result }
        ensures shallow { lent_depth result ≤ depth self.now.data_type }
    {
        let (start, end) = self.places.start_end(i);
        if is_there(self.validity.as_ref(), i) {
            Lent::Cells(Nest::Along(self.items.get(), start, end))
        } else {
            Lent::Null
        }
    }

    #[cycle(copy_of_array)]
    pub fn try_clone(&self, alloc: Global) -> Result<Self, Error>
        ensures copy { IfOk result (λ copy. copy ≡ self.now) }
        ensures memory { IfErr result IsWantOfMemory }
    {
        let items = self.items.get().try_clone(alloc)?;
        ListArray::with_items(
            alloc,
            &self.data_type,
            &self.places,
            items,
            self.validity.as_ref(),
        )
    }

    /// The array of these items and copies of all else: outside the cycle of copies, where it takes less to prove.
    fn with_items(
        alloc: Global,
        data_type: &DataType,
        places: &Places,
        items: Array,
        validity: Option<&Bitmap>,
    ) -> Result<Self, Error>
        requires { AreLists (joined_type data_type.now) places.now items (option_copied validity) }
        ensures array { IfOk result (λ array.
            array ≡ as_column data_type.now (lists places.now items (option_copied validity.entry))) }
        ensures memory { IfErr result IsWantOfMemory }
    {
        let places = places.try_clone(alloc)?;
        let validity = copy_of_mask(alloc, validity)?;
        let data_type = data_type.try_clone(alloc)?;
        ListArray::new(alloc, data_type, places, items, validity)
    }
}

/// Whether a type is one of lists of these items, with places of this width.
fn is_list_of<O: Offset>(data_type: &DataType, item: &DataType) -> bool
    ensures { IsTrue result ↔ (list_type O.is_large data_type.now ≡ Some item.now) }
{
    match data_type {
        DataType::List(field) => !O::is_large() && is_same_type(&field.get().data_type, item),
        DataType::LargeList(field) => O::is_large() && is_same_type(&field.get().data_type, item),
        _ => false,
    }
}

/// Whether the last list ends within the items, and the mask has a place for each list.
pub(crate) fn fit_lists<O: Offset>(
    offsets: &Offsets<O>,
    items: &Array,
    validity: Option<&Bitmap>,
) -> bool
    ensures { IsTrue result ↔ FitTogether offsets.now (cells items.now) (option_copied validity.entry) }
{
    if offsets.last() > items.len() {
        return false;
    }
    fits_mask(offsets.len_proxy(), validity)
}
