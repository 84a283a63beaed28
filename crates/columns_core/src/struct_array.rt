//! Arrays of structs.
ghost use Rattle.std.specs.Prelude.{◌≡◌, ◌<◌, ◌≤◌, ◌↔◌, IsTrue, IfOk, IfErr, Some, length, slice_get, map, option_copied};
ghost use Rattle.columns_core.specs.Causes.{IsWantOfMemory, IsMisfit};
ghost use Rattle.columns_core.specs.Array.{data_type_of};
ghost use Rattle.columns_core.specs.Chunk.{array_rows};
ghost use Rattle.columns_core.specs.Column.{as_column, cell_of};
ghost use Rattle.columns_core.specs.Depth.{depth};
ghost use Rattle.columns_core.specs.Lent.{cell_lent, IsThere, lent_depth};
ghost use Rattle.columns_core.specs.Nested.{field_types};
ghost use Rattle.columns_core.specs.Struct.{structs, AreColumnsOf};
ghost use Rattle.columns_core.specs.declared.cell.Cell.{Cells};

use crate::chunk::{has_equal_lengths, row_count};
use crate::equal::is_same_type;
use crate::lent::{Lent, Nest};
use crate::mask::{copy_of_mask, is_there};
use crate::primitive::fits_mask;
use crate::{Array, Bitmap, DataType, Error, Field, Part, Seq};
use std::alloc::Global;
use std::marker::Model;

/// Columns of one length side by side, and which of their rows are there. Contracts see the cells of each row.
#[cycle(array)]
#[derive(Drop)]
pub struct StructArray {
    data_type: DataType,
    columns: Seq<Array>,
    rows: usize,
    validity: Option<Bitmap>,
}

impl Model for StructArray {
    ghost use Rattle.std.specs.Prelude.{List};
    ghost use Rattle.std.specs.Coded.{coded_list};
    ghost use Rattle.columns_core.specs.Column.{Column, column_code};
    ghost use Rattle.columns_core.specs.declared.cell.Cell.{Cell as CellValue};
    ghost use Rattle.columns_core.specs.contracts.cell.Cell.{the_row as cell_row};
    ghost use Rattle.columns_core.specs.contracts.data_type.DataType.{the_row as data_type_row};

    ghost Value = { Column (List CellValue) };

    ghost coded = { column_code data_type_row.coded (coded_list cell_row.coded) };

    ghost use Rattle.std.specs.Prelude.{◌≡◌, ◌*◌};
    ghost use Rattle.columns_core.specs.Chunk.{array_rows};
    ghost use Rattle.columns_core.specs.Depth.{depth};
    ghost use Rattle.columns_core.specs.Struct.{structs, AreColumnsOf};

    ghost view = { λ array. record { data_type = array.data_type; items = structs array.columns array.validity } };

    ghost invariant = { λ array. AreColumnsOf array.data_type array.columns array.validity × (array.rows ≡ array_rows array.columns) };

    ghost size = { λ column. 2 * depth column.data_type };

    ghost use Rattle.columns_core.specs.LessDeep.{columns_are_less_deep};

    ghost size_decreases = { λ array h. columns_are_less_deep array.data_type array.columns (h.0).types };
}

impl StructArray {
    /// The array of these columns, where there is one, they are equally long, have the types of the fields and the mask is as long.
    pub fn try_new(
        data_type: DataType,
        values: Vec<Array>,
        validity: Option<Bitmap>,
    ) -> Result<Self, Error>
        ensures array { IfOk result (λ array.
            array ≡ as_column data_type (structs values.items validity)) }
        ensures ok { IfOk result (λ _. AreColumnsOf data_type values.items validity) }
        ensures err { IfErr result (IsMisfit (AreColumnsOf data_type values.items validity)) }
    {
        if are_columns_of(&data_type, values.as_slice(), validity.as_ref()) {
            let rows = row_count(values.as_slice());
            Ok(StructArray {
                data_type,
                columns: Seq::new(values),
                rows,
                validity,
            })
        } else {
            Err(Error::InvalidArgumentError(Part::Request))
        }
    }

    pub fn data_type(&self) -> &DataType
        ensures { result.now ≡ self.now.data_type }
    {
        &self.data_type
    }

    pub fn len(&self) -> usize
        ensures { result ≡ length self.now.items }
    {
        self.rows
    }

    /// The row at a place, read where it lies.
    pub(crate) fn lent(&self, i: usize) -> Lent<'_>
        requires { i < length self.now.items }
        ensures cell { slice_get (map (cell_of Cells) self.now.items) i ≡ Some (cell_lent result) }
        ensures there { IsThere result }
        ensures shallow { lent_depth result ≤ depth self.now.data_type }
    {
        if is_there(self.validity.as_ref(), i) {
            Lent::Cells(Nest::Across(self.columns.as_slice(), i))
        } else {
            Lent::Null
        }
    }

    #[cycle(copy_of_array)]
    pub fn try_clone(&self, alloc: Global) -> Result<Self, Error>
        ensures copy { IfOk result (λ copy. copy ≡ self.now) }
        ensures memory { IfErr result IsWantOfMemory }
    {
        let columns = copy_of_arrays(alloc, self.columns.as_slice())?;
        StructArray::with_columns(
            alloc,
            &self.data_type,
            columns,
            self.rows,
            self.validity.as_ref(),
        )
    }

    /// The array of these columns and copies of all else: outside the cycle of copies, where it takes less to prove.
    fn with_columns(
        alloc: Global,
        data_type: &DataType,
        columns: Seq<Array>,
        rows: usize,
        validity: Option<&Bitmap>,
    ) -> Result<Self, Error>
        requires columns { AreColumnsOf data_type.now columns (option_copied validity) }
        requires rows { rows ≡ array_rows columns }
        ensures array { IfOk result (λ array.
            array ≡ as_column data_type.now (structs columns (option_copied validity.entry))) }
        ensures memory { IfErr result IsWantOfMemory }
    {
        Ok(StructArray {
            columns,
            rows,
            validity: copy_of_mask(alloc, validity)?,
            data_type: data_type.try_clone(alloc)?,
        })
    }
}

#[cycle(copy_of_array)]
fn copy_of_arrays(alloc: Global, arrays: &[Array]) -> Result<Seq<Array>, Error>
    ensures copy { IfOk result (λ copy. copy ≡ arrays.now) }
    ensures memory { IfErr result IsWantOfMemory }
{
    let mut copies = Vec::with_capacity(alloc, arrays.len())?;
    for array in arrays {
        copies.push(array.try_clone(alloc)?)?;
    }
    Ok(Seq::new(copies))
}

fn are_columns_of(data_type: &DataType, columns: &[Array], validity: Option<&Bitmap>) -> bool
    ensures { IsTrue result ↔ AreColumnsOf data_type.now columns.now (option_copied validity.entry) }
{
    have_field_types(data_type, columns)
        && has_equal_lengths(columns)
        && fits_mask(row_count(columns), validity)
}

/// Whether a type is one of structs, and the columns have the types of its fields.
fn have_field_types(data_type: &DataType, columns: &[Array]) -> bool
    ensures { IsTrue result ↔ (field_types data_type.now ≡ Some (map data_type_of columns.now)) }
{
    match data_type {
        DataType::Struct(fields) => have_types_of(fields.as_slice(), columns),
        _ => false,
    }
}

fn have_types_of(fields: &[Field], columns: &[Array]) -> bool
    ensures { IsTrue result ↔
        (map (λ field. field.data_type) fields.now ≡ map data_type_of columns.now) }
{
    if fields.len() != columns.len() {
        return false;
    }
    for (field, column) in fields.iter().zip(columns) {
        if !is_same_type(&field.data_type, column.data_type()) {
            return false;
        }
    }
    true
}
