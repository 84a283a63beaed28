//! Equality of arrays: equal type and equal cells.
ghost use Rattle.std.specs.Prelude.{◌≡◌, ◌<◌, ◌↔◌, IsTrue, Some, length, slice_get};
ghost use Rattle.columns_core.specs.Lent.{cell_lent, IsThere};
ghost use Rattle.columns_core.specs.Shown.{Shown};

use crate::array::{lent_bytes, lent_number, lent_string, lent_text, lent_truth};
use crate::equal::is_same_type;
use crate::lent::{Lends, Lent};
use crate::{
    Array, BinaryArray, BooleanArray, Chunk, DataType, DictionaryArray, FixedSizeBinaryArray,
    ListArray, MapArray, NullArray, Offset, PrimitiveArray, StructArray, Utf8Array,
};

/// An array as its data type and its cells.
trait Columnar {
    ghost shown: { Self → Shown };

    fn type_of(&self) -> &DataType
        ensures { result.now ≡ (shown self.now).0 };

    fn count(&self) -> usize
        ensures { result ≡ length (shown self.now).1 };

    fn cell_at(&self, i: usize) -> Lent<'_>
        requires { i < length (shown self.now).1 }
        ensures cell { slice_get (shown self.now).1 i ≡ Some (cell_lent result) }
        ensures there { IsThere result };
}

fn is_same_array<A: Columnar>(a: &A, b: &A) -> bool
    ensures { IsTrue result ↔ (A.shown a.now ≡ A.shown b.now) }
{
    is_same_type(a.type_of(), b.type_of()) && has_same_cells(a, b)
}

fn has_same_cells<A: Columnar>(a: &A, b: &A) -> bool
    ensures { IsTrue result ↔ ((A.shown a.now).1 ≡ (A.shown b.now).1) }
{
    if a.count() != b.count() {
        return false;
    }
    for i in 0..a.count() {
        if !a.cell_at(i).is_same(b.cell_at(i)) {
            return false;
        }
    }
    true
}

impl Columnar for Array {
    ghost use Rattle.columns_core.specs.Array.{column_of};

    ghost shown = { column_of };

    fn type_of(&self) -> &DataType {
        self.data_type()
    }

    fn count(&self) -> usize {
        self.len()
    }

    fn cell_at(&self, i: usize) -> Lent<'_> {
        self.lent(i)
    }
}

impl PartialEq for Array {
    ghost use Rattle.columns_core.specs.Equal.{is_same};
    ghost use Rattle.columns_core.specs.Same.{seen_laws};
    ghost use Rattle.columns_core.specs.Shown.{shown_code};
    ghost use Rattle.columns_core.specs.contracts.cell.Cell.{the_row as cell_row};
    ghost use Rattle.columns_core.specs.contracts.data_type.DataType.{the_row as data_type_row};
    ghost use Rattle.columns_core.specs.Array.{column_of};

    ghost eq = { λ a b. is_same (shown_code data_type_row.coded cell_row.coded) (column_of a) (column_of b) };

    ghost laws = { seen_laws (shown_code data_type_row.coded cell_row.coded) (column_of) };

    fn eq(&self, other: &Self) -> bool {
        is_same_array(self, other)
    }
}

impl Columnar for NullArray {
    ghost use Rattle.columns_core.specs.Shown.{shown_nulls};

    ghost shown = { shown_nulls };

    fn type_of(&self) -> &DataType {
        self.data_type()
    }

    fn count(&self) -> usize {
        self.len()
    }

    fn cell_at(&self, _i: usize) -> Lent<'_> {
        Lent::Null
    }
}

impl PartialEq for NullArray {
    ghost use Rattle.columns_core.specs.Equal.{is_same};
    ghost use Rattle.columns_core.specs.Same.{seen_laws};
    ghost use Rattle.columns_core.specs.Shown.{shown_code};
    ghost use Rattle.columns_core.specs.contracts.cell.Cell.{the_row as cell_row};
    ghost use Rattle.columns_core.specs.contracts.data_type.DataType.{the_row as data_type_row};
    ghost use Rattle.columns_core.specs.Shown.{shown_nulls};

    ghost eq = { λ a b. is_same (shown_code data_type_row.coded cell_row.coded) (shown_nulls a) (shown_nulls b) };

    ghost laws = { seen_laws (shown_code data_type_row.coded cell_row.coded) (shown_nulls) };

    fn eq(&self, other: &Self) -> bool {
        is_same_array(self, other)
    }
}

impl Columnar for BooleanArray {
    ghost use Rattle.columns_core.specs.Shown.{shown_by};
    ghost use Rattle.columns_core.specs.declared.cell.Cell.{Bool};

    ghost shown = { shown_by Bool };

    fn type_of(&self) -> &DataType {
        self.data_type()
    }

    fn count(&self) -> usize {
        self.len()
    }

    fn cell_at(&self, i: usize) -> Lent<'_> {
        lent_truth(self, i)
    }
}

impl PartialEq for BooleanArray {
    ghost use Rattle.columns_core.specs.Equal.{is_same};
    ghost use Rattle.columns_core.specs.Same.{seen_laws};
    ghost use Rattle.columns_core.specs.Shown.{shown_code};
    ghost use Rattle.columns_core.specs.contracts.cell.Cell.{the_row as cell_row};
    ghost use Rattle.columns_core.specs.contracts.data_type.DataType.{the_row as data_type_row};
    ghost use Rattle.columns_core.specs.Shown.{shown_by};
    ghost use Rattle.columns_core.specs.declared.cell.Cell.{Bool};

    ghost eq = { λ a b. is_same (shown_code data_type_row.coded cell_row.coded) (shown_by Bool a) (shown_by Bool b) };

    ghost laws = { seen_laws (shown_code data_type_row.coded cell_row.coded) (shown_by Bool) };

    fn eq(&self, other: &Self) -> bool {
        is_same_array(self, other)
    }
}

impl<T: Lends> Columnar for PrimitiveArray<T> {
    ghost use Rattle.columns_core.specs.Shown.{shown_by};

    ghost shown = { shown_by T.cell };

    fn type_of(&self) -> &DataType {
        self.data_type()
    }

    fn count(&self) -> usize {
        self.len()
    }

    fn cell_at(&self, i: usize) -> Lent<'_> {
        lent_number(self, i)
    }
}

impl<T: Lends> PartialEq for PrimitiveArray<T> {
    ghost use Rattle.columns_core.specs.Equal.{is_same};
    ghost use Rattle.columns_core.specs.Same.{seen_laws};
    ghost use Rattle.columns_core.specs.Shown.{shown_code};
    ghost use Rattle.columns_core.specs.contracts.cell.Cell.{the_row as cell_row};
    ghost use Rattle.columns_core.specs.contracts.data_type.DataType.{the_row as data_type_row};
    ghost use Rattle.columns_core.specs.Shown.{shown_by};

    ghost eq = { λ a b. is_same (shown_code data_type_row.coded cell_row.coded) (shown_by T.cell a) (shown_by T.cell b) };

    ghost laws = { seen_laws (shown_code data_type_row.coded cell_row.coded) (shown_by T.cell) };

    fn eq(&self, other: &Self) -> bool {
        is_same_array(self, other)
    }
}

impl<O: Offset> Columnar for Utf8Array<O> {
    ghost use Rattle.columns_core.specs.Shown.{shown_by};
    ghost use Rattle.columns_core.specs.declared.cell.Cell.{Text};

    ghost shown = { shown_by Text };

    fn type_of(&self) -> &DataType {
        self.data_type()
    }

    fn count(&self) -> usize {
        self.len()
    }

    fn cell_at(&self, i: usize) -> Lent<'_> {
        lent_text(self, i)
    }
}

impl<O: Offset> PartialEq for Utf8Array<O> {
    ghost use Rattle.columns_core.specs.Equal.{is_same};
    ghost use Rattle.columns_core.specs.Same.{seen_laws};
    ghost use Rattle.columns_core.specs.Shown.{shown_code};
    ghost use Rattle.columns_core.specs.contracts.cell.Cell.{the_row as cell_row};
    ghost use Rattle.columns_core.specs.contracts.data_type.DataType.{the_row as data_type_row};
    ghost use Rattle.columns_core.specs.Shown.{shown_by};
    ghost use Rattle.columns_core.specs.declared.cell.Cell.{Text};

    ghost eq = { λ a b. is_same (shown_code data_type_row.coded cell_row.coded) (shown_by Text a) (shown_by Text b) };

    ghost laws = { seen_laws (shown_code data_type_row.coded cell_row.coded) (shown_by Text) };

    fn eq(&self, other: &Self) -> bool {
        is_same_array(self, other)
    }
}

impl<O: Offset> Columnar for BinaryArray<O> {
    ghost use Rattle.columns_core.specs.Shown.{shown_by};
    ghost use Rattle.columns_core.specs.declared.cell.Cell.{Bytes};

    ghost shown = { shown_by Bytes };

    fn type_of(&self) -> &DataType {
        self.data_type()
    }

    fn count(&self) -> usize {
        self.len()
    }

    fn cell_at(&self, i: usize) -> Lent<'_> {
        lent_string(self, i)
    }
}

impl<O: Offset> PartialEq for BinaryArray<O> {
    ghost use Rattle.columns_core.specs.Equal.{is_same};
    ghost use Rattle.columns_core.specs.Same.{seen_laws};
    ghost use Rattle.columns_core.specs.Shown.{shown_code};
    ghost use Rattle.columns_core.specs.contracts.cell.Cell.{the_row as cell_row};
    ghost use Rattle.columns_core.specs.contracts.data_type.DataType.{the_row as data_type_row};
    ghost use Rattle.columns_core.specs.Shown.{shown_by};
    ghost use Rattle.columns_core.specs.declared.cell.Cell.{Bytes};

    ghost eq = { λ a b. is_same (shown_code data_type_row.coded cell_row.coded) (shown_by Bytes a) (shown_by Bytes b) };

    ghost laws = { seen_laws (shown_code data_type_row.coded cell_row.coded) (shown_by Bytes) };

    fn eq(&self, other: &Self) -> bool {
        is_same_array(self, other)
    }
}

impl Columnar for FixedSizeBinaryArray {
    ghost use Rattle.columns_core.specs.Shown.{shown_by};
    ghost use Rattle.columns_core.specs.declared.cell.Cell.{Bytes};

    ghost shown = { shown_by Bytes };

    fn type_of(&self) -> &DataType {
        self.data_type()
    }

    fn count(&self) -> usize {
        self.len()
    }

    fn cell_at(&self, i: usize) -> Lent<'_> {
        lent_bytes(self, i)
    }
}

impl PartialEq for FixedSizeBinaryArray {
    ghost use Rattle.columns_core.specs.Equal.{is_same};
    ghost use Rattle.columns_core.specs.Same.{seen_laws};
    ghost use Rattle.columns_core.specs.Shown.{shown_code};
    ghost use Rattle.columns_core.specs.contracts.cell.Cell.{the_row as cell_row};
    ghost use Rattle.columns_core.specs.contracts.data_type.DataType.{the_row as data_type_row};
    ghost use Rattle.columns_core.specs.Shown.{shown_by};
    ghost use Rattle.columns_core.specs.declared.cell.Cell.{Bytes};

    ghost eq = { λ a b. is_same (shown_code data_type_row.coded cell_row.coded) (shown_by Bytes a) (shown_by Bytes b) };

    ghost laws = { seen_laws (shown_code data_type_row.coded cell_row.coded) (shown_by Bytes) };

    fn eq(&self, other: &Self) -> bool {
        is_same_array(self, other)
    }
}

impl Columnar for DictionaryArray {
    ghost use Rattle.columns_core.specs.Shown.{shown_keyed};

    ghost shown = { shown_keyed };

    fn type_of(&self) -> &DataType {
        self.data_type()
    }

    fn count(&self) -> usize {
        self.len()
    }

    fn cell_at(&self, i: usize) -> Lent<'_> {
        self.lent(i)
    }
}

impl PartialEq for DictionaryArray {
    ghost use Rattle.columns_core.specs.Equal.{is_same};
    ghost use Rattle.columns_core.specs.Same.{seen_laws};
    ghost use Rattle.columns_core.specs.Shown.{shown_code};
    ghost use Rattle.columns_core.specs.contracts.cell.Cell.{the_row as cell_row};
    ghost use Rattle.columns_core.specs.contracts.data_type.DataType.{the_row as data_type_row};
    ghost use Rattle.columns_core.specs.Shown.{shown_keyed};

    ghost eq = { λ a b. is_same (shown_code data_type_row.coded cell_row.coded) (shown_keyed a) (shown_keyed b) };

    ghost laws = { seen_laws (shown_code data_type_row.coded cell_row.coded) (shown_keyed) };

    fn eq(&self, other: &Self) -> bool {
        is_same_array(self, other)
    }
}

impl Columnar for ListArray {
    ghost use Rattle.columns_core.specs.Shown.{shown_by};
    ghost use Rattle.columns_core.specs.declared.cell.Cell.{Cells};

    ghost shown = { shown_by Cells };

    fn type_of(&self) -> &DataType {
        self.data_type()
    }

    fn count(&self) -> usize {
        self.len()
    }

    fn cell_at(&self, i: usize) -> Lent<'_> {
        self.lent(i)
    }
}

impl PartialEq for ListArray {
    ghost use Rattle.columns_core.specs.Equal.{is_same};
    ghost use Rattle.columns_core.specs.Same.{seen_laws};
    ghost use Rattle.columns_core.specs.Shown.{shown_code};
    ghost use Rattle.columns_core.specs.contracts.cell.Cell.{the_row as cell_row};
    ghost use Rattle.columns_core.specs.contracts.data_type.DataType.{the_row as data_type_row};
    ghost use Rattle.columns_core.specs.Shown.{shown_by};
    ghost use Rattle.columns_core.specs.declared.cell.Cell.{Cells};

    ghost eq = { λ a b. is_same (shown_code data_type_row.coded cell_row.coded) (shown_by Cells a) (shown_by Cells b) };

    ghost laws = { seen_laws (shown_code data_type_row.coded cell_row.coded) (shown_by Cells) };

    fn eq(&self, other: &Self) -> bool {
        is_same_array(self, other)
    }
}

impl Columnar for StructArray {
    ghost use Rattle.columns_core.specs.Shown.{shown_by};
    ghost use Rattle.columns_core.specs.declared.cell.Cell.{Cells};

    ghost shown = { shown_by Cells };

    fn type_of(&self) -> &DataType {
        self.data_type()
    }

    fn count(&self) -> usize {
        self.len()
    }

    fn cell_at(&self, i: usize) -> Lent<'_> {
        self.lent(i)
    }
}

impl PartialEq for StructArray {
    ghost use Rattle.columns_core.specs.Equal.{is_same};
    ghost use Rattle.columns_core.specs.Same.{seen_laws};
    ghost use Rattle.columns_core.specs.Shown.{shown_code};
    ghost use Rattle.columns_core.specs.contracts.cell.Cell.{the_row as cell_row};
    ghost use Rattle.columns_core.specs.contracts.data_type.DataType.{the_row as data_type_row};
    ghost use Rattle.columns_core.specs.Shown.{shown_by};
    ghost use Rattle.columns_core.specs.declared.cell.Cell.{Cells};

    ghost eq = { λ a b. is_same (shown_code data_type_row.coded cell_row.coded) (shown_by Cells a) (shown_by Cells b) };

    ghost laws = { seen_laws (shown_code data_type_row.coded cell_row.coded) (shown_by Cells) };

    fn eq(&self, other: &Self) -> bool {
        is_same_array(self, other)
    }
}

impl Columnar for MapArray {
    ghost use Rattle.columns_core.specs.Shown.{shown_by};
    ghost use Rattle.columns_core.specs.declared.cell.Cell.{Cells};

    ghost shown = { shown_by Cells };

    fn type_of(&self) -> &DataType {
        self.data_type()
    }

    fn count(&self) -> usize {
        self.len()
    }

    fn cell_at(&self, i: usize) -> Lent<'_> {
        self.lent(i)
    }
}

impl PartialEq for MapArray {
    ghost use Rattle.columns_core.specs.Equal.{is_same};
    ghost use Rattle.columns_core.specs.Same.{seen_laws};
    ghost use Rattle.columns_core.specs.Shown.{shown_code};
    ghost use Rattle.columns_core.specs.contracts.cell.Cell.{the_row as cell_row};
    ghost use Rattle.columns_core.specs.contracts.data_type.DataType.{the_row as data_type_row};
    ghost use Rattle.columns_core.specs.Shown.{shown_by};
    ghost use Rattle.columns_core.specs.declared.cell.Cell.{Cells};

    ghost eq = { λ a b. is_same (shown_code data_type_row.coded cell_row.coded) (shown_by Cells a) (shown_by Cells b) };

    ghost laws = { seen_laws (shown_code data_type_row.coded cell_row.coded) (shown_by Cells) };

    fn eq(&self, other: &Self) -> bool {
        is_same_array(self, other)
    }
}

impl PartialEq for Chunk {
    ghost use Rattle.std.specs.Cmp.Lexicographic.{pointwise, lists_per};
    ghost use Rattle.columns_core.specs.Array.{column_of};
    ghost use Rattle.columns_core.specs.Equal.{is_same};
    ghost use Rattle.columns_core.specs.Same.{seen_laws};
    ghost use Rattle.columns_core.specs.Shown.{shown_code};
    ghost use Rattle.columns_core.specs.contracts.cell.Cell.{the_row as cell_row};
    ghost use Rattle.columns_core.specs.contracts.data_type.DataType.{the_row as data_type_row};

    ghost eq = { pointwise (λ a b. is_same (shown_code data_type_row.coded cell_row.coded) (column_of a) (column_of b)) };

    ghost laws = { lists_per (seen_laws (shown_code data_type_row.coded cell_row.coded) column_of) };

    fn eq(&self, other: &Self) -> bool {
        self.arrays() == other.arrays()
    }
}
