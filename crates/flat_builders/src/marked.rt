//! Values that are appended one by one, and which of them are there.
ghost use Rattle.std.specs.Prelude.{◌≡◌, ◌++◌, [], ◌∷◌, if◌then◌else◌, IsTrue, true, length, map, IfOk, IfErr, OnOk};
ghost use Rattle.columns_core.specs.Causes.{IsWantOfMemory};
ghost use Rattle.columns_core.specs.Column.{as_column, cell_of};
ghost use Rattle.columns_core.specs.ElementType.{is_boolean};
ghost use Rattle.flat_values.specs.CellTypes.{is_cell_at};
ghost use Rattle.flat_builders.specs.Kept.{IsRefusedCell};

use crate::from_cell::FromCell;
use columns_core::{
    Bitmap, BooleanArray, Cell, DataType, Error, MutableBitmap, NativeType, Part, PrimitiveArray,
};
use std::alloc::Global;
use std::marker::Model;

/// Values, and which of them are there: a mark for each, so that a value that is refused leaves no trace. Contracts see
/// the list of values and nulls.
#[derive(Drop)]
pub(crate) struct Marked<T> {
    values: Vec<T>,
    marks: Vec<bool>,
}

impl<T> Model for Marked<T> {
    ghost use Rattle.std.specs.Prelude.{◌≡◌, List, Option, length};
    ghost use Rattle.std.specs.Coded.{coded_list, coded_option};
    ghost use Rattle.columns_core.specs.Column.{where_set};

    ghost Value = { List (Option T) };

    ghost coded = { coded_list (coded_option T.code) };

    ghost view = { λ marked. where_set marked.values.items marked.marks.items };

    ghost invariant = { λ marked. length marked.marks.items ≡ length marked.values.items };
}

impl<T: FromCell> Marked<T> {
    /// No values, with memory for `capacity` of them.
    pub(crate) fn with_capacity(alloc: Global, capacity: usize) -> Result<Self, Error>
        ensures empty { IfOk result (λ marked. marked ≡ []) }
        ensures memory { IfErr result IsWantOfMemory }
    {
        Ok(Marked {
            values: Vec::with_capacity(alloc, capacity)?,
            marks: Vec::with_capacity(alloc, capacity)?,
        })
    }

    pub(crate) fn len(&self) -> usize
        ensures { result ≡ length self.now }
    {
        self.values.len()
    }

    /// Appends the value that a cell holds, or a null, or leaves the values as they were.
    pub(crate) fn push_cell(&mut self, cell: &Cell) -> Result<(), Error>
        ensures ok { let to_cell = cell_of T.to_cell in
            OnOk result (map to_cell self.new ≡ map to_cell self.old ++ cell.now ∷ []) }
        ensures typed { OnOk result (is_cell_at T.kind cell.now ≡ true) }
        ensures same { IfErr result (λ _. self.new ≡ self.old) }
        ensures err { IfErr result (λ e. IsRefusedCell (is_cell_at T.kind cell.now) true e) }
    {
        match cell {
            Cell::Null => self.push(T::blank(), false),
            _ => match T::from_cell(cell) {
                None => Err(Error::InvalidArgumentError(Part::Request)),
                Some(value) => self.push(value, true),
            },
        }
    }

    /// Appends a value that is there, or one that stands for a null.
    fn push(&mut self, value: T, is_there: bool) -> Result<(), Error>
        ensures ok { OnOk result (self.new ≡ self.old ++ (if is_there then Some value else None) ∷ []) }
        ensures err { IfErr result (λ e. IsWantOfMemory e × (self.new ≡ self.old)) }
    {
        self.values.reserve(1)?;
        self.marks.reserve(1)?;
        self.values.push_reserved(value);
        self.marks.push_reserved(is_there);
        Ok(())
    }
}

impl<T: NativeType> Marked<T> {
    /// The array of these values, of a type that stores them.
    pub(crate) fn into_primitive(self, data_type: DataType) -> Result<PrimitiveArray<T>, Error>
        requires { IsTrue (T.stores data_type) }
        ensures array { IfOk result (λ array. array ≡ as_column data_type self) }
        ensures memory { IfErr result IsWantOfMemory }
    {
        let Marked { values, marks } = self;
        let mask = bits_of(&marks)?;
        PrimitiveArray::try_new(data_type, values, Some(mask))
    }
}

impl Marked<bool> {
    /// The array of these truth values.
    pub(crate) fn into_boolean(self, data_type: DataType) -> Result<BooleanArray, Error>
        requires { IsTrue (is_boolean data_type) }
        ensures array { IfOk result (λ array. array ≡ as_column data_type self) }
        ensures memory { IfErr result IsWantOfMemory }
    {
        let Marked { values, marks } = self;
        let bits = bits_of(&values)?;
        let mask = bits_of(&marks)?;
        BooleanArray::try_new(data_type, bits, Some(mask))
    }
}

/// Truth values, eight to a byte.
pub(crate) fn bits_of(truths: &Vec<bool>) -> Result<Bitmap, Error>
    ensures ok { IfOk result (λ bits. bits ≡ truths.now.items) }
    ensures memory { IfErr result IsWantOfMemory }
{
    let mut bits = MutableBitmap::with_capacity(*truths.allocator(), truths.len())?;
    for truth in truths {
        bits.push(*truth)?;
    }
    Ok(bits.freeze())
}
