//! Texts or byte strings that are appended one by one, and which of them are there.
ghost use Rattle.std.specs.Prelude.{◌≡◌, ◌⊎◌, ◌++◌, [], ◌∷◌, if◌then◌else◌, Bool, IsTrue, IsUtf8, false, true, length, map, IfOk, IfErr, IfSome, IfNone, OnOk};
ghost use Rattle.columns_core.specs.Causes.{IsWantOfMemory};
ghost use Rattle.columns_core.specs.Column.{as_column, cell_of};
ghost use Rattle.columns_core.specs.Stored.{is_binary, is_sized_text};
ghost use Rattle.columns_core.specs.declared.cell.Cell.{Null};
ghost use Rattle.flat_values.specs.CellTypes.{is_cell_at};
ghost use Rattle.flat_builders.specs.Built.{byte_layer};
ghost use Rattle.flat_builders.specs.Kept.{IsRefusedCell, bytes_fit};
ghost use Rattle.flat_builders.specs.Strings.{cells_with, string_cell};

use crate::marked::bits_of;
use columns_core::{BinaryArray, Cell, DataType, Error, JoinedStrings, Offset, Part, Utf8Array};
use std::alloc::Global;
use std::marker::Model;

/// Texts or byte strings, and which of them are there; those that are not are empty. Contracts see whether they are texts,
/// and the list of strings and nulls.
#[derive(Drop)]
pub(crate) struct ByteStrings<O: Offset> {
    strings: JoinedStrings<O>,
    marks: Vec<bool>,
    is_text: bool,
}

impl<O: Offset> Model for ByteStrings<O> {
    ghost use Rattle.std.specs.Prelude.{Bool, ℕ, List, Option};
    ghost use Rattle.columns_core.specs.Column.{where_set};
    ghost use Rattle.flat_builders.specs.Strings.{AreKept};

    ghost Value = { Bool × List (Option (List ℕ)) };

    ghost view = { λ kept. (kept.is_text, where_set kept.strings kept.marks.items) };

    ghost invariant = { λ kept. AreKept kept.is_text kept.strings kept.marks.items };
}

impl<O: Offset> ByteStrings<O> {
    /// No strings, with memory for `capacity` of them.
    pub(crate) fn with_capacity(
        alloc: Global,
        capacity: usize,
        is_text: bool,
    ) -> Result<Self, Error>
        ensures empty { IfOk result (λ kept. kept ≡ (is_text, [])) }
        ensures memory { IfErr result IsWantOfMemory }
    {
        Ok(ByteStrings {
            strings: JoinedStrings::with_capacity(alloc, capacity)?,
            marks: Vec::with_capacity(alloc, capacity)?,
            is_text,
        })
    }

    pub(crate) fn len(&self) -> usize
        ensures { result ≡ length self.now.1 }
    {
        self.marks.len()
    }

    /// Appends the string of a cell, or a null, or leaves the strings as they were.
    pub(crate) fn push_cell(&mut self, cell: &Cell) -> Result<(), Error>
        ensures ok { let to_cell = cell_of (string_cell self.old.0) in
            OnOk result (map to_cell self.new.1 ≡ map to_cell self.old.1 ++ cell.now ∷ []) }
        ensures text { self.new.0 ≡ self.old.0 }
        ensures typed { OnOk result (is_cell_at (byte_layer self.old.0 O.is_large) cell.now ≡ true) }
        ensures fits { let cells = map (cell_of (string_cell self.old.0)) self.old.1 ++ cell.now ∷ [] in
            OnOk result (bytes_fit O.greatest cells ≡ true) }
        ensures same { IfErr result (λ _. self.new ≡ self.old) }
        ensures err { let cells = map (cell_of (string_cell self.old.0)) self.old.1 ++ cell.now ∷ [] in
            let typed = is_cell_at (byte_layer self.old.0 O.is_large) cell.now in
            IfErr result (λ e. IsRefusedCell typed (bytes_fit O.greatest cells) e) }
    {
        match cell {
            Cell::Null => self.push(&[], false),
            _ => match bytes_of(cell, self.is_text) {
                None => Err(Error::InvalidArgumentError(Part::Request)),
                Some(bytes) => self.push(bytes, true),
            },
        }
    }

    /// Appends a string that is there, or an empty one that is not.
    fn push(&mut self, string: &[u8], is_there: bool) -> Result<(), Error>
        requires judged { IsTrue self.old.0 → IsUtf8 string.now }
        requires empty { IsTrue is_there ⊎ (string.now ≡ []) }
        ensures ok { let item = if is_there then Some string.now else None in
            OnOk result (self.new ≡ (self.old.0, self.old.1 ++ item ∷ [])) }
        ensures fits { OnOk result (bytes_fit O.greatest (cells_with self.old is_there string.now) ≡ true) }
        ensures same { IfErr result (λ _. self.new ≡ self.old) }
        ensures err { let fits = bytes_fit O.greatest (cells_with self.old is_there string.now) in
            IfErr result (λ e. IsRefusedCell true fits e) }
    {
        self.marks.reserve(1)?;
        self.strings.push(string)?;
        self.marks.push_reserved(is_there);
        Ok(())
    }

    /// Whether the strings are texts.
    pub(crate) fn is_text(&self) -> bool
        ensures { result ≡ self.now.0 }
    {
        self.is_text
    }

    /// The array of the texts.
    pub(crate) fn into_texts(self, data_type: DataType) -> Result<Utf8Array<O>, Error>
        requires text { IsTrue self.0 }
        requires stored { IsTrue (is_sized_text O.is_large data_type) }
        ensures array { IfOk result (λ array. array ≡ as_column data_type self.1) }
        ensures memory { IfErr result IsWantOfMemory }
    {
        let ByteStrings {
            strings,
            marks,
            is_text: _,
        } = self;
        let mask = bits_of(&marks)?;
        let (offsets, values) = strings.into_parts();
        Ok(Utf8Array::of_texts(data_type, offsets, values, Some(mask)))
    }

    /// The array of the byte strings.
    pub(crate) fn into_bytes(self, data_type: DataType) -> Result<BinaryArray<O>, Error>
        requires { IsTrue (is_binary O.is_large data_type) }
        ensures array { IfOk result (λ array. array ≡ as_column data_type self.1) }
        ensures memory { IfErr result IsWantOfMemory }
    {
        let ByteStrings {
            strings,
            marks,
            is_text: _,
        } = self;
        let mask = bits_of(&marks)?;
        let (offsets, values) = strings.into_parts();
        BinaryArray::try_new(data_type, offsets, values, Some(mask))
    }
}

/// The bytes of a cell that is a text, or a byte string, whichever is asked for.
fn bytes_of(cell: &Cell, is_text: bool) -> Option<&[u8]>
    ensures some { IfSome result (λ bytes.
        (cell.now ≡ string_cell is_text bytes.now) × (IsTrue is_text → IsUtf8 bytes.now)) }
    ensures none { IfNone result ((cell.now ≡ Null)
        ⊎ ((is_large : Bool) → is_cell_at (byte_layer is_text is_large) cell.now ≡ false)) }
{
    match cell {
        Cell::Text(text) if is_text => Some(text.as_str().as_bytes()),
        Cell::Bytes(bytes) if !is_text => Some(bytes.as_slice()),
        _ => None,
    }
}
