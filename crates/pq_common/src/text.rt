//! Text that is gathered in memory.
ghost use Rattle.std.specs.Prelude.{◌≡◌, ◌++◌, [], decimal, IfErr, IfOk, MatchOption};
ghost use Rattle.columns_core.specs.Causes.{IsWantOfMemory};
ghost use Rattle.columns_core.specs.Lent.{cell_lent};
ghost use Rattle.pq_common.specs.CellText as spec;
ghost use Rattle.pq_common.specs.CellText.{quoted};
ghost use Rattle.pq_common.specs.Texts.{AddsText};

use crate::block::Block;
use crate::cells::{push_lent, push_quoted};
use crate::growing_sink::GrowingSink;
use columns_core::{Cell, DataType, Error, Lent};
use std::alloc::{AllocError, Global};
use std::marker::Model;

/// Text that grows in memory. Contracts see its bytes; behind an error they are not told.
#[derive(Drop)]
pub struct Text {
    block: Block,
    out: GrowingSink,
}

impl Model for Text {
    ghost use Rattle.std.specs.Prelude.{ℕ, List, ◌++◌};

    ghost Value = { List ℕ };

    ghost view = { λ text. text.out.bytes.items ++ text.block };
}

impl Text {
    /// No text.
    pub fn new(alloc: Global) -> Self
        ensures { result ≡ [] }
    {
        Text {
            block: Block::new(),
            out: GrowingSink::new(alloc),
        }
    }

    /// Adds a piece.
    pub fn push(&mut self, piece: &[u8]) -> Result<(), AllocError>
        ensures { AddsText piece.now self.old result self.new }
    {
        self.block
            .push(&mut self.out, piece)
            .map_err(|_| AllocError)
    }

    /// Adds a label, and the decimal digits of a count behind it.
    pub fn push_labelled(&mut self, label: &[u8], number: usize) -> Result<(), AllocError>
        ensures { AddsText (label.now ++ decimal number) self.old result self.new }
    {
        self.block
            .push_labelled(&mut self.out, label, number)
            .map_err(|_| AllocError)
    }

    /// Adds a text in quotes.
    pub fn push_quoted(&mut self, bytes: &[u8]) -> Result<(), AllocError>
        ensures { AddsText (quoted bytes.now) self.old result self.new }
    {
        push_quoted(&mut self.block, &mut self.out, bytes).map_err(|_| AllocError)
    }

    /// Adds a cell.
    pub fn push_cell(&mut self, cell: &Cell) -> Result<(), AllocError>
        ensures { AddsText (spec.cell_text cell.now) self.old result self.new }
    {
        match lent_of(cell) {
            Some(lent) => push_lent(&mut self.block, &mut self.out, lent).map_err(|_| AllocError),
            None => Ok(()),
        }
    }

    /// The text.
    pub fn into_bytes(self) -> Result<Vec<u8>, AllocError>
        ensures { IfOk result (λ bytes. bytes.items ≡ self) }
    {
        let Text { mut block, mut out } = self;
        match block.flush(&mut out) {
            Ok(()) => Ok(out.bytes),
            Err(_) => Err(AllocError),
        }
    }
}

/// A cell, read where it lies. Cells inside a cell have no text.
fn lent_of(cell: &Cell) -> Option<Lent<'_>>
    ensures { MatchOption result (spec.cell_text cell.now ≡ []) (λ lent. cell_lent lent ≡ cell.now) }
{
    match cell {
        Cell::Null => Some(Lent::Null),
        Cell::Bool(value) => Some(Lent::Bool(*value)),
        Cell::Int(number) => Some(Lent::Int(*number)),
        Cell::DaysMs(days, milliseconds) => Some(Lent::DaysMs(*days, *milliseconds)),
        Cell::Text(text) => Some(Lent::Text(text.as_str())),
        Cell::Bytes(bytes) => Some(Lent::Bytes(bytes.as_slice())),
        Cell::Cells(_) => None,
    }
}

/// The text of a cell of a type, as rows have it. The type of a cell decides nothing in its text.
pub fn cell_text(alloc: Global, _data_type: &DataType, cell: &Cell) -> Result<Vec<u8>, Error>
    ensures text { IfOk result (λ text. text.items ≡ spec.cell_text cell.now) }
    ensures memory { IfErr result IsWantOfMemory }
{
    let mut text = Text::new(alloc);
    text.push_cell(cell)?;
    Ok(text.into_bytes()?)
}
