//! Cells that are read where they lie.
ghost use Rattle.std.specs.Prelude.{◌≡◌, ◌<◌, ◌↔◌, IsTrue, IfOk, IfErr, Some, length, slice_get};
ghost use Rattle.columns_core.specs.Causes.{IsWantOfMemory};
ghost use Rattle.columns_core.specs.Lent.{cell_lent, nest_cells, AreThere, IsThere, lent_depth, nest_depth};

use crate::{Array, Cell, Error, Name, NativeType, Seq, days_ms};
use std::alloc::Global;

/// A cell whose text, bytes or cells lie in an array: it is read without a copy and takes no memory.
#[derive(Clone, Copy)]
pub enum Lent<'a> {
    Null,
    Bool(bool),
    Int(i128),
    DaysMs(i32, i32),
    Text(&'a str),
    Bytes(&'a [u8]),
    Cells(Nest<'a>),
}

/// Cells that lie one behind another in an array, or one of each of some arrays.
#[derive(Clone, Copy)]
pub enum Nest<'a> {
    /// Those of an array from one place up to another: the items of a list.
    Along(&'a Array, usize, usize),
    /// Of each array that at a place: the fields of a struct.
    Across(&'a [Array], usize),
}

impl<'a> Nest<'a> {
    /// How many cells there are.
    pub fn len(self) -> usize
        requires { AreThere self }
        ensures { result ≡ length (nest_cells self.entry) }
    {
        match self {
            Nest::Along(_, start, end) => end - start,
            Nest::Across(columns, _) => columns.len(),
        }
    }

    /// One of the cells, read where it lies.
    pub fn part(self, k: usize) -> Lent<'a>
        requires there { AreThere self }
        requires within { k < length (nest_cells self) }
        ensures cell { slice_get (nest_cells self.entry) k ≡ Some (cell_lent result) }
        ensures there { IsThere result }
        ensures shallow { lent_depth result < nest_depth self.entry }
    {
        match self {
            Nest::Along(items, start, _) => items.lent(start + k),
            Nest::Across(columns, i) => columns[k].lent(i),
        }
    }
}

impl<'a> Lent<'a> {
    #[cycle(to_cell)]
    pub(crate) fn to_cell(self, alloc: Global) -> Result<Cell, Error>
        requires { IsThere self }
        ensures cell { IfOk result (λ cell. cell ≡ cell_lent self.entry) }
        ensures memory { IfErr result IsWantOfMemory }
    {
        Ok(match self {
            Lent::Null => Cell::Null,
            Lent::Bool(value) => Cell::Bool(value),
            Lent::Int(value) => Cell::Int(value),
            Lent::DaysMs(days, milliseconds) => Cell::DaysMs(days, milliseconds),
            Lent::Text(text) => Cell::Text(Name::new(String::from_str(alloc, text)?)),
            Lent::Bytes(bytes) => Cell::Bytes(Seq::new(Vec::from_slice(alloc, bytes)?)),
            Lent::Cells(inside) => Cell::Cells(to_cells(inside, alloc)?),
        })
    }

    #[cycle(is_same_lent)]
    pub(crate) fn is_same(self, other: Lent<'a>) -> bool
        requires own { IsThere self }
        requires other { IsThere other }
        ensures { IsTrue result ↔ (cell_lent self.entry ≡ cell_lent other.entry) }
    {
        match self {
            Lent::Null => matches!(other, Lent::Null),
            // Values are compared in a match of their own: a test inside `matches!` takes longer to prove.
            Lent::Bool(value) => match other {
                Lent::Bool(that) => value == that,
                _ => false,
            },
            Lent::Int(value) => match other {
                Lent::Int(that) => value == that,
                _ => false,
            },
            Lent::DaysMs(days, milliseconds) => match other {
                Lent::DaysMs(that, rest) => days == that && milliseconds == rest,
                _ => false,
            },
            Lent::Text(text) => match other {
                Lent::Text(that) => text == that,
                _ => false,
            },
            Lent::Bytes(bytes) => match other {
                Lent::Bytes(that) => bytes == that,
                _ => false,
            },
            Lent::Cells(inside) => match other {
                Lent::Cells(that) => are_same(inside, that),
                _ => false,
            },
        }
    }
}

#[cycle(to_cell)]
fn to_cells(inside: Nest<'_>, alloc: Global) -> Result<Seq<Cell>, Error>
    requires { AreThere inside }
    ensures cells { IfOk result (λ cells. cells ≡ nest_cells inside.entry) }
    ensures memory { IfErr result IsWantOfMemory }
{
    let mut cells = Vec::new(alloc);
    for k in 0..inside.len() {
        cells.push(inside.part(k).to_cell(alloc)?)?;
    }
    Ok(Seq::new(cells))
}

#[cycle(is_same_lent)]
fn are_same(a: Nest<'_>, b: Nest<'_>) -> bool
    requires a { AreThere a }
    requires b { AreThere b }
    ensures { IsTrue result ↔ (nest_cells a.entry ≡ nest_cells b.entry) }
{
    if a.len() != b.len() {
        return false;
    }
    for k in 0..a.len() {
        if !a.part(k).is_same(b.part(k)) {
            return false;
        }
    }
    true
}

/// A number that a cell holds whole.
pub(crate) trait Lends: NativeType {
    fn lent<'a>(self) -> Lent<'a>
        ensures cell { cell_lent result ≡ Self.cell self }
        ensures there { IsThere result }
        ensures flat { lent_depth result ≡ 0 };
}

impl Lends for i8 {
    fn lent<'a>(self) -> Lent<'a> {
        Lent::Int(self as i128)
    }
}

impl Lends for i16 {
    fn lent<'a>(self) -> Lent<'a> {
        Lent::Int(self as i128)
    }
}

impl Lends for i32 {
    fn lent<'a>(self) -> Lent<'a> {
        Lent::Int(self as i128)
    }
}

impl Lends for i64 {
    fn lent<'a>(self) -> Lent<'a> {
        Lent::Int(self as i128)
    }
}

impl Lends for u8 {
    fn lent<'a>(self) -> Lent<'a> {
        Lent::Int(self as i128)
    }
}

impl Lends for u16 {
    fn lent<'a>(self) -> Lent<'a> {
        Lent::Int(self as i128)
    }
}

impl Lends for u32 {
    fn lent<'a>(self) -> Lent<'a> {
        Lent::Int(self as i128)
    }
}

impl Lends for u64 {
    fn lent<'a>(self) -> Lent<'a> {
        Lent::Int(self as i128)
    }
}

impl Lends for i128 {
    fn lent<'a>(self) -> Lent<'a> {
        Lent::Int(self)
    }
}

impl Lends for days_ms {
    fn lent<'a>(self) -> Lent<'a> {
        Lent::DaysMs(self.0, self.1)
    }
}
