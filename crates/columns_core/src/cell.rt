use crate::{Name, Seq};

/// One item of a column.
#[derive(Drop)]
pub enum Cell {
    Null,
    Bool(bool),
    Int(i128),
    DaysMs(i32, i32),
    Text(Name),
    Bytes(Seq<u8>),
    Cells(Seq<Cell>),
}
