//! Arrays of a type as items, and the chunks that they become.

ghost use Rattle.std.specs.Prelude.{◌≡◌, ◌<◌, Bool, IsTrue, List, map};
ghost use Rattle.columns_core.specs.declared.cell.Cell.{Cell};
ghost use Rattle.columns_core.specs.declared.data_type.DataType.{DataType};
ghost use Rattle.parquet_plain.specs.Columns.{written_chunk};
ghost use Rattle.put_program.specs.Put.{written_field};
ghost use Rattle.put_program.specs.Stored.{is_written, stored_cell};
ghost use Rattle.put_program.specs.Typed.{AddsColumn, AreStored};

use crate::fields::repetition_of;
use columns_core::{Error, Field};
use parquet_write::{ChunkFacts, Items, Paging, Parts, add_chunk};
use std::alloc::Global;

/// Items that are an array.
pub(crate) trait Typed: Items {
    /// The type of the array.
    ghost data_type: { Self → DataType };

    /// Its cells.
    ghost cells: { Self → List Cell };

    /// It is one that stores this type.
    ghost is_own: { Self → Bool };

    /// The items are what is stored of the cells.
    ghost stored: { (array : Self) → IsTrue (is_own array)
        → AreStored (data_type array) (cells array)
        (Self.type_ array) (Self.at_most array) (Self.items array) };
}

/// A chunk of an array, and what is told of it.
pub(crate) fn add_typed<I: Typed>(
    alloc: Global,
    parts: &mut Parts,
    field: &Field,
    array: &I,
    page_rows: usize,
) -> Result<ChunkFacts, Error>
    requires paged { 0 < page_rows }
    requires own { IsTrue (I.is_own array.now) }
    requires same { I.data_type array.now ≡ field.now.data_type }
    requires written { IsTrue (is_written field.now.data_type) }
    ensures { let items = map (stored_cell field.now.data_type) (I.cells array.now) in
        let chunk = written_chunk (written_field page_rows field.now) items in
        AddsColumn chunk parts.old result parts.new }
{
    let paging = Paging {
        repetition: repetition_of(field),
        page_rows,
    };
    add_chunk(alloc, parts, array, paging)
}
