//! Readers of dictionary pages.
ghost use Rattle.std.specs.Prelude.{◌≡◌, List, Ok, IfOk};
ghost use Rattle.columns_core.specs.Array.{cells, data_type_of};
ghost use Rattle.columns_core.specs.Causes.{ComesOf};
ghost use Rattle.columns_core.specs.declared.cell.Cell.{Cell};
ghost use Rattle.parquet_page.specs.Content.{dict_content};
ghost use Rattle.page_decoding.specs.Outcome.{causes_in, refusal_of};

use columns_core::{Array, Error};
use parquet_page::DictPage;
use std::alloc::Global;

/// Reads dictionary pages as arrays of one type.
pub trait ReadDict {
    ghost use Rattle.std.specs.Prelude.{Result};
    ghost use Rattle.columns_core.specs.Causes.{Cause};
    ghost use Rattle.columns_core.specs.declared.data_type.DataType.{DataType};
    ghost use Rattle.parquet_page.specs.Content.{DictContent};

    /// The type of the arrays.
    ghost value_type: { Self → DataType };

    /// The entries of a dictionary page, or what is wrong with it.
    ghost entries: { Self → DictContent → Result (List Cell) (List Cause) };

    /// The entries of a dictionary page, all of them, in an array.
    fn read(&self, alloc: Global, page: &DictPage<'_>) -> Result<Array, Error>
        ensures typed { IfOk result (λ array. data_type_of array ≡ value_type self.now) }
        ensures entries { IfOk result (λ array.
            entries self.now (dict_content page.now) ≡ Ok (cells array)) }
        ensures cause { let found = entries self.now (dict_content page.now) in
            ComesOf result (causes_in (refusal_of found)) };
}

impl<R: ReadDict> ReadDict for &R {
    ghost value_type = { λ reader. R.value_type reader.now };

    ghost entries = { λ reader. R.entries reader.now };

    fn read(&self, alloc: Global, page: &DictPage<'_>) -> Result<Array, Error> {
        (**self).read(alloc, page)
    }
}
