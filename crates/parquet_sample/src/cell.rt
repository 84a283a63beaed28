//! The cells of the sample file.

ghost use Rattle.std.specs.Prelude.{◌≡◌, ◌<◌, ◌+◌, string_bytes, IfErr, IfOk, OnErr};
ghost use Rattle.columns_core.specs.declared.error.Error.TheVariants.{OutOfMemory};
ghost use Rattle.parquet_sample.specs.Sample.{sample_cell_at, name_text};

use columns_core::{Cell, Error, Name};
use itoa::Buffer;
use std::alloc::{AllocError, Global};

/// `r` and the digits of a number.
fn name_of(alloc: Global, number: u64) -> Result<String, AllocError>
    ensures { IfOk result (λ name. string_bytes name ≡ name_text number) }
{
    let mut buffer = Buffer::new();
    let mut name = String::new(alloc);
    name.push_str("r")?;
    name.push_str(buffer.format(number))?;
    Ok(name)
}

/// The cell of a row in one of the three columns.
pub fn sample_cell(alloc: Global, seed: u32, column: usize, row: u32) -> Result<Cell, Error>
    requires { column < 3 }
    ensures cell { IfOk result (λ cell. cell ≡ sample_cell_at column (seed + row)) }
    ensures memory { IfErr result (λ e. e ≡ OutOfMemory) }
    ensures numbers { OnErr result (column ≡ 2) }
{
    let number = u64::from(seed) + u64::from(row);
    match column {
        0 => Ok(Cell::Int(i128::from(number))),
        1 if number % 5 == 0 => Ok(Cell::Null),
        1 => Ok(Cell::Int(i128::from(number % 1000))),
        _ => Ok(Cell::Text(Name::new(name_of(alloc, number)?))),
    }
}
