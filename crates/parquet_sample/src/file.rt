//! The whole file.

ghost use Rattle.std.specs.Prelude.{◌≡◌, ◌≤◌, ◌<◌, ◌+◌, ◌^◌, IfErr, IfOk};
ghost use Rattle.columns_core.specs.declared.error.Error.TheVariants.{InvalidArgumentError, OutOfMemory};
ghost use Rattle.columns_core.specs.declared.error.Part.TheVariants.{Request};
ghost use Rattle.parquet_sample.specs.Sample.{most_rows, sample};

use crate::group::write_groups;
use crate::schema::schema;
use columns_core::{Error, Part};
use parquet_write::{JoinedParts, Parts, write_end_of_file};
use std::alloc::{AllocError, Global};

/// The rows of the largest sample.
const MOST_ROWS: u32 = 2_000_000;

/// The file of so many rows.
fn write_file(alloc: Global, first: u64, rows: u32) -> Result<Vec<u8>, AllocError>
    requires few { rows < 2 ^ 31 }
    requires fits { first + rows < 2 ^ 63 }
    ensures written { IfOk result (λ bytes. bytes.items ≡ sample rows first) }
{
    let columns = schema(alloc)?;
    let mut parts = Parts::new(alloc)?;
    let groups = write_groups(alloc, &mut parts, first, rows)?;
    let JoinedParts { mut bytes, bases } = parts.join()?;
    write_end_of_file(&mut bytes, &columns, bases, &groups)?;
    Ok(bytes)
}

/// The sample of `rows` rows, whose numbers are their places and `seed` added.
///
/// # Errors
///
/// `InvalidArgumentError` where more than 2,000,000 rows are asked for; otherwise only want of memory.
pub fn sample_file(alloc: Global, rows: u32, seed: u32) -> Result<Vec<u8>, Error>
    ensures written { IfOk result (λ bytes. bytes.items ≡ sample rows seed) }
    ensures few { IfOk result (λ _. rows ≤ most_rows) }
    ensures refusal { most_rows < rows → IfErr result (λ e. e ≡ InvalidArgumentError Request) }
    ensures memory { rows ≤ most_rows → IfErr result (λ e. e ≡ OutOfMemory) }
{
    if rows > MOST_ROWS {
        return Err(Error::InvalidArgumentError(Part::Request));
    }
    Ok(write_file(alloc, u64::from(seed), rows)?)
}
