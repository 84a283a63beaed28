//! The whole file.

ghost use Rattle.std.specs.Prelude.{◌≡◌, IfErr, IfOk, OnOk, Some, true};
ghost use Rattle.put_program.specs.Put.{is_short_file, put, put_description};
ghost use Rattle.put_program.specs.Request.{FitsTogether, RefusesToPut, columns_of_chunks};

use crate::fields::descriptors_of;
use crate::group::add_groups;
use crate::request::fits_together;
use columns_core::{Chunk, Error, Part, Schema};
use parquet_write::{Parts, end_file};
use std::alloc::Global;

/// The bytes of a plain file: a column for each field, a group for each chunk, and pages of `page_rows` rows, the last of a group the rest.
///
/// # Errors
///
/// `InvalidArgumentError` where there is no field, two fields have one name, pages have no rows, the arrays of a chunk are not of the fields' types
/// in turn, or a field that may have no null has one; else `NotYetImplemented` where a type is not written; else `Overflow` where a page has 2^31
/// rows or more, a page with its header or an index has 2^31 bytes or more, all rows are 2^63 or more, or the footer has 2^32 bytes or more.
pub fn put_file(
    alloc: Global,
    schema: &Schema,
    chunks: &[Chunk],
    page_rows: usize,
) -> Result<Vec<u8>, Error>
    ensures written { let columns = columns_of_chunks chunks.now in
        IfOk result (λ bytes. put schema.now.fields columns page_rows ≡ Some bytes.items) }
    ensures fits { OnOk result (FitsTogether schema.now.fields chunks.now page_rows) }
    ensures tellable { let columns = columns_of_chunks chunks.now in
        OnOk result (is_short_file (put_description schema.now.fields columns page_rows) ≡ true) }

    // Each error comes only where its own cause stands, and want of memory at any time; no other comes.
    ensures refused { IfErr result (RefusesToPut schema.now.fields chunks.now page_rows) }
{
    let fields = schema.fields.as_slice();
    if !fits_together(fields, chunks, page_rows) {
        return Err(Error::InvalidArgumentError(Part::Request));
    }
    let columns = descriptors_of(alloc, fields)?;
    let mut parts = Parts::new(alloc)?;
    let groups = add_groups(alloc, &mut parts, fields, chunks, page_rows)?;
    end_file(parts, &columns, &groups)
}
