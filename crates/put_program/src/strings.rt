//! Texts and byte strings as pages store them.

ghost use Rattle.std.specs.Prelude.{◌≡◌, IfSome, IsTrue, List, length, map, not, option_map, option_copied};
ghost use Rattle.std.specs.Cmp.Lexicographic.{slice_cmp};
ghost use Rattle.std.specs.Ordering.{is_gt, nat_cmp};
ghost use Rattle.columns_core.specs.Column.{cell_of};
ghost use Rattle.columns_core.specs.ElementType.{fixed_size};
ghost use Rattle.columns_core.specs.Stored.{is_binary, is_sized_text};
ghost use Rattle.columns_core.specs.declared.cell.Cell.{Bytes, Text};
ghost use Rattle.compact_write.specs.Calls.{Writes};
ghost use Rattle.parquet_meta.specs.declared.metadata.PhysicalType.TheVariants as types;
ghost use Rattle.parquet_page.specs.Stored.{Octets};
ghost use Rattle.parquet_plain.specs.Bodies.{with_length};
ghost use Rattle.put_program.specs.Kinds as kind;
ghost use Rattle.put_program.specs.Ordered as order;
ghost use Rattle.put_program.specs.Orders.{bytes_at_most};
ghost use Rattle.put_program.specs.Request.{are_sized};
ghost use Rattle.put_program.specs.Valued as values;

use crate::typed::Typed;
use columns_core::{BinaryArray, FixedSizeBinaryArray, Offset, Utf8Array};
use parquet_write::Items;
use std::alloc::AllocError;

/// How many lengths 32 bits tell.
const LENGTHS: u64 = 1 << 32;

/// A length in 32 bits, and the bytes. (Of a length that is larger the low bits: its page is refused by its own length.)
fn write_string(body: &mut Vec<u8>, bytes: &[u8]) -> Result<(), AllocError>
    ensures { Writes (with_length bytes.now) body.old result body.new }
{
    let length = (bytes.len() as u64 % LENGTHS) as u32;
    body.extend_from_slice(&length.to_le_bytes())?;
    body.extend_from_slice(bytes)?;
    Ok(())
}

/// Whether one string comes no later than another.
fn is_in_order(first: &[u8], second: &[u8]) -> bool
    ensures { result ≡ not (is_gt (slice_cmp nat_cmp first.now second.now)) }
{
    first.cmp(second).is_le()
}

/// An array of texts as items.
#[derive(Clone, Copy)]
pub(crate) struct Texts<'a, O: Offset> {
    pub array: &'a Utf8Array<O>,
}

impl<'a, O: Offset> Items for Texts<'a, O> {
    ghost items = { λ own. map (option_map Octets) own.array.now.items };

    ghost type_ = { λ own. types.ByteArray };

    ghost at_most = { λ own. bytes_at_most };

    ghost ordered = { λ own. order.total_bytes _ };

    fn rows(&self) -> usize {
        self.array.len()
    }

    fn is_there(&self, row: usize) -> bool {
        self.array.get(row).is_some()
    }

    fn write_values(&self, body: &mut Vec<u8>, from: usize, to: usize) -> Result<(), AllocError> {
        for row in from..to {
            if let Some(text) = self.array.get(row) {
                write_string(body, text.as_bytes())?;
            }
        }
        Ok(())
    }

    fn write_end(&self, bytes: &mut Vec<u8>, row: usize) -> Result<(), AllocError> {
        if let Some(text) = self.array.get(row) {
            bytes.extend_from_slice(text.as_bytes())?;
        }
        Ok(())
    }

    fn is_at_most(&self, first: usize, second: usize) -> bool {
        match (self.array.get(first), self.array.get(second)) {
            (Some(a), Some(b)) => is_in_order(a.as_bytes(), b.as_bytes()),
            _ => true,
        }
    }
}

impl<'a, O: Offset> Typed for Texts<'a, O> {
    ghost data_type = { λ own. own.array.now.data_type };

    ghost cells = { λ own. map (cell_of Text) own.array.now.items };

    ghost is_own = { λ own. is_sized_text O.is_large own.array.now.data_type };

    ghost stored = { λ own is_own. values.of_values Text Octets (kind.of_texts O.is_large own.array.now.data_type is_own) own.array.now.items };
}

/// An array of byte strings as items.
#[derive(Clone, Copy)]
pub(crate) struct Strings<'a, O: Offset> {
    pub array: &'a BinaryArray<O>,
}

impl<'a, O: Offset> Items for Strings<'a, O> {
    ghost items = { λ own. map (option_map Octets) own.array.now.items };

    ghost type_ = { λ own. types.ByteArray };

    ghost at_most = { λ own. bytes_at_most };

    ghost ordered = { λ own. order.total_bytes _ };

    fn rows(&self) -> usize {
        self.array.len()
    }

    fn is_there(&self, row: usize) -> bool {
        self.array.get(row).is_some()
    }

    fn write_values(&self, body: &mut Vec<u8>, from: usize, to: usize) -> Result<(), AllocError> {
        for row in from..to {
            if let Some(bytes) = self.array.get(row) {
                write_string(body, bytes)?;
            }
        }
        Ok(())
    }

    fn write_end(&self, bytes: &mut Vec<u8>, row: usize) -> Result<(), AllocError> {
        if let Some(own) = self.array.get(row) {
            bytes.extend_from_slice(own)?;
        }
        Ok(())
    }

    fn is_at_most(&self, first: usize, second: usize) -> bool {
        match (self.array.get(first), self.array.get(second)) {
            (Some(a), Some(b)) => is_in_order(a, b),
            _ => true,
        }
    }
}

impl<'a, O: Offset> Typed for Strings<'a, O> {
    ghost data_type = { λ own. own.array.now.data_type };

    ghost cells = { λ own. map (cell_of Bytes) own.array.now.items };

    ghost is_own = { λ own. is_binary O.is_large own.array.now.data_type };

    ghost stored = { λ own is_own. values.of_values Bytes Octets (kind.of_strings O.is_large own.array.now.data_type is_own) own.array.now.items };
}

/// An array of bytes of one size as items.
#[derive(Clone, Copy)]
pub(crate) struct FixedBytes<'a> {
    pub array: &'a FixedSizeBinaryArray,
}

impl<'a> Items for FixedBytes<'a> {
    ghost items = { λ own. map (option_map Octets) own.array.now.items };

    ghost type_ = { λ own. types.FixedLenByteArray (fixed_size own.array.now.data_type) };

    ghost at_most = { λ own. bytes_at_most };

    ghost ordered = { λ own. order.total_bytes _ };

    fn rows(&self) -> usize {
        self.array.len()
    }

    fn is_there(&self, row: usize) -> bool {
        self.array.get(row).is_some()
    }

    fn write_values(&self, body: &mut Vec<u8>, from: usize, to: usize) -> Result<(), AllocError> {
        for row in from..to {
            if let Some(bytes) = self.array.get(row) {
                body.extend_from_slice(bytes)?;
            }
        }
        Ok(())
    }

    fn write_end(&self, bytes: &mut Vec<u8>, row: usize) -> Result<(), AllocError> {
        if let Some(own) = self.array.get(row) {
            bytes.extend_from_slice(own)?;
        }
        Ok(())
    }

    fn is_at_most(&self, first: usize, second: usize) -> bool {
        match (self.array.get(first), self.array.get(second)) {
            (Some(a), Some(b)) => is_in_order(a, b),
            _ => true,
        }
    }
}

impl<'a> Typed for FixedBytes<'a> {
    ghost data_type = { λ own. own.array.now.data_type };

    ghost cells = { λ own. map (cell_of Bytes) own.array.now.items };

    ghost is_own = { λ own. are_sized own.array.now };

    ghost stored = { λ own is_own. values.of_values Bytes Octets (kind.of_fixed own.array.now.data_type (kind.sized_is_fixed own.array.now is_own)) own.array.now.items };
}
