//! Byte strings of one size, in one vector that grows.
ghost use Rattle.std.specs.Prelude.{◌≡◌, ◌<◌, ◌+◌, ◌*◌, ◌%◌, ◌≤◌, ◌^◌, ◌++◌, IsTrue, [], ◌∷◌, None, length, take, drop, replicate, slice_get, option_copied, IfOk, IfErr, IfSome, OnOk};
ghost use Rattle.std.specs.List.{concat};
ghost use Rattle.columns_core.specs.Causes.{IsWantOfMemory, is_invalid_argument};
ghost use Rattle.columns_core.specs.ElementType.{fixed_size};
ghost use Rattle.columns_core.specs.Fixed.{fixed_pieces};
ghost use Rattle.page_decoding.specs.Queue.{IsChunkSize};
ghost use Rattle.page_decoding.specs.Pushing.{GrowsByBlank};
ghost use Rattle.flat_values.specs.FixedItems.{AreOfSize};

use crate::{FixedValues, FlatDecoder, FlatIter};
use columns_core::{DataType, Error, Part};
use page_decoding::Pushable;
use parquet_page::Pages;
use std::alloc::{AllocError, Global};
use std::marker::Model;

/// Items of so many bytes each. A contract sees the size and the items.
#[derive(Drop)]
pub struct FixedSizeBinary {
    values: Vec<u8>,
    size: usize,
}

impl Model for FixedSizeBinary {
    ghost use Rattle.std.specs.Prelude.{◌≡◌, ◌<◌, ◌%◌, length};
    ghost use Rattle.columns_core.specs.Fixed.{fixed_pieces};
    ghost use Rattle.flat_values.specs.FixedItems.{FixedItems, fixed_items_code};

    ghost Value = { FixedItems };

    ghost coded = { fixed_items_code };

    ghost view = { λ inside. record { size = inside.size; items = fixed_pieces inside.size inside.values.items } };

    ghost invariant = { λ inside. (0 < inside.size) × (length inside.values.items % inside.size ≡ 0) };
}

impl FixedSizeBinary {
    /// No items, with memory for `capacity` of them.
    pub fn with_capacity(alloc: Global, capacity: usize, size: usize) -> Result<Self, Error>
        requires size { 0 < size }
        requires room { capacity * size < 2 ^ 64 }
        ensures ok { IfOk result (λ empty. empty ≡ record { size = size; items = [] }) }
        ensures err { IfErr result IsWantOfMemory }
    {
        Ok(FixedSizeBinary {
            values: Vec::with_capacity(alloc, capacity * size)?,
            size,
        })
    }

    /// The bytes of all items, joined.
    pub fn values(&self) -> &[u8]
        ensures { result.now ≡ concat self.now.items }
    {
        self.values.as_slice()
    }

    /// The bytes of all items, joined.
    pub fn into_values(self) -> Vec<u8>
        ensures items { fixed_pieces self.size result.items ≡ self.items }
        ensures whole { length result.items % self.size ≡ 0 }
        ensures size { 0 < self.size }
    {
        let FixedSizeBinary { values, size: _ } = self;
        values
    }

    /// How many bytes each item has.
    pub fn size(&self) -> usize
        ensures size { result ≡ self.now.size }
        ensures some { 0 < result }
    {
        self.size
    }

    /// The number of items.
    pub fn len(&self) -> usize
        ensures { result ≡ length self.now.items }
    {
        self.values.len() / self.size
    }

    /// The item at a place, if there is one.
    pub fn get(&self, i: usize) -> Option<&[u8]>
        ensures item { option_copied result ≡ slice_get self.now.items i }
        ensures size { IfSome result (λ item. length item.now ≡ self.now.size) }
    {
        if i < self.len() {
            Some(item_at(self.values.as_slice(), self.size, i))
        } else {
            None
        }
    }

    pub fn push(&mut self, value: &[u8]) -> Result<(), Error>
        requires { length value.now ≡ self.old.size }
        ensures ok { OnOk result (self.new ≡
            record self.old { items = self.old.items ++ value.now ∷ [] }) }
        ensures err { IfErr result (λ e. IsWantOfMemory e × (self.new ≡ self.old)) }
    {
        self.values.extend_from_slice(value)?;
        Ok(())
    }

    /// The items of plain fixed bytes, in one copy.
    pub fn extend_from_plain(&mut self, bytes: &[u8]) -> Result<(), Error>
        requires { length bytes.now % self.old.size ≡ 0 }
        ensures ok { OnOk result (self.new
            ≡ record self.old { items = self.old.items ++ fixed_pieces self.old.size bytes.now }) }
        ensures err { IfErr result (λ e. IsWantOfMemory e × (self.new ≡ self.old)) }
    {
        self.values.extend_from_slice(bytes)?;
        Ok(())
    }

    /// An item of zero bytes, which stands where there is no value.
    pub fn push_null(&mut self) -> Result<(), Error>
        ensures ok { OnOk result (self.new
            ≡ record self.old { items = self.old.items ++ replicate self.old.size 0 ∷ [] }) }
        ensures err { IfErr result (λ e. IsWantOfMemory e × (self.new ≡ self.old)) }
    {
        self.extend_constant(1)
    }

    /// So many items of zero bytes.
    pub fn extend_constant(&mut self, additional: usize) -> Result<(), Error>
        ensures ok { OnOk result (self.new
            ≡ record self.old {
              items = self.old.items
                  ++ replicate additional (replicate self.old.size 0);
            }) }
        ensures err { IfErr result (λ e. IsWantOfMemory e × (self.new ≡ self.old)) }
    {
        let bytes = length_with(self.values.len(), additional, self.size)?;
        self.values.resize(bytes, 0)?;
        Ok(())
    }
}

impl FixedSizeBinary {
    /// The same item so many times.
    pub fn extend_repeated(&mut self, additional: usize, value: &[u8]) -> Result<(), Error>
        requires { length value.now ≡ self.old.size }
        ensures ok { OnOk result (self.new
            ≡ record self.old { items = self.old.items ++ replicate additional value.now }) }
        ensures err { IfErr result (λ e. IsWantOfMemory e × (self.new ≡ self.old)) }
    {
        repeat(&mut self.values, value, additional)?;
        Ok(())
    }

    /// Takes memory for so many items more.
    pub fn reserve(&mut self, additional: usize) -> Result<(), Error>
        ensures same { self.new ≡ self.old }
        ensures err { IfErr result IsWantOfMemory }
    {
        let bytes = length_with(0, additional, self.size)?;
        self.values.reserve(bytes)?;
        Ok(())
    }
}

/// Lists to which items of one size are appended.
impl<'a> Pushable<&'a [u8]> for FixedSizeBinary {
    ghost use Rattle.std.specs.Prelude.{ℕ, List, true};

    ghost Item = { List ℕ };

    ghost Shape = { ℕ };

    ghost held = { λ list. list.items };

    ghost shape = { λ list. list.size };

    ghost item = { λ value. value.now };

    ghost takes = { λ size value. length value.now ≡ size };

    ghost is_blank = { λ size item. item ≡ replicate size 0 };

    ghost fit = { λ _. true };

    fn reserve(&mut self, additional: usize) -> Result<(), Error>
        ensures items { self.new.items ≡ self.old.items }
        ensures shape { self.new.size ≡ self.old.size }
        ensures memory { IfErr result IsWantOfMemory }
    {
        FixedSizeBinary::reserve(self, additional)
    }

    fn push(&mut self, value: &'a [u8]) -> Result<(), Error> {
        FixedSizeBinary::push(self, value)
    }

    fn push_null(&mut self) -> Result<(), Error>
        ensures items { GrowsByBlank (λ item. item ≡ replicate self.old.size 0)
            self.old.items self.new.items result }
        ensures shape { self.new.size ≡ self.old.size }
    {
        FixedSizeBinary::push_null(self)
    }

    fn extend_constant(&mut self, additional: usize, value: &'a [u8]) -> Result<(), Error> {
        self.extend_repeated(additional, value)
    }

    fn len(&self) -> usize
        ensures { result ≡ length self.now.items }
    {
        FixedSizeBinary::len(self)
    }
}

/// The same bytes so many times, or none of them.
fn repeat(values: &mut Vec<u8>, item: &[u8], additional: usize) -> Result<(), AllocError>
    ensures ok { OnOk result (values.new.items ≡
        values.old.items ++ concat (replicate additional item.now)) }
    ensures err { IfErr result (λ _. values.new.items ≡ values.old.items) }
{
    let held = values.len();
    for _ in 0..additional {
        if let Err(error) = values.extend_from_slice(item) {
            values.truncate(held);
            return Err(error);
        }
    }
    Ok(())
}

fn item_at(bytes: &[u8], size: usize, i: usize) -> &[u8]
    requires { i * size + size ≤ length bytes.now }
    ensures { result.now ≡ take size (drop (i * size) bytes.now) }
{
    &bytes[i * size..][..size]
}

/// The number of bytes with so many items more. Bytes that no memory can hold are told of as want of memory.
fn length_with(bytes: usize, additional: usize, size: usize) -> Result<usize, Error>
    ensures ok { IfOk result (λ sum. sum ≡ bytes + additional * size) }
    ensures err { IfErr result IsWantOfMemory }
{
    match additional.checked_mul(size) {
        None => Err(Error::OutOfMemory),
        Some(more) => match bytes.checked_add(more) {
            None => Err(Error::OutOfMemory),
            Some(sum) => Ok(sum),
        },
    }
}

/// Decodes pages of byte strings of one size.
pub type BinaryDecoder = FlatDecoder<FixedValues>;

impl FlatDecoder<FixedValues> {
    /// Of strings of so many bytes.
    pub fn new(size: usize) -> Self
        requires { 0 < size }
        ensures { result.values.size ≡ size }
    {
        FlatDecoder {
            values: FixedValues::new(size),
        }
    }
}

/// Arrays of byte strings of one size.
pub type Iter<I> = FlatIter<I, FixedValues>;

impl<I: Pages> FlatIter<I, FixedValues> {
    /// The rows of these pages, at most so many. Where the type is that of byte strings of one size, the pages have such byte strings.
    pub fn new(
        alloc: Global,
        iter: I,
        data_type: DataType,
        num_rows: usize,
        chunk_size: Option<usize>,
    ) -> Result<Self, Error>
        requires takes { AreOfSize (fixed_size data_type) (I.to_come iter) }
        ensures ok { IfOk result (λ _. IsChunkSize chunk_size × (0 < fixed_size data_type)) }
        ensures err { IfErr result (λ e. IsTrue (is_invalid_argument e)
            × (IsChunkSize chunk_size → 0 < fixed_size data_type → ⊥)) }
        ensures values { IfOk result (λ arrays. arrays.chunks.decoder.values.size ≡ fixed_size data_type) }
        ensures iter { IfOk result (λ arrays.
            arrays ≡ record {
              data_type = data_type;
              chunks = record {
                pages = iter;
                decoder = arrays.chunks.decoder;
                size = chunk_size;
                waiting = [];
                remaining = num_rows;
                dictionary = None;
              };
            }) }
    {
        let size = match &data_type {
            DataType::FixedSizeBinary(size) if *size > 0 => *size,
            _ => return Err(Error::InvalidArgumentError(Part::Request)),
        };
        Self::of_values(
            alloc,
            iter,
            FixedValues::new(size),
            data_type,
            num_rows,
            chunk_size,
        )
    }
}
