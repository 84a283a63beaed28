//! Lists of truth values that grow.
ghost use Rattle.std.specs.Prelude.{◌≡◌, ◌<◌, ◌≤◌, ◌+◌, ◌*◌, ◌^◌, ◌++◌, ◌∷◌, [], length, replicate, IfOk, OnOk, IfErr};
ghost use Rattle.columns_core.specs.Bits.{bits_of};
ghost use Rattle.columns_core.specs.Causes.{IsWantOfMemory};

use crate::packing::{extend_packed, extend_with, push_bit};
use crate::{Bitmap, Error};
use std::alloc::Global;
use std::marker::Model;

/// A list of truth values that grows: eight to a byte, the lowest bit first.
#[derive(Debug, Drop)]
pub struct MutableBitmap {
    bytes: Vec<u8>,
    length: usize,
}

impl Model for MutableBitmap {
    ghost use Rattle.std.specs.Prelude.{List, Bool};
    ghost use Rattle.parquet_base.specs.Bytes.{little_endian};
    ghost use Rattle.columns_core.specs.Bits.{low_bits, IsPacked};

    ghost Value = { List Bool };

    ghost view = { λ bitmap. low_bits (little_endian bitmap.bytes.items) bitmap.length };

    ghost invariant = { λ bitmap. IsPacked bitmap.bytes.items bitmap.length };
}

impl MutableBitmap {
    /// An empty list with memory for `capacity` bits.
    pub fn with_capacity(alloc: Global, capacity: usize) -> Result<Self, Error>
        ensures ok { IfOk result (λ bitmap. bitmap ≡ []) }
        ensures err { IfErr result IsWantOfMemory }
    {
        Ok(MutableBitmap {
            bytes: Vec::with_capacity(alloc, capacity.div_ceil(8))?,
            length: 0,
        })
    }

    pub fn len(&self) -> usize
        ensures { result ≡ length self.now }
    {
        self.length
    }

    /// Takes memory for so many bits more.
    pub fn reserve(&mut self, additional: usize) -> Result<(), Error>
        ensures same { self.new ≡ self.old }
        ensures err { IfErr result IsWantOfMemory }
    {
        self.bytes.reserve(additional.div_ceil(8))?;
        Ok(())
    }

    pub fn push(&mut self, value: bool) -> Result<(), Error>
        ensures ok { OnOk result (self.new ≡ self.old ++ value ∷ []) }
        ensures err { IfErr result (λ e. IsWantOfMemory e × (self.new ≡ self.old)) }
    {
        let length = self.length_with(1)?;
        push_bit(&mut self.bytes, self.length, value)?;
        self.length = length;
        Ok(())
    }

    pub fn extend_constant(&mut self, additional: usize, value: bool) -> Result<(), Error>
        ensures ok { OnOk result (self.new ≡ self.old ++ replicate additional value) }
        ensures err { IfErr result (λ e. IsWantOfMemory e × (self.new ≡ self.old)) }
    {
        let length = self.length_with(additional)?;
        extend_with(&mut self.bytes, self.length, additional, value)?;
        self.length = length;
        Ok(())
    }

    /// Appends the bits `offset` to `offset + len` of some bytes.
    pub fn extend_from_slice(
        &mut self,
        bytes: &[u8],
        offset: usize,
        len: usize,
    ) -> Result<(), Error>
        requires { offset + len ≤ 8 * length bytes.now }
        ensures ok { OnOk result (self.new ≡ self.old ++ bits_of bytes.now offset len) }
        ensures err { IfErr result (λ e. IsWantOfMemory e × (self.new ≡ self.old)) }
    {
        let length = self.length_with(len)?;
        extend_packed(&mut self.bytes, self.length, bytes, offset, len)?;
        self.length = length;
        Ok(())
    }

    /// The length with so many bits more. A list that no memory can hold is told of as want of memory.
    fn length_with(&self, additional: usize) -> Result<usize, Error>
        ensures ok { IfOk result (λ sum. (sum ≡ length self.now + additional) × (sum < 2 ^ 64)) }
        ensures err { IfErr result IsWantOfMemory }
    {
        match self.length.checked_add(additional) {
            None => Err(Error::OutOfMemory),
            Some(sum) => Ok(sum),
        }
    }

    pub fn freeze(self) -> Bitmap
        ensures { result ≡ self }
    {
        let MutableBitmap { bytes, length } = self;
        Bitmap { bytes, length }
    }
}
