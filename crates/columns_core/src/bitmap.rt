//! Lists of truth values, packed in bytes.
ghost use Rattle.std.specs.Prelude.{◌≡◌, ◌<◌, ◌^◌, length, slice_get, not, Some, IfOk, IfErr};
ghost use Rattle.std.specs.Int.Count.{ones};
ghost use Rattle.std.specs.List.{count_by};
ghost use Rattle.parquet_base.specs.Bytes.{little_endian};
ghost use Rattle.columns_core.specs.Causes.{IsWantOfMemory};

use crate::Error;
use crate::bits::bit_at;
use std::alloc::Global;
use std::marker::Model;

/// A list of truth values: eight to a byte, the lowest bit first.
#[derive(Debug, Drop)]
pub struct Bitmap {
    pub(crate) bytes: Vec<u8>,
    pub(crate) length: usize,
}

impl Model for Bitmap {
    ghost use Rattle.std.specs.Prelude.{List, Bool};
    ghost use Rattle.parquet_base.specs.Bytes.{little_endian};
    ghost use Rattle.columns_core.specs.Bits.{low_bits, IsPacked};

    ghost Value = { List Bool };

    ghost view = { λ bitmap. low_bits (little_endian bitmap.bytes.items) bitmap.length };

    ghost invariant = { λ bitmap. IsPacked bitmap.bytes.items bitmap.length };
}

impl Bitmap {
    pub fn len(&self) -> usize
        ensures { result ≡ length self.now }
    {
        self.length
    }

    pub fn get_bit(&self, i: usize) -> bool
        requires { i < length self.now }
        ensures { slice_get self.now i ≡ Some result }
    {
        bit_at(self.bytes.as_slice(), i)
    }

    /// How many of them are false.
    pub fn unset_bits(&self) -> usize
        ensures { result ≡ count_by not self.now }
    {
        let length = self.length;
        let set = count_ones(self.bytes.as_slice());
        length - set
    }

    pub fn try_clone(&self, alloc: Global) -> Result<Self, Error>
        ensures ok { IfOk result (λ copy. copy ≡ self.now) }
        ensures err { IfErr result IsWantOfMemory }
    {
        Ok(Bitmap {
            bytes: Vec::from_slice(alloc, self.bytes.as_slice())?,
            length: self.length,
        })
    }
}

/// How many bits of some bytes are 1, counted eight bytes at a time.
fn count_ones(bytes: &[u8]) -> usize
    requires { ones (little_endian bytes.now) < 2 ^ 64 }
    ensures { result ≡ ones (little_endian bytes.now) }
{
    let mut set = 0;
    let mut rest = bytes;
    while let Some((word, behind)) = rest.split_first_chunk::<8>() {
        set += u64::from_le_bytes(*word).count_ones() as usize;
        rest = behind;
    }
    for byte in rest {
        set += byte.count_ones() as usize;
    }
    set
}
