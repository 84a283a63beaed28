//! Numbers of a fixed width that lie side by side.
ghost use Rattle.std.specs.Prelude.{◌≡◌, ℕ, List, ◌+◌, ◌*◌, ◌-◌, ◌^◌, ◌<◌, ◌≤◌, length, take, drop, slice_get, Some};
ghost use Rattle.parquet_encoding.specs.Bits.{packed};

use crate::bits::{moved, unpack_eight, value_at};

/// `count` numbers of `width` bits, the first of them from bit `bit` of the byte at `place` on.
#[derive(Clone, Copy, Debug, PartialEq, Eq)]
pub struct PackedRun {
    pub place: usize,
    pub bit: usize,
    pub width: u32,
    pub count: usize,
    ghost low: { bit < 8 },
    ghost narrow: { width ≤ 32 },
}

impl PackedRun {
    ghost use Rattle.parquet_encoding.specs.PackedRun.{LiesIn, packed_values};

    /// The first number.
    #[inline(always)]
    pub fn first(&self, bytes: &[u8]) -> u32
        requires some { 0 < self.now.count }
        requires lies { LiesIn bytes.now self.now }
        ensures { slice_get (packed_values self.now bytes.now) 0 ≡ Some result }
    {
        value_at(bytes, self.place, self.bit, self.width)
    }

    /// The first numbers, as many as `out` has room for.
    #[inline(always)]
    pub fn unpack(&self, bytes: &[u8], out: &mut [u32])
        requires lies { LiesIn bytes.now self.now }
        requires enough { length out.old ≤ self.now.count }
        ensures { out.new ≡ take (length out.old) (packed_values self.now bytes.now) }
    {
        unpack_at(bytes, self.place, self.bit, self.width, out);
    }

    /// What is left behind the first `n` numbers.
    #[inline(always)]
    pub(crate) fn behind(&self, n: usize) -> PackedRun
        requires enough { n ≤ self.now.count }
        requires lies { (bytes : List ℕ) × (length bytes < 2 ^ 64) × LiesIn bytes self.now }
        ensures values { (bytes : List ℕ)
            → packed_values result bytes ≡ drop n (packed_values self.now bytes) }
        ensures lies { (bytes : List ℕ) → LiesIn bytes self.now → LiesIn bytes result }
        ensures count { result.count ≡ self.now.count - n }
    {
        let (place, bit) = moved(self.place, self.bit, self.width, n);
        PackedRun {
            place,
            bit,
            width: self.width,
            count: self.count - n,
        }
    }
}

/// Fills `out` with the numbers of `width` bits from bit `bit` behind a place on.
fn unpack_at(bytes: &[u8], place: usize, bit: usize, width: u32, out: &mut [u32])
    requires low { bit < 8 }
    requires narrow { width ≤ 32 }
    requires within { 8 * place + (bit + length out.old * width) ≤ 8 * length bytes.now }
    ensures { out.new ≡ packed bytes.now width (8 * place + bit) (length out.old) }
{
    let groups = out.len() / 8;
    let mut at = place;
    for group in 0..groups {
        let eight = &mut out[8 * group..8 * group + 8];
        unpack_eight(bytes, at, bit, width, eight);
        at += width as usize;
    }
    let mut shift = bit;
    for i in 8 * groups..out.len() {
        out[i] = value_at(bytes, at, shift, width);
        shift += width as usize;
    }
}
