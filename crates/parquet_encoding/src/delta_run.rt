//! Deltas that lie side by side.
ghost use Rattle.std.specs.Prelude.{◌≡◌, ℕ, List, ◌+◌, ◌*◌, ◌-◌, ◌^◌, ◌<◌, ◌≤◌, length, take, drop};
ghost use Rattle.parquet_encoding.specs.Bits.{packed};
ghost use Rattle.parquet_encoding.specs.DeltaBinary.{deltas_of};
ghost use Rattle.parquet_encoding.specs.Sums.{number_behind, numbers_before};

use crate::bits::{INSIDE, eight_wide_anywhere, eight_wide_at, moved, wide_at};
use crate::sums::{added, added_all, sums_all, sums_of_steps};

/// `count` deltas: numbers of `width` bits, the first of them from bit `bit` of the byte at `place` on. Each delta is
/// so much above the least.
#[derive(Clone, Copy)]
pub(crate) struct DeltaRun {
    pub(crate) least: i64,
    pub(crate) place: usize,
    pub(crate) bit: usize,
    pub(crate) width: u32,
    pub(crate) count: usize,
    ghost low: { bit < 8 },
    ghost wide: { width ≤ 64 },
}

impl DeltaRun {
    ghost use Rattle.parquet_encoding.specs.DeltaRun.{DeltasLieIn, run_deltas};

    /// The number behind the first delta.
    pub(crate) fn first(&self, bytes: &[u8], value: i64) -> i64
        requires some { 0 < self.now.count }
        requires lies { DeltasLieIn bytes.now self.now }
        ensures { result ≡ number_behind value (take 1 (run_deltas self.now bytes.now)) }
    {
        added(
            value,
            self.least,
            wide_at(bytes, self.place, self.bit, self.width),
        )
    }

    /// The number behind all the deltas.
    pub(crate) fn pass(&self, bytes: &[u8], value: i64) -> i64
        requires { DeltasLieIn bytes.now self.now }
        ensures { result ≡ number_behind value (run_deltas self.now bytes.now) }
    {
        let mut value = value;
        let mut place = self.place;
        for _ in 0..self.count / 8 {
            let eight = eight_wide_at(bytes, place, self.bit, self.width);
            value = added_all(value, self.least, &eight);
            place += self.width as usize;
        }
        let mut bit = self.bit;
        for _ in 0..self.count % 8 {
            value = added(value, self.least, wide_at(bytes, place, bit, self.width));
            bit += self.width as usize;
        }
        value
    }

    /// Writes the numbers before each of the deltas, and gives the number behind them.
    #[tactic(auto, using(crate::proofs::DeltaRunLemmas::packed_zeros))]
    pub(crate) fn sums(&self, bytes: &[u8], value: i64, out: &mut [i64]) -> i64
        requires whole { length out.old ≡ self.now.count }
        requires lies { DeltasLieIn bytes.now self.now }
        ensures sums { out.new ≡ numbers_before value (run_deltas self.now bytes.now) }
        ensures behind { result ≡ number_behind value (run_deltas self.now bytes.now) }
    {
        if self.width == 0 {
            sums_of_steps(value, self.least, out)
        } else {
            self.packed_sums(bytes, value, out)
        }
    }

    /// The same for deltas of some bits.
    fn packed_sums(&self, bytes: &[u8], value: i64, out: &mut [i64]) -> i64
        requires whole { length out.old ≡ self.now.count }
        requires lies { DeltasLieIn bytes.now self.now }
        ensures sums { out.new ≡ numbers_before value (run_deltas self.now bytes.now) }
        ensures behind { result ≡ number_behind value (run_deltas self.now bytes.now) }
    {
        let groups = self.count / 8;
        let mut value = value;
        let mut place = self.place;
        for group in 0..groups {
            let eight = &mut out[8 * group..8 * group + 8];
            value = self.sums_of_eight(bytes, place, value, eight);
            place += self.width as usize;
        }
        let mut bit = self.bit;
        for i in 8 * groups..self.count {
            out[i] = value;
            value = added(value, self.least, wide_at(bytes, place, bit, self.width));
            bit += self.width as usize;
        }
        value
    }

    /// The same for eight deltas at a place. The widest are read apart, so that the others need no registers for them.
    #[inline(always)]
    fn sums_of_eight(&self, bytes: &[u8], place: usize, value: i64, out: &mut [i64]) -> i64
        requires room { length out.old ≡ 8 }
        requires lies { 8 * place + (self.now.bit + 8 * self.now.width) ≤ 8 * length bytes.now }
        ensures sums { out.new ≡ numbers_before value
            (deltas_of self.now.least (packed bytes.now self.now.width (8 * place + self.now.bit) 8)) }
        ensures behind { result ≡ number_behind value
            (deltas_of self.now.least (packed bytes.now self.now.width (8 * place + self.now.bit) 8)) }
    {
        if self.width > INSIDE {
            let eight = eight_wide_anywhere(bytes, place, self.bit, self.width);
            return sums_all(value, self.least, &eight, out);
        }
        let eight = eight_wide_at(bytes, place, self.bit, self.width);
        sums_all(value, self.least, &eight, out)
    }

    /// The run of the first `n` deltas.
    pub(crate) fn front(&self, n: usize) -> DeltaRun
        requires { n ≤ self.now.count }
        ensures deltas { (bytes : List ℕ) →
            run_deltas result bytes ≡ take n (run_deltas self.now bytes) }
        ensures lies { (bytes : List ℕ) → DeltasLieIn bytes self.now → DeltasLieIn bytes result }
        ensures count { result.count ≡ n }
    {
        DeltaRun {
            least: self.least,
            place: self.place,
            bit: self.bit,
            width: self.width,
            count: n,
        }
    }

    /// What is left behind the first `n` deltas.
    pub(crate) fn behind(&self, n: usize) -> DeltaRun
        requires enough { n ≤ self.now.count }
        requires lies { (bytes : List ℕ) × (length bytes < 2 ^ 64) × DeltasLieIn bytes self.now }
        ensures deltas { (bytes : List ℕ) →
            run_deltas result bytes ≡ drop n (run_deltas self.now bytes) }
        ensures lies { (bytes : List ℕ) → DeltasLieIn bytes self.now → DeltasLieIn bytes result }
        ensures least { result.least ≡ self.now.least }
        ensures count { result.count ≡ self.now.count - n }
    {
        let (place, bit) = moved(self.place, self.bit, self.width, n);
        DeltaRun {
            least: self.least,
            place,
            bit,
            width: self.width,
            count: self.count - n,
        }
    }
}
