//! Plain truth values, one bit each.
ghost use Rattle.std.specs.Prelude.{◌≡◌, ℕ, List, ◌+◌, ◌^◌, ◌<◌, min, length, take, drop, map, slice_get, is_ok, is_some, Some, IsSome, IfSome, IfOk};
ghost use Rattle.parquet_encoding.specs.PackedRun.{LiesIn, packed_values};
ghost use Rattle.parquet_encoding.specs.Plain.{plain_bits, truth};

use crate::bits::value_at;
use crate::packed_run::PackedRun;
use parquet_base::Unspelled;

/// Walks truth values.
///
/// It holds places in the bytes, and the bytes are handed to each call.
#[derive(Clone, Copy)]
pub struct PlainBits {
    /// The bit of the next value.
    next: usize,
    /// How many values are still to come.
    left: usize,
    ghost counted: { next + left < 2 ^ 64 },
}

impl PlainBits {
    ghost use Rattle.parquet_encoding.specs.PlainLeft.{bits_left, truths};

    /// Before the first of `count` truth values.
    pub fn try_new(bytes: &[u8], count: usize) -> Result<Self, Unspelled>
        ensures values { IfOk result (λ decoder.
            bits_left decoder bytes.now ≡ plain_bits bytes.now count) }
        ensures exact { is_ok result ≡ is_some (plain_bits bytes.now count) }
        ensures counted { IfOk result (λ decoder. length (truths decoder bytes.now) ≡ count) }
    {
        if count.div_ceil(8) > bytes.len() {
            return Err(Unspelled);
        }
        Ok(PlainBits {
            next: 0,
            left: count,
        })
    }

    /// The next truth value. The bytes are those of `try_new`.
    pub fn next(&mut self, bytes: &[u8]) -> Option<bool>
        requires { IsSome (bits_left self.old bytes.now) }
        ensures value { result ≡ slice_get (truths self.old bytes.now) 0 }
        ensures rest { bits_left self.new bytes.now ≡ Some (drop 1 (truths self.old bytes.now)) }
    {
        if self.left == 0 {
            return None;
        }
        let bit = value_at(bytes, self.next / 8, self.next % 8, 1);
        self.next += 1;
        self.left -= 1;
        Some(bit == 1)
    }

    /// The bits of the next `n` truth values, or of all that are left. The bytes are those of `try_new`.
    pub fn take(&mut self, bytes: &[u8], n: usize) -> PackedRun
        requires { IsSome (bits_left self.old bytes.now) }
        ensures values { map truth (packed_values result bytes.now) ≡ take n (truths self.old bytes.now) }
        ensures count { result.count ≡ min n (length (truths self.old bytes.now)) }
        ensures bits { result.width ≡ 1 }
        ensures lies { LiesIn bytes.now result }
        ensures rest { bits_left self.new bytes.now ≡ Some (drop n (truths self.old bytes.now)) }
    {
        let run = PackedRun {
            place: self.next / 8,
            bit: self.next % 8,
            width: 1,
            count: n.min(self.left),
        };
        self.next += run.count;
        self.left -= run.count;
        run
    }

    /// Passes over `n` truth values, or over all that are left. The bytes are those of `try_new`.
    pub fn skip(&mut self, bytes: &[u8], n: usize)
        requires { IsSome (bits_left self.old bytes.now) }
        ensures { bits_left self.new bytes.now ≡ Some (drop n (truths self.old bytes.now)) }
    {
        let _passed = self.take(bytes, n);
    }

    /// How many truth values are left.
    pub fn remaining(&self) -> usize
        ensures { (bytes : List ℕ) →
            IfSome (bits_left self.now bytes) (λ values. result ≡ length values) }
    {
        self.left
    }
}
