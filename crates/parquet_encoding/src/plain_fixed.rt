//! Plain values of one size, one behind the other.
ghost use Rattle.std.specs.Prelude.{◌≡◌, ℕ, List, ◌+◌, ◌*◌, ◌≤◌, min, length, take, drop, map, slice_get, is_ok, is_some, Some, IsSome, IfSome, IfOk, option_map};
ghost use Rattle.std.specs.Simd.{first_chunks};
ghost use Rattle.parquet_encoding.specs.Plain.{plain_fixed};
ghost use Rattle.parquet_encoding.specs.Places.{bytes_in, places_of};

use parquet_base::Unspelled;

/// Walks values of one size.
///
/// It holds places in the bytes, and the bytes are handed to each call.
#[derive(Clone, Copy)]
pub struct PlainFixed {
    size: usize,
    /// Where the next value begins.
    next: usize,
    /// How many values are still to come.
    left: usize,
}

impl PlainFixed {
    ghost use Rattle.parquet_encoding.specs.PlainLeft.{fixed_left, fixed_values, value_size};

    /// Before the first of `count` values of `size` bytes.
    pub fn try_new(bytes: &[u8], size: usize, count: usize) -> Result<Self, Unspelled>
        ensures values { IfOk result (λ decoder.
            fixed_left decoder bytes.now ≡ option_map (places_of 0 0) (plain_fixed size bytes.now count)) }
        ensures exact { is_ok result ≡ is_some (plain_fixed size bytes.now count) }
        ensures counted { IfOk result (λ decoder. length (fixed_values decoder bytes.now) ≡ count) }
        ensures sized { IfOk result (λ decoder. value_size decoder ≡ size) }
    {
        let Some(whole) = count.checked_mul(size) else {
            return Err(Unspelled);
        };
        if bytes.len() != whole {
            return Err(Unspelled);
        }
        Ok(PlainFixed {
            size,
            next: 0,
            left: count,
        })
    }

    /// Where the next value stands: its start and its length. The bytes are those of `try_new`.
    pub fn next(&mut self, bytes: &[u8]) -> Option<(usize, usize)>
        requires { IsSome (fixed_left self.old bytes.now) }
        ensures value { result ≡ slice_get (fixed_values self.old bytes.now) 0 }
        ensures within { IfSome result (λ place. place.0 + place.1 ≤ length bytes.now) }
        ensures rest { fixed_left self.new bytes.now ≡ Some (drop 1 (fixed_values self.old bytes.now)) }
        ensures sized { value_size self.new ≡ value_size self.old }
    {
        if self.left == 0 {
            return None;
        }
        let start = self.next;
        self.next += self.size;
        self.left -= 1;
        Some((start, self.size))
    }

    /// The bytes of the next `n` values, or of all that are left. The bytes are those of `try_new`.
    pub fn take<'a>(&mut self, bytes: &'a [u8], n: usize) -> &'a [u8]
        requires { IsSome (fixed_left self.old bytes.now) }
        ensures values { let count = min n (length (fixed_values self.old bytes.now)) in
            first_chunks (value_size self.old) count result.now
            ≡ map (bytes_in bytes.now) (take n (fixed_values self.old bytes.now)) }
        ensures whole { length result.now
            ≡ min n (length (fixed_values self.old bytes.now)) * value_size self.old }
        ensures rest { fixed_left self.new bytes.now ≡ Some (drop n (fixed_values self.old bytes.now)) }
        ensures sized { value_size self.new ≡ value_size self.old }
    {
        let count = n.min(self.left);
        let end = self.next + count * self.size;
        let part = &bytes[self.next..end];
        self.next = end;
        self.left -= count;
        part
    }

    /// Passes over `n` values, or over all that are left. The bytes are those of `try_new`.
    pub fn skip(&mut self, bytes: &[u8], n: usize)
        requires { IsSome (fixed_left self.old bytes.now) }
        ensures rest { fixed_left self.new bytes.now ≡ Some (drop n (fixed_values self.old bytes.now)) }
        ensures sized { value_size self.new ≡ value_size self.old }
    {
        let _passed = self.take(bytes, n);
    }

    /// How many values are left.
    pub fn remaining(&self) -> usize
        ensures { (bytes : List ℕ) →
            IfSome (fixed_left self.now bytes) (λ values. result ≡ length values) }
    {
        self.left
    }
}
