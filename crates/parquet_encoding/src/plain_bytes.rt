//! Plain byte strings, each behind its length.
ghost use Rattle.std.specs.Prelude.{◌≡◌, ℕ, List, ◌+◌, ◌≤◌, length, drop, slice_get, is_ok, is_some, Some, None, IsSome, IfSome, IfOk, OnErr, option_map};
ghost use Rattle.parquet_encoding.specs.Plain.{plain_bytes, first_string};
ghost use Rattle.parquet_encoding.specs.Places.{places_of};
ghost use Rattle.parquet_encoding.specs.PlainLeft.{StringAt};

use parquet_base::Unspelled;

/// The bytes of a length.
const LENGTH_SIZE: usize = 4;

/// Walks byte strings.
///
/// It holds places in the bytes, and the bytes are handed to each call.
#[derive(Clone, Copy)]
pub struct PlainBytes {
    /// Where the length of the next string begins.
    next: usize,
    /// How many strings are still to come.
    left: usize,
}

impl PlainBytes {
    ghost use Rattle.parquet_encoding.specs.PlainLeft.{strings_left, strings};

    /// Before the first of `count` strings.
    pub fn try_new(bytes: &[u8], count: usize) -> Result<Self, Unspelled>
        ensures values { IfOk result (λ decoder.
            strings_left decoder bytes.now ≡ option_map (places_of 4 0) (plain_bytes bytes.now count)) }
        ensures exact { is_ok result ≡ is_some (plain_bytes bytes.now count) }
        ensures counted { IfOk result (λ decoder. length (strings decoder bytes.now) ≡ count) }
    {
        let mut end = 0;
        for _ in 0..count {
            let place = string_at(bytes, end)?;
            end = place.0 + place.1;
        }
        if end < bytes.len() {
            return Err(Unspelled);
        }
        Ok(PlainBytes {
            next: 0,
            left: count,
        })
    }

    /// Where the next string stands: its start and its length. The bytes are those of `try_new`.
    pub fn next(&mut self, bytes: &[u8]) -> Option<(usize, usize)>
        requires { IsSome (strings_left self.old bytes.now) }
        ensures value { result ≡ slice_get (strings self.old bytes.now) 0 }
        ensures within { IfSome result (λ place. place.0 + place.1 ≤ length bytes.now) }
        ensures rest { strings_left self.new bytes.now ≡ Some (drop 1 (strings self.old bytes.now)) }
    {
        if self.left == 0 {
            return None;
        }
        let Ok(place) = string_at(bytes, self.next) else {
            unreachable!()
        };
        self.next = place.0 + place.1;
        self.left -= 1;
        Some(place)
    }

    /// Passes over `n` strings, or over all that are left. The bytes are those of `try_new`.
    pub fn skip(&mut self, bytes: &[u8], n: usize)
        requires { IsSome (strings_left self.old bytes.now) }
        ensures { strings_left self.new bytes.now ≡ Some (drop n (strings self.old bytes.now)) }
    {
        for _ in 0..n.min(self.left) {
            let _passed = self.next(bytes);
        }
    }

    /// How many strings are left.
    pub fn remaining(&self) -> usize
        ensures { (bytes : List ℕ) →
            IfSome (strings_left self.now bytes) (λ values. result ≡ length values) }
    {
        self.left
    }
}

/// The byte string whose length stands at a place: its start and its length.
fn string_at(bytes: &[u8], at: usize) -> Result<(usize, usize), Unspelled>
    requires { at ≤ length bytes.now }
    ensures ok { IfOk result (StringAt bytes.now at) }
    ensures err { OnErr result (first_string (drop at bytes.now) ≡ None) }
{
    let Some((head, body)) = bytes[at..].split_first_chunk::<LENGTH_SIZE>() else {
        return Err(Unspelled);
    };
    let length = u32::from_le_bytes(*head) as usize;
    if length > body.len() {
        return Err(Unspelled);
    }
    Ok((at + LENGTH_SIZE, length))
}
