//! A reader that moves over bytes in the compact protocol.

ghost use Rattle.std.specs.Prelude.{◌≡◌, ◌+◌, length, drop, option_map};
ghost use Rattle.parquet_base.specs.Reading.{IsEnd};
ghost use Rattle.parquet_thrift.specs.Cursor.{Cursor, Reads, Passes};
ghost use Rattle.parquet_thrift.specs.Numbers.{signed, signed_byte, bytes_of_length};
ghost use Rattle.parquet_thrift.specs.Values.{field_header, list_start, list_truth, most_depth, no_deeper, in_struct};

use crate::header::{FieldHeader, ListHeader, field_header_at, list_header_at};
use crate::number::{binary_at, bool_at, end_of, i8_at, i32_at, i64_at};
use crate::skip::skip_at;
use parquet_base::Unspelled;
use std::marker::Model;

/// Bytes and a place in them. A call that refuses leaves the place as it was.
#[derive(Drop)]
pub struct Compact<'a> {
    whole: &'a [u8],
    rest: &'a [u8],
}

impl<'a> Model for Compact<'a> {
    ghost Value = { Cursor };

    ghost view = { λ c. record { whole = c.whole.now; rest = c.rest.now } };

    ghost invariant = { λ c. IsEnd c.whole.now c.rest.now };
}

impl<'a> Compact<'a> {
    /// Starts at the first byte.
    #[tactic(auto, using(parquet_base::proofs::EndLemmas::IsEnd_all))]
    pub fn new(bytes: &'a [u8]) -> Self
        ensures { result ≡ record { whole = bytes.now; rest = bytes.now } }
    {
        Compact {
            whole: bytes,
            rest: bytes,
        }
    }

    /// The place: how many bytes have been read.
    pub fn position(&self) -> usize
        ensures within { result + length self.now.rest ≡ length self.now.whole }
        ensures rest { drop result self.now.whole ≡ self.now.rest }
    {
        self.whole.len() - self.rest.len()
    }

    /// The next field's header after the id `previous`, which is 0 at a struct's start, or None at the end of the struct.
    #[inline(always)]
    #[tactic(auto, using(parquet_base::proofs::EndLemmas::IsEnd_through))]
    pub fn next_field(&mut self, previous: i16) -> Result<Option<FieldHeader>, Unspelled>
        ensures { Reads (λ o. option_map (λ h. (h.id, h.kind)) o)
            (field_header previous) self.old result self.new }
    {
        let (header, rest) = field_header_at(self.rest, previous)?;
        self.rest = rest;
        Ok(header)
    }

    /// One raw byte.
    #[tactic(auto, using(parquet_base::proofs::EndLemmas::IsEnd_through))]
    pub fn read_byte(&mut self) -> Result<i8, Unspelled>
        ensures { Reads (λ n. n) signed_byte self.old result self.new }
    {
        let (number, rest) = i8_at(self.rest)?;
        self.rest = rest;
        Ok(number)
    }

    #[tactic(auto, using(parquet_base::proofs::EndLemmas::IsEnd_through))]
    pub fn read_i32(&mut self) -> Result<i32, Unspelled>
        ensures { Reads (λ n. n) (signed 32) self.old result self.new }
    {
        let (number, rest) = i32_at(self.rest)?;
        self.rest = rest;
        Ok(number)
    }

    #[tactic(auto, using(parquet_base::proofs::EndLemmas::IsEnd_through))]
    pub fn read_i64(&mut self) -> Result<i64, Unspelled>
        ensures { Reads (λ n. n) (signed 64) self.old result self.new }
    {
        let (number, rest) = i64_at(self.rest)?;
        self.rest = rest;
        Ok(number)
    }

    /// A truth value in a list or map. In a struct the header's kind is the value.
    #[tactic(auto, using(parquet_base::proofs::EndLemmas::IsEnd_through))]
    pub fn read_bool(&mut self) -> Result<bool, Unspelled>
        ensures { Reads (λ b. b) list_truth self.old result self.new }
    {
        let (truth, rest) = bool_at(self.rest)?;
        self.rest = rest;
        Ok(truth)
    }

    /// A part of the bytes, not copied.
    #[tactic(auto, using(parquet_base::proofs::EndLemmas::IsEnd_through))]
    pub fn read_binary(&mut self) -> Result<&'a [u8], Unspelled>
        ensures { Reads (λ b. b.now) bytes_of_length self.old result self.new }
    {
        let (bytes, rest) = binary_at(self.rest)?;
        self.rest = rest;
        Ok(bytes)
    }

    /// The header of a list or set, whose count is at most that of the bytes after it.
    #[tactic(auto, unfolding(crate::specs::Values::list_start), using(parquet_base::proofs::EndLemmas::IsEnd_through))]
    pub fn read_list(&mut self) -> Result<ListHeader, Unspelled>
        ensures { Reads (λ h. (h.count, h.kind)) list_start self.old result self.new }
    {
        let (header, rest) = list_header_at(self.rest)?;
        if rest.len() < header.count {
            return Err(Unspelled);
        }
        self.rest = rest;
        Ok(header)
    }

    /// Passes over a field's value of this kind, nested at most 32 deep.
    #[inline(always)]
    #[tactic(auto, using(parquet_base::proofs::EndLemmas::IsEnd_through, crate::proofs::Depths::value_within_no_deeper))]
    pub fn skip(&mut self, kind: u8) -> Result<(), Unspelled>
        ensures { Passes (no_deeper most_depth in_struct kind) self.old result self.new }
    {
        self.rest = end_of(self.rest, skip_at(self.rest, kind)?);
        Ok(())
    }
}
