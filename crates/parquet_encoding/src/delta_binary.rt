//! Delta binary packed numbers.
ghost use Rattle.std.specs.Prelude.{◌≡◌, ℕ, List, ◌≤◌, ◌++◌, min, length, take, drop, slice_get, is_ok, is_some, Some, None, IsSome, IfSome, IfOk, OnErr, option_map};
ghost use Rattle.parquet_base.specs.Reading.{after};
ghost use Rattle.parquet_encoding.specs.DeltaBinary.{delta_binary, is_block, running_sums};
ghost use Rattle.parquet_encoding.specs.DeltaLeft.{numbers_left, HeaderAt, delta_left, numbers, delta_end};
ghost use Rattle.parquet_encoding.specs.DeltaWalk.{deltas_left, deltas};

use crate::delta_walk::DeltaWalk;
use crate::places::number_at;
use parquet_base::{Unspelled, from_zigzag};

/// A block has a multiple of so many values, and a miniblock of so many.
const BLOCK_UNIT: usize = 128;

const MINIBLOCK_UNIT: usize = 32;

/// Walks numbers that are stored as a first one and then by differences.
///
/// It holds places in the bytes, and the bytes are handed to each call.
#[derive(Clone, Copy)]
pub struct DeltaBinary {
    /// The next number, where one is left.
    value: Option<i64>,
    /// The deltas behind it.
    deltas: DeltaWalk,
    /// The place after the last body.
    end: usize,
}

/// What stands before the first block.
#[derive(Drop)]
struct Header {
    /// How many values a miniblock has.
    size: usize,
    /// How many miniblocks a block has.
    parts: usize,
    /// How many values there are.
    total: usize,
    /// The first value.
    first: i64,
    /// Where the first block begins.
    start: usize,
}

impl DeltaBinary {
    /// Before the first of `count` numbers.
    pub fn try_new(bytes: &[u8], count: usize) -> Result<Self, Unspelled>
        ensures values { IfOk result (λ decoder.
            delta_left decoder bytes.now ≡ option_map (λ read. read.0) (delta_binary count bytes.now)) }
        ensures exact { is_ok result ≡ is_some (delta_binary count bytes.now) }
        ensures counted { IfOk result (λ decoder. length (numbers decoder bytes.now) ≡ count) }
        ensures end { IfOk result (λ decoder.
            after (delta_binary count bytes.now) ≡ Some (drop (delta_end decoder) bytes.now)) }
        ensures within { IfOk result (λ decoder. delta_end decoder ≤ length bytes.now) }
    {
        let header = header_at(bytes)?;
        if header.total != count {
            return Err(Unspelled);
        }
        let deltas = DeltaWalk::new(
            header.size,
            header.parts,
            header.start,
            count.saturating_sub(1),
        );
        let end = deltas.end(bytes)?;
        let value = if count == 0 { None } else { Some(header.first) };
        Ok(DeltaBinary { value, deltas, end })
    }

    /// The next number. The bytes are those of `try_new`.
    pub fn next(&mut self, bytes: &[u8]) -> Option<i64>
        requires { IsSome (delta_left self.old bytes.now) }
        ensures value { result ≡ slice_get (numbers self.old bytes.now) 0 }
        ensures rest { delta_left self.new bytes.now ≡ Some (drop 1 (numbers self.old bytes.now)) }
        ensures end { delta_end self.new ≡ delta_end self.old }
    {
        let value = self.value?;
        self.value = next_value(&mut self.deltas, bytes, value);
        Some(value)
    }

    /// Passes over `n` numbers, or over all that are left. The bytes are those of `try_new`.
    pub fn skip(&mut self, bytes: &[u8], n: usize)
        requires { IsSome (delta_left self.old bytes.now) }
        ensures rest { delta_left self.new bytes.now ≡ Some (drop n (numbers self.old bytes.now)) }
        ensures end { delta_end self.new ≡ delta_end self.old }
    {
        let Some(value) = self.value else {
            return;
        };
        self.value = value_behind(&mut self.deltas, bytes, value, n);
    }

    /// Writes the next numbers to the front of `out`, as many as there is room for or all that are left, and gives
    /// how many they are. The bytes are those of `try_new`.
    pub fn fill(&mut self, bytes: &[u8], out: &mut [i64]) -> usize
        requires { IsSome (delta_left self.old bytes.now) }
        ensures count { result ≡ min (length out.old) (length (numbers self.old bytes.now)) }
        ensures values { out.new ≡ take result (numbers self.old bytes.now) ++ drop result out.old }
        ensures rest { delta_left self.new bytes.now ≡ Some (drop result (numbers self.old bytes.now)) }
        ensures end { delta_end self.new ≡ delta_end self.old }
    {
        let Some(value) = self.value else {
            return 0;
        };
        let (count, behind) = write_values(&mut self.deltas, bytes, value, out);
        self.value = behind;
        count
    }

    /// How many numbers are left.
    pub fn remaining(&self) -> usize
        ensures { (bytes : List ℕ) →
            IfSome (delta_left self.now bytes) (λ values. result ≡ length values) }
    {
        match self.value {
            None => 0,
            Some(_) => self.deltas.left() + 1,
        }
    }

    /// The place after the last body.
    pub fn end(&self) -> usize
        ensures { result ≡ delta_end self.now }
    {
        self.end
    }
}

/// The number behind the next delta, if there is one.
fn next_value(walk: &mut DeltaWalk, bytes: &[u8], value: i64) -> Option<i64>
    requires { IsSome (deltas_left walk.old bytes.now) }
    ensures { numbers_left result (deltas_left walk.new bytes.now)
        ≡ Some (drop 1 (running_sums value (deltas walk.old bytes.now))) }
{
    if walk.left() == 0 {
        return None;
    }
    Some(walk.pass_one(bytes, value))
}

/// The number behind the next `n` deltas, if there are so many.
fn value_behind(walk: &mut DeltaWalk, bytes: &[u8], value: i64, n: usize) -> Option<i64>
    requires { IsSome (deltas_left walk.old bytes.now) }
    ensures { numbers_left result (deltas_left walk.new bytes.now)
        ≡ Some (drop n (running_sums value (deltas walk.old bytes.now))) }
{
    if n > walk.left() {
        return None;
    }
    Some(walk.pass(bytes, value, n))
}

/// Writes a number and those behind it, and gives how many were written and the number behind them, if there is one.
fn write_values(
    walk: &mut DeltaWalk,
    bytes: &[u8],
    value: i64,
    out: &mut [i64],
) -> (usize, Option<i64>)
    requires { IsSome (deltas_left walk.old bytes.now) }
    ensures count { result.0 ≡ min (length out.old)
        (length (running_sums value (deltas walk.old bytes.now))) }
    ensures values { out.new ≡ take result.0 (running_sums value (deltas walk.old bytes.now))
        ++ drop result.0 out.old }
    ensures rest { numbers_left result.1 (deltas_left walk.new bytes.now)
        ≡ Some (drop result.0 (running_sums value (deltas walk.old bytes.now))) }
{
    let (room, left) = (out.len(), walk.left());
    if room <= left {
        let behind = walk.sums(bytes, value, out);
        return (room, Some(behind));
    }
    let last = walk.sums(bytes, value, &mut out[..left]);
    out[left] = last;
    (left + 1, None)
}

/// What stands before the first block.
fn header_at(bytes: &[u8]) -> Result<Header, Unspelled>
    ensures ok { IfOk result (HeaderAt bytes.now) }
    ensures err { OnErr result ((count : ℕ) → delta_binary count bytes.now ≡ None) }
{
    let (values, after_values) = number_at(bytes, 0)?;
    let (parts, after_parts) = number_at(bytes, after_values)?;
    let (total, after_total) = number_at(bytes, after_parts)?;
    let (values, parts) = (values as usize, parts as usize);
    if !is_shape(values, parts) {
        return Err(Unspelled);
    }
    let (first, start) = number_at(bytes, after_total)?;
    Ok(Header {
        size: values / parts,
        parts,
        total: total as usize,
        first: from_zigzag(first),
        start,
    })
}

/// Whether a block may have so many values and miniblocks.
fn is_shape(values: usize, parts: usize) -> bool
    ensures { result ≡ is_block values parts }
{
    values > 0
        && values % BLOCK_UNIT == 0
        && parts > 0
        && values % parts == 0
        && values / parts % MINIBLOCK_UNIT == 0
}
