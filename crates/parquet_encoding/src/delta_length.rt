//! Byte strings, joined behind their lengths.
ghost use Rattle.std.specs.Prelude.{◌≡◌, ℕ, List, ◌+◌, ◌-◌, ◌≤◌, ◌++◌, min, length, take, drop, map, slice_get, is_ok, is_some, Some, pos, IsSome, IfSome, IfOk};
ghost use Rattle.std.specs.List.{flat_map};
ghost use Rattle.parquet_base.specs.Reading.{Gives};
ghost use Rattle.parquet_encoding.specs.DeltaLeft.{delta_left, numbers};
ghost use Rattle.parquet_encoding.specs.DeltaLength.{delta_length, delta_length_places};
ghost use Rattle.parquet_encoding.specs.JoinedLeft.{joined_left, joined_values, length_within, room_left};
ghost use Rattle.parquet_encoding.specs.Places.{bytes_in};

use crate::delta_binary::DeltaBinary;
use parquet_base::Unspelled;

/// The greatest length of a string.
const MOST_BYTES: i64 = 2147483647;

/// How many lengths are looked at together.
const CHUNK: usize = 32;

/// Walks byte strings that are joined behind their lengths.
///
/// It holds places in the bytes, and the bytes are handed to each call.
#[derive(Clone, Copy)]
pub struct DeltaLength {
    lengths: DeltaBinary,
    /// Where the next string begins.
    next: usize,
}

impl DeltaLength {
    /// Before the first of `count` strings.
    pub fn try_new(bytes: &[u8], count: usize) -> Result<Self, Unspelled>
        ensures values { IfOk result (λ decoder.
            joined_left decoder bytes.now ≡ delta_length_places bytes.now count) }
        ensures exact { is_ok result ≡ is_some (delta_length bytes.now count) }
        ensures counted { IfOk result (λ decoder. length (joined_values decoder bytes.now) ≡ count) }
    {
        let lengths = DeltaBinary::try_new(bytes, count)?;
        let next = lengths.end();
        check_lengths(lengths, bytes, bytes.len() - next)?;
        Ok(DeltaLength { lengths, next })
    }

    /// Where the next string stands: its start and its length. The bytes are those of `try_new`.
    pub fn next(&mut self, bytes: &[u8]) -> Option<(usize, usize)>
        requires { IsSome (joined_left self.old bytes.now) }
        ensures value { result ≡ slice_get (joined_values self.old bytes.now) 0 }
        ensures within { IfSome result (λ place. place.0 + place.1 ≤ length bytes.now) }
        ensures rest { joined_left self.new bytes.now ≡ Some (drop 1 (joined_values self.old bytes.now)) }
    {
        let number = self.lengths.next(bytes)?;
        let start = self.next;
        let Ok(length) = string_length(number, bytes.len() - start) else {
            unreachable!()
        };
        self.next = start + length;
        Some((start, length))
    }

    /// The next strings, as many as `lengths` has room for or all that are left: how many they are, and their bytes,
    /// joined. Their lengths are written to the front of `lengths`. The bytes are those of `try_new`.
    pub fn take<'a>(&mut self, bytes: &'a [u8], lengths: &mut [i64]) -> (usize, &'a [u8])
        requires { IsSome (joined_left self.old bytes.now) }
        ensures count { result.0 ≡ min (length lengths.old) (length (joined_values self.old bytes.now)) }
        ensures lengths { lengths.new ≡ map
            (λ place. pos place.1) (take result.0 (joined_values self.old bytes.now))
            ++ drop result.0 lengths.old }
        ensures joined { result.1.now ≡ flat_map (bytes_in bytes.now)
            (take result.0 (joined_values self.old bytes.now)) }
        ensures rest { joined_left self.new bytes.now
            ≡ Some (drop result.0 (joined_values self.old bytes.now)) }
    {
        let start = self.next;
        let count = self.lengths.fill(bytes, lengths);
        let Ok(rest) = room_behind(bytes.len() - start, &lengths[..count]) else {
            unreachable!()
        };
        let end = bytes.len() - rest;
        let joined = &bytes[start..end];
        self.next = end;
        (count, joined)
    }

    /// Passes over `n` strings, or over all that are left. The bytes are those of `try_new`.
    pub fn skip(&mut self, bytes: &[u8], n: usize)
        requires { IsSome (joined_left self.old bytes.now) }
        ensures { joined_left self.new bytes.now ≡ Some (drop n (joined_values self.old bytes.now)) }
    {
        let mut left = n.min(self.remaining());
        let mut lengths = [0; CHUNK];
        while left > 0 {
            let (count, _passed) = self.take(bytes, &mut lengths[..left.min(CHUNK)]);
            left -= count;
        }
    }

    /// How many strings are left.
    pub fn remaining(&self) -> usize
        ensures { (bytes : List ℕ) →
            IfSome (joined_left self.now bytes) (λ values. result ≡ length values) }
    {
        self.lengths.remaining()
    }
}

/// Walks the lengths of strings that `room` bytes are to hold.
fn check_lengths(lengths: DeltaBinary, bytes: &[u8], room: usize) -> Result<(), Unspelled>
    requires { IsSome (delta_left lengths bytes.now) }
    ensures { is_ok result ≡ is_some (room_left room (numbers lengths bytes.now)) }
{
    let mut walk = lengths;
    let mut room = room;
    let mut chunk = [0; CHUNK];
    while walk.remaining() > 0 {
        let count = walk.fill(bytes, &mut chunk);
        room = room_behind(room, &chunk[..count])?;
    }
    Ok(())
}

/// Of `room` bytes, those that strings of these lengths leave.
fn room_behind(room: usize, lengths: &[i64]) -> Result<usize, Unspelled>
    ensures { Gives (λ rest. rest) result (room_left room lengths.now) }
{
    let mut room = room;
    for number in lengths {
        room -= string_length(*number, room)?;
    }
    Ok(room)
}

/// A number as the length of a string for which there are `room` bytes.
fn string_length(number: i64, room: usize) -> Result<usize, Unspelled>
    ensures { Gives (λ long. long) result (length_within room number) }
{
    if number < 0 || number > MOST_BYTES {
        return Err(Unspelled);
    }
    let length = number as usize;
    if length > room {
        return Err(Unspelled);
    }
    Ok(length)
}
