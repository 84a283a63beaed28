//! Byte strings one behind another, in vectors that grow.
ghost use Rattle.std.specs.Prelude.{◌≡◌, ◌⊎◌, ◌↔◌, ◌≤◌, ◌<◌, ◌+◌, ◌-◌, ◌++◌, ◌∷◌, ℕ, IsTrue, IsUtf8, All, [], drop, length, replicate, sum_by, slice_get, slice_index, option_copied, map, nat_abs, IfOk, IfErr, OnOk};
ghost use Rattle.std.specs.Str.{IsAscii};
ghost use Rattle.columns_core.specs.Causes.{IsWantOfMemory};
ghost use Rattle.columns_core.specs.Joined.{BeginAtCharacters};
ghost use Rattle.columns_core.specs.Offsets.{AreOffsets, last, parts};
ghost use Rattle.binary_values.specs.JoinedStrings.{cut_into};
ghost use Rattle.binary_values.specs.Rebased.{rebased};

use columns_core::{Error, Offset, Offsets};
use std::alloc::Global;
use std::marker::Model;

/// Byte strings that are appended one by one. Contracts see their list.
#[derive(Drop)]
pub struct Strings<O: Offset> {
    offsets: Offsets<O>,
    values: Vec<u8>,
    /// From here on all bytes are known to be ASCII.
    ascii_from: usize,
}

impl<O: Offset> Model for Strings<O> {
    ghost use Rattle.std.specs.Prelude.{◌≡◌, ◌≤◌, ℕ, List, drop, length};
    ghost use Rattle.std.specs.Str.{IsAscii};
    ghost use Rattle.columns_core.specs.Offsets.{AreOffsets, last, parts};

    ghost Value = { List (List ℕ) };

    ghost view = { λ strings. parts strings.offsets strings.values.items };

    ghost invariant = { λ strings.
        AreOffsets strings.offsets × (last strings.offsets ≡ length strings.values.items) ×
        (last strings.offsets ≤ O.greatest) × IsAscii (drop strings.ascii_from strings.values.items) };
}

impl<O: Offset> Strings<O> {
    /// No strings.
    pub fn new(alloc: Global) -> Result<Self, Error>
        ensures ok { IfOk result (λ strings. strings ≡ []) }
        ensures memory { IfErr result IsWantOfMemory }
    {
        Ok(Strings {
            offsets: Offsets::new(alloc)?,
            values: Vec::new(alloc),
            ascii_from: 0,
        })
    }

    /// Takes memory for so many strings more.
    pub fn reserve(&mut self, additional: usize) -> Result<(), Error>
        ensures same { self.new ≡ self.old }
        ensures memory { IfErr result IsWantOfMemory }
    {
        self.offsets.reserve(additional)
    }

    pub fn len(&self) -> usize
        ensures { result ≡ length self.now }
    {
        self.offsets.len_proxy()
    }

    /// The string at a place, if there is one.
    pub fn get(&self, i: usize) -> Option<&[u8]>
        ensures { option_copied result ≡ slice_get self.now i }
    {
        if i < self.offsets.len_proxy() {
            let (start, end) = self.offsets.start_end(i);
            Some(&self.values[start..end])
        } else {
            None
        }
    }

    /// One string more, unless the bytes of all pass the offset type.
    #[inline(always)]
    pub fn push(&mut self, value: &[u8]) -> Result<(), Error>
        ensures ok { OnOk result (self.new ≡ self.old ++ value.now ∷ []) }
        ensures fits { OnOk result (sum_by length self.old + length value.now ≤ O.greatest) }
        ensures err { let sum = sum_by length self.old + length value.now in
            IfErr result (λ e. (self.new ≡ self.old)
            × (IsWantOfMemory e ⊎ ((e ≡ Error.Overflow) × (O.greatest < sum)))) }
    {
        let held = self.values.len();
        self.values.extend_from_slice(value)?;
        match self.offsets.try_push(value.len()) {
            Ok(()) => {
                self.ascii_from = self.values.len();
                Ok(())
            }
            Err(error) => {
                self.values.truncate(held);
                Err(error)
            }
        }
    }

    /// Strings of these lengths more, whose bytes are joined, and may be known to be ASCII.
    #[inline(always)]
    pub(crate) fn push_joined(
        &mut self,
        joined: &[u8],
        lengths: &[i64],
        are_ascii: bool,
    ) -> Result<(), Error>
        requires sum { sum_by nat_abs lengths.now ≡ length joined.now }
        requires ascii { IsTrue are_ascii → IsAscii joined.now }
        ensures ok { OnOk result (self.new ≡ self.old ++ cut_into (map nat_abs lengths.now) joined.now) }
        ensures fits { OnOk result (sum_by length self.old + length joined.now ≤ O.greatest) }
        ensures err { let sum = sum_by length self.old + length joined.now in
            IfErr result (λ e. (self.new ≡ self.old)
            × (IsWantOfMemory e ⊎ ((e ≡ Error.Overflow) × (O.greatest < sum)))) }
    {
        let before = self.values.len();
        self.values.extend_from_slice(joined)?;
        match self.offsets.try_extend_from_lengths(lengths) {
            Ok(()) => {
                self.ascii_from = if are_ascii {
                    self.ascii_from
                } else {
                    self.values.len()
                };
                Ok(())
            }
            Err(error) => {
                self.values.truncate(before);
                Err(error)
            }
        }
    }

    /// So many empty strings more. After a refusal some of them may be there.
    pub(crate) fn push_empty(&mut self, count: usize) -> Result<(), Error>
        ensures ok { OnOk result (self.new ≡ self.old ++ replicate count []) }
        ensures memory { IfErr result IsWantOfMemory }
    {
        for _ in 0..count {
            self.push_end()?;
        }
        Ok(())
    }

    /// One empty string more.
    #[inline(always)]
    pub(crate) fn push_end(&mut self) -> Result<(), Error>
        ensures ok { OnOk result (self.new ≡ self.old ++ [] ∷ []) }
        ensures memory { IfErr result IsWantOfMemory }
    {
        self.offsets.try_push(0)?;
        Ok(())
    }

    /// Whether the strings behind the first `from` are texts: all of them together are, and none begins inside a character. Where all of
    /// their bytes are ASCII it is known at once.
    pub fn are_texts_from(&self, from: usize) -> bool
        requires { from ≤ length self.now }
        ensures { IsTrue result ↔ All IsUtf8 (drop from self.now) }
    {
        let start = start_of(&self.offsets, from);
        if self.ascii_from <= start {
            return true;
        }
        let added = &self.values[start..];
        if added.is_ascii() {
            return true;
        }
        match simdutf8::basic::from_utf8(added) {
            Err(_) => false,
            Ok(text) => begin_at_characters(&self.offsets, text, from, start),
        }
    }

    /// Where the strings begin and the last ends, and their bytes, joined.
    pub fn into_parts(self) -> (Offsets<O>, Vec<u8>)
        ensures parts { parts result.0 result.1.items ≡ self }
        ensures shape { AreOffsets result.0 }
        ensures end { last result.0 ≡ length result.1.items }
    {
        let Strings {
            offsets,
            values,
            ..
        } = self;
        (offsets, values)
    }
}

/// Where an item begins, or the last ends.
fn start_of<O: Offset>(offsets: &Offsets<O>, i: usize) -> usize
    requires { i < length offsets.now }
    ensures start { result ≡ slice_index offsets.now i }
    ensures shape { AreOffsets offsets.now }
{
    if i < offsets.len_proxy() {
        offsets.start_end(i).0
    } else {
        offsets.last()
    }
}

fn begin_at_characters<O: Offset>(
    offsets: &Offsets<O>,
    text: &str,
    from: usize,
    start: usize,
) -> bool
    requires from { from < length offsets.now }
    requires start { start ≡ slice_index offsets.now from }
    requires length { length text.now ≡ last offsets.now - start }
    ensures { IsTrue result ↔ BeginAtCharacters (rebased from offsets.now) text.now }
{
    for i in from..offsets.len_proxy() {
        if !text.is_char_boundary(offsets.start_end(i).0 - start) {
            return false;
        }
    }
    true
}
