//! Byte strings one behind another, that are appended one by one.
ghost use Rattle.std.specs.Prelude.{◌≡◌, ◌⊎◌, ◌≤◌, ◌<◌, ◌+◌, ◌++◌, ◌∷◌, [], Some, length, slice_get, sum_by, IfOk, IfErr, OnOk};
ghost use Rattle.columns_core.specs.Causes.{IsWantOfMemory};
ghost use Rattle.columns_core.specs.Offsets.{AreOffsets, last, parts};

use crate::{Error, Offset, Offsets};
use std::alloc::Global;
use std::marker::Model;

/// Byte strings that share one piece of memory, and where each of them ends. Contracts see their list.
#[derive(Drop)]
pub struct JoinedStrings<O: Offset> {
    offsets: Offsets<O>,
    values: Vec<u8>,
}

impl<O: Offset> Model for JoinedStrings<O> {
    ghost use Rattle.std.specs.Prelude.{◌≡◌, ℕ, List, length};
    ghost use Rattle.columns_core.specs.Offsets.{AreOffsets, last, parts};

    ghost Value = { List (List ℕ) };

    ghost view = { λ joined. parts joined.offsets joined.values.items };

    ghost invariant = { λ joined. AreOffsets joined.offsets × (last joined.offsets ≡ length joined.values.items) };
}

impl<O: Offset> JoinedStrings<O> {
    /// No strings, with memory for the ends of so many.
    pub fn with_capacity(alloc: Global, capacity: usize) -> Result<Self, Error>
        ensures ok { IfOk result (λ joined. joined ≡ []) }
        ensures memory { IfErr result IsWantOfMemory }
    {
        let mut offsets = Offsets::new(alloc)?;
        offsets.reserve(capacity)?;
        Ok(JoinedStrings {
            offsets,
            values: Vec::new(alloc),
        })
    }

    /// How many strings there are.
    pub fn len(&self) -> usize
        ensures { result ≡ length self.now }
    {
        self.offsets.len_proxy()
    }

    /// The string at a place.
    pub fn value(&self, i: usize) -> &[u8]
        requires { i < length self.now }
        ensures { slice_get self.now i ≡ Some result.now }
    {
        let (start, end) = self.offsets.start_end(i);
        &self.values[start..end]
    }

    /// One string more, unless the bytes of all pass the offset type.
    pub fn push(&mut self, string: &[u8]) -> Result<(), Error>
        ensures ok { OnOk result (self.new ≡ self.old ++ string.now ∷ []) }
        ensures fits { OnOk result (sum_by length self.old + length string.now ≤ O.greatest) }
        ensures err { let sum = sum_by length self.old + length string.now in
            IfErr result (λ e. (self.new ≡ self.old)
            × (IsWantOfMemory e ⊎ ((e ≡ Error.Overflow) × (O.greatest < sum)))) }
    {
        let held = self.values.len();
        self.values.extend_from_slice(string)?;
        match self.offsets.try_push(string.len()) {
            Ok(()) => Ok(()),
            Err(error) => {
                self.values.truncate(held);
                Err(error)
            }
        }
    }

    /// Where the strings begin and the last ends, and their bytes.
    pub fn into_parts(self) -> (Offsets<O>, Vec<u8>)
        ensures parts { parts result.0 result.1.items ≡ self }
        ensures end { last result.0 ≡ length result.1.items }
    {
        let JoinedStrings { offsets, values } = self;
        (offsets, values)
    }
}
