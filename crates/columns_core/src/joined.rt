//! Byte strings one behind another.
ghost use Rattle.std.specs.Prelude.{◌≡◌, ◌<◌, ◌≤◌, IsTrue, ◌↔◌, length, slice_get, Some, IfOk, IfErr, option_copied};
ghost use Rattle.columns_core.specs.Causes.{IsWantOfMemory};
ghost use Rattle.columns_core.specs.Offsets.{last};
ghost use Rattle.columns_core.specs.Joined.{joined_strings, FitTogether, AreTexts, BeginAtCharacters};

use crate::mask::{copy_of_mask, is_there};
use crate::primitive::fits_mask;
use crate::{Bitmap, Error, Offset, Offsets};
use std::alloc::Global;
use std::marker::Model;

/// Byte strings one behind another, and which of them are there.
#[derive(Drop)]
pub(crate) struct JoinedBytes<O: Offset> {
    offsets: Offsets<O>,
    values: Vec<u8>,
    validity: Option<Bitmap>,
}

impl<O: Offset> Model for JoinedBytes<O> {
    ghost use Rattle.std.specs.Prelude.{ℕ, List, Option};
    ghost use Rattle.columns_core.specs.Joined.{joined_strings, FitTogether};

    ghost Value = { List (Option (List ℕ)) };

    ghost view = { λ joined. joined_strings joined.offsets joined.values.items joined.validity };

    ghost invariant = { λ joined. FitTogether joined.offsets joined.values.items joined.validity };
}

impl<O: Offset> JoinedBytes<O> {
    pub(crate) fn new(offsets: Offsets<O>, values: Vec<u8>, validity: Option<Bitmap>) -> Self
        requires { FitTogether offsets values.items validity }
        ensures { result ≡ joined_strings offsets values.items validity }
    {
        JoinedBytes {
            offsets,
            values,
            validity,
        }
    }

    pub(crate) fn len(&self) -> usize
        ensures { result ≡ length self.now }
    {
        self.offsets.len_proxy()
    }

    pub(crate) fn get(&self, i: usize) -> Option<&[u8]>
        requires { i < length self.now }
        ensures { slice_get self.now i ≡ Some (option_copied result) }
    {
        let (start, end) = self.offsets.start_end(i);
        if is_there(self.validity.as_ref(), i) {
            Some(&self.values[start..end])
        } else {
            None
        }
    }

    pub(crate) fn try_clone(&self, alloc: Global) -> Result<Self, Error>
        ensures ok { IfOk result (λ copy. copy ≡ self.now) }
        ensures err { IfErr result IsWantOfMemory }
    {
        Ok(JoinedBytes {
            offsets: self.offsets.try_clone(alloc)?,
            values: Vec::from_slice(alloc, self.values.as_slice())?,
            validity: copy_of_mask(alloc, self.validity.as_ref())?,
        })
    }
}

pub(crate) fn fit_together<O: Offset>(
    offsets: &Offsets<O>,
    values: &[u8],
    validity: Option<&Bitmap>,
) -> bool
    ensures { IsTrue result ↔ FitTogether offsets.now values.now (option_copied validity.entry) }
{
    if offsets.last() > values.len() {
        return false;
    }
    fits_mask(offsets.len_proxy(), validity)
}

/// Each byte string, also where it is null, is UTF-8: all of them together are, and none begins inside a character.
pub fn are_texts<O: Offset>(offsets: &Offsets<O>, values: &[u8]) -> bool
    requires { last offsets.now ≤ length values.now }
    ensures { IsTrue result ↔ AreTexts offsets.now values.now }
{
    match simdutf8::basic::from_utf8(&values[..offsets.last()]) {
        Err(_) => false,
        Ok(text) => begin_at_characters(offsets, text),
    }
}

fn begin_at_characters<O: Offset>(offsets: &Offsets<O>, text: &str) -> bool
    requires { length text.now ≡ last offsets.now }
    ensures { IsTrue result ↔ BeginAtCharacters offsets.now text.now }
{
    let count = offsets.len_proxy();
    if text.is_ascii() {
        return true;
    }
    for i in 0..count {
        if !text.is_char_boundary(offsets.start_end(i).0) {
            return false;
        }
    }
    true
}
