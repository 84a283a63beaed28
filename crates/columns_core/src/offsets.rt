//! Where the items of joined bytes begin and end.
ghost use Rattle.std.specs.Prelude.{◌≡◌, ◌⊎◌, ◌<◌, ◌≤◌, ℕ, ◌+◌, ◌-◌, Bool, List, [], ◌∷◌, ◌++◌, length, map, nat_abs, sum_by, slice_index, IsTrue, IsFalse, IfSome, IfNone, IfOk, IfErr, OnOk};
ghost use Rattle.columns_core.specs.Causes.{IsWantOfMemory};
ghost use Rattle.columns_core.specs.Offsets.{AreOffsets, ends_behind, last};

use crate::Error;
use std::alloc::{AllocError, Global};
use std::marker::Model;

/// A number that tells a place in joined bytes.
pub trait Offset: Copy {
    ghost value: { Self → ℕ };

    /// The greatest place that it tells.
    ghost greatest: { ℕ };

    /// Whether it has 64 bits.
    ghost is_large: { Bool };

    fn zero() -> Self
        ensures { value result ≡ 0 };

    fn to_usize(self) -> usize
        ensures { result ≡ value self };

    /// The place so much further on, unless it passes the greatest.
    fn further(self, length: usize) -> Option<Self>
        ensures some { IfSome result (λ sum.
            (value sum ≡ value self + length) × (value sum ≤ greatest)) }
        ensures none { IfNone result (greatest < value self + length) };

    fn is_large() -> bool
        ensures { result ≡ is_large };
}

impl Offset for i32 {
    ghost use Rattle.std.specs.Prelude.{nat_abs, false};

    ghost value = { nat_abs };

    ghost greatest = { 2147483647 };

    ghost is_large = { false };

    fn zero() -> i32 {
        0
    }

    fn to_usize(self) -> usize {
        self.unsigned_abs() as usize
    }

    fn further(self, length: usize) -> Option<i32> {
        let sum = self.to_usize().checked_add(length)?;
        i32::try_from(sum).ok()
    }

    fn is_large() -> bool {
        false
    }
}

impl Offset for i64 {
    ghost use Rattle.std.specs.Prelude.{nat_abs, true};

    ghost value = { nat_abs };

    ghost greatest = { 9223372036854775807 };

    ghost is_large = { true };

    fn zero() -> i64 {
        0
    }

    fn to_usize(self) -> usize {
        self.unsigned_abs() as usize
    }

    fn further(self, length: usize) -> Option<i64> {
        let sum = self.to_usize().checked_add(length)?;
        i64::try_from(sum).ok()
    }

    fn is_large() -> bool {
        true
    }
}

/// The places in joined bytes at which each item begins, and the last ends; the first is 0.
#[derive(Drop)]
pub struct Offsets<O: Offset> {
    places: Vec<O>,
}

impl<O: Offset> Model for Offsets<O> {
    ghost use Rattle.std.specs.Prelude.{ℕ, List, map};
    ghost use Rattle.columns_core.specs.Offsets.{AreOffsets};

    ghost Value = { List ℕ };

    ghost view = { λ offsets. map O.value offsets.places.items };

    ghost invariant = { λ offsets. AreOffsets (map O.value offsets.places.items) };
}

impl<O: Offset> Offsets<O> {
    /// The offsets of no item.
    pub fn new(alloc: Global) -> Result<Self, Error>
        ensures ok { IfOk result (λ offsets. offsets ≡ 0 ∷ []) }
        ensures err { IfErr result IsWantOfMemory }
    {
        let mut places = Vec::new(alloc);
        places.push(O::zero())?;
        Ok(Offsets { places })
    }

    /// One item more, of this length.
    pub fn try_push(&mut self, length: usize) -> Result<(), Error>
        ensures ok { OnOk result (self.new ≡ self.old ++ (last self.old + length) ∷ []) }
        ensures fits { OnOk result (last self.old + length ≤ O.greatest) }
        ensures err { IfErr result (λ e. (self.new ≡ self.old)
            × (IsWantOfMemory e ⊎ ((e ≡ Error.Overflow) × (O.greatest < last self.old + length)))) }
    {
        let end = self.end_of(length)?;
        self.places.push(end)?;
        Ok(())
    }

    /// Items of these lengths more.
    #[inline]
    pub fn try_extend_from_lengths(&mut self, lengths: &[i64]) -> Result<(), Error>
        ensures ok { let ends = ends_behind (last self.old) (map nat_abs lengths.now) in
            OnOk result (self.new ≡ self.old ++ ends) }
        ensures last { OnOk result (last self.new ≡ last self.old + sum_by nat_abs lengths.now) }
        ensures fits { OnOk result (last self.old ≤ O.greatest → last self.new ≤ O.greatest) }
        ensures err { let end = last self.old + sum_by nat_abs lengths.now in
            IfErr result (λ e. (self.new ≡ self.old)
            × (IsWantOfMemory e ⊎ ((e ≡ Error.Overflow) × (O.greatest < end)))) }
    {
        let end = self.places[self.places.len() - 1];
        push_ends(&mut self.places, end, lengths)?;
        Ok(())
    }

    /// Takes memory for so many items more.
    pub fn reserve(&mut self, additional: usize) -> Result<(), Error>
        ensures same { self.new ≡ self.old }
        ensures err { IfErr result IsWantOfMemory }
    {
        self.places.reserve(additional)?;
        Ok(())
    }

    /// Where an item of this length ends behind the last.
    fn end_of(&self, length: usize) -> Result<O, Error>
        ensures ok { IfOk result (λ end. (O.value end ≡ last self.now + length)
            × (O.value end ≤ O.greatest)) }
        ensures err { IfErr result (λ e. (e ≡ Error.Overflow) × (O.greatest < last self.now + length)) }
        ensures shape { AreOffsets self.now }
    {
        match self.places[self.places.len() - 1].further(length) {
            None => Err(Error::Overflow),
            Some(end) => Ok(end),
        }
    }

    /// The number of items.
    pub fn len_proxy(&self) -> usize
        ensures len { result ≡ length self.now - 1 }
        ensures shape { AreOffsets self.now }
    {
        self.places.len() - 1
    }

    /// Where an item begins and ends.
    pub fn start_end(&self, i: usize) -> (usize, usize)
        requires { i < length self.now - 1 }
        ensures start { result.0 ≡ slice_index self.now i }
        ensures end { result.1 ≡ slice_index self.now (i + 1) }
        ensures shape { AreOffsets self.now }
    {
        (self.places[i].to_usize(), self.places[i + 1].to_usize())
    }

    /// Where the last item ends.
    pub fn last(&self) -> usize
        ensures last { result ≡ last self.now }
        ensures shape { AreOffsets self.now }
    {
        self.places[self.places.len() - 1].to_usize()
    }

    /// The places as numbers of 64 bits.
    pub(crate) fn to_places(&self, alloc: Global) -> Result<Vec<u64>, AllocError>
        ensures places { IfOk result (λ places. places.items ≡ self.now) }
        ensures shape { AreOffsets self.now }
    {
        self.places
            .iter()
            .map(|place| place.to_usize() as u64)
            .collect(alloc)
    }

    /// Where the places have their memory from.
    pub(crate) fn allocator(&self) -> Global {
        *self.places.allocator()
    }

    pub fn try_clone(&self, alloc: Global) -> Result<Self, Error>
        ensures ok { IfOk result (λ copy. copy ≡ self.now) }
        ensures err { IfErr result IsWantOfMemory }
    {
        Ok(Offsets {
            places: Vec::from_slice(alloc, self.places.as_slice())?,
        })
    }
}

/// Writes where items of these lengths end behind a place, if no end passes the greatest.
fn write_ends<O: Offset>(start: O, lengths: &[i64], ends: &mut [O]) -> bool
    requires { length ends.old ≡ length lengths.now }
    ensures written { IsTrue result → map O.value ends.new
        ≡ ends_behind (O.value start) (map nat_abs lengths.now) }
    ensures fits { let end = O.value start + sum_by nat_abs lengths.now in
        IsTrue result → O.value start ≤ O.greatest → end ≤ O.greatest }
    ensures none { IsFalse result → O.greatest < O.value start + sum_by nat_abs lengths.now }
    ensures same { length ends.new ≡ length ends.old }
{
    let mut end = start;
    for i in 0..lengths.len() {
        let Some(next) = end.further(lengths[i].unsigned_abs() as usize) else {
            return false;
        };
        end = next;
        ends[i] = end;
    }
    true
}

/// Appends where items of these lengths end behind a place.
fn push_ends<O: Offset>(places: &mut Vec<O>, start: O, lengths: &[i64]) -> Result<(), Error>
    ensures ok { let ends = ends_behind (O.value start) (map nat_abs lengths.now) in
        OnOk result (map O.value places.new.items ≡ map O.value places.old.items ++ ends) }
    ensures fits { let end = O.value start + sum_by nat_abs lengths.now in
        OnOk result (O.value start ≤ O.greatest → end ≤ O.greatest) }
    ensures err { let end = O.value start + sum_by nat_abs lengths.now in
        IfErr result (λ e. (places.new.items ≡ places.old.items)
        × (IsWantOfMemory e ⊎ ((e ≡ Error.Overflow) × (O.greatest < end)))) }
{
    let held = places.len();
    let Some(all) = held.checked_add(lengths.len()) else {
        return Err(Error::from(AllocError));
    };
    places.resize(all, start)?;
    if write_ends(start, lengths, &mut places[held..]) {
        Ok(())
    } else {
        places.truncate(held);
        Err(Error::Overflow)
    }
}
