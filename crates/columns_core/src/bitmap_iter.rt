//! The truth values in a part of some bytes.
ghost use Rattle.std.specs.Prelude.{◌≡◌, ◌≤◌, ◌+◌, ◌*◌, length};
ghost use Rattle.columns_core.specs.Bits.{bits_of};

use crate::bits::{bit_at, from_bit};
use std::iter::{DoubleEndedIterator, ExactSizeIterator, FusedIterator, Iterator};
use std::marker::Model;

/// The bits in a part of some bytes, each byte from its lowest bit on, read from both ends.
#[derive(Drop)]
pub struct BitmapIter<'a> {
    bytes: &'a [u8],
    /// The place of the first bit in the first byte.
    start: usize,
    left: usize,
}

impl<'a> Model for BitmapIter<'a> {
    ghost use Rattle.std.specs.Prelude.{List, Bool, length, ◌<◌, ◌≤◌, ◌+◌, ◌*◌};
    ghost use Rattle.columns_core.specs.Bits.{bits_of};

    ghost Value = { List Bool };

    ghost view = { λ bits. bits_of bits.bytes.now bits.start bits.left };

    ghost invariant = { λ bits. (bits.start < 8) × (bits.start + bits.left ≤ 8 * length bits.bytes.now) };
}

impl<'a> BitmapIter<'a> {
    /// The bits `offset` to `offset + len`.
    pub fn new(bytes: &'a [u8], offset: usize, len: usize) -> Self
        requires { offset + len ≤ 8 * length bytes.now }
        ensures { result ≡ bits_of bytes.now offset len }
    {
        let (bytes, start) = from_bit(bytes, offset);
        BitmapIter {
            bytes,
            start,
            left: len,
        }
    }
}

impl<'a> Iterator for BitmapIter<'a> {
    ghost use Rattle.std.specs.Iterator.{YieldsFirst, item_count};

    type Item = bool;

    ghost next_gives = { YieldsFirst (λ bits. bits) };

    ghost remaining = { item_count (λ bits. bits) };

    #[inline]
    fn next(&mut self) -> Option<bool> {
        if self.left == 0 {
            return None;
        }
        let bit = bit_at(self.bytes, self.start);
        let (bytes, start) = from_bit(self.bytes, self.start + 1);
        self.bytes = bytes;
        self.start = start;
        self.left -= 1;
        Some(bit)
    }

    fn size_hint(&self) -> (usize, Option<usize>) {
        (self.left, Some(self.left))
    }
}

impl<'a> FusedIterator for BitmapIter<'a> {}

impl<'a> DoubleEndedIterator for BitmapIter<'a> {
    ghost use Rattle.std.specs.Iterator.{YieldsLast};

    ghost next_back_gives = { YieldsLast (λ bits. bits) };

    #[inline]
    fn next_back(&mut self) -> Option<bool> {
        if self.left == 0 {
            return None;
        }
        self.left -= 1;
        let (bytes, place) = from_bit(self.bytes, self.left);
        Some(bit_at(bytes, self.start + place))
    }
}

impl<'a> ExactSizeIterator for BitmapIter<'a> {
    fn len(&self) -> usize {
        self.left
    }
}
