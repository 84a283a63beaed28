//! Pages that constants can say.

/// A page of a chunk. It has fewer than 64 values, and a body of fewer than 64 bytes.
#[derive(Clone, Copy)]
pub enum Page<'a> {
    /// Of the first form: how many values, the number of their encoding, the levels behind their length in four bytes, and the values. Its header has 17
    /// bytes.
    First(u8, u8, &'a [u8], &'a [u8]),
    /// Of the second form: how many values, the levels without their length, and the plain values. Its header has 21 bytes.
    Second(u8, &'a [u8], &'a [u8]),
    /// A dictionary: how many entries, and these. Its header has 13 bytes.
    Entries(u8, &'a [u8]),
    /// Bytes as they are.
    Bytes(&'a [u8]),
}
