//! What stored values become as the entries of a dictionary.
use flat_values::Scale;

/// What stored numbers of 32 bits become.
#[derive(Clone, Copy)]
pub enum Int32Entry {
    Int32,
    UInt8,
    UInt16,
    UInt32,
    Int8,
    Int16,
}

/// What stored numbers of 64 bits become.
#[derive(Clone, Copy)]
pub enum Int64Entry {
    Int64,
    Timestamp(Scale),
    UInt64,
}

/// What stored values become: numbers, byte strings of one size, and byte strings or texts with offsets of 32 and of 64 bits.
#[derive(Clone, Copy)]
pub enum EntryRule {
    Int32(Int32Entry),
    Int64(Int64Entry),
    Fixed(usize),
    Bytes { is_text: bool },
    LargeBytes { is_text: bool },
}
