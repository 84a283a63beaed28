//! Bytes in the compact protocol.
use parquet_thrift::{BINARY, I32, I64, LIST, STRUCT};
use std::alloc::{AllocError, Global};

/// The bytes written so far. Where memory is wanting that is kept, and told when all has been written.
#[derive(Drop)]
pub(crate) struct Written {
    bytes: Vec<u8>,
    wanting: Option<AllocError>,
}

impl Written {
    pub(crate) fn new(alloc: Global) -> Self {
        Written {
            bytes: Vec::new(alloc),
            wanting: None,
        }
    }

    pub(crate) fn len(&self) -> usize {
        self.bytes.len()
    }

    pub(crate) fn into_bytes(self) -> Result<Vec<u8>, AllocError> {
        match self.wanting {
            Some(error) => Err(error),
            None => Ok(self.bytes),
        }
    }

    /// Bytes as they are.
    pub(crate) fn raw(&mut self, bytes: &[u8]) {
        if let Err(error) = self.bytes.extend_from_slice(bytes) {
            self.wanting = Some(error);
        }
    }

    /// What was written elsewhere.
    pub(crate) fn append(&mut self, other: &Written) {
        self.raw(&other.bytes);
        if let Some(error) = other.wanting {
            self.wanting = Some(error);
        }
    }

    /// The head of a field, whose id is at most 15 above the one before.
    pub(crate) fn field(&mut self, step: u8, kind: u8) {
        self.raw(&[step.wrapping_mul(16) | kind])
    }

    /// A number below 2 to the 33, in five bytes.
    pub(crate) fn number(&mut self, number: usize) {
        let double = number % 0x2_0000_0000 * 2;
        self.raw(&[
            (double % 128 + 128) as u8,
            (double / 0x80 % 128 + 128) as u8,
            (double / 0x4000 % 128 + 128) as u8,
            (double / 0x20_0000 % 128 + 128) as u8,
            (double / 0x1000_0000 % 128) as u8,
        ])
    }

    /// Fields of numbers of a kind, each by the step of its id.
    fn numbers(&mut self, kind: u8, fields: &[(u8, usize)]) {
        for (step, number) in fields {
            self.field(*step, kind);
            self.number(*number);
        }
    }

    pub(crate) fn ints(&mut self, fields: &[(u8, usize)]) {
        self.numbers(I32, fields)
    }

    pub(crate) fn longs(&mut self, fields: &[(u8, usize)]) {
        self.numbers(I64, fields)
    }

    pub(crate) fn binary(&mut self, step: u8, bytes: &[u8]) {
        self.field(step, BINARY);
        self.counted(bytes)
    }

    /// At most 127 bytes, behind their number.
    pub(crate) fn counted(&mut self, bytes: &[u8]) {
        self.raw(&[(bytes.len() % 128) as u8]);
        self.raw(bytes)
    }

    /// The head of a list of at most 14 values.
    pub(crate) fn list(&mut self, step: u8, count: usize, kind: u8) {
        self.field(step, LIST);
        self.field((count % 15) as u8, kind)
    }

    /// A struct begins, as a field.
    pub(crate) fn begin(&mut self, step: u8) {
        self.field(step, STRUCT)
    }

    /// So many structs end.
    pub(crate) fn end(&mut self, count: usize) {
        for _ in 0..count {
            self.raw(&[0]);
        }
    }
}
