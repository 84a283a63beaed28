//! Bytes of files, written field by field in the compact protocol.
use parquet_thrift::{BINARY, I32, I64, LIST, STRUCT};
use std::alloc::{AllocError, Global};

/// The word that a file begins and ends with.
pub(crate) const MAGIC: &[u8] = b"PAR1";

/// The bytes written so far. Where memory is wanting that is kept, and told when all has been written.
#[derive(Drop)]
pub(crate) struct Written {
    bytes: Vec<u8>,
    wanting: Option<AllocError>,
}

impl Written {
    pub(crate) fn new(alloc: Global) -> Self {
        Written {
            bytes: Vec::new(alloc),
            wanting: None,
        }
    }

    pub(crate) fn into_bytes(self) -> Result<Vec<u8>, AllocError> {
        match self.wanting {
            Some(error) => Err(error),
            None => Ok(self.bytes),
        }
    }

    /// Bytes as they are.
    pub(crate) fn raw(&mut self, bytes: &[u8]) {
        if let Err(error) = self.bytes.extend_from_slice(bytes) {
            self.wanting = Some(error);
        }
    }

    /// The head of a field, whose id is at most 15 above the one before.
    fn field(&mut self, step: u8, kind: u8) {
        self.raw(&[step.wrapping_mul(16) | kind]);
    }

    /// A number from 0 to 8191.
    fn number(&mut self, number: u16) {
        let double = number.wrapping_mul(2);
        if double < 128 {
            self.raw(&[double as u8]);
        } else {
            self.raw(&[(double % 128 + 128) as u8, (double / 128 % 128) as u8]);
        }
    }

    pub(crate) fn int(&mut self, step: u8, number: u16) {
        self.field(step, I32);
        self.number(number)
    }

    pub(crate) fn long(&mut self, step: u8, number: u16) {
        self.field(step, I64);
        self.number(number)
    }

    /// A text of at most 127 bytes.
    pub(crate) fn text(&mut self, step: u8, text: &[u8]) {
        self.field(step, BINARY);
        self.raw(&[(text.len() % 128) as u8]);
        self.raw(text)
    }

    /// The head of a list of at most 14 values.
    pub(crate) fn list(&mut self, step: u8, count: u8, kind: u8) {
        self.field(step, LIST);
        self.field(count, kind)
    }

    /// A struct begins, as a field.
    pub(crate) fn begin(&mut self, step: u8) {
        self.field(step, STRUCT)
    }

    /// A struct ends.
    pub(crate) fn end(&mut self) {
        self.raw(&[0]);
    }

    /// The header of a plain page of five numbers of 32 bits, all of them there.
    pub(crate) fn page_header(&mut self) {
        self.int(1, 0);
        self.int(1, 20);
        self.int(1, 20);
        self.begin(2);
        self.int(1, 5);
        self.int(1, 0);
        self.int(1, 3);
        self.int(1, 3);
        self.end();
        self.end()
    }
}
