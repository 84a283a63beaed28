//! The parts of a file that grow side by side.

use crate::facts::Bases;
use crate::footer::MAGIC;
use std::alloc::{AllocError, Global};

/// Pages, column indexes and offset indexes, and room to work in.
#[derive(Drop)]
pub struct Parts {
    pub chunks: Vec<u8>,
    pub indexes: Vec<u8>,
    pub locations: Vec<u8>,
    pub room: Room,
}

/// A page's body and its levels, which are used again for each page.
#[derive(Drop)]
pub struct Room {
    pub body: Vec<u8>,
    pub levels: Vec<u8>,
}

/// All parts, one behind another, and where the indexes begin.
#[derive(Drop)]
pub struct JoinedParts {
    pub bytes: Vec<u8>,
    pub bases: Bases,
}

impl Parts {
    ghost use Rattle.std.specs.Prelude.{◌≡◌, ◌++◌, IfOk};
    ghost use Rattle.parquet_write.specs.Parts.{BeginsFile, bases_of};

    /// Where a file begins: its magic, and no index.
    pub fn new(alloc: Global) -> Result<Parts, AllocError>
        ensures { IfOk result BeginsFile }
    {
        let mut chunks = Vec::new(alloc);
        chunks.extend_from_slice(MAGIC)?;
        Ok(Parts {
            chunks,
            indexes: Vec::new(alloc),
            locations: Vec::new(alloc),
            room: Room {
                body: Vec::new(alloc),
                levels: Vec::new(alloc),
            },
        })
    }
    /// The chunks, behind them the column indexes, and behind these the offset indexes.
    pub fn join(self) -> Result<JoinedParts, AllocError>
        ensures bytes { IfOk result (λ joined.
            joined.bytes.items ≡ (self.chunks.items ++ self.indexes.items) ++ self.locations.items) }
        ensures bases { IfOk result (λ joined. joined.bases ≡ bases_of self) }
    {
        let Parts {
            chunks: mut bytes,
            indexes,
            locations,
            room: _room,
        } = self;
        let indexes_base = bytes.len() as u64;
        bytes.extend_from_slice(&indexes)?;
        let locations_base = bytes.len() as u64;
        bytes.extend_from_slice(&locations)?;
        Ok(JoinedParts {
            bases: Bases {
                indexes: indexes_base,
                locations: locations_base,
            },
            bytes,
        })
    }
}
