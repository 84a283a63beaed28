//! Bytes on their way to a sink, gathered into blocks. No call takes memory, so that only the sink can fail.
ghost use Rattle.std.specs.Prelude.{◌≡◌, ◌+◌, ◌≤◌, ◌++◌, [], length, take, OnOk};
ghost use Rattle.pq_common.specs.Taken.{TakesBytes};

use crate::sink::{Sink, write_all};
use parquet_meta::Failed;
use std::marker::Model;

/// How many bytes a block holds at most.
const BLOCK_BYTES: usize = 16 * 1024;

/// Bytes that are held back from a sink. Contracts see the list of them; behind an error they are not told.
#[derive(Drop)]
pub struct Block {
    pub(crate) bytes: [u8; BLOCK_BYTES],
    pub(crate) held: usize,
}

impl Model for Block {
    ghost use Rattle.std.specs.Prelude.{◌≤◌, ℕ, List, length, take};

    ghost Value = { List ℕ };

    ghost view = { λ block. take block.held block.bytes };

    ghost invariant = { λ block. block.held ≤ length block.bytes };
}

impl Block {
    /// A block that holds nothing.
    pub fn new() -> Self
        ensures { result ≡ [] }
    {
        Block {
            bytes: [0; BLOCK_BYTES],
            held: 0,
        }
    }

    /// Takes a piece. Where it has no room behind the bytes that are held, these go to the sink before.
    pub fn push<K: Sink>(&mut self, out: &mut K, piece: &[u8]) -> Result<(), Failed>
        ensures { TakesBytes K.Sink out.old out.new (self.old ++ piece.now) self.new result }
    {
        if piece.len() > BLOCK_BYTES - self.held {
            return self.push_behind(out, piece);
        }
        self.hold(piece);
        Ok(())
    }

    /// Writes the bytes that are held, and then takes a piece. One that is longer than a block is written straight.
    fn push_behind<K: Sink>(&mut self, out: &mut K, piece: &[u8]) -> Result<(), Failed>
        ensures { TakesBytes K.Sink out.old out.new (self.old ++ piece.now) self.new result }
    {
        self.flush(out)?;
        if piece.len() > BLOCK_BYTES {
            return write_all(out, piece);
        }
        self.hold(piece);
        Ok(())
    }

    /// Writes the bytes that are held.
    pub fn flush<K: Sink>(&mut self, out: &mut K) -> Result<(), Failed>
        ensures taken { TakesBytes K.Sink out.old out.new self.old self.new result }
        ensures empty { OnOk result (self.new ≡ []) }
    {
        write_all(out, &self.bytes[..self.held])?;
        self.held = 0;
        Ok(())
    }

    /// Holds a piece that there is room for.
    fn hold(&mut self, piece: &[u8])
        requires { length self.old + length piece.now ≤ 16384 }
        ensures { self.new ≡ self.old ++ piece.now }
    {
        self.held = write_piece(&mut self.bytes, self.held, piece);
    }
}

/// Writes bytes behind the first bytes of a block, and says where they end.
pub(crate) fn write_piece(block: &mut [u8], held: usize, piece: &[u8]) -> usize
    requires { held + length piece.now ≤ length block.old }
    ensures end { result ≡ held + length piece.now }
    ensures same { length block.new ≡ length block.old }
    ensures written { take result block.new ≡ take held block.old ++ piece.now }
{
    let end = held + piece.len();
    block[held..end].copy_from_slice(piece);
    end
}
