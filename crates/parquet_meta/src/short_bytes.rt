//! Byte strings most of which are short.

ghost use Rattle.std.specs.Prelude.{◌≡◌, ◌≤◌, length, IfOk, IsOk};

use smallvec::SmallVec;
use std::alloc::{AllocError, Global};
use std::marker::Model;

/// A byte string that takes memory of its own only above 16 bytes. Contracts see it as the list of its bytes.
#[derive(Drop)]
pub struct ShortBytes {
    bytes: SmallVec<u8, 16>,
}

impl Model for ShortBytes {
    ghost use Rattle.std.specs.Prelude.{List, ℕ};

    ghost Value = { List ℕ };

    ghost view = { λ short. short.bytes.items };
}

impl ShortBytes {
    pub fn from_slice(alloc: Global, bytes: &[u8]) -> Result<Self, AllocError>
        ensures same { IfOk result (λ short. short ≡ bytes.now) }
        ensures no_memory { length bytes.now ≤ 16 → IsOk result }
    {
        let bytes = SmallVec::from_slice(alloc, bytes)?;
        Ok(ShortBytes { bytes })
    }

    pub fn as_slice(&self) -> &[u8]
        ensures { result.now ≡ self.now }
    {
        self.bytes.as_slice()
    }
}
