//! The paths of columns.

ghost use Rattle.std.specs.Prelude.{◌≡◌, [], IfOk};

use columns_core::{Name, Seq};
use std::alloc::{AllocError, Global};
use std::marker::Model;
use std::sync::Arc;

/// The names from the root of a schema to a leaf, which stand in memory once however many hold them: the chunks of a leaf in all row groups do. Contracts
/// see it as the list of the names.
#[derive(Drop)]
pub struct ColumnPath {
    names: Option<Arc<Seq<Name>>>,
}

impl Model for ColumnPath {
    ghost use Rattle.std.specs.Prelude.{[], List, ℕ};
    ghost use Rattle.std.specs.Option.{option_map_or};

    ghost Value = { List (List ℕ) };

    ghost view = { λ path. option_map_or (λ shared. shared.value) path.names [] };
}

impl ColumnPath {
    /// The path of the root. It takes no memory.
    pub fn empty() -> Self
        ensures { result ≡ [] }
    {
        ColumnPath { names: None }
    }

    pub fn new(alloc: Global, names: Vec<Name>) -> Result<Self, AllocError>
        ensures { IfOk result (λ path. path ≡ names.items) }
    {
        let shared = Arc::new(alloc, Seq::new(names))?;
        Ok(ColumnPath {
            names: Some(shared),
        })
    }

    pub fn as_slice(&self) -> &[Name]
        ensures { result.now ≡ self.now }
    {
        match &self.names {
            Some(shared) => shared.as_slice(),
            None => &[],
        }
    }

    /// The same path, which takes no more memory. An error where no more can hold it: their number is one of 64 bits.
    pub fn try_clone(&self) -> Result<Self, AllocError>
        ensures { IfOk result (λ path. path ≡ self.now) }
    {
        let names = match &self.names {
            Some(shared) => Some(Arc::try_clone(shared)?),
            None => None,
        };
        Ok(ColumnPath { names })
    }
}
