//! Arrays of nulls.
ghost use Rattle.std.specs.Prelude.{◌≡◌};

use crate::DataType;
use std::marker::Model;

/// So many nulls.
#[derive(Drop)]
pub struct NullArray {
    data_type: DataType,
    len: usize,
}

impl Model for NullArray {
    ghost use Rattle.std.specs.Prelude.{ℕ, ◌≡◌};
    ghost use Rattle.columns_core.specs.declared.data_type.DataType.{Null};

    ghost Value = { ℕ };

    ghost view = { λ array. array.len };

    ghost invariant = { λ array. array.data_type ≡ Null };
}

impl NullArray {
    ghost use Rattle.columns_core.specs.declared.data_type.DataType.{Null};

    pub fn new(len: usize) -> Self
        ensures { result ≡ len }
    {
        NullArray {
            data_type: DataType::Null,
            len,
        }
    }

    pub fn data_type(&self) -> &DataType
        ensures { result.now ≡ Null }
    {
        &self.data_type
    }

    pub fn len(&self) -> usize
        ensures { result ≡ self.now }
    {
        self.len
    }
}
