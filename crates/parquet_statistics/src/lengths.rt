//! How many cells builders would make.
ghost use Rattle.std.specs.Prelude.{◌≡◌, length};
ghost use Rattle.parquet_statistics.specs.Made.{made_by, made_cells};

use crate::{
    DynMutable, DynMutableDictionary, DynMutableListArray, DynMutableMapArray,
    DynMutableStructArray,
};

impl DynMutable {
    /// The number of cells of the array.
    #[cycle(len)]
    pub fn len(&self) -> usize
        ensures { result ≡ length (made_cells (made_by self.now)) }
    {
        match self {
            DynMutable::Flat(builder) => builder.len(),
            DynMutable::Dictionary(entries) => entries.len(),
            DynMutable::List(items) => items.len(),
            DynMutable::Map(pairs) => pairs.len(),
            DynMutable::Struct(fields) => fields.len(),
        }
    }
}

impl DynMutableDictionary {
    /// As many as entries.
    #[cycle(len)]
    pub fn len(&self) -> usize
        ensures { result ≡ length (made_cells (made_by (DynMutable.Dictionary self.now))) }
    {
        self.inner.len()
    }
}

impl DynMutableListArray {
    /// As many as items.
    #[cycle(len)]
    pub fn len(&self) -> usize
        ensures { result ≡ length (made_cells (made_by (DynMutable.List self.now))) }
    {
        self.inner.len()
    }
}

impl DynMutableMapArray {
    /// One map.
    pub fn len(&self) -> usize
        ensures { result ≡ length (made_cells (made_by (DynMutable.Map self.now))) }
    {
        1
    }
}

impl DynMutableStructArray {
    /// As many as the first field has, and 0 where there is no field.
    #[cycle(len)]
    pub fn len(&self) -> usize
        ensures { result ≡ length (made_cells (made_by (DynMutable.Struct self.now))) }
    {
        match self.inner.first() {
            None => 0,
            Some(first) => first.len(),
        }
    }
}
