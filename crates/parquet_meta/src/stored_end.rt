//! The least and greatest values of a column as they are stored.

ghost use Rattle.std.specs.Prelude.{List, ℕ, Option, true};
ghost use Rattle.parquet_meta.specs.Fault.{MakesOr};

use crate::fault::Fault;
use columns_core::Seq;
use std::alloc::Global;

/// How the ends of a physical type are stored.
pub(crate) trait EndForm<T> {
    /// What bytes stand for, if they have the width of the type.
    ghost end: { Self → List ℕ → Option T };

    fn read_end(&self, alloc: Global, bytes: &[u8]) -> Result<T, Fault>
        ensures { MakesOr true result (end self.now bytes.now) };
}

#[derive(Clone, Copy)]
pub(crate) struct BooleanForm;

#[derive(Clone, Copy)]
pub(crate) struct Int32Form;

#[derive(Clone, Copy)]
pub(crate) struct Int64Form;

#[derive(Clone, Copy)]
pub(crate) struct Int96Form;

#[derive(Clone, Copy)]
pub(crate) struct BytesForm;

#[derive(Clone, Copy)]
pub(crate) struct FixedForm {
    pub width: usize,
}

impl EndForm<bool> for BooleanForm {
    ghost use Rattle.parquet_meta.specs.StoredEnds.{boolean_end};

    ghost end = { λ _. boolean_end };

    fn read_end(&self, _alloc: Global, bytes: &[u8]) -> Result<bool, Fault> {
        match bytes {
            [byte] => Ok(*byte != 0),
            _ => Err(Fault::Unspelled),
        }
    }
}

impl EndForm<i32> for Int32Form {
    ghost use Rattle.parquet_meta.specs.StoredEnds.{int32_end};

    ghost end = { λ _. int32_end };

    fn read_end(&self, _alloc: Global, bytes: &[u8]) -> Result<i32, Fault> {
        let Some((word, [])) = bytes.split_first_chunk::<4>() else {
            return Err(Fault::Unspelled);
        };
        Ok(i32::from_le_bytes(*word))
    }
}

impl EndForm<i64> for Int64Form {
    ghost use Rattle.parquet_meta.specs.StoredEnds.{int64_end};

    ghost end = { λ _. int64_end };

    fn read_end(&self, _alloc: Global, bytes: &[u8]) -> Result<i64, Fault> {
        let Some((word, [])) = bytes.split_first_chunk::<8>() else {
            return Err(Fault::Unspelled);
        };
        Ok(i64::from_le_bytes(*word))
    }
}

impl EndForm<[u32; 3]> for Int96Form {
    ghost use Rattle.parquet_meta.specs.StoredEnds.{int96_end};

    ghost end = { λ _. int96_end };

    fn read_end(&self, _alloc: Global, bytes: &[u8]) -> Result<[u32; 3], Fault> {
        let Some((words, [])) = bytes.split_first_chunk::<12>() else {
            return Err(Fault::Unspelled);
        };
        let [a, b, c, d, e, f, g, h, i, j, k, l] = *words;
        Ok([
            u32::from_le_bytes([a, b, c, d]),
            u32::from_le_bytes([e, f, g, h]),
            u32::from_le_bytes([i, j, k, l]),
        ])
    }
}

impl EndForm<Seq<u8>> for BytesForm {
    ghost use Rattle.parquet_meta.specs.StoredEnds.{bytes_end};

    ghost end = { λ _. bytes_end };

    fn read_end(&self, alloc: Global, bytes: &[u8]) -> Result<Seq<u8>, Fault> {
        Ok(Seq::new(Vec::from_slice(alloc, bytes)?))
    }
}

impl EndForm<Seq<u8>> for FixedForm {
    ghost use Rattle.parquet_meta.specs.StoredEnds.{fixed_end};

    ghost end = { λ form. fixed_end form.width };

    fn read_end(&self, alloc: Global, bytes: &[u8]) -> Result<Seq<u8>, Fault> {
        if bytes.len() != self.width {
            return Err(Fault::Unspelled);
        }
        Ok(Seq::new(Vec::from_slice(alloc, bytes)?))
    }
}
