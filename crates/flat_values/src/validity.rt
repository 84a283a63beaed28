//! Which decoded values are there: a mask that is empty until the first null or word of rows.
ghost use Rattle.std.specs.Prelude.{◌≡◌, OnOk, IfErr};
ghost use Rattle.columns_core.specs.Causes.{IsWantOfMemory};
ghost use Rattle.parquet_page.specs.ValidityParts.{word_places};
ghost use Rattle.flat_values.specs.Decoded.{found_mask, with_nulls, with_places, with_values};

use columns_core::{Bitmap, Error, MutableBitmap};
use parquet_page::ValidityWord;

/// So many values more are there.
pub fn mark_values(validity: &mut MutableBitmap, count: usize) -> Result<(), Error>
    ensures ok { OnOk result (validity.new ≡ with_values count validity.old) }
    ensures err { IfErr result IsWantOfMemory }
{
    if validity.len() == 0 {
        return Ok(());
    }
    validity.extend_constant(count, true)
}

/// So many nulls stand behind `held` values.
pub fn mark_nulls(validity: &mut MutableBitmap, held: usize, count: usize) -> Result<(), Error>
    ensures ok { OnOk result (validity.new ≡ with_nulls held count validity.old) }
    ensures err { IfErr result IsWantOfMemory }
{
    if count == 0 {
        return Ok(());
    }
    if validity.len() == 0 {
        validity.extend_constant(held, true)?;
    }
    validity.extend_constant(count, false)
}

/// The rows of a word stand behind `held` values, each there or null as its bit says.
pub fn mark_rows(validity: &mut MutableBitmap, held: usize, word: ValidityWord) -> Result<(), Error>
    ensures ok { OnOk result (validity.new ≡ with_places held (word_places word) validity.old) }
    ensures err { IfErr result IsWantOfMemory }
{
    if validity.len() == 0 {
        validity.extend_constant(held, true)?;
    }
    validity.extend_from_slice(&word.bits.to_le_bytes(), 0, word.rows)
}

/// The mask of an array.
pub fn freeze_mask(validity: MutableBitmap) -> Option<Bitmap>
    ensures { result ≡ found_mask validity }
{
    if validity.len() == 0 {
        None
    } else {
        Some(validity.freeze())
    }
}
