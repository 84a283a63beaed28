//! Numbers that are stored side by side, spread over the rows that have one.
ghost use Rattle.std.specs.Prelude.{◌≡◌, ◌+◌, ◌-◌, ◌++◌, drop, length, replicate, take, OnOk};
ghost use Rattle.parquet_page.specs.Levels.{present_count};
ghost use Rattle.parquet_page.specs.ValidityParts.{word_places};
ghost use Rattle.flat_values.specs.Decoded.{spread_over};

use columns_core::NativeType;
use parquet_page::ValidityWord;
use std::alloc::AllocError;

/// Moves the numbers at the front to the rows of a word that have one, from the last on. The other rows stand on `null`, as what is behind
/// the numbers does. A place is chosen and not a number, since a choice of numbers becomes a branch, which random bits mispredict.
fn spread_rows<T: Copy>(numbers: &mut [T], word: ValidityWord, null: T)
    requires rows { length numbers.old ≡ word.rows }
    requires nulls { drop (present_count (word_places word)) numbers.old
        ≡ replicate (word.rows - present_count (word_places word)) null }
    ensures { numbers.new ≡ spread_over null (word_places word) numbers.old }
{
    let mut stored = word.present();
    for row in (0..word.rows).rev() {
        let present = word.bits >> row & 1;
        stored -= present as usize;
        let from = if present == 1 { stored } else { row };
        let number = numbers[from];
        numbers[stored] = null;
        numbers[row] = number;
    }
}

/// Moves the numbers behind the first `held` to the rows of a word that have one. The other rows stand on `null`.
pub(crate) fn spread_numbers<T: NativeType>(
    values: &mut Vec<T>,
    held: usize,
    word: ValidityWord,
    null: T,
) -> Result<(), AllocError>
    requires { length values.old.items ≡ held + present_count (word_places word) }
    ensures { OnOk result (values.new.items
        ≡ take held values.old.items ++ spread_over null (word_places word) (drop held values.old.items)) }
{
    let Some(all) = held.checked_add(word.rows) else {
        return Err(AllocError);
    };
    values.resize(all, null)?;
    spread_rows(&mut values[held..], word, null);
    Ok(())
}
