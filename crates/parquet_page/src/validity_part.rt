//! Rows of a page by runs, and by the bits of words.
ghost use Rattle.std.specs.Prelude.{ℕ, ◌≡◌, ◌≢◌, ◌/◌, ◌%◌, ◌^◌, ◌<◌, ◌≤◌, [], IfNone, IfSome};
ghost use Rattle.parquet_page.specs.Levels.{present_count};
ghost use Rattle.parquet_page.specs.Stretches.{BeginsWith};

use crate::run::Run;

/// How many of the `count` lowest bits are the same as the lowest, before another one.
pub(crate) fn equal_bits(bits: u64, count: usize) -> usize
    requires some { 0 < count }
    requires few { count ≤ 32 }
    requires low { bits < 2 ^ 32 }
    ensures some { 0 < result }
    ensures within { result ≤ count }
    ensures same { (k : ℕ) → k < result → bits / 2 ^ k % 2 ≡ bits % 2 }
    ensures ends { result < count → bits / 2 ^ result % 2 ≢ bits % 2 }
{
    if bits % 2 == 1 {
        (bits.trailing_ones() as usize).min(count)
    } else {
        (bits.trailing_zeros() as usize).min(count)
    }
}

/// At most 32 rows of a page that stand side by side. Bit k is 1 where row k has a value and 0 where it is null, and no bit is set at `rows` or above.
#[derive(Clone, Copy)]
pub struct ValidityWord {
    pub bits: u32,
    pub rows: usize,
    ghost few: { rows ≤ 32 },
    ghost within: { bits < 2 ^ rows },
}

impl ValidityWord {
    ghost use Rattle.parquet_page.specs.ValidityParts.{word_places};

    /// How many rows have a value.
    pub fn present(self) -> usize
        ensures { result ≡ present_count (word_places self) }
    {
        self.bits.count_ones() as usize
    }

    /// Takes the rows of one kind off its front: whether they have a value, and how many they are.
    pub fn next_run(&mut self) -> Option<(bool, usize)>
        ensures ended { IfNone result (word_places self.old ≡ []) }
        ensures begins { IfSome result
            (λ run. BeginsWith self.old.rows run.0 run.1 (word_places self.old) (word_places self.new)) }
        ensures some { IfSome result (λ run. 0 < run.1) }
        ensures kept { IfNone result (self.new ≡ self.old) }
    {
        if self.rows == 0 {
            return None;
        }
        let bits = u64::from(self.bits);
        let rows = equal_bits(bits, self.rows);
        *self = ValidityWord {
            bits: (bits >> rows) as u32,
            rows: self.rows - rows,
        };
        Some((bits % 2 == 1, rows))
    }
}

/// A run of rows of one kind or of stored values that are passed over, or rows as the bits of a word.
#[derive(Clone, Copy)]
pub enum ValidityPart {
    Run(Run),
    Word(ValidityWord),
}

impl ValidityPart {
    ghost use Rattle.parquet_page.specs.ValidityParts.{part_rows};

    /// How many rows it gives.
    pub fn rows(self) -> usize
        ensures { result ≡ part_rows self }
    {
        match self {
            ValidityPart::Run(run) => run.rows(),
            ValidityPart::Word(word) => word.rows,
        }
    }
}
