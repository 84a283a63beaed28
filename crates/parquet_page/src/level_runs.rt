//! Which places of a page have a value, in runs and words.
ghost use Rattle.std.specs.Prelude.{◌≡◌, ◌==◌, ◌+◌, ◌*◌, ◌%◌, ◌<◌, ◌≤◌, ◌++◌, ℕ, List, true, false, [], length, take, drop, map, replicate, count_by, nat_le, IfOk, IfErr, IfNone, IfSome, IsSome, None, Some};
ghost use Rattle.std.specs.List.{list_all};
ghost use Rattle.columns_core.specs.Causes.{ExternalFormat, cause_of};
ghost use Rattle.parquet_encoding.specs.Bits.{bits_at};
ghost use Rattle.parquet_encoding.specs.HybridLeft.{hybrid_left, hybrid_values};
ghost use Rattle.parquet_encoding.specs.HybridRun.{IsIn, count_of, run_values};
ghost use Rattle.parquet_encoding.specs.PackedRun.{LiesIn, packed_values};
ghost use Rattle.parquet_page.specs.Levels.{presence, present_count, top_level as top_level_of};
ghost use Rattle.parquet_page.specs.Stretches.{BeginsOtherwise, BeginsWith};
ghost use Rattle.parquet_page.specs.ValidityParts.{HasBothKinds, word_places};

use crate::validity_part::{ValidityWord, equal_bits};
use columns_core::{Error, Part};
use parquet_encoding::{HybridRle, HybridRun, PackedRun};
use parquet_meta::Repetition;

/// How many packed levels are looked at together.
const WORD: usize = 32;

/// Levels at the front of others that are the same.
#[derive(Clone, Copy)]
struct Stretch {
    level: u32,
    count: usize,
    /// Whether another level is known to stand behind them.
    ends: bool,
}

/// The levels of one bit at the front of a run, as the bits of one number, and how many they are.
fn front_bits(run: &PackedRun, bytes: &[u8]) -> (u32, usize)
    requires some { 0 < run.now.count }
    requires one_bit { run.now.width ≡ 1 }
    requires lies { LiesIn bytes.now run.now }
    ensures some { 0 < result.1 }
    ensures within { result.1 ≤ run.now.count }
    ensures few { result.1 ≤ 32 }
    ensures bits { result.0 ≡ bits_at bytes.now (8 * run.now.place + run.now.bit) result.1 }
{
    let count = run.count.min(WORD);
    let front = PackedRun {
        place: run.place,
        bit: run.bit,
        width: count as u32,
        count: 1,
    };
    (front.first(bytes), count)
}

/// The levels at the front of a packed run that are the same as the first, as far as they are looked at.
fn packed_front(run: &PackedRun, bytes: &[u8]) -> Stretch
    requires some { 0 < run.now.count }
    requires lies { LiesIn bytes.now run.now }
    ensures some { 0 < result.count }
    ensures within { result.count ≤ run.now.count }
    ensures same { take result.count (packed_values run.now bytes.now) ≡
        replicate result.count result.level }
    ensures ends { result.ends ≡ true → (result.count < run.now.count)
        × BeginsOtherwise result.level (drop result.count (packed_values run.now bytes.now)) }
{
    if run.width != 1 {
        return Stretch {
            level: run.first(bytes),
            count: 1,
            ends: false,
        };
    }
    let (bits, seen) = front_bits(run, bytes);
    let count = equal_bits(u64::from(bits), seen);
    Stretch {
        level: bits % 2,
        count,
        ends: count < seen,
    }
}

/// The levels at the front of a packed run as the bits of a word, where they take one bit and are not all the same.
fn packed_word(run: &PackedRun, bytes: &[u8]) -> Option<ValidityWord>
    requires some { 0 < run.now.count }
    requires lies { LiesIn bytes.now run.now }
    ensures some { IfSome result (λ word. 0 < word.rows) }
    ensures within { IfSome result (λ word. word.rows ≤ run.now.count) }
    ensures both { IfSome result HasBothKinds }
    ensures places { IfSome result
        (λ word. word_places word ≡ map
        (λ level. level == 1) (take word.rows (packed_values run.now bytes.now))) }
{
    if run.width != 1 {
        return None;
    }
    let (bits, rows) = front_bits(run, bytes);
    if equal_bits(u64::from(bits), rows) == rows {
        return None;
    }
    Some(ValidityWord { bits, rows })
}

/// The levels at the front of a run that are the same as the first, as far as they are looked at.
fn run_front(run: &HybridRun, bytes: &[u8]) -> Stretch
    requires some { 0 < count_of run.now }
    requires lies { IsIn bytes.now run.now }
    ensures some { 0 < result.count }
    ensures within { result.count ≤ count_of run.now }
    ensures same { take result.count (run_values run.now bytes.now) ≡ replicate result.count result.level }
    ensures ends { result.ends ≡ true → (result.count < count_of run.now)
        × BeginsOtherwise result.level (drop result.count (run_values run.now bytes.now)) }
{
    match run {
        HybridRun::Packed(run) => packed_front(run, bytes),
        HybridRun::Repeated { value, count } => Stretch {
            level: *value,
            count: *count,
            ends: false,
        },
    }
}

/// The next levels that lie in one run, at most `limit`.
fn next_run(levels: &HybridRle, bytes: &[u8], limit: usize) -> Option<HybridRun>
    requires spelled { IsSome (hybrid_left levels.now bytes.now) }
    requires some { 0 < limit }
    ensures ended { IfNone result (hybrid_values levels.now bytes.now ≡ []) }
    ensures values { IfSome result
        (λ run. run_values run bytes.now ≡ take (count_of run) (hybrid_values levels.now bytes.now)) }
    ensures lies { IfSome result (IsIn bytes.now) }
    ensures some { IfSome result (λ run. 0 < count_of run) }
    ensures most { IfSome result (λ run. count_of run ≤ limit) }
{
    let mut ahead = *levels;
    ahead.next_run(bytes, limit)
}

/// Some of the next levels that are the same, at most `limit`.
fn next_same(levels: &HybridRle, bytes: &[u8], limit: usize) -> Option<Stretch>
    requires spelled { IsSome (hybrid_left levels.now bytes.now) }
    requires some { 0 < limit }
    ensures ended { IfNone result (hybrid_values levels.now bytes.now ≡ []) }
    ensures some { IfSome result (λ same. 0 < same.count) }
    ensures most { IfSome result (λ same. same.count ≤ limit) }
    ensures same { IfSome result (λ same.
        hybrid_values levels.now bytes.now
        ≡ replicate same.count same.level ++ drop same.count (hybrid_values levels.now bytes.now)) }
    ensures ends { IfSome result (λ same. same.ends ≡ true
        → BeginsOtherwise same.level (drop same.count (hybrid_values levels.now bytes.now))) }
{
    let run = next_run(levels, bytes, limit)?;
    Some(run_front(&run, bytes))
}

/// Passes over the next levels that are those of `first`, at most `limit`, and tells how many they are.
fn skip_same(levels: &mut HybridRle, bytes: &[u8], first: Stretch, limit: usize) -> usize
    requires spelled { IsSome (hybrid_left levels.old bytes.now) }
    requires most { first.count ≤ limit }
    requires same { hybrid_values levels.old bytes.now
        ≡ replicate first.count first.level ++ drop first.count (hybrid_values levels.old bytes.now) }
    requires ends { first.ends ≡ true
        → BeginsOtherwise first.level (drop first.count (hybrid_values levels.old bytes.now)) }
    ensures begins { BeginsWith limit first.level result (hybrid_values levels.old bytes.now)
        (hybrid_values levels.new bytes.now) }
    ensures spelled { IsSome (hybrid_left levels.new bytes.now) }
    ensures some { first.count ≤ result }
{
    levels.skip(bytes, first.count);
    if first.ends {
        return first.count;
    }
    let mut count = first.count;
    while count < limit {
        let Some(more) = next_same(levels, bytes, limit - count) else {
            return count;
        };
        if more.level != first.level {
            return count;
        }
        levels.skip(bytes, more.count);
        count += more.count;
    }
    count
}

/// How many levels at the front of a packed run are not above the top one, as far as they are looked at. One bit is never above 1.
fn low_packed(run: &PackedRun, bytes: &[u8], top: u32) -> usize
    requires some { 0 < run.now.count }
    requires lies { LiesIn bytes.now run.now }
    ensures within { result ≤ run.now.count }
    ensures low { list_all (λ level. nat_le level top) (take result (packed_values run.now bytes.now))
        ≡ true }
    ensures high { result ≡ 0 → list_all (λ level. nat_le level top) (packed_values run.now bytes.now)
        ≡ false }
{
    if run.width == 1 && top > 0 {
        return run.count;
    }
    if run.first(bytes) <= top { 1 } else { 0 }
}

/// How many levels at the front of a run are not above the top one, as far as they are looked at.
fn low_front(run: &HybridRun, bytes: &[u8], top: u32) -> usize
    requires some { 0 < count_of run.now }
    requires lies { IsIn bytes.now run.now }
    ensures within { result ≤ count_of run.now }
    ensures low { list_all (λ level. nat_le level top)
        (take result (run_values run.now bytes.now)) ≡ true }
    ensures high { result ≡ 0 →
        list_all (λ level. nat_le level top) (run_values run.now bytes.now) ≡ false }
{
    match run {
        HybridRun::Packed(run) => low_packed(run, bytes, top),
        HybridRun::Repeated { value, count } => { if *value <= top { *count } else { 0 } }
    }
}

/// Whether no level is above the top one.
fn are_at_most(levels: &HybridRle, bytes: &[u8], top: u32) -> bool
    requires { IsSome (hybrid_left levels.now bytes.now) }
    ensures { result ≡ list_all (λ level. nat_le level top) (hybrid_values levels.now bytes.now) }
{
    let mut behind = *levels;
    while let Some(run) = next_run(&behind, bytes, usize::MAX) {
        let low = low_front(&run, bytes, top);
        if low == 0 {
            return false;
        }
        behind.skip(bytes, low);
    }
    true
}

/// How many of the levels at the front of a packed run are looked at, and how many of those are the top one.
fn packed_tops(run: &PackedRun, bytes: &[u8], top: u32) -> (usize, usize)
    requires some { 0 < run.now.count }
    requires lies { LiesIn bytes.now run.now }
    ensures some { 0 < result.0 }
    ensures within { result.0 ≤ run.now.count }
    ensures tops { result.1 ≡ count_by
        (λ level. level == top) (take result.0 (packed_values run.now bytes.now)) }
{
    if run.width == 1 && top == 1 {
        let (bits, seen) = front_bits(run, bytes);
        return (seen, bits.count_ones() as usize);
    }
    (1, usize::from(run.first(bytes) == top))
}

/// How many of the next levels are looked at, at most `limit`, and how many of those are the top one.
fn next_tops(levels: &HybridRle, bytes: &[u8], top: u32, limit: usize) -> Option<(usize, usize)>
    requires spelled { IsSome (hybrid_left levels.now bytes.now) }
    requires some { 0 < limit }
    ensures ended { IfNone result (hybrid_values levels.now bytes.now ≡ []) }
    ensures some { IfSome result (λ seen. 0 < seen.0) }
    ensures most { IfSome result (λ seen. seen.0 ≤ limit) }
    ensures tops { IfSome result (λ seen.
        seen.1 ≡ count_by (λ level. level == top) (take seen.0 (hybrid_values levels.now bytes.now))) }
{
    match next_run(levels, bytes, limit)? {
        HybridRun::Packed(run) => Some(packed_tops(&run, bytes, top)),
        HybridRun::Repeated { value, count } => {
            Some((count, if value == top { count } else { 0 }))
        }
    }
}

/// The level of a place that has a value.
fn top_level(repetition: Repetition) -> Option<u32>
    ensures { result ≡ top_level_of repetition }
{
    match repetition {
        Repetition::Required => Some(0),
        Repetition::Optional => Some(1),
        Repetition::Repeated => None,
    }
}

/// Walks the definition levels of a page. It holds places, and the levels are handed to each call.
#[derive(Clone, Copy)]
pub(crate) struct LevelRuns {
    levels: HybridRle,
    /// The level of a place that has a value.
    top: u32,
    ghost low: { top ≤ 1 },
}

impl LevelRuns {
    ghost use Rattle.parquet_page.specs.LevelsLeft.{places, places_left};

    /// Before the first of `count` places. Levels take as many bits as the top one needs: none, or one.
    pub(crate) fn try_new(
        levels: &[u8],
        repetition: Repetition,
        count: usize,
    ) -> Result<Self, Error>
        ensures places { IfOk result (λ runs.
            places_left runs levels.now ≡ presence repetition levels.now count) }
        ensures spelled { IfOk result (λ runs. IsSome (places_left runs levels.now)) }
        ensures refusal { IfErr result
            (λ error. (cause_of error ≡ Some ExternalFormat)
            × (presence repetition levels.now count ≡ None)) }
    {
        let damaged = Error::ExternalFormat(Part::Levels);
        let Some(top) = top_level(repetition) else {
            return Err(damaged);
        };
        let Ok(runs) = HybridRle::try_new(levels, top, count) else {
            return Err(damaged);
        };
        if !are_at_most(&runs, levels, top) {
            return Err(damaged);
        }
        Ok(LevelRuns { levels: runs, top })
    }

    /// All of the next places that are of one kind, at most `limit`: whether they have a value, and how many they are.
    pub(crate) fn next(&mut self, levels: &[u8], limit: usize) -> Option<(bool, usize)>
        requires spelled { IsSome (places_left self.old levels.now) }
        requires some { 0 < limit }
        ensures ended { IfNone result (places self.old levels.now ≡ []) }
        ensures begins { IfSome result
            (λ run. BeginsWith limit run.0 run.1 (places self.old levels.now) (places self.new levels.now)) }
        ensures some { IfSome result (λ run. 0 < run.1) }
        ensures kept { IfNone result (self.new ≡ self.old) }
        ensures spelled { IsSome (places_left self.new levels.now) }
    {
        let first = next_same(&self.levels, levels, limit)?;
        let count = skip_same(&mut self.levels, levels, first, limit);
        Some((first.level == self.top, count))
    }

    /// The next places as the bits of a word, at most `limit`, where they are packed and not all of one kind.
    pub(crate) fn next_word(&mut self, levels: &[u8], limit: usize) -> Option<ValidityWord>
        requires spelled { IsSome (places_left self.old levels.now) }
        requires some { 0 < limit }
        ensures word { IfSome result (λ word.
            (places self.old levels.now ≡ word_places word ++ places self.new levels.now) × (0 < word.rows)
            × (word.rows ≤ limit)) }
        ensures both { IfSome result HasBothKinds }
        ensures kept { IfNone result (self.new ≡ self.old) }
        ensures spelled { IsSome (places_left self.new levels.now) }
    {
        if self.top == 0 {
            return None;
        }
        let HybridRun::Packed(run) = next_run(&self.levels, levels, limit)? else {
            return None;
        };
        let word = packed_word(&run, levels)?;
        self.levels.skip(levels, word.rows);
        Some(word)
    }

    /// Passes over the next places, at most so many, and tells how many of them have a value.
    pub(crate) fn pass(&mut self, levels: &[u8], count: usize) -> usize
        requires { IsSome (places_left self.old levels.now) }
        ensures present { result ≡ present_count (take count (places self.old levels.now)) }
        ensures left { places self.new levels.now ≡ drop count (places self.old levels.now) }
        ensures spelled { IsSome (places_left self.new levels.now) }
    {
        let mut left = count;
        let mut present = 0;
        while left > 0 {
            let Some((passed, places)) = next_tops(&self.levels, levels, self.top, left) else {
                return present;
            };
            self.levels.skip(levels, passed);
            present += places;
            left -= passed;
        }
        present
    }

    /// How many places are left.
    pub(crate) fn len(&self) -> usize
        ensures { (levels : List ℕ) → IsSome (places_left self.now levels)
            → result ≡ length (places self.now levels) }
    {
        self.levels.remaining()
    }
}
