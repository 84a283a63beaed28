//! Deltas in blocks of miniblocks.
ghost use Rattle.std.specs.Prelude.{◌≡◌, ℕ, List, ◌+◌, ◌-◌, ◌*◌, ◌/◌, ◌%◌, ◌^◌, ◌<◌, ◌≤◌, ◌++◌, ◌⊎◌, length, take, drop, Some, None, IsSome, IfSome, IfOk, OnOk, OnErr, option_map};
ghost use Rattle.parquet_base.specs.Reading.{after, map_value};
ghost use Rattle.parquet_encoding.specs.DeltaBinary.{blocks};
ghost use Rattle.parquet_encoding.specs.DeltaRun.{DeltasLieIn, run_deltas};
ghost use Rattle.parquet_encoding.specs.Sums.{number_behind, numbers_before};

use crate::delta_run::DeltaRun;
use crate::places::number_at;
use parquet_base::{Unspelled, from_zigzag};

/// The most bits of a stored number.
const MOST_BITS: u8 = 64;

/// Walks deltas.
#[derive(Clone, Copy)]
pub(crate) struct DeltaWalk {
    /// How many values a miniblock has.
    size: usize,
    /// How many miniblocks a block has.
    parts: usize,
    /// What is left of the miniblock at which it stands.
    run: DeltaRun,
    /// How many deltas are to come behind this miniblock.
    behind: usize,
    /// The place of the width of the next miniblock of this block.
    widths: usize,
    /// How many miniblocks this block has behind this one.
    parts_left: usize,
    /// The place behind this miniblock.
    next: usize,
    ghost some: { 0 < size },
    ghost whole: { size % 32 ≡ 0 },
    ghost some_parts: { 0 < parts },
    ghost counted: { run.count + behind + 1 < 2 ^ 64 },
}

impl DeltaWalk {
    ghost use Rattle.parquet_encoding.specs.DeltaWalk.{IsWithin, deltas_behind, deltas_left, deltas};

    /// Before the first of `count` deltas, whose first block begins at a place.
    pub(crate) fn new(size: usize, parts: usize, start: usize, count: usize) -> DeltaWalk
        requires some { 0 < size }
        requires whole { size % 32 ≡ 0 }
        requires some_parts { 0 < parts }
        requires counted { count + 1 < 2 ^ 64 }
        ensures behind { (bytes : List ℕ) → start ≤ length bytes
            → deltas_behind result bytes ≡ blocks (length bytes) size parts count (drop start bytes) }
        ensures left { (bytes : List ℕ) → start ≤ length bytes
            → deltas_left result bytes ≡ option_map
            (λ read. read.0) (blocks (length bytes) size parts count (drop start bytes)) }
        ensures within { (bytes : List ℕ) → start ≤ length bytes → IsWithin bytes result }
    {
        DeltaWalk {
            size,
            parts,
            run: DeltaRun {
                least: 0,
                place: 0,
                bit: 0,
                width: 0,
                count: 0,
            },
            behind: count,
            widths: 0,
            parts_left: 0,
            next: start,
        }
    }

    /// The place behind the last miniblock.
    pub(crate) fn end(&self, bytes: &[u8]) -> Result<usize, Unspelled>
        requires { IsWithin bytes.now self.now }
        ensures ok { IfOk result (λ end.
            after (deltas_behind self.now bytes.now) ≡ Some (drop end bytes.now)) }
        ensures within { IfOk result (λ end. end ≤ length bytes.now) }
        ensures err { OnErr result (deltas_behind self.now bytes.now ≡ None) }
    {
        let mut walk = *self;
        while walk.behind > 0 {
            walk.open(bytes)?;
        }
        Ok(walk.next)
    }

    /// How many deltas are left.
    pub(crate) fn left(&self) -> usize
        ensures length { (bytes : List ℕ)
            → IfSome (deltas_left self.now bytes) (λ deltas. result ≡ length deltas) }
        ensures counted { result + 1 < 2 ^ 64 }
    {
        self.run.count + self.behind
    }

    /// The number behind the next delta.
    pub(crate) fn pass_one(&mut self, bytes: &[u8], value: i64) -> i64
        requires spelled { IsSome (deltas_left self.old bytes.now) }
        requires some { 0 < length (deltas self.old bytes.now) }
        ensures behind { result ≡ number_behind value (take 1 (deltas self.old bytes.now)) }
        ensures rest { deltas_left self.new bytes.now ≡ Some (drop 1 (deltas self.old bytes.now)) }
    {
        let run = self.next_run(bytes, 1);
        run.first(bytes, value)
    }

    /// The number behind the next `n` deltas.
    pub(crate) fn pass(&mut self, bytes: &[u8], value: i64, n: usize) -> i64
        requires spelled { IsSome (deltas_left self.old bytes.now) }
        requires enough { n ≤ length (deltas self.old bytes.now) }
        ensures behind { result ≡ number_behind value (take n (deltas self.old bytes.now)) }
        ensures rest { deltas_left self.new bytes.now ≡ Some (drop n (deltas self.old bytes.now)) }
    {
        let mut value = value;
        let mut done = 0;
        while done < n {
            let run = self.next_run(bytes, n - done);
            value = run.pass(bytes, value);
            done += run.count;
        }
        value
    }

    /// Writes the numbers before each of the next deltas, for which `out` has room, and gives the number behind them.
    pub(crate) fn sums(&mut self, bytes: &[u8], value: i64, out: &mut [i64]) -> i64
        requires spelled { IsSome (deltas_left self.old bytes.now) }
        requires enough { length out.old ≤ length (deltas self.old bytes.now) }
        ensures sums { out.new ≡ numbers_before value (take (length out.old) (deltas self.old bytes.now)) }
        ensures behind { result ≡ number_behind value (take (length out.old) (deltas self.old bytes.now)) }
        ensures rest { deltas_left self.new bytes.now
            ≡ Some (drop (length out.old) (deltas self.old bytes.now)) }
    {
        let mut value = value;
        let mut done = 0;
        while done < out.len() {
            let run = self.next_run(bytes, out.len() - done);
            let end = done + run.count;
            value = run.sums(bytes, value, &mut out[done..end]);
            done = end;
        }
        value
    }

    /// The next deltas that lie in one miniblock, at most `limit` of them.
    fn next_run(&mut self, bytes: &[u8], limit: usize) -> DeltaRun
        requires spelled { IsSome (deltas_left self.old bytes.now) }
        requires some { 0 < limit }
        requires enough { limit ≤ length (deltas self.old bytes.now) }
        ensures deltas { run_deltas result bytes.now ≡ take result.count (deltas self.old bytes.now) }
        ensures lies { DeltasLieIn bytes.now result }
        ensures some { 0 < result.count }
        ensures most { result.count ≤ limit }
        ensures rest { deltas_left self.new bytes.now ≡
            Some (drop result.count (deltas self.old bytes.now)) }
    {
        self.open_next(bytes);
        let count = self.run.count.min(limit);
        let run = self.run.front(count);
        self.run = self.run.behind(count);
        run
    }

    /// Opens the next miniblock, where nothing is left of this one.
    fn open_next(&mut self, bytes: &[u8])
        requires spelled { IsSome (deltas_left self.old bytes.now) }
        requires more { 0 < length (deltas self.old bytes.now) }
        ensures same { deltas_left self.new bytes.now ≡ deltas_left self.old bytes.now }
        ensures some { 0 < self.new.run.count }
    {
        if self.run.count > 0 {
            return;
        }
        let Ok(()) = self.open(bytes) else {
            unreachable!()
        };
    }

    /// Opens the next miniblock.
    fn open(&mut self, bytes: &[u8]) -> Result<(), Unspelled>
        requires within { IsWithin bytes.now self.old }
        requires more { 0 < self.old.behind }
        ensures ok { OnOk result (deltas_behind self.old bytes.now
            ≡ map_value (λ others. run_deltas self.new.run bytes.now ++ others)
            (deltas_behind self.new bytes.now)) }
        ensures lies { OnOk result (DeltasLieIn bytes.now self.new.run) }
        ensures some { OnOk result (0 < self.new.run.count) }
        ensures counted { OnOk result (self.new.run.count + self.new.behind ≡ self.old.behind) }
        ensures within { OnOk result (IsWithin bytes.now self.new) }
        ensures err { OnErr result (deltas_behind self.old bytes.now ≡ None) }
    {
        if self.parts_left == 0 {
            self.open_block(bytes)?;
        }
        self.open_part(bytes)
    }

    /// Opens the next block, before its first miniblock.
    fn open_block(&mut self, bytes: &[u8]) -> Result<(), Unspelled>
        requires within { IsWithin bytes.now self.old }
        requires more { 0 < self.old.behind }
        requires done { self.old.parts_left ≡ 0 }
        ensures ok { OnOk result (deltas_behind self.new bytes.now ≡ deltas_behind self.old bytes.now) }
        ensures some { OnOk result (0 < self.new.parts_left) }
        ensures same { OnOk result (self.new.behind ≡ self.old.behind) }
        ensures within { OnOk result (IsWithin bytes.now self.new) }
        ensures err { OnErr result (deltas_behind self.old bytes.now ≡ None) }
    {
        let (least, widths) = number_at(bytes, self.next)?;
        if bytes.len() - widths < self.parts {
            return Err(Unspelled);
        }
        self.run.least = from_zigzag(least);
        self.widths = widths;
        self.parts_left = self.parts;
        self.next = widths + self.parts;
        Ok(())
    }

    /// Opens the next miniblock of this block.
    fn open_part(&mut self, bytes: &[u8]) -> Result<(), Unspelled>
        requires within { IsWithin bytes.now self.old }
        requires more { 0 < self.old.behind }
        requires some { 0 < self.old.parts_left }
        ensures ok { OnOk result (deltas_behind self.old bytes.now
            ≡ map_value (λ others. run_deltas self.new.run bytes.now ++ others)
            (deltas_behind self.new bytes.now)) }
        ensures lies { OnOk result (DeltasLieIn bytes.now self.new.run) }
        ensures some { OnOk result (0 < self.new.run.count) }
        ensures counted { OnOk result (self.new.run.count + self.new.behind ≡ self.old.behind) }
        ensures within { OnOk result (IsWithin bytes.now self.new) }
        ensures err { OnErr result (deltas_behind self.old bytes.now ≡ None) }
    {
        let width = bytes[self.widths];
        let body = body_size(self.size, width, bytes.len() - self.next)?;
        let count = self.size.min(self.behind);
        self.run = DeltaRun {
            least: self.run.least,
            place: self.next,
            bit: 0,
            width: u32::from(width),
            count,
        };
        self.behind -= count;
        self.widths += 1;
        self.parts_left -= 1;
        self.next += body;
        Ok(())
    }
}

/// The bytes of a miniblock of so many values and bits each, where there is room for them.
fn body_size(size: usize, width: u8, room: usize) -> Result<usize, Unspelled>
    requires { size % 32 ≡ 0 }
    ensures size { IfOk result (λ body. body ≡ size * width / 8) }
    ensures fits { IfOk result (λ body. body ≤ room) }
    ensures narrow { OnOk result (width ≤ 64) }
    ensures err { OnErr result ((64 < width) ⊎ (room < size * width / 8)) }
{
    if width > MOST_BITS {
        return Err(Unspelled);
    }
    let body = (size / 8) as u128 * width as u128;
    if body > room as u128 {
        return Err(Unspelled);
    }
    Ok(body as usize)
}
