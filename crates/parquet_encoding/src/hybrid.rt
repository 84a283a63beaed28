//! The hybrid of run-length runs and bit-packed runs.
ghost use Rattle.std.specs.Prelude.{◌≡◌, ℕ, List, ◌+◌, ◌^◌, ◌<◌, ◌≤◌, ◌++◌, [], min, length, take, drop, slice_get, is_ok, is_some, None, Some, IsSome, IfNone, IfSome, IfOk, OnErr};
ghost use Rattle.parquet_encoding.specs.Hybrid.{hybrid, runs, first_run};
ghost use Rattle.parquet_encoding.specs.HybridRun.{count_of, run_values, IsIn, PassesRun};

use crate::run::{HybridRun, open_run, short_run};
use parquet_base::Unspelled;

/// The most bits of a number.
const MOST_BITS: u32 = 32;

/// Walks numbers of a fixed width in runs.
///
/// It holds places in the bytes, and the bytes are handed to each call.
#[derive(Clone, Copy)]
pub struct HybridRle {
    width: u32,
    /// What is left of the run at which it stands.
    run: HybridRun,
    /// How many values are to come behind this run.
    behind: usize,
    /// The place behind this run.
    next: usize,
    ghost narrow: { width ≤ 32 },
    ghost some_bits: { 0 < behind → 0 < width },
    ghost counted: { count_of run + behind < 2 ^ 64 },
}

impl HybridRle {
    ghost use Rattle.parquet_encoding.specs.HybridLeft.{hybrid_left, hybrid_values, given_count};
    ghost use Rattle.parquet_encoding.specs.HybridFills.{FillsSome};

    /// Before the first of `count` numbers of `width` bits.
    pub fn try_new(bytes: &[u8], width: u32, count: usize) -> Result<Self, Unspelled>
        ensures values { IfOk result (λ decoder.
            hybrid_left decoder bytes.now ≡ hybrid width bytes.now count) }
        ensures exact { is_ok result ≡ is_some (hybrid width bytes.now count) }
        ensures counted { IfOk result (λ decoder. length (hybrid_values decoder bytes.now) ≡ count) }
    {
        if width == 0 {
            return Ok(HybridRle {
                width,
                run: HybridRun::Repeated { value: 0, count },
                behind: 0,
                next: 0,
            });
        }
        if width > MOST_BITS {
            return Err(Unspelled);
        }
        check_runs(bytes, width, count)?;
        Ok(HybridRle {
            width,
            run: HybridRun::Repeated { value: 0, count: 0 },
            behind: count,
            next: 0,
        })
    }

    /// The next number. The bytes are those of `try_new`.
    pub fn next(&mut self, bytes: &[u8]) -> Option<u32>
        requires { IsSome (hybrid_left self.old bytes.now) }
        ensures value { result ≡ slice_get (hybrid_values self.old bytes.now) 0 }
        ensures rest { hybrid_left self.new bytes.now ≡ Some (drop 1 (hybrid_values self.old bytes.now)) }
    {
        let run = self.next_run(bytes, 1)?;
        Some(run.first(bytes))
    }

    /// The next numbers that lie in one run, at most `limit` of them. The bytes are those of `try_new`.
    #[inline(always)]
    pub fn next_run(&mut self, bytes: &[u8], limit: usize) -> Option<HybridRun>
        requires spelled { IsSome (hybrid_left self.old bytes.now) }
        requires some { 0 < limit }
        ensures ended { IfNone result (hybrid_values self.old bytes.now ≡ []) }
        ensures values { IfSome result
            (λ run. run_values run bytes.now ≡ take (count_of run) (hybrid_values self.old bytes.now)) }
        ensures lies { IfSome result (λ run. IsIn bytes.now run) }
        ensures some { IfSome result (λ run. 0 < count_of run) }
        ensures most { IfSome result (λ run. count_of run ≤ limit) }
        ensures rest { hybrid_left self.new bytes.now
            ≡ Some (drop (given_count result) (hybrid_values self.old bytes.now)) }
    {
        self.open(bytes);
        let count = self.run.len().min(limit);
        if count == 0 {
            return None;
        }
        let run = self.run.front(count);
        self.run = self.run.behind(count);
        Some(run)
    }

    /// Passes over `n` numbers, or over all that are left. The bytes are those of `try_new`.
    #[inline(always)]
    pub fn skip(&mut self, bytes: &[u8], n: usize)
        requires { IsSome (hybrid_left self.old bytes.now) }
        ensures { hybrid_left self.new bytes.now ≡ Some (drop n (hybrid_values self.old bytes.now)) }
    {
        let mut left = n;
        while left > 0 {
            let Some(run) = self.next_run(bytes, left) else {
                return;
            };
            left -= run.len();
        }
    }

    /// Writes the next numbers to the front of `out`, as many as there is room for or all that are left, and gives
    /// how many they are. The bytes are those of `try_new`.
    pub fn fill(&mut self, bytes: &[u8], out: &mut [u32]) -> usize
        requires { IsSome (hybrid_left self.old bytes.now) }
        ensures count { result ≡ min (length out.old) (length (hybrid_values self.old bytes.now)) }
        ensures values { out.new ≡ take result (hybrid_values self.old bytes.now) ++ drop result out.old }
        ensures rest { hybrid_left self.new bytes.now
            ≡ Some (drop result (hybrid_values self.old bytes.now)) }
    {
        let mut done = 0;
        while done < out.len() {
            let count = self.fill_run(bytes, &mut out[done..]);
            if count == 0 {
                return done;
            }
            done += count;
        }
        done
    }

    /// Writes the next numbers that lie in one run to the front of `out`, and gives how many they are: none only where none is left.
    #[inline(always)]
    fn fill_run(&mut self, bytes: &[u8], out: &mut [u32]) -> usize
        requires spelled { IsSome (hybrid_left self.old bytes.now) }
        requires room { 0 < length out.old }
        ensures { FillsSome self.old self.new bytes.now out.old out.new result }
    {
        if self.run.len() > 0 || self.behind == 0 {
            return self.fill_part(bytes, out);
        }
        let most = self.behind.min(out.len());
        let Some(opened) = short_run(bytes, self.next, self.width, most) else {
            return self.fill_part(bytes, out);
        };
        let count = opened.run.len();
        opened.run.unpack(bytes, &mut out[..count]);
        self.behind -= count;
        self.next = opened.end;
        count
    }

    /// The same for any run, or for a part of one.
    // It is out of line, so that short runs are read where they are wanted.
    #[inline(never)]
    fn fill_part(&mut self, bytes: &[u8], out: &mut [u32]) -> usize
        requires spelled { IsSome (hybrid_left self.old bytes.now) }
        requires room { 0 < length out.old }
        ensures { FillsSome self.old self.new bytes.now out.old out.new result }
    {
        let Some(run) = self.next_run(bytes, out.len()) else {
            return 0;
        };
        let count = run.len();
        run.unpack(bytes, &mut out[..count]);
        count
    }

    /// How many numbers are left.
    pub fn remaining(&self) -> usize
        ensures { (bytes : List ℕ) →
            IfSome (hybrid_left self.now bytes) (λ values. result ≡ length values) }
    {
        self.run.len() + self.behind
    }

    /// Opens runs until one has a value or none is left.
    #[inline(always)]
    fn open(&mut self, bytes: &[u8])
        requires { IsSome (hybrid_left self.old bytes.now) }
        ensures same { hybrid_left self.new bytes.now ≡ hybrid_left self.old bytes.now }
        ensures filled { count_of self.new.run ≡ 0 → self.new.behind ≡ 0 }
    {
        while self.run.len() == 0 && self.behind > 0 {
            self.open_next(bytes);
        }
    }

    /// Opens the next run.
    #[inline(always)]
    fn open_next(&mut self, bytes: &[u8])
        requires spelled { IsSome (hybrid_left self.old bytes.now) }
        requires done { count_of self.old.run ≡ 0 }
        requires more { 0 < self.old.behind }
        ensures same { hybrid_left self.new bytes.now ≡ hybrid_left self.old bytes.now }
        ensures later { self.old.next < self.new.next }
        ensures within { self.new.next ≤ length bytes.now }
    {
        let Ok(opened) = open_run(bytes, self.next, self.width, self.behind) else {
            unreachable!()
        };
        self.behind -= opened.run.len();
        self.run = opened.run;
        self.next = opened.end;
    }
}

/// Walks the headers of the runs.
fn check_runs(bytes: &[u8], width: u32, count: usize) -> Result<(), Unspelled>
    requires some_bits { 0 < width }
    requires narrow { width ≤ 32 }
    ensures { is_ok result ≡ is_some (runs (length bytes.now) width bytes.now count) }
{
    let mut place = 0;
    let mut left = count;
    while left > 0 {
        let (count, end) = passed_run(bytes, place, width, left)?;
        place = end;
        left -= count;
    }
    Ok(())
}

/// How many of the wanted values the run at a place gives, and the place after it.
#[inline(always)]
fn passed_run(
    bytes: &[u8],
    place: usize,
    width: u32,
    wanted: usize,
) -> Result<(usize, usize), Unspelled>
    requires some_bits { 0 < width }
    requires narrow { width ≤ 32 }
    requires within { place ≤ length bytes.now }
    ensures ok { IfOk result (PassesRun bytes.now place width wanted) }
    ensures err { OnErr result (first_run width wanted (drop place bytes.now) ≡ None) }
{
    if let Some(opened) = short_run(bytes, place, width, wanted) {
        return Ok((opened.run.len(), opened.end));
    }
    let opened = open_run(bytes, place, width, wanted)?;
    Ok((opened.run.len(), opened.end))
}
