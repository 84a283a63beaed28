//! Runs of the hybrid encoding, as places in the bytes.
ghost use Rattle.std.specs.Prelude.{◌≡◌, ℕ, List, min, ◌+◌, ◌-◌, ◌*◌, ◌/◌, ◌^◌, ◌<◌, ◌≤◌, ◌↔◌, length, take, drop, slice_get, None, Some, IsSome, IfSome, IfOk, OnErr};
ghost use Rattle.parquet_encoding.specs.Hybrid.{first_run};
ghost use Rattle.parquet_encoding.specs.HybridRun.{count_of, run_values, IsIn, Opens, OpensPacked, OpensRepeated};
ghost use Rattle.parquet_encoding.specs.ShortRun.{IsShortRun};

use crate::bits::value_at;
use crate::packed_run::PackedRun;
use crate::places::number_at;
use parquet_base::Unspelled;

/// Values of a run, one behind the other.
#[derive(Clone, Copy, Debug, PartialEq, Eq)]
pub enum HybridRun {
    Packed(PackedRun),
    /// `count` copies of one value.
    Repeated { value: u32, count: usize },
}

/// A run that begins.
#[derive(Drop)]
pub(crate) struct OpenedRun {
    /// The wanted values that it gives.
    pub(crate) run: HybridRun,
    /// The place after it.
    pub(crate) end: usize,
}

/// The run whose header stands at a place, up to the values that are wanted.
// It stays a call of its own, so that the places of a walk stay in registers.
#[inline(never)]
pub(crate) fn open_run(
    bytes: &[u8],
    place: usize,
    width: u32,
    wanted: usize,
) -> Result<OpenedRun, Unspelled>
    requires some_bits { 0 < width }
    requires narrow { width ≤ 32 }
    requires within { place ≤ length bytes.now }
    ensures ok { IfOk result (Opens bytes.now place width wanted) }
    ensures err { OnErr result (first_run width wanted (drop place bytes.now) ≡ None) }
{
    let (header, body) = number_at(bytes, place)?;
    let amount = (header / 2) as usize;
    if header % 2 == 1 {
        Ok(open_packed(bytes, body, width, amount, wanted))
    } else {
        open_repeated(bytes, body, width, amount, wanted)
    }
}

/// The run at a place, where it has at least one and at most `most` values, stands behind a header of one byte and lies whole in the
/// bytes.
// Most runs are so, and are opened where they are wanted.
#[inline(always)]
pub(crate) fn short_run(bytes: &[u8], place: usize, width: u32, most: usize) -> Option<OpenedRun>
    requires some_bits { 0 < width }
    requires narrow { width ≤ 32 }
    ensures short { IsSome result ↔ IsShortRun bytes.now place width most }
    ensures opens { IfSome result (λ opened. (wanted : ℕ) → most ≤ wanted
        → Opens bytes.now place width wanted opened) }
    ensures some { IfSome result (λ opened. 0 < count_of opened.run) }
    ensures most { IfSome result (λ opened. count_of opened.run ≤ most) }
{
    let header = *bytes.get(place)?;
    if header < 2 || header >= 128 {
        return None;
    }
    let amount = (header / 2) as usize;
    if header % 2 == 1 {
        whole_packed(bytes, place + 1, width, amount, most)
    } else {
        whole_repeated(bytes, place + 1, width, amount, most)
    }
}

/// Groups of eight values, where they lie whole in the bytes and are at most `most` values.
#[inline(always)]
fn whole_packed(
    bytes: &[u8],
    body: usize,
    width: u32,
    groups: usize,
    most: usize,
) -> Option<OpenedRun>
    requires some_bits { 0 < width }
    requires narrow { width ≤ 32 }
    requires within { body ≤ length bytes.now }
    requires short { groups < 64 }
    ensures whole { IsSome result ↔ (body + groups * width ≤ length bytes.now) × (8 * groups ≤ most) }
    ensures opens { IfSome result (λ opened. (wanted : ℕ) → most ≤ wanted
        → OpensPacked bytes.now body width groups wanted opened) }
    ensures count { IfSome result (λ opened. count_of opened.run ≡ 8 * groups) }
{
    let size = groups * width as usize;
    if size > bytes.len() - body || 8 * groups > most {
        return None;
    }
    Some(OpenedRun {
        run: HybridRun::Packed(PackedRun {
            place: body,
            bit: 0,
            width,
            count: 8 * groups,
        }),
        end: body + size,
    })
}

/// Copies of one value, where it stands in the bytes and they are at most `most`.
#[inline(always)]
fn whole_repeated(
    bytes: &[u8],
    body: usize,
    width: u32,
    copies: usize,
    most: usize,
) -> Option<OpenedRun>
    requires narrow { width ≤ 32 }
    requires within { body ≤ length bytes.now }
    ensures whole { IsSome result ↔ (body + (width + 7) / 8 ≤ length bytes.now) × (copies ≤ most) }
    ensures opens { IfSome result (λ opened. (wanted : ℕ) → most ≤ wanted
        → OpensRepeated bytes.now body width copies wanted opened) }
    ensures count { IfSome result (λ opened. count_of opened.run ≡ copies) }
{
    if copies > most {
        return None;
    }
    open_repeated(bytes, body, width, copies, copies).ok()
}

/// Groups of eight values. Where the bytes end early, the values that lie whole in them.
fn open_packed(bytes: &[u8], body: usize, width: u32, groups: usize, wanted: usize) -> OpenedRun
    requires some_bits { 0 < width }
    requires narrow { width ≤ 32 }
    requires within { body ≤ length bytes.now }
    ensures { OpensPacked bytes.now body width groups wanted result }
{
    let step = width as usize;
    let room = bytes.len() - body;
    OpenedRun {
        run: HybridRun::Packed(PackedRun {
            place: body,
            bit: 0,
            width,
            count: whole_values(groups, step, room).min(wanted),
        }),
        end: body + groups.saturating_mul(step).min(room),
    }
}

/// How many values of groups of eight lie whole in `room` bytes, or as many as can be counted.
fn whole_values(groups: usize, width: usize, room: usize) -> usize
    requires some_bits { 0 < width }
    requires narrow { width ≤ 32 }
    ensures { result ≡ min (2 ^ 64 - 1) (min (8 * groups) (8 * room / width)) }
{
    match groups.checked_mul(width) {
        Some(size) if size <= room => groups.saturating_mul(8),
        _ => (room / width)
            .saturating_mul(8)
            .saturating_add(room % width * 8 / width),
    }
}

/// Copies of one value, which stands in whole bytes.
#[inline(always)]
fn open_repeated(
    bytes: &[u8],
    body: usize,
    width: u32,
    copies: usize,
    wanted: usize,
) -> Result<OpenedRun, Unspelled>
    requires narrow { width ≤ 32 }
    requires within { body ≤ length bytes.now }
    ensures ok { IfOk result (OpensRepeated bytes.now body width copies wanted) }
    ensures err { OnErr result (length bytes.now < body + (width + 7) / 8) }
{
    let size = (width as usize + 7) / 8;
    if bytes.len() - body < size {
        return Err(Unspelled);
    }
    Ok(OpenedRun {
        run: HybridRun::Repeated {
            value: value_at(bytes, body, 0, 8 * size as u32),
            count: copies.min(wanted),
        },
        end: body + size,
    })
}

impl HybridRun {
    /// How many values it has.
    #[inline(always)]
    pub fn len(&self) -> usize
        ensures { result ≡ count_of self.now }
    {
        match self {
            HybridRun::Packed(run) => run.count,
            HybridRun::Repeated { count, .. } => *count,
        }
    }

    /// The first value.
    #[inline(always)]
    pub fn first(&self, bytes: &[u8]) -> u32
        requires some { 0 < count_of self.now }
        requires lies { IsIn bytes.now self.now }
        ensures { slice_get (run_values self.now bytes.now) 0 ≡ Some result }
    {
        match self {
            HybridRun::Packed(run) => run.first(bytes),
            HybridRun::Repeated { value, .. } => *value,
        }
    }

    /// The first values, as many as `out` has room for.
    #[inline(always)]
    pub fn unpack(&self, bytes: &[u8], out: &mut [u32])
        requires enough { length out.old ≤ count_of self.now }
        requires lies { IsIn bytes.now self.now }
        ensures { out.new ≡ take (length out.old) (run_values self.now bytes.now) }
    {
        match self {
            HybridRun::Packed(run) => run.unpack(bytes, out),
            HybridRun::Repeated { value, .. } => out.fill(*value),
        }
    }

    /// The run of the first `n` values.
    #[inline(always)]
    pub(crate) fn front(&self, n: usize) -> HybridRun
        requires { n ≤ count_of self.now }
        ensures values { (bytes : List ℕ) →
            run_values result bytes ≡ take n (run_values self.now bytes) }
        ensures lies { (bytes : List ℕ) → IsIn bytes self.now → IsIn bytes result }
        ensures count { count_of result ≡ n }
    {
        match self {
            HybridRun::Packed(run) => HybridRun::Packed(PackedRun {
                place: run.place,
                bit: run.bit,
                width: run.width,
                count: n,
            }),
            HybridRun::Repeated { value, .. } => HybridRun::Repeated {
                value: *value,
                count: n,
            },
        }
    }

    /// What is left behind the first `n` values.
    #[inline(always)]
    pub(crate) fn behind(&self, n: usize) -> HybridRun
        requires enough { n ≤ count_of self.now }
        requires lies { (bytes : List ℕ) × (length bytes < 2 ^ 64) × IsIn bytes self.now }
        ensures values { (bytes : List ℕ) →
            run_values result bytes ≡ drop n (run_values self.now bytes) }
        ensures lies { (bytes : List ℕ) → IsIn bytes self.now → IsIn bytes result }
        ensures count { count_of result ≡ count_of self.now - n }
    {
        match self {
            HybridRun::Packed(run) => HybridRun::Packed(run.behind(n)),
            HybridRun::Repeated { value, count } => HybridRun::Repeated {
                value: *value,
                count: *count - n,
            },
        }
    }
}
