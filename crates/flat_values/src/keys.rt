//! Keys of a dictionary, in the pages of a column.
ghost use Rattle.std.specs.Prelude.{◌≡◌, ◌<◌, ◌++◌, ◌||◌, ℕ, [], ◌∷◌, nat_le, slice_index_or, Some, IsSome, IfOk, IfNone, IfSome, OnOk, length, max, min, take, drop, map};
ghost use Rattle.std.specs.Option.{option_map_or};
ghost use Rattle.columns_core.specs.Causes.{ComesOf, ExternalFormat, TellsOf};
ghost use Rattle.parquet_encoding.specs.HybridLeft.{hybrid_left, hybrid_values};
ghost use Rattle.parquet_page.specs.Opened.{key_causes, passes};
ghost use Rattle.parquet_page.specs.Values.{dictionary_keys, has_key_past};
ghost use Rattle.page_decoding.specs.Outcome.{Given, causes_in};
ghost use Rattle.flat_values.specs.Added.{Adds};
ghost use Rattle.flat_values.specs.KeysLeft.{IsAmongKeys, keys};
ghost use Rattle.flat_values.specs.Outcomes.{entry_outcome};
ghost use Rattle.flat_values.specs.PassedKeys.{PassesKeys};

use columns_core::{Error, NativeType, Part};
use parquet_encoding::{HybridRle, HybridRun};
use std::alloc::AllocError;

/// How many keys are looked at together.
pub(crate) const CHUNK: usize = 128;

/// A place among the keys of a page. The bytes are handed to each call.
#[derive(Clone, Copy)]
pub struct KeyPlace {
    keys: HybridRle,
}

impl KeyPlace {
    /// Before the first of `count` keys, of which none is past the entries, where their number is told.
    pub fn open(bytes: &[u8], count: usize, entries: Option<usize>) -> Result<Self, Error>
        ensures keys { IfOk result (λ place.
            dictionary_keys bytes.now count ≡ Some (keys place bytes.now)) }
        ensures among { IfOk result (IsAmongKeys bytes.now) }
        ensures ok { OnOk result (option_map_or (key_causes None entries) (dictionary_keys bytes.now count)
            (ExternalFormat ∷ []) ≡ []) }
        ensures cause { let found = dictionary_keys bytes.now count in
            TellsOf result (option_map_or (key_causes None entries) found (ExternalFormat ∷ [])) }
    {
        let damaged = Error::ExternalFormat(Part::Dictionary);
        let Some((width, rest)) = bytes.split_first() else {
            return Err(damaged);
        };
        let Ok(keys) = HybridRle::try_new(rest, *width as u32, count) else {
            return Err(damaged);
        };
        if pass_entries(&keys, rest, entries) {
            return Err(Error::OutOfSpec(Part::Dictionary));
        }
        Ok(KeyPlace { keys })
    }

    /// Writes the next keys to the front of `out`, as many as there is room for or all that are left, and gives how
    /// many they are.
    pub fn fill(&mut self, bytes: &[u8], out: &mut [u32]) -> usize
        requires { IsAmongKeys bytes.now self.old }
        ensures count { result ≡ min (length out.old) (length (keys self.old bytes.now)) }
        ensures values { out.new ≡ take result (keys self.old bytes.now) ++ drop result out.old }
        ensures rest { keys self.new bytes.now ≡ drop result (keys self.old bytes.now) }
        ensures among { IsAmongKeys bytes.now self.new }
    {
        self.keys.fill(&bytes[1..], out)
    }

    /// Passes over `count` keys, or over all that are left.
    pub fn skip(&mut self, bytes: &[u8], count: usize)
        requires { IsAmongKeys bytes.now self.old }
        ensures rest { keys self.new bytes.now ≡ drop count (keys self.old bytes.now) }
        ensures among { IsAmongKeys bytes.now self.new }
    {
        self.keys.skip(&bytes[1..], count);
    }
}

/// Whether some key is past the entries, where their number is told.
fn pass_entries(keys: &HybridRle, bytes: &[u8], entries: Option<usize>) -> bool
    requires { IsSome (hybrid_left keys.now bytes.now) }
    ensures { result ≡ passes entries (hybrid_values keys.now bytes.now) }
{
    match entries {
        None => false,
        Some(count) => has_past(keys, bytes, count),
    }
}

/// Whether some key is past so many entries.
fn has_past(keys: &HybridRle, bytes: &[u8], entries: usize) -> bool
    requires { IsSome (hybrid_left keys.now bytes.now) }
    ensures { result ≡ has_key_past entries (hybrid_values keys.now bytes.now) }
{
    let mut left = *keys;
    while let Some(past) = next_past(&mut left, bytes, entries) {
        if past {
            return true;
        }
    }
    false
}

/// Passes over some of the next keys, and tells whether one of them is past so many entries.
fn next_past(keys: &mut HybridRle, bytes: &[u8], entries: usize) -> Option<bool>
    requires { IsSome (hybrid_left keys.old bytes.now) }
    ensures ended { IfNone result (hybrid_values keys.old bytes.now ≡ []) }
    ensures passed { IfSome result
        (PassesKeys entries (hybrid_values keys.old bytes.now) (hybrid_values keys.new bytes.now)) }
    ensures spelled { IsSome (hybrid_left keys.new bytes.now) }
{
    let mut ahead = *keys;
    match ahead.next_run(bytes, usize::MAX)? {
        HybridRun::Repeated { value, .. } => {
            *keys = ahead;
            Some(value as usize >= entries)
        }
        HybridRun::Packed(_) => Some(chunk_has_past(keys, bytes, entries)),
    }
}

/// The same for keys of which there are some.
fn chunk_has_past(keys: &mut HybridRle, bytes: &[u8], entries: usize) -> bool
    requires spelled { IsSome (hybrid_left keys.old bytes.now) }
    requires some { 0 < length (hybrid_values keys.old bytes.now) }
    ensures passed { PassesKeys entries (hybrid_values keys.old bytes.now)
        (hybrid_values keys.new bytes.now) result }
    ensures spelled { IsSome (hybrid_left keys.new bytes.now) }
{
    let mut chunk = [0u32; CHUNK];
    let count = keys.fill(bytes, &mut chunk);
    some_key_is_past(&chunk[..count], entries)
}

/// The greater of two keys.
fn greater(one: u32, other: u32) -> u32
    ensures { result ≡ max one other }
{
    if one < other { other } else { one }
}

/// The greatest of some keys, or 0.
fn greatest(keys: &[u32]) -> u32
    ensures { (entries : ℕ) →
        nat_le entries result ≡ (nat_le entries 0 || has_key_past entries keys.now) }
{
    let mut most = 0;
    for key in keys {
        most = greater(most, *key);
    }
    most
}

/// Whether some key is past so many entries.
pub fn some_key_is_past(keys: &[u32], entries: usize) -> bool
    ensures { result ≡ has_key_past entries keys.now }
{
    !keys.is_empty() && greatest(keys) as usize >= entries
}

/// Appends the entries that keys name, and `first` for a key past them.
fn extend_found<T: NativeType>(
    values: &mut Vec<T>,
    entries: &[T],
    first: T,
    keys: &[u32],
) -> Result<(), AllocError>
    ensures { OnOk result (Adds T.cell values.old.items values.new.items
        (map (λ key. Given (T.cell (slice_index_or entries.now key first))) keys.now)) }
{
    values.extend(
        keys.iter().map(move |key| match entries.get(*key as usize) {
            Some(entry) => *entry,
            None => first,
        }),
    )
}

/// Appends the entries that keys name.
pub(crate) fn extend_named<T: NativeType>(
    values: &mut Vec<T>,
    entries: &[T],
    keys: &[u32],
) -> Result<(), Error>
    ensures added { OnOk result (Adds T.cell values.old.items values.new.items
        (map (entry_outcome (Some (map T.cell entries.now))) keys.now)) }
    ensures cause { ComesOf result
        (causes_in (map (entry_outcome (Some (map T.cell entries.now))) keys.now)) }
{
    if some_key_is_past(keys, entries.len()) {
        return Err(Error::OutOfSpec(Part::Dictionary));
    }
    let Some(first) = entries.first() else {
        return Ok(());
    };
    extend_found(values, entries, *first, keys)?;
    Ok(())
}

/// Appends the entries that the next `count` keys name, or all that are left.
pub(crate) fn take_named<T: NativeType>(
    place: KeyPlace,
    bytes: &[u8],
    entries: &[T],
    values: &mut Vec<T>,
    count: usize,
) -> Result<KeyPlace, Error>
    requires { IsAmongKeys bytes.now place }
    ensures added { OnOk result (Adds T.cell values.old.items values.new.items
        (take count (map (entry_outcome (Some (map T.cell entries.now))) (keys place bytes.now)))) }
    ensures rest { IfOk result (λ new. keys new bytes.now ≡ drop count (keys place bytes.now)) }
    ensures among { IfOk result (IsAmongKeys bytes.now) }
    ensures cause { ComesOf result
        (causes_in (take count (map (entry_outcome (Some (map T.cell entries.now)))
        (keys place bytes.now)))) }
{
    let mut place = place;
    let mut left = count;
    let mut chunk = [0u32; CHUNK];
    while left > 0 {
        let room = &mut chunk[..left.min(CHUNK)];
        let found = place.fill(bytes, room);
        if found == 0 {
            return Ok(place);
        }
        extend_named(values, entries, &room[..found])?;
        left -= found;
    }
    Ok(place)
}
