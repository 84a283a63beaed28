//! Keys that are appended to decoded keys.
ghost use Rattle.std.specs.Prelude.{◌≡◌, ◌<◌, ◌≤◌, Some, None, refl, pos, drop, map, take, IfErr, IfOk, OnOk};
ghost use Rattle.std.specs.Option.{option_copied};
ghost use Rattle.columns_core.specs.declared.cell.Cell.{Int};
ghost use Rattle.page_decoding.specs.Outcome.{IsCausedBy};
ghost use Rattle.flat_values.specs.Added.{Adds};
ghost use Rattle.flat_values.specs.Decoded.{IsMaskFor};
ghost use Rattle.flat_values.specs.KeysLeft.{IsAmongKeys, keys};
ghost use Rattle.flat_values.specs.OneEncoding.{key_outcomes};
ghost use Rattle.flat_values.specs.Outcomes.{entry_outcome};
ghost use Rattle.dictionary_values.specs.Keys.{key_cells};
ghost use Rattle.dictionary_values.specs.KeysGiven.{key_limit, keys_given, numbers_below};

use crate::StoredKey;
use columns_core::{Array, Error, MutableBitmap, Part};
use flat_values::{KeyPlace, Values, mark_nulls, mark_values, some_key_is_past};
use page_decoding::DecodedState;
use std::alloc::Global;
use std::marker::PhantomData;

/// How many keys are looked at together.
const CHUNK: usize = 128;

/// Keys that were decoded, and which of them are there. The mask is empty where all are; under a null stands any key.
#[derive(Drop)]
pub struct DecodedKeys<K> {
    pub keys: Vec<K>,
    pub validity: MutableBitmap,
}

impl<K: StoredKey> DecodedState for DecodedKeys<K> {
    ghost shown = { λ decoded. key_cells K.number decoded.keys.items decoded.validity };

    fn len(&self) -> usize {
        self.keys.len()
    }
}

/// Keys below this are of their type and name an entry.
fn limit_of<K: StoredKey>(entries: Option<&Array>) -> usize
    ensures limit { result ≡ key_limit K.key_count (option_copied entries.entry) }
    ensures within { result ≤ K.key_count }
{
    match entries {
        Some(entries) => entries.len().min(K::most_keys()),
        None => 0,
    }
}

/// The key of a number that the type has, any key for another.
fn key_of<K: StoredKey>(number: u32) -> K
    ensures { number < K.key_count → K.number result ≡ pos number }
{
    match K::from_number(number) {
        Some(key) => key,
        None => K::default(),
    }
}

/// Appends the keys of these numbers.
fn extend_keys<K: StoredKey>(found: &mut Vec<K>, limit: usize, numbers: &[u32]) -> Result<(), Error>
    requires { limit ≤ K.key_count }
    ensures added { let rows = map (entry_outcome (Some (numbers_below limit))) numbers.now in
        OnOk result (Adds (λ key. Int (K.number key)) found.old.items found.new.items rows) }
    ensures cause { let rows = map (entry_outcome (Some (numbers_below limit))) numbers.now in
        IfErr result (IsCausedBy rows) }
{
    if some_key_is_past(numbers, limit) {
        return Err(Error::OutOfSpec(Part::Dictionary));
    }
    found.extend(numbers.iter().map(|number| key_of::<K>(*number)))?;
    Ok(())
}

/// Appends the next keys, at most so many.
fn take_keys<K: StoredKey>(
    place: KeyPlace,
    bytes: &[u8],
    limit: usize,
    found: &mut Vec<K>,
    count: usize,
) -> Result<KeyPlace, Error>
    requires among { IsAmongKeys bytes.now place }
    requires limit { limit ≤ K.key_count }
    ensures added { let rows = key_outcomes (numbers_below limit) bytes.now place in
        OnOk result (Adds (λ key. Int (K.number key)) found.old.items found.new.items (take count rows)) }
    ensures rest { IfOk result (λ new. keys new bytes.now ≡ drop count (keys place bytes.now)) }
    ensures among { IfOk result (IsAmongKeys bytes.now) }
    ensures cause { let rows = key_outcomes (numbers_below limit) bytes.now place in
        IfErr result (IsCausedBy (take count rows)) }
{
    let mut place = place;
    let mut left = count;
    let mut chunk = [0u32; CHUNK];
    while left > 0 {
        let room = &mut chunk[..left.min(CHUNK)];
        let filled = place.fill(bytes, room);
        if filled == 0 {
            return Ok(place);
        }
        extend_keys(found, limit, &room[..filled])?;
        left -= filled;
    }
    Ok(place)
}

/// Appends keys as they are, over the array of their entries.
#[derive(Clone, Copy)]
pub(crate) struct KeyValues<K> {
    key: PhantomData<K>,
}

impl<K: StoredKey> KeyValues<K> {
    pub(crate) fn new() -> Self {
        KeyValues { key: PhantomData }
    }
}

impl<K: StoredKey> Values for KeyValues<K> {
    type Place = KeyPlace;

    type Dict = Array;

    type Decoded = DecodedKeys<K>;

    ghost is_own = { λ _ decoded. IsMaskFor decoded.keys.items decoded.validity };

    ghost is_own_dict = { λ _ _. Unit {0} };

    ghost is_over = { λ _ bytes place. IsAmongKeys bytes place };

    ghost left = { λ _ dict bytes place. keys_given K.key_count dict bytes place };

    ghost most_bytes = { λ _. None };

    ghost own_fits = { λ _ _ _. refl };

    fn take(
        &self,
        bytes: &[u8],
        dict: Option<&Array>,
        place: &mut KeyPlace,
        decoded: &mut DecodedKeys<K>,
        count: usize,
    ) -> Result<(), Error> {
        let held = decoded.keys.len();
        *place = take_keys(*place, bytes, limit_of::<K>(dict), &mut decoded.keys, count)?;
        let taken = decoded.keys.len() - held;
        mark_values(&mut decoded.validity, taken)
    }

    fn skip(&self, bytes: &[u8], place: &mut KeyPlace, count: usize) {
        place.skip(bytes, count);
    }

    fn push_nulls(&self, decoded: &mut DecodedKeys<K>, count: usize) -> Result<(), Error> {
        let held = decoded.keys.len();
        let Some(all) = held.checked_add(count) else {
            return Err(Error::OutOfMemory);
        };
        decoded.keys.resize(all, K::default())?;
        mark_nulls(&mut decoded.validity, held, count)
    }

    fn with_capacity(&self, alloc: Global, capacity: usize) -> Result<DecodedKeys<K>, Error> {
        Ok(DecodedKeys {
            keys: Vec::with_capacity(alloc, capacity)?,
            validity: MutableBitmap::with_capacity(alloc, 0)?,
        })
    }
}
