//! Entries that keys name.
ghost use Rattle.std.specs.Prelude.{◌≡◌, ◌≤◌, IsUtf8, All, [], false, take, drop, length, map, sum_by, slice_get, unwrap_or, IfOk, IfErr, IfSome, OnOk};
ghost use Rattle.std.specs.Option.{option_copied};
ghost use Rattle.columns_core.specs.declared.cell.Cell.{Bytes};
ghost use Rattle.flat_values.specs.Added.{Adds};
ghost use Rattle.flat_values.specs.KeysLeft.{IsAmongKeys, keys};
ghost use Rattle.flat_values.specs.Outcomes.{entry_outcome};
ghost use Rattle.binary_values.specs.ByteStrings.{IsCausedByBytes, byte_entries};

use crate::Strings;
use columns_core::{Error, Offset, Part};
use flat_values::KeyPlace;

/// How many keys are looked at together.
const CHUNK: usize = 128;

/// The entry that a key names, if there is one.
fn named<'a, O: Offset>(entries: Option<&'a Strings<O>>, key: u32) -> Option<&'a [u8]>
    ensures { option_copied result ≡ slice_get (unwrap_or (option_copied entries.entry) []) key }
{
    entries?.get(key as usize)
}

/// Appends the entries that keys name. They are texts where all entries are.
fn extend_named<O: Offset>(
    strings: &mut Strings<O>,
    entries: Option<&Strings<O>>,
    keys: &[u32],
) -> Result<(), Error>
    requires { sum_by length strings.old ≤ O.greatest }
    ensures added { let rows = map
        (entry_outcome (byte_entries false (option_copied entries.entry))) keys.now in
        OnOk result (Adds Bytes strings.old strings.new rows) }
    ensures fits { OnOk result (sum_by length strings.new ≤ O.greatest) }
    ensures texts { let texts = All IsUtf8 strings.old → IfSome (option_copied entries.entry) (All IsUtf8)
        → All IsUtf8 strings.new in
        OnOk result texts }
    ensures cause { let rows = map
        (entry_outcome (byte_entries false (option_copied entries.entry))) keys.now in
        IfErr result (IsCausedByBytes O.greatest strings.old rows) }
{
    for key in keys {
        let Some(entry) = named(entries, *key) else {
            return Err(Error::OutOfSpec(Part::Dictionary));
        };
        strings.push(entry)?;
    }
    Ok(())
}

/// Appends the entries that the next keys name, at most so many. They are texts where all entries are.
pub(crate) fn take_named<O: Offset>(
    place: KeyPlace,
    bytes: &[u8],
    entries: Option<&Strings<O>>,
    strings: &mut Strings<O>,
    count: usize,
) -> Result<KeyPlace, Error>
    requires among { IsAmongKeys bytes.now place }
    requires fits { sum_by length strings.old ≤ O.greatest }
    ensures added { let rows = map (entry_outcome (byte_entries false (option_copied entries.entry)))
        (keys place bytes.now) in
        OnOk result (Adds Bytes strings.old strings.new (take count rows)) }
    ensures rest { IfOk result (λ new. keys new bytes.now ≡ drop count (keys place bytes.now)) }
    ensures among { IfOk result (IsAmongKeys bytes.now) }
    ensures fits { OnOk result (sum_by length strings.new ≤ O.greatest) }
    ensures texts { let texts = All IsUtf8 strings.old → IfSome (option_copied entries.entry) (All IsUtf8)
        → All IsUtf8 strings.new in
        OnOk result texts }
    ensures cause { let rows = map (entry_outcome (byte_entries false (option_copied entries.entry)))
        (keys place bytes.now) in
        IfErr result (IsCausedByBytes O.greatest strings.old (take count rows)) }
{
    let mut place = place;
    let mut left = count;
    let mut chunk = [0u32; CHUNK];
    while left > 0 {
        let room = &mut chunk[..left.min(CHUNK)];
        let found = place.fill(bytes, room);
        if found == 0 {
            return Ok(place);
        }
        extend_named(strings, entries, &room[..found])?;
        left -= found;
    }
    Ok(place)
}
