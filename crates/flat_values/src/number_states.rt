//! Places in pages of numbers that are stored in one encoding: plain, or keys.
ghost use Rattle.std.specs.Prelude.{◌≡◌, ◌⊎◌, [], true, false, List, Some, None, IfOk, IfErr, IfSome, IsSome, OnOk};
ghost use Rattle.columns_core.specs.Causes.{IsOneOf, NotYetImplemented, TellsOf, cause_of};
ghost use Rattle.columns_core.specs.declared.cell.Cell.{Cell};
ghost use Rattle.parquet_meta.specs.declared.metadata.PhysicalType.{PhysicalType};
ghost use Rattle.parquet_page.specs.Content.{DataOf, data_content, is_shaped};
ghost use Rattle.parquet_page.specs.Opened.{page_causes};
ghost use Rattle.parquet_page.specs.Values.{Keys, Plain, plain_values, unless_none};
ghost use Rattle.flat_values.specs.Conversion.{Conversion};
ghost use Rattle.flat_values.specs.FlatLeft.{causes_unless_none, read_encoding, values_left};
ghost use Rattle.flat_values.specs.KeysLeft.{IsAmongKeys};
ghost use Rattle.flat_values.specs.OneEncoding.{IsKeyState, IsPlainState, key_outcomes, plain_outcomes};
ghost use Rattle.flat_values.specs.Outcomes.{value_causes, value_outcomes};

use crate::flat_decoder::page_encoding;
use crate::numbers::open_plain;
use crate::{FlatState, KeyPlace, ParquetNativeType, PlainPlace, ValueEncoding};
use columns_core::{Error, Part};
use page_decoding::FilteredOptionalPageValidity;
use parquet_page::{DataPage, split_buffer};

/// Before the first of `count` plain values. Where none is stored, the bytes are not looked at.
fn open_values<P: ParquetNativeType>(
    bytes: &[u8],
    count: usize,
) -> Result<Option<PlainPlace>, Error>
    ensures values { (rule : Conversion)
        → IfOk result (λ place.
        unless_none count (value_outcomes rule P.physical None Plain bytes.now count)
        ≡ Some (values_left (plain_outcomes rule P.physical bytes.now) place)) }
    ensures over { IfOk result (λ place.
        IfSome place (λ place. IsSome (plain_values P.physical bytes.now place.count))) }
    ensures ok { OnOk result (causes_unless_none count (value_causes P.physical None Plain bytes.now count)
        ≡ []) }
    ensures cause { TellsOf result
        (causes_unless_none count (value_causes P.physical None Plain bytes.now count)) }
{
    if count == 0 {
        return Ok(None);
    }
    Ok(Some(open_plain::<P>(bytes, count)?))
}

/// Before the first of `count` keys, whatever entries they name. Where none is stored, the bytes are not looked at.
fn open_keys(bytes: &[u8], count: usize) -> Result<Option<KeyPlace>, Error>
    ensures values { (rule : Conversion) (type : PhysicalType) (entries : List Cell)
        → IfOk result (λ place. unless_none count
        (value_outcomes rule type (Some entries) Keys bytes.now count)
        ≡ Some (values_left (key_outcomes entries bytes.now) place)) }
    ensures over { IfOk result (λ place. IfSome place (IsAmongKeys bytes.now)) }
    ensures ok { (type : PhysicalType)
        → OnOk result (causes_unless_none count (value_causes type None Keys bytes.now count) ≡ []) }
    ensures cause { (type : PhysicalType)
        → TellsOf result (causes_unless_none count (value_causes type None Keys bytes.now count)) }
{
    if count == 0 {
        return Ok(None);
    }
    Ok(Some(KeyPlace::open(bytes, count, None)?))
}

impl FlatState<PlainPlace> {
    /// Before the first selected row of a page of plain numbers.
    pub fn try_new<P: ParquetNativeType>(page: &DataPage<'_>) -> Result<Self, Error>
        requires takes { (data_content page.now).type.physical_type ≡ P.physical }
        requires shaped { is_shaped (DataOf (data_content page.now)) ≡ true }
        ensures state { IfOk result (IsPlainState P.physical (data_content page.now)) }
        ensures ok { OnOk result (page_causes None false None (data_content page.now) ≡ []) }
        ensures read { OnOk result (read_encoding false (data_content page.now) ≡ Some Plain) }
        ensures refused { let causes = page_causes None false None (data_content page.now) in
            let is_read = read_encoding false (data_content page.now) ≡ Some Plain in
            IfErr result (λ e. (is_read × IsOneOf causes (cause_of e))
            ⊎ ((is_read → ⊥) × (cause_of e ≡ Some NotYetImplemented))) }
    {
        if page_encoding(page, false) != Some(ValueEncoding::Plain) {
            return Err(Error::NotYetImplemented(Part::Header));
        }
        let walk = FilteredOptionalPageValidity::try_new(page)?;
        let (_, _, bytes) = split_buffer(page)?;
        let values = open_values::<P>(bytes, walk.stored_count(page))?;
        Ok(FlatState { walk, values })
    }
}

impl FlatState<KeyPlace> {
    /// Before the first selected row of a page of keys. No key is compared with the entries of a dictionary.
    pub fn try_new(page: &DataPage<'_>) -> Result<Self, Error>
        requires { is_shaped (DataOf (data_content page.now)) ≡ true }
        ensures state { IfOk result (IsKeyState (data_content page.now)) }
        ensures ok { OnOk result (page_causes None true None (data_content page.now) ≡ []) }
        ensures read { OnOk result (read_encoding true (data_content page.now) ≡ Some Keys) }
        ensures refused { let causes = page_causes None true None (data_content page.now) in
            let is_read = read_encoding true (data_content page.now) ≡ Some Keys in
            IfErr result (λ e. (is_read × IsOneOf causes (cause_of e))
            ⊎ ((is_read → ⊥) × (cause_of e ≡ Some NotYetImplemented))) }
    {
        if page_encoding(page, true) != Some(ValueEncoding::Keys) {
            return Err(Error::NotYetImplemented(Part::Header));
        }
        let walk = FilteredOptionalPageValidity::try_new(page)?;
        let (_, _, bytes) = split_buffer(page)?;
        let values = open_keys(bytes, walk.stored_count(page))?;
        Ok(FlatState { walk, values })
    }
}
