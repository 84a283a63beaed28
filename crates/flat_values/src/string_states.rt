//! Places in pages of byte strings that stand each behind its length.
ghost use Rattle.std.specs.Prelude.{◌≡◌, [], true, false, Some, None, is_some, IfOk, IfSome, OnOk};
ghost use Rattle.columns_core.specs.Causes.{ExternalFormat, NotYetImplemented, TellsOf, unless};
ghost use Rattle.parquet_meta.specs.declared.metadata.PhysicalType.TheVariants.{ByteArray};
ghost use Rattle.parquet_page.specs.Content.{DataOf, data_content, is_shaped};
ghost use Rattle.parquet_page.specs.Values.{Plain, plain_values, unless_none};
ghost use Rattle.flat_values.specs.Conversion.{Conversion};
ghost use Rattle.flat_values.specs.FlatLeft.{causes_unless_none, values_left};
ghost use Rattle.flat_values.specs.Outcomes.{value_causes, value_outcomes};
ghost use Rattle.flat_values.specs.PlainStrings.{IsOverStrings, IsStringState, plain_strings, string_causes, string_outcomes};

use crate::flat_decoder::page_encoding;
use crate::{FlatState, ValueEncoding};
use columns_core::{Error, Part};
use page_decoding::FilteredOptionalPageValidity;
use parquet_encoding::PlainBytes;
use parquet_page::{DataPage, split_buffer};

/// Before the first of `count` byte strings.
fn open_strings(bytes: &[u8], count: usize) -> Result<PlainBytes, Error>
    ensures values { IfOk result (λ place.
        plain_values ByteArray bytes.now count ≡ Some (plain_strings bytes.now place)) }
    ensures over { IfOk result (IsOverStrings bytes.now) }
    ensures ok { OnOk result (unless (is_some (plain_values ByteArray bytes.now count)) ExternalFormat
        ≡ []) }
    ensures cause { TellsOf result
        (unless (is_some (plain_values ByteArray bytes.now count)) ExternalFormat) }
{
    match PlainBytes::try_new(bytes, count) {
        Ok(place) => Ok(place),
        Err(_) => Err(Error::ExternalFormat(Part::Values)),
    }
}

/// Before the first of `count` byte strings. Where none is stored, the bytes are not looked at.
fn open_values(bytes: &[u8], count: usize) -> Result<Option<PlainBytes>, Error>
    ensures values { (rule : Conversion)
        → IfOk result (λ place.
        unless_none count (value_outcomes rule ByteArray None Plain bytes.now count)
        ≡ Some (values_left (string_outcomes rule bytes.now) place)) }
    ensures over { IfOk result (λ place. IfSome place (IsOverStrings bytes.now)) }
    ensures ok { OnOk result (causes_unless_none count (value_causes ByteArray None Plain bytes.now count)
        ≡ []) }
    ensures cause { TellsOf result
        (causes_unless_none count (value_causes ByteArray None Plain bytes.now count)) }
{
    if count == 0 {
        return Ok(None);
    }
    Ok(Some(open_strings(bytes, count)?))
}

impl FlatState<PlainBytes> {
    /// Before the first selected row of a page of plain byte strings.
    pub fn try_new(page: &DataPage<'_>) -> Result<Self, Error>
        requires takes { (data_content page.now).type.physical_type ≡ ByteArray }
        requires shaped { is_shaped (DataOf (data_content page.now)) ≡ true }
        ensures state { IfOk result (IsStringState (data_content page.now)) }
        ensures ok { OnOk result (string_causes (data_content page.now) ≡ []) }
        ensures cause { TellsOf result (string_causes (data_content page.now)) }
    {
        if page_encoding(page, false) != Some(ValueEncoding::Plain) {
            return Err(Error::NotYetImplemented(Part::Header));
        }
        let walk = FilteredOptionalPageValidity::try_new(page)?;
        let (_, _, bytes) = split_buffer(page)?;
        let values = open_values(bytes, walk.stored_count(page))?;
        Ok(FlatState { walk, values })
    }
}
