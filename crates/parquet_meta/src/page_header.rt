//! The header in front of a page's body.

ghost use Rattle.std.specs.Prelude.{◌≡◌, ◌<◌, ◌++◌, ℕ, List, Some, false, length, IfOk};
ghost use Rattle.parquet_base.specs.Reading.{Gives, IsEnd};
ghost use Rattle.parquet_thrift.specs.Front.{ReadsFront};
ghost use Rattle.parquet_thrift.specs.Values.{in_struct};
ghost use Rattle.parquet_meta.specs.Fault.{ReadsOr};
ghost use Rattle.parquet_meta.specs.Meaning.{by_rule, made, struct_of};
ghost use Rattle.parquet_meta.specs.PageHeader.{data_header, dictionary_header, data_v2_header, header, page_header};
ghost use Rattle.parquet_meta.specs.declared.page_header.PageHeader.{PageHeader};

use crate::decode::{Decode, Make, decode_field, decode_made, decode_made_struct, pass_over};
use crate::fault::{Fault, Memory, NoMemory};
use crate::structure::Structure;
use parquet_thrift::{Compact, FieldHeader, STRUCT, Unspelled};

/// The header of a data page in its first or second form. Lengths are in bytes. Encodings are numbers of the format, any of them.
#[derive(Clone, Copy, Debug, PartialEq, Eq)]
pub enum DataPageHeader {
    V1 {
        num_values: usize,
        encoding: i32,
        definition_encoding: i32,
    },
    V2 {
        num_values: usize,
        encoding: i32,
        definition_length: usize,
        repetition_length: usize,
    },
}

/// What a page holds.
#[derive(Clone, Copy, Debug, PartialEq, Eq)]
pub enum PageKind {
    Data(DataPageHeader),
    Dictionary { num_values: usize, encoding: i32 },
}

/// What a page holds, and how many bytes its body has.
#[derive(Clone, Copy, Debug, PartialEq, Eq)]
pub struct PageHeader {
    pub kind: PageKind,
    pub size: usize,
}

/// The types of pages that are read.
#[derive(Clone, Copy)]
pub(crate) enum PageType {
    DataPage,
    DictionaryPage,
    DataPageV2,
}

#[derive(Clone, Copy)]
pub(crate) struct DataFields {
    pub num_values: Option<u32>,
    pub encoding: Option<i32>,
    pub definition_encoding: Option<i32>,
}

#[derive(Clone, Copy)]
pub(crate) struct DictionaryFields {
    pub num_values: Option<u32>,
    pub encoding: Option<i32>,
}

#[derive(Clone, Copy)]
pub(crate) struct DataV2Fields {
    pub num_values: Option<u32>,
    pub encoding: Option<i32>,
    pub definition_length: Option<u32>,
    pub repetition_length: Option<u32>,
}

#[derive(Clone, Copy)]
pub(crate) struct HeaderFields {
    pub page_type: Option<PageType>,
    pub size: Option<u32>,
    pub data_page: Option<PageKind>,
    pub dictionary_page: Option<PageKind>,
    pub data_page_v2: Option<PageKind>,
}

impl<M: Memory> Make<PageType, M> for i32 {
    ghost use Rattle.parquet_meta.specs.PageHeader.{page_type_of};

    ghost make = { page_type_of };

    fn make(self, _memory: M) -> Result<PageType, Fault> {
        match self {
            0 => Ok(PageType::DataPage),
            2 => Ok(PageType::DictionaryPage),
            3 => Ok(PageType::DataPageV2),
            _ => Err(Fault::Unspelled),
        }
    }
}

impl<M: Memory> Decode<M> for PageType {
    ghost use Rattle.parquet_meta.specs.PageHeader.{page_type};

    ghost rule = { page_type };

    #[tactic(auto, unfolding(crate::specs::PageHeader::page_type))]
    fn decode(memory: M, kind: u8, compact: &mut Compact<'_>) -> Result<PageType, Fault> {
        decode_made::<i32, PageType, M>(memory, kind, compact)
    }
}

impl Structure<NoMemory> for DataFields {
    ghost use Rattle.parquet_meta.specs.PageHeader.{data_field};

    ghost field = { data_field };

    #[tactic(auto, unfolding(crate::specs::PageHeader::data_field), using(crate::proofs::Rules::by_rule_setting))]
    fn read_field(
        &mut self,
        memory: NoMemory,
        header: FieldHeader,
        compact: &mut Compact<'_>,
    ) -> Result<(), Fault> {
        match header.id {
            1 => self.num_values = Some(decode_field(memory, header.kind, compact)?),
            2 => self.encoding = Some(decode_field(memory, header.kind, compact)?),
            3 => self.definition_encoding = Some(decode_field(memory, header.kind, compact)?),
            _ => pass_over(memory, header.kind, compact)?,
        }
        Ok(())
    }
}

impl Make<PageKind, NoMemory> for DataFields {
    ghost use Rattle.parquet_meta.specs.PageHeader.{data_of};

    ghost make = { data_of };

    #[tactic(auto, unfolding(crate::specs::PageHeader::data_of))]
    fn make(self, _memory: NoMemory) -> Result<PageKind, Fault> {
        let num_values = self.num_values.ok_or(Fault::Unspelled)?;
        let encoding = self.encoding.ok_or(Fault::Unspelled)?;
        let definition_encoding = self.definition_encoding.ok_or(Fault::Unspelled)?;
        Ok(PageKind::Data(DataPageHeader::V1 {
            num_values: num_values as usize,
            encoding,
            definition_encoding,
        }))
    }
}

impl Structure<NoMemory> for DictionaryFields {
    ghost use Rattle.parquet_meta.specs.PageHeader.{dictionary_field};

    ghost field = { dictionary_field };

    #[tactic(auto, unfolding(crate::specs::PageHeader::dictionary_field), using(crate::proofs::Rules::by_rule_setting))]
    fn read_field(
        &mut self,
        memory: NoMemory,
        header: FieldHeader,
        compact: &mut Compact<'_>,
    ) -> Result<(), Fault> {
        match header.id {
            1 => self.num_values = Some(decode_field(memory, header.kind, compact)?),
            2 => self.encoding = Some(decode_field(memory, header.kind, compact)?),
            _ => pass_over(memory, header.kind, compact)?,
        }
        Ok(())
    }
}

impl Make<PageKind, NoMemory> for DictionaryFields {
    ghost use Rattle.parquet_meta.specs.PageHeader.{dictionary_of};

    ghost make = { dictionary_of };

    #[tactic(auto, unfolding(crate::specs::PageHeader::dictionary_of))]
    fn make(self, _memory: NoMemory) -> Result<PageKind, Fault> {
        let num_values = self.num_values.ok_or(Fault::Unspelled)?;
        let encoding = self.encoding.ok_or(Fault::Unspelled)?;
        Ok(PageKind::Dictionary {
            num_values: num_values as usize,
            encoding,
        })
    }
}

impl Structure<NoMemory> for DataV2Fields {
    ghost use Rattle.parquet_meta.specs.PageHeader.{data_v2_field};

    ghost field = { data_v2_field };

    #[tactic(auto, unfolding(crate::specs::PageHeader::data_v2_field), using(crate::proofs::Rules::by_rule_setting))]
    fn read_field(
        &mut self,
        memory: NoMemory,
        header: FieldHeader,
        compact: &mut Compact<'_>,
    ) -> Result<(), Fault> {
        match header.id {
            1 => self.num_values = Some(decode_field(memory, header.kind, compact)?),
            4 => self.encoding = Some(decode_field(memory, header.kind, compact)?),
            5 => self.definition_length = Some(decode_field(memory, header.kind, compact)?),
            6 => self.repetition_length = Some(decode_field(memory, header.kind, compact)?),
            _ => pass_over(memory, header.kind, compact)?,
        }
        Ok(())
    }
}

impl Make<PageKind, NoMemory> for DataV2Fields {
    ghost use Rattle.parquet_meta.specs.PageHeader.{data_v2_of};

    ghost make = { data_v2_of };

    #[tactic(auto, unfolding(crate::specs::PageHeader::data_v2_of))]
    fn make(self, _memory: NoMemory) -> Result<PageKind, Fault> {
        let num_values = self.num_values.ok_or(Fault::Unspelled)?;
        let encoding = self.encoding.ok_or(Fault::Unspelled)?;
        let definition_length = self.definition_length.ok_or(Fault::Unspelled)?;
        let repetition_length = self.repetition_length.ok_or(Fault::Unspelled)?;
        Ok(PageKind::Data(DataPageHeader::V2 {
            num_values: num_values as usize,
            encoding,
            definition_length: definition_length as usize,
            repetition_length: repetition_length as usize,
        }))
    }
}

impl Structure<NoMemory> for HeaderFields {
    ghost use Rattle.parquet_meta.specs.PageHeader.{header_field};

    ghost field = { header_field };

    #[tactic(auto, unfolding(crate::specs::PageHeader::header_field), using(crate::proofs::Rules::by_rule_setting))]
    fn read_field(
        &mut self,
        memory: NoMemory,
        header: FieldHeader,
        compact: &mut Compact<'_>,
    ) -> Result<(), Fault> {
        match header.id {
            1 => self.page_type = Some(decode_field(memory, header.kind, compact)?),
            3 => self.size = Some(decode_field(memory, header.kind, compact)?),
            5 => self.data_page = Some(read_data(header.kind, compact)?),
            7 => self.dictionary_page = Some(read_dictionary(header.kind, compact)?),
            8 => self.data_page_v2 = Some(read_data_v2(header.kind, compact)?),
            _ => pass_over(memory, header.kind, compact)?,
        }
        Ok(())
    }
}

impl Make<PageHeader, NoMemory> for HeaderFields {
    ghost use Rattle.parquet_meta.specs.PageHeader.{page_header_of};

    ghost make = { page_header_of };

    #[tactic(auto, unfolding(crate::specs::PageHeader::page_header_of))]
    fn make(self, _memory: NoMemory) -> Result<PageHeader, Fault> {
        let kind = match self.page_type.ok_or(Fault::Unspelled)? {
            PageType::DataPage => self.data_page,
            PageType::DictionaryPage => self.dictionary_page,
            PageType::DataPageV2 => self.data_page_v2,
        };
        let kind = kind.ok_or(Fault::Unspelled)?;
        let size = self.size.ok_or(Fault::Unspelled)?;
        Ok(PageHeader {
            kind,
            size: size as usize,
        })
    }
}

/// A header in the header, which says what the page holds.
fn read_kind<S: Structure<NoMemory> + Make<PageKind, NoMemory> + Drop>(
    start: S,
    kind: u8,
    compact: &mut Compact<'_>,
) -> Result<PageKind, Fault>
    ensures { ReadsOr false (λ x. x)
        (by_rule in_struct (made (struct_of S.Structure.field start) S.Make.make) kind) compact.old result
        compact.new }
{
    decode_made_struct(NoMemory, start, kind, compact)
}

#[tactic(auto, unfolding(crate::specs::PageHeader::data_header))]
fn read_data(kind: u8, compact: &mut Compact<'_>) -> Result<PageKind, Fault>
    ensures { ReadsOr false (λ x. x) (by_rule in_struct data_header kind) compact.old result compact.new }
{
    let start = DataFields {
        num_values: None,
        encoding: None,
        definition_encoding: None,
    };
    read_kind(start, kind, compact)
}

#[tactic(auto, unfolding(crate::specs::PageHeader::dictionary_header))]
fn read_dictionary(kind: u8, compact: &mut Compact<'_>) -> Result<PageKind, Fault>
    ensures { ReadsOr false (λ x. x)
        (by_rule in_struct dictionary_header kind) compact.old result compact.new }
{
    let start = DictionaryFields {
        num_values: None,
        encoding: None,
    };
    read_kind(start, kind, compact)
}

#[tactic(auto, unfolding(crate::specs::PageHeader::data_v2_header))]
fn read_data_v2(kind: u8, compact: &mut Compact<'_>) -> Result<PageKind, Fault>
    ensures { ReadsOr false (λ x. x) (by_rule in_struct data_v2_header kind) compact.old result compact.new }
{
    let start = DataV2Fields {
        num_values: None,
        encoding: None,
        definition_length: None,
        repetition_length: None,
    };
    read_kind(start, kind, compact)
}

#[tactic(auto, unfolding(crate::specs::PageHeader::header))]
fn read_header(compact: &mut Compact<'_>) -> Result<PageHeader, Fault>
    ensures { ReadsOr false (λ x. x) (by_rule in_struct header 12) compact.old result compact.new }
{
    let start = HeaderFields {
        page_type: None,
        size: None,
        data_page: None,
        dictionary_page: None,
        data_page_v2: None,
    };
    decode_made_struct(NoMemory, start, STRUCT, compact)
}

/// The header at the front of the bytes, and the bytes after it, where the body stands.
#[tactic(auto, unfolding(crate::specs::PageHeader::page_header), using(crate::proofs::PageHeaderLemmas::refuses_none))]
pub fn page_header_at(bytes: &[u8]) -> Result<(PageHeader, &[u8]), Unspelled>
    ensures spelled { Gives (λ x. (x.0, x.1.now)) result (page_header bytes.now) }
    ensures ends { IfOk result (λ x. IsEnd bytes.now x.1.now) }
    ensures takes { IfOk result (λ x. length x.1.now < length bytes.now) }
{
    let mut compact = Compact::new(bytes);
    match read_header(&mut compact) {
        Ok(header) => Ok((header, &bytes[compact.position()..])),
        Err(_) => Err(Unspelled),
    }
}

/// A header stands in bytes of its own at the front, one at least, and is read from them whatever stands after them.
#[tactic(auto, using(crate::proofs::PageHeaderLemmas::page_header_laws))]
pub fn page_headers_are_read_from_their_own_bytes()
    ensures own { ReadsFront 1 page_header }
    ensures longer { (bytes more : List ℕ) (x : PageHeader × List ℕ) → page_header bytes ≡ Some x
        → page_header (bytes ++ more) ≡ Some (x.0, x.1 ++ more) }
{}
