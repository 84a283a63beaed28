//! Reads the value of a field, or an element of a list.

ghost use Rattle.std.specs.Prelude.{◌≡◌, Option, option_map, true};
ghost use Rattle.parquet_thrift.specs.Values.{Context, in_struct};
ghost use Rattle.parquet_meta.specs.Fault.{ReadsOr, MakesOr};
ghost use Rattle.parquet_meta.specs.Meaning.{Rule, by_rule, elements_by_rule, i32, i64, byte_string, name, text_of, list_of, struct_of, made, unknown, truth_value};

use crate::ShortBytes;
use crate::fault::{Fault, Memory};
use crate::structure::{Structure, read_fields};
use columns_core::{Name, Seq};
use parquet_thrift::{BINARY, Compact, FALSE, I32, I64, LIST, STRUCT, TRUE};
use std::alloc::Global;

/// For how many elements of a list memory is taken before they are read. A count that no elements follow takes no more.
pub(crate) const MOST_RESERVED: usize = 1024;

/// A type that a value is read as, in a field or in a list.
pub(crate) trait Decode<M: Memory> {
    /// What a value of some kind is read as.
    ghost rule: { Rule Self };

    fn decode(memory: M, kind: u8, compact: &mut Compact<'_>) -> Result<Self, Fault>
        ensures { (context : Context) → ReadsOr M.may_want
            (λ x. x) (by_rule context rule kind) compact.old result compact.new };
}

impl<M: Memory> Decode<M> for i32 {
    ghost rule = { i32 };

    #[tactic(auto, using(crate::proofs::Rules::i32_rules))]
    fn decode(_memory: M, kind: u8, compact: &mut Compact<'_>) -> Result<i32, Fault> {
        if kind != I32 {
            return Err(Fault::Unspelled);
        }
        Ok(compact.read_i32()?)
    }
}

impl<M: Memory> Decode<M> for i64 {
    ghost rule = { i64 };

    #[tactic(auto, using(crate::proofs::Rules::i64_rules))]
    fn decode(_memory: M, kind: u8, compact: &mut Compact<'_>) -> Result<i64, Fault> {
        if kind != I64 {
            return Err(Fault::Unspelled);
        }
        Ok(compact.read_i64()?)
    }
}

/// A byte string, not copied.
#[tactic(auto, using(crate::proofs::Rules::byte_string_rules))]
pub(crate) fn decode_bytes<'a>(kind: u8, compact: &mut Compact<'a>) -> Result<&'a [u8], Fault>
    ensures { (context : Context) → ReadsOr true
        (λ bytes. bytes.now) (by_rule context byte_string kind) compact.old result compact.new }
{
    if kind != BINARY {
        return Err(Fault::Unspelled);
    }
    Ok(compact.read_binary()?)
}

impl Decode<Global> for ShortBytes {
    ghost rule = { byte_string };

    fn decode(alloc: Global, kind: u8, compact: &mut Compact<'_>) -> Result<ShortBytes, Fault> {
        let bytes = decode_bytes(kind, compact)?;
        Ok(ShortBytes::from_slice(alloc, bytes)?)
    }
}

/// The bytes as a text, where they are UTF-8.
#[tactic(auto, using(crate::proofs::Rules::utf8_rules))]
fn as_text(bytes: &[u8]) -> Option<&str>
    ensures { text_of bytes.now ≡ option_map (λ s. s.now) result }
{
    simdutf8::compat::from_utf8(bytes).ok()
}

impl Decode<Global> for Name {
    ghost rule = { name };

    #[tactic(auto, using(crate::proofs::Rules::name_rules))]
    fn decode(alloc: Global, kind: u8, compact: &mut Compact<'_>) -> Result<Name, Fault> {
        if kind != BINARY {
            return Err(Fault::Unspelled);
        }
        let bytes = compact.read_binary()?;
        let Some(text) = as_text(bytes) else {
            return Err(Fault::Unspelled);
        };
        Ok(Name::new(String::from_str(alloc, text)?))
    }
}

/// The value of a field.
pub(crate) fn decode_field<T: Decode<M>, M: Memory>(
    memory: M,
    kind: u8,
    compact: &mut Compact<'_>,
) -> Result<T, Fault>
    ensures { ReadsOr M.may_want (λ x. x) (by_rule in_struct T.rule kind) compact.old result compact.new }
{
    T::decode(memory, kind, compact)
}

/// A struct, from its state before any field.
#[tactic(auto, using(crate::proofs::Rules::struct_rules))]
pub(crate) fn decode_struct<S: Structure<M> + Drop, M: Memory>(
    memory: M,
    start: S,
    kind: u8,
    compact: &mut Compact<'_>,
) -> Result<S, Fault>
    ensures { (context : Context) → ReadsOr M.may_want
        (λ s. s) (by_rule context (struct_of S.field start) kind) compact.old result compact.new }
{
    if kind != STRUCT {
        return Err(Fault::Unspelled);
    }
    let mut filled = start;
    read_fields(memory, &mut filled, compact)?;
    Ok(filled)
}

/// A value that is made into another, or refused.
pub(crate) trait Make<T, M: Memory> {
    ghost make: { Self → Option T };

    fn make(self, memory: M) -> Result<T, Fault>
        ensures { MakesOr M.may_want result (make self) };
}

/// A value that is read as another and made from it.
pub(crate) fn decode_made<A: Decode<M> + Make<T, M>, T, M: Memory>(
    memory: M,
    kind: u8,
    compact: &mut Compact<'_>,
) -> Result<T, Fault>
    ensures { (context : Context) → ReadsOr M.may_want
        (λ x. x) (by_rule context (made A.rule A.make) kind) compact.old result compact.new }
{
    let read = A::decode(memory, kind, compact)?;
    read.make(memory)
}

/// A struct that is made from its fields.
pub(crate) fn decode_made_struct<S: Structure<M> + Make<T, M> + Drop, T, M: Memory>(
    memory: M,
    start: S,
    kind: u8,
    compact: &mut Compact<'_>,
) -> Result<T, Fault>
    ensures { (context : Context) → ReadsOr M.may_want
        (λ x. x) (by_rule context (made (struct_of S.field start) S.make) kind) compact.old result
        compact.new }
{
    let read = decode_struct(memory, start, kind, compact)?;
    read.make(memory)
}

/// A truth value of a field, which its kind is.
#[tactic(auto, using(crate::proofs::Rules::truth_rules))]
pub(crate) fn decode_bool<M: Memory>(
    _memory: M,
    kind: u8,
    compact: &mut Compact<'_>,
) -> Result<bool, Fault>
    ensures { ReadsOr M.may_want (λ b. b)
        (by_rule in_struct truth_value kind) compact.old result compact.new }
{
    match kind {
        TRUE => Ok(true),
        FALSE => Ok(false),
        _ => Err(Fault::Unspelled),
    }
}

/// Passes over a field that nobody knows.
#[inline(always)]
#[tactic(auto, using(crate::proofs::Rules::unknown_is))]
pub(crate) fn pass_over<M: Memory>(
    _memory: M,
    kind: u8,
    compact: &mut Compact<'_>,
) -> Result<(), Fault>
    ensures { ReadsOr M.may_want (λ x. x) (by_rule in_struct unknown kind) compact.old result compact.new }
{
    compact.skip(kind)?;
    Ok(())
}

/// A list.
#[tactic(auto, using(crate::proofs::Rules::list_rules))]
pub(crate) fn decode_list<T: Decode<Global> + Drop>(
    alloc: Global,
    kind: u8,
    compact: &mut Compact<'_>,
) -> Result<Seq<T>, Fault>
    ensures { (context : Context) → ReadsOr true
        (λ s. s) (by_rule context (list_of T.rule) kind) compact.old result compact.new }
{
    if kind != LIST {
        return Err(Fault::Unspelled);
    }
    let header = compact.read_list()?;
    decode_elements(alloc, header.count, header.kind, compact)
}

/// The list of a field.
pub(crate) fn decode_list_field<T: Decode<Global> + Drop>(
    alloc: Global,
    kind: u8,
    compact: &mut Compact<'_>,
) -> Result<Seq<T>, Fault>
    ensures { ReadsOr true (λ s. s)
        (by_rule in_struct (list_of T.rule) kind) compact.old result compact.new }
{
    decode_list(alloc, kind, compact)
}

/// So many elements of one kind.
fn decode_elements<T: Decode<Global> + Drop>(
    alloc: Global,
    count: usize,
    kind: u8,
    compact: &mut Compact<'_>,
) -> Result<Seq<T>, Fault>
    ensures { ReadsOr true (λ s. s) (elements_by_rule T.rule kind count) compact.old result compact.new }
{
    let mut items = Vec::with_capacity(alloc, count.min(MOST_RESERVED))?;
    'elements: for _ in 0..count {
        items.push(T::decode(alloc, kind, compact)?)?;
    }
    Ok(Seq::new(items))
}
