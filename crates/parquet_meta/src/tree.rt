//! Reads the schema's list as a tree, and gives its leaves.

ghost use Rattle.std.specs.Prelude.{◌≡◌, ◌++◌, ◌∷◌, [], Some, true};
ghost use Rattle.parquet_base.specs.Reading.{Gives};
ghost use Rattle.parquet_meta.specs.Fault.{MakesOr};
ghost use Rattle.parquet_meta.specs.OpenGroups.{next_element, path_of};
ghost use Rattle.parquet_meta.specs.Tree.{children_of, is_flat, leaf_of, leaves, leaves_below, physical_type_of};

use crate::ColumnPath;
use crate::code::TypeCode;
use crate::fault::Fault;
use crate::metadata::{ColumnDescriptor, PhysicalType, PrimitiveType, Repetition};
use crate::schema::SchemaElement;
use columns_core::{Name, Seq};
use parquet_base::Unspelled;
use std::alloc::Global;

/// How deep an element may stand, the root having depth 1.
const DEEPEST: usize = 32;

/// A group whose children are being read.
#[derive(Clone, Copy)]
pub(crate) struct OpenGroup<'a> {
    /// None for the root.
    pub name: Option<&'a Name>,
    /// How many children are still to come.
    pub left: u32,
}

fn children_of(element: &SchemaElement) -> u32
    ensures { result ≡ children_of element.now }
{
    element.children.unwrap_or(0)
}

/// The type with its length, where it has one.
fn physical_type_of(code: TypeCode, type_length: Option<u32>) -> Option<PhysicalType>
    ensures { result ≡ physical_type_of code type_length }
{
    match code {
        TypeCode::Boolean => Some(PhysicalType::Boolean),
        TypeCode::Int32 => Some(PhysicalType::Int32),
        TypeCode::Int64 => Some(PhysicalType::Int64),
        TypeCode::Int96 => Some(PhysicalType::Int96),
        TypeCode::Float => Some(PhysicalType::Float),
        TypeCode::Double => Some(PhysicalType::Double),
        TypeCode::ByteArray => Some(PhysicalType::ByteArray),
        TypeCode::FixedLenByteArray => match type_length {
            None | Some(0) => None,
            Some(length) => Some(PhysicalType::FixedLenByteArray(length as usize)),
        },
    }
}

fn is_flat(path: &[Name], repetition: Repetition) -> bool
    ensures { result ≡ is_flat path.now repetition }
{
    match (path, repetition) {
        ([_], Repetition::Required | Repetition::Optional) => true,
        _ => false,
    }
}

fn copy_of(alloc: Global, name: &Name) -> Result<Name, Fault>
    ensures { MakesOr true result (Some name.now) }
{
    Ok(Name::new(String::from_str(alloc, name.as_str())?))
}

/// The leaf once more. The path is not copied.
pub(crate) fn copy_of_leaf(leaf: &ColumnDescriptor) -> Result<ColumnDescriptor, Fault>
    ensures { MakesOr true result (Some leaf.now) }
{
    Ok(ColumnDescriptor {
        path_in_schema: leaf.path_in_schema.try_clone()?,
        primitive_type: leaf.primitive_type,
        flat: leaf.flat,
    })
}

/// The names of the open groups, and one more.
fn path_to(alloc: Global, groups: &[OpenGroup<'_>], name: &Name) -> Result<ColumnPath, Fault>
    ensures { MakesOr true result (Some (path_of groups.now ++ name.now ∷ [])) }
{
    let mut path = Vec::new(alloc);
    'names: for group in groups {
        if let Some(name) = group.name {
            path.push(copy_of(alloc, name)?)?;
        }
    }
    path.push(copy_of(alloc, name)?)?;
    Ok(ColumnPath::new(alloc, path)?)
}

/// A leaf below the open groups.
fn leaf_of(
    alloc: Global,
    groups: &[OpenGroup<'_>],
    element: &SchemaElement,
    repetition: Repetition,
    code: TypeCode,
) -> Result<ColumnDescriptor, Fault>
    ensures { MakesOr true result (leaf_of
        (path_of groups.now ++ element.now.name ∷ []) element.now repetition code) }
{
    let physical_type = physical_type_of(code, element.type_length).ok_or(Fault::Unspelled)?;
    if children_of(element) != 0 {
        return Err(Fault::Unspelled);
    }
    let path = path_to(alloc, groups, &element.name)?;
    let flat = is_flat(path.as_slice(), repetition);
    Ok(ColumnDescriptor {
        path_in_schema: path,
        primitive_type: PrimitiveType {
            physical_type,
            logical_type: element.logical_type,
            repetition,
        },
        flat,
    })
}

/// The next element so deep, which has a repetition, and those behind it.
fn next_element(
    depth: usize,
    elements: &[SchemaElement],
) -> Result<(&SchemaElement, Repetition, &[SchemaElement]), Unspelled>
    ensures { Gives (λ next. (next.0.now, next.1, next.2.now)) result (next_element depth elements.now) }
{
    match elements {
        [element, behind @ ..] if depth <= DEEPEST => {
            let repetition = element.repetition.ok_or(Unspelled)?;
            Ok((element, repetition, behind))
        }
        _ => Err(Unspelled),
    }
}

/// The leaves below a root with so many children, which use all elements.
fn leaves_below(
    alloc: Global,
    children: u32,
    elements: &[SchemaElement],
) -> Result<Seq<ColumnDescriptor>, Fault>
    ensures { MakesOr true result (leaves_below children elements.now) }
{
    let mut columns = Vec::new(alloc);
    let mut groups = Vec::new(alloc);
    groups.push(OpenGroup {
        name: None,
        left: children,
    })?;
    let mut rest = elements;
    'walk: while let Some(mut group) = groups.pop() {
        if group.left == 0 {
            continue;
        }
        let (element, repetition, behind) = next_element(groups.len() + 2, rest)?;
        rest = behind;
        group.left -= 1;
        groups.push(group)?;
        match element.physical_type {
            Some(code) => {
                let leaf = leaf_of(alloc, groups.as_slice(), element, repetition, code)?;
                columns.push(leaf)?;
            }
            None => groups.push(OpenGroup {
                name: Some(&element.name),
                left: children_of(element),
            })?,
        }
    }
    if !rest.is_empty() {
        return Err(Fault::Unspelled);
    }
    Ok(Seq::new(columns))
}

/// The leaves of a tree that uses all elements, in their order.
pub(crate) fn read_leaves(
    alloc: Global,
    elements: &[SchemaElement],
) -> Result<Seq<ColumnDescriptor>, Fault>
    ensures { MakesOr true result (leaves elements.now) }
{
    let [root, below @ ..] = elements else {
        return Err(Fault::Unspelled);
    };
    match root.physical_type {
        Some(_) => Err(Fault::Unspelled),
        None => leaves_below(alloc, children_of(root), below),
    }
}
