//! The types of an operation's results, by its kind and the types that it writes (CIRCT: operation references of HW, Comb
//! and Seq).
ghost use Rattle.std.specs.Prelude.{◌≡◌, map, min, drop, length, IfOk, Some};
ghost use Rattle.std.specs.Option.{option_map};
ghost use Rattle.hw_model.specs.Types.HwType.{struct};
ghost use Rattle.hw_model.specs.TypeViews.{type_of, field_of as field_view, fields_of};
ghost use Rattle.hw_model.specs.KindViews.{kind_of};
ghost use Rattle.hw_model.specs.Sound.{field_type, field_list};
ghost use Rattle.type_inference.specs.ResultTypes.{result_types, joined_width, elements_in, length_joined, joined_length, element_of, field_of as field_in, fields_of as fields_in, kept_size};

use crate::settled_type::SettledType;
use hw_model::families::{Family, StructOp};
use hw_model::kinds::OpKind;
use hw_model::types::{Field, Ty};
use io_edge::byte_text::Text;
use std::alloc::{AllocError, Global};

/// The types of an operation's results, one for each: None where the operation does not settle it. `types` are those that
/// it writes, and `operands` says how many operands it has. A width or a length of 2^32 or more is kept as 2^32 - 1.
#[tactic(auto, unfolding(crate::specs::ResultTypes::result_types))]
pub fn result_types(
    alloc: Global,
    kind: &OpKind,
    types: &[Ty],
    operands: usize,
) -> Result<Vec<Option<Ty>>, AllocError>
    ensures { IfOk result (λ ts. map (option_map type_of) ts.items ≡ result_types (kind_of kind.now) (map type_of types.now) operands) }
{
    let family = kind.family();
    match family {
        Family::Output => Ok(Vec::new(alloc)),
        Family::Struct(StructOp::Explode) => field_types(alloc, types.first()),
        Family::Instance(instance) => types_after(alloc, types, instance.inputs.len()),
        _ => {
            let ty = SettledType::of(family, types, operands).try_clone(alloc)?;
            let mut one = Vec::with_capacity(alloc, 1)?;
            one.push(ty)?;
            Ok(one)
        }
    }
}

/// A length as a type keeps it: at most 2^32 - 1.
pub fn kept_size(count: usize) -> u32
    ensures { result ≡ kept_size count }
{
    u32::try_from(count).unwrap_or(u32::MAX)
}

/// The width of joined integers, at most 2^32 - 1; None where a type is none.
pub fn joined_width(types: &[Ty]) -> Option<u32>
    ensures { result ≡ option_map kept_size (joined_width (map type_of types.now)) }
{
    let mut width: u32 = 0;
    for ty in types {
        match ty {
            Ty::Int(more) => width = width.saturating_add(*more),
            Ty::Clock | Ty::Array(..) | Ty::Struct(_) => return None,
        }
    }
    Some(width)
}

/// The length of joined arrays, at most 2^32 - 1; None where a type is none, or an array of other elements than the first.
#[tactic(auto, unfolding(crate::specs::ResultTypes::joined_length))]
pub fn joined_length(types: &[Ty]) -> Option<u32>
    ensures { result ≡ option_map kept_size (joined_length (map type_of types.now)) }
{
    length_joined(element_of(types.first()), types)
}

/// The length of joined arrays of elements of a type, at most 2^32 - 1; None where a type is no such array.
fn length_joined(element: Option<&Ty>, types: &[Ty]) -> Option<u32>
    ensures { result ≡ option_map kept_size (length_joined (option_map (λ t. type_of t.now) element.entry) (map type_of types.now)) }
{
    let mut length: u32 = 0;
    for ty in types {
        match elements_in(element, ty) {
            Some(more) => length = length.saturating_add(more),
            None => return None,
        }
    }
    Some(length)
}

/// The length of an array of elements of a type.
fn elements_in(element: Option<&Ty>, ty: &Ty) -> Option<u32>
    ensures { result ≡ elements_in (option_map (λ t. type_of t.now) element.entry) (type_of ty.now) }
{
    match (ty, element) {
        (Ty::Array(length, own), Some(element)) if **own == *element => Some(*length),
        (Ty::Array(..), _) | (Ty::Clock | Ty::Int(_) | Ty::Struct(_), _) => None,
    }
}

/// The type of the elements of an array.
pub fn element_of<'t>(ty: Option<&'t Ty>) -> Option<&'t Ty>
    ensures { option_map (λ t. type_of t.now) result ≡ element_of (option_map (λ t. type_of t.now) ty.entry) }
{
    match ty {
        Some(Ty::Array(_, element)) => Some(element),
        Some(Ty::Clock | Ty::Int(_) | Ty::Struct(_)) | None => None,
    }
}

/// The type of a field of a struct: the first of that name.
pub fn field_of<'t>(ty: Option<&'t Ty>, name: &Text) -> Option<&'t Ty>
    ensures { option_map (λ t. type_of t.now) result ≡ field_in (option_map (λ t. type_of t.now) ty.entry) name.now }
{
    match ty {
        Some(Ty::Struct(list)) => field_among(&list.fields, name),
        Some(Ty::Clock | Ty::Int(_) | Ty::Array(..)) | None => None,
    }
}

/// The type of the first field of a name.
fn field_among<'t>(fields: &'t [Field], name: &Text) -> Option<&'t Ty>
    ensures { option_map (λ t. type_of t.now) result ≡ field_type (fields_of (map field_view fields.now)) name.now }
{
    for field in fields {
        if field.name == *name {
            return Some(&field.ty);
        }
    }
    None
}

/// The types of the fields of a struct.
fn field_types(alloc: Global, ty: Option<&Ty>) -> Result<Vec<Option<Ty>>, AllocError>
    ensures { IfOk result (λ ts. map (option_map type_of) ts.items ≡ fields_in (option_map (λ t. type_of t.now) ty.entry)) }
{
    match ty {
        Some(Ty::Struct(list)) => types_of_fields(alloc, &list.fields),
        Some(Ty::Clock | Ty::Int(_) | Ty::Array(..)) | None => Ok(Vec::new(alloc)),
    }
}

/// The types of fields.
fn types_of_fields(alloc: Global, fields: &[Field]) -> Result<Vec<Option<Ty>>, AllocError>
    ensures { IfOk result (λ ts. map (option_map type_of) ts.items ≡ map Some (field_list (fields_of (map field_view fields.now)))) }
{
    let mut types = Vec::with_capacity(alloc, fields.len())?;
    for field in fields {
        types.push(Some(field.ty.try_clone(alloc)?))?;
    }
    Ok(types)
}

/// The types after so many.
fn types_after(alloc: Global, types: &[Ty], count: usize) -> Result<Vec<Option<Ty>>, AllocError>
    ensures { IfOk result (λ ts. map (option_map type_of) ts.items ≡ map Some (drop count (map type_of types.now))) }
{
    let (_, following) = types.split_at(count.min(types.len()));
    each_of(alloc, following)
}

/// Equal types with memory of their own.
fn each_of(alloc: Global, types: &[Ty]) -> Result<Vec<Option<Ty>>, AllocError>
    ensures { IfOk result (λ ts. map (option_map type_of) ts.items ≡ map Some (map type_of types.now)) }
{
    let mut copies = Vec::with_capacity(alloc, types.len())?;
    for ty in types {
        copies.push(Some(ty.try_clone(alloc)?))?;
    }
    Ok(copies)
}
