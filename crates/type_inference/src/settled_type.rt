//! The type that an operation settles for its one result, without memory of its own (CIRCT: operation references of HW, Comb
//! and Seq).
ghost use Rattle.std.specs.Prelude.{◌≡◌, map, is_some, IfOk};
ghost use Rattle.std.specs.Option.{option_map};
ghost use Rattle.hw_model.specs.TypeViews.{type_of};
ghost use Rattle.hw_model.specs.FamilyViews.{family_of, array_op_of, struct_op_of};
ghost use Rattle.type_inference.specs.ResultTypes.{result_type, array_result, struct_result, as_int, array_of};
ghost use Rattle.type_inference.specs.SettledTypes.{settled_of, is_settled_as, has_one_result};

use crate::result_types::{element_of, field_of, joined_length, joined_width, kept_size};
use hw_model::families::{ArrayOp, Family, StructOp};
use hw_model::types::Ty;
use std::alloc::{AllocError, Global};

/// The type that an operation settles for its one result.
#[derive(Clone, Copy)]
pub enum SettledType<'t> {
    /// None is settled.
    Missing,
    /// A type that stands somewhere.
    Given(&'t Ty),
    /// The integer type of a width.
    Int(u32),
    /// The array of so many elements of a type.
    Array(u32, &'t Ty),
}

impl<'t> SettledType<'t> {
    /// The type of the result of an operation that has one. `types` are those that it writes, and `operands` says how many
    /// operands it has. A width or a length of 2^32 or more is kept as 2^32 - 1. Linear in the types.
    #[tactic(auto, unfolding(crate::specs::ResultTypes::result_type))]
    pub fn of(family: Family<'_>, types: &'t [Ty], operands: usize) -> SettledType<'t>
        ensures { settled_of result ≡ result_type (family_of family.entry) (map type_of types.now) operands }
    {
        match family {
            Family::Variadic(_) | Family::Sub | Family::Division(_) | Family::Shift(_) => {
                given(types.first())
            }
            Family::Icmp(_) | Family::Parity => SettledType::Int(1),
            Family::Extract(_) | Family::Replicate | Family::Bitcast => given(types.get(1)),
            Family::Concat => int(joined_width(types)),
            Family::Mux | Family::Constant(_) | Family::AggregateConstant(_) | Family::Wire => {
                given(types.first())
            }
            Family::Array(op) => array_type(op, types, operands),
            Family::Struct(op) => struct_type(op, types),
            Family::Instance(_) | Family::Output => SettledType::Missing,
            Family::Register(..) | Family::AsyncFirReg => given(types.first()),
        }
    }

    /// Whether a type is settled.
    pub fn is_settled(self) -> bool
        ensures { result ≡ is_some (settled_of self.entry) }
    {
        match self {
            SettledType::Missing => false,
            SettledType::Given(_) | SettledType::Int(_) | SettledType::Array(..) => true,
        }
    }

    /// Whether a type is the settled one; where none is settled, the answer is `otherwise`.
    pub fn is_or(self, own: &Ty, otherwise: bool) -> bool
        ensures { result ≡ is_settled_as (type_of own.now) (settled_of self.entry) otherwise }
    {
        match self {
            SettledType::Missing => otherwise,
            SettledType::Given(ty) => own == ty,
            SettledType::Int(width) => *own == Ty::Int(width),
            SettledType::Array(length, element) => match own {
                Ty::Array(own_length, own_element) => {
                    *own_length == length && **own_element == *element
                }
                Ty::Int(_) | Ty::Clock | Ty::Struct(_) => false,
            },
        }
    }

    /// An equal type with memory of its own, where one is settled. The error is out of memory.
    pub fn try_clone(self, alloc: Global) -> Result<Option<Ty>, AllocError>
        ensures { IfOk result (λ ty. option_map type_of ty ≡ settled_of self.entry) }
    {
        match self {
            SettledType::Missing => Ok(None),
            SettledType::Given(ty) => Ok(Some(ty.try_clone(alloc)?)),
            SettledType::Int(width) => Ok(Some(Ty::Int(width))),
            SettledType::Array(length, element) => {
                let element = element.try_clone(alloc)?;
                Ok(Some(Ty::Array(length, Box::new(alloc, element)?)))
            }
        }
    }
}

// The type of the result of an operation on arrays.
fn array_type<'t>(op: ArrayOp, types: &'t [Ty], operands: usize) -> SettledType<'t>
    ensures { settled_of result ≡ array_result (array_op_of op) (map type_of types.now) operands }
{
    match op {
        ArrayOp::Create => array(Some(kept_size(operands)), types.first()),
        ArrayOp::Concat => array(joined_length(types), element_of(types.first())),
        ArrayOp::Get => given(element_of(types.first())),
        ArrayOp::Slice => given(types.get(1)),
        ArrayOp::Inject => given(types.first()),
    }
}

// The type of the one result of an operation on structs; none where it has others.
fn struct_type<'t>(op: StructOp<'_>, types: &'t [Ty]) -> SettledType<'t>
    ensures { settled_of result ≡ struct_result (struct_op_of op.entry) (map type_of types.now) }
{
    match op {
        StructOp::Create | StructOp::Inject(_) => given(types.first()),
        StructOp::Extract(name) => given(field_of(types.first(), name)),
        StructOp::Explode => SettledType::Missing,
    }
}

/// Whether operations of a family have one result.
pub fn has_one_result(family: Family<'_>) -> bool
    ensures { result ≡ has_one_result (family_of family.entry) }
{
    !matches!(
        family,
        Family::Output | Family::Struct(StructOp::Explode) | Family::Instance(_)
    )
}

// A type that stands somewhere, where there is one.
fn given<'t>(ty: Option<&'t Ty>) -> SettledType<'t>
    ensures { settled_of result ≡ option_map (λ t. type_of t.now) ty.entry }
{
    match ty {
        Some(ty) => SettledType::Given(ty),
        None => SettledType::Missing,
    }
}

// The integer type of a width, where there is one.
fn int<'t>(width: Option<u32>) -> SettledType<'t>
    ensures { settled_of result ≡ as_int width }
{
    match width {
        Some(width) => SettledType::Int(width),
        None => SettledType::Missing,
    }
}

// The array of so many elements of a type, where there are both.
fn array<'t>(length: Option<u32>, element: Option<&'t Ty>) -> SettledType<'t>
    ensures { settled_of result ≡ array_of length (option_map (λ t. type_of t.now) element.entry) }
{
    match (length, element) {
        (Some(length), Some(element)) => SettledType::Array(length, element),
        (None, _) | (_, None) => SettledType::Missing,
    }
}
