//! Weights: how many operations the flattening of a module and the lowering of its aggregates make, at most.
ghost use Rattle.std.specs.Prelude.{◌≡◌, ◌<◌, ◌≤◌, ◌+◌, ◌*◌, length, map, min, slice_get};
ghost use Rattle.std.specs.Option.{option_map};
ghost use Rattle.design_cycles.specs.Sizes.{length_of, leaves_of};
ghost use Rattle.hw_model.specs.TypeViews.{type_of};
ghost use Rattle.hw_model.specs.KindViews.{kind_of, literal_of, literals_in, reset_of};
ghost use Rattle.hw_model.specs.FamilyViews.{family_of, array_op_of, register_op_of};
ghost use Rattle.hw_model.specs.Value.{nth_type};
ghost use Rattle.hw_model.specs.Weight.{leaf_count, literal_leaves as leaves_of_literal, literals_leaves as leaves_of_literals, element_count, element_leaves, choice_weight, reset_weight, array_weight, register_weight, kind_weight};

use hw_model::families::{ArrayOp, Family, RegisterOp};
use hw_model::kinds::{Literal, LiteralList, OpKind, Reset};
use hw_model::types::Ty;

/// The weight of an operation that writes these types and has so many operands, `inner` being that of the module that it
/// instances, or `u64::MAX` where it is more.
pub(crate) fn op_weight(kind: &OpKind, types: &[Ty], operands: usize, inner: u64) -> u64
    ensures { result ≡ min (kind_weight (λ _. inner) (kind_of kind.now) (map type_of types.now) operands) u64.MAX }
{
    family_weight(kind.family(), types, operands, inner)
}

/// The same, by the family.
fn family_weight(family: Family<'_>, types: &[Ty], operands: usize, inner: u64) -> u64
    ensures { result ≡ min (kind_weight (λ _. inner) (family_of family.entry) (map type_of types.now) operands) u64.MAX }
{
    match family {
        Family::Constant(_) => 1,
        Family::AggregateConstant(list) => literals_leaves(list),
        Family::Mux => leaves_in(types).saturating_mul(4),
        Family::Array(op) => array_weight(op, types, operands),
        Family::Bitcast => leaves_in(types).saturating_mul(4).saturating_add(1),
        Family::Wire => leaves_in(types).saturating_mul(2),
        Family::Instance(_) => leaves_in(types).saturating_add(1).saturating_add(inner),
        Family::Output => leaves_in(types).saturating_add(1),
        Family::Register(op, reset) => register(types, register_weight(op), reset),
        Family::AsyncFirReg => register(types, register_weight(RegisterOp::FirReg), Reset::Sync),
        _ => (operands as u64).saturating_add(1),
    }
}

/// The weight of an operation on arrays, or `u64::MAX` where it is more.
fn array_weight(op: ArrayOp, types: &[Ty], operands: usize) -> u64
    ensures { result ≡ min (array_weight (array_op_of op) (map type_of types.now) operands) u64.MAX }
{
    match op {
        ArrayOp::Get => choice(types, 1),
        ArrayOp::Slice => choice(types, array_length(type_at(types, 1))),
        ArrayOp::Inject => injection(types),
        ArrayOp::Create | ArrayOp::Concat => (operands as u64).saturating_add(1),
    }
}

/// The weight of a register for each leaf, without its reset.
fn register_weight(op: RegisterOp) -> u64
    ensures weight { result ≡ register_weight (register_op_of op) }
    ensures most { result ≤ 7 }
{
    match op {
        RegisterOp::CompReg | RegisterOp::FirReg => 3,
        RegisterOp::CompRegCe => 7,
    }
}

/// How many leaves values of these types have, or `u64::MAX` where there are more.
pub(crate) fn leaves_in(types: &[Ty]) -> u64
    ensures { result ≡ min (leaf_count (map type_of types.now)) u64.MAX }
{
    let mut sum: u64 = 0;
    for ty in types {
        sum = sum.saturating_add(ty.leaf_count());
    }
    sum
}

/// The weight of choosing one of an array's elements, so many times over.
fn choice(types: &[Ty], copies: u64) -> u64
    ensures { result ≡ min (choice_weight (element_count (nth_type (map type_of types.now) 0)) (element_leaves (nth_type (map type_of types.now) 0)) copies) u64.MAX }
{
    let fourfold = array_length(type_at(types, 0)).saturating_mul(4);
    let one = element_leaf_count(type_at(types, 0)).saturating_mul(fourfold.saturating_add(1));
    copies.saturating_mul(one).saturating_add(fourfold)
}

/// The weight of writing an element of an array.
fn injection(types: &[Ty]) -> u64
    ensures { result ≡ min (4 * element_count (nth_type (map type_of types.now) 0) + 4 * (element_count (nth_type (map type_of types.now) 0) * element_leaves (nth_type (map type_of types.now) 0))) u64.MAX }
{
    let length = array_length(type_at(types, 0));
    let parts = length.saturating_mul(element_leaf_count(type_at(types, 0)));
    length
        .saturating_mul(4)
        .saturating_add(parts.saturating_mul(4))
}

/// The weight of a register, so much for each leaf, and more with a reset.
fn register(types: &[Ty], each: u64, reset: Reset) -> u64
    requires { each ≤ 7 }
    ensures { result ≡ min ((each + reset_weight (reset_of reset)) * leaf_count (map type_of types.now)) u64.MAX }
{
    let more = match reset {
        Reset::No => 0,
        Reset::Sync => 4,
    };
    leaves_in(types).saturating_mul(each + more)
}

/// The type at a position, where there is one.
fn type_at(types: &[Ty], position: usize) -> Option<&Ty>
    ensures { option_map (λ t. type_of t.now) result ≡ slice_get (map type_of types.now) position }
{
    types.get(position)
}

/// The length of an array, or 0.
fn array_length(ty: Option<&Ty>) -> u64
    ensures { result ≡ length_of (option_map (λ t. type_of t.now) ty.entry) }
{
    match ty {
        Some(Ty::Array(length, _)) => u64::from(*length),
        _ => 0,
    }
}

/// The leaves of an array's element, or 0.
fn element_leaf_count(ty: Option<&Ty>) -> u64
    ensures { result ≡ min (leaves_of (option_map (λ t. type_of t.now) ty.entry)) u64.MAX }
{
    match ty {
        Some(Ty::Array(_, element)) => element.leaf_count(),
        _ => 0,
    }
}

/// How many numbers a constant of an aggregate type has, or `u64::MAX` where there are more.
#[cycle(literal_leaves)]
fn literal_leaves(literal: &Literal) -> u64
    ensures { result ≡ min (leaves_of_literal (literal_of literal.now)) u64.MAX }
{
    match literal {
        Literal::Leaf(_, _) => 1,
        Literal::Parts(list) => literals_leaves(list),
    }
}

/// How many numbers constants have, or `u64::MAX` where there are more.
#[cycle(literal_leaves)]
fn literals_leaves(list: &LiteralList) -> u64
    ensures { result ≡ min (leaves_of_literals (literals_in list.now)) u64.MAX }
{
    let mut sum: u64 = 0;
    for literal in &list.literals {
        sum = sum.saturating_add(literal_leaves(literal));
    }
    sum
}
