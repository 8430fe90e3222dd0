//! What the types say that an operation writes, and those of its results.
ghost use Rattle.std.specs.Prelude.{◌≡◌, ◌+◌, map, length, IfOk};
ghost use Rattle.hw_model.specs.Types.{width, leaves};
ghost use Rattle.hw_model.specs.TypeViews.{type_of};
ghost use Rattle.hw_model.specs.Value.{nth_type};
ghost use Rattle.hw_model.specs.Design.{result_type};
ghost use Rattle.aggregate_laws.specs.Leaves.{leaves_of};
ghost use Rattle.aggregate_laws.specs.OperationRules.{all_leaves};
ghost use Rattle.aggregate_laws.specs.Aggregates.{array_length, element_type, first_type, index_bits};
ghost use Rattle.lowering_rules.specs.Reading.{plain_of};

use crate::leaf_types::push_leaves;
use hw_model::types::Ty;
use ir_store::body::Op;
use std::alloc::{AllocError, Global};

/// The sum, where it is below 2^32; more count as out of memory.
pub fn sum(a: u32, b: u32) -> Result<u32, AllocError>
    ensures { IfOk result (λ n. n ≡ a + b) }
{
    match a.checked_add(b) {
        Some(both) => Ok(both),
        None => Err(AllocError),
    }
}

/// A length, where it is below 2^32; more count as out of memory.
pub fn count_of(length: usize) -> Result<u32, AllocError>
    ensures { IfOk result (λ n. n ≡ length) }
{
    let Ok(count) = u32::try_from(length) else {
        return Err(AllocError);
    };
    Ok(count)
}

/// The leaves of an operation's results.
pub fn result_leaves(alloc: Global, op: &Op<'_>) -> Result<Vec<Ty>, AllocError>
    ensures { IfOk result (λ types. map type_of types.items ≡ all_leaves (plain_of op.now)) }
{
    let mut types = Vec::new(alloc);
    for one in op.results.as_slice() {
        push_leaves(&mut types, &one.ty)?;
    }
    Ok(types)
}

/// How many leaves an operation's results have, where that is below 2^32; more count as out of memory.
pub fn result_leaf_count(alloc: Global, op: &Op<'_>) -> Result<u32, AllocError>
    ensures { IfOk result (λ n. n ≡ length (all_leaves (plain_of op.now))) }
{
    let leaves = result_leaves(alloc, op)?;
    count_of(leaves.len())
}

/// The leaves of an operation's first result.
pub fn first_leaves(alloc: Global, op: &Op<'_>) -> Result<Vec<Ty>, AllocError>
    ensures { IfOk result (λ types. map type_of types.items ≡ leaves_of (result_type (plain_of op.now) 0)) }
{
    let mut types = Vec::new(alloc);
    if let Some(one) = op.results.as_slice().first() {
        push_leaves(&mut types, &one.ty)?;
    }
    Ok(types)
}

/// The leaves of the first type that an operation writes.
pub fn operand_leaves(alloc: Global, op: &Op<'_>) -> Result<Vec<Ty>, AllocError>
    ensures { IfOk result (λ types. map type_of types.items ≡ leaves (nth_type (plain_of op.now).types 0)) }
{
    let mut types = Vec::new(alloc);
    if let Some(ty) = op.types.as_slice().first() {
        push_leaves(&mut types, ty)?;
    }
    Ok(types)
}

/// How many leaves a type has, where that is below 2^32; more count as out of memory.
pub fn leaf_count(ty: &Ty) -> Result<u32, AllocError>
    ensures { IfOk result (λ n. n ≡ length (leaves (type_of ty.now))) }
{
    let Ok(count) = u32::try_from(ty.leaf_count()) else {
        return Err(AllocError);
    };
    Ok(count)
}

/// How many elements the array has whose type an operation writes first; what is no array has none.
pub fn operand_length(op: &Op<'_>) -> u32
    ensures { result ≡ array_length (nth_type (plain_of op.now).types 0) }
{
    match op.types.as_slice().first() {
        Some(ty) => array_length(ty),
        None => 0,
    }
}

/// How many elements the array has that is the first result; what is no array has none.
pub fn result_length(op: &Op<'_>) -> u32
    ensures { result ≡ array_length (first_type (plain_of op.now)) }
{
    match op.results.as_slice().first() {
        Some(one) => array_length(&one.ty),
        None => 0,
    }
}

// How many elements an array type has.
fn array_length(ty: &Ty) -> u32
    ensures { result ≡ array_length (type_of ty.now) }
{
    match ty {
        Ty::Array(length, _) => *length,
        Ty::Int(_) | Ty::Clock | Ty::Struct(_) => 0,
    }
}

/// How many leaves each element has of the array whose type an operation writes first; more than a u32 can say count as out of memory.
pub fn element_leaves(op: &Op<'_>) -> Result<u32, AllocError>
    ensures { IfOk result (λ n. n ≡ length (leaves (element_type (nth_type (plain_of op.now).types 0)))) }
{
    match op.types.as_slice().first() {
        Some(ty) => leaves_of_element(ty),
        None => Ok(0),
    }
}

// How many leaves each element of an array type has, or another type.
fn leaves_of_element(ty: &Ty) -> Result<u32, AllocError>
    ensures { IfOk result (λ n. n ≡ length (leaves (element_type (type_of ty.now)))) }
{
    match ty {
        Ty::Array(_, element) => leaf_count(element),
        Ty::Int(_) | Ty::Clock | Ty::Struct(_) => leaf_count(ty),
    }
}

/// The width of a type, where that is below 2^32; more count as out of memory.
pub fn small_width(ty: &Ty) -> Result<u32, AllocError>
    ensures { IfOk result (λ n. n ≡ width (type_of ty.now)) }
{
    let Ok(width) = u32::try_from(ty.width()) else {
        return Err(AllocError);
    };
    Ok(width)
}

/// The width of the second type that an operation writes, where that is below 2^32; more count as out of memory.
pub fn index_width_of(op: &Op<'_>) -> Result<u32, AllocError>
    ensures { IfOk result (λ n. n ≡ width (nth_type (plain_of op.now).types 1)) }
{
    match op.types.as_slice().get(1) {
        Some(ty) => small_width(ty),
        None => Ok(0),
    }
}

/// How many bits the index of an array of so many elements has.
pub fn index_bits(length: u32) -> u32
    ensures { result ≡ index_bits length }
{
    let mut bits = 1;
    let mut reach = 2u64;
    while reach < u64::from(length) {
        bits += 1;
        reach *= 2;
    }
    bits
}
