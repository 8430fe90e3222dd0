//! The results of operations, with marks where their names stood for something earlier.
ghost use Rattle.std.specs.Prelude.{◌≡◌, ◌++◌, ◌∷◌, [], false, map, drop, slice_index_or, IfOk, OnOk};
ghost use Rattle.std.specs.Option.{option_map};
ghost use Rattle.hw_model.specs.KindViews.{kind_of};
ghost use Rattle.hw_model.specs.TypeViews.{type_of};
ghost use Rattle.type_inference.specs.ResultTypes.{result_types};
ghost use Rattle.ir_store.specs.OperationViews.{results_in};
ghost use Rattle.mlir_reader.specs.Resolving.{marked_results};
ghost use Rattle.stored_form.specs.ResultTypes.{type_or_none};

use hw_model::kinds::OpKind;
use hw_model::types::Ty;
use ir_store::operation::{NewResult, NewResultList};
use std::alloc::{AllocError, Global};
use type_inference::result_types::result_types;
use type_inference::settled_type::{SettledType, has_one_result};

/// The results of an operation of this kind, with these types and so many operands, with these marks.
pub fn results_of(
    alloc: Global,
    kind: &OpKind,
    types: &[Ty],
    operands: usize,
    marks: &[bool],
) -> Result<NewResultList, AllocError>
    ensures { IfOk result (λ rs. results_in rs ≡ marked_results (result_types (kind_of kind.now) (map type_of types.now) operands) marks.now) }
{
    let family = kind.family();
    if has_one_result(family) {
        let ty = SettledType::of(family, types, operands).try_clone(alloc)?;
        return marked_result(alloc, ty, marks);
    }
    let types = result_types(alloc, kind, types, operands)?;
    marked_results(alloc, types, marks)
}

// A result of this type with the first of these marks, and one of no type for each other mark.
fn marked_result(alloc: Global, ty: Option<Ty>, marks: &[bool]) -> Result<NewResultList, AllocError>
    ensures { IfOk result (λ rs. results_in rs ≡ marked_results (option_map type_of ty ∷ []) marks.now) }
{
    let (again, others) = first_mark(marks);
    let mut results = NewResultList::One(NewResult {
        ty: type_or_none(ty),
        again,
    });
    add_untyped(alloc, &mut results, others)?;
    Ok(results)
}

// Results of these types with these marks; a mark without a type has a result of no type.
fn marked_results(
    alloc: Global,
    types: Vec<Option<Ty>>,
    marks: &[bool],
) -> Result<NewResultList, AllocError>
    ensures { IfOk result (λ rs. results_in rs ≡ marked_results (map (option_map type_of) types.items) marks.now) }
{
    let mut results = NewResultList::with_room(alloc, types.len().max(marks.len()))?;
    let mut left = marks;
    for ty in types {
        let (again, others) = first_mark(left);
        left = others;
        let one = NewResult {
            ty: type_or_none(ty),
            again,
        };
        results.push(alloc, one)?;
    }
    add_untyped(alloc, &mut results, left)?;
    Ok(results)
}

// Adds a result of no type for each mark.
fn add_untyped(alloc: Global, results: &mut NewResultList, marks: &[bool]) -> Result<(), AllocError>
    ensures { OnOk result (results_in results.new ≡ results_in results.old ++ marked_results [] marks.now) }
{
    for again in marks {
        let one = NewResult {
            ty: Ty::Int(0),
            again: *again,
        };
        results.push(alloc, one)?;
    }
    Ok(())
}

// The first mark, which is false where there is none, and the others.
fn first_mark(marks: &[bool]) -> (bool, &[bool])
    ensures first { result.0 ≡ slice_index_or marks.now 0 false }
    ensures others { result.1.now ≡ drop 1 marks.now }
{
    match marks.split_first() {
        Some((first, others)) => (*first, others),
        None => (false, marks),
    }
}

// A result's type, or that of one that its operation does not settle.
fn type_or_none(ty: Option<Ty>) -> Ty
    ensures { type_of result ≡ type_or_none (option_map type_of ty) }
{
    match ty {
        Some(ty) => ty,
        None => Ty::Int(0),
    }
}
