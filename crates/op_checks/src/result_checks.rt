//! The results of an operation against the types that its kind and its written types give them.
ghost use Rattle.std.specs.Prelude.{◌≡◌, ◌∷◌, [], map, drop, length, Some};
ghost use Rattle.hw_model.specs.TypeViews.{type_of};
ghost use Rattle.hw_model.specs.FamilyViews.{family_of};
ghost use Rattle.type_inference.specs.ResultTypes.{result_type, result_types};
ghost use Rattle.op_checks.specs.TypeLists.{known_types, differs, differ};
ghost use Rattle.op_checks.specs.OperandChecks.{has_other_result};

use crate::type_lists::{results_differ_from_fields, results_differ_from_types};
use crate::type_parts::fields_in;
use hw_model::families::{Family, StructOp};
use hw_model::types::Ty;
use ir_store::operation::NewResult;
use type_inference::settled_type::SettledType;

/// Whether a result has another type than the operation gives it, where it gives one. `operands` says how many operands
/// the operation has.
#[tactic(auto, unfolding(type_inference::specs::ResultTypes::result_types, crate::specs::OperandChecks::has_other_result), using(crate::proofs::Lists::none_differ))]
pub fn has_other_result(
    family: Family<'_>,
    types: &[Ty],
    results: &[NewResult],
    operands: usize,
) -> bool
    ensures { result ≡ has_other_result (family_of family.entry) (map type_of types.now) (map (λ r. type_of r.ty) results.now) operands }
{
    match family {
        Family::Output => false,
        Family::Struct(StructOp::Explode) => results_differ_from_fields(
            results,
            fields_in(types.first()),
        ),
        Family::Instance(instance) => differ_after(results, types, instance.inputs.len()),
        _ => single_differs(family, types, results, operands),
    }
}

/// Whether the first result of an operation that has one has another type than it gives.
pub fn single_differs(
    family: Family<'_>,
    types: &[Ty],
    results: &[NewResult],
    operands: usize,
) -> bool
    ensures { result ≡ differ (known_types (map (λ r. type_of r.ty) results.now)) (result_type (family_of family.entry) (map type_of types.now) operands ∷ []) }
{
    match results.first() {
        Some(first) => has_other_type(family, types, &first.ty, operands),
        None => false,
    }
}

/// Whether the result of an operation that has one has another type than it gives.
#[tactic(auto, using(crate::proofs::Lists::settled_otherwise))]
fn has_other_type(family: Family<'_>, types: &[Ty], own: &Ty, operands: usize) -> bool
    ensures { result ≡ differs (Some (type_of own.now)) (result_type (family_of family.entry) (map type_of types.now) operands) }
{
    !SettledType::of(family, types, operands).is_or(own, true)
}

/// Whether results and the types after so many differ.
fn differ_after(results: &[NewResult], types: &[Ty], count: usize) -> bool
    ensures { result ≡ differ (known_types (map (λ r. type_of r.ty) results.now)) (known_types (drop count (map type_of types.now))) }
{
    let (_, following) = types.split_at(count.min(types.len()));
    results_differ_from_types(results, following)
}
