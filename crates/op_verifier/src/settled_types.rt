//! The types that an operation settles for its results. They are those of its results in all but operations that are refused
//! and a few kinds, and are then not written again.
ghost use Rattle.std.specs.Prelude.{◌≡◌, ◌∷◌, [], true, map, length, IfOk, is_some, option_map, slice_index_or, None};
ghost use Rattle.hw_model.specs.TypeViews.{type_of};
ghost use Rattle.hw_model.specs.FamilyViews.{family_of};
ghost use Rattle.hw_model.specs.KindViews.{kind_of};
ghost use Rattle.type_inference.specs.ResultTypes.{result_type, result_types};
ghost use Rattle.op_checks.specs.TypeLists.{known_types};

use hw_model::families::{Family, StructOp};
use hw_model::types::Ty;
use ir_store::body::Op;
use ir_store::operation::NewResult;
use op_checks::result_checks::single_differs;
use std::alloc::{AllocError, Global};
use type_inference::result_types::result_types;
use type_inference::settled_type::SettledType;

/// The types that an operation settles for its results.
#[derive(Drop)]
pub(crate) enum Settled<'b> {
    /// Those of its results.
    Own(&'b [NewResult]),
    /// Others.
    Made(Vec<Option<Ty>>),
}

impl<'b> Settled<'b> {
    ghost use Rattle.ir_store.specs.OperationViews.{types_in};
    ghost use Rattle.op_verifier.specs.SettledViews.{types_settled};

    /// The types that an operation settles.
    pub(crate) fn of(alloc: Global, op: &Op<'b>) -> Result<Settled<'b>, AllocError>
        ensures { IfOk result (λ s. types_settled s ≡ result_types (kind_of op.now.kind.now) (types_in op.now.types.now) (length op.now.operands.now)) }
    {
        let types = op.types.as_slice();
        let results = op.results.as_slice();
        let operands = op.operands.len();
        if are_own(op.kind.family(), types, results, operands) {
            return Ok(Settled::Own(results));
        }
        Ok(Settled::Made(result_types(alloc, op.kind, types, operands)?))
    }

    /// The type in a position, where one is settled there.
    pub(crate) fn at(&self, k: usize) -> Option<&Ty>
        ensures { option_map (λ t. type_of t.now) result ≡ slice_index_or (types_settled self.now) k None }
    {
        match self {
            Settled::Own(results) => own_type(results, k),
            Settled::Made(types) => inferred_type_at(types, k),
        }
    }
}

/// The type of a result, where there is one.
fn own_type(results: &[NewResult], k: usize) -> Option<&Ty>
    ensures { option_map (λ t. type_of t.now) result ≡ slice_index_or (known_types (map (λ r. type_of r.ty) results.now)) k None }
{
    match results.get(k) {
        Some(one) => Some(&one.ty),
        None => None,
    }
}

/// The type in a position, where one is settled there.
fn inferred_type_at(types: &[Option<Ty>], k: usize) -> Option<&Ty>
    ensures { option_map (λ t. type_of t.now) result ≡ slice_index_or (map (option_map type_of) types.now) k None }
{
    match types.get(k) {
        Some(Some(ty)) => Some(ty),
        Some(None) | None => None,
    }
}

/// Whether the types that an operation settles are found to be those of its results. Of a few kinds this is not asked.
#[tactic(auto, unfolding(type_inference::specs::ResultTypes::result_types))]
fn are_own(family: Family<'_>, types: &[Ty], results: &[NewResult], operands: usize) -> bool
    ensures { result ≡ true → result_types (family_of family.entry) (map type_of types.now) operands ≡ known_types (map (λ r. type_of r.ty) results.now) }
{
    match family {
        Family::Output => results.is_empty(),
        Family::Struct(StructOp::Explode) | Family::Instance(_) => false,
        _ => is_own(family, types, results, operands),
    }
}

/// Whether the type of the result of an operation that has one is that of its only result.
fn is_own(family: Family<'_>, types: &[Ty], results: &[NewResult], operands: usize) -> bool
    ensures { result ≡ true → result_type (family_of family.entry) (map type_of types.now) operands ∷ [] ≡ known_types (map (λ r. type_of r.ty) results.now) }
{
    results.len() == 1
        && (is_settled(family, types, operands)
            && !single_differs(family, types, results, operands))
}

/// Whether the type of the result of an operation that has one is settled.
fn is_settled(family: Family<'_>, types: &[Ty], operands: usize) -> bool
    ensures { result ≡ is_some (result_type (family_of family.entry) (map type_of types.now) operands) }
{
    SettledType::of(family, types, operands).is_settled()
}
