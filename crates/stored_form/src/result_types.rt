//! Whether results have the types that their operation gives them.
ghost use Rattle.std.specs.Prelude.{◌≡◌, ◌↔◌, ◌∷◌, [], map, drop, length, IsTrue, Some, None};
ghost use Rattle.std.specs.Option.{option_map};
ghost use Rattle.hw_model.specs.SameType.{same_type};
ghost use Rattle.hw_model.specs.Sound.{field_list};
ghost use Rattle.hw_model.specs.TypeViews.{type_of, field_of as field_view, fields_of};
ghost use Rattle.hw_model.specs.FamilyViews.{family_of};
ghost use Rattle.ir_store.specs.OperationViews.{result_of};
ghost use Rattle.type_inference.specs.ResultTypes.{result_type, result_types, fields_of as fields_in};
ghost use Rattle.stored_form.specs.ResultTypes.{HaveTypes, type_or_none};

use hw_model::families::{Family, StructOp};
use hw_model::types::{Field, Ty};
use ir_store::operation::NewResult;
use type_inference::settled_type::SettledType;

/// Whether the results have the types that an operation of a kind with these types and so many operands gives them.
#[tactic(auto, unfolding(type_inference::specs::ResultTypes::result_types))]
pub(crate) fn have_types(
    family: Family<'_>,
    types: &[Ty],
    operands: usize,
    results: &[NewResult],
) -> bool
    ensures { IsTrue result ↔ HaveTypes (map result_of results.now) (result_types (family_of family.entry) (map type_of types.now) operands) }
{
    match family {
        Family::Output => have_no_types(results),
        Family::Struct(StructOp::Explode) => have_field_types(types.first(), results),
        Family::Instance(instance) => have_types_after(types, instance.inputs.len(), results),
        _ => have_one_type(family, types, operands, results),
    }
}

/// Whether no result has a type: each has the one that stands for none.
fn have_no_types(results: &[NewResult]) -> bool
    ensures { IsTrue result ↔ HaveTypes (map result_of results.now) [] }
{
    for one in results {
        if !is_none(&one.ty) {
            return false;
        }
    }
    true
}

/// Whether results have these types.
fn have_these_types(types: &[Ty], results: &[NewResult]) -> bool
    ensures { IsTrue result ↔ HaveTypes (map result_of results.now) (map Some (map type_of types.now)) }
{
    let mut rest = results;
    for ty in types {
        match rest.split_first() {
            Some((first, others)) if first.ty == *ty => rest = others,
            _ => return false,
        }
    }
    have_no_types(rest)
}

/// Whether results have the types after so many.
fn have_types_after(types: &[Ty], count: usize, results: &[NewResult]) -> bool
    ensures { IsTrue result ↔ HaveTypes (map result_of results.now) (map Some (drop count (map type_of types.now))) }
{
    let (_, following) = types.split_at(count.min(types.len()));
    have_these_types(following, results)
}

/// Whether results have the types of a struct's fields.
fn have_field_types(ty: Option<&Ty>, results: &[NewResult]) -> bool
    ensures { IsTrue result ↔ HaveTypes (map result_of results.now) (fields_in (option_map (λ t. type_of t.now) ty.entry)) }
{
    match ty {
        Some(Ty::Struct(list)) => have_types_of(&list.fields, results),
        Some(Ty::Clock | Ty::Int(_) | Ty::Array(..)) | None => have_no_types(results),
    }
}

/// Whether results have the types of fields.
fn have_types_of(fields: &[Field], results: &[NewResult]) -> bool
    ensures { IsTrue result ↔ HaveTypes (map result_of results.now) (map Some (field_list (fields_of (map field_view fields.now)))) }
{
    let mut rest = results;
    for field in fields {
        match rest.split_first() {
            Some((first, others)) if first.ty == field.ty => rest = others,
            _ => return false,
        }
    }
    have_no_types(rest)
}

/// Whether the first result has the type that an operation of one result gives it, and further ones have none.
fn have_one_type(family: Family<'_>, types: &[Ty], operands: usize, results: &[NewResult]) -> bool
    ensures { IsTrue result ↔ HaveTypes (map result_of results.now) (result_type (family_of family.entry) (map type_of types.now) operands ∷ []) }
{
    match results.split_first() {
        Some((first, others)) => {
            has_type(family, types, operands, &first.ty) && have_no_types(others)
        }
        None => false,
    }
}

/// Whether a type is that of the result of an operation that has one.
#[tactic(auto, using(crate::proofs::Results::settled_or_none))]
fn has_type(family: Family<'_>, types: &[Ty], operands: usize, own: &Ty) -> bool
    ensures { result ≡ same_type (type_of own.now) (type_or_none (result_type (family_of family.entry) (map type_of types.now) operands)) }
{
    SettledType::of(family, types, operands).is_or(own, is_none(own))
}

/// Whether a type is the one that stands for none.
fn is_none(own: &Ty) -> bool
    ensures { result ≡ same_type (type_of own.now) (type_or_none None) }
{
    *own == Ty::Int(0)
}
