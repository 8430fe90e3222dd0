//! Why an operation by itself is refused.
ghost use Rattle.std.specs.Prelude.{◌≡◌, map};
ghost use Rattle.std.specs.Option.{option_map};
ghost use Rattle.hw_model.specs.TypeViews.{type_of};
ghost use Rattle.hw_model.specs.KindViews.{kind_of};
ghost use Rattle.hw_model.specs.FamilyViews.{family_of};
ghost use Rattle.ir_store.specs.OperationViews.{types_in};
ghost use Rattle.op_checks.specs.OperandChecks.{has_mismatch};
ghost use Rattle.op_checks.specs.CountChecks.{has_wrong_count};
ghost use Rattle.op_checks.specs.OwnChecks.{own_cause};
ghost use Rattle.op_checks.specs.OwnViews.{result_types_in};

use crate::count_checks::{has_miscounted_parts, has_wrong_operands, has_wrong_results};
use crate::limit_checks::{
    has_broken_copy, has_clock_value, has_constant_outside, has_extract_outside, has_type_outside,
    has_unequal_widths, has_unknown_divisor, has_wide_concat, has_wrong_field, has_wrong_index,
};
use crate::operand_checks::{has_other_form, has_other_operand};
use crate::result_checks::has_other_result;
use diag::cause::Cause;
use hw_model::families::Family;
use hw_model::types::Ty;
use ir_store::body::Op;

/// The lowest cause of those that the operation has by itself, from a mismatch of types to a wrong number of values.
/// `operands` has the types of its operands: None for one that is not settled, which is compared with nothing.
/// `divides_by_constant` says whether its divisor is the result of a nonzero `hw.constant`.
pub fn own_cause(op: &Op<'_>, operands: &[Option<&Ty>], divides_by_constant: bool) -> Option<Cause>
    ensures { result ≡ own_cause (kind_of op.now.kind.now) (types_in op.now.types.now) (result_types_in op.now.results.now) op.now.named (map (option_map (λ t. type_of t.now)) operands.now) divides_by_constant }
{
    family_cause(op.kind.family(), op, operands, divides_by_constant)
}

/// The lowest cause that the operation has as one of a family.
#[tactic(auto, unfolding(crate::specs::OwnChecks::own_cause), using(crate::proofs::Lists::result_types_seen, crate::proofs::Widths::types_within))]
fn family_cause(
    family: Family<'_>,
    op: &Op<'_>,
    operands: &[Option<&Ty>],
    divides_by_constant: bool,
) -> Option<Cause>
    ensures { result ≡ own_cause (family_of family.entry) (types_in op.now.types.now) (result_types_in op.now.results.now) op.now.named (map (option_map (λ t. type_of t.now)) operands.now) divides_by_constant }
{
    let types = op.types.as_slice();
    let results = op.results.as_slice();
    if has_mismatch(family, op, operands) {
        return Some(Cause::TypeMismatch);
    }
    if has_type_outside(family, types, results) {
        return Some(Cause::WidthLimit);
    }
    if has_constant_outside(family, types) {
        return Some(Cause::ConstantRange);
    }
    if has_extract_outside(family, types) {
        return Some(Cause::ExtractRange);
    }
    if has_broken_copy(family, types) {
        return Some(Cause::ReplicateMultiple);
    }
    if has_wide_concat(family, types) {
        return Some(Cause::ConcatWidth);
    }
    if has_unknown_divisor(family, divides_by_constant) {
        return Some(Cause::Divisor);
    }
    if has_wrong_index(family, types, operands) {
        return Some(Cause::IndexWidth);
    }
    if has_wrong_field(family, types) {
        return Some(Cause::Field);
    }
    if has_unequal_widths(family, types) {
        return Some(Cause::BitcastWidth);
    }
    if has_clock_value(family, types, operands) {
        return Some(Cause::ClockOperand);
    }
    if has_wrong_count(family, op, operands) {
        return Some(Cause::Arity);
    }
    None
}

/// Whether the types of an operation do not match.
#[tactic(auto, unfolding(crate::specs::OperandChecks::has_mismatch))]
fn has_mismatch(family: Family<'_>, op: &Op<'_>, operands: &[Option<&Ty>]) -> bool
    ensures { result ≡ has_mismatch (family_of family.entry) (types_in op.now.types.now) (result_types_in op.now.results.now) (map (option_map (λ t. type_of t.now)) operands.now) }
{
    let types = op.types.as_slice();
    has_other_form(family, types)
        || (has_other_operand(family, types, operands)
            || has_other_result(family, types, op.results.as_slice(), operands.len()))
}

/// Whether an operation has a wrong number of values.
#[tactic(auto, unfolding(crate::specs::CountChecks::has_wrong_count), using(crate::proofs::Lists::result_types_seen))]
fn has_wrong_count(family: Family<'_>, op: &Op<'_>, operands: &[Option<&Ty>]) -> bool
    ensures { result ≡ has_wrong_count (family_of family.entry) (types_in op.now.types.now) (result_types_in op.now.results.now) op.now.named (map (option_map (λ t. type_of t.now)) operands.now) }
{
    let types = op.types.as_slice();
    has_wrong_operands(family, types, operands.len())
        || (has_wrong_results(family, types, op.results.len(), op.named)
            || has_miscounted_parts(family, types))
}
