//! How many operands, types and results an operation has.
ghost use Rattle.std.specs.Prelude.{◌≡◌, ◌+◌, map, length, nat_eq};
ghost use Rattle.std.specs.Option.{option_map};
ghost use Rattle.hw_model.specs.TypeViews.{type_of};
ghost use Rattle.hw_model.specs.FamilyViews.{family_of, register_op_of};
ghost use Rattle.hw_model.specs.KindViews.{reset_of, literals_in};
ghost use Rattle.type_inference.specs.ResultTypes.{field_count, result_count};
ghost use Rattle.op_checks.specs.CountChecks.{register_operands, reset_operands, operands_written, operand_count, type_count, parts_miscounted, has_miscounted_parts, has_wrong_operands, has_wrong_results};

use crate::literal_checks::are_parts_miscounted;
use crate::type_parts::field_count;
use hw_model::families::{ArrayOp, Family, RegisterOp, StructOp};
use hw_model::kinds::{Instance, LiteralList, Reset};
use hw_model::types::Ty;

/// Whether an operation has too few or too many operands, or written types.
#[tactic(auto, unfolding(crate::specs::CountChecks::has_wrong_operands))]
pub fn has_wrong_operands(family: Family<'_>, types: &[Ty], operands: usize) -> bool
    ensures { result ≡ has_wrong_operands (family_of family.entry) (map type_of types.now) operands }
{
    operands != operand_count(family, types, operands) || !has_type_count(family, types, operands)
}

/// How many operands an operation takes that has so many: a struct that is made takes one for each of its fields.
#[tactic(auto, unfolding(crate::specs::CountChecks::operand_count))]
fn operand_count(family: Family<'_>, types: &[Ty], operands: usize) -> usize
    ensures { result ≡ operand_count (family_of family.entry) (map type_of types.now) operands }
{
    match family {
        Family::Struct(StructOp::Create) => struct_size(types.first()),
        _ => operands_written(family, operands),
    }
}

/// How many operands are written of an operation that has so many: of some kinds any number, of some any from 1 on.
#[tactic(auto, unfolding(crate::specs::CountChecks::operands_written))]
fn operands_written(family: Family<'_>, operands: usize) -> usize
    ensures { result ≡ operands_written (family_of family.entry) operands }
{
    match family {
        Family::Variadic(_)
        | Family::Concat
        | Family::Array(ArrayOp::Create)
        | Family::Array(ArrayOp::Concat) => operands.max(1),
        Family::Struct(StructOp::Create) | Family::Output => operands,
        Family::Constant(_) | Family::AggregateConstant(_) => 0,
        Family::Parity
        | Family::Extract(_)
        | Family::Replicate
        | Family::Struct(StructOp::Extract(_))
        | Family::Struct(StructOp::Explode)
        | Family::Bitcast
        | Family::Wire => 1,
        Family::Mux | Family::Array(ArrayOp::Inject) => 3,
        Family::Instance(instance) => instance.inputs.len(),
        Family::Register(op, reset) => register_operands(op) + reset_operands(reset),
        Family::AsyncFirReg => register_operands(RegisterOp::FirReg) + reset_operands(Reset::Sync),
        _ => 2,
    }
}

/// The operands of a register but those of its reset.
fn register_operands(op: RegisterOp) -> usize
    ensures { result ≡ register_operands (register_op_of op) }
{
    match op {
        RegisterOp::CompReg | RegisterOp::FirReg => 2,
        RegisterOp::CompRegCe => 3,
    }
}

/// The operands of a reset.
fn reset_operands(reset: Reset) -> usize
    ensures { result ≡ reset_operands (reset_of reset) }
{
    match reset {
        Reset::No => 0,
        Reset::Sync => 2,
    }
}

/// How many fields a struct has; what is no struct has none.
fn struct_size(ty: Option<&Ty>) -> usize
    ensures { result ≡ field_count (option_map (λ t. type_of t.now) ty.entry) }
{
    match ty {
        Some(Ty::Struct(list)) => field_count(&list.fields),
        Some(Ty::Clock | Ty::Int(_) | Ty::Array(..)) | None => 0,
    }
}

/// Whether an operation has as many written types as its form.
#[tactic(auto, unfolding(crate::specs::CountChecks::type_count))]
fn has_type_count(family: Family<'_>, types: &[Ty], operands: usize) -> bool
    ensures { result ≡ nat_eq (length types.now) (type_count (family_of family.entry) operands) }
{
    match family {
        Family::Concat | Family::Array(ArrayOp::Concat) | Family::Output => types.len() == operands,
        Family::Extract(_)
        | Family::Replicate
        | Family::Array(ArrayOp::Get)
        | Family::Array(ArrayOp::Slice)
        | Family::Array(ArrayOp::Inject)
        | Family::Bitcast => types.len() == 2,
        Family::Instance(instance) => has_port_types(instance, types),
        _ => types.len() == 1,
    }
}

/// Whether an instance has a type for each of its inputs and outputs.
fn has_port_types(instance: &Instance, types: &[Ty]) -> bool
    ensures { result ≡ nat_eq (length types.now) (length instance.now.inputs.items + length instance.now.outputs.items) }
{
    match types.len().checked_sub(instance.inputs.len()) {
        Some(outputs) => outputs == instance.outputs.len(),
        None => false,
    }
}

/// Whether an operation has too few or too many results, or names too few or too many.
#[tactic(auto, unfolding(crate::specs::CountChecks::has_wrong_results))]
pub fn has_wrong_results(family: Family<'_>, types: &[Ty], results: usize, named: u32) -> bool
    ensures { result ≡ has_wrong_results (family_of family.entry) (map type_of types.now) results named }
{
    let count = result_count(family, types);
    named as usize != count || results != count
}

/// How many results an operation has.
#[tactic(auto, unfolding(type_inference::specs::ResultTypes::result_count))]
fn result_count(family: Family<'_>, types: &[Ty]) -> usize
    ensures { result ≡ result_count (family_of family.entry) (map type_of types.now) }
{
    match family {
        Family::Output => 0,
        Family::Struct(StructOp::Explode) => struct_size(types.first()),
        Family::Instance(instance) => types.len().saturating_sub(instance.inputs.len()),
        _ => 1,
    }
}

/// Whether an aggregate constant, or a list in it, is shorter or longer than its type.
#[tactic(auto, unfolding(crate::specs::CountChecks::has_miscounted_parts))]
pub fn has_miscounted_parts(family: Family<'_>, types: &[Ty]) -> bool
    ensures { result ≡ has_miscounted_parts (family_of family.entry) (map type_of types.now) }
{
    match family {
        Family::AggregateConstant(list) => parts_miscounted(list, types.first()),
        _ => false,
    }
}

fn parts_miscounted(list: &LiteralList, ty: Option<&Ty>) -> bool
    ensures { result ≡ parts_miscounted (literals_in list.now) (option_map (λ t. type_of t.now) ty.entry) }
{
    match ty {
        Some(ty) => are_parts_miscounted(list, ty),
        None => false,
    }
}
