//! Operations that have one value.
ghost use Rattle.std.specs.Prelude.{◌≡◌, map, option_map, slice_get, find, All};
ghost use Rattle.std.specs.Cmp.Lexicographic.{pointwise};
ghost use Rattle.hw_model.specs.KindViews.{kind_of, integer_of};
ghost use Rattle.hw_model.specs.Kinds.Kind.{constant};
ghost use Rattle.hw_model.specs.SameKind.{same_kind};
ghost use Rattle.hw_model.specs.SameType.{same_type};
ghost use Rattle.hw_model.specs.TypeViews.{type_of};
ghost use Rattle.ir_store.specs.Bodies.{ops_of, read_parts};
ghost use Rattle.ir_store.specs.BodyOps.{same_value};
ghost use Rattle.ir_store.specs.OperationViews.{result_of, results_in};
ghost use Rattle.body_edits.specs.Views.{HasOp};
ghost use Rattle.cse_pass.specs.EqualOps.{value_kind};
ghost use Rattle.cse_pass.specs.Same.{are_same, are_same_at};

use crate::equal_constants::{are_same_parts, is_same_number};
use hw_model::kinds::{Integer, OpKind};
use hw_model::types::Ty;
use ir_store::body::{Body, Op};
use ir_store::operation::{NewResult, NewResultList, OpId, Value, is_same};

/// The first operation of some ids that has the value of another one. Linear in the ids, and in the operands and types of those
/// that are compared.
pub fn find_same(body: &Body, ids: &[OpId], op: OpId) -> Option<OpId>
    requires there { All (HasOp body.now) ids.now }
    requires live { HasOp body.now op }
    ensures { result ≡ find (λ id. are_same_at (ops_of body.now) id op) ids.now }
{
    let own = body.op(op);
    for id in ids {
        if are_same(&body.op(*id), &own) {
            return Some(*id);
        }
    }
    None
}

/// Whether two operations have the same kind, operands and types.
pub fn are_same(a: &Op<'_>, b: &Op<'_>) -> bool
    ensures { result ≡ are_same (read_parts a.now) a.now.operands.now (read_parts b.now) b.now.operands.now }
{
    are_same_values(a.operands, b.operands)
        && (are_same_results(a.results.as_slice(), b.results.as_slice())
            && (are_same_types(a.types.as_slice(), b.types.as_slice())
                && is_same_kind(a.results, a.kind, b.kind)))
}

/// Whether two lists of values are one.
fn are_same_values(xs: &[Value], ys: &[Value]) -> bool
    ensures { result ≡ pointwise same_value xs.now ys.now }
{
    if xs.len() != ys.len() {
        return false;
    }
    for (x, y) in xs.iter().zip(ys) {
        if !is_same(*x, *y) {
            return false;
        }
    }
    true
}

/// Whether two lists of results have the same types.
fn are_same_results(xs: &[NewResult], ys: &[NewResult]) -> bool
    ensures { result ≡ pointwise same_type (map (λ r. r.type) (map result_of xs.now)) (map (λ r. r.type) (map result_of ys.now)) }
{
    if xs.len() != ys.len() {
        return false;
    }
    for (x, y) in xs.iter().zip(ys) {
        if x.ty != y.ty {
            return false;
        }
    }
    true
}

/// Whether two lists of types are one.
fn are_same_types(xs: &[Ty], ys: &[Ty]) -> bool
    ensures { result ≡ pointwise same_type (map type_of xs.now) (map type_of ys.now) }
{
    if xs.len() != ys.len() {
        return false;
    }
    for (x, y) in xs.iter().zip(ys) {
        if x != y {
            return false;
        }
    }
    true
}

/// Whether two kinds are one, numbers being read by the type of the first result of both.
fn is_same_kind(results: &NewResultList, a: &OpKind, b: &OpKind) -> bool
    ensures { result ≡ same_kind (value_kind (option_map (λ r. r.type) (slice_get (results_in results.now) 0)) (kind_of a.now)) (value_kind (option_map (λ r. r.type) (slice_get (results_in results.now) 0)) (kind_of b.now)) }
{
    match a {
        OpKind::Constant(y) => match b {
            OpKind::Constant(z) => is_same_constant(results.as_slice().first(), *y, *z),
            _ => false,
        },
        OpKind::AggregateConstant(ks) => match b {
            OpKind::AggregateConstant(ls) => are_same_parts(ks, ls),
            _ => false,
        },
        _ => a == b,
    }
}

/// Whether two constants are one, read by the type of a result.
fn is_same_constant(of: Option<&NewResult>, y: Integer, z: Integer) -> bool
    ensures { result ≡ same_kind (value_kind (option_map (λ r. (result_of r.now).type) of.entry) (constant (integer_of y))) (value_kind (option_map (λ r. (result_of r.now).type) of.entry) (constant (integer_of z))) }
{
    match of {
        Some(of) => is_same_number(of.ty.width(), y, z),
        None => y == z,
    }
}
