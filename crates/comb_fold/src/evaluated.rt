//! The pattern by which an operation of constants becomes the constant of its value.
ghost use Rattle.std.specs.Prelude.{◌≡◌, ◌&&◌, true, Some, is_some, slice_get, option_map, IfOk};
ghost use Rattle.hw_model.specs.Types.{HwType};
ghost use Rattle.hw_model.specs.KindViews.{kind_of};
ghost use Rattle.ir_store.specs.OperationViews.{results_in};
ghost use Rattle.fold_laws.specs.Evaluated.{is_comb, constants_at, value_of_constants, fold_evaluated};
ghost use Rattle.comb_fold.specs.Evaluable.{bits_of_type, IsEvaluableSite};
ghost use Rattle.body_edits.specs.Sites.{ops_at, kind_at, refs_at, first_type_of, number_of, IsReadableSite};

use crate::pattern::Pattern;
use bits_core::Bits;
use body_edits::numbers::{first_type, put_number};
use body_edits::reading::constant_of;
use body_edits::site::Site;
use hw_model::integer_values::op_value;
use hw_model::kinds::OpKind;
use hw_model::types::Ty;
use ir_store::body::Body;
use ir_store::operation::{NewResultList, OpId};
use std::alloc::{AllocError, Global};

/// An operation on integers whose operands all are constants becomes the constant of its value.
pub struct F2;

impl Pattern for F2 {
    ghost change = { fold_evaluated };

    fn matches(body: &Body, op: OpId) -> bool {
        let site = Site::at(body, op);
        match first_type(site.op.results) {
            Some(_) => is_of_constants(&site),
            None => false,
        }
    }

    fn apply(alloc: Global, body: &mut Body, op: OpId) -> Result<(), AllocError> {
        let number = value_of_constants(alloc, &Site::at(body, op))?;
        put_number(alloc, body, op, number)
    }
}

/// Whether the operation is of the comb dialect, and all its operands are constants. Linear in the operands.
fn is_of_constants(site: &Site<'_>) -> bool
    requires { IsReadableSite site.now }
    ensures { result ≡ is_comb (kind_at site.now) && is_some (constants_at (ops_at site.now) (refs_at site.now)) }
{
    is_comb(site.op.kind) && are_constants(site)
}

/// Whether a kind is of the comb dialect.
fn is_comb(kind: &OpKind) -> bool
    ensures { result ≡ is_comb (kind_of kind.now) }
{
    match kind {
        OpKind::Add | OpKind::Mul | OpKind::And | OpKind::Or | OpKind::Xor | OpKind::Sub => true,
        OpKind::Divu | OpKind::Modu | OpKind::Divs | OpKind::Mods => true,
        OpKind::Shl | OpKind::Shru | OpKind::Shrs => true,
        OpKind::Icmp(_) | OpKind::Parity | OpKind::Extract(_) => true,
        OpKind::Concat | OpKind::Replicate | OpKind::Mux => true,
        _ => false,
    }
}

/// Whether all operands are constants.
fn are_constants(site: &Site<'_>) -> bool
    requires { IsReadableSite site.now }
    ensures { result ≡ is_some (constants_at (ops_at site.now) (refs_at site.now)) }
{
    for value in site.op.operands {
        if constant_of(site.body, *value).is_none() {
            return false;
        }
    }
    true
}

/// The number of the value of an operation whose operands all are constants. An error comes where memory is refused.
fn value_of_constants(alloc: Global, site: &Site<'_>) -> Result<u128, AllocError>
    requires readable { IsReadableSite site.now }
    requires evaluable { IsEvaluableSite site.now }
    ensures { IfOk result (λ number. (t : HwType) → first_type_of site.now ≡ Some t → Some number ≡ number_of value_of_constants t site.now) }
{
    match first_bits(site.op.results) {
        Some(width) => {
            let words = words_of(alloc, site)?;
            Ok(op_value(site.op.kind, width, words.as_slice()).value())
        }
        None => unreachable!(),
    }
}

/// The number of bits of the first of some results, where its type is an integer's.
fn first_bits(results: &NewResultList) -> Option<u32>
    ensures { result ≡ bits_of_type (option_map (λ r. r.type) (slice_get (results_in results.now) 0)) }
{
    match first_type(results) {
        Some(ty) => match ty {
            Ty::Int(width) => Some(*width),
            Ty::Clock | Ty::Array(..) | Ty::Struct(_) => None,
        },
        None => None,
    }
}

/// The words of the operands, which all are constants.
fn words_of(alloc: Global, site: &Site<'_>) -> Result<Vec<Bits>, AllocError>
    requires readable { IsReadableSite site.now }
    requires constants { is_some (constants_at (ops_at site.now) (refs_at site.now)) ≡ true }
    ensures { IfOk result (λ words. constants_at (ops_at site.now) (refs_at site.now) ≡ Some words.items) }
{
    let mut words = Vec::with_capacity(alloc, site.op.operands.len())?;
    for value in site.op.operands {
        match constant_of(site.body, *value) {
            Some(word) => words.push(word)?,
            None => unreachable!(),
        }
    }
    Ok(words)
}
