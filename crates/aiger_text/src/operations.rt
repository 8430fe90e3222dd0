//! The operations of a body.
ghost use Rattle.std.specs.Prelude.{◌≡◌, [], ◌∷◌, ◌++◌, map, IfOk};
ghost use Rattle.hw_model.specs.KindViews.{kind_of};
ghost use Rattle.hw_model.specs.TypeViews.{type_of};
ghost use Rattle.ir_store.specs.Numbered.{ref_by};
ghost use Rattle.aiger_design.specs.Operations.{bit_op, constant_op, inverter_op, register_op, and_op, output_op};
ghost use Rattle.aiger_text.specs.Seen.{op_seen, bit_types, made_of};

use crate::names::numbered;
use diag::refusal::Location;
use hw_model::kinds::{Integer, OpKind, Reset};
use hw_model::types::Ty;
use ir_store::operation::{NewOp, NewResultList, OpId, TyList, Value};
use smallvec::SmallVec;
use std::alloc::{AllocError, Global};

/// Operands of an operation.
pub(crate) type Operands = SmallVec<Value, 4, Global>;

/// What a user of literals makes of their values.
#[derive(Clone, Copy)]
pub(crate) enum Made {
    /// The register of a latch, by its number.
    Register(u32),
    /// The conjunction of a gate.
    Conjunction,
    /// The output.
    Output,
}

/// What a user makes.
pub(crate) fn made_op(alloc: Global, made: Made, operands: Operands) -> Result<NewOp, AllocError>
    ensures { IfOk result (λ op. op_seen op ≡ made_of made (map (ref_by (λ i. i)) operands.items)) }
{
    match made {
        Made::Register(k) => register_op(alloc, k, operands),
        Made::Conjunction => and_op(alloc, operands),
        Made::Output => output_op(alloc, operands),
    }
}

/// An operation without a name, with a result of one bit.
fn bit_op(alloc: Global, kind: OpKind, operands: Operands) -> Result<NewOp, AllocError>
    ensures { IfOk result (λ op. op_seen op ≡ bit_op (kind_of kind) (map (ref_by (λ i. i)) operands.items)) }
{
    let mut op = NewOp::of_type(alloc, kind, &[], &Ty::Int(1), Location::start())?;
    op.operands = operands;
    Ok(op)
}

/// A constant.
pub(crate) fn constant_op(alloc: Global, constant: bool) -> Result<NewOp, AllocError>
    ensures { IfOk result (λ op. op_seen op ≡ constant_op constant) }
{
    let number = Integer::NonNegative(u128::from(constant));
    bit_op(alloc, OpKind::Constant(number), SmallVec::new(alloc))
}

/// An inverter.
pub(crate) fn inverter_op(alloc: Global, value: Value) -> Result<NewOp, AllocError>
    ensures { IfOk result (λ op. op_seen op ≡ inverter_op (ref_by (λ i. i) value)) }
{
    let operands = SmallVec::from_slice(alloc, &[value, Value::Result(OpId::nth(0), 0)])?;
    bit_op(alloc, OpKind::Xor, operands)
}

/// The conjunction of a gate.
fn and_op(alloc: Global, operands: Operands) -> Result<NewOp, AllocError>
    ensures { IfOk result (λ op. op_seen op ≡ and_op (map (ref_by (λ i. i)) operands.items)) }
{
    bit_op(alloc, OpKind::And, operands)
}

/// The register of latch `k`.
fn register_op(alloc: Global, k: u32, operands: Operands) -> Result<NewOp, AllocError>
    ensures { IfOk result (λ op. op_seen op ≡ register_op k (map (ref_by (λ i. i)) operands.items)) }
{
    let mut all = operands;
    all.push(Value::Port(0))?;
    let mut op = bit_op(alloc, OpKind::CompReg(Reset::No), all)?;
    op.name = numbered(alloc, b'l', k)?;
    Ok(op)
}

/// The output.
fn output_op(alloc: Global, operands: Operands) -> Result<NewOp, AllocError>
    ensures { IfOk result (λ op. op_seen op ≡ output_op (map (ref_by (λ i. i)) operands.items)) }
{
    let types = bit_types(alloc, operands.len())?;
    let mut op = bit_op(alloc, OpKind::Output, operands)?;
    op.types = TyList::of(types);
    op.results = NewResultList::new();
    op.named = 0;
    Ok(op)
}

/// So many types of one bit.
fn bit_types(alloc: Global, count: usize) -> Result<Vec<Ty>, AllocError>
    ensures { IfOk result (λ types. map type_of types.items ≡ bit_types count) }
{
    let mut types = Vec::with_capacity(alloc, count)?;
    let mut k = 0;
    while k < count {
        types.push(Ty::Int(1))?;
        k += 1;
    }
    Ok(types)
}
