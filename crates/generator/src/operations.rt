//! The operations of a module.
ghost use Rattle.std.specs.Prelude.{◌≡◌, ◌+◌, ◌<◌, [], ◌∷◌, ◌++◌, map, codes, IfOk};
ghost use Rattle.hw_model.specs.KindViews.{kind_of, instance_of};
ghost use Rattle.ir_store.specs.Numbered.{ref_by};
ghost use Rattle.ir_store.specs.declared.operation.Value.TheVariants.{Result};
ghost use Rattle.ir_store.specs.Bodies.{op_id};
ghost use Rattle.generator.specs.Draws.{state_after};
ghost use Rattle.generator.specs.Generated.{chosen_kind, word_op, register_op, instance_of_module, instance_op, xor_op, output_op, first_ops, last_ops};
ghost use Rattle.generator.specs.Views.{op_seen};

use crate::draws::Draws;
use crate::symbols::module_symbol;
use diag::refusal::Location;
use hw_model::kinds::{Instance, Integer, OpKind, Reset};
use hw_model::types::Ty;
use io_edge::byte_text::Text;
use ir_store::operation::{NewOp, NewResultList, OpId, TyList, Value};
use std::alloc::{AllocError, Global};

/// How many bits values have.
pub const WIDTH: u32 = 16;

/// The most operations that a module has.
pub const MOST_OPS: u32 = 8;

/// The operations of module `k`. The error comes only when out of memory.
pub fn module_ops(alloc: Global, k: u32, draws: &mut Draws) -> Result<Vec<NewOp>, AllocError>
    ensures ops { IfOk result (λ ops. map op_seen ops.items ≡ first_ops draws.old.state ++ last_ops k) }
    ensures state { draws.new.state ≡ state_after draws.old.state 4 }
{
    let ops = first_ops(alloc, draws)?;
    if k == 0 {
        return with_end(alloc, ops, 4);
    }
    let ops = with_instance(alloc, ops, (k - 1) / 2)?;
    with_end(alloc, ops, 5)
}

/// The operations that each module has.
fn first_ops(alloc: Global, draws: &mut Draws) -> Result<Vec<NewOp>, AllocError>
    ensures ops { IfOk result (λ ops. map op_seen ops.items ≡ first_ops draws.old.state) }
    ensures state { draws.new.state ≡ state_after draws.old.state 4 }
{
    let drawn = draws.draw_four();
    let a = Value::Port(2);
    let b = Value::Port(3);
    let constant = OpKind::Constant(Integer::NonNegative(u128::from(drawn.constant)));
    let mut ops = Vec::with_capacity(alloc, MOST_OPS as usize)?;
    ops.push(word_op(alloc, constant, &[])?)?;
    ops.push(word_op(alloc, chosen_kind(drawn.first), &[a, b])?)?;
    ops.push(word_op(alloc, chosen_kind(drawn.second), &[value(1), value(0)])?)?;
    ops.push(word_op(alloc, chosen_kind(drawn.third), &[value(2), value(1)])?)?;
    ops.push(register_op(alloc)?)?;
    Ok(ops)
}

/// An instance of module `j` after the others.
fn with_instance(alloc: Global, ops: Vec<NewOp>, j: u32) -> Result<Vec<NewOp>, AllocError>
    ensures { IfOk result (λ all. map op_seen all.items ≡ map op_seen ops.items ++ instance_op j ∷ []) }
{
    let mut all = ops;
    all.push(instance_op(alloc, j)?)?;
    Ok(all)
}

/// The last operations after the others, where operation `i` gives what the module has from its instance.
fn with_end(alloc: Global, ops: Vec<NewOp>, i: u32) -> Result<Vec<NewOp>, AllocError>
    requires { i < 8 }
    ensures { IfOk result (λ all. map op_seen all.items ≡ map op_seen ops.items ++ xor_op i ∷ output_op (i + 1) ∷ []) }
{
    let mut all = ops;
    all.push(word_op(alloc, OpKind::Xor, &[value(i), value(2)])?)?;
    all.push(output_op(alloc, i + 1)?)?;
    Ok(all)
}

/// The result of operation `i`.
fn value(i: u32) -> Value
    ensures { result ≡ Result (op_id i) 0 }
{
    Value::Result(OpId::nth(i), 0)
}

/// The kind that a number chooses.
fn chosen_kind(number: u32) -> OpKind
    ensures { kind_of result ≡ chosen_kind number }
{
    match number % 8 {
        0 => OpKind::Add,
        1 => OpKind::Sub,
        2 => OpKind::Mul,
        3 => OpKind::And,
        4 => OpKind::Or,
        5 => OpKind::Xor,
        6 => OpKind::Shl,
        _ => OpKind::Shrs,
    }
}

/// An operation without a name, with a result.
fn word_op(alloc: Global, kind: OpKind, operands: &[Value]) -> Result<NewOp, AllocError>
    ensures { IfOk result (λ op. op_seen op ≡ word_op (kind_of kind) (map (ref_by (λ i. i)) operands.now)) }
{
    NewOp::of_type(alloc, kind, operands, &Ty::Int(WIDTH), Location::start())
}

/// The register.
fn register_op(alloc: Global) -> Result<NewOp, AllocError>
    ensures { IfOk result (λ op. op_seen op ≡ register_op) }
{
    let operands = [value(3), Value::Port(0), Value::Port(1), value(0)];
    let mut op = word_op(alloc, OpKind::CompReg(Reset::Sync), &operands)?;
    op.name = Text::of(alloc, b"q")?;
    Ok(op)
}

/// An instance of module `j`.
fn instance_op(alloc: Global, j: u32) -> Result<NewOp, AllocError>
    ensures { IfOk result (λ op. op_seen op ≡ instance_op j) }
{
    let kind = OpKind::Instance(Box::new(alloc, instance_of_module(alloc, j)?)?);
    let operands = [Value::Port(0), Value::Port(1), value(4), value(3)];
    let mut op = word_op(alloc, kind, &operands)?;
    op.types = TyList::of(vec![in alloc;
        Ty::Clock,
        Ty::Int(1),
        Ty::Int(WIDTH),
        Ty::Int(WIDTH),
        Ty::Int(WIDTH),
    ]?);
    Ok(op)
}

/// What an instance of module `j` says besides operands and types.
fn instance_of_module(alloc: Global, j: u32) -> Result<Instance, AllocError>
    ensures { IfOk result (λ i. instance_of i ≡ instance_of_module j) }
{
    Ok(Instance {
        name: Text::of(alloc, b"u")?,
        inner_symbol: None,
        symbol: module_symbol(alloc, j)?,
        inputs: input_names(alloc)?,
        outputs: vec![in alloc; Text::of(alloc, b"c")?]?,
    })
}

/// The names of a module's inputs.
fn input_names(alloc: Global) -> Result<Vec<Text>, AllocError>
    ensures { IfOk result (λ names. names.items ≡ codes "clk" ∷ codes "rst" ∷ codes "a" ∷ codes "b" ∷ []) }
{
    let names = vec![in alloc;
        Text::of(alloc, b"clk")?,
        Text::of(alloc, b"rst")?,
        Text::of(alloc, b"a")?,
        Text::of(alloc, b"b")?,
    ]?;
    Ok(names)
}

/// The output, which operation `i` gives.
fn output_op(alloc: Global, i: u32) -> Result<NewOp, AllocError>
    ensures { IfOk result (λ op. op_seen op ≡ output_op i) }
{
    let mut op = word_op(alloc, OpKind::Output, &[value(i)])?;
    op.results = NewResultList::new();
    op.named = 0;
    Ok(op)
}
