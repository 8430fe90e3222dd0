//! By which rule an operation is lowered.
ghost use Rattle.std.specs.Prelude.{◌≡◌, cond, ◌&&◌};
ghost use Rattle.hw_model.specs.Kinds.{Kind};
ghost use Rattle.hw_model.specs.Kinds.Kind.{on_array, on_struct};
ghost use Rattle.hw_model.specs.KindViews.{kind_of};
ghost use Rattle.hw_model.specs.FamilyViews.{array_op_of, struct_op_of};
ghost use Rattle.hw_model.specs.Value.{nth_type};
ghost use Rattle.hw_model.specs.Design.{Op as HwOp};
ghost use Rattle.aggregate_laws.specs.OperationRules.{stays_rule};
ghost use Rattle.aggregate_laws.specs.Bitcasts.{bitcast_rule};
ghost use Rattle.aggregate_laws.specs.Aggregates.{is_scalar, first_type, register_by, rule_of};
ghost use Rattle.lowering_rules.specs.Reading.{plain_of};
ghost use Rattle.lowering_rules.specs.FormRules.{form_rule, register_form_of};

use crate::leaf_types::is_scalar;
use hw_model::families::{ArrayOp, Family, StructOp};
use hw_model::kinds::{Instance, LiteralList, Reset};
use io_edge::byte_text::Text;
use ir_store::body::Op;

/// The operands of a register, but for data and clock: whether it has an enable, and what resets it.
#[derive(Clone, Copy)]
pub struct RegisterForm {
    /// Whether it has an enable.
    pub enable: bool,
    /// What resets it.
    pub reset: Reset,
}

/// What becomes of an operation.
#[derive(Clone, Copy)]
pub enum Form<'k> {
    /// The operation with other operands.
    Stays,
    /// Wires with names, for the operands' leaves.
    Wires,
    /// Wires without names, for the operands' leaves.
    Join,
    /// Wires for the leaves of a field.
    Extract(&'k Text),
    /// Wires for the leaves of a struct with another field.
    Inject(&'k Text),
    /// A multiplexer for each leaf.
    Mux,
    /// A constant for each leaf.
    Constant(&'k LiteralList),
    /// Multiplexers that choose among the elements of an array.
    Get,
    /// Multiplexers that choose among the elements of an array, for each element of another one.
    Slice,
    /// A multiplexer for each leaf, which an index decides.
    ArrayInject,
    /// Extracts, joined.
    Bitcast,
    /// The register with other operands.
    OneRegister(RegisterForm),
    /// A register for each leaf.
    Registers(RegisterForm),
    /// An instance with the leaves of its operands and results.
    Instance(&'k Instance),
    /// An output with the leaves of its operands.
    Output,
}

/// What becomes of an operation of this kind and these types.
pub fn form_of<'k>(op: &Op<'k>) -> Form<'k>
    ensures { (named : HwOp → Kind) → form_rule named result (plain_of op.now) ≡ rule_of named (plain_of op.now) (kind_of op.now.kind.now) }
{
    match op.kind.family() {
        Family::Mux => unless_scalar(op, Form::Mux),
        Family::Wire => unless_scalar(op, Form::Wires),
        Family::Bitcast => bitcast_form(op),
        Family::AggregateConstant(list) => Form::Constant(list),
        Family::Array(array) => array_form(array),
        Family::Struct(structure) => struct_form(structure),
        Family::Instance(instance) => Form::Instance(instance),
        Family::Output => Form::Output,
        Family::Register(register, reset) => {
            let enable = register.takes_enable();
            register_form(op, RegisterForm { enable, reset })
        }
        Family::AsyncFirReg => register_form(
            op,
            RegisterForm {
                enable: false,
                reset: Reset::Sync,
            },
        ),
        _ => Form::Stays,
    }
}

// What becomes of an operation that stays where its first result has no parts.
fn unless_scalar<'k>(op: &Op<'k>, other: Form<'k>) -> Form<'k>
    ensures { (named : HwOp → Kind) → form_rule named result (plain_of op.now) ≡ cond (is_scalar (first_type (plain_of op.now))) (stays_rule (plain_of op.now)) (form_rule named other.entry (plain_of op.now)) }
{
    if is_scalar_result(op) {
        Form::Stays
    } else {
        other
    }
}

// What becomes of a bitcast.
fn bitcast_form<'k>(op: &Op<'k>) -> Form<'k>
    ensures { (named : HwOp → Kind) → form_rule named result (plain_of op.now) ≡ cond (is_scalar (first_type (plain_of op.now)) && is_scalar (nth_type (plain_of op.now).types 0)) (stays_rule (plain_of op.now)) (bitcast_rule (plain_of op.now) (nth_type (plain_of op.now).types 0)) }
{
    if is_scalar_result(op) && is_scalar_operand(op) {
        Form::Stays
    } else {
        Form::Bitcast
    }
}

// What becomes of an operation on arrays.
fn array_form<'k>(array: ArrayOp) -> Form<'k>
    ensures { (named : HwOp → Kind) (o : HwOp) → form_rule named result o ≡ rule_of named o (on_array (array_op_of array)) }
{
    match array {
        ArrayOp::Create | ArrayOp::Concat => Form::Join,
        ArrayOp::Get => Form::Get,
        ArrayOp::Slice => Form::Slice,
        ArrayOp::Inject => Form::ArrayInject,
    }
}

// What becomes of an operation on structs.
fn struct_form<'k>(structure: StructOp<'k>) -> Form<'k>
    ensures { (named : HwOp → Kind) (o : HwOp) → form_rule named result o ≡ rule_of named o (on_struct (struct_op_of structure.entry)) }
{
    match structure {
        StructOp::Create | StructOp::Explode => Form::Join,
        StructOp::Extract(name) => Form::Extract(name),
        StructOp::Inject(name) => Form::Inject(name),
    }
}

// What becomes of a register.
fn register_form<'k>(op: &Op<'k>, form: RegisterForm) -> Form<'k>
    ensures { (named : HwOp → Kind) → form_rule named result (plain_of op.now) ≡ register_by (plain_of op.now) (register_form_of form) }
{
    if is_scalar_result(op) {
        Form::OneRegister(form)
    } else {
        Form::Registers(form)
    }
}

// Whether the first result has no parts.
fn is_scalar_result(op: &Op<'_>) -> bool
    ensures { result ≡ is_scalar (first_type (plain_of op.now)) }
{
    match op.results.as_slice().first() {
        Some(one) => is_scalar(&one.ty),
        None => false,
    }
}

// Whether the first type that is written has no parts.
fn is_scalar_operand(op: &Op<'_>) -> bool
    ensures { result ≡ is_scalar (nth_type (plain_of op.now).types 0) }
{
    match op.types.as_slice().first() {
        Some(ty) => is_scalar(ty),
        None => false,
    }
}
