//! What each operation becomes.
ghost use Rattle.std.specs.Prelude.{◌≡◌, ◌++◌, ◌∷◌, [], map, IfOk, OnOk};
ghost use Rattle.std.specs.List.{flat_map};
ghost use Rattle.hw_model.specs.Types.{leaves};
ghost use Rattle.hw_model.specs.TypeViews.{type_of};
ghost use Rattle.hw_model.specs.KindViews.{kind_of};
ghost use Rattle.ir_store.specs.Designs.{design_of};
ghost use Rattle.ir_store.specs.OperationViews.{types_in, results_in};
ghost use Rattle.aggregate_laws.specs.Leaves.{bare_result};
ghost use Rattle.aggregate_laws.specs.OperationRules.{all_leaves, join_rule, extract_rule, inject_rule, register_rule, register_stays_rule, spread_rule};
ghost use Rattle.aggregate_laws.specs.Aggregates.{name_at, own_names, rule_of};
ghost use Rattle.lowering_rules.specs.Callees.{AreCallees};
ghost use Rattle.lowering_rules.specs.FormRules.{register_form_of};
ghost use Rattle.lowering_rules.specs.LeafTables.{arguments_of};
ghost use Rattle.lowering_rules.specs.LoweringRules.{leaf_named};
ghost use Rattle.lowering_rules.specs.Made.{made_in};
ghost use Rattle.lowering_rules.specs.Reading.{plain_of, new_refs};

use crate::arguments::Arguments;
use crate::bitcast_rules::put_bitcast;
use crate::choice_rules::{put_array_inject, put_get, put_slice};
use crate::forms::{Form, RegisterForm, form_of};
use crate::instances::{Callees, instance_kind};
use crate::leaf_types::push_leaves;
use crate::leafwise_rules::{own_names, put_constants, put_muxes, put_registers, put_wires};
use crate::made_ops::put;
use crate::register_operands::leaf_operands;
use crate::struct_parts::{field_parts, operand_fields, with_field_parts};
use crate::written_types::{count_of, first_leaves, result_leaves};
use hw_model::kinds::OpKind;
use hw_model::types::Ty;
use io_edge::byte_text::Text;
use ir_store::body::Op;
use ir_store::operation::{NewOp, NewResult, NewResultList, TyList, Value};
use smallvec::SmallVec;
use std::alloc::{AllocError, Global};

/// Puts what an operation becomes after others, beginning at a position.
pub fn put_block(
    alloc: Global,
    made: &mut Vec<NewOp>,
    callees: &Callees<'_>,
    op: &Op<'_>,
    arguments: Arguments<'_>,
    start: u32,
) -> Result<(), AllocError>
    requires { AreCallees callees.now }
    ensures { OnOk result (made_in made.new.items ≡ made_in made.old.items ++ (rule_of (leaf_named (design_of callees.now.design.now)) (plain_of op.now) (kind_of op.now.kind.now)).made (arguments_of arguments.entry) start) }
{
    let leaves = result_leaves(alloc, op)?;
    let leaves = leaves.as_slice();
    match form_of(op) {
        Form::Stays => put_stays(alloc, made, op, arguments.concat(alloc)?),
        Form::Wires => put_named(alloc, made, op, leaves, arguments),
        Form::Join => put_join(alloc, made, op, leaves, &[], arguments),
        Form::Extract(name) => put_field(alloc, made, op, leaves, name, arguments),
        Form::Inject(name) => put_with_field(alloc, made, op, leaves, name, arguments),
        Form::Mux => put_muxes(alloc, made, op, leaves, arguments),
        Form::Constant(list) => put_constants(alloc, made, op, leaves, &list.literals),
        Form::Get => put_get(alloc, made, op, leaves, arguments, start),
        Form::Slice => put_slice(alloc, made, op, leaves, arguments, start),
        Form::ArrayInject => put_array_inject(alloc, made, op, leaves, arguments, start),
        Form::Bitcast => put_bitcast(alloc, made, op, leaves, arguments.nth(0), start),
        Form::OneRegister(form) => put_register(alloc, made, op, form, arguments),
        Form::Registers(form) => put_own_registers(alloc, made, op, form, arguments),
        Form::Instance(instance) => {
            let kind = instance_kind(alloc, callees, instance)?;
            put_spread(alloc, made, op, kind, leaves, arguments)
        }
        Form::Output => put_spread(alloc, made, op, OpKind::Output, leaves, arguments),
    }
}

// Wires with the operation's own name, for the leaves of all operands.
fn put_named(
    alloc: Global,
    made: &mut Vec<NewOp>,
    op: &Op<'_>,
    leaves: &[Ty],
    arguments: Arguments<'_>,
) -> Result<(), AllocError>
    requires { map type_of leaves.now ≡ all_leaves (plain_of op.now) }
    ensures { OnOk result (made_in made.new.items ≡ made_in made.old.items ++ (join_rule (plain_of op.now) (own_names (plain_of op.now))).made (arguments_of arguments.entry) 0) }
{
    let names = own_names(alloc, op)?;
    put_join(alloc, made, op, leaves, names.as_slice(), arguments)
}

// Wires for the leaves of all operands.
fn put_join(
    alloc: Global,
    made: &mut Vec<NewOp>,
    op: &Op<'_>,
    leaves: &[Ty],
    names: &[Text],
    arguments: Arguments<'_>,
) -> Result<(), AllocError>
    requires { map type_of leaves.now ≡ all_leaves (plain_of op.now) }
    ensures { OnOk result (made_in made.new.items ≡ made_in made.old.items ++ (join_rule (plain_of op.now) (name_at names.now)).made (arguments_of arguments.entry) 0) }
{
    let values = arguments.concat(alloc)?;
    put_wires(alloc, made, op, leaves, names, values.as_slice())
}

// Wires for the leaves of a field.
fn put_field(
    alloc: Global,
    made: &mut Vec<NewOp>,
    op: &Op<'_>,
    leaves: &[Ty],
    name: &Text,
    arguments: Arguments<'_>,
) -> Result<(), AllocError>
    requires { map type_of leaves.now ≡ all_leaves (plain_of op.now) }
    ensures { OnOk result (made_in made.new.items ≡ made_in made.old.items ++ (extract_rule (plain_of op.now) name.now).made (arguments_of arguments.entry) 0) }
{
    let values = field_parts(operand_fields(op), name, arguments.nth(0))?;
    put_wires(alloc, made, op, leaves, &[], values)
}

// Wires for the leaves of a struct with another field.
fn put_with_field(
    alloc: Global,
    made: &mut Vec<NewOp>,
    op: &Op<'_>,
    leaves: &[Ty],
    name: &Text,
    arguments: Arguments<'_>,
) -> Result<(), AllocError>
    requires { map type_of leaves.now ≡ all_leaves (plain_of op.now) }
    ensures { OnOk result (made_in made.new.items ≡ made_in made.old.items ++ (inject_rule (plain_of op.now) name.now).made (arguments_of arguments.entry) 0) }
{
    let fields = operand_fields(op);
    let values = with_field_parts(alloc, fields, name, arguments.nth(0), arguments.nth(1))?;
    put_wires(alloc, made, op, leaves, &[], values.as_slice())
}

// A register for each leaf of the first result.
fn put_own_registers(
    alloc: Global,
    made: &mut Vec<NewOp>,
    op: &Op<'_>,
    form: RegisterForm,
    arguments: Arguments<'_>,
) -> Result<(), AllocError>
    ensures { OnOk result (made_in made.new.items ≡ made_in made.old.items ++ (register_rule (plain_of op.now) (register_form_of form) (own_names (plain_of op.now))).made (arguments_of arguments.entry) 0) }
{
    let leaves = first_leaves(alloc, op)?;
    put_registers(alloc, made, op, leaves.as_slice(), form, arguments)
}

// The register with what stands for its operands.
fn put_register(
    alloc: Global,
    made: &mut Vec<NewOp>,
    op: &Op<'_>,
    form: RegisterForm,
    arguments: Arguments<'_>,
) -> Result<(), AllocError>
    ensures { OnOk result (made_in made.new.items ≡ made_in made.old.items ++ (register_stays_rule (plain_of op.now) (register_form_of form)).made (arguments_of arguments.entry) 0) }
{
    let operands = leaf_operands(alloc, form, arguments, 0)?;
    put_stays(alloc, made, op, operands)
}

// The operation with other operands.
fn put_stays(
    alloc: Global,
    made: &mut Vec<NewOp>,
    op: &Op<'_>,
    operands: Vec<Value>,
) -> Result<(), AllocError>
    ensures { OnOk result (made_in made.new.items ≡ made_in made.old.items ++ record (plain_of op.now) { operands = new_refs operands.items } ∷ []) }
{
    let stays = NewOp {
        kind: op.kind.try_clone(alloc)?,
        operands: SmallVec::from_slice(alloc, operands.as_slice())?,
        types: op.types.try_clone(alloc)?,
        results: op.results.try_clone(alloc)?,
        named: op.named,
        name: op.name.try_clone(alloc)?,
        dictionary: op.dictionary.try_clone(alloc)?,
        bin: op.bin,
        location: op.location,
    };
    put(made, stays)
}

// The operation of a kind with the leaves of its operands and results.
fn put_spread(
    alloc: Global,
    made: &mut Vec<NewOp>,
    op: &Op<'_>,
    kind: OpKind,
    leaves: &[Ty],
    arguments: Arguments<'_>,
) -> Result<(), AllocError>
    requires { map type_of leaves.now ≡ all_leaves (plain_of op.now) }
    ensures { OnOk result (made_in made.new.items ≡ made_in made.old.items ++ (spread_rule (plain_of op.now) (kind_of kind)).made (arguments_of arguments.entry) 0) }
{
    let operands = arguments.concat(alloc)?;
    let spread = NewOp {
        kind,
        operands: SmallVec::from_slice(alloc, operands.as_slice())?,
        types: spread_types(alloc, op.types)?,
        results: bare_results(alloc, leaves)?,
        named: count_of(leaves.len())?,
        name: op.name.try_clone(alloc)?,
        dictionary: op.dictionary.try_clone(alloc)?,
        bin: op.bin,
        location: op.location,
    };
    put(made, spread)
}

// The leaves of types.
fn spread_types(alloc: Global, types: &TyList) -> Result<TyList, AllocError>
    ensures { IfOk result (λ all. types_in all ≡ flat_map leaves (types_in types.now)) }
{
    let mut leaves = Vec::new(alloc);
    for ty in types.as_slice() {
        push_leaves(&mut leaves, ty)?;
    }
    Ok(TyList::of(leaves))
}

// Results of these types.
fn bare_results(alloc: Global, types: &[Ty]) -> Result<NewResultList, AllocError>
    ensures { IfOk result (λ results. results_in results ≡ map bare_result (map type_of types.now)) }
{
    let mut results = NewResultList::with_room(alloc, types.len())?;
    for ty in types {
        results.push(
            alloc,
            NewResult {
                ty: ty.try_clone(alloc)?,
                again: false,
            },
        )?;
    }
    Ok(results)
}
