//! The registers of a module, through its instances.
ghost use Rattle.std.specs.Prelude.{◌≡◌, ◌+◌, ◌-◌, [], ◌++◌, ◌<◌, length, map, cond, IfOk, OnOk, OnErr, IsErrOf, ◌^◌, suc, true, Option, Some, None, option_map};
ghost use Rattle.hw_model.specs.Design.{find_module, is_instance};
ghost use Rattle.hw_model.specs.Flat.{instances, module_registers, body_registers, op_registers, registers, register_in, async_reset_in, depth};
ghost use Rattle.hw_model.specs.RegisterViews.{register_of, reset_by_of};
ghost use Rattle.hw_interpreter.specs.DesignViews.{ref_of, op_of, module_of};
ghost use Rattle.hw_interpreter.specs.Registers.{slot_of};
ghost use Rattle.hw_interpreter.specs.SuitsWithin.{HasFewInstances};
ghost use Rattle.operation_values.specs.declared.refusal.Refusal.TheVariants.{NotFitting};

use crate::design::{Module, Operand, Operation};
use crate::modules::{depth_of, find_module, instance_in, is_instance, is_register};
use crate::nets::inner_path;
use hw_model::registers::{Register, ResetBy, async_reset_of, register_of};
use operation_values::refusal::Refusal;
use std::alloc::Global;

/// A register of a module: the path of instances to it, the innermost first, and its operation.
#[derive(Drop)]
pub struct Slot<'a> {
    /// The path.
    pub path: Vec<u32>,
    /// The operation.
    pub operation: &'a Operation,
}

/// The register that an operation is.
pub fn register_in(operation: &Operation) -> Option<Register<Operand>>
    ensures { option_map (register_of ref_of) result ≡ register_in (op_of operation.now) }
{
    register_of(&operation.kind, operation.operands.as_slice())
}

/// What resets a register without its clock, and to what.
pub fn async_reset_in(operation: &Operation) -> Option<ResetBy<Operand>>
    ensures { option_map (reset_by_of ref_of) result ≡ async_reset_in (op_of operation.now) }
{
    async_reset_of(&operation.kind, operation.operands.as_slice())
}

/// The registers of the module of a symbol, in the order of its content.
pub fn registers<'a>(
    alloc: Global,
    modules: &'a [Module],
    top: &[u8],
) -> Result<Vec<Slot<'a>>, Refusal>
    ensures value { IfOk result (λ slots. map slot_of slots.items ≡ registers (map module_of modules.now) top.now) }
    ensures refuses { IsErrOf result NotFitting → ¬ HasFewInstances (map module_of modules.now) }
{
    let mut slots = Vec::new(alloc);
    push_module(alloc, &mut slots, modules, depth_of(modules), &[], top)?;
    Ok(slots)
}

// puts after the registers of the module of a symbol at the end of a path, down to a depth of instances
#[cycle(registers)]
fn push_module<'a>(
    alloc: Global,
    slots: &mut Vec<Slot<'a>>,
    modules: &'a [Module],
    depth: u128,
    path: &[u32],
    symbol: &[u8],
) -> Result<(), Refusal>
    ensures value { OnOk result (map slot_of slots.new.items ≡ map slot_of slots.old.items ++ module_registers depth (map module_of modules.now) path.now symbol.now) }
    ensures refuses { IsErrOf result NotFitting → ¬ HasFewInstances (map module_of modules.now) }
{
    if depth == 0 {
        return Ok(());
    }
    match find_module(modules, symbol) {
        None => Ok(()),
        Some(own) => push_body(alloc, slots, modules, depth - 1, path, own.body.as_slice()),
    }
}

// puts after the registers of a body
#[cycle(registers)]
fn push_body<'a>(
    alloc: Global,
    slots: &mut Vec<Slot<'a>>,
    modules: &'a [Module],
    depth: u128,
    path: &[u32],
    body: &'a [Operation],
) -> Result<(), Refusal>
    ensures value { OnOk result (map slot_of slots.new.items ≡ map slot_of slots.old.items ++ body_registers (module_registers depth (map module_of modules.now)) path.now 0 (map op_of body.now)) }
    ensures refuses { IsErrOf result NotFitting → length (instances (map op_of body.now)) < 2 ^ 32 → ¬ HasFewInstances (map module_of modules.now) }
{
    let mut number = 0;
    for operation in body {
        push_operation(alloc, slots, modules, depth, path, number, operation)?;
        number = next_number(number, operation)?;
    }
    Ok(())
}

// puts after the registers of an operation that `number` instances stand before
#[cycle(registers)]
fn push_operation<'a>(
    alloc: Global,
    slots: &mut Vec<Slot<'a>>,
    modules: &'a [Module],
    depth: u128,
    path: &[u32],
    number: u32,
    operation: &'a Operation,
) -> Result<(), Refusal>
    ensures value { OnOk result (map slot_of slots.new.items ≡ map slot_of slots.old.items ++ op_registers (module_registers depth (map module_of modules.now)) path.now number (op_of operation.now)) }
    ensures refuses { IsErrOf result NotFitting → ¬ HasFewInstances (map module_of modules.now) }
{
    if is_register(operation) {
        let path = Vec::from_slice(alloc, path)?;
        slots.push(Slot { path, operation })?;
        return Ok(());
    }
    match instance_in(operation) {
        None => Ok(()),
        Some(instance) => {
            let inner = inner_path(alloc, number, path)?;
            push_module(
                alloc,
                slots,
                modules,
                depth,
                inner.as_slice(),
                instance.symbol.as_bytes(),
            )
        }
    }
}

// the number of instances with this operation
fn next_number(number: u32, operation: &Operation) -> Result<u32, Refusal>
    ensures value { IfOk result (λ n. n ≡ cond (is_instance (op_of operation.now)) (suc number) number) }
    ensures refuses { OnErr result ((number ≡ 2 ^ 32 - 1) × (is_instance (op_of operation.now) ≡ true)) }
{
    if !is_instance(operation) {
        return Ok(number);
    }
    match number.checked_add(1) {
        Some(next) => Ok(next),
        None => Err(Refusal::NotFitting),
    }
}
