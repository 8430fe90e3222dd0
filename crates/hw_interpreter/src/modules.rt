//! Modules by symbol and by path, and the bits of content of modules.
ghost use Rattle.std.specs.Prelude.{◌≡◌, ◌+◌, [], ◌≤◌, ◌<◌, length, take, map, IfOk, OnErr, ◌^◌, Option, Some, None, option_map, slice_get, option_and_then};
ghost use Rattle.hw_model.specs.KindViews.{kind_of, instance_of};
ghost use Rattle.hw_model.specs.Design.{find_module, instance_in, is_instance, is_register, callee, output_refs};
ghost use Rattle.hw_model.specs.Flat.{instances, before_instance, module_at, op_state, body_state, module_state, state, state_before, base, held_width, depth, offset};
ghost use Rattle.hw_interpreter.specs.DesignViews.{ref_of, op_of, module_of};
ghost use Rattle.operation_values.specs.Suits.{IsCounted};

use crate::design::{Module, Operand, Operation};
use hw_model::kinds::{Instance, OpKind};
use operation_values::operands::exact_width;
use operation_values::refusal::Refusal;

/// The first module of a symbol.
pub fn find_module<'a>(modules: &'a [Module], symbol: &[u8]) -> Option<&'a Module>
    ensures { option_map (λ m. module_of m.now) result ≡ find_module (map module_of modules.now) symbol.now }
{
    for module in modules {
        if module.symbol.as_bytes() == symbol {
            return Some(module);
        }
    }
    None
}

/// The instance that an operation is.
pub fn instance_in(operation: &Operation) -> Option<&Instance>
    ensures { option_map (λ i. instance_of i.now) result ≡ instance_in (kind_of operation.now.kind) }
{
    match &operation.kind {
        OpKind::Instance(instance) => Some(&**instance),
        _ => None,
    }
}

/// Whether an operation is an instance.
pub fn is_instance(operation: &Operation) -> bool
    ensures { result ≡ is_instance (op_of operation.now) }
{
    matches!(operation.kind, OpKind::Instance(_))
}

/// Whether an operation is a register.
pub fn is_register(operation: &Operation) -> bool
    ensures { result ≡ is_register (op_of operation.now) }
{
    matches!(
        operation.kind,
        OpKind::CompReg(_) | OpKind::CompRegCe(_) | OpKind::FirReg(_) | OpKind::AsyncFirReg
    )
}

/// The module that an operation instances.
pub fn callee<'a>(modules: &'a [Module], operation: &Operation) -> Option<&'a Module>
    ensures { option_map (λ m. module_of m.now) result ≡ callee (map module_of modules.now) (op_of operation.now) }
{
    match instance_in(operation) {
        None => None,
        Some(instance) => find_module(modules, instance.symbol.as_bytes()),
    }
}

/// The instance of that number in a body.
pub fn instance_at(body: &[Operation], number: u32) -> Option<&Operation>
    ensures { option_map (λ o. op_of o.now) result ≡ slice_get (instances (map op_of body.now)) number }
{
    match body {
        [] => None,
        [first, rest @ ..] => {
            if !is_instance(first) {
                return instance_at(rest, number);
            }
            if number == 0 {
                return Some(first);
            }
            instance_at(rest, number - 1)
        }
    }
}

/// The operations before the instance of that number.
pub fn before_instance(body: &[Operation], number: u32) -> &[Operation]
    ensures { map op_of result.now ≡ before_instance number (map op_of body.now) }
{
    body.split_at(count_before(body, number)).0
}

// how many operations stand before the instance of that number
fn count_before(body: &[Operation], number: u32) -> usize
    ensures within { result ≤ length body.now }
    ensures value { map op_of (take result body.now) ≡ before_instance number (map op_of body.now) }
{
    match body {
        [] => 0,
        [first, rest @ ..] => {
            if !is_instance(first) {
                return 1 + count_before(rest, number);
            }
            if number == 0 {
                return 0;
            }
            1 + count_before(rest, number - 1)
        }
    }
}

/// The module at the end of a path, the innermost instance first.
pub fn module_at<'a>(modules: &'a [Module], top: &[u8], path: &[u32]) -> Option<&'a Module>
    ensures { option_map (λ m. module_of m.now) result ≡ module_at (map module_of modules.now) top.now path.now }
{
    match path {
        [] => find_module(modules, top),
        [number, outer @ ..] => match module_at(modules, top, outer) {
            None => None,
            Some(module) => called_at(modules, module, *number),
        },
    }
}

// the module that the instance of that number instances
fn called_at<'a>(modules: &'a [Module], inside: &'a Module, number: u32) -> Option<&'a Module>
    ensures { option_map (λ m. module_of m.now) result
        ≡ option_and_then (callee (map module_of modules.now)) (slice_get (instances (map op_of inside.now.body.items)) number) }
{
    match instance_at(inside.body.as_slice(), number) {
        None => None,
        Some(operation) => callee(modules, operation),
    }
}

/// How many bits a register holds.
pub fn held_width(operation: &Operation) -> Result<u64, Refusal>
    ensures value { IfOk result (λ w. w ≡ held_width (op_of operation.now)) }
    ensures refuses { OnErr result (¬ IsCounted (held_width (op_of operation.now))) }
{
    match operation.results.as_slice() {
        [] => Ok(0),
        [ty, ..] => exact_width(ty),
    }
}

/// How many bits of content the module of a symbol has, down to a depth of instances.
#[cycle(content_width)]
pub fn module_state(modules: &[Module], depth: u128, symbol: &[u8]) -> Result<u64, Refusal>
    ensures value { IfOk result (λ n. n ≡ module_state depth (map module_of modules.now) symbol.now) }
    ensures refuses { OnErr result (¬ IsCounted (module_state depth (map module_of modules.now) symbol.now)) }
{
    if depth == 0 {
        return Ok(0);
    }
    match find_module(modules, symbol) {
        None => Ok(0),
        Some(module) => body_state(modules, depth - 1, module.body.as_slice()),
    }
}

/// How many bits of content operations have, down to a depth of instances.
#[cycle(content_width)]
pub fn body_state(modules: &[Module], depth: u128, body: &[Operation]) -> Result<u64, Refusal>
    ensures value { IfOk result (λ n. n ≡ body_state (module_state depth (map module_of modules.now)) (map op_of body.now)) }
    ensures refuses { OnErr result (¬ IsCounted (body_state (module_state depth (map module_of modules.now)) (map op_of body.now))) }
{
    let mut sum = 0;
    for operation in body {
        let more = op_state(modules, depth, operation)?;
        sum = sum_of(sum, more)?;
    }
    Ok(sum)
}

#[cycle(content_width)]
fn op_state(modules: &[Module], depth: u128, operation: &Operation) -> Result<u64, Refusal>
    ensures value { IfOk result (λ n. n ≡ op_state (module_state depth (map module_of modules.now)) (op_of operation.now)) }
    ensures refuses { OnErr result (¬ IsCounted (op_state (module_state depth (map module_of modules.now)) (op_of operation.now))) }
{
    if is_register(operation) {
        return held_width(operation);
    }
    match instance_in(operation) {
        None => Ok(0),
        Some(instance) => module_state(modules, depth, instance.symbol.as_bytes()),
    }
}

/// The sum, or a refusal where it is too large to count.
pub fn sum_of(a: u64, b: u64) -> Result<u64, Refusal>
    ensures value { IfOk result (λ n. n ≡ a + b) }
    ensures refuses { OnErr result (2 ^ 64 ≤ a + b) }
{
    match a.checked_add(b) {
        Some(sum) => Ok(sum),
        None => Err(Refusal::NotFitting),
    }
}

/// How many bits of content operations of a design have.
pub fn content_of(modules: &[Module], body: &[Operation]) -> Result<u64, Refusal>
    ensures value { IfOk result (λ n. n ≡ body_state (state (map module_of modules.now)) (map op_of body.now)) }
    ensures refuses { OnErr result (¬ IsCounted (body_state (state (map module_of modules.now)) (map op_of body.now))) }
{
    body_state(modules, depth_of(modules), body)
}

/// A depth that no chain of instances exceeds.
pub fn depth_of(modules: &[Module]) -> u128
    ensures { result ≡ depth (map module_of modules.now) }
{
    modules.len() as u128 + 1
}

// how many bits of content stand before the instance of that number
fn content_before(modules: &[Module], inside: &Module, number: u32) -> Result<u64, Refusal>
    ensures value { IfOk result (λ n. n ≡ state_before (map module_of modules.now) number (Some (module_of inside.now))) }
    ensures refuses { OnErr result (¬ IsCounted (state_before (map module_of modules.now) number (Some (module_of inside.now)))) }
{
    content_of(modules, before_instance(inside.body.as_slice(), number))
}

/// Where the content of the module at the end of a path begins.
pub fn base(modules: &[Module], top: &[u8], path: &[u32]) -> Result<u64, Refusal>
    ensures value { IfOk result (λ n. n ≡ base (map module_of modules.now) top.now path.now) }
    ensures refuses { OnErr result (¬ IsCounted (base (map module_of modules.now) top.now path.now)) }
{
    match path {
        [] => Ok(0),
        [number, outer @ ..] => {
            let start = base(modules, top, outer)?;
            match module_at(modules, top, outer) {
                None => Ok(start),
                Some(inside) => {
                    let before = content_before(modules, inside, *number)?;
                    sum_of(start, before)
                }
            }
        }
    }
}

// how many bits of content stand before a position of a module
fn content_up_to(modules: &[Module], inside: &Module, position: u32) -> Result<u64, Refusal>
    ensures value { IfOk result (λ n. n ≡ body_state (state (map module_of modules.now)) (take position (module_of inside.now).body)) }
    ensures refuses { OnErr result (¬ IsCounted (body_state (state (map module_of modules.now)) (take position (module_of inside.now).body))) }
{
    content_of(modules, first_operations(inside.body.as_slice(), position))
}

/// Where the content of the operation at a position of the module at the end of a path begins.
pub fn offset(
    modules: &[Module],
    top: &[u8],
    path: &[u32],
    inside: &Module,
    position: u32,
) -> Result<u64, Refusal>
    ensures value { IfOk result (λ n. n ≡ offset (map module_of modules.now) top.now path.now (module_of inside.now) position) }
    ensures refuses { OnErr result (¬ IsCounted (offset (map module_of modules.now) top.now path.now (module_of inside.now) position)) }
{
    let start = base(modules, top, path)?;
    let before = content_up_to(modules, inside, position)?;
    sum_of(start, before)
}

/// The first operations of a body, as many as there are.
pub fn first_operations(body: &[Operation], count: u32) -> &[Operation]
    ensures { map op_of result.now ≡ take count (map op_of body.now) }
{
    if count as usize >= body.len() {
        return body;
    }
    body.split_at(count as usize).0
}

/// The number of instances among operations.
pub fn instance_count(body: &[Operation]) -> Result<u32, Refusal>
    ensures value { IfOk result (λ n. n ≡ length (instances (map op_of body.now))) }
    ensures refuses { OnErr result (2 ^ 32 ≤ length (instances (map op_of body.now))) }
{
    match body {
        [] => Ok(0),
        [first, rest @ ..] => {
            let count = instance_count(rest)?;
            if !is_instance(first) {
                return Ok(count);
            }
            match count.checked_add(1) {
                Some(count) => Ok(count),
                None => Err(Refusal::NotFitting),
            }
        }
    }
}

/// What a module gives to its output ports: the operands of its first `hw.output`.
pub fn output_operands(body: &[Operation]) -> &[Operand]
    ensures { map ref_of result.now ≡ output_refs (map op_of body.now) }
{
    match body {
        [] => &[],
        [first, rest @ ..] => match first.kind {
            OpKind::Output => first.operands.as_slice(),
            _ => output_operands(rest),
        },
    }
}
