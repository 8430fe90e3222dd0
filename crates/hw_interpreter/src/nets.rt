//! The values of nets, their needs followed to a depth.
ghost use Rattle.std.specs.Prelude.{◌≡◌, ◌-◌, ◌∷◌, [], ◌<◌, length, take, map, cond, IfOk, OnErr, IsErrOf, Option, Some, None, option_map, slice_get};
ghost use Rattle.bits_core.specs.Word.{Word, first};
ghost use Rattle.hw_model.specs.TypeViews.{type_of};
ghost use Rattle.hw_model.specs.Design.{find_module, result_type, is_output_op};
ghost use Rattle.hw_model.specs.Flat.{Net, instances, net, input_width, input_of, input_source, port_source, result_source, op_source, copy_of, held_of, made_of, module_at, offset};
ghost use Rattle.hw_model.specs.Flat.Source.{nowhere};
ghost use Rattle.hw_interpreter.specs.DesignViews.{ref_of, op_of, port_of, module_of};
ghost use Rattle.hw_interpreter.specs.Depth.{value_from, value_within};
ghost use Rattle.operation_values.specs.Suits.{IsCounted};
ghost use Rattle.hw_interpreter.specs.SuitsWithin.{SuitsFrom, SuitsWithin, SuitsSource};
ghost use Rattle.operation_values.specs.declared.refusal.Refusal.TheVariants.{NotFitting};
ghost use Rattle.wiring.specs.Wiring.{In};
ghost use Rattle.hw_interpreter.specs.Ranges.{input_range_source};

use crate::design::{Module, Operand, Operation, Port, Setting};
use crate::joins::{first_ports, given_operand, joined_operand};
use crate::modules::{
    find_module, first_operations, instance_count, is_instance, is_register, module_at, offset,
    sum_of,
};
use hw_model::kinds::OpKind;
use hw_model::types::Ty;
use operation_values::bit_string::BitString;
use operation_values::operands::exact_width;
use operation_values::refusal::Refusal;
use operation_values::values::value_of;
use operation_values::word_parts::{bits_after, first_bits};
use std::alloc::{AllocError, Global};

/// A range of bits.
#[derive(Clone, Copy)]
pub struct Range {
    /// Where it begins.
    pub start: u64,
    /// How many bits it has.
    pub width: u64,
}

// an operation, by its position in the module at the end of a path of instances
#[derive(Clone, Copy)]
struct OperationPosition<'a> {
    path: &'a [u32],
    inside: &'a Module,
    position: u32,
    operation: &'a Operation,
}

/// The value of a net of a module: the operand of the body at the end of a path of instances, the innermost first, its
/// needs followed for fewer than `depth` steps.
#[cycle(net)]
pub fn net_value(
    alloc: Global,
    at: &Setting,
    depth: u32,
    path: &[u32],
    operand: Operand,
) -> Result<BitString, Refusal>
    ensures value { IfOk result (λ word. word ≡ value_within (map module_of at.now.modules.now) at.now.top.now at.now.inputs.now at.now.content.now depth (net path.now (ref_of operand))) }
    ensures refuses { IsErrOf result NotFitting → ¬ SuitsWithin (map module_of at.now.modules.now) at.now.top.now at.now.inputs.now at.now.content.now depth (net path.now (ref_of operand)) }
{
    if depth == 0 {
        return Ok(BitString::new(alloc));
    }
    match operand {
        Operand::Port(port) => port_value(alloc, at, depth - 1, path, port),
        Operand::OpResult(position, number) => result_value(
            alloc,
            at,
            depth - 1,
            path,
            position,
            number,
        ),
        Operand::Undefined => Ok(BitString::new(alloc)),
    }
}

// the value of a port of the module at the end of a path
#[cycle(net)]
fn port_value(
    alloc: Global,
    at: &Setting,
    depth: u32,
    path: &[u32],
    port: u32,
) -> Result<BitString, Refusal>
    ensures value { IfOk result (λ word. word ≡ value_from at.now.inputs.now at.now.content.now (value_within (map module_of at.now.modules.now) at.now.top.now at.now.inputs.now at.now.content.now depth)
        (port_source (map module_of at.now.modules.now) at.now.top.now path.now port)) }
    ensures refuses { IsErrOf result NotFitting → ¬ SuitsFrom (value_within (map module_of at.now.modules.now) at.now.top.now at.now.inputs.now at.now.content.now depth) (SuitsWithin (map module_of at.now.modules.now) at.now.top.now at.now.inputs.now at.now.content.now depth)
        (port_source (map module_of at.now.modules.now) at.now.top.now path.now port) }
{
    match path {
        [] => match input_range(at, port)? {
            None => Ok(BitString::new(alloc)),
            Some(range) => {
                let word = pad(alloc, bits_after(at.inputs, range.start), range.width)?;
                Ok(word)
            }
        },
        [number, outer @ ..] => {
            let operand = joined_operand(at, outer, *number, port);
            copied_value(alloc, at, depth, outer, operand)
        }
    }
}

// the value of the net that a net copies, if there is one
#[cycle(net)]
fn copied_value(
    alloc: Global,
    at: &Setting,
    depth: u32,
    path: &[u32],
    operand: Option<Operand>,
) -> Result<BitString, Refusal>
    ensures value { IfOk result (λ word. word ≡ value_from at.now.inputs.now at.now.content.now (value_within (map module_of at.now.modules.now) at.now.top.now at.now.inputs.now at.now.content.now depth)
        (copy_of path.now (option_map ref_of operand))) }
    ensures refuses { IsErrOf result NotFitting → ¬ SuitsFrom (value_within (map module_of at.now.modules.now) at.now.top.now at.now.inputs.now at.now.content.now depth) (SuitsWithin (map module_of at.now.modules.now) at.now.top.now at.now.inputs.now at.now.content.now depth)
        (copy_of path.now (option_map ref_of operand)) }
{
    match operand {
        None => Ok(BitString::new(alloc)),
        Some(operand) => net_value(alloc, at, depth, path, operand),
    }
}

// the value of a result of an operation of the module at the end of a path
#[cycle(net)]
fn result_value(
    alloc: Global,
    at: &Setting,
    depth: u32,
    path: &[u32],
    position: u32,
    number: u32,
) -> Result<BitString, Refusal>
    ensures value { IfOk result (λ word. word ≡ value_from at.now.inputs.now at.now.content.now (value_within (map module_of at.now.modules.now) at.now.top.now at.now.inputs.now at.now.content.now depth)
        (result_source (map module_of at.now.modules.now) at.now.top.now path.now position number (module_at (map module_of at.now.modules.now) at.now.top.now path.now))) }
    ensures refuses { IsErrOf result NotFitting → ¬ SuitsFrom (value_within (map module_of at.now.modules.now) at.now.top.now at.now.inputs.now at.now.content.now depth) (SuitsWithin (map module_of at.now.modules.now) at.now.top.now at.now.inputs.now at.now.content.now depth)
        (result_source (map module_of at.now.modules.now) at.now.top.now path.now position number (module_at (map module_of at.now.modules.now) at.now.top.now path.now)) }
{
    match module_at(at.modules, at.top, path) {
        None => Ok(BitString::new(alloc)),
        Some(module) => match module.body.get(position as usize) {
            None => Ok(BitString::new(alloc)),
            Some(operation) => {
                let one = OperationPosition {
                    path,
                    inside: module,
                    position,
                    operation,
                };
                operation_value(alloc, at, depth, &one, number)
            }
        },
    }
}

// the value of a result of an operation that stands there
#[cycle(net)]
fn operation_value(
    alloc: Global,
    at: &Setting,
    depth: u32,
    one: &OperationPosition<'_>,
    number: u32,
) -> Result<BitString, Refusal>
    ensures value { IfOk result (λ word. word ≡ value_from at.now.inputs.now at.now.content.now (value_within (map module_of at.now.modules.now) at.now.top.now at.now.inputs.now at.now.content.now depth)
        (op_source (map module_of at.now.modules.now) at.now.top.now one.now.path.now (module_of one.now.inside.now) one.now.position number (op_of one.now.operation.now))) }
    ensures refuses { IsErrOf result NotFitting → ¬ SuitsFrom (value_within (map module_of at.now.modules.now) at.now.top.now at.now.inputs.now at.now.content.now depth) (SuitsWithin (map module_of at.now.modules.now) at.now.top.now at.now.inputs.now at.now.content.now depth)
        (op_source (map module_of at.now.modules.now) at.now.top.now one.now.path.now (module_of one.now.inside.now) one.now.position number (op_of one.now.operation.now)) }
{
    if is_register(one.operation) {
        return held_value(alloc, at, depth, one, number);
    }
    if is_instance(one.operation) {
        let operand = given_operand(at.modules, one.operation, number);
        return given_value(
            alloc,
            at,
            depth,
            one.path,
            one.inside,
            one.position,
            operand,
        );
    }
    made_value(alloc, at, depth, one.path, one.operation, number)
}

// the value of the net that the module of an instance gives, if there is one
#[cycle(net)]
fn given_value(
    alloc: Global,
    at: &Setting,
    depth: u32,
    path: &[u32],
    inside: &Module,
    position: u32,
    operand: Option<Operand>,
) -> Result<BitString, Refusal>
    ensures value { IfOk result (λ word. word ≡ value_from at.now.inputs.now at.now.content.now (value_within (map module_of at.now.modules.now) at.now.top.now at.now.inputs.now at.now.content.now depth)
        (copy_of (length (instances (take position (module_of inside.now).body)) ∷ path.now) (option_map ref_of operand))) }
    ensures refuses { IsErrOf result NotFitting → ¬ SuitsFrom (value_within (map module_of at.now.modules.now) at.now.top.now at.now.inputs.now at.now.content.now depth) (SuitsWithin (map module_of at.now.modules.now) at.now.top.now at.now.inputs.now at.now.content.now depth)
        (copy_of (length (instances (take position (module_of inside.now).body)) ∷ path.now) (option_map ref_of operand)) }
{
    match operand {
        None => Ok(BitString::new(alloc)),
        Some(operand) => {
            let count = instance_count(first_operations(inside.body.as_slice(), position))?;
            let inner = inner_path(alloc, count, path)?;
            net_value(alloc, at, depth, inner.as_slice(), operand)
        }
    }
}

// the value of a result that an operation makes of its operands
#[cycle(net)]
fn made_value(
    alloc: Global,
    at: &Setting,
    depth: u32,
    path: &[u32],
    operation: &Operation,
    number: u32,
) -> Result<BitString, Refusal>
    ensures value { IfOk result (λ word. word ≡ value_from at.now.inputs.now at.now.content.now (value_within (map module_of at.now.modules.now) at.now.top.now at.now.inputs.now at.now.content.now depth)
        (cond (is_output_op (op_of operation.now)) nowhere (made_of path.now (op_of operation.now) number (result_type (op_of operation.now) number)))) }
    ensures refuses { IsErrOf result NotFitting → ¬ SuitsFrom (value_within (map module_of at.now.modules.now) at.now.top.now at.now.inputs.now at.now.content.now depth) (SuitsWithin (map module_of at.now.modules.now) at.now.top.now at.now.inputs.now at.now.content.now depth)
        (cond (is_output_op (op_of operation.now)) nowhere (made_of path.now (op_of operation.now) number (result_type (op_of operation.now) number))) }
{
    if is_output(operation) {
        return Ok(BitString::new(alloc));
    }
    match result_ty(operation, number) {
        None => Ok(BitString::new(alloc)),
        Some(ty) => {
            let words = operand_values(alloc, at, depth, path, operation.operands.as_slice())?;
            value_of(
                alloc,
                &operation.kind,
                operation.types.as_slice(),
                ty,
                number,
                words.as_slice(),
            )
        }
    }
}

#[cycle(net)]
/// The values of operands, in order.
pub fn operand_values(
    alloc: Global,
    at: &Setting,
    depth: u32,
    path: &[u32],
    operands: &[Operand],
) -> Result<Vec<BitString>, Refusal>
    ensures value { IfOk result (λ words. words.items ≡ map (value_within (map module_of at.now.modules.now) at.now.top.now at.now.inputs.now at.now.content.now depth) (map (net path.now) (map ref_of operands.now))) }
    ensures refuses { IsErrOf result NotFitting → ¬ ((n : Net) → In n (map (net path.now) (map ref_of operands.now)) → SuitsWithin (map module_of at.now.modules.now) at.now.top.now at.now.inputs.now at.now.content.now depth n) }
{
    let mut words = Vec::new(alloc);
    for operand in operands {
        let word = net_value(alloc, at, depth, path, *operand)?;
        words.push(word)?;
    }
    Ok(words)
}

// whether an operation is a module's output
fn is_output(operation: &Operation) -> bool
    ensures { result ≡ is_output_op (op_of operation.now) }
{
    matches!(operation.kind, OpKind::Output)
}

/// The path of an instance of the module at the end of a path.
pub fn inner_path(alloc: Global, number: u32, path: &[u32]) -> Result<Vec<u32>, AllocError>
    ensures { IfOk result (λ inner. inner.items ≡ number ∷ path.now) }
{
    let mut inner = Vec::new(alloc);
    inner.push(number)?;
    inner.extend_from_slice(path)?;
    Ok(inner)
}

/// The first bits, with bits of 0 past the end.
pub fn pad(alloc: Global, bits: &[bool], width: u64) -> Result<BitString, AllocError>
    ensures { IfOk result (λ word. word ≡ first width bits.now) }
{
    let mut word = BitString::of(alloc, first_bits(bits, width))?;
    let more = BitString::zeros(alloc, width - word.as_slice().len() as u64)?;
    word.push_bits(more.as_slice())?;
    Ok(word)
}

// the bits of the inputs that an input port of the module has
fn input_range(at: &Setting, port: u32) -> Result<Option<Range>, Refusal>
    ensures value { IfOk result (λ range. input_range_source range ≡ input_source port (find_module (map module_of at.now.modules.now) at.now.top.now)) }
    ensures refuses { OnErr result ((ρ : Net → Word) → ¬ SuitsSource ρ (input_source port (find_module (map module_of at.now.modules.now) at.now.top.now))) }
{
    match find_module(at.modules, at.top) {
        None => Ok(None),
        Some(own) => port_range(own.ports.as_slice(), port),
    }
}

fn port_range(ports: &[Port], port: u32) -> Result<Option<Range>, Refusal>
    ensures value { IfOk result (λ range. input_range_source range ≡ input_of (slice_get (map port_of ports.now) port) (input_width (take port (map port_of ports.now)))) }
    ensures refuses { OnErr result ((ρ : Net → Word) → ¬ SuitsSource ρ (input_of (slice_get (map port_of ports.now) port) (input_width (take port (map port_of ports.now))))) }
{
    match ports.get(port as usize) {
        None => Ok(None),
        Some(own) => {
            if own.is_output {
                return Ok(None);
            }
            let start = input_width(first_ports(ports, port))?;
            let width = exact_width(&own.ty)?;
            Ok(Some(Range { start, width }))
        }
    }
}

// the type of a result
fn result_ty(operation: &Operation, number: u32) -> Option<&Ty>
    ensures { option_map (λ t. type_of t.now) result ≡ result_type (op_of operation.now) number }
{
    type_at(operation.results.as_slice(), number)
}

fn type_at(types: &[Ty], number: u32) -> Option<&Ty>
    ensures { option_map (λ t. type_of t.now) result ≡ slice_get (map type_of types.now) number }
{
    match types {
        [] => None,
        [first, rest @ ..] => {
            if number == 0 {
                return Some(first);
            }
            type_at(rest, number - 1)
        }
    }
}

// the value of a register's result; `depth` is named by the clauses alone, since what is held needs no other net
fn held_value(
    alloc: Global,
    at: &Setting,
    depth: u32,
    one: &OperationPosition<'_>,
    number: u32,
) -> Result<BitString, Refusal>
    ensures value { IfOk result (λ word. word ≡ value_from at.now.inputs.now at.now.content.now (value_within (map module_of at.now.modules.now) at.now.top.now at.now.inputs.now at.now.content.now depth)
        (held_of (offset (map module_of at.now.modules.now) at.now.top.now one.now.path.now (module_of one.now.inside.now) one.now.position) (result_type (op_of one.now.operation.now) number))) }
    ensures refuses { IsErrOf result NotFitting → ¬ SuitsFrom (value_within (map module_of at.now.modules.now) at.now.top.now at.now.inputs.now at.now.content.now depth) (SuitsWithin (map module_of at.now.modules.now) at.now.top.now at.now.inputs.now at.now.content.now depth)
        (held_of (offset (map module_of at.now.modules.now) at.now.top.now one.now.path.now (module_of one.now.inside.now) one.now.position) (result_type (op_of one.now.operation.now) number)) }
{
    match result_ty(one.operation, number) {
        None => Ok(BitString::new(alloc)),
        Some(ty) => {
            let width = exact_width(ty)?;
            let start = offset(at.modules, at.top, one.path, one.inside, one.position)?;
            let word = pad(alloc, bits_after(at.content, start), width)?;
            Ok(word)
        }
    }
}

// how many bits the inputs among the ports have
fn input_width(ports: &[Port]) -> Result<u64, Refusal>
    ensures value { IfOk result (λ n. n ≡ input_width (map port_of ports.now)) }
    ensures refuses { OnErr result (¬ IsCounted (input_width (map port_of ports.now))) }
{
    match ports {
        [] => Ok(0),
        [first, rest @ ..] => {
            let others = input_width(rest)?;
            if first.is_output {
                return Ok(others);
            }
            sum_of(exact_width(&first.ty)?, others)
        }
    }
}
