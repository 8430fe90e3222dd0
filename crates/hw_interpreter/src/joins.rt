//! What an instance joins to the ports of its module, and what its module gives to its results.
ghost use Rattle.std.specs.Prelude.{◌≡◌, ◌≤◌, length, take, map, option_map, option_and_then};
ghost use Rattle.hw_model.specs.Flat.{input_count, port_ref, joined_ref, joined_at, given_ref, module_at};
ghost use Rattle.hw_interpreter.specs.DesignViews.{ref_of, op_of, port_of, module_of};

use crate::design::{Module, Operand, Operation, Port, Setting};
use crate::modules::{callee, instance_at, module_at, output_operands};

// what an instance of the module at the end of a path joins to a port of its module
pub(crate) fn joined_operand(at: &Setting, path: &[u32], number: u32, port: u32) -> Option<Operand>
    ensures { option_map ref_of result ≡ option_and_then (joined_at (map module_of at.now.modules.now) number port) (module_at (map module_of at.now.modules.now) at.now.top.now path.now) }
{
    match module_at(at.modules, at.top, path) {
        None => None,
        Some(inside) => match instance_at(inside.body.as_slice(), number) {
            None => None,
            Some(operation) => joined_to(at.modules, operation, port),
        },
    }
}

fn joined_to(modules: &[Module], operation: &Operation, port: u32) -> Option<Operand>
    ensures { option_map ref_of result ≡ joined_ref (map module_of modules.now) port (op_of operation.now) }
{
    match callee(modules, operation) {
        None => None,
        Some(own) => port_operand(own.ports.as_slice(), operation.operands.as_slice(), port),
    }
}

// the operand that stands for an input port
fn port_operand(ports: &[Port], operands: &[Operand], port: u32) -> Option<Operand>
    ensures { option_map ref_of result ≡ port_ref (map port_of ports.now) (map ref_of operands.now) port }
{
    match ports.get(port as usize) {
        None => None,
        Some(own) => {
            if own.is_output {
                return None;
            }
            operands.get(input_count(first_ports(ports, port))).copied()
        }
    }
}

// what the module that an operation instances gives to its output of that number
pub(crate) fn given_operand(
    modules: &[Module],
    operation: &Operation,
    number: u32,
) -> Option<Operand>
    ensures { option_map ref_of result ≡ given_ref (map module_of modules.now) number (op_of operation.now) }
{
    match callee(modules, operation) {
        None => None,
        Some(own) => output_operands(own.body.as_slice())
            .get(number as usize)
            .copied(),
    }
}

// how many of the ports are inputs
fn input_count(ports: &[Port]) -> usize
    ensures value { result ≡ input_count (map port_of ports.now) }
    ensures within { result ≤ length ports.now }
{
    match ports {
        [] => 0,
        [first, rest @ ..] => {
            if first.is_output {
                return input_count(rest);
            }
            1 + input_count(rest)
        }
    }
}

// the first ports, as many as there are
pub(crate) fn first_ports(ports: &[Port], count: u32) -> &[Port]
    ensures { map port_of result.now ≡ take count (map port_of ports.now) }
{
    if count as usize >= ports.len() {
        return ports;
    }
    ports.split_at(count as usize).0
}
