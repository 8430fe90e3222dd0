//! From what the text of a module says to the module.
ghost use Rattle.std.specs.Prelude.{◌≡◌, ◌||◌, ◌<◌, ◌+◌, ◌^◌, ◌++◌, ◌∷◌, [], cond, length, map, Some, IfOk, OnOk};
ghost use Rattle.ir_store.specs.Bodies.{ops_of, ids_of, gaps};
ghost use Rattle.ir_store.specs.Numbered.{ref_by, op_by};
ghost use Rattle.ir_store.specs.Designs.{ports_in};
ghost use Rattle.mlir_operations.specs.ModuleText.{ModuleText as Written};
ghost use Rattle.mlir_reader.specs.ModuleViews.{IsHead, IsBodyText, IsModule, body_in};
ghost use Rattle.mlir_reader.specs.Resolving.{resolve_operand, ref_in, no_meaning, ports_from, port_definitions, port_meanings, with_definitions, has_outputs, left_out_output};
ghost use Rattle.mlir_operations.specs.OperandText.{named_count};
ghost use Rattle.mlir_operations.specs.Views.{operand_of, names_of, port_text_of};
ghost use Rattle.mlir_reader.specs.Meanings.{meanings_of, defined_of, op_of};

use crate::body_text::BodyText;
use crate::definitions::define_port;
use crate::dictionaries::kept_entries;
use crate::names::{Defined, Names};
use diag::refusal::Location;
use hw_model::kinds::OpKind;
use io_edge::byte_text::Text;
use ir_store::body::Body;
use ir_store::design::{Module, Port, PortList};
use ir_store::dictionary::Dictionary;
use ir_store::operation::{NewOp, NewResultList, OpId, TyList, Value};
use mlir_operations::syntax::{OperandName, PortText, ResultNames};
use opcode::listed::Listed;
use smallvec::SmallVec;
use std::alloc::{AllocError, Global};

/// The ports of a module.
#[derive(Drop)]
pub struct NamedPorts {
    /// The ports.
    pub list: PortList,
    /// Whether one is an output.
    pub outputs: bool,
}

/// What stands before the operations of a module.
#[derive(Drop)]
pub struct ModuleHead {
    /// Its symbol.
    pub symbol: Text,
    /// Whether it is private.
    pub private: bool,
    /// Its ports.
    pub ports: PortList,
    /// Whether one is an output.
    pub outputs: bool,
    /// The location of its name.
    pub location: Location,
}

/// The ports of a module, each with its mark. Their names, and no others, stand for something then. As many as 2^32,
/// which no text that is read has, count as out of memory.
pub fn named_ports<'s>(
    alloc: Global,
    names: &mut Names<'s>,
    ports: Vec<PortText<'s>>,
) -> Result<NamedPorts, AllocError>
    ensures list { IfOk result (λ named. ports_in named.list ≡ ports_from no_meaning 0 (map port_text_of ports.entry.items)) }
    ensures names { OnOk result (meanings_of names.new ≡ port_meanings (map port_text_of ports.entry.items)) }
    ensures outputs { IfOk result (λ named. named.outputs ≡ has_outputs (map port_text_of ports.entry.items)) }
{
    if ports.len() >= u32::MAX as usize {
        return Err(AllocError);
    }
    let outputs = has_outputs(&ports);
    names.clear(alloc);
    let list = resolved_ports(alloc, names, ports)?;
    Ok(NamedPorts { list, outputs })
}

/// The module of a head and a body.
pub fn whole_module(alloc: Global, head: ModuleHead, body: BodyText) -> Result<Module, AllocError>
    requires count { length (ids_of body.operations.body) + 1 < 2 ^ 32 }
    requires gaps { gaps body.operations.body ≡ 0 }
    ensures { IfOk result (λ whole. (text : Written) → IsHead text head → IsBodyText (port_meanings text.ports) (body_in text) body → IsModule text whole) }
{
    let ends = body.operations.ends || head.outputs;
    let completed = with_output(alloc, body.operations.body, ends, body.close)?;
    let dictionary = kept_entries(alloc, Listed::HwModule, body.dictionary)?;
    Ok(Module {
        symbol: head.symbol,
        private: head.private,
        ports: head.ports,
        dictionary,
        body: completed,
        location: head.location,
    })
}

// The ports, each with its mark, once their names are defined.
fn resolved_ports<'s>(
    alloc: Global,
    names: &mut Names<'s>,
    ports: Vec<PortText<'s>>,
) -> Result<PortList, AllocError>
    requires { length ports.items < 2 ^ 32 }
    ensures ports { IfOk result (λ list. ports_in list ≡ ports_from (meanings_of names.old) 0 (map port_text_of ports.entry.items)) }
    ensures means { OnOk result (meanings_of names.new ≡ with_definitions (meanings_of names.old) (port_definitions 0 (map port_text_of ports.entry.items))) }
{
    let mut list = Vec::with_capacity(alloc, ports.len())?;
    let mut position: u32 = 0;
    for port in ports {
        let again = define_port(names, position, port.value)?;
        list.push(Port {
            name: port.name,
            out: port.value.is_none(),
            ty: port.ty,
            again,
        })?;
        position += 1;
    }
    Ok(PortList { ports: list })
}

// A body with the output that its text leaves out, unless that ends already.
fn with_output(alloc: Global, body: Body, ends: bool, close: Location) -> Result<Body, AllocError>
    requires count { length (ids_of body) + 1 < 2 ^ 32 }
    requires gaps { gaps body ≡ 0 }
    ensures ops { IfOk result (λ whole. map (op_by (λ i. i)) (ops_of whole) ≡ cond ends (map (op_by (λ i. i)) (ops_of body)) (map (op_by (λ i. i)) (ops_of body) ++ left_out_output close ∷ [])) }
    ensures ids { IfOk result (λ whole. ids_of whole ≡ cond ends (ids_of body) (ids_of body ++ length (ids_of body) ∷ [])) }
{
    let mut body = body;
    if ends {
        return Ok(body);
    }
    body.add_op(None, left_out_output(alloc, close))?;
    Ok(body)
}

/// How many results are named.
pub fn named_count(results: &ResultNames<'_>) -> u32
    requires { named_count (names_of results.now) < 2 ^ 32 }
    ensures { result ≡ named_count (names_of results.now) }
{
    match results {
        ResultNames::Unnamed => 0,
        ResultNames::Names(_, others) => others.len() as u32 + 1,
        ResultNames::Pack(_, count) => *count,
    }
}

/// The values that operands name. A name that stands for nothing is undefined.
pub fn resolved_operands<'s>(
    alloc: Global,
    names: &Names<'s>,
    operands: &[OperandName<'s>],
) -> Result<SmallVec<Value, 4, Global>, AllocError>
    ensures { IfOk result (λ values. map (ref_by (λ i. i)) values.items ≡ map (resolve_operand (meanings_of names.now)) (map operand_of operands.now)) }
{
    let mut values = SmallVec::new(alloc);
    values.reserve(operands.len())?;
    for operand in operands {
        values.push(resolve_operand(names, *operand))?;
    }
    Ok(values)
}

// The value that an operand names.
fn resolve_operand(names: &Names<'_>, operand: OperandName<'_>) -> Value
    ensures { ref_by (λ i. i) result ≡ resolve_operand (meanings_of names.now) (operand_of operand.entry) }
{
    match names.find(operand.name) {
        Some(defined) => value_of(defined, operand.number),
        None => Value::Undefined,
    }
}

/// The value of this number among those that a name stands for.
pub fn value_of(defined: Defined, number: u32) -> Value
    ensures { ref_by (λ i. i) result ≡ ref_in (Some (defined_of defined)) number }
{
    match defined {
        Defined::Port(position) if number == 0 => Value::Port(position),
        Defined::Result(op, result) if number == 0 => Value::Result(OpId::nth(op), result),
        Defined::Pack(op, count) if number < count => Value::Result(OpId::nth(op), number),
        _ => Value::Undefined,
    }
}

// Whether a port is an output.
fn has_outputs(ports: &[PortText<'_>]) -> bool
    ensures { result ≡ has_outputs (map port_text_of ports.now) }
{
    for port in ports {
        if port.value.is_none() {
            return true;
        }
    }
    false
}

// The output of a module that leaves it out. It takes no memory.
fn left_out_output(alloc: Global, location: Location) -> NewOp
    ensures { op_of result ≡ left_out_output location }
{
    NewOp {
        kind: OpKind::Output,
        operands: SmallVec::new(alloc),
        types: TyList::new(),
        results: NewResultList::new(),
        named: 0,
        name: Text::new(alloc),
        dictionary: Dictionary::new(alloc),
        bin: false,
        location,
    }
}
