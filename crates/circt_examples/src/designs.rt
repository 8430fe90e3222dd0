//! Designs that a text describes, as the interpreter takes them.
use hw_interpreter::design::{Module, Operand, Operation, Port};
use hw_model::types::Ty;
use ir_store::body::{Body, Op};
use ir_store::design;
use ir_store::operation::Value;
use mlir_reader::read::read_design;
use mlir_syntax::fail::ReadFail;
use std::alloc::{AllocError, Global};

/// The modules that a text describes, none where it is refused. The error comes only when out of memory.
pub fn modules_of(alloc: Global, text: &[u8]) -> Result<Option<Vec<Module>>, AllocError> {
    match read_design(alloc, text) {
        Ok(read) => {
            let mut modules = Vec::new(alloc);
            for number in 0..read.module_count() {
                modules.push(module_of(alloc, read.module(number))?)?;
            }
            Ok(Some(modules))
        }
        Err(ReadFail::Refused(_)) => Ok(None),
        Err(ReadFail::NoMemory) => Err(AllocError),
    }
}

fn module_of(alloc: Global, one: &design::Module) -> Result<Module, AllocError> {
    let mut ports = Vec::new(alloc);
    for port in &one.ports.ports {
        ports.push(port_of(alloc, port)?)?;
    }
    Ok(Module {
        symbol: one.symbol.try_clone(alloc)?,
        is_private: one.private,
        ports,
        body: operations_of(alloc, &one.body)?,
    })
}

fn operations_of(alloc: Global, body: &Body) -> Result<Vec<Operation>, AllocError> {
    let mut operations = Vec::new(alloc);
    for id in body.ops() {
        if body.contains(id) {
            operations.push(operation_of(alloc, &body.op(id))?)?;
        }
    }
    Ok(operations)
}

fn port_of(alloc: Global, port: &design::Port) -> Result<Port, AllocError> {
    Ok(Port {
        name: port.name.try_clone(alloc)?,
        is_output: port.out,
        ty: port.ty.try_clone(alloc)?,
    })
}

// The ids of a body that was read are the positions of its operations.
fn operand_of(value: Value) -> Operand {
    match value {
        Value::Port(number) => Operand::Port(number),
        Value::Result(id, number) => Operand::OpResult(id.number(), number),
        Value::Undefined => Operand::Undefined,
    }
}

fn operation_of(alloc: Global, op: &Op<'_>) -> Result<Operation, AllocError> {
    Ok(Operation {
        kind: op.kind.try_clone(alloc)?,
        operands: operands_of(alloc, op)?,
        types: types_of(alloc, op)?,
        results: results_of(alloc, op)?,
    })
}

fn operands_of(alloc: Global, op: &Op<'_>) -> Result<Vec<Operand>, AllocError> {
    let mut operands = Vec::new(alloc);
    for value in op.operands {
        operands.push(operand_of(*value))?;
    }
    Ok(operands)
}

fn types_of(alloc: Global, op: &Op<'_>) -> Result<Vec<Ty>, AllocError> {
    let mut types = Vec::new(alloc);
    for ty in op.types.as_slice() {
        types.push(ty.try_clone(alloc)?)?;
    }
    Ok(types)
}

fn results_of(alloc: Global, op: &Op<'_>) -> Result<Vec<Ty>, AllocError> {
    let mut results = Vec::new(alloc);
    for result in op.results.as_slice() {
        results.push(result.ty.try_clone(alloc)?)?;
    }
    Ok(results)
}
