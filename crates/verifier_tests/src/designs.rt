//! Designs of one module, which are built operation by operation.
use diag::refusal::Location;
use hw_model::kinds::{Integer, OpKind};
use hw_model::types::Ty;
use io_edge::byte_text::Text;
use ir_store::body::Body;
use ir_store::design::{Design, Module, Port, PortList};
use ir_store::dictionary::Dictionary;
use ir_store::operation::{NewOp, NewResult, NewResultList, OpId, TyList, Value};
use smallvec::SmallVec;
use std::alloc::{AllocError, Global};

/// The names of the ports `in c : !seq.clock, in d : i1, in r : i1, out q : i1`, each at its number.
const PORTS: [&[u8]; 4] = [b"c", b"d", b"r", b"q"];
/// The number of the port `c`.
const CLOCK: u32 = 0;
/// The number of the port `d`.
const DATA: u32 = 1;
/// The number of the port `r`.
pub const RESET: u32 = 2;
/// The number of the port `q`, which has no value.
pub const OUT: u32 = 3;

/// An operation on bits, in a module with these ports.
#[derive(Clone, Copy)]
pub enum Row {
    /// A constant, which is 1.
    Constant,
    /// `comb.and` of the port `d` and the port of a number.
    And(u32),
    /// The same, whose result has the mark of a second definition.
    MarkedAnd(u32),
    /// `comb.and` of the port `d` and the result of the first operation.
    AndFirst,
    /// A register of the port `d`, which the port of a number resets to the result of the first operation.
    Register(u32),
    /// The output of the port `d`.
    Output,
}

// An operation that stands on a line. It has a result for each of the marks, which say whether its name was defined before.
fn operation(
    alloc: Global,
    line: u32,
    kind: OpKind,
    operands: &[Value],
    marks: &[bool],
) -> Result<NewOp, AllocError> {
    let mut types = Vec::new(alloc);
    types.push(Ty::Int(1))?;
    let mut results = Vec::new(alloc);
    for again in marks {
        let ty = Ty::Int(1);
        results.push(NewResult { ty, again: *again })?;
    }
    Ok(NewOp {
        kind,
        operands: SmallVec::from_slice(alloc, operands)?,
        types: TyList::of(types),
        results: NewResultList::of(results),
        named: u32::from(!marks.is_empty()),
        name: Text::new(alloc),
        dictionary: Dictionary::new(alloc),
        bin: false,
        location: Location { line, col: 3 },
    })
}

// `comb.and` of the port `d` and a value.
fn and(alloc: Global, line: u32, other: Value, again: bool) -> Result<NewOp, AllocError> {
    operation(
        alloc,
        line,
        OpKind::And,
        &[Value::Port(DATA), other],
        &[again],
    )
}

// The operation of a row, on a line.
fn operation_of(alloc: Global, line: u32, row: Row) -> Result<NewOp, AllocError> {
    let data = Value::Port(DATA);
    let first = Value::Result(OpId::nth(0), 0);
    match row {
        Row::Constant => {
            let one = OpKind::Constant(Integer::NonNegative(1));
            operation(alloc, line, one, &[], &[false])
        }
        Row::And(port) => and(alloc, line, Value::Port(port), false),
        Row::MarkedAnd(port) => and(alloc, line, Value::Port(port), true),
        Row::AndFirst => and(alloc, line, first, false),
        Row::Register(port) => {
            let operands = [data, Value::Port(CLOCK), Value::Port(port), first];
            operation(alloc, line, OpKind::AsyncFirReg, &operands, &[false])
        }
        Row::Output => operation(alloc, line, OpKind::Output, &[data], &[]),
    }
}

// The ports of a module of rows.
fn ports(alloc: Global) -> Result<Vec<Port>, AllocError> {
    let mut ports = Vec::new(alloc);
    for (number, name) in PORTS.iter().enumerate() {
        let is_clock = number == CLOCK as usize;
        ports.push(Port {
            name: Text::of(alloc, name)?,
            out: number == OUT as usize,
            ty: if is_clock { Ty::Clock } else { Ty::Int(1) },
            again: false,
        })?;
    }
    Ok(ports)
}

// The body of some operations.
fn body(alloc: Global, ops: Vec<NewOp>) -> Result<Body, AllocError> {
    let mut body = Body::new(alloc);
    for op in ops {
        if body.op_count() < 100 {
            let _ = body.add_op(None, op)?;
        }
    }
    Ok(body)
}

/// The design of one module, `T`, whose header stands on line 1.
pub fn design(alloc: Global, ports: Vec<Port>, ops: Vec<NewOp>) -> Result<Design, AllocError> {
    let module = Module {
        symbol: Text::of(alloc, b"T")?,
        private: false,
        ports: PortList { ports },
        dictionary: Dictionary::new(alloc),
        body: body(alloc, ops)?,
        location: Location { line: 1, col: 1 },
    };
    let mut design = Design::new(alloc);
    let _ = design.add_module(module)?;
    Ok(design)
}

/// The design of a module of rows, whose operations stand on the lines after its header's.
pub fn design_of(alloc: Global, rows: &[Row]) -> Result<Design, AllocError> {
    let mut ops = Vec::new(alloc);
    let mut line = 1u32;
    for row in rows {
        line = line.wrapping_add(1);
        ops.push(operation_of(alloc, line, *row)?)?;
    }
    design(alloc, ports(alloc)?, ops)
}
