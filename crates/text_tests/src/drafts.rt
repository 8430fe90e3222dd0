//! Bodies whose operations are read one by one.
use Operand::{Port, Result as Of, Undefined};
use io_edge::byte_text::Text;
use ir_store::body::Body;
use ir_store::operation::{OpId, UsePosition, Value};
use mlir_operations::operation_text::operation_text;
use mlir_reader::definitions::define_port;
use mlir_reader::draft::Draft;
use mlir_reader::names::Names;
use mlir_syntax::reader::Reader;
use std::alloc::{AllocError, Global};
use std::test::Fail;

// operation 0 waits for a later one, and with it those after it; operation 4 waits for a name that nothing defines
const FORWARD: &[u8] = b"%a = comb.add %p, %d : i8
%b = comb.xor %p, %p : i8
%c = comb.and %b, %p : i8
%d = comb.or %p, %a : i8
%e = comb.mul %none, %c, %f, %none : i8
%f = comb.sub %e, %p : i8
";

// packs, an operation that names itself, a number after a name that is no pack, and a name that is defined again
const PACKS: &[u8] = b"%s:2 = hw.struct_explode %p : !hw.struct<x: i8, y: i8>
%a = comb.add %s#1, %s#2, %s : i8
%r = comb.or %r, %a#1, %s#0 : i8
%q:9 = hw.struct_explode %p : !hw.struct<x: i8>
%a = comb.and %q, %q#1, %a, %p#1 : i8
";

// a pack whose name is new, and then packs of two, of more results than there are, of none, and one of a sum
const PACKS_AGAIN: &[u8] = b"%s:2 = hw.struct_explode %p : !hw.struct<x: i8, y: i8, z: i8>
%s:2 = hw.struct_explode %p : !hw.struct<x: i8, y: i8, z: i8>
%s:5 = hw.struct_explode %p : !hw.struct<x: i8, y: i8, z: i8>
%s:0 = hw.struct_explode %p : !hw.struct<x: i8, y: i8, z: i8>
%s:4 = comb.add %p, %p : i8
";

/// A value: the port, or the result of this number of the operation at a position.
#[derive(Clone, Copy)]
enum Operand {
    Port,
    Result(u32, u32),
    Undefined,
}

/// The operations that a text begins with, and where values are used in their body.
struct Prefix {
    text: &'static [u8],
    /// How many operations are read at most, and how many there are.
    most: usize,
    count: usize,
    /// Values, each with the operations and the operands where it is used.
    uses: &'static [(Operand, &'static [(u32, u32)])],
    /// Operations, each with the marks of its results as defined again.
    marks: &'static [(u32, &'static [bool])],
}

const PREFIXES: [Prefix; 5] = [
    // a name may be defined later
    Prefix {
        text: FORWARD,
        most: 9,
        count: 6,
        uses: &[
            (Port, &[(0, 0), (1, 0), (1, 1), (2, 1), (3, 0), (5, 1)]),
            (Of(0, 0), &[(3, 1)]),
            (Of(1, 0), &[(2, 0)]),
            (Of(2, 0), &[(4, 1)]),
            (Of(3, 0), &[(0, 1)]),
            (Of(4, 0), &[(5, 0)]),
            (Of(5, 0), &[(4, 2)]),
            (Undefined, &[(4, 0), (4, 3)]),
        ],
        marks: &[],
    },
    // a prefix is a body too
    Prefix {
        text: FORWARD,
        most: 3,
        count: 3,
        uses: &[(Undefined, &[(0, 1)]), (Of(1, 0), &[(2, 0)])],
        marks: &[],
    },
    Prefix {
        text: FORWARD,
        most: 0,
        count: 0,
        uses: &[],
        marks: &[],
    },
    // a number counts within a pack
    Prefix {
        text: PACKS,
        most: 9,
        count: 5,
        uses: &[
            (Port, &[(0, 0), (3, 0)]),
            (Of(0, 0), &[(1, 2), (2, 2)]),
            (Of(0, 1), &[(1, 0)]),
            (Of(1, 0), &[(4, 2)]),
            (Of(2, 0), &[(2, 0)]),
            (Of(3, 0), &[(4, 0)]),
            (Undefined, &[(1, 1), (2, 1), (4, 1), (4, 3)]),
        ],
        marks: &[],
    },
    // each result of a pack has its mark
    Prefix {
        text: PACKS_AGAIN,
        most: 9,
        count: 5,
        uses: &[],
        marks: &[
            (0, &[false, false, false]),
            (1, &[true, true, false]),
            (2, &[true, true, true]),
            (3, &[false, false, false]),
            (4, &[true]),
        ],
    },
];

// the body of at most so many operations that a text begins with, after one port `p`
fn body_of(alloc: Global, text: &[u8], most: usize) -> Result<Body, AllocError> {
    let mut names = Names::new(alloc);
    define_port(&mut names, 0, Some(b"p"))?;
    let mut draft = Draft::new(alloc, names, 8);
    let mut reader = Reader::new(alloc, text);
    for _ in 0..most {
        match operation_text(&mut reader) {
            Ok(operation) => draft.add(alloc, operation)?,
            Err(_) => break,
        }
    }
    let (body, _) = draft.finish(alloc)?;
    Ok(body)
}

fn value_of(operand: Operand) -> Value {
    match operand {
        Port => Value::Port(0),
        Of(op, number) => Value::Result(OpId::nth(op), number),
        Undefined => Value::Undefined,
    }
}

// whether one of the positions is this operand
fn is_among(position: UsePosition, positions: &[(u32, u32)]) -> bool {
    for (op, at) in positions {
        if position.op.number() == *op && position.at == *at {
            return true;
        }
    }
    false
}

// whether a value is used at these operands of these operations alone
fn is_used_at(body: &Body, operand: Operand, positions: &[(u32, u32)]) -> bool {
    let mut count = 0usize;
    for position in body.uses(value_of(operand)) {
        if !is_among(position, positions) {
            return false;
        }
        count = count.saturating_add(1);
    }
    count == positions.len()
}

// whether the results of an operation have these marks
fn are_marked(body: &Body, op: u32, marks: &[bool]) -> bool {
    let id = OpId::nth(op);
    if !body.contains(id) {
        return false;
    }
    let mut left = marks;
    for one in body.op(id).results.as_slice() {
        match left.split_first() {
            Some((first, others)) if *first == one.again => left = others,
            Some(_) | None => return false,
        }
    }
    left.is_empty()
}

// whether values are used and results are marked as a prefix says
fn is_told(body: &Body, prefix: &Prefix) -> bool {
    for (operand, positions) in prefix.uses {
        if !is_used_at(body, *operand, positions) {
            return false;
        }
    }
    for (op, marks) in prefix.marks {
        if !are_marked(body, *op, marks) {
            return false;
        }
    }
    body.op_count() == prefix.count
}

// the first prefix of which something else is read, by its position
fn first_other(alloc: Global, prefixes: &[Prefix]) -> Result<Option<usize>, AllocError> {
    for (at, prefix) in prefixes.iter().enumerate() {
        let body = body_of(alloc, prefix.text, prefix.most)?;
        if !is_told(&body, prefix) {
            return Ok(Some(at));
        }
    }
    Ok(None)
}

#[test]
fn operations_are_read_one_by_one(rt: HostRuntime) -> Result<(), Fail> {
    assert_eq!(rt; first_other(rt.alloc(), &PREFIXES)?, None);
    Ok(())
}

// the first operation waits for the last one, and so do 300 after it
fn waiting_text(alloc: Global) -> Result<Text, AllocError> {
    let mut text = Text::new(alloc);
    text.push_bytes(b"%a = comb.add %p, %z : i8\n")?;
    for _ in 0..300 {
        text.push_bytes(b"%b = comb.xor %p, %p : i8\n")?;
    }
    text.push_bytes(b"%z = comb.or %p, %a : i8\n")?;
    Ok(text)
}

#[test]
fn many_may_wait_for_the_last(rt: HostRuntime) -> Result<(), Fail> {
    let text = waiting_text(rt.alloc())?;
    let body = body_of(rt.alloc(), text.as_bytes(), 999)?;
    assert_eq!(rt; body.op_count(), 302);
    for (operand, positions) in [
        (Of(301, 0), [(0, 1)].as_slice()),
        (Of(0, 0), &[(301, 1)]),
        (Undefined, &[]),
    ] {
        assert!(rt; is_used_at(&body, operand, positions));
    }
    Ok(())
}
