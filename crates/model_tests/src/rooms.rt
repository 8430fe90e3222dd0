//! Room that is reserved, ids by position, and modules by symbol.

use crate::bodies::{erase, put};
use body_index::position_table::{ids_in, positions_of};
use diag::refusal::Location;
use io_edge::byte_text::Text;
use ir_store::body::Body;
use ir_store::design::{Design, Module, PortList};
use ir_store::dictionary::Dictionary;
use ir_store::operation::{OpId, Value};
use std::alloc::{AllocError, Global};
use std::test::Fail;

// Puts an operation to the end where room is left for it and two operands.
fn put_in_room(alloc: Global, body: &mut Body) -> Result<bool, AllocError> {
    let (ops, uses) = body.spare();
    if ops < 1 || uses < 2 {
        return Ok(false);
    }
    put(alloc, body, None, &[Value::Port(0), Value::Port(1)])
}

// Erases the first operation. It gives back room for it and its two operands.
fn erase_first(body: &mut Body) -> bool {
    let before = body.spare();
    let Some(op) = body.ops().next() else {
        return false;
    };
    let is_erased = erase(body, op);
    let after = body.spare();
    is_erased && after.0.saturating_sub(before.0) >= 1 && after.1.saturating_sub(before.1) >= 2
}

// adds and erases 1,000 operations ten times over
#[test]
fn room_that_was_reserved_lasts(rt: HostRuntime) -> Result<(), Fail> {
    let mut body = Body::new(rt.alloc());
    body.reserve(1000, 2000)?;
    for _ in 0..10 {
        for _ in 0..1000 {
            assert!(rt; put_in_room(rt.alloc(), &mut body)?);
        }
        for _ in 0..1000 {
            assert!(rt; erase_first(&mut body));
        }
        assert_eq!(rt; body.op_count(), 0);
    }
    Ok(())
}

// the position of each id of a body by its number
fn positions_in(alloc: Global, body: &Body) -> Result<Vec<u32>, AllocError> {
    let ids = ids_in(alloc, body)?;
    positions_of(alloc, ids.as_slice())
}

#[test]
fn positions_are_told_by_ids(rt: HostRuntime) -> Result<(), Fail> {
    let mut body = Body::new(rt.alloc());
    assert!(rt; positions_in(rt.alloc(), &body)?.is_empty());
    for before in [None, Some(0), Some(0)] {
        assert!(rt; put(rt.alloc(), &mut body, before, &[])?);
    }
    let positions = positions_in(rt.alloc(), &body)?;
    assert_eq!(rt; positions.as_slice(), [2, 0, 1].as_slice());
    assert!(rt; erase(&mut body, OpId::nth(1)));
    // an id that is gone has as its position the number of ids
    let positions = positions_in(rt.alloc(), &body)?;
    assert_eq!(rt; positions.as_slice(), [1, 2, 0].as_slice());
    Ok(())
}

// a module of a symbol, without ports and operations
fn bare(alloc: Global, symbol: &[u8]) -> Result<Module, AllocError> {
    Ok(Module {
        symbol: Text::of(alloc, symbol)?,
        private: false,
        ports: PortList {
            ports: Vec::new(alloc),
        },
        dictionary: Dictionary::new(alloc),
        body: Body::new(alloc),
        location: Location::start(),
    })
}

#[test]
fn modules_are_found_by_symbol(rt: HostRuntime) -> Result<(), Fail> {
    let alloc = rt.alloc();
    let mut design = Design::new(alloc);
    let first = design.add_module(bare(alloc, b"A".as_slice())?)?;
    let second = design.add_module(bare(alloc, b"B".as_slice())?)?;
    assert_eq!(rt; (first, second), (0, 1));
    assert_eq!(rt; design.find(b"B".as_slice()), Some(1));
    assert_eq!(rt; design.find(b"C".as_slice()), None);
    Ok(())
}
