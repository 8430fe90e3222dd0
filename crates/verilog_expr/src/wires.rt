//! Which values of a body have wires of their own.
ghost use Rattle.std.specs.Prelude.{◌≡◌, length, IfOk};
ghost use Rattle.verilog_expr.specs.Scopes.{scope_ports, scope_ops, op_read};
ghost use Rattle.verilog_expr.specs.Spilling.{has_wire};
ghost use Rattle.verilog_expr.specs.Marks.{AreMarks};
ghost use Rattle.verilog_expr.specs.PartTables.{part_seen, AreParts, AreHeightsAt, has_own_wire, AreWires};
ghost use Rattle.verilog_expr.specs.declared.scope.Scope.{Scope as ScopeSeen};

use crate::height_table::heights_of;
use crate::marks::{Mark, marks_of};
use crate::nesting::{Part, is_constant, parts_of};
use crate::scope::Scope;
use ir_store::body::Op;
use std::alloc::{AllocError, Global};

/// Whether the first result of each operation of a body has a wire.
#[derive(Drop)]
pub struct Wires {
    // by the operations' positions
    wires: Vec<bool>,
}

impl Wires {
    ghost use Rattle.std.specs.Prelude.{◌≡◌, ◌<◌, false, slice_index_or, IfOk};
    ghost use Rattle.wiring.specs.Wiring.{IsAcyclic};
    ghost use Rattle.verilog_expr.specs.Spilling.{inner_needs};
    ghost use Rattle.verilog_expr.specs.Scopes.{scope_ports, scope_ops};
    ghost use Rattle.verilog_expr.specs.PartTables.{AreWires};

    /// Which values of a body have wires. No value may need itself through pure operations. The error is out of memory.
    pub fn of(alloc: Global, scope: &Scope<'_>) -> Result<Wires, AllocError>
        requires { IsAcyclic (inner_needs (scope_ops scope.now)) }
        ensures { IfOk result (λ w. AreWires (scope_ports scope.now) (scope_ops scope.now) w.wires.items) }
    {
        let marks = marks_of(alloc, scope)?;
        let parts = parts_of(alloc, scope, marks.as_slice())?;
        let heights = heights_of(alloc, scope, parts.as_slice())?;
        let wires = wires_of(
            alloc,
            scope,
            marks.as_slice(),
            parts.as_slice(),
            heights.as_slice(),
        )?;
        Ok(Wires { wires })
    }

    /// Whether the first result of the operation at a position has a wire.
    pub fn has_wire(&self, position: usize) -> bool
        ensures { result ≡ slice_index_or self.now.wires.items position false }
    {
        match self.wires.get(position) {
            Some(wire) => *wire,
            None => false,
        }
    }
}

// Whether a value of a part and a height has a wire.
fn has_wire(part: Part, height: u32) -> bool
    ensures { result ≡ has_wire (part_seen part) height }
{
    match part {
        Part::Flat => false,
        Part::Shared => true,
        Part::Nested => height >= 64,
    }
}

// Whether the first result of an operation has a wire.
fn is_wired(op: &Op<'_>, mark: Mark, part: Part, height: u32) -> bool
    ensures { (scope : ScopeSeen) → result ≡ has_own_wire (op_read scope op.now) mark (part_seen part) height }
{
    if is_constant(op.kind) {
        mark.cut
    } else {
        has_wire(part, height)
    }
}

// Whether the first result of each operation has a wire.
fn wires_of(
    alloc: Global,
    scope: &Scope<'_>,
    marks: &[Mark],
    parts: &[Part],
    heights: &[Option<u32>],
) -> Result<Vec<bool>, AllocError>
    requires mark_count { length marks.now ≡ length (scope_ops scope.now) }
    requires marks { AreMarks (scope_ports scope.now) (scope_ops scope.now) marks.now }
    requires part_count { length parts.now ≡ length (scope_ops scope.now) }
    requires parts { AreParts (scope_ports scope.now) (scope_ops scope.now) parts.now }
    requires height_count { length heights.now ≡ length (scope_ops scope.now) }
    requires heights { AreHeightsAt (scope_ports scope.now) (scope_ops scope.now) heights.now }
    ensures { IfOk result (λ ws. AreWires (scope_ports scope.now) (scope_ops scope.now) ws.items) }
{
    let count = scope.count();
    let mut wires = Vec::with_capacity(alloc, count)?;
    for position in 0..count {
        let op = scope.op_at(position);
        let height = heights[position].unwrap_or(0);
        wires.push(is_wired(&op, marks[position], parts[position], height))?;
    }
    Ok(wires)
}
