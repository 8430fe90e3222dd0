//! What the operations of a body are to those that use them.
ghost use Rattle.std.specs.Prelude.{◌≡◌, ◌<◌, ◌||◌, not, length, map, IfOk, is_some, codes};
ghost use Rattle.hw_model.specs.Design.{register_form, instance_in, is_output_kind};
ghost use Rattle.hw_model.specs.KindViews.{kind_of};
ghost use Rattle.ir_store.specs.DictionaryViews.{entry_of, attribute_of};
ghost use Rattle.verilog_model.specs.Numerals.{is_nonempty};
ghost use Rattle.verilog_expr.specs.Scopes.{scope_ports, scope_ops, op_read};
ghost use Rattle.verilog_expr.specs.Marks.{AreMarks};
ghost use Rattle.verilog_expr.specs.PartTables.{part_seen, part_marked, AreParts};
ghost use Rattle.verilog_expr.specs.Spilling.{is_constant_kind, is_wire_kind, text_of, text_at};
ghost use Rattle.verilog_expr.specs.declared.scope.Scope.{Scope as ScopeSeen};

use crate::marks::Mark;
use crate::scope::Scope;
use hw_model::kinds::OpKind;
use ir_store::body::Op;
use ir_store::dictionary::{Attribute, Entry};
use std::alloc::{AllocError, Global};

/// What an operation is to those that use it.
#[derive(Clone, Copy)]
pub enum Part {
    /// A name or a literal: a register, a wire, an instance, a constant.
    Flat,
    /// An operation that always has a wire.
    Shared,
    /// An operation that has one where it is too high.
    Nested,
}

/// Whether a kind is a constant.
pub fn is_constant(kind: &OpKind) -> bool
    ensures { result ≡ is_constant_kind (kind_of kind.now) }
{
    match kind {
        OpKind::Constant(_) => true,
        _ => false,
    }
}

// Whether a kind gives values from its operands alone, and can be written in place of its result.
fn is_pure(kind: &OpKind) -> bool
    ensures { result ≡ not (is_some (register_form (kind_of kind.now)) || (is_some (instance_in (kind_of kind.now)) || (is_output_kind (kind_of kind.now) || is_wire_kind (kind_of kind.now)))) }
{
    match kind {
        OpKind::CompReg(_)
        | OpKind::CompRegCe(_)
        | OpKind::FirReg(_)
        | OpKind::AsyncFirReg
        | OpKind::Instance(_)
        | OpKind::Output
        | OpKind::Wire => false,
        _ => true,
    }
}

// The text that an attribute is, or none.
fn text_of(value: &Attribute) -> &[u8]
    ensures { result.now ≡ text_of (attribute_of value.now) }
{
    match value {
        Attribute::String(text) => text.as_bytes(),
        _ => &[],
    }
}

/// The name that is wanted in a dictionary, or none (CIRCT, `sv.namehint`).
pub fn hint_in(entries: &[Entry]) -> &[u8]
    ensures { result.now ≡ text_at (codes "sv.namehint") (map entry_of entries.now) }
{
    for entry in entries {
        if entry.key.as_bytes() == b"sv.namehint".as_slice() {
            return text_of(&entry.value);
        }
    }
    &[]
}

// Whether a name is wanted.
fn has_hint(entries: &[Entry]) -> bool
    ensures { result ≡ is_nonempty (text_at (codes "sv.namehint") (map entry_of entries.now)) }
{
    !hint_in(entries).is_empty()
}

// What an operation is, by the mark of its first result.
fn part_of(op: &Op<'_>, mark: Mark) -> Part
    ensures { (scope : ScopeSeen) → part_seen result ≡ part_marked (op_read scope op.now) mark }
{
    if !is_pure(op.kind) || is_constant(op.kind) {
        return Part::Flat;
    }
    if (mark.uses >= 2 || mark.cut) || (mark.joined || has_hint(&op.dictionary.entries)) {
        return Part::Shared;
    }
    Part::Nested
}

/// What each operation is, by its position, where the marks are those of their first results.
pub fn parts_of(alloc: Global, scope: &Scope<'_>, marks: &[Mark]) -> Result<Vec<Part>, AllocError>
    requires count { length marks.now ≡ length (scope_ops scope.now) }
    requires marks { AreMarks (scope_ports scope.now) (scope_ops scope.now) marks.now }
    ensures count { IfOk result (λ ps. length ps.items ≡ length (scope_ops scope.now)) }
    ensures parts { IfOk result (λ ps. AreParts (scope_ports scope.now) (scope_ops scope.now) ps.items) }
{
    let count = scope.count();
    let mut parts = Vec::with_capacity(alloc, count)?;
    for position in 0..count {
        let op = scope.op_at(position);
        parts.push(part_of(&op, marks[position]))?;
    }
    Ok(parts)
}
