//! Bodies.
ghost use Rattle.std.specs.Prelude.{◌≡◌, ◌+◌, ◌*◌, ◌<◌, ◌≤◌, ◌^◌, ◌++◌, [], ◌∷◌, length, map, IfOk, OnOk};
ghost use Rattle.aiger_design.specs.Positions.{latch_users, gate_user, constants, inverter_count};
ghost use Rattle.aiger_design.specs.Built.{group, groups, imported_body};
ghost use Rattle.aiger_reader.specs.Kept.{Knows, tree_of};
ghost use Rattle.aiger_reader.specs.Told.{line_count};
ghost use Rattle.aiger_text.specs.Places.{IsReady, ArePlaces};
ghost use Rattle.aiger_text.specs.Seen.{made_of, seen, IsNumbered};

use crate::operands::{add, add_operands};
use crate::operations::{Made, constant_op, made_op};
use crate::places::{Places, places_of};
use aiger_reader::text::AigerText;
use ir_store::body::Body;
use std::alloc::{AllocError, Global};

/// The body of the module of a text.
pub(crate) fn body_of_text(alloc: Global, text: &AigerText) -> Result<Body, AllocError>
    requires knows { Knows text.now }
    requires few { line_count (tree_of text.now) ≤ 2 ^ 26 }
    ensures ops { IfOk result (λ body. seen body ≡ imported_body (tree_of text.now)) }
    ensures numbered { IfOk result IsNumbered }
{
    let places = places_of(alloc, text)?;
    let mut body = Body::new(alloc);
    add_constants(alloc, text, &places, &mut body)?;
    add_latches(alloc, text, &places, &mut body)?;
    add_gates(alloc, text, &places, &mut body)?;
    add_group(alloc, text, &places, &mut body, Made::Output, &text.outputs)?;
    Ok(body)
}

/// Adds the constants to an empty body.
fn add_constants(
    alloc: Global,
    text: &AigerText,
    places: &Places,
    body: &mut Body,
) -> Result<(), AllocError>
    requires places { ArePlaces (tree_of text.now) places.now }
    requires empty { seen body.old ≡ [] }
    requires numbered { IsNumbered body.old }
    ensures ops { OnOk result (seen body.new ≡ constants (tree_of text.now)) }
    ensures numbered { OnOk result (IsNumbered body.new) }
{
    if places.has_true {
        let _ = add(body, constant_op(alloc, true)?)?;
    }
    if places.has_false {
        let _ = add(body, constant_op(alloc, false)?)?;
    }
    Ok(())
}

/// Adds the operations of a user of literals.
fn add_group(
    alloc: Global,
    text: &AigerText,
    places: &Places,
    body: &mut Body,
    made: Made,
    literals: &[u32],
) -> Result<(), AllocError>
    requires ready { IsReady text.now places.now }
    requires room { length (seen body.old) + inverter_count literals.now + 1 < 2 ^ 32 }
    requires numbered { IsNumbered body.old }
    ensures ops { OnOk result (seen body.new ≡ seen body.old ++ group (tree_of text.now) (length (seen body.old)) (record { made = made_of made; literals = literals.now })) }
    ensures numbered { OnOk result (IsNumbered body.new) }
{
    let operands = add_operands(alloc, text, places, body, literals)?;
    let _ = add(body, made_op(alloc, made, operands)?)?;
    Ok(())
}

/// Adds the registers of latches.
fn add_latches(
    alloc: Global,
    text: &AigerText,
    places: &Places,
    body: &mut Body,
) -> Result<(), AllocError>
    requires ready { IsReady text.now places.now }
    requires room { length (seen body.old) + 2 * length text.now.latches.items < 2 ^ 32 }
    requires numbered { IsNumbered body.old }
    ensures ops { OnOk result (seen body.new ≡ seen body.old ++ groups (tree_of text.now) (length (seen body.old)) (latch_users 0 text.now.latches.items)) }
    ensures numbered { OnOk result (IsNumbered body.new) }
{
    let mut k = 0;
    let mut rest = text.latches.as_slice();
    while let Some((latch, others)) = rest.split_first() {
        add_group(alloc, text, places, body, Made::Register(k), &[latch.next])?;
        k += 1;
        rest = others;
    }
    Ok(())
}

/// Adds the conjunctions of gates.
fn add_gates(
    alloc: Global,
    text: &AigerText,
    places: &Places,
    body: &mut Body,
) -> Result<(), AllocError>
    requires ready { IsReady text.now places.now }
    requires room { length (seen body.old) + 3 * length text.now.gates.items < 2 ^ 32 }
    requires numbered { IsNumbered body.old }
    ensures ops { OnOk result (seen body.new ≡ seen body.old ++ groups (tree_of text.now) (length (seen body.old)) (map gate_user text.now.gates.items)) }
    ensures numbered { OnOk result (IsNumbered body.new) }
{
    let mut rest = text.gates.as_slice();
    while let Some((gate, others)) = rest.split_first() {
        let literals = [gate.left, gate.right];
        add_group(alloc, text, places, body, Made::Conjunction, &literals)?;
        rest = others;
    }
    Ok(())
}
