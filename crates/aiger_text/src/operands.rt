//! The values of literals.
ghost use Rattle.std.specs.Prelude.{◌≡◌, ◌+◌, ◌<◌, ◌^◌, ◌++◌, [], ◌∷◌, length, map, slice_index, Some, IfOk};
ghost use Rattle.ir_store.specs.Bodies.{op_id};
ghost use Rattle.ir_store.specs.Numbered.{ref_by};
ghost use Rattle.ir_store.specs.declared.operation.Value.TheVariants.{Result};
ghost use Rattle.aiger_design.specs.Positions.{inverter_count, input_port, driver_ref, variable_ref, plain_ref, operands};
ghost use Rattle.aiger_design.specs.Built.{inverters};
ghost use Rattle.aiger_reader.specs.Kept.{tree_of, driver_in};
ghost use Rattle.aiger_text.specs.Places.{IsReady, IsThere, constant_at};
ghost use Rattle.aiger_text.specs.Seen.{op_seen, seen, IsNumbered};

use crate::operations::{Operands, inverter_op};
use crate::places::{Places, is_inverted};
use aiger_reader::drivers::Driver;
use aiger_reader::text::AigerText;
use ir_store::body::Body;
use ir_store::operation::{NewOp, OpId, Value};
use smallvec::SmallVec;
use std::alloc::{AllocError, Global};

/// Adds an operation at the end.
pub(crate) fn add(body: &mut Body, op: NewOp) -> Result<OpId, AllocError>
    requires room { length (seen body.old) + 1 < 2 ^ 32 }
    requires numbered { IsNumbered body.old }
    ensures ok { IfOk result (λ _. seen body.new ≡ seen body.old ++ op_seen op ∷ []) }
    ensures id { IfOk result (λ id. id.index ≡ length (seen body.old)) }
    ensures numbered { IfOk result (λ _. IsNumbered body.new) }
{
    let id = body.add_op(None, op)?;
    Ok(id)
}

/// The first result of the operation at a position.
fn result_at(position: u32) -> Value
    ensures { result ≡ Result (op_id position) 0 }
{
    Value::Result(OpId::nth(position), 0)
}

/// The value of an input.
fn input_port(text: &AigerText, place: u32) -> Value
    requires { place + 1 < 2 ^ 32 }
    ensures { ref_by (λ i. i) result ≡ input_port text.now.latches.items place }
{
    if text.latches.is_empty() {
        Value::Port(place)
    } else {
        Value::Port(place + 1)
    }
}

/// The value of the own operation of a latch or a gate.
fn own_value(places: &Places, user: u32) -> Value
    requires { user < length places.now.ends.items }
    ensures { result ≡ Result (op_id (slice_index places.now.ends.items user)) 0 }
{
    result_at(places.ends[user as usize])
}

/// The value of a variable.
fn variable_value(text: &AigerText, places: &Places, variable: u32) -> Value
    requires { IsReady text.now places.now }
    ensures { ref_by (λ i. i) result ≡ variable_ref (tree_of text.now) variable }
{
    match text.drivers.driver(variable) {
        None => Value::Undefined,
        Some(driver) => driver_value(text, places, driver),
    }
}

/// The value that a driver gives.
fn driver_value(text: &AigerText, places: &Places, driver: Driver) -> Value
    requires ready { IsReady text.now places.now }
    requires there { IsThere (tree_of text.now) (driver_in (Some driver)) }
    ensures { ref_by (λ i. i) result ≡ driver_ref (tree_of text.now) (driver_in (Some driver)) }
{
    match driver {
        Driver::Input(place) => input_port(text, place),
        Driver::Latch(place) => own_value(places, place),
        Driver::Gate(place) => own_value(places, text.latches.len() as u32 + place),
    }
}

/// The value of a literal that takes no inverter.
fn plain_value(text: &AigerText, places: &Places, literal: u32) -> Value
    requires { IsReady text.now places.now }
    ensures { ref_by (λ i. i) result ≡ plain_ref (tree_of text.now) literal }
{
    if literal / 2 == 0 {
        constant_value(places, literal % 2 == 1)
    } else {
        variable_value(text, places, literal / 2)
    }
}

/// The value of a constant.
fn constant_value(places: &Places, constant: bool) -> Value
    ensures { ref_by (λ i. i) result ≡ constant_at places.now.has_true constant }
{
    if constant {
        result_at(0)
    } else {
        result_at(u32::from(places.has_true))
    }
}

/// The value of a literal, once the inverter that it takes is added.
fn add_operand(
    alloc: Global,
    text: &AigerText,
    places: &Places,
    body: &mut Body,
    literal: u32,
) -> Result<Value, AllocError>
    requires ready { IsReady text.now places.now }
    requires room { length (seen body.old) + 1 < 2 ^ 32 }
    requires numbered { IsNumbered body.old }
    ensures ops { IfOk result (λ _. seen body.new ≡ seen body.old ++ inverters (tree_of text.now) (literal ∷ [])) }
    ensures value { IfOk result (λ value. ref_by (λ i. i) value ∷ [] ≡ operands (tree_of text.now) (length (seen body.old)) (literal ∷ [])) }
    ensures numbered { IfOk result (λ _. IsNumbered body.new) }
{
    if !is_inverted(literal) {
        return Ok(plain_value(text, places, literal));
    }
    let negated = variable_value(text, places, literal / 2);
    let id = add(body, inverter_op(alloc, negated)?)?;
    Ok(Value::Result(id, 0))
}

/// The values of literals, once the inverters that they take are added.
pub(crate) fn add_operands(
    alloc: Global,
    text: &AigerText,
    places: &Places,
    body: &mut Body,
    literals: &[u32],
) -> Result<Operands, AllocError>
    requires ready { IsReady text.now places.now }
    requires room { length (seen body.old) + inverter_count literals.now + 1 < 2 ^ 32 }
    requires numbered { IsNumbered body.old }
    ensures ops { IfOk result (λ _. seen body.new ≡ seen body.old ++ inverters (tree_of text.now) literals.now) }
    ensures values { IfOk result (λ values. map (ref_by (λ i. i)) values.items ≡ operands (tree_of text.now) (length (seen body.old)) literals.now) }
    ensures numbered { IfOk result (λ _. IsNumbered body.new) }
{
    let mut values = SmallVec::new(alloc);
    let mut rest = literals;
    while let Some((literal, others)) = rest.split_first() {
        values.push(add_operand(alloc, text, places, body, *literal)?)?;
        rest = others;
    }
    Ok(values)
}
