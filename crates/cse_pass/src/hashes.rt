//! Hashes of operations.
ghost use Rattle.std.specs.Prelude.{◌≡◌, map, slice_get, option_map};
ghost use Rattle.hw_model.specs.KindViews.{kind_of, integer_of, literal_of, literals_of};
ghost use Rattle.hw_model.specs.Kinds.Kind.{constant};
ghost use Rattle.hw_model.specs.Kinds.Literal.{leaf};
ghost use Rattle.hw_model.specs.TypeViews.{type_of};
ghost use Rattle.ir_store.specs.Bodies.{read_parts};
ghost use Rattle.ir_store.specs.OperationViews.{result_of, results_in};
ghost use Rattle.cse_pass.specs.EqualOps.{value_kind, value_literal, value_literals};
ghost use Rattle.cse_pass.specs.Hashes.{mixed, with_value, with_values, with_bytes, with_low, with_literal, with_literals, with_attributes, width_number, attribute_number, hash_of};
ghost use Rattle.cse_pass.specs.Same.{first_type};

use crate::equal_constants::low_number;
use hw_model::kinds::{Integer, Literal, OpKind};
use hw_model::types::Ty;
use ir_store::body::Op;
use ir_store::operation::{NewResult, NewResultList, Value};

/// What a hash is multiplied by: 2^64 by the golden ratio, made odd.
const FACTOR: u64 = 11_400_714_819_323_198_485;

/// A number in which equal operations agree: of the opcode, the operands, the width of the first result, the lowest bit of an
/// extract, the numbers of a constant as its type reads them, and the name of a field. Linear in the operands, in the type of
/// the first result, and in the parts and their types of a constant.
pub fn hash_of(op: &Op<'_>) -> u64
    ensures { result ≡ hash_of (read_parts op.now) op.now.operands.now }
{
    with_values(attribute_number(op), op.operands)
}

/// The number that the hash begins with.
fn attribute_number(op: &Op<'_>) -> u64
    ensures { result ≡ attribute_number (kind_of op.now.kind.now) (first_type (read_parts op.now)) }
{
    let width = width_number(op.results.as_slice().first());
    let opcode = with_bytes(width, op.kind.listed().name());
    with_attributes(opcode, op.kind, op.results)
}

/// The width of the type of a result, where there is one.
fn width_number(of: Option<&NewResult>) -> u64
    ensures { result ≡ width_number (option_map (λ r. (result_of r.now).type) of.entry) }
{
    match of {
        Some(of) => of.ty.width(),
        None => 0,
    }
}

/// A hash with what a kind says besides its opcode, numbers being read by the type of the first result.
fn with_attributes(hash: u64, kind: &OpKind, results: &NewResultList) -> u64
    ensures { result ≡ with_attributes hash (value_kind (option_map (λ r. r.type) (slice_get (results_in results.now) 0)) (kind_of kind.now)) }
{
    match kind {
        OpKind::Extract(low) => mix(hash, u64::from(*low)),
        OpKind::Constant(value) => with_constant(hash, *value, results.as_slice().first()),
        OpKind::AggregateConstant(list) => with_literals(hash, &list.literals),
        OpKind::StructExtract(name) => with_bytes(hash, name.as_bytes()),
        OpKind::StructInject(name) => with_bytes(hash, name.as_bytes()),
        _ => hash,
    }
}

/// A hash with the number of a constant in it, read by the type of a result.
fn with_constant(hash: u64, value: Integer, of: Option<&NewResult>) -> u64
    ensures { result ≡ with_attributes hash (value_kind (option_map (λ r. (result_of r.now).type) of.entry) (constant (integer_of value))) }
{
    match of {
        Some(of) => with_low(hash, low_number(of.ty.width(), value)),
        None => with_integer(hash, value),
    }
}

/// A hash with a number in it that no type reads.
fn with_integer(hash: u64, value: Integer) -> u64
    ensures { result ≡ with_attributes hash (constant (integer_of value)) }
{
    match value {
        Integer::NonNegative(number) => with_low(hash, number),
        Integer::Negative(_) => hash,
    }
}

/// A hash with the numbers of constants in it, each read by its type, and the widths of these.
#[cycle(with_literal)]
fn with_literals(hash: u64, literals: &[Literal]) -> u64
    ensures { result ≡ with_literals hash (value_literals (literals_of (map literal_of literals.now))) }
{
    let mut all = hash;
    for literal in literals {
        all = with_literal(all, literal);
    }
    all
}

#[cycle(with_literal)]
fn with_literal(hash: u64, literal: &Literal) -> u64
    ensures { result ≡ with_literal hash (value_literal (literal_of literal.now)) }
{
    match literal {
        Literal::Leaf(value, ty) => with_leaf(hash, *value, ty),
        Literal::Parts(list) => with_literals(hash, &list.literals),
    }
}

/// A hash with a number in it as a type reads it, and the width of that.
fn with_leaf(hash: u64, value: Integer, ty: &Ty) -> u64
    ensures { result ≡ with_literal hash (value_literal (leaf (integer_of value) (type_of ty.now))) }
{
    let width = ty.width();
    mix(with_low(hash, low_number(width, value)), width)
}

/// A hash with the values of operands in it, one after another.
fn with_values(hash: u64, values: &[Value]) -> u64
    ensures { result ≡ with_values hash values.now }
{
    let mut all = hash;
    for value in values {
        all = with_value(all, *value);
    }
    all
}

/// A hash with one more value in it.
fn with_value(hash: u64, value: Value) -> u64
    ensures { result ≡ with_value hash value }
{
    match value {
        Value::Port(number) => mix(mix(hash, 4_294_967_295), u64::from(number)),
        Value::Result(id, number) => mix(mix(hash, u64::from(number)), u64::from(id.number())),
        Value::Undefined => mix(hash, 4_294_967_295),
    }
}

/// A hash with bytes in it, one after another.
fn with_bytes(hash: u64, bytes: &[u8]) -> u64
    ensures { result ≡ with_bytes hash bytes.now }
{
    let mut all = hash;
    for byte in bytes {
        all = mix(all, u64::from(*byte));
    }
    all
}

/// A hash with a number of 128 bits in it.
#[tactic(auto, unfolding(crate::specs::Hashes::with_low))]
fn with_low(hash: u64, number: u128) -> u64
    ensures { result ≡ with_low hash number }
{
    let low = (number % (1 << 64)) as u64;
    let high = (number / (1 << 64)) as u64;
    mix(mix(hash, low), high)
}

/// A hash with one more number in it.
#[tactic(auto, unfolding(crate::specs::Hashes::mixed))]
fn mix(hash: u64, number: u64) -> u64
    ensures { result ≡ mixed hash number }
{
    hash.wrapping_mul(FACTOR).wrapping_add(number)
}
