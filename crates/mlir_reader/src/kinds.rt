//! The kinds of operations, from what their texts say.
ghost use Rattle.std.specs.Prelude.{◌≡◌, ◌-◌, ◌^◌, true, map, IfOk};
ghost use Rattle.std.specs.Box.{box_value};
ghost use Rattle.hw_model.specs.TypeViews.{type_of};
ghost use Rattle.hw_model.specs.KindViews.{kind_of, integer_of, predicate_of, reset_of, literal_of, literals_in, instance_of};
ghost use Rattle.mlir_reader.specs.Resolving.{kind_named, inherent_kind, inherent_predicate, inherent_position, inherent_number, inherent_literals, inherent_field, inherent_instance, inherent_reset, firreg_kind};
ghost use Rattle.stored_form.specs.Constants.{has_negative, kept_number, kept_integer, kept_by_first, kept_literal, kept_literals};
ghost use Rattle.mlir_operations.specs.ElementText.InherentAttributes.{nothing};
ghost use Rattle.mlir_operations.specs.Views.{inherent_of};

use hw_model::kinds::{Instance, Integer, Literal, LiteralList, OpKind, Predicate, Reset};
use hw_model::types::Ty;
use io_edge::byte_text::Text;
use mlir_operations::syntax::InherentAttributes;
use opcode::listed::Listed;
use std::alloc::{AllocError, Global};
use stored_form::constants::has_negative;

/// The kind of an operation of a name, from what its text says besides operands, and from its types.
pub fn kind_named(
    alloc: Global,
    name: Listed,
    inherent: InherentAttributes,
    types: &[Ty],
) -> Result<OpKind, AllocError>
    ensures { IfOk result (λ kind. kind_of kind ≡ kind_named name (inherent_of inherent) (map type_of types.now)) }
{
    match OpKind::of_listed(name) {
        Some(kind) => Ok(kind),
        None => inherent_kind(alloc, name, inherent, types),
    }
}

// The kind of an operation that its name and the rest of its text tell.
#[tactic(auto, unfolding(crate::specs::Resolving::inherent_kind))]
fn inherent_kind(
    alloc: Global,
    name: Listed,
    inherent: InherentAttributes,
    types: &[Ty],
) -> Result<OpKind, AllocError>
    ensures { IfOk result (λ kind. kind_of kind ≡ inherent_kind name (inherent_of inherent) (map type_of types.now)) }
{
    match name {
        Listed::CombIcmp => Ok(OpKind::Icmp(inherent_predicate(inherent))),
        Listed::CombExtract => Ok(OpKind::Extract(inherent_position(inherent))),
        Listed::HwConstant => Ok(OpKind::Constant(kept_by_first(types, inherent_number(inherent)))),
        Listed::HwAggregateConstant => {
            let kept = kept_literals(alloc, inherent_literals(alloc, inherent))?;
            Ok(OpKind::AggregateConstant(kept))
        }
        Listed::HwStructExtract => Ok(OpKind::StructExtract(inherent_field(alloc, inherent))),
        Listed::HwStructInject => Ok(OpKind::StructInject(inherent_field(alloc, inherent))),
        Listed::HwInstance => Ok(OpKind::Instance(inherent_instance(alloc, inherent)?)),
        Listed::SeqCompreg => Ok(OpKind::CompReg(inherent_reset(inherent))),
        Listed::SeqCompregCe => Ok(OpKind::CompRegCe(inherent_reset(inherent))),
        Listed::SeqFirreg => Ok(firreg_kind(inherent)),
        _ => Ok(OpKind::Output),
    }
}

// The predicate that is said.
fn inherent_predicate(inherent: InherentAttributes) -> Predicate
    ensures { predicate_of result ≡ inherent_predicate (inherent_of inherent) }
{
    match inherent {
        InherentAttributes::Predicate(predicate) => predicate,
        _ => Predicate::Eq,
    }
}

// The position that is said.
fn inherent_position(inherent: InherentAttributes) -> u32
    ensures { result ≡ inherent_position (inherent_of inherent) }
{
    match inherent {
        InherentAttributes::Position(position) => position,
        _ => 0,
    }
}

// The number that is said.
fn inherent_number(inherent: InherentAttributes) -> Integer
    ensures { integer_of result ≡ inherent_number (inherent_of inherent) }
{
    match inherent {
        InherentAttributes::Number(number) => number,
        _ => Integer::NonNegative(0),
    }
}

// The constants that are said.
fn inherent_literals(alloc: Global, inherent: InherentAttributes) -> LiteralList
    ensures { literals_in result ≡ inherent_literals (inherent_of inherent) }
{
    match inherent {
        InherentAttributes::Literals(list) => list,
        _ => LiteralList {
            literals: Vec::new(alloc),
        },
    }
}

// The name of a field that is said.
fn inherent_field(alloc: Global, inherent: InherentAttributes) -> Text
    ensures { result ≡ inherent_field (inherent_of inherent) }
{
    match inherent {
        InherentAttributes::FieldName(name) => name,
        _ => Text::new(alloc),
    }
}

// The instance that is said.
fn inherent_instance(
    alloc: Global,
    inherent: InherentAttributes,
) -> Result<Box<Instance>, AllocError>
    ensures { IfOk result (λ i. instance_of (box_value i) ≡ inherent_instance (inherent_of inherent)) }
{
    match inherent {
        InherentAttributes::Child(instance) => Ok(instance),
        _ => Ok(Box::new(alloc, nameless_instance(alloc))?),
    }
}

// An instance without names, of a module without a name.
fn nameless_instance(alloc: Global) -> Instance
    ensures { instance_of result ≡ inherent_instance nothing }
{
    Instance {
        name: Text::new(alloc),
        inner_symbol: None,
        symbol: Text::new(alloc),
        inputs: Vec::new(alloc),
        outputs: Vec::new(alloc),
    }
}

// Whether a reset is said.
fn inherent_reset(inherent: InherentAttributes) -> Reset
    ensures { reset_of result ≡ inherent_reset (inherent_of inherent) }
{
    match inherent {
        InherentAttributes::WithReset => Reset::Sync,
        _ => Reset::No,
    }
}

// The kind of a `seq.firreg`, by its reset.
fn firreg_kind(inherent: InherentAttributes) -> OpKind
    ensures { kind_of result ≡ firreg_kind (inherent_of inherent) }
{
    match inherent {
        InherentAttributes::WithAsyncReset => OpKind::AsyncFirReg,
        InherentAttributes::WithReset => OpKind::FirReg(Reset::Sync),
        _ => OpKind::FirReg(Reset::No),
    }
}

// A constant of the first of some types.
fn kept_by_first(types: &[Ty], number: Integer) -> Integer
    ensures { integer_of result ≡ kept_by_first (map type_of types.now) (integer_of number) }
{
    match types.first() {
        Some(ty) => kept_integer(ty, number),
        None => number,
    }
}

// A constant of a type: of an integer type its bits, where it is in range.
fn kept_integer(ty: &Ty, number: Integer) -> Integer
    ensures { integer_of result ≡ kept_integer (type_of ty.now) (integer_of number) }
{
    match ty {
        Ty::Int(width) => kept_number(*width, number),
        Ty::Clock | Ty::Array(..) | Ty::Struct(_) => number,
    }
}

// A constant of an integer type as its bits, where it is in range.
fn kept_number(width: u32, number: Integer) -> Integer
    ensures { integer_of result ≡ kept_number width (integer_of number) }
{
    match number {
        Integer::Negative(n) if has_negative(width, n) => Integer::NonNegative(bits(width, n)),
        Integer::Negative(_) | Integer::NonNegative(_) => number,
    }
}

// The bits of -1 less a number that is in the range of an integer type.
fn bits(width: u32, n: u128) -> u128
    requires { has_negative width n ≡ true }
    ensures { result ≡ 2 ^ width - 1 - n }
{
    let half = 1u128 << (width - 1);
    half + (half - 1 - n)
}

// A constant of an aggregate with its integers kept so.
#[cycle(keep_literal)]
fn kept_literal(alloc: Global, literal: Literal) -> Result<Literal, AllocError>
    ensures { IfOk result (λ kept. literal_of kept ≡ kept_literal (literal_of literal)) }
{
    match literal {
        Literal::Leaf(number, ty) => {
            let kept = kept_integer(&ty, number);
            Ok(Literal::Leaf(kept, ty))
        }
        Literal::Parts(list) => Ok(Literal::Parts(kept_literals(alloc, list)?)),
    }
}

// Constants with their integers kept so.
#[cycle(keep_literal)]
fn kept_literals(alloc: Global, list: LiteralList) -> Result<LiteralList, AllocError>
    ensures { IfOk result (λ kept. literals_in kept ≡ kept_literals (literals_in list)) }
{
    let mut literals = Vec::with_capacity(alloc, list.literals.len())?;
    for literal in list.literals {
        literals.push(kept_literal(alloc, literal)?)?;
    }
    Ok(LiteralList { literals })
}
