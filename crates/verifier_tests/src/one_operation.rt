//! Designs of one operation, told by what of them is in canonical form or not.
use crate::designs::design;
use diag::refusal::Location;
use hw_model::kinds::{Integer, Literal, LiteralList, OpKind};
use hw_model::types::Ty;
use io_edge::byte_text::Text;
use ir_store::design::Design;
use ir_store::dictionary::{Attribute, AttributeList, Dictionary, Entry};
use ir_store::operation::{NewOp, NewResult, NewResultList, TyList};
use smallvec::SmallVec;
use std::alloc::{AllocError, Global};

/// An operation on integers of eight bits without operands.
#[derive(Clone, Copy)]
pub(crate) enum Plain {
    /// `comb.add`
    Add,
    /// `hw.wire`
    Wire,
}

/// The value of an entry.
#[derive(Clone, Copy)]
pub(crate) enum Value {
    Unit,
    Text(&'static [u8]),
    /// An integer of 64 bits.
    Number(Integer),
    /// A list of a unit.
    UnitInList,
    /// A list of a truth value.
    TruthInList,
    /// So many lists, each within the one before; the last is empty.
    Lists(u32),
}

/// An entry of a dictionary.
#[derive(Clone, Copy)]
pub(crate) struct Said {
    pub(crate) key: &'static [u8],
    pub(crate) value: Value,
}

/// What the operation of a design is.
#[derive(Clone, Copy)]
pub(crate) enum Form {
    /// `hw.constant` of eight bits.
    Constant(Integer),
    /// `hw.aggregate_constant` of one part of eight bits within so many lists, its brackets counted.
    Parts(Integer, u32),
    /// One of these entries.
    Entries(Plain, &'static [Said]),
    /// One with an own name.
    Named(Plain),
    /// One with the mark `bin`.
    Bin(Plain),
    /// `comb.add` with a result of so many bits.
    Result(u32),
    /// `hw.output` with a result of so many bits.
    Output(u32),
    /// `hw.wire` of so many arrays, each within the one before.
    Arrays(u32),
}

// The type of so many arrays, each within the one before.
fn arrays(alloc: Global, depth: u32) -> Result<Ty, AllocError> {
    let mut ty = Ty::Int(8);
    for _ in 0..depth {
        ty = Ty::Array(1, Box::new(alloc, ty)?);
    }
    Ok(ty)
}

// One type.
fn one_type(alloc: Global, ty: Ty) -> Result<TyList, AllocError> {
    let mut types = Vec::new(alloc);
    types.push(ty)?;
    Ok(TyList::of(types))
}

// One result of a type.
fn one_result(alloc: Global, ty: Ty) -> Result<NewResultList, AllocError> {
    let mut results = Vec::new(alloc);
    results.push(NewResult { ty, again: false })?;
    Ok(NewResultList::of(results))
}

// An operation that writes a type and has a result of a given one.
fn operation(alloc: Global, kind: OpKind, ty: Ty, given: Ty) -> Result<NewOp, AllocError> {
    Ok(NewOp {
        kind,
        operands: SmallVec::new(alloc),
        types: one_type(alloc, ty)?,
        results: one_result(alloc, given)?,
        named: 1,
        name: Text::new(alloc),
        dictionary: Dictionary::new(alloc),
        bin: false,
        location: Location { line: 2, col: 3 },
    })
}

// An operation of eight bits.
fn of_bytes(alloc: Global, kind: OpKind) -> Result<NewOp, AllocError> {
    operation(alloc, kind, Ty::Int(8), Ty::Int(8))
}

// The kind of an operation.
fn kind_of(plain: Plain) -> OpKind {
    match plain {
        Plain::Add => OpKind::Add,
        Plain::Wire => OpKind::Wire,
    }
}

// A list of one attribute.
fn list_of(alloc: Global, attribute: Attribute) -> Result<Attribute, AllocError> {
    let mut attributes = Vec::new(alloc);
    attributes.push(attribute)?;
    Ok(Attribute::Array(AttributeList { attributes }))
}

// So many lists, each within the one before; the last is empty.
fn lists(alloc: Global, depth: u32) -> Result<Attribute, AllocError> {
    let mut value = Attribute::Array(AttributeList {
        attributes: Vec::new(alloc),
    });
    for _ in 1..depth {
        value = list_of(alloc, value)?;
    }
    Ok(value)
}

// The value of an entry.
fn attribute(alloc: Global, value: Value) -> Result<Attribute, AllocError> {
    match value {
        Value::Unit => Ok(Attribute::Unit),
        Value::Text(text) => Ok(Attribute::String(Text::of(alloc, text)?)),
        Value::Number(number) => Ok(Attribute::Integer(number, Ty::Int(64))),
        Value::UnitInList => list_of(alloc, Attribute::Unit),
        Value::TruthInList => list_of(alloc, Attribute::Bool(true)),
        Value::Lists(depth) => lists(alloc, depth),
    }
}

// A dictionary.
fn dictionary(alloc: Global, said: &[Said]) -> Result<Dictionary, AllocError> {
    let mut entries = Vec::new(alloc);
    for one in said {
        let key = Text::of(alloc, one.key)?;
        let value = attribute(alloc, one.value)?;
        entries.push(Entry { key, value })?;
    }
    Ok(Dictionary { entries })
}

// The parts of an aggregate: a number within so many lists, the brackets of all of them counted.
fn parts(alloc: Global, number: Integer, depth: u32) -> Result<LiteralList, AllocError> {
    let mut literals = Vec::new(alloc);
    literals.push(Literal::Leaf(number, Ty::Int(8)))?;
    for _ in 1..depth {
        let mut around = Vec::new(alloc);
        around.push(Literal::Parts(LiteralList { literals }))?;
        literals = around;
    }
    Ok(LiteralList { literals })
}

// An aggregate constant of a number within so many lists.
fn aggregate_constant(alloc: Global, number: Integer, depth: u32) -> Result<NewOp, AllocError> {
    let parts = parts(alloc, number, depth)?;
    of_bytes(alloc, OpKind::AggregateConstant(parts))
}

// An operation with these entries.
fn with_entries(alloc: Global, plain: Plain, said: &[Said]) -> Result<NewOp, AllocError> {
    let mut op = of_bytes(alloc, kind_of(plain))?;
    op.dictionary = dictionary(alloc, said)?;
    Ok(op)
}

// An operation with an own name.
fn with_name(alloc: Global, plain: Plain) -> Result<NewOp, AllocError> {
    let mut op = of_bytes(alloc, kind_of(plain))?;
    op.name = Text::of(alloc, b"x")?;
    Ok(op)
}

// An operation with the mark `bin`.
fn with_bin(alloc: Global, plain: Plain) -> Result<NewOp, AllocError> {
    let mut op = of_bytes(alloc, kind_of(plain))?;
    op.bin = true;
    Ok(op)
}

// A wire of so many arrays.
fn wire_of_arrays(alloc: Global, depth: u32) -> Result<NewOp, AllocError> {
    let ty = arrays(alloc, depth)?;
    let given = arrays(alloc, depth)?;
    operation(alloc, OpKind::Wire, ty, given)
}

// The operation of a form.
fn operation_of(alloc: Global, form: Form) -> Result<NewOp, AllocError> {
    match form {
        Form::Constant(number) => of_bytes(alloc, OpKind::Constant(number)),
        Form::Parts(number, depth) => aggregate_constant(alloc, number, depth),
        Form::Entries(plain, said) => with_entries(alloc, plain, said),
        Form::Named(plain) => with_name(alloc, plain),
        Form::Bin(plain) => with_bin(alloc, plain),
        Form::Result(width) => operation(alloc, OpKind::Add, Ty::Int(8), Ty::Int(width)),
        Form::Output(width) => operation(alloc, OpKind::Output, Ty::Int(8), Ty::Int(width)),
        Form::Arrays(depth) => wire_of_arrays(alloc, depth),
    }
}

// The design of one module of the operation of a form.
pub(crate) fn design_of(alloc: Global, form: Form) -> Result<Design, AllocError> {
    let op = operation_of(alloc, form)?;
    design(alloc, Vec::new(alloc), vec![in alloc; op]?)
}
