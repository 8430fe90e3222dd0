//! What a text says, before names are resolved. Names of values borrow the text.
use diag::refusal::Location;
use hw_model::kinds::{Instance, Integer, LiteralList, Predicate};
use hw_model::types::Ty;
use io_edge::byte_text::Text;
use ir_store::dictionary::Dictionary;
use ir_store::operation::TyList;
use opcode::listed::Listed;
use smallvec::SmallVec;
use std::alloc::Global;

/// A value as the text names it.
#[derive(Clone, Copy, Default)]
pub struct OperandName<'s> {
    /// Its name, without the sign.
    pub name: &'s [u8],
    /// Its number within a pack.
    pub number: u32,
}

/// How the results of an operation are named.
#[derive(Drop)]
pub enum ResultNames<'s> {
    /// Not at all.
    Unnamed,
    /// One by one: the first, and those after it.
    Names(&'s [u8], Vec<&'s [u8]>),
    /// As a pack of so many.
    Pack(&'s [u8], u32),
}

/// What the text of an operation says besides its operands and types.
#[derive(Drop)]
pub enum InherentAttributes {
    /// Nothing.
    Nothing,
    /// That the register has a reset.
    WithReset,
    /// That the register has an asynchronous reset.
    WithAsyncReset,
    /// A predicate.
    Predicate(Predicate),
    /// A position.
    Position(u32),
    /// A number.
    Number(Integer),
    /// The constants of an aggregate.
    Literals(LiteralList),
    /// The name of a field.
    FieldName(Text),
    /// An instance.
    Child(Box<Instance>),
}

/// What is read of an operation after its name.
#[derive(Drop)]
pub struct Gathered<'s> {
    /// Its operands.
    pub operands: SmallVec<OperandName<'s>, 4, Global>,
    /// The types that are written, in text order.
    pub types: TyList,
    /// The rest.
    pub inherent: InherentAttributes,
}

/// An operation as its text says it.
#[derive(Drop)]
pub struct OperationText<'s> {
    /// The names of its results.
    pub results: ResultNames<'s>,
    /// Its name.
    pub name: Listed,
    /// Whether it has the mark `bin`.
    pub bin: bool,
    /// What stands after its name.
    pub gathered: Gathered<'s>,
    /// Its dictionary, as it is written.
    pub dictionary: Dictionary,
    /// The location of its name.
    pub location: Location,
}

/// A port as its text says it.
#[derive(Drop)]
pub struct PortText<'s> {
    /// Of an input the name of its value; an output has none.
    pub value: Option<&'s [u8]>,
    /// Its name.
    pub name: Text,
    /// Its type.
    pub ty: Ty,
}
