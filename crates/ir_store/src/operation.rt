//! The parts of an operation.
ghost use Rattle.std.specs.Prelude.{◌≡◌, map, length, IfOk};
ghost use Rattle.ir_store.specs.BodyOps.{same_value, is_of};
ghost use Rattle.hw_model.specs.KindViews.{kind_of};
ghost use Rattle.hw_model.specs.TypeViews.{type_of};
ghost use Rattle.ir_store.specs.OperationViews.{location_of, types_in, result_of, results_in, parts_of, new_parts, typed_parts};

use crate::dictionary::Dictionary;
use crate::short_list::ShortList;
use diag::refusal::Location;
use hw_model::kinds::OpKind;
use hw_model::types::Ty;
use io_edge::byte_text::Text;
use smallvec::SmallVec;
use std::alloc::{AllocError, Global};

/// What names an operation of a body while the body has it.
#[derive(Clone, Copy, PartialEq, Eq)]
pub struct OpId {
    pub(crate) index: u32,
}

/// An operand.
#[derive(Clone, Copy, Default, PartialEq, Eq)]
pub enum Value {
    /// A port of the module, by its position.
    Port(u32),
    /// A result of an operation, by its number.
    Result(OpId, u32),
    /// What nothing defines.
    #[default]
    Undefined,
}

/// A position in a body where a value is used.
#[derive(Clone, Copy, PartialEq, Eq)]
pub struct UsePosition {
    /// The operation that uses the value.
    pub op: OpId,
    /// Which of its operands it is.
    pub at: u32,
}

/// A use of a value in a body, until the body changes.
#[derive(Clone, Copy, PartialEq, Eq)]
pub struct UseId {
    pub(crate) cell: u32,
}

/// A result of an operation.
#[derive(Drop)]
pub struct NewResult {
    /// Its type.
    pub ty: Ty,
    /// Whether its value name was defined earlier.
    pub again: bool,
}

/// Types in order. Contracts see them by `types_in`.
pub type TyList = ShortList<Ty>;

/// Results in order. Contracts see them by `results_in`.
pub type NewResultList = ShortList<NewResult>;

/// An operation that is to be put into a body.
#[derive(Drop)]
pub struct NewOp {
    /// Its kind.
    pub kind: OpKind,
    /// Its operands.
    pub operands: SmallVec<Value, 4, Global>,
    /// The types that are written, in text order.
    pub types: TyList,
    /// Its results.
    pub results: NewResultList,
    /// How many of its results are named.
    pub named: u32,
    /// The own name of a register or a wire, empty where there is none.
    pub name: Text,
    /// Its dictionary.
    pub dictionary: Dictionary,
    /// Whether it has the mark `bin`.
    pub bin: bool,
    /// Its location in the source.
    pub location: Location,
}

/// What a body keeps of an operation besides its operands.
#[derive(Drop)]
pub struct Parts {
    pub(crate) kind: OpKind,
    pub(crate) types: TyList,
    pub(crate) results: NewResultList,
    pub(crate) named: u32,
    pub(crate) name: Text,
    pub(crate) dictionary: Dictionary,
    pub(crate) bin: bool,
    pub(crate) location: Location,
}

impl NewOp {
    /// An operation with one result, of the type that is written; without a name, a dictionary and the mark `bin`. The error
    /// comes only when out of memory.
    pub fn of_type(
        alloc: Global,
        kind: OpKind,
        operands: &[Value],
        ty: &Ty,
        location: Location,
    ) -> Result<NewOp, AllocError>
        ensures parts { IfOk result (λ op. new_parts op ≡ typed_parts (kind_of kind) (type_of ty.now) (location_of location)) }
        ensures operands { IfOk result (λ op. op.operands.items ≡ operands.now) }
    {
        Ok(NewOp {
            kind,
            operands: SmallVec::from_slice(alloc, operands)?,
            types: TyList::One(ty.try_clone(alloc)?),
            results: NewResultList::One(NewResult {
                ty: ty.try_clone(alloc)?,
                again: false,
            }),
            named: 1,
            name: Text::new(alloc),
            dictionary: Dictionary::new(alloc),
            bin: false,
            location,
        })
    }

    /// The parts besides the operands. It takes no memory.
    pub(crate) fn into_parts(self) -> Parts
        ensures { parts_of result ≡ new_parts self }
    {
        let NewOp {
            kind,
            operands: _,
            types,
            results,
            named,
            name,
            dictionary,
            bin,
            location,
        } = self;
        Parts {
            kind,
            types,
            results,
            named,
            name,
            dictionary,
            bin,
            location,
        }
    }
}

impl NewResult {
    /// An equal result with memory of its own.
    pub fn try_clone(&self, alloc: Global) -> Result<NewResult, AllocError>
        ensures { IfOk result (λ copy. result_of copy ≡ result_of self.now) }
    {
        Ok(NewResult {
            ty: self.ty.try_clone(alloc)?,
            again: self.again,
        })
    }
}

impl ShortList<Ty> {
    /// Equal types with memory of their own.
    pub fn try_clone(&self, alloc: Global) -> Result<TyList, AllocError>
        ensures { IfOk result (λ copy. types_in copy ≡ types_in self.now) }
    {
        let mut copy = ShortList::with_room(alloc, self.len())?;
        for ty in self.as_slice() {
            copy.push(alloc, ty.try_clone(alloc)?)?;
        }
        Ok(copy)
    }
}

impl ShortList<NewResult> {
    /// Equal results with memory of their own.
    pub fn try_clone(&self, alloc: Global) -> Result<NewResultList, AllocError>
        ensures { IfOk result (λ copy. results_in copy ≡ results_in self.now) }
    {
        let mut copy = ShortList::with_room(alloc, self.len())?;
        for one in self.as_slice() {
            copy.push(alloc, one.try_clone(alloc)?)?;
        }
        Ok(copy)
    }
}

impl Parts {
    /// The parts of no operation. They take no memory.
    pub(crate) fn empty(alloc: Global) -> Parts {
        Parts {
            kind: OpKind::Output,
            types: TyList::new(),
            results: NewResultList::new(),
            named: 0,
            name: Text::new(alloc),
            dictionary: Dictionary::new(alloc),
            bin: false,
            location: Location::start(),
        }
    }

    /// Equal parts with memory of their own.
    pub(crate) fn try_clone(&self, alloc: Global) -> Result<Parts, AllocError>
        ensures { IfOk result (λ copy. parts_of copy ≡ parts_of self.now) }
    {
        Ok(Parts {
            kind: self.kind.try_clone(alloc)?,
            types: self.types.try_clone(alloc)?,
            results: self.results.try_clone(alloc)?,
            named: self.named,
            name: self.name.try_clone(alloc)?,
            dictionary: self.dictionary.try_clone(alloc)?,
            bin: self.bin,
            location: self.location,
        })
    }
}

/// Equal parts, one by one, with memory of their own.
pub(crate) fn copied_parts(alloc: Global, parts: &[Parts]) -> Result<Vec<Parts>, AllocError>
    ensures parts { IfOk result (λ copies. map parts_of copies.items ≡ map parts_of parts.now) }
    ensures count { IfOk result (λ copies. length copies.items ≡ length parts.now) }
{
    let mut copies = Vec::with_capacity(alloc, parts.len())?;
    for one in parts {
        copies.push(one.try_clone(alloc)?)?;
    }
    Ok(copies)
}

/// Whether two values are one: the same port, the same result of the same operation, or both undefined.
pub fn is_same(a: Value, b: Value) -> bool
    ensures { result ≡ same_value a b }
{
    match a {
        Value::Port(m) => match b {
            Value::Port(n) => m == n,
            Value::Result(..) | Value::Undefined => false,
        },
        Value::Result(id, m) => match b {
            Value::Result(other, n) => id.index == other.index && m == n,
            Value::Port(_) | Value::Undefined => false,
        },
        Value::Undefined => match b {
            Value::Undefined => true,
            Value::Port(_) | Value::Result(..) => false,
        },
    }
}

/// Whether the value is a result of the operation `op`.
pub(crate) fn is_result_of(value: Value, op: OpId) -> bool
    ensures { result ≡ is_of op.index value }
{
    match value {
        Value::Result(id, _) => id.index == op.index,
        Value::Port(_) | Value::Undefined => false,
    }
}
