//! The kinds of operations, with the attributes that decide what they do.
ghost use Rattle.std.specs.Prelude.{◌≡◌, IfOk};
ghost use Rattle.hw_model.specs.KindViews.{kind_of, literal_of, literals_in, instance_of};

use crate::types::Ty;
use io_edge::byte_text::Text;
use std::alloc::{AllocError, Global};

/// The predicates of `comb.icmp`.
#[derive(Clone, Copy)]
pub enum Predicate {
    /// Equal.
    Eq,
    /// Different.
    Ne,
    /// Below, of the signed readings.
    Slt,
    /// Below or equal, of the signed readings.
    Sle,
    /// Above, of the signed readings.
    Sgt,
    /// Above or equal, of the signed readings.
    Sge,
    /// Below, of the numbers.
    Ult,
    /// Below or equal, of the numbers.
    Ule,
    /// Above, of the numbers.
    Ugt,
    /// Above or equal, of the numbers.
    Uge,
    /// Equal in each of four states; here `Eq`.
    Ceq,
    /// Different in some of four states; here `Ne`.
    Cne,
    /// Equal where both are known; here `Eq`.
    Weq,
    /// Different where both are known; here `Ne`.
    Wne,
}

/// What resets a register.
#[derive(Clone, Copy)]
pub enum Reset {
    /// Nothing.
    No,
    /// A signal that is read where the clock rises.
    Sync,
}

/// An integer, by its sign and a distance, as in the integers of CBOR (RFC 8949, 3.1).
#[derive(Clone, Copy)]
pub enum Integer {
    /// The number itself.
    NonNegative(u128),
    /// -1 less the number.
    Negative(u128),
}

/// A constant of an aggregate type.
#[cycle(literal)]
#[derive(Drop)]
pub enum Literal {
    /// A number of a type.
    Leaf(Integer, Ty),
    /// The constants of the parts.
    Parts(LiteralList),
}

/// The constants of the parts of an aggregate, the highest bits first.
#[cycle(literal)]
#[derive(Drop)]
pub struct LiteralList {
    /// The constants.
    pub literals: Vec<Literal>,
}

/// What an instance says besides its operands and types.
#[derive(Drop)]
pub struct Instance {
    /// Its own name.
    pub name: Text,
    /// Its inner symbol, where it has one.
    pub inner_symbol: Option<Text>,
    /// The symbol of its module.
    pub symbol: Text,
    /// The names of its operands, in order.
    pub inputs: Vec<Text>,
    /// The names of its results, in order.
    pub outputs: Vec<Text>,
}

/// The kind of an operation of the hw, comb or seq dialect (CIRCT: operation references).
#[derive(Drop)]
pub enum OpKind {
    /// `comb.add`
    Add,
    /// `comb.mul`
    Mul,
    /// `comb.and`
    And,
    /// `comb.or`
    Or,
    /// `comb.xor`
    Xor,
    /// `comb.sub`
    Sub,
    /// `comb.divu`
    Divu,
    /// `comb.modu`
    Modu,
    /// `comb.divs`
    Divs,
    /// `comb.mods`
    Mods,
    /// `comb.shl`
    Shl,
    /// `comb.shru`
    Shru,
    /// `comb.shrs`
    Shrs,
    /// `comb.icmp`, with its predicate
    Icmp(Predicate),
    /// `comb.parity`
    Parity,
    /// `comb.extract`, with the lowest bit that it takes
    Extract(u32),
    /// `comb.concat`
    Concat,
    /// `comb.replicate`
    Replicate,
    /// `comb.mux`
    Mux,
    /// `hw.constant`, with its value
    Constant(Integer),
    /// `hw.aggregate_constant`, with its parts
    AggregateConstant(LiteralList),
    /// `hw.array_create`
    ArrayCreate,
    /// `hw.array_concat`
    ArrayConcat,
    /// `hw.array_get`
    ArrayGet,
    /// `hw.array_slice`
    ArraySlice,
    /// `hw.array_inject`
    ArrayInject,
    /// `hw.struct_create`
    StructCreate,
    /// `hw.struct_extract`, with the name of its field
    StructExtract(Text),
    /// `hw.struct_inject`, with the name of its field
    StructInject(Text),
    /// `hw.struct_explode`
    StructExplode,
    /// `hw.bitcast`
    Bitcast,
    /// `hw.wire`
    Wire,
    /// `hw.instance`
    Instance(Box<Instance>),
    /// `hw.output`
    Output,
    /// `seq.compreg`
    CompReg(Reset),
    /// `seq.compreg.ce`
    CompRegCe(Reset),
    /// `seq.firreg`
    FirReg(Reset),
    /// `seq.firreg` with `reset async`
    AsyncFirReg,
}

impl Literal {
    /// An equal constant with memory of its own.
    #[cycle(copy_literal)]
    pub fn try_clone(&self, alloc: Global) -> Result<Literal, AllocError>
        ensures { IfOk result (λ copy. literal_of copy ≡ literal_of self.now) }
    {
        match self {
            Literal::Leaf(value, ty) => Ok(Literal::Leaf(*value, ty.try_clone(alloc)?)),
            Literal::Parts(list) => Ok(Literal::Parts(list.try_clone(alloc)?)),
        }
    }
}

impl LiteralList {
    /// Equal constants with memory of their own.
    #[cycle(copy_literal)]
    pub fn try_clone(&self, alloc: Global) -> Result<LiteralList, AllocError>
        ensures { IfOk result (λ copy. literals_in copy ≡ literals_in self.now) }
    {
        let mut literals = Vec::with_capacity(alloc, self.literals.len())?;
        for literal in &self.literals {
            literals.push(literal.try_clone(alloc)?)?;
        }
        Ok(LiteralList { literals })
    }
}

fn copied_texts(alloc: Global, texts: &[Text]) -> Result<Vec<Text>, AllocError>
    ensures { IfOk result (λ copies. copies.items ≡ texts.now) }
{
    let mut copies = Vec::with_capacity(alloc, texts.len())?;
    for text in texts {
        copies.push(text.try_clone(alloc)?)?;
    }
    Ok(copies)
}

fn copied_option(alloc: Global, text: &Option<Text>) -> Result<Option<Text>, AllocError>
    ensures { IfOk result (λ copy. copy ≡ text.now) }
{
    match text {
        None => Ok(None),
        Some(text) => Ok(Some(text.try_clone(alloc)?)),
    }
}

impl Instance {
    /// An equal instance with memory of its own.
    pub fn try_clone(&self, alloc: Global) -> Result<Instance, AllocError>
        ensures { IfOk result (λ copy. instance_of copy ≡ instance_of self.now) }
    {
        Ok(Instance {
            name: self.name.try_clone(alloc)?,
            inner_symbol: copied_option(alloc, &self.inner_symbol)?,
            symbol: self.symbol.try_clone(alloc)?,
            inputs: copied_texts(alloc, &self.inputs)?,
            outputs: copied_texts(alloc, &self.outputs)?,
        })
    }
}

impl OpKind {
    /// An equal kind with memory of its own.
    pub fn try_clone(&self, alloc: Global) -> Result<OpKind, AllocError>
        ensures { IfOk result (λ copy. kind_of copy ≡ kind_of self.now) }
    {
        if let Some(plain) = OpKind::of_listed(self.listed()) {
            return Ok(plain);
        }
        match self {
            OpKind::Icmp(predicate) => Ok(OpKind::Icmp(*predicate)),
            OpKind::Extract(low) => Ok(OpKind::Extract(*low)),
            OpKind::Constant(value) => Ok(OpKind::Constant(*value)),
            OpKind::AggregateConstant(list) => Ok(OpKind::AggregateConstant(list.try_clone(
                alloc,
            )?)),
            OpKind::StructExtract(name) => Ok(OpKind::StructExtract(name.try_clone(alloc)?)),
            OpKind::StructInject(name) => Ok(OpKind::StructInject(name.try_clone(alloc)?)),
            OpKind::Instance(instance) => {
                Ok(OpKind::Instance(Box::new(alloc, instance.try_clone(alloc)?)?))
            }
            OpKind::CompReg(reset) => Ok(OpKind::CompReg(*reset)),
            OpKind::CompRegCe(reset) => Ok(OpKind::CompRegCe(*reset)),
            OpKind::FirReg(reset) => Ok(OpKind::FirReg(*reset)),
            OpKind::AsyncFirReg => Ok(OpKind::AsyncFirReg),
            _ => unreachable!(),
        }
    }
}
