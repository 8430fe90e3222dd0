//! Kinds of operations, types and words, as tables write them.
use bits_core::Bits;
use hw_model::kinds::{Instance, Integer, OpKind, Predicate, Reset};
use hw_model::types::{Field, FieldList, Ty};
use io_edge::byte_text::Text;
use operation_values::bit_string::BitString;
use operation_values::refusal::Refusal;
use std::alloc::Global;

/// A kind of operation. A field is told by its name, an instance by the symbol of its module.
#[derive(Clone, Copy)]
pub enum Kind {
    Add,
    Mul,
    And,
    Or,
    Xor,
    Sub,
    Divu,
    Modu,
    Divs,
    Mods,
    Shl,
    Shru,
    Shrs,
    Icmp(Predicate),
    Parity,
    Extract(u32),
    Concat,
    Replicate,
    Mux,
    Constant(Integer),
    ArrayCreate,
    ArrayConcat,
    ArrayGet,
    ArraySlice,
    ArrayInject,
    StructCreate,
    StructExtract(&'static str),
    StructInject(&'static str),
    StructExplode,
    Bitcast,
    Wire,
    CompReg(Reset),
    CompRegCe(Reset),
    FirReg(Reset),
    AsyncFirReg,
    Instance(&'static str),
    Output,
}

/// A type.
#[derive(Clone, Copy)]
pub enum Shape {
    Int(u32),
    Clock,
    /// An array of so many bytes.
    Bytes(u32),
    /// A struct of integers, each with its name.
    Struct(&'static [(&'static str, u32)]),
}

// The kind of an instance of a module, whose names mean nothing here.
fn instance(alloc: Global, symbol: &str) -> Result<OpKind, Refusal> {
    let instance = Instance {
        name: Text::new(alloc),
        inner_symbol: None,
        symbol: Text::of(alloc, symbol.as_bytes())?,
        inputs: Vec::new(alloc),
        outputs: Vec::new(alloc),
    };
    Ok(OpKind::Instance(Box::new(alloc, instance)?))
}

/// The kind that a table writes.
pub fn kind_of(alloc: Global, kind: Kind) -> Result<OpKind, Refusal> {
    Ok(match kind {
        Kind::Add => OpKind::Add,
        Kind::Mul => OpKind::Mul,
        Kind::And => OpKind::And,
        Kind::Or => OpKind::Or,
        Kind::Xor => OpKind::Xor,
        Kind::Sub => OpKind::Sub,
        Kind::Divu => OpKind::Divu,
        Kind::Modu => OpKind::Modu,
        Kind::Divs => OpKind::Divs,
        Kind::Mods => OpKind::Mods,
        Kind::Shl => OpKind::Shl,
        Kind::Shru => OpKind::Shru,
        Kind::Shrs => OpKind::Shrs,
        Kind::Icmp(predicate) => OpKind::Icmp(predicate),
        Kind::Parity => OpKind::Parity,
        Kind::Extract(low) => OpKind::Extract(low),
        Kind::Concat => OpKind::Concat,
        Kind::Replicate => OpKind::Replicate,
        Kind::Mux => OpKind::Mux,
        Kind::Constant(value) => OpKind::Constant(value),
        Kind::ArrayCreate => OpKind::ArrayCreate,
        Kind::ArrayConcat => OpKind::ArrayConcat,
        Kind::ArrayGet => OpKind::ArrayGet,
        Kind::ArraySlice => OpKind::ArraySlice,
        Kind::ArrayInject => OpKind::ArrayInject,
        Kind::StructCreate => OpKind::StructCreate,
        Kind::StructExtract(name) => OpKind::StructExtract(Text::of(alloc, name.as_bytes())?),
        Kind::StructInject(name) => OpKind::StructInject(Text::of(alloc, name.as_bytes())?),
        Kind::StructExplode => OpKind::StructExplode,
        Kind::Bitcast => OpKind::Bitcast,
        Kind::Wire => OpKind::Wire,
        Kind::CompReg(reset) => OpKind::CompReg(reset),
        Kind::CompRegCe(reset) => OpKind::CompRegCe(reset),
        Kind::FirReg(reset) => OpKind::FirReg(reset),
        Kind::AsyncFirReg => OpKind::AsyncFirReg,
        Kind::Instance(symbol) => instance(alloc, symbol)?,
        Kind::Output => OpKind::Output,
    })
}

fn fields_of(alloc: Global, fields: &[(&'static str, u32)]) -> Result<FieldList, Refusal> {
    let mut list = Vec::new(alloc);
    for (name, width) in fields {
        let name = Text::of(alloc, name.as_bytes())?;
        let ty = Ty::Int(*width);
        list.push(Field { name, ty })?;
    }
    Ok(FieldList { fields: list })
}

/// The type that a table writes.
pub fn type_of(alloc: Global, shape: Shape) -> Result<Ty, Refusal> {
    Ok(match shape {
        Shape::Int(width) => Ty::Int(width),
        Shape::Clock => Ty::Clock,
        Shape::Bytes(count) => Ty::Array(count, Box::new(alloc, Ty::Int(8))?),
        Shape::Struct(fields) => Ty::Struct(fields_of(alloc, fields)?),
    })
}

/// The types that a table writes.
pub fn types_of(alloc: Global, shapes: &[Shape]) -> Result<Vec<Ty>, Refusal> {
    let mut types = Vec::new(alloc);
    for shape in shapes {
        types.push(type_of(alloc, *shape)?)?;
    }
    Ok(types)
}

/// The word of a width and a number.
pub fn word(alloc: Global, width: u32, number: u128) -> Result<BitString, Refusal> {
    match Bits::new(width, number) {
        Some(bits) => Ok(BitString::from_bits(alloc, &bits)?),
        None => Err(Refusal::NotFitting),
    }
}
