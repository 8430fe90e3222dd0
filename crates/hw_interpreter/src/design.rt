//! Designs as a program keeps them. Contracts see them by `design_of`, without names, dictionaries and positions.

use hw_model::kinds::OpKind;
use hw_model::types::Ty;
use io_edge::byte_text::Text;

/// An operand of an operation.
#[derive(Clone, Copy)]
pub enum Operand {
    /// A port of the module, by its position.
    Port(u32),
    /// A result of an operation: the position of the operation in the body, and the result's number.
    OpResult(u32, u32),
    /// What nothing defines.
    Undefined,
}

/// A port of a module.
#[derive(Drop)]
pub struct Port {
    /// Its name.
    pub name: Text,
    /// Whether it is an output.
    pub is_output: bool,
    /// Its type.
    pub ty: Ty,
}

/// An operation.
#[derive(Drop)]
pub struct Operation {
    /// Its kind.
    pub kind: OpKind,
    /// Its operands, in order.
    pub operands: Vec<Operand>,
    /// The types that it writes, in text order.
    pub types: Vec<Ty>,
    /// The types of its results.
    pub results: Vec<Ty>,
}

/// A module.
#[derive(Drop)]
pub struct Module {
    /// Its symbol.
    pub symbol: Text,
    /// Whether it is private.
    pub is_private: bool,
    /// Its ports, in order.
    pub ports: Vec<Port>,
    /// Its operations, in text order.
    pub body: Vec<Operation>,
}

/// A module in its design, with the bits of its inputs and of its registers.
#[derive(Clone, Copy)]
pub struct Setting<'a> {
    /// The modules of the design.
    pub modules: &'a [Module],
    /// The symbol of the module.
    pub top: &'a [u8],
    /// The bits of its inputs, in order.
    pub inputs: &'a [bool],
    /// The bits of its registers, in order.
    pub content: &'a [bool],
}
