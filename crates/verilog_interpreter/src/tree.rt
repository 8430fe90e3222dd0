//! Trees of Verilog texts (IEEE 1364-2005, Annex A), names of a module standing by their position among what it declares.
ghost use Rattle.std.specs.Prelude.{◌≤◌};

use bits_core::Bits;

/// A binary operator.
#[derive(Clone, Copy, PartialEq, Eq)]
pub enum Operator {
    Times,
    Over,
    Modulo,
    Plus,
    Minus,
    LeftShift,
    RightShift,
    SignedRightShift,
    Below,
    AtMost,
    Above,
    AtLeast,
    Equals,
    Differs,
    And,
    Xor,
    Or,
}

/// Which operands of an operator stand in its context (IEEE 1364-2005, 5.4.1, table 5-22).
#[derive(Clone, Copy, PartialEq, Eq)]
pub enum Context {
    BothOperands,
    LeftOperand,
    NoOperand,
}

impl Operator {
    /// How strongly the operator binds (IEEE 1364-2005, table 5-4): 9 for `*` down to 2 for `|`.
    pub fn strength(self) -> u32
        ensures { result ≤ 9 }
    {
        match self {
            Operator::Times | Operator::Over | Operator::Modulo => 9,
            Operator::Plus | Operator::Minus => 8,
            Operator::LeftShift | Operator::RightShift | Operator::SignedRightShift => 7,
            Operator::Below | Operator::AtMost | Operator::Above | Operator::AtLeast => 6,
            Operator::Equals | Operator::Differs => 5,
            Operator::And => 4,
            Operator::Xor => 3,
            Operator::Or => 2,
        }
    }

    /// Which operands stand in the operator's context.
    pub fn context(self) -> Context {
        match self.strength() {
            7 => Context::LeftOperand,
            5 | 6 => Context::NoOperand,
            _ => Context::BothOperands,
        }
    }

    /// Whether the operator divides.
    pub fn divides(self) -> bool {
        self == Operator::Over || self == Operator::Modulo
    }
}

/// A part of an expression, whose own parts stand before it.
#[derive(Clone, Copy)]
pub enum Node {
    /// A name, and its bits.
    Net {
        net: usize,
        width: u32,
    },
    /// Bits of a name, from a lowest one on.
    Select {
        net: usize,
        low: u32,
        width: u32,
    },
    /// A literal.
    Literal {
        word: Bits,
        is_signed: bool,
    },
    /// Parts of a concatenation so far, if any, and the next one.
    Joined {
        before: Option<usize>,
        part: usize,
    },
    /// Copies of a concatenation.
    Repeated {
        count: u32,
        part: usize,
    },
    /// `$signed` or `$unsigned`.
    Cast {
        is_signed: bool,
        operand: usize,
    },
    /// Exclusive or of all bits.
    Odd {
        operand: usize,
    },
    /// A binary operator.
    Binary {
        operator: Operator,
        left: usize,
        right: usize,
    },
    /// `condition ? yes : no`.
    Choice {
        condition: usize,
        yes: usize,
        no: usize,
    },
}

/// An expression: its parts, the whole one last.
#[derive(Drop)]
pub struct Expression {
    pub nodes: Vec<Node>,
}

/// What a declared name is.
#[derive(Clone, Copy, PartialEq, Eq)]
pub enum Role {
    Input,
    Output,
    Wire,
    Reg,
}

/// A name that a module declares, with its number of bits.
#[derive(Clone, Copy)]
pub struct Declared<'t> {
    pub name: &'t [u8],
    pub role: Role,
    pub width: u32,
    pub has_range: bool,
}

/// What a register takes, where the condition holds or none is asked.
#[derive(Drop)]
pub struct Branch {
    pub condition: Option<Expression>,
    pub value: Expression,
}

/// A register: its clock, its name, and its branches, of which the first that holds is taken. Where a second event loads it
/// too, that is the rise of a net, for which the first of its two branches asks.
#[derive(Drop)]
pub struct Always {
    pub clock: usize,
    pub second_event: Option<usize>,
    pub target: usize,
    pub branches: Vec<Branch>,
}

/// A connection of an instance: a port's name, and what is joined to it.
#[derive(Drop)]
pub struct Connection<'t> {
    pub port: &'t [u8],
    pub value: Expression,
}

/// An instance: its module's name and its connections.
#[derive(Drop)]
pub struct Instance<'t> {
    pub module_name: &'t [u8],
    pub connections: Vec<Connection<'t>>,
}

/// An item of a module, but a declaration.
#[derive(Drop)]
pub enum Item<'t> {
    Assign { target: usize, value: Expression },
    Register(Always),
    Child(Instance<'t>),
}

/// A module: its name, what it declares, its ports first, and its items.
#[derive(Drop)]
pub struct Module<'t> {
    pub name: &'t [u8],
    pub declared: Vec<Declared<'t>>,
    pub items: Vec<Item<'t>>,
}

/// The name that an expression is, if it is one alone.
pub fn only_name(expression: &Expression) -> Option<usize> {
    match expression.nodes.as_slice() {
        [Node::Net { net, .. }] => Some(*net),
        _ => None,
    }
}

/// The position of a name among what is declared.
pub fn position_of(declared: &[Declared], name: &[u8]) -> Option<usize> {
    for (at, other) in declared.iter().enumerate() {
        if other.name == name {
            return Some(at);
        }
    }
    None
}

/// The module of a name.
pub fn find_module<'p, 't>(modules: &'p [Module<'t>], name: &[u8]) -> Option<&'p Module<'t>> {
    for module in modules {
        if module.name == name {
            return Some(module);
        }
    }
    None
}
