//! Where the values of a body stand among the nodes of its graph, and what is kept of a module.
ghost use Rattle.std.specs.Prelude.{◌<◌, ◌+◌, ◌^◌};

use graphs::NodeList;

/// Of each output of a module, the numbers of the inputs that it depends on or is.
#[derive(Drop)]
pub(crate) struct Summary {
    /// The lists of the outputs.
    pub(crate) outputs: Vec<NodeList>,
}

/// The nodes of an operation's results.
#[derive(Clone, Copy)]
pub(crate) struct Span {
    /// The first of them.
    pub(crate) start: u32,
    /// How many there are.
    pub(crate) size: u32,
    ghost fits: { start + size < 2 ^ 32 },
}

/// Which values of a body have nodes: its ports, and the results of its operations.
#[derive(Drop)]
pub(crate) struct Layout {
    /// How many ports there are.
    pub(crate) ports: u32,
    /// The nodes of each operation's results, by its position.
    pub(crate) spans: Vec<Span>,
    /// The position of each operation by the number of its id, or the number of operations.
    pub(crate) positions: Vec<u32>,
}
