//! Positions of operations in a design.
use ir_store::operation::OpId;

/// An operation of a module.
#[derive(Clone, Copy, PartialEq, Eq)]
pub struct OpSite {
    /// The module's number.
    pub module: u32,
    /// The operation.
    pub op: OpId,
}
