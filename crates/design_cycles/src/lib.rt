//! Questions about a design that are answered module by module, without expanding an instance: which instance is the first
//! on a cycle of modules, which module is the first that is too large, and which operation is the first on a
//! combinational cycle.
#![tactic(auto)]

mod bit_set_lists;
mod bit_sets;
mod calls;
mod cycles;
mod hierarchy;
mod in_order;
mod layout;
mod op_site;
mod ops;
mod recursion;
mod size;
mod summaries;
mod symbols;
mod weights;
mod wired;
mod wires;

pub use calls::call_graph;
pub use cycles::first_cycle;
pub use hierarchy::{Hierarchy, module_order};
pub use op_site::OpSite;
pub use recursion::first_recursive;
pub use size::first_too_large;
pub use symbols::has_distinct_symbols;
