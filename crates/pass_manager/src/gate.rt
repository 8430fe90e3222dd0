//! Where each module is shown before a pass works on it.

pub use shared_schedule::{Gate, Open};
