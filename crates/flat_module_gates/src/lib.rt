//! The gates of a flat module in code: an order of its operations, and the signals of its values.
#![tactic(auto)]

pub mod kinds;
pub mod order;
pub mod ports;
pub mod registers;
pub mod sides;
pub mod stepped;
pub mod values;
pub mod widths;
