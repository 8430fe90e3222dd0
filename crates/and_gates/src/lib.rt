//! The and gates of one module of a design, or why it has none to be told (AIGER, Biere, 2007: and-inverter graphs with latches).
#![tactic(auto)]

mod clocks;
pub mod fail;
mod faults;
mod laws;
pub mod steps;

pub use laws::{
    clocked_steps_are_steps, clocks_are_ports, exports_are_bounded, exports_are_one,
    exports_have_one_clock,
};
