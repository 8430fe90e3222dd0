//! What is asked of ports across modules: whether an instance names the ports of its module, and which ports reset
//! registers without their clocks.
#![tactic(auto)]

mod instances;
mod joined_ports;
mod joins;
mod laws;
mod named;
mod numbers;
mod ports;
mod reset_ports;

pub use instances::{are_types, instance_cause};
pub use laws::{locations_decide_no_reset_port, reset_ports_are_least};
pub use reset_ports::ResetPorts;
