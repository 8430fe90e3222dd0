//! Which designs are accepted: the first refusal of a design, in the order of its text, or none.
#![tactic(auto)]

mod accepted;
mod body_view;
mod entries;
mod faults;
mod headers;
mod laws;
mod operations;
mod reset_checks;
mod settled_types;
mod values;
mod verdicts;
mod verify_fail;

pub use accepted::Verified;
pub use faults::{first_fault, refused_at};
pub use laws::{
    accepted_designs_are_sound, locations_decide_no_verdict, resets_come_from_ports,
    results_are_settled, unrefused_designs_are_sound,
};
pub use verdicts::verify;
pub use verify_fail::VerifyFail;
