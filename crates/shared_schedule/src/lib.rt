//! A schedule that several workers share: each module is worked once, after its callees, by whichever worker comes to it.
#![tactic(auto)]

mod gang;
mod gate;
mod making;
mod opening;
mod pieces;
mod plan;
mod plays;
mod rule;
mod shared;
mod slot;
mod view;
mod work;
mod worker;

pub use gang::run_modules;
pub use gate::{Gate, Open};
pub use pieces::Pieces;
pub use plan::Plan;
pub use shared::Shared;
pub use slot::Slot;
pub use view::{Hold, TableSlot, View};
pub use work::Work;
