//! The comparison of two modules by one formula (CIRCT: `circt-lec`; Brand, 1993).
//!
//! `specs/Comparisons.antt` says what is compared and why not, `specs/Comparable.antt` what the formula means.
#![tactic(auto)]

mod building;
pub mod comparing;
mod comparison_laws;
pub mod copies;
mod copy_laws;
mod early;
pub mod export_prices;
pub mod fail;
mod formula;
pub mod input;
pub mod miter;
mod operands;
mod pair;
mod price_laws;
mod prices;
pub mod widths;

pub use comparison_laws::{formulas_are_differences, unsatisfiable_formulas_agree};
pub use copies::flat_copy;
pub use copy_laws::{flat_copies_are_one, flat_copies_keep, privacy_decides_nothing};
pub use price_laws::prices_are_of_bodies;
