//! Edits of a module's body by which a design stays accepted and printable.
//!
//! Of the operands of an operation the verifier asks little (`specs/Asked.antt`): where an edit of `edit_laws` puts for each
//! operand a value of which no more is refused, and what is new fits its body, the design stays accepted and printable
//! (`specs/Keeps.antt`).
#![tactic(auto)]

mod laws;

pub use laws::{
    causes_are_asked, each_edit_keeps_fit, edits_keep_fit, fit_designs_are_accepted,
    removal_keeps_fit,
};
