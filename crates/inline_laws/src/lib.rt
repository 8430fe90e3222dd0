//! The law of inlining: an instance becomes the body of its module.
#![tactic(auto)]

mod laws;

pub use laws::{
    inline_preserves, inline_without_wires_preserves, inlining_is_lighter, inlining_keeps_shape,
    unwire_preserves,
};
