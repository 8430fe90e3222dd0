//! The table of folds as code: each pattern matches at an operation of a body where the pattern does, and changes the body as the pattern
//! says.
#![tactic(auto)]

pub mod attempts;
pub mod equal;
pub mod evaluated;
pub mod joined;
pub mod nested_patterns;
pub mod numbered;
pub mod operand_patterns;
pub mod parts;
pub mod pattern;
pub mod replaced_patterns;
pub mod standing;
pub mod table;
pub mod unused;
