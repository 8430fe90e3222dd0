//! Designs to MLIR text.
#![tactic(auto)]

mod attributes;
mod chosen_names;
mod commas;
pub mod design_text;
mod dictionaries;
mod elements;
mod inherent_view;
mod instances;
pub mod laws;
mod literals;
mod modules;
mod numbers;
mod numerals;
mod operations;
mod shared_text;
mod strings;
mod types;
mod value_names;
mod wanted;
