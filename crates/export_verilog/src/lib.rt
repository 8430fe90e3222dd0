//! The Verilog of a design.
#![tactic(auto)]

mod acceptance;
mod always_blocks;
mod assigns;
mod body_names;
mod called;
mod connections;
mod declarations;
pub mod export;
mod instances;
mod laws;
mod legal_names;
mod lines;
mod module_items;
mod module_names;
mod module_text;
mod module_writer;
mod name_hints;
mod named_design;
mod op_names;
mod places;
mod ports;
mod register_statements;
mod statements;
mod values;

pub use acceptance::{accepted_designs_are_exportable, stored_designs_have_room};
pub use laws::{exported_designs_behave, exported_modules_behave_the_same};
