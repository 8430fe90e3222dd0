//! The legal names of a design's modules and of their ports.
ghost use Rattle.std.specs.Prelude.{◌≡◌, map, length, IfOk};
ghost use Rattle.hw_model.specs.Design.{Port};
ghost use Rattle.ir_store.specs.Designs.{port_of, design_of};
ghost use Rattle.name_legalise.specs.Legal.{legal};
ghost use Rattle.export_verilog.specs.Exported.{symbol_names};
ghost use Rattle.export_verilog.specs.Held.{ArePortNames};

use io_edge::byte_text::Text;
use ir_store::design;
use ir_store::design::Design;
use name_legalise::names::legal_list;
use std::alloc::{AllocError, Global};

/// More names than this want more memory than there is.
pub const MOST_NAMES: usize = 4_000_000_000;

// The legal names of wanted ones, in order. The error is out of memory, as with more than 4,000,000,000 names.
fn legal_texts(alloc: Global, wanted: &[Text]) -> Result<Vec<Text>, AllocError>
    ensures { IfOk result (λ names. names.items ≡ legal wanted.now) }
{
    if wanted.len() > MOST_NAMES {
        return Err(AllocError);
    }
    legal_list(alloc, wanted)
}

// The symbols of a design's modules.
fn symbols(alloc: Global, design: &Design) -> Result<Vec<Text>, AllocError>
    ensures { IfOk result (λ wanted. wanted.items ≡ map (λ m. m.symbol) (design_of design.now)) }
{
    let mut wanted = Vec::new(alloc);
    for number in 0..design.module_count() {
        wanted.push(design.module(number).symbol.try_clone(alloc)?)?;
    }
    Ok(wanted)
}

/// The names of a design's modules in Verilog, in order. The error comes only when out of memory.
#[tactic(auto, unfolding(crate::specs::Exported::symbol_names))]
pub fn symbol_names(alloc: Global, design: &Design) -> Result<Vec<Text>, AllocError>
    ensures { IfOk result (λ names. names.items ≡ symbol_names (design_of design.now)) }
{
    let wanted = symbols(alloc, design)?;
    legal_texts(alloc, wanted.as_slice())
}

// The names of ports, as they are wanted.
fn wanted_names(alloc: Global, ports: &[design::Port]) -> Result<Vec<Text>, AllocError>
    ensures { IfOk result (λ wanted. wanted.items ≡ map (λ (p : Port). p.name) (map port_of ports.now)) }
{
    let mut wanted = Vec::new(alloc);
    for port in ports {
        wanted.push(port.name.try_clone(alloc)?)?;
    }
    Ok(wanted)
}

/// The names that a module with some ports gives to them in Verilog, in order: they are the first that the module gives.
/// The error comes only when out of memory.
pub fn port_names(alloc: Global, ports: &[design::Port]) -> Result<Vec<Text>, AllocError>
    ensures count { IfOk result (λ names. length names.items ≡ length ports.now) }
    ensures names { IfOk result (λ names. ArePortNames (map port_of ports.now) names.items) }
{
    let wanted = wanted_names(alloc, ports)?;
    let names = legal_texts(alloc, wanted.as_slice())?;
    Ok(names)
}
