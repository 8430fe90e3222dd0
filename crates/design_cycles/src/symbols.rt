//! Whether symbols differ.
ghost use Rattle.std.specs.Prelude.{◌↔◌, ◌<◌, length, IsTrue};
ghost use Rattle.ir_store.specs.Designs.{design_of, modules_of};
ghost use Rattle.design_cycles.specs.Asked.{HasDistinctSymbols};
ghost use Rattle.design_cycles.specs.Calls.{IsFoundAt};

use ir_store::design::Design;

/// Whether no two modules have one symbol, which the questions ask of a design.
pub fn has_distinct_symbols(design: &Design) -> bool
    ensures { IsTrue result ↔ HasDistinctSymbols (design_of design.now) }
{
    for number in 0..design.module_count() {
        if !is_found(design, number) {
            return false;
        }
    }
    true
}

/// Whether the first module of a module's symbol is the module itself.
fn is_found(design: &Design, number: u32) -> bool
    requires { number < length (modules_of design.now) }
    ensures { IsTrue result ↔ IsFoundAt (modules_of design.now) number }
{
    match design.find(design.module(number).symbol.as_bytes()) {
        Some(first) => first == number,
        None => false,
    }
}
