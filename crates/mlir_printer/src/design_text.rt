//! The text of a design.
ghost use Rattle.std.specs.Prelude.{◌≡◌, ◌++◌, map, OnOk, IfOk};
ghost use Rattle.ir_store.specs.Designs.{design_of, numbered_module};
ghost use Rattle.mlir_reader.specs.Spelling.{SpellsUnlocated};
ghost use Rattle.op_verifier.specs.Answered.{modules_verified};
ghost use Rattle.mlir_printer.specs.Modules.{modules_bytes};
ghost use Rattle.mlir_printer.specs.Texts.{ir_text, modules_shown};

use crate::laws::what_is_printable_is_spelled;
use crate::modules::push_with_names;
use crate::shared_text::push_by_workers;
use crate::value_names::ValueNames;
use io_edge::byte_text::Text;
use ir_store::design::Design;
use op_verifier::Verified;
use printing_laws::what_is_canonical_is_printable;
use std::alloc::{AllocError, Global};
use std::thread::Threads;

/// The text of a design: `module {`, its modules in order, and `}`. The error comes only where memory
/// runs out.
#[tactic(auto, using(std::proofs::Common::append_assoc), unfolding(crate::specs::Texts::ir_text, crate::specs::Modules::file_bytes))]
pub fn design_text(alloc: Global, design: &Design) -> Result<Text, AllocError>
    ensures { IfOk result (λ text. text ≡ ir_text (design_of design.now)) }
{
    let mut out = Text::new(alloc);
    out.push_bytes(b"module {\n")?;
    push_modules(alloc, &mut out, design)?;
    out.push_bytes(b"}\n")?;
    Ok(out)
}

/// The text of a verified design, which spells that design. The error comes only when out of memory.
pub fn print_design(alloc: Global, verified: &Verified) -> Result<Text, AllocError>
    ensures laid_out { IfOk result (λ text. text ≡ ir_text (map numbered_module (modules_verified verified.now))) }
    ensures spelled { IfOk result (λ text. SpellsUnlocated text (map numbered_module (modules_verified verified.now))) }
{
    what_is_canonical_is_printable();
    what_is_printable_is_spelled();
    design_text(alloc, verified.design())
}

/// The text of a verified design, which spells that design. It gives back the memory of each module as soon as it is printed. With
/// more than one of `workers` runs of modules are printed in threads of their own, where the design is large enough, which takes
/// memory for their texts besides. The error comes only when out of memory.
pub fn print_and_drop<R: Threads + Sync>(
    rt: &R,
    alloc: Global,
    verified: Verified,
    workers: u32,
) -> Result<Text, AllocError>
    ensures laid_out { IfOk result (λ text. text ≡ ir_text (map numbered_module (modules_verified verified))) }
    ensures spelled { IfOk result (λ text. SpellsUnlocated text (map numbered_module (modules_verified verified))) }
{
    what_is_canonical_is_printable();
    what_is_printable_is_spelled();
    text_and_drop(rt, alloc, verified.into_design(), workers)
}

/// The text of a design, whose modules are dropped one by one, each after its text. The error comes where memory is refused.
#[tactic(auto, using(std::proofs::Common::append_assoc), unfolding(crate::specs::Texts::ir_text, crate::specs::Texts::stored_bytes, crate::specs::Modules::file_bytes))]
pub fn text_and_drop<R: Threads + Sync>(
    rt: &R,
    alloc: Global,
    design: Design,
    workers: u32,
) -> Result<Text, AllocError>
    ensures { IfOk result (λ text. text ≡ ir_text (design_of design)) }
{
    let mut out = Text::new(alloc);
    out.push_bytes(b"module {\n")?;
    let mut out = push_by_workers(rt, alloc, out, design.into_modules(), workers)?;
    out.push_bytes(b"}\n")?;
    Ok(out)
}

// Adds the modules of a design.
fn push_modules(alloc: Global, out: &mut Text, design: &Design) -> Result<(), AllocError>
    ensures { OnOk result (out.new ≡ out.old ++ modules_bytes (modules_shown (design_of design.now))) }
{
    let mut names = ValueNames::empty(alloc);
    for number in 0..design.module_count() {
        names = push_with_names(alloc, names, out, design.module(number))?;
    }
    Ok(())
}
