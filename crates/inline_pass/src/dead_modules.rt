//! Modules that no public one reaches by instances.
ghost use Rattle.std.specs.Prelude.{◌≡◌, length, IfOk, OnOk};
ghost use Rattle.std.specs.List.{list_all};
ghost use Rattle.ir_store.specs.Designs.{design_of};
ghost use Rattle.design_cycles.specs.Asked.{HasDistinctSymbols};
ghost use Rattle.acceptance_laws.specs.Keeps.{IsFit};
ghost use Rattle.inline_pass.specs.DeadModules.{IsWithoutDead};
ghost use Rattle.inline_pass.specs.Marks.{ArePublicBefore, AreReachedMarks, marked};

use design_cycles::call_graph;
use graphs::reached_from;
use ir_store::design::Design;
use std::alloc::{AllocError, Global};
use std::mem;

/// Takes each private module out of a design that no public one reaches by instances; the others stay as they are, in
/// their order (MLIR documentation, "Passes": `symbol-dce`). No module is copied. On an error, which comes when out of
/// memory, the design may have lost other modules too.
pub fn symbol_dce(alloc: Global, design: &mut Design) -> Result<(), AllocError>
    requires { IsFit (design_of design.old) }
    ensures { OnOk result (IsWithoutDead (design_of design.old) (design_of design.new)) }
{
    let marks = reached_modules(alloc, design)?;
    if are_all_set(marks.as_slice()) {
        return Ok(());
    }
    keep_marked(alloc, design, marks.as_slice())
}

/// Of each module, whether a public one reaches it by instances, or it is a public one.
fn reached_modules(alloc: Global, design: &Design) -> Result<Vec<bool>, AllocError>
    requires { HasDistinctSymbols (design_of design.now) }
    ensures { IfOk result (λ marks. AreReachedMarks (design_of design.now) marks.items) }
{
    let graph = call_graph(alloc, design)?;
    let starts = public_modules(alloc, design)?;
    reached_from(alloc, graph.as_slice(), starts.as_slice())
}

/// The numbers of the public modules.
fn public_modules(alloc: Global, design: &Design) -> Result<Vec<u32>, AllocError>
    ensures { IfOk result (λ numbers. ArePublicBefore (design_of design.now) (length (design_of design.now)) numbers.items) }
{
    let mut numbers = Vec::new(alloc);
    for number in 0..design.module_count() {
        if !design.module(number).private {
            numbers.push(number)?;
        }
    }
    Ok(numbers)
}

/// Whether all marks are set.
fn are_all_set(marks: &[bool]) -> bool
    ensures { result ≡ list_all (λ b. b) marks.now }
{
    marks.iter().all(|mark| *mark)
}

/// Takes each module out of a design that has no mark. On an error the design has lost modules.
fn keep_marked(alloc: Global, design: &mut Design, marks: &[bool]) -> Result<(), AllocError>
    ensures { OnOk result (design_of design.new ≡ marked marks.now (design_of design.old)) }
{
    let old = mem::replace(design, Design::new(alloc));
    for (mark, module) in marks.iter().zip(old.into_modules()) {
        if *mark {
            let _ = design.add_module(module)?;
        }
    }
    Ok(())
}
