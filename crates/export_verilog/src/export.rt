//! The text of a whole design.
ghost use Rattle.std.specs.Prelude.{◌≡◌, ◌<◌, ◌++◌, [], cond, codes, length, OnOk, IfOk};
ghost use Rattle.ir_store.specs.Designs.{design_of, modules_of};
ghost use Rattle.op_verifier.specs.Verdict.{IsAccepted};
ghost use Rattle.export_verilog.specs.Aggregates.{HasNoAggregates};
ghost use Rattle.export_verilog.specs.Layout.{verilog_text};
ghost use Rattle.export_verilog.specs.ModuleTextLists.{IsTextOf, AreTextsOf};
ghost use Rattle.export_verilog.specs.WritableDesigns.{IsWritableDesign};

use crate::acceptance::stored_designs_have_room;
use crate::module_text::push_module;
use crate::named_design::NamedDesign;
use io_edge::byte_text::Text;
use ir_store::design::Design;
use lowering_options::lowering::Lowering;
use op_verifier::Verified;
use rayon::prelude::*;
use std::alloc::{AllocError, Global};
use std::thread::Threads;

/// How many modules a thread gets at least.
const LEAST_MODULES: usize = 16;

// Adds the empty line before a module that follows another.
fn push_between(out: &mut Text, follows: bool) -> Result<(), AllocError>
    ensures { OnOk result (out.new ≡ out.old ++ cond follows (codes "\n") []) }
{
    if follows {
        out.push_bytes(b"\n")?;
    }
    Ok(())
}

// The text of a design: its modules in order, with an empty line between two.
fn design_text(alloc: Global, all: &NamedDesign<'_>, options: Lowering) -> Result<Text, AllocError>
    requires { IsWritableDesign (design_of all.now.design.now) }
    ensures { IfOk result (λ text. text ≡ verilog_text options (design_of all.now.design.now)) }
{
    let mut out = Text::new(alloc);
    for number in 0..all.design.module_count() {
        push_between(&mut out, number > 0)?;
        push_module(alloc, &mut out, all, number, options)?;
    }
    Ok(out)
}

// The text of a module by itself.
fn text_of(
    alloc: Global,
    all: &NamedDesign<'_>,
    number: u32,
    options: Lowering,
) -> Result<Text, AllocError>
    requires there { number < length (modules_of all.now.design.now) }
    requires writable { IsWritableDesign (design_of all.now.design.now) }
    ensures { IfOk result (IsTextOf options (design_of all.now.design.now) number) }
{
    let mut text = Text::new(alloc);
    push_module(alloc, &mut text, all, number, options)?;
    Ok(text)
}

// The texts of all modules by themselves, made by several threads.
#[tactic(auto, using(crate::proofs::Sharing::named_sync, crate::proofs::Sharing::lowering_sync))]
fn texts_of<R: Threads + Sync>(
    rt: &R,
    alloc: Global,
    all: &NamedDesign<'_>,
    options: Lowering,
) -> Result<Vec<Text>, AllocError>
    requires { IsWritableDesign (design_of all.now.design.now) }
    ensures { IfOk result (λ texts. AreTextsOf options (design_of all.now.design.now) texts.items) }
{
    let count = all.design.module_count();
    (0..count)
        .into_par_iter()
        .map(
            |number: u32| -> Result<Text, AllocError>
                requires there { number < length (modules_of all.now.design.now) }
                requires writable { IsWritableDesign (design_of all.now.design.now) }
                ensures { IfOk result (IsTextOf options (design_of all.entry.now.design.now) number) }
            { text_of(alloc, all, number, options) },
        )
        .with_min_len(LEAST_MODULES)
        .collect::<Result<Vec<Text>, AllocError>>(rt, alloc)?
}

// The text of a design of the texts of its modules.
fn joined_text(
    alloc: Global,
    all: &NamedDesign<'_>,
    texts: &[Text],
    options: Lowering,
) -> Result<Text, AllocError>
    requires { AreTextsOf options (design_of all.now.design.now) texts.now }
    ensures { IfOk result (λ text. text ≡ verilog_text options (design_of all.now.design.now)) }
{
    let mut out = Text::new(alloc);
    for number in 0..all.design.module_count() {
        push_between(&mut out, number > 0)?;
        out.push_bytes(texts[number as usize].as_bytes())?;
    }
    Ok(out)
}

// The text of a design without aggregates of which nothing is refused.
fn export_design<R: Threads + Sync>(
    rt: &R,
    alloc: Global,
    design: &Design,
    workers: u32,
    options: Lowering,
) -> Result<Text, AllocError>
    requires accepted { IsAccepted (design_of design.now) }
    requires exported { HasNoAggregates (design_of design.now) }
    ensures { IfOk result (λ text. text ≡ verilog_text options (design_of design.now)) }
{
    stored_designs_have_room(design);
    let all = NamedDesign::of(alloc, design)?;
    if workers < 2 {
        return design_text(alloc, &all, options);
    }
    let texts = texts_of(rt, alloc, &all, options)?;
    joined_text(alloc, &all, texts.as_slice(), options)
}

/// The Verilog text of a design without aggregates, one module after another with an empty line between two (IEEE 1364-2005,
/// 12.1: modules), with expressions as `options` say. With more than one of `workers` the texts of modules are made by as many threads as there are processors,
/// where there are modules enough. The error comes only when out of memory.
pub fn export<R: Threads + Sync>(
    rt: &R,
    alloc: Global,
    verified: &Verified,
    workers: u32,
    options: Lowering,
) -> Result<Text, AllocError>
    requires { HasNoAggregates (design_of verified.now.design) }
    ensures { IfOk result (λ text. text ≡ verilog_text options (design_of verified.now.design)) }
{
    export_design(rt, alloc, verified.design(), workers, options)
}
