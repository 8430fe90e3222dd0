//! Runs of passes over a design.
ghost use Rattle.std.specs.Prelude.{◌≤◌, length, IfOk, OnOk};
ghost use Rattle.ir_store.specs.Designs.{design_of};
ghost use Rattle.acceptance_laws.specs.Keeps.{IsFit};
ghost use Rattle.shared_schedule.specs.Visits.{VisitsEach};
ghost use Rattle.pass_manager.specs.Results.{AreModulesBy, IsChosen, IsResult};
ghost use Rattle.pass_manager.specs.Visits.{IsToldOf, AreToldOf};

use crate::bodies::{put_bodies, take_bodies};
use crate::body_pass::{BodyPass, CanonicalForm, CommonSubexpressions, LoweredRegisters};
use crate::body_work::{Bodies, BodyWork};
use crate::callees::callee_lists;
use crate::flattening::flatten_modules;
use crate::owners::{free_bodies, owned_bodies};
use aggregate_lower::lowering::lower_aggregates;
use inline_pass::dead_modules::symbol_dce;
use ir_store::design::Design;
use op_verifier::Verified;
use pass_pipeline::pass::Pass;
use pass_pipeline::pipeline::Pipeline;
use shared_schedule::{Gate, run_modules};
use std::alloc::{AllocError, Global};
use std::marker::PhantomData;
use std::snapshot::Snapshot;
use std::thread::Threads;

/// What the passes of a pipeline make of a design of which nothing is refused, one pass after another, for any number of
/// workers, 1 to 64. A pass on bodies works each module by itself after those that it instances, on whichever worker comes to
/// it, and `hw-flatten-modules` with the flat bodies of these; private modules go on the caller alone, and so do aggregates.
/// The gate is told of each module once for each such pass, just before the pass works on its body, by a handle of the worker.
/// Over what the passes cost, each pass on bodies has a table of a few words for each module and each instance. Of
/// `hw-flatten-modules` time is the sum of all flat bodies, and memory is that of the design before and after, where private modules
/// are reached from public ones. The error comes only when out of memory, and the design is dropped then.
pub fn run_pipeline<R: Threads + Sync, G: Gate + Send + Drop>(
    rt: &R,
    alloc: Global,
    design: Verified,
    pipeline: &Pipeline,
    workers: u32,
    gate: &mut G,
) -> Result<Verified, AllocError>
    requires one { 1 ≤ workers }
    requires few { workers ≤ 64 }
    ensures made { IfOk result (λ done. IsResult pipeline.now (design_of design.design) (design_of done.design)) }
    ensures visits { OnOk result (AreToldOf pipeline.now (design_of design.design) (G.told gate.old) (G.told gate.new)) }
{
    let mut made = design.into_design();
    for pass in pipeline.as_slice() {
        run_pass(rt, alloc, &mut made, *pass, workers, gate)?;
    }
    Ok(Verified::new(made))
}

/// One pass.
fn run_pass<R: Threads + Sync, G: Gate + Send + Drop>(
    rt: &R,
    alloc: Global,
    design: &mut Design,
    pass: Pass,
    workers: u32,
    gate: &mut G,
) -> Result<(), AllocError>
    requires fit { IsFit (design_of design.old) }
    requires one { 1 ≤ workers }
    requires few { workers ≤ 64 }
    ensures made { OnOk result (IsChosen pass (design_of design.old) (design_of design.new)) }
    ensures visits { OnOk result (IsToldOf pass (length (design_of design.old)) (G.told gate.old) (G.told gate.new)) }
{
    match pass {
        Pass::Canonicalize => change_bodies::<R, CanonicalForm, G>(
            rt, alloc, design, workers, gate,
        ),
        Pass::Cse => change_bodies::<R, CommonSubexpressions, G>(rt, alloc, design, workers, gate),
        Pass::SeqLowerRegs => change_bodies::<R, LoweredRegisters, G>(
            rt, alloc, design, workers, gate,
        ),
        Pass::HwFlattenModules => flatten_modules(rt, alloc, design, workers, gate),
        Pass::SymbolDce => symbol_dce(alloc, design),
        Pass::HwLowerAggregates => lower_aggregates(alloc, design),
    }
}

/// Has a pass work on the body of each module.
fn change_bodies<R: Threads + Sync, P: BodyPass + Sync, G: Gate + Send + Drop>(
    rt: &R,
    alloc: Global,
    design: &mut Design,
    workers: u32,
    gate: &mut G,
) -> Result<(), AllocError>
    requires fit { IsFit (design_of design.old) }
    requires one { 1 ≤ workers }
    requires few { workers ≤ 64 }
    ensures made { OnOk result (AreModulesBy P.makes (design_of design.old) (design_of design.new)) }
    ensures visits { OnOk result (VisitsEach (length (design_of design.old)) (G.told gate.old) (G.told gate.new)) }
{
    let callees = callee_lists(alloc, design)?;
    let bodies = take_bodies(alloc, design)?;
    let pieces = Bodies::<P> {
        before: Snapshot::of(&bodies),
        pass: PhantomData,
    };
    let firsts = owned_bodies(alloc, bodies)?;
    let done = run_modules(rt, alloc, pieces, callees, firsts, workers, &BodyWork, gate)?;
    let bodies = free_bodies(alloc, done)?;
    put_bodies(design, bodies);
    Ok(())
}
