//! The pass `hw-flatten-modules`, worked by several workers.
ghost use Rattle.std.specs.Prelude.{◌≡◌, ◌≤◌, length, OnOk};
ghost use Rattle.ir_store.specs.Designs.{design_of};
ghost use Rattle.shared_schedule.specs.Visits.{VisitsEach};
ghost use Rattle.acceptance_laws.specs.Keeps.{IsFit};
ghost use Rattle.inline_pass.specs.Flattening.{IsFlattened};
ghost use Rattle.pass_manager.specs.PublicModules.{emptied_design};

use crate::bodies::{put_bodies, take_bodies};
use crate::callees::callee_lists;
use crate::flat_work::{FlatBodies, FlatWork};
use crate::owners::{free_bodies, owned_bodies};
use crate::public_modules::keep_public;
use ir_store::design::Design;
use shared_schedule::{Gate, run_modules};
use std::alloc::{AllocError, Global};
use std::snapshot::Snapshot;
use std::thread::Threads;

/// Has each instance of a private module become the body of that module, and takes the private modules out of the design
/// (CIRCT, HW dialect: `hw-flatten-modules`). A private body goes once its last caller has it, so memory is linear in the design
/// before and after, where private modules are reached from public ones; time is the sum of all flat bodies.
pub(crate) fn flatten_modules<R: Threads + Sync, G: Gate + Send + Drop>(
    rt: &R,
    alloc: Global,
    design: &mut Design,
    workers: u32,
    gate: &mut G,
) -> Result<(), AllocError>
    requires fit { IsFit (design_of design.old) }
    requires one { 1 ≤ workers }
    requires few { workers ≤ 64 }
    ensures made { OnOk result (IsFlattened (design_of design.old) (design_of design.new)) }
    ensures visits { OnOk result (VisitsEach (length (design_of design.old)) (G.told gate.old) (G.told gate.new)) }
{
    flatten_bodies(rt, alloc, design, workers, gate)?;
    keep_public(alloc, design)
}

/// Makes the body of each public module flat and that of each private one empty, after those of the modules that it instances, whose
/// flat bodies come to the worker.
fn flatten_bodies<R: Threads + Sync, G: Gate + Send + Drop>(
    rt: &R,
    alloc: Global,
    design: &mut Design,
    workers: u32,
    gate: &mut G,
) -> Result<(), AllocError>
    requires fit { IsFit (design_of design.old) }
    requires one { 1 ≤ workers }
    requires few { workers ≤ 64 }
    ensures made { OnOk result (design_of design.new ≡ emptied_design (design_of design.old)) }
    ensures visits { OnOk result (VisitsEach (length (design_of design.old)) (G.told gate.old) (G.told gate.new)) }
{
    let callees = callee_lists(alloc, design)?;
    let before = Snapshot::of(&*design);
    let bodies = take_bodies(alloc, design)?;
    let firsts = owned_bodies(alloc, bodies)?;
    let pieces = FlatBodies {
        headers: &*design,
        before,
    };
    let done = run_modules(rt, alloc, pieces, callees, firsts, workers, &FlatWork, gate)?;
    let bodies = free_bodies(alloc, done)?;
    put_bodies(design, bodies);
    Ok(())
}
