//! The widths of the leaves of the registers of a module and of all that it instances.
ghost use Rattle.std.specs.Prelude.{◌≡◌, ◌<◌, ◌++◌, Some, length, map, IfOk, OnOk, is_some, slice_get};
ghost use Rattle.hw_model.specs.Design.{register_form};
ghost use Rattle.hw_model.specs.Hierarchy.{HasNoRecursion};
ghost use Rattle.hw_model.specs.KindViews.{kind_of};
ghost use Rattle.ir_store.specs.Bodies.{ops_of};
ghost use Rattle.ir_store.specs.Designs.{design_of, modules_of};
ghost use Rattle.ir_store.specs.Numbered.{ops_by_position};
ghost use Rattle.ir_store.specs.OperationViews.{results_in};
ghost use Rattle.design_cycles.specs.Asked.{HasDistinctSymbols};
ghost use Rattle.design_cycles.specs.Calls.{call_lists};
ghost use Rattle.run_lists.specs.Runs.{expanded, AreApart, AreRunsOf};
ghost use Rattle.module_sums.specs.Sums.{IsBelow};
ghost use Rattle.module_sums.specs.RegisterWidths.{first_widths, kind_widths, body_widths, AreAllApart, kept_at, kept_widths, AreRegisterRuns, AreEmpty};

use crate::leaf_runs::type_runs;
use body_index::op_index::op_at;
use body_index::position_table::ids_in;
use hw_model::kinds::OpKind;
use ir_store::body::Body;
use ir_store::design::Design;
use ir_store::operation::NewResultList;
use run_lists::{RunList, push_list};
use std::alloc::{AllocError, Global};

/// The widths of the leaves of the registers of a module and of all that it instances, in the order of its content, the
/// modules that it reaches being given. The error is out of memory.
#[tactic(auto, using(crate::proofs::LeafRuns::filled_first, crate::proofs::LeafRuns::filled_more, crate::proofs::LeafRuns::number_within, crate::proofs::LeafRuns::filled_all))]
pub fn register_runs(
    alloc: Global,
    design: &Design,
    top: u32,
    below: &[u32],
) -> Result<RunList, AllocError>
    requires distinct { HasDistinctSymbols (design_of design.now) }
    requires finite { HasNoRecursion (design_of design.now) }
    requires below { IsBelow (call_lists (design_of design.now)) top below.now }
    ensures { IfOk result (λ list. AreRegisterRuns (design_of design.now) top list.runs.items) }
{
    let mut table = empty_runs(alloc, design.module_count())?;
    for number in below {
        let runs = body_runs(
            alloc,
            design,
            &design.module(*number).body,
            table.as_slice(),
        )?;
        table[*number as usize] = runs;
    }
    Ok(table.remove(top as usize))
}

// So many lists without runs.
#[tactic(auto, using(crate::proofs::LeafRuns::empty_more))]
fn empty_runs(alloc: Global, count: u32) -> Result<Vec<RunList>, AllocError>
    ensures { IfOk result (λ table. AreEmpty count table.items) }
{
    let mut table = Vec::with_capacity(alloc, count as usize)?;
    for _ in 0..count {
        table.push(RunList {
            runs: Vec::new(alloc),
        })?;
    }
    Ok(table)
}

// Those of a body, where those of the modules that it instances are kept.
#[tactic(auto, using(crate::proofs::LeafRuns::body_more, crate::proofs::LeafRuns::body_all))]
fn body_runs(
    alloc: Global,
    design: &Design,
    body: &Body,
    table: &[RunList],
) -> Result<RunList, AllocError>
    requires { AreAllApart table.now }
    ensures { IfOk result (λ list. AreRunsOf (body_widths (kept_widths (modules_of design.now) table.now) (ops_by_position (ops_of body.now))) list.runs.items) }
{
    let ids = ids_in(alloc, body)?;
    let mut list = RunList {
        runs: Vec::new(alloc),
    };
    for position in 0..ids.len() {
        let op = op_at(body, ids.as_slice(), position);
        push_op(alloc, &mut list, design, op.kind, op.results, table)?;
    }
    Ok(list)
}

// Adds those of an operation.
fn push_op(
    alloc: Global,
    list: &mut RunList,
    design: &Design,
    kind: &OpKind,
    results: &NewResultList,
    table: &[RunList],
) -> Result<(), AllocError>
    requires apart { AreApart list.old.runs.items }
    requires table { AreAllApart table.now }
    ensures numbers { OnOk result (expanded list.new.runs.items ≡ expanded list.old.runs.items ++ kind_widths (kept_widths (modules_of design.now) table.now) (kind_of kind.now) (results_in results.now)) }
    ensures apart { OnOk result (AreApart list.new.runs.items) }
{
    match kind {
        OpKind::CompReg(_) | OpKind::CompRegCe(_) | OpKind::FirReg(_) | OpKind::AsyncFirReg => {
            push_first(alloc, list, results)
        }
        OpKind::Instance(instance) => {
            match design.find(instance.symbol.as_bytes()) {
                Some(number) => push_kept(list, table, number as usize),
                None => Ok(()),
            }
        }
        _ => Ok(()),
    }
}

// Adds those of the leaves of the first of results.
fn push_first(alloc: Global, list: &mut RunList, results: &NewResultList) -> Result<(), AllocError>
    requires { AreApart list.old.runs.items }
    ensures numbers { OnOk result (expanded list.new.runs.items ≡ expanded list.old.runs.items ++ first_widths (results_in results.now)) }
    ensures apart { OnOk result (AreApart list.new.runs.items) }
{
    match results.as_slice() {
        [] => Ok(()),
        [first, ..] => {
            let one = type_runs(alloc, &first.ty)?;
            push_list(list, &one)
        }
    }
}

// Adds those that are kept under a number, where there are any.
#[tactic(auto, using(crate::proofs::LeafRuns::apart_at))]
fn push_kept(list: &mut RunList, table: &[RunList], number: usize) -> Result<(), AllocError>
    requires apart { AreApart list.old.runs.items }
    requires table { AreAllApart table.now }
    ensures numbers { OnOk result (expanded list.new.runs.items ≡ expanded list.old.runs.items ++ kept_at table.now number) }
    ensures apart { OnOk result (AreApart list.new.runs.items) }
{
    match table.get(number) {
        Some(more) => push_list(list, more),
        None => Ok(()),
    }
}
