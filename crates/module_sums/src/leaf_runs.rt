//! The widths of the leaves of a type, as runs.
ghost use Rattle.std.specs.Prelude.{map, IfOk};
ghost use Rattle.hw_model.specs.Types.{width, leaves, leaves_of_fields};
ghost use Rattle.hw_model.specs.TypeViews.{type_of, fields_in};
ghost use Rattle.run_lists.specs.Runs.{AreRunsOf};

use hw_model::types::{FieldList, Ty};
use run_lists::{RunList, copies, one_run, push_list};
use std::alloc::{AllocError, Global};

/// The widths of the leaves of a type, in order.
#[cycle(type_runs)]
#[tactic(auto, using(crate::proofs::LeafRuns::widths_many))]
pub fn type_runs(alloc: Global, ty: &Ty) -> Result<RunList, AllocError>
    ensures { IfOk result (λ list. AreRunsOf (map width (leaves (type_of ty.now))) list.runs.items) }
{
    match ty {
        Ty::Int(width) => one_run(alloc, *width),
        Ty::Clock => one_run(alloc, 1),
        Ty::Array(length, element) => {
            let one = type_runs(alloc, element)?;
            copies(alloc, *length, &one)
        }
        Ty::Struct(list) => field_runs(alloc, list),
    }
}

// Those of the leaves of fields.
#[cycle(type_runs)]
#[tactic(auto, using(crate::proofs::LeafRuns::one_field_more, crate::proofs::LeafRuns::all_fields))]
fn field_runs(alloc: Global, list: &FieldList) -> Result<RunList, AllocError>
    ensures { IfOk result (λ runs. AreRunsOf (map width (leaves_of_fields (fields_in list.now))) runs.runs.items) }
{
    let mut all = RunList {
        runs: Vec::new(alloc),
    };
    for field in &list.fields {
        let one = type_runs(alloc, &field.ty)?;
        push_list(&mut all, &one)?;
    }
    Ok(all)
}
