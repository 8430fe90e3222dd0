//! Operations of a body by their positions, and what each is to its module.
ghost use Rattle.std.specs.Prelude.{◌≡◌, map, OnOk, is_some};
ghost use Rattle.hw_model.specs.Design.{instance_in, register_form, is_output_kind};
ghost use Rattle.hw_model.specs.KindViews.{kind_of};
ghost use Rattle.ir_store.specs.Bodies.{ids_of, op_id};
ghost use Rattle.design_cycles.specs.Sorts.{holds, called_in, gives};

use hw_model::kinds::{Instance, OpKind};
use ir_store::body::Body;
use ir_store::operation::OpId;
use std::alloc::AllocError;

/// What an operation is to its module.
#[derive(Drop)]
pub(crate) enum Sort<'k> {
    /// A register.
    Register,
    /// An instance of a module.
    Calls(&'k Instance),
    /// The module's output.
    Gives,
    /// An operation whose results are made of its operands.
    Made,
}

/// What an operation of this kind is.
pub(crate) fn sort_of(kind: &OpKind) -> Sort<'_>
    ensures register { holds result ≡ is_some (register_form (kind_of kind.now)) }
    ensures instance { called_in result ≡ instance_in (kind_of kind.now) }
    ensures output { gives result ≡ is_output_kind (kind_of kind.now) }
{
    match kind {
        OpKind::CompReg(_) | OpKind::CompRegCe(_) | OpKind::FirReg(_) | OpKind::AsyncFirReg => {
            Sort::Register
        }
        OpKind::Instance(instance) => Sort::Calls(instance),
        OpKind::Output => Sort::Gives,
        _ => Sort::Made,
    }
}

/// Puts the ids of a body's operations, in text order, in the place of `ids`. Its memory is used again.
pub(crate) fn read_ids(ids: &mut Vec<OpId>, body: &Body) -> Result<(), AllocError>
    ensures { OnOk result (ids.new.items ≡ map op_id (ids_of body.now)) }
{
    ids.clear();
    for id in body.ops() {
        ids.push(id)?;
    }
    Ok(())
}
