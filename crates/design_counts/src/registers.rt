//! How many registers a design has.
ghost use Rattle.std.specs.Prelude.{◌≡◌, is_some};
ghost use Rattle.hw_model.specs.Design.{register_form};
ghost use Rattle.hw_model.specs.KindViews.{kind_of};
ghost use Rattle.ir_store.specs.Bodies.{ops_of};
ghost use Rattle.ir_store.specs.Designs.{design_of, module_of, numbered_module};
ghost use Rattle.ir_store.specs.Numbered.{ops_by_position};
ghost use Rattle.design_counts.specs.Counts.{register_count, public_registers, public_register_count};

use hw_model::kinds::OpKind;
use ir_store::body::Body;
use ir_store::design::{Design, Module};

/// How many registers the public modules of a design have, in all.
pub fn public_register_count(design: &Design) -> u128
    ensures { result ≡ public_register_count (design_of design.now) }
{
    let mut count: u128 = 0;
    for number in 0..design.module_count() {
        count += public_registers(design.module(number)) as u128;
    }
    count
}

/// How many a module has, where it is public; of a private one none count.
fn public_registers(one: &Module) -> usize
    ensures { result ≡ public_registers (numbered_module (module_of one.now)) }
{
    if one.private {
        0
    } else {
        register_count(&one.body)
    }
}

/// How many a body has: as many as it has operations, without those that are none.
fn register_count(body: &Body) -> usize
    ensures { result ≡ register_count (ops_by_position (ops_of body.now)) }
{
    let mut count = body.op_count();
    for id in body.ops() {
        if !is_register(body.op(id).kind) {
            count -= 1;
        }
    }
    count
}

/// Whether an operation of this kind is a register.
fn is_register(kind: &OpKind) -> bool
    ensures { result ≡ is_some (register_form (kind_of kind.now)) }
{
    matches!(
        kind,
        OpKind::CompReg(_) | OpKind::CompRegCe(_) | OpKind::FirReg(_) | OpKind::AsyncFirReg
    )
}
