//! How many operations and public modules a design has.
ghost use Rattle.std.specs.Prelude.{◌≡◌, ◌≤◌};
ghost use Rattle.ir_store.specs.Designs.{design_of, module_of, numbered_module};
ghost use Rattle.design_counts.specs.Counts.{operation_count, one_if_public, public_count};

use ir_store::design::{Design, Module};

/// How many operations the bodies of a design have, in all.
pub fn operation_count(design: &Design) -> u128
    ensures { result ≡ operation_count (design_of design.now) }
{
    let mut count: u128 = 0;
    for number in 0..design.module_count() {
        count += design.module(number).body.op_count() as u128;
    }
    count
}

/// How many modules of a design are public.
pub fn public_count(design: &Design) -> u32
    ensures { result ≡ public_count (design_of design.now) }
{
    let mut count: u32 = 0;
    for number in 0..design.module_count() {
        count += one_if_public(design.module(number));
    }
    count
}

/// One of a public module, none of a private one.
fn one_if_public(one: &Module) -> u32
    ensures is { result ≡ one_if_public (numbered_module (module_of one.now)) }
    ensures few { result ≤ 1 }
{
    if one.private { 0 } else { 1 }
}
