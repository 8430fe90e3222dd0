//! Instances of private modules that become the bodies of their modules, in a whole design.
ghost use Rattle.std.specs.Prelude.{◌≡◌, ◌<◌, length, OnOk};
ghost use Rattle.ir_store.specs.Designs.{design_of, modules_of};
ghost use Rattle.acceptance_laws.specs.Keeps.{IsFit};
ghost use Rattle.inline_pass.specs.Flattening.{flat_design, IsFlattened};
ghost use Rattle.inline_pass.specs.FlatBodies.{HasInlinedAt};

use crate::dead_modules::symbol_dce;
use crate::inlining::inline_into;
use design_cycles::module_order;
use ir_store::design::Design;
use std::alloc::{AllocError, Global};

/// Has each instance of a private module become the body of that module, and takes the private modules out of the
/// design (CIRCT, HW dialect: `hw-flatten-modules`). What is named `n` in an instance named `u` is named `u_n`. On an
/// error, which comes when out of memory, nothing is promised of the design.
pub fn flatten_modules(alloc: Global, design: &mut Design) -> Result<(), AllocError>
    requires { IsFit (design_of design.old) }
    ensures { OnOk result (IsFlattened (design_of design.old) (design_of design.new)) }
{
    flatten_bodies(alloc, design)?;
    symbol_dce(alloc, design)
}

/// Inlines all instances of private modules of a design, module by module, each after those that it instances. On an
/// error, which comes when out of memory, nothing is promised of the design.
pub fn flatten_bodies(alloc: Global, design: &mut Design) -> Result<(), AllocError>
    requires { IsFit (design_of design.old) }
    ensures { OnOk result (design_of design.new ≡ flat_design (design_of design.old)) }
{
    let order = module_order(alloc, design)?;
    for number in order.as_slice() {
        flatten_body(alloc, design, *number)?;
    }
    Ok(())
}

/// Inlines all instances of private modules in the body of the module of a number.
fn flatten_body(alloc: Global, design: &mut Design, number: u32) -> Result<(), AllocError>
    requires within { number < length (modules_of design.old) }
    requires fit { IsFit (design_of design.old) }
    ensures { OnOk result (HasInlinedAt number (design_of design.old) (design_of design.new)) }
{
    let mut body = design.take_body(number);
    inline_into(alloc, &mut body, &*design)?;
    design.put_body(number, body);
    Ok(())
}
