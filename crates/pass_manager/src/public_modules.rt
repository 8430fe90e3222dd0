//! The public modules of a design.
ghost use Rattle.std.specs.Prelude.{◌≡◌, ◌+◌, ◌<◌, ◌^◌, [], ◌∷◌, ◌++◌, cond, length, OnOk};
ghost use Rattle.ir_store.specs.Designs.{design_of, modules_of, module_of};
ghost use Rattle.pass_manager.specs.PublicModules.{public_modules};

use ir_store::design::{Design, Module};
use std::alloc::{AllocError, Global};
use std::mem;

/// Takes all private modules out of a design; the others stay as they are, in their order. No module is copied: the cost is linear
/// in the number of modules and in what is dropped. On an error, which comes when out of memory, the design may have lost other
/// modules too.
pub(crate) fn keep_public(alloc: Global, design: &mut Design) -> Result<(), AllocError>
    ensures { OnOk result (design_of design.new ≡ public_modules (design_of design.old)) }
{
    let old = mem::replace(design, Design::new(alloc));
    for module in old.into_modules() {
        add_public(design, module)?;
    }
    Ok(())
}

/// Puts a module at the end of a design, if it is public. On an error the design stays.
fn add_public(design: &mut Design, module: Module) -> Result<(), AllocError>
    requires { length (modules_of design.old) + 1 < 2 ^ 32 }
    ensures { OnOk result (modules_of design.new ≡ modules_of design.old ++ cond «module».private [] (module_of «module» ∷ [])) }
{
    if !module.private {
        let _ = design.add_module(module)?;
    }
    Ok(())
}
