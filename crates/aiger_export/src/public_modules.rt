//! The public modules of a design.
ghost use Rattle.std.specs.Prelude.{◌≡◌, not, ◌&&◌, cond, is_some, Some};
ghost use Rattle.ir_store.specs.Designs.{design_of};
ghost use Rattle.aiger_export.specs.PublicModules.{only_public};

use ir_store::design::Design;
use op_verifier::Verified;

/// The number of the only public module of a design: none where there is none, or are several. One pass over the modules.
pub(crate) fn only_public(verified: &Verified) -> Option<u32>
    ensures { result ≡ only_public (design_of verified.now.design) }
{
    only_public_of(verified.design())
}

// The same of a design that may be refused.
fn only_public_of(design: &Design) -> Option<u32>
    ensures { result ≡ only_public (design_of design.now) }
{
    let mut found = None;
    for number in 0..design.module_count() {
        let private = design.module(number).private;
        if is_second(found, private) {
            return None;
        }
        found = noted(found, number, private);
    }
    found
}

// Whether a module is a further public one.
fn is_second(found: Option<u32>, private: bool) -> bool
    ensures { result ≡ (not private && is_some found) }
{
    !private && found.is_some()
}

// What is found once the module of a number is seen: its number, unless it is private.
fn noted(found: Option<u32>, number: u32, private: bool) -> Option<u32>
    ensures { result ≡ cond private found (Some number) }
{
    if private { found } else { Some(number) }
}
