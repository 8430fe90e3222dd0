//! Designs of which nothing is refused, in canonical form.
ghost use Rattle.std.proofs.Props.{props};
ghost use Rattle.ir_store.specs.Designs.{design_of};
ghost use Rattle.stored_form.specs.Canonical.{IsCanonical};
ghost use Rattle.stored_form.proofs.OneProof.{canonical_prop};
ghost use Rattle.op_verifier.specs.Verdict.{IsAccepted};

use ir_store::design::Design;

/// A design of which nothing is refused, in canonical form.
#[derive(Drop)]
pub struct Verified {
    pub(crate) design: Design,
    ghost accepted: { IsAccepted (design_of design) } by { Prim.hlevel props },
    ghost canonical: { IsCanonical (design_of design) } by { canonical_prop (design_of design) },
}

impl Verified {
    ghost use Rattle.std.specs.Prelude.{◌≡◌};
    ghost use Rattle.ir_store.specs.Designs.{modules_of};
    ghost use Rattle.op_verifier.specs.Answered.{modules_verified};

    /// A design of which nothing is refused, in canonical form, as one that is known to be so. It takes no memory.
    pub fn new(design: Design) -> Verified
        requires accepted { IsAccepted (design_of design) }
        requires canonical { IsCanonical (design_of design) }
        ensures { modules_verified result ≡ modules_of design }
    {
        Verified { design }
    }

    /// The design.
    pub fn design(&self) -> &Design
        ensures { modules_of result.now ≡ modules_verified self.now }
    {
        &self.design
    }

    /// The design, to be changed or given back. It takes no memory.
    pub fn into_design(self) -> Design
        ensures { modules_of result ≡ modules_verified self }
    {
        let Verified { design } = self;
        design
    }
}
