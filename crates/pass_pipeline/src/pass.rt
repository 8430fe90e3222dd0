//! The passes that a pipeline may name.
ghost use Rattle.std.specs.Prelude.{◌≡◌};
ghost use Rattle.pass_pipeline.specs.Passes.{pass_name, runs_on, pass_named};

/// A pass.
#[derive(Clone, Copy, PartialEq, Eq)]
pub enum Pass {
    /// Simplifies operations.
    Canonicalize,
    /// Merges equal operations.
    Cse,
    /// Makes muxes of the enables and synchronous resets of registers.
    SeqLowerRegs,
    /// Makes integers of arrays and structs.
    HwLowerAggregates,
    /// Puts private modules in place of their instances.
    HwFlattenModules,
    /// Erases private modules without an instance.
    SymbolDce,
}

/// An operation that passes run on; a pipeline names it before their parentheses.
#[derive(Clone, Copy)]
pub(crate) enum Anchor {
    /// A whole design.
    BuiltinModule,
    /// Each module by itself.
    HwModule,
}

impl Pass {
    /// Its name in pipelines, and after `--` among the words of a command line.
    #[tactic(auto, unfolding(crate::specs::Passes::pass_name))]
    pub fn name(self) -> &'static str
        ensures { result.now ≡ pass_name self }
    {
        match self {
            Pass::Canonicalize => "canonicalize",
            Pass::Cse => "cse",
            Pass::SeqLowerRegs => "seq-lower-regs",
            Pass::HwLowerAggregates => "hw-lower-aggregates",
            Pass::HwFlattenModules => "hw-flatten-modules",
            Pass::SymbolDce => "symbol-dce",
        }
    }

    /// Whether it may stand within the parentheses of an anchor.
    #[tactic(auto, unfolding(crate::specs::Passes::runs_on))]
    pub(crate) fn runs_on(self, anchor: Anchor) -> bool
        ensures { result ≡ runs_on anchor self }
    {
        match anchor {
            Anchor::BuiltinModule => true,
            Anchor::HwModule => match self {
                Pass::Canonicalize | Pass::Cse | Pass::SeqLowerRegs => true,
                Pass::HwLowerAggregates | Pass::HwFlattenModules | Pass::SymbolDce => false,
            },
        }
    }
}

/// The first of these passes that has this name.
pub fn pass_named(offered: &[Pass], name: &[u8]) -> Option<Pass>
    ensures { result ≡ pass_named offered.now name.now }
{
    for pass in offered {
        if pass.name().as_bytes() == name {
            return Some(*pass);
        }
    }
    None
}
