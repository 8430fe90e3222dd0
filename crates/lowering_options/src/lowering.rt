//! The ways in which a design is written as Verilog.

/// How expressions are written.
#[derive(Clone, Copy)]
pub enum Lowering {
    /// Zero extensions with their zeros.
    Plain,
    /// Zero extensions as their operand alone, where the context gives the full width.
    ImplicitExtension,
}

impl Lowering {
    ghost use Rattle.std.specs.Prelude.{◌≡◌};
    ghost use Rattle.lowering_options.specs.Options.{lowering_named};

    /// The way that a text names: the plain one where it is empty.
    pub fn named(text: &str) -> Option<Lowering>
        ensures { result ≡ lowering_named text.now }
    {
        if text == "" {
            Some(Lowering::Plain)
        } else if text == "implicitExtension" {
            Some(Lowering::ImplicitExtension)
        } else {
            None
        }
    }
}
