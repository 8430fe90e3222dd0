// Literals: a variable or its complement.
ghost use Rattle.std.specs.Prelude.{◌≡◌};
ghost use Rattle.resolution_proof.specs.Literal.{negation};

/// A variable (`positive`) or its complement, as in the DIMACS format for formulas in conjunctive normal form.
/// Variables are numbered from 1.
#[derive(Clone, Copy, PartialEq, Eq)]
pub struct Literal {
    pub variable: u64,
    pub positive: bool,
}

impl Literal {
    /// The literal of the same variable with the other sign.
    pub fn negation(self) -> Literal
        ensures { result ≡ negation self }
    {
        Literal {
            variable: self.variable,
            positive: !self.positive,
        }
    }
}
