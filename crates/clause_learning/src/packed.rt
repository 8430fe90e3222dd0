// Literals as stored clauses and watch lists keep them, in half the memory.
ghost use Rattle.std.specs.Prelude.{◌≡◌, ◌<◌, ◌^◌};
ghost use Rattle.clause_learning.specs.Watching.{slot_of};

use resolution_proof::literal::Literal;
use std::marker::Model;

/// A literal whose variable is below 2^32, in eight bytes.
#[derive(Clone, Copy, PartialEq, Eq)]
pub(crate) struct PackedLiteral {
    variable: u32,
    positive: bool,
}

impl Model for PackedLiteral {
    ghost use Rattle.std.specs.Prelude.{◌<◌, ◌^◌};
    ghost use Rattle.resolution_proof.specs.declared.literal.Literal.{Literal};

    ghost Value = { Literal };

    ghost view = { λ p. record { variable = p.variable; positive = p.positive } };

    ghost inverse = { λ l. record { variable = l.variable; positive = l.positive } };
}

impl PackedLiteral {
    pub(crate) fn new(literal: Literal) -> PackedLiteral
        requires { literal.variable < 2 ^ 32 }
        ensures { result ≡ literal }
    {
        PackedLiteral {
            variable: literal.variable as u32,
            positive: literal.positive,
        }
    }

    pub(crate) fn literal(self) -> Literal
        ensures { result ≡ self }
    {
        Literal {
            variable: u64::from(self.variable),
            positive: self.positive,
        }
    }

    /// The position of the literal's list among the watch lists.
    pub(crate) fn slot(self) -> usize
        ensures { result ≡ slot_of self }
    {
        2 * self.variable as usize + self.positive as usize
    }
}
