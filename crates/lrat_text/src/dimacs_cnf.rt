//! Formulas as they are written.
ghost use Rattle.std.specs.Prelude.{◌≡◌};

use resolution_proof::items::Items;
use resolution_proof::literal::Literal;
use std::marker::Model;

/// A formula as a text writes it: a number of variables, and clauses, in which a literal may stand twice and both literals
/// of a variable may stand.
#[derive(Drop)]
pub struct DimacsCnf {
    pub(crate) variables: u64,
    pub(crate) clauses: Vec<Items<Literal>>,
}

impl Model for DimacsCnf {
    ghost use Rattle.resolution_proof.specs.Formula.{Formula};

    ghost Value = { Formula };

    ghost view = { λ c. record { variables = c.variables; clauses = c.clauses.items } };
}

impl DimacsCnf {
    /// The number of variables.
    pub fn variables(&self) -> u64
        ensures { result ≡ self.now.variables }
    {
        self.variables
    }

    /// The clauses, in their order: clause number 1 comes first.
    pub fn clauses(&self) -> &[Items<Literal>]
        ensures { result.now ≡ self.now.clauses }
    {
        &self.clauses
    }
}
