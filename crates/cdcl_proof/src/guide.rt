// What guides a search: pairs of literals that are tried before it.
use clause_learning::watched::Watched;
use resolution_proof::literal::Literal;
use std::alloc::AllocError;

/// Two literals, of which the first may imply the second.
#[derive(Clone, Copy)]
pub struct Pair {
    pub first: Literal,
    pub second: Literal,
}

/// What became of a pair.
#[derive(Clone, Copy)]
pub enum Outcome {
    /// The first literal is false, or the second is true, once the first is assumed.
    Proved,
    /// Both literals and all near variables have values, and no clause is false.
    Refuted,
    /// The conflicts that a pair may cost were not enough.
    GaveUp,
}

/// Proposes pairs for a search to try, so that it learns how literals hang together before it decides on its own.
///
/// What it answers is not trusted: a literal is assumed only where its variable is one of the formula's and has no
/// value. So a guide changes what is learnt, and no more.
pub trait Guide {
    /// The next pair to try, or `None` where none is left.
    fn next_pair(&mut self) -> Result<Option<Pair>, AllocError>;

    /// The variables on which the trial of that pair may decide besides.
    fn near(&self) -> &[u64];

    /// Told what became of that pair, with the values at that time.
    fn tell(&mut self, outcome: Outcome, values: &Watched) -> Result<(), AllocError>;
}

/// A guide that proposes nothing.
#[derive(Drop)]
pub(crate) struct NoPairs;

impl Guide for NoPairs {
    fn next_pair(&mut self) -> Result<Option<Pair>, AllocError> {
        Ok(None)
    }

    fn near(&self) -> &[u64] {
        &[]
    }

    fn tell(&mut self, _outcome: Outcome, _values: &Watched) -> Result<(), AllocError> {
        Ok(())
    }
}
