//! Clauses under literals that are true.
use resolution_proof::literal::Literal;

/// What a clause is where some literals are true.
#[derive(Clone, Copy)]
pub(crate) enum Judged {
    /// Each literal is false.
    Conflict,
    /// This literal alone is not false, and it is not true either.
    Forces(Literal),
    /// Neither of these.
    Neither,
}
