//! Which modules are compared, and where a proof is written.
ghost use Rattle.std.specs.Prelude.{◌≡◌, ◌≤◌, ◌++◌, string_bytes, codes};

use std::alloc::{AllocError, Global};

/// Two modules that are compared, how many clauses may be learnt before that is given up, 1 at least, and where a proof is
/// written.
#[derive(Drop)]
pub struct Comparison {
    /// The name of the module of the first input.
    pub left: String,
    /// The name of the module of the last input.
    pub right: String,
    /// How many clauses may be learnt.
    pub conflict_limit: u64,
    /// The names of the files of a proof that the modules agree, if one is asked for.
    pub proof: Option<ProofFiles>,
    ghost some: { 1 ≤ conflict_limit },
}

/// The names of the two files of a proof. Both are as they stand: `-` is a file too.
#[derive(Drop)]
pub struct ProofFiles {
    /// The name of the file of the formula that is refuted: that of the proof's file and `.cnf`.
    pub formula: String,
    /// The name of the file of the proof.
    pub proof: String,
    ghost after: { string_bytes formula ≡ string_bytes proof ++ codes ".cnf" },
}

impl ProofFiles {
    ghost use Rattle.std.specs.Prelude.{◌≡◌, IfOk, string_bytes};

    /// The files of the proof that has this name.
    pub fn named(alloc: Global, name: &str) -> Result<ProofFiles, AllocError>
        ensures { IfOk result (λ f. string_bytes f.proof ≡ name.now) }
    {
        let formula = format!(in alloc; "{name}.cnf")?;
        match String::from_str(alloc, name) {
            Ok(proof) => Ok(ProofFiles { formula, proof }),
            Err(error) => Err(error),
        }
    }
}
