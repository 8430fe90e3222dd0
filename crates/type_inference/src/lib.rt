//! The types of an operation's results, settled once for all who ask: the reader, the stored form, the checks and the
//! verifier (CIRCT: operation references of HW, Comb and Seq).
#![tactic(auto)]

pub mod result_types;
pub mod settled_type;
