//! The gates that a formula's clauses say.
use resolution_proof::cnf::Cnf;
use resolution_proof::literal::Literal;
use std::alloc::{AllocError, Global};

/// An and of two literals, whose variables are lesser than the gate's.
#[derive(Clone, Copy)]
pub(crate) struct Gate {
    pub(crate) first: Literal,
    pub(crate) second: Literal,
}

/// The gate of each variable. An input has none.
#[derive(Drop)]
pub(crate) struct Circuit {
    gates: Vec<Option<Gate>>,
}

impl Circuit {
    /// Reads a gate at each clause of three literals of which the first is a variable, and the others are of lesser ones.
    pub(crate) fn read(alloc: Global, cnf: &Cnf) -> Result<Circuit, AllocError> {
        let input: Option<Gate> = None;
        let mut gates = vec![in alloc; input; cnf.variables() as usize]?;
        for clause in cnf.clauses() {
            if let Some((variable, gate)) = gate_of(clause.as_slice()) {
                set_gate(&mut gates, variable, gate);
            }
        }
        Ok(Circuit { gates })
    }

    /// The number of variables.
    pub(crate) fn variables(&self) -> usize {
        self.gates.len()
    }

    /// The variable's gate.
    pub(crate) fn gate(&self, variable: u64) -> Option<Gate> {
        let index = variable.wrapping_sub(1) as usize;
        self.gates.get(index).copied().unwrap_or(None)
    }
}

/// The gate that the clause says, if it may be one, with its variable.
fn gate_of(literals: &[Literal]) -> Option<(u64, Gate)> {
    let [output, first, second] = literals else {
        return None;
    };
    if !output.positive || first.variable >= output.variable || second.variable >= output.variable {
        return None;
    }
    let gate = Gate {
        first: first.negation(),
        second: second.negation(),
    };
    Some((output.variable, gate))
}

fn set_gate(gates: &mut [Option<Gate>], variable: u64, gate: Gate) {
    let index = variable.wrapping_sub(1) as usize;
    if index < gates.len() {
        gates[index] = Some(gate);
    }
}
