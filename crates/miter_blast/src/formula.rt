//! The formula of a circuit's signal.
ghost use Rattle.std.specs.Prelude.{◌≡◌, ◌+◌, ◌++◌, IfOk, OnOk, IsTrue};
ghost use Rattle.resolution_proof.specs.Formula.{are_clauses};
ghost use Rattle.gates.specs.Order.{AreInOrder};
ghost use Rattle.net_gates.specs.Miters.{signal_clauses};
ghost use Rattle.miter_blast.specs.Formulas.{circuit_formula};

use gates::circuit::Gates;
use gates::clauses::clauses;
use gates::signal::Signal;
use resolution_proof::clause::Clause;
use resolution_proof::cnf::Cnf;
use resolution_proof::literal::Literal;
use std::alloc::{AllocError, Global};

/// The clauses that give each gate's variable the bit of its gate (Tseitin, 1968), and that the signal is 1.
pub(crate) fn formula_of(alloc: Global, gates: &Gates, signal: Signal) -> Result<Cnf, AllocError>
    requires order { AreInOrder gates.now.inputs gates.now.gates }
    requires within { IsTrue (are_clauses (circuit_formula gates.now signal).variables (circuit_formula gates.now signal).clauses) }
    ensures { IfOk result (λ f. f ≡ circuit_formula gates.now signal) }
{
    let mut list = clauses(alloc, gates)?;
    push_signal(alloc, &mut list, signal)?;
    let variables = u64::from(gates.inputs()) + gates.as_slice().len() as u64;
    match Cnf::new(variables, list) {
        Some(cnf) => Ok(cnf),
        None => unreachable!(),
    }
}

// Adds that the signal is 1.
fn push_signal(alloc: Global, list: &mut Vec<Clause>, signal: Signal) -> Result<(), AllocError>
    ensures { OnOk result (list.new.items ≡ list.old.items ++ signal_clauses signal) }
{
    match signal {
        Signal::Fixed(true) => {}
        Signal::Fixed(false) => list.push(Clause::empty(alloc))?,
        Signal::Wire(pin) => {
            let literal = Literal {
                variable: u64::from(pin.variable),
                positive: pin.positive,
            };
            let literals = vec![in alloc; literal]?;
            list.push(Clause::from_distinct(literals))?;
        }
    }
    Ok(())
}
