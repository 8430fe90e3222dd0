//! The clauses of a circuit.
ghost use Rattle.std.specs.Prelude.{◌≡◌, ◌<◌, ◌++◌, IfOk, OnOk};
ghost use Rattle.gates.specs.Clauses.{literal_of, implies_pin, implied_by, gate_clauses, clauses_from};
ghost use Rattle.gates.specs.Order.{AreInOrder};

use crate::circuit::Gates;
use crate::signal::{Gate, Pin};
use resolution_proof::clause::Clause;
use resolution_proof::literal::Literal;
use std::alloc::{AllocError, Global};

/// The clauses that give each gate's variable the bit of its gate: three a gate, in the order of the gates.
pub fn clauses(alloc: Global, circuit: &Gates) -> Result<Vec<Clause>, AllocError>
    requires { AreInOrder circuit.now.inputs circuit.now.gates }
    ensures { IfOk result (λ cs. cs.items ≡ clauses_from circuit.now.inputs circuit.now.gates) }
{
    let mut clauses = Vec::new(alloc);
    let mut variable = u64::from(circuit.inputs());
    for gate in circuit.as_slice() {
        variable += 1;
        push_clauses(alloc, &mut clauses, variable, *gate)?;
    }
    Ok(clauses)
}

/// Adds the clauses that give the variable the bit of the gate.
fn push_clauses(
    alloc: Global,
    clauses: &mut Vec<Clause>,
    variable: u64,
    gate: Gate,
) -> Result<(), AllocError>
    requires ordered { gate.first.variable < gate.second.variable }
    requires before { gate.second.variable < variable }
    ensures { OnOk result (clauses.new.items ≡ clauses.old.items ++ gate_clauses variable gate) }
{
    let first = implication(alloc, variable, gate.first)?;
    let second = implication(alloc, variable, gate.second)?;
    let third = converse(alloc, variable, gate)?;
    clauses.push(first)?;
    clauses.push(second)?;
    clauses.push(third)?;
    Ok(())
}

/// Where the variable is 1, so is the pin.
fn implication(alloc: Global, variable: u64, pin: Pin) -> Result<Clause, AllocError>
    requires { pin.variable < variable }
    ensures { IfOk result (λ c. c ≡ implies_pin variable pin) }
{
    let complement = Literal {
        variable,
        positive: false,
    };
    let literals = vec![in alloc; complement, literal(pin)]?;
    Ok(Clause::from_distinct(literals))
}

/// Where both pins are 1, so is the variable.
fn converse(alloc: Global, variable: u64, gate: Gate) -> Result<Clause, AllocError>
    requires ordered { gate.first.variable < gate.second.variable }
    requires before { gate.second.variable < variable }
    ensures { IfOk result (λ c. c ≡ implied_by variable gate) }
{
    let output = Literal {
        variable,
        positive: true,
    };
    let first = literal(gate.first.opposite());
    let second = literal(gate.second.opposite());
    let literals = vec![in alloc; output, first, second]?;
    Ok(Clause::from_distinct(literals))
}

fn literal(pin: Pin) -> Literal
    ensures { result ≡ literal_of pin }
{
    Literal {
        variable: u64::from(pin.variable),
        positive: pin.positive,
    }
}
