//! The clauses of circuits.

ghost use Rattle.std.specs.Prelude.{IsTrue};
ghost use Rattle.gates.specs.Order.{IsGateWithin, AreInOrder};

use crate::circuits::{evaluate, inputs};
use gate_words::sums::add;
use gates::circuit::Gates;
use gates::clauses::clauses;
use gates::signal::Gate;
use resolution_proof::assignment::Assignment;
use resolution_proof::cnf::Cnf;
use std::alloc::{AllocError, Global};
use std::process::Abort;
use std::test::Fail;

// whether the gate has pins of two of the first variables, the smaller one first
fn is_within(before: u64, gate: Gate) -> bool
    ensures { IsTrue result → IsGateWithin before gate }
{
    let first = u64::from(gate.first.variable);
    let second = u64::from(gate.second.variable);
    if first == 0 || second <= first {
        return false;
    }
    if before < second {
        return false;
    }
    true
}

// whether each gate has pins of variables before its own
fn is_in_order(inputs: u32, gates: &[Gate]) -> bool
    ensures { IsTrue result → AreInOrder inputs gates.now }
{
    let mut before = u64::from(inputs);
    for gate in gates {
        if !is_within(before, *gate) {
            return false;
        }
        before += 1;
    }
    true
}

/// The formula of the circuit's clauses, over the inputs and a variable for each gate.
fn formula(alloc: Global, rt: &impl Abort, gates: &Gates) -> Result<Cnf, Fail> {
    assert!(rt; is_in_order(gates.inputs(), gates.as_slice()));
    let list = clauses(alloc, gates)?;
    let variables = u64::from(gates.inputs()).wrapping_add(gates.as_slice().len() as u64);
    Ok(Cnf::new(variables, list).expect(rt, "a variable out of range"))
}

/// The bits of a number as an assignment of so many variables.
fn assignment(alloc: Global, variables: u64, number: u64) -> Result<Assignment, AllocError> {
    let mut values = Vec::new(alloc);
    let mut left = number;
    for _ in 0..variables {
        values.push(left % 2 == 1)?;
        left /= 2;
    }
    Ok(Assignment::from_vec(values))
}

/// How many assignments satisfy the formula, which has fourteen variables or fewer.
fn count(alloc: Global, cnf: &Cnf) -> Result<u64, AllocError> {
    let mut found = 0u64;
    for number in 0..16384u64 {
        let values = assignment(alloc, cnf.variables(), number)?;
        if cnf.is_satisfied_by(&values) {
            found = found.wrapping_add(1);
        }
    }
    Ok(found)
}

/// The clauses of a sum of two words of two bits: three a gate, which the bits of each evaluation satisfy, and no others.
#[test]
fn clauses_are_satisfied_by_evaluations(rt: HostRuntime) -> Result<(), Fail> {
    let alloc = rt.alloc();
    let mut gates = Gates::new(alloc, 4);
    let xs = inputs(alloc, 1, 2)?;
    let ys = inputs(alloc, 3, 2)?;
    assert_eq!(rt; xs.len(), ys.len());
    add(alloc, &mut gates, &xs, &ys)?;
    let cnf = formula(alloc, &rt, &gates)?;
    assert_eq!(rt;
        cnf.clauses().len() as u64,
        gates.as_slice().len().wrapping_mul(3) as u64
    );
    for number in 0..16i64 {
        let values = evaluate(alloc, &gates, &[number], 4)?;
        assert!(rt;
            cnf.is_satisfied_by(&Assignment::from_vec(values)),
            "{number}"
        );
    }
    let spare = 14u64.saturating_sub(cnf.variables());
    assert_eq!(rt; count(alloc, &cnf)?, 16u64.wrapping_shl(spare as u32));
    Ok(())
}
