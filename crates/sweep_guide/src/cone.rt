//! Cones: the variables on which two signals depend.
use crate::circuit::Circuit;
use cdcl_proof::guide::Pair;
use resolution_proof::literal::Literal;
use std::alloc::{AllocError, Global};

/// The variables of a pair and those on which they depend, with a mark for each variable that is one of them.
#[derive(Drop)]
pub(crate) struct Cone {
    marks: Vec<bool>,
    variables: Vec<u64>,
}

impl Cone {
    /// No variable of that many.
    pub(crate) fn new(alloc: Global, variables: usize) -> Result<Cone, AllocError> {
        Ok(Cone {
            marks: vec![in alloc; false; variables]?,
            variables: Vec::new(alloc),
        })
    }

    /// The variables of the cone.
    pub(crate) fn as_slice(&self) -> &[u64] {
        &self.variables
    }

    /// Becomes the cone of the pair. It costs a walk over this cone and the one before.
    pub(crate) fn find(&mut self, circuit: &Circuit, pair: Pair) -> Result<(), AllocError> {
        self.clear();
        self.add(pair.first)?;
        self.add(pair.second)?;
        for index in 0..self.marks.len() {
            let Some(variable) = self.variables.get(index).copied() else {
                return Ok(());
            };
            self.add_pins(circuit, variable)?;
        }
        Ok(())
    }

    /// Takes out all variables.
    fn clear(&mut self) {
        while let Some(variable) = self.variables.pop() {
            let index = variable.wrapping_sub(1) as usize;
            if index < self.marks.len() {
                self.marks[index] = false;
            }
        }
    }

    /// Adds the variables of the pins of the variable's gate.
    fn add_pins(&mut self, circuit: &Circuit, variable: u64) -> Result<(), AllocError> {
        if let Some(gate) = circuit.gate(variable) {
            self.add(gate.first)?;
            self.add(gate.second)?;
        }
        Ok(())
    }

    /// Adds the variable of the literal, unless it is there.
    fn add(&mut self, literal: Literal) -> Result<(), AllocError> {
        let index = literal.variable.wrapping_sub(1) as usize;
        if index < self.marks.len() && !self.marks[index] {
            self.marks[index] = true;
            self.variables.push(literal.variable)?;
        }
        Ok(())
    }
}
