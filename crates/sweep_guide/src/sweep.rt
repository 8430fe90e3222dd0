//! Sweeps over the gates of a circuit.
use crate::circuit::Circuit;
use crate::classes::Classes;
use crate::cone::Cone;
use crate::words::{Bits, random_words, words_near};
use cdcl_proof::guide::{Guide, Outcome, Pair};
use clause_learning::watched::Watched;
use resolution_proof::cnf::Cnf;
use resolution_proof::literal::Literal;
use std::alloc::{AllocError, Global};

/// How many words of random bits tell signals apart at first.
const WORDS: u64 = 16;

/// How many refuted pairs a gate may have.
const TRIES: u64 = 40;

/// How many pairs may cost more than a trial may.
const GIVEN_UP: u64 = 64;

/// How many signals may be evaluated again for refuted pairs.
const EVALUATED: u64 = 1 << 28;

/// Proposes for each gate, in order, that it is what the least signal is that was alike so far, or its inverse, or that it
/// is constant: that each implies the other. What refutes a pair tells further signals apart (Kuehlmann, Dynamic
/// transition relation simplification for bounded property checking, 2004).
///
/// Gates are read from the formula's clauses of three literals, of which the first is the gate's variable. It takes some
/// 100 bytes a variable, and where a pair is refuted, the time of a sort of the signals.
#[derive(Drop)]
pub struct Sweep {
    alloc: Global,
    circuit: Circuit,
    classes: Classes,
    bits: Bits,
    cone: Cone,
    // the gate whose pair is tried, whether in its second direction, and how many of its pairs were refuted
    at: u64,
    is_second: bool,
    refuted: u64,
    // what is left for pairs that are given up and for refuted ones
    given_up: u64,
    evaluated: u64,
}

impl Sweep {
    /// A sweep over the gates that the formula's clauses say.
    pub fn new(alloc: Global, cnf: &Cnf) -> Result<Sweep, AllocError> {
        let circuit = Circuit::read(alloc, cnf)?;
        let mut bits = Bits::new();
        let classes = random_classes(alloc, &circuit, &mut bits)?;
        let cone = Cone::new(alloc, circuit.variables())?;
        Ok(Sweep {
            alloc,
            circuit,
            classes,
            bits,
            cone,
            at: 1,
            is_second: false,
            refuted: 0,
            given_up: GIVEN_UP,
            evaluated: EVALUATED,
        })
    }

    /// The pair of the gate: one direction of what it is like, or that it is constant.
    fn pair_of(&self, variable: u64) -> Option<Pair> {
        self.circuit.gate(variable)?;
        let leader = self.classes.leader(variable);
        if leader >= variable {
            return None;
        }
        let is_inverted = self.classes.is_inverted(variable);
        if leader == 0 {
            let unusual = Literal {
                variable,
                positive: !is_inverted,
            };
            return Some(Pair {
                first: unusual,
                second: unusual.negation(),
            });
        }
        let gate = Literal {
            variable,
            positive: true,
        };
        let alike = Literal {
            variable: leader,
            positive: is_inverted == self.classes.is_inverted(leader),
        };
        Some(self.directed(gate, alike))
    }

    /// The direction that is tried of two literals that may be alike.
    fn directed(&self, gate: Literal, alike: Literal) -> Pair {
        if self.is_second {
            Pair {
                first: alike,
                second: gate,
            }
        } else {
            Pair {
                first: gate,
                second: alike,
            }
        }
    }

    /// Goes to the gate of the variable.
    fn go_to(&mut self, variable: u64) {
        self.at = variable;
        self.is_second = false;
        self.refuted = 0;
    }

    /// One direction of the pair holds.
    fn prove(&mut self) {
        if self.is_second || self.classes.leader(self.at) == 0 {
            self.go_to(self.at.saturating_add(1));
        } else {
            self.is_second = true;
        }
    }

    /// Leaves the gate in a class of its own.
    fn leave(&mut self) {
        self.classes.set_alone(self.at);
        self.go_to(self.at.saturating_add(1));
    }

    /// These values refute the pair: where enough is left for it, classes are told apart by them and by inputs near them.
    fn refute(&mut self, values: &Watched) -> Result<(), AllocError> {
        let cost = self.circuit.variables() as u64;
        if self.refuted >= TRIES || self.evaluated < cost {
            self.leave();
            return Ok(());
        }
        self.refuted += 1;
        self.evaluated -= cost;
        self.is_second = false;
        let words = words_near(self.alloc, &self.circuit, &mut self.bits, values)?;
        self.classes.add(&words);
        self.classes.divide(self.alloc)?;
        Ok(())
    }
}

impl Guide for Sweep {
    fn next_pair(&mut self) -> Result<Option<Pair>, AllocError> {
        if self.given_up == 0 {
            return Ok(None);
        }
        let end = (self.circuit.variables() as u64).saturating_add(1);
        for variable in self.at..end {
            if variable > self.at {
                self.go_to(variable);
            }
            if let Some(pair) = self.pair_of(variable) {
                self.cone.find(&self.circuit, pair)?;
                return Ok(Some(pair));
            }
        }
        Ok(None)
    }

    fn near(&self) -> &[u64] {
        self.cone.as_slice()
    }

    fn tell(&mut self, outcome: Outcome, values: &Watched) -> Result<(), AllocError> {
        match outcome {
            Outcome::Proved => self.prove(),
            Outcome::GaveUp => {
                self.given_up = self.given_up.saturating_sub(1);
                self.leave();
            }
            Outcome::Refuted => self.refute(values)?,
        }
        Ok(())
    }
}

/// Classes of the signals for random inputs.
fn random_classes(
    alloc: Global,
    circuit: &Circuit,
    bits: &mut Bits,
) -> Result<Classes, AllocError> {
    let first = random_words(alloc, circuit, bits)?;
    let mut classes = Classes::new(alloc, &first)?;
    classes.add(&first);
    for _ in 1..WORDS {
        let words = random_words(alloc, circuit, bits)?;
        classes.add(&words);
    }
    classes.divide(alloc)?;
    Ok(classes)
}
