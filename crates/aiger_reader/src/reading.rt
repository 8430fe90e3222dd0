//! A text that is being read: its lines behind the header.
ghost use Rattle.std.specs.Prelude.{◌≡◌, ◌<◌, ◌≤◌, ◌+◌, ◌^◌, [], ◌∷◌, length, true, IfOk, option_map};
ghost use Rattle.aiger_laws.specs.Trees.{empty_tree};
ghost use Rattle.aiger_laws.specs.Fields.{fields};
ghost use Rattle.aiger_laws.specs.Rows.{input_added, latch_added, output_added, gate_added, row_added, has_more, is_ample};
ghost use Rattle.aiger_reader.specs.Headers.{header_in, latch_in, gate_in};
ghost use Rattle.aiger_reader.specs.Kept.{tree_of, Knows, Adds};

use crate::drivers::{Driver, Drivers, is_beyond};
use crate::header::Header;
use crate::rows::{gate_of, latch_of, one_number};
use crate::text::AigerText;
use aiger_laws::fault::Fault;
use aiger_laws::tree::{AndGate, Latch};
use std::alloc::{AllocError, Global};

impl AigerText {
    /// Nothing is read. It takes no memory.
    pub(crate) fn new(alloc: Global) -> AigerText
        ensures tree { tree_of result ≡ empty_tree }
        ensures knows { Knows result }
    {
        AigerText {
            inputs: Vec::new(alloc),
            latches: Vec::new(alloc),
            outputs: Vec::new(alloc),
            gates: Vec::new(alloc),
            drivers: Drivers::new(alloc),
        }
    }

    /// Whether the header says more lines than were read.
    #[tactic(auto, unfolding(aiger_laws::specs::Rows::has_more))]
    pub(crate) fn has_more(&self, header: Header) -> bool
        ensures { result ≡ has_more (header_in header) (tree_of self.now) }
    {
        (self.inputs.len() as u64) < header.inputs
            || ((self.latches.len() as u64) < header.latches
                || ((self.outputs.len() as u64) < header.outputs
                    || (self.gates.len() as u64) < header.gates))
    }

    /// Reads an input.
    fn add_input(&mut self, most: u64, input: Option<u64>) -> Result<Option<Fault>, AllocError>
        requires most { most < 2 ^ 31 }
        requires few { length self.old.inputs.items < 2 ^ 31 }
        requires knows { Knows self.old }
        ensures knows { IfOk result (λ _. Knows self.new) }
        ensures adds { IfOk result (λ fault. Adds (input_added most (tree_of self.old) input) fault (tree_of self.new)) }
    {
        let Some(literal) = input else {
            return Ok(Some(Fault::BadLine));
        };
        let place = self.inputs.len() as u32;
        let fault = self
            .drivers
            .define(most, literal, &[], Driver::Input(place))?;
        match fault {
            Some(fault) => Ok(Some(fault)),
            None => {
                self.inputs.push(literal as u32)?;
                Ok(None)
            }
        }
    }

    /// Reads a latch.
    fn add_latch(
        &mut self,
        most: u64,
        latch: Option<(u64, u64)>,
    ) -> Result<Option<Fault>, AllocError>
        requires most { most < 2 ^ 31 }
        requires few { length self.old.latches.items < 2 ^ 31 }
        requires knows { Knows self.old }
        ensures knows { IfOk result (λ _. Knows self.new) }
        ensures adds { IfOk result (λ fault. Adds (latch_added most (tree_of self.old) (option_map latch_in latch)) fault (tree_of self.new)) }
    {
        let Some((literal, next)) = latch else {
            return Ok(Some(Fault::BadLine));
        };
        let place = self.latches.len() as u32;
        let fault = self
            .drivers
            .define(most, literal, &[next], Driver::Latch(place))?;
        match fault {
            Some(fault) => Ok(Some(fault)),
            None => {
                self.latches.push(Latch {
                    literal: literal as u32,
                    next: next as u32,
                })?;
                Ok(None)
            }
        }
    }

    /// Reads an output.
    fn add_output(&mut self, most: u64, output: Option<u64>) -> Result<Option<Fault>, AllocError>
        requires most { most < 2 ^ 31 }
        requires knows { Knows self.old }
        ensures knows { IfOk result (λ _. Knows self.new) }
        ensures adds { IfOk result (λ fault. Adds (output_added most (tree_of self.old) output) fault (tree_of self.new)) }
    {
        let Some(literal) = output else {
            return Ok(Some(Fault::BadLine));
        };
        if is_beyond(most, literal) {
            return Ok(Some(Fault::OutOfRange));
        }
        self.outputs.push(literal as u32)?;
        Ok(None)
    }

    /// Reads a gate.
    fn add_gate(
        &mut self,
        most: u64,
        gate: Option<((u64, u64), u64)>,
    ) -> Result<Option<Fault>, AllocError>
        requires most { most < 2 ^ 31 }
        requires few { length self.old.gates.items < 2 ^ 31 }
        requires knows { Knows self.old }
        ensures knows { IfOk result (λ _. Knows self.new) }
        ensures adds { IfOk result (λ fault. Adds (gate_added most (tree_of self.old) (option_map gate_in gate)) fault (tree_of self.new)) }
    {
        let Some(((literal, left), right)) = gate else {
            return Ok(Some(Fault::BadLine));
        };
        let place = self.gates.len() as u32;
        let fault = self
            .drivers
            .define(most, literal, &[left, right], Driver::Gate(place))?;
        match fault {
            Some(fault) => Ok(Some(fault)),
            None => {
                self.gates.push(AndGate {
                    literal: literal as u32,
                    left: left as u32,
                    right: right as u32,
                })?;
                Ok(None)
            }
        }
    }

    /// Reads the next line that the header says.
    pub(crate) fn add_row(
        &mut self,
        header: Header,
        line: &[u8],
    ) -> Result<Option<Fault>, AllocError>
        requires ample { is_ample (header_in header) ≡ true }
        requires more { has_more (header_in header) (tree_of self.old) ≡ true }
        requires knows { Knows self.old }
        ensures knows { IfOk result (λ _. Knows self.new) }
        ensures adds { IfOk result (λ fault. Adds (row_added (header_in header) (tree_of self.old) (fields line.now)) fault (tree_of self.new)) }
    {
        if (self.inputs.len() as u64) < header.inputs {
            self.add_input(header.most, one_number(line))
        } else if (self.latches.len() as u64) < header.latches {
            self.add_latch(header.most, latch_of(line))
        } else if (self.outputs.len() as u64) < header.outputs {
            self.add_output(header.most, one_number(line))
        } else {
            self.add_gate(header.most, gate_of(line))
        }
    }
}
