//! Reset ports: the input ports from which registers of a design are reset without their clocks.
ghost use Rattle.std.specs.Prelude.{◌≡◌, IfOk};
ghost use Rattle.ir_store.specs.Designs.{design_of};
ghost use Rattle.port_checks.specs.Marked.{has_reset, AreResetPorts};

use crate::joins::push_joins;
use crate::named::named_ports;
use crate::numbers::{numbers_of, port_number, port_row};
use graphs::{is_marked, reached_from};
use ir_store::design::Design;
use std::alloc::{AllocError, Global};

/// Which ports of the modules of a design are reset ports: the i1 inputs that a register names as its asynchronous reset, or
/// that an instance joins to a reset port. Contracts see it by `AreResetPorts`.
#[derive(Drop)]
pub struct ResetPorts {
    /// The number of the first port of each module, and after these how many ports there are.
    starts: Vec<u32>,
    /// Of each port whether it is a reset port.
    marks: Vec<bool>,
}

impl ResetPorts {
    /// The reset ports of a design, in time linear in the design. Where no register has an asynchronous reset, one look over
    /// its operations tells so, and no memory is taken. The error is out of memory; so it is where some register has one and
    /// there are 2^32 ports or more.
    pub fn of(alloc: Global, design: &Design) -> Result<ResetPorts, AllocError>
        ensures { IfOk result (AreResetPorts (design_of design.now)) }
    {
        let named = named_ports(alloc, design)?;
        if named.is_empty() {
            return Ok(ResetPorts {
                starts: Vec::new(alloc),
                marks: Vec::new(alloc),
            });
        }
        let mut row = port_row(alloc, design)?;
        push_joins(design, row.starts.as_slice(), &mut row.joined)?;
        let numbers = numbers_of(alloc, row.starts.as_slice(), named.as_slice())?;
        let marks = reached_from(alloc, row.joined.as_slice(), numbers.as_slice())?;
        Ok(ResetPorts {
            starts: row.starts,
            marks,
        })
    }

    /// Whether a port of a module is a reset port; none is that is not there.
    pub fn has(&self, module: usize, port: usize) -> bool
        ensures { result ≡ has_reset self.now «module» port }
    {
        match port_number(self.starts.as_slice(), module, port) {
            Some(number) => is_marked(self.marks.as_slice(), number),
            None => false,
        }
    }
}
