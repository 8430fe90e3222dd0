//! Which gates need which.
ghost use Rattle.std.specs.Prelude.{◌≡◌, map, IfOk};
ghost use Rattle.aiger_laws.specs.Trees.{variable};
ghost use Rattle.aiger_reader.specs.Kept.{drivers_of};
ghost use Rattle.aiger_reader.specs.Searched.{place_in, places, lists_in};

use crate::drivers::{Driver, Drivers};
use aiger_laws::tree::AndGate;
use std::alloc::{AllocError, Global};

/// What a gate needs: the places of the gates that give its operands their bits; where no gate does, a place that no gate has.
#[derive(Clone, Copy)]
pub(crate) struct GateNeeds {
    pub(crate) left: u32,
    pub(crate) right: u32,
}

/// The place of the gate that gives the literal's variable its bit; where no gate does, a place that no gate has.
fn gate_place(drivers: &Drivers, literal: u32) -> u32
    ensures { result ≡ place_in (drivers_of drivers.now (variable literal)) }
{
    match drivers.driver(literal / 2) {
        Some(Driver::Gate(place)) => place,
        _ => u32::MAX,
    }
}

/// What each gate needs.
pub(crate) fn needs_of(
    alloc: Global,
    drivers: &Drivers,
    gates: &[AndGate],
) -> Result<Vec<GateNeeds>, AllocError>
    ensures { IfOk result (λ needs. lists_in needs.items ≡ map (places (drivers_of drivers.now)) gates.now) }
{
    let mut needs = Vec::with_capacity(alloc, gates.len())?;
    for gate in gates {
        needs.push(GateNeeds {
            left: gate_place(drivers, gate.left),
            right: gate_place(drivers, gate.right),
        })?;
    }
    Ok(needs)
}
