//! The numbers of ports among those of all modules of a design.
ghost use Rattle.std.specs.Prelude.{◌≡◌, ◌++◌, [], length, replicate, option_to_list, IfOk, OnOk, option_and_then};
ghost use Rattle.ir_store.specs.Designs.{design_of};
ghost use Rattle.graphs.specs.Graphs.{lists_of};
ghost use Rattle.port_checks.specs.Numbers.{port_number, numbers_of, AreStarts};
ghost use Rattle.port_checks.specs.ResetPorts.{port_count};

use crate::named::PortPosition;
use graphs::NodeList;
use ir_store::design::Design;
use std::alloc::{AllocError, Global};

/// The ports of all modules of a design in one row.
#[derive(Drop)]
pub(crate) struct PortRow {
    /// The number of the first port of each module, and after these how many ports there are.
    pub(crate) starts: Vec<u32>,
    /// Of each port those that instances join to it.
    pub(crate) joined: Vec<NodeList>,
}

/// The ports of a design, none joined to another. The error is out of memory; so it is where there are 2^32 ports or more,
/// which have no numbers.
pub(crate) fn port_row(alloc: Global, design: &Design) -> Result<PortRow, AllocError>
    ensures starts { IfOk result (λ row. AreStarts (design_of design.now) row.starts.items) }
    ensures joined { IfOk result (λ row. lists_of row.joined.items ≡ replicate (port_count (design_of design.now)) []) }
{
    let mut starts = Vec::new(alloc);
    let mut joined = Vec::new(alloc);
    for number in 0..design.module_count() {
        starts.push(count_of(joined.as_slice())?)?;
        push_ports(alloc, design.module(number).ports.ports.len(), &mut joined)?;
    }
    starts.push(count_of(joined.as_slice())?)?;
    Ok(PortRow { starts, joined })
}

/// How many ports there are.
fn count_of(joined: &[NodeList]) -> Result<u32, AllocError>
    ensures { IfOk result (λ count. count ≡ length joined.now) }
{
    match u32::try_from(joined.len()) {
        Ok(count) => Ok(count),
        Err(_) => Err(AllocError),
    }
}

/// Appends so many ports to which none is joined.
fn push_ports(alloc: Global, count: usize, joined: &mut Vec<NodeList>) -> Result<(), AllocError>
    ensures { OnOk result (lists_of joined.new.items ≡ lists_of joined.old.items ++ replicate count []) }
{
    for _port in 0..count {
        joined.push(NodeList {
            nodes: Vec::new(alloc),
        })?;
    }
    Ok(())
}

/// The number of a port of a module, where there is such a port.
pub(crate) fn port_number(starts: &[u32], owner: usize, port: usize) -> Option<u32>
    ensures { result ≡ port_number starts.now owner port }
{
    let start = *starts.get(owner)?;
    let end = *starts.get(owner + 1)?;
    if port < end.saturating_sub(start) as usize {
        Some(start + port as u32)
    } else {
        None
    }
}

/// The number of a port, where there is one.
pub(crate) fn optional_number(starts: &[u32], owner: usize, port: Option<u32>) -> Option<u32>
    ensures { result ≡ option_and_then (port_number starts.now owner) port }
{
    match port {
        Some(port) => port_number(starts, owner, port as usize),
        None => None,
    }
}

/// The numbers of ports.
pub(crate) fn numbers_of(
    alloc: Global,
    starts: &[u32],
    positions: &[PortPosition],
) -> Result<Vec<u32>, AllocError>
    ensures { IfOk result (λ numbers. numbers.items ≡ numbers_of starts.now positions.now) }
{
    let mut numbers = Vec::with_capacity(alloc, positions.len())?;
    for position in positions {
        let number = port_number(starts, position.owner as usize, position.port as usize);
        push_number(number, &mut numbers)?;
    }
    Ok(numbers)
}

/// Appends a number, where there is one.
fn push_number(number: Option<u32>, numbers: &mut Vec<u32>) -> Result<(), AllocError>
    ensures { OnOk result (numbers.new.items ≡ numbers.old.items ++ option_to_list number) }
{
    match number {
        Some(number) => {
            numbers.push(number)?;
            Ok(())
        }
        None => Ok(()),
    }
}
