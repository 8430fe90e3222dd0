//! Pairs of ports by their numbers: one, and another that instances join to it.
ghost use Rattle.std.specs.Prelude.{OnOk};
ghost use Rattle.graphs.specs.Graphs.{lists_of};
ghost use Rattle.port_checks.specs.Pairs.{pair_of, AddsPairs};

use graphs::NodeList;
use std::alloc::AllocError;

/// Appends a port to those that are joined to another, where there are both.
pub(crate) fn push_joined(
    joined: &mut Vec<NodeList>,
    to: Option<u32>,
    port: Option<u32>,
) -> Result<(), AllocError>
    ensures { OnOk result (AddsPairs (pair_of to port) (lists_of joined.old.items) (lists_of joined.new.items)) }
{
    let Some(to) = to else {
        return Ok(());
    };
    let Some(port) = port else {
        return Ok(());
    };
    if to as usize >= joined.len() {
        return Ok(());
    }
    let list = &mut joined[to as usize];
    list.nodes.push(port)?;
    Ok(())
}
