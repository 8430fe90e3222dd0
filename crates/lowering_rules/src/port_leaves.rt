//! Ports by their leaves, each with a name of its own.
ghost use Rattle.std.specs.Prelude.{◌≡◌, ◌++◌, ◌∷◌, [], map, IfOk, OnOk};
ghost use Rattle.std.specs.List.{flat_map};
ghost use Rattle.hw_model.specs.TypeViews.{type_of};
ghost use Rattle.ir_store.specs.Designs.{port_of, ports_in};
ghost use Rattle.fresh_names.specs.Fresh.{fresh, free_name};
ghost use Rattle.fresh_names.specs.TakenViews.{taken_names};
ghost use Rattle.aggregate_laws.specs.Leaves.{leaf_port, leaf_ports};
ghost use Rattle.aggregate_laws.specs.LeafPorts.{wanted_names, port_leaf_names, with_names, split_ports};

use crate::leaf_texts::push_leaf_names;
use crate::leaf_types::push_leaves;
use fresh_names::taken_names::TakenNames;
use hw_model::types::Ty;
use io_edge::byte_text::Text;
use ir_store::design::{Port, PortList};
use std::alloc::{AllocError, Global};

/// The names of the leaves of ports, in order (CIRCT, HW dialect: `hw-lower-aggregates`): a leaf of a port named `n` wants `n` and for
/// each level `_` and the field or the number of the element; a name that is taken gets `_0`, `_1`, .., the least that is free. The
/// error comes only when out of memory, for which 2^32 - 1 leaves or more count. Linear in the wanted names' bytes, where
/// names are different.
pub fn leaf_names(alloc: Global, ports: &PortList) -> Result<Vec<Text>, AllocError>
    ensures { IfOk result (λ names. names.items ≡ port_leaf_names (ports_in ports.now)) }
{
    let wanted = wanted_names(alloc, ports)?;
    free_names(alloc, wanted.as_slice())
}

/// The leaves of ports, with these names.
pub fn split_ports(alloc: Global, ports: &PortList) -> Result<PortList, AllocError>
    ensures { IfOk result (λ split. ports_in split ≡ split_ports (ports_in ports.now)) }
{
    let names = leaf_names(alloc, ports)?;
    let leaves = leaf_ports(alloc, ports)?;
    let ports = with_names(alloc, names.as_slice(), leaves.as_slice())?;
    Ok(PortList { ports })
}

// The names that the leaves of ports want.
fn wanted_names(alloc: Global, ports: &PortList) -> Result<Vec<Text>, AllocError>
    ensures { IfOk result (λ names. names.items ≡ wanted_names (ports_in ports.now)) }
{
    let mut names = Vec::new(alloc);
    for port in &ports.ports {
        push_leaf_names(alloc, &mut names, port.name.as_bytes(), &port.ty)?;
    }
    Ok(names)
}

// The free names of wanted ones, in their turn.
fn free_names(alloc: Global, wanted: &[Text]) -> Result<Vec<Text>, AllocError>
    ensures { IfOk result (λ names. names.items ≡ fresh [] wanted.now) }
{
    let mut taken = TakenNames::new(alloc);
    let mut names = Vec::new(alloc);
    for name in wanted {
        names.push(free_name(alloc, &mut taken, name.as_bytes())?)?;
    }
    Ok(names)
}

// Takes the free name of a wanted one, and gives it.
fn free_name(alloc: Global, taken: &mut TakenNames, wanted: &[u8]) -> Result<Text, AllocError>
    ensures taken { OnOk result (taken_names taken.new ≡ taken_names taken.old ++ free_name (taken_names taken.old) wanted.now ∷ []) }
    ensures name { IfOk result (λ name. name ≡ free_name (taken_names taken.old) wanted.now) }
{
    if taken.len() >= u32::MAX as usize - 1 {
        return Err(AllocError);
    }
    let id = taken.take(wanted)?;
    Text::of(alloc, taken.name(id))
}

// The leaves of ports, without names.
fn leaf_ports(alloc: Global, ports: &PortList) -> Result<Vec<Port>, AllocError>
    ensures { IfOk result (λ leaves. map port_of leaves.items ≡ flat_map leaf_ports (ports_in ports.now)) }
{
    let mut leaves = Vec::new(alloc);
    for port in &ports.ports {
        push_leaf_ports(alloc, &mut leaves, port)?;
    }
    Ok(leaves)
}

// Puts the leaves of a port after others.
fn push_leaf_ports(alloc: Global, leaves: &mut Vec<Port>, port: &Port) -> Result<(), AllocError>
    ensures { OnOk result (map port_of leaves.new.items ≡ map port_of leaves.old.items ++ leaf_ports (port_of port.now)) }
{
    let mut types = Vec::new(alloc);
    push_leaves(&mut types, &port.ty)?;
    push_typed_ports(alloc, leaves, port.out, types.as_slice())
}

// Puts ports of one way and of these types after others.
fn push_typed_ports(
    alloc: Global,
    leaves: &mut Vec<Port>,
    out: bool,
    types: &[Ty],
) -> Result<(), AllocError>
    ensures { OnOk result (map port_of leaves.new.items ≡ map port_of leaves.old.items ++ map (leaf_port out) (map type_of types.now)) }
{
    for ty in types {
        leaves.push(Port {
            name: Text::new(alloc),
            out,
            ty: ty.try_clone(alloc)?,
            again: false,
        })?;
    }
    Ok(())
}

// Ports with other names in order, as far as there are names.
fn with_names(alloc: Global, names: &[Text], ports: &[Port]) -> Result<Vec<Port>, AllocError>
    ensures { IfOk result (λ named. map port_of named.items ≡ with_names names.now (map port_of ports.now)) }
{
    let mut named = Vec::with_capacity(alloc, ports.len())?;
    let mut rest = names;
    for port in ports {
        if let Some((first, others)) = rest.split_first() {
            named.push(with_name(alloc, first, port)?)?;
            rest = others;
        } else {
            named.push(port.try_clone(alloc)?)?;
        }
    }
    Ok(named)
}

// A port with another name.
fn with_name(alloc: Global, name: &Text, port: &Port) -> Result<Port, AllocError>
    ensures { IfOk result (λ named. port_of named ≡ record (port_of port.now) { name = name.now }) }
{
    Ok(Port {
        name: name.try_clone(alloc)?,
        out: port.out,
        ty: port.ty.try_clone(alloc)?,
        again: port.again,
    })
}
