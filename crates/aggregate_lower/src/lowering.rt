//! The lowering of aggregates in a whole design.
ghost use Rattle.std.specs.Prelude.{◌≡◌, map, IfOk, OnOk, OnErr};
ghost use Rattle.wiring.specs.Wiring.{In};
ghost use Rattle.ir_store.specs.Bodies.{ops_of};
ghost use Rattle.ir_store.specs.Numbered.{ops_by_position};
ghost use Rattle.ir_store.specs.Designs.{design_of, module_of, numbered_module, ports_in};
ghost use Rattle.acceptance_laws.specs.Keeps.{IsFit};
ghost use Rattle.aggregate_acceptance.specs.Joins.{joined_module};
ghost use Rattle.lowering_rules.specs.Callees.{AreCallees, module_leaves};
ghost use Rattle.lowering_rules.specs.LoweringRules.{lowering_rules};
ghost use Rattle.lowering_rules.specs.Reading.{new_refs};
ghost use Rattle.aggregate_lower.specs.Lowering.{lowered_aggregates};
ghost use Rattle.aggregate_lower.specs.MadeBodies.{numbered_from, joined_body, HasBody, CanSettle};

use crate::aggregates::has_aggregates;
use crate::made::{Made, all_made};
use crate::places::settled_ops;
use ir_store::body::Body;
use ir_store::design::{Design, Module, PortList};
use ir_store::operation::NewOp;
use lowering_rules::instances::Callees;
use lowering_rules::leaf_table::leaf_table;
use lowering_rules::port_leaves::split_ports;
use std::alloc::{AllocError, Global};

/// Has each value of an aggregate type of a design become its leaves, where there is one (CIRCT, HW dialect: `hw-lower-aggregates`). On
/// an error, which comes only when out of memory, for which 2^32 operations of a module or more count, the design stays.
/// Linear in the leaves of its values and in the operations that are made, in time and in memory; no operation is kept for values that
/// only join others or take them apart.
pub fn lower_aggregates(alloc: Global, design: &mut Design) -> Result<(), AllocError>
    requires { IsFit (design_of design.old) }
    ensures ok { OnOk result (design_of design.new ≡ lowered_aggregates (design_of design.old)) }
    ensures err { OnErr result (design_of design.new ≡ design_of design.old) }
{
    if !has_aggregates(design) {
        return Ok(());
    }
    let ports = all_ports(alloc, design)?;
    let lowered = lowered_design(alloc, design, ports.as_slice())?;
    *design = lowered;
    Ok(())
}

// The leaves of the ports of each module.
fn all_ports(alloc: Global, design: &Design) -> Result<Vec<PortList>, AllocError>
    ensures { IfOk result (λ all. map ports_in all.items ≡ map module_leaves (design_of design.now)) }
{
    let mut all = Vec::new(alloc);
    for number in 0..design.module_count() {
        all.push(split_ports(alloc, &design.module(number).ports)?)?;
    }
    Ok(all)
}

// The design of the lowered modules.
fn lowered_design(alloc: Global, design: &Design, ports: &[PortList]) -> Result<Design, AllocError>
    requires fit { IsFit (design_of design.now) }
    requires ports { map ports_in ports.now ≡ map module_leaves (design_of design.now) }
    ensures { IfOk result (λ lowered. design_of lowered ≡ map (joined_module (lowering_rules (design_of design.now))) (design_of design.now)) }
{
    let callees = Callees { design, ports };
    let mut lowered = Design::new(alloc);
    for number in 0..design.module_count() {
        let one = lowered_module(alloc, &callees, design.module(number))?;
        let _ = lowered.add_module(one)?;
    }
    Ok(lowered)
}

// A module by its leaves.
fn lowered_module(alloc: Global, callees: &Callees<'_>, one: &Module) -> Result<Module, AllocError>
    requires callees { AreCallees callees.now }
    requires fit { IsFit (design_of callees.now.design.now) }
    requires there { In (numbered_module (module_of one.now)) (design_of callees.now.design.now) }
    ensures { IfOk result (λ made. numbered_module (module_of made) ≡ joined_module (lowering_rules (design_of callees.now.design.now)) (numbered_module (module_of one.now))) }
{
    Ok(Module {
        symbol: one.symbol.try_clone(alloc)?,
        private: one.private,
        ports: split_ports(alloc, &one.ports)?,
        dictionary: one.dictionary.try_clone(alloc)?,
        body: lowered_body(alloc, callees, &one.ports, &one.body)?,
        location: one.location,
    })
}

// The body of a module with these ports by its leaves.
fn lowered_body(
    alloc: Global,
    callees: &Callees<'_>,
    ports: &PortList,
    body: &Body,
) -> Result<Body, AllocError>
    requires callees { AreCallees callees.now }
    requires fit { IsFit (design_of callees.now.design.now) }
    requires there { HasBody (design_of callees.now.design.now) (ports_in ports.now) (ops_by_position (ops_of body.now)) }
    ensures { IfOk result (λ made. ops_by_position (ops_of made) ≡ joined_body (lowering_rules (design_of callees.now.design.now)) (ports_in ports.now) (ops_by_position (ops_of body.now))) }
{
    let mut made = made_of(alloc, callees, ports, body)?;
    let kept = made.kept;
    let moved = settled_ops(
        alloc,
        made.flags.as_slice(),
        made.targets.as_mut_slice(),
        kept,
    )?;
    let lowered = body_of(alloc, moved)?;
    Ok(lowered)
}

// What the operations of a body become.
fn made_of(
    alloc: Global,
    callees: &Callees<'_>,
    ports: &PortList,
    body: &Body,
) -> Result<Made, AllocError>
    requires callees { AreCallees callees.now }
    requires fit { IsFit (design_of callees.now.design.now) }
    requires there { HasBody (design_of callees.now.design.now) (ports_in ports.now) (ops_by_position (ops_of body.now)) }
    ensures { IfOk result (λ made. CanSettle (joined_body (lowering_rules (design_of callees.now.design.now)) (ports_in ports.now) (ops_by_position (ops_of body.now))) made.flags.items (new_refs made.targets.items) made.kept.items) }
{
    let table = leaf_table(alloc, ports, body)?;
    let made = all_made(alloc, callees, body, &table)?;
    Ok(made)
}

// The body of these operations, their ids in order. 2^32 or more count as out of memory.
fn body_of(alloc: Global, made: Vec<NewOp>) -> Result<Body, AllocError>
    ensures { IfOk result (λ body. ops_of body ≡ numbered_from 0 made.items) }
{
    let mut body = Body::new(alloc);
    for op in made {
        if body.op_count() >= u32::MAX as usize {
            return Err(AllocError);
        }
        body.add_op(None, op)?;
    }
    Ok(body)
}
