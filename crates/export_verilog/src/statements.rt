//! The declarations and the statements of the operations of a body.
ghost use Rattle.std.specs.Prelude.{◌≡◌, ◌++◌, [], None, Some, map, option_map, slice_get, IfOk, OnOk};
ghost use Rattle.hw_model.specs.Design.{find_module, instance_in};
ghost use Rattle.hw_model.specs.KindViews.{kind_of};
ghost use Rattle.hw_model.specs.Sound.{ports_of};
ghost use Rattle.ir_store.specs.Designs.{design_of, port_of};
ghost use Rattle.ir_store.specs.Numbered.{position_of};
ghost use Rattle.verilog_expr.specs.Scopes.{scope_ops, scope_ids, op_read};
ghost use Rattle.export_verilog.specs.Layout.{items_text};
ghost use Rattle.export_verilog.specs.Exported.{symbol_name, declared_as, instance_of, stated_as};
ghost use Rattle.export_verilog.specs.NamedDesigns.{AreNamesOf, AreNamesWhere};
ghost use Rattle.export_verilog.specs.EmissionViews.{emission_seen};
ghost use Rattle.export_verilog.specs.ScopeModules.{scope_module};

use crate::assigns::push_net;
use crate::declarations::push_declared;
use crate::instances::{InstanceHead, push_instance};
use crate::legal_names::port_names;
use crate::module_writer::ModuleWriter;
use crate::name_hints::Emission;
use crate::named_design::{NamedDesign, names_in};
use crate::register_statements::push_register;
use crate::values::name_text;
use hw_model::kinds::OpKind;
use io_edge::byte_text::Text;
use ir_store::body::Op;
use ir_store::design::Port;
use ir_store::operation::{OpId, Value};
use std::alloc::{AllocError, Global};

/// Adds the declarations of an operation of a role, which stands at a position of the body (IEEE 1364-2005, 3.2: net and
/// variable declarations). The error is out of memory, as with 2^32 results or more.
pub fn push_declarations(
    writer: &ModuleWriter<'_>,
    out: &mut Text,
    id: OpId,
    op: &Op<'_>,
    emission: Emission,
) -> Result<(), AllocError>
    requires { slice_get (scope_ops writer.now.scope) (position_of (scope_ids writer.now.scope) id.index) ≡ Some (op_read writer.now.scope op.now) }
    ensures { OnOk result (out.new ≡ out.old ++ items_text (declared_as (scope_module writer.now.scope) (position_of (scope_ids writer.now.scope) id.index) (op_read writer.now.scope op.now) (emission_seen emission)) []) }
{
    let Ok(count) = u32::try_from(op.results.len()) else {
        return Err(AllocError);
    };
    push_declared(writer, out, id, count, emission)?;
    Ok(())
}

// The module that an instance is of, as its text has it.
#[derive(Drop)]
struct Callee<'a> {
    // the name of the module, or no bytes
    symbol: &'a [u8],
    ports: &'a [Port],
    // the names of the ports, where they are there
    port_names: Option<&'a [Text]>,
}

// The module of a symbol; where no module has it, one without a name and without ports.
fn callee_of<'a>(all: &'a NamedDesign<'_>, symbol: &[u8]) -> Callee<'a>
    ensures symbol { result.symbol.now ≡ symbol_name (design_of all.now.design.now) symbol.now }
    ensures ports { map port_of result.ports.now ≡ ports_of (find_module (design_of all.now.design.now) symbol.now) }
    ensures names { AreNamesWhere (map port_of result.ports.now) (option_map (λ (n : _). n.now) result.port_names) }
{
    let Some(number) = all.design.find(symbol) else {
        return Callee {
            symbol: &[],
            ports: &[],
            port_names: Some(&[]),
        };
    };
    Callee {
        symbol: all.symbols[number as usize].as_bytes(),
        ports: all.design.module(number).ports.ports.as_slice(),
        port_names: names_in(&all.ports[number as usize]),
    }
}

// The names of the ports of a called module, made where they are not there; else no names.
fn made_names(alloc: Global, called: &Callee<'_>) -> Result<Vec<Text>, AllocError>
    ensures { IfOk result (λ made. called.now.port_names ≡ None → AreNamesOf (map port_of called.now.ports.now) made.items) }
{
    match called.port_names {
        Some(_) => Ok(Vec::new(alloc)),
        None => port_names(alloc, called.ports),
    }
}

// The names of the ports of a called module: those that are there, or else those that are made.
fn chosen_names<'a>(called: &Callee<'a>, made: &'a [Text]) -> &'a [Text]
    requires there { AreNamesWhere (map port_of called.now.ports.now) (option_map (λ (n : _). n.now) called.now.port_names) }
    requires made { called.now.port_names ≡ None → AreNamesOf (map port_of called.now.ports.now) made.now }
    ensures { AreNamesOf (map port_of called.now.ports.now) result.now }
{
    match called.port_names {
        Some(names) => names,
        None => made,
    }
}

// Adds the instance that an operation is, where it is one.
#[tactic(auto, unfolding(crate::specs::Layout::items_text))]
fn push_call(
    writer: &ModuleWriter<'_>,
    out: &mut Text,
    id: OpId,
    position: usize,
    op: &Op<'_>,
) -> Result<(), AllocError>
    requires there { slice_get (scope_ops writer.now.scope) position ≡ Some (op_read writer.now.scope op.now) }
    requires id { position_of (scope_ids writer.now.scope) id.index ≡ position }
    ensures { OnOk result (out.new ≡ out.old ++ items_text (instance_of writer.now.options (design_of writer.now.design.now.design.now) (scope_module writer.now.scope) position (op_read writer.now.scope op.now) (instance_in (kind_of op.now.kind.now))) []) }
{
    if let OpKind::Instance(instance) = op.kind {
        let called = callee_of(writer.design, instance.symbol.as_bytes());
        let made = made_names(writer.alloc, &called)?;
        let port_names = chosen_names(&called, made.as_slice());
        let head = InstanceHead {
            module: called.symbol,
            name: writer.names.own[position].as_bytes(),
        };
        push_instance(
            writer,
            out,
            id,
            op.operands,
            called.ports,
            port_names,
            &head,
        )?;
    }
    Ok(())
}

/// Adds the statements of an operation of a role, which stands at a position of the body: an assignment, an `always` block or
/// an instance. The error is out of memory.
#[tactic(auto, unfolding(crate::specs::Layout::items_text))]
pub fn push_statements(
    writer: &ModuleWriter<'_>,
    out: &mut Text,
    id: OpId,
    position: usize,
    op: &Op<'_>,
    emission: Emission,
) -> Result<(), AllocError>
    requires there { slice_get (scope_ops writer.now.scope) position ≡ Some (op_read writer.now.scope op.now) }
    requires id { position_of (scope_ids writer.now.scope) id.index ≡ position }
    ensures { OnOk result (out.new ≡ out.old ++ items_text (stated_as writer.now.options (design_of writer.now.design.now.design.now) (scope_module writer.now.scope) position (op_read writer.now.scope op.now) (emission_seen emission)) []) }
{
    let value = Value::Result(id, 0);
    match emission {
        Emission::Inline => {}
        Emission::Wire => push_net(writer, out, value)?,
        Emission::Reg => {
            let name = name_text(writer, value);
            push_register(writer, out, name, op)?;
        }
        Emission::Instance => push_call(writer, out, id, position, op)?,
    }
    Ok(())
}
