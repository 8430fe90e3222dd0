//! Instances, as they are printed: what they and their modules are called, their inputs and outputs.
ghost use Rattle.std.specs.Prelude.{◌≡◌, ◌++◌, map, OnOk};
ghost use Rattle.hw_model.specs.TypeViews.{type_of};
ghost use Rattle.hw_model.specs.KindViews.{instance_of};
ghost use Rattle.mlir_printer.specs.Commas.{commas};
ghost use Rattle.mlir_printer.specs.Elements.{input_bytes, output_bytes, inputs_joined, outputs_joined, inner_bytes, instance_head, connections_bytes, instance_bytes};
ghost use Rattle.mlir_printer.specs.Views.{value_held};

use crate::commas::push_comma;
use crate::elements::{push_operand, rest_of};
use crate::strings::{push_name, push_string, push_symbol};
use crate::types::push_type;
use crate::value_names::ValueNames;
use hw_model::kinds::Instance;
use hw_model::types::Ty;
use io_edge::byte_text::Text;
use ir_store::operation::Value;
use std::alloc::AllocError;

// Adds `p: %v: T`.
#[tactic(auto, unfolding(crate::specs::Elements::input_bytes))]
fn push_input(
    out: &mut Text,
    names: &ValueNames,
    port: &[u8],
    value: Value,
    ty: &Ty,
) -> Result<(), AllocError>
    ensures { OnOk result (out.new ≡ out.old ++ input_bytes (record { port = port.now; operand = value_held names.now value; type = type_of ty.now })) }
{
    push_name(out, port)?;
    out.push_bytes(b": ")?;
    push_operand(out, names, value)?;
    out.push_bytes(b": ")?;
    push_type(out, ty)?;
    Ok(())
}

// Adds the inputs of an instance with commas between them.
fn push_inputs(
    out: &mut Text,
    names: &ValueNames,
    ports: &[Text],
    operands: &[Value],
    types: &[Ty],
) -> Result<(), AllocError>
    ensures { OnOk result (out.new ≡ out.old ++ commas input_bytes (inputs_joined ports.now (map (value_held names.now) operands.now) (map type_of types.now))) }
{
    let count = ports.len().min(operands.len()).min(types.len());
    for i in 0..count {
        push_comma(out, i)?;
        push_input(out, names, ports[i].as_bytes(), operands[i], &types[i])?;
    }
    Ok(())
}

// Adds `q: T`.
#[tactic(auto, unfolding(crate::specs::Elements::output_bytes))]
fn push_output(out: &mut Text, port: &[u8], ty: &Ty) -> Result<(), AllocError>
    ensures { OnOk result (out.new ≡ out.old ++ output_bytes (record { name = port.now; type = type_of ty.now })) }
{
    push_name(out, port)?;
    out.push_bytes(b": ")?;
    push_type(out, ty)?;
    Ok(())
}

// Adds the outputs of an instance with commas between them.
fn push_outputs(out: &mut Text, ports: &[Text], types: &[Ty]) -> Result<(), AllocError>
    ensures { OnOk result (out.new ≡ out.old ++ commas output_bytes (outputs_joined ports.now (map type_of types.now))) }
{
    let count = ports.len().min(types.len());
    for i in 0..count {
        push_comma(out, i)?;
        push_output(out, ports[i].as_bytes(), &types[i])?;
    }
    Ok(())
}

// Adds an instance's inner symbol, where it has one.
#[tactic(auto, unfolding(crate::specs::Elements::inner_bytes))]
fn push_inner(out: &mut Text, symbol: &Option<Text>) -> Result<(), AllocError>
    ensures { OnOk result (out.new ≡ out.old ++ inner_bytes symbol.now) }
{
    if let Some(symbol) = symbol {
        out.push_bytes(b"sym ")?;
        push_symbol(out, symbol.as_bytes())?;
        out.push_bytes(b" ")?;
    }
    Ok(())
}

// Adds what an instance and its module are called.
#[tactic(auto, unfolding(crate::specs::Elements::instance_head))]
fn push_instance_head(out: &mut Text, instance: &Instance) -> Result<(), AllocError>
    ensures { OnOk result (out.new ≡ out.old ++ instance_head (instance_of instance.now)) }
{
    push_string(out, instance.name.as_bytes())?;
    out.push_bytes(b" ")?;
    push_inner(out, &instance.inner_symbol)?;
    push_symbol(out, instance.symbol.as_bytes())?;
    Ok(())
}

// Adds the inputs and the outputs of an instance.
#[tactic(auto, unfolding(crate::specs::Elements::connections_bytes))]
fn push_connections(
    out: &mut Text,
    names: &ValueNames,
    inputs: &[Text],
    outputs: &[Text],
    operands: &[Value],
    types: &[Ty],
) -> Result<(), AllocError>
    ensures { OnOk result (out.new ≡ out.old ++ connections_bytes inputs.now outputs.now (map (value_held names.now) operands.now) (map type_of types.now)) }
{
    let following = rest_of(types, inputs.len());
    out.push_bytes(b"(")?;
    push_inputs(out, names, inputs, operands, types)?;
    out.push_bytes(b") -> (")?;
    push_outputs(out, outputs, following)?;
    out.push_bytes(b")")?;
    Ok(())
}

/// Adds an instance.
#[tactic(auto, unfolding(crate::specs::Elements::instance_bytes))]
pub(crate) fn push_instance(
    out: &mut Text,
    names: &ValueNames,
    instance: &Instance,
    operands: &[Value],
    types: &[Ty],
) -> Result<(), AllocError>
    ensures { OnOk result (out.new ≡ out.old ++ instance_bytes (instance_of instance.now) (map (value_held names.now) operands.now) (map type_of types.now)) }
{
    push_instance_head(out, instance)?;
    push_connections(
        out,
        names,
        &instance.inputs,
        &instance.outputs,
        operands,
        types,
    )?;
    Ok(())
}
