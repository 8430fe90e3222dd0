//! The operands of registers, one for each leaf.
ghost use Rattle.std.specs.Prelude.{◌≡◌, true, false, IfOk};
ghost use Rattle.hw_model.specs.Kinds.Reset.{no_reset, sync_reset};
ghost use Rattle.aggregate_laws.specs.Leaves.{leaf_operands};
ghost use Rattle.lowering_rules.specs.FormRules.{register_form_of};
ghost use Rattle.lowering_rules.specs.Reading.{new_refs};
ghost use Rattle.lowering_rules.specs.LeafTables.{arguments_of};

use crate::arguments::{Arguments, part};
use crate::forms::RegisterForm;
use hw_model::kinds::Reset;
use ir_store::operation::Value;
use std::alloc::{AllocError, Global};

/// The operands of the register for a leaf.
pub fn leaf_operands(
    alloc: Global,
    form: RegisterForm,
    arguments: Arguments<'_>,
    leaf: usize,
) -> Result<Vec<Value>, AllocError>
    ensures { IfOk result (λ values. new_refs values.items ≡ leaf_operands (register_form_of form).has_enable (register_form_of form).reset (arguments_of arguments.entry) leaf) }
{
    match form.reset {
        Reset::No => without_reset(alloc, form.enable, arguments, leaf),
        Reset::Sync => with_reset(alloc, form.enable, arguments, leaf),
    }
}

// Those of a register without a reset.
fn without_reset(
    alloc: Global,
    enable: bool,
    arguments: Arguments<'_>,
    leaf: usize,
) -> Result<Vec<Value>, AllocError>
    ensures { IfOk result (λ values. new_refs values.items ≡ leaf_operands enable no_reset (arguments_of arguments.entry) leaf) }
{
    let mut values = Vec::new(alloc);
    match (enable, arguments.operands) {
        (false, [_, _]) => {
            values.push(part(arguments.nth(0), leaf))?;
            values.extend_from_slice(arguments.nth(1))?;
        }
        (true, [_, _, _]) => {
            values.push(part(arguments.nth(0), leaf))?;
            values.extend_from_slice(arguments.nth(1))?;
            values.extend_from_slice(arguments.nth(2))?;
        }
        _ => (),
    }
    Ok(values)
}

// Those of a register with a reset.
fn with_reset(
    alloc: Global,
    enable: bool,
    arguments: Arguments<'_>,
    leaf: usize,
) -> Result<Vec<Value>, AllocError>
    ensures { IfOk result (λ values. new_refs values.items ≡ leaf_operands enable sync_reset (arguments_of arguments.entry) leaf) }
{
    if enable {
        reset_enabled(alloc, arguments, leaf)
    } else {
        reset_loaded(alloc, arguments, leaf)
    }
}

// Those of a register with a reset and without an enable.
fn reset_loaded(
    alloc: Global,
    arguments: Arguments<'_>,
    leaf: usize,
) -> Result<Vec<Value>, AllocError>
    ensures { IfOk result (λ values. new_refs values.items ≡ leaf_operands false sync_reset (arguments_of arguments.entry) leaf) }
{
    let mut values = Vec::new(alloc);
    let [_, _, _, _] = arguments.operands else {
        return Ok(values);
    };
    values.push(part(arguments.nth(0), leaf))?;
    values.extend_from_slice(arguments.nth(1))?;
    values.extend_from_slice(arguments.nth(2))?;
    values.push(part(arguments.nth(3), leaf))?;
    Ok(values)
}

// Those of a register with a reset and an enable.
fn reset_enabled(
    alloc: Global,
    arguments: Arguments<'_>,
    leaf: usize,
) -> Result<Vec<Value>, AllocError>
    ensures { IfOk result (λ values. new_refs values.items ≡ leaf_operands true sync_reset (arguments_of arguments.entry) leaf) }
{
    let mut values = Vec::new(alloc);
    let [_, _, _, _, _] = arguments.operands else {
        return Ok(values);
    };
    values.push(part(arguments.nth(0), leaf))?;
    values.extend_from_slice(arguments.nth(1))?;
    values.extend_from_slice(arguments.nth(2))?;
    values.extend_from_slice(arguments.nth(3))?;
    values.push(part(arguments.nth(4), leaf))?;
    Ok(values)
}
