//! Operations that become one for each leaf: wires, multiplexers, constants, registers.
ghost use Rattle.std.specs.Prelude.{◌≡◌, ◌++◌, ◌∷◌, [], map, IfOk, OnOk};
ghost use Rattle.hw_model.specs.TypeViews.{type_of};
ghost use Rattle.hw_model.specs.Kinds.Kind.{wire, mux, constant};
ghost use Rattle.hw_model.specs.KindViews.{kind_of, literals_of, literal_of};
ghost use Rattle.aggregate_laws.specs.Leaves.{part, leaf_operands};
ghost use Rattle.aggregate_laws.specs.OperationRules.{made_op, argument, for_each, literals_numbers, number_at};
ghost use Rattle.aggregate_laws.specs.Aggregates.{name_at, own_names};
ghost use Rattle.lowering_rules.specs.FormRules.{register_form_of};
ghost use Rattle.lowering_rules.specs.Reading.{plain_of, new_refs};
ghost use Rattle.lowering_rules.specs.LeafTables.{arguments_of};
ghost use Rattle.lowering_rules.specs.Made.{made_in};
ghost use Rattle.lowering_rules.specs.Names.{own_name_list};

use crate::arguments::{Arguments, part};
use crate::forms::RegisterForm;
use crate::leaf_texts::push_leaf_names;
use crate::literal_numbers::{number_at, push_all_numbers};
use crate::made_ops::{Recipe, put_made, put_plain};
use crate::register_operands::leaf_operands;
use hw_model::kinds::{Literal, OpKind};
use hw_model::types::Ty;
use io_edge::byte_text::Text;
use ir_store::body::Op;
use ir_store::operation::{NewOp, TyList, Value};
use std::alloc::{AllocError, Global};

/// A wire for each leaf, which carries the value of its number.
pub fn put_wires(
    alloc: Global,
    made: &mut Vec<NewOp>,
    op: &Op<'_>,
    leaves: &[Ty],
    names: &[Text],
    values: &[Value],
) -> Result<(), AllocError>
    ensures { OnOk result (made_in made.new.items ≡ made_in made.old.items ++ for_each (λ i t. made_op (plain_of op.now) wire (part (new_refs values.now) i ∷ []) (t ∷ []) (name_at names.now i) t) 0 (map type_of leaves.now)) }
{
    for (number, ty) in leaves.iter().enumerate() {
        let recipe = Recipe {
            kind: OpKind::Wire,
            operands: &[part(values, number)],
            types: TyList::One(ty.try_clone(alloc)?),
            name: name_at(alloc, names, number)?,
            ty: ty.try_clone(alloc)?,
        };
        put_made(alloc, made, op, recipe)?;
    }
    Ok(())
}

// The name of a number, or none.
fn name_at(alloc: Global, names: &[Text], number: usize) -> Result<Text, AllocError>
    ensures { IfOk result (λ name. name ≡ name_at names.now number) }
{
    match names.get(number) {
        Some(name) => name.try_clone(alloc),
        None => Ok(Text::new(alloc)),
    }
}

/// The names of the leaves of an operation's own name.
pub fn own_names(alloc: Global, op: &Op<'_>) -> Result<Vec<Text>, AllocError>
    ensures { IfOk result (λ names. names.items ≡ own_name_list (plain_of op.now)) }
{
    let mut names = Vec::new(alloc);
    if op.name.is_empty() {
        return Ok(names);
    }
    if let Some(one) = op.results.as_slice().first() {
        push_leaf_names(alloc, &mut names, op.name.as_bytes(), &one.ty)?;
    }
    Ok(names)
}

/// A multiplexer for each leaf.
pub fn put_muxes(
    alloc: Global,
    made: &mut Vec<NewOp>,
    op: &Op<'_>,
    leaves: &[Ty],
    arguments: Arguments<'_>,
) -> Result<(), AllocError>
    ensures { OnOk result (made_in made.new.items ≡ made_in made.old.items ++ for_each (λ i t. made_op (plain_of op.now) mux (part (argument 0 (arguments_of arguments.entry)) 0 ∷ part (argument 1 (arguments_of arguments.entry)) i ∷ part (argument 2 (arguments_of arguments.entry)) i ∷ []) (t ∷ []) [] t) 0 (map type_of leaves.now)) }
{
    for (number, ty) in leaves.iter().enumerate() {
        let condition = part(arguments.nth(0), 0);
        let high = part(arguments.nth(1), number);
        let low = part(arguments.nth(2), number);
        put_plain(alloc, made, op, OpKind::Mux, &[condition, high, low], ty)?;
    }
    Ok(())
}

/// A constant for each leaf.
pub fn put_constants(
    alloc: Global,
    made: &mut Vec<NewOp>,
    op: &Op<'_>,
    leaves: &[Ty],
    literals: &[Literal],
) -> Result<(), AllocError>
    ensures { OnOk result (made_in made.new.items ≡ made_in made.old.items ++ for_each (λ i t. made_op (plain_of op.now) (constant (number_at (literals_numbers (literals_of (map literal_of literals.now))) i)) [] (t ∷ []) [] t) 0 (map type_of leaves.now)) }
{
    let mut numbers = Vec::new(alloc);
    push_all_numbers(&mut numbers, literals)?;
    for (number, ty) in leaves.iter().enumerate() {
        let value = number_at(numbers.as_slice(), number);
        put_plain(alloc, made, op, OpKind::Constant(value), &[], ty)?;
    }
    Ok(())
}

/// A register for each leaf.
pub fn put_registers(
    alloc: Global,
    made: &mut Vec<NewOp>,
    op: &Op<'_>,
    leaves: &[Ty],
    form: RegisterForm,
    arguments: Arguments<'_>,
) -> Result<(), AllocError>
    ensures { OnOk result (made_in made.new.items ≡ made_in made.old.items ++ for_each (λ i t. made_op (plain_of op.now) (kind_of op.now.kind.now) (leaf_operands (register_form_of form).has_enable (register_form_of form).reset (arguments_of arguments.entry) i) (t ∷ []) (name_at (own_name_list (plain_of op.now)) i) t) 0 (map type_of leaves.now)) }
{
    let names = own_names(alloc, op)?;
    for (number, ty) in leaves.iter().enumerate() {
        let operands = leaf_operands(alloc, form, arguments, number)?;
        let recipe = Recipe {
            kind: op.kind.try_clone(alloc)?,
            operands: operands.as_slice(),
            types: TyList::One(ty.try_clone(alloc)?),
            name: name_at(alloc, names.as_slice(), number)?,
            ty: ty.try_clone(alloc)?,
        };
        put_made(alloc, made, op, recipe)?;
    }
    Ok(())
}
