//! Elements of arrays that an index chooses: tests of the index, and multiplexers for each leaf.
ghost use Rattle.std.specs.Prelude.{◌≡◌, ◌++◌, ◌∷◌, ◌+◌, ◌-◌, ◌%◌, [], map, pos, length, IfOk, OnOk};
ghost use Rattle.hw_model.specs.Types.{width, leaves as leaves_in};
ghost use Rattle.hw_model.specs.TypeViews.{type_of};
ghost use Rattle.hw_model.specs.Value.{nth_type};
ghost use Rattle.hw_model.specs.Kinds.Kind.{constant, mux};
ghost use Rattle.aggregate_laws.specs.Leaves.{part};
ghost use Rattle.aggregate_laws.specs.OperationRules.{made_op, all_leaves, argument, for_each};
ghost use Rattle.aggregate_laws.specs.Choices.{tests, test_at, choices, leaf_choices, element_leaf, element_of, get_rule, slice_rule, array_inject_rule};
ghost use Rattle.aggregate_laws.specs.Aggregates.{array_length, element_type, first_type, index_bits};
ghost use Rattle.lowering_rules.specs.Reading.{plain_of, new_ref, new_refs};
ghost use Rattle.lowering_rules.specs.LeafTables.{arguments_of};
ghost use Rattle.lowering_rules.specs.Made.{made_in};

use crate::arguments::{Arguments, part};
use crate::made_ops::{Recipe, put_made, put_plain};
use crate::shapes::{element_of, leaf_within};
use crate::written_types::{
    count_of, element_leaves, index_bits, index_width_of, operand_length, result_length, sum,
};
use hw_model::kinds::{Integer, OpKind, Predicate};
use hw_model::types::Ty;
use io_edge::byte_text::Text;
use ir_store::body::Op;
use ir_store::operation::{NewOp, OpId, TyList, Value};
use std::alloc::{AllocError, Global};

/// The elements of an array that an index chooses among.
#[derive(Clone, Copy)]
pub struct Elements<'v> {
    /// How many there are.
    pub length: u32,
    /// How many leaves each has.
    pub leaves: u32,
    /// What stands for all of them, the highest first.
    pub values: &'v [Value],
    /// Where the tests of the index begin.
    pub tests: u32,
}

/// `hw.array_get`: the tests of the index, and for each leaf multiplexers among the elements, as for a part of one element. They
/// begin at a position.
pub fn put_get(
    alloc: Global,
    made: &mut Vec<NewOp>,
    op: &Op<'_>,
    leaves: &[Ty],
    arguments: Arguments<'_>,
    start: u32,
) -> Result<(), AllocError>
    requires { map type_of leaves.now ≡ all_leaves (plain_of op.now) }
    ensures { OnOk result (made_in made.new.items ≡ made_in made.old.items ++ (get_rule (plain_of op.now) (array_length (nth_type (plain_of op.now).types 0)) (width (nth_type (plain_of op.now).types 1))).made (arguments_of arguments.entry) start) }
{
    let elements = Elements {
        length: operand_length(op),
        leaves: count_of(leaves.len())?,
        values: arguments.nth(0),
        tests: start,
    };
    let index = part(arguments.nth(1), 0);
    let width = index_width_of(op)?;
    put_tests(alloc, made, op, width, index, start, elements.length)?;
    let next = sum(start, sum(elements.length, elements.length)?)?;
    put_part_choices(alloc, made, op, leaves, elements, 1, next)
}

/// `hw.array_slice`: the tests of the index, and for each leaf multiplexers among the elements from its own one on. They begin at a
/// position.
pub fn put_slice(
    alloc: Global,
    made: &mut Vec<NewOp>,
    op: &Op<'_>,
    leaves: &[Ty],
    arguments: Arguments<'_>,
    start: u32,
) -> Result<(), AllocError>
    requires { map type_of leaves.now ≡ all_leaves (plain_of op.now) }
    ensures { OnOk result (made_in made.new.items ≡ made_in made.old.items ++ (slice_rule (plain_of op.now) (array_length (nth_type (plain_of op.now).types 0)) (array_length (first_type (plain_of op.now))) (length (leaves_in (element_type (nth_type (plain_of op.now).types 0)))) (index_bits (array_length (nth_type (plain_of op.now).types 0)))).made (arguments_of arguments.entry) start) }
{
    let elements = Elements {
        length: operand_length(op),
        leaves: element_leaves(op)?,
        values: arguments.nth(0),
        tests: start,
    };
    let index = part(arguments.nth(1), 0);
    let width = index_bits(elements.length);
    put_tests(alloc, made, op, width, index, start, elements.length)?;
    let next = sum(start, sum(elements.length, elements.length)?)?;
    put_part_choices(alloc, made, op, leaves, elements, result_length(op), next)
}

// For each leaf of a part of so many elements multiplexers among the elements from its own one on, beginning at a position.
fn put_part_choices(
    alloc: Global,
    made: &mut Vec<NewOp>,
    op: &Op<'_>,
    leaves: &[Ty],
    elements: Elements<'_>,
    own: u32,
    start: u32,
) -> Result<(), AllocError>
    ensures { OnOk result (made_in made.new.items ≡ made_in made.old.items ++ leaf_choices (plain_of op.now) (test_at elements.entry.tests) (λ l e. element_leaf elements.entry.length elements.entry.leaves (new_refs elements.entry.values.now) (l % elements.entry.leaves) (e + element_of own elements.entry.leaves l)) (λ l. elements.entry.length - element_of own elements.entry.leaves l) start 0 (map type_of leaves.now)) }
{
    let mut next = start;
    for (number, ty) in leaves.iter().enumerate() {
        let leaf = count_of(number)?;
        let first = element_of(own, elements.leaves, leaf)?;
        let rest = leaf_within(elements.leaves, leaf)?;
        put_choices(alloc, made, op, ty, elements, rest, first, next)?;
        next = sum(next, sum(elements.length.saturating_sub(first), 1)?)?;
    }
    Ok(())
}

/// `hw.array_inject`: the tests of the index, and for each leaf one multiplexer. They begin at a position.
pub fn put_array_inject(
    alloc: Global,
    made: &mut Vec<NewOp>,
    op: &Op<'_>,
    leaves: &[Ty],
    arguments: Arguments<'_>,
    start: u32,
) -> Result<(), AllocError>
    requires { map type_of leaves.now ≡ all_leaves (plain_of op.now) }
    ensures { OnOk result (made_in made.new.items ≡ made_in made.old.items ++ (array_inject_rule (plain_of op.now) (array_length (nth_type (plain_of op.now).types 0)) (length (leaves_in (element_type (nth_type (plain_of op.now).types 0)))) (width (nth_type (plain_of op.now).types 1))).made (arguments_of arguments.entry) start) }
{
    let length = operand_length(op);
    let index = part(arguments.nth(1), 0);
    let width = index_width_of(op)?;
    put_tests(alloc, made, op, width, index, start, length)?;
    let own = element_leaves(op)?;
    put_injections(alloc, made, op, leaves, arguments, length, own, start)
}

// For each leaf a multiplexer, which the test of its element decides, where the tests begin at a position.
fn put_injections(
    alloc: Global,
    made: &mut Vec<NewOp>,
    op: &Op<'_>,
    leaves: &[Ty],
    arguments: Arguments<'_>,
    length: u32,
    own: u32,
    start: u32,
) -> Result<(), AllocError>
    ensures { OnOk result (made_in made.new.items ≡ made_in made.old.items ++ for_each (λ l t. made_op (plain_of op.now) mux (test_at start (element_of length own l) ∷ part (argument 2 (arguments_of arguments.entry)) (l % own) ∷ part (argument 0 (arguments_of arguments.entry)) l ∷ []) (t ∷ []) [] t) 0 (map type_of leaves.now)) }
{
    for (number, ty) in leaves.iter().enumerate() {
        let leaf = count_of(number)?;
        let test = test_at(start, element_of(length, own, leaf)?)?;
        let value = part(arguments.nth(2), leaf_within(own, leaf)? as usize);
        let stays = part(arguments.nth(0), number);
        put_plain(alloc, made, op, OpKind::Mux, &[test, value, stays], ty)?;
    }
    Ok(())
}

// A constant and a comparison for each number, beginning at a position.
fn put_tests(
    alloc: Global,
    made: &mut Vec<NewOp>,
    op: &Op<'_>,
    width: u32,
    index: Value,
    start: u32,
    count: u32,
) -> Result<(), AllocError>
    ensures { OnOk result (made_in made.new.items ≡ made_in made.old.items ++ tests (plain_of op.now) width (new_ref index) start 0 count) }
{
    let mut next = start;
    for number in 0..count {
        put_test(alloc, made, op, width, index, next, number)?;
        next = sum(next, 2)?;
    }
    Ok(())
}

// A constant and a comparison for a number, beginning at a position.
fn put_test(
    alloc: Global,
    made: &mut Vec<NewOp>,
    op: &Op<'_>,
    width: u32,
    index: Value,
    start: u32,
    number: u32,
) -> Result<(), AllocError>
    ensures { OnOk result (made_in made.new.items ≡ made_in made.old.items ++ tests (plain_of op.now) width (new_ref index) start number 1) }
{
    let value = OpKind::Constant(Integer::NonNegative(u128::from(number)));
    put_plain(alloc, made, op, value, &[], &Ty::Int(width))?;
    let recipe = Recipe {
        kind: OpKind::Icmp(Predicate::Eq),
        operands: &[index, Value::Result(OpId::nth(start), 0)],
        types: TyList::One(Ty::Int(width)),
        name: Text::new(alloc),
        ty: Ty::Int(1),
    };
    put_made(alloc, made, op, recipe)
}

// The result of the test of a number, where these begin at a position.
fn test_at(start: u32, number: u32) -> Result<Value, AllocError>
    ensures { IfOk result (λ value. new_ref value ≡ test_at start number) }
{
    let offset = sum(start, sum(sum(number, number)?, 1)?)?;
    Ok(Value::Result(OpId::nth(offset), 0))
}

// A zero at a position, and after it multiplexers that choose a leaf among the elements from one on.
fn put_choices(
    alloc: Global,
    made: &mut Vec<NewOp>,
    op: &Op<'_>,
    ty: &Ty,
    elements: Elements<'_>,
    leaf: u32,
    first: u32,
    start: u32,
) -> Result<(), AllocError>
    ensures { OnOk result (made_in made.new.items ≡ made_in made.old.items ++ (made_op (plain_of op.now) (constant (pos 0)) [] (type_of ty.now ∷ []) [] (type_of ty.now)
        ∷ choices (plain_of op.now) (type_of ty.now) (test_at elements.entry.tests) (λ e. element_leaf elements.entry.length elements.entry.leaves (new_refs elements.entry.values.now) leaf (e + first)) start (elements.entry.length - first))) }
{
    let zero = OpKind::Constant(Integer::NonNegative(0));
    put_plain(alloc, made, op, zero, &[], ty)?;
    let mut left = elements.length.saturating_sub(first);
    let mut before = start;
    while left > 0 {
        left -= 1;
        let test = test_at(elements.tests, left)?;
        let value = elements.leaf(leaf, sum(left, first)?);
        let low = Value::Result(OpId::nth(before), 0);
        put_plain(alloc, made, op, OpKind::Mux, &[test, value, low], ty)?;
        before = sum(before, 1)?;
    }
    Ok(())
}

impl<'v> Elements<'v> {
    // A leaf of an element.
    fn leaf(self, leaf: u32, element: u32) -> Value
        ensures { new_ref result ≡ element_leaf self.entry.length self.entry.leaves (new_refs self.entry.values.now) leaf element }
    {
        let before = self.length.saturating_sub(element.saturating_add(1));
        let offset = u64::from(before) * u64::from(self.leaves) + u64::from(leaf);
        part(self.values, offset as usize)
    }
}
