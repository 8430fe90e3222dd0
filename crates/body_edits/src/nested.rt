//! Operations that made an operand of another one and have no other use (CIRCT, Comb dialect: canonicalization of comb.add,
//! comb.mul, comb.and, comb.or, comb.xor, comb.extract and comb.concat).
ghost use Rattle.std.specs.Prelude.{◌≡◌, option_map};
ghost use Rattle.hw_model.specs.FamilyViews.{variadic_of};
ghost use Rattle.hw_model.specs.KindViews.{kind_of};
ghost use Rattle.ir_store.specs.Live.{AreLive};
ghost use Rattle.ir_store.specs.Bodies.{ops_of};
ghost use Rattle.ir_store.specs.declared.operation.Value.TheVariants.{Result};
ghost use Rattle.fold_laws.specs.Nested.{same_variadic, has_one_use, nested_at, first_nested};
ghost use Rattle.body_edits.specs.FitBodies.{IsOfFit};
ghost use Rattle.body_edits.specs.Nests.{kind_test, nested_seen, later};
ghost use Rattle.body_edits.specs.Replaceable.{HaveNoFurther};
ghost use Rattle.body_edits.specs.Sites.{ops_at, refs_at};
ghost use Rattle.body_edits.specs.Views.{HasOp, body_ops, position_in, value_ref};

use crate::site::Site;
use hw_model::families::{Family, Variadic};
use hw_model::kinds::OpKind;
use ir_store::body::{Body, Op};
use ir_store::operation::{OpId, Value};

/// The kinds of operations that one of a kind takes in.
#[derive(Clone, Copy)]
pub enum InnerKind {
    /// An operation of any number of operands.
    Variadic(Variadic),
    /// `comb.extract`
    Extract,
    /// `comb.concat`
    Concat,
}

impl InnerKind {
    /// Whether a kind is one of them.
    pub fn holds(self, kind: &OpKind) -> bool
        ensures { result ≡ kind_test self (kind_of kind.now) }
    {
        match self {
            InnerKind::Variadic(one) => match kind.family() {
                Family::Variadic(other) => same_variadic(one, other),
                _ => false,
            },
            InnerKind::Extract => matches!(kind.family(), Family::Extract(_)),
            InnerKind::Concat => matches!(kind.family(), Family::Concat),
        }
    }
}

/// Whether two operations of any number of operands are one.
fn same_variadic(one: Variadic, other: Variadic) -> bool
    ensures { result ≡ same_variadic (variadic_of one) (variadic_of other) }
{
    match one {
        Variadic::Add => matches!(other, Variadic::Add),
        Variadic::Mul => matches!(other, Variadic::Mul),
        Variadic::And => matches!(other, Variadic::And),
        Variadic::Or => matches!(other, Variadic::Or),
        Variadic::Xor => matches!(other, Variadic::Xor),
    }
}

/// An operation that made an operand of another one and has no other use.
#[derive(Drop)]
pub struct NestedOp<'b> {
    /// Which operand it made.
    pub number: usize,
    /// Its id.
    pub id: OpId,
    /// The operation.
    pub op: Op<'b>,
}

/// The first of the operations that made the operands of the operation `id`, which is that of the site, where it is another
/// one, of these kinds, and has no other use. Linear in the operands and in the chains of the heads that they have.
pub fn first_nested<'b>(site: &Site<'b>, id: OpId, kinds: InnerKind) -> Option<NestedOp<'b>>
    requires fit { IsOfFit site.now.body.now }
    requires live { HasOp site.now.body.now id }
    ensures { option_map (nested_seen site.now.body.now) result ≡ first_nested (kind_test kinds) (ops_at site.now) (position_in site.now.body.now id) (refs_at site.now) }
{
    let values = site.op.operands;
    for number in 0..values.len() {
        if let Some(nested) = nested_at(site.body, id, kinds, number, values[number]) {
            return Some(nested);
        }
    }
    None
}

/// The operation that made the operand of a number.
#[tactic(auto, using(crate::proofs::NestedReads::further_nested, crate::proofs::NestedReads::port_nested, crate::proofs::NestedReads::undefined_nested))]
fn nested_at(
    body: &Body,
    op: OpId,
    kinds: InnerKind,
    number: usize,
    value: Value,
) -> Option<NestedOp<'_>>
    requires fit { IsOfFit body.now }
    requires live { HasOp body.now op }
    ensures { option_map (nested_seen body.now) result ≡ option_map (later number) (nested_at (kind_test kinds) (body_ops body.now) (position_in body.now op) (value_ref body.now value)) }
{
    match value {
        Value::Result(id, result) => {
            if result == 0 {
                nested_result(body, op, kinds, number, id)
            } else {
                None
            }
        }
        Value::Port(_) => None,
        Value::Undefined => None,
    }
}

/// The operation of an id, where it is there, as the one that made the operand of a number.
fn nested_result(
    body: &Body,
    op: OpId,
    kinds: InnerKind,
    number: usize,
    id: OpId,
) -> Option<NestedOp<'_>>
    requires fit { IsOfFit body.now }
    requires live { HasOp body.now op }
    ensures { option_map (nested_seen body.now) result ≡ option_map (later number) (nested_at (kind_test kinds) (body_ops body.now) (position_in body.now op) (value_ref body.now (Result id 0))) }
{
    if id == op || !body.contains(id) {
        return None;
    }
    let inner = body.op(id);
    if kinds.holds(inner.kind) && has_one_use(body, id) {
        Some(NestedOp {
            number,
            id,
            op: inner,
        })
    } else {
        None
    }
}

/// Whether the results of an operation that has one result have one use in all.
fn has_one_use(body: &Body, id: OpId) -> bool
    requires operands { AreLive (ops_of body.now) }
    requires live { HasOp body.now id }
    requires alone { HaveNoFurther (position_in body.now id) (body_ops body.now) }
    ensures { result ≡ has_one_use (body_ops body.now) (position_in body.now id) }
{
    let mut uses = body.uses(Value::Result(id, 0));
    match uses.next() {
        Some(_) => uses.next().is_none(),
        None => false,
    }
}
