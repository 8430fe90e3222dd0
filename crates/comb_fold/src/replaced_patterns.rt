//! The patterns by which an operation and another one that made an operand of it, and has no other use, become a new one.
ghost use Rattle.std.specs.Prelude.{◌≡◌, ◌≤◌, [], ◌∷◌, true, Some, is_some, length, map, option_map, IfOk, OnOk, OnErr};
ghost use Rattle.hw_model.specs.KindViews.{kind_of};
ghost use Rattle.hw_model.specs.TypeViews.{type_of};
ghost use Rattle.hw_model.specs.Value.{nth_type};
ghost use Rattle.ir_store.specs.Bodies.{ops_of};
ghost use Rattle.ir_store.specs.OperationViews.{types_in};
ghost use Rattle.ir_store.specs.declared.body.Body.{Body};
ghost use Rattle.fold_laws.specs.Nested.{new_op, is_extract, is_concat, fold_extract_extract, fold_nested_concat};
ghost use Rattle.body_edits.specs.FitBodies.{IsOfFit};
ghost use Rattle.body_edits.specs.Folded.{IsFolded};
ghost use Rattle.comb_fold.specs.Merges.{low_of, nested_in, TakesBoth, IsJoin, IsJoined};
ghost use Rattle.body_edits.specs.Nests.{kind_test, nested_seen};
ghost use Rattle.body_edits.specs.Replaceable.{HaveNoFurther};
ghost use Rattle.body_edits.specs.Replaced.{new_seen};
ghost use Rattle.body_edits.specs.Views.{HasOp, body_ops, position_in, value_ref, op_seen};

use crate::pattern::Pattern;
use body_edits::in_place::put_in_place;
use body_edits::nested::{InnerKind, NestedOp, first_nested};
use body_edits::numbers::first_type;
use body_edits::site::Site;
use body_edits::spliced::{spliced_types, spliced_values};
use hw_model::kinds::OpKind;
use hw_model::types::Ty;
use io_edge::byte_text::Text;
use ir_store::body::{Body, Op};
use ir_store::operation::{NewOp, NewResult, NewResultList, OpId, TyList, Value};
use smallvec::SmallVec;
use std::alloc::{AllocError, Global};

/// A pattern by which an operation and another one of such a kind, which made an operand of it, become a new one.
pub trait Joining {
    ghost use Rattle.std.specs.Prelude.{◌≡◌, Some, IfOk};
    ghost use Rattle.fold_laws.specs.Edits.{FoldPattern};
    ghost use Rattle.body_edits.specs.declared.nested.InnerKind.{InnerKind};
    ghost use Rattle.body_edits.specs.FitBodies.{IsOfFit};
    ghost use Rattle.body_edits.specs.Nests.{kind_test, nested_seen};
    ghost use Rattle.body_edits.specs.Views.{HasOp, body_ops, position_in};
    ghost use Rattle.comb_fold.specs.Merges.{nested_in, IsJoin};

    // The pattern.
    ghost pattern: { FoldPattern };

    // The kinds of both operations.
    ghost both: { InnerKind };

    /// The kinds of both operations.
    fn kinds() -> InnerKind
        ensures { result ≡ both };

    /// The operation in the place of both. The error comes where memory that is needed is refused.
    fn joined(
        alloc: Global,
        body: &Body,
        op: OpId,
        nested: &NestedOp<'_>,
    ) -> Result<NewOp, AllocError>
        requires fit { IsOfFit body.now }
        requires live { HasOp body.now op }
        requires nested { Some (nested_seen body.now nested.now) ≡ nested_in (kind_test both) (body_ops body.now) (position_in body.now op) }
        ensures { IfOk result (λ new. IsJoin pattern body.now (position_in body.now op) (position_in body.now nested.now.id) new) };
}

/// Whether an operation of such a kind has another one that made an operand of it and has no other use. It takes no memory.
pub fn is_joined<J: Joining>(body: &Body, op: OpId) -> bool
    requires fit { IsOfFit body.now }
    requires live { HasOp body.now op }
    ensures { result ≡ is_some (nested_in (kind_test J.both) (body_ops body.now) (position_in body.now op)) }
{
    nested_in(body, op, J::kinds()).is_some()
}

/// Puts the operation in the place of both. On an error, which comes where memory that is needed is refused, the operations
/// stay.
pub fn join_both<J: Joining>(alloc: Global, body: &mut Body, op: OpId) -> Result<(), AllocError>
    requires fit { IsOfFit body.old }
    requires live { HasOp body.old op }
    requires matches { is_some (nested_in (kind_test J.both) (body_ops body.old) (position_in body.old op)) ≡ true }
    ensures folded { OnOk result (IsFolded J.pattern body.old body.new (position_in body.old op)) }
    ensures kept { OnErr result (ops_of body.new ≡ ops_of body.old) }
{
    match nested_in(body, op, J::kinds()) {
        Some(nested) => {
            let new = J::joined(alloc, body, op, &nested)?;
            let inner = nested.id;
            replace_both(body, op, inner, new)
        }
        None => unreachable!(),
    }
}

/// An extract of an extract with one use becomes one extract.
pub struct F28;

impl Joining for F28 {
    ghost use Rattle.body_edits.specs.declared.nested.InnerKind.TheVariants.{Extract};

    ghost pattern = { fold_extract_extract };

    ghost both = { Extract };

    fn kinds() -> InnerKind {
        InnerKind::Extract
    }

    fn joined(
        alloc: Global,
        body: &Body,
        op: OpId,
        nested: &NestedOp<'_>,
    ) -> Result<NewOp, AllocError> {
        joined_extract(alloc, body, op, nested)
    }
}

impl Pattern for F28 {
    ghost change = { fold_extract_extract };

    fn matches(body: &Body, op: OpId) -> bool {
        is_joined::<F28>(body, op)
    }

    fn apply(alloc: Global, body: &mut Body, op: OpId) -> Result<(), AllocError> {
        join_both::<F28>(alloc, body, op)
    }
}

/// A concat takes the operands of the first operand's concat with one use.
pub struct F30;

impl Joining for F30 {
    ghost use Rattle.body_edits.specs.declared.nested.InnerKind.TheVariants.{Concat};

    ghost pattern = { fold_nested_concat };

    ghost both = { Concat };

    fn kinds() -> InnerKind {
        InnerKind::Concat
    }

    fn joined(
        alloc: Global,
        body: &Body,
        op: OpId,
        nested: &NestedOp<'_>,
    ) -> Result<NewOp, AllocError> {
        joined_concat(alloc, body, op, nested)
    }
}

impl Pattern for F30 {
    ghost change = { fold_nested_concat };

    fn matches(body: &Body, op: OpId) -> bool {
        is_joined::<F30>(body, op)
    }

    fn apply(alloc: Global, body: &mut Body, op: OpId) -> Result<(), AllocError> {
        join_both::<F30>(alloc, body, op)
    }
}

/// The first operation of a kind that made an operand of an operation of this kind, whose first result has a type, and that
/// has no other use.
fn nested_in(body: &Body, op: OpId, kinds: InnerKind) -> Option<NestedOp<'_>>
    requires fit { IsOfFit body.now }
    requires live { HasOp body.now op }
    ensures { option_map (nested_seen body.now) result ≡ nested_in (kind_test kinds) (body_ops body.now) (position_in body.now op) }
{
    let site = Site::at(body, op);
    if kinds.holds(site.op.kind) && first_type(site.op.results).is_some() {
        first_nested(&site, op, kinds)
    } else {
        None
    }
}

/// Puts a new operation in the place of `op` and of `inner`, which made an operand of that one. On an error, which comes where
/// memory that is needed is refused, the operations stay.
fn replace_both(body: &mut Body, op: OpId, inner: OpId, new: NewOp) -> Result<(), AllocError>
    requires fit { IsOfFit body.old }
    requires live { HasOp body.old op }
    requires alone { HaveNoFurther (position_in body.old op) (body_ops body.old) }
    requires takes { TakesBoth (body_ops body.old) (position_in body.old op) (position_in body.old inner) (new_seen body.old new) }
    ensures joined { OnOk result (IsJoined body.old body.new (position_in body.old op) (position_in body.old inner) (new_seen body.old new)) }
    ensures kept { OnErr result (ops_of body.new ≡ ops_of body.old) }
{
    put_in_place(body, op, new)?;
    body.erase(inner);
    Ok(())
}

/// The extract in the place of an extract and of the one that made its operand.
fn joined_extract(
    alloc: Global,
    body: &Body,
    op: OpId,
    nested: &NestedOp<'_>,
) -> Result<NewOp, AllocError>
    requires fit { IsOfFit body.now }
    requires live { HasOp body.now op }
    requires nested { Some (nested_seen body.now nested.now) ≡ nested_in is_extract (body_ops body.now) (position_in body.now op) }
    ensures { IfOk result (λ new. IsJoin fold_extract_extract body.now (position_in body.now op) (position_in body.now nested.now.id) new) }
{
    let outer = body.op(op);
    let inner = &nested.op;
    match first_type(outer.results) {
        Some(ty) => {
            let low = lowest_bit(inner.kind) + lowest_bit(outer.kind);
            let operands = SmallVec::from_slice(alloc, inner.operands)?;
            let types = part_types(alloc, inner.types, ty)?;
            new_op(alloc, &outer, OpKind::Extract(low), operands, types, ty)
        }
        None => unreachable!(),
    }
}

/// The types that an extract writes whose result has the type `part`, where those of another extract of its operand are told.
fn part_types(alloc: Global, types: &TyList, part: &Ty) -> Result<TyList, AllocError>
    requires { 1 ≤ length (types_in types.now) }
    ensures { IfOk result (λ written. types_in written ≡ nth_type (types_in types.now) 0 ∷ type_of part.now ∷ []) }
{
    let whole = &types.as_slice()[0];
    let mut written = TyList::One(whole.try_clone(alloc)?);
    written.push(alloc, part.try_clone(alloc)?)?;
    Ok(written)
}

/// The concat in the place of a concat and of the one that made an operand of it.
fn joined_concat(
    alloc: Global,
    body: &Body,
    op: OpId,
    nested: &NestedOp<'_>,
) -> Result<NewOp, AllocError>
    requires fit { IsOfFit body.now }
    requires live { HasOp body.now op }
    requires nested { Some (nested_seen body.now nested.now) ≡ nested_in is_concat (body_ops body.now) (position_in body.now op) }
    ensures { IfOk result (λ new. IsJoin fold_nested_concat body.now (position_in body.now op) (position_in body.now nested.now.id) new) }
{
    let outer = body.op(op);
    let inner = &nested.op;
    match first_type(outer.results) {
        Some(ty) => {
            let operands = spliced_values(alloc, outer.operands, nested.number, inner.operands)?;
            let types = spliced_types(
                alloc,
                outer.types.as_slice(),
                nested.number,
                inner.types.as_slice(),
            )?;
            new_op(alloc, &outer, OpKind::Concat, operands, types, ty)
        }
        None => unreachable!(),
    }
}

/// The lowest bit that an extract takes; of another kind 0.
fn lowest_bit(kind: &OpKind) -> u32
    ensures { result ≡ low_of (kind_of kind.now) }
{
    match kind {
        OpKind::Extract(low) => *low,
        _ => 0,
    }
}

/// A new operation of one result in the place of another one, of which it has the dictionary, the mark `bin` and the position
/// in the source.
fn new_op(
    alloc: Global,
    old: &Op<'_>,
    kind: OpKind,
    operands: SmallVec<Value, 4, Global>,
    types: TyList,
    ty: &Ty,
) -> Result<NewOp, AllocError>
    ensures { IfOk result (λ new. (b : Body) → new_seen b new ≡ new_op (op_seen b old.now) (kind_of kind) (map (value_ref b) operands.items) (types_in types) (type_of ty.now)) }
{
    Ok(NewOp {
        kind,
        operands,
        types,
        results: NewResultList::One(NewResult {
            ty: ty.try_clone(alloc)?,
            again: false,
        }),
        named: 1,
        name: Text::new(alloc),
        dictionary: old.dictionary.try_clone(alloc)?,
        bin: old.bin,
        location: old.location,
    })
}
