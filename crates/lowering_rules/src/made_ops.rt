//! Operations that are made for others.
ghost use Rattle.std.specs.Prelude.{◌≡◌, ◌++◌, ◌∷◌, [], OnOk};
ghost use Rattle.hw_model.specs.KindViews.{kind_of};
ghost use Rattle.hw_model.specs.TypeViews.{type_of};
ghost use Rattle.aggregate_laws.specs.OperationRules.{made_op};
ghost use Rattle.lowering_rules.specs.Reading.{plain_of, new_refs, new_seen};
ghost use Rattle.lowering_rules.specs.Made.{made_in, recipe_op};

use hw_model::kinds::OpKind;
use hw_model::types::Ty;
use io_edge::byte_text::Text;
use ir_store::body::Op;
use ir_store::dictionary::Dictionary;
use ir_store::operation::{NewOp, NewResult, NewResultList, TyList, Value};
use smallvec::SmallVec;
use std::alloc::{AllocError, Global};

/// What an operation of one result is made of.
#[derive(Drop)]
pub struct Recipe<'r> {
    /// Its kind.
    pub kind: OpKind,
    /// Its operands.
    pub operands: &'r [Value],
    /// The types that it writes.
    pub types: TyList,
    /// Its name.
    pub name: Text,
    /// The type of its result.
    pub ty: Ty,
}

/// Puts an operation after others.
#[tactic(auto, unfolding(crate::specs::Made::made_in))]
pub fn put(made: &mut Vec<NewOp>, op: NewOp) -> Result<(), AllocError>
    ensures { OnOk result (made_in made.new.items ≡ made_in made.old.items ++ new_seen op ∷ []) }
{
    made.push(op)?;
    Ok(())
}

/// Puts an operation of one result, made for another one, after others.
pub fn put_made(
    alloc: Global,
    made: &mut Vec<NewOp>,
    op: &Op<'_>,
    recipe: Recipe<'_>,
) -> Result<(), AllocError>
    ensures { OnOk result (made_in made.new.items ≡ made_in made.old.items ++ recipe_op (plain_of op.now) recipe.entry ∷ []) }
{
    let operands = SmallVec::from_slice(alloc, recipe.operands)?;
    put(
        made,
        NewOp {
            kind: recipe.kind,
            operands,
            types: recipe.types,
            results: NewResultList::One(NewResult {
                ty: recipe.ty,
                again: false,
            }),
            named: 1,
            name: recipe.name,
            dictionary: Dictionary::new(alloc),
            bin: false,
            location: op.location,
        },
    )
}

/// Puts an operation of one type, which its result has too, without a name, after others.
pub fn put_plain(
    alloc: Global,
    made: &mut Vec<NewOp>,
    op: &Op<'_>,
    kind: OpKind,
    operands: &[Value],
    ty: &Ty,
) -> Result<(), AllocError>
    ensures { OnOk result (made_in made.new.items ≡ made_in made.old.items ++ made_op (plain_of op.now) (kind_of kind) (new_refs operands.now) (type_of ty.now ∷ []) [] (type_of ty.now) ∷ []) }
{
    let recipe = Recipe {
        kind,
        operands,
        types: TyList::One(ty.try_clone(alloc)?),
        name: Text::new(alloc),
        ty: ty.try_clone(alloc)?,
    };
    put_made(alloc, made, op, recipe)
}
