//! Lists of patterns that are tried one after the other.

use crate::pattern::Pattern;
use ir_store::body::Body;
use ir_store::operation::OpId;
use std::alloc::{AllocError, Global};

/// A list of patterns of the table of folds.
pub trait Patterns {
    ghost use Rattle.std.specs.Prelude.{◌≡◌, List, is_some, IfOk, OnErr};
    ghost use Rattle.ir_store.specs.Bodies.{ops_of};
    ghost use Rattle.fold_laws.specs.Edits.{FoldPattern};
    ghost use Rattle.fold_laws.specs.Table.{first_pattern};
    ghost use Rattle.body_edits.specs.FitBodies.{IsOfFit};
    ghost use Rattle.body_edits.specs.Folded.{Tries};
    ghost use Rattle.body_edits.specs.Views.{HasOp, body_ops, position_in};

    // The patterns, the first to be tried first.
    ghost tried: { List FoldPattern };

    /// Whether a pattern of the list matches at an operation. It takes no memory.
    fn matches(body: &Body, op: OpId) -> bool
        requires fit { IsOfFit body.now }
        requires live { HasOp body.now op }
        ensures { result ≡ is_some (first_pattern tried (body_ops body.now) (position_in body.now op)) };

    /// Changes a body at an operation as the first pattern of the list says that matches there, and says whether one does. On an
    /// error, which comes where memory that is needed is refused, the operations stay.
    fn attempt(alloc: Global, body: &mut Body, op: OpId) -> Result<bool, AllocError>
        requires fit { IsOfFit body.old }
        requires live { HasOp body.old op }
        ensures tries { IfOk result (Tries (first_pattern tried) body.old body.new (position_in body.old op)) }
        ensures kept { OnErr result (ops_of body.new ≡ ops_of body.old) };
}

/// No pattern, of which none matches.
impl Patterns for () {
    ghost use Rattle.std.specs.Prelude.{[]};

    ghost tried = { [] };

    fn matches(_body: &Body, _op: OpId) -> bool {
        false
    }

    fn attempt(_alloc: Global, _body: &mut Body, _op: OpId) -> Result<bool, AllocError> {
        Ok(false)
    }
}

/// A pattern, and the others that are tried where it does not match.
impl<P: Pattern, R: Patterns> Patterns for (P, R) {
    ghost use Rattle.std.specs.Prelude.{◌∷◌};

    ghost tried = { P.change ∷ R.tried };

    fn matches(body: &Body, op: OpId) -> bool {
        P::matches(body, op) || R::matches(body, op)
    }

    fn attempt(alloc: Global, body: &mut Body, op: OpId) -> Result<bool, AllocError> {
        if P::matches(body, op) {
            P::apply(alloc, body, op)?;
            Ok(true)
        } else {
            R::attempt(alloc, body, op)
        }
    }
}
