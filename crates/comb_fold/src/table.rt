//! The table of folds, in the order in which its patterns are tried.
ghost use Rattle.std.specs.Prelude.{◌≡◌, is_some, IfOk, OnErr};
ghost use Rattle.ir_store.specs.Bodies.{ops_of};
ghost use Rattle.fold_laws.specs.Table.{patterns, first_pattern};
ghost use Rattle.body_edits.specs.FitBodies.{IsOfFit};
ghost use Rattle.body_edits.specs.Folded.{Tries};
ghost use Rattle.body_edits.specs.Views.{HasOp, body_ops, position_in};

use crate::attempts::Patterns;
use crate::equal::F13;
use crate::evaluated::F2;
use crate::joined::F14;
use crate::nested_patterns::F16;
use crate::numbered::{F18, F20, F22, F23};
use crate::operand_patterns::{F4, F5, F6, F7, F8, F12, F15};
use crate::parts::{F29, F32};
use crate::replaced_patterns::{F28, F30};
use crate::standing::{F3, F9, F10, F11, F17, F19, F21, F24, F25, F26, F27, F31};
use crate::unused::F1;
use ir_store::body::Body;
use ir_store::operation::OpId;
use std::alloc::{AllocError, Global};

/// The patterns on parts of values, from F27 on.
type PartPatterns = (F27, (F28, (F29, (F30, (F31, (F32, ()))))));

/// The patterns on operations of two or three operands, from F17 on, and the later ones.
type FixedPatterns = (
    F17,
    (
        F18,
        (
            F19,
            (F20, (F21, (F22, (F23, (F24, (F25, (F26, PartPatterns))))))),
        ),
    ),
);

/// The patterns on operations of any number of operands, from F9 on, and the later ones.
type VariadicPatterns = (
    F9,
    (F10, (F11, (F12, (F13, (F14, (F15, (F16, FixedPatterns))))))),
);

/// The patterns of the table, the first to be tried first.
type Table = (
    F1,
    (F2, (F3, (F4, (F5, (F6, (F7, (F8, VariadicPatterns))))))),
);

/// Whether a pattern of the table matches at an operation. It takes no memory.
pub fn matches(body: &Body, op: OpId) -> bool
    requires fit { IsOfFit body.now }
    requires live { HasOp body.now op }
    ensures { result ≡ is_some (first_pattern patterns (body_ops body.now) (position_in body.now op)) }
{
    <Table as Patterns>::matches(body, op)
}

/// Changes a body at an operation as the first pattern of the table says that matches there, and says whether one does. On an
/// error, which comes where memory that is needed is refused, the operations stay.
pub fn fold(alloc: Global, body: &mut Body, op: OpId) -> Result<bool, AllocError>
    requires fit { IsOfFit body.old }
    requires live { HasOp body.old op }
    ensures tries { IfOk result (Tries (first_pattern patterns) body.old body.new (position_in body.old op)) }
    ensures kept { OnErr result (ops_of body.new ≡ ops_of body.old) }
{
    <Table as Patterns>::attempt(alloc, body, op)
}
