//! What patterns read of a body: the operations that made values, and constants.
ghost use Rattle.std.specs.Prelude.{◌≡◌, option_map};
ghost use Rattle.ir_store.specs.declared.operation.Value.TheVariants.{Result};
ghost use Rattle.fold_laws.specs.Constants.{constant_at, is_constant_where};
ghost use Rattle.fold_laws.specs.Parts.{maker};
ghost use Rattle.body_edits.specs.Readable.{IsReadable};
ghost use Rattle.body_edits.specs.Tests.{test_of};
ghost use Rattle.body_edits.specs.Views.{body_ops, value_ref, op_seen};

use crate::constants::{Test, word_of};
use bits_core::Bits;
use ir_store::body::{Body, Op};
use ir_store::operation::{OpId, Value};

/// The operation of which a value is the first result.
#[tactic(auto, using(crate::proofs::ReadBodies::maker_port, crate::proofs::ReadBodies::maker_undefined, crate::proofs::ReadBodies::maker_further))]
pub fn maker(body: &Body, value: Value) -> Option<Op<'_>>
    ensures { option_map (op_seen body.now) result ≡ maker (body_ops body.now) (value_ref body.now value) }
{
    match value {
        Value::Result(id, number) => { if number == 0 { live_op(body, id) } else { None } }
        Value::Port(_) => None,
        Value::Undefined => None,
    }
}

/// The operation of an id, where the body has one.
fn live_op(body: &Body, id: OpId) -> Option<Op<'_>>
    ensures { option_map (op_seen body.now) result ≡ maker (body_ops body.now) (value_ref body.now (Result id 0)) }
{
    if body.contains(id) {
        Some(body.op(id))
    } else {
        None
    }
}

/// The word of a value that is the result of an `hw.constant` of an integer type.
pub fn constant_of(body: &Body, value: Value) -> Option<Bits>
    requires { IsReadable body.now }
    ensures { result ≡ constant_at (body_ops body.now) (value_ref body.now value) }
{
    match maker(body, value) {
        Some(op) => word_of(op.kind, op.results),
        None => None,
    }
}

/// Whether a value is a constant whose word meets a test.
pub fn meets(body: &Body, test: Test, value: Value) -> bool
    requires { IsReadable body.now }
    ensures { result ≡ is_constant_where (test_of test) (body_ops body.now) (value_ref body.now value) }
{
    match constant_of(body, value) {
        Some(word) => test.holds(&word),
        None => false,
    }
}
