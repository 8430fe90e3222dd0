//! Whether operations are in canonical form.
ghost use Rattle.std.specs.Prelude.{◌≡◌, ◌↔◌, [], true, false, length, IsTrue};
ghost use Rattle.hw_model.specs.Opcodes.{opcode_of};
ghost use Rattle.hw_model.specs.KindViews.{kind_of};
ghost use Rattle.ir_store.specs.Bodies.{ops_of};
ghost use Rattle.ir_store.specs.DictionaryViews.{entries_in};
ghost use Rattle.ir_store.specs.Numbered.{ops_by_position};
ghost use Rattle.ir_store.specs.OperationViews.{types_in, results_in};
ghost use Rattle.type_inference.specs.ResultTypes.{result_types};
ghost use Rattle.stored_form.specs.Alone.{op_alone};
ghost use Rattle.stored_form.specs.Bytes.{Each};
ghost use Rattle.stored_form.specs.Canonical.{IsCanonicalOp};
ghost use Rattle.stored_form.specs.Dictionaries.{has_name, takes_bin, string_keys, IsKeptDictionary};
ghost use Rattle.stored_form.specs.Kinds.{KeepsConstants, IsWritten};
ghost use Rattle.stored_form.specs.Limits.{IsAnyType};
ghost use Rattle.stored_form.specs.ResultTypes.{HaveTypes};

use crate::bytes::{are_bytes, is_count};
use crate::constants::keeps_constants;
use crate::dictionaries::{has_name, is_kept_dictionary};
use crate::kinds::is_written;
use crate::names::takes_bin;
use crate::result_types::have_types;
use crate::types::are_types;
use ir_store::body::{Body, Op};
use opcode::listed::Listed;

/// Whether each operation of a body is in canonical form.
pub(crate) fn are_canonical_ops(body: &Body) -> bool
    ensures { IsTrue result ↔ Each IsCanonicalOp (ops_by_position (ops_of body.now)) }
{
    for id in body.ops() {
        if !is_canonical_op(&body.op(id)) {
            return false;
        }
    }
    true
}

/// Whether an operation is in canonical form.
fn is_canonical_op(op: &Op<'_>) -> bool
    ensures { IsTrue result ↔ IsCanonicalOp (op_alone op.now) }
{
    is_count(op.named);
    are_bytes(op.name.as_bytes());
    has_canonical_types(op) && (has_canonical_kind(op) && has_canonical_rest(op))
}

/// Whether the types of an operation can be read, and its results have the types that it gives them.
fn has_canonical_types(op: &Op<'_>) -> bool
    ensures { IsTrue result ↔ (HaveTypes (results_in op.now.results.now) (result_types (kind_of op.now.kind.now) (types_in op.now.types.now) (length op.now.operands.now)) × Each IsAnyType (types_in op.now.types.now)) }
{
    let types = op.types.as_slice();
    have_types(
        op.kind.family(),
        types,
        op.operands.len(),
        op.results.as_slice(),
    ) && are_types(types)
}

/// Whether the constants of an operation are kept as their bits, and what its kind says can be written.
fn has_canonical_kind(op: &Op<'_>) -> bool
    ensures { IsTrue result ↔ (KeepsConstants (kind_of op.now.kind.now) (types_in op.now.types.now) × IsWritten (kind_of op.now.kind.now)) }
{
    let family = op.kind.family();
    keeps_constants(family, op.types.as_slice()) && is_written(family)
}

/// Whether the own name, the `bin` mark and the dictionary of an operation are those that an operation of its name may have.
fn has_canonical_rest(op: &Op<'_>) -> bool
    ensures { IsTrue result ↔ ((has_name (opcode_of (kind_of op.now.kind.now)) ≡ false → op.now.name.now ≡ []) × ((op.now.bin ≡ true → takes_bin (opcode_of (kind_of op.now.kind.now)) ≡ true) × IsKeptDictionary (opcode_of (kind_of op.now.kind.now)) (string_keys (opcode_of (kind_of op.now.kind.now))) (entries_in op.now.dictionary.now))) }
{
    let name = op.kind.listed();
    may_be_named(name, op.name.is_empty())
        && (may_have_bin(name, op.bin) && is_kept_dictionary(name, op.dictionary))
}

/// Whether an operation of a name may be without an own name, or with one.
fn may_be_named(name: Listed, nameless: bool) -> bool
    ensures { IsTrue result ↔ (has_name name ≡ false → IsTrue nameless) }
{
    has_name(name) || nameless
}

/// Whether an operation of a name may be with the mark `bin`, or without it.
fn may_have_bin(name: Listed, bin: bool) -> bool
    ensures { IsTrue result ↔ (bin ≡ true → takes_bin name ≡ true) }
{
    !bin || takes_bin(name)
}
