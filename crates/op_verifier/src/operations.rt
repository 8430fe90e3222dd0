//! Why an operation of a body is refused.
ghost use Rattle.std.specs.Prelude.{◌≡◌, map, IfOk};
ghost use Rattle.hw_model.specs.KindViews.{kind_of};
ghost use Rattle.hw_model.specs.Design.{is_output_kind};
ghost use Rattle.ir_store.specs.Designs.{design_of};
ghost use Rattle.ir_store.specs.OperationViews.{result_of};
ghost use Rattle.port_checks.specs.Marked.{AreResetPorts};
ghost use Rattle.op_verifier.specs.OpChecks.{has_again};

use crate::body_view::BodyView;
use crate::entries::Entry;
use diag::cause::Cause;
use hw_model::kinds::OpKind;
use ir_store::design::Design;
use ir_store::operation::NewResult;
use op_checks::own_checks::own_cause;
use port_checks::{ResetPorts, are_types, instance_cause};
use std::alloc::{AllocError, Global};

impl<'b> BodyView<'b> {
    ghost use Rattle.op_verifier.specs.BodyViews.{ports_viewed, body_viewed, op_viewed};
    ghost use Rattle.op_verifier.specs.Entries.{AreSettled, op_in};
    ghost use Rattle.op_verifier.specs.OpChecks.{value_cause, alone_cause, outer_cause, op_cause};

    /// Why the operation of an entry is refused, `last` saying whether it is the last of its body.
    pub(crate) fn op_cause(
        &self,
        alloc: Global,
        design: &Design,
        resets: &ResetPorts,
        entry: &Entry<'_>,
        last: bool,
    ) -> Result<Option<Cause>, AllocError>
        requires settled { AreSettled self.now.entries.items }
        requires resets { AreResetPorts (design_of design.now) resets.now }
        ensures { IfOk result (λ cause. cause ≡ op_cause (design_of design.now) (ports_viewed self.now) (body_viewed self.now) last (op_viewed self.now (op_in entry.now))) }
    {
        if let Some(cause) = self.value_cause(entry) {
            return Ok(Some(cause));
        }
        if let Some(cause) = self.alone_cause(alloc, entry)? {
            return Ok(Some(cause));
        }
        if let Some(cause) = self.outer_cause(design, entry, last) {
            return Ok(Some(cause));
        }
        Ok(self.reset_cause(design, resets, entry))
    }

    /// What the values of an operation are refused for.
    fn value_cause(&self, entry: &Entry<'_>) -> Option<Cause>
        ensures { result ≡ value_cause (ports_viewed self.now) (body_viewed self.now) (op_viewed self.now (op_in entry.now)) }
    {
        let results = entry.op.results.as_slice();
        if has_again(results) {
            Some(Cause::Redefined)
        } else if self.has_undefined(entry.op.operands) {
            Some(Cause::Undefined)
        } else {
            None
        }
    }

    /// What an operation is refused for by itself.
    fn alone_cause(&self, alloc: Global, entry: &Entry<'_>) -> Result<Option<Cause>, AllocError>
        requires { AreSettled self.now.entries.items }
        ensures { IfOk result (λ cause. cause ≡ alone_cause (ports_viewed self.now) (body_viewed self.now) (op_viewed self.now (op_in entry.now))) }
    {
        let types = self.settled_types(alloc, entry.op.operands)?;
        let divides = self.divides_by_constant(entry.op.operands);
        Ok(own_cause(&entry.op, types.as_slice(), divides))
    }

    /// What an operation is refused for by what stands around it.
    fn outer_cause(&self, design: &Design, entry: &Entry<'_>, last: bool) -> Option<Cause>
        ensures { result ≡ outer_cause (design_of design.now) (ports_viewed self.now) last (op_viewed self.now (op_in entry.now)) }
    {
        let types = entry.op.types.as_slice();
        if is_output(entry.op.kind) && !are_types(types, self.ports, true) {
            return Some(Cause::OutputMismatch);
        }
        if let Some(cause) = instance_cause(design, entry.op.kind, types) {
            return Some(cause);
        }
        if is_output(entry.op.kind) && !last {
            Some(Cause::MissingOutput)
        } else {
            None
        }
    }
}

/// Whether the value name of some result was defined earlier.
fn has_again(results: &[NewResult]) -> bool
    ensures { result ≡ has_again (map result_of results.now) }
{
    for one in results {
        if one.again {
            return true;
        }
    }
    false
}

/// Whether a kind is `hw.output`.
pub(crate) fn is_output(kind: &OpKind) -> bool
    ensures { result ≡ is_output_kind (kind_of kind.now) }
{
    match kind {
        OpKind::Output => true,
        _ => false,
    }
}
