//! The refusals of designs that have no text in the AIGER format.
ghost use Rattle.std.specs.Prelude.{◌≡◌, ◌<◌, length, Some, slice_get};
ghost use Rattle.hw_model.specs.Design.{Module as HwModule};
ghost use Rattle.ir_store.specs.Designs.{design_of};
ghost use Rattle.op_verifier.specs.Faults.{header_refusal};
ghost use Rattle.miter_blast.specs.Pairs.{at_file};
ghost use Rattle.aiger_export.specs.Exports.{cause_of};
ghost use Rattle.diag.specs.declared.cause.Cause.TheVariants.{NotOnePublicModule};

use and_gates::fail::ExportFault;
use diag::cause::Cause;
use diag::refusal::{Location, OpName, Refusal};
use op_verifier::{Verified, refused_at};
use opcode::listed::Listed;

/// The refusal of a design in which not one module is public: at the beginning of the file.
pub(crate) fn not_one_public() -> Refusal
    ensures { result ≡ at_file 0 NotOnePublicModule }
{
    Refusal {
        file: 0,
        location: Location::start(),
        op: OpName::File,
        cause: Cause::NotOnePublicModule,
    }
}

/// The refusal of the module of a number for a fault of its gates: at its header.
pub(crate) fn at_header(verified: &Verified, number: u32, fault: ExportFault) -> Refusal
    requires { number < length (design_of verified.now.design) }
    ensures { (m : HwModule) → slice_get (design_of verified.now.design) number ≡ Some m → result ≡ header_refusal m (cause_of fault) }
{
    let one = verified.design().module(number);
    refused_at(one.location, Listed::HwModule, cause_of(fault))
}

// The cause of a fault.
fn cause_of(fault: ExportFault) -> Cause
    ensures { result ≡ cause_of fault }
{
    match fault {
        ExportFault::SeveralClocks => Cause::SeveralClocks,
        ExportFault::AsynchronousReset => Cause::AsynchronousReset,
        ExportFault::TooManyGates => Cause::TooManyAndGates,
    }
}
