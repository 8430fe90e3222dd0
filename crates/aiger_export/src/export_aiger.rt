//! The text of a design in the AIGER format, or why there is none.
ghost use Rattle.std.specs.Prelude.{◌<◌, length, IfOk, IfErr};
ghost use Rattle.hw_model.specs.Design.{Module as HwModule};
ghost use Rattle.ir_store.specs.Designs.{design_of};
ghost use Rattle.and_gates.specs.Faults.{IsRefusedExport as IsRefusedStep};
ghost use Rattle.aiger_export.specs.Exports.{IsExportText, IsRefusedExport};
ghost use Rattle.aiger_export.specs.PublicModules.{IsOnlyPublic};

use crate::fail::ExportFail;
use crate::public_modules::only_public;
use crate::refusals::{at_header, not_one_public};
use crate::step_text::step_text;
use and_gates::fail::ExportFail as StepFail;
use and_gates::steps::and_gates;
use io_edge::byte_text::Text;
use op_verifier::Verified;
use std::alloc::Global;

/// The text of the only public module of a design in the AIGER format (ASCII, AIGER 1.9), flat and without aggregates, in steps in
/// which every clock rises: clocks are no inputs, each bit of a register is a latch that may begin with either bit, and each bit
/// of an input, a register and an output has a name. The design is refused for the first of these causes: not one module is
/// public, at the beginning of the file; the registers of that module have several clocks, one is reset without its clock, or
/// the module may take more than 2^28 gates, or has more than 2^28 inputs and bits of registers, at its header. Linear in the
/// flat module, its gates and the text.
pub fn export_aiger(alloc: Global, design: &Verified) -> Result<Text, ExportFail>
    ensures ok { IfOk result (λ text. IsExportText (design_of design.now.design) text) }
    ensures refused { IfErr result (IsRefusedExport (design_of design.now.design)) }
{
    let Some(number) = only_public(design) else {
        return Err(ExportFail::Refused(not_one_public()));
    };
    let made = match and_gates(alloc, design, number) {
        Ok(made) => made,
        Err(fail) => return Err(refused(design, number, fail)),
    };
    Ok(step_text(alloc, &made)?)
}

// Why the design has no text, where its only public module has no gates.
fn refused(design: &Verified, number: u32, fail: StepFail) -> ExportFail
    requires number { number < length (design_of design.now.design) }
    requires refused { IsRefusedStep (design_of design.now.design) number fail }
    ensures { (m : HwModule) → IsOnlyPublic (design_of design.now.design) number m → IsRefusedExport (design_of design.now.design) result }
{
    match fail {
        StepFail::Refused(fault) => ExportFail::Refused(at_header(design, number, fault)),
        StepFail::NoMemory => ExportFail::NoMemory,
    }
}
