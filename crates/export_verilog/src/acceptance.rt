//! The laws on designs that the verifier accepts, each a clause of a function that does nothing.
ghost use Rattle.hw_model.specs.Design.{Design as HwDesign};
ghost use Rattle.ir_store.specs.Designs.{design_of};
ghost use Rattle.op_verifier.specs.Verdict.{IsAccepted};
ghost use Rattle.export_verilog.specs.Aggregates.{HasNoAggregates};
ghost use Rattle.export_verilog.specs.Exportable.{IsExportable};
ghost use Rattle.export_verilog.specs.Room.{HasRoomToExport};

use ir_store::design::Design;

/// Does nothing. Its clause says that each accepted design without aggregates is exportable, where its modules are no
/// more than a machine counts.
pub fn accepted_designs_are_exportable()
    ensures { (d : HwDesign) → IsAccepted d → HasNoAggregates d → HasRoomToExport d → IsExportable d }
{}

/// Does nothing but count modules. Its clause says that a design in memory has no more of them than a machine counts.
pub fn stored_designs_have_room(design: &Design)
    ensures { HasRoomToExport (design_of design.now) }
{
    let _ = design.module_count();
}
