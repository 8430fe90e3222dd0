//! The laws of the export, each a clause of a function that does nothing.
ghost use Rattle.std.specs.Prelude.{◌≡◌, ℕ, Some, slice_get};
ghost use Rattle.hw_model.specs.Design.{Module, Design};
ghost use Rattle.hw_model.specs.Machine.{Same};
ghost use Rattle.hw_model.specs.Meaning.{machine};
ghost use Rattle.verilog_model.specs.Meaning.{tree_machine};
ghost use Rattle.lowering_options.specs.declared.lowering.Lowering.{Lowering};
ghost use Rattle.export_verilog.specs.Exported.{tree_of, symbol_name};
ghost use Rattle.export_verilog.specs.Layout.{verilog_text};
ghost use Rattle.export_verilog.specs.Exportable.{IsExportable};
ghost use Rattle.export_verilog.specs.Behaviour.{BehavesAs};

/// Does nothing. Its clause says that the Verilog of a design, however expressions are written, behaves as the design: each module of the tree has as many
/// bits of register content as the design's module, settles exactly once for all inputs and content, and has the same runs
/// (IEEE 1364-2005, 12.1: hierarchy; 6.1: continuous assignments; 9.2.2: nonblocking assignments).
pub fn exported_modules_behave_the_same()
    ensures { (l : Lowering) (d : Design) → IsExportable d → (n : ℕ) (m : Module) → slice_get d n ≡ Some m
        → Same (machine d m.symbol) (tree_machine (tree_of l d) (symbol_name d m.symbol)) }
{}

/// Does nothing. Its clause says that the text of a design, however expressions are written, is Verilog that behaves as the design: its tokens are the
/// spelling of one tree, which keeps the precedence of the operators and meets the checks on declarations, selects,
/// drivers, divisors and clocks, and in which each public module has its partner, with the same ports and the same runs.
pub fn exported_designs_behave()
    ensures { (l : Lowering) (d : Design) → IsExportable d → BehavesAs (verilog_text l d) d }
{}
