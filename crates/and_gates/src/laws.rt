//! Laws of the gates of a module in which every clock rises, each a clause of a function that does nothing.
ghost use Rattle.std.specs.Prelude.{◌≡◌, ◌↔◌, ◌<◌, ◌+◌, ◌^◌, ℕ, false, List, ◌++◌, length, Some};
ghost use Rattle.wiring.specs.Wiring.{In};
ghost use Rattle.bits_core.specs.Word.{Word};
ghost use Rattle.gates.specs.declared.signal.Signal.{Signal};
ghost use Rattle.gates.specs.Circuits.{Circuit};
ghost use Rattle.gates.specs.Order.{AreInOrder, evaluated};
ghost use Rattle.gate_words.specs.Computes.{word_of};
ghost use Rattle.hw_model.specs.Design.{Op, Module, Design};
ghost use Rattle.hw_model.specs.Design.Ref.{port};
ghost use Rattle.hw_model.specs.Flat.{Net, Register, register_in, registers, state};
ghost use Rattle.hw_model.specs.Machine.{Step};
ghost use Rattle.hw_model.specs.Meaning.{Settled, outputs, next_content, machine};
ghost use Rattle.operation_gates.specs.WordOrder.{AreSignalsWithin};
ghost use Rattle.net_gates.specs.ClockedInputs.{free_bits, with_clocks};
ghost use Rattle.flat_module_laws.specs.FlatPrices.{output_bits};
ghost use Rattle.flat_module_laws.specs.Sides.{IsPlain};
ghost use Rattle.and_gates.specs.declared.fail.ExportFault.{ExportFault};
ghost use Rattle.and_gates.specs.Clocks.{has_several_clocks, HasOneClock, has_async};
ghost use Rattle.and_gates.specs.Exports.{IsClockedStep, IsExport};
ghost use Rattle.and_gates.specs.Faults.{IsExportFault};

/// Does nothing. Its clauses say of the gates of a flat module's step in which every clock rises that they stand in order; that
/// their signals have, over inputs that are no clocks and content, the bits of the outputs and of the content after the step,
/// under each settled map of those inputs with clocks that are 1; and where no register is reset without its clock that these
/// are the bits that each step of the module gives and leaves, whatever the inputs before it, and that there is such a step.
pub fn clocked_steps_are_steps()
    ensures order { (c : Design) (g : Circuit) (signals : List Signal) → IsClockedStep c g signals → AreInOrder g.inputs g.gates }
    ensures bits { (c : Design) (g : Circuit) (signals : List Signal) (is : IsClockedStep c g signals) (x q : Word) (ρ : Net → Word)
        → length x ≡ free_bits is.one.ports → length q ≡ state c is.one.symbol → Settled c is.one.symbol (with_clocks is.one.ports x) q ρ
        → word_of (evaluated (x ++ q) g.gates) signals ≡ outputs c is.one.symbol ρ ++ next_content (registers c is.one.symbol) ρ q }
    ensures steps { (c : Design) (g : Circuit) (signals : List Signal) (is : IsClockedStep c g signals) → has_async is.one.body ≡ false → (x q before given after : Word)
        → length x ≡ free_bits is.one.ports → length q ≡ state c is.one.symbol → Step (machine c is.one.symbol) before (with_clocks is.one.ports x) q given after
        → word_of (evaluated (x ++ q) g.gates) signals ≡ given ++ after }
    ensures step { (c : Design) (g : Circuit) (signals : List Signal) (is : IsClockedStep c g signals) → has_async is.one.body ≡ false → (x q before : Word)
        → length x ≡ free_bits is.one.ports → length q ≡ state c is.one.symbol
        → (given : Word) × (after : Word) × Step (machine c is.one.symbol) before (with_clocks is.one.ports x) q given after × (word_of (evaluated (x ++ q) g.gates) signals ≡ given ++ after) }
{}

/// Does nothing. Its clauses say that a module is refused for one cause, and for none where its gates are told.
pub fn exports_are_one()
    ensures faults { (d : Design) (n : ℕ) (f g : ExportFault) → IsExportFault d n f → IsExportFault d n g → f ≡ g }
    ensures unrefused { (d : Design) (n : ℕ) (c : Design) (circuit : Circuit) (signals : List Signal) (f : ExportFault) → IsExport d n c circuit signals
        → IsExportFault d n f → ⊥ }
{}

/// Does nothing. Its clauses say that where gates are told all variables are below 2^31; and that the signals of a flat module's
/// step are of those variables, as many as the outputs and the registers have bits.
pub fn exports_are_bounded()
    ensures below { (d : Design) (n : ℕ) (c : Design) (circuit : Circuit) (signals : List Signal) → IsExport d n c circuit signals
        → circuit.inputs + length circuit.gates < 2 ^ 31 }
    ensures within { (c : Design) (g : Circuit) (signals : List Signal) → IsClockedStep c g signals → AreSignalsWithin (g.inputs + length g.gates) signals }
    ensures long { (c : Design) (g : Circuit) (signals : List Signal) (is : IsClockedStep c g signals) → length signals ≡ output_bits is.one + state c is.one.symbol }
{}

/// Does nothing. Its clauses say that the clock of each register of a flat module is a port, and that its registers are told to
/// have several clocks exactly where they have not one.
pub fn clocks_are_ports()
    ensures ports { (c : Design) (m : Module) → IsPlain c m.symbol m → (o : Op) → In o m.body → (r : Register) → register_in o ≡ Some r → (j : ℕ) × (r.clock ≡ port j) }
    ensures several { (c : Design) (m : Module) → IsPlain c m.symbol m → (has_several_clocks m.body ≡ false) ↔ HasOneClock m.body }
{}

/// Does nothing. Its clauses say that where gates are told the registers of the flat copy have one clock, and none is reset
/// without it.
pub fn exports_have_one_clock()
    ensures clocks { (d : Design) (n : ℕ) (c : Design) (circuit : Circuit) (signals : List Signal) (export : IsExport d n c circuit signals)
        → HasOneClock export.step.one.body }
    ensures resets { (d : Design) (n : ℕ) (c : Design) (circuit : Circuit) (signals : List Signal) (export : IsExport d n c circuit signals)
        → has_async export.step.one.body ≡ false }
{}
