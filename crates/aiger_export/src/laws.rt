//! Laws of exported texts, each a clause of a function that does nothing.
ghost use Rattle.std.specs.Prelude.{◌≡◌, ◌↔◌, ℕ, List, map, length};
ghost use Rattle.bits_core.specs.Word.{Word};
ghost use Rattle.diag.specs.declared.refusal.Refusal.{Refusal};
ghost use Rattle.hw_model.specs.Design.{Design};
ghost use Rattle.hw_model.specs.Flat.{state};
ghost use Rattle.hw_model.specs.Machine.{Run as ModuleRun};
ghost use Rattle.hw_model.specs.Meaning.{machine};
ghost use Rattle.op_verifier.specs.Verdict.{IsAccepted};
ghost use Rattle.printing_laws.specs.Printable.{Printable};
ghost use Rattle.aggregate_laws.specs.LeafPorts.{split_ports};
ghost use Rattle.net_gates.specs.ClockedInputs.{free_bits, with_clocks};
ghost use Rattle.aiger_laws.specs.Steps.{Run};
ghost use Rattle.aiger_laws.specs.Grammar.{IsAiger};
ghost use Rattle.aiger_export.specs.Exports.{IsExportRefusal, IsExportText, exported_tree};
ghost use Rattle.aiger_export.specs.Runs.{AreWide};

/// Does nothing. Its clauses say that a design is refused in one way at most, and that what is refused has no text.
pub fn exports_are_one()
    ensures refusals { (d : Design) (r s : Refusal) → IsExportRefusal d r → IsExportRefusal d s → r ≡ s }
    ensures apart { (d : Design) (r : Refusal) (text : List ℕ) → IsExportRefusal d r → IsExportText d text → ⊥ }
{}

/// Does nothing. Its clauses say of an accepted design that can be printed that its text says the tree of its only public module,
/// and that for every content and every list of steps in which each clock rises, with as many bits as the leaves of the inputs
/// have that are no clocks, the runs of that tree are those of the module.
pub fn exported_texts_run()
    ensures says { (d : Design) (text : List ℕ) → IsAccepted d → Printable d → (e : IsExportText d text) → IsAiger text (exported_tree e) }
    ensures runs { (d : Design) (text : List ℕ) → IsAccepted d → Printable d → (e : IsExportText d text) → (q : Word) → length q ≡ state d e.public.symbol
        → (steps given : List Word) → AreWide (free_bits (split_ports e.public.ports)) steps
        → Run (exported_tree e) q steps given ↔ ModuleRun (machine d e.public.symbol) q (map (with_clocks (split_ports e.public.ports)) steps) given }
{}
