//! Laws of imported designs, each a clause of a function that does nothing.
ghost use Rattle.std.specs.Prelude.{◌≡◌, ◌↔◌, ℕ, Bool, List, map, length};
ghost use Rattle.hw_model.specs.Flat.{state};
ghost use Rattle.hw_model.specs.Machine.{Step as ModuleStep, Run as ModuleRun};
ghost use Rattle.hw_model.specs.Meaning.{HasHeights, machine};
ghost use Rattle.aiger_laws.specs.Trees.{Aiger};
ghost use Rattle.aiger_laws.specs.Steps.{Step, Run};
ghost use Rattle.aiger_laws.specs.Grammar.{IsAiger};
ghost use Rattle.aiger_design.specs.Built.{imported_symbol, imported_design, clocked};

/// Does nothing. Its clauses say that the module of a text has as many bits of content as the text has latches, that its nets
/// have heights, and that its steps in which the clock rises are those of the text: with the same inputs from the same
/// content, whatever the inputs of the step before, both give the same outputs and leave the same content.
pub fn step_is_the_texts()
    ensures content { (t : Aiger) → state (imported_design t) imported_symbol ≡ length t.latches }
    ensures heights { (bytes : List ℕ) (t : Aiger) → IsAiger bytes t → HasHeights (imported_design t) imported_symbol }
    ensures steps { (bytes : List ℕ) (t : Aiger) → IsAiger bytes t
        → (before inputs content given after : List Bool) → length content ≡ length t.latches
        → Step t inputs content given after
        ↔ ModuleStep (machine (imported_design t) imported_symbol) before (clocked t.latches inputs) content given after }
{}

/// Does nothing. Its clause says that for every content and every list of steps in which the clock rises the run of the module
/// of a text is that of the text.
pub fn run_is_the_texts()
    ensures { (bytes : List ℕ) (t : Aiger) → IsAiger bytes t → (content : List Bool) → length content ≡ length t.latches
        → (steps given : List (List Bool)) → Run t content steps given
        ↔ ModuleRun (machine (imported_design t) imported_symbol) content (map (clocked t.latches) steps) given }
{}
