//! Laws of the steps and runs of a flat module over its tables.
ghost use Rattle.std.specs.Prelude.{◌≡◌, ℕ, List, [], map, length};
ghost use Rattle.std.specs.List.{filter};
ghost use Rattle.bits_core.specs.Word.{Word};
ghost use Rattle.hw_model.specs.Types.{Name, width};
ghost use Rattle.hw_model.specs.Design.{Module, Design, is_register};
ghost use Rattle.hw_model.specs.Flat.{held_width};
ghost use Rattle.hw_model.specs.Machine.{Step, Run};
ghost use Rattle.hw_model.specs.Meaning.{machine};
ghost use Rattle.hw_model.specs.Sound.{input_types, output_types};
ghost use Rattle.hw_model.specs.Value.{concat_words};
ghost use Rattle.flat_module_laws.specs.Sides.{IsFlat};
ghost use Rattle.flat_steps.specs.Tables.{no_words, with_words, register_positions, TableFits};
ghost use Rattle.flat_steps.specs.Steps.{with_inputs, risen_results, first_ports, first_results};
ghost use Rattle.flat_steps.specs.Runs.{TablesHold, AreInputs, left_results, step_outputs, run_outputs};

/// Does nothing. Its clauses speak of a flat module of an accepted design and of words as wide as its registers: before the first step its
/// operations take the words of their operands, and once they have settled the tables hold inputs that are 0 and those words.
pub fn tables_start()
    ensures fits { (d : Design) (top : Name) (m : Module) (order : List ℕ) → IsFlat d top m order → (content : List Word) → map length content ≡ map held_width (filter is_register m.body)
        → TableFits (first_ports m.ports) m.body order (with_words (register_positions 0 m.body) content (no_words (length m.body))) }
    ensures holds { (d : Design) (top : Name) (m : Module) (order : List ℕ) → IsFlat d top m order → (content : List Word) → map length content ≡ map held_width (filter is_register m.body)
        → TablesHold d top m (first_ports m.ports) (first_results m.ports m.body order content) [] (concat_words content) }
{}

/// Does nothing. Its clauses speak of tables of a flat module of an accepted design that hold the inputs of the step before and the content,
/// and of words as wide as the input ports: with these as inputs its operations take the words of their operands once
/// asynchronous resets have risen, the outputs are as wide as their ports, and the step of the tables is one of the module,
/// after which they hold those inputs and the content that it leaves.
pub fn tables_step()
    ensures fits { (d : Design) (top : Name) (m : Module) (order : List ℕ) → IsFlat d top m order → (ports results : List Word) (before content : Word) → TablesHold d top m ports results before content
        → (given : List Word) → map length given ≡ map width (input_types m.ports)
        → TableFits (with_inputs m.ports given ports) m.body order (risen_results m.body ports (with_inputs m.ports given ports) results) }
    ensures widths { (d : Design) (top : Name) (m : Module) (order : List ℕ) → IsFlat d top m order → (ports results : List Word) (before content : Word) → TablesHold d top m ports results before content
        → (given : List Word) → map length given ≡ map width (input_types m.ports)
        → map length (step_outputs m.ports m.body order given ports results) ≡ map width (output_types m.ports) }
    ensures step { (d : Design) (top : Name) (m : Module) (order : List ℕ) → IsFlat d top m order → (ports results : List Word) (before content : Word) → TablesHold d top m ports results before content
        → (given : List Word) → map length given ≡ map width (input_types m.ports)
        → (after : Word) × Step (machine d top) before (concat_words given) content (concat_words (step_outputs m.ports m.body order given ports results)) after
        × TablesHold d top m (with_inputs m.ports given ports) (left_results m.ports m.body order given ports results) (concat_words given) after }
{}

/// Does nothing. Its clause says that from words as wide as its registers, and with words as wide as its input ports in each step, the
/// outputs of the tables of a flat module of an accepted design, step by step, are those of a run of the module.
pub fn tables_run()
    ensures { (d : Design) (top : Name) (m : Module) (order : List ℕ) → IsFlat d top m order → (content : List Word) → map length content ≡ map held_width (filter is_register m.body)
        → (steps : List (List Word)) → AreInputs m.ports steps
        → Run (machine d top) (concat_words content) (map concat_words steps)
        (map concat_words (run_outputs m.ports m.body order steps (first_ports m.ports) (first_results m.ports m.body order content))) }
{}
