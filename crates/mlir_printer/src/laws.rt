//! The laws of printing, each a clause of a function that does nothing.

ghost use Rattle.std.specs.Prelude.{◌≡◌, ◌≤◌, List, length, Ok};
ghost use Rattle.hw_model.specs.Design.{Design, IsSameDesign};
ghost use Rattle.mlir_reader.specs.Reading.{text_limit, read};
ghost use Rattle.mlir_reader.specs.Spelling.{Spells, SpellsUnlocated};
ghost use Rattle.mlir_printer.specs.Lines.{HasLines};
ghost use Rattle.mlir_printer.specs.Modules.{ModuleText, file_bytes};
ghost use Rattle.stored_form.specs.Bytes.{Each};
ghost use Rattle.mlir_printer.specs.SpellableModules.{IsSpellable, AreSpelled};
ghost use Rattle.mlir_printer.specs.Texts.{ir_text};
ghost use Rattle.printing_laws.specs.Printable.{Printable};

use mlir_reader::laws::what_is_spelled_is_read;

/// Does nothing. Its clause says that the bytes of modules that can be spelled are tokens which the grammar reads as just these modules.
pub fn what_is_spellable_is_spelled()
    ensures { (ms : List ModuleText) → Each IsSpellable ms → AreSpelled (file_bytes ms) ms }
{}

/// Does nothing. Its clause says that the text of a design that can be printed spells that design, but for positions.
pub fn what_is_printable_is_spelled()
    ensures { (d : Design) → Printable d → SpellsUnlocated (ir_text d) d }
{}

/// Does nothing. Its clause says that the text of a design that can be printed, however long it is, spells a design that is the same but for
/// positions, and that it is read as that one, where it is not too long.
pub fn what_is_printed_is_read_again()
    ensures { (d : Design) → Printable d → (e : Design) × Spells (ir_text d) e × IsSameDesign d e × (length (ir_text d) ≤ text_limit → read (ir_text d) ≡ Ok e) }
{
    what_is_spelled_is_read();
}

/// Does nothing. Its clause says that the text of a design is whole lines, each with its line feed, of which none begins with `/`.
pub fn what_is_printed_is_lines()
    ensures { (d : Design) → HasLines (ir_text d) }
{}
