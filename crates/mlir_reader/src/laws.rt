//! The laws of reading, each a clause of a function that does nothing.

ghost use Rattle.std.specs.Prelude.{◌≡◌, ℕ, ◌≤◌, List, length, Ok, Err};
ghost use Rattle.diag.specs.declared.refusal.Refusal.{Refusal};
ghost use Rattle.hw_model.specs.Design.{Design};
ghost use Rattle.stored_form.specs.Bytes.{AreBytes};
ghost use Rattle.stored_form.specs.Canonical.{IsCanonical};
ghost use Rattle.mlir_reader.specs.Reading.{text_limit, read};
ghost use Rattle.mlir_reader.specs.Locality.{IsOfItsToken, IsUnspelledPrefix};
ghost use Rattle.mlir_reader.specs.Spelling.{Spells};

/// Does nothing. Its clause says that what is read of a text is spelled by it.
pub fn what_is_read_is_spelled()
    ensures { (source : List ℕ) (d : Design) → read source ≡ Ok d → Spells source d }
{}

/// Does nothing. Its clause says that a design that is read of bytes is in canonical form.
pub fn what_is_read_is_canonical()
    ensures { (source : List ℕ) (d : Design) → AreBytes source → read source ≡ Ok d → IsCanonical d }
{}

/// Does nothing. Its clause says that a refusal of a text that is not too long is of one of its symbols, whatever follows it:
/// each text that begins with the same tokens and the same symbol after them is refused alike.
pub fn a_refusal_is_of_its_token()
    ensures { (source : List ℕ) (r : Refusal) → length source ≤ text_limit → read source ≡ Err r → IsOfItsToken source r }
{}

/// Does nothing. Its clause says that what a text spells is read of it, where the text is not too long. So a text that is not too long is
/// read exactly where it spells a design, and then as the only design that it spells.
pub fn what_is_spelled_is_read()
    ensures { (source : List ℕ) (d : Design) → Spells source d → length source ≤ text_limit → read source ≡ Ok d }
{}

/// Does nothing. Its clause says that where a text that is not too long is refused, no text that begins with the same tokens and the same
/// symbol after them spells a design, however long it is.
pub fn a_refused_prefix_is_not_spelled()
    ensures { (source : List ℕ) (r : Refusal) → length source ≤ text_limit → read source ≡ Err r → IsUnspelledPrefix source r }
{}
