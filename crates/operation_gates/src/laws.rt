//! Laws of gate lists of operations.
ghost use Rattle.std.specs.Prelude.{◌≡◌, ℕ, ◌+◌, Bool, List, [], map, length, Option};
ghost use Rattle.gates.specs.declared.signal.Gate.{Gate};
ghost use Rattle.gates.specs.declared.signal.Signal.{Signal};
ghost use Rattle.gates.specs.Order.{AreInOrder};
ghost use Rattle.gate_words.specs.Computes.{word_of, Computes};
ghost use Rattle.hw_model.specs.Types.{HwType, width};
ghost use Rattle.hw_model.specs.Kinds.{Kind};
ghost use Rattle.hw_model.specs.Value.{op_value};
ghost use Rattle.hw_model.specs.Sound.{HaveWidths, Fits};
ghost use Rattle.operation_gates.specs.OperationGateLists.{gate_list_of};
ghost use Rattle.operation_gates.specs.Operands.{IsPlain, IsShort, TakesWidths};
ghost use Rattle.operation_gates.specs.Prices.{price};
ghost use Rattle.operation_gates.specs.WordOrder.{AreSignalsWithin, AreWordsWithin};

/// Does nothing. Its clause says that the gate list of an operation that fits, whose operands have the widths of their types,
/// computes the value of the operation within its price, where a shift is of 128 bits at most (CIRCT, Comb dialect).
pub fn gate_lists_compute()
    ensures { (kind : Kind) (ts : List HwType) (types : List (Option HwType)) (t : HwType) (k : ℕ) (m : List Bool) (inputs : ℕ) (gates : List Gate) (xs : List (List Signal)) → IsPlain kind → IsShort kind (width t) → Fits kind ts types t k → HaveWidths types (map (word_of m) xs) → Computes (gate_list_of kind (width t) xs) m inputs gates (op_value kind ts t k (map (word_of m) xs)) (price kind (width t) (map length xs)) }
{}

/// Does nothing. Its clauses say that the gate list of an operation whose operands fit adds gates in order, that its signals are
/// of variables that there then are, and that they are as many as the type of the result has bits; and that the operands
/// of an operation that fits are as wide as its gate list takes.
pub fn gate_lists_stand_in_order()
    ensures gates { (kind : Kind) (w inputs : ℕ) (gates : List Gate) (xs : List (List Signal)) → TakesWidths kind w (map length xs) → IsShort kind w → AreInOrder inputs gates → AreWordsWithin (inputs + length gates) xs → AreInOrder (inputs + length gates) (gate_list_of kind w xs inputs gates).gates }
    ensures signals { (kind : Kind) (w inputs : ℕ) (gates : List Gate) (xs : List (List Signal)) → TakesWidths kind w (map length xs) → IsShort kind w → AreInOrder inputs gates → AreWordsWithin (inputs + length gates) xs → AreSignalsWithin (inputs + length gates + length (gate_list_of kind w xs inputs gates).gates) (gate_list_of kind w xs inputs gates).got }
    ensures width { (kind : Kind) (ts : List HwType) (types : List (Option HwType)) (t : HwType) (k inputs : ℕ) (gates : List Gate) (xs : List (List Signal)) → IsPlain kind → IsShort kind (width t) → Fits kind ts types t k → HaveWidths types (map (word_of []) xs) → length (gate_list_of kind (width t) xs inputs gates).got ≡ width t }
    ensures operands { (kind : Kind) (ts : List HwType) (types : List (Option HwType)) (t : HwType) (k : ℕ) (xs : List (List Signal)) → IsPlain kind → Fits kind ts types t k → HaveWidths types (map (word_of []) xs) → TakesWidths kind (width t) (map length xs) }
{}
