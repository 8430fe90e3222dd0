//! Laws of gate lists: which words they compute, and by how many gates.
ghost use Rattle.std.specs.Prelude.{◌≡◌, ℕ, ◌+◌, ◌*◌, Bool, not, cond, List, length};
ghost use Rattle.bits_core.specs.Word.{number, and_words, or_words, xor_words, not_word, parity, add, sub, mul, quotient as quotient_word, rest as rest_word, signed_quotient as signed_quotient_word, signed_rest as signed_rest_word, shift_left, shift_right, shift_right_signed, less as is_less, signed_less as is_signed_less, same_word};
ghost use Rattle.gates.specs.declared.signal.Gate.{Gate};
ghost use Rattle.gates.specs.declared.signal.Signal.{Signal};
ghost use Rattle.gates.specs.Signals.{signal_bit};
ghost use Rattle.gates.specs.Build.{and, or, exclusive};
ghost use Rattle.gate_words.specs.GateLists.{each, choose, inverses, odd, unlike, added, subtracted, product, quotient, rest, signed_quotient, signed_rest, less, signed_less, shifted_left, shifted_right, shifted_right_signed};
ghost use Rattle.gate_words.specs.Computes.{word_of, Computes, ComputesBit, ComputesOfTwo, ComputesOfShort, ComputesBitOfTwo, division_gates};

/// Does nothing. Its clauses say what the gate lists that go bit by bit compute, and by how many gates.
pub fn gate_lists_are_bitwise()
    ensures and { ComputesOfTwo (each and) and_words (λ w. w) }
    ensures or { ComputesOfTwo (each or) or_words (λ w. w) }
    ensures exclusive { ComputesOfTwo (each exclusive) xor_words (λ w. 3 * w) }
    ensures choice { (c : Signal) (m : List Bool) (inputs : ℕ) (gates : List Gate) (xs ys : List Signal) → length xs ≡ length ys → Computes (choose c xs ys) m inputs gates (cond (signal_bit m c) (word_of m xs) (word_of m ys)) (3 * length xs) }
    ensures inverse { (m : List Bool) (xs : List Signal) → word_of m (inverses xs) ≡ not_word (word_of m xs) }
    ensures parity { (m : List Bool) (inputs : ℕ) (gates : List Gate) (xs : List Signal) → ComputesBit (odd xs) m inputs gates (parity (word_of m xs)) (3 * length xs) }
    ensures unlike { ComputesBitOfTwo unlike (λ x y. not (same_word x y)) (λ w. 4 * w) }
{}

/// Does nothing. Its clauses say that the gate lists of arithmetic compute it modulo 2 to the power of the width, and by how
/// many gates.
pub fn gate_lists_are_arithmetic()
    ensures sum { ComputesOfTwo added add (λ w. 9 * w) }
    ensures difference { ComputesOfTwo subtracted sub (λ w. 9 * w) }
    ensures product { ComputesOfTwo product mul (λ w. 10 * (w * w)) }
    ensures quotient { ComputesOfTwo quotient quotient_word (λ w. division_gates w + 2 * w) }
    ensures rest { ComputesOfTwo rest rest_word division_gates }
    ensures signed_quotient { ComputesOfTwo signed_quotient signed_quotient_word (λ w. division_gates w + 38 * w + 3) }
    ensures signed_rest { ComputesOfTwo signed_rest signed_rest_word (λ w. division_gates w + 36 * w) }
{}

/// Does nothing. Its clauses say that the gate lists of shifts and comparisons compute them, and by how many gates.
pub fn gate_lists_shift_and_compare()
    ensures up { ComputesOfShort shifted_left (λ x y. shift_left x (number y)) (λ w. 25 * w) }
    ensures down { ComputesOfShort shifted_right (λ x y. shift_right x (number y)) (λ w. 25 * w) }
    ensures signed_down { ComputesOfShort shifted_right_signed (λ x y. shift_right_signed x (number y)) (λ w. 25 * w) }
    ensures less { ComputesBitOfTwo less is_less (λ w. 4 * w) }
    ensures signed_less { ComputesBitOfTwo signed_less is_signed_less (λ w. 4 * w) }
{}
