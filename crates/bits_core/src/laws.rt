//! Laws of words, as the contracts of functions that do nothing.

ghost use Rattle.std.specs.Prelude.{◌≡◌, ℕ, suc, ◌+◌, ◌*◌, ◌%◌, ◌^◌, ◌<◌, ◌≤ℤ◌, ◌<ℤ◌, ℤ, pos, neg_ℤ, ◌+ℤ◌, ◌-ℤ◌, ◌*ℤ◌, length};
ghost use Rattle.bits_core.specs.Word.{Word, number, bits, signed, bits_of_ℤ, add, sub, mul, quotient, rest, signed_quotient, signed_rest};

/// A word of `width` bits stands for each number below 2 to the power of `width` once: the bits
/// of a number stand for its rest by the power, and the bits of a word's number are the word.
pub fn words_are_numbers()
    ensures width { (width n : ℕ) → length (bits width n) ≡ width }
    ensures number { (width n : ℕ) → number (bits width n) ≡ n % 2 ^ width }
    ensures below { (x : Word) → number x < 2 ^ length x }
    ensures word { (x : Word) → bits (length x) (number x) ≡ x }
{}

/// A word of `w + 1` bits stands for each integer from -2 to the power of `w` up to one
/// below that power once (two's complement).
pub fn words_are_signed()
    ensures integer { (w : ℕ) (z : ℤ) → neg_ℤ (pos (2 ^ w)) ≤ℤ z → z <ℤ pos (2 ^ w) → signed (bits_of_ℤ (suc w) z) ≡ z }
    ensures word { (x : Word) → bits_of_ℤ (length x) (signed x) ≡ x }
{}

/// Sums, differences and products of words of one width are those of their signed readings too.
pub fn arithmetic_has_no_sign()
    ensures sum { (x y : Word) → length x ≡ length y → add x y ≡ bits_of_ℤ (length x) (signed x +ℤ signed y) }
    ensures difference { (x y : Word) → length x ≡ length y → sub x y ≡ bits_of_ℤ (length x) (signed x -ℤ signed y) }
    ensures product { (x y : Word) → length x ≡ length y → mul x y ≡ bits_of_ℤ (length x) (signed x *ℤ signed y) }
{}

/// A quotient times the divisor, and the rest, make the dividend, also where the divisor is 0.
pub fn quotients_have_rests()
    ensures unsigned { (x y : Word) → add (mul (quotient x y) y) (rest x y) ≡ x }
    ensures signed { (x y : Word) → length x ≡ length y → add (mul (signed_quotient x y) y) (signed_rest x y) ≡ x }
{}
