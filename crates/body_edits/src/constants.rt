//! Words of constants, and tests of them.
ghost use Rattle.std.specs.Prelude.{◌≡◌, ◌≤◌, ◌-◌, ◌^◌, slice_get, option_map};
ghost use Rattle.bits_core.specs.Word.{bits_of_ℤ};
ghost use Rattle.hw_model.specs.KindViews.{kind_of, integer_of};
ghost use Rattle.hw_model.specs.Kinds.Kind.{constant};
ghost use Rattle.ir_store.specs.OperationViews.{result_of, results_in};
ghost use Rattle.fold_laws.specs.Constants.{constant_word, integer_word, is_ones};
ghost use Rattle.body_edits.specs.Readable.{IsWidth, MayBeWord};
ghost use Rattle.body_edits.specs.Tests.{test_of};

use bits_core::Bits;
use hw_model::integer_values::op_value;
use hw_model::kinds::{Integer, OpKind};
use hw_model::types::Ty;
use ir_store::operation::{NewResult, NewResultList};

/// A test of the word of a constant.
#[derive(Clone, Copy)]
pub enum Test {
    /// All bits are 0.
    Zero,
    /// The number is 1.
    One,
    /// All bits are 1.
    Ones,
    /// As an amount it shifts all bits of as wide a word out.
    ShiftsOut,
    /// It is true, as a word of one bit.
    True,
    /// It is false, as a word of one bit.
    False,
}

impl Test {
    /// Whether a word meets the test.
    pub fn holds(self, word: &Bits) -> bool
        ensures { result ≡ test_of self word.now }
    {
        match self {
            Test::Zero => word.value() == 0,
            Test::One => word.value() == 1,
            Test::Ones => is_ones(word),
            Test::ShiftsOut => u128::from(word.width()) <= word.value(),
            Test::True => *word == Bits::from(true),
            Test::False => *word == Bits::from(false),
        }
    }
}

/// Whether all bits of a word are 1.
fn is_ones(word: &Bits) -> bool
    ensures { result ≡ is_ones word.now }
{
    word.value() == greatest(word.width())
}

/// The greatest number of so many bits.
fn greatest(width: u32) -> u128
    requires least { 1 ≤ width }
    requires most { width ≤ 128 }
    ensures { result ≡ 2 ^ width - 1 }
{
    u128::MAX >> (128 - width)
}

/// The word of an operation's result, where the operation is an `hw.constant` of an integer type.
pub fn word_of(kind: &OpKind, results: &NewResultList) -> Option<Bits>
    requires { MayBeWord (kind_of kind.now) (option_map (λ r. r.type) (slice_get (results_in results.now) 0)) }
    ensures { result ≡ constant_word (kind_of kind.now) (option_map (λ r. r.type) (slice_get (results_in results.now) 0)) }
{
    match kind {
        OpKind::Constant(value) => integer_word(*value, results.as_slice().first()),
        _ => None,
    }
}

/// The bits of an integer of the type of a result, where that is an integer's.
fn integer_word(value: Integer, of: Option<&NewResult>) -> Option<Bits>
    requires { MayBeWord (constant (integer_of value)) (option_map (λ r. (result_of r.now).type) of) }
    ensures { result ≡ integer_word (integer_of value) (option_map (λ r. (result_of r.now).type) of.entry) }
{
    match of {
        Some(of) => match &of.ty {
            Ty::Int(width) => Some(word(value, *width)),
            Ty::Clock | Ty::Array(..) | Ty::Struct(_) => None,
        },
        None => None,
    }
}

/// The bits of an integer.
fn word(value: Integer, width: u32) -> Bits
    requires { IsWidth width }
    ensures { result ≡ bits_of_ℤ width (integer_of value) }
{
    op_value(&OpKind::Constant(value), width, &[])
}
