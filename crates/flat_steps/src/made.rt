//! What an operation makes of words.
ghost use Rattle.std.specs.Prelude.{◌≡◌, []};
ghost use Rattle.hw_model.specs.Types.HwType.{int};
ghost use Rattle.hw_model.specs.KindViews.{kind_of};
ghost use Rattle.hw_model.specs.Value.{op_value};
ghost use Rattle.flat_steps.specs.Tables.{CanMake};

use bits_core::Bits;
use hw_model::families::Family;
use hw_model::integer_values::family_value;
use hw_model::kinds::OpKind;

/// The first result of an operation that is no register, of `width` bits, from the words of its operands.
pub fn made(kind: &OpKind, width: u32, words: &[Bits]) -> Bits
    requires { CanMake (kind_of kind.now) width words.now }
    ensures { result ≡ op_value (kind_of kind.now) [] (int width) 0 words.now }
{
    match kind.family() {
        Family::Bitcast | Family::Wire => words[0],
        family => family_value(family, width, words),
    }
}
