//! Operations that only compute their results.
ghost use Rattle.std.specs.Prelude.{◌≡◌};
ghost use Rattle.fold_laws.specs.Unused.{is_pure};
ghost use Rattle.hw_model.specs.KindViews.{kind_of};

use hw_model::families::Family;
use hw_model::kinds::OpKind;

/// Whether an operation only computes its results: all but registers, wires, instances and outputs do.
pub fn is_pure(kind: &OpKind) -> bool
    ensures { result ≡ is_pure (kind_of kind.now) }
{
    match kind.family() {
        Family::Wire
        | Family::Instance(_)
        | Family::Output
        | Family::Register(..)
        | Family::AsyncFirReg => false,
        _ => true,
    }
}
