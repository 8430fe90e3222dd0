//! What an operation of a kind is to the gates of its module.
ghost use Rattle.std.specs.Prelude.{◌≡◌, is_some, ◌||◌};
ghost use Rattle.hw_model.specs.Design.{register_form, is_output_kind};
ghost use Rattle.hw_model.specs.KindViews.{kind_of};

use hw_model::kinds::OpKind;

/// Whether an operation of this kind may stand anywhere: a register has its content, and an output no result.
pub fn stands_anywhere(kind: &OpKind) -> bool
    ensures { result ≡ is_some (register_form (kind_of kind.now)) || is_output_kind (kind_of kind.now) }
{
    is_register(kind) || is_output(kind)
}

/// Whether an operation of this kind is a register.
pub fn is_register(kind: &OpKind) -> bool
    ensures { result ≡ is_some (register_form (kind_of kind.now)) }
{
    matches!(
        kind,
        OpKind::CompReg(_) | OpKind::CompRegCe(_) | OpKind::FirReg(_) | OpKind::AsyncFirReg
    )
}

/// Whether an operation of this kind gives the outputs of its module.
pub fn is_output(kind: &OpKind) -> bool
    ensures { result ≡ is_output_kind (kind_of kind.now) }
{
    matches!(kind, OpKind::Output)
}
