//! Where modules are found whose bodies are put into others.
ghost use Rattle.std.specs.Prelude.{◌≡◌, Option, option_map};
ghost use Rattle.hw_model.specs.Types.{Name};
ghost use Rattle.hw_model.specs.KindViews.{kind_of};
ghost use Rattle.hw_model.specs.Design as model;
ghost use Rattle.ir_store.specs.Designs.{design_of};
ghost use Rattle.inline_pass.specs.Callees.{callee_seen};
ghost use Rattle.inline_pass.specs.Flattening.{private_found, by_kind};

use hw_model::kinds::OpKind;
use ir_store::body::Body;
use ir_store::design::{Design, Module};

/// A module whose body is put into others.
#[derive(Clone, Copy)]
pub struct Callee<'c> {
    /// The module; its own body does not count.
    pub header: &'c Module,
    /// The body that is put.
    pub body: &'c Body,
}

/// Where the modules are found whose bodies are put into others.
pub trait Callees {
    // The module of a symbol.
    ghost look: { Self → Name → Option model.Module };

    /// The module of a symbol, if its body is put where it is instanced.
    fn callee<'c>(&'c self, symbol: &[u8]) -> Option<Callee<'c>>
        ensures { option_map callee_seen result ≡ look self.now symbol.now };
}

impl Callees for Design {
    ghost look = { λ d. private_found (design_of d) };

    fn callee<'c>(&'c self, symbol: &[u8]) -> Option<Callee<'c>> {
        let header = self.module(self.find(symbol)?);
        if header.private {
            Some(Callee {
                header,
                body: &header.body,
            })
        } else {
            None
        }
    }
}

/// The callee of which an operation of a kind is an instance.
pub(crate) fn callee_of<'c, C: Callees>(callees: &'c C, kind: &OpKind) -> Option<Callee<'c>>
    ensures { option_map callee_seen result ≡ by_kind (C.look callees.now) (kind_of kind.now) }
{
    let OpKind::Instance(instance) = kind else {
        return None;
    };
    callees.callee(instance.symbol.as_bytes())
}
