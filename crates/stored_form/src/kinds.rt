//! Whether what a kind says besides operands and types can be written.
ghost use Rattle.std.specs.Prelude.{◌↔◌, IsTrue};
ghost use Rattle.hw_model.specs.FamilyViews.{family_of};
ghost use Rattle.hw_model.specs.KindViews.{instance_of};
ghost use Rattle.stored_form.specs.Kinds.{IsWritten, IsWrittenInstance};

use crate::bytes::{are_bytes, are_texts, is_count, may_be_bytes};
use crate::literals::{are_literals, is_integer};
use hw_model::families::{Family, StructOp};
use hw_model::kinds::Instance;
use mlir_syntax::type_text::MOST_OPEN;

/// Whether what a kind says besides operands and types can be written.
pub(crate) fn is_written(family: Family<'_>) -> bool
    ensures { IsTrue result ↔ IsWritten (family_of family.entry) }
{
    match family {
        Family::Extract(low) => {
            is_count(low);
            true
        }
        Family::Constant(value) => is_integer(value),
        Family::AggregateConstant(list) => are_literals(&list.literals, MOST_OPEN - 1),
        Family::Struct(StructOp::Extract(name) | StructOp::Inject(name)) => {
            are_bytes(name.as_bytes());
            true
        }
        Family::Instance(instance) => {
            names_are_bytes(instance);
            true
        }
        _ => true,
    }
}

/// Does nothing. Its clause says that the names of an instance are bytes.
fn names_are_bytes(instance: &Instance)
    ensures { IsWrittenInstance (instance_of instance.now) }
{
    are_bytes(instance.name.as_bytes());
    may_be_bytes(&instance.inner_symbol);
    are_bytes(instance.symbol.as_bytes());
    are_texts(&instance.inputs);
    are_texts(&instance.outputs);
}
