//! What the operations of a body are in Verilog, and the names that are wanted for them.
ghost use Rattle.std.specs.Prelude.{◌≡◌, slice_get, IfOk};
ghost use Rattle.hw_model.specs.KindViews.{kind_of, instance_of};
ghost use Rattle.export_verilog.specs.Identifiers.{or_name, name_or_nothing, result_name_hint};
ghost use Rattle.export_verilog.specs.Held.{emission_by, own_name_hint, op_seen};
ghost use Rattle.export_verilog.specs.EmissionViews.{emission_seen};

use hw_model::kinds::{Instance, OpKind};
use io_edge::byte_text::Text;
use ir_store::body::Op;
use std::alloc::{AllocError, Global};
use verilog_expr::hint_in;

/// How an operation is emitted in Verilog.
#[derive(Clone, Copy)]
pub enum Emission {
    /// Nothing by itself: the module's output, or a value that is written where it is used.
    Inline,
    /// A wire with an assignment.
    Wire,
    /// A variable with an `always` block.
    Reg,
    /// An instance, with a wire for each result.
    Instance,
}

/// What an operation of a kind is, whose first result has a wire or not.
pub fn emission_of(kind: &OpKind, has_wire: bool) -> Emission
    ensures { emission_seen result ≡ emission_by has_wire (kind_of kind.now) }
{
    match kind {
        OpKind::CompReg(_) | OpKind::CompRegCe(_) | OpKind::FirReg(_) | OpKind::AsyncFirReg =>
            Emission::Reg,
        OpKind::Instance(_) => Emission::Instance,
        OpKind::Output => Emission::Inline,
        OpKind::Wire => Emission::Wire,
        _ => {
            if has_wire {
                Emission::Wire
            } else {
                Emission::Inline
            }
        }
    }
}

// A name, or another one in place of an empty one.
fn or_name<'n>(name: &'n [u8], other: &'n [u8]) -> &'n [u8]
    ensures { result.now ≡ or_name name.now other.now }
{
    match name {
        [] => other,
        [_, ..] => name,
    }
}

/// The name that is wanted for the value of an operation that is no instance.
pub fn own_name_hint<'b>(op: &Op<'b>) -> &'b [u8]
    ensures { result.now ≡ own_name_hint (op_seen op.now) }
{
    match op.kind {
        OpKind::CompReg(_) | OpKind::CompRegCe(_) | OpKind::FirReg(_) | OpKind::AsyncFirReg => {
            or_name(op.name.as_bytes(), b"_reg")
        }
        OpKind::Wire => or_name(op.name.as_bytes(), b"_wire"),
        _ => or_name(hint_in(&op.dictionary.entries), b"_GEN"),
    }
}

// The name of an output of an instance, or none.
fn output_name(instance: &Instance, number: usize) -> &[u8]
    ensures { result.now ≡ name_or_nothing (slice_get (instance_of instance.now).outputs number) }
{
    match instance.outputs.get(number) {
        Some(name) => name.as_bytes(),
        None => &[],
    }
}

/// The name that is wanted for a result of an instance: `_INSTANCE_PORT`.
#[tactic(auto, using(std::proofs::Common::append_assoc))]
pub fn result_name_hint(
    alloc: Global,
    instance: &Instance,
    number: usize,
) -> Result<Text, AllocError>
    ensures { IfOk result (λ name_hint. name_hint ≡ result_name_hint (instance_of instance.now) number) }
{
    let mut name_hint = Text::new(alloc);
    name_hint.push_bytes(b"_")?;
    name_hint.push_bytes(instance.name.as_bytes())?;
    name_hint.push_bytes(b"_")?;
    name_hint.push_bytes(output_name(instance, number))?;
    Ok(name_hint)
}
