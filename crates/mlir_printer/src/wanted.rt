//! Names that values want.
ghost use Rattle.std.specs.Prelude.{◌≡◌, IfOk};
ghost use Rattle.hw_model.specs.KindViews.{integer_of, kind_of};
ghost use Rattle.ir_store.specs.Bodies.{read_parts};
ghost use Rattle.printing_laws.specs.NameHints.{constant_name, instance_name, is_pack, name_count};

use crate::numbers::{
    is_one, is_shown_as_truth, push_count, push_integer, shown_integer, truth_text,
};
use hw_model::kinds::{Integer, OpKind};
use hw_model::types::Ty;
use io_edge::byte_text::Text;
use ir_store::body::Op;
use std::alloc::{AllocError, Global};

/// What a constant of an integer type wants: `cV_iW`, or `true` and `false`.
#[tactic(auto, unfolding(printing_laws::specs::NameHints::constant_name, printing_laws::specs::Numbers::count_bytes))]
pub fn constant_name(alloc: Global, width: u32, value: Integer) -> Result<Text, AllocError>
    ensures { IfOk result (λ name. name ≡ constant_name width (integer_of value)) }
{
    let ty = Ty::Int(width);
    if is_shown_as_truth(&ty, value) {
        return Text::of(alloc, truth_text(is_one(value)));
    }
    let mut name = Text::new(alloc);
    name.push_bytes(b"c")?;
    push_integer(&mut name, shown_integer(&ty, value))?;
    name.push_bytes(b"_i")?;
    push_count(&mut name, width)?;
    Ok(name)
}

/// What a result of an instance wants: `INSTANCE.PORT`.
#[tactic(auto, unfolding(printing_laws::specs::NameHints::instance_name))]
pub fn instance_name(alloc: Global, instance: &[u8], port: &[u8]) -> Result<Text, AllocError>
    ensures { IfOk result (λ name. name ≡ instance_name instance.now port.now) }
{
    let mut name = Text::of(alloc, instance)?;
    name.push(b'.')?;
    name.push_bytes(port)?;
    Ok(name)
}

/// How many names the results of an operation take, a pack one.
#[tactic(auto, unfolding(printing_laws::specs::NameHints::name_hints_of))]
pub fn name_count(op: &Op<'_>) -> usize
    ensures { result ≡ name_count (read_parts op.now) }
{
    match op.kind {
        OpKind::StructExplode => op.results.len().min(1),
        OpKind::Instance(instance) => instance.outputs.len(),
        OpKind::Output => 0,
        _ => 1,
    }
}

/// Whether so many results of an operation are a pack.
pub fn is_pack(kind: &OpKind, results: usize) -> bool
    ensures { result ≡ is_pack (kind_of kind.now) results }
{
    match kind {
        OpKind::StructExplode => 1 < results,
        _ => false,
    }
}
