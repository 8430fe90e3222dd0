//! The operations that stand for a register once it is lowered, as yet without operands.
ghost use Rattle.std.specs.Prelude.{◌≡◌, [], ◌∷◌, true, IfOk};
ghost use Rattle.hw_model.specs.KindViews.{kind_of};
ghost use Rattle.ir_store.specs.Bodies.{read_parts};
ghost use Rattle.ir_store.specs.OperationViews.{new_parts};
ghost use Rattle.seq_lower.specs.Lowered.{plain_kind};
ghost use Rattle.seq_lower.specs.NewOps.{is_clocked_kind, mux_parts, plain_parts, choice_values};

use hw_model::kinds::{OpKind, Reset};
use io_edge::byte_text::Text;
use ir_store::body::Op;
use ir_store::dictionary::Dictionary;
use ir_store::operation::{NewOp, Value};
use smallvec::SmallVec;
use std::alloc::{AllocError, Global};

/// The operands of a `comb.mux`.
#[derive(Clone, Copy)]
pub struct Choice {
    /// What decides.
    pub condition: Value,
    /// The value where it is 1.
    pub high: Value,
    /// The value where it is 0.
    pub low: Value,
}

impl Choice {
    /// The operands in order.
    pub fn operands(self, alloc: Global) -> SmallVec<Value, 4, Global>
        ensures { result.items ≡ choice_values self }
    {
        let values = [self.condition, self.high, self.low, Value::Undefined];
        SmallVec::from_buf_and_len(alloc, values, 3)
    }
}

/// The operands of a register without enable and reset.
pub fn plain_operands(alloc: Global, next: Value, clock: Value) -> SmallVec<Value, 4, Global>
    ensures { result.items ≡ next ∷ clock ∷ [] }
{
    let values = [next, clock, Value::Undefined, Value::Undefined];
    SmallVec::from_buf_and_len(alloc, values, 2)
}

/// A `comb.mux` of the type of a register, at its location in the source. The error comes only when out of memory.
pub fn new_mux(alloc: Global, register: &Op<'_>) -> Result<NewOp, AllocError>
    ensures parts { IfOk result (λ new. new_parts new ≡ mux_parts (read_parts register.now)) }
{
    Ok(NewOp {
        kind: OpKind::Mux,
        operands: SmallVec::new(alloc),
        types: register.types.try_clone(alloc)?,
        results: register.results.try_clone(alloc)?,
        named: 1,
        name: Text::new(alloc),
        dictionary: Dictionary::new(alloc),
        bin: false,
        location: register.location,
    })
}

/// A register without enable and reset that is otherwise as another one. The error comes only when out of memory.
pub fn new_register(alloc: Global, register: &Op<'_>) -> Result<NewOp, AllocError>
    requires { is_clocked_kind (kind_of register.now.kind.now) ≡ true }
    ensures parts { IfOk result (λ new. new_parts new ≡ plain_parts (read_parts register.now)) }
{
    Ok(NewOp {
        kind: plain_kind(register.kind),
        operands: SmallVec::new(alloc),
        types: register.types.try_clone(alloc)?,
        results: register.results.try_clone(alloc)?,
        named: register.named,
        name: register.name.try_clone(alloc)?,
        dictionary: register.dictionary.try_clone(alloc)?,
        bin: register.bin,
        location: register.location,
    })
}

/// The kind of a register without enable and reset.
fn plain_kind(kind: &OpKind) -> OpKind
    requires { is_clocked_kind (kind_of kind.now) ≡ true }
    ensures { kind_of result ≡ plain_kind (kind_of kind.now) }
{
    match kind {
        OpKind::CompReg(_) | OpKind::CompRegCe(_) => OpKind::CompReg(Reset::No),
        OpKind::FirReg(_) => OpKind::FirReg(Reset::No),
        _ => unreachable!(),
    }
}
