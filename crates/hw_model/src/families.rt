//! The families of operations, and the opcode of each.
ghost use Rattle.std.specs.Prelude.{◌≡◌, option_map};
ghost use Rattle.hw_model.specs.Design.{takes_enable};
ghost use Rattle.hw_model.specs.KindViews.{kind_of};
ghost use Rattle.hw_model.specs.FamilyViews.{family_of, register_op_of};
ghost use Rattle.hw_model.specs.Opcodes.{opcode_of, kind_named_by};

use crate::kinds::{Instance, Integer, LiteralList, OpKind, Predicate, Reset};
use io_edge::byte_text::Text;
use opcode::listed::Listed;

/// An operation of any number of operands of one type (CIRCT, Comb dialect).
#[derive(Clone, Copy)]
pub enum Variadic {
    /// `comb.add`
    Add,
    /// `comb.mul`
    Mul,
    /// `comb.and`
    And,
    /// `comb.or`
    Or,
    /// `comb.xor`
    Xor,
}

/// A quotient or a remainder (CIRCT, Comb dialect).
#[derive(Clone, Copy)]
pub enum Division {
    /// `comb.divu`
    Divu,
    /// `comb.modu`
    Modu,
    /// `comb.divs`
    Divs,
    /// `comb.mods`
    Mods,
}

/// A shift (CIRCT, Comb dialect).
#[derive(Clone, Copy)]
pub enum Shift {
    /// `comb.shl`
    Shl,
    /// `comb.shru`
    Shru,
    /// `comb.shrs`
    Shrs,
}

/// An operation on arrays (CIRCT, HW dialect).
#[derive(Clone, Copy)]
pub enum ArrayOp {
    /// `hw.array_create`
    Create,
    /// `hw.array_concat`
    Concat,
    /// `hw.array_get`
    Get,
    /// `hw.array_slice`
    Slice,
    /// `hw.array_inject`
    Inject,
}

/// An operation on structs (CIRCT, HW dialect).
#[derive(Clone, Copy)]
pub enum StructOp<'k> {
    /// `hw.struct_create`
    Create,
    /// `hw.struct_extract`, with the name of its field
    Extract(&'k Text),
    /// `hw.struct_inject`, with the name of its field
    Inject(&'k Text),
    /// `hw.struct_explode`
    Explode,
}

/// A register (CIRCT, Seq dialect).
#[derive(Clone, Copy)]
pub enum RegisterOp {
    /// `seq.compreg`
    CompReg,
    /// `seq.compreg.ce`
    CompRegCe,
    /// `seq.firreg`
    FirReg,
}

impl RegisterOp {
    /// Whether the register has an enable.
    pub fn takes_enable(self) -> bool
        ensures { result ≡ takes_enable (register_op_of self) }
    {
        match self {
            RegisterOp::CompReg | RegisterOp::FirReg => false,
            RegisterOp::CompRegCe => true,
        }
    }
}

/// The family of an operation: what its types, operands and text have in common with those of others, with what its
/// kind says besides.
#[derive(Clone, Copy)]
pub enum Family<'k> {
    /// Any number of operands of one type.
    Variadic(Variadic),
    /// `comb.sub`
    Sub,
    /// A quotient or a remainder.
    Division(Division),
    /// A shift.
    Shift(Shift),
    /// `comb.icmp`, with its predicate
    Icmp(Predicate),
    /// `comb.parity`
    Parity,
    /// `comb.extract`, with the lowest bit that it takes
    Extract(u32),
    /// `comb.concat`
    Concat,
    /// `comb.replicate`
    Replicate,
    /// `comb.mux`
    Mux,
    /// `hw.constant`, with its value
    Constant(Integer),
    /// `hw.aggregate_constant`, with its parts
    AggregateConstant(&'k LiteralList),
    /// An operation on arrays.
    Array(ArrayOp),
    /// An operation on structs.
    Struct(StructOp<'k>),
    /// `hw.bitcast`
    Bitcast,
    /// `hw.wire`
    Wire,
    /// `hw.instance`
    Instance(&'k Instance),
    /// `hw.output`
    Output,
    /// A register, with its reset.
    Register(RegisterOp, Reset),
    /// `seq.firreg` with `reset async`
    AsyncFirReg,
}

impl OpKind {
    /// The family of an operation of this kind. It says all that the kind says.
    #[inline(always)]
    pub fn family(&self) -> Family<'_>
        ensures { family_of result ≡ kind_of self.now }
    {
        match self {
            OpKind::Add => Family::Variadic(Variadic::Add),
            OpKind::Mul => Family::Variadic(Variadic::Mul),
            OpKind::And => Family::Variadic(Variadic::And),
            OpKind::Or => Family::Variadic(Variadic::Or),
            OpKind::Xor => Family::Variadic(Variadic::Xor),
            OpKind::Sub => Family::Sub,
            OpKind::Divu => Family::Division(Division::Divu),
            OpKind::Modu => Family::Division(Division::Modu),
            OpKind::Divs => Family::Division(Division::Divs),
            OpKind::Mods => Family::Division(Division::Mods),
            OpKind::Shl => Family::Shift(Shift::Shl),
            OpKind::Shru => Family::Shift(Shift::Shru),
            OpKind::Shrs => Family::Shift(Shift::Shrs),
            OpKind::Icmp(predicate) => Family::Icmp(*predicate),
            OpKind::Parity => Family::Parity,
            OpKind::Extract(low) => Family::Extract(*low),
            OpKind::Concat => Family::Concat,
            OpKind::Replicate => Family::Replicate,
            OpKind::Mux => Family::Mux,
            OpKind::Constant(value) => Family::Constant(*value),
            OpKind::AggregateConstant(list) => Family::AggregateConstant(list),
            OpKind::ArrayCreate => Family::Array(ArrayOp::Create),
            OpKind::ArrayConcat => Family::Array(ArrayOp::Concat),
            OpKind::ArrayGet => Family::Array(ArrayOp::Get),
            OpKind::ArraySlice => Family::Array(ArrayOp::Slice),
            OpKind::ArrayInject => Family::Array(ArrayOp::Inject),
            OpKind::StructCreate => Family::Struct(StructOp::Create),
            OpKind::StructExtract(name) => Family::Struct(StructOp::Extract(name)),
            OpKind::StructInject(name) => Family::Struct(StructOp::Inject(name)),
            OpKind::StructExplode => Family::Struct(StructOp::Explode),
            OpKind::Bitcast => Family::Bitcast,
            OpKind::Wire => Family::Wire,
            OpKind::Instance(instance) => Family::Instance(instance),
            OpKind::Output => Family::Output,
            OpKind::CompReg(reset) => Family::Register(RegisterOp::CompReg, *reset),
            OpKind::CompRegCe(reset) => Family::Register(RegisterOp::CompRegCe, *reset),
            OpKind::FirReg(reset) => Family::Register(RegisterOp::FirReg, *reset),
            OpKind::AsyncFirReg => Family::AsyncFirReg,
        }
    }

    /// The opcode of an operation of this kind.
    pub fn listed(&self) -> Listed
        ensures { result ≡ opcode_of (kind_of self.now) }
    {
        match self {
            OpKind::Add => Listed::CombAdd,
            OpKind::Mul => Listed::CombMul,
            OpKind::And => Listed::CombAnd,
            OpKind::Or => Listed::CombOr,
            OpKind::Xor => Listed::CombXor,
            OpKind::Sub => Listed::CombSub,
            OpKind::Divu => Listed::CombDivu,
            OpKind::Modu => Listed::CombModu,
            OpKind::Divs => Listed::CombDivs,
            OpKind::Mods => Listed::CombMods,
            OpKind::Shl => Listed::CombShl,
            OpKind::Shru => Listed::CombShru,
            OpKind::Shrs => Listed::CombShrs,
            OpKind::Icmp(_) => Listed::CombIcmp,
            OpKind::Parity => Listed::CombParity,
            OpKind::Extract(_) => Listed::CombExtract,
            OpKind::Concat => Listed::CombConcat,
            OpKind::Replicate => Listed::CombReplicate,
            OpKind::Mux => Listed::CombMux,
            OpKind::Constant(_) => Listed::HwConstant,
            OpKind::AggregateConstant(_) => Listed::HwAggregateConstant,
            OpKind::ArrayCreate => Listed::HwArrayCreate,
            OpKind::ArrayConcat => Listed::HwArrayConcat,
            OpKind::ArrayGet => Listed::HwArrayGet,
            OpKind::ArraySlice => Listed::HwArraySlice,
            OpKind::ArrayInject => Listed::HwArrayInject,
            OpKind::StructCreate => Listed::HwStructCreate,
            OpKind::StructExtract(_) => Listed::HwStructExtract,
            OpKind::StructInject(_) => Listed::HwStructInject,
            OpKind::StructExplode => Listed::HwStructExplode,
            OpKind::Bitcast => Listed::HwBitcast,
            OpKind::Wire => Listed::HwWire,
            OpKind::Instance(_) => Listed::HwInstance,
            OpKind::Output => Listed::HwOutput,
            OpKind::CompReg(_) => Listed::SeqCompreg,
            OpKind::CompRegCe(_) => Listed::SeqCompregCe,
            OpKind::FirReg(_) | OpKind::AsyncFirReg => Listed::SeqFirreg,
        }
    }

    /// The kind that an opcode alone tells. None where operations of the opcode say more than their operands and types, and
    /// for `hw.module`.
    pub fn of_listed(listed: Listed) -> Option<OpKind>
        ensures { option_map kind_of result ≡ kind_named_by listed }
    {
        Some(match listed {
            Listed::CombAdd => OpKind::Add,
            Listed::CombMul => OpKind::Mul,
            Listed::CombAnd => OpKind::And,
            Listed::CombOr => OpKind::Or,
            Listed::CombXor => OpKind::Xor,
            Listed::CombSub => OpKind::Sub,
            Listed::CombDivu => OpKind::Divu,
            Listed::CombModu => OpKind::Modu,
            Listed::CombDivs => OpKind::Divs,
            Listed::CombMods => OpKind::Mods,
            Listed::CombShl => OpKind::Shl,
            Listed::CombShru => OpKind::Shru,
            Listed::CombShrs => OpKind::Shrs,
            Listed::CombParity => OpKind::Parity,
            Listed::CombConcat => OpKind::Concat,
            Listed::CombReplicate => OpKind::Replicate,
            Listed::CombMux => OpKind::Mux,
            Listed::HwArrayCreate => OpKind::ArrayCreate,
            Listed::HwArrayConcat => OpKind::ArrayConcat,
            Listed::HwArrayGet => OpKind::ArrayGet,
            Listed::HwArraySlice => OpKind::ArraySlice,
            Listed::HwArrayInject => OpKind::ArrayInject,
            Listed::HwStructCreate => OpKind::StructCreate,
            Listed::HwStructExplode => OpKind::StructExplode,
            Listed::HwBitcast => OpKind::Bitcast,
            Listed::HwWire => OpKind::Wire,
            Listed::HwOutput => OpKind::Output,
            _ => return None,
        })
    }
}
