//! The opcodes of the operations that this project reads, by their names.
ghost use Rattle.std.specs.Prelude.{◌≡◌, ◌≢◌, IfSome, IfNone};
ghost use Rattle.opcode.specs.Listed.{name_of_listed, first_named};
ghost use Rattle.opcode.specs.declared.listed.Listed.{Listed};

/// An operation of the dialects hw, comb and seq that this project reads, or the module itself
/// (CIRCT's operation references of the three dialects).
#[derive(Clone, Copy, Debug, PartialEq, Eq)]
pub enum Listed {
    /// `hw.module`
    HwModule,
    /// `comb.add`
    CombAdd,
    /// `comb.mul`
    CombMul,
    /// `comb.and`
    CombAnd,
    /// `comb.or`
    CombOr,
    /// `comb.xor`
    CombXor,
    /// `comb.sub`
    CombSub,
    /// `comb.divu`
    CombDivu,
    /// `comb.modu`
    CombModu,
    /// `comb.divs`
    CombDivs,
    /// `comb.mods`
    CombMods,
    /// `comb.shl`
    CombShl,
    /// `comb.shru`
    CombShru,
    /// `comb.shrs`
    CombShrs,
    /// `comb.icmp`
    CombIcmp,
    /// `comb.parity`
    CombParity,
    /// `comb.extract`
    CombExtract,
    /// `comb.concat`
    CombConcat,
    /// `comb.replicate`
    CombReplicate,
    /// `comb.mux`
    CombMux,
    /// `hw.constant`
    HwConstant,
    /// `hw.aggregate_constant`
    HwAggregateConstant,
    /// `hw.array_create`
    HwArrayCreate,
    /// `hw.array_concat`
    HwArrayConcat,
    /// `hw.array_get`
    HwArrayGet,
    /// `hw.array_slice`
    HwArraySlice,
    /// `hw.array_inject`
    HwArrayInject,
    /// `hw.struct_create`
    HwStructCreate,
    /// `hw.struct_extract`
    HwStructExtract,
    /// `hw.struct_inject`
    HwStructInject,
    /// `hw.struct_explode`
    HwStructExplode,
    /// `hw.bitcast`
    HwBitcast,
    /// `hw.wire`
    HwWire,
    /// `hw.instance`
    HwInstance,
    /// `hw.output`
    HwOutput,
    /// `seq.compreg`
    SeqCompreg,
    /// `seq.compreg.ce`
    SeqCompregCe,
    /// `seq.firreg`
    SeqFirreg,
}

// Every listed operation, those that designs have most of first.
const LISTED: [Listed; 38] = [
    Listed::HwModule,
    Listed::CombAdd,
    Listed::CombMul,
    Listed::CombAnd,
    Listed::CombOr,
    Listed::CombXor,
    Listed::CombSub,
    Listed::CombDivu,
    Listed::CombModu,
    Listed::CombDivs,
    Listed::CombMods,
    Listed::CombShl,
    Listed::CombShru,
    Listed::CombShrs,
    Listed::CombIcmp,
    Listed::CombParity,
    Listed::CombExtract,
    Listed::CombConcat,
    Listed::CombReplicate,
    Listed::CombMux,
    Listed::HwConstant,
    Listed::HwAggregateConstant,
    Listed::HwArrayCreate,
    Listed::HwArrayConcat,
    Listed::HwArrayGet,
    Listed::HwArraySlice,
    Listed::HwArrayInject,
    Listed::HwStructCreate,
    Listed::HwStructExtract,
    Listed::HwStructInject,
    Listed::HwStructExplode,
    Listed::HwBitcast,
    Listed::HwWire,
    Listed::HwInstance,
    Listed::HwOutput,
    Listed::SeqCompreg,
    Listed::SeqCompregCe,
    Listed::SeqFirreg,
];

impl Listed {
    /// The operation's name, its dialect included.
    #[tactic(auto, unfolding(crate::specs::Listed::name_of_listed))]
    pub fn name(self) -> &'static [u8]
        ensures { result.now ≡ name_of_listed self }
    {
        match self {
            Listed::HwModule => b"hw.module",
            Listed::CombAdd => b"comb.add",
            Listed::CombMul => b"comb.mul",
            Listed::CombAnd => b"comb.and",
            Listed::CombOr => b"comb.or",
            Listed::CombXor => b"comb.xor",
            Listed::CombSub => b"comb.sub",
            Listed::CombDivu => b"comb.divu",
            Listed::CombModu => b"comb.modu",
            Listed::CombDivs => b"comb.divs",
            Listed::CombMods => b"comb.mods",
            Listed::CombShl => b"comb.shl",
            Listed::CombShru => b"comb.shru",
            Listed::CombShrs => b"comb.shrs",
            Listed::CombIcmp => b"comb.icmp",
            Listed::CombParity => b"comb.parity",
            Listed::CombExtract => b"comb.extract",
            Listed::CombConcat => b"comb.concat",
            Listed::CombReplicate => b"comb.replicate",
            Listed::CombMux => b"comb.mux",
            Listed::HwConstant => b"hw.constant",
            Listed::HwAggregateConstant => b"hw.aggregate_constant",
            Listed::HwArrayCreate => b"hw.array_create",
            Listed::HwArrayConcat => b"hw.array_concat",
            Listed::HwArrayGet => b"hw.array_get",
            Listed::HwArraySlice => b"hw.array_slice",
            Listed::HwArrayInject => b"hw.array_inject",
            Listed::HwStructCreate => b"hw.struct_create",
            Listed::HwStructExtract => b"hw.struct_extract",
            Listed::HwStructInject => b"hw.struct_inject",
            Listed::HwStructExplode => b"hw.struct_explode",
            Listed::HwBitcast => b"hw.bitcast",
            Listed::HwWire => b"hw.wire",
            Listed::HwInstance => b"hw.instance",
            Listed::HwOutput => b"hw.output",
            Listed::SeqCompreg => b"seq.compreg",
            Listed::SeqCompregCe => b"seq.compreg.ce",
            Listed::SeqFirreg => b"seq.firreg",
        }
    }

    /// The listed operation of this name; None exactly where no listed operation has it.
    pub fn of(name: &[u8]) -> Option<Listed>
        ensures some { IfSome result (λ listed. name_of_listed listed ≡ name.now) }
        ensures none { IfNone result ((listed : Listed) → name_of_listed listed ≢ name.now) }
    {
        named_in(name, &LISTED)
    }
}

// The first of these operations that has this name.
fn named_in(name: &[u8], table: &[Listed]) -> Option<Listed>
    ensures { result ≡ first_named name.now table.now }
{
    for listed in table {
        if listed.name() == name {
            return Some(*listed);
        }
    }
    None
}
