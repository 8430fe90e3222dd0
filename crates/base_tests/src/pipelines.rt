use pass_pipeline::pass::Pass;
use pass_pipeline::pass::Pass::{
    Canonicalize, Cse, HwFlattenModules, HwLowerAggregates, SeqLowerRegs, SymbolDce,
};
use pass_pipeline::pipeline::PipelineFail::{BadText, UnknownPass, WrongPlace};
use pass_pipeline::pipeline::{PipelineError, PipelineFail, read_pipeline};
use std::alloc::{AllocError, Global};
use std::test::Fail;

const ALL: [Pass; 6] = [
    Canonicalize,
    Cse,
    SeqLowerRegs,
    HwLowerAggregates,
    HwFlattenModules,
    SymbolDce,
];

/// A text, and the passes that it reads as.
struct Read {
    text: &'static str,
    passes: &'static [Pass],
}

const READ: [Read; 11] = [
    Read {
        text: "builtin.module()",
        passes: &[],
    },
    Read {
        text: " builtin.module( hw.module( cse , canonicalize ) )",
        passes: &[Cse, Canonicalize],
    },
    Read {
        text: "builtin.module(cse)",
        passes: &[Cse],
    },
    Read {
        text: "builtin.module(cse,cse)",
        passes: &[Cse, Cse],
    },
    Read {
        text: "builtin.module(canonicalize,cse,seq-lower-regs)",
        passes: &[Canonicalize, Cse, SeqLowerRegs],
    },
    Read {
        text: "builtin.module(hw-lower-aggregates,hw-flatten-modules,symbol-dce)",
        passes: &[HwLowerAggregates, HwFlattenModules, SymbolDce],
    },
    Read {
        text: "builtin.module(hw.module())",
        passes: &[],
    },
    Read {
        text: "builtin.module(hw.module(canonicalize,cse,seq-lower-regs))",
        passes: &[Canonicalize, Cse, SeqLowerRegs],
    },
    Read {
        text: "builtin.module(symbol-dce,hw.module(cse),hw.module(canonicalize),cse)",
        passes: &[SymbolDce, Cse, Canonicalize, Cse],
    },
    Read {
        text: "builtin.module(hw.module(),cse)",
        passes: &[Cse],
    },
    Read {
        text: "  builtin.module  (  cse  ,  hw.module  (  )  )  ",
        passes: &[Cse],
    },
];

/// A text, and its first fault.
struct Faulty {
    text: &'static str,
    fail: PipelineFail,
}

const NAMES: [Faulty; 18] = [
    Faulty {
        text: "cse",
        fail: WrongPlace(0),
    },
    Faulty {
        text: "  symbol-dce",
        fail: WrongPlace(2),
    },
    Faulty {
        text: "hw.module()",
        fail: UnknownPass(0),
    },
    Faulty {
        text: "dce",
        fail: UnknownPass(0),
    },
    Faulty {
        text: "builtin.modul()",
        fail: UnknownPass(0),
    },
    Faulty {
        text: "builtin.modules()",
        fail: UnknownPass(0),
    },
    Faulty {
        text: "builtin.\tmodule()",
        fail: UnknownPass(0),
    },
    Faulty {
        text: "builtin.module(dce)",
        fail: UnknownPass(15),
    },
    Faulty {
        text: "builtin.module(cs)",
        fail: UnknownPass(15),
    },
    Faulty {
        text: "builtin.module(cse.)",
        fail: UnknownPass(15),
    },
    Faulty {
        text: "builtin.module(CSE)",
        fail: UnknownPass(15),
    },
    Faulty {
        text: "builtin.module(builtin.module())",
        fail: UnknownPass(15),
    },
    Faulty {
        text: "builtin.module(hw.module(hw.module()))",
        fail: UnknownPass(25),
    },
    Faulty {
        text: "builtin.module(hw.module(symbol-dce))",
        fail: WrongPlace(25),
    },
    Faulty {
        text: "builtin.module(hw.module(cse,hw-lower-aggregates))",
        fail: WrongPlace(29),
    },
    Faulty {
        text: "builtin.module(hw.module(),hw.module(hw-flatten-modules",
        fail: WrongPlace(37),
    },
    Faulty {
        text: "builtin.module(dce,,",
        fail: UnknownPass(15),
    },
    Faulty {
        text: "builtin.module(cse,_0)",
        fail: UnknownPass(19),
    },
];

const BYTES: [Faulty; 27] = [
    Faulty {
        text: "",
        fail: BadText(0),
    },
    Faulty {
        text: "   ",
        fail: BadText(3),
    },
    Faulty {
        text: "(cse)",
        fail: BadText(0),
    },
    Faulty {
        text: "\tbuiltin.module()",
        fail: BadText(0),
    },
    Faulty {
        text: "builtin.module",
        fail: BadText(14),
    },
    Faulty {
        text: "builtin.module ",
        fail: BadText(15),
    },
    Faulty {
        text: "builtin.module cse",
        fail: BadText(15),
    },
    Faulty {
        text: "builtin.module,cse",
        fail: BadText(14),
    },
    Faulty {
        text: "builtin.module(",
        fail: BadText(15),
    },
    Faulty {
        text: "builtin.module(\tcse)",
        fail: BadText(15),
    },
    Faulty {
        text: "builtin.module(é)",
        fail: BadText(15),
    },
    Faulty {
        text: "builtin.module(,cse)",
        fail: BadText(15),
    },
    Faulty {
        text: "builtin.module(cse",
        fail: BadText(18),
    },
    Faulty {
        text: "builtin.module(cse cse)",
        fail: BadText(19),
    },
    Faulty {
        text: "builtin.module(cse dce)",
        fail: BadText(19),
    },
    Faulty {
        text: "builtin.module(cse,)",
        fail: BadText(19),
    },
    Faulty {
        text: "builtin.module(cse,,cse)",
        fail: BadText(19),
    },
    Faulty {
        text: "builtin.module(cse,",
        fail: BadText(19),
    },
    Faulty {
        text: "builtin.module(cse(",
        fail: BadText(18),
    },
    Faulty {
        text: "builtin.module(cse;cse)",
        fail: BadText(18),
    },
    Faulty {
        text: "builtin.module(hw.module)",
        fail: BadText(24),
    },
    Faulty {
        text: "builtin.module(hw.module(cse, ))",
        fail: BadText(30),
    },
    Faulty {
        text: "builtin.module(hw.module(cse)",
        fail: BadText(29),
    },
    Faulty {
        text: "builtin.module(hw.module(cse)cse)",
        fail: BadText(29),
    },
    Faulty {
        text: "builtin.module())",
        fail: BadText(16),
    },
    Faulty {
        text: "builtin.module() builtin.module()",
        fail: BadText(17),
    },
    Faulty {
        text: "builtin.module(cse)\n",
        fail: BadText(19),
    },
];

// The fault of a text; none where it reads as these passes.
fn fault_of(
    alloc: Global,
    text: &str,
    offered: &[Pass],
    passes: &[Pass],
) -> Result<Option<PipelineFail>, Fail> {
    match read_pipeline(alloc, text.as_bytes(), offered) {
        Ok(pipeline) if pipeline.as_slice() == passes => Ok(None),
        Ok(_) => Err(Fail::from("other passes")),
        Err(PipelineError::Bad(fail)) => Ok(Some(fail)),
        Err(PipelineError::NoMemory) => Err(Fail::from(AllocError)),
    }
}

// The first text that does not read as its passes.
fn first_not_read(alloc: Global, rows: &[Read]) -> Result<Option<&'static str>, Fail> {
    for row in rows {
        if fault_of(alloc, row.text, &ALL, row.passes)?.is_some() {
            return Ok(Some(row.text));
        }
    }
    Ok(None)
}

// The first text that has another fault.
fn first_other(alloc: Global, rows: &[Faulty]) -> Result<Option<&'static str>, Fail> {
    for row in rows {
        if fault_of(alloc, row.text, &ALL, &[])? != Some(row.fail) {
            return Ok(Some(row.text));
        }
    }
    Ok(None)
}

#[test]
fn passes_are_read_in_order(rt: HostRuntime) -> Result<(), Fail> {
    assert_eq!(rt; first_not_read(rt.alloc(), &READ)?, None);
    Ok(())
}

#[test]
fn a_name_is_unknown_or_may_not_stand_there(rt: HostRuntime) -> Result<(), Fail> {
    assert_eq!(rt; first_other(rt.alloc(), &NAMES)?, None);
    Ok(())
}

#[test]
fn a_byte_may_not_stand_there(rt: HostRuntime) -> Result<(), Fail> {
    assert_eq!(rt; first_other(rt.alloc(), &BYTES)?, None);
    Ok(())
}

const OFFERED: [(&str, Option<PipelineFail>); 5] = [
    ("builtin.module(cse)", None),
    ("builtin.module(cse,symbol-dce)", Some(UnknownPass(19))),
    ("symbol-dce", Some(UnknownPass(0))),
    (
        "builtin.module(hw.module(symbol-dce))",
        Some(UnknownPass(25)),
    ),
    ("builtin.module(canonicalize)", Some(UnknownPass(15))),
];

// The first text that has another fault where `cse` alone is on offer.
fn first_other_on_offer(
    alloc: Global,
    rows: &[(&'static str, Option<PipelineFail>)],
) -> Result<Option<&'static str>, Fail> {
    for (text, fault) in rows {
        if fault_of(alloc, text, &[Cse], &[Cse])? != *fault {
            return Ok(Some(text));
        }
    }
    Ok(None)
}

#[test]
fn a_pass_that_is_not_on_offer_is_unknown(rt: HostRuntime) -> Result<(), Fail> {
    assert_eq!(rt; first_other_on_offer(rt.alloc(), &OFFERED)?, None);
    Ok(())
}
