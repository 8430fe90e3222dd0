//! Passes that words give.
use crate::lines::Said::{self, Command, NoPass, OnePass, Pieces, TwoPasses, Wrong};
use crate::lines::{ALL, all_say};
use command_line::usage::UsageKind;
use pass_pipeline::pass::Pass;
use pass_pipeline::pipeline::PipelineFail::{BadText, UnknownPass, WrongPlace};
use std::test::Fail;

// Words with passes.
const GIVEN: [(&str, Said); 18] = [
    ("opt --pass-pipeline=builtin.module(cse)", Command),
    ("opt --pass-pipeline builtin.module(cse)", Command),
    (
        "opt --pass-pipeline=builtin.module(cse",
        Wrong(UsageKind::Pipeline(BadText(18))),
    ),
    (
        "opt --pass-pipeline=cse",
        Wrong(UsageKind::Pipeline(WrongPlace(0))),
    ),
    (
        "opt --pass-pipeline=builtin.module(hw.module(symbol-dce))",
        Wrong(UsageKind::Pipeline(WrongPlace(25))),
    ),
    (
        "opt --pass-pipeline=",
        Wrong(UsageKind::Pipeline(BadText(0))),
    ),
    (
        "opt --pass-pipeline=builtin.module() --pass-pipeline=builtin.module()",
        Wrong(UsageKind::Words),
    ),
    ("opt --pass-pipeline", Wrong(UsageKind::Words)),
    // of several things the first that is asked counts
    (
        "opt --passes=cse --pass-pipeline=cse",
        Wrong(UsageKind::TwoPipelines),
    ),
    (
        "translate --passes=cse --pass-pipeline=builtin.module()",
        Wrong(UsageKind::TwoPipelines),
    ),
    (
        "translate --pass-pipeline=cse",
        Wrong(UsageKind::NoTranslation),
    ),
    (
        "translate --passes=cse --pass-pipeline=builtin.module() --export-aiger --import-aiger",
        Wrong(UsageKind::TwoPipelines),
    ),
    (
        "translate --export-aiger --pass-pipeline=cse --import-aiger",
        Wrong(UsageKind::TwoTranslations),
    ),
    (
        "translate --passes=cs --export-verilog --export-aiger",
        Wrong(UsageKind::TwoTranslations),
    ),
    (
        "translate --passes=cse --import-aiger --pass-pipeline=cse --lowering-options=explicit",
        Wrong(UsageKind::TwoPipelines),
    ),
    (
        "translate --export-aiger --pass-pipeline=cse",
        Wrong(UsageKind::Pipeline(WrongPlace(0))),
    ),
    (
        "translate --import-aiger --passes=cse,cs",
        Wrong(UsageKind::Pipeline(UnknownPass(4))),
    ),
    // an offset in a list of flags is counted there
    (
        "opt --passes=cse,cs",
        Wrong(UsageKind::Pipeline(UnknownPass(4))),
    ),
];

// Words with passes where no pass is on offer.
const NONE_OFFERED: [(&str, Said); 2] = [
    (
        "translate --export-verilog --pass-pipeline=builtin.module()",
        Command,
    ),
    (
        "opt --pass-pipeline=builtin.module(cse)",
        Wrong(UsageKind::Pipeline(UnknownPass(15))),
    ),
];

#[test]
fn passes_are_read_or_wrong(rt: HostRuntime) -> Result<(), Fail> {
    all_say(rt.alloc(), &rt, &GIVEN, &ALL)
}

#[test]
fn passes_that_are_not_on_offer_are_wrong(rt: HostRuntime) -> Result<(), Fail> {
    all_say(rt.alloc(), &rt, &NONE_OFFERED, &[])
}

// Words, and the passes that they ask for in order.
const ORDERS: [(&str, Said); 8] = [
    ("opt", NoPass),
    (
        "opt --passes=cse,canonicalize",
        TwoPasses(Pass::Cse, Pass::Canonicalize),
    ),
    (
        "translate --passes=cse,cse --export-verilog",
        TwoPasses(Pass::Cse, Pass::Cse),
    ),
    (
        "translate --passes=hw-flatten-modules,seq-lower-regs --export-aiger",
        TwoPasses(Pass::HwFlattenModules, Pass::SeqLowerRegs),
    ),
    ("translate --import-aiger", NoPass),
    (
        "translate --import-aiger --passes=canonicalize",
        OnePass(Pass::Canonicalize),
    ),
    ("opt --split-input-file --passes=cse", OnePass(Pass::Cse)),
    (
        "opt --pass-pipeline=builtin.module(hw.module(cse),symbol-dce)",
        TwoPasses(Pass::Cse, Pass::SymbolDce),
    ),
];

#[test]
fn passes_are_in_order(rt: HostRuntime) -> Result<(), Fail> {
    all_say(rt.alloc(), &rt, &ORDERS, &ALL)
}

// Words, and whether they ask for work on the pieces of the input.
const FLAGS: [(&str, Said); 5] = [
    ("opt --split-input-file", Pieces(true)),
    ("opt a -o b --split-input-file", Pieces(true)),
    ("opt", Pieces(false)),
    ("opt -- --split-input-file", Pieces(false)),
    ("translate --export-verilog", Pieces(false)),
];

#[test]
fn the_flag_asks_for_pieces(rt: HostRuntime) -> Result<(), Fail> {
    all_say(rt.alloc(), &rt, &FLAGS, &ALL)
}
