//! Words on how Verilog is written.
use crate::lines::Said::{self, Bare, FromAiger, ToAiger, Wrong};
use crate::lines::{ALL, all_say};
use command_line::usage::UsageKind;
use pass_pipeline::pipeline::PipelineFail::WrongPlace;
use std::test::Fail;

// Words, and whether they ask for zero extensions as their operand alone, or what is wrong with them.
const OPTIONS: [(&str, Said); 22] = [
    ("translate --export-verilog", Bare(false)),
    (
        "translate --export-verilog --lowering-options=",
        Bare(false),
    ),
    (
        "translate --export-verilog --lowering-options=implicitExtension",
        Bare(true),
    ),
    (
        "translate a --lowering-options implicitExtension --export-verilog -o b",
        Bare(true),
    ),
    (
        "translate --export-verilog --lowering-options=explicit",
        Wrong(UsageKind::Lowering),
    ),
    (
        "translate --export-verilog --lowering-options=implicitextension",
        Wrong(UsageKind::Lowering),
    ),
    (
        "translate --export-verilog --lowering-options=implicitExtension,implicitExtension",
        Wrong(UsageKind::Lowering),
    ),
    (
        "translate --export-verilog --lowering-options",
        Wrong(UsageKind::Words),
    ),
    (
        "translate --export-verilog --lowering-options= --lowering-options=",
        Wrong(UsageKind::Words),
    ),
    (
        "opt --lowering-options=implicitExtension",
        Wrong(UsageKind::Words),
    ),
    (
        "gen 0 1 --verilog --lowering-options=",
        Wrong(UsageKind::Words),
    ),
    // beside the AIGER format it has no effect, but has to be known
    (
        "translate --export-aiger --lowering-options=implicitExtension",
        ToAiger,
    ),
    (
        "translate --lowering-options implicitExtension --import-aiger",
        FromAiger,
    ),
    (
        "translate --export-aiger --lowering-options=explicit",
        Wrong(UsageKind::Lowering),
    ),
    (
        "translate --import-aiger --lowering-options=explicit",
        Wrong(UsageKind::Lowering),
    ),
    // of several things the first that is asked counts
    (
        "translate --lowering-options=explicit",
        Wrong(UsageKind::NoTranslation),
    ),
    (
        "translate --export-aiger --lowering-options=explicit --import-aiger",
        Wrong(UsageKind::TwoTranslations),
    ),
    (
        "translate --export-aiger --lowering-options=explicit --pass-pipeline=cse",
        Wrong(UsageKind::Pipeline(WrongPlace(0))),
    ),
    (
        "translate --pass-pipeline=cse --lowering-options=explicit --import-aiger",
        Wrong(UsageKind::Pipeline(WrongPlace(0))),
    ),
    (
        "translate --lowering-options=explicit --pass-pipeline=cse",
        Wrong(UsageKind::NoTranslation),
    ),
    (
        "translate --export-verilog --lowering-options=explicit --pass-pipeline=cse",
        Wrong(UsageKind::Pipeline(WrongPlace(0))),
    ),
    (
        "translate --export-verilog --lowering-options=explicit --workers 0",
        Wrong(UsageKind::Words),
    ),
];

#[test]
fn ways_of_writing_are_read_or_wrong(rt: HostRuntime) -> Result<(), Fail> {
    all_say(rt.alloc(), &rt, &OPTIONS, &ALL)
}
