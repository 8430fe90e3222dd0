//! What words of a command line say: commands, and wrong words.
use crate::lines::Said::{self, Command, FromAiger, ToAiger, Workers, Wrong};
use crate::lines::{ALL, all_say};
use command_line::usage::UsageKind;
use std::test::Fail;

const WORDS: [(&str, Said); 106] = [
    ("", Wrong(UsageKind::Words)),
    ("opt", Command),
    ("opt a.mlir b.mlir", Wrong(UsageKind::Words)),
    ("opt -o", Wrong(UsageKind::Words)),
    ("opt -o a -o b", Wrong(UsageKind::Words)),
    ("opt --export-verilog", Wrong(UsageKind::Words)),
    ("opt --canonicalise", Wrong(UsageKind::Words)),
    ("opt --help", Wrong(UsageKind::Words)),
    ("opt -h", Wrong(UsageKind::Words)),
    ("--version", Wrong(UsageKind::Words)),
    ("help", Wrong(UsageKind::Words)),
    ("opt help", Command),
    ("opt --split-input-file a.mlir -o b", Command),
    ("opt --split-input-file=x", Wrong(UsageKind::Words)),
    (
        "translate --export-verilog --split-input-file",
        Wrong(UsageKind::Words),
    ),
    ("translate", Wrong(UsageKind::NoTranslation)),
    ("translate x.mlir", Wrong(UsageKind::NoTranslation)),
    ("translate --export-verilog=x", Wrong(UsageKind::Words)),
    (
        "translate --export-verilog --export-verilog",
        Wrong(UsageKind::Words),
    ),
    ("translate --export-verilog", Command),
    ("translate x.mlir --export-verilog -o y.v", Command),
    ("translate --export-aiger --lowering-options=", Command),
    ("translate a.aag --import-aiger -o b.mlir", Command),
    ("translate --export-aiger=x", Wrong(UsageKind::Words)),
    ("translate --import-aiger=x", Wrong(UsageKind::Words)),
    (
        "translate --export-aiger --export-aiger",
        Wrong(UsageKind::Words),
    ),
    (
        "translate --import-aiger --import-aiger",
        Wrong(UsageKind::Words),
    ),
    (
        "translate --export-aiger --split-input-file",
        Wrong(UsageKind::Words),
    ),
    ("translate --import-aiger a b", Wrong(UsageKind::Words)),
    ("opt --export-aiger", Wrong(UsageKind::Words)),
    ("opt --import-aiger", Wrong(UsageKind::Words)),
    ("gen 0 1 --export-aiger", Wrong(UsageKind::Words)),
    ("--import-aiger translate", Wrong(UsageKind::Words)),
    ("lec a.mlir", Wrong(UsageKind::Words)),
    ("--export-verilog translate", Wrong(UsageKind::Words)),
    ("opt --workers 1", Command),
    ("opt --workers=64 --mlir-disable-threading", Command),
    ("opt --mlir-disable-threading", Command),
    (
        "translate --export-verilog --mlir-disable-threading --workers 8",
        Command,
    ),
    ("opt --workers", Wrong(UsageKind::Words)),
    ("opt --workers=", Wrong(UsageKind::Words)),
    ("opt --workers 0", Wrong(UsageKind::Words)),
    ("opt --workers 65", Wrong(UsageKind::Words)),
    ("opt --workers 04", Wrong(UsageKind::Words)),
    ("opt --workers +4", Wrong(UsageKind::Words)),
    ("opt --workers=-4", Wrong(UsageKind::Words)),
    ("opt --workers 4x", Wrong(UsageKind::Words)),
    (
        "opt --workers 18446744073709551620",
        Wrong(UsageKind::Words),
    ),
    ("opt --workers 4 --workers 4", Wrong(UsageKind::Words)),
    ("opt --mlir-disable-threading=x", Wrong(UsageKind::Words)),
    (
        "opt --mlir-disable-threading --workers 65",
        Wrong(UsageKind::Words),
    ),
    ("translate --workers 0", Wrong(UsageKind::Words)),
    (
        "translate --export-aiger --import-aiger --workers 0",
        Wrong(UsageKind::Words),
    ),
    ("gen 0 1", Command),
    ("gen 4294967295 10000 -o x --workers 64 --verilog", Command),
    ("gen 4294967296 1", Wrong(UsageKind::Words)),
    ("gen 0 10001", Wrong(UsageKind::Words)),
    ("gen 0", Wrong(UsageKind::Words)),
    ("gen --workers=4 -- 7 1", Command),
    ("gen 7 1 --mlir-disable-threading", Wrong(UsageKind::Words)),
    ("lec a.mlir --c1 p --c2 q", Command),
    ("lec a.mlir b.mlir --c1=p --c2=q", Command),
    ("lec - --c1 p --c2 q", Command),
    ("lec a.mlir - --c1 p --c2 q", Command),
    ("lec - - --c1 p --c2 q", Wrong(UsageKind::StdinTwice)),
    ("lec --c1 p --c2 q", Wrong(UsageKind::Words)),
    ("lec a b c --c1 p --c2 q", Wrong(UsageKind::Words)),
    ("lec a.mlir --c1 p", Wrong(UsageKind::Words)),
    ("lec a.mlir --c2 q", Wrong(UsageKind::Words)),
    ("lec a.mlir --c1 p --c1 p --c2 q", Wrong(UsageKind::Words)),
    ("lec a.mlir --c1 p --c2 q -o x", Wrong(UsageKind::Words)),
    ("lec a --c1 p --c2 q --conflict-limit 1", Command),
    (
        "lec a --c1 p --c2 q --conflict-limit 18446744073709551615",
        Command,
    ),
    (
        "lec a --c1 p --c2 q --conflict-limit 18446744073709551616",
        Wrong(UsageKind::Words),
    ),
    (
        "lec a --c1 p --c2 q --conflict-limit 0",
        Wrong(UsageKind::Words),
    ),
    // a wrong limit is wrong before standard input is looked at
    (
        "lec - - --c1 p --c2 q --conflict-limit 0",
        Wrong(UsageKind::Words),
    ),
    ("lec a --c1 p --c2 q --workers 2", Wrong(UsageKind::Words)),
    ("lec a b --c1 p --c2 q --proof r", Command),
    ("lec a --c1 p --c2 q --proof -", Command),
    ("lec --proof=r a --c1 p --c2 q", Command),
    (
        "lec a --c1 p --c2 q --proof r --proof r",
        Wrong(UsageKind::Words),
    ),
    ("lec a --c1 p --c2 q --proof", Wrong(UsageKind::Words)),
    (
        "lec - - --c1 p --c2 q --proof r",
        Wrong(UsageKind::StdinTwice),
    ),
    ("opt --proof r", Wrong(UsageKind::Words)),
    ("check a b", Command),
    ("check - b", Command),
    ("check a -", Command),
    ("check - -", Wrong(UsageKind::StdinTwice)),
    ("check a", Wrong(UsageKind::Words)),
    ("check", Wrong(UsageKind::Words)),
    ("check a b c", Wrong(UsageKind::Words)),
    ("check a b --workers 2", Wrong(UsageKind::Words)),
    ("check a b -o c", Wrong(UsageKind::Words)),
    ("check a b --proof r", Wrong(UsageKind::Words)),
    // `sim`
    ("sim a b --top m", Command),
    ("sim - b --top m", Command),
    ("sim --top=m a -", Command),
    ("sim - - --top m", Wrong(UsageKind::StdinTwice)),
    ("sim a b", Wrong(UsageKind::Words)),
    ("sim a --top m", Wrong(UsageKind::Words)),
    ("sim --top m", Wrong(UsageKind::Words)),
    ("sim a b --top", Wrong(UsageKind::Words)),
    ("sim a b --top m --top n", Wrong(UsageKind::Words)),
    ("sim a b c --top m", Wrong(UsageKind::Words)),
    ("sim a b --top m -o c", Wrong(UsageKind::Words)),
    ("sim a b --top m --workers 2", Wrong(UsageKind::Words)),
];

// Words on translations, of which just one may be named.
const TRANSLATIONS: [(&str, Said); 14] = [
    ("translate --export-aiger", ToAiger),
    (
        "translate -- --import-aiger",
        Wrong(UsageKind::NoTranslation),
    ),
    ("translate a -o b --export-aiger", ToAiger),
    ("translate --export-aiger -- --export-verilog", ToAiger),
    ("translate --import-aiger", FromAiger),
    ("translate --import-aiger a -o b", FromAiger),
    ("translate --import-aiger -- --export-aiger", FromAiger),
    (
        "translate --export-verilog --export-aiger",
        Wrong(UsageKind::TwoTranslations),
    ),
    (
        "translate --export-aiger a --export-verilog",
        Wrong(UsageKind::TwoTranslations),
    ),
    (
        "translate --export-verilog --import-aiger",
        Wrong(UsageKind::TwoTranslations),
    ),
    (
        "translate --import-aiger --export-verilog -o b",
        Wrong(UsageKind::TwoTranslations),
    ),
    (
        "translate --export-aiger --import-aiger",
        Wrong(UsageKind::TwoTranslations),
    ),
    (
        "translate --import-aiger --export-aiger a",
        Wrong(UsageKind::TwoTranslations),
    ),
    (
        "translate --export-verilog --export-aiger --import-aiger",
        Wrong(UsageKind::TwoTranslations),
    ),
];

// How many workers the words of a line say.
const WORKERS: [(&str, Said); 8] = [
    ("opt", Workers(4)),
    ("opt --workers 7", Workers(7)),
    ("translate --export-verilog --workers=64", Workers(64)),
    ("translate --export-aiger --workers 3", Workers(3)),
    (
        "translate --import-aiger --mlir-disable-threading",
        Workers(1),
    ),
    ("opt --workers 10 -o x", Workers(10)),
    ("opt --mlir-disable-threading", Workers(1)),
    ("opt --workers 8 --mlir-disable-threading", Workers(1)),
];

#[test]
fn workers_are_said_by_words(rt: HostRuntime) -> Result<(), Fail> {
    all_say(rt.alloc(), &rt, &WORKERS, &ALL)
}

#[test]
fn one_translation_is_named(rt: HostRuntime) -> Result<(), Fail> {
    all_say(rt.alloc(), &rt, &TRANSLATIONS, &ALL)
}

#[test]
fn words_are_a_command_or_wrong(rt: HostRuntime) -> Result<(), Fail> {
    all_say(rt.alloc(), &rt, &WORDS, &ALL)
}
