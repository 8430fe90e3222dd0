//! What words of `gen` say.
use crate::lines::Said::{self, Summary, Verilog};
use crate::lines::{ALL, all_say};
use std::test::Fail;

const GENERATIONS: [(&str, Said); 4] = [
    (
        "gen 7 200",
        Summary {
            seed: 7,
            count: 200,
        },
    ),
    ("gen 0 1 --verilog", Verilog { seed: 0, count: 1 }),
    (
        "gen --verilog 4294967295 10000",
        Verilog {
            seed: 4294967295,
            count: 10000,
        },
    ),
    ("gen -- 2 3", Summary { seed: 2, count: 3 }),
];

#[test]
fn designs_are_named_by_numbers(rt: HostRuntime) -> Result<(), Fail> {
    all_say(rt.alloc(), &rt, &GENERATIONS, &ALL)
}
