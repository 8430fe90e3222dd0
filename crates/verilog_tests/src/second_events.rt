//! Worked runs of registers with a second event (IEEE 1364-2005, 9.7.2 and 9.7.3: event control, event `or`).

use bits_core::Bits;
use std::alloc::{AllocGlobal, Global};
use std::process::Abort;
use std::test::Fail;
use verilog_interpreter::fault::Fault;
use verilog_interpreter::machine::{Machine, Stepped};
use verilog_interpreter::text::modules;

// The step of the module T in a text, from the inputs of the step before.
fn step_after(
    alloc: Global,
    text: &str,
    before: &[Bits],
    inputs: &[Bits],
    content: &[Bits],
) -> Result<Stepped, Fault> {
    let read = modules(alloc, text.as_bytes())?;
    let machine = Machine::new(alloc, read.as_slice(), b"T")?;
    machine.step_after(alloc, before, inputs, content)
}

// The inputs of a step: whether the clock rises, the reset, the data.
fn inputs_of(words: [u128; 3]) -> [Bits; 3] {
    let [rise, reset, data] = words;
    [
        Bits::truncate(1, rise),
        Bits::truncate(1, reset),
        Bits::truncate(8, data),
    ]
}

// The only one of words.
fn only_word(words: &[Bits]) -> Option<u128> {
    match words {
        [word] => Some(word.value()),
        _ => None,
    }
}

// Checks the outputs of the four steps of a text from the content 5.
fn run_is(rt: &(impl AllocGlobal + Abort), text: &str, outputs: [u128; 4]) -> Result<(), Fail> {
    let mut content = Vec::from_slice(rt.alloc(), &[Bits::truncate(8, 5)])?;
    let mut before = inputs_of([0, 0, 0]);
    for (words, output) in STEPS.iter().zip(outputs) {
        let inputs = inputs_of(*words);
        let stepped = step_after(
            rt.alloc(),
            text,
            before.as_slice(),
            inputs.as_slice(),
            content.as_slice(),
        );
        let Ok(stepped) = stepped else {
            assert!(rt; false, "of {text}");
            return Ok(());
        };
        assert_eq!(rt;
            only_word(stepped.outputs.as_slice()),
            Some(output),
            "of {text}"
        );
        content = stepped.content;
        before = inputs;
    }
    Ok(())
}

// The steps: whether the clock rises, the reset, the data.
const STEPS: [[u128; 3]; 4] = [[0, 1, 0x11], [1, 1, 0x22], [1, 0, 0x33], [0, 0, 0x44]];

// A register that is reset at once.
const ASYNC: &str =
    "module T(input wire clk, input wire rst, input wire [7:0] d, output wire [7:0] q);
reg [7:0] r;
always @(posedge clk or posedge rst) if (rst) r <= 8'h9; else r <= d;
assign q = r; endmodule";

// The same in an instance.
const LAYERED: &str =
    "module U(input wire c, input wire s, input wire [7:0] x, output wire [7:0] y);
reg [7:0] r;
always @(posedge c or posedge s)
  if (s)
    r <= 8'h9;
  else
    r <= x;
assign y = r; endmodule
module T(input wire clk, input wire rst, input wire [7:0] d, output wire [7:0] q);
wire [7:0] y; U u(.c(clk), .s(rst), .x(d), .y(y)); assign q = y; endmodule";

// One that is reset at the rise of its clock.
const SYNC: &str =
    "module T(input wire clk, input wire rst, input wire [7:0] d, output wire [7:0] q);
reg [7:0] r;
always @(posedge clk) if (rst) r <= 8'h9; else r <= d;
assign q = r; endmodule";

#[test]
fn second_events_reset_at_once(rt: HostRuntime) -> Result<(), Fail> {
    run_is(&rt, ASYNC, [0x09, 0x09, 0x09, 0x33])?;
    run_is(&rt, LAYERED, [0x09, 0x09, 0x09, 0x33])?;
    run_is(&rt, SYNC, [0x05, 0x05, 0x09, 0x33])
}

// Blocks of which nothing is run: the second event is no input, the `if` asks for another name, the first load is no
// literal, there is no `else`, the other load has a condition, there is no second name.
const REFUSED: [&str; 6] = [
    "always @(posedge clk or posedge w) if (w) r <= 8'h9; else r <= d;",
    "always @(posedge clk or posedge rst) if (clk) r <= 8'h9; else r <= d;",
    "always @(posedge clk or posedge rst) if (rst) r <= d; else r <= d;",
    "always @(posedge clk or posedge rst) if (rst) r <= 8'h9;",
    "always @(posedge clk or posedge rst) if (rst) r <= 8'h9; else if (w) r <= d;",
    "always @(posedge clk or posedge) if (rst) r <= 8'h9; else r <= d;",
];

#[test]
fn other_blocks_are_not_run(rt: HostRuntime) -> Result<(), Fail> {
    for block in REFUSED {
        let text = format!(in rt.alloc();
            "module T(input wire clk, input wire rst, input wire [7:0] d, output wire [7:0] q);
reg [7:0] r; wire w; assign w = rst; {block} assign q = r; endmodule"
        )?;
        let inputs = inputs_of([1, 1, 0x11]);
        let content = [Bits::truncate(8, 5)];
        let stepped = step_after(
            rt.alloc(),
            text.as_str(),
            inputs.as_slice(),
            inputs.as_slice(),
            content.as_slice(),
        );
        assert!(rt; stepped.is_err(), "of {block}");
    }
    Ok(())
}
