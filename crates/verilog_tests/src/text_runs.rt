//! Worked values of texts (IEEE 1364-2005, 5.1, 5.4, 5.5, 6.1, 9.2.2, 12.3), in hexadecimal.

use crate::expressions::{Row, TESTS, VALUES};
use bits_core::Bits;
use std::alloc::{AllocGlobal, Global};
use std::process::Abort;
use std::test::Fail;
use verilog_interpreter::fault::Fault;
use verilog_interpreter::machine::{Machine, Stepped};
use verilog_interpreter::text::modules;

// The step of the module of a name in a text.
fn step(
    alloc: Global,
    text: &[u8],
    top: &[u8],
    inputs: &[Bits],
    content: &[Bits],
) -> Result<Stepped, Fault> {
    let read = modules(alloc, text)?;
    let machine = Machine::new(alloc, read.as_slice(), top)?;
    machine.step(alloc, inputs, content)
}

fn byte(value: u128) -> Bits {
    Bits::truncate(8, value)
}

fn bit(value: u128) -> Bits {
    Bits::truncate(1, value)
}

// The word of the only output, with its width, where the step has one.
fn only_word(stepped: Result<Stepped, Fault>) -> Option<(u32, u128)> {
    let stepped = stepped.ok()?;
    let word = stepped.outputs.first()?;
    Some((word.width(), word.value()))
}

// Checks the words of expressions.
fn words_come(rt: &(impl AllocGlobal + Abort), rows: &[Row]) -> Result<(), Fail> {
    for row in rows {
        let Row {
            expression,
            high,
            ..
        } = row;
        let text = format!(in rt.alloc();
            "module T(input wire [7:0] a, input wire [7:0] b, input wire [7:0] c, output wire [{high}:0] o);
assign o = {expression}; endmodule"
        )?;
        let [a, b, c] = row.bytes;
        let inputs = [byte(a), byte(b), byte(c)];
        let stepped = step(rt.alloc(), text.as_bytes(), b"T", inputs.as_slice(), &[]);
        let width = high.wrapping_add(1);
        assert_eq!(rt;
            only_word(stepped),
            Some((width, row.word)),
            "of {expression}"
        );
    }
    Ok(())
}

#[test]
fn expressions_have_their_values(rt: HostRuntime) -> Result<(), Fail> {
    words_come(&rt, &VALUES)?;
    words_come(&rt, &TESTS)
}

#[test]
fn sums_of_128_bits_wrap(rt: HostRuntime) {
    let text =
        b"module T(input wire [127:0] a, output wire [127:0] o); assign o = a + 128'h1; endmodule";
    let most = Bits::truncate(128, u128::MAX);
    let stepped = step(rt.alloc(), text.as_slice(), b"T", &[most], &[]);
    assert_eq!(rt; only_word(stepped), Some((128, 0)));
}

// Texts of which nothing is run, with the inputs of one byte.
const REFUSED: [&str; 17] = [
    "module T(input wire [7:0] a, output wire [7:0] o); assign o = a",
    "module T(input wire [7:0] a, output wire [7:0] o);",
    "module T(input wire [7:0] a, output wire [7:0] o); assign o = b; endmodule",
    "module T(input wire [7:0] a, output wire [7:0] a); assign a = a; endmodule",
    "module T(input wire [7:0] a, output wire [7:0] o); assign o = a / 8'h0; endmodule",
    "module T(input wire [7:0] a, output wire [7:0] o); assign o = a / a; endmodule",
    "module T(input wire [7:0] a, output wire [7:0] o); assign o = a[8]; endmodule",
    "module T(input wire [7:0] a, output wire o); assign o = a[0][0]; endmodule",
    "module T(input wire [7:0] a, output wire [7:0] o); assign o = a ++ a; endmodule",
    "module T(input wire [7:0] a, output wire [7:0] o); assign o = a == 8'h1?a:a; endmodule",
    "module T(input wire [7:0] a, output wire [7:0] o); assign o = o & a; endmodule",
    "module T(input wire [7:0] a, output wire [7:0] o); wire [7:0] x; assign x = o; assign o = x; endmodule",
    "module T(input wire [7:0] a, output wire [7:0] o); endmodule",
    "module T(input wire [7:0] a, output wire [7:0] o); U u (.x(a), .y(o)); endmodule",
    "module T(input wire [7:0] a, output wire [7:0] o); T u (.a(a), .o(o)); endmodule",
    "module T(input wire [7:0] a, output wire [128:0] o); assign o = a; endmodule",
    "module U; endmodule",
];

#[test]
fn other_texts_are_not_run(rt: HostRuntime) {
    for text in REFUSED {
        let stepped = step(rt.alloc(), text.as_bytes(), b"T", &[byte(1)], &[]);
        assert!(rt; stepped.is_err(), "of {text}");
    }
}

// Two registers, one after the other, in one module.
const FLAT: &str =
    "module Two(input wire clk, input wire rst, input wire en, input wire [7:0] d, output wire [7:0] a, output wire [7:0] b);
reg [7:0] u1_r; reg [7:0] u2_r;
always @(posedge clk) if (rst) u1_r <= 8'h9; else if (en) u1_r <= d;
always @(posedge clk) if (rst) u2_r <= 8'h9; else if (en) u2_r <= u1_r;
assign a = u1_r; assign b = u2_r; endmodule";

// The same as two instances of a module.
const LAYERED: &str =
    "module Reg(input wire clk, input wire rst, input wire en, input wire [7:0] d, output wire [7:0] q);
reg [7:0] r;
always @(posedge clk) if (rst) r <= 8'h9; else if (en) r <= d;
assign q = r; endmodule
module Two(input wire clk, input wire rst, input wire en, input wire [7:0] d, output wire [7:0] a, output wire [7:0] b);
wire [7:0] u1_q; wire [7:0] u2_q;
Reg u1(.clk(clk), .rst(rst), .en(en), .d(d), .q(u1_q));
Reg u2(.clk(clk), .rst(rst), .en(en), .d(u1_q), .q(u2_q));
assign a = u1_q; assign b = u2_q; endmodule";

/// A cycle of the two registers.
struct Cycle {
    /// Whether the clock rises.
    rise: u128,
    reset: u128,
    enable: u128,
    data: u128,
    outputs: [u128; 2],
}

const CYCLES: [Cycle; 4] = [
    Cycle {
        rise: 1,
        reset: 0,
        enable: 1,
        data: 0x11,
        outputs: [0x05, 0x06],
    },
    Cycle {
        rise: 1,
        reset: 0,
        enable: 0,
        data: 0x22,
        outputs: [0x11, 0x05],
    },
    Cycle {
        rise: 1,
        reset: 1,
        enable: 0,
        data: 0x33,
        outputs: [0x11, 0x05],
    },
    Cycle {
        rise: 0,
        reset: 1,
        enable: 1,
        data: 0x44,
        outputs: [0x09, 0x09],
    },
];

// Checks that these words are the numbers.
fn are(rt: &impl Abort, words: &[Bits], numbers: &[u128]) {
    assert_eq!(rt; words.len(), numbers.len());
    for (word, number) in words.iter().zip(numbers) {
        assert_eq!(rt; word.value(), *number);
    }
}

// Checks the steps of a module with two registers.
fn registers_step(rt: &(impl AllocGlobal + Abort), text: &str) -> Result<(), Fail> {
    let mut content = Vec::from_slice(rt.alloc(), &[byte(5), byte(6)])?;
    for row in &CYCLES {
        let inputs = [
            bit(row.rise),
            bit(row.reset),
            bit(row.enable),
            byte(row.data),
        ];
        let stepped = step(
            rt.alloc(),
            text.as_bytes(),
            b"Two",
            inputs.as_slice(),
            content.as_slice(),
        );
        let Ok(stepped) = stepped else {
            assert!(rt; false, "of {text}");
            return Ok(());
        };
        are(rt, stepped.outputs.as_slice(), row.outputs.as_slice());
        content = stepped.content;
    }
    are(rt, content.as_slice(), &[9, 9]);
    Ok(())
}

#[test]
fn registers_load_what_stands_before_them(rt: HostRuntime) -> Result<(), Fail> {
    registers_step(&rt, FLAT)?;
    registers_step(&rt, LAYERED)
}

// Without enable, with enable alone, and bare.
const FORMS: &str =
    "module T(input wire clk, input wire rst, input wire en, input wire [7:0] d, output wire [7:0] o);
reg [7:0] x; reg [7:0] y; reg [7:0] z;
always @(posedge clk) if (rst) x <= 8'h9; else x <= d;
always @(posedge clk) if (en) y <= x;
always @(posedge clk) z <= y;
assign o = x ^ y ^ z; endmodule";

#[test]
fn registers_of_other_forms_load(rt: HostRuntime) {
    for (signals, next) in [
        ([1, 1, 1], [0x09, 0x01, 0x02]),
        ([1, 0, 0], [0x77, 0x02, 0x02]),
        ([0, 1, 1], [0x01, 0x02, 0x04]),
    ] {
        let [rise, reset, enable] = signals;
        let inputs = [bit(rise), bit(reset), bit(enable), byte(0x77)];
        let content = [byte(1), byte(2), byte(4)];
        let text = FORMS.as_bytes();
        let stepped = step(
            rt.alloc(),
            text,
            b"T",
            inputs.as_slice(),
            content.as_slice(),
        );
        let Ok(stepped) = stepped else {
            assert!(rt; false);
            return;
        };
        are(&rt, stepped.outputs.as_slice(), &[0x07]);
        are(&rt, stepped.content.as_slice(), next.as_slice());
    }
}
