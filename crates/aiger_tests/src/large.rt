//! Large texts.
use aiger_laws::fault::Fault;
use aiger_reader::fail::{ReadFail, Refusal};
use aiger_reader::read_aiger::read_aiger;
use std::alloc::{AllocError, Global};
use std::test::Fail;

/// How many gates stand in a text.
const GATES: u32 = 1_000_000;

/// How many lines of comments stand after them, and such a line. The text has 60 MB with them.
const COMMENTS: u32 = 700_000;

const COMMENT: &str = "a comment of sixty-four bytes, with the one that ends its line.\n";

/// Adds the lines of gates, each of the variable before it and of an input, the first one of the last one if that is asked.
fn push_gates(alloc: Global, text: &mut String, loops: bool) -> Result<(), AllocError> {
    for number in 3..3 + GATES {
        let before = if loops && number == 3 {
            2 + GATES
        } else {
            number - 1
        };
        let line = format!(in alloc;
            "{} {} {}\n",
            2 * number,
            2 * before + 1,
            2 + 2 * (number % 2)
        )?;
        text.push_str(line.as_str())?;
    }
    Ok(())
}

/// A text of 60 MB.
fn large_text(alloc: Global, loops: bool) -> Result<String, AllocError> {
    let mut text = String::new(alloc);
    text.push_str("aag 1000002 2 0 1 1000000\n2\n4\n2000004\n")?;
    push_gates(alloc, &mut text, loops)?;
    text.push_str("c\n")?;
    for _ in 0..COMMENTS {
        text.push_str(COMMENT)?;
    }
    Ok(text)
}

/// Whether a text of 60 MB is read, all of its gates.
#[test]
fn a_large_text_is_read(rt: HostRuntime) -> Result<(), Fail> {
    let text = large_text(rt.alloc(), false)?;
    assert!(rt; text.len() > 60_000_000);
    let count = match read_aiger(rt.alloc(), text.as_bytes()) {
        Ok(read) => read.gates.len(),
        Err(_) => 0,
    };
    assert_eq!(rt; count, 1_000_000);
    Ok(())
}

/// Whether a cycle of all its gates is refused at the first one, on line 5.
#[test]
fn a_large_cycle_is_refused(rt: HostRuntime) -> Result<(), Fail> {
    let text = large_text(rt.alloc(), true)?;
    let wanted = Refusal {
        line: 5,
        fault: Fault::GateCycle,
    };
    let is_refused = match read_aiger(rt.alloc(), text.as_bytes()) {
        Err(ReadFail::Refused(refusal)) => refusal == wanted,
        _ => false,
    };
    assert!(rt; is_refused);
    Ok(())
}
