//! How circuits are written.
use aiger_circuits::write::{BitNames, write_circuit};
use gates::circuit::Gates;
use gates::signal::{Pin, Signal};
use io_edge::byte_text::Text;
use std::alloc::{AllocError, Global};
use std::test::Fail;

/// The signal of a variable.
fn wire(variable: u32) -> Signal {
    Signal::Wire(Pin {
        variable,
        positive: true,
    })
}

/// One name.
fn one_name(alloc: Global, bytes: &[u8]) -> Result<Vec<Text>, AllocError> {
    let mut names = Vec::new(alloc);
    names.push(Text::of(alloc, bytes)?)?;
    Ok(names)
}

/// The text of a conjunction of two inputs.
fn conjunction(alloc: Global) -> Result<Text, AllocError> {
    let mut circuit = Gates::new(alloc, 2);
    let both = circuit.and(wire(1), wire(2))?;
    let mut inputs = one_name(alloc, b"a[0]")?;
    inputs.push(Text::of(alloc, b"b[0]")?)?;
    let outputs = one_name(alloc, b"c[0]")?;
    let names = BitNames {
        inputs: inputs.as_slice(),
        latches: &[],
        outputs: outputs.as_slice(),
    };
    write_circuit(alloc, &circuit, &[both], &[], names)
}

/// The text of a register that takes an input and gives an output.
fn register(alloc: Global) -> Result<Text, AllocError> {
    let circuit = Gates::new(alloc, 2);
    let inputs = one_name(alloc, b"d[0]")?;
    let latches = one_name(alloc, b"r[0]")?;
    let outputs = one_name(alloc, b"q[0]")?;
    let names = BitNames {
        inputs: inputs.as_slice(),
        latches: latches.as_slice(),
        outputs: outputs.as_slice(),
    };
    write_circuit(alloc, &circuit, &[wire(2)], &[wire(1)], names)
}

/// The text of an input, its complement and 1, without names.
fn signs(alloc: Global) -> Result<Text, AllocError> {
    let circuit = Gates::new(alloc, 1);
    let names = BitNames {
        inputs: &[],
        latches: &[],
        outputs: &[],
    };
    let outputs = [wire(1), wire(1).inverse(), Signal::Fixed(true)];
    write_circuit(alloc, &circuit, &outputs, &[], names)
}

#[test]
fn circuits_are_written(rt: HostRuntime) -> Result<(), Fail> {
    let alloc = rt.alloc();
    let text = conjunction(alloc)?;
    assert_eq!(rt;
        text.as_bytes(),
        b"aag 3 2 0 1 1\n2\n4\n6\n6 4 2\ni0 a[0]\ni1 b[0]\no0 c[0]\n".as_slice()
    );
    let text = register(alloc)?;
    assert_eq!(rt;
        text.as_bytes(),
        b"aag 2 1 1 1 0\n2\n4 2 4\n4\ni0 d[0]\nl0 r[0]\no0 q[0]\n".as_slice()
    );
    let text = signs(alloc)?;
    assert_eq!(rt; text.as_bytes(), b"aag 1 1 0 3 0\n2\n2\n3\n1\n".as_slice());
    Ok(())
}
