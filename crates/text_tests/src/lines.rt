//! Error messages.
use diag::cause::Cause;
use diag::line::refusal_text;
use diag::refusal::{Location, OpName, Refusal};
use io_edge::memory_sink::MemorySink;
use opcode::listed::Listed;
use std::test::Fail;

const SOURCE: &[u8] = b"%0 = comb.nand";

/// A refusal of the source, and its error message.
struct Row {
    /// The name of the file.
    name: &'static str,
    location: Location,
    op: OpName,
    cause: Cause,
    message: &'static str,
}

const ROWS: [Row; 5] = [
    Row {
        name: "-",
        location: Location { line: 2, col: 8 },
        op: OpName::Listed(Listed::HwConstant),
        cause: Cause::ConstantRange,
        message: "<stdin>:2:8: error: 'hw.constant' V5: constant out of range\n",
    },
    Row {
        name: "a.mlir",
        location: Location { line: 1, col: 1 },
        op: OpName::File,
        cause: Cause::TooLong,
        message: "a.mlir:1:1: error: 'builtin.module' S7: text too long\n",
    },
    Row {
        name: "b",
        location: Location {
            line: 10,
            col: 4_294_967_295,
        },
        op: OpName::Other { at: 5, len: 9 },
        cause: Cause::UnknownOperation,
        message: "b:10:4294967295: error: 'comb.nand' S3: unknown operation\n",
    },
    Row {
        name: "",
        location: Location { line: 3, col: 1 },
        op: OpName::Listed(Listed::SeqCompregCe),
        cause: Cause::InstancePorts,
        message: ":3:1: error: 'seq.compreg.ce' V18: instance differs from the module's ports\n",
    },
    Row {
        name: "c",
        location: Location { line: 1, col: 1 },
        op: OpName::Listed(Listed::HwModule),
        cause: Cause::TooManyGates,
        message: "c:1:1: error: 'hw.module' L4: too many gates\n",
    },
];

#[test]
fn a_refusal_is_one_line(rt: HostRuntime) -> Result<(), Fail> {
    for row in &ROWS {
        let refusal = Refusal {
            file: 0,
            location: row.location,
            op: row.op,
            cause: row.cause,
        };
        let mut sink = MemorySink::new(rt.alloc(), 100)?;
        let is_ok = refusal_text(&mut sink, row.name, SOURCE, &refusal).is_ok();
        assert!(rt; is_ok, "of {}", row.name);
        assert_eq!(rt; sink.contents(), row.message.as_bytes(), "of {}", row.name);
    }
    Ok(())
}

#[test]
fn operations_are_found_by_their_names(rt: HostRuntime) {
    for (name, listed) in [
        ("comb.shrs", Some(Listed::CombShrs)),
        ("seq.compreg", Some(Listed::SeqCompreg)),
        ("hw.module", Some(Listed::HwModule)),
        ("comb.nand", None),
        ("hw.modul", None),
        ("", None),
    ] {
        assert_eq!(rt; Listed::of(name.as_bytes()), listed);
    }
}
