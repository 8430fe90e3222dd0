//! Parts of a text, read one at a time.
use diag::cause::Cause;
use diag::refusal::OpName;
use io_edge::byte_text::Text;
use mlir_operations::operand_text::{maybe_results, operand_text};
use mlir_operations::syntax::ResultNames;
use mlir_syntax::dictionary_text::StringKeys;
use mlir_syntax::fail::ReadFail;
use mlir_syntax::reader::Reader;
use mlir_syntax::type_text::MOST_OPEN;
use std::alloc::{AllocError, Global};
use std::test::Fail;

// What a reader made of a text: a number that tells what is read, or the column and cause of a refusal.
type Outcome = Result<u64, (u32, Cause)>;

// the column and the cause of a refusal; column 0 for out of memory
fn column_and_cause(fail: ReadFail) -> (u32, Cause) {
    match fail {
        ReadFail::Refused(refusal) => (refusal.location.col, refusal.cause),
        ReadFail::NoMemory => (0, Cause::Unexpected),
    }
}

// the width of a type
fn width_of(alloc: Global, source: &[u8]) -> Outcome {
    match Reader::new(alloc, source).type_text(OpName::File, MOST_OPEN) {
        Ok(ty) => Ok(ty.width()),
        Err(fail) => Err(column_and_cause(fail)),
    }
}

// how many entries a dictionary has
fn entries_of(alloc: Global, source: &[u8]) -> Outcome {
    match Reader::new(alloc, source).dictionary_text(OpName::File, StringKeys::Hint) {
        Ok(dictionary) => Ok(dictionary.entries.len() as u64),
        Err(fail) => Err(column_and_cause(fail)),
    }
}

// how many constants an aggregate has
fn constants_of(alloc: Global, source: &[u8]) -> Outcome {
    match Reader::new(alloc, source).aggregate_text(OpName::File) {
        Ok(list) => Ok(list.literals.len() as u64),
        Err(fail) => Err(column_and_cause(fail)),
    }
}

// how many results are named
fn results_of(alloc: Global, source: &[u8]) -> Outcome {
    match maybe_results(&mut Reader::new(alloc, source), OpName::File) {
        Ok(ResultNames::Unnamed) => Ok(0),
        Ok(ResultNames::Names(_, others)) => Ok((others.len() as u64).saturating_add(1)),
        Ok(ResultNames::Pack(_, count)) => Ok(u64::from(count)),
        Err(fail) => Err(column_and_cause(fail)),
    }
}

/// A part of a text.
#[derive(Clone, Copy)]
enum Part {
    Type,
    Dictionary,
    Constants,
    Results,
}

/// Texts that are read as a part, each with what is made of it.
struct Group {
    part: Part,
    texts: &'static [(&'static str, Outcome)],
}

const GROUPS: [Group; 4] = [
    Group {
        // the width
        part: Part::Type,
        texts: &[
            ("i8", Ok(8)),
            ("i0", Ok(0)),
            ("i4294967295", Ok(4_294_967_295)),
            ("!seq.clock", Ok(1)),
            ("!hw.array<3xi8>", Ok(24)),
            ("!hw.array<2 x i8>", Ok(16)),
            ("!hw.array<2x!hw.array<0x!seq.clock>>", Ok(0)),
            ("!hw.struct<a: i8, \"b c\": !hw.array<2xi4>>", Ok(16)),
            ("!hw.struct<>", Ok(0)),
            ("i4294967296", Err((1, Cause::NumberTooLarge))),
            ("!hw.array<4294967296xi1>", Err((11, Cause::NumberTooLarge))),
            ("!hw.array<2xi4294967296>", Err((12, Cause::NumberTooLarge))),
            ("i", Err((1, Cause::Unexpected))),
            ("i8x", Err((1, Cause::Unexpected))),
            ("loc", Err((1, Cause::OutsideProfile))),
            ("!hw.inout<i1>", Err((1, Cause::OutsideProfile))),
            ("!hw.array<2xq>", Err((12, Cause::Unexpected))),
            ("!hw.array<2xi8", Err((15, Cause::Unexpected))),
            ("!hw.struct<a i8>", Err((14, Cause::Unexpected))),
            ("!hw.struct<a: i8,>", Err((18, Cause::Unexpected))),
            ("", Err((1, Cause::Unexpected))),
            (" ?", Err((2, Cause::BadByte))),
        ],
    },
    Group {
        // how many entries
        part: Part::Dictionary,
        texts: &[
            ("{}", Ok(0)),
            ("{a}", Ok(1)),
            (
                "{a = 1, b = -9223372036854775808 : i64, c = [true, \"x\", []], \"d e\" = @s, sv.namehint = \"q\"}",
                Ok(5),
            ),
            ("{a = 0xFFFFFFFFFFFFFFFF}", Ok(1)),
            (
                "{a = 18446744073709551616}",
                Err((6, Cause::NumberTooLarge)),
            ),
            (
                "{a = -9223372036854775809}",
                Err((7, Cause::NumberTooLarge)),
            ),
            ("{a, b = 2, a = 3}", Err((12, Cause::Unexpected))),
            ("{a = 1, \"\\61\" = 2}", Err((9, Cause::Unexpected))),
            ("{sv.namehint}", Err((13, Cause::Unexpected))),
            ("{sv.namehint = 1}", Err((16, Cause::Unexpected))),
            ("{a = #x}", Err((6, Cause::OutsideProfile))),
            ("{a = 1,}", Err((8, Cause::Unexpected))),
            ("{a = 1", Err((7, Cause::Unexpected))),
            ("a", Err((1, Cause::Unexpected))),
        ],
    },
    Group {
        // how many constants
        part: Part::Constants,
        texts: &[
            ("[]", Ok(0)),
            ("[-1 : i8, true, [false, 2 : i2]]", Ok(3)),
            ("[1]", Err((3, Cause::Unexpected))),
            ("1 : i8", Err((1, Cause::Unexpected))),
            (
                "[340282366920938463463374607431768211456 : i8]",
                Err((2, Cause::NumberTooLarge)),
            ),
        ],
    },
    Group {
        // how many results
        part: Part::Results,
        texts: &[
            ("comb.add", Ok(0)),
            ("%a = ", Ok(1)),
            ("%a, %1, %b-c = ", Ok(3)),
            ("%a:5 = ", Ok(5)),
            ("%a:4294967296 = ", Err((4, Cause::NumberTooLarge))),
            ("%a %b = ", Err((4, Cause::Unexpected))),
        ],
    },
];

fn outcome_of(alloc: Global, part: Part, source: &[u8]) -> Outcome {
    match part {
        Part::Type => width_of(alloc, source),
        Part::Dictionary => entries_of(alloc, source),
        Part::Constants => constants_of(alloc, source),
        Part::Results => results_of(alloc, source),
    }
}

// the first text of a group of which something else is made
fn other_text(alloc: Global, group: &Group) -> Option<&'static str> {
    for (source, wanted) in group.texts {
        if outcome_of(alloc, group.part, source.as_bytes()) != *wanted {
            return Some(source);
        }
    }
    None
}

// the first text of all groups of which something else is made
fn first_other(alloc: Global, groups: &[Group]) -> Option<&'static str> {
    for group in groups {
        if let Some(text) = other_text(alloc, group) {
            return Some(text);
        }
    }
    None
}

#[test]
fn parts_are_read_or_refused(rt: HostRuntime) {
    assert_eq!(rt; first_other(rt.alloc(), &GROUPS), None);
}

// a text that opens so many arrays
fn nested_arrays(alloc: Global, depth: u32) -> Result<Text, AllocError> {
    let mut text = Text::new(alloc);
    for _ in 0..depth {
        text.push_bytes(b"!hw.array<1x")?;
    }
    text.push_bytes(b"i1")?;
    for _ in 0..depth {
        text.push_bytes(b">")?;
    }
    Ok(text)
}

#[test]
fn the_33rd_open_type_is_refused(rt: HostRuntime) -> Result<(), Fail> {
    for (depth, outcome) in [(32, Ok(1)), (33, Err((385, Cause::TooDeep)))] {
        let text = nested_arrays(rt.alloc(), depth)?;
        assert_eq!(rt; width_of(rt.alloc(), text.as_bytes()), outcome);
    }
    Ok(())
}

#[test]
fn an_operand_has_a_name_and_a_number(rt: HostRuntime) -> Result<(), Fail> {
    let mut reader = Reader::new(rt.alloc(), b"%a-1#7, %b");
    let Ok(first) = operand_text(&mut reader, OpName::File) else {
        panic!(rt; "no operand");
    };
    assert_eq!(rt; first.name, b"a-1".as_slice());
    assert_eq!(rt; first.number, 7);
    assert!(rt; operand_text(&mut reader, OpName::File).is_err());
    assert!(rt; reader.want_word(OpName::File, b"x").is_err());
    Ok(())
}
