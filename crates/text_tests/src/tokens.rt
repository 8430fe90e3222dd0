//! Tokens of texts.
use io_edge::byte_text::Text;
use mlir_lexer::token::TokenKind;
use mlir_lexer::tokens::Tokens;
use std::alloc::{AllocError, Global};
use std::test::Fail;

const SOURCE: &str =
    "hw.module @\"a\\22b\" // c\n  %x-1:02 = !seq.clock 0x1Fi8 \"\\n\\09\"\r\n\t->-#3#m<007xi8> @N.k(){}[],_9";

/// A token as a test states it: its kind, line, column, position and bytes.
struct Expected(TokenKind, u32, u32, u64, &'static str);

const WANTED: [Expected; 27] = [
    Expected(TokenKind::BareName, 1, 1, 0, "hw.module"),
    Expected(TokenKind::SymbolString, 1, 11, 10, "@\"a\\22b\""),
    Expected(TokenKind::ValueName, 2, 3, 26, "%x-1"),
    Expected(TokenKind::Colon, 2, 7, 30, ":"),
    Expected(TokenKind::Integer, 2, 8, 31, "02"),
    Expected(TokenKind::Equals, 2, 11, 34, "="),
    Expected(TokenKind::TypeName, 2, 13, 36, "!seq.clock"),
    Expected(TokenKind::Integer, 2, 24, 47, "0x1F"),
    Expected(TokenKind::BareName, 2, 28, 51, "i8"),
    Expected(TokenKind::StringLiteral, 2, 31, 54, "\"\\n\\09\""),
    Expected(TokenKind::Arrow, 3, 2, 64, "->"),
    Expected(TokenKind::Minus, 3, 4, 66, "-"),
    Expected(TokenKind::ResultNumber, 3, 5, 67, "#3"),
    Expected(TokenKind::AttributeAlias, 3, 7, 69, "#m"),
    Expected(TokenKind::Less, 3, 9, 71, "<"),
    Expected(TokenKind::Integer, 3, 10, 72, "007"),
    Expected(TokenKind::BareName, 3, 13, 75, "xi8"),
    Expected(TokenKind::Greater, 3, 16, 78, ">"),
    Expected(TokenKind::SymbolName, 3, 18, 80, "@N.k"),
    Expected(TokenKind::LeftParenthesis, 3, 22, 84, "("),
    Expected(TokenKind::RightParenthesis, 3, 23, 85, ")"),
    Expected(TokenKind::LeftBrace, 3, 24, 86, "{"),
    Expected(TokenKind::RightBrace, 3, 25, 87, "}"),
    Expected(TokenKind::LeftBracket, 3, 26, 88, "["),
    Expected(TokenKind::RightBracket, 3, 27, 89, "]"),
    Expected(TokenKind::Comma, 3, 28, 90, ","),
    Expected(TokenKind::BareName, 3, 29, 91, "_9"),
];

// Whether the next token is this one.
fn is_next(tokens: &mut Tokens<'_>, wanted: &Expected) -> bool {
    let Expected(kind, line, col, at, text) = *wanted;
    match tokens.next() {
        Ok(Some(token)) => {
            let location = (token.location.line, token.location.col, token.at);
            token.kind == kind && (location == (line, col, at) && token.text == text.as_bytes())
        }
        Ok(None) | Err(_) => false,
    }
}

// The first of these tokens that does not come, by its position.
fn first_other(tokens: &mut Tokens<'_>, rows: &[Expected]) -> Option<usize> {
    for (number, row) in rows.iter().enumerate() {
        if !is_next(tokens, row) {
            return Some(number);
        }
    }
    None
}

#[test]
fn a_text_is_its_tokens(rt: HostRuntime) {
    let mut tokens = Tokens::new(SOURCE.as_bytes());
    assert_eq!(rt; first_other(&mut tokens, &WANTED), None);
    assert!(rt; matches!(tokens.next(), Ok(None)));
    assert!(rt; matches!(tokens.next(), Ok(None)));
    assert_eq!(rt; tokens.location().col, 31);
}

/// A text, how many tokens stand before a bad byte, and the line and column of that byte; none where the text ends.
struct Bad(&'static str, usize, Option<(u32, u32)>);

const BAD: [Bad; 24] = [
    Bad("a\n = \"x\\q\"", 2, Some((2, 4))),
    Bad("a \"x\\", 1, Some((1, 3))),
    Bad("a \"x\\2g\"", 1, Some((1, 3))),
    Bad("\"ab\n\"", 0, Some((1, 1))),
    Bad("\"a\\\nb\"", 0, Some((1, 1))),
    Bad("@\"ab", 0, Some((1, 2))),
    Bad("@\"\\q\"", 0, Some((1, 2))),
    Bad(" %", 0, Some((1, 2))),
    Bad("% x", 0, Some((1, 1))),
    Bad("@(", 0, Some((1, 1))),
    Bad("! hw", 0, Some((1, 1))),
    Bad("%x# 1", 1, Some((1, 3))),
    Bad("1.5", 1, Some((1, 2))),
    Bad("::", 2, None),
    Bad("^bb0", 0, Some((1, 1))),
    Bad("a?", 1, Some((1, 2))),
    Bad("a *", 1, Some((1, 3))),
    Bad("a /x", 1, Some((1, 3))),
    Bad("a\r\u{c}", 1, Some((1, 3))),
    Bad("a\u{b}", 1, Some((1, 2))),
    Bad("a\u{7f}", 1, Some((1, 2))),
    Bad("\u{e9}", 0, Some((1, 1))),
    Bad("// \u{e9}\n$", 0, Some((2, 1))),
    Bad("\"\t\r\u{0}\u{e9}\" \u{0}", 1, Some((1, 9))),
];

// Whether so many tokens come.
fn come(tokens: &mut Tokens<'_>, count: usize) -> bool {
    for _ in 0..count {
        if !matches!(tokens.next(), Ok(Some(_))) {
            return false;
        }
    }
    true
}

// Whether the next token is refused at a location; at none, whether the text ends.
fn is_refused(tokens: &mut Tokens<'_>, location: Option<(u32, u32)>) -> bool {
    match tokens.next() {
        Err(refusal) => Some((refusal.location.line, refusal.location.col)) == location,
        Ok(found) => found.is_none() && location.is_none(),
    }
}

// The first text that is not refused at its location, and again.
fn first_taken(rows: &[Bad]) -> Option<&'static str> {
    for Bad(source, before, location) in rows {
        let mut tokens = Tokens::new(source.as_bytes());
        let comes = come(&mut tokens, *before);
        let is_once = is_refused(&mut tokens, *location);
        if !(comes && (is_once && is_refused(&mut tokens, *location))) {
            return Some(source);
        }
    }
    None
}

#[test]
fn a_bad_byte_is_refused_at_its_location_and_again(rt: HostRuntime) {
    assert_eq!(rt; first_taken(&BAD), None);
}

const CONTENTS: [(&str, &str); 9] = [
    ("\"a\\\\\\22\\n\\t\\\"\\4aZ\"", "a\\\"\n\t\"JZ"),
    ("\"\"", ""),
    ("@\"x\\00 y\"", "x\u{0} y"),
    ("%a-1", "a-1"),
    ("@N", "N"),
    ("#12", "12"),
    ("!hw.array", "hw.array"),
    ("i8", "i8"),
    ("->", "->"),
];

// Whether the first token of a text has this content.
fn has_content(alloc: Global, source: &str, content: &str) -> Result<bool, AllocError> {
    let Ok(Some(token)) = Tokens::new(source.as_bytes()).next() else {
        return Ok(false);
    };
    let mut text = Text::of(alloc, b">")?;
    token.push_content(&mut text)?;
    Ok(&text.as_bytes()[1..] == content.as_bytes())
}

// The first text whose token has another content.
fn first_other_content(
    alloc: Global,
    rows: &[(&'static str, &'static str)],
) -> Result<Option<&'static str>, AllocError> {
    for (source, content) in rows {
        if !has_content(alloc, source, content)? {
            return Ok(Some(source));
        }
    }
    Ok(None)
}

#[test]
fn tokens_hold_names_and_the_content_of_strings(rt: HostRuntime) -> Result<(), Fail> {
    assert_eq!(rt; first_other_content(rt.alloc(), &CONTENTS)?, None);
    Ok(())
}
