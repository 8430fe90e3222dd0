//! The tokens of a Verilog text (IEEE 1364-2005, 3.1 to 3.7: lexical conventions), and the numbers of numerals.
use std::alloc::{AllocError, Global};

/// A token.
#[derive(Clone, Copy)]
pub enum Token<'t> {
    /// A name, a keyword or a numeral.
    Word(&'t [u8]),
    /// An operator.
    Operator(&'t [u8]),
    /// A byte that stands alone.
    Mark(u8),
}

// What a byte belongs to.
#[derive(Clone, Copy, PartialEq, Eq)]
enum Sort {
    Word,
    Operator,
    Blank,
    Mark,
}

/// Whether a byte begins a name.
pub fn begins_name(byte: u8) -> bool {
    byte.is_ascii_alphabetic() || byte == b'_'
}

/// Whether a byte stands in names.
pub fn is_name_byte(byte: u8) -> bool {
    begins_name(byte) || byte.is_ascii_digit() || byte == b'$'
}

// Whether a byte is one of these.
fn is_among(byte: u8, bytes: &[u8]) -> bool {
    for other in bytes {
        if *other == byte {
            return true;
        }
    }
    false
}

fn sort_of(byte: u8) -> Sort {
    if is_name_byte(byte) || byte == b'\'' {
        Sort::Word
    } else if is_among(byte, b"+-*/%<>=!&|~") {
        Sort::Operator
    } else if is_among(byte, b" \t\n\x0c") {
        Sort::Blank
    } else {
        Sort::Mark
    }
}

// The sort of a byte after the bytes that belong together: after a word with `'` in it `?` is a digit of that number
// (IEEE 1364-2005, 3.5.1).
fn sort_after(open: Sort, bytes: &[u8], byte: u8) -> Sort {
    if byte == b'?' && open == Sort::Word && is_among(b'\'', bytes) {
        Sort::Word
    } else {
        sort_of(byte)
    }
}

// The bytes from a position to another one.
fn piece(text: &[u8], start: usize, end: usize) -> &[u8] {
    if start <= end && end <= text.len() {
        &text[start..end]
    } else {
        &[]
    }
}

// The token of bytes that belong together, if they are one.
fn whole_token(sort: Sort, bytes: &[u8]) -> Option<Token<'_>> {
    match (sort, bytes) {
        (Sort::Word, _) => Some(Token::Word(bytes)),
        (Sort::Operator, _) => Some(Token::Operator(bytes)),
        (Sort::Mark, [byte, ..]) => Some(Token::Mark(*byte)),
        _ => None,
    }
}

/// The tokens of a text, in order.
pub fn tokens(alloc: Global, text: &[u8]) -> Result<Vec<Token<'_>>, AllocError> {
    let mut all = Vec::new(alloc);
    let mut start = 0;
    let mut open = Sort::Blank;
    for (at, byte) in text.iter().enumerate() {
        let sort = sort_after(open, piece(text, start, at), *byte);
        if sort != open || sort == Sort::Mark {
            if let Some(whole) = whole_token(open, piece(text, start, at)) {
                all.push(whole)?;
            }
            start = at;
            open = sort;
        }
    }
    if let Some(whole) = whole_token(open, piece(text, start, text.len())) {
        all.push(whole)?;
    }
    Ok(all)
}

/// The number of a decimal numeral below 2^32.
pub fn decimal(numeral: &[u8]) -> Option<u32> {
    let mut number: u32 = 0;
    for byte in numeral {
        if !byte.is_ascii_digit() {
            return None;
        }
        number = number
            .checked_mul(10)?
            .checked_add(u32::from(*byte - b'0'))?;
    }
    if numeral.is_empty() {
        None
    } else {
        Some(number)
    }
}

// The number of a hexadecimal digit.
fn hex_digit(byte: u8) -> Option<u8> {
    match byte {
        b'0'..=b'9' => Some(byte - b'0'),
        b'A'..=b'F' => Some(byte - b'A' + 10),
        b'a'..=b'f' => Some(byte - b'a' + 10),
        _ => None,
    }
}

/// The number of a hexadecimal numeral below 2^128.
pub fn hexadecimal(numeral: &[u8]) -> Option<u128> {
    let mut number: u128 = 0;
    for byte in numeral {
        let digit = hex_digit(*byte)?;
        number = number.checked_mul(16)?.checked_add(u128::from(digit))?;
    }
    if numeral.is_empty() {
        None
    } else {
        Some(number)
    }
}

/// The parts of a literal: its width, whether it is marked signed, its digits.
pub fn literal_parts(word: &[u8]) -> Option<(&[u8], bool, &[u8])> {
    for (at, byte) in word.iter().enumerate() {
        if *byte == b'\'' {
            let following = piece(word, at + 1, word.len());
            let width = piece(word, 0, at);
            return match following {
                [b's', b'h', digits @ ..] => Some((width, true, digits)),
                [b'h', digits @ ..] => Some((width, false, digits)),
                _ => None,
            };
        }
    }
    None
}
