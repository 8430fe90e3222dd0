//! Words of a text, each as `WIDTH'hDIGITS`.
use bits_core::Bits;
use operation_values::bit_string::BitString;
use std::alloc::{AllocError, Global};

// The value of a hexadecimal digit.
fn digit_of(byte: u8) -> u128 {
    match byte {
        b'0'..=b'9' => u128::from(byte - b'0'),
        b'A'..=b'F' => u128::from(byte - b'A') + 10,
        _ => 0,
    }
}

// The number that hexadecimal digits say, where it has 128 bits at most.
fn number_of(digits: &str) -> u128 {
    let mut number = 0_u128;
    for byte in digits.bytes() {
        number = number.saturating_mul(16).saturating_add(digit_of(byte));
    }
    number
}

/// The word that `WIDTH'hDIGITS` says, where it is one of 1 to 128 bits.
pub fn word_of(text: &str) -> Option<Bits> {
    let Some((width, digits)) = text.split_once("'h") else {
        return None;
    };
    match width.parse::<u32>() {
        Ok(width) => Bits::new(width, number_of(digits)),
        Err(_) => None,
    }
}

/// The words that stand in a text between blanks, or none where one of them is no word. The error comes only when out of memory.
pub fn words_of(alloc: Global, text: &str) -> Result<Option<Vec<Bits>>, AllocError> {
    let mut words = Vec::new(alloc);
    for one in text.split_whitespace() {
        let Some(word) = word_of(one) else {
            return Ok(None);
        };
        words.push(word)?;
    }
    Ok(Some(words))
}

/// The bits of words, in order. The error comes only when out of memory.
pub fn join_words(alloc: Global, words: &[Bits]) -> Result<BitString, AllocError> {
    let mut bits = BitString::new(alloc);
    for word in words {
        let own = BitString::from_bits(alloc, word)?;
        bits.push_bits(own.as_slice())?;
    }
    Ok(bits)
}

/// Words of the same widths, all of them 0. The error comes only when out of memory.
pub fn zeros(alloc: Global, words: &[Bits]) -> Result<Vec<Bits>, AllocError> {
    let mut bits = Vec::new(alloc);
    for word in words {
        bits.push(Bits::truncate(word.width(), 0))?;
    }
    Ok(bits)
}
