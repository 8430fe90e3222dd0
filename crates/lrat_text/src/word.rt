//! The words of formulas and of proofs.
ghost use Rattle.std.specs.Prelude.{◌≡◌, if◌then◌else◌, Some, None};
ghost use Rattle.lrat_text.specs.Numbers.{number, is_digit, takes_digit, with_digit};
ghost use Rattle.lrat_text.specs.Words.{word_of, unsigned, negative};

use resolution_proof::literal::Literal;

/// What a word of a line says.
#[derive(Clone, Copy)]
pub enum Word {
    /// The number 0, which ends a list.
    End,
    /// A number other than 0, whose sign is the literal's.
    Signed(Literal),
    /// The letter `d`, which marks a deletion.
    Delete,
    /// Anything else, also a number of 2^64 or more.
    Other,
}

/// The number with one more digit, if it is a digit and the number is below 2^64.
fn with_more(value: u64, digit: u8) -> Option<u64>
    ensures { result ≡ (if takes_digit value digit then Some (with_digit value digit) else None) }
{
    if !is_digit(digit) {
        return None;
    }
    let more = value as u128 * 10 + (digit - b'0') as u128;
    if more < 1 << 64 {
        Some(more as u64)
    } else {
        None
    }
}

fn is_digit(byte: u8) -> bool
    ensures { result ≡ is_digit byte }
{
    b'0' <= byte && byte <= b'9'
}

/// The number that a word of decimal digits writes, if it is below 2^64.
#[tactic(auto, using(crate::proofs::NumberStarts::number_begins), unfolding(crate::specs::Numbers::number))]
pub fn number(word: &[u8]) -> Option<u64>
    ensures { result ≡ number word.now }
{
    if word.is_empty() {
        return None;
    }
    let mut value = 0;
    let mut rest = word;
    while let Some((digit, others)) = rest.split_first() {
        match with_more(value, *digit) {
            Some(more) => value = more,
            None => return None,
        }
        rest = others;
    }
    Some(value)
}

/// What a word says.
#[tactic(auto, unfolding(crate::specs::Words::word_of))]
pub fn word_of(word: &[u8]) -> Word
    ensures { result ≡ word_of word.now }
{
    let Some((first, digits)) = word.split_first() else {
        return Word::Other;
    };
    if *first == b'-' {
        negative(number(digits))
    } else if word == b"d".as_slice() {
        Word::Delete
    } else {
        unsigned(number(word))
    }
}

/// What a number without a sign says.
fn unsigned(value: Option<u64>) -> Word
    ensures { result ≡ unsigned value }
{
    match value {
        None => Word::Other,
        Some(0) => Word::End,
        Some(variable) => Word::Signed(Literal {
            variable,
            positive: true,
        }),
    }
}

/// What a number behind a minus sign says.
fn negative(value: Option<u64>) -> Word
    ensures { result ≡ negative value }
{
    match value {
        None | Some(0) => Word::Other,
        Some(variable) => Word::Signed(Literal {
            variable,
            positive: false,
        }),
    }
}
