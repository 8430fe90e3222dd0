//! Numbers as words say them.
ghost use Rattle.std.specs.Prelude.{◌≡◌, ◌≤◌, IfSome};
ghost use Rattle.std.specs.Str.{all_ascii_digits};
ghost use Rattle.command_line.specs.Numbers.{is_numeral, if_between, number_between};

/// The number that decimal digits say, without a sign and without a leading zero, where it is one from `least` to `most`.
pub(crate) fn number_between(text: &str, least: u64, most: u64) -> Option<u64>
    ensures is { result ≡ number_between least most text.now }
    ensures least { IfSome result (λ n. least ≤ n) }
    ensures most { IfSome result (λ n. n ≤ most) }
{
    if !is_numeral(text.as_bytes()) {
        return None;
    }
    match text.parse::<u64>() {
        Ok(number) => if_between(number, least, most),
        Err(_) => None,
    }
}

/// The number, where it is from `least` to `most`.
fn if_between(number: u64, least: u64, most: u64) -> Option<u64>
    ensures is { result ≡ if_between least most number }
    ensures least { IfSome result (λ n. least ≤ n) }
    ensures most { IfSome result (λ n. n ≤ most) }
{
    if least <= number && number <= most {
        Some(number)
    } else {
        None
    }
}

/// Whether a text is of decimal digits, one or more, the first of several no zero.
fn is_numeral(text: &[u8]) -> bool
    ensures { result ≡ is_numeral text.now }
{
    !text.is_empty() && are_digits(text) && (text.len() == 1 || text[0] != b'0')
}

/// Whether all bytes are decimal digits.
fn are_digits(text: &[u8]) -> bool
    ensures { result ≡ all_ascii_digits text.now }
{
    for byte in text {
        if !byte.is_ascii_digit() {
            return false;
        }
    }
    true
}
