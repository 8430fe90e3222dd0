//! What the bytes of a pipeline begin with.
ghost use Rattle.std.specs.Prelude.{◌≡◌, ◌≤◌, length};
ghost use Rattle.pass_pipeline.specs.Tokens.{is_letter, is_digit, is_name_byte, is_name, name_length, token_in};

/// The token that bytes begin with: the longest name, or else one byte.
#[tactic(auto, unfolding(crate::specs::Tokens::token_in))]
pub(crate) fn token_in(bytes: &[u8]) -> &[u8]
    requires { 1 ≤ length bytes.now }
    ensures { result.now ≡ token_in bytes.now }
{
    let length = name_length(bytes);
    if length == 0 {
        &bytes[..1]
    } else {
        &bytes[..length]
    }
}

/// Whether a token is a name.
pub(crate) fn is_name(token: &[u8]) -> bool
    ensures { result ≡ is_name token.now }
{
    match token {
        [first, ..] => is_name_byte(*first),
        [] => false,
    }
}

// How many bytes at the beginning are bytes of names.
fn name_length(bytes: &[u8]) -> usize
    ensures exact { result ≡ name_length bytes.now }
    ensures within { result ≤ length bytes.now }
{
    for (i, byte) in bytes.iter().enumerate() {
        if !is_name_byte(*byte) {
            return i;
        }
    }
    bytes.len()
}

fn is_name_byte(byte: u8) -> bool
    ensures { result ≡ is_name_byte byte }
{
    is_letter(byte) || (is_digit(byte) || (byte == b'.' || (byte == b'_' || byte == b'-')))
}

fn is_letter(byte: u8) -> bool
    ensures { result ≡ is_letter byte }
{
    (b'A' <= byte && byte <= b'Z') || (b'a' <= byte && byte <= b'z')
}

fn is_digit(byte: u8) -> bool
    ensures { result ≡ is_digit byte }
{
    b'0' <= byte && byte <= b'9'
}
