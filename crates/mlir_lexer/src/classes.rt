//! Classes of bytes, and runs of them.
ghost use Rattle.std.specs.Prelude.{◌≡◌, ◌≤◌, ℕ, Bool, length};
ghost use Rattle.mlir_lexer.specs.Classes.{is_space, is_letter, is_digit, is_hex_digit, is_name_start, is_name_byte, is_suffix_byte, is_line_byte};
ghost use Rattle.mlir_lexer.specs.Runs.{run, begins};

/// A class of bytes.
pub trait Class {
    // The bytes of the class.
    ghost test: { ℕ → Bool };

    /// Whether a byte is of the class.
    fn has(byte: u8) -> bool
        ensures { result ≡ test byte };
}

/// How many bytes at the beginning are of a class.
pub fn run_of<C: Class>(bytes: &[u8]) -> usize
    ensures exact { result ≡ run C.test bytes.now }
    ensures within { result ≤ length bytes.now }
{
    for (i, byte) in bytes.iter().enumerate() {
        if !C::has(*byte) {
            return i;
        }
    }
    bytes.len()
}

/// Whether there is a first byte, and it is of a class.
pub fn begins_with<C: Class>(bytes: &[u8]) -> bool
    ensures { result ≡ begins C.test bytes.now }
{
    match bytes {
        [first, ..] => C::has(*first),
        [] => false,
    }
}

/// Space, tab and CR.
pub enum Space {}

/// The digits.
pub enum Digit {}

/// The digits, and letters from A to F in either case.
pub enum HexDigit {}

/// The bytes of a bare identifier after its first one.
pub enum NameByte {}

/// The bytes of a suffix that does not begin with a digit.
pub enum SuffixByte {}

/// All bytes but LF.
pub enum LineByte {}

impl Class for Space {
    ghost test = { is_space };

    fn has(byte: u8) -> bool {
        byte == b' ' || byte == b'\t' || byte == b'\r'
    }
}

impl Class for Digit {
    ghost test = { is_digit };

    fn has(byte: u8) -> bool {
        b'0' <= byte && byte <= b'9'
    }
}

impl Class for HexDigit {
    ghost test = { is_hex_digit };

    fn has(byte: u8) -> bool {
        Digit::has(byte) || ((b'A' <= byte && byte <= b'F') || (b'a' <= byte && byte <= b'f'))
    }
}

impl Class for NameByte {
    ghost test = { is_name_byte };

    fn has(byte: u8) -> bool {
        is_name_start(byte) || (Digit::has(byte) || (byte == b'$' || byte == b'.'))
    }
}

impl Class for SuffixByte {
    ghost test = { is_suffix_byte };

    fn has(byte: u8) -> bool {
        NameByte::has(byte) || byte == b'-'
    }
}

impl Class for LineByte {
    ghost test = { is_line_byte };

    fn has(byte: u8) -> bool {
        !(byte == b'\n')
    }
}

/// Whether a byte may begin a bare identifier.
pub fn is_name_start(byte: u8) -> bool
    ensures { result ≡ is_name_start byte }
{
    is_letter(byte) || byte == b'_'
}

// Letters of ASCII.
fn is_letter(byte: u8) -> bool
    ensures { result ≡ is_letter byte }
{
    (b'A' <= byte && byte <= b'Z') || (b'a' <= byte && byte <= b'z')
}
