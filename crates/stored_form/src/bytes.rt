//! What numbers are below by their types in code: bytes, and counts.
ghost use Rattle.std.specs.Prelude.{◌<◌};
ghost use Rattle.mlir_syntax.specs.Numerals.{count_limit};
ghost use Rattle.stored_form.specs.Bytes.{Each, AreBytes, MayBeBytes};

use io_edge::byte_text::Text;

/// Does nothing. Its clause says that bytes are numbers below 256.
pub(crate) fn are_bytes(bytes: &[u8])
    ensures { AreBytes bytes.now }
{
    for byte in bytes {
        let _ = *byte;
    }
}

/// Does nothing. Its clause says that the bytes of each text are numbers below 256.
pub(crate) fn are_texts(texts: &[Text])
    ensures { Each AreBytes texts.now }
{
    for text in texts {
        are_bytes(text.as_bytes());
    }
}

/// Does nothing. Its clause says that the bytes of a text, where there is one, are numbers below 256.
pub(crate) fn may_be_bytes(text: &Option<Text>)
    ensures { MayBeBytes text.now }
{
    match text {
        Some(text) => are_bytes(text.as_bytes()),
        None => {}
    }
}

/// Does nothing. Its clause says that a count is below the limit of counts.
pub(crate) fn is_count(count: u32)
    ensures { count < count_limit }
{
    let _ = count;
}
